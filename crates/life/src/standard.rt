// The descriptors of standard input, output and error.

use std::alloc::Global;
use std::fs::File;
use std::io;
use std::os::fd::AsRawFd;
use std::rt::Files;

// The last of the three descriptors.
const STANDARD_ERROR: i32 = 2;

/// Opens the root directory until its descriptor is none of the standard three. So no file that is opened while these live has the number of a standard
/// descriptor with which the program was not started. A read of a directory fails, and so does a write.
pub(crate) fn hold_standard(
    alloc: Global,
    files: &impl Files<File = File>,
) -> io::Result<Vec<File>> {
    let mut held = Vec::new(alloc);
    for _ in 0..=STANDARD_ERROR {
        let root = File::open(files, "/")?;
        if root.as_raw_fd() > STANDARD_ERROR {
            return Ok(held);
        }
        if held.push(root).is_err() {
            return Err(io::Error::from(io::ErrorKind::OutOfMemory));
        }
    }
    Ok(held)
}

#[cfg(test)]
mod tests {
    use super::*;
    use std::test::Fail;

    // The three standard descriptors are open, so none is held, and the next file has another number.
    #[test]
    fn no_file_has_a_standard_descriptor(rt: HostRuntime) -> Result<(), Fail> {
        let alloc = rt.alloc();
        assert_eq!(rt; hold_standard(alloc, &rt)?.len(), 0);
        let next = File::open(&rt, "/dev/null")?;
        assert!(rt; next.as_raw_fd() > STANDARD_ERROR);
        Ok(())
    }
}
