use crate::{FileImages, ReadsRuns, WindowDisk};
use disk_model::{Disk, Images, MemoryDisk};
use life_bytes::Sector;
use life_ports::Failed;
use std::path::PathBuf;
use std::test::Fail;
use std::{env, fs, process};

impl ReadsRuns for MemoryDisk {
    fn read_run(&mut self, at: u64, into: &mut [Sector]) -> Result<usize, Failed> {
        into[0] = self.sector(at);
        Ok(1)
    }
}

// The first byte of a sector, where a read succeeds.
fn byte_of(disk: &mut impl Disk, at: u64) -> Option<u8> {
    let mut sector = Sector::zero();
    if at < disk.sectors() && disk.read(at, &mut sector).is_ok() {
        return Some(sector.bytes[0]);
    }
    None
}

// The sectors 0, 1, 200 and 201, beginning with the last.
fn seen_of(disk: &mut impl Disk) -> [Option<u8>; 4] {
    [
        byte_of(disk, 201),
        byte_of(disk, 0),
        byte_of(disk, 1),
        byte_of(disk, 200),
    ]
}

// Fills the sectors 1 to 200 with this byte, and flushes.
fn fill(disk: &mut impl Disk, byte: u8) -> bool {
    let pieces = [Sector { bytes: [byte; 512] }; 200];
    disk.sectors() > 200 && disk.write(1, &pieces).is_ok() && disk.flush().is_ok()
}

const BLANK: [Option<u8>; 4] = [Some(0); 4];

const FILLED: [Option<u8>; 4] = [Some(0), Some(0), Some(7), Some(7)];

// A path of this process alone.
fn path_of(rt: &HostRuntime, name: &str) -> Result<PathBuf, Fail> {
    let name = format!(in rt.alloc(); "life-{name}-{}", process::id(rt.process()))?;
    Ok(env::temp_dir(rt)?.join(rt.alloc(), name.as_str())?)
}

#[test]
fn a_write_is_read_where_old_sectors_were_read_ahead(rt: HostRuntime) -> Result<(), Fail> {
    let room = vec![in rt.alloc(); Sector::zero(); 4]?;
    let mut disk = WindowDisk::new(MemoryDisk::new(rt.alloc(), 300)?, room);
    let before = seen_of(&mut disk);
    let filled = fill(&mut disk, 7);
    assert_eq!(rt; (before, filled, seen_of(&mut disk)), (BLANK, true, FILLED));
    Ok(())
}

// What was written and flushed is read, then and after the file is opened again. While it is open, nobody else opens it.
#[test]
fn a_file_keeps_what_was_written(rt: HostRuntime) -> Result<(), Fail> {
    let path = path_of(&rt, "kept")?;
    let mut images = FileImages::new(rt.alloc(), &rt);
    let mut disk = images.create(path.to_string_lossy(), 300)?;
    let before = seen_of(&mut disk);
    let filled = fill(&mut disk, 7);
    let first = seen_of(&mut disk);
    let refused = images.attach(path.to_string_lossy()).is_err();
    drop(disk);
    let second = seen_of(&mut images.attach(path.to_string_lossy())?);
    fs::remove_file(&rt, path.as_path())?;
    assert_eq!(rt;
        (before, filled, first, refused, second),
        (BLANK, true, FILLED, true, FILLED)
    );
    Ok(())
}

// A last part of less than a sector is none. A file that lost its sectors since it was opened can't be read, and a device can't be synced.
#[test]
fn a_file_gives_no_more_than_it_has(rt: HostRuntime) -> Result<(), Fail> {
    let path = path_of(&rt, "odd")?;
    let mut images = FileImages::new(rt.alloc(), &rt);
    fs::write(&rt, path.as_path(), [9u8; 1100].as_slice())?;
    let mut odd = images.attach(path.to_string_lossy())?;
    fs::write(&rt, path.as_path(), b"".as_slice())?;
    let lost = byte_of(&mut odd, 1);
    fs::remove_file(&rt, path.as_path())?;
    let mut device = images.attach("/dev/null")?;
    let unsynced = device.flush().is_err();
    assert_eq!(rt; (odd.sectors(), lost, odd.faults()), (2, None, 1));
    assert_eq!(rt; (unsynced, device.faults(), images.faults()), (true, 1, 0));
    Ok(())
}
