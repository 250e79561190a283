// Scripts that are taken in.

use crate::runs::{one_disk, run_from};
use life_limits::MAX_SCRIPT_BYTES;
use life_ports::MemorySource;
use std::alloc::Global;
use std::process::Abort;
use std::test::Fail;

// The bytes of a comment, the read that fails, and what is written.
fn scripts_write(rt: &impl Abort, alloc: Global, rows: &[(usize, u64, &str)]) -> Result<(), Fail> {
    for (length, fails, written) in rows {
        let bytes = vec![in alloc; b'#'; *length]?;
        let source = MemorySource::new(bytes, vec![in alloc; *fails]?);
        let mut images = one_disk(alloc, 72, Vec::new(alloc))?;
        let ended = run_from(alloc, &mut images, &["steps", "disk"], source)?;
        assert_eq!(rt; ended.written.as_str(), *written, "at {length}");
    }
    Ok(())
}

#[test]
fn a_script_is_taken_whole_or_a_fault_is_answered(rt: HostRuntime) -> Result<(), Fail> {
    scripts_write(
        &rt,
        rt.alloc(),
        &[
            (0, 9, ""),
            (10_000, 9, ""),
            (10_000, 3, "source fault\n"),
            (MAX_SCRIPT_BYTES, 9_999, ""),
            (MAX_SCRIPT_BYTES + 1, 9_999, "script too long\n"),
        ],
    )
}
