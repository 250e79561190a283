// The texts that are written, and how they are written.

use life_cli::{print_made, write_whole};
use life_ports::{Failed, MemorySink};
use script::Status;
use std::alloc::Global;
use std::process::Abort;
use std::test::Fail;

fn makes_have_lines(rt: &impl Abort, alloc: Global, rows: &[(Status, &str)]) -> Result<(), Fail> {
    for (ended, want) in rows {
        let text = print_made(alloc, 769, *ended)?;
        assert_eq!(rt; text.as_str(), *want);
    }
    Ok(())
}

#[test]
fn an_image_that_was_made_has_its_line(rt: HostRuntime) -> Result<(), Fail> {
    makes_have_lines(
        &rt,
        rt.alloc(),
        &[
            (Status::Good, "made 769 sectors\n"),
            (Status::WriteFault, "write fault\n"),
        ],
    )
}

#[test]
fn bytes_are_written_whole_and_nothing_of_none(rt: HostRuntime) -> Result<(), Fail> {
    let alloc = rt.alloc();
    let mut out = MemorySink::new(alloc, vec![in alloc; 2]?);
    assert_eq!(rt; write_whole(&mut out, b""), Ok(()));
    assert_eq!(rt; write_whole(&mut out, b"ok 1\n"), Ok(()));
    assert_eq!(rt; write_whole(&mut out, b""), Ok(()));
    assert_eq!(rt; write_whole(&mut out, b"ok 2\n"), Err(Failed));
    assert_eq!(rt; out.bytes(), b"ok 1\n".as_slice());
    Ok(())
}
