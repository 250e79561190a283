use extent_fork::Extent;
use life_ports::NoMemory;
use life_table::{Call, Key, Reply};
use plain_table::PlainTable;
use std::alloc::Global;
use std::test::Fail;

fn key(number: u64, generation: u32) -> Key {
    Key { number, generation }
}

/// The text that a script prints for the reply of a call.
fn text_of(alloc: Global, reply: &Reply) -> Result<String, NoMemory> {
    let text = match reply {
        Reply::Done => "ok",
        Reply::Made { key } => return Ok(format!(in alloc;
            "ok {}.{}",
            key.number, key.generation
        )?),
        Reply::Shown {
            links,
            blocks,
            runs,
            ..
        } => return text_of_row(alloc, *links, *blocks, runs.as_slice()),
        Reply::Stale => "stale",
        Reply::NoInodes => "no inodes",
        Reply::NoSpace => "no space",
        Reply::TooManyLinks => "too many links",
        Reply::NoLinks => "no links",
        Reply::TooManyExtents => "too many extents",
        Reply::CutTooFar => "cut too far",
        _ => "another",
    };
    Ok(String::from_str(alloc, text)?)
}

fn text_of_row(
    alloc: Global,
    links: u32,
    blocks: u32,
    runs: &[Extent],
) -> Result<String, NoMemory> {
    let mut text = format!(in alloc; "links {links} blocks {blocks} runs")?;
    for run in runs {
        write!(text, " {}+{}", run.start, run.count)?;
    }
    Ok(text)
}

/// Makes these calls one after another, and tells the first place at which the reply's text is another.
fn first_other(
    alloc: Global,
    plain: &mut PlainTable,
    lines: &[(Call, &str)],
) -> Result<Option<usize>, NoMemory> {
    for (place, (call, wanted)) in lines.iter().enumerate() {
        let text = match plain.step(alloc, call)? {
            Some(reply) => text_of(alloc, &reply)?,
            None => String::from_str(alloc, "none")?,
        };
        if text.as_str() != *wanted {
            return Ok(Some(place));
        }
    }
    Ok(None)
}

fn create() -> Call {
    Call::Create { group: 0 }
}

fn tmpfile() -> Call {
    Call::Tmpfile { group: 0 }
}

fn open(key: Key) -> Call {
    Call::OpenKey { key }
}

fn close(key: Key) -> Call {
    Call::CloseKey { key }
}

fn link(key: Key) -> Call {
    Call::Link { key }
}

fn unlink(key: Key) -> Call {
    Call::Unlink { key }
}

fn grow(key: Key, count: u32) -> Call {
    Call::Grow { key, count }
}

fn cut(key: Key, count: u32) -> Call {
    Call::Cut { key, count }
}

fn stat(key: Key) -> Call {
    Call::Stat { key }
}

#[test]
fn first_file(rt: HostRuntime) -> Result<(), Fail> {
    let a = key(192, 1);
    let mut plain = PlainTable::new(rt.alloc(), 1, 64)?;
    let lines = [
        (create(), "ok 192.1"),
        (stat(a), "links 1 blocks 0 runs"),
        (close(a), "ok"),
        (stat(a), "none"),
        (Call::Create { group: 1 }, "none"),
        (Call::Sync, "none"),
        (Call::Gc, "ok"),
    ];
    assert_eq!(rt; first_other(rt.alloc(), &mut plain, &lines)?, None);
    Ok(())
}

#[test]
fn tmpfile_is_linked(rt: HostRuntime) -> Result<(), Fail> {
    let a = key(192, 1);
    let mut plain = PlainTable::new(rt.alloc(), 1, 64)?;
    let lines = [
        (tmpfile(), "ok 192.1"),
        (link(a), "ok"),
        (close(a), "ok"),
        (open(a), "ok"),
        (stat(a), "links 1 blocks 0 runs"),
    ];
    assert_eq!(rt; first_other(rt.alloc(), &mut plain, &lines)?, None);
    Ok(())
}

#[test]
fn no_revival(rt: HostRuntime) -> Result<(), Fail> {
    let a = key(192, 1);
    let mut plain = PlainTable::new(rt.alloc(), 1, 64)?;
    let lines = [
        (create(), "ok 192.1"),
        (open(a), "ok"),
        (unlink(a), "ok"),
        (open(a), "ok"),
        (close(a), "ok"),
        (close(a), "ok"),
        (close(a), "ok"),
        (open(a), "stale"),
        (create(), "ok 193.1"),
    ];
    assert_eq!(rt; first_other(rt.alloc(), &mut plain, &lines)?, None);
    assert!(rt; plain.free(rt.alloc(), a)?);
    assert!(rt; !plain.free(rt.alloc(), a)?);
    let lines = [(Call::Gc, "ok"), (create(), "ok 192.2"), (open(a), "stale")];
    assert_eq!(rt; first_other(rt.alloc(), &mut plain, &lines)?, None);
    Ok(())
}

#[test]
fn full_group(rt: HostRuntime) -> Result<(), Fail> {
    let a = key(192, 1);
    let b = key(193, 1);
    let mut plain = PlainTable::new(rt.alloc(), 1, 64)?;
    let lines = [
        (create(), "ok 192.1"),
        (tmpfile(), "ok 193.1"),
        (grow(b, 20), "ok"),
        (grow(a, 12), "ok"),
        (close(b), "ok"),
        (grow(a, 20), "no space"),
    ];
    assert_eq!(rt; first_other(rt.alloc(), &mut plain, &lines)?, None);
    assert!(rt; plain.free(rt.alloc(), b)?);
    let lines = [
        (grow(a, 20), "ok"),
        (stat(a), "links 1 blocks 32 runs 52+12 32+20"),
        (grow(a, 1), "no space"),
        (create(), "ok 193.2"),
        (Call::Gc, "ok"),
    ];
    assert_eq!(rt; first_other(rt.alloc(), &mut plain, &lines)?, None);
    Ok(())
}

#[test]
fn no_inodes(rt: HostRuntime) -> Result<(), Fail> {
    let a = key(192, 1);
    let last = key(255, 1);
    let mut plain = PlainTable::new(rt.alloc(), 1, 64)?;
    let lines = [(create(), "ok 192.1"), (grow(a, 32), "ok")];
    assert_eq!(rt; first_other(rt.alloc(), &mut plain, &lines)?, None);
    for number in 193..256 {
        let made = matches!(
            plain.step(rt.alloc(), &create())?,
            Some(Reply::Made { key }) if key.number == number && key.generation == 1
        );
        assert!(rt; made, "{number}");
    }
    let lines = [
        (create(), "no inodes"),
        (unlink(last), "ok"),
        (close(last), "ok"),
    ];
    assert_eq!(rt; first_other(rt.alloc(), &mut plain, &lines)?, None);
    assert!(rt; plain.free(rt.alloc(), last)?);
    assert_eq!(rt;
        first_other(rt.alloc(), &mut plain, &[(create(), "ok 255.2")])?,
        None
    );
    Ok(())
}

#[test]
fn twenty_two_runs(rt: HostRuntime) -> Result<(), Fail> {
    let a = key(192, 1);
    let b = key(193, 1);
    let mut plain = PlainTable::new(rt.alloc(), 1, 128)?;
    let lines = [(create(), "ok 192.1"), (create(), "ok 193.1")];
    assert_eq!(rt; first_other(rt.alloc(), &mut plain, &lines)?, None);
    let turn = [(grow(a, 1), "ok"), (grow(b, 1), "ok")];
    for place in 0..21 {
        assert_eq!(rt;
            first_other(rt.alloc(), &mut plain, &turn)?,
            None,
            "turn {place}"
        );
    }
    let runs = "links 1 blocks 22 runs 32+1 34+1 36+1 38+1 40+1 42+1 44+1 46+1 48+1 50+1 52+1 54+1 \
        56+1 58+1 60+1 62+1 64+1 66+1 68+1 70+1 72+2";
    let lines = [
        (grow(a, 1), "too many extents"),
        (cut(b, 1), "ok"),
        (grow(a, 1), "ok"),
        (stat(a), runs),
    ];
    assert_eq!(rt; first_other(rt.alloc(), &mut plain, &lines)?, None);
    Ok(())
}

#[test]
fn links_and_blocks(rt: HostRuntime) -> Result<(), Fail> {
    let a = key(192, 1);
    let mut plain = PlainTable::new(rt.alloc(), 1, 64)?;
    let lines = [
        (create(), "ok 192.1"),
        (grow(a, 2), "ok"),
        (cut(a, 3), "cut too far"),
        (cut(a, 2), "ok"),
        (unlink(a), "ok"),
        (unlink(a), "no links"),
    ];
    assert_eq!(rt; first_other(rt.alloc(), &mut plain, &lines)?, None);

    let mut plain = PlainTable::new(rt.alloc(), 1, 64)?;
    let lines = [(create(), "ok 192.1"), (close(a), "ok")];
    assert_eq!(rt; first_other(rt.alloc(), &mut plain, &lines)?, None);
    assert!(rt; plain.set_links(rt.alloc(), a, 2_147_483_647)?);
    let lines = [
        (open(a), "ok"),
        (stat(a), "links 2147483647 blocks 0 runs"),
        (link(a), "too many links"),
        (unlink(a), "ok"),
        (stat(a), "links 2147483646 blocks 0 runs"),
    ];
    assert_eq!(rt; first_other(rt.alloc(), &mut plain, &lines)?, None);
    assert!(rt; !plain.set_links(rt.alloc(), key(193, 1), 1)?);
    Ok(())
}

#[test]
fn last_generation(rt: HostRuntime) -> Result<(), Fail> {
    let a = key(192, 4_294_967_294);
    let first = key(192, 1);
    let mut plain = PlainTable::new(rt.alloc(), 1, 64)?;
    let lines = [(create(), "ok 192.1"), (close(first), "ok")];
    assert_eq!(rt; first_other(rt.alloc(), &mut plain, &lines)?, None);
    assert!(rt; plain.set_generation(rt.alloc(), 192, 4_294_967_294)?);
    let lines = [
        (open(first), "stale"),
        (open(a), "ok"),
        (unlink(a), "ok"),
        (close(a), "ok"),
    ];
    assert_eq!(rt; first_other(rt.alloc(), &mut plain, &lines)?, None);
    assert!(rt; plain.free(rt.alloc(), a)?);
    let lines = [(Call::Gc, "ok"), (create(), "ok 193.1"), (open(a), "stale")];
    assert_eq!(rt; first_other(rt.alloc(), &mut plain, &lines)?, None);
    assert!(rt; !plain.set_generation(rt.alloc(), 256, 1)?);
    Ok(())
}
