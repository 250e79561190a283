// A script that fills, unlinks, syncs and writes home, and what is found behind it: wherever the device stops, and whichever of its calls fails.

use crate::images::{made_image, sectors_of};
use crate::runs::{Outcome, disk_with, run_script, run_words};
use disk_model::Disk;
use life_bytes::{Sector, field_u64};
use std::alloc::Global;
use std::process::Abort;
use std::test::Fail;

/// The first lines. Each but a sync and a home is one change.
const FIRST: &str = "create 0 a
grow a 3
sync
create 0 b
unlink a
sync
grow b 2
home
tmpfile 0 c
grow c 4
sync
cut b 1
link c
sync
unlink c
home
";

/// Lines that stand thirty times behind them, so that the records go round the ring.
const AGAIN: &str = "grow b 1
sync
cut b 1
sync
";

/// The last lines.
const LAST: &str = "create 0 d
unlink d
sync
grow d 1
sync
";

/// By how many changes are kept: how many rows without links the next mount frees, and how many inodes are in use then.
fn found_with(kept: u64) -> (u64, u64) {
    match kept {
        0 => (0, 0),
        // create a, grow a
        1..=2 => (0, 1),
        // create b
        3 => (0, 2),
        // unlink a, grow b
        4..=5 => (1, 1),
        // tmpfile c, grow c, cut b
        6..=8 => (2, 1),
        // link c
        9 => (1, 2),
        // unlink c; grow b and cut b in turn
        10..=70 => (2, 1),
        // create d
        71 => (2, 2),
        // unlink d, grow d
        _ => (3, 1),
    }
}

/// All lines.
fn all_lines(alloc: Global) -> Result<String, Fail> {
    let mut text = String::from_str(alloc, FIRST)?;
    for _ in 0..30 {
        text.push_str(AGAIN)?;
    }
    text.push_str(LAST)?;
    Ok(text)
}

/// A script that mounts, runs the lines, and then this.
fn mounted_with(alloc: Global, lines: &str, behind: &str) -> Result<String, Fail> {
    let mut text = String::from_str(alloc, "mount\n")?;
    text.push_str(lines)?;
    text.push_str(behind)?;
    Ok(text)
}

/// A run of a script over a disk of these sectors, of which this call fails; 0 is no call.
fn run(alloc: Global, image: &[Sector], call: u64, script: &str) -> Result<Outcome, Fail> {
    run_script(alloc, image.to_vec(alloc)?, vec![in alloc; call]?, script)
}

#[test]
fn the_records_go_round_the_ring(rt: HostRuntime) -> Result<(), Fail> {
    let alloc = rt.alloc();
    let script = mounted_with(alloc, all_lines(alloc)?.as_str(), "")?;
    let ended = run(alloc, &made_image(alloc)?, 0, script.as_str())?;
    let sectors = sectors_of(alloc, ended.disk)?;
    // The ring stands in the sectors from 513 to 768. Each begins with its position.
    let (Some(first), Some(last)) = (sectors.get(513), sectors.get(768)) else {
        return Err("no ring".into());
    };
    let before = field_u64(&last.bytes, 0);
    assert!(rt; before > 0);
    assert_eq!(rt; before.checked_add(1), Some(field_u64(&first.bytes, 0)));
    Ok(())
}

/// How many changes a run's answers acknowledge, and how many it made, from its first line behind the mount on.
fn acknowledged_and_made(lines: &str, answers: &str) -> (u64, u64) {
    let mut acknowledged: u64 = 0;
    let mut made: u64 = 0;
    for (line, answer) in lines.split('\n').zip(answers.split('\n')) {
        let went_well = answer.starts_with("ok");
        if went_well && line == "sync" {
            acknowledged = made;
        } else if went_well && line != "home" {
            made = made.saturating_add(1);
        }
    }
    (acknowledged, made)
}

/// How many changes are kept, by what the last mount and its end wrote: one of these numbers.
fn kept_of(alloc: Global, written: &str, least: u64, most: u64) -> Result<Option<u64>, Fail> {
    for kept in least..=most.min(99) {
        let (freed, _) = found_with(kept);
        let mut wanted = String::new(alloc);
        write!(wanted, "ok kept {kept} freed {freed}\nok\n")?;
        if written.ends_with(wanted.as_str()) {
            return Ok(Some(kept));
        }
    }
    Ok(None)
}

/// What a check writes of the image behind so many changes.
fn check_text(alloc: Global, kept: u64) -> Result<String, Fail> {
    let (_, inodes) = found_with(kept);
    let chunks = kept.min(1);
    let mut text = String::from_str(alloc, "sound\ngroups 1 blocks 64 ring 256 ")?;
    write!(text, "chunks {chunks} inodes {inodes} orphans 0\n")?;
    Ok(text)
}

/// What a run handed back is sound, with the inodes that are in use after so many changes, and no row without links.
fn is_found(rt: &impl Abort, alloc: Global, ended: Outcome, kept: u64) -> Result<(), Fail> {
    let sectors = sectors_of(alloc, ended.disk)?;
    let mut images = disk_with(alloc, sectors, Vec::new(alloc))?;
    let check = run_words(alloc, &mut images, &["check", "disk"], "")?;
    let wanted = check_text(alloc, kept)?;
    assert_eq!(rt; check.written.as_str(), wanted.as_str(), "with {kept} kept");
    Ok(())
}

/// A mount of the image, the lines, with the device stopped within this write, behind so many of its sectors, and then a mount and its end.
fn stopped_run(
    alloc: Global,
    image: &[Sector],
    lines: &str,
    write: u64,
    first: u64,
) -> Result<Outcome, Fail> {
    let mut script = String::new(alloc);
    write!(
        script,
        "mount\nstop {write} {first}\n{lines}stop\nmount\nunmount\n"
    )?;
    run(alloc, image, 0, script.as_str())
}

/// Whatever write the device stops in, the next mount finds a first part of the changes that has each acknowledged one. Tells whether the stop came.
fn stop_leaves_a_prefix(
    rt: &impl Abort,
    alloc: Global,
    image: &[Sector],
    lines: &str,
    (write, first): (u64, u64),
) -> Result<bool, Fail> {
    let ended = stopped_run(alloc, image, lines, write, first)?;
    let Some(answers) = ended
        .written
        .as_str()
        .strip_prefix("ok kept 0 freed 0\narmed\n")
    else {
        return Err("not mounted, or not armed".into());
    };
    let (acknowledged, made) = acknowledged_and_made(lines, answers);
    let came = answers.contains("not mounted") || answers.contains("stopped\nstopped\n");
    match kept_of(alloc, answers, acknowledged, made)? {
        Some(kept) => is_found(rt, alloc, ended, kept)?,
        None => return Err("no first part is found".into()),
    }
    Ok(came)
}

/// The device stops within each write in turn, behind so many of its sectors. Tells how many writes there are.
fn writes_until_none_stops(rt: &impl Abort, alloc: Global, first: u64) -> Result<u64, Fail> {
    let image = made_image(alloc)?;
    let lines = all_lines(alloc)?;
    for write in 1..2000 {
        if !stop_leaves_a_prefix(rt, alloc, &image, lines.as_str(), (write, first))? {
            return Ok(write);
        }
    }
    Err("stops without end".into())
}

#[test]
fn a_stop_before_any_write_leaves_a_prefix(rt: HostRuntime) -> Result<(), Fail> {
    let writes = writes_until_none_stops(&rt, rt.alloc(), 0)?;
    assert!(rt; writes > 60, "so few writes: {writes}");
    Ok(())
}

#[test]
fn a_stop_behind_one_sector_of_any_write_leaves_a_prefix(rt: HostRuntime) -> Result<(), Fail> {
    let writes = writes_until_none_stops(&rt, rt.alloc(), 1)?;
    assert!(rt; writes > 60, "so few writes: {writes}");
    Ok(())
}

#[test]
fn a_stop_behind_any_write_leaves_a_prefix(rt: HostRuntime) -> Result<(), Fail> {
    let writes = writes_until_none_stops(&rt, rt.alloc(), 500)?;
    assert!(rt; writes > 60, "so few writes: {writes}");
    Ok(())
}

/// How many faults a run's disk counted.
fn faults_of(ended: &Outcome) -> u64 {
    match &ended.disk {
        Some(disk) => disk.faults(),
        None => 0,
    }
}

fn is_fault(answer: &str) -> bool {
    answer == "read fault" || answer == "write fault" || answer == "flush fault"
}

/// How many answers tell of a fault, and how many lines stand before the first of them.
fn told_faults(written: &str) -> (u64, usize) {
    let mut told: u64 = 0;
    let mut before: usize = 0;
    for answer in written.split('\n') {
        if is_fault(answer) {
            told = told.saturating_add(1);
        } else if told == 0 {
            before = before.saturating_add(1);
        }
    }
    (told, before)
}

/// How many faults the disk counts in the first lines of a script.
fn faults_within(
    alloc: Global,
    image: &[Sector],
    call: u64,
    script: &str,
    count: usize,
) -> Result<u64, Fail> {
    let mut text = String::new(alloc);
    for line in script.split('\n').take(count) {
        text.push_str(line)?;
        text.push_str("\n")?;
    }
    Ok(faults_of(&run(alloc, image, call, text.as_str())?))
}

/// A call that fails is told by one answer, that of the line in which the disk counted it, and no other fault is told. Tells whether a call failed.
fn fault_is_told(
    rt: &impl Abort,
    alloc: Global,
    image: &[Sector],
    call: u64,
    script: &str,
) -> Result<bool, Fail> {
    let ended = run(alloc, image, call, script)?;
    let (told, before) = told_faults(ended.written.as_str());
    assert_eq!(rt; told, faults_of(&ended), "call {call}");
    if told == 0 {
        return Ok(false);
    }
    let behind = before.saturating_add(1);
    assert_eq!(rt;
        faults_within(alloc, image, call, script, before)?,
        0,
        "call {call}"
    );
    assert_eq!(rt;
        faults_within(alloc, image, call, script, behind)?,
        1,
        "call {call}"
    );
    Ok(true)
}

/// Each call of the disk from this one on fails in turn. Gives the first that a run of the script does not make.
fn calls_are_told(rt: &impl Abort, alloc: Global, first: u64, script: &str) -> Result<u64, Fail> {
    let image = made_image(alloc)?;
    for call in first..9999 {
        if !fault_is_told(rt, alloc, &image, call, script)? {
            return Ok(call);
        }
    }
    Err("calls without end".into())
}

#[test]
fn each_fault_is_told_by_the_line_in_which_it_came(rt: HostRuntime) -> Result<(), Fail> {
    let alloc = rt.alloc();
    let mount = calls_are_told(&rt, alloc, 1, "mount\n")?;
    assert!(rt; mount > 200, "so few calls of a mount: {mount}");
    let script = mounted_with(alloc, all_lines(alloc)?.as_str(), "")?;
    let calls = calls_are_told(&rt, alloc, mount, script.as_str())?;
    assert!(rt; calls > 400, "so few calls: {calls}");
    Ok(())
}

/// Behind a run of which this call fails, and a stop, the next mount finds a first part of the changes that has each acknowledged one. Tells whether a call failed before the stop.
fn fault_leaves_a_prefix(
    alloc: Global,
    image: &[Sector],
    call: u64,
    lines: &str,
) -> Result<bool, Fail> {
    let script = mounted_with(alloc, lines, "stop\nmount\nunmount\n")?;
    let ended = run(alloc, image, call, script.as_str())?;
    let Some((answers, behind)) = ended.written.as_str().split_once("stopped\n") else {
        return Err("no stop".into());
    };
    let (told, _) = told_faults(answers);
    if told == 0 {
        return Ok(false);
    }
    // Where the first mount did not come up, nothing was made.
    let (acknowledged, made) = match answers.strip_prefix("ok kept 0 freed 0\n") {
        Some(answers) => acknowledged_and_made(lines, answers),
        None => (0, 0),
    };
    match kept_of(alloc, behind, acknowledged, made)? {
        Some(_) => Ok(true),
        None => Err("no first part is found".into()),
    }
}

/// Each call of the disk from this one on fails in turn. Gives the first that a run of the lines does not make.
fn calls_leave_prefixes(alloc: Global, first: u64, lines: &str) -> Result<u64, Fail> {
    let image = made_image(alloc)?;
    for call in first..9999 {
        if !fault_leaves_a_prefix(alloc, &image, call, lines)? {
            return Ok(call);
        }
    }
    Err("calls without end".into())
}

#[test]
fn each_fault_leaves_a_prefix(rt: HostRuntime) -> Result<(), Fail> {
    let alloc = rt.alloc();
    let mount = calls_leave_prefixes(alloc, 1, "")?;
    let calls = calls_leave_prefixes(alloc, mount, all_lines(alloc)?.as_str())?;
    assert!(rt; calls > 400, "so few calls: {calls}");
    Ok(())
}
