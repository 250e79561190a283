// Runs of scripts, and what each line of them is answered.

use crate::images::{apply, first_file_image, made_image, made_with, sectors_of};
use crate::runs::{Outcome, disk_with, one_disk, run_script, run_words};
use life_bytes::Sector;
use script::Status;
use std::alloc::Global;
use std::process::Abort;
use std::test::Fail;

/// A line, and its answer.
type Line = (&'static str, &'static str);

/// The script of these lines, and what is written of it.
fn texts_of(alloc: Global, lines: &[Line]) -> Result<(String, String), Fail> {
    let mut script = String::new(alloc);
    let mut answers = String::new(alloc);
    for (line, answer) in lines {
        write!(script, "{line}\n")?;
        write!(answers, "{answer}\n")?;
    }
    Ok((script, answers))
}

/// A run over an image has these answers, and ends well.
fn answers(
    rt: &impl Abort,
    alloc: Global,
    image: Vec<Sector>,
    fails: Vec<u64>,
    lines: &[Line],
) -> Result<Outcome, Fail> {
    let (script, answers) = texts_of(alloc, lines)?;
    let ended = run_script(alloc, image, fails, script.as_str())?;
    assert_eq!(rt; ended.written.as_str(), answers.as_str());
    assert_eq!(rt; ended.status, Status::Good);
    Ok(ended)
}

/// The same over the image that `make` leaves of one group of 64 blocks and a ring of 256 sectors.
fn on_a_made_image(rt: &impl Abort, alloc: Global, lines: &[Line]) -> Result<(), Fail> {
    answers(rt, alloc, made_image(alloc)?, Vec::new(alloc), lines)?;
    Ok(())
}

#[test]
fn make_prints_its_sectors(rt: HostRuntime) -> Result<(), Fail> {
    let alloc = rt.alloc();
    let mut images = one_disk(alloc, 72, Vec::new(alloc))?;
    let words = ["make", "s", "1", "64", "256"];
    let ended = run_words(alloc, &mut images, &words, "creat 0 a\n")?;
    assert!(rt; ended.wrote("made 769 sectors\n"));
    assert_eq!(rt; ended.status, Status::Good);
    assert!(rt; ended.disk.is_some());
    Ok(())
}

#[test]
fn an_empty_script_changes_nothing(rt: HostRuntime) -> Result<(), Fail> {
    let alloc = rt.alloc();
    let image = made_image(alloc)?;
    let ended = answers(
        &rt,
        alloc,
        image.as_slice().to_vec(alloc)?,
        Vec::new(alloc),
        &[],
    )?;
    let after = sectors_of(alloc, ended.disk)?;
    assert!(rt; after == image, "changed by the run");
    Ok(())
}

#[test]
fn first_file(rt: HostRuntime) -> Result<(), Fail> {
    on_a_made_image(
        &rt,
        rt.alloc(),
        &[
            ("mount", "ok kept 0 freed 0"),
            ("create 0 a", "ok 192.1"),
            ("stat a", "ok 192.1 links 1 blocks 0 runs -"),
            ("unmount", "busy 1"),
            ("sync", "ok 1"),
            ("home", "ok"),
            ("stop", "stopped"),
            ("mount", "ok kept 1 freed 0"),
            ("unmount", "ok"),
            ("mount", "ok kept 0 freed 0"),
        ],
    )
}

#[test]
fn acknowledged(rt: HostRuntime) -> Result<(), Fail> {
    on_a_made_image(
        &rt,
        rt.alloc(),
        &[
            ("mount", "ok kept 0 freed 0"),
            ("create 0 a", "ok 192.1"),
            ("sync", "ok 1"),
            ("create 0 b", "ok 193.1"),
            ("stop", "stopped"),
            ("mount", "ok kept 1 freed 0"),
            ("create 0 b", "ok 193.1"),
        ],
    )
}

#[test]
fn lost(rt: HostRuntime) -> Result<(), Fail> {
    on_a_made_image(
        &rt,
        rt.alloc(),
        &[
            ("mount", "ok kept 0 freed 0"),
            ("create 0 a", "ok 192.1"),
            ("stop", "stopped"),
            ("stat a", "not mounted"),
            ("mount", "ok kept 0 freed 0"),
            // The name stays bound, and nobody holds the inode.
            ("stat a", "unbound"),
            ("create 0 b", "ok 192.1"),
        ],
    )
}

#[test]
fn orphan_and_its_blocks(rt: HostRuntime) -> Result<(), Fail> {
    on_a_made_image(
        &rt,
        rt.alloc(),
        &[
            ("mount", "ok kept 0 freed 0"),
            ("tmpfile 0 a", "ok 192.1"),
            ("grow a 3", "ok"),
            ("sync", "ok 2"),
            ("stop", "stopped"),
            ("mount", "ok kept 2 freed 1"),
            ("create 0 b", "ok 192.2"),
            ("grow b 3", "ok"),
            ("stat b", "ok 192.2 links 1 blocks 3 runs 32+3"),
        ],
    )
}

#[test]
fn torn_record(rt: HostRuntime) -> Result<(), Fail> {
    on_a_made_image(
        &rt,
        rt.alloc(),
        &[
            ("mount", "ok kept 0 freed 0"),
            ("create 0 a", "ok 192.1"),
            ("stop 1 1", "armed"),
            ("sync", "stopped"),
            ("mount", "ok kept 0 freed 0"),
            ("create 0 b", "ok 192.1"),
        ],
    )
}

// The first record has five sectors, the second four.
#[test]
fn two_stops_at_one_place(rt: HostRuntime) -> Result<(), Fail> {
    let alloc = rt.alloc();
    answers(
        &rt,
        alloc,
        first_file_image(alloc)?,
        Vec::new(alloc),
        &[
            ("mount", "ok kept 0 freed 0"),
            ("create 0 b", "ok 193.1"),
            ("create 0 c", "ok 194.1"),
            ("stop 1 4", "armed"),
            ("sync", "stopped"),
            ("mount", "ok kept 0 freed 0"),
            ("create 0 b", "ok 193.1"),
            ("stop 1 1", "armed"),
            ("sync", "stopped"),
            ("mount", "ok kept 0 freed 0"),
            ("create 0 d", "ok 193.1"),
        ],
    )?;
    Ok(())
}

// The 67 home writes and the anchor come before the record of the free.
#[test]
fn stops_during_recovery(rt: HostRuntime) -> Result<(), Fail> {
    on_a_made_image(
        &rt,
        rt.alloc(),
        &[
            ("mount", "ok kept 0 freed 0"),
            ("tmpfile 0 a", "ok 192.1"),
            ("sync", "ok 1"),
            ("stop", "stopped"),
            ("stop 1 0", "armed"),
            ("mount", "stopped"),
            ("stop 69 2", "armed"),
            ("mount", "stopped"),
            ("mount", "ok kept 0 freed 1"),
            ("stop", "stopped"),
            ("mount", "ok kept 1 freed 0"),
        ],
    )
}

#[test]
fn links_and_blocks(rt: HostRuntime) -> Result<(), Fail> {
    on_a_made_image(
        &rt,
        rt.alloc(),
        &[
            ("mount", "ok kept 0 freed 0"),
            ("create 0 a", "ok 192.1"),
            ("grow a 2", "ok"),
            ("cut a 3", "cut too far"),
            ("cut a 2", "ok"),
            ("unlink a", "ok"),
            ("unlink a", "no links"),
            ("link a", "ok"),
            ("stat a", "ok 192.1 links 1 blocks 0 runs -"),
        ],
    )
}

#[test]
fn a_full_group_has_no_space(rt: HostRuntime) -> Result<(), Fail> {
    on_a_made_image(
        &rt,
        rt.alloc(),
        &[
            ("mount", "ok kept 0 freed 0"),
            ("create 0 a", "ok 192.1"),
            ("tmpfile 0 b", "ok 193.1"),
            ("grow b 20", "ok"),
            ("grow a 12", "ok"),
            ("grow a 1", "no space"),
            ("cut b 1", "ok"),
            ("grow a 1", "ok"),
            ("stat a", "ok 192.1 links 1 blocks 13 runs 52+12,51+1"),
        ],
    )
}

#[test]
fn lines_without_effect(rt: HostRuntime) -> Result<(), Fail> {
    on_a_made_image(
        &rt,
        rt.alloc(),
        &[
            ("create 0 a", "not mounted"),
            ("unmount", "not mounted"),
            ("stop", "stopped"),
            ("mount", "ok kept 0 freed 0"),
            ("mount", "mounted"),
            ("stat a", "unbound"),
            ("create 5 a", "no group"),
            ("tmpfile 1 a", "no group"),
            ("link a", "unbound"),
            ("sync", "ok 0"),
            ("home", "ok"),
            ("create 0 a", "ok 192.1"),
            ("unmount", "busy 1"),
            ("create 0 a", "ok 193.1"),
            ("stat a", "ok 193.1 links 1 blocks 0 runs -"),
            ("unmount", "busy 2"),
        ],
    )
}

// A stop that is armed anew, one that a stop takes away, and one that no write reaches.
#[test]
fn stops_are_armed_by_the_last_line(rt: HostRuntime) -> Result<(), Fail> {
    on_a_made_image(
        &rt,
        rt.alloc(),
        &[
            ("mount", "ok kept 0 freed 0"),
            ("create 0 a", "ok 192.1"),
            ("stop 1 0", "armed"),
            ("stop 2 0", "armed"),
            ("sync", "ok 1"),
            ("home", "stopped"),
            ("mount", "ok kept 1 freed 0"),
            ("stop 1 0", "armed"),
            ("stop", "stopped"),
            ("mount", "ok kept 0 freed 0"),
            ("stop 1 0", "armed"),
            ("stop 9 0", "armed"),
            ("sync", "ok 0"),
            ("unmount", "ok"),
        ],
    )
}

// A script that makes one inode more than there are, and what is written of it.
fn sixty_five_creates(alloc: Global) -> Result<(String, String), Fail> {
    let mut script = String::from_str(alloc, "mount\ncreate 0 a\ngrow a 32\n")?;
    let mut written = String::from_str(alloc, "ok kept 0 freed 0\nok 192.1\nok\n")?;
    for number in 193..256 {
        script.push_str("create 0 x\n")?;
        write!(written, "ok {number}.1\n")?;
    }
    script.push_str("create 0 y\nunlink x\ncreate 0 y\nsync\n")?;
    written.push_str("no inodes\nok\nno inodes\nok 66\n")?;
    Ok((script, written))
}

#[test]
fn no_inodes(rt: HostRuntime) -> Result<(), Fail> {
    let alloc = rt.alloc();
    let (script, written) = sixty_five_creates(alloc)?;
    let ended = run_script(alloc, made_image(alloc)?, Vec::new(alloc), script.as_str())?;
    assert_eq!(rt; ended.written.as_str(), written.as_str());
    assert_eq!(rt; ended.mounts, 1);
    Ok(())
}

/// What is shown of a file of 22 blocks in 21 runs.
const SHOWN: &str =
    "ok 192.1 links 1 blocks 22 runs 32+1,34+1,36+1,38+1,40+1,42+1,44+1,46+1,48+1,50+1,52+1,54+1,56+1,58+1,60+1,62+1,64+1,66+1,68+1,70+1,72+2\n";

// Two files that grow in turn, and what is written of it.
fn files_in_turn(alloc: Global) -> Result<(String, String), Fail> {
    let mut script = String::from_str(alloc, "mount\ncreate 0 a\ncreate 0 b\n")?;
    let mut written = String::from_str(alloc, "ok kept 0 freed 0\nok 192.1\nok 193.1\n")?;
    for _ in 0..21 {
        script.push_str("grow a 1\ngrow b 1\n")?;
        written.push_str("ok\nok\n")?;
    }
    script.push_str("grow a 1\ncut b 1\ngrow a 1\nstat a\n")?;
    written.push_str("too many extents\nok\nok\n")?;
    written.push_str(SHOWN)?;
    Ok((script, written))
}

#[test]
fn twenty_two_runs(rt: HostRuntime) -> Result<(), Fail> {
    let alloc = rt.alloc();
    let (script, written) = files_in_turn(alloc)?;
    let image = made_with(alloc, &["make", "r", "1", "128", "256"])?;
    let ended = run_script(alloc, image, Vec::new(alloc), script.as_str())?;
    assert_eq!(rt; ended.written.as_str(), written.as_str());
    Ok(())
}

// The anchor's position is one with which nothing can be mounted.
#[test]
fn positions_used_up(rt: HostRuntime) -> Result<(), Fail> {
    let alloc = rt.alloc();
    let mut image = made_image(alloc)?;
    apply(&mut image, &[(512, 8, 0x40), (512, 14, 0)]);
    answers(
        &rt,
        alloc,
        image,
        Vec::new(alloc),
        &[("mount", "positions used up"), ("unmount", "not mounted")],
    )?;
    Ok(())
}

// An image without its superblock.
#[test]
fn damage_is_told_by_each_mount(rt: HostRuntime) -> Result<(), Fail> {
    let alloc = rt.alloc();
    let mut image = made_image(alloc)?;
    apply(&mut image, &[(0, 7, 7)]);
    let before = image.as_slice().to_vec(alloc)?;
    let ended = answers(
        &rt,
        alloc,
        image,
        Vec::new(alloc),
        &[
            ("mount", "damaged rule 1 sector 0"),
            ("create 0 a", "not mounted"),
            ("stop 1 0", "armed"),
            ("mount", "damaged rule 1 sector 0"),
        ],
    )?;
    assert_eq!(rt; ended.mounts, 0);
    let after = sectors_of(alloc, ended.disk)?;
    assert!(rt; after == before, "changed by the run");
    Ok(())
}

/// A run over a made image, of which some call of the disk behind the first 288, those of a mount, fails, has these answers.
fn some_fault_answers(alloc: Global, lines: &[Line]) -> Result<(), Fail> {
    let image = made_image(alloc)?;
    let (script, wanted) = texts_of(alloc, lines)?;
    for call in 289..2000_u64 {
        let sectors = image.as_slice().to_vec(alloc)?;
        let ended = run_script(alloc, sectors, vec![in alloc; call]?, script.as_str())?;
        if ended.written.as_str() == wanted.as_str() {
            return Ok(());
        }
    }
    Err("no call's failure has these answers".into())
}

// The first home write fails.
#[test]
fn a_home_write_fails(rt: HostRuntime) -> Result<(), Fail> {
    some_fault_answers(
        rt.alloc(),
        &[
            ("mount", "ok kept 0 freed 0"),
            ("create 0 a", "ok 192.1"),
            ("sync", "ok 1"),
            ("home", "write fault"),
            ("home", "ok"),
        ],
    )
}

// The flush of the first sync fails.
#[test]
fn a_flush_takes_the_log_down(rt: HostRuntime) -> Result<(), Fail> {
    some_fault_answers(
        rt.alloc(),
        &[
            ("mount", "ok kept 0 freed 0"),
            ("create 0 a", "ok 192.1"),
            ("sync", "flush fault"),
            ("sync", "down 1"),
            ("create 0 b", "ok 193.1"),
            ("home", "down 1"),
            ("unmount", "busy 2"),
            ("stop", "stopped"),
            ("mount", "ok kept 1 freed 0"),
        ],
    )
}

// The same of a mount on which nobody holds an inode: it has a free of recovery to bring home.
#[test]
fn a_mount_whose_log_is_down_ends(rt: HostRuntime) -> Result<(), Fail> {
    some_fault_answers(
        rt.alloc(),
        &[
            ("mount", "ok kept 0 freed 0"),
            ("tmpfile 0 a", "ok 192.1"),
            ("sync", "ok 1"),
            ("stop", "stopped"),
            ("mount", "ok kept 1 freed 1"),
            ("unmount", "flush fault"),
            ("sync", "down 1"),
            ("unmount", "down 1"),
            ("unmount", "not mounted"),
            ("mount", "ok kept 1 freed 0"),
        ],
    )
}

/// A run over a made image is refused for this line and rule.
fn are_refused(rt: &impl Abort, alloc: Global, rows: &[(&str, u64, u32)]) -> Result<(), Fail> {
    for (script, line, rule) in rows {
        let ended = run_script(alloc, made_image(alloc)?, Vec::new(alloc), script)?;
        let mut text = String::new(alloc);
        write!(text, "script fault line {line} rule {rule}\n")?;
        assert_eq!(rt; ended.written.as_str(), text.as_str(), "of {script}");
        assert_eq!(rt;
            ended.status,
            Status::ScriptFault {
                line: *line,
                rule: *rule
            }
        );
        assert!(rt; ended.disk.is_none(), "a disk for {script}");
    }
    Ok(())
}

#[test]
fn script_faults(rt: HostRuntime) -> Result<(), Fail> {
    are_refused(
        &rt,
        rt.alloc(),
        &[
            ("mount\ncreat 0 a\n", 2, 2),
            ("create 0\n", 1, 3),
            ("grow a 0\n", 1, 4),
            ("begin A mount\n", 1, 5),
            ("mount\n\tsync\n", 2, 1),
            ("mount\nstop 0 1\n", 2, 4),
            ("# a comment\n\nmount 1\n", 3, 3),
        ],
    )
}

// Lines that are read and not run yet. A line outside the grammar comes first, wherever it stands.
#[test]
fn lines_that_are_not_run_yet_are_script_faults(rt: HostRuntime) -> Result<(), Fail> {
    are_refused(
        &rt,
        rt.alloc(),
        &[
            ("mount\nopen a\n", 2, 0),
            ("mount\ncreate 0 a\nclose a\nclose a\n", 3, 0),
            ("gc\n", 1, 0),
            ("flush 0\n", 1, 0),
            ("reclaim 0\n", 1, 0),
            ("name a 192.1\n", 1, 0),
            ("begin A sync\n", 1, 0),
            ("step A\n", 1, 0),
            ("mount\n\n# a comment\nfinish A\n", 4, 0),
            ("mount\nB sync\n", 2, 0),
            ("open a\nmount\ncreate 0 A\n", 3, 4),
        ],
    )
}

/// Words that are in no form, and those whose image is not there or is.
fn words_answer(
    rt: &impl Abort,
    alloc: Global,
    rows: &[(&[&str], &str, Status)],
) -> Result<(), Fail> {
    for (words, written, status) in rows {
        let mut images = disk_with(alloc, made_image(alloc)?, Vec::new(alloc))?;
        let ended = run_words(alloc, &mut images, words, "mount\n")?;
        assert_eq!(rt; ended.written.as_str(), *written);
        assert_eq!(rt; ended.status, *status);
        assert!(rt; ended.disk.is_none());
    }
    Ok(())
}

const USAGE: &str = "usage: life make, check, steps, load, live, drill\n";

#[test]
fn words_that_are_in_no_form(rt: HostRuntime) -> Result<(), Fail> {
    words_answer(
        &rt,
        rt.alloc(),
        &[
            (&[], USAGE, Status::Usage),
            (&["steps"], USAGE, Status::Usage),
            (&["steps", "-disk"], USAGE, Status::Usage),
            (&["make", "s", "01", "64", "256"], USAGE, Status::Usage),
            (&["make", "s", "17", "64", "256"], USAGE, Status::Usage),
            (&["make", "s", "1", "63", "256"], USAGE, Status::Usage),
            (&["make", "s", "1"], USAGE, Status::Usage),
            // Something stands there, and nothing does.
            (
                &["make", "disk", "1", "64", "256"],
                "open fault\n",
                Status::OpenFault,
            ),
            (&["steps", "elsewhere"], "open fault\n", Status::OpenFault),
        ],
    )
}
