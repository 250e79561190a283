use extent_fork::Extent;
use life_table::{Call, Entries, Entry, Event, Froms, Key, MountRecord, Reply, Runs};
use script::{
    GroupStory, LineReply, Name, Said, ScriptFault, Status, no_memory_line, parse, print, print_run,
};
use std::test::Fail;

const KEY: Key = Key {
    number: 192,
    generation: 1,
};

#[test]
fn each_line_is_read_as_what_it_denotes(rt: HostRuntime) -> Result<(), Fail> {
    let alloc = rt.alloc();
    for (text, want) in [
        ("mount", "Mount"),
        ("unmount", "Unmount"),
        ("stop", "Stop"),
        ("stop 69 2", "Arm { count: 69, first: 2 }"),
        ("stop 4294967295 0", "Arm { count: 4294967295, first: 0 }"),
        (
            "name d 193.1",
            "Bind { name: Name { bytes: [100] }, handle: Key { number: 193, generation: 1 } }",
        ),
        ("begin B sync", "Begin { actor: 1, spoken: Sync }"),
        ("step A", "Step { actor: 0 }"),
        ("finish Z", "Finish { actor: 25 }"),
        (
            "create 0 a",
            "Whole { actor: 0, spoken: Create { group: 0, name: Name { bytes: [97] } } }",
        ),
        (
            "A tmpfile 4294967295 z9",
            "Whole { actor: 0, spoken: Tmpfile { group: 4294967295, name: Name { bytes: [122, 57] } } }",
        ),
        (
            "B open a",
            "Whole { actor: 1, spoken: Open { name: Name { bytes: [97] } } }",
        ),
        (
            "close a",
            "Whole { actor: 0, spoken: Close { name: Name { bytes: [97] } } }",
        ),
        (
            "link a",
            "Whole { actor: 0, spoken: Link { name: Name { bytes: [97] } } }",
        ),
        (
            "unlink a",
            "Whole { actor: 0, spoken: Unlink { name: Name { bytes: [97] } } }",
        ),
        (
            "grow a 16384",
            "Whole { actor: 0, spoken: Grow { name: Name { bytes: [97] }, count: 16384 } }",
        ),
        (
            "cut a 1",
            "Whole { actor: 0, spoken: Cut { name: Name { bytes: [97] }, count: 1 } }",
        ),
        (
            "stat a",
            "Whole { actor: 0, spoken: Stat { name: Name { bytes: [97] } } }",
        ),
        ("home", "Whole { actor: 0, spoken: Home }"),
        ("C gc", "Whole { actor: 2, spoken: Gc }"),
        ("flush 0", "Whole { actor: 0, spoken: Flush { group: 0 } }"),
        (
            "B reclaim 0",
            "Whole { actor: 1, spoken: Reclaim { group: 0 } }",
        ),
    ] {
        let script = parse(alloc, text.as_bytes())?;
        for line in script.lines() {
            let command = &line.command;
            assert_eq!(rt; format!(in alloc; "{command:?}")?.as_str(), want);
        }
        assert_eq!(rt; script.lines().len(), 1);
    }
    Ok(())
}

#[test]
fn the_first_faulty_line_is_named_by_its_least_rule(rt: HostRuntime) -> Result<(), Fail> {
    let alloc = rt.alloc();
    for (text, line, rule) in [
        ("mount\r\n", 1, 1),
        ("#\t\n\nmount\ncreate\t0 a\n", 4, 1),
        ("creat 0 \x7f", 1, 1),
        ("mount\ncreat 0 a", 2, 2),
        (" mount", 1, 2),
        ("a mount", 1, 2),
        ("AB sync", 1, 2),
        ("create 0", 1, 3),
        ("create 0 ", 1, 4),
        ("mount ", 1, 3),
        ("stop 1", 1, 3),
        ("begin foo", 1, 3),
        ("begin foo create 0", 1, 3),
        ("A", 1, 3),
        ("grow a 0", 1, 4),
        ("grow a 16385", 1, 4),
        ("grow a 01", 1, 4),
        ("create  a", 1, 4),
        ("create 4294967296 a", 1, 4),
        ("create 0 a2345678901234567", 1, 4),
        ("open A", 1, 4),
        ("open 9", 1, 4),
        ("stop 0 1", 1, 4),
        ("name a 2097152.1", 1, 4),
        ("name a 192.0", 1, 4),
        ("name a 192", 1, 4),
        ("step a", 1, 4),
        ("begin foo bar", 1, 4),
        ("begin foo create 0 a", 1, 4),
        ("begin A mount", 1, 5),
        ("A ", 1, 5),
        ("A B sync", 1, 5),
        ("A begin A sync", 1, 5),
        ("sync\nA mount\nmoun\n", 2, 5),
    ] {
        let fault = parse(alloc, text.as_bytes()).err();
        assert_eq!(rt; fault, Some(ScriptFault::Outside { line, rule }), "{text}");
    }
    Ok(())
}

#[test]
fn lines_that_ask_for_nothing_are_skipped_and_counted(rt: HostRuntime) -> Result<(), Fail> {
    let script = parse(rt.alloc(), b"\n# a\tb\nmount\n\n#\nsync\n")?;
    let mut numbers = Vec::new(rt.alloc());
    for line in script.lines() {
        numbers.push(line.number)?;
    }
    assert_eq!(rt; numbers.as_slice(), [3, 6].as_slice());
    assert_eq!(rt; parse(rt.alloc(), b"")?.lines().len(), 0);
    Ok(())
}

#[test]
fn each_reply_has_its_text(rt: HostRuntime) -> Result<(), Fail> {
    let alloc = rt.alloc();
    let runs = vec![in alloc;
        Extent {
            start: 52,
            count: 12
        },
        Extent {
            start: 32,
            count: 20
        },
    ]?;
    for (reply, want) in [
        (Reply::Done, "A ok\n"),
        (Reply::Made { key: KEY }, "A ok 192.1\n"),
        (
            Reply::Shown {
                key: KEY,
                links: 1,
                blocks: 32,
                runs: Runs::from_vec(runs),
            },
            "A ok 192.1 links 1 blocks 32 runs 52+12,32+20\n",
        ),
        (
            Reply::Shown {
                key: KEY,
                links: 0,
                blocks: 0,
                runs: Runs::new(alloc),
            },
            "A ok 192.1 links 0 blocks 0 runs -\n",
        ),
        (Reply::Covered { changes: 2 }, "A ok 2\n"),
        (Reply::Stale, "A stale\n"),
        (Reply::Crowded, "A crowded\n"),
        (Reply::NoInodes, "A no inodes\n"),
        (Reply::NoSpace, "A no space\n"),
        (Reply::TooManyLinks, "A too many links\n"),
        (Reply::NoLinks, "A no links\n"),
        (Reply::TooManyExtents, "A too many extents\n"),
        (Reply::CutTooFar, "A cut too far\n"),
        (Reply::WriteFault, "A write fault\n"),
        (Reply::FlushFault, "A flush fault\n"),
        (Reply::PositionEnd, "A positions used up\n"),
        (Reply::Down { fault: 1 }, "A down 1\n"),
    ] {
        let said = [Said::Direct { actor: 0, reply }];
        assert_eq!(rt; print(alloc, &said, &[], &[])?.as_str(), want);
    }
    Ok(())
}

#[test]
fn each_line_reply_has_its_text(rt: HostRuntime) -> Result<(), Fail> {
    let alloc = rt.alloc();
    for (reply, want) in [
        (
            LineReply::Mounted { kept: 1, freed: 0 },
            "ok kept 1 freed 0\n",
        ),
        (
            LineReply::Damaged {
                rule: 7,
                sector: 192,
            },
            "damaged rule 7 sector 192\n",
        ),
        (LineReply::ReadFault, "read fault\n"),
        (LineReply::WriteFault, "write fault\n"),
        (LineReply::FlushFault, "flush fault\n"),
        (LineReply::PositionEnd, "positions used up\n"),
        (LineReply::AlreadyMounted, "mounted\n"),
        (LineReply::NotMounted, "not mounted\n"),
        (LineReply::Unmounted, "ok\n"),
        (LineReply::Busy { opens: 2 }, "busy 2\n"),
        (LineReply::Down { fault: 1 }, "down 1\n"),
        (LineReply::Mid { actor: 1 }, "mid B\n"),
        (LineReply::Idle, "idle\n"),
        (LineReply::NoGroup, "no group\n"),
        (LineReply::Unbound, "unbound\n"),
        (LineReply::Begun, "begun\n"),
        (LineReply::Went, "went\n"),
        (LineReply::Waits { actor: 0 }, "waits A\n"),
        (LineReply::Named, "named\n"),
        (LineReply::Armed, "armed\n"),
        (LineReply::Stopped, "stopped\n"),
    ] {
        let said = [Said::Line { actor: None, reply }];
        assert_eq!(rt; print(alloc, &said, &[], &[])?.as_str(), want);
    }
    Ok(())
}

#[test]
fn each_status_has_its_line_and_its_exit_status(rt: HostRuntime) -> Result<(), Fail> {
    let alloc = rt.alloc();
    for (ended, want, code) in [
        (Status::Good, "", 0),
        (
            Status::Usage,
            "usage: life make, check, steps, load, live, drill\n",
            2,
        ),
        (
            Status::ScriptFault { line: 2, rule: 2 },
            "script fault line 2 rule 2\n",
            3,
        ),
        (Status::ScriptTooLong, "script too long\n", 4),
        (Status::OpenFault, "open fault\n", 5),
        (Status::SourceFault, "source fault\n", 6),
        (Status::SinkFault, "", 7),
        (
            Status::Damaged {
                rule: 7,
                sector: 192,
            },
            "damaged rule 7 sector 192\n",
            8,
        ),
        (Status::ReadFault, "read fault\n", 9),
        (Status::WriteFault, "write fault\n", 10),
        (Status::FlushFault, "flush fault\n", 11),
        (Status::PositionEnd, "positions used up\n", 12),
        (Status::NoMemory, "no memory\n", 13),
        (Status::Down { fault: 1 }, "down 1\n", 14),
    ] {
        assert_eq!(rt; print_run(alloc, &[], &[], &[], ended)?.as_str(), want);
        assert_eq!(rt; ended.exit_code(), code);
    }
    assert_eq!(rt; no_memory_line(), "no memory\n");
    Ok(())
}

#[test]
fn answers_are_those_of_their_entries(rt: HostRuntime) -> Result<(), Fail> {
    let alloc = rt.alloc();
    let event = Event::Called {
        call: Call::Gc,
        reply: Reply::Done,
    };
    let record = MountRecord {
        base: 1,
        kept: 0,
        freed: 1,
        entries: Entries::from_vec(vec![in alloc;
            Entry {
                actor: 26,
                event: Event::Freed { key: KEY }
            },
            Entry { actor: 0, event },
        ]?),
        froms: Froms::new(alloc),
        acknowledged: 1,
    };
    let event = Event::Called {
        call: Call::Create { group: 0 },
        reply: Reply::Made { key: KEY },
    };
    let story = GroupStory {
        group: 0,
        entries: Entries::from_vec(vec![in alloc; Entry { actor: 1, event }]?),
    };
    let said = [
        Said::Of { mount: 0, entry: 1 },
        Said::InGroup {
            actor: 1,
            group: 0,
            entry: 0,
        },
        Said::Line {
            actor: Some(2),
            reply: LineReply::Unbound,
        },
    ];
    let text = print_run(alloc, &said, &[record], &[story], Status::PositionEnd)?;
    assert_eq!(rt;
        text.as_str(),
        "ok\nB ok 192.1\nC unbound\npositions used up\n"
    );
    Ok(())
}
