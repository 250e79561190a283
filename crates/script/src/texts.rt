// The texts of answers, each at the end of what was written before.

ghost use Rattle.std.specs.Prelude.{◌≡◌, ◌++◌, ◌∷◌, [], flat_map, OnOk, string_bytes, codes};
ghost use Rattle.script.specs.Texts as texts;
ghost use Rattle.script.specs.Texts.{actor_text, damaged_text, down_text, event_text, line_reply_text, reply_text, run_text, runs_text, status_text};

use crate::answers::LineReply;
use crate::status::Status;
use extent_fork::Extent;
use life_limits::MAX_ACTORS;
use life_table::{Event, Key, Reply};
use std::alloc::AllocError;

const READ_FAULT: &str = "read fault";

const WRITE_FAULT: &str = "write fault";

const FLUSH_FAULT: &str = "flush fault";

const POSITION_END: &str = "positions used up";

pub(crate) fn push_text(text: &mut String, more: &str) -> Result<(), AllocError>
    ensures { OnOk result (string_bytes text.new ≡ string_bytes text.old ++ more.now) }
{
    text.push_str(more)
}

fn push_damaged(text: &mut String, rule: u32, sector: u64) -> Result<(), AllocError>
    ensures { OnOk result (string_bytes text.new ≡ string_bytes text.old ++ damaged_text rule sector) }
{
    write!(text, "damaged rule {rule} sector {sector}")
}

fn push_down(text: &mut String, fault: u64) -> Result<(), AllocError>
    ensures { OnOk result (string_bytes text.new ≡ string_bytes text.old ++ down_text fault) }
{
    write!(text, "down {fault}")
}

/// The letter of an actor.
pub(crate) fn push_actor(text: &mut String, actor: u32) -> Result<(), AllocError>
    ensures { OnOk result (string_bytes text.new ≡ string_bytes text.old ++ actor_text actor) }
{
    if actor < MAX_ACTORS {
        text.push(char::from(b'A' + actor as u8))
    } else {
        Ok(())
    }
}

fn push_run(text: &mut String, run: &Extent) -> Result<(), AllocError>
    ensures { OnOk result (string_bytes text.new ≡ string_bytes text.old ++ run_text run.now) }
{
    write!(text, "{}+{}", run.start, run.count)
}

fn push_more_runs(text: &mut String, runs: &[Extent]) -> Result<(), AllocError>
    ensures { OnOk result (string_bytes text.new ≡ string_bytes text.old ++ flat_map (λ other. codes "," ++ run_text other) runs.now) }
{
    for run in runs {
        push_text(text, ",")?;
        push_run(text, run)?;
    }
    Ok(())
}

fn push_runs(text: &mut String, runs: &[Extent]) -> Result<(), AllocError>
    ensures { OnOk result (string_bytes text.new ≡ string_bytes text.old ++ runs_text runs.now) }
{
    match runs {
        [] => push_text(text, "-"),
        [first, rest @ ..] => {
            push_run(text, first)?;
            push_more_runs(text, rest)
        }
    }
}

fn push_shown(
    text: &mut String,
    key: Key,
    links: u32,
    blocks: u32,
    runs: &[Extent],
) -> Result<(), AllocError>
    ensures { OnOk result (string_bytes text.new ≡ string_bytes text.old ++ reply_text (Reply.Shown key links blocks runs.now)) }
{
    write!(
        text,
        "ok {}.{} links {links} blocks {blocks} runs ",
        key.number, key.generation
    )?;
    push_runs(text, runs)
}

pub(crate) fn push_reply(text: &mut String, reply: &Reply) -> Result<(), AllocError>
    ensures { OnOk result (string_bytes text.new ≡ string_bytes text.old ++ reply_text reply.now) }
{
    match reply {
        Reply::Done => push_text(text, "ok"),
        Reply::Made { key } => write!(text, "ok {}.{}", key.number, key.generation),
        Reply::Shown {
            key,
            links,
            blocks,
            runs,
        } => push_shown(text, *key, *links, *blocks, runs.as_slice()),
        Reply::Covered { changes } => write!(text, "ok {changes}"),
        Reply::Stale => push_text(text, "stale"),
        Reply::Crowded => push_text(text, "crowded"),
        Reply::NoInodes => push_text(text, "no inodes"),
        Reply::NoSpace => push_text(text, "no space"),
        Reply::TooManyLinks => push_text(text, "too many links"),
        Reply::NoLinks => push_text(text, "no links"),
        Reply::TooManyExtents => push_text(text, "too many extents"),
        Reply::CutTooFar => push_text(text, "cut too far"),
        Reply::WriteFault => push_text(text, WRITE_FAULT),
        Reply::FlushFault => push_text(text, FLUSH_FAULT),
        Reply::PositionEnd => push_text(text, POSITION_END),
        Reply::Down { fault } => push_down(text, *fault),
    }
}

pub(crate) fn push_event(text: &mut String, event: &Event) -> Result<(), AllocError>
    ensures { OnOk result (string_bytes text.new ≡ string_bytes text.old ++ event_text event.now) }
{
    match event {
        Event::Called { reply, .. } => push_reply(text, reply),
        Event::Freed { .. } => Ok(()),
    }
}

fn push_behind(text: &mut String, word: &str, actor: u32) -> Result<(), AllocError>
    ensures { OnOk result (string_bytes text.new ≡ string_bytes text.old ++ (word.now ++ actor_text actor)) }
{
    push_text(text, word)?;
    push_actor(text, actor)
}

pub(crate) fn push_line_reply(text: &mut String, reply: LineReply) -> Result<(), AllocError>
    ensures { OnOk result (string_bytes text.new ≡ string_bytes text.old ++ line_reply_text reply) }
{
    match reply {
        LineReply::Mounted { kept, freed } => write!(text, "ok kept {kept} freed {freed}"),
        LineReply::Damaged { rule, sector } => push_damaged(text, rule, sector),
        LineReply::ReadFault => push_text(text, READ_FAULT),
        LineReply::WriteFault => push_text(text, WRITE_FAULT),
        LineReply::FlushFault => push_text(text, FLUSH_FAULT),
        LineReply::PositionEnd => push_text(text, POSITION_END),
        LineReply::AlreadyMounted => push_text(text, "mounted"),
        LineReply::NotMounted => push_text(text, "not mounted"),
        LineReply::Unmounted => push_text(text, "ok"),
        LineReply::Busy { opens } => write!(text, "busy {opens}"),
        LineReply::Down { fault } => push_down(text, fault),
        LineReply::Mid { actor } => push_behind(text, "mid ", actor),
        LineReply::Idle => push_text(text, "idle"),
        LineReply::NoGroup => push_text(text, "no group"),
        LineReply::Unbound => push_text(text, "unbound"),
        LineReply::Begun => push_text(text, "begun"),
        LineReply::Went => push_text(text, "went"),
        LineReply::Waits { actor } => push_behind(text, "waits ", actor),
        LineReply::Named => push_text(text, "named"),
        LineReply::Armed => push_text(text, "armed"),
        LineReply::Stopped => push_text(text, "stopped"),
    }
}

pub(crate) fn push_status(text: &mut String, ended: Status) -> Result<(), AllocError>
    ensures { OnOk result (string_bytes text.new ≡ string_bytes text.old ++ status_text ended) }
{
    match ended {
        Status::Good | Status::SinkFault => Ok(()),
        Status::Usage => push_text(text, "usage: life make, check, steps, load, live, drill"),
        Status::ScriptFault { line, rule } => write!(text, "script fault line {line} rule {rule}"),
        Status::ScriptTooLong => push_text(text, "script too long"),
        Status::OpenFault => push_text(text, "open fault"),
        Status::SourceFault => push_text(text, "source fault"),
        Status::Damaged { rule, sector } => push_damaged(text, rule, sector),
        Status::ReadFault => push_text(text, READ_FAULT),
        Status::WriteFault => push_text(text, WRITE_FAULT),
        Status::FlushFault => push_text(text, FLUSH_FAULT),
        Status::PositionEnd => push_text(text, POSITION_END),
        Status::NoMemory => push_text(text, "no memory"),
        Status::Down { fault } => push_down(text, fault),
    }
}
