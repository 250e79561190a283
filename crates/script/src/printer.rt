// What is written of a run.

ghost use Rattle.std.specs.Prelude.{◌≡◌, ◌++◌, ◌∷◌, [], IfOk, OnOk, slice_get, string_bytes};
ghost use Rattle.script.specs.Texts.{actor_text, answer_lines, entry_at, entry_text, line_of, output, said_text, status_text, story_entry};
ghost use Rattle.script.specs.declared.status.Status.TheVariants as status;

use crate::answers::{GroupStory, Said};
use crate::status::Status;
use crate::texts::{push_actor, push_event, push_line_reply, push_reply, push_status, push_text};
use life_ports::NoMemory;
use life_table::{Entry, MountRecord};
use std::alloc::{AllocError, Global};

fn push_entry(text: &mut String, entries: &[Entry], at: u64) -> Result<(), AllocError>
    ensures { OnOk result (string_bytes text.new ≡ string_bytes text.old ++ entry_text (slice_get entries.now at)) }
{
    match entries.get(at as usize) {
        Some(entry) => push_event(text, &entry.event),
        None => Ok(()),
    }
}

fn push_mount_entry(
    text: &mut String,
    mounts: &[MountRecord],
    mount: u64,
    entry: u64,
) -> Result<(), AllocError>
    ensures { OnOk result (string_bytes text.new ≡ string_bytes text.old ++ entry_text (entry_at mounts.now mount entry)) }
{
    match mounts.get(mount as usize) {
        Some(record) => push_entry(text, record.entries.as_slice(), entry),
        None => Ok(()),
    }
}

fn push_story_entry(
    text: &mut String,
    groups: &[GroupStory],
    group: u32,
    entry: u64,
) -> Result<(), AllocError>
    ensures { OnOk result (string_bytes text.new ≡ string_bytes text.old ++ entry_text (story_entry groups.now group entry)) }
{
    match groups.get(group as usize) {
        Some(story) => push_entry(text, story.entries.as_slice(), entry),
        None => Ok(()),
    }
}

// An actor's letter and a blank.
fn push_worker(text: &mut String, actor: u32) -> Result<(), AllocError>
    ensures { OnOk result (string_bytes text.new ≡ string_bytes text.old ++ (actor_text actor ++ (32 ∷ []))) }
{
    push_actor(text, actor)?;
    push_text(text, " ")
}

fn push_said(
    text: &mut String,
    said: &Said,
    mounts: &[MountRecord],
    groups: &[GroupStory],
) -> Result<(), AllocError>
    ensures { OnOk result (string_bytes text.new ≡ string_bytes text.old ++ said_text mounts.now groups.now said.now) }
{
    match said {
        Said::Of { mount, entry } => push_mount_entry(text, mounts, *mount, *entry),
        Said::InGroup {
            actor,
            group,
            entry,
        } => {
            push_worker(text, *actor)?;
            push_story_entry(text, groups, *group, *entry)
        }
        Said::Direct { actor, reply } => {
            push_worker(text, *actor)?;
            push_reply(text, reply)
        }
        Said::Line { actor: None, reply } => push_line_reply(text, *reply),
        Said::Line {
            actor: Some(actor),
            reply,
        } => {
            push_worker(text, *actor)?;
            push_line_reply(text, *reply)
        }
    }
}

fn push_answer(
    text: &mut String,
    said: &Said,
    mounts: &[MountRecord],
    groups: &[GroupStory],
) -> Result<(), AllocError>
    ensures { OnOk result (string_bytes text.new ≡ string_bytes text.old ++ (said_text mounts.now groups.now said.now ++ (10 ∷ []))) }
{
    push_said(text, said, mounts, groups)?;
    push_text(text, "\n")
}

/// The answers of a run, a line for each, in order. An entry that is not there, and one that is no call's, leave their
/// line empty.
pub fn print(
    alloc: Global,
    said: &[Said],
    mounts: &[MountRecord],
    groups: &[GroupStory],
) -> Result<String, NoMemory>
    ensures { IfOk result (λ text. string_bytes text ≡ answer_lines said.now mounts.now groups.now) }
{
    let mut text = String::new(alloc);
    for one in said {
        push_answer(&mut text, one, mounts, groups)?;
    }
    Ok(text)
}

/// Appends the line that tells how a run ended. One that ended well has none, and neither has one whose output failed.
pub fn print_status(text: &mut String, ended: Status) -> Result<(), NoMemory>
    ensures { OnOk result (string_bytes text.new ≡ string_bytes text.old ++ line_of (status_text ended)) }
{
    match ended {
        Status::Good | Status::SinkFault => Ok(()),
        _ => {
            push_status(text, ended)?;
            push_text(text, "\n")?;
            Ok(())
        }
    }
}

/// All that is written of a run of a script: its answers, and how it ended.
pub fn print_run(
    alloc: Global,
    said: &[Said],
    mounts: &[MountRecord],
    groups: &[GroupStory],
    ended: Status,
) -> Result<String, NoMemory>
    ensures { IfOk result (λ text. string_bytes text ≡ output said.now mounts.now groups.now ended) }
{
    let mut text = print(alloc, said, mounts, groups)?;
    print_status(&mut text, ended)?;
    Ok(text)
}

/// The line that tells of running out of memory, which takes none.
pub fn no_memory_line() -> &'static str
    ensures { result.now ≡ line_of (status_text status.NoMemory) }
{
    "no memory\n"
}
