//! The record of a mount, with one entry more.

ghost use Rattle.std.specs.Prelude.{◌≡◌, ◌≤◌, ◌<◌, ◌+◌, ◌∷◌, ◌++◌, ◌^◌, [], length, IfOk, OnErr, OnOk, max, vec_len, vec_capacity};
ghost use Rattle.run_history.specs.Mounts.{covered};
ghost use Rattle.mounted_calls.specs.Calls.{entry_of};

use life_ports::NoMemory;
use life_table::{Call, Entry, Event, Listed, MountRecord, Reply};
use std::alloc::Global;
use std::mem;

/// The lists of a mount's record, taken out of it, with room for one entry more.
#[derive(Drop)]
pub(crate) struct OpenRecord {
    entries: Vec<Entry>,
    froms: Vec<u64>,
}

/// Makes room in both lists.
fn make_room(entries: &mut Vec<Entry>, froms: &mut Vec<u64>) -> Result<(), NoMemory>
    ensures entries { entries.new.items ≡ entries.old.items }
    ensures froms { froms.new.items ≡ froms.old.items }
    ensures entry { OnOk result (vec_len entries.new < vec_capacity entries.new) }
    ensures from { OnOk result (vec_len froms.new < vec_capacity froms.new) }
{
    entries.reserve(1)?;
    froms.reserve(1)?;
    Ok(())
}

/// Takes the lists out of a record, with room for one entry more. Where there is no memory, the record stays.
pub(crate) fn open_record(alloc: Global, story: &mut MountRecord) -> Result<OpenRecord, NoMemory>
    ensures rest { story.new ≡ record story.old { entries = story.new.entries; froms = story.new.froms } }
    ensures entries { IfOk result (λ taken. taken.entries.items ≡ story.old.entries) }
    ensures froms { IfOk result (λ taken. taken.froms.items ≡ story.old.froms) }
    ensures entry { IfOk result (λ taken. vec_len taken.entries < vec_capacity taken.entries) }
    ensures from { IfOk result (λ taken. vec_len taken.froms < vec_capacity taken.froms) }
    ensures kept { OnErr result (story.new ≡ story.old) }
{
    let mut entries = mem::replace(&mut story.entries, Listed::new(alloc)).into_vec();
    let mut froms = mem::replace(&mut story.froms, Listed::new(alloc)).into_vec();
    match make_room(&mut entries, &mut froms) {
        Ok(()) => Ok(OpenRecord { entries, froms }),
        Err(fault) => {
            story.entries = Listed::from_vec(entries);
            story.froms = Listed::from_vec(froms);
            Err(fault)
        }
    }
}

/// How many first changes of the mount an event acknowledges.
fn covered_by(event: &Event) -> u64
    ensures { result ≡ covered event.now }
{
    match event {
        Event::Called {
            reply: Reply::Covered { changes },
            ..
        } => *changes,
        _ => 0,
    }
}

/// Puts them back, with the entry of a call that began where they end.
pub(crate) fn close_record(taken: OpenRecord, story: &mut MountRecord, entry: Entry)
    requires entry { vec_len taken.entries < vec_capacity taken.entries }
    requires from { vec_len taken.froms < vec_capacity taken.froms }
    ensures { story.new ≡ record story.old { entries = taken.entries.items ++ entry ∷ []; froms = taken.froms.items ++ length taken.entries.items ∷ []; acknowledged = max story.old.acknowledged (covered entry.event) } }
{
    let OpenRecord {
        mut entries,
        mut froms,
    } = taken;
    let acknowledged = story.acknowledged.max(covered_by(&entry.event));
    let from = entries.len() as u64;
    entries.push_reserved(entry);
    froms.push_reserved(from);
    story.entries = Listed::from_vec(entries);
    story.froms = Listed::from_vec(froms);
    story.acknowledged = acknowledged;
}

/// The entry of a call with its reply.
pub(crate) fn call_entry(actor: u32, called: Call, reply: Reply) -> Entry
    ensures { result ≡ entry_of actor called reply }
{
    Entry {
        actor,
        event: Event::Called {
            call: called,
            reply,
        },
    }
}

/// Adds the entry of a call that begins and ends here. Where there is no memory, the record stays.
pub(crate) fn record_call(
    alloc: Global,
    story: &mut MountRecord,
    entry: Entry,
) -> Result<(), NoMemory>
    ensures added { OnOk result (story.new ≡ record story.old { entries = story.old.entries ++ entry ∷ []; froms = story.old.froms ++ length story.old.entries ∷ []; acknowledged = max story.old.acknowledged (covered entry.event) }) }
    ensures kept { OnErr result (story.new ≡ story.old) }
{
    let taken = open_record(alloc, story)?;
    close_record(taken, story, entry);
    Ok(())
}
