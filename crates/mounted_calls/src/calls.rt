//! Whole calls in one group.

ghost use Rattle.std.specs.Prelude.{◌≡◌, ◌<◌, ◌+◌, ◌-◌, ◌^◌, OnOk, OnErr};
ghost use Rattle.life_table.specs.declared.table.Table.{Table};
ghost use Rattle.life_table.specs.Replies.{reply_of};
ghost use Rattle.life_table.specs.History.{IsHeld, key_of};
ghost use Rattle.run_history.specs.Mounts.{changes_made};
ghost use Rattle.mounted_calls.specs.Calls.{IsMade, IsOnGroup, IsUnmade, NamesGroup};
ghost use Rattle.mounted_calls.specs.Running.{IsRunning};

use crate::decision::Decision;
use crate::grouping::decide_in;
use crate::laws::{calls_find_their_group, decisions_may_be_made, made_calls_go_on};
use crate::recording::{call_entry, record_call};
use crate::settling::{group_of, make_room, settle};
use disk_model::Disk;
use life_ports::NoMemory;
use life_table::Call;
use mount::Mounted;
use std::alloc::Global;

/// Makes a whole call of an actor in one group: a create, a link, an unlink, a grow, a cut, or a look at a row. Its reply is that of its entry, the last one of the mount's record
/// then. A change waits in the store until a sync. Where there is no memory, no call was made.
pub fn call_in_group<D: Disk>(
    alloc: Global,
    mounted: &mut Mounted<D>,
    actor: u32,
    called: Call,
) -> Result<(), NoMemory>
    requires kind { IsOnGroup called }
    requires running { (start : Table) × (t : Table) × IsRunning D.known D.cells D.sector_count start t mounted.old }
    requires group { NamesGroup mounted.old.geometry.groups called }
    requires held { IsHeld mounted.old.story.entries actor (key_of called) }
    requires number { mounted.old.story.base + changes_made mounted.old.story < 2 ^ 64 - 1 }
    ensures made { (start t : Table) → IsRunning D.known D.cells D.sector_count start t mounted.old
        → OnOk result (IsMade D.known D.cells D.sector_count start t actor called (reply_of t called) mounted.old mounted.new) }
    ensures unmade { (start t : Table) → IsRunning D.known D.cells D.sector_count start t mounted.old
        → OnErr result (IsUnmade D.known D.cells D.sector_count start t mounted.old mounted.new) }
{
    calls_find_their_group();
    decisions_may_be_made();
    made_calls_go_on();
    let group = group_of(called);
    make_room(mounted, group)?;
    let Decision {
        reply,
        noted,
        change: next,
    } = decide_in(&mounted.groups, group, called)?;
    let entry = call_entry(actor, called, reply);
    record_call(alloc, &mut mounted.story, entry)?;
    let again = call_entry(actor, called, noted);
    settle(&mut mounted.groups, &mut mounted.store, group, again, next);
    Ok(())
}
