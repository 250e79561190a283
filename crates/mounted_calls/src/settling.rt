//! A call in a group of a mount, as it is made.

ghost use Rattle.std.specs.Prelude.{◌≡◌, ◌≤◌, ◌<◌, ◌+◌, ◌-◌, ◌^◌, Some, OnOk, OnErr, IsSomeAnd, length, slice_get};
ghost use Rattle.life_limits.specs.declared.TheConstants.{MAX_IMAGES};
ghost use Rattle.log_store.specs.Spare.{spare_commits, spare_images};
ghost use Rattle.log_store.specs.State.{state_of};
ghost use Rattle.log_store.specs.Steps.{IsStore};
ghost use Rattle.group_core.specs.GroupHistory.{call_group};
ghost use Rattle.group_core.specs.Value.{GroupValue};
ghost use Rattle.group_ops.specs.Values.{StateValue};
ghost use Rattle.mounted_calls.specs.Calls.{IsOnGroup, roomless, with_call};
ghost use Rattle.mounted_calls.specs.Decisions.{FitsLog, GroupHasRoom, IsChanged, IsSettled, MayChange, MaySettle, MayTake, with_change, with_commit};

use crate::grouping::{change_in, note_in, reserve_in};
use disk_model::Disk;
use group_core::{Group, Staged};
use group_ops::{Change, GroupState};
use life_limits::{GROUP_NUMBERS, MAX_IMAGES};
use life_ports::NoMemory;
use life_table::{Call, Entry};
use log_store::Store;
use mount::Mounted;

/// The group that a call is in.
pub(crate) fn group_of(called: Call) -> usize
    requires { IsOnGroup called }
    ensures { call_group called ≡ Some result }
{
    match called {
        Call::Create { group } | Call::Tmpfile { group } => group as usize,
        Call::Link { key }
        | Call::Unlink { key }
        | Call::Grow { key, .. }
        | Call::Cut { key, .. }
        | Call::Stat { key } => (key.number / u64::from(GROUP_NUMBERS)) as usize,
        _ => unreachable!(),
    }
}

/// Makes room for a call in a group: for its entry there, its change and its commit.
pub(crate) fn make_room<D: Disk>(mounted: &mut Mounted<D>, group: usize) -> Result<(), NoMemory>
    requires store { IsStore D.known D.cells D.sector_count mounted.old.store }
    requires inside { group < length mounted.old.groups.items }
    ensures groups { roomless mounted.new.groups.items ≡ roomless mounted.old.groups.items }
    ensures room { OnOk result (GroupHasRoom mounted.new.groups.items group) }
    ensures store { IsStore D.known D.cells D.sector_count mounted.new.store }
    ensures state { state_of mounted.new.store ≡ state_of mounted.old.store }
    ensures disk { mounted.new.store.disk ≡ mounted.old.store.disk }
    ensures job { mounted.new.store.job ≡ mounted.old.store.job }
    ensures commits { OnOk result (1 ≤ spare_commits mounted.new.store) }
    ensures images { OnOk result (MAX_IMAGES ≤ spare_images mounted.new.store) }
    ensures geometry { mounted.new.geometry ≡ mounted.old.geometry }
    ensures story { mounted.new.story ≡ mounted.old.story }
{
    mounted.store.reserve(1, MAX_IMAGES)?;
    reserve_in(&mut mounted.groups, group)
}

/// Makes a change in its group, and gives its commit to the store.
fn make_change<D: Disk>(
    groups: &mut Vec<Group<GroupState>>,
    store: &mut Store<D>,
    group: usize,
    entry: Entry,
    mut change: Change,
)
    requires store { IsStore D.known D.cells D.sector_count store.old }
    requires inside { group < length groups.old.items }
    requires may { (of : GroupValue StateValue) → slice_get groups.old.items group ≡ Some of → MayChange entry change.delta of.state }
    requires fits { IsSomeAnd change.commit (FitsLog store.old.anchor) }
    requires room { GroupHasRoom groups.old.items group }
    requires commits { 1 ≤ spare_commits store.old }
    requires images { MAX_IMAGES ≤ spare_images store.old }
    requires number { store.old.durable + length store.old.queue.items + 1 < 2 ^ 64 - 1 }
    ensures changed { IsChanged group entry change.delta groups.old.items groups.new.items }
    ensures store { IsStore D.known D.cells D.sector_count store.new }
    ensures list { state_of store.new ≡ record (state_of store.old) { list = with_commit store.old.queue.items change.commit } }
    ensures disk { store.new.disk ≡ store.old.disk }
    ensures job { store.new.job ≡ store.old.job }
{
    let commit = change.take_commit();
    store.take(commit);
    change_in(groups, group, entry, change);
}

/// Makes what a call comes to: its change, where it has one; else its entry is noted alone.
pub(crate) fn settle<D: Disk>(
    groups: &mut Vec<Group<GroupState>>,
    store: &mut Store<D>,
    group: usize,
    entry: Entry,
    change: Option<Change>,
)
    requires store { IsStore D.known D.cells D.sector_count store.old }
    requires inside { group < length groups.old.items }
    requires may { (of : GroupValue StateValue) → slice_get groups.old.items group ≡ Some of → MaySettle entry change of.state }
    requires fits { MayTake store.old.anchor change }
    requires room { GroupHasRoom groups.old.items group }
    requires commits { 1 ≤ spare_commits store.old }
    requires images { MAX_IMAGES ≤ spare_images store.old }
    requires number { store.old.durable + length store.old.queue.items + 1 < 2 ^ 64 - 1 }
    ensures settled { IsSettled group entry change groups.old.items groups.new.items }
    ensures store { IsStore D.known D.cells D.sector_count store.new }
    ensures list { state_of store.new ≡ record (state_of store.old) { list = with_change store.old.queue.items change } }
    ensures disk { store.new.disk ≡ store.old.disk }
    ensures job { store.new.job ≡ store.old.job }
{
    match change {
        None => note_in(groups, group, entry),
        Some(change) => make_change(groups, store, group, entry, change),
    }
}
