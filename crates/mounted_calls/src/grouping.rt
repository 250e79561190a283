//! One of the groups of a mount: room in it, what a call there comes to, and the call made.

ghost use Rattle.std.specs.Prelude.{◌≡◌, ◌<◌, ◌≤◌, Some, true, IfOk, OnOk, length, slice_get, is_none};
ghost use Rattle.life_table.specs.declared.table.Table.{Table};
ghost use Rattle.sound_image.specs.Encoding.{Layouts};
ghost use Rattle.group_core.specs.GroupHistory.{call_group};
ghost use Rattle.group_core.specs.Value.{GroupValue};
ghost use Rattle.group_ops.specs.Represents.{IsGroupOf};
ghost use Rattle.group_ops.specs.Values.{StateValue};
ghost use Rattle.mounted_calls.specs.Calls.{IsOnGroup, roomless};
ghost use Rattle.mounted_calls.specs.Decisions.{CanDecide, Decides, GroupHasRoom, IsChanged, IsNoted, MayChange, MayNote};

use crate::deciding::decide;
use crate::decision::Decision;
use group_core::{Group, GroupTable};
use group_ops::{Change, GroupState};
use life_ports::NoMemory;
use life_table::{Call, Entry};

/// Makes room in a group for one entry and one change.
pub(crate) fn reserve_in(groups: &mut Vec<Group<GroupState>>, group: usize) -> Result<(), NoMemory>
    requires { group < length groups.old.items }
    ensures same { roomless groups.new.items ≡ roomless groups.old.items }
    ensures room { OnOk result (GroupHasRoom groups.new.items group) }
{
    groups[group].reserve()
}

/// What a call in a group comes to.
pub(crate) fn decide_in(
    groups: &Vec<Group<GroupState>>,
    group: usize,
    called: Call,
) -> Result<Decision, NoMemory>
    requires inside { group < length groups.now.items }
    requires kind { IsOnGroup called }
    requires own { (of : GroupValue StateValue) → slice_get groups.now.items group ≡ Some of → call_group called ≡ Some of.state.group }
    requires can { (of : GroupValue StateValue) → slice_get groups.now.items group ≡ Some of → CanDecide of.state called }
    ensures { (of : GroupValue StateValue) (t : Table) (layouts : Layouts) → slice_get groups.now.items group ≡ Some of → IsGroupOf of.state t layouts
        → IfOk result (Decides of.state t layouts called) }
{
    decide(groups[group].state(), called)
}

/// Notes an entry in a group that it leaves.
pub(crate) fn note_in(groups: &mut Vec<Group<GroupState>>, group: usize, entry: Entry)
    requires inside { group < length groups.old.items }
    requires may { (of : GroupValue StateValue) → slice_get groups.old.items group ≡ Some of → MayNote entry of.state }
    requires room { GroupHasRoom groups.old.items group }
    ensures { IsNoted group entry groups.old.items groups.new.items }
{
    groups[group].note(entry);
}

/// Makes a change in a group, and notes its entry.
pub(crate) fn change_in(
    groups: &mut Vec<Group<GroupState>>,
    group: usize,
    entry: Entry,
    change: Change,
)
    requires inside { group < length groups.old.items }
    requires may { (of : GroupValue StateValue) → slice_get groups.old.items group ≡ Some of → MayChange entry change.delta of.state }
    requires handed_out { is_none change.commit ≡ true }
    requires room { GroupHasRoom groups.old.items group }
    ensures { IsChanged group entry change.delta groups.old.items groups.new.items }
{
    groups[group].commit(entry, change);
}
