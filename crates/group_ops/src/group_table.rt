// A group's state as what keeps the table of its group.

ghost use Rattle.std.specs.Prelude.{◌≡◌, ◌<◌, ℕ, Some, IsSomeAnd};
ghost use Rattle.std.specs.Option.{option_map};
ghost use Rattle.geometry.specs.Shape.{IsGeometry};
ghost use Rattle.life_table.specs.declared.key.Key.{Key};
ghost use Rattle.life_table.specs.declared.types.Call.{Call};
ghost use Rattle.life_table.specs.declared.types.Reply.{Reply};
ghost use Rattle.life_table.specs.declared.types.Event.TheVariants.{Called, Freed};
ghost use Rattle.life_table.specs.declared.table.Table.{Table};
ghost use Rattle.life_table.specs.History.{closed, closed_inode};
ghost use Rattle.life_table.specs.Legal.{Awaits, IsNoHold, Permits, after_call, freed};
ghost use Rattle.life_table.specs.Table.{group_at, group_number, inode_in, row_of};
ghost use Rattle.group_core.specs.GroupHistory.{HappensUnheld, call_group};
ghost use Rattle.group_frame.specs.Frames.{alone};
ghost use Rattle.sound_image.specs.Encoding.{Layouts};
ghost use Rattle.group_ops.specs.declared.delta.Delta.{Delta};
ghost use Rattle.group_ops.specs.OwnTable.{TakesTo, own_table};
ghost use Rattle.group_ops.specs.Represents.{IsGroupOf};
ghost use Rattle.group_ops.specs.Staging.{Leads};
ghost use Rattle.group_ops.specs.Values.{StateValue};

use crate::change::Change;
use crate::state::GroupState;
use encoded_changes::places_have_their_metadata;
use extent_fork::encoded_forks_are_read;
use group_core::{GroupTable, legal_events_happen_unheld};
use group_frame::{
    calls_stay_in_their_group, encodings_pass_over_holds, frees_stay_in_their_group,
    groups_stand_apart,
};
use inode_core::encoded_cores_are_read;
use life_ports::NoMemory;
use sound_image::encoded_places;

/// A law: the table that a state has is that of which it is the group, with the other groups without a chunk and with nobody holding a row. It is read
/// from the inodes in core and from the buffers of the others.
pub fn states_have_their_table()
    ensures { (s : StateValue) (t : Table) (layouts : Layouts) → IsGeometry s.geometry → s.group < s.geometry.groups → IsGroupOf s t layouts
        → own_table s ≡ closed (alone t s.group) }
{
    encoded_places();
    places_have_their_metadata();
    encoded_cores_are_read();
    encoded_forks_are_read();
    groups_stand_apart();
}

/// A law: the inode of a number in that table is the one in the table of which the state is the group, with nobody holding it. So they have the same numbers.
pub fn states_have_their_inodes()
    ensures { (s : StateValue) (t : Table) (layouts : Layouts) (agino : ℕ) → IsGeometry s.geometry → s.group < s.geometry.groups → IsGroupOf s t layouts
        → inode_in (group_at (own_table s) s.group) agino ≡ option_map closed_inode (inode_in (group_at t s.group) agino) }
{
    states_have_their_table();
    groups_stand_apart();
    encodings_pass_over_holds();
}

/// A law: a change that leads from a table to the one after a call in the state's group, or after a free there, takes the state's own table to what this
/// event makes of it, and the event may happen there. So it may be committed with this event as its entry.
pub fn changes_are_events()
    ensures call { (s : StateValue) (d : Delta) (t : Table) (layouts others : Layouts) (called : Call) (answer : Reply) → IsGeometry s.geometry
        → s.group < s.geometry.groups → Leads s d t layouts (after_call t called answer) others → Permits t called answer → IsNoHold called → call_group called ≡ Some s.group
        → TakesTo s d (closed (alone (after_call t called answer) s.group))
        × HappensUnheld (own_table s) (Called called answer) (closed (alone (after_call t called answer) s.group)) }
    ensures free { (s : StateValue) (d : Delta) (t : Table) (layouts others : Layouts) (key : Key) → IsGeometry s.geometry → s.group < s.geometry.groups
        → Leads s d t layouts (freed t key) others → IsSomeAnd (row_of t key) Awaits → group_number key ≡ s.group
        → TakesTo s d (closed (alone (freed t key) s.group)) × HappensUnheld (own_table s) (Freed key) (closed (alone (freed t key) s.group)) }
{
    states_have_their_table();
    groups_stand_apart();
    calls_stay_in_their_group();
    frees_stay_in_their_group();
    legal_events_happen_unheld();
}

impl GroupTable for GroupState {
    ghost use Rattle.std.proofs.Common.{◌≡◌, refl, subst, sym};
    ghost use Rattle.group_ops.specs.Staging.{ChangeValue};
    ghost use Rattle.group_ops.specs.Changes.{changed_state, with_room};
    ghost use Rattle.group_ops.specs.Keeping.{IsBrought, IsGone, IsWrittenBack};
    ghost use Rattle.group_ops.specs.OwnTable.{TakesTo, own_table, told_cached};
    ghost use Rattle.group_ops.specs.Represents.{RepresentsGroup};
    ghost use Rattle.group_ops.specs.Values.{kept_at};

    type Change = Change;

    ghost group = { λ s. s.group };

    ghost table = { λ s. own_table s };

    ghost room = { λ s. s.room };

    ghost takes = { λ s change u. TakesTo s change.delta u };

    ghost cached = { λ s agino. told_cached (kept_at s agino) };

    ghost with_room = { λ s n. with_room s n };

    ghost applied = { λ s change after. after ≡ with_room (changed_state s change.delta) after.room };

    ghost represents = { λ s. RepresentsGroup s };

    ghost brought = { λ s agino after. IsBrought s agino after };

    ghost flushed = { λ s after. IsWrittenBack s after };

    ghost gone = { λ s agino after. IsGone s agino after };

    fn reserve(&mut self) -> Result<(), NoMemory> {
        self.make_room()
    }

    fn apply(&mut self, next: Change) {
        self.hold();
        states_have_their_table();
        self.make_change(next);
    }

    fn bring_in(&mut self, agino: u32) -> Result<(), NoMemory> {
        self.hold();
        states_have_their_table();
        states_have_their_inodes();
        self.bring_inode(agino)
    }

    fn in_core(&self, from: u32) -> Option<u32> {
        self.first_in_core(from)
    }

    fn clean(&self, agino: u32) -> bool {
        self.is_clean(agino)
    }

    fn flush(&mut self) {
        self.hold();
        states_have_their_table();
        self.flush_all();
    }

    fn let_go(&mut self, agino: u32) {
        self.hold();
        states_have_their_table();
        self.drop_inode(agino);
    }

    ghost has_room = { λ value n. refl };

    ghost own_room = { λ value. refl };

    ghost last_room = { λ value m n. refl };

    ghost outlives = { λ value before after u same takes. subst (λ (c : ChangeValue). TakesTo value c.delta u) (sym same) takes };
}
