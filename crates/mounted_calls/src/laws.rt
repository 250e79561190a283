//! What follows of a mount that is up. Each law is the contract of a function that does nothing but call the laws that its own rests on.

ghost use Rattle.std.specs.Prelude.{◌≡◌, ◌+◌, ◌≤◌, ℕ, Bool, IsTrue, List, [], length};
ghost use Rattle.life_bytes.specs.declared.sector.Sector.{Sector};
ghost use Rattle.disk_model.specs.Disk.{Cell};
ghost use Rattle.geometry.specs.declared.shape.Geometry.{Geometry};
ghost use Rattle.log_store.specs.OnDisk.{ReplaysUpTo};
ghost use Rattle.log_store.specs.State.{State};
ghost use Rattle.log_store.specs.Steps.{Moves};
ghost use Rattle.life_table.specs.declared.types.MountRecord.{MountRecord};
ghost use Rattle.life_table.specs.declared.table.Table.{Table};
ghost use Rattle.life_table.specs.History.{After, closed};
ghost use Rattle.sound_image.specs.Encoding.{Layouts};
ghost use Rattle.mount.specs.Ending.{IsStoreOf, IsWholeLeft};
ghost use Rattle.run_history.specs.CrashSafe.{IsPrefixLeft};
ghost use Rattle.run_history.specs.Mounts.{changes_made};
ghost use Rattle.mounted_calls.specs.Running.{AreRunning, IsLeftBehind, IsLogOf, IsRecordOf, story_of};
ghost use Rattle.std.specs.Prelude.{◌<◌, Some, slice_get};
ghost use Rattle.geometry.specs.Places.{anchor_of};
ghost use Rattle.life_table.specs.declared.types.Call.{Call};
ghost use Rattle.life_table.specs.Legal.{after_call};
ghost use Rattle.life_table.specs.Replies.{reply_of};
ghost use Rattle.group_core.specs.GroupHistory.{call_group};
ghost use Rattle.group_core.specs.Value.{GroupValue};
ghost use Rattle.group_ops.specs.Values.{StateValue};
ghost use Rattle.mounted_calls.specs.declared.decision.Decision.{Decision};
ghost use Rattle.life_table.specs.declared.key.Key.{Key};
ghost use Rattle.life_table.specs.History.{recovered};
ghost use Rattle.mounted_calls.specs.Fresh.{IsFreshMount};
ghost use Rattle.mounted_calls.specs.Calls.{entry_of, with_call};
ghost use Rattle.mounted_calls.specs.Decisions.{CanDecide, Decides, IsCallIn, IsSettled, MaySettle, MayTake, with_change};

use commit_history::{
    commits_fit_the_log, commits_follow_each_other, commits_lead_from_encoding_to_encoding,
};
use group_core::legal_events_happen_unheld;
use group_frame::{calls_stay_in_their_group, encodings_pass_over_holds, groups_stand_apart};
use group_ops::{changes_are_events, states_have_their_table};
use life_table::{
    changes_pass_over_holds, changes_tell_the_table, each_call_has_one_reply, holders_have_rows,
    recovery_frees_once, tables_stay_well_formed,
};
use mount::stores_leave_prefixes;

/// A law: what replays to the base of a mount's log, with some first commits of its list over it, represents the table after as many changes of the mount: at least those that
/// are acknowledged, and no more than it made.
pub fn logs_leave_first_changes()
    ensures { (known : Bool) (g : Geometry) (start t : Table) (layouts : Layouts) (story : MountRecord) (head : ℕ) (s : State) (cells : List Cell) (image : List Sector) → IsTrue known
        → IsRecordOf start t story → IsLogOf known g start layouts story s cells → ReplaysUpTo head s cells image → IsLeftBehind start story image }
{
    stores_leave_prefixes();
    changes_pass_over_holds();
}

/// A law: an image in which all commits of a mount's log are, as an end of the mount leaves it, represents the table after all changes of the mount.
pub fn ended_logs_leave_all_changes()
    ensures { (known : Bool) (g : Geometry) (start t : Table) (layouts : Layouts) (story : MountRecord) (s : State) (cells : List Cell) (image : List Sector)
        → IsRecordOf start t story → (log : IsLogOf known g start layouts story s cells) → IsWholeLeft g (After start story.entries log.durable) log.lists s.list (s.durable + 1) image
        → IsPrefixLeft (story_of start story) image (changes_made story) }
{
    changes_pass_over_holds();
}

/// A law: where first commits of a store's list came to be durable, its log is still that of the mount.
pub fn logs_move_on()
    ensures { (known : Bool) (g : Geometry) (start t : Table) (layouts : Layouts) (story : MountRecord) (s new : State) (cells after : List Cell)
        → IsRecordOf start t story → IsLogOf known g start layouts story s cells → Moves known s new cells after → IsLogOf known g start layouts story new after }
{
    commits_fit_the_log();
    commits_lead_from_encoding_to_encoding();
}

/// A law: a call that an actor may make in a group of a mount finds the group, and can be decided there.
pub(crate) fn calls_find_their_group()
    ensures { (known : Bool) (g : Geometry) (start t : Table) (layouts : Layouts) (story : MountRecord) (groups : List (GroupValue StateValue)) (s : State) (cells : List Cell) (k actor : ℕ) (made : Call)
        → AreRunning known g start t layouts story groups s cells → IsCallIn g.groups k story.entries actor made
        → (k < length groups) × ((group : GroupValue StateValue) → slice_get groups k ≡ Some group → (call_group made ≡ Some group.state.group) × CanDecide group.state made) }
{
    holders_have_rows();
}

/// A law: what such a call comes to may be made: its entry is legal in the group, and the log can take its commit.
pub(crate) fn decisions_may_be_made()
    ensures { (known : Bool) (g : Geometry) (start t : Table) (layouts : Layouts) (story : MountRecord) (groups : List (GroupValue StateValue)) (s : State) (cells : List Cell) (k actor : ℕ) (made : Call)
        (group : GroupValue StateValue) (d : Decision) → AreRunning known g start t layouts story groups s cells → IsCallIn g.groups k story.entries actor made
        → slice_get groups k ≡ Some group → Decides group.state t layouts made d → MaySettle (entry_of actor made (reply_of t made)) d.change group.state × MayTake (anchor_of g) d.change }
{
    holders_have_rows();
    each_call_has_one_reply();
    states_have_their_table();
    changes_are_events();
    groups_stand_apart();
    calls_stay_in_their_group();
    legal_events_happen_unheld();
    encodings_pass_over_holds();
    tables_stay_well_formed();
    commits_fit_the_log();
}

/// A law: once it is made, the mount is at the table after the call.
pub(crate) fn made_calls_go_on()
    ensures { (known : Bool) (g : Geometry) (start t : Table) (layouts : Layouts) (story : MountRecord) (groups new : List (GroupValue StateValue)) (s : State) (cells : List Cell) (k actor : ℕ) (made : Call)
        (group : GroupValue StateValue) (d : Decision) → AreRunning known g start t layouts story groups s cells → IsCallIn g.groups k story.entries actor made
        → slice_get groups k ≡ Some group → Decides group.state t layouts made d → IsSettled k (entry_of actor made (reply_of t made)) d.change groups new
        → (others : Layouts) × AreRunning known g start (after_call t made (reply_of t made)) others (with_call story actor made (reply_of t made)) new
        (record s { list = with_change s.list d.change }) cells }
{
    holders_have_rows();
    each_call_has_one_reply();
    changes_tell_the_table();
    encodings_pass_over_holds();
    tables_stay_well_formed();
}

/// A law: a mount that has come up is running, at the recovered table.
pub fn fresh_mounts_run()
    ensures { (known : Bool) (g : Geometry) (start : Table) (layouts : Layouts) (keys : List Key) (story : MountRecord) (groups : List (GroupValue StateValue)) (s : State) (cells : List Cell)
        → IsFreshMount known g start layouts keys story groups s cells → AreRunning known g start (recovered start) layouts story groups s cells }
{
    recovery_frees_once();
    changes_tell_the_table();
}
