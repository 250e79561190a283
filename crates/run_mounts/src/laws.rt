// How a run stands safe. Each law is the contract of a function that does nothing but call the laws that its own rests on.

ghost use Rattle.std.specs.Prelude.{◌≡◌, ◌≤◌, ◌∷◌, ◌++◌, [], ℕ, List, length};
ghost use Rattle.life_bytes.specs.declared.sector.Sector.{Sector};
ghost use Rattle.disk_model.specs.Disk.{Cell, IsImage};
ghost use Rattle.life_table.specs.declared.types.Call.{Call};
ghost use Rattle.life_table.specs.declared.types.Call.TheVariants as call;
ghost use Rattle.life_table.specs.declared.types.Reply.{Reply};
ghost use Rattle.life_table.specs.declared.types.Reply.TheVariants as reply;
ghost use Rattle.life_table.specs.declared.types.MountRecord.{MountRecord};
ghost use Rattle.life_table.specs.declared.table.Table.{Table};
ghost use Rattle.mounted_calls.specs.Calls.{with_call};
ghost use Rattle.mounted_calls.specs.Running.{IsLeftBehind, IsRecordOf};
ghost use Rattle.run_history.specs.Answers.{IsFresh};
ghost use Rattle.run_history.specs.CrashSafe.{IsPrefixLeft};
ghost use Rattle.run_history.specs.Mounts.{MountStory, changes_made, left, never_up, unmounted};
ghost use Rattle.run_mounts.specs.Calls.{IsWholeCall};
ghost use Rattle.run_mounts.specs.Ends.{all_acknowledged};
ghost use Rattle.run_mounts.specs.Safe.{StandsBehind, story_as};

/// A law: a run stands safe with a mount that made one whole call more, where each image that a crash may leave is one of the mount as it is then: behind a sync that covers all of its
/// changes, and behind a call that covers none.
pub(crate) fn calls_stand_safe()
    ensures { (first : Table) (number : ℕ) (past : List MountStory) (start t u : Table) (actor : ℕ) (made : Call) (answer : Reply) (story : MountRecord) (old new : List Cell)
        → IsWholeCall made → IsRecordOf start t story → IsRecordOf start u (with_call story actor made answer)
        → ((count : ℕ) → answer ≡ reply.Covered count → count ≡ changes_made story)
        → ((image : List Sector) → IsImage new image → IsLeftBehind start (with_call story actor made answer) image)
        → StandsBehind first number past left start story old → StandsBehind first number past left start (with_call story actor made answer) new }
{}

/// A law: and with one that has ended, where each image has all of its changes.
pub(crate) fn ended_mounts_stand_safe()
    ensures { (first : Table) (number : ℕ) (past : List MountStory) (start : Table) (story : MountRecord) (old new : List Cell) → StandsBehind first number past left start story old
        → ((image : List Sector) → IsImage new image → IsPrefixLeft (story_as left start story) image (changes_made story))
        → StandsBehind first number past unmounted start (all_acknowledged story) new }
{}

/// A law: a mount that is cut off takes less with it. What a crash leaves of one that has ended is of one that is left too, and of one that had only freed rows is of one that never came up.
pub fn mounts_cut_off_stand_safe()
    ensures ended { (first : Table) (number : ℕ) (past : List MountStory) (start : Table) (story : MountRecord) (acknowledged : ℕ) (cells : List Cell)
        → story.freed ≤ length story.entries → StandsBehind first number past unmounted start story cells
        → StandsBehind first number past left start (record story { acknowledged = acknowledged }) cells }
    ensures left { (first : Table) (number : ℕ) (past : List MountStory) (start : Table) (story : MountRecord) (acknowledged : ℕ) (cells : List Cell)
        → StandsBehind first number past left start story cells
        → StandsBehind first number past left start (record story { acknowledged = acknowledged }) cells }
    ensures never_up { (first : Table) (number : ℕ) (past : List MountStory) (start : Table) (story : MountRecord) (acknowledged : ℕ) (cells : List Cell) → IsFresh story
        → StandsBehind first number past left start story cells
        → StandsBehind first number past never_up start (record story { acknowledged = acknowledged }) cells }
{}
