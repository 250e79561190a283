// Laws of the definitions. Each is the contract of a function that does nothing but call the laws that its own rests on.

ghost use Rattle.std.specs.Prelude.{Contains, ◌≡◌, ◌≤◌, ◌+◌, ◌↔◌, ◌∷◌, ◌++◌, [], ℕ, map, List, None, Some, length, slice_get};
ghost use Rattle.std.specs.List.{AllByRecursion};
ghost use Rattle.life_bytes.specs.declared.sector.Sector.{Sector};
ghost use Rattle.disk_model.specs.Disk.{Cell, IsImage, settled_as};
ghost use Rattle.life_table.specs.declared.types.MountRecord.{MountRecord};
ghost use Rattle.life_table.specs.declared.table.Table.{Table};
ghost use Rattle.life_table.specs.WellFormed.{IsTable};
ghost use Rattle.actor_world.specs.Licence.{Interval};
ghost use Rattle.whole_image.specs.Damage.{IsSound};
ghost use Rattle.whole_image.specs.Represents.{Represents};
ghost use Rattle.script.specs.declared.types.Command.TheVariants as Command;
ghost use Rattle.script.specs.declared.answers.LineReply.TheVariants as LineReply;
ghost use Rattle.script.specs.declared.types.Line.{Line};
ghost use Rattle.script.specs.declared.answers.Said.{Said};
ghost use Rattle.script.specs.declared.status.Status.{Status};
ghost use Rattle.script.specs.declared.status.Status.TheVariants as status;
ghost use Rattle.run_history.specs.Mounts.{MountStory, acknowledged, changes_made, table_after};
ghost use Rattle.run_history.specs.States.{PastCall, RunState, UpMount, calls_of, mounts_of, run_begins, table_now};
ghost use Rattle.run_history.specs.Answers.{AnswersLine, all_awaiting, holds_in, line_said, with_frees};
ghost use Rattle.run_history.specs.Progress.{HasCome};
ghost use Rattle.run_history.specs.FirstImage.{FitsFirstImage};
ghost use Rattle.run_history.specs.Linear.{AreBetween, AreLegalFrom};
ghost use Rattle.run_history.specs.NextMount.{BeginsBehind, Follow};
ghost use Rattle.run_history.specs.CrashSafe.{CrashSafe, last_mount};
ghost use Rattle.run_history.specs.Headline.{Headline, Replies};

use life_table::{changes_tell_the_table, tables_stay_well_formed};
use whole_image::{images_represent_one_table, one_first_damage};

/// A law: each line of a run that ended well has one answer, and no run has more answers than lines.
pub fn one_answer_a_line()
    ensures each { (first : Table) (lines : List Line) (said : List Said) (mounts : List MountRecord) (last : RunState)
        → Replies first lines status.Good said mounts last → length said ≡ length lines }
    ensures most { (first : Table) (lines : List Line) (ended : Status) (said : List Said) (mounts : List MountRecord) (last : RunState)
        → Replies first lines ended said mounts last → length said ≤ length lines }
{}

/// A law: a run goes on by one line, and has its replies once the last line is answered. So a loop over the lines keeps that the run has come so far, and each turn
/// owes the answer of its line.
pub fn runs_go_on()
    ensures begins { (first : Table) (lines : List Line) → HasCome first lines [] run_begins }
    ensures goes_on { (first : Table) (lines : List Line) (said : List Said) (s : RunState) (asked : Line) (one : Said) (next : RunState) → HasCome first lines said s
        → slice_get lines (length said) ≡ Some asked → AnswersLine first s asked.command one next → HasCome first lines (said ++ one ∷ []) next }
    ensures ends { (first : Table) (lines : List Line) (said : List Said) (s : RunState) → HasCome first lines said s → length said ≡ length lines
        → Replies first lines status.Good said (map (λ (m : MountStory). m.story) (mounts_of s)) s }
{}

/// A law: whatever lines are answered, the calls that they make have their entries in between: where one ended before another began, in the same mount, its entry
/// stands before the other's; and no entry stands before its call's begin. So what a runner owes of both is what it owes of its answers.
pub fn answered_calls_stand_between()
    ensures between { (first : Table) (lines : List Line) (ended : Status) (said : List Said) (mounts : List MountRecord) (last : RunState)
        → Replies first lines ended said mounts last → AreBetween (calls_of last) }
    ensures intervals { (first : Table) (lines : List Line) (ended : Status) (said : List Said) (mounts : List MountRecord) (last : RunState) (m : MountStory)
        → Replies first lines ended said mounts last → Contains (mounts_of last) m → Interval m.story.entries m.story.froms }
{}

/// A law: what a line's answer says of the run. After a stop no mount is up. An unmount is answered ok only where nobody held an inode, and then no mount is up. A
/// mount that is answered ok was not up, and is up then: it keeps and has freed what it says, and has recorded each free.
pub fn answers_tell_of_the_mount()
    ensures stop { (first : Table) (s : RunState) (said : Said) (next : RunState) → AnswersLine first s Command.Stop said next
        → (said ≡ line_said LineReply.Stopped) × (next.up ≡ None) }
    ensures unmounted { (first : Table) (s next : RunState) → AnswersLine first s Command.Unmount (line_said LineReply.Unmounted) next
        → (up : UpMount) × (s.up ≡ Some up) × (holds_in (table_now (with_frees (all_awaiting (table_now up)) up)) ≡ 0) × (next.up ≡ None) }
    ensures mounted { (first : Table) (s next : RunState) (kept freed : ℕ) → AnswersLine first s Command.Mount (line_said (LineReply.Mounted kept freed)) next
        → (s.up ≡ None) × ((up : UpMount) × (next.up ≡ Some up) × (up.story.kept ≡ kept) × (up.story.freed ≡ freed) × (length up.story.entries ≡ freed)) }
{}

/// A law: no mount line calls a sound image damaged, and of an image that is not sound no mount is begun.
pub fn damage_is_told_exactly()
    ensures never { (before : List Sector) (lines : List Line) (said : List Said) (mounts : List MountRecord) (cells : List Cell) (i rule sector : ℕ)
        → FitsFirstImage before lines said mounts cells → IsSound before → ¬ (slice_get said i ≡ Some (line_said (LineReply.Damaged rule sector))) }
    ensures none { (before : List Sector) (lines : List Line) (said : List Said) (mounts : List MountRecord) (cells : List Cell)
        → FitsFirstImage before lines said mounts cells → ¬ IsSound before → mounts ≡ [] }
{
    one_first_damage();
}

/// A law: a run without lines keeps the headline of an image that represents a table, and is crash safe exactly there.
pub fn runs_without_lines_are_crash_safe()
    ensures headline { (image : List Sector) (first : Table) (number : ℕ) → Represents image first number
        → Headline image [] status.Good [] [] (settled_as image) }
    ensures crash_safe { (image : List Sector) (first : Table) (number : ℕ)
        → CrashSafe first number [] (settled_as image) ↔ Represents image first number }
{}

/// A law: runs join. An image that a crash may leave of a run represents the table from which a mount of it begins, with the number of that mount's first change: as
/// many changes are kept as the image has, at least those that were acknowledged and at most all.
pub fn runs_join()
    ensures begins { (first : Table) (number : ℕ) (mounts : List MountStory) (m next : MountStory) (cells : List Cell) (image : List Sector)
        → CrashSafe first number mounts cells → last_mount mounts ≡ Some m → IsImage cells image → Represents image next.start next.story.base
        → next.story.base ≡ m.story.base + next.story.kept → BeginsBehind m next }
    ensures kept { (first : Table) (number : ℕ) (mounts : List MountStory) (m : MountStory) (cells : List Cell) (image : List Sector) (t : Table) (c : ℕ)
        → CrashSafe first number mounts cells → last_mount mounts ≡ Some m → IsImage cells image → Represents image t c
        → (n : ℕ) × (c ≡ m.story.base + n) × (t ≡ table_after m n) × (acknowledged m ≤ n) × (n ≤ changes_made m.story) }
{
    images_represent_one_table();
}

/// A law: where the first image's table is well formed, each mount of a run begins from a table that is, and so is the table after any number of its changes.
pub fn tables_of_mounts_are_well_formed()
    ensures { (first : Table) (number : ℕ) (calls : List PastCall) (mounts : List MountStory) → IsTable first → AreLegalFrom calls 0 mounts
        → Follow first number mounts → AllByRecursion (λ (m : MountStory). IsTable m.start × ((n : ℕ) → IsTable (table_after m n))) mounts }
{
    changes_tell_the_table();
    tables_stay_well_formed();
}
