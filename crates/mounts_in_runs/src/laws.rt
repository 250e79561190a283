// Laws of the definitions. Each is the contract of a function that does nothing but call the laws that its own rests on.

ghost use Rattle.std.specs.Prelude.{◌≡◌, ◌++◌, ◌∷◌, [], ℕ, List, Err, IsTrue, length};
ghost use Rattle.life_bytes.specs.declared.sector.Sector.{Sector};
ghost use Rattle.disk_model.specs.Disk.{Cell, IsImage, as_read};
ghost use Rattle.geometry.specs.declared.shape.Geometry.{Geometry};
ghost use Rattle.life_table.specs.declared.types.MountRecord.{MountRecord};
ghost use Rattle.life_table.specs.declared.table.Table.{Table};
ghost use Rattle.life_table.specs.History.{recovered};
ghost use Rattle.sound_image.specs.Encoding.{Layouts};
ghost use Rattle.whole_image.specs.Represents.{Represents};
ghost use Rattle.orphan_frees.specs.Order.{keys_to_free};
ghost use Rattle.mount.specs.Images.{IsImageOf};
ghost use Rattle.mount.specs.Left.{IsHandedBack};
ghost use Rattle.mount.specs.Mounts.{IsBegunOver, IsMountOf, IsStoryOf, IsUp};
ghost use Rattle.mount.specs.declared.fault.MountFault.{MountFault};
ghost use Rattle.mount.specs.declared.mounted.Mounted.{Mounted};
ghost use Rattle.mount.specs.declared.recovering.Recovery.{Recovery};
ghost use Rattle.run_history.specs.Answers.{IsFresh};
ghost use Rattle.run_history.specs.CrashSafe.{CrashSafe, IsPrefixLeft};
ghost use Rattle.run_history.specs.Mounts.{MountStory, left, never_up};
ghost use Rattle.run_history.specs.NextMount.{Follow, Recovers};
ghost use Rattle.mounted_calls.specs.Running.{IsRunning};
ghost use Rattle.mounts_in_runs.specs.Stories.{BeginsWhere, mount_of};

use disk_model::Disk;
use mounted_calls::fresh_mounts_run;
use orphan_frees::{recovery_frees_in_order, recovery_goes_by_bucket};
use run_history::runs_join;
use whole_image::{images_represent_one_table, sound_images_represent_a_table};

/// A law: an image that a crash may leave of a run represents the table from which the next mount begins, with the number of its first change. So the mounts follow each other with
/// one more.
pub fn mounts_begin_where_runs_stand()
    ensures begins { (first t : Table) (number next : ℕ) (past : List MountStory) (cells : List Cell) (image : List Sector) → CrashSafe first number past cells
        → IsImage cells image → Represents image t next → (kept : ℕ) × BeginsWhere first number past t next kept }
    ensures follows { (first : Table) (number kept : ℕ) (past : List MountStory) (m : MountStory) → Follow first number past → BeginsWhere first number past m.start m.story.base kept
        → m.story.kept ≡ kept → Follow first number (past ++ m ∷ []) }
{
    images_represent_one_table();
    runs_join();
}

/// A law: the record of a mount that came up is that of what recovery frees of its table, each free with its own place; and each image that its disk may leave represents
/// the table after all of them, which are acknowledged.
pub fn mounts_leave_prefixes<D: Disk>()
    ensures fresh { (next acknowledged : ℕ) (t : Table) (layouts : Layouts) (story : MountRecord) → IsStoryOf next (keys_to_free t layouts) acknowledged story → IsFresh story }
    ensures recovers { (g : Geometry) (t : Table) (layouts : Layouts) (next kept acknowledged : ℕ) (image : List Sector) (story : MountRecord) → IsImageOf g t layouts next image
        → IsStoryOf next (keys_to_free t layouts) acknowledged story → Recovers (mount_of left t kept story) }
    ensures safe { (g : Geometry) (t : Table) (layouts : Layouts) (next kept : ℕ) (image after : List Sector) (mounted : Mounted D) → IsImageOf g t layouts next image
        → IsMountOf D.cells g t layouts next mounted → IsImage (D.cells mounted.store.disk) after → IsPrefixLeft (mount_of left t kept mounted.story) after mounted.story.freed }
{
    recovery_frees_in_order();
    recovery_goes_by_bucket();
    sound_images_represent_a_table();
}

/// A law: the same of a mount that began and did not come up: its record is that of the first frees of recovery, and each image that its disk may leave represents the table after
/// some first of them.
pub fn refused_mounts_leave_prefixes()
    ensures fresh { (t : Table) (layouts : Layouts) (next : ℕ) (story : MountRecord) (cells : List Cell) → IsBegunOver t layouts next story cells → IsFresh story }
    ensures recovers { (g : Geometry) (t : Table) (layouts : Layouts) (next kept : ℕ) (image : List Sector) (story : MountRecord) (cells : List Cell) → IsImageOf g t layouts next image
        → IsBegunOver t layouts next story cells → Recovers (mount_of never_up t kept story) }
    ensures safe { (g : Geometry) (t : Table) (layouts : Layouts) (next kept : ℕ) (image after : List Sector) (story : MountRecord) (cells : List Cell) → IsImageOf g t layouts next image
        → IsBegunOver t layouts next story cells → IsImage cells after → (n : ℕ) × IsPrefixLeft (mount_of never_up t kept story) after n }
{
    recovery_frees_in_order();
    recovery_goes_by_bucket();
    sound_images_represent_a_table();
}

/// A law: a mount that came up is one on which calls go on from the recovered table: over an image of a table from that one, and where nothing tells of the disk from the one that its clauses name.
pub fn mounts_that_came_up_run<D: Disk>()
    ensures known { (g : Geometry) (t : Table) (layouts : Layouts) (next : ℕ) (image : List Sector) (mounted : Mounted D) → IsImageOf g t layouts next image
        → IsMountOf D.cells g t layouts next mounted → IsUp D.known D.cells D.sector_count mounted → IsRunning D.known D.cells D.sector_count t (recovered t) mounted }
    ensures unknown { (mounted : Mounted D) → ¬ IsTrue D.known → (up : IsUp D.known D.cells D.sector_count mounted)
        → IsRunning D.known D.cells D.sector_count up.start (recovered up.start) mounted }
{
    recovery_frees_in_order();
    sound_images_represent_a_table();
    fresh_mounts_run();
}

/// A law: a run stays crash safe over a mount that was refused before it began.
pub fn unbegun_mounts_leave_runs()
    ensures { (first : Table) (number : ℕ) (past : List MountStory) (fault : MountFault) (old new : List Cell) → CrashSafe first number past old
        → IsHandedBack {T = Recovery} (Err fault) old new → CrashSafe first number past new }
{
    images_represent_one_table();
}
