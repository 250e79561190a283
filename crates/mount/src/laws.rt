// What images represent that recovery and the store leave.

ghost use Rattle.std.specs.Prelude.{◌≡◌, ◌+◌, ℕ, Bool, List, [], length, IsTrue};
ghost use Rattle.life_bytes.specs.declared.sector.Sector.{Sector};
ghost use Rattle.disk_model.specs.Disk.{Cell, as_read};
ghost use Rattle.geometry.specs.declared.shape.Geometry.{Geometry};
ghost use Rattle.geometry.specs.Places.{anchor_of};
ghost use Rattle.life_table.specs.declared.table.Table.{Table};
ghost use Rattle.life_table.specs.History.{closed, recovered};
ghost use Rattle.log_record.specs.declared.image.Commit.{Commit};
ghost use Rattle.log_store.specs.OnDisk.{Replays, ReplaysUpTo};
ghost use Rattle.log_store.specs.State.{State};
ghost use Rattle.log_store.specs.Steps.{Moves};
ghost use Rattle.recovery.specs.declared.found.Found.{Found};
ghost use Rattle.recovery.specs.declared.start.Start.{Start};
ghost use Rattle.recovery.specs.Found.{HasGroupImages, LogIsFound};
ghost use Rattle.recovery.specs.Replay.{AreUsedUp, BeginsAnew, IsBehind, IsOfReplay, groups_found};
ghost use Rattle.sound_image.specs.Encoding.{Layouts};
ghost use Rattle.sound_image.specs.Superblocks.{HasSuperblock};
ghost use Rattle.whole_image.specs.Damage.{IsSound};
ghost use Rattle.whole_image.specs.Represents.{Represents};
ghost use Rattle.commit_history.specs.Carried.{CommitsCarry, IsEncoding};
ghost use Rattle.orphan_frees.specs.Order.{keys_to_free};
ghost use Rattle.mount.specs.Coming.{IsClean};
ghost use Rattle.mount.specs.Ending.{IsStoreOf};
ghost use Rattle.mount.specs.Images.{IsImageOf, IsOnTheWay};
ghost use Rattle.mount.specs.Positions.{ArePositionsUsedUp};
ghost use Rattle.mount.specs.Same.{RepresentSame};
ghost use Rattle.mount.specs.Prefixes.{IsPrefixLeft};
ghost use Rattle.mount.specs.Recovered.{IsRecovered};

use commit_history::{commits_fit_the_log, commits_lead_from_encoding_to_encoding};
use geometry::superblocks_tell_geometries;
use log_image::logs;
use orphan_frees::recovery_frees_in_order;
use sound_image::{groups_stand_alone, sound_images_are_encoded};
use whole_image::{
    encoded_images_represent_their_table, images_represent_one_table,
    sound_images_represent_a_table,
};

/// Laws of a replay: what a stop within it leaves represents what the image before did; and where it ended well, the disk's groups encode that table.
pub(crate) fn replays_keep_the_table()
    ensures left { (g : Geometry) (old image : List Sector) (found : Found) (t : Table) (c : ℕ) → HasSuperblock g old → LogIsFound old (anchor_of g) g.ring found
        → HasGroupImages (anchor_of g) found → Represents old t c → IsOfReplay (anchor_of g) g.ring found old image → RepresentSame old image }
    ensures recovered { (g : Geometry) (old : List Sector) (found : Found) (t : Table) (c : ℕ) (start : Start) (cells : List Cell) → HasSuperblock g old
        → LogIsFound old (anchor_of g) g.ring found → HasGroupImages (anchor_of g) found → Represents old t c → IsOfReplay (anchor_of g) g.ring found old (as_read cells)
        → IsBehind g.ring found start → BeginsAnew (anchor_of g) g.ring (groups_found (anchor_of g) old found) cells start → IsRecovered old g start cells }
{
    sound_images_represent_a_table();
    images_represent_one_table();
    sound_images_are_encoded();
    groups_stand_alone();
}

/// A law: the positions of an image are used up exactly where those are that were found of its log.
pub(crate) fn positions_are_told()
    ensures { (g : Geometry) (image : List Sector) (found : Found) → HasSuperblock g image → LogIsFound image (anchor_of g) g.ring found
        → (ArePositionsUsedUp image → AreUsedUp g.ring found) × (AreUsedUp g.ring found → ArePositionsUsedUp image) }
{
    superblocks_tell_geometries();
    logs();
}

/// Laws of calls of a store whose base encodes a table: what is left then represents the table to which the first so many commits of the list before lead; and where none waits,
/// that to which all of them lead, and the base encodes it.
pub(crate) fn calls_leave_prefixes()
    ensures same { (g : Geometry) (t : Table) (layouts : Layouts) (head : ℕ) (s : State) (cells : List Cell) (image : List Sector) → IsStoreOf g t layouts s cells
        → ReplaysUpTo head s cells image → IsPrefixLeft g t layouts s.list (s.durable + 1) image }
    ensures earlier { (known : Bool) (g : Geometry) (t : Table) (layouts : Layouts) (head : ℕ) (s new : State) (cells after : List Cell) (image : List Sector) → IsTrue known
        → Moves known s new cells after → IsStoreOf g t layouts s cells → ReplaysUpTo head new after image → IsPrefixLeft g t layouts s.list (s.durable + 1) image }
    ensures all { (known : Bool) (g : Geometry) (t u : Table) (layouts others : Layouts) (head : ℕ) (s new : State) (cells after : List Cell) (image : List Sector) → IsTrue known
        → Moves known s new cells after → IsStoreOf g t layouts s cells → ReplaysUpTo head new after image → new.list ≡ [] → CommitsCarry g t layouts s.list u others
        → Represents image (closed u) (s.durable + 1 + length s.list) }
    ensures base { (known : Bool) (g : Geometry) (t u : Table) (layouts others : Layouts) (s new : State) (cells after : List Cell) → IsTrue known
        → Moves known s new cells after → IsStoreOf g t layouts s cells → new.list ≡ [] → CommitsCarry g t layouts s.list u others → IsStoreOf g u others new after }
{
    logs();
    commits_fit_the_log();
    commits_lead_from_encoding_to_encoding();
    encoded_images_represent_their_table();
}

/// A law: where a store's base encodes a table, each image from which its base replays, with the first so many commits of its list over it, represents the table to which these lead.
pub fn stores_leave_prefixes()
    ensures { (g : Geometry) (t : Table) (layouts : Layouts) (most durable : ℕ) (base image : List Sector) (list : List Commit) → IsEncoding g t layouts base → HasSuperblock g base
        → Replays (anchor_of g) g.ring most base list durable image → IsPrefixLeft g t layouts list (durable + 1) image }
{
    logs();
    commits_fit_the_log();
    commits_lead_from_encoding_to_encoding();
    encoded_images_represent_their_table();
}

/// Laws of a recovered disk: it is clean of whatever table the image before was of; and what represents the same as that image is on its way, with nothing freed.
pub(crate) fn recovered_disks_are_clean()
    ensures clean { (g h : Geometry) (t : Table) (layouts : Layouts) (next : ℕ) (old : List Sector) (start : Start) (cells : List Cell) → IsImageOf g t layouts next old
        → IsRecovered old h start cells → (h ≡ g) × (start.next_commit ≡ next) × IsClean g t layouts start cells }
    ensures same { (old image : List Sector) → RepresentSame old image → IsOnTheWay old image }
{
    superblocks_tell_geometries();
    logs();
    images_represent_one_table();
    sound_images_represent_a_table();
}

/// A law: each sound image is of some table, with layouts of it.
pub fn sound_images_are_of_tables()
    ensures { (image : List Sector) → IsSound image → (g : Geometry) × (t : Table) × (layouts : Layouts) × (next : ℕ) × IsImageOf g t layouts next image }
{
    sound_images_represent_a_table();
    sound_images_are_encoded();
}

/// A law: a mount of an image whose rows without links were freed frees nothing.
pub fn nothing_is_freed_twice()
    ensures { (g h : Geometry) (t : Table) (layouts others : Layouts) (next number : ℕ) (before image : List Sector) → IsImageOf g t layouts next before
        → IsImageOf h (recovered t) others number image → keys_to_free (recovered t) others ≡ [] }
{
    recovery_frees_in_order();
    sound_images_represent_a_table();
}
