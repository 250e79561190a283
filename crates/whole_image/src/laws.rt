// Laws of the definitions. Each is the contract of a function that does nothing but call the laws that its own rests on.

ghost use Rattle.std.specs.Prelude.{◌≡◌, ◌≤◌, ◌<◌, ◌^◌, ℕ, List, length};
ghost use Rattle.life_bytes.specs.declared.sector.Sector.{Sector};
ghost use Rattle.life_bytes.specs.Sectors.{zero_sector};
ghost use Rattle.geometry.specs.declared.shape.Geometry.{Geometry};
ghost use Rattle.geometry.specs.Places.{anchor_of};
ghost use Rattle.life_table.specs.declared.table.Table.{Table};
ghost use Rattle.life_table.specs.History.{closed};
ghost use Rattle.life_table.specs.WellFormed.{IsTable};
ghost use Rattle.sound_image.specs.Damage.{Rule};
ghost use Rattle.sound_image.specs.Damage.{FirstGroupsDamage as FirstDamageOfGroups};
ghost use Rattle.sound_image.specs.Damage.{AreGroupsSound as GroupsAreSound};
ghost use Rattle.sound_image.specs.Places.{bytes_at};
ghost use Rattle.sound_image.specs.Reading.{rows_of};
ghost use Rattle.sound_image.specs.Encoding.{Layouts, CanEncode, encoded};
ghost use Rattle.sound_image.specs.Superblocks.{HasSuperblock, IsLongEnough};
ghost use Rattle.log_image.specs.Anchor.{HasAnchor};
ghost use Rattle.log_image.specs.Damage.{IsLogDamage};
ghost use Rattle.log_image.specs.Log.{AreBelow, Log, groups_part};
ghost use Rattle.whole_image.specs.Front.{IsSuperblockRight, ring_of};
ghost use Rattle.whole_image.specs.Damage.{ImageRule, superblock, size, of_groups, image_rule_number, FirstDamage, IsSound, HasFrontAndLog, groups_of};
ghost use Rattle.whole_image.specs.Represents.{Represents};

use geometry::superblocks_tell_geometries;
use log_image::{logs, overlays};
use log_record::whole_records;
use sound_image::{encoded_images_are_sound, sound_tables_are_well_formed};

/// A law: an image has at most one first damage, and none where it is sound. That its superblock is wrong is its first damage, and where that is right, that it
/// has too few sectors. Where it has all, the first damage of its anchor and its log is the image's; where these are right too, that of its replayed groups is.
pub fn one_first_damage()
    ensures one { (image : List Sector) (a b : ImageRule) (s t : ℕ) → FirstDamage image a s → FirstDamage image b t → (a ≡ b) × (s ≡ t) }
    ensures none { (image : List Sector) (a : ImageRule) (s : ℕ) → IsSound image → ¬ FirstDamage image a s }
    ensures of_superblock { (image : List Sector) → ¬ IsSuperblockRight image → FirstDamage image superblock 0 }
    ensures of_size { (g : Geometry) (image : List Sector) → HasSuperblock g image → ¬ IsLongEnough g image → FirstDamage image size (length image) }
    ensures of_log { (g : Geometry) (image : List Sector) (rule s : ℕ) → HasSuperblock g image → IsLongEnough g image → IsLogDamage image (anchor_of g) g.ring rule s
        → (known : ImageRule) × (rule ≡ image_rule_number known) × FirstDamage image known s }
    ensures of_groups { (g : Geometry) (image : List Sector) (said : Log) (rule : Rule) (s : ℕ) → HasFrontAndLog g image said
        → FirstDamageOfGroups g (groups_of g image said) rule s → FirstDamage image (of_groups rule) s }
{
    superblocks_tell_geometries();
    logs();
    whole_records();
    sound_image::one_first_damage();
}

/// A law: the first damage of an image whose sector 0 is blank is that it has no superblock.
pub fn blank_images_are_damaged()
    ensures { (image : List Sector) → bytes_at image 0 ≡ zero_sector.bytes → FirstDamage image superblock 0 }
{}

/// A law: an image represents one table, with one next commit number.
pub fn images_represent_one_table()
    ensures { (image : List Sector) (t u : Table) (c d : ℕ) → Represents image t c → Represents image u d → (t ≡ u) × (c ≡ d) }
{
    superblocks_tell_geometries();
    logs();
    whole_records();
}

/// A law: a sound image represents some table. It is the one that its replayed groups have; it is well formed, and nobody holds an inode of it.
pub fn sound_images_represent_a_table()
    ensures represents { (image : List Sector) → IsSound image → (t : Table) × (c : ℕ) × Represents image t c }
    ensures made { (g : Geometry) (image : List Sector) (said : Log) → HasFrontAndLog g image said → GroupsAreSound g (groups_of g image said)
        → Represents image (rows_of g (groups_of g image said)) said.next }
    ensures well_formed { (image : List Sector) (t : Table) (c : ℕ) → Represents image t c → IsTable t }
    ensures no_opens { (image : List Sector) (t : Table) (c : ℕ) → Represents image t c → closed t ≡ t }
{
    superblocks_tell_geometries();
    logs();
    whole_records();
    sound_tables_are_well_formed();
}

/// A law: an image whose superblock, anchor and log are right, and whose replayed groups encode a table, represents it, with nobody holding an inode. So does
/// one without records, whose groups encode the table as they are.
pub fn encoded_images_represent_their_table()
    ensures replayed { (g : Geometry) (t : Table) (layouts : Layouts) (base image : List Sector) (said : Log) → HasFrontAndLog g image said → CanEncode g t layouts base
        → groups_of g image said ≡ encoded g t layouts base → Represents image (closed t) said.next }
    ensures empty { (g : Geometry) (t : Table) (layouts : Layouts) (base image : List Sector) (position next : ℕ) → HasSuperblock g image → IsLongEnough g image
        → HasAnchor image (anchor_of g) g.ring position next → AreBelow (ring_of g image) position → CanEncode g t layouts base
        → groups_part (anchor_of g) image ≡ encoded g t layouts base → Represents image (closed t) next }
{
    superblocks_tell_geometries();
    logs();
    overlays();
    whole_records();
    encoded_images_are_sound();
}
