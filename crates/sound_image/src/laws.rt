// Laws of the definitions. Each is the contract of a function that does nothing but call the laws that its own rests on.

ghost use Rattle.std.specs.Prelude.{◌≡◌, ◌≤◌, ◌<◌, ◌*◌, ◌/◌, ◌%◌, ◌+◌, ℕ, List, None, Some, length, map, slice_get, slice_range, sum_by};
ghost use Rattle.life_limits.specs.declared.TheConstants.{BLOCK_SECTORS, BUCKETS, CHUNK_INODES, SECTOR_BYTES};
ghost use Rattle.life_bytes.specs.declared.sector.Sector.{Sector};
ghost use Rattle.life_bytes.specs.SectorBytes.{bytes_of};
ghost use Rattle.geometry.specs.declared.shape.Geometry.{Geometry};
ghost use Rattle.geometry.specs.Places.{group_sectors, number_in};
ghost use Rattle.geometry.specs.Shape.{IsGeometry};
ghost use Rattle.life_table.specs.declared.table.Table.{Table};
ghost use Rattle.life_table.specs.Table.{group_at, inode_in};
ghost use Rattle.inode_core.specs.Cores.{EncodesCore};
ghost use Rattle.extent_fork.specs.Forks.{HasFork};
ghost use Rattle.extent_fork.specs.Runs.{runs};
ghost use Rattle.ag_header.specs.Headers.{EncodesHeader};
ghost use Rattle.inobt_leaf.specs.declared.chunk.ChunkRec.{ChunkRec};
ghost use Rattle.inobt_leaf.specs.Chunks.{IsLeaf};
ghost use Rattle.free_map.specs.Bitmap.{bitmap};
ghost use Rattle.life_table.specs.declared.types.Row.{Row};
ghost use Rattle.life_table.specs.declared.table.Inode.{Inode};
ghost use Rattle.life_table.specs.History.{closed};
ghost use Rattle.life_table.specs.WellFormed.{IsTable};
ghost use Rattle.sound_image.specs.Places.{HasSameGroups, bitmap_place, bitmap_sectors, bytes_at, bytes_from, header_place, part, sector_in};
ghost use Rattle.sound_image.specs.Reading.{group_read, inode_at, inode_read, IsOfChunk, records_of, rows_of};
ghost use Rattle.sound_image.specs.Counts.{inodes_in};
ghost use Rattle.sound_image.specs.Damage.{Rule, BreaksIn, FirstGroupsDamage, HoldsIn, AreGroupsSound, groups_rule_number};
ghost use Rattle.sound_image.specs.Rules.{free_set};
ghost use Rattle.sound_image.specs.Encoding.{Layouts, CanEncode, HasSameLayouts, core_for, header_for, inode_sector, bucket_list, metadata, next_in, page_bytes, page_place, chunk_record, encoded};

use ag_header::encoded_headers_are_read;
use extent_fork::encoded_forks_are_read;
use free_map::numbers_hold_their_bits;
use geometry::superblocks_tell_geometries;
use inobt_leaf::encoded_pages_are_read;
use inode_core::encoded_cores_are_read;

/// A law: what encodes a well-formed table with layouts of it, bucket lists of its rows without links among them, is sound, and the rows, chunks and generations read from
/// it are the table's, with no opens.
pub fn encoded_images_are_sound()
    ensures sound { (g : Geometry) (t : Table) (layouts : Layouts) (image : List Sector) → CanEncode g t layouts image → AreGroupsSound g (encoded g t layouts image) }
    ensures rows { (g : Geometry) (t : Table) (layouts : Layouts) (image : List Sector) → CanEncode g t layouts image → rows_of g (encoded g t layouts image) ≡ closed t }
{
    encoded_cores_are_read();
    encoded_headers_are_read();
    encoded_pages_are_read();
    encoded_forks_are_read();
    numbers_hold_their_bits();
}

/// A law: what stands in each sector of an image that encodes a table, and what it reads as: the header, the page, the bitmap, and each inode of a chunk.
pub fn encoded_places()
    ensures header { (g : Geometry) (t : Table) (layouts : Layouts) (image : List Sector) (group : ℕ) → CanEncode g t layouts image → group < g.groups
        → EncodesHeader (bytes_at (encoded g t layouts image) (sector_in g group header_place)) (header_for g group (group_at t group) layouts) }
    ensures leaf { (g : Geometry) (t : Table) (layouts : Layouts) (image : List Sector) (group : ℕ) → CanEncode g t layouts image → group < g.groups
        → IsLeaf (map chunk_record (group_at t group)) }
    ensures page { (g : Geometry) (t : Table) (layouts : Layouts) (image : List Sector) (group : ℕ) → CanEncode g t layouts image → group < g.groups
        → bytes_from (encoded g t layouts image) (sector_in g group (page_place layouts group)) BLOCK_SECTORS ≡ page_bytes g layouts group (group_at t group) }
    ensures page_sector { (g : Geometry) (t : Table) (layouts : Layouts) (image : List Sector) (group k : ℕ) → CanEncode g t layouts image → group < g.groups → k < BLOCK_SECTORS
        → bytes_at (encoded g t layouts image) (sector_in g group (page_place layouts group + k)) ≡ part k (page_bytes g layouts group (group_at t group)) }
    ensures bitmap { (g : Geometry) (t : Table) (layouts : Layouts) (image : List Sector) (group k : ℕ) → CanEncode g t layouts image → group < g.groups → k < bitmap_sectors
        → bytes_at (encoded g t layouts image) (sector_in g group (bitmap_place + k)) ≡ part k (bitmap (free_set g.blocks (group_at t group))) }
    ensures inode { (g : Geometry) (t : Table) (layouts : Layouts) (image : List Sector) (group agino : ℕ) (inode : Inode) → CanEncode g t layouts image → group < g.groups
        → inode_in (group_at t group) agino ≡ Some inode
        → bytes_at (encoded g t layouts image) (sector_in g group agino) ≡ inode_sector g layouts group agino inode }
    ensures core { (g : Geometry) (t : Table) (layouts : Layouts) (image : List Sector) (group agino : ℕ) (inode : Inode) → CanEncode g t layouts image → group < g.groups
        → inode_in (group_at t group) agino ≡ Some inode
        → EncodesCore (bytes_at (encoded g t layouts image) (sector_in g group agino)) (number_in group agino) g.uuid
        (core_for inode.generation inode.row (next_in (bucket_list layouts group (agino % BUCKETS)) agino)) }
    ensures fork { (g : Geometry) (t : Table) (layouts : Layouts) (image : List Sector) (group agino : ℕ) (inode : Inode) (row : Row) → CanEncode g t layouts image → group < g.groups
        → inode_in (group_at t group) agino ≡ Some inode → inode.row ≡ Some row
        → HasFork (bytes_at (encoded g t layouts image) (sector_in g group agino)) (length (runs row.blocks)) group (runs row.blocks) }
{
    encoded_cores_are_read();
    encoded_headers_are_read();
    encoded_pages_are_read();
    encoded_forks_are_read();
    numbers_hold_their_bits();
}

/// A law: encoding a table leaves the number of sectors, the superblock, all sectors behind the groups, and all sectors of the groups of which the
/// format does not say what stands there.
pub fn encoding_leaves_the_rest()
    ensures same_length { (g : Geometry) (t : Table) (layouts : Layouts) (image : List Sector) → length (encoded g t layouts image) ≡ length image }
    ensures superblock { (g : Geometry) (t : Table) (layouts : Layouts) (image : List Sector) → CanEncode g t layouts image → bytes_at (encoded g t layouts image) 0 ≡ bytes_at image 0 }
    ensures behind { (g : Geometry) (t : Table) (layouts : Layouts) (image : List Sector) (s : ℕ) → s < length image → g.groups * group_sectors g ≤ s
        → bytes_at (encoded g t layouts image) s ≡ bytes_at image s }
    ensures others { (g : Geometry) (t : Table) (layouts : Layouts) (image : List Sector) (group place : ℕ) → g.groups * group_sectors g ≤ length image → group < g.groups
        → place < group_sectors g → metadata g layouts group (group_at t group) place ≡ None
        → bytes_at (encoded g t layouts image) (sector_in g group place) ≡ bytes_at image (sector_in g group place) }
    // Nor does it tell who holds an inode.
    ensures no_opens { (g : Geometry) (t : Table) (layouts : Layouts) (image : List Sector) → encoded g (closed t) layouts image ≡ encoded g t layouts image }
{}

/// A law: an image has at most one first damage, and none where it is sound.
pub fn one_first_damage()
    ensures one { (g : Geometry) (image : List Sector) (a b : Rule) (s t : ℕ) → FirstGroupsDamage g image a s → FirstGroupsDamage g image b t → (a ≡ b) × (s ≡ t) }
    ensures none { (g : Geometry) (image : List Sector) (a : Rule) (s : ℕ) → AreGroupsSound g image → ¬ FirstGroupsDamage g image a s }
{}

/// A law: a rule that holds in a group is broken at no sector of it, and no two rules have one number.
pub fn rules_hold_or_break()
    ensures not_both { (g : Geometry) (image : List Sector) (rule : Rule) (group s : ℕ) → HoldsIn g image rule group → ¬ BreaksIn g image rule group s }
    ensures numbers { (a b : Rule) → groups_rule_number a ≡ groups_rule_number b → a ≡ b }
{}

/// A law: the table that a sound image has is well formed, and nobody holds an inode of it.
pub fn sound_tables_are_well_formed()
    ensures well_formed { (g : Geometry) (image : List Sector) → IsGeometry g → AreGroupsSound g image → IsTable (rows_of g image) }
    ensures no_opens { (g : Geometry) (image : List Sector) → closed (rows_of g image) ≡ rows_of g image }
{
    encoded_cores_are_read();
    encoded_headers_are_read();
    encoded_pages_are_read();
    encoded_forks_are_read();
    numbers_hold_their_bits();
}

/// A law: a sound image is the encoding of its table, with layouts of it. So the rules leave no sector of the format open, and hold of no other image.
pub fn sound_images_are_encoded()
    ensures { (g : Geometry) (image : List Sector) → IsGeometry g → AreGroupsSound g image → g.groups * group_sectors g ≤ length image
        → (layouts : Layouts) × CanEncode g (rows_of g image) layouts image × (encoded g (rows_of g image) layouts image ≡ image) }
{
    encoded_cores_are_read();
    encoded_headers_are_read();
    encoded_pages_are_read();
    encoded_forks_are_read();
    numbers_hold_their_bits();
}

/// A law: the sectors of the groups alone say whether the groups are sound, which table they have if they are, and what a table is encoded as there; and
/// layouts count only by their pages and lists.
pub fn groups_stand_alone()
    ensures sound { (g : Geometry) (image other : List Sector) → IsGeometry g → HasSameGroups g image other → AreGroupsSound g image → AreGroupsSound g other }
    ensures rows { (g : Geometry) (image other : List Sector) → IsGeometry g → HasSameGroups g image other → AreGroupsSound g image → rows_of g other ≡ rows_of g image }
    ensures encoded { (g : Geometry) (t : Table) (layouts : Layouts) (image other : List Sector) → HasSameGroups g image other
        → HasSameGroups g (encoded g t layouts image) (encoded g t layouts other) }
    ensures layouts { (g : Geometry) (t : Table) (layouts others : Layouts) (image : List Sector) → HasSameLayouts g layouts others
        → encoded g t others image ≡ encoded g t layouts image }
{
    encoded_cores_are_read();
    encoded_headers_are_read();
    encoded_pages_are_read();
    encoded_forks_are_read();
    numbers_hold_their_bits();
}

/// A law, for what reads an image: sectors that follow each other are a slice of it, and hold together what each holds its part of; and where a group's records are those of a leaf, each number of
/// their chunks has its inode, and no other number has one.
pub fn chunks_are_read()
    ensures slice { (image : List Sector) (s n : ℕ) → s + n ≤ length image → bytes_of (slice_range image s (s + n)) ≡ bytes_from image s n }
    ensures parts { (image : List Sector) (bytes : List ℕ) (s n : ℕ) → length bytes ≡ SECTOR_BYTES * n
        → ((k : ℕ) → k < n → bytes_at image (s + k) ≡ part k bytes) → bytes_from image s n ≡ bytes }
    ensures found { (g : Geometry) (image : List Sector) (group k i : ℕ) (chunk : ChunkRec) → IsLeaf (records_of g image group) → slice_get (records_of g image group) k ≡ Some chunk
        → i < CHUNK_INODES → inode_at g image group (chunk.start + i) ≡ Some (inode_read g image group chunk i) }
    ensures only { (g : Geometry) (image : List Sector) (group agino : ℕ) (inode : Inode) → inode_at g image group agino ≡ Some inode → IsOfChunk g image group agino inode }
{}

/// A law: a group whose records are those of a leaf has a chunk for each record, and each inode of a chunk is in use or counts as free in its record.
pub fn groups_are_counted()
    ensures chunks { (g : Geometry) (image : List Sector) (group : ℕ) → length (group_read g image group) ≡ length (records_of g image group) }
    ensures inodes { (g : Geometry) (image : List Sector) (group : ℕ) → IsLeaf (records_of g image group)
        → inodes_in (group_read g image group) + sum_by (λ (chunk : ChunkRec). chunk.free) (records_of g image group) ≡ CHUNK_INODES * length (records_of g image group) }
{
    encoded_cores_are_read();
    encoded_headers_are_read();
    encoded_pages_are_read();
    encoded_forks_are_read();
    numbers_hold_their_bits();
}
