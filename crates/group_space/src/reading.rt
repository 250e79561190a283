// A space read from the sectors of its group.

ghost use Rattle.std.specs.Prelude.{◌≡◌, ◌≤◌, ◌<◌, ◌+◌, ◌*◌, ℕ, List, IfOk, MatchResult, length, map};
ghost use Rattle.life_limits.specs.declared.TheConstants.{BLOCK_SECTORS, LAST_PAGE_BLOCK};
ghost use Rattle.life_bytes.specs.SectorBytes.{bytes_of};
ghost use Rattle.geometry.specs.Shape.{IsGeometry};
ghost use Rattle.inobt_leaf.specs.declared.chunk.ChunkRec.{ChunkRec};
ghost use Rattle.inobt_leaf.specs.Chunks.{IsLeaf};
ghost use Rattle.inobt_leaf.specs.Pages.{page_encoding};
ghost use Rattle.free_map.specs.Bitmap.{bitmap, read_blocks};
ghost use Rattle.life_table.specs.Table.{Group};
ghost use Rattle.sound_image.specs.Rules.{free_set};
ghost use Rattle.sound_image.specs.Encoding.{Layouts, chunk_record, page_bytes, page_of};
ghost use Rattle.group_space.specs.Space.{IsSpaceOf, block_place};

use crate::space::GroupSpace;
use crate::writing::block_sector;
use free_map::{bitmaps_are_the_sets, read_map};
use geometry::Geometry;
use inobt_leaf::{PageFault, read_page};
use life_bytes::Sector;
use std::alloc::Global;

/// Why a space was not read.
#[derive(Clone, Copy, Debug, PartialEq, Eq)]
pub enum SpaceFault {
    /// The page encodes no records at its place.
    Malformed,
    NoMemory,
}

impl From<PageFault> for SpaceFault {
    ghost use Rattle.group_space.specs.Faults.{space_fault};

    ghost from_gives = { λ fault e. e ≡ space_fault fault };

    fn from(fault: PageFault) -> Self {
        match fault {
            PageFault::Malformed => SpaceFault::Malformed,
            PageFault::NoMemory => SpaceFault::NoMemory,
        }
    }
}

/// Reads the space of a group from the 8 sectors of its page, which stands in a block of the group, and the 4 of its
/// bitmap.
pub fn read_space(
    alloc: Global,
    g: &Geometry,
    group: u32,
    block: u32,
    page: &[Sector],
    bits: &[Sector],
) -> Result<GroupSpace, SpaceFault>
    requires shape { IsGeometry g.now }
    requires inside { group < g.now.groups }
    requires low { block ≤ LAST_PAGE_BLOCK }
    requires page { length page.now ≡ BLOCK_SECTORS }
    requires bits { length bits.now ≡ 4 }
    // What is read is encoded so.
    ensures page { IfOk result (λ space. IsLeaf space.records
        × (bytes_of page.now ≡ page_encoding space.records group (block_place g.now group block) g.now.uuid)) }
    ensures bits { IfOk result (λ space. space.free ≡ read_blocks (bytes_of bits.now) g.now.blocks) }

    // A page is malformed only where it encodes no records.
    ensures only { (records : List ChunkRec) → IsLeaf records
        → bytes_of page.now ≡ page_encoding records group (block_place g.now group block) g.now.uuid
        → MatchResult result (λ space. space.records ≡ records) (λ fault. fault ≡ SpaceFault.NoMemory) }

    // The space of chunks is read from the sectors that encode them.
    ensures space_of { (chunks : Group) (layouts : Layouts) → IsLeaf (map chunk_record chunks)
        → page_of layouts group ≡ block → bytes_of page.now ≡ page_bytes g.now layouts group chunks
        → bytes_of bits.now ≡ bitmap (free_set g.now.blocks chunks)
        → MatchResult result (IsSpaceOf g.now.blocks chunks) (λ fault. fault ≡ SpaceFault.NoMemory) }
{
    bitmaps_are_the_sets();
    let at = block_sector(g, group, block);
    let leaf = read_page(alloc, page, block, group, at, &g.uuid)?;
    Ok(GroupSpace::new(leaf, read_map(bits, g.blocks)))
}
