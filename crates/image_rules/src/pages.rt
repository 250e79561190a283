//! The leaves of the groups' inode btrees.

ghost use Rattle.std.specs.Prelude.{◌≡◌, ◌≤◌, ◌<◌, ◌↔◌, List, IsTrue, IfOk, Err, All, length};
ghost use Rattle.life_limits.specs.declared.TheConstants.{FIRST_PAGE_BLOCK, LAST_PAGE_BLOCK};
ghost use Rattle.life_bytes.specs.declared.sector.Sector.{Sector};
ghost use Rattle.geometry.specs.Shape.{IsGeometry};
ghost use Rattle.inobt_leaf.specs.declared.reading.PageFault.TheVariants.{Malformed};
ghost use Rattle.sound_image.specs.Places.{sector_in};
ghost use Rattle.sound_image.specs.Reading.{header_of, page_sector, records_of};
ghost use Rattle.sound_image.specs.Rules.{IsInData, IsPageRight};
ghost use Rattle.image_rules.specs.Shown.{Shows, Counts};

use ag_header::Agi;
use geometry::Geometry;
use inobt_leaf::{ChunkRec, Leaf, PageFault, encoded_pages_are_read, read_page};
use life_bytes::Sector;
use life_limits::{BLOCK_SECTORS, CHUNK_INODES, FIRST_DATA_BLOCK};
use sound_image::{chunks_are_read, sectors_hold_parts};
use std::alloc::Global;

/// Blocks of a chunk.
const CHUNK_BLOCKS: u32 = CHUNK_INODES / BLOCK_SECTORS;

fn is_in_data(blocks: u32, chunk: &ChunkRec) -> bool
    ensures { IsTrue result ↔ IsInData blocks chunk.now }
{
    let first = chunk.start / BLOCK_SECTORS;
    FIRST_DATA_BLOCK <= first && first + CHUNK_BLOCKS <= blocks
}

/// Whether the blocks of each chunk are data blocks.
fn are_in_data(blocks: u32, chunks: &[ChunkRec]) -> bool
    ensures sound { IsTrue result → All (IsInData blocks) chunks.now }
    ensures complete { All (IsInData blocks) chunks.now → IsTrue result }
{
    for chunk in chunks {
        if !is_in_data(blocks, chunk) {
            return false;
        }
    }
    true
}

/// The leaf of a group, where the 8 sectors of its page are right: `root` is the block of the page.
pub fn right_leaf(
    alloc: Global,
    g: &Geometry,
    group: u32,
    root: u32,
    page: &[Sector],
) -> Result<Leaf, PageFault>
    requires shape { IsGeometry g.now }
    requires inside { group < g.now.groups }
    requires root { root ≤ LAST_PAGE_BLOCK }
    requires page { length page.now ≡ 8 }
    ensures right { (image : List Sector) → (header_of g.now image group).root ≡ root → Shows image (page_sector g.now image group) page.now
        → IfOk result (λ leaf. IsPageRight g.now image group × (records_of g.now image group ≡ leaf)) }
    ensures wrong { (image : List Sector) → (header_of g.now image group).root ≡ root → Shows image (page_sector g.now image group) page.now
        → result ≡ Err Malformed → ¬ IsPageRight g.now image group }
    ensures in_data { IfOk result (λ leaf. All (IsInData g.now.blocks) leaf) }
{
    encoded_pages_are_read();
    chunks_are_read();
    sectors_hold_parts(page);
    let at = u64::from(group * (g.blocks * BLOCK_SECTORS) + BLOCK_SECTORS * root);
    let leaf = read_page(alloc, page, root, group, at, &g.uuid)?;
    if are_in_data(g.blocks, leaf.chunks()) {
        Ok(leaf)
    } else {
        Err(PageFault::Malformed)
    }
}

/// Whether the header counts the inodes of a leaf's chunks, and the free ones among them.
pub fn has_counts(header: &Agi, leaf: &Leaf) -> bool
    ensures { IsTrue result ↔ Counts header.now leaf.now }
{
    let chunks = leaf.chunks();
    let mut free = 0;
    for chunk in chunks {
        free += u64::from(chunk.free);
    }
    u64::from(header.count) == u64::from(CHUNK_INODES) * chunks.len() as u64
        && u64::from(header.free) == free
}
