// The sectors of a group without a chunk.

ghost use Rattle.std.specs.Prelude.{◌≡◌, ◌+◌, ◌++◌, ◌≤◌, ◌<◌, ℕ, [], length, drop, replicate, take};
ghost use Rattle.life_bytes.specs.SectorBytes.{bytes_of};
ghost use Rattle.life_bytes.specs.Sectors.{zero_sector};
ghost use Rattle.life_limits.specs.declared.TheConstants.{FIRST_DATA_BLOCK, MAX_BLOCKS};
ghost use Rattle.geometry.specs.Shape.{IsGeometry};
ghost use Rattle.ag_header.specs.Headers.{header_encoding};
ghost use Rattle.free_map.specs.Bitmap.{bitmap};
ghost use Rattle.sound_image.specs.Places.{part};
ghost use Rattle.sound_image.specs.Rules.{free_set};
ghost use Rattle.sound_image.specs.Encoding.{header_for, page_bytes};
ghost use Rattle.image_make.specs.Empty.{empty_sector, sector_or_zero};

use ag_header::{Agi, write_agi};
use free_map::{FreeMap, read_map};
use geometry::Geometry;
use inobt_leaf::write_empty_page;
use life_bytes::Sector;
use life_limits::{BLOCK_SECTORS, BUCKETS, FIRST_DATA_BLOCK, FIRST_PAGE_BLOCK, NO_INODE};

/// The place of a group's header. The metadata stands from it on up to the end of the page.
pub(crate) const HEAD_PLACE: u32 = 2;

/// How many sectors that are.
pub(crate) const HEAD_SECTORS: usize = 22;

/// Where in them the bitmap and the page begin.
const BITMAP_AT: usize = 6;

const PAGE_AT: usize = 14;

pub(crate) const BITMAP_SECTORS: usize = 4;

const PAGE_SECTORS: usize = BLOCK_SECTORS as usize;

/// A sector in memory has 512 bytes. What a type says of a value is known of one that is looked at.
fn hold_bytes(sector: &Sector)
    ensures { length sector.now.bytes ≡ 512 }
{
    let _half = &sector.bytes[..256];
}

/// So sectors hold the parts of the bytes that they hold together.
fn hold_parts(sectors: &[Sector])
    ensures { (k : ℕ) → k < length sectors.now → (sector_or_zero sectors.now k).bytes ≡ part k (bytes_of sectors.now) }
{
    for sector in sectors {
        hold_bytes(sector);
    }
}

/// The map of a group in which each data block is free.
fn empty_map(blocks: u32) -> FreeMap
    requires some { FIRST_DATA_BLOCK ≤ blocks }
    requires few { blocks ≤ MAX_BLOCKS }
    ensures { result ≡ free_set blocks [] }
{
    let mut map = read_map(&[Sector::zero(); BITMAP_SECTORS], blocks);
    for block in FIRST_DATA_BLOCK..blocks {
        map.give(block);
    }
    map
}

/// The bitmap of such a group.
pub(crate) fn empty_bitmap(blocks: u32) -> [Sector; BITMAP_SECTORS]
    requires some { FIRST_DATA_BLOCK ≤ blocks }
    requires few { blocks ≤ MAX_BLOCKS }
    ensures { (k : ℕ) → k < 4 → (sector_or_zero result k).bytes ≡ part k (bitmap (free_set blocks [])) }
{
    let mut sectors = [Sector::zero(); BITMAP_SECTORS];
    empty_map(blocks).write_map(&mut sectors);
    hold_parts(&sectors);
    sectors
}

/// The header of a group without a chunk.
fn empty_header(g: &Geometry, group: u32) -> Sector
    requires { IsGeometry g.now }
    ensures { result.bytes ≡ header_encoding (header_for g.now group [] []) }
{
    let mut sector = Sector::zero();
    let agi = Agi {
        group,
        blocks: g.blocks,
        count: 0,
        root: FIRST_PAGE_BLOCK,
        level: 1,
        free: 0,
        heads: [NO_INODE; BUCKETS as usize],
        uuid: g.uuid,
    };
    write_agi(&agi, &mut sector);
    sector
}

/// Its page.
fn empty_page(g: &Geometry, group: u32) -> [Sector; PAGE_SECTORS]
    requires shape { IsGeometry g.now }
    requires inside { group < g.now.groups }
    ensures { (k : ℕ) → k < 8 → (sector_or_zero result k).bytes ≡ part k (page_bytes g.now [] group []) }
{
    let first = group * (g.blocks * BLOCK_SECTORS) + FIRST_PAGE_BLOCK * BLOCK_SECTORS;
    let mut page = [Sector::zero(); PAGE_SECTORS];
    write_empty_page(group, u64::from(first), &g.uuid, &mut page);
    hold_parts(&page);
    page
}

fn blank_head() -> [Sector; HEAD_SECTORS]
    ensures { result ≡ replicate 22 zero_sector }
{
    [Sector::zero(); HEAD_SECTORS]
}

/// Puts sectors at a place among others.
fn put(sectors: &mut [Sector], at: usize, pieces: &[Sector])
    requires { at + length pieces.now ≤ length sectors.old }
    ensures { sectors.new ≡ take at sectors.old ++ pieces.now ++ drop (at + length pieces.now) sectors.old }
{
    sectors[at..at + pieces.len()].copy_from_slice(pieces);
}

/// The sectors of a group from its header to the end of its page. `free_blocks` is the bitmap that each group has.
pub(crate) fn empty_head(
    g: &Geometry,
    group: u32,
    free_blocks: &[Sector; BITMAP_SECTORS],
) -> [Sector; HEAD_SECTORS]
    requires shape { IsGeometry g.now }
    requires inside { group < g.now.groups }
    requires bitmap { (k : ℕ) → k < 4 → (sector_or_zero free_blocks.now k).bytes ≡ part k (bitmap (free_set g.now.blocks [])) }
    ensures many { length result ≡ 22 }
    ensures each { (k : ℕ) → k < 22 → sector_or_zero result k ≡ empty_sector g.now group (2 + k) }
{
    let mut head = blank_head();
    put(&mut head, 0, &[empty_header(g, group)]);
    put(&mut head, BITMAP_AT, free_blocks);
    put(&mut head, PAGE_AT, &empty_page(g, group));
    head
}
