//! A group, read from a view.

ghost use Rattle.std.specs.Prelude.{◌≡◌, ◌≤◌, ◌<◌, ◌+◌, ◌*◌, ◌^◌, ℕ, List, ◌%◌, All, IsTrue, IfOk, IfErr, length, map};
ghost use Rattle.std.specs.FinMap as finmap;
ghost use Rattle.life_bytes.specs.declared.sector.Sector.{Sector};
ghost use Rattle.geometry.specs.Places.{group_sectors};
ghost use Rattle.geometry.specs.Shape.{IsGeometry};
ghost use Rattle.ag_header.specs.Headers.{EncodesHeader, IsAgi};
ghost use Rattle.inobt_leaf.specs.declared.chunk.ChunkRec.{ChunkRec};
ghost use Rattle.inobt_leaf.specs.Chunks.{IsLeaf};
ghost use Rattle.life_table.specs.declared.table.Table.{Table};
ghost use Rattle.life_table.specs.Table.{group_at};
ghost use Rattle.life_limits.specs.declared.TheConstants.{CHUNK_INODES, LAST_PAGE_BLOCK};
ghost use Rattle.sound_image.specs.Encoding.{CanEncode, Layouts, chunk_record, encoded, header_for, page_of};
ghost use Rattle.sound_image.specs.Places.{bytes_at, header_place, sector_in};
ghost use Rattle.sound_image.specs.Rules.{IsInData, free_set};
ghost use Rattle.group_ops.specs.Buffers.{AreBuffers, Buffers};
ghost use Rattle.group_ops.specs.Loading.{IsLoadCause, IsNoDamage, ShowChunks, Shows};
ghost use Rattle.group_ops.specs.Represents.{IsGroupOf};

use crate::buffers::ChunkBuffers;
use crate::fault::{HEADER_RULE, LoadFault, TREE_RULE};
use crate::reading::{read_sector, read_sectors};
use crate::state::GroupState;
use ag_header::{Agi, read_agi};
use disk_model::View;
use encoded_changes::places_have_their_metadata;
use free_map::{FreeMap, bitmaps_are_the_sets, read_map};
use geometry::Geometry;
use group_space::GroupSpace;
use inobt_leaf::{ChunkRec, Leaf, PageFault, read_page};
use life_limits::{BLOCK_SECTORS, CHUNK_INODES};
use sound_image::{chunks_are_read, encoded_places};
use std::alloc::Global;

/// The sector of a group's header in the group, and the first one of its bitmap.
pub(crate) const HEADER: u32 = 2;

pub(crate) const BITMAP: u32 = BLOCK_SECTORS;

/// Sectors of the bitmap of a group.
pub(crate) const BITMAP_SECTORS: u64 = 4;

/// The sector of the image at a place of a group.
fn sector_at(g: &Geometry, group: u32, place: u32) -> u64
    requires shape { IsGeometry g.now }
    requires inside { group < g.now.groups }
    requires low { place < group_sectors g.now }
    ensures place { result ≡ sector_in g.now group place }
    ensures within { result < g.now.groups * group_sectors g.now }
    ensures room { (n : ℕ) → place + n ≤ group_sectors g.now → result + n ≤ g.now.groups * group_sectors g.now }
    ensures small { result < 2 ^ 32 }
{
    u64::from(group * (g.blocks * BLOCK_SECTORS) + place)
}

/// The header of a group.
fn load_header<V: View>(view: &mut V, g: &Geometry, group: u32) -> Result<Agi, LoadFault>
    requires shape { IsGeometry g.now }
    requires inside { group < g.now.groups }
    requires size { g.now.groups * group_sectors g.now ≤ V.sector_count view.old }
    ensures header { IsTrue V.known → (t : Table) (layouts : Layouts) (rest : List Sector) → CanEncode g.now t layouts rest
        → V.image view.old ≡ encoded g.now t layouts rest → IfOk result (λ agi. agi ≡ header_for g.now group (group_at t group) layouts) }
    ensures allowed { IfOk result IsAgi }
    ensures damaged { IsTrue V.known → (t : Table) (layouts : Layouts) (rest : List Sector) → CanEncode g.now t layouts rest
        → V.image view.old ≡ encoded g.now t layouts rest → IfErr result IsNoDamage }
    ensures cause { IfErr result (IsLoadCause (V.fault_count view.old) (V.fault_count view.new)) }
    ensures only_read { V.only_read view.old view.new }
{
    encoded_places();
    let at = sector_at(g, group, HEADER);
    let sector = read_sector(view, at)?;
    match read_agi(&sector) {
        Some(agi) => Ok(agi),
        None => Err(LoadFault::Damaged {
            rule: HEADER_RULE,
            sector: at,
        }),
    }
}

/// The records of a group's chunks: `root` is the block of their page.
fn load_leaf<V: View>(
    alloc: Global,
    view: &mut V,
    g: &Geometry,
    group: u32,
    root: u32,
) -> Result<Leaf, LoadFault>
    requires shape { IsGeometry g.now }
    requires inside { group < g.now.groups }
    requires size { g.now.groups * group_sectors g.now ≤ V.sector_count view.old }
    requires root { root ≤ LAST_PAGE_BLOCK }
    ensures leaf { IsTrue V.known → (t : Table) (layouts : Layouts) (rest : List Sector) → CanEncode g.now t layouts rest
        → V.image view.old ≡ encoded g.now t layouts rest → root ≡ page_of layouts group → IfOk result (λ leaf. leaf ≡ map chunk_record (group_at t group)) }
    ensures damaged { IsTrue V.known → (t : Table) (layouts : Layouts) (rest : List Sector) → CanEncode g.now t layouts rest
        → V.image view.old ≡ encoded g.now t layouts rest → root ≡ page_of layouts group → IfErr result IsNoDamage }
    ensures cause { IfErr result (IsLoadCause (V.fault_count view.old) (V.fault_count view.new)) }
    ensures only_read { V.only_read view.old view.new }
{
    encoded_places();
    chunks_are_read();
    let at = sector_at(g, group, BLOCK_SECTORS * root);
    let page = read_sectors(alloc, view, at, u64::from(BLOCK_SECTORS))?;
    match read_page(alloc, &page, root, group, at, &g.uuid) {
        Ok(leaf) => Ok(leaf),
        Err(PageFault::NoMemory) => Err(LoadFault::NoMemory),
        Err(PageFault::Malformed) => Err(LoadFault::Damaged {
            rule: TREE_RULE,
            sector: at,
        }),
    }
}

/// The free blocks of a group.
fn load_map<V: View>(
    alloc: Global,
    view: &mut V,
    g: &Geometry,
    group: u32,
) -> Result<FreeMap, LoadFault>
    requires shape { IsGeometry g.now }
    requires inside { group < g.now.groups }
    requires size { g.now.groups * group_sectors g.now ≤ V.sector_count view.old }
    ensures map { IsTrue V.known → (t : Table) (layouts : Layouts) (rest : List Sector) → CanEncode g.now t layouts rest
        → V.image view.old ≡ encoded g.now t layouts rest → IfOk result (λ free. free ≡ free_set g.now.blocks (group_at t group)) }
    ensures no_damage { IfErr result IsNoDamage }
    ensures cause { IfErr result (IsLoadCause (V.fault_count view.old) (V.fault_count view.new)) }
    ensures only_read { V.only_read view.old view.new }
{
    encoded_places();
    chunks_are_read();
    bitmaps_are_the_sets();
    let at = sector_at(g, group, BITMAP);
    let sectors = read_sectors(alloc, view, at, BITMAP_SECTORS)?;
    Ok(read_map(&sectors, g.blocks))
}

/// The buffers of a chunk's inodes.
fn load_chunk<V: View>(
    alloc: Global,
    view: &mut V,
    g: &Geometry,
    group: u32,
    start: u32,
) -> Result<ChunkBuffers, LoadFault>
    requires shape { IsGeometry g.now }
    requires inside { group < g.now.groups }
    requires size { g.now.groups * group_sectors g.now ≤ V.sector_count view.old }
    requires aligned { start % CHUNK_INODES ≡ 0 }
    ensures shown { IsTrue V.known → IfOk result (λ chunk. Shows (V.image view.old) (sector_in g.now group start) chunk.sectors) }
    ensures start { IfOk result (λ chunk. chunk.start ≡ start) }
    ensures whole { IfOk result (λ chunk. AreBuffers chunk.start chunk.sectors) }
    ensures damaged { start + CHUNK_INODES ≤ group_sectors g.now → IfErr result IsNoDamage }
    ensures cause { IfErr result (IsLoadCause (V.fault_count view.old) (V.fault_count view.new)) }
    ensures only_read { V.only_read view.old view.new }
{
    if g.blocks * BLOCK_SECTORS - CHUNK_INODES < start {
        return Err(LoadFault::Damaged {
            rule: TREE_RULE,
            sector: sector_at(g, group, HEADER),
        });
    }
    let at = sector_at(g, group, start);
    let sectors = read_sectors(alloc, view, at, u64::from(CHUNK_INODES))?;
    Ok(ChunkBuffers::new(start, sectors))
}

/// The buffers of the inodes of all chunks of a group.
fn load_chunks<V: View>(
    alloc: Global,
    view: &mut V,
    g: &Geometry,
    group: u32,
    records: &[ChunkRec],
) -> Result<Vec<ChunkBuffers>, LoadFault>
    requires shape { IsGeometry g.now }
    requires inside { group < g.now.groups }
    requires size { g.now.groups * group_sectors g.now ≤ V.sector_count view.old }
    requires leaf { IsLeaf records.now }
    ensures shown { IsTrue V.known → IfOk result (λ chunks. ShowChunks g.now (V.image view.old) group chunks.items) }
    ensures starts { IfOk result (λ chunks. map (λ (chunk : Buffers). chunk.start) chunks.items ≡ map (λ (chunk : ChunkRec). chunk.start) records.now) }
    ensures whole { IfOk result (λ chunks. All (λ (chunk : Buffers). AreBuffers chunk.start chunk.sectors) chunks.items) }
    ensures damaged { All (IsInData g.now.blocks) records.now → IfErr result IsNoDamage }
    ensures cause { IfErr result (IsLoadCause (V.fault_count view.old) (V.fault_count view.new)) }
    ensures only_read { V.only_read view.old view.new }
{
    let mut chunks = Vec::new(alloc);
    for record in records {
        chunks.push(load_chunk(alloc, view, g, group, record.start)?)?;
    }
    Ok(chunks)
}

/// Reads a group, each of its sectors once. Nothing is in core then.
pub fn load_group<V: View>(
    alloc: Global,
    view: &mut V,
    g: &Geometry,
    group: u32,
) -> Result<GroupState, LoadFault>
    requires shape { IsGeometry g.now }
    requires inside { group < g.now.groups }
    requires size { g.now.groups * group_sectors g.now ≤ V.sector_count view.old }
    // Where the view tells, the state is the group of each table that its image encodes; damage never comes where there is one.
    ensures represents { IsTrue V.known → (t : Table) (layouts : Layouts) (rest : List Sector) → CanEncode g.now t layouts rest
        → V.image view.old ≡ encoded g.now t layouts rest → IfOk result (λ state. IsGroupOf state t layouts) }
    ensures damaged { IsTrue V.known → (t : Table) (layouts : Layouts) (rest : List Sector) → CanEncode g.now t layouts rest
        → V.image view.old ≡ encoded g.now t layouts rest → IfErr result IsNoDamage }
    ensures own { IfOk result (λ state. (state.geometry ≡ g.now) × (state.group ≡ group)) }
    ensures nothing_in_core { IfOk result (λ state. state.in_core ≡ finmap.empty) }
    ensures read_fault { IfErr result (IsLoadCause (V.fault_count view.old) (V.fault_count view.new)) }
    ensures only_read { V.only_read view.old view.new }
{
    encoded_places();
    places_have_their_metadata();
    let header = load_header(view, g, group)?;
    let leaf = load_leaf(alloc, view, g, group, header.root)?;
    let free = load_map(alloc, view, g, group)?;
    let chunks = load_chunks(alloc, view, g, group, leaf.chunks())?;
    let space = GroupSpace::new(leaf, free);
    Ok(GroupState::of(alloc, g, group, &header, space, chunks))
}
