// The sectors of an image's groups that the format speaks of, read into memory.

ghost use Rattle.std.specs.Prelude.{◌≡◌, ◌≤◌, ◌<◌, ◌+◌, ◌*◌, ◌^◌, ◌%◌, ℕ, List, Some, IsTrue, IfOk, IfErr, OnOk, length, map, slice_get};
ghost use Rattle.life_limits.specs.declared.TheConstants.{BLOCK_SECTORS, CHUNK_INODES, LAST_PAGE_BLOCK};
ghost use Rattle.life_bytes.specs.declared.sector.Sector.{Sector};
ghost use Rattle.geometry.specs.Places.{group_sectors};
ghost use Rattle.geometry.specs.Shape.{IsGeometry};
ghost use Rattle.ag_header.specs.Headers.{IsAgi};
ghost use Rattle.inobt_leaf.specs.declared.chunk.ChunkRec.{ChunkRec};
ghost use Rattle.inobt_leaf.specs.Chunks.{IsLeaf};
ghost use Rattle.life_table.specs.declared.table.Table.{Table};
ghost use Rattle.life_table.specs.Table.{group_at};
ghost use Rattle.sound_image.specs.Encoding.{CanEncode, Layouts, chunk_record, encoded, header_for, page_of};
ghost use Rattle.sound_image.specs.Places.{bytes_at, sector_in};
ghost use Rattle.group_ops.specs.Loading.{IsLoadCause, IsNoDamage, Shows};
ghost use Rattle.mount.specs.Kept.{Agrees, Grows, Has, HasChunk, HasGroup, HasRun, StillAgrees};

use ag_header::{Agi, read_agi};
use disk_model::View;
use encoded_changes::places_have_their_metadata;
use geometry::Geometry;
use group_ops::LoadFault;
use inobt_leaf::{ChunkRec, Leaf, PageFault, read_page};
use life_bytes::Sector;
use life_limits::{BLOCK_SECTORS, CHUNK_INODES};
use sound_image::encoded_places;
use std::alloc::Global;
use std::collections::BTreeMap;

/// The sector of a group's header in the group, and the first one of its bitmap.
const HEADER: u32 = 2;

const BITMAP: u32 = BLOCK_SECTORS;

/// Sectors of the bitmap of a group.
const BITMAP_SECTORS: u64 = 4;

/// The sector of the image at a place of a group.
fn sector_at(g: &Geometry, group: u32, place: u32) -> u64
    requires shape { IsGeometry g.now }
    requires inside { group < g.now.groups }
    requires low { place < group_sectors g.now }
    ensures place { result ≡ sector_in g.now group place }
    ensures room { (n : ℕ) → place + n ≤ group_sectors g.now → result + n ≤ g.now.groups * group_sectors g.now }
    ensures small { result < 2 ^ 32 }
{
    u64::from(group * (g.blocks * BLOCK_SECTORS) + place)
}

/// Reads a sector, and keeps it.
fn keep_sector<V: View>(
    view: &mut V,
    kept: &mut BTreeMap<u64, Sector>,
    at: u64,
) -> Result<Sector, LoadFault>
    requires within { at < V.sector_count view.old }
    ensures shown { IsTrue V.known → IfOk result (λ sector. bytes_at (V.image view.old) at ≡ sector.bytes) }
    ensures agrees { IsTrue V.known → StillAgrees (V.image view.old) kept.old kept.new }
    ensures has { OnOk result (Has kept.new at) }
    ensures grows { Grows kept.old kept.new }
    ensures no_damage { IfErr result IsNoDamage }
    ensures cause { IfErr result (IsLoadCause (V.fault_count view.old) (V.fault_count view.new)) }
    ensures only_read { V.only_read view.old view.new }
{
    let mut sector = Sector::zero();
    view.read(at, &mut sector)?;
    kept.insert(at, sector)?;
    Ok(sector)
}

/// Reads as many sectors as are asked for, from one on, and keeps them.
fn keep_sectors<V: View>(
    alloc: Global,
    view: &mut V,
    kept: &mut BTreeMap<u64, Sector>,
    at: u64,
    count: u64,
) -> Result<Vec<Sector>, LoadFault>
    requires within { at + count ≤ V.sector_count view.old }
    requires small { at + count < 2 ^ 64 }
    ensures shown { IsTrue V.known → IfOk result (λ sectors. Shows (V.image view.old) at sectors.items) }
    ensures many { IfOk result (λ sectors. length sectors.items ≡ count) }
    ensures agrees { IsTrue V.known → StillAgrees (V.image view.old) kept.old kept.new }
    ensures has { OnOk result (HasRun kept.new at count) }
    ensures grows { Grows kept.old kept.new }
    ensures no_damage { IfErr result IsNoDamage }
    ensures cause { IfErr result (IsLoadCause (V.fault_count view.old) (V.fault_count view.new)) }
    ensures only_read { V.only_read view.old view.new }
{
    let mut sectors = Vec::new(alloc);
    for index in 0..count {
        sectors.push(keep_sector(view, kept, at + index)?)?;
    }
    Ok(sectors)
}

/// Keeps the header of a group, and reads it. None where its sector is none of a header.
fn keep_header<V: View>(
    view: &mut V,
    kept: &mut BTreeMap<u64, Sector>,
    g: &Geometry,
    group: u32,
) -> Result<Option<Agi>, LoadFault>
    requires shape { IsGeometry g.now }
    requires inside { group < g.now.groups }
    requires size { g.now.groups * group_sectors g.now ≤ V.sector_count view.old }
    ensures header { IsTrue V.known → (t : Table) (layouts : Layouts) (rest : List Sector) → CanEncode g.now t layouts rest
        → V.image view.old ≡ encoded g.now t layouts rest → IfOk result (λ found. found ≡ Some (header_for g.now group (group_at t group) layouts)) }
    ensures allowed { IfOk result (λ found. (agi : Agi) → found ≡ Some agi → IsAgi agi) }
    ensures agrees { IsTrue V.known → StillAgrees (V.image view.old) kept.old kept.new }
    ensures has { OnOk result (Has kept.new (sector_in g.now group 2)) }
    ensures grows { Grows kept.old kept.new }
    ensures no_damage { IfErr result IsNoDamage }
    ensures cause { IfErr result (IsLoadCause (V.fault_count view.old) (V.fault_count view.new)) }
    ensures only_read { V.only_read view.old view.new }
{
    encoded_places();
    let at = sector_at(g, group, HEADER);
    let sector = keep_sector(view, kept, at)?;
    Ok(read_agi(&sector))
}

/// Keeps the page of a group's chunks, which is in the block `root`, and reads their records. None where its sectors are none of a page.
fn keep_leaf<V: View>(
    alloc: Global,
    view: &mut V,
    kept: &mut BTreeMap<u64, Sector>,
    g: &Geometry,
    group: u32,
    root: u32,
) -> Result<Option<Leaf>, LoadFault>
    requires shape { IsGeometry g.now }
    requires inside { group < g.now.groups }
    requires size { g.now.groups * group_sectors g.now ≤ V.sector_count view.old }
    requires root { root ≤ LAST_PAGE_BLOCK }
    ensures leaf { IsTrue V.known → (t : Table) (layouts : Layouts) (rest : List Sector) → CanEncode g.now t layouts rest
        → V.image view.old ≡ encoded g.now t layouts rest → root ≡ page_of layouts group → IfOk result (λ found. found ≡ Some (map chunk_record (group_at t group))) }
    ensures agrees { IsTrue V.known → StillAgrees (V.image view.old) kept.old kept.new }
    ensures has { OnOk result (HasRun kept.new (sector_in g.now group (BLOCK_SECTORS * root)) BLOCK_SECTORS) }
    ensures grows { Grows kept.old kept.new }
    ensures no_damage { IfErr result IsNoDamage }
    ensures cause { IfErr result (IsLoadCause (V.fault_count view.old) (V.fault_count view.new)) }
    ensures only_read { V.only_read view.old view.new }
{
    encoded_places();
    let at = sector_at(g, group, BLOCK_SECTORS * root);
    let page = keep_sectors(alloc, view, kept, at, u64::from(BLOCK_SECTORS))?;
    match read_page(alloc, &page, root, group, at, &g.uuid) {
        Ok(leaf) => Ok(Some(leaf)),
        Err(PageFault::NoMemory) => Err(LoadFault::NoMemory),
        Err(PageFault::Malformed) => Ok(None),
    }
}

/// Keeps the sectors of a chunk's inodes, so far as they are in the group.
fn keep_chunk<V: View>(
    alloc: Global,
    view: &mut V,
    kept: &mut BTreeMap<u64, Sector>,
    g: &Geometry,
    group: u32,
    start: u32,
) -> Result<(), LoadFault>
    requires shape { IsGeometry g.now }
    requires inside { group < g.now.groups }
    requires size { g.now.groups * group_sectors g.now ≤ V.sector_count view.old }
    ensures agrees { IsTrue V.known → StillAgrees (V.image view.old) kept.old kept.new }
    ensures has { OnOk result (HasChunk g.now kept.new group start) }
    ensures grows { Grows kept.old kept.new }
    ensures no_damage { IfErr result IsNoDamage }
    ensures cause { IfErr result (IsLoadCause (V.fault_count view.old) (V.fault_count view.new)) }
    ensures only_read { V.only_read view.old view.new }
{
    let sectors = g.blocks * BLOCK_SECTORS;
    if sectors <= start {
        return Ok(());
    }
    let count = (sectors - start).min(CHUNK_INODES);
    let at = sector_at(g, group, start);
    keep_sectors(alloc, view, kept, at, u64::from(count))?;
    Ok(())
}

/// Keeps the sectors of the inodes of all chunks of a group.
fn keep_chunks<V: View>(
    alloc: Global,
    view: &mut V,
    kept: &mut BTreeMap<u64, Sector>,
    g: &Geometry,
    group: u32,
    records: &[ChunkRec],
) -> Result<(), LoadFault>
    requires shape { IsGeometry g.now }
    requires inside { group < g.now.groups }
    requires size { g.now.groups * group_sectors g.now ≤ V.sector_count view.old }
    ensures agrees { IsTrue V.known → StillAgrees (V.image view.old) kept.old kept.new }
    ensures has { OnOk result ((k : ℕ) (chunk : ChunkRec) → slice_get records.now k ≡ Some chunk → HasChunk g.now kept.new group chunk.start) }
    ensures grows { Grows kept.old kept.new }
    ensures no_damage { IfErr result IsNoDamage }
    ensures cause { IfErr result (IsLoadCause (V.fault_count view.old) (V.fault_count view.new)) }
    ensures only_read { V.only_read view.old view.new }
{
    for record in records {
        keep_chunk(alloc, view, kept, g, group, record.start)?;
    }
    Ok(())
}

/// Keeps the page of a group and the sectors of its inodes.
fn keep_tree<V: View>(
    alloc: Global,
    view: &mut V,
    kept: &mut BTreeMap<u64, Sector>,
    g: &Geometry,
    group: u32,
    root: u32,
) -> Result<(), LoadFault>
    requires shape { IsGeometry g.now }
    requires inside { group < g.now.groups }
    requires size { g.now.groups * group_sectors g.now ≤ V.sector_count view.old }
    requires root { root ≤ LAST_PAGE_BLOCK }
    ensures agrees { IsTrue V.known → StillAgrees (V.image view.old) kept.old kept.new }
    ensures page { OnOk result (HasRun kept.new (sector_in g.now group (BLOCK_SECTORS * root)) BLOCK_SECTORS) }
    ensures chunks { IsTrue V.known → (t : Table) (layouts : Layouts) (rest : List Sector) → CanEncode g.now t layouts rest
        → V.image view.old ≡ encoded g.now t layouts rest → root ≡ page_of layouts group
        → OnOk result ((k : ℕ) (chunk : ChunkRec) → slice_get (map chunk_record (group_at t group)) k ≡ Some chunk → HasChunk g.now kept.new group chunk.start) }
    ensures grows { Grows kept.old kept.new }
    ensures no_damage { IfErr result IsNoDamage }
    ensures cause { IfErr result (IsLoadCause (V.fault_count view.old) (V.fault_count view.new)) }
    ensures only_read { V.only_read view.old view.new }
{
    let Some(leaf) = keep_leaf(alloc, view, kept, g, group, root)? else {
        return Ok(());
    };
    keep_chunks(alloc, view, kept, g, group, leaf.chunks())?;
    Ok(())
}

/// Keeps each sector of a group of which the format says what stands there, each read once.
fn keep_group<V: View>(
    alloc: Global,
    view: &mut V,
    kept: &mut BTreeMap<u64, Sector>,
    g: &Geometry,
    group: u32,
) -> Result<(), LoadFault>
    requires shape { IsGeometry g.now }
    requires inside { group < g.now.groups }
    requires size { g.now.groups * group_sectors g.now ≤ V.sector_count view.old }
    ensures agrees { IsTrue V.known → StillAgrees (V.image view.old) kept.old kept.new }
    ensures has { IsTrue V.known → (t : Table) (layouts : Layouts) (rest : List Sector) → CanEncode g.now t layouts rest
        → V.image view.old ≡ encoded g.now t layouts rest → OnOk result (HasGroup g.now t layouts kept.new group) }
    ensures grows { Grows kept.old kept.new }
    ensures no_damage { IfErr result IsNoDamage }
    ensures cause { IfErr result (IsLoadCause (V.fault_count view.old) (V.fault_count view.new)) }
    ensures only_read { V.only_read view.old view.new }
{
    places_have_their_metadata();
    let found = keep_header(view, kept, g, group)?;
    let at = sector_at(g, group, BITMAP);
    keep_sectors(alloc, view, kept, at, BITMAP_SECTORS)?;
    let Some(header) = found else {
        return Ok(());
    };
    keep_tree(alloc, view, kept, g, group, header.root)?;
    Ok(())
}

/// The sectors of an image's groups of which the format says what stands there, each read once. Where the groups are damaged, some of them are missing.
pub(crate) fn keep_groups<V: View>(
    alloc: Global,
    view: &mut V,
    g: &Geometry,
) -> Result<BTreeMap<u64, Sector>, LoadFault>
    requires shape { IsGeometry g.now }
    requires size { g.now.groups * group_sectors g.now ≤ V.sector_count view.old }
    ensures agrees { IsTrue V.known → IfOk result (Agrees (V.image view.old)) }
    ensures has { IsTrue V.known → (t : Table) (layouts : Layouts) (rest : List Sector) → CanEncode g.now t layouts rest
        → V.image view.old ≡ encoded g.now t layouts rest → IfOk result (λ kept. (group : ℕ) → group < g.now.groups → HasGroup g.now t layouts kept group) }
    ensures no_damage { IfErr result IsNoDamage }
    ensures cause { IfErr result (IsLoadCause (V.fault_count view.old) (V.fault_count view.new)) }
    ensures only_read { V.only_read view.old view.new }
{
    let mut kept = BTreeMap::new(alloc);
    for group in 0..g.groups {
        keep_group(alloc, view, &mut kept, g, group)?;
    }
    Ok(kept)
}
