// The sectors that a space is written to.

ghost use Rattle.std.specs.Prelude.{◌≡◌, ◌≤◌, ◌<◌, ◌+◌, ◌*◌, ℕ, length, sum_by};
ghost use Rattle.life_limits.specs.declared.TheConstants.{BLOCK_SECTORS, CHUNK_INODES, LAST_PAGE_BLOCK};
ghost use Rattle.life_bytes.specs.SectorBytes.{bytes_of};
ghost use Rattle.geometry.specs.Shape.{IsGeometry};
ghost use Rattle.inobt_leaf.specs.declared.chunk.ChunkRec.{ChunkRec};
ghost use Rattle.free_map.specs.Bitmap.{bitmap};
ghost use Rattle.life_table.specs.declared.table.Chunk.{Chunk};
ghost use Rattle.life_table.specs.Table.{Group};
ghost use Rattle.sound_image.specs.Rules.{free_set};
ghost use Rattle.sound_image.specs.Encoding.{Layouts, free_count, page_bytes, page_of};
ghost use Rattle.group_space.specs.Space.{IsSpaceOf, block_place, changed_space};

use crate::numbers::sum_free;
use crate::space::{GroupSpace, SpaceChange, SpaceCounts};
use free_map::FreeMap;
use geometry::Geometry;
use inobt_leaf::{Leaf, write_page};
use life_bytes::Sector;
use life_limits::{BLOCK_SECTORS, CHUNK_INODES};

/// The first sector in the image of a block of a group.
pub(crate) fn block_sector(g: &Geometry, group: u32, block: u32) -> u64
    requires shape { IsGeometry g.now }
    requires inside { group < g.now.groups }
    requires low { block ≤ LAST_PAGE_BLOCK }
    ensures { result ≡ block_place g.now group block }
{
    let group_sectors = u64::from(g.blocks) * u64::from(BLOCK_SECTORS);
    u64::from(group) * group_sectors + u64::from(BLOCK_SECTORS) * u64::from(block)
}

/// The counts that a leaf gives.
pub(crate) fn leaf_counts(leaf: &Leaf) -> SpaceCounts
    ensures inodes { result.inodes ≡ CHUNK_INODES * length leaf.now }
    ensures free { result.free ≡ sum_by (λ (chunk : ChunkRec). chunk.free) leaf.now }
{
    let records = leaf.chunks();
    SpaceCounts {
        inodes: CHUNK_INODES * records.len() as u32,
        free: sum_free(records),
    }
}

impl GroupSpace {
    /// The leaf after a change.
    fn leaf_after<'a>(&'a self, change: &'a SpaceChange) -> &'a Leaf
        ensures { result.now ≡ (changed_space self.now change.now).records }
    {
        match &change.leaf {
            Some(leaf) => leaf,
            None => &self.leaf,
        }
    }

    /// The map after a change.
    fn free_after<'a>(&'a self, change: &'a SpaceChange) -> &'a FreeMap
        ensures { result.now ≡ (changed_space self.now change.now).free }
    {
        match &change.free {
            Some(free) => free,
            None => &self.free,
        }
    }

    /// The counts of the group's header.
    pub fn counts(&self) -> SpaceCounts
        ensures inodes { (blocks : ℕ) (chunks : Group) → IsSpaceOf blocks chunks self.now
            → result.inodes ≡ CHUNK_INODES * length chunks }
        ensures free { (blocks : ℕ) (chunks : Group) → IsSpaceOf blocks chunks self.now
            → result.free ≡ sum_by (λ (chunk : Chunk). free_count chunk.inodes) chunks }
    {
        leaf_counts(&self.leaf)
    }

    /// The counts of the group's header after a change.
    pub fn changed_counts(&self, change: &SpaceChange) -> SpaceCounts
        ensures inodes { (blocks : ℕ) (chunks : Group) → IsSpaceOf blocks chunks (changed_space self.now change.now)
            → result.inodes ≡ CHUNK_INODES * length chunks }
        ensures free { (blocks : ℕ) (chunks : Group) → IsSpaceOf blocks chunks (changed_space self.now change.now)
            → result.free ≡ sum_by (λ (chunk : Chunk). free_count chunk.inodes) chunks }
    {
        leaf_counts(self.leaf_after(change))
    }

    /// Writes the page of the records over its 8 sectors. It stands in a block of the group.
    pub fn write_page(&self, g: &Geometry, group: u32, block: u32, page: &mut [Sector])
        requires shape { IsGeometry g.now }
        requires inside { group < g.now.groups }
        requires low { block ≤ LAST_PAGE_BLOCK }
        requires long { length page.old ≡ BLOCK_SECTORS }
        ensures { (blocks : ℕ) (chunks : Group) (layouts : Layouts) → IsSpaceOf blocks chunks self.now
            → page_of layouts group ≡ block → bytes_of page.new ≡ page_bytes g.now layouts group chunks }
    {
        let at = block_sector(g, group, block);
        write_page(&self.leaf, block, group, at, &g.uuid, page);
    }

    /// Writes the page as it is after a change.
    pub fn write_changed_page(
        &self,
        change: &SpaceChange,
        g: &Geometry,
        group: u32,
        block: u32,
        page: &mut [Sector],
    )
        requires shape { IsGeometry g.now }
        requires inside { group < g.now.groups }
        requires low { block ≤ LAST_PAGE_BLOCK }
        requires long { length page.old ≡ BLOCK_SECTORS }
        ensures { (blocks : ℕ) (chunks : Group) (layouts : Layouts)
            → IsSpaceOf blocks chunks (changed_space self.now change.now) → page_of layouts group ≡ block
            → bytes_of page.new ≡ page_bytes g.now layouts group chunks }
    {
        let at = block_sector(g, group, block);
        write_page(self.leaf_after(change), block, group, at, &g.uuid, page);
    }

    /// Writes the bitmap over its 4 sectors.
    pub fn write_map(&self, into: &mut [Sector])
        requires { length into.old ≡ 4 }
        ensures { (blocks : ℕ) (chunks : Group) → IsSpaceOf blocks chunks self.now
            → bytes_of into.new ≡ bitmap (free_set blocks chunks) }
    {
        self.free.write_map(into);
    }

    /// Writes the bitmap as it is after a change.
    pub fn write_changed_map(&self, change: &SpaceChange, into: &mut [Sector])
        requires { length into.old ≡ 4 }
        ensures { (blocks : ℕ) (chunks : Group) → IsSpaceOf blocks chunks (changed_space self.now change.now)
            → bytes_of into.new ≡ bitmap (free_set blocks chunks) }
    {
        self.free_after(change).write_map(into);
    }
}
