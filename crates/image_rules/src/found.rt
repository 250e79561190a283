//! What the inodes of a group's chunks tell, one after the other.

ghost use Rattle.std.specs.Prelude.{◌≡◌, ◌≤◌, ◌<◌, ◌+◌, ℕ, List, OnOk, IfErr, All, Some, false, length, unwrap_or};
ghost use Rattle.life_limits.specs.declared.TheConstants.{CHUNK_INODES, MAX_BLOCKS, MAX_EXTENTS};
ghost use Rattle.life_bytes.specs.declared.sector.Sector.{Sector};
ghost use Rattle.life_bytes.specs.Bits.{is_set};
ghost use Rattle.geometry.specs.declared.shape.Geometry.{Geometry};
ghost use Rattle.geometry.specs.Places.{group_sectors};
ghost use Rattle.geometry.specs.Shape.{IsGeometry};
ghost use Rattle.inobt_leaf.specs.Chunks.{IsChunkRecord};
ghost use Rattle.life_table.specs.declared.table.Inode.{Inode};
ghost use Rattle.sound_image.specs.Places.{bytes_at, sector_in};
ghost use Rattle.sound_image.specs.Reading.{core_of, inode_at, records_of};
ghost use Rattle.sound_image.specs.Rules.{IsCoreRight, IsInData};
ghost use Rattle.image_rules.specs.Faults.{IsCaused};
ghost use Rattle.image_rules.specs.Gathered.{Gathered, IsNextInode, IsNextChunk, CoreFault, row_unless};
ghost use Rattle.image_rules.specs.Counted.{chunk_orphans, one_if_orphan};
ghost use Rattle.image_rules.specs.Listing.{GroupIsFound};
ghost use Rattle.image_rules.specs.declared.fault.CheckFault.TheVariants.{NoMemory};
ghost use Rattle.image_rules.specs.Shown.{Shows};
ghost use Rattle.image_rules.specs.Taking.{Adds};

use crate::fault::{CheckFault, GroupRule};
use crate::groups::sector_at;
use crate::inodes::{right_blocks, right_core};
use crate::links::Links;
use crate::taken::{data_blocks, occupy_chunks, take_all};
use extent_fork::ForkFault;
use free_map::FreeMap;
use geometry::Geometry;
use inobt_leaf::ChunkRec;
use inode_core::Core;
use life_bytes::Sector;
use life_limits::CHUNK_INODES;
use std::alloc::Global;

/// What the inodes tell that were gone through.
#[derive(Drop)]
pub(crate) struct Found {
    /// The data blocks that no chunk has, and no inode so far.
    pub(crate) map: FreeMap,
    /// The sector of the first inode whose fork is wrong.
    pub(crate) fork: Option<u64>,
    /// The sector of the first inode that has a block which is not its own.
    pub(crate) shared: Option<u64>,
    /// The next pointers.
    pub(crate) links: Links,
}

impl Found {
    /// Before the first inode of a group of so many blocks with these chunks.
    pub(crate) fn new(alloc: Global, blocks: u32, chunks: &[ChunkRec]) -> Found
        requires { blocks ≤ MAX_BLOCKS }
        ensures found { (g : Geometry) (image : List Sector) (group : ℕ) → g.blocks ≡ blocks → records_of g image group ≡ chunks.now
            → GroupIsFound g image group 0 result }
        ensures none { length result.links.orphans.entries ≡ 0 }
    {
        let mut map = data_blocks(blocks);
        occupy_chunks(&mut map, chunks);
        Found {
            map,
            fork: None,
            shared: None,
            links: Links::new(alloc),
        }
    }

    /// Takes the blocks of an inode whose sector is `at`.
    fn add_blocks(&mut self, at: u64, blocks: &[u32])
        ensures fork { self.new.fork ≡ self.old.fork }
        ensures links { self.new.links ≡ self.old.links }
        ensures blocks { Adds self.old.map self.old.shared at blocks.now self.new.map self.new.shared }
    {
        if !take_all(&mut self.map, blocks) {
            self.shared = Some(self.shared.unwrap_or(at));
        }
    }

    /// Takes in an inode in use whose core is right.
    fn add_live(
        &mut self,
        alloc: Global,
        g: &Geometry,
        group: u32,
        agino: u32,
        core: &Core,
        sector: &Sector,
    ) -> Result<(), CheckFault>
        requires shape { IsGeometry g.now }
        requires inside { group < g.now.groups }
        requires low { agino < group_sectors g.now }
        requires few { core.now.extents ≤ MAX_EXTENTS }
        ensures taken { (image : List Sector) (inode : Inode) → bytes_at image (sector_in g.now group agino) ≡ sector.now.bytes → core_of g.now image group agino ≡ core.now
            → inode_at g.now image group agino ≡ Some inode → inode.row ≡ row_unless g.now image group agino false → IsCoreRight g.now image group agino inode
            → Gathered g.now image group agino self.old.map self.old.fork self.old.shared
            → OnOk result (Gathered g.now image group (agino + 1) self.new.map self.new.fork self.new.shared) }
        ensures links { self.new.links ≡ self.old.links }
        ensures memory { IfErr result (λ fault. fault ≡ NoMemory) }
    {
        let at = sector_at(g, group, agino);
        match right_blocks(alloc, g, group, core, sector) {
            Ok(blocks) => {
                self.add_blocks(at, &blocks);
                Ok(())
            }
            Err(ForkFault::Malformed) => {
                self.fork = Some(self.fork.unwrap_or(at));
                Ok(())
            }
            Err(ForkFault::NoMemory) => Err(CheckFault::NoMemory),
        }
    }

    /// Takes in the next inode of a chunk, which the chunk's mask has as free or not.
    fn add(
        &mut self,
        alloc: Global,
        g: &Geometry,
        group: u32,
        agino: u32,
        free: bool,
        sector: &Sector,
    ) -> Result<(), CheckFault>
        requires shape { IsGeometry g.now }
        requires inside { group < g.now.groups }
        requires low { agino < group_sectors g.now }
        ensures taken { (image : List Sector) (bound : ℕ) → IsNextInode g.now image group bound agino sector.now.bytes free
            → GroupIsFound g.now image group bound self.old
            → OnOk result (GroupIsFound g.now image group (agino + 1) self.new) }
        ensures counted { (image : List Sector) (bound : ℕ) → IsNextInode g.now image group bound agino sector.now.bytes free → GroupIsFound g.now image group bound self.old
            → OnOk result (length self.new.links.orphans.entries ≡ length self.old.links.orphans.entries + one_if_orphan (row_unless g.now image group agino free)) }
        ensures wrong { (image : List Sector) (bound : ℕ) → IsNextInode g.now image group bound agino sector.now.bytes free
            → GroupIsFound g.now image group bound self.old → IfErr result (CoreFault g.now image group) }
        ensures no_read { (before now : ℕ) → IfErr result (IsCaused before now) }
    {
        let Some(core) = right_core(g, group, agino, !free, sector) else {
            return Err(CheckFault::Damaged {
                rule: GroupRule::Core as u32,
                sector: sector_at(g, group, agino),
            });
        };
        if free {
            return Ok(());
        }
        self.links.note(agino, &core)?;
        self.add_live(alloc, g, group, agino, &core, sector)
    }

    /// Takes in the 64 inodes of the next chunk, each of which is a sector.
    pub(crate) fn add_chunk(
        &mut self,
        alloc: Global,
        g: &Geometry,
        group: u32,
        chunk: &ChunkRec,
        sectors: &[Sector],
    ) -> Result<(), CheckFault>
        requires shape { IsGeometry g.now }
        requires inside { group < g.now.groups }
        requires chunk { IsChunkRecord chunk.now }
        requires in_data { IsInData g.now.blocks chunk.now }
        requires sectors { length sectors.now ≡ CHUNK_INODES }
        ensures taken { (image : List Sector) (bound : ℕ) → IsNextChunk g.now image group bound chunk.now → Shows image (sector_in g.now group chunk.now.start) sectors.now
            → GroupIsFound g.now image group bound self.old
            → OnOk result (GroupIsFound g.now image group (chunk.now.start + CHUNK_INODES) self.new) }
        ensures counted { (image : List Sector) (bound : ℕ) → IsNextChunk g.now image group bound chunk.now → Shows image (sector_in g.now group chunk.now.start) sectors.now
            → GroupIsFound g.now image group bound self.old
            → OnOk result (length self.new.links.orphans.entries ≡ length self.old.links.orphans.entries + chunk_orphans g.now image group chunk.now) }
        ensures wrong { (image : List Sector) (bound : ℕ) → IsNextChunk g.now image group bound chunk.now → Shows image (sector_in g.now group chunk.now.start) sectors.now
            → GroupIsFound g.now image group bound self.old → IfErr result (CoreFault g.now image group) }
        ensures no_read { (before now : ℕ) → IfErr result (IsCaused before now) }
    {
        for index in 0..CHUNK_INODES {
            let free = is_free(chunk, index);
            self.add(
                alloc,
                g,
                group,
                chunk.start + index,
                free,
                &sectors[index as usize],
            )?;
        }
        Ok(())
    }
}

/// Whether an inode of a chunk is free, by the chunk's mask.
pub(crate) fn is_free(chunk: &ChunkRec, index: u32) -> bool
    requires { index < CHUNK_INODES }
    ensures { result ≡ is_set chunk.now.mask index }
{
    (chunk.mask >> index) & 1 == 1
}
