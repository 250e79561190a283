// The inodes of a group and their sectors, as they are.

ghost use Rattle.std.specs.Prelude.{◌≡◌, ◌<◌, ◌≤◌, ◌+◌, ◌++◌, ◌^◌, ℕ, Some, IfOk, OnOk, length};
ghost use Rattle.std.specs.List.{AllByRecursion, flat_map};
ghost use Rattle.life_limits.specs.declared.TheConstants.{GROUP_NUMBERS, MAX_EXTENTS};
ghost use Rattle.extent_fork.specs.Forks.{IsRun};
ghost use Rattle.extent_fork.specs.Runs.{blocks_of, runs};
ghost use Rattle.life_table.specs.declared.table.Inode.{Inode};
ghost use Rattle.life_table.specs.declared.table.Table.{Table};
ghost use Rattle.life_table.specs.Space.{row_blocks};
ghost use Rattle.life_table.specs.Table.{group_at, inode_in};
ghost use Rattle.inode_cache.specs.Inodes.{IsIncore, incore_encoding};
ghost use Rattle.sound_image.specs.Encoding.{Layouts, inode_sector};
ghost use Rattle.group_ops.specs.Represents.{IsGroupOf, incore_for};
ghost use Rattle.group_ops.specs.Telling.{HasInodeAt};

use crate::buffers::find_buffer;
use crate::state::GroupState;
use encoded_changes::places_have_their_metadata;
use extent_fork::{Extent, encoded_forks_are_read};
use inode_cache::{Incore, write_inode};
use life_bytes::Sector;
use life_ports::NoMemory;
use life_table::Blocks;
use sound_image::encoded_places;
use std::alloc::Global;

/// Adds the blocks of a run.
fn push_blocks(blocks: &mut Vec<u32>, run: &Extent) -> Result<(), NoMemory>
    requires { IsRun run.now }
    ensures { OnOk result (blocks.new.items ≡ blocks.old.items ++ blocks_of run.now) }
{
    for block in run.start..run.start + run.count {
        blocks.push(block)?;
    }
    Ok(())
}

/// The blocks of runs, one run after the other.
fn blocks_of_runs(alloc: Global, runs: &[Extent]) -> Result<Vec<u32>, NoMemory>
    requires { AllByRecursion IsRun runs.now }
    ensures { IfOk result (λ found. found.items ≡ flat_map blocks_of runs.now) }
{
    let mut blocks = Vec::new(alloc);
    for run in runs {
        push_blocks(&mut blocks, run)?;
    }
    Ok(blocks)
}

impl GroupState {
    /// The sector that encodes an inode of the group.
    pub(crate) fn encoded(&self, agino: u32, inode: &Incore) -> Sector
        requires inode { IsIncore inode.now }
        requires small { agino < GROUP_NUMBERS }
        ensures { result.bytes ≡ incore_encoding self.now.group self.now.geometry.uuid agino inode.now }
    {
        let mut sector = Sector::zero();
        write_inode(inode, self.group, agino, &self.geometry.uuid, &mut sector);
        sector
    }

    /// The sector that encodes the inode of a number, which a chunk has: that of the inode in core where there is one, and the buffer otherwise.
    pub(crate) fn sector_at(&self, agino: u32) -> Sector
        requires { HasInodeAt self.now agino }
        ensures { (t : Table) (layouts : Layouts) (inode : Inode) → IsGroupOf self.now t layouts → inode_in (group_at t self.now.group) agino ≡ Some inode
            → result.bytes ≡ inode_sector self.now.geometry layouts self.now.group agino inode }
    {
        places_have_their_metadata();
        if self.cache.has(agino) {
            return self.encoded(agino, self.cache.get(agino));
        }
        let Some(sector) = find_buffer(self.chunks.as_slice(), agino) else {
            unreachable!()
        };
        sector
    }

    /// The blocks of the inode of a number, which has so many extents.
    fn blocks_at(&self, agino: u32, extents: u32) -> Result<Vec<u32>, NoMemory>
        requires few { extents ≤ MAX_EXTENTS }
        requires there { HasInodeAt self.now agino }
        requires many { (t : Table) (layouts : Layouts) (inode : Inode) → IsGroupOf self.now t layouts → inode_in (group_at t self.now.group) agino ≡ Some inode
            → extents ≡ length (runs (row_blocks inode.row)) }
        ensures { (t : Table) (layouts : Layouts) (inode : Inode) → IsGroupOf self.now t layouts → inode_in (group_at t self.now.group) agino ≡ Some inode
            → IfOk result (λ found. found.items ≡ row_blocks inode.row) }
    {
        encoded_forks_are_read();
        encoded_places();
        if extents == 0 {
            return Ok(Vec::new(self.alloc));
        }
        let runs = self.runs_at(agino, extents)?;
        blocks_of_runs(self.alloc, runs.as_slice())
    }

    /// The inode of a number, which a chunk has, as a copy.
    pub(crate) fn inode_at(&self, agino: u32) -> Result<Incore, NoMemory>
        requires { HasInodeAt self.now agino }
        ensures { (t : Table) (layouts : Layouts) (inode : Inode) → IsGroupOf self.now t layouts → inode_in (group_at t self.now.group) agino ≡ Some inode
            → IfOk result (λ copy. copy ≡ incore_for layouts self.now.group agino inode) }
    {
        places_have_their_metadata();
        self.hold();
        let Some(core) = self.core_at(agino) else {
            unreachable!()
        };
        let blocks = self.blocks_at(agino, core.extents)?;
        Ok(Incore {
            core,
            blocks: Blocks::from_vec(blocks),
        })
    }
}
