//! The inodes of chunks, one by one.

ghost use Rattle.std.specs.Prelude.{◌≡◌, ◌≤◌, ◌<◌, ◌++◌, ℕ, List, IsTrue, IfOk, IfSome, IfNone, OnOk, Err, All, is_some, length};
ghost use Rattle.std.specs.List.{flat_map};
ghost use Rattle.life_limits.specs.declared.TheConstants.{GROUP_NUMBERS, MAX_EXTENTS, MAX_GROUPS, SECTOR_BYTES};
ghost use Rattle.life_bytes.specs.declared.sector.Sector.{Sector};
ghost use Rattle.geometry.specs.Shape.{IsGeometry};
ghost use Rattle.inode_core.specs.Cores.{IsCore};
ghost use Rattle.extent_fork.specs.Forks.{IsRun};
ghost use Rattle.extent_fork.specs.Runs.{blocks_of};
ghost use Rattle.extent_fork.specs.declared.fault.ForkFault.TheVariants.{Malformed};
ghost use Rattle.life_table.specs.declared.table.Inode.{Inode};
ghost use Rattle.sound_image.specs.Places.{bytes_at, sector_in};
ghost use Rattle.sound_image.specs.Reading.{core_of, blocks_in};
ghost use Rattle.sound_image.specs.Rules.{IsCoreRight, IsForkRight};

use extent_fork::{Extent, ForkFault, encoded_forks_are_read, read_fork};
use geometry::{Geometry, number};
use inode_core::{Core, encoded_cores_are_read, read_core};
use life_bytes::Sector;
use std::alloc::{AllocFailed, Global};

/// A sector has 512 bytes, as each value of its type.
pub(crate) fn has_its_bytes(sector: &Sector)
    ensures { length sector.now.bytes ≡ SECTOR_BYTES }
{
    let _bytes = &sector.bytes;
}

/// The core of an inode of a chunk, where its sector is right: `live` is what the chunk's mask says of it.
pub fn right_core(g: &Geometry, group: u32, agino: u32, live: bool, sector: &Sector) -> Option<Core>
    requires shape { IsGeometry g.now }
    requires group_small { group < MAX_GROUPS }
    requires agino_small { agino < GROUP_NUMBERS }
    ensures right { (image : List Sector) (inode : Inode) → bytes_at image (sector_in g.now group agino) ≡ sector.now.bytes → is_some inode.row ≡ live
        → IfSome result (λ core. IsCoreRight g.now image group agino inode × (core_of g.now image group agino ≡ core)) }
    ensures wrong { (image : List Sector) (inode : Inode) → bytes_at image (sector_in g.now group agino) ≡ sector.now.bytes → is_some inode.row ≡ live
        → IfNone result (¬ IsCoreRight g.now image group agino inode) }
    ensures live { IfSome result (λ core. IsCore core × (core.live ≡ live)) }
{
    encoded_cores_are_read();
    has_its_bytes(sector);
    let core = read_core(sector, number(group, agino), &g.uuid)?;
    if core.live == live { Some(core) } else { None }
}

/// Whether all blocks of these runs are blocks of a group of so many.
fn are_within(blocks: u32, runs: &[Extent]) -> bool
    requires { All IsRun runs.now }
    ensures sound { IsTrue result → All (λ block. block < blocks) (flat_map blocks_of runs.now) }
    ensures complete { All (λ block. block < blocks) (flat_map blocks_of runs.now) → IsTrue result }
{
    for run in runs {
        if run.start + run.count > blocks {
            return false;
        }
    }
    true
}

/// How many blocks the runs have.
fn count_blocks(runs: &[Extent]) -> u64
    requires runs { All IsRun runs.now }
    requires few { length runs.now ≤ MAX_EXTENTS }
    ensures { result ≡ length (flat_map blocks_of runs.now) }
{
    let mut count = 0;
    for run in runs {
        count += u64::from(run.count);
    }
    count
}

fn push_run(blocks: &mut Vec<u32>, run: &Extent) -> Result<(), AllocFailed<u32>>
    requires { IsRun run.now }
    ensures { OnOk result (blocks.new.items ≡ blocks.old.items ++ blocks_of run.now) }
{
    for block in run.start..run.start + run.count {
        blocks.push(block)?;
    }
    Ok(())
}

/// The blocks of the runs, in their order.
fn list_blocks(alloc: Global, runs: &[Extent]) -> Result<Vec<u32>, ForkFault>
    requires { All IsRun runs.now }
    ensures all { IfOk result (λ blocks. blocks.items ≡ flat_map blocks_of runs.now) }
    ensures memory { result ≡ Err Malformed → ⊥ }
{
    let mut blocks = Vec::new(alloc);
    for run in runs {
        push_run(&mut blocks, run)?;
    }
    Ok(blocks)
}

/// The blocks of an inode in use, where its fork is right: `core` is the core that stands in the sector.
pub fn right_blocks(
    alloc: Global,
    g: &Geometry,
    group: u32,
    core: &Core,
    sector: &Sector,
) -> Result<Vec<u32>, ForkFault>
    requires group_small { group < MAX_GROUPS }
    requires few { core.now.extents ≤ MAX_EXTENTS }
    ensures right { (image : List Sector) (agino : ℕ) → bytes_at image (sector_in g.now group agino) ≡ sector.now.bytes → core_of g.now image group agino ≡ core.now
        → IfOk result (λ blocks. IsForkRight g.now image group agino × (blocks_in g.now image group agino ≡ blocks.items)) }
    ensures wrong { (image : List Sector) (agino : ℕ) → bytes_at image (sector_in g.now group agino) ≡ sector.now.bytes → core_of g.now image group agino ≡ core.now
        → result ≡ Err Malformed → ¬ IsForkRight g.now image group agino }
    ensures in_data { IfOk result (λ blocks. All (λ block. (24 ≤ block) × (block < g.now.blocks)) blocks.items) }
{
    encoded_forks_are_read();
    let runs = read_fork(alloc, sector, core.extents, group)?;
    if !are_within(g.blocks, &runs) || count_blocks(&runs) != core.blocks {
        return Err(ForkFault::Malformed);
    }
    list_blocks(alloc, &runs)
}
