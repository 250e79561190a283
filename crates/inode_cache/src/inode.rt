//! One inode in core, and its sector.

ghost use Rattle.std.specs.Prelude.{◌≡◌, ◌<◌};
ghost use Rattle.life_limits.specs.declared.TheConstants.{GROUP_NUMBERS, MAX_GROUPS};
ghost use Rattle.inode_cache.specs.Inodes.{IsIncore, incore_encoding};

use extent_fork::{Extent, fill_runs, write_fork};
use geometry::number;
use inode_core::{Core, write_core};
use life_bytes::Sector;
use life_limits::MAX_EXTENTS;
use life_table::Blocks;

/// Inodes of a cluster, which stand in the same four blocks.
pub const CLUSTER_INODES: u32 = 32;

/// An inode in core.
#[derive(Debug, Drop)]
pub struct Incore {
    pub core: Core,
    /// Its blocks, counted in its group, in the order of the file. A free inode has none.
    pub blocks: Blocks,
}

/// An inode that is in the cache.
#[derive(Debug, Drop)]
pub struct Kept {
    pub inode: Incore,
    /// Whether it was changed since its buffer was written.
    pub dirty: bool,
}

/// Writes the whole sector of an inode: its core, and the fork of the longest runs of its blocks. `agino` is its number in
/// the group. It takes no memory.
pub fn write_inode(inode: &Incore, group: u32, agino: u32, uuid: &[u8; 16], into: &mut Sector)
    requires inode { IsIncore inode.now }
    requires group_small { group < MAX_GROUPS }
    requires agino_small { agino < GROUP_NUMBERS }
    ensures { into.new.bytes ≡ incore_encoding group uuid.now agino inode.now }
{
    let mut runs = [Extent { start: 0, count: 0 }; MAX_EXTENTS as usize];
    let count = fill_runs(inode.blocks.as_slice(), &mut runs).unwrap();
    write_fork(&runs[..count], group, into);
    write_core(&inode.core, number(group, agino), uuid, into);
}
