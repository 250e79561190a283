//! Writing a fork.

ghost use Rattle.std.specs.Prelude.{◌≡◌, ◌≤◌, ◌<◌, length, take};
ghost use Rattle.inode_core.specs.Cores.{fork_of};
ghost use Rattle.extent_fork.specs.Forks.{AreRuns, fork, record_number};

use crate::extent::Extent;
use inode_core::FORK_AT;
use life_bytes::{Sector, put_bytes, put_u128};
use life_limits::{MAX_BLOCKS, MAX_EXTENTS, MAX_GROUPS};

/// The bytes of a fork.
const FORK_BYTES: usize = 336;

/// The number of a record.
fn record_of(group: u32, offset: u32, run: Extent) -> u128
    requires group_small { group < MAX_GROUPS }
    requires start_small { run.start ≤ MAX_BLOCKS }
    ensures { result ≡ record_number group offset run }
{
    let block = u128::from(group * MAX_BLOCKS + run.start);
    (u128::from(offset) * 0x10_0000_0000_0000 + block) * 0x20_0000 + u128::from(run.count)
}

/// The whole fork of these runs.
fn fork_bytes(list: &[Extent], group: u32) -> [u8; 336]
    requires runs { AreRuns list.now }
    requires few { length list.now ≤ MAX_EXTENTS }
    requires group_small { group < MAX_GROUPS }
    ensures { result ≡ fork group list.now }
{
    let mut bytes = [0; FORK_BYTES];
    let mut offset = 0;
    for (index, run) in list.iter().enumerate() {
        put_u128(&mut bytes, 16 * index, record_of(group, offset, *run));
        offset += run.count;
    }
    bytes
}

/// Writes the fork of an inode of the group, and leaves what stands before it, its checksum too.
pub fn write_fork(list: &[Extent], group: u32, into: &mut Sector)
    requires runs { AreRuns list.now }
    requires few { length list.now ≤ MAX_EXTENTS }
    requires group_small { group < MAX_GROUPS }
    ensures fork { fork_of into.new.bytes ≡ fork group list.now }
    ensures front { take FORK_AT into.new.bytes ≡ take FORK_AT into.old.bytes }
{
    put_bytes(&mut into.bytes, FORK_AT, &fork_bytes(list, group));
}
