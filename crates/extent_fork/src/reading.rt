//! Reading a fork.

ghost use Rattle.std.specs.Prelude.{◌≡◌, ◌≢◌, ◌≤◌, ◌<◌, ◌+◌, ◌*◌, ◌↔◌, ℕ, List, IsTrue, IfOk, MatchResult, length, get_or};
ghost use Rattle.life_bytes.specs.Fields.{field};
ghost use Rattle.inode_core.specs.Cores.{fork_of};
ghost use Rattle.extent_fork.specs.declared.extent.Extent.{Extent};
ghost use Rattle.extent_fork.specs.Forks.{AreRuns, HasFork, fork};
ghost use Rattle.extent_fork.specs.Reading.{IsRunAfter, run_in};

use crate::extent::Extent;
use crate::fault::ForkFault;
use crate::writing::write_fork;
use inode_core::FORK_AT;
use life_bytes::{Sector, field_u128};
use life_limits::{FIRST_DATA_BLOCK, MAX_BLOCKS, MAX_EXTENTS, MAX_GROUPS};
use std::alloc::Global;

/// The start and the count that the record at an index gives, whatever else it holds.
fn run_at(sector: &Sector, index: u32) -> Extent
    requires { index < MAX_EXTENTS }
    ensures { result ≡ run_in (field 16 (FORK_AT + 16 * index) sector.now.bytes) }
{
    let number = field_u128(&sector.bytes, FORK_AT + 16 * index as usize);
    Extent {
        start: (number / 0x20_0000 % 0x4000) as u32,
        count: (number % 0x20_0000) as u32,
    }
}

fn runs_at(alloc: Global, sector: &Sector, extents: u32) -> Result<Vec<Extent>, ForkFault>
    requires { extents ≤ MAX_EXTENTS }
    ensures count { IfOk result (λ v. length v.items ≡ extents) }
    ensures each { IfOk result (λ v. (k : ℕ) (d : Extent) → k < extents → get_or v.items k d ≡ run_in (field 16 (FORK_AT + 16 * k) sector.now.bytes)) }
    ensures memory { result ≢ Err ForkFault.Malformed }
{
    let mut list = Vec::with_capacity(alloc, MAX_EXTENTS as usize)?;
    for index in 0..extents {
        list.push(run_at(sector, index))?;
    }
    Ok(list)
}

/// Whether this is a run of data blocks that does not begin at the end of the one before it.
fn is_run_after(run: &Extent, end: u32) -> bool
    ensures { IsTrue result ↔ IsRunAfter end run.now }
{
    run.count != 0
        && FIRST_DATA_BLOCK <= run.start
        && run.count <= MAX_BLOCKS
        && run.start <= MAX_BLOCKS - run.count
        && run.start != end
}

fn are_runs(list: &[Extent]) -> bool
    ensures { IsTrue result ↔ AreRuns list.now }
{
    let mut end = 0;
    for run in list {
        if !is_run_after(run, end) {
            return false;
        }
        end = run.start + run.count;
    }
    true
}

/// Whether the sector has the fork of these runs, byte by byte.
fn has_fork(sector: &Sector, list: &[Extent], group: u32) -> bool
    requires few { length list.now ≤ MAX_EXTENTS }
    requires group_small { group < MAX_GROUPS }
    ensures { IsTrue result ↔ (AreRuns list.now × (fork_of sector.now.bytes ≡ fork group list.now)) }
{
    if !are_runs(list) {
        return false;
    }
    let mut again = *sector;
    write_fork(list, group, &mut again);
    again.is_same(sector)
}

/// Reads the `extents` records of an inode of the group. `Malformed` where the fork is no encoding of
/// so many runs, by any of its bytes.
pub fn read_fork(
    alloc: Global,
    sector: &Sector,
    extents: u32,
    group: u32,
) -> Result<Vec<Extent>, ForkFault>
    requires few { extents ≤ MAX_EXTENTS }
    requires group_small { group < MAX_GROUPS }
    ensures found { IfOk result (λ v. HasFork sector.now.bytes extents group v.items) }
    ensures only { (runs : List Extent) → HasFork sector.now.bytes extents group runs → MatchResult result (λ v. v.items ≡ runs) (λ fault. fault ≡ ForkFault.NoMemory) }
{
    let list = runs_at(alloc, sector, extents)?;
    if !has_fork(sector, &list, group) {
        return Err(ForkFault::Malformed);
    }
    Ok(list)
}
