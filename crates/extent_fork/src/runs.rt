//! Blocks as runs.

ghost use Rattle.std.specs.Prelude.{◌≡◌, ◌≤◌, ◌<◌, ◌+◌, ◌↔◌, All, IfOk, IfSome, IsSome, MatchOption, length, slice_set, take};
ghost use Rattle.life_limits.specs.declared.TheConstants.{FIRST_DATA_BLOCK, MAX_BLOCKS, MAX_EXTENTS};
ghost use Rattle.extent_fork.specs.declared.fault.RunsFault.TheVariants.{TooManyExtents};
ghost use Rattle.extent_fork.specs.Runs.{runs, AreLongestRuns};
ghost use Rattle.extent_fork.specs.Forks.{AreRuns};

use crate::extent::Extent;
use crate::fault::RunsFault;
use life_limits::{MAX_BLOCKS, MAX_EXTENTS};
use std::alloc::Global;

/// Puts a run in its place, and answers the next place. None where there is no such place.
fn put_run(into: &mut [Extent], at: usize, run: Extent) -> Option<usize>
    ensures room { IsSome result ↔ (at < length into.old) }
    ensures put { IfSome result (λ next. (next ≡ at + 1) × (into.new ≡ slice_set into.old at run)) }
{
    if at >= into.len() {
        return None;
    }
    into[at] = run;
    Some(at + 1)
}

/// Fills in the longest runs of these blocks, in their order, and answers how many there are. It takes no memory. None
/// where there is room for fewer: what was filled in then is of no use.
pub fn fill_runs(blocks: &[u32], into: &mut [Extent]) -> Option<usize>
    requires { All (λ block. block < MAX_BLOCKS) blocks.now }
    ensures found { IfSome result (λ count. take count into.new ≡ runs blocks.now) }
    ensures count { IfSome result (λ count. count ≡ length (runs blocks.now)) }
    ensures room { IsSome result ↔ (length (runs blocks.now) ≤ length into.old) }
    // Runs of data blocks are runs that a fork may have.
    ensures for_fork { All (λ block. FIRST_DATA_BLOCK ≤ block) blocks.now → IfSome result (λ count. AreRuns (take count into.new)) }
{
    let Some((first, rest)) = blocks.split_first() else {
        return Some(0);
    };
    let mut run = Extent {
        start: *first,
        count: 1,
    };
    let mut filled = 0;
    for block in rest {
        if *block == run.start + run.count {
            run.count += 1;
            continue;
        }
        filled = put_run(into, filled, run)?;
        run = Extent {
            start: *block,
            count: 1,
        };
    }
    put_run(into, filled, run)
}

/// The longest runs of these blocks, in their order.
pub fn runs_of(alloc: Global, blocks: &[u32]) -> Result<Vec<Extent>, RunsFault>
    requires { All (λ block. block < MAX_BLOCKS) blocks.now }
    ensures found { IfOk result (λ v. v.items ≡ runs blocks.now) }
    ensures longest { IfOk result (λ v. AreLongestRuns blocks.now v.items) }
    ensures for_fork { All (λ block. FIRST_DATA_BLOCK ≤ block) blocks.now → IfOk result (λ v. AreRuns v.items) }
    ensures few { IfOk result (λ v. length v.items ≤ MAX_EXTENTS) }
    ensures too_many { result ≡ Err RunsFault.TooManyExtents → MAX_EXTENTS < length (runs blocks.now) }
{
    let mut runs = [Extent { start: 0, count: 0 }; MAX_EXTENTS as usize];
    let Some(count) = fill_runs(blocks, &mut runs) else {
        return Err(RunsFault::TooManyExtents);
    };
    Ok(Vec::from_slice(alloc, &runs[..count])?)
}
