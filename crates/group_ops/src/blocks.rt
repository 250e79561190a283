// Grows and cuts.

ghost use Rattle.std.specs.Prelude.{◌≡◌, ◌==◌, ◌/◌, ◌*◌, ◌<◌, ◌≤◌, ◌++◌, ℕ, List, None, All, IfOk, MatchOption, MatchResult, is_some, length, true};
ghost use Rattle.life_limits.specs.declared.TheConstants.{GROUP_NUMBERS, MAX_BLOCKS, MAX_EXTENTS};
ghost use Rattle.geometry.specs.Places.{number_in};
ghost use Rattle.inode_core.specs.declared.shape.Core.{Core};
ghost use Rattle.extent_fork.specs.Runs.{runs};
ghost use Rattle.life_table.specs.declared.types.Row.{Row};
ghost use Rattle.life_table.specs.declared.types.Call.TheVariants as call;
ghost use Rattle.life_table.specs.declared.table.Inode.{Inode};
ghost use Rattle.life_table.specs.declared.table.Table.{Table};
ghost use Rattle.life_table.specs.Replies.{reply_of};
ghost use Rattle.life_table.specs.Table.{group_at, set_inode, with_inode};
ghost use Rattle.life_table.specs.WellFormed.{IsTable};
ghost use Rattle.sound_image.specs.Encoding.{Layouts};
ghost use Rattle.group_space.specs.Space.{IsSpaceOf, changed_space};
ghost use Rattle.group_ops.specs.Calls.{IsCutCause, IsGrowCause, Makes, relisted};
ghost use Rattle.group_ops.specs.Represents.{IsGroupOf, incore_for};
ghost use Rattle.group_ops.specs.Staging.{Leads};
ghost use Rattle.group_ops.specs.Telling.{HasRowAt, HasRowOf, holding_blocks, with_blocks};

use crate::change::Change;
use crate::delta::Delta;
use crate::refusals::{CutFault, GrowFault};
use crate::state::{GroupState, agino_of};
use change_images::blocks_touch_their_bits;
use encoded_changes::{encodings_follow_the_table, groups_change_alone};
use extent_fork::{Extent, fill_runs};
use group_space::SpaceChange;
use inode_cache::Incore;
use inode_core::Core;
use life_limits::{BLOCK_BYTES, MAX_EXTENTS};
use life_ports::NoMemory;
use life_table::{Key, Listed, rows_are_within_limits, tables_stay_well_formed};

/// An inode in core with these blocks, whose size, count and runs follow. None where they are more runs than a fork holds.
fn holding(core: Core, blocks: Vec<u32>) -> Option<Incore>
    requires blocks { All (λ block. block < MAX_BLOCKS) blocks.items }
    requires few { length blocks.items ≤ 2 * MAX_BLOCKS }
    ensures { MatchOption result (MAX_EXTENTS < length (runs blocks.items))
        (λ inode. (inode ≡ holding_blocks core blocks.items) × (length (runs blocks.items) ≤ MAX_EXTENTS)) }
{
    let mut runs = [Extent { start: 0, count: 0 }; MAX_EXTENTS as usize];
    let extents = fill_runs(&blocks, &mut runs)?;
    let count = blocks.len() as u64;
    Some(Incore {
        core: Core {
            size: count * u64::from(BLOCK_BYTES),
            blocks: count,
            extents: extents as u32,
            ..core
        },
        blocks: Listed::from_vec(blocks),
    })
}

/// The blocks with more at their end.
fn appended(blocks: Vec<u32>, more: &[u32]) -> Result<Vec<u32>, NoMemory>
    ensures { IfOk result (λ all. all.items ≡ blocks.items ++ more.now) }
{
    let mut all = blocks;
    all.extend_from_slice(more)?;
    Ok(all)
}

impl GroupState {
    /// The change of a number in use to an inode with other blocks, with the space as it then is.
    fn with_blocks(&self, agino: u32, inode: Incore, space: SpaceChange) -> Delta
        requires low { agino < GROUP_NUMBERS }
        requires anew { (space.records ≡ None) × (is_some space.free ≡ true) }
        ensures { (t : Table) (layouts : Layouts) (old : Inode) (row : Row) (core : Core) (blocks : List ℕ) → HasRowAt self.now agino t layouts old row
            → core ≡ (incore_for layouts self.now.group agino old).core → inode ≡ holding_blocks core blocks
            → IsTable (with_inode t (number_in self.now.group agino) (with_blocks old row blocks))
            → IsSpaceOf self.now.geometry.blocks (set_inode (group_at t self.now.group) agino (with_blocks old row blocks)) (changed_space self.now.space space)
            → Leads self.now result t layouts (with_inode t (number_in self.now.group agino) (with_blocks old row blocks))
            (relisted layouts self.now.group agino (row.links == 0) (row.links == 0)) }
    {
        rows_are_within_limits();
        blocks_touch_their_bits();
        encodings_follow_the_table();
        groups_change_alone();
        self.hold();
        Delta {
            agino,
            inode,
            head: None,
            prior: None,
            space,
            chunk: None,
        }
    }

    /// The change of a grow, which appends the lowest free blocks of the group.
    pub fn grow(&self, key: Key, count: u32) -> Result<Change, GrowFault>
        requires own { key.number / GROUP_NUMBERS ≡ self.now.group }
        requires row { HasRowOf self.now key }
        ensures { (t : Table) (layouts : Layouts) → IsGroupOf self.now t layouts
            → MatchResult result (λ change. Makes self.now change t layouts key (call.Grow key count)) (λ fault. IsGrowCause fault (reply_of t (call.Grow key count))) }
    {
        tables_stay_well_formed();
        rows_are_within_limits();
        encodings_follow_the_table();
        groups_change_alone();
        self.hold();
        let agino = agino_of(key);
        let Some(core) = self.core_at(agino) else {
            unreachable!()
        };
        if self.space.free_count() < count {
            return Err(GrowFault::NoSpace);
        }
        let blocks = self.inode_at(agino)?.blocks.into_vec();
        let taken = self.space.lowest_blocks(self.alloc, count)?;
        let Some(inode) = holding(core, appended(blocks, &taken)?) else {
            return Err(GrowFault::TooManyExtents);
        };
        let space = self.space.with_blocks_taken(&taken);
        let delta = self.with_blocks(agino, inode, space);
        Ok(self.with_commit(delta)?)
    }

    /// The change of a cut, which takes blocks away from the end.
    pub fn cut(&self, key: Key, count: u32) -> Result<Change, CutFault>
        requires own { key.number / GROUP_NUMBERS ≡ self.now.group }
        requires row { HasRowOf self.now key }
        ensures { (t : Table) (layouts : Layouts) → IsGroupOf self.now t layouts
            → MatchResult result (λ change. Makes self.now change t layouts key (call.Cut key count)) (λ fault. IsCutCause fault (reply_of t (call.Cut key count))) }
    {
        tables_stay_well_formed();
        rows_are_within_limits();
        encodings_follow_the_table();
        groups_change_alone();
        self.hold();
        let agino = agino_of(key);
        let Some(core) = self.core_at(agino) else {
            unreachable!()
        };
        if core.blocks < u64::from(count) {
            return Err(CutFault::CutTooFar);
        }
        let mut blocks = self.inode_at(agino)?.blocks.into_vec();
        let kept = blocks.len() - count as usize;
        let space = self.space.with_blocks_given(&blocks[kept..]);
        blocks.truncate(kept);
        let Some(inode) = holding(core, blocks) else {
            unreachable!()
        };
        let delta = self.with_blocks(agino, inode, space);
        Ok(self.with_commit(delta)?)
    }
}
