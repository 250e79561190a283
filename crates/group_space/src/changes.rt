// Changes of a space, each computed beside it.

ghost use Rattle.std.specs.Prelude.{◌≡◌, ◌+◌, ◌*◌, ◌%◌, ◌<◌, ◌++◌, ℕ, [], IfOk, None, Some, find, is_none, is_some, length, nat_eq, true};
ghost use Rattle.life_limits.specs.declared.TheConstants.{BLOCK_SECTORS, MAX_BLOCKS, MAX_LEAF_RECORDS};
ghost use Rattle.std.specs.List.{range_with_len};
ghost use Rattle.inobt_leaf.specs.Chunks.{IsLeaf, chunk_holds, with_whole_chunk};
ghost use Rattle.life_table.specs.declared.table.Inode.{Inode};
ghost use Rattle.life_table.specs.Table.{Group, inode_in, set_inode};
ghost use Rattle.life_table.specs.Space.{chunk_length, insert_chunk, new_chunk, row_blocks};
ghost use Rattle.life_table.specs.WellFormed.{IsGroup};
ghost use Rattle.group_space.specs.Space.{IsSpaceOf, changed_space};
ghost use Rattle.group_space.specs.Asked.{HasUnused, HasPlace, HasFree, HasLast, HasInUse};

use crate::blocks::{with, with_any, without};
use crate::space::{GroupSpace, SpaceChange};
use inobt_leaf::{Leaf, LeafFault};
use life_limits::BLOCK_SECTORS;
use life_ports::NoMemory;
use life_table::chunks_have_the_lowest_place;
use std::alloc::Global;

/// The chunks of a leaf are in order, as those of each value of its type.
fn hold_order(leaf: &Leaf)
    ensures { IsLeaf leaf.now }
{
    let _records = leaf.chunks();
}

/// The blocks of a chunk that begins at a block.
fn own_blocks(block: u32) -> [u32; 8]
    requires { block < MAX_BLOCKS }
    ensures { result ≡ range_with_len block chunk_length }
{
    [
        block,
        block + 1,
        block + 2,
        block + 3,
        block + 4,
        block + 5,
        block + 6,
        block + 7,
    ]
}

/// The leaf with one chunk more, none of whose inodes is in use.
fn with_whole(leaf: Leaf, start: u32) -> Result<Leaf, NoMemory>
    requires aligned { start % 64 ≡ 0 }
    requires absent { find (chunk_holds start) leaf ≡ None }
    requires room { length leaf < MAX_LEAF_RECORDS }
    ensures { IfOk result (λ more. (more ≡ with_whole_chunk start leaf) × IsLeaf more) }
{
    let mut more = leaf;
    match more.add(start) {
        Ok(()) => Ok(more),
        Err(LeafFault::LeafFull) => unreachable!(),
        Err(LeafFault::NoMemory) => Err(NoMemory),
    }
}

impl GroupSpace {
    /// A row without blocks takes a number that no row has. It copies the records.
    pub fn with_number_taken(&self, alloc: Global, agino: u32) -> Result<SpaceChange, NoMemory>
        requires { HasUnused self.now agino }
        ensures space { (blocks : ℕ) (chunks : Group) (old new : Inode) → IsSpaceOf blocks chunks self.now
            → inode_in chunks agino ≡ Some old → is_some new.row ≡ true → row_blocks new.row ≡ []
            → IfOk result (λ change. IsSpaceOf blocks (set_inode chunks agino new) (changed_space self.now change)) }
        ensures anew { IfOk result (λ change. (is_some change.records ≡ true) × (change.free ≡ None)) }
    {
        hold_order(&self.leaf);
        let mut leaf = self.leaf.copied(alloc)?;
        leaf.take(agino);
        Ok(SpaceChange {
            leaf: Some(leaf),
            free: None,
        })
    }

    /// A chunk is added at a block, and a row without blocks takes its first number. It copies the records and the map.
    pub fn with_chunk_added(&self, alloc: Global, block: u32) -> Result<SpaceChange, NoMemory>
        requires { HasPlace self.now block }
        ensures space { (blocks : ℕ) (chunks : Group) (new : Inode) → IsSpaceOf blocks chunks self.now
            → is_some new.row ≡ true → row_blocks new.row ≡ [] → IfOk result (λ change.
            IsSpaceOf blocks (set_inode (insert_chunk (new_chunk block) chunks) (BLOCK_SECTORS * block) new)
            (changed_space self.now change)) }
        ensures anew { IfOk result (λ change. (is_some change.records ≡ true) × (is_some change.free ≡ true)) }
    {
        chunks_have_the_lowest_place();
        let start = BLOCK_SECTORS * block;
        hold_order(&self.leaf);
        let mut leaf = with_whole(self.leaf.copied(alloc)?, start)?;
        leaf.take(start);
        Ok(SpaceChange {
            leaf: Some(leaf),
            free: Some(without(&self.free, &own_blocks(block))),
        })
    }

    /// A row gives up its number and its blocks, which are these. It copies the records, and the map where there are
    /// blocks.
    pub fn with_number_given(
        &self,
        alloc: Global,
        agino: u32,
        blocks: &[u32],
    ) -> Result<SpaceChange, NoMemory>
        requires { HasInUse self.now agino blocks.now }
        ensures space { (size : ℕ) (chunks : Group) (old new : Inode) → IsSpaceOf size chunks self.now → IsGroup size chunks
            → inode_in chunks agino ≡ Some old → row_blocks old.row ≡ blocks.now → new.row ≡ None
            → IfOk result (λ change. IsSpaceOf size (set_inode chunks agino new) (changed_space self.now change)) }
        ensures anew { IfOk result (λ change. (is_some change.records ≡ true) × (is_none change.free ≡ nat_eq (length blocks.now) 0)) }
    {
        hold_order(&self.leaf);
        let mut leaf = self.leaf.copied(alloc)?;
        leaf.give(agino);
        Ok(SpaceChange {
            leaf: Some(leaf),
            free: with_any(&self.free, blocks),
        })
    }

    /// A row takes these free blocks behind its own. It copies the map.
    pub fn with_blocks_taken(&self, blocks: &[u32]) -> SpaceChange
        requires { HasFree self.now blocks.now }
        ensures space { (size : ℕ) (chunks : Group) (agino : ℕ) (old new : Inode) → IsSpaceOf size chunks self.now
            → inode_in chunks agino ≡ Some old → is_none new.row ≡ is_none old.row
            → row_blocks new.row ≡ row_blocks old.row ++ blocks.now
            → IsSpaceOf size (set_inode chunks agino new) (changed_space self.now result) }
        ensures anew { (result.records ≡ None) × (is_some result.free ≡ true) }
    {
        SpaceChange {
            leaf: None,
            free: Some(without(&self.free, blocks)),
        }
    }

    /// A row gives its last blocks up, which are these. It copies the map.
    pub fn with_blocks_given(&self, blocks: &[u32]) -> SpaceChange
        requires { HasLast self.now blocks.now }
        ensures space { (size : ℕ) (chunks : Group) (agino : ℕ) (old new : Inode) → IsSpaceOf size chunks self.now
            → IsGroup size chunks → inode_in chunks agino ≡ Some old → is_none new.row ≡ is_none old.row
            → row_blocks old.row ≡ row_blocks new.row ++ blocks.now
            → IsSpaceOf size (set_inode chunks agino new) (changed_space self.now result) }
        ensures anew { (result.records ≡ None) × (is_some result.free ≡ true) }
    {
        SpaceChange {
            leaf: None,
            free: Some(with(&self.free, blocks)),
        }
    }
}
