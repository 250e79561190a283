// The space of a group, and what a change makes anew of it.

ghost use Rattle.std.specs.Prelude.{◌≡◌, ◌≤◌, ℕ, None, IfOk, IfSome, IsSomeAnd, is_some, length, take};
ghost use Rattle.life_table.specs.Table.{Group};
ghost use Rattle.life_table.specs.Space.{chunk_place, free_blocks};
ghost use Rattle.group_space.specs.Space.{IsSpaceOf, IsUnused, changed_space};
ghost use Rattle.group_space.specs.Asked.{AreFreeBlocks};

use crate::numbers::unused_in;
use free_map::FreeMap;
use inobt_leaf::Leaf;
use life_limits::MAX_CHUNKS;
use life_ports::NoMemory;
use life_table::chunks_have_the_lowest_place;
use std::alloc::Global;
use std::marker::Model;

/// What of a group its allocation is.
#[derive(Drop)]
pub struct GroupSpace {
    pub(crate) leaf: Leaf,
    pub(crate) free: FreeMap,
}

impl Model for GroupSpace {
    ghost use Rattle.group_space.specs.Space.{Space};

    ghost Value = { Space };

    ghost view = { λ s. record { records = s.leaf; free = s.free } };
}

/// What a change makes anew of a space, beside it. What it does not change is not copied.
#[derive(Drop)]
pub struct SpaceChange {
    pub(crate) leaf: Option<Leaf>,
    pub(crate) free: Option<FreeMap>,
}

impl Model for SpaceChange {
    ghost use Rattle.group_space.specs.Space.{Changed};

    ghost Value = { Changed };

    ghost view = { λ s. record { records = s.leaf; free = s.free } };
}

impl SpaceChange {
    /// The change that makes nothing anew.
    pub fn none() -> SpaceChange
        ensures { result ≡ record { records = None; free = None } }
    {
        SpaceChange {
            leaf: None,
            free: None,
        }
    }

    /// Whether the records are others, and so their page.
    pub fn has_records(&self) -> bool
        ensures { result ≡ is_some self.now.records }
    {
        self.leaf.is_some()
    }

    /// Whether the free blocks are others, and so the bitmap.
    pub fn has_blocks(&self) -> bool
        ensures { result ≡ is_some self.now.free }
    {
        self.free.is_some()
    }
}

/// How many inodes the chunks of a group have, and how many of them no row has.
#[derive(Clone, Copy, Debug, PartialEq, Eq)]
pub struct SpaceCounts {
    pub inodes: u32,
    pub free: u32,
}

impl GroupSpace {
    /// The space of these records and these free blocks.
    pub fn new(leaf: Leaf, free: FreeMap) -> Self
        ensures { result ≡ record { records = leaf; free = free } }
    {
        GroupSpace { leaf, free }
    }

    /// The lowest number at or above `from` that a chunk has and no row. A number whose generation is the last one has
    /// no row either, and no life left: the caller, who knows the generations, passes over it, and asks from the next
    /// number on.
    pub fn unused_from(&self, from: u32) -> Option<u32>
        ensures unused { (blocks : ℕ) (chunks : Group) → IsSpaceOf blocks chunks self.now
            → IfSome result (λ agino. (from ≤ agino) × IsUnused chunks agino) }
        ensures least { (blocks : ℕ) (chunks : Group) (agino : ℕ) → IsSpaceOf blocks chunks self.now → from ≤ agino
            → IsUnused chunks agino → IsSomeAnd result (λ least. least ≤ agino) }
    {
        unused_in(self.leaf.chunks(), from)
    }

    /// The block at which the next chunk begins.
    pub fn chunk_block(&self) -> Option<u32>
        ensures { (blocks : ℕ) (chunks : Group) → IsSpaceOf blocks chunks self.now
            → result ≡ chunk_place blocks chunks }
    {
        chunks_have_the_lowest_place();
        if self.leaf.chunks().len() >= MAX_CHUNKS as usize {
            return None;
        }
        self.free.aligned_run()
    }

    /// How many blocks are free. It looks at none of them.
    pub fn free_count(&self) -> u32
        ensures { (blocks : ℕ) (chunks : Group) → IsSpaceOf blocks chunks self.now
            → result ≡ length (free_blocks blocks chunks) }
    {
        self.free.free()
    }

    /// The `n` lowest free blocks, ascending.
    pub fn lowest_blocks(&self, alloc: Global, n: u32) -> Result<Vec<u32>, NoMemory>
        requires { (blocks : ℕ) × (chunks : Group) × IsSpaceOf blocks chunks self.now
            × (n ≤ length (free_blocks blocks chunks)) }
        ensures lowest { (blocks : ℕ) (chunks : Group) → IsSpaceOf blocks chunks self.now
            → IfOk result (λ found. found.items ≡ take n (free_blocks blocks chunks)) }
        ensures free { (blocks : ℕ) (chunks : Group) → IsSpaceOf blocks chunks self.now
            → IfOk result (λ found. AreFreeBlocks blocks chunks found.items) }
    {
        self.free.lowest(alloc, n)
    }

    /// Makes the change. It takes no memory.
    pub fn apply(&mut self, change: SpaceChange)
        ensures { self.new ≡ changed_space self.old change }
    {
        let SpaceChange { leaf, free } = change;
        if let Some(leaf) = leaf {
            self.leaf = leaf;
        }
        if let Some(free) = free {
            self.free = free;
        }
    }
}
