// The leaf in memory.

ghost use Rattle.std.specs.Prelude.{◌≡◌, ◌↔◌, ◌+◌, ◌-◌, ◌%◌, ◌≤◌, ◌<◌, ℕ, true, false, [], length, find, map, None, IsSomeAnd, IfOk, IsOk, Err, OnOk, OnErr};
ghost use Rattle.life_bytes.specs.Bits.{is_set};
ghost use Rattle.life_limits.specs.declared.TheConstants.{MAX_LEAF_RECORDS};
ghost use Rattle.inobt_leaf.specs.Chunks.{chunk_holds, IsLeaf, after_take, after_give, where_held, with_whole_chunk};

use crate::chunk::ChunkRec;
use crate::records::{count_up_to, find_chunk, give_in, take_in};
use life_limits::{CHUNK_INODES, MAX_LEAF_RECORDS};
use std::alloc::{AllocError, AllocFailed, Global};
use std::marker::Model;

/// How many chunks a leaf holds.
pub const LEAF_CHUNKS: usize = MAX_LEAF_RECORDS as usize;

/// Why a chunk was not added. The leaf is as before.
#[derive(Clone, Copy, Debug, PartialEq, Eq)]
pub enum LeafFault {
    /// The leaf holds 252 chunks.
    LeafFull,
    NoMemory,
}

impl<T: Drop> From<AllocFailed<T>> for LeafFault {
    ghost use Rattle.std.specs.Prelude.{◌≡◌};
    ghost use Rattle.inobt_leaf.specs.declared.leaf.LeafFault.TheVariants.{NoMemory};

    ghost from_gives = { λ _ e. e ≡ NoMemory };

    fn from(_: AllocFailed<T>) -> Self {
        LeafFault::NoMemory
    }
}

/// The chunks of a leaf, ascending.
#[derive(Drop)]
pub struct Leaf {
    chunks: Vec<ChunkRec>,
}

impl Model for Leaf {
    ghost use Rattle.std.specs.Prelude.{List};
    ghost use Rattle.inobt_leaf.specs.declared.chunk.ChunkRec.{ChunkRec};
    ghost use Rattle.inobt_leaf.specs.Chunks.{IsLeaf};

    ghost Value = { List ChunkRec };

    ghost view = { λ leaf. leaf.chunks.items };

    ghost invariant = { λ leaf. IsLeaf leaf.chunks.items };
}

impl Leaf {
    /// A leaf with no chunk.
    pub fn new(alloc: Global) -> Self
        ensures { result ≡ [] }
    {
        Leaf {
            chunks: Vec::new(alloc),
        }
    }

    /// The leaf of these chunks.
    pub fn of(chunks: Vec<ChunkRec>) -> Self
        requires { IsLeaf chunks.items }
        ensures { result ≡ chunks.items }
    {
        Leaf { chunks }
    }

    /// A leaf of its own with the same chunks.
    pub fn copied(&self, alloc: Global) -> Result<Self, AllocError>
        ensures { IfOk result (λ leaf. leaf ≡ self.now) }
    {
        Ok(Leaf {
            chunks: self.chunks.as_slice().to_vec(alloc)?,
        })
    }

    /// The chunks, ascending.
    pub fn chunks(&self) -> &[ChunkRec]
        ensures all { result.now ≡ self.now }
        ensures leaf { IsLeaf self.now }
    {
        self.chunks.as_slice()
    }

    /// The chunk that holds an inode. A search by halves.
    pub fn find(&self, agino: u32) -> Option<ChunkRec>
        ensures { result ≡ find (chunk_holds agino) self.now }
    {
        find_chunk(self.chunks.as_slice(), agino)
    }

    /// Takes a free inode of a chunk.
    pub fn take(&mut self, agino: u32)
        requires { IsSomeAnd (find (chunk_holds agino) self.old) (λ chunk. is_set chunk.mask (agino - chunk.start) ≡ true) }
        ensures changed { self.new ≡ map (where_held agino (after_take agino)) self.old }
        ensures leaf { IsLeaf self.new }
    {
        take_in(self.chunks.as_mut_slice(), agino);
    }

    /// Gives an inode of a chunk back.
    pub fn give(&mut self, agino: u32)
        requires { IsSomeAnd (find (chunk_holds agino) self.old) (λ chunk. is_set chunk.mask (agino - chunk.start) ≡ false) }
        ensures changed { self.new ≡ map (where_held agino (after_give agino)) self.old }
        ensures leaf { IsLeaf self.new }
    {
        give_in(self.chunks.as_mut_slice(), agino);
    }

    /// Adds a chunk whose 64 inodes are free. The leaf keeps its allocator, so this takes none.
    pub fn add(&mut self, start: u32) -> Result<(), LeafFault>
        requires aligned { start % 64 ≡ 0 }
        requires absent { find (chunk_holds start) self.old ≡ None }
        ensures ok { OnOk result (self.new ≡ with_whole_chunk start self.old) }
        ensures leaf { IsLeaf self.new }
        ensures full { (result ≡ Err LeafFault.LeafFull) ↔ (length self.old ≡ MAX_LEAF_RECORDS) }
        ensures err { OnErr result (self.new ≡ self.old) }
    {
        if self.chunks.len() == LEAF_CHUNKS {
            return Err(LeafFault::LeafFull);
        }
        let place = count_up_to(self.chunks.as_slice(), start);
        self.chunks.insert(
            place,
            ChunkRec {
                start,
                free: CHUNK_INODES,
                mask: u64::MAX,
            },
        )?;
        Ok(())
    }
}
