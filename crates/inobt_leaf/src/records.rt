// Ascending records of chunks, as a slice.

ghost use Rattle.std.specs.Prelude.{◌≡◌, ◌+◌, ◌%◌, ◌≤◌, ◌<◌, ◌↔◌, ℕ, IsTrue, length, find, map, slice_index_or, true, false, ◌-◌, IsSomeAnd, IfSome, IfNone};
ghost use Rattle.life_bytes.specs.Bits.{is_set};
ghost use Rattle.inobt_leaf.specs.Chunks.{chunk_holds, RecordsAscend, IsChunkRecord, IsLeaf, after_take, after_give, where_held};
ghost use Rattle.inobt_leaf.specs.declared.chunk.ChunkRec.{ChunkRec};

use crate::chunk::ChunkRec;
use crate::masks::{cleared, with_set};
use life_limits::CHUNK_INODES;

/// How many chunks start at or before an inode.
pub fn count_up_to(chunks: &[ChunkRec], agino: u32) -> usize
    requires { RecordsAscend chunks.now }
    ensures within { result ≤ length chunks.now }
    ensures before { (k : ℕ) (d : ChunkRec) → k < result → (slice_index_or chunks.now k d).start ≤ agino }
    ensures after { (k : ℕ) (d : ChunkRec) → result ≤ k → k < length chunks.now → agino < (slice_index_or chunks.now k d).start }
{
    chunks.partition_point(|chunk| chunk.start <= agino)
}

/// The place of the chunk that holds an inode.
pub fn place_of(chunks: &[ChunkRec], agino: u32) -> Option<usize>
    requires { IsLeaf chunks.now }
    ensures some { IfSome result (λ k. (k < length chunks.now) × ((d : ChunkRec) → IsTrue (chunk_holds agino (slice_index_or chunks.now k d)))) }
    ensures none { IfNone result ((k : ℕ) (d : ChunkRec) → k < length chunks.now → ¬ IsTrue (chunk_holds agino (slice_index_or chunks.now k d))) }
{
    let place = count_up_to(chunks, agino).checked_sub(1)?;
    if agino - chunks[place].start < CHUNK_INODES {
        Some(place)
    } else {
        None
    }
}

/// The chunk that holds an inode.
pub fn find_chunk(chunks: &[ChunkRec], agino: u32) -> Option<ChunkRec>
    requires { IsLeaf chunks.now }
    ensures { result ≡ find (chunk_holds agino) chunks.now }
{
    match place_of(chunks, agino) {
        Some(place) => Some(chunks[place]),
        None => None,
    }
}

/// Takes a free inode of a chunk.
pub fn take_in(chunks: &mut [ChunkRec], agino: u32)
    requires leaf { IsLeaf chunks.old }
    requires free { IsSomeAnd (find (chunk_holds agino) chunks.old) (λ chunk. is_set chunk.mask (agino - chunk.start) ≡ true) }
    ensures changed { chunks.new ≡ map (where_held agino (after_take agino)) chunks.old }
    ensures leaf { IsLeaf chunks.new }
{
    let Some(place) = place_of(chunks, agino) else {
        unreachable!()
    };
    let chunk = chunks[place];
    chunks[place] = ChunkRec {
        start: chunk.start,
        free: chunk.free - 1,
        mask: cleared(chunk.mask, agino - chunk.start),
    };
}

/// Gives an inode of a chunk back.
pub fn give_in(chunks: &mut [ChunkRec], agino: u32)
    requires leaf { IsLeaf chunks.old }
    requires taken { IsSomeAnd (find (chunk_holds agino) chunks.old) (λ chunk. is_set chunk.mask (agino - chunk.start) ≡ false) }
    ensures changed { chunks.new ≡ map (where_held agino (after_give agino)) chunks.old }
    ensures leaf { IsLeaf chunks.new }
{
    let Some(place) = place_of(chunks, agino) else {
        unreachable!()
    };
    let chunk = chunks[place];
    chunks[place] = ChunkRec {
        start: chunk.start,
        free: chunk.free + 1,
        mask: with_set(chunk.mask, agino - chunk.start),
    };
}
