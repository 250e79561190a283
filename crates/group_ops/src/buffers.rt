//! The buffers of a group's inodes.

ghost use Rattle.std.specs.Prelude.{◌≡◌, ◌≢◌, ◌≤◌, ◌<◌, ◌+◌, ◌*◌, ◌%◌, ℕ, All, IfNone, IfSome, IsSome, length, slice_get, slice_index_or, slice_set, vec_capacity, vec_len};
ghost use Rattle.std.specs.Option.{option_map};
ghost use Rattle.life_limits.specs.declared.TheConstants.{CHUNK_INODES, GROUP_NUMBERS};
ghost use Rattle.inode_cache.specs.declared.inode.TheConstants.{CLUSTER_INODES};
ghost use Rattle.inode_cache.specs.Flush.{IsFlushed};
ghost use Rattle.life_table.specs.Table.{start_of};
ghost use Rattle.group_ops.specs.Buffers.{AreBuffers, Buffers, BuffersAscend, buffer_in};
ghost use Rattle.group_ops.specs.Changes.{insert_buffers, set_buffer, with_chunk};
ghost use Rattle.group_ops.specs.Flushing.{flushed_in, starts_of};

use inode_cache::{CLUSTER_INODES, InodeCache};
use life_bytes::Sector;
use life_limits::CHUNK_INODES;
use std::marker::Model;

/// The sectors of the 64 inodes of a chunk, as they were last written to the log or the device.
#[derive(Drop)]
pub struct ChunkBuffers {
    /// The number of the first inode in its group.
    start: u32,
    sectors: Vec<Sector>,
}

impl Model for ChunkBuffers {
    ghost use Rattle.group_ops.specs.Buffers.{AreBuffers, Buffers};

    ghost Value = { Buffers };

    ghost view = { λ c. record { start = c.start; sectors = c.sectors.items } };

    ghost invariant = { λ c. AreBuffers c.start c.sectors.items };
}

impl ChunkBuffers {
    /// The sectors of a chunk.
    pub(crate) fn new(start: u32, sectors: Vec<Sector>) -> ChunkBuffers
        requires aligned { start % CHUNK_INODES ≡ 0 }
        requires whole { length sectors.items ≡ CHUNK_INODES }
        requires low { start + CHUNK_INODES ≤ GROUP_NUMBERS }
        ensures start { result.start ≡ start }
        ensures sectors { result.sectors ≡ sectors.items }
    {
        ChunkBuffers { start, sectors }
    }

    /// The number of the first inode in its group.
    pub(crate) fn start(&self) -> u32
        ensures own { result ≡ self.now.start }
        ensures aligned { result % CHUNK_INODES ≡ 0 }
        ensures low { result + CHUNK_INODES ≤ GROUP_NUMBERS }
    {
        self.start
    }

    /// The sector of an inode, by its place in the chunk.
    pub(crate) fn at(&self, index: u32) -> Sector
        requires { index < CHUNK_INODES }
        ensures { slice_get self.now.sectors index ≡ Some result }
    {
        self.sectors[index as usize]
    }

    /// The buffers are those of a chunk, as those of each value of this type.
    fn hold(&self)
        ensures { AreBuffers self.now.start self.now.sectors }
    {
        let _start = self.start;
    }

    /// Sets the sector of an inode, by its place in the chunk.
    fn put(&mut self, index: u32, sector: &Sector)
        requires { index < CHUNK_INODES }
        ensures { self.new ≡ record { start = self.old.start; sectors = slice_set self.old.sectors index sector.now } }
    {
        self.sectors[index as usize] = *sector;
    }
}

/// How many chunks start at or before a number.
fn count_up_to(chunks: &[ChunkBuffers], agino: u32) -> usize
    requires { BuffersAscend chunks.now }
    ensures within { result ≤ length chunks.now }
    ensures before { (k : ℕ) (d : Buffers) → k < result → (slice_index_or chunks.now k d).start ≤ agino }
    ensures after { (k : ℕ) (d : Buffers) → result ≤ k → k < length chunks.now → agino < (slice_index_or chunks.now k d).start }
{
    chunks.partition_point(|chunk| chunk.start() <= agino)
}

/// The place of the chunk that has a number of the group, where there is one. A search by halves.
fn place_of(chunks: &[ChunkBuffers], agino: u32) -> Option<usize>
    requires { BuffersAscend chunks.now }
    ensures within { IfSome result (λ place. place < length chunks.now) }
    ensures found { IfSome result (λ place. (d : Buffers) → (slice_index_or chunks.now place d).start ≡ start_of agino) }
    ensures none { IfNone result ((k : ℕ) (d : Buffers) → k < length chunks.now → (slice_index_or chunks.now k d).start ≢ start_of agino) }
{
    let place = count_up_to(chunks, agino).checked_sub(1)?;
    let start = chunks[place].start();
    if agino - start < CHUNK_INODES {
        Some(place)
    } else {
        None
    }
}

/// The buffer of a number of the group, where a chunk has it.
pub(crate) fn find_buffer(chunks: &[ChunkBuffers], agino: u32) -> Option<Sector>
    requires { BuffersAscend chunks.now }
    ensures { result ≡ buffer_in chunks.now agino }
{
    let place = place_of(chunks, agino)?;
    Some(chunks[place].at(agino % CHUNK_INODES))
}

/// Sets the buffer of a number of the group, where a chunk has it.
pub(crate) fn put_buffer(chunks: &mut Vec<ChunkBuffers>, agino: u32, sector: &Sector)
    requires { BuffersAscend chunks.old.items }
    ensures set { chunks.new.items ≡ set_buffer chunks.old.items agino sector.now }
    ensures capacity { vec_capacity chunks.new ≡ vec_capacity chunks.old }
{
    if let Some(place) = place_of(chunks.as_slice(), agino) {
        chunks[place].put(agino % CHUNK_INODES, sector);
    }
}

/// Puts the buffers of one chunk more in their place, for which there has to be room.
fn add_chunk(chunks: &mut Vec<ChunkBuffers>, new: ChunkBuffers)
    requires ascend { BuffersAscend chunks.old.items }
    requires room { vec_len chunks.old < vec_capacity chunks.old }
    ensures added { chunks.new.items ≡ insert_buffers new chunks.old.items }
    ensures capacity { vec_capacity chunks.new ≡ vec_capacity chunks.old }
    ensures whole { AreBuffers new.start new.sectors }
{
    new.hold();
    let place = count_up_to(chunks.as_slice(), new.start());
    let _ = chunks.insert(place, new);
}

/// The same, where there is one chunk more.
pub(crate) fn add_any(chunks: &mut Vec<ChunkBuffers>, new: Option<ChunkBuffers>)
    requires ascend { BuffersAscend chunks.old.items }
    requires room { vec_len chunks.old < vec_capacity chunks.old }
    ensures added { chunks.new.items ≡ with_chunk chunks.old.items new }
    ensures capacity { vec_capacity chunks.new ≡ vec_capacity chunks.old }
    ensures whole { IfSome new (λ chunk. AreBuffers chunk.start chunk.sectors) }
{
    if let Some(new) = new {
        add_chunk(chunks, new);
    }
}

/// Flushes a cluster whose buffers stand one behind the other from a place on.
fn flush_part(cache: &mut InodeCache, cluster: u32, sectors: &mut [Sector], first: usize)
    requires cluster { cluster * CLUSTER_INODES < GROUP_NUMBERS }
    requires within { first + CLUSTER_INODES ≤ length sectors.old }
    ensures cache { IsFlushed cluster cache.old cache.new }
    ensures length { length sectors.new ≡ length sectors.old }
    ensures sectors { (start k : ℕ) → start + first ≡ cluster * CLUSTER_INODES
        → slice_get sectors.new k ≡ option_map (flushed_in cluster cache.old (start + k)) (slice_get sectors.old k) }
{
    let end = first + CLUSTER_INODES as usize;
    cache.flush_cluster(cluster, &mut sectors[first..end]);
}

impl ChunkBuffers {
    /// Flushes a cluster of the chunk's inodes.
    fn flush(&mut self, cache: &mut InodeCache, cluster: u32)
        requires small { cluster * CLUSTER_INODES < GROUP_NUMBERS }
        requires from { self.old.start ≤ cluster * CLUSTER_INODES }
        requires below { cluster * CLUSTER_INODES < self.old.start + CHUNK_INODES }
        ensures cache { IsFlushed cluster cache.old cache.new }
        ensures start { self.new.start ≡ self.old.start }
        ensures sectors { (k : ℕ) → slice_get self.new.sectors k ≡ option_map (flushed_in cluster cache.old (self.old.start + k)) (slice_get self.old.sectors k) }
    {
        let first = cluster * CLUSTER_INODES - self.start;
        flush_part(cache, cluster, &mut self.sectors, first as usize);
    }
}

/// Flushes a cluster of a group's inodes, which a chunk has.
pub(crate) fn flush_buffers(cache: &mut InodeCache, chunks: &mut Vec<ChunkBuffers>, cluster: u32)
    requires ascend { BuffersAscend chunks.old.items }
    requires whole { All (λ (chunk : Buffers). AreBuffers chunk.start chunk.sectors) chunks.old.items }
    requires small { cluster * CLUSTER_INODES < GROUP_NUMBERS }
    requires there { IsSome (buffer_in chunks.old.items (cluster * CLUSTER_INODES)) }
    ensures cache { IsFlushed cluster cache.old cache.new }
    ensures starts { starts_of chunks.new.items ≡ starts_of chunks.old.items }
    ensures whole { All (λ (chunk : Buffers). AreBuffers chunk.start chunk.sectors) chunks.new.items }
    ensures buffers { (agino : ℕ) → buffer_in chunks.new.items agino ≡ option_map (flushed_in cluster cache.old agino) (buffer_in chunks.old.items agino) }
    ensures capacity { vec_capacity chunks.new ≡ vec_capacity chunks.old }
{
    let Some(place) = place_of(chunks.as_slice(), cluster * CLUSTER_INODES) else {
        unreachable!()
    };
    chunks[place].flush(cache, cluster);
    chunks[place].hold();
}
