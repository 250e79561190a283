// What is free: blocks, numbers of inodes, and places for chunks.

ghost use Rattle.std.specs.Prelude.{◌≡◌, ◌+◌, ◌^◌, ◌<◌, ◌≤◌, IfOk, IfSome, length, nat_lt, slice_get};
ghost use Rattle.std.specs.List.{AllByRecursion, list_any, position_or_len};
ghost use Rattle.plain_table.specs.Parts.{has_block, uses_block};
ghost use Rattle.life_table.specs.declared.table.Chunk.{Chunk};
ghost use Rattle.life_table.specs.declared.table.Inode.{Inode};
ghost use Rattle.life_table.specs.Space.{row_blocks, is_free_block, free_blocks, begins_run, chunk_place, new_chunk, insert_chunk, is_free, keys_from, lowest_key, prepared};
ghost use Rattle.life_table.specs.WellFormed.{IsChunk};
ghost use Rattle.life_limits.specs.declared.TheConstants.{MAX_BLOCKS};

use crate::copies::copy_group;
use life_limits::{
    BLOCK_SECTORS, CHUNK_INODES, FIRST_DATA_BLOCK, GROUP_NUMBERS, MAX_CHUNKS, MAX_GENERATION,
};
use life_ports::NoMemory;
use life_table::{Chunk, Inode, Key, Listed};
use std::alloc::Global;

/// How many blocks a chunk has.
const CHUNK_BLOCKS: u32 = CHUNK_INODES / BLOCK_SECTORS;

/// Whether the row of an inode has this block.
fn inode_has(inode: &Inode, block: u32) -> bool
    ensures { result ≡ has_block block (row_blocks inode.now.row) }
{
    match &inode.row {
        Some(row) => row.blocks.as_slice().contains(&block),
        None => false,
    }
}

fn rows_have(inodes: &[Inode], block: u32) -> bool
    ensures { result ≡ list_any (λ (inode : Inode). has_block block (row_blocks inode.row)) inodes.now }
{
    inodes.iter().any(|inode| inode_has(inode, block))
}

/// Whether the block is one of a chunk's own, or one of its rows has it.
fn chunk_uses(chunk: &Chunk, block: u32) -> bool
    ensures { result ≡ uses_block block chunk.now }
{
    let first = chunk.start / BLOCK_SECTORS;
    first <= block && block - first < CHUNK_BLOCKS || rows_have(chunk.inodes.as_slice(), block)
}

fn is_used(group: &[Chunk], block: u32) -> bool
    ensures { result ≡ list_any (uses_block block) group.now }
{
    group.iter().any(|chunk| chunk_uses(chunk, block))
}

#[tactic(auto, using(crate::proofs::Spaces::free_test))]
fn block_is_free(blocks: u32, group: &[Chunk], block: u32) -> bool
    ensures { result ≡ is_free_block blocks group.now block }
{
    FIRST_DATA_BLOCK <= block && block < blocks && !is_used(group, block)
}

/// The free blocks of a group of so many blocks, ascending.
pub(crate) fn list_free_blocks(
    alloc: Global,
    blocks: u32,
    group: &[Chunk],
) -> Result<Vec<u32>, NoMemory>
    ensures { IfOk result (λ free. free.items ≡ free_blocks blocks group.now) }
{
    let mut free = Vec::new(alloc);
    for block in 0..blocks {
        if block_is_free(blocks, group, block) {
            free.push(block)?;
        }
    }
    Ok(free)
}

/// Whether 8 free blocks begin here, at a multiple of 8.
fn run_begins(blocks: u32, group: &[Chunk], block: u32) -> bool
    requires { block < MAX_BLOCKS }
    ensures { result ≡ begins_run blocks group.now block }
{
    if block % CHUNK_BLOCKS != 0 {
        return false;
    }
    for place in 0..CHUNK_BLOCKS {
        if !block_is_free(blocks, group, block + place) {
            return false;
        }
    }
    true
}

/// The block at which a chunk can be added.
pub(crate) fn place_for_chunk(blocks: u32, group: &[Chunk]) -> Option<u32>
    requires { blocks ≤ MAX_BLOCKS }
    ensures lowest { result ≡ chunk_place blocks group.now }
    ensures within { IfSome result (λ block. block < blocks) }
{
    if group.len() >= MAX_CHUNKS as usize {
        return None;
    }
    for block in 0..blocks {
        if run_begins(blocks, group, block) {
            return Some(block);
        }
    }
    None
}

fn inode_is_free(inode: &Inode) -> bool
    ensures { result ≡ is_free inode.now }
{
    inode.row.is_none() && inode.generation < MAX_GENERATION
}

/// The key of the first free one of these inodes, which are numbered from here on.
fn first_key(number: u64, inodes: &[Inode]) -> Option<Key>
    requires { number + length inodes.now < 2 ^ 64 }
    ensures { result ≡ slice_get (keys_from number inodes.now) 0 }
{
    for (place, inode) in inodes.iter().enumerate() {
        if inode_is_free(inode) {
            return Some(Key {
                number: number + place as u64,
                generation: inode.generation,
            });
        }
    }
    None
}

/// The key of the lowest free number of the group at this place.
pub(crate) fn find_lowest_key(g: u32, group: &[Chunk]) -> Option<Key>
    ensures { result ≡ lowest_key g group.now }
{
    let base = u64::from(g) * u64::from(GROUP_NUMBERS);
    for chunk in group {
        let key = first_key(base + u64::from(chunk.start), chunk.inodes.as_slice());
        if key.is_some() {
            return key;
        }
    }
    None
}

fn make_chunk(alloc: Global, block: u32) -> Result<Chunk, NoMemory>
    requires { block < MAX_BLOCKS }
    ensures { IfOk result (λ chunk. chunk ≡ new_chunk block) }
{
    let mut inodes = Vec::new(alloc);
    for _ in 0..CHUNK_INODES {
        inodes.push(Inode {
            generation: 1,
            row: None,
        })?;
    }
    Ok(Chunk {
        start: block * BLOCK_SECTORS,
        inodes: Listed::from_vec(inodes),
    })
}

/// The place of the first chunk that starts behind this start.
fn place_in_order(start: u32, group: &[Chunk]) -> usize
    ensures first { result ≡ position_or_len (λ (other : Chunk). nat_lt start other.start) group.now }
    ensures within { result ≤ length group.now }
{
    for (place, other) in group.iter().enumerate() {
        if start < other.start {
            return place;
        }
    }
    group.len()
}

/// The group with one chunk more, in its order.
fn with_chunk_in_order(alloc: Global, chunk: Chunk, group: &[Chunk]) -> Result<Vec<Chunk>, NoMemory>
    ensures { IfOk result (λ copy. copy.items ≡ insert_chunk chunk group.now) }
{
    let mut copy = copy_group(alloc, group)?;
    let place = place_in_order(chunk.start, group);
    copy.insert(place, chunk)?;
    Ok(copy)
}

/// The group as a create finds it.
pub(crate) fn prepare_group(
    alloc: Global,
    blocks: u32,
    g: u32,
    group: &[Chunk],
) -> Result<Vec<Chunk>, NoMemory>
    requires { blocks ≤ MAX_BLOCKS }
    ensures { IfOk result (λ copy. copy.items ≡ prepared blocks g group.now) }
{
    if find_lowest_key(g, group).is_some() {
        return copy_group(alloc, group);
    }
    match place_for_chunk(blocks, group) {
        Some(block) => with_chunk_in_order(alloc, make_chunk(alloc, block)?, group),
        None => copy_group(alloc, group),
    }
}
