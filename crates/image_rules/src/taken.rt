//! Which blocks of a group nothing has taken yet.

ghost use Rattle.std.specs.Prelude.{◌≡◌, ◌≢◌, ◌≤◌, ◌<◌, ◌+◌, ◌⊎◌, ℕ, IsTrue, true, false, All, length};
ghost use Rattle.life_limits.specs.declared.TheConstants.{FIRST_DATA_BLOCK, MAX_BLOCKS};
ghost use Rattle.free_map.specs.Blocks.{is_block_free};
ghost use Rattle.image_rules.specs.Taking.{Misses, MissesRun, TakesAll, SharesBlock};

use free_map::{FreeMap, read_map};
use inobt_leaf::ChunkRec;
use life_bytes::Sector;
use life_limits::{BLOCK_SECTORS, CHUNK_INODES, FIRST_DATA_BLOCK};

/// The map of a group of so many blocks in which all data blocks are free.
pub(crate) fn data_blocks(blocks: u32) -> FreeMap
    requires { blocks ≤ MAX_BLOCKS }
    ensures long { length result ≡ blocks }
    ensures free { (b : ℕ) → is_block_free result b ≡ true → (FIRST_DATA_BLOCK ≤ b) × (b < blocks) }
    ensures kept { (b : ℕ) → FIRST_DATA_BLOCK ≤ b → b < blocks → is_block_free result b ≡ true }
{
    let mut map = read_map(&[Sector::zero(); 4], blocks);
    for block in FIRST_DATA_BLOCK..blocks {
        map.give(block);
    }
    map
}

/// Takes a block where nothing has taken it yet.
fn occupy(map: &mut FreeMap, block: u32)
    ensures long { length map.new ≡ length map.old }
    ensures taken { is_block_free map.new block ≡ false }
    ensures others { (b : ℕ) → b ≢ block → is_block_free map.new b ≡ is_block_free map.old b }
{
    if map.is_free(block) {
        map.take(block);
    }
}

/// Takes the 8 blocks of a chunk.
fn occupy_chunk(map: &mut FreeMap, chunk: &ChunkRec)
    ensures long { length map.new ≡ length map.old }
    ensures free { (b : ℕ) → is_block_free map.new b ≡ true → (is_block_free map.old b ≡ true) × Misses b chunk.now }
    ensures kept { (b : ℕ) → is_block_free map.old b ≡ true → Misses b chunk.now → is_block_free map.new b ≡ true }
{
    let first = chunk.start / BLOCK_SECTORS;
    for block in first..first + CHUNK_INODES / BLOCK_SECTORS {
        occupy(map, block);
    }
}

/// Takes the blocks of the chunks.
pub(crate) fn occupy_chunks(map: &mut FreeMap, chunks: &[ChunkRec])
    ensures long { length map.new ≡ length map.old }
    ensures free { (b : ℕ) → is_block_free map.new b ≡ true → (is_block_free map.old b ≡ true) × All (Misses b) chunks.now }
    ensures kept { (b : ℕ) → is_block_free map.old b ≡ true → All (Misses b) chunks.now → is_block_free map.new b ≡ true }
{
    for chunk in chunks {
        occupy_chunk(map, chunk);
    }
}

/// Takes an inode's blocks. False where one of them was taken before, or stands there twice.
pub(crate) fn take_all(map: &mut FreeMap, blocks: &[u32]) -> bool
    ensures all { IsTrue result → TakesAll map.old blocks.now map.new }
    ensures crowded { result ≡ false → SharesBlock map.old blocks.now }
    ensures long { length map.new ≡ length map.old }
{
    for block in blocks {
        if !map.is_free(*block) {
            return false;
        }
        map.take(*block);
    }
    true
}
