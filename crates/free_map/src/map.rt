// The map of one group.

ghost use Rattle.std.specs.Prelude.{◌≡◌, ◌≢◌, ◌+◌, ◌*◌, ◌≤◌, ◌<◌, ℕ, true, false, length, take, slice_set, OnOk, IfOk, IfSome, IfNone, IsTrue};
ghost use Rattle.free_map.specs.Blocks.{is_block_free, map_free_blocks, IsFreeRun};
ghost use Rattle.free_map.specs.Bitmap.{read_blocks, bitmap};
ghost use Rattle.life_bytes.specs.SectorBytes.{bytes_of};
ghost use Rattle.life_limits.specs.declared.TheConstants.{MAX_BLOCKS};

use crate::stored::{WORDS, clear_past, count_set, load, store};
use crate::words::{WORD_BLOCKS, clear_bit, full_byte, has_bit, lowest_set, set_bit};
use life_bytes::Sector;
use life_ports::NoMemory;
use std::alloc::Global;
use std::marker::Model;

/// The set of the free blocks of one group, beside the group's number of blocks.
#[derive(Drop)]
pub struct FreeMap {
    words: [u64; WORDS],
    blocks: u32,
    free: u32,
}

impl Model for FreeMap {
    ghost use Rattle.std.specs.Prelude.{List, Bool};
    ghost use Rattle.free_map.specs.Words.{map_blocks, AreMapWords};

    ghost Value = { List Bool };

    ghost view = { λ m. map_blocks m.words m.blocks };

    ghost invariant = { λ m. AreMapWords m.words m.blocks m.free };
}

impl FreeMap {
    /// A map of its own of the same blocks. Its words stand in the value itself, so this takes no memory.
    pub fn copied(&self) -> Self
        ensures { result ≡ self.now }
    {
        FreeMap {
            words: self.words,
            blocks: self.blocks,
            free: self.free,
        }
    }

    /// How many blocks the group has.
    pub fn blocks(&self) -> u32
        ensures count { result ≡ length self.now }
        ensures few { result ≤ MAX_BLOCKS }
    {
        self.blocks
    }

    /// How many blocks are free. The count is kept, so this looks at no bit.
    pub fn free(&self) -> u32
        ensures { result ≡ length (map_free_blocks self.now) }
    {
        self.free
    }

    /// Whether a block is free.
    pub fn is_free(&self, block: u32) -> bool
        ensures { result ≡ is_block_free self.now block }
    {
        block < self.blocks && has_bit(&self.words, block)
    }

    /// The lowest `n` free blocks, ascending. It looks at the words up to the last block that it gives.
    pub fn lowest(&self, alloc: Global, n: u32) -> Result<Vec<u32>, NoMemory>
        requires { n ≤ length (map_free_blocks self.now) }
        ensures { IfOk result (λ found. found.items ≡ take n (map_free_blocks self.now)) }
    {
        Ok(lowest_set(alloc, &self.words, n as usize)?)
    }

    /// The lowest multiple of 8 whose 8 blocks are free.
    pub fn aligned_run(&self) -> Option<u32>
        ensures run { IfSome result (IsFreeRun self.now) }
        ensures lowest { IfSome result (λ b. (c : ℕ) → IsFreeRun self.now c → b ≤ c) }
        ensures none { IfNone result ((c : ℕ) → ¬ IsFreeRun self.now c) }
    {
        for (index, word) in self.words.iter().enumerate() {
            if let Some(byte) = full_byte(*word) {
                return Some((WORD_BLOCKS * index) as u32 + 8 * byte);
            }
        }
        None
    }

    /// Takes a free block.
    pub fn take(&mut self, block: u32)
        requires { IsTrue (is_block_free self.old block) }
        ensures { self.new ≡ slice_set self.old block false }
    {
        clear_bit(&mut self.words, block);
        self.free -= 1;
    }

    /// Gives a block back that is not free.
    pub fn give(&mut self, block: u32)
        requires below { block < length self.old }
        requires taken { is_block_free self.old block ≡ false }
        ensures { self.new ≡ slice_set self.old block true }
    {
        set_bit(&mut self.words, block);
        self.free += 1;
    }

    /// Writes the bitmap over its 4 sectors.
    pub fn write_map(&self, into: &mut [Sector])
        requires { length into.old ≡ 4 }
        ensures { bytes_of into.new ≡ bitmap self.now }
    {
        store(&self.words, into);
    }
}

/// Reads the bitmap of a group of `blocks` blocks from its 4 sectors: bit `b % 8`, the lowest first, of byte `b / 8`
/// tells of block `b`. Bits from `blocks` on are passed over.
pub fn read_map(sectors: &[Sector], blocks: u32) -> FreeMap
    requires sectors { length sectors.now ≡ 4 }
    requires blocks { blocks ≤ MAX_BLOCKS }
    ensures { result ≡ read_blocks (bytes_of sectors.now) blocks }
{
    let mut words = load(sectors);
    clear_past(&mut words, blocks);
    let free = count_set(&words);
    FreeMap {
        words,
        blocks,
        free,
    }
}
