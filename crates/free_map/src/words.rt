// A set of blocks as words of 64 bits: bit `i` of word `w` tells of block `64 w + i`.

ghost use Rattle.std.specs.Prelude.{◌≡◌, ◌≢◌, ◌+◌, ◌*◌, ◌/◌, ◌%◌, ◌≤◌, ◌<◌, ◌^◌, ◌++◌, ℕ, true, false, length, filter, take, OnOk, IfOk, IfSome, IfNone, vec_len};
ghost use Rattle.std.specs.List.{range_with_len};
ghost use Rattle.free_map.specs.Words.{block_bit, places, IsFull};

use std::alloc::{AllocError, Global};

/// How many blocks a word tells of.
pub const WORD_BLOCKS: usize = 64;

/// Whether the bit of a block is set.
pub fn has_bit(words: &[u64], block: u32) -> bool
    requires { block / 64 < length words.now }
    ensures { result ≡ block_bit words.now block }
{
    (words[block as usize / WORD_BLOCKS] >> (block % 64)) & 1 == 1
}

/// Clears the bit of a block.
pub fn clear_bit(words: &mut [u64], block: u32)
    requires { block / 64 < length words.old }
    ensures here { block_bit words.new block ≡ false }
    ensures others { (b : ℕ) → b ≢ block → block_bit words.new b ≡ block_bit words.old b }
{
    words[block as usize / WORD_BLOCKS] &= !(1 << (block % 64));
}

/// Sets the bit of a block.
pub fn set_bit(words: &mut [u64], block: u32)
    requires { block / 64 < length words.old }
    ensures here { block_bit words.new block ≡ true }
    ensures others { (b : ℕ) → b ≢ block → block_bit words.new b ≡ block_bit words.old b }
{
    words[block as usize / WORD_BLOCKS] |= 1 << (block % 64);
}

/// Pushes the blocks of a word's set bits, from the lowest on, until there are `limit`.
fn push_places(found: &mut Vec<u32>, word: u64, base: u32, limit: usize) -> Result<(), AllocError>
    requires base { base + 64 < 2 ^ 32 }
    requires limit { length found.old.items ≤ limit }
    ensures ok { OnOk result (found.new.items ≡ take limit (found.old.items ++ places base word)) }
{
    let mut rest = word;
    while rest != 0 && found.len() < limit {
        let place = rest.trailing_zeros();
        found.push(base + place)?;
        rest &= !(1 << place);
    }
    Ok(())
}

/// The lowest `n` blocks whose bits are set, or all of them where there are fewer.
pub fn lowest_set(alloc: Global, words: &[u64], n: usize) -> Result<Vec<u32>, AllocError>
    requires { length words.now ≤ 256 }
    ensures { IfOk result (λ found. found.items ≡ take n (filter (block_bit words.now) (range_with_len 0 (64 * length words.now)))) }
{
    let mut found = Vec::with_capacity(alloc, n)?;
    for (index, word) in words.iter().enumerate() {
        if found.len() >= n {
            break;
        }
        push_places(&mut found, *word, (WORD_BLOCKS * index) as u32, n)?;
    }
    Ok(found)
}

/// The lowest byte of a word whose 8 bits are all set.
pub fn full_byte(word: u64) -> Option<u32>
    ensures some { IfSome result (λ k. (k < 8) × IsFull word k) }
    ensures lowest { IfSome result (λ k. (j : ℕ) → j < 8 → IsFull word j → k ≤ j) }
    ensures none { IfNone result ((j : ℕ) → j < 8 → ¬ IsFull word j) }
{
    for k in 0..8 {
        if (word >> (8 * k)) & 0xff == 0xff {
            return Some(k);
        }
    }
    None
}
