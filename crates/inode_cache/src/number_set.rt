//! Sets of the numbers of a group's inodes, as those that are in core or dirty: the next one is found in order.

ghost use Rattle.std.specs.Prelude.{◌≡◌, ◌≢◌, ◌≤◌, ◌<◌, ◌+◌, ◌*◌, ◌/◌, ℕ, true, false, length, IfNone, IfSome};
ghost use Rattle.std.specs.Int.{bit_at};
ghost use Rattle.life_limits.specs.declared.TheConstants.{GROUP_NUMBERS};
ghost use Rattle.inode_cache.specs.Numbers.{has_number};

use life_limits::GROUP_NUMBERS;
use std::marker::Model;

/// Bits of a word.
const WORD_BITS: u32 = 64;

/// Words of a set: a bit for each number that an inode of a group can have.
const WORDS: u32 = GROUP_NUMBERS / WORD_BITS;

/// A set of numbers that inodes of a group can have. It has a bit for each of them.
#[derive(Drop)]
pub struct NumberSet {
    words: [u64; WORDS as usize],
}

impl Model for NumberSet {
    ghost use Rattle.std.specs.Prelude.{◌≡◌, ℕ, List, length};

    ghost Value = { List ℕ };

    ghost view = { λ s. s.words };

    ghost invariant = { λ s. length s.words ≡ 2048 };
}

/// The lowest bit of a word that is set, from a place on.
fn bit_from(word: u64, place: u32) -> Option<u32>
    requires { place < 64 }
    ensures found { IfSome result (λ bit. (place ≤ bit) × (bit < 64) × (bit_at word bit ≡ 1)) }
    ensures least { IfSome result (λ bit. (k : ℕ) → place ≤ k → k < bit → bit_at word k ≡ 0) }
    ensures none { IfNone result ((k : ℕ) → place ≤ k → bit_at word k ≡ 0) }
{
    let rest = word >> place;
    if rest == 0 {
        return None;
    }
    Some(place + rest.trailing_zeros())
}

impl NumberSet {
    /// The empty set, which takes no memory.
    pub fn new() -> NumberSet
        ensures { (n : ℕ) → has_number result n ≡ false }
    {
        NumberSet {
            words: [0; WORDS as usize],
        }
    }

    pub fn contains(&self, number: u32) -> bool
        requires { number < GROUP_NUMBERS }
        ensures { result ≡ has_number self.now number }
    {
        (self.words[(number / WORD_BITS) as usize] >> (number % WORD_BITS)) & 1 == 1
    }

    /// Puts a number in. It takes no memory.
    pub fn insert(&mut self, number: u32)
        requires { number < GROUP_NUMBERS }
        ensures here { has_number self.new number ≡ true }
        ensures others { (n : ℕ) → n ≢ number → has_number self.new n ≡ has_number self.old n }
    {
        self.words[(number / WORD_BITS) as usize] |= 1 << (number % WORD_BITS);
    }

    /// Takes a number out.
    pub fn remove(&mut self, number: u32)
        requires { number < GROUP_NUMBERS }
        ensures here { has_number self.new number ≡ false }
        ensures others { (n : ℕ) → n ≢ number → has_number self.new n ≡ has_number self.old n }
    {
        self.words[(number / WORD_BITS) as usize] &= !(1 << (number % WORD_BITS));
    }

    /// The least number of the set that is not below `from`. It looks at the words from there on.
    pub fn first_from(&self, from: u32) -> Option<u32>
        ensures found { IfSome result (λ n. (from ≤ n) × (has_number self.now n ≡ true)) }
        ensures least { IfSome result (λ n. (k : ℕ) → from ≤ k → k < n → has_number self.now k ≡ false) }
        ensures none { IfNone result ((k : ℕ) → from ≤ k → has_number self.now k ≡ false) }
    {
        let mut place = from % WORD_BITS;
        for index in from / WORD_BITS..WORDS {
            if let Some(bit) = bit_from(self.words[index as usize], place) {
                return Some(WORD_BITS * index + bit);
            }
            place = 0;
        }
        None
    }
}
