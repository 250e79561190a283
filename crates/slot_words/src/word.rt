//! A word part by part.

ghost use Rattle.std.specs.Prelude.{◌≡◌, ◌<◌, ◌+◌, ◌/◌, ◌%◌, ◌*◌, ◌^◌, ◌==◌, ℕ, IfSome};
ghost use Rattle.slot_words.specs.Words.{IsWord, WordsAreNumbers, number_of, numbered, word_of};

/// What a word of the cache says of its inode.
#[derive(Clone, Copy, Debug, PartialEq, Eq)]
pub struct Word {
    /// The generation of the inode that is in the cache, or was there last.
    pub generation: u32,
    /// Whether it is in the cache.
    pub live: bool,
    /// Whether it has no links.
    pub unlinked: bool,
    /// Two bits that say nothing. They are zero, and where they are not they stay as they are.
    pub unused: u32,
    /// How many hold it.
    pub pins: u32,
}

fn has_bit(number: u64, bit: u32) -> bool
    requires { bit < 64 }
    ensures { result ≡ (number / 2 ^ bit % 2 == 1) }
{
    (number >> bit) & 1 == 1
}

/// The parts of a word.
pub fn read_word(number: u64) -> Word
    ensures word { result ≡ word_of number }
    ensures fits { IsWord result }
{
    Word {
        generation: (number >> 32) as u32,
        live: has_bit(number, 31),
        unlinked: has_bit(number, 30),
        unused: ((number >> 28) & 3) as u32,
        pins: (number & 0x0fff_ffff) as u32,
    }
}

/// The word of these parts.
pub(crate) fn write_word(word: Word) -> u64
    requires { IsWord word }
    ensures { result ≡ number_of word }
{
    (u64::from(word.generation) << 32)
        + (u64::from(word.live) << 31)
        + (u64::from(word.unlinked) << 30)
        + (u64::from(word.unused) << 28)
        + u64::from(word.pins)
}

/// The number of a word, where there is one.
pub(crate) fn written(word: Option<Word>) -> Option<u64>
    requires { IfSome word IsWord }
    ensures { result ≡ numbered word }
{
    match word {
        Some(word) => Some(write_word(word)),
        None => None,
    }
}

/// A law: each number of 64 bits is one word, and each word is one number of 64 bits.
pub fn each_number_is_one_word()
    ensures { WordsAreNumbers }
{}
