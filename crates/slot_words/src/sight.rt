//! What an open sees of a word.

ghost use Rattle.std.specs.Prelude.{◌≡◌, ◌<◌, ◌^◌};
ghost use Rattle.slot_words.specs.Words.{word_of};
ghost use Rattle.slot_words.specs.Steps.{SightsAreExact, sight_of};

use crate::word::{Word, read_word};
use life_limits::MAX_PINS;

/// What a word shows to somebody who wants to open the inode of some generation.
#[derive(Clone, Copy, Debug, PartialEq, Eq)]
pub enum Sight {
    /// It can be opened.
    Open,
    /// It is in the cache, and has as many pins as a word can have.
    Crowded,
    /// It is in the cache, has no links and no pins, and waits to be freed.
    Awaits,
    /// Another generation or none is in the cache.
    Other,
}

pub(crate) fn sight_of(word: Word, generation: u32) -> Sight
    requires { word.pins < 2 ^ 28 }
    ensures { result ≡ sight_of generation word }
{
    if !word.live || word.generation != generation {
        Sight::Other
    } else if word.pins == MAX_PINS {
        Sight::Crowded
    } else if word.unlinked && word.pins == 0 {
        Sight::Awaits
    } else {
        Sight::Open
    }
}

/// What a word shows to somebody who wants to open the inode of this generation.
pub fn shows(word: u64, generation: u32) -> Sight
    ensures { result ≡ sight_of generation (word_of word) }
{
    sight_of(read_word(word), generation)
}

/// A law: each sight says one thing of a word.
pub fn each_sight_says_one_thing()
    ensures { SightsAreExact }
{}
