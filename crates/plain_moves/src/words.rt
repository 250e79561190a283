// The steps of a word, part by part.

ghost use Rattle.std.specs.Prelude.{◌≡◌};
ghost use Rattle.slot_words.specs.Steps.{after_close, after_install, after_kill, after_mark, after_open, after_retire, can_open, is_awaiting, is_cached, is_pinned, sight_of};
ghost use Rattle.actor_world.specs.Caches.{same_word};

use life_limits::MAX_PINS;
use slot_words::{Sight, Word};

fn is_cached(generation: u32, word: Word) -> bool
    ensures { result ≡ is_cached generation word }
{
    word.live && word.generation == generation
}

fn is_awaiting(generation: u32, word: Word) -> bool
    ensures { result ≡ is_awaiting generation word }
{
    is_cached(generation, word) && word.unlinked && word.pins == 0
}

fn can_open(generation: u32, word: Word) -> bool
    ensures { result ≡ can_open generation word }
{
    is_cached(generation, word) && word.pins < MAX_PINS && !is_awaiting(generation, word)
}

fn is_pinned(word: Word) -> bool
    ensures { result ≡ is_pinned word }
{
    word.live && 0 < word.pins
}

/// What an open of this generation sees of a word.
pub(crate) fn sight_of(generation: u32, word: Word) -> Sight
    ensures { result ≡ sight_of generation word }
{
    if can_open(generation, word) {
        Sight::Open
    } else if is_cached(generation, word) && word.pins == MAX_PINS {
        Sight::Crowded
    } else if is_awaiting(generation, word) {
        Sight::Awaits
    } else {
        Sight::Other
    }
}

/// The word with a pin more.
pub(crate) fn after_open(generation: u32, word: Word) -> Option<Word>
    ensures { result ≡ after_open generation word }
{
    if !can_open(generation, word) {
        return None;
    }
    Some(Word {
        pins: word.pins + 1,
        ..word
    })
}

/// The word with a pin less.
pub(crate) fn after_close(word: Word) -> Option<Word>
    ensures { result ≡ after_close word }
{
    if !is_pinned(word) {
        return None;
    }
    Some(Word {
        pins: word.pins - 1,
        ..word
    })
}

/// The word with this mark.
pub(crate) fn after_mark(unlinked: bool, word: Word) -> Option<Word>
    ensures { result ≡ after_mark unlinked word }
{
    if !is_pinned(word) {
        return None;
    }
    Some(Word { unlinked, ..word })
}

/// The word of an inode that comes into the cache with one pin.
pub(crate) fn after_install(generation: u32, unlinked: bool, word: Word) -> Option<Word>
    ensures { result ≡ after_install generation unlinked word }
{
    if word.live {
        return None;
    }
    Some(Word {
        generation,
        live: true,
        unlinked,
        pins: 1,
        ..word
    })
}

/// The word of an inode that leaves the cache.
pub(crate) fn after_retire(word: Word) -> Option<Word>
    ensures { result ≡ after_retire word }
{
    if !word.live || word.unlinked || word.pins != 0 {
        return None;
    }
    Some(Word {
        live: false,
        ..word
    })
}

/// The word of an inode that was freed.
pub(crate) fn after_kill(generation: u32, word: Word) -> Option<Word>
    ensures { result ≡ after_kill generation word }
{
    if !is_awaiting(generation, word) {
        return None;
    }
    Some(Word {
        live: false,
        unlinked: false,
        ..word
    })
}

/// Whether a word is as it was seen.
pub(crate) fn same_word(word: Word, seen: Word) -> bool
    ensures { result ≡ same_word word seen }
{
    word.generation == seen.generation
        && word.live == seen.live
        && word.unlinked == seen.unlinked
        && word.unused == seen.unused
        && word.pins == seen.pins
}
