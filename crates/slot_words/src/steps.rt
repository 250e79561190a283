//! The word that stands in a word's place after a step.

ghost use Rattle.std.specs.Prelude.{◌≡◌, ◌<◌, ◌^◌, true, false, IfSome};
ghost use Rattle.slot_words.specs.declared.word.Word.{Word};
ghost use Rattle.slot_words.specs.Words.{IsWord, numbered, word_of};
ghost use Rattle.slot_words.specs.Steps.{StepsLeaveWords, after_close, after_install, after_kill, after_mark, after_open, after_retire};

use crate::sight::{Sight, sight_of};
use crate::word::{Word, read_word, written};

fn opened(word: Word, generation: u32) -> Option<Word>
    requires { IsWord word }
    ensures next { result ≡ after_open generation word }
    ensures fits { IfSome result IsWord }
{
    if sight_of(word, generation) != Sight::Open {
        return None;
    }
    Some(Word {
        pins: word.pins + 1,
        ..word
    })
}

fn closed(word: Word) -> Option<Word>
    requires { IsWord word }
    ensures next { result ≡ after_close word }
    ensures fits { IfSome result IsWord }
{
    if !word.live || word.pins == 0 {
        return None;
    }
    Some(Word {
        pins: word.pins - 1,
        ..word
    })
}

/// The word with this mark, where somebody holds the inode.
fn with_mark(word: Word, unlinked: bool) -> Option<Word>
    requires { IsWord word }
    ensures next { result ≡ after_mark unlinked word }
    ensures fits { IfSome result IsWord }
{
    if !word.live || word.pins == 0 {
        return None;
    }
    Some(Word { unlinked, ..word })
}

fn installed(word: Word, generation: u32, unlinked: bool) -> Option<Word>
    requires { IsWord word }
    ensures next { result ≡ after_install generation unlinked word }
    ensures fits { IfSome result IsWord }
{
    if word.live {
        return None;
    }
    Some(Word {
        generation,
        live: true,
        unlinked,
        pins: 1,
        ..word
    })
}

fn retired(word: Word) -> Option<Word>
    requires { IsWord word }
    ensures next { result ≡ after_retire word }
    ensures fits { IfSome result IsWord }
{
    if !word.live || word.unlinked || word.pins != 0 {
        return None;
    }
    Some(Word {
        live: false,
        ..word
    })
}

fn killed(word: Word, generation: u32) -> Option<Word>
    requires { IsWord word }
    ensures next { result ≡ after_kill generation word }
    ensures fits { IfSome result IsWord }
{
    if sight_of(word, generation) != Sight::Awaits {
        return None;
    }
    Some(Word {
        live: false,
        unlinked: false,
        ..word
    })
}

/// The word with one pin more: the inode of this generation is in the cache and has fewer than 2^28 - 1 pins, and it has
/// links or is held.
pub fn open_of(word: u64, generation: u32) -> Option<u64>
    ensures { result ≡ numbered (after_open generation (word_of word)) }
{
    written(opened(read_word(word), generation))
}

/// The word with one pin less: the inode is in the cache and held.
pub fn close_of(word: u64) -> Option<u64>
    ensures { result ≡ numbered (after_close (word_of word)) }
{
    written(closed(read_word(word)))
}

/// The word marked as unlinked: the inode is in the cache and held.
pub fn mark_of(word: u64) -> Option<u64>
    ensures { result ≡ numbered (after_mark true (word_of word)) }
{
    written(with_mark(read_word(word), true))
}

/// The word not marked as unlinked: the inode is in the cache and held.
pub fn unmark_of(word: u64) -> Option<u64>
    ensures { result ≡ numbered (after_mark false (word_of word)) }
{
    written(with_mark(read_word(word), false))
}

/// The word of an inode that comes into the cache with one pin, where none is there.
pub fn install_of(word: u64, generation: u32, unlinked: bool) -> Option<u64>
    ensures { result ≡ numbered (after_install generation unlinked (word_of word)) }
{
    written(installed(read_word(word), generation, unlinked))
}

/// The word of an inode that leaves the cache: it has links, and nobody holds it. Its generation stays.
pub fn retire_of(word: u64) -> Option<u64>
    ensures { result ≡ numbered (after_retire (word_of word)) }
{
    written(retired(read_word(word)))
}

/// The word of an inode that was freed: of this generation, without links, and held by nobody. The generation stays.
pub fn kill_of(word: u64, generation: u32) -> Option<u64>
    ensures { result ≡ numbered (after_kill generation (word_of word)) }
{
    written(killed(read_word(word), generation))
}

/// A law: what a step leaves is a word, so its number is read as that word.
pub fn steps_leave_words()
    ensures { (word : Word) → IsWord word → StepsLeaveWords word }
{}
