// The functions of the words, by the parts of a word.
ghost use Rattle.std.specs.Prelude.{◌≡◌};
ghost use Rattle.slot_words.specs.Words.{numbered};
ghost use Rattle.slot_words.specs.Steps.{after_install, after_kill, after_open, after_retire, sight_of};
ghost use Rattle.word_table.specs.Words.{parts_of};

use slot_words::{Sight, Word, install_of, kill_of, open_of, read_word, retire_of, shows};

#[tactic(auto, unfolding(crate::specs::Words::parts_of))]
pub fn parts(word: u64) -> Word
    ensures { result ≡ parts_of word }
{
    read_word(word)
}

#[tactic(auto, unfolding(crate::specs::Words::parts_of))]
pub fn sight(word: u64, generation: u32) -> Sight
    ensures { result ≡ sight_of generation (parts_of word) }
{
    shows(word, generation)
}

#[tactic(auto, unfolding(crate::specs::Words::parts_of))]
pub fn opened(word: u64, generation: u32) -> Option<u64>
    ensures { result ≡ numbered (after_open generation (parts_of word)) }
{
    open_of(word, generation)
}

#[tactic(auto, unfolding(crate::specs::Words::parts_of))]
pub fn installed(word: u64, generation: u32, unlinked: bool) -> Option<u64>
    ensures { result ≡ numbered (after_install generation unlinked (parts_of word)) }
{
    install_of(word, generation, unlinked)
}

#[tactic(auto, unfolding(crate::specs::Words::parts_of))]
pub fn retired(word: u64) -> Option<u64>
    ensures { result ≡ numbered (after_retire (parts_of word)) }
{
    retire_of(word)
}

#[tactic(auto, unfolding(crate::specs::Words::parts_of))]
pub fn killed(word: u64, generation: u32) -> Option<u64>
    ensures { result ≡ numbered (after_kill generation (parts_of word)) }
{
    kill_of(word, generation)
}
