// What a keeper does at a place, in two steps each.
ghost use Rattle.std.specs.Prelude.{◌≡◌, ◌<◌, ◌≤◌, false, true};
ghost use Rattle.geometry.specs.Places.{anchor_of};
ghost use Rattle.slot_words.specs.Steps.{is_awaiting};
ghost use Rattle.word_table.specs.Words.{parts_of};
ghost use Rattle.word_table.specs.Known.{Keeps, last_of, pinned, times, unpinned, with_looks};
ghost use Rattle.word_table.specs.Replies.{IsInstalled, IsInstalledHeld, IsTaken, Killed, Retired};

use crate::rule::{WordSeat, Words};
use crate::steps::{carry, change, look, put_in};
use crate::words::{installed, killed, retired};
use slot_words::each_number_is_one_word;

// Takes a pin over, and looks at the word.
pub fn take_over(
    words: &Words,
    from: &mut WordSeat,
    to: &mut WordSeat,
    place: usize,
    generation: u32,
)
    requires from { from.old.table_id ≡ words.now.table_id }
    requires to { to.old.table_id ≡ words.now.table_id }
    requires words { words.now.table_id.words ≡ anchor_of words.now.key }
    requires inside { place < anchor_of words.now.key }
    requires keeps { Keeps to.old.me.0 place }
    requires pin { 1 ≤ times place generation from.old.me.0.pins }
    ensures seats { (from.new.table_id ≡ from.old.table_id) × (to.new.table_id ≡ to.old.table_id) }
    ensures from { from.new.me ≡ (unpinned place generation from.old.me.0, from.old.me.1) }
    ensures slots { to.new.me.1 ≡ to.old.me.1 }
    ensures stays { let known = pinned place generation to.old.me.0 in
        to.new.me.0 ≡ with_looks to.new.me.0.looks known }
    ensures taken { IsTaken place generation to.old.me.0 to.new.me.0 }
{
    carry(words, from, to, place, generation);
    look(words, to, place);
}

// Brings an inode into the cache, with a pin that the keeper has.
pub fn bring_in(words: &Words, seat: &mut WordSeat, place: usize, generation: u32, unlinked: bool)
    requires seat { seat.old.table_id ≡ words.now.table_id }
    requires words { words.now.table_id.words ≡ anchor_of words.now.key }
    requires inside { place < anchor_of words.now.key }
    requires keeps { Keeps seat.old.me.0 place }
    requires away { (parts_of (last_of place seat.old.me.0.looks)).live ≡ false }
    ensures seat { seat.new.table_id ≡ seat.old.table_id }
    ensures slots { seat.new.me.1 ≡ seat.old.me.1 }
    ensures held { IsInstalledHeld place generation unlinked seat.old.me.0 seat.new.me.0 }
{
    each_number_is_one_word();
    let seen = look(words, seat, place);
    let Some(next) = installed(seen, generation, unlinked) else {
        unreachable!()
    };
    put_in(words, seat, place, seen, next);
}

// Brings an inode into the cache, and hands the pin on.
pub fn install_at(
    words: &Words,
    seat: &mut WordSeat,
    to: &mut WordSeat,
    place: usize,
    generation: u32,
    unlinked: bool,
)
    requires seat { seat.old.table_id ≡ words.now.table_id }
    requires to { to.old.table_id ≡ words.now.table_id }
    requires words { words.now.table_id.words ≡ anchor_of words.now.key }
    requires inside { place < anchor_of words.now.key }
    requires keeps { Keeps seat.old.me.0 place }
    requires away { (parts_of (last_of place seat.old.me.0.looks)).live ≡ false }
    ensures seats { (seat.new.table_id ≡ seat.old.table_id) × (to.new.table_id ≡ to.old.table_id) }
    ensures slots { seat.new.me.1 ≡ seat.old.me.1 }
    ensures stays { seat.new.me.0 ≡ with_looks seat.new.me.0.looks seat.old.me.0 }
    ensures installed { IsInstalled place generation unlinked seat.old.me.0 seat.new.me.0 }
    ensures to { to.new.me ≡ (pinned place generation to.old.me.0, to.old.me.1) }
{
    bring_in(words, seat, place, generation, unlinked);
    carry(words, seat, to, place, generation);
}

// Takes an inode with links and without pins out of the cache.
pub fn retire_at(words: &Words, seat: &mut WordSeat, place: usize) -> bool
    requires seat { seat.old.table_id ≡ words.now.table_id }
    requires words { words.now.table_id.words ≡ anchor_of words.now.key }
    requires inside { place < anchor_of words.now.key }
    requires keeps { Keeps seat.old.me.0 place }
    ensures seat { seat.new.table_id ≡ seat.old.table_id }
    ensures slots { seat.new.me.1 ≡ seat.old.me.1 }
    ensures stays { seat.new.me.0 ≡ with_looks seat.new.me.0.looks seat.old.me.0 }
    ensures retired { Retired place seat.old.me.0 result seat.new.me.0 }
{
    each_number_is_one_word();
    let seen = look(words, seat, place);
    let Some(next) = retired(seen) else {
        return false;
    };
    change(words, seat, place, seen, next) == seen
}

// Takes an inode that waits to be freed out of the cache.
pub fn kill_at(words: &Words, seat: &mut WordSeat, place: usize, generation: u32) -> bool
    requires seat { seat.old.table_id ≡ words.now.table_id }
    requires words { words.now.table_id.words ≡ anchor_of words.now.key }
    requires inside { place < anchor_of words.now.key }
    requires keeps { Keeps seat.old.me.0 place }
    ensures seat { seat.new.table_id ≡ seat.old.table_id }
    ensures slots { seat.new.me.1 ≡ seat.old.me.1 }
    ensures stays { seat.new.me.0 ≡ with_looks seat.new.me.0.looks seat.old.me.0 }
    ensures killed { Killed place generation seat.old.me.0 result seat.new.me.0 }
    ensures awaited { is_awaiting generation (parts_of (last_of place seat.old.me.0.looks)) ≡ true → result ≡ true }
{
    each_number_is_one_word();
    let seen = look(words, seat, place);
    let Some(next) = killed(seen, generation) else {
        return false;
    };
    change(words, seat, place, seen, next) == seen
}
