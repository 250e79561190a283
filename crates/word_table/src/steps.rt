// The steps on a word, one call of the table each.
ghost use Rattle.std.specs.Prelude.{◌≡◌, ◌<◌, ◌^◌, ◌≤◌, ℕ, true, false, Some};
ghost use mathlib.Core.Option.{none};
ghost use Rattle.atomic_table.specs.Table.{step};
ghost use Rattle.geometry.specs.Places.{anchor_of};
ghost use Rattle.slot_words.specs.Words.{numbered};
ghost use Rattle.slot_words.specs.Steps.{after_open};
ghost use Rattle.word_table.specs.Words.{parts_of};
ghost use Rattle.word_table.specs.Known.{times, pinned, unpinned, with_looks, Keeps};
ghost use Rattle.word_table.specs.Steps.{CanChange, CanInstall, Closed, WordChanged, Installed, Looked, Pinned, Remarked};

use crate::rule::{
    Carry, Change, Front, Install, LookAt, Mark, PinOne, Unmark, Unpin, WordSeat, Words,
};
use slot_words::each_number_is_one_word;

// Loads the word.
pub fn look(words: &Words, seat: &mut WordSeat, place: usize) -> u64
    requires seat { seat.old.table_id ≡ words.now.table_id }
    requires words { words.now.table_id.words ≡ anchor_of words.now.key }
    requires inside { place < anchor_of words.now.key }
    ensures seat { seat.new.table_id ≡ seat.old.table_id }
    ensures step { Looked (step words.now.table_id.slots place 0 0 none) seat.old.me result seat.new.me }
{
    words.load::<LookAt>(seat, place)
}

// Puts one pin on the word, where it is still `seen`.
pub fn pin(
    words: &Words,
    seat: &mut WordSeat,
    place: usize,
    seen: u64,
    next: u64,
    generation: u32,
) -> u64
    requires seat { seat.old.table_id ≡ words.now.table_id }
    requires words { words.now.table_id.words ≡ anchor_of words.now.key }
    requires inside { place < anchor_of words.now.key }
    requires next { Some next ≡ numbered (after_open generation (parts_of seen)) }
    ensures seat { seat.new.table_id ≡ seat.old.table_id }
    ensures step { Pinned (step words.now.table_id.slots place seen next none) seat.old.me result seat.new.me }
{
    each_number_is_one_word();
    words.compare_exchange::<PinOne>(seat, place, seen, next)
}

// Takes one pin off the word, and answers the word that was found.
pub fn unpin(words: &Words, seat: &mut WordSeat, place: usize, generation: u32) -> u64
    requires seat { seat.old.table_id ≡ words.now.table_id }
    requires words { words.now.table_id.words ≡ anchor_of words.now.key }
    requires inside { place < anchor_of words.now.key }
    requires pin { 1 ≤ times place generation seat.old.me.0.pins }
    ensures seat { seat.new.table_id ≡ seat.old.table_id }
    ensures stays { let known = unpinned place generation seat.old.me.0 in
        seat.new.me.0 ≡ with_looks seat.new.me.0.looks known }
    ensures step { (left : ℕ) × Closed place generation seat.old.me result left seat.new.me }
{
    each_number_is_one_word();
    words.fetch_sub::<Unpin>(seat, place, 1)
}

// Carries a pin from one seat to another. This is the one place in which knowledge goes from seat to seat.
pub fn carry(words: &Words, from: &mut WordSeat, to: &mut WordSeat, place: usize, generation: u32)
    requires from { from.old.table_id ≡ words.now.table_id }
    requires to { to.old.table_id ≡ words.now.table_id }
    requires words { words.now.table_id.words ≡ anchor_of words.now.key }
    requires inside { place < anchor_of words.now.key }
    requires pin { 1 ≤ times place generation from.old.me.0.pins }
    ensures seats { (from.new.table_id ≡ from.old.table_id) × (to.new.table_id ≡ to.old.table_id) }
    ensures from { from.new.me ≡ (unpinned place generation from.old.me.0, from.old.me.1) }
    ensures to { to.new.me ≡ (pinned place generation to.old.me.0, to.old.me.1) }
{
    words.load::<Front>(from, place);
    let one = words.split_seat::<Carry>(from);
    words.join_seat::<Carry>(to, one);
}

// Exchanges a word without pins, where it is still `seen`.
pub fn change(words: &Words, seat: &mut WordSeat, place: usize, seen: u64, next: u64) -> u64
    requires seat { seat.old.table_id ≡ words.now.table_id }
    requires words { words.now.table_id.words ≡ anchor_of words.now.key }
    requires inside { place < anchor_of words.now.key }
    requires keeps { Keeps seat.old.me.0 place }
    requires next { CanChange seen next }
    ensures seat { seat.new.table_id ≡ seat.old.table_id }
    ensures step { WordChanged (step words.now.table_id.slots place seen next none) seat.old.me result seat.new.me }
{
    words.compare_exchange::<Change>(seat, place, seen, next)
}

// Brings an inode into the cache, where the word is still `seen`.
pub fn put_in(words: &Words, seat: &mut WordSeat, place: usize, seen: u64, next: u64) -> u64
    requires seat { seat.old.table_id ≡ words.now.table_id }
    requires words { words.now.table_id.words ≡ anchor_of words.now.key }
    requires inside { place < anchor_of words.now.key }
    requires keeps { Keeps seat.old.me.0 place }
    requires next { CanInstall seen next }
    ensures seat { seat.new.table_id ≡ seat.old.table_id }
    ensures step { Installed (step words.now.table_id.slots place seen next none) seat.old.me result seat.new.me }
{
    words.compare_exchange::<Install>(seat, place, seen, next)
}

// The bit of the mark, and all others.
const MARK: u64 = 0x4000_0000;

const NO_MARK: u64 = 0xffff_ffff_bfff_ffff;

// Sets the mark, and answers the word that was found.
pub fn set_mark(words: &Words, seat: &mut WordSeat, place: usize, generation: u32) -> u64
    requires seat { seat.old.table_id ≡ words.now.table_id }
    requires words { words.now.table_id.words ≡ anchor_of words.now.key }
    requires inside { place < anchor_of words.now.key }
    requires keeps { Keeps seat.old.me.0 place }
    requires pin { 1 ≤ times place generation seat.old.me.0.pins }
    ensures seat { seat.new.table_id ≡ seat.old.table_id }
    ensures stays { seat.new.me.0 ≡ with_looks seat.new.me.0.looks seat.old.me.0 }
    ensures step { (next : ℕ) × Remarked true place generation seat.old.me result next seat.new.me }
{
    each_number_is_one_word();
    words.fetch_or::<Mark>(seat, place, MARK)
}

// Takes the mark away, and answers the word that was found.
pub fn clear_mark(words: &Words, seat: &mut WordSeat, place: usize, generation: u32) -> u64
    requires seat { seat.old.table_id ≡ words.now.table_id }
    requires words { words.now.table_id.words ≡ anchor_of words.now.key }
    requires inside { place < anchor_of words.now.key }
    requires keeps { Keeps seat.old.me.0 place }
    requires pin { 1 ≤ times place generation seat.old.me.0.pins }
    ensures seat { seat.new.table_id ≡ seat.old.table_id }
    ensures stays { seat.new.me.0 ≡ with_looks seat.new.me.0.looks seat.old.me.0 }
    ensures step { (next : ℕ) × Remarked false place generation seat.old.me result next seat.new.me }
{
    each_number_is_one_word();
    words.fetch_and::<Unmark>(seat, place, NO_MARK)
}
