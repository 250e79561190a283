// The steps of an open.

ghost use Rattle.std.specs.Prelude.{◌≡◌, false};
ghost use Rattle.std.specs.Option.{option_copied};
ghost use Rattle.life_table.specs.declared.types.Reply.TheVariants.{Done};
ghost use Rattle.actor_world.specs.declared.memory.Place.TheVariants.{Leave};
ghost use Rattle.actor_world.specs.Caches.{bring_in, moved_to};
ghost use Rattle.actor_world.specs.Moves.{answers, found, installed, leave, load, open_move, pin, pin_locked, pinned, saw_locked};

use crate::memory::{
    bring_in, ended, group_of, is_of_geometry, locked, moved_to, put_word, slot_at, unlocked,
};
use crate::moves::{Moved, answers, silent};
use crate::words::{after_install, after_open, same_word, sight_of};
use actor_world::{Doing, Memory, Place};
use life_table::{Key, Reply, Row, Table};
use plain_table::PlainTable;
use slot_words::{Sight, Word};
use std::alloc::Global;

/// Loads the word.
fn load(key: Key, a: u32, doing: &Doing, table: &Table, memory: Memory) -> Moved
    ensures { result ≡ load key a doing.now table.now memory }
{
    if !is_of_geometry(table, key.number) {
        return answers(doing, Reply::Stale, ended(memory, a));
    }
    let word = slot_at(&memory, key.number).word;
    match sight_of(key.generation, word) {
        Sight::Open => silent(moved_to(memory, a, doing, Place::Pin { seen: word })),
        Sight::Crowded => answers(doing, Reply::Crowded, ended(memory, a)),
        Sight::Awaits | Sight::Other => silent(moved_to(memory, a, doing, Place::Find)),
    }
}

/// The memory with a pin more on the word.
fn pinned(alloc: Global, key: Key, memory: Memory) -> Memory
    ensures { result ≡ pinned key memory }
{
    let word = after_open(key.generation, slot_at(&memory, key.number).word);
    put_word(alloc, memory, key.number, word)
}

/// Exchanges the word that was seen.
fn pin(alloc: Global, key: Key, seen: Word, a: u32, doing: &Doing, memory: Memory) -> Moved
    ensures { result ≡ pin key seen a doing.now memory }
{
    if !same_word(slot_at(&memory, key.number).word, seen) {
        return silent(moved_to(memory, a, doing, Place::Find));
    }
    answers(doing, Reply::Done, ended(pinned(alloc, key, memory), a))
}

/// Finds the row, under the lock.
fn found(row: Option<&Row>, a: u32, doing: &Doing, memory: Memory) -> Moved
    ensures { result ≡ found (option_copied row.entry) a doing.now memory }
{
    if row.is_some() {
        return silent(moved_to(memory, a, doing, Place::LoadLocked));
    }
    let place = Place::Leave {
        reply: Reply::Stale,
    };
    answers(doing, Reply::Stale, moved_to(memory, a, doing, place))
}

/// Loads the word under the lock.
fn saw_locked(sight: Sight, word: Word, a: u32, doing: &Doing, memory: Memory) -> Moved
    ensures { result ≡ saw_locked sight word a doing.now memory }
{
    match sight {
        Sight::Open => silent(moved_to(memory, a, doing, Place::PinLocked { seen: word })),
        Sight::Crowded => {
            let place = Place::Leave {
                reply: Reply::Crowded,
            };
            answers(doing, Reply::Crowded, moved_to(memory, a, doing, place))
        }
        Sight::Awaits => {
            let place = Place::Leave {
                reply: Reply::Stale,
            };
            answers(doing, Reply::Stale, moved_to(memory, a, doing, place))
        }
        Sight::Other => silent(moved_to(memory, a, doing, Place::Install)),
    }
}

/// Exchanges the word that was seen under the lock.
fn pin_locked(alloc: Global, key: Key, seen: Word, a: u32, doing: &Doing, memory: Memory) -> Moved
    ensures { result ≡ pin_locked key seen a doing.now memory }
{
    if !same_word(slot_at(&memory, key.number).word, seen) {
        return silent(moved_to(memory, a, doing, Place::LoadLocked));
    }
    let place = Place::Leave { reply: Reply::Done };
    let memory = pinned(alloc, key, memory);
    answers(doing, Reply::Done, moved_to(memory, a, doing, place))
}

/// The memory with a live word with one pin.
pub(crate) fn installed(alloc: Global, key: Key, unlinked: bool, memory: Memory) -> Memory
    ensures { result ≡ installed key unlinked memory }
{
    let word = after_install(key.generation, unlinked, slot_at(&memory, key.number).word);
    put_word(alloc, memory, key.number, word)
}

/// Puts the inode in core, and its word in place.
fn install(alloc: Global, key: Key, a: u32, doing: &Doing, memory: Memory) -> Moved
    ensures { result ≡ answers doing.now Done (moved_to a doing.now (Leave Done) (installed key false (bring_in key.number memory))) }
{
    let memory = installed(alloc, key, false, bring_in(alloc, memory, key.number));
    let place = Place::Leave { reply: Reply::Done };
    answers(doing, Reply::Done, moved_to(memory, a, doing, place))
}

/// Gives back the group's lock, which ends the call.
pub(crate) fn leave(g: u64, a: u32, memory: Memory) -> Moved
    ensures { result ≡ leave g a memory }
{
    silent(ended(unlocked(memory, g), a))
}

/// A step of an open.
pub(crate) fn open_move(
    alloc: Global,
    key: Key,
    a: u32,
    doing: &Doing,
    table: &PlainTable,
    memory: Memory,
) -> Option<Moved>
    ensures { result ≡ open_move key doing.now.place a doing.now table.now memory }
{
    let group = group_of(key.number);
    match &doing.place {
        Place::Load => Some(load(key, a, doing, table.table(), memory)),
        Place::Pin { seen } => Some(pin(alloc, key, *seen, a, doing, memory)),
        Place::Find => {
            let memory = locked(memory, group, a);
            Some(found(table.row(key), a, doing, memory))
        }
        Place::LoadLocked => {
            let word = slot_at(&memory, key.number).word;
            let sight = sight_of(key.generation, word);
            Some(saw_locked(sight, word, a, doing, memory))
        }
        Place::PinLocked { seen } => Some(pin_locked(alloc, key, *seen, a, doing, memory)),
        Place::Install => Some(install(alloc, key, a, doing, memory)),
        Place::Leave { .. } => Some(leave(group, a, memory)),
        _ => None,
    }
}
