// The steps of calls that make room: grow, create and tmpfile.

ghost use Rattle.std.specs.Prelude.{◌≡◌, IfOk, Some};
ghost use Rattle.actor_world.specs.declared.memory.Place.TheVariants.{Answer, LockShort};
ghost use Rattle.actor_world.specs.Moves.{answer_create, create_move, free_key, grow_move, killed, room_move, with_rows_to_free};
ghost use Rattle.life_table.specs.Legal.{IsOfTable};

use crate::calls::dirtied;
use crate::copies::{copy_keys, copy_reply};
use crate::marks::makes_unlinked;
use crate::memory::{group_of, locked, make_dirty, moved_to, put_word, slot_at};
use crate::moves::{Moved, answers, frees, silent};
use crate::open::{installed, leave};
use crate::rows::rows_to_free;
use crate::words::after_kill;
use actor_world::{Doing, Memory, Place};
use life_ports::NoMemory;
use life_table::{Key, Reply};
use plain_table::PlainTable;
use std::alloc::Global;

/// Where the call goes on with these rows to free.
fn with_rows_to_free(alloc: Global, keys: &[Key]) -> Result<Place, NoMemory>
    ensures { IfOk result (λ place. place ≡ with_rows_to_free keys.now) }
{
    match keys.split_first() {
        Some((key, others)) => Ok(Place::Free {
            key: *key,
            others: copy_keys(alloc, others)?,
        }),
        None => Ok(Place::Answer),
    }
}

/// The memory without the word of a row that was freed.
pub(crate) fn killed(alloc: Global, key: Key, memory: Memory) -> Memory
    ensures { result ≡ killed key memory }
{
    let word = after_kill(key.generation, slot_at(&memory, key.number).word);
    put_word(alloc, memory, key.number, word)
}

/// Frees a row, whose inode is dirty then.
pub(crate) fn free_key(alloc: Global, key: Key, memory: Memory) -> Moved
    ensures { result ≡ free_key key memory }
{
    frees(key, make_dirty(alloc, memory, key.number))
}

/// Takes the lock, and finds the rows to free.
fn lock_short(
    alloc: Global,
    g: u64,
    a: u32,
    doing: &Doing,
    table: &PlainTable,
    memory: Memory,
) -> Result<Moved, NoMemory>
    ensures { IfOk result (λ move. Some move ≡ room_move g LockShort a doing.now table.now memory) }
{
    let keys = rows_to_free(alloc, table, &doing.call, g)?;
    let place = with_rows_to_free(alloc, &keys)?;
    let memory = locked(memory, g, a);
    Ok(silent(moved_to(memory, a, doing, place)))
}

/// A step of making room.
fn room_move(
    alloc: Global,
    g: u64,
    a: u32,
    doing: &Doing,
    table: &PlainTable,
    memory: Memory,
) -> Result<Option<Moved>, NoMemory>
    ensures { IfOk result (λ move. move ≡ room_move g doing.now.place a doing.now table.now memory) }
{
    match &doing.place {
        Place::LockShort => Ok(Some(lock_short(alloc, g, a, doing, table, memory)?)),
        Place::Free { key, others } => {
            let place = Place::Kill {
                key: *key,
                others: copy_keys(alloc, others.as_slice())?,
            };
            let memory = moved_to(memory, a, doing, place);
            Ok(Some(free_key(alloc, *key, memory)))
        }
        Place::Kill { key, others } => {
            let place = with_rows_to_free(alloc, others.as_slice())?;
            let memory = killed(alloc, *key, memory);
            Ok(Some(silent(moved_to(memory, a, doing, place))))
        }
        Place::Leave { .. } => Ok(Some(leave(g, a, memory))),
        _ => Ok(None),
    }
}

/// Answers a grow.
fn answer_grow(
    alloc: Global,
    key: Key,
    a: u32,
    doing: &Doing,
    table: &PlainTable,
    memory: Memory,
) -> Result<Moved, NoMemory>
    requires { IsOfTable doing.now.call }
    ensures { IfOk result (λ move. Some move ≡ grow_move key Answer a doing.now table.now memory) }
{
    let reply = table.reply(alloc, &doing.call)?;
    let place = Place::Leave {
        reply: copy_reply(alloc, &reply)?,
    };
    let memory = dirtied(alloc, key, &doing.call, &reply, memory);
    Ok(answers(doing, reply, moved_to(memory, a, doing, place)))
}

/// A step of a grow.
pub(crate) fn grow_move(
    alloc: Global,
    key: Key,
    a: u32,
    doing: &Doing,
    table: &PlainTable,
    memory: Memory,
) -> Result<Option<Moved>, NoMemory>
    requires { IsOfTable doing.now.call }
    ensures { IfOk result (λ move. move ≡ grow_move key doing.now.place a doing.now table.now memory) }
{
    match &doing.place {
        Place::Answer => Ok(Some(answer_grow(alloc, key, a, doing, table, memory)?)),
        _ => room_move(alloc, group_of(key.number), a, doing, table, memory),
    }
}

/// Answers a create: the inode that it made is in core.
fn answer_create(
    alloc: Global,
    a: u32,
    doing: &Doing,
    reply: Reply,
    memory: Memory,
) -> Result<Moved, NoMemory>
    ensures { IfOk result (λ move. move ≡ answer_create reply a doing.now memory) }
{
    match &reply {
        Reply::Made { key } => {
            let place = Place::InstallMade { key: *key };
            let memory = make_dirty(alloc, memory, key.number);
            Ok(answers(doing, reply, moved_to(memory, a, doing, place)))
        }
        _ => {
            let place = Place::Leave {
                reply: copy_reply(alloc, &reply)?,
            };
            Ok(answers(doing, reply, moved_to(memory, a, doing, place)))
        }
    }
}

/// A step of a create or a tmpfile.
pub(crate) fn create_move(
    alloc: Global,
    g: u64,
    a: u32,
    doing: &Doing,
    table: &PlainTable,
    memory: Memory,
) -> Result<Option<Moved>, NoMemory>
    requires { IsOfTable doing.now.call }
    ensures { IfOk result (λ move. move ≡ create_move g doing.now.place a doing.now table.now memory) }
{
    match &doing.place {
        Place::Answer => {
            let reply = table.reply(alloc, &doing.call)?;
            Ok(Some(answer_create(alloc, a, doing, reply, memory)?))
        }
        Place::InstallMade { key } => {
            let place = Place::Leave {
                reply: Reply::Made { key: *key },
            };
            let memory = installed(alloc, *key, makes_unlinked(&doing.call), memory);
            Ok(Some(silent(moved_to(memory, a, doing, place))))
        }
        _ => room_move(alloc, g, a, doing, table, memory),
    }
}
