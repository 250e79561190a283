// The steps of a gc.

ghost use Rattle.std.specs.Prelude.{◌≡◌, ◌∷◌, IfOk, is_some};
ghost use Rattle.actor_world.specs.Moves.{gc_move, head_move, head_place, passed};
ghost use Rattle.life_table.specs.Table.{row_of};

use crate::copies::copy_keys;
use crate::memory::{ended, group_of, locked, moved_to, unlocked, with_queue};
use crate::moves::{Moved, answers, silent};
use crate::room::{free_key, killed};
use actor_world::{Doing, Memory, Place};
use life_ports::NoMemory;
use life_table::{Key, Listed, Reply};
use plain_table::PlainTable;
use std::alloc::Global;

/// Where a gc goes on that has taken the lock of a key's group.
fn head_place(table: &PlainTable, key: Key) -> Place
    ensures { result ≡ head_place (row_of table.now key) }
{
    match table.row(key) {
        Some(_) => Place::FreeHead,
        None => Place::Pass,
    }
}

/// Gives back the lock, and takes the key off the queue.
fn passed(
    alloc: Global,
    key: Key,
    keys: &[Key],
    a: u32,
    doing: &Doing,
    memory: Memory,
) -> Result<Moved, NoMemory>
    ensures { IfOk result (λ move. move ≡ passed key keys.now a doing.now memory) }
{
    let memory = unlocked(memory, group_of(key.number));
    if keys.is_empty() {
        let memory = with_queue(memory, a, Listed::new(alloc));
        return Ok(answers(doing, Reply::Done, ended(memory, a)));
    }
    let memory = with_queue(memory, a, copy_keys(alloc, keys)?);
    Ok(silent(moved_to(memory, a, doing, Place::Next)))
}

/// A step at the first key of the queue.
fn head_move(
    alloc: Global,
    key: Key,
    keys: &[Key],
    a: u32,
    doing: &Doing,
    table: &PlainTable,
    memory: Memory,
) -> Result<Option<Moved>, NoMemory>
    ensures { IfOk result (λ move. move ≡ head_move key keys.now doing.now.place a doing.now table.now memory) }
{
    match &doing.place {
        Place::Next => {
            let memory = locked(memory, group_of(key.number), a);
            Ok(Some(silent(moved_to(memory, a, doing, head_place(table, key)))))
        }
        Place::FreeHead => {
            let memory = moved_to(memory, a, doing, Place::KillHead);
            Ok(Some(free_key(alloc, key, memory)))
        }
        Place::KillHead => {
            let memory = killed(alloc, key, memory);
            Ok(Some(silent(moved_to(memory, a, doing, Place::Pass))))
        }
        Place::Pass => Ok(Some(passed(alloc, key, keys, a, doing, memory)?)),
        _ => Ok(None),
    }
}

/// A step of a gc.
pub(crate) fn gc_move(
    alloc: Global,
    queue: &[Key],
    a: u32,
    doing: &Doing,
    table: &PlainTable,
    memory: Memory,
) -> Result<Option<Moved>, NoMemory>
    ensures { IfOk result (λ move. move ≡ gc_move queue.now doing.now.place a doing.now table.now memory) }
{
    if let Some((key, keys)) = queue.split_first() {
        return head_move(alloc, *key, keys, a, doing, table, memory);
    }
    match &doing.place {
        Place::Next => Ok(Some(answers(doing, Reply::Done, ended(memory, a)))),
        _ => Ok(None),
    }
}
