// The steps of a flush and of a reclaim.

ghost use Rattle.std.specs.Prelude.{◌≡◌, IfOk};
ghost use Rattle.actor_world.specs.Moves.{end_house, flush_move, reclaim_move, retired, with_inodes};

use crate::copies::copy_numbers;
use crate::memory::{
    clean_of, copy_all, ended, locked, moved_to, put_inode, put_word, slot_at, unlocked,
};
use crate::moves::{Moved, answers, silent};
use crate::words::after_retire;
use actor_world::{Doing, Memory, Place, Residence};
use life_ports::NoMemory;
use life_table::{Reply, Table};
use slot_words::Word;
use std::alloc::Global;

/// Gives back the lock, which ends the call.
fn end_house(g: u32, a: u32, doing: &Doing, memory: Memory) -> Moved
    ensures { result ≡ end_house g a doing.now memory }
{
    answers(doing, Reply::Done, ended(unlocked(memory, u64::from(g)), a))
}

/// A step of a flush.
pub(crate) fn flush_move(
    alloc: Global,
    g: u32,
    a: u32,
    doing: &Doing,
    table: &Table,
    memory: Memory,
) -> Result<Option<Moved>, NoMemory>
    ensures { IfOk result (λ move. move ≡ flush_move g doing.now.place a doing.now table.now memory) }
{
    match &doing.place {
        Place::LockFlush => {
            let memory = locked(memory, u64::from(g), a);
            Ok(Some(silent(moved_to(memory, a, doing, Place::Copy))))
        }
        Place::Copy => {
            let memory = copy_all(alloc, memory, u64::from(g))?;
            Ok(Some(silent(moved_to(memory, a, doing, Place::End))))
        }
        Place::End => Ok(Some(end_house(g, a, doing, memory))),
        _ => Ok(None),
    }
}

/// Where a reclaim goes on, with these inodes to look at.
fn with_inodes(alloc: Global, numbers: &[u64]) -> Result<Place, NoMemory>
    ensures { IfOk result (λ place. place ≡ with_inodes numbers.now) }
{
    match numbers.split_first() {
        Some((number, others)) => Ok(Place::Retire {
            number: *number,
            others: copy_numbers(alloc, others)?,
        }),
        None => Ok(Place::End),
    }
}

/// The memory without an inode whose word may leave the cache.
fn retired(alloc: Global, number: u64, word: Option<Word>, memory: Memory) -> Memory
    ensures { result ≡ retired number word memory }
{
    if word.is_none() {
        return memory;
    }
    let memory = put_word(alloc, memory, number, word);
    put_inode(alloc, memory, number, Residence::Absent)
}

/// A step of a reclaim.
pub(crate) fn reclaim_move(
    alloc: Global,
    g: u32,
    a: u32,
    doing: &Doing,
    table: &Table,
    memory: Memory,
) -> Result<Option<Moved>, NoMemory>
    ensures { IfOk result (λ move. move ≡ reclaim_move g doing.now.place a doing.now table.now memory) }
{
    match &doing.place {
        Place::LockReclaim => {
            let numbers = clean_of(alloc, &memory, g)?;
            let place = with_inodes(alloc, &numbers)?;
            let memory = locked(memory, u64::from(g), a);
            Ok(Some(silent(moved_to(memory, a, doing, place))))
        }
        Place::Retire { number, others } => {
            let place = with_inodes(alloc, others.as_slice())?;
            let word = after_retire(slot_at(&memory, *number).word);
            let memory = retired(alloc, *number, word, memory);
            Ok(Some(silent(moved_to(memory, a, doing, place))))
        }
        Place::End => Ok(Some(end_house(g, a, doing, memory))),
        _ => Ok(None),
    }
}
