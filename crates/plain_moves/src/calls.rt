// The steps of a close, a stat, a link, an unlink and a cut.

ghost use Rattle.std.specs.Prelude.{◌≡◌, IfOk, slice_index_or};
ghost use Rattle.actor_world.specs.Caches.{actor_at};
ghost use Rattle.actor_world.specs.Moves.{change, change_move, close_move, dirtied, is_last_release, let_go, marked, release_queue, stat_move};
ghost use Rattle.life_table.specs.Legal.{IsOfTable};
ghost use Rattle.life_table.specs.Replies.{reply_of};

use crate::copies::copy_reply;
use crate::marks::{changed, links_of, place_after_change, sets_mark};
use crate::memory::{ended, group_of, locked, make_dirty, moved_to, put_word, slot_at, with_queue};
use crate::moves::{Moved, answers, silent};
use crate::open::leave;
use crate::words::{after_close, after_mark};
use actor_world::{Doing, Memory, Place};
use life_ports::NoMemory;
use life_table::{Call, Key, Listed, Reply};
use plain_table::PlainTable;
use slot_words::Word;
use std::alloc::Global;

fn is_last_release(word: Word) -> bool
    ensures { result ≡ is_last_release word }
{
    word.pins == 1 && word.unlinked
}

/// The queue, which the key joins where the close that finds this word is the last one of an inode without links.
fn release_queue(
    alloc: Global,
    key: Key,
    word: Word,
    queue: &[Key],
) -> Result<Listed<Key>, NoMemory>
    ensures { IfOk result (λ after. after ≡ release_queue key word queue.now) }
{
    let mut after = Vec::from_slice(alloc, queue)?;
    if is_last_release(word) {
        after.push(key)?;
    }
    Ok(Listed::from_vec(after))
}

/// Gives up a pin.
fn let_go(
    alloc: Global,
    key: Key,
    a: u32,
    queue: &[Key],
    memory: Memory,
) -> Result<Memory, NoMemory>
    requires { queue.now ≡ (actor_at memory a).queue }
    ensures { IfOk result (λ after. after ≡ let_go key a memory) }
{
    let word = slot_at(&memory, key.number).word;
    let queue = release_queue(alloc, key, word, queue)?;
    let memory = put_word(alloc, memory, key.number, after_close(word));
    Ok(with_queue(memory, a, queue))
}

/// A step of a close.
pub(crate) fn close_move(
    alloc: Global,
    key: Key,
    a: u32,
    doing: &Doing,
    queue: &[Key],
    table: &PlainTable,
    memory: Memory,
) -> Result<Option<Moved>, NoMemory>
    requires { queue.now ≡ (actor_at memory a).queue }
    ensures { IfOk result (λ move. move ≡ close_move key doing.now.place a doing.now table.now memory) }
{
    match &doing.place {
        Place::Unpin => {
            let memory = let_go(alloc, key, a, queue, memory)?;
            Ok(Some(answers(doing, Reply::Done, ended(memory, a))))
        }
        _ => Ok(None),
    }
}

/// A step of a stat.
pub(crate) fn stat_move(
    alloc: Global,
    key: Key,
    a: u32,
    doing: &Doing,
    table: &PlainTable,
    memory: Memory,
) -> Result<Option<Moved>, NoMemory>
    requires { IsOfTable doing.now.call }
    ensures { IfOk result (λ move. move ≡ stat_move key doing.now.place a doing.now table.now memory) }
{
    let group = group_of(key.number);
    match &doing.place {
        Place::Read => {
            let reply = table.reply(alloc, &doing.call)?;
            let place = Place::Leave {
                reply: copy_reply(alloc, &reply)?,
            };
            let memory = moved_to(locked(memory, group, a), a, doing, place);
            Ok(Some(answers(doing, reply, memory)))
        }
        Place::Leave { .. } => Ok(Some(leave(group, a, memory))),
        _ => Ok(None),
    }
}

/// The memory with the inode dirty, where the call changed it.
pub(crate) fn dirtied(alloc: Global, key: Key, call: &Call, reply: &Reply, memory: Memory) -> Memory
    ensures { result ≡ dirtied key call.now reply.now memory }
{
    if changed(call, reply) {
        make_dirty(alloc, memory, key.number)
    } else {
        memory
    }
}

/// Makes the change, or is refused.
fn change(
    alloc: Global,
    key: Key,
    a: u32,
    doing: &Doing,
    table: &PlainTable,
    memory: Memory,
) -> Result<Moved, NoMemory>
    requires { IsOfTable doing.now.call }
    ensures { IfOk result (λ move. move ≡ change key (reply_of table.now doing.now.call) a doing.now table.now memory) }
{
    let reply = table.reply(alloc, &doing.call)?;
    let kept = copy_reply(alloc, &reply)?;
    let place = place_after_change(&doing.call, kept, links_of(table.row(key)));
    let memory = dirtied(alloc, key, &doing.call, &reply, memory);
    Ok(answers(doing, reply, moved_to(memory, a, doing, place)))
}

/// The memory with the mark of the word set, or cleared.
fn marked(alloc: Global, key: Key, call: &Call, memory: Memory) -> Memory
    ensures { result ≡ marked key call.now memory }
{
    let word = after_mark(sets_mark(call), slot_at(&memory, key.number).word);
    put_word(alloc, memory, key.number, word)
}

/// A step of a link, an unlink or a cut.
pub(crate) fn change_move(
    alloc: Global,
    key: Key,
    a: u32,
    doing: &Doing,
    table: &PlainTable,
    memory: Memory,
) -> Result<Option<Moved>, NoMemory>
    requires { IsOfTable doing.now.call }
    ensures { IfOk result (λ move. move ≡ change_move key doing.now.place a doing.now table.now memory) }
{
    let group = group_of(key.number);
    match &doing.place {
        Place::Lock => {
            let memory = locked(memory, group, a);
            Ok(Some(silent(moved_to(memory, a, doing, Place::Change))))
        }
        Place::Change => Ok(Some(change(alloc, key, a, doing, table, memory)?)),
        Place::Mark { reply } => {
            let place = Place::Leave {
                reply: copy_reply(alloc, reply)?,
            };
            let memory = marked(alloc, key, &doing.call, memory);
            Ok(Some(silent(moved_to(memory, a, doing, place))))
        }
        Place::Leave { .. } => Ok(Some(leave(group, a, memory))),
        _ => Ok(None),
    }
}
