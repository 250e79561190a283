// The next step of an actor.

ghost use Rattle.std.specs.Prelude.{◌≡◌, IfOk};
ghost use Rattle.actor_world.specs.Caches.{actor_at};
ghost use Rattle.actor_world.specs.Moves.{answers, call_move, doing_move, first_place, frees, group_of_call, move_of, silent, takes_group, waits_in_group};

use crate::calls::{change_move, close_move, stat_move};
use crate::copies::copy_memory;
use crate::gc::gc_move;
use crate::house::{flush_move, reclaim_move};
use crate::memory::group_of;
use crate::open::open_move;
use crate::room::{create_move, grow_move};
use actor_world::{Doing, Memory, Place};
use life_ports::NoMemory;
use life_table::{Call, Event, Key, Reply};
use plain_table::PlainTable;
use std::alloc::Global;
use std::marker::Model;

/// What a step comes to: what happened, and what is in memory then. Contracts see it as the model of actors does.
#[derive(Drop)]
pub struct Moved {
    event: Option<Event>,
    memory: Memory,
}

impl Model for Moved {
    ghost use Rattle.actor_world.specs.Moves.{Move};

    ghost Value = { Move };

    ghost view = { λ m. record { event = m.event; memory = m.memory } };
}

impl Moved {
    /// What happened, and what is in memory then.
    pub fn into_parts(self) -> (Option<Event>, Memory)
        ensures event { result.0 ≡ self.event }
        ensures memory { result.1 ≡ self.memory }
    {
        let Moved { event, memory } = self;
        (event, memory)
    }
}

/// Nothing happened.
pub(crate) fn silent(memory: Memory) -> Moved
    ensures { result ≡ silent memory }
{
    Moved {
        event: None,
        memory,
    }
}

/// The call was answered.
pub(crate) fn answers(doing: &Doing, reply: Reply, memory: Memory) -> Moved
    ensures { result ≡ answers doing.now reply memory }
{
    let call = doing.call;
    Moved {
        event: Some(Event::Called { call, reply }),
        memory,
    }
}

/// A row was freed.
pub(crate) fn frees(key: Key, memory: Memory) -> Moved
    ensures { result ≡ frees key memory }
{
    Moved {
        event: Some(Event::Freed { key }),
        memory,
    }
}

/// The first place of a call.
pub fn first_place(call: &Call) -> Place
    ensures { result ≡ first_place call.now }
{
    match call {
        Call::Create { .. } | Call::Tmpfile { .. } | Call::Grow { .. } => Place::LockShort,
        Call::OpenKey { .. } => Place::Load,
        Call::CloseKey { .. } => Place::Unpin,
        Call::Link { .. } | Call::Unlink { .. } | Call::Cut { .. } => Place::Lock,
        Call::Stat { .. } => Place::Read,
        Call::Sync => Place::Take,
        Call::Home => Place::TakeLog,
        Call::Gc => Place::Next,
        Call::FlushInodes { .. } => Place::LockFlush,
        Call::Reclaim { .. } => Place::LockReclaim,
    }
}

/// The group of a call; of a gc that of the first key of the queue.
fn group_of_call(queue: &[Key], call: &Call) -> Option<u64>
    ensures { result ≡ group_of_call queue.now call.now }
{
    match *call {
        Call::Create { group }
        | Call::Tmpfile { group }
        | Call::FlushInodes { group }
        | Call::Reclaim { group } => Some(u64::from(group)),
        Call::OpenKey { key }
        | Call::CloseKey { key }
        | Call::Link { key }
        | Call::Unlink { key }
        | Call::Grow { key, .. }
        | Call::Cut { key, .. }
        | Call::Stat { key } => Some(group_of(key.number)),
        Call::Gc => match queue.split_first() {
            Some((key, _)) => Some(group_of(key.number)),
            None => None,
        },
        Call::Sync | Call::Home => None,
    }
}

/// Whether the step at a place takes a group's lock.
fn takes_group(place: &Place) -> bool
    ensures { result ≡ takes_group place.now }
{
    matches!(
        place,
        Place::Find
            | Place::Read
            | Place::Lock
            | Place::LockShort
            | Place::Next
            | Place::LockFlush
            | Place::LockReclaim
    )
}

/// The actor that holds the group's lock which the step takes.
pub fn waits_in_group(queue: &[Key], doing: &Doing, memory: &Memory) -> Option<u32>
    ensures { result ≡ waits_in_group queue.now doing.now memory.now }
{
    if !takes_group(&doing.place) {
        return None;
    }
    let group = group_of_call(queue, &doing.call)?;
    match memory.groups.as_slice().get(group as usize) {
        Some(cache) => cache.holder,
        None => None,
    }
}

/// The step of a call at its place, its lock being free where it takes one.
fn call_move(
    alloc: Global,
    a: u32,
    doing: &Doing,
    queue: &[Key],
    table: &PlainTable,
    memory: Memory,
) -> Result<Option<Moved>, NoMemory>
    requires { queue.now ≡ (actor_at memory a).queue }
    ensures { IfOk result (λ move. move ≡ call_move doing.now.call a doing.now table.now memory) }
{
    match doing.call {
        Call::Create { group } | Call::Tmpfile { group } => {
            create_move(alloc, u64::from(group), a, doing, table, memory)
        }
        Call::OpenKey { key } => Ok(open_move(alloc, key, a, doing, table, memory)),
        Call::CloseKey { key } => close_move(alloc, key, a, doing, queue, table, memory),
        Call::Link { key } | Call::Unlink { key } | Call::Cut { key, .. } => {
            change_move(alloc, key, a, doing, table, memory)
        }
        Call::Grow { key, .. } => grow_move(alloc, key, a, doing, table, memory),
        Call::Stat { key } => stat_move(alloc, key, a, doing, table, memory),
        Call::Gc => gc_move(alloc, queue, a, doing, table, memory),
        Call::FlushInodes { group } => { flush_move(alloc, group, a, doing, table.table(), memory) }
        Call::Reclaim { group } => reclaim_move(alloc, group, a, doing, table.table(), memory),
        Call::Sync | Call::Home => Ok(None),
    }
}

/// The next step of an actor's call that the table and the memory determine; none where it has no call, where its lock is
/// held, and where the log decides.
pub fn move_of(
    alloc: Global,
    a: u32,
    table: &PlainTable,
    memory: &Memory,
) -> Result<Option<Moved>, NoMemory>
    ensures { IfOk result (λ move. move ≡ move_of a table.now memory.now) }
{
    let Some(actor) = memory.actors.as_slice().get(a as usize) else {
        return Ok(None);
    };
    let Some(doing) = &actor.doing else {
        return Ok(None);
    };
    let queue = actor.queue.as_slice();
    if waits_in_group(queue, doing, memory).is_some() {
        return Ok(None);
    }
    let copy = copy_memory(alloc, memory)?;
    call_move(alloc, a, doing, queue, table, copy)
}
