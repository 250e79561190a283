// Copies of what is in memory.

ghost use Rattle.std.specs.Prelude.{◌≡◌, IfOk};

use actor_world::{Actor, Doing, GroupCache, Memory, Place};
use life_ports::NoMemory;
use life_table::{Key, Listed, Reply};
use std::alloc::Global;

pub(crate) fn copy_keys(alloc: Global, keys: &[Key]) -> Result<Listed<Key>, NoMemory>
    ensures { IfOk result (λ copy. copy ≡ keys.now) }
{
    Ok(Listed::from_vec(Vec::from_slice(alloc, keys)?))
}

pub(crate) fn copy_numbers(alloc: Global, numbers: &[u64]) -> Result<Listed<u64>, NoMemory>
    ensures { IfOk result (λ copy. copy ≡ numbers.now) }
{
    Ok(Listed::from_vec(Vec::from_slice(alloc, numbers)?))
}

pub(crate) fn copy_reply(alloc: Global, reply: &Reply) -> Result<Reply, NoMemory>
    ensures { IfOk result (λ copy. copy ≡ reply.now) }
{
    Ok(match reply {
        Reply::Done => Reply::Done,
        Reply::Made { key } => Reply::Made { key: *key },
        Reply::Shown {
            key,
            links,
            blocks,
            runs,
        } => Reply::Shown {
            key: *key,
            links: *links,
            blocks: *blocks,
            runs: Listed::from_vec(Vec::from_slice(alloc, runs.as_slice())?),
        },
        Reply::Covered { changes } => Reply::Covered { changes: *changes },
        Reply::Stale => Reply::Stale,
        Reply::Crowded => Reply::Crowded,
        Reply::NoInodes => Reply::NoInodes,
        Reply::NoSpace => Reply::NoSpace,
        Reply::TooManyLinks => Reply::TooManyLinks,
        Reply::NoLinks => Reply::NoLinks,
        Reply::TooManyExtents => Reply::TooManyExtents,
        Reply::CutTooFar => Reply::CutTooFar,
        Reply::WriteFault => Reply::WriteFault,
        Reply::FlushFault => Reply::FlushFault,
        Reply::PositionEnd => Reply::PositionEnd,
        Reply::Down { fault } => Reply::Down { fault: *fault },
    })
}

fn copy_place(alloc: Global, place: &Place) -> Result<Place, NoMemory>
    ensures { IfOk result (λ copy. copy ≡ place.now) }
{
    Ok(match place {
        Place::Load => Place::Load,
        Place::Pin { seen } => Place::Pin { seen: *seen },
        Place::Find => Place::Find,
        Place::LoadLocked => Place::LoadLocked,
        Place::PinLocked { seen } => Place::PinLocked { seen: *seen },
        Place::Install => Place::Install,
        Place::Leave { reply } => Place::Leave {
            reply: copy_reply(alloc, reply)?,
        },
        Place::Unpin => Place::Unpin,
        Place::Read => Place::Read,
        Place::Lock => Place::Lock,
        Place::Change => Place::Change,
        Place::Mark { reply } => Place::Mark {
            reply: copy_reply(alloc, reply)?,
        },
        Place::LockShort => Place::LockShort,
        Place::Free { key, others } => Place::Free {
            key: *key,
            others: copy_keys(alloc, others.as_slice())?,
        },
        Place::Kill { key, others } => Place::Kill {
            key: *key,
            others: copy_keys(alloc, others.as_slice())?,
        },
        Place::Answer => Place::Answer,
        Place::InstallMade { key } => Place::InstallMade { key: *key },
        Place::Next => Place::Next,
        Place::FreeHead => Place::FreeHead,
        Place::KillHead => Place::KillHead,
        Place::Pass => Place::Pass,
        Place::LockFlush => Place::LockFlush,
        Place::Copy => Place::Copy,
        Place::LockReclaim => Place::LockReclaim,
        Place::Retire { number, others } => Place::Retire {
            number: *number,
            others: copy_numbers(alloc, others.as_slice())?,
        },
        Place::End => Place::End,
        Place::Take => Place::Take,
        Place::Force => Place::Force,
        Place::TakeLog => Place::TakeLog,
        Place::WriteHome => Place::WriteHome,
    })
}

fn copy_doing(alloc: Global, doing: &Doing) -> Result<Doing, NoMemory>
    ensures { IfOk result (λ copy. copy ≡ doing.now) }
{
    Ok(Doing {
        call: doing.call,
        place: copy_place(alloc, &doing.place)?,
        from: doing.from,
    })
}

fn copy_actor(alloc: Global, actor: &Actor) -> Result<Actor, NoMemory>
    ensures { IfOk result (λ copy. copy ≡ actor.now) }
{
    let doing = match &actor.doing {
        Some(doing) => Some(copy_doing(alloc, doing)?),
        None => None,
    };
    Ok(Actor {
        doing,
        queue: copy_keys(alloc, actor.queue.as_slice())?,
    })
}

fn copy_cache(alloc: Global, cache: &GroupCache) -> Result<GroupCache, NoMemory>
    ensures { IfOk result (λ copy. copy ≡ cache.now) }
{
    Ok(GroupCache {
        slots: Listed::from_vec(Vec::from_slice(alloc, cache.slots.as_slice())?),
        holder: cache.holder,
    })
}

fn copy_actors(alloc: Global, actors: &[Actor]) -> Result<Vec<Actor>, NoMemory>
    ensures { IfOk result (λ copy. copy.items ≡ actors.now) }
{
    let mut copy = Vec::new(alloc);
    for actor in actors {
        copy.push(copy_actor(alloc, actor)?)?;
    }
    Ok(copy)
}

fn copy_caches(alloc: Global, caches: &[GroupCache]) -> Result<Vec<GroupCache>, NoMemory>
    ensures { IfOk result (λ copy. copy.items ≡ caches.now) }
{
    let mut copy = Vec::new(alloc);
    for cache in caches {
        copy.push(copy_cache(alloc, cache)?)?;
    }
    Ok(copy)
}

/// A copy of what is in memory.
pub fn copy_memory(alloc: Global, memory: &Memory) -> Result<Memory, NoMemory>
    ensures { IfOk result (λ copy. copy ≡ memory.now) }
{
    Ok(Memory {
        actors: Listed::from_vec(copy_actors(alloc, memory.actors.as_slice())?),
        groups: Listed::from_vec(copy_caches(alloc, memory.groups.as_slice())?),
    })
}
