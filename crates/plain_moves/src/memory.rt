// What is in memory, looked up and changed.

ghost use Rattle.std.specs.Prelude.{◌≡◌, ◌+◌, ◌<◌, ◌^◌, ◌/◌, IfOk, None, Some, length, map, slice_index_or, slice_set};
ghost use Rattle.life_limits.specs.declared.TheConstants.{GROUP_NUMBERS};
ghost use Rattle.actor_world.specs.Caches.{actor_at, bring_in, brought, cache_at, clean_numbers, clean_of, copied_slot, copy_all, ended, first_slot, is_clean, is_of_geometry, locked, make_dirty, moved_to, put_inode, put_word, slot_at, unlocked, with_actor, with_cache, with_queue, with_slot};

use actor_world::{Doing, GroupCache, Memory, Place, Residence, Slot};
use life_limits::{BLOCK_SECTORS, GROUP_NUMBERS};
use life_ports::NoMemory;
use life_table::{Key, Listed, Table};
use slot_words::Word;
use std::alloc::Global;
use std::mem;

/// The slot of a number that no group has.
const FIRST_SLOT: Slot = Slot {
    word: Word {
        generation: 0,
        live: false,
        unlinked: false,
        unused: 0,
        pins: 0,
    },
    inode: Residence::Absent,
};

/// The group of a number.
pub(crate) fn group_of(number: u64) -> u64
    ensures { result ≡ number / GROUP_NUMBERS }
{
    number / u64::from(GROUP_NUMBERS)
}

/// The memory with this call, or none, at an actor.
pub fn with_doing(memory: Memory, a: u32, doing: Option<Doing>) -> Memory
    ensures { result ≡ with_actor a (record { doing = doing; queue = (actor_at memory a).queue }) memory }
{
    let Memory { actors, groups } = memory;
    let mut actors = actors.into_vec();
    let a = a as usize;
    if a < actors.len() {
        actors[a].doing = doing;
    }
    Memory {
        actors: Listed::from_vec(actors),
        groups,
    }
}

/// The actor's call stands at another place.
pub(crate) fn moved_to(memory: Memory, a: u32, doing: &Doing, place: Place) -> Memory
    ensures { result ≡ moved_to a doing.now place memory }
{
    let doing = Doing {
        call: doing.call,
        place,
        from: doing.from,
    };
    with_doing(memory, a, Some(doing))
}

/// The actor's call has ended.
pub(crate) fn ended(memory: Memory, a: u32) -> Memory
    ensures { result ≡ ended a memory }
{
    with_doing(memory, a, None)
}

/// The actor has this queue.
pub(crate) fn with_queue(memory: Memory, a: u32, queue: Listed<Key>) -> Memory
    ensures { result ≡ with_queue a queue memory }
{
    let Memory { actors, groups } = memory;
    let mut actors = actors.into_vec();
    let a = a as usize;
    if a < actors.len() {
        actors[a].queue = queue;
    }
    Memory {
        actors: Listed::from_vec(actors),
        groups,
    }
}

fn with_holder(memory: Memory, g: u64, holder: Option<u32>) -> Memory
    ensures { result ≡ with_cache g (record { slots = (cache_at memory g).slots; holder = holder }) memory }
{
    let Memory { actors, groups } = memory;
    let mut groups = groups.into_vec();
    let g = g as usize;
    if g < groups.len() {
        groups[g].holder = holder;
    }
    Memory {
        actors,
        groups: Listed::from_vec(groups),
    }
}

/// The group's lock is taken.
pub(crate) fn locked(memory: Memory, g: u64, a: u32) -> Memory
    ensures { result ≡ locked a g memory }
{
    with_holder(memory, g, Some(a))
}

/// The group's lock is given back.
pub(crate) fn unlocked(memory: Memory, g: u64) -> Memory
    ensures { result ≡ unlocked g memory }
{
    with_holder(memory, g, None)
}

/// The slot of a number.
pub(crate) fn slot_at(memory: &Memory, number: u64) -> Slot
    ensures { result ≡ slot_at memory.now number }
{
    match memory.groups.as_slice().get(group_of(number) as usize) {
        Some(cache) => slot_in(cache, (number % u64::from(GROUP_NUMBERS)) as usize),
        None => FIRST_SLOT,
    }
}

fn slot_in(cache: &GroupCache, place: usize) -> Slot
    ensures { result ≡ slice_index_or cache.now.slots place first_slot }
{
    match cache.slots.as_slice().get(place) {
        Some(slot) => *slot,
        None => FIRST_SLOT,
    }
}

fn set_slot(alloc: Global, cache: &mut GroupCache, place: usize, slot: Slot)
    ensures { cache.new ≡ record { slots = slice_set cache.old.slots place slot; holder = cache.old.holder } }
{
    let mut slots = mem::replace(&mut cache.slots, Listed::new(alloc)).into_vec();
    if place < slots.len() {
        slots[place] = slot;
    }
    cache.slots = Listed::from_vec(slots);
}

fn with_slot(alloc: Global, memory: Memory, number: u64, slot: Slot) -> Memory
    ensures { result ≡ with_slot number slot memory }
{
    let Memory { actors, groups } = memory;
    let mut groups = groups.into_vec();
    let g = group_of(number) as usize;
    if g < groups.len() {
        let place = (number % u64::from(GROUP_NUMBERS)) as usize;
        set_slot(alloc, &mut groups[g], place, slot);
    }
    Memory {
        actors,
        groups: Listed::from_vec(groups),
    }
}

/// A word in the place of a number's word, where there is one to put there.
pub(crate) fn put_word(alloc: Global, memory: Memory, number: u64, word: Option<Word>) -> Memory
    ensures { result ≡ put_word number word memory }
{
    let Some(word) = word else {
        return memory;
    };
    let inode = slot_at(&memory, number).inode;
    with_slot(alloc, memory, number, Slot { word, inode })
}

/// The number's inode is in core like this.
pub(crate) fn put_inode(alloc: Global, memory: Memory, number: u64, inode: Residence) -> Memory
    ensures { result ≡ put_inode number inode memory }
{
    let word = slot_at(&memory, number).word;
    with_slot(alloc, memory, number, Slot { word, inode })
}

fn brought(inode: Residence) -> Residence
    ensures { result ≡ brought inode }
{
    match inode {
        Residence::Absent | Residence::Clean => Residence::Clean,
        Residence::Dirty => Residence::Dirty,
    }
}

/// The number's inode is in core.
pub(crate) fn bring_in(alloc: Global, memory: Memory, number: u64) -> Memory
    ensures { result ≡ bring_in number memory }
{
    let inode = brought(slot_at(&memory, number).inode);
    put_inode(alloc, memory, number, inode)
}

/// The number's inode is in core and dirty.
pub(crate) fn make_dirty(alloc: Global, memory: Memory, number: u64) -> Memory
    ensures { result ≡ make_dirty number memory }
{
    put_inode(alloc, memory, number, Residence::Dirty)
}

fn copied_slot(slot: Slot) -> Slot
    ensures { result ≡ copied_slot slot }
{
    let inode = match slot.inode {
        Residence::Absent => Residence::Absent,
        Residence::Clean | Residence::Dirty => Residence::Clean,
    };
    Slot {
        word: slot.word,
        inode,
    }
}

fn copied_slots(alloc: Global, slots: &[Slot]) -> Result<Vec<Slot>, NoMemory>
    ensures { IfOk result (λ copy. copy.items ≡ map copied_slot slots.now) }
{
    let mut copy = Vec::new(alloc);
    for slot in slots {
        copy.push(copied_slot(*slot))?;
    }
    Ok(copy)
}

/// All dirty inodes of a group are copied.
pub(crate) fn copy_all(alloc: Global, memory: Memory, g: u64) -> Result<Memory, NoMemory>
    ensures { IfOk result (λ after. after ≡ copy_all g memory) }
{
    let Memory { actors, groups } = memory;
    let mut groups = groups.into_vec();
    let g = g as usize;
    if g < groups.len() {
        let slots = copied_slots(alloc, groups[g].slots.as_slice())?;
        groups[g].slots = Listed::from_vec(slots);
    }
    Ok(Memory {
        actors,
        groups: Listed::from_vec(groups),
    })
}

fn is_clean(inode: Residence) -> bool
    ensures { result ≡ is_clean inode }
{
    matches!(&inode, Residence::Clean)
}

fn clean_numbers(alloc: Global, first: u64, slots: &[Slot]) -> Result<Vec<u64>, NoMemory>
    requires { first + length slots.now < 2 ^ 64 }
    ensures { IfOk result (λ numbers. numbers.items ≡ clean_numbers first slots.now) }
{
    let mut numbers = Vec::new(alloc);
    for (place, slot) in slots.iter().enumerate() {
        if is_clean(slot.inode) {
            numbers.push(first + place as u64)?;
        }
    }
    Ok(numbers)
}

/// The numbers of the clean inodes in core of a group, ascending.
pub(crate) fn clean_of(alloc: Global, memory: &Memory, g: u32) -> Result<Vec<u64>, NoMemory>
    ensures { IfOk result (λ numbers. numbers.items ≡ clean_of memory.now g) }
{
    let first = u64::from(g) * u64::from(GROUP_NUMBERS);
    match memory.groups.as_slice().get(g as usize) {
        Some(cache) => clean_numbers(alloc, first, cache.slots.as_slice()),
        None => Ok(Vec::new(alloc)),
    }
}

/// Whether the number is of the geometry.
pub(crate) fn is_of_geometry(table: &Table, number: u64) -> bool
    ensures { result ≡ is_of_geometry table.now number }
{
    let blocks = table.blocks;
    group_of(number) < table.groups.as_slice().len() as u64
        && number % u64::from(GROUP_NUMBERS) < u64::from(blocks) * u64::from(BLOCK_SECTORS)
}
