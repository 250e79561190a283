// A cache for the tests, and the calls on it, which keep who is of which cache.
ghost use Rattle.std.specs.Prelude.{◌≡◌, ◌<◌, IfOk, IfSome};
ghost use Rattle.tests_words.specs.Parts.{HasPin, KeepsWords, IsOpened, IsSession, one_group};

use geometry::Geometry;
use life_ports::NoMemory;
use life_table::Key;
use slot_words::read_word;
use std::alloc::Global;
use word_table::{Cache, CacheParts, Duty, Keeper, Pin, Session, TryOpen, make_cache};

/// How many inodes the image has, from number 0 on.
pub const NUMBERS: u64 = 512;

/// A new cache of an image with one group, three sessions, and the keeper of the group.
#[derive(Drop)]
pub struct Parts {
    pub cache: Cache,
    pub first: Session,
    pub second: Session,
    pub third: Session,
    pub keeper: Keeper,
}

fn geometry() -> Geometry
    ensures { result ≡ one_group }
{
    Geometry {
        version: 1,
        groups: 1,
        blocks: 64,
        ring: 256,
        uuid: [0; 16],
    }
}

pub fn new_parts(alloc: Global) -> Result<Parts, NoMemory>
    ensures first { IfOk result (λ p. IsSession p.cache p.first) }
    ensures second { IfOk result (λ p. IsSession p.cache p.second) }
    ensures third { IfOk result (λ p. IsSession p.cache p.third) }
    ensures keeper { IfOk result (λ p. KeepsWords p.cache p.keeper) }
{
    let parts = make_cache(alloc, &geometry(), 3)?;
    let CacheParts {
        cache,
        mut sessions,
        mut keepers,
    } = parts;
    Ok(Parts {
        cache,
        first: sessions.remove(0),
        second: sessions.remove(0),
        third: sessions.remove(0),
        keeper: keepers.remove(0),
    })
}

/// The word of an inode.
pub fn look(cache: &Cache, session: &mut Session, number: u64) -> u64
    requires session { IsSession cache.now session.old }
    requires number { number < 512 }
    ensures { IsSession cache.now session.new }
{
    session.load(cache, number)
}

pub fn open(cache: &Cache, session: &mut Session, key: Key) -> TryOpen
    requires session { IsSession cache.now session.old }
    requires number { key.number < 512 }
    ensures session { IsSession cache.now session.new }
    ensures opened { IsOpened key result session.new }
{
    session.try_open(cache, key)
}

pub fn close(cache: &Cache, session: &mut Session, pin: Pin) -> Option<Duty>
    requires session { IsSession cache.now session.old }
    requires number { pin.number < 512 }
    requires pin { HasPin session.old pin }
    ensures { IsSession cache.now session.new }
{
    session.release(cache, pin)
}

/// Brings an inode into the cache, where its word shows that it is not there.
pub fn bring_in(
    cache: &Cache,
    keeper: &mut Keeper,
    session: &mut Session,
    key: Key,
    unlinked: bool,
) -> Option<Pin>
    requires keeper { KeepsWords cache.now keeper.old }
    requires session { IsSession cache.now session.old }
    requires number { key.number < 512 }
    ensures keeper { KeepsWords cache.now keeper.new }
    ensures session { IsSession cache.now session.new }
    ensures pin { IfSome result (λ pin. (pin ≡ key) × HasPin session.new key) }
{
    let word = read_word(keeper.load(cache, key.number));
    if word.live {
        return None;
    }
    Some(keeper.install(cache, session, key, unlinked))
}

pub fn retire(cache: &Cache, keeper: &mut Keeper, number: u64) -> bool
    requires keeper { KeepsWords cache.now keeper.old }
    requires number { number < 512 }
    ensures { KeepsWords cache.now keeper.new }
{
    keeper.retire(cache, number)
}

pub fn kill(cache: &Cache, keeper: &mut Keeper, key: Key) -> bool
    requires keeper { KeepsWords cache.now keeper.old }
    requires number { key.number < 512 }
    ensures { KeepsWords cache.now keeper.new }
{
    keeper.kill(cache, key)
}

// Marks an inode of which the keeper has a pin, or takes its mark away.
fn set_mark(cache: &Cache, keeper: &mut Keeper, pin: &Pin, unlinked: bool)
    requires keeper { KeepsWords cache.now keeper.old }
    requires number { pin.now.number < 512 }
    requires pin { HasPin keeper.old pin.now }
    ensures keeper { KeepsWords cache.now keeper.new }
    ensures pin { HasPin keeper.new pin.now }
{
    if unlinked {
        keeper.mark(cache, pin);
    } else {
        keeper.unmark(cache, pin);
    }
}

/// Marks a held inode, or takes its mark away, as a keeper does: with the session's pin.
pub fn remark(cache: &Cache, keeper: &mut Keeper, session: &mut Session, pin: &Pin, unlinked: bool)
    requires keeper { KeepsWords cache.now keeper.old }
    requires session { IsSession cache.now session.old }
    requires number { pin.now.number < 512 }
    requires pin { HasPin session.old pin.now }
    ensures keeper { KeepsWords cache.now keeper.new }
    ensures session { IsSession cache.now session.new }
    ensures pin { HasPin session.new pin.now }
{
    keeper.take_pin(cache, session, pin);
    set_mark(cache, keeper, pin, unlinked);
    keeper.return_pin(cache, session, pin);
}
