// Two threads open and close one inode while a keeper changes its word.
ghost use Rattle.std.specs.Prelude.{◌<◌, ◌≤◌, ◌^◌};
ghost use Rattle.tests_words.specs.Parts.{KeepsWords, IsSession};

use crate::caches::{NUMBERS, Parts, bring_in, close, kill, look, new_parts, open, remark, retire};
use life_table::Key;
use slot_words::read_word;
use std::test::Fail;
use std::thread::{Threads, join};
use word_table::{Cache, Keeper, Session, TryOpen};

const KEY: Key = Key {
    number: 192,
    generation: 1,
};

const ROUNDS: u32 = 20_000;

/// In so many last rounds a pin is not given up.
const KEPT_ROUNDS: u32 = 5;

/// Opens and closes the inode, and answers how many pins are out in the end.
fn visit(cache: &Cache, mut session: Session) -> u32
    requires { IsSession cache.now session }
    ensures { result < 2 ^ 16 }
{
    let mut out = 0u32;
    for round in 0..ROUNDS {
        if let TryOpen::Pinned { pin } = open(cache, &mut session, KEY) {
            if round < ROUNDS - KEPT_ROUNDS {
                close(cache, &mut session, pin);
            } else {
                out += 1;
            }
        }
    }
    out
}

// Changes the word of the inode in a way that it shows to be possible.
fn change(cache: &Cache, keeper: &mut Keeper, session: &mut Session)
    requires keeper { KeepsWords cache.now keeper.old }
    requires session { IsSession cache.now session.old }
    ensures keeper { KeepsWords cache.now keeper.new }
    ensures session { IsSession cache.now session.new }
{
    let word = read_word(look(cache, session, KEY.number));
    if let Some(pin) = bring_in(cache, keeper, session, KEY, word.unlinked) {
        close(cache, session, pin);
        return;
    }
    if let TryOpen::Pinned { pin } = open(cache, session, KEY) {
        remark(cache, keeper, session, &pin, !word.unlinked);
        close(cache, session, pin);
        return;
    }
    kill(cache, keeper, KEY);
}

/// Changes the word and retires the inode again and again.
fn keep(cache: &Cache, mut keeper: Keeper, mut session: Session) -> Session
    requires keeper { KeepsWords cache.now keeper }
    requires session { IsSession cache.now session }
    ensures { IsSession cache.now result }
{
    for _round in 0..ROUNDS {
        change(cache, &mut keeper, &mut session);
        retire(cache, &mut keeper, KEY.number);
    }
    session
}

/// The keeper beside one thread that visits the inode.
fn keep_visited<R: Threads + Sync>(
    rt: &R,
    cache: &Cache,
    keeper: Keeper,
    session: Session,
    visitor: Session,
) -> (Session, u32)
    requires keeper { KeepsWords cache.now keeper }
    requires session { IsSession cache.now session }
    requires visitor { IsSession cache.now visitor }
    ensures session { IsSession cache.now result.0 }
    ensures out { result.1 < 2 ^ 16 }
{
    join(
        rt,
        move || -> Session
            requires { KeepsWords cache.now keeper × IsSession cache.now session }
            ensures { IsSession cache.entry.now result }
        { keep(cache, keeper, session) },
        move || -> u32
            requires { IsSession cache.now visitor }
            ensures { result < 2 ^ 16 }
        { visit(cache, visitor) },
    )
}

/// The first inode whose word has other pins than are out, where these are pins of one inode.
fn first_wrong(cache: &Cache, mut session: Session, out: u32) -> Option<u64>
    requires { IsSession cache.now session }
{
    for number in 0..NUMBERS {
        let word = read_word(look(cache, &mut session, number));
        let pins = if number == KEY.number { out } else { 0 };
        if word.pins != pins {
            return Some(number);
        }
    }
    None
}

#[test]
fn every_word_has_the_pins_that_are_out(rt: HostRuntime) -> Result<(), Fail> {
    let Parts {
        cache,
        first,
        second,
        third,
        keeper,
    } = new_parts(rt.alloc())?;
    let shared = &cache;
    let host = &rt;
    let ((session, more), out) = join(
        host,
        move || -> (Session, u32)
            requires { KeepsWords shared.now keeper × IsSession shared.now first × IsSession shared.now second }
            ensures { IsSession shared.entry.now result.0 × (result.1 < 2 ^ 16) }
        { keep_visited(host, shared, keeper, first, second) },
        move || -> u32
            requires { IsSession shared.now third }
            ensures { result < 2 ^ 16 }
        { visit(shared, third) },
    );
    assert_eq!(rt; first_wrong(&cache, session, out + more), None);
    Ok(())
}
