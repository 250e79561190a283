// Many random calls on a group and on the plain program side by side.
ghost use Rattle.std.specs.Prelude.{◌<◌};

use crate::pairs::Pair;
use life_table::{Call, Key, Reply};
use std::alloc::Global;
use std::test::Fail;

/// How many calls are made.
const TURNS: u32 = 2_000;

/// The generation of the first inodes at the begin.
const OLD: u32 = 4_294_967_293;

/// Numbers that come one after another from a seed: a shift register of 64 bits.
#[derive(Drop)]
struct Numbers {
    state: u64,
}

impl Numbers {
    /// A number below so many, which are some.
    fn below(&mut self, count: u32) -> u32 {
        self.state ^= self.state << 13;
        self.state ^= self.state >> 7;
        self.state ^= self.state << 17;
        ((self.state >> 32) % u64::from(count.max(1))) as u32
    }
}

/// What a reply is counted as: each refusal apart, and the first inode of a new chunk.
fn kind_of(reply: &Option<Reply>) -> usize
    ensures { result < 8 }
{
    match reply {
        None => 1,
        Some(Reply::NoInodes) => 2,
        Some(Reply::NoSpace) => 3,
        Some(Reply::NoLinks) => 4,
        Some(Reply::TooManyExtents) => 5,
        Some(Reply::CutTooFar) => 6,
        Some(Reply::Made { key }) if key.number % 64 == 0 && key.generation == 1 => 7,
        Some(_) => 0,
    }
}

/// The key so far from the end.
fn from_end(keys: &[Key], back: u32) -> Key {
    let first = Key {
        number: 192,
        generation: 1,
    };
    keys.iter()
        .rev()
        .nth(back as usize)
        .copied()
        .unwrap_or(first)
}

/// A key that was made: mostly one of so many last ones.
fn pick(numbers: &mut Numbers, keys: &[Key], last: u32) -> Key {
    let among = if numbers.below(8) == 0 { 4_000 } else { last };
    let count = keys.len().min(among as usize) as u32;
    from_end(keys, numbers.below(count))
}

/// The next call where two inodes grow by turns.
fn call_that_grows(roll: u32, key: Key) -> Call {
    match roll {
        0..=5 => Call::Link { key },
        6..=9 => Call::Stat { key },
        10..=12 => Call::Cut { key, count: 1 },
        _ => Call::Grow { key, count: 1 },
    }
}

/// The next call where more is made than taken away.
fn call_that_makes(roll: u32, key: Key, count: u32) -> Call {
    match roll {
        0..=39 => Call::Create { group: 0 },
        40..=59 => Call::Tmpfile { group: 0 },
        60..=69 => Call::Unlink { key },
        70..=77 => Call::Link { key },
        78..=83 => Call::Stat { key },
        _ => Call::Grow { key, count },
    }
}

/// The next call where more is taken away than made.
fn call_that_takes(roll: u32, key: Key, count: u32) -> Call {
    match roll {
        0..=9 => Call::Create { group: 0 },
        10..=17 => Call::Tmpfile { group: 0 },
        18..=57 => Call::Unlink { key },
        58..=60 => Call::Link { key },
        61..=63 => Call::Stat { key },
        64..=93 => Call::Cut { key, count },
        _ => Call::Grow { key, count },
    }
}

/// The next call, whose kind changes every 160 turns.
fn next_call(numbers: &mut Numbers, keys: &[Key], turn: u32) -> Call {
    let roll = numbers.below(100);
    match turn / 160 % 3 {
        0 => call_that_makes(roll, pick(numbers, keys, 8), numbers.below(3)),
        1 => call_that_grows(roll, from_end(keys, turn % 2)),
        _ => call_that_takes(roll, pick(numbers, keys, 24), numbers.below(24)),
    }
}

/// A walk by random calls.
#[derive(Drop)]
struct Walk {
    pair: Pair,
    numbers: Numbers,
    /// The keys that were made, but for most of those that were freed.
    keys: Vec<Key>,
    /// How often each kind of reply came, and how many rows were freed.
    seen: [u32; 8],
    frees: u32,
}

impl Walk {
    /// A group with one file, whose first inodes are near the end of their lives.
    fn begin(alloc: Global) -> Result<Walk, Fail> {
        let mut pair = Pair::new(alloc, true)?;
        pair.call(alloc, Call::Create { group: 0 })?;
        for number in 192..208_u64 {
            pair.store_generation(alloc, number, OLD)?;
        }
        let mut keys = Vec::new(alloc);
        keys.push(Key {
            number: 192,
            generation: OLD,
        })?;
        Ok(Walk {
            pair,
            numbers: Numbers {
                state: 0x9e37_79b9_7f4a_7c15,
            },
            keys,
            seen: [0; 8],
            frees: 0,
        })
    }

    /// Makes the next call.
    fn make(&mut self, alloc: Global, turn: u32) -> Result<(), Fail> {
        let call = next_call(&mut self.numbers, &self.keys, turn);
        let reply = self.pair.call(alloc, call)?;
        let kind = kind_of(&reply);
        self.seen[kind] = self.seen[kind].wrapping_add(1);
        if let Some(Reply::Made { key }) = reply {
            self.keys.push(key)?;
        }
        Ok(())
    }

    /// Frees a row, in one turn of four.
    fn free(&mut self, alloc: Global) -> Result<(), Fail> {
        if self.numbers.below(4) > 0 {
            return Ok(());
        }
        let place = self.numbers.below(3) as usize;
        let Some((freed, _)) = self.pair.free(alloc, place)? else {
            return Ok(());
        };
        self.frees = self.frees.wrapping_add(1);
        if self.numbers.below(8) > 0 {
            self.keys.retain(|key| *key != freed);
        }
        Ok(())
    }

    fn take_turn(&mut self, alloc: Global, turn: u32) -> Result<(), Fail> {
        self.make(alloc, turn)?;
        self.free(alloc)?;
        if turn % 50 == 49 {
            self.pair.flush(self.numbers.below(64).wrapping_add(192));
        }
        Ok(())
    }

    /// Whether each kind of reply came more than once, rows were freed, and numbers had their last life.
    fn saw_all(&self) -> bool {
        self.seen.iter().all(|count| *count > 1) && self.frees > 1 && self.pair.used_up() > 0
    }
}

#[test]
fn two_thousand_calls(rt: HostRuntime) -> Result<(), Fail> {
    let alloc = rt.alloc();
    let mut walk = Walk::begin(alloc)?;
    for turn in 0..TURNS {
        walk.take_turn(alloc, turn)?;
    }
    assert!(rt; walk.saw_all());
    assert!(rt; walk.pair.agrees(alloc)?);
    Ok(())
}
