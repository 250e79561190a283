// Sessions: opens and closes without a lock.
ghost use Rattle.std.specs.Prelude.{◌≡◌, ◌≢◌, ◌≤◌, IsOk};
ghost use Rattle.geometry.specs.Places.{IsInodeNumber, place_of};
ghost use Rattle.word_table.specs.Known.{looked, times, unpinned, with_looks};
ghost use Rattle.word_table.specs.Steps.{Holds};
ghost use Rattle.word_table.specs.Replies.{IsRefusal, Released, Tried};
ghost use Rattle.word_table.specs.Words.{parts_of, IsRight};
ghost use Rattle.slot_words.specs.declared.sight.Sight.TheVariants.{Open};
ghost use Rattle.slot_words.specs.Steps.{sight_of};

use crate::cache::{Cache, Duty, Pin};
use crate::rule::WordSeat;
use crate::steps::{look, pin, unpin};
use crate::words::{opened, parts, sight};
use life_ports::NoMemory;
use life_table::Key;
use slot_words::Sight;
use std::marker::Model;

/// Who opens and closes inodes in one thread at a time.
///
/// Contracts see the cache that it belongs to and what it knows: its pins, and each word that it loaded, found, or left by a
/// release.
#[derive(Drop)]
pub struct Session {
    pub(crate) seat: WordSeat,
}

impl Model for Session {
    ghost use Rattle.std.specs.Prelude.{◌≡◌, []};
    ghost use Rattle.word_table.specs.Ends.{SeatState, seat_state};

    ghost Value = { SeatState };

    ghost view = { λ s. seat_state s.seat.table_id s.seat.me.0 };

    ghost invariant = { λ s. s.seat.me.1 ≡ [] };
}

/// What came of a try to open an inode.
#[derive(Drop)]
pub enum TryOpen {
    /// It is open.
    Pinned { pin: Pin },
    /// The word does not show it: whoever has the group's lock decides.
    Ask { seen: u64 },
    /// It could be opened by the word that was seen, and another step came between.
    Raced { seen: u64, found: u64 },
    /// It has as many holders as a word can have.
    Crowded,
}

impl Session {
    /// Makes room for one more pin. Pins take no memory, so there always is.
    pub fn reserve(&mut self) -> Result<(), NoMemory>
        ensures ok { IsOk result }
        ensures stays { self.new ≡ self.old }
    {
        Ok(())
    }

    /// Loads the word of an inode.
    pub fn load(&mut self, cache: &Cache, number: u64) -> u64
        requires cache { self.old.cache ≡ cache.now.name }
        requires inside { IsInodeNumber cache.now.geometry number }
        ensures looked { let place = place_of cache.now.geometry number in
            self.new ≡ record self.old { known = looked place result self.old.known } }
        ensures holds { Holds (place_of cache.now.geometry number) self.old.known result }
        ensures right { IsRight (parts_of result) }
    {
        let place = cache.place(number);
        look(&cache.table.shared, &mut self.seat, place)
    }

    /// Opens an inode that is in the cache: one load, and one exchange where the word shows it. It never waits.
    pub fn try_open(&mut self, cache: &Cache, key: Key) -> TryOpen
        requires cache { self.old.cache ≡ cache.now.name }
        requires inside { IsInodeNumber cache.now.geometry key.number }
        ensures cache { self.new.cache ≡ self.old.cache }
        ensures tried { Tried (place_of cache.now.geometry key.number) key self.old.known result self.new.known }
    {
        let seen = self.load(cache, key.number);
        let Some(next) = opened(seen, key.generation) else {
            return refused(seen, key.generation);
        };
        let place = cache.place(key.number);
        let words = &cache.table.shared;
        let found = pin(words, &mut self.seat, place, seen, next, key.generation);
        if found == seen {
            TryOpen::Pinned { pin: Pin { key } }
        } else {
            TryOpen::Raced { seen, found }
        }
    }

    /// Gives up a hold. A duty comes where it was the last one on an inode without links.
    pub fn release(&mut self, cache: &Cache, pin: Pin) -> Option<Duty>
        requires cache { self.old.cache ≡ cache.now.name }
        requires inside { IsInodeNumber cache.now.geometry pin.number }
        requires pin { 1 ≤ times (place_of cache.now.geometry pin.number) pin.generation self.old.known.pins }
        ensures stays { let place = place_of cache.now.geometry pin.number in
            let known = unpinned place pin.generation self.old.known in
            self.new ≡ record self.old { known = with_looks self.new.known.looks known } }
        ensures released { Released (place_of cache.now.geometry pin.number) pin self.old.known result self.new.known }
    {
        let Pin { key } = pin;
        let place = cache.place(key.number);
        let found = unpin(&cache.table.shared, &mut self.seat, place, key.generation);
        let word = parts(found);
        if word.unlinked && word.pins == 1 {
            Some(Duty { key })
        } else {
            None
        }
    }
}

// Why the word that was seen is not opened.
fn refused(seen: u64, generation: u32) -> TryOpen
    requires { sight_of generation (parts_of seen) ≢ Open }
    ensures { IsRefusal generation seen result }
{
    if let Sight::Crowded = sight(seen, generation) {
        TryOpen::Crowded
    } else {
        TryOpen::Ask { seen }
    }
}
