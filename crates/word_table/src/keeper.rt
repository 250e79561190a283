// Keepers: who has a group's lock changes the group's words.
ghost use Rattle.std.specs.Prelude.{◌≡◌, ◌≤◌, true, false, IsTrue};
ghost use Rattle.geometry.specs.Places.{IsInodeNumber, place_of};
ghost use Rattle.slot_words.specs.Steps.{is_awaiting};
ghost use Rattle.word_table.specs.Words.{parts_of, IsRight, Tells};
ghost use Rattle.word_table.specs.Known.{Keeps, last_of, looked, pinned, times, unpinned, with_looks};
ghost use Rattle.word_table.specs.Steps.{Holds};
ghost use Rattle.word_table.specs.Replies.{IsInstalled, IsRemarked, IsTaken, Killed, Retired};

use crate::cache::{Cache, Pin};
use crate::moves::{install_at, kill_at, retire_at, take_over};
use crate::rule::WordSeat;
use crate::session::Session;
use crate::steps::{carry, clear_mark, look, set_mark};
use life_table::Key;
use std::marker::Model;

/// Who changes the words of one group otherwise than by pins. It lies behind the group's lock.
///
/// Contracts see the cache that it belongs to and what it knows: which words it keeps, the pins that it has at the moment,
/// and each word that it loaded, found or left.
#[derive(Drop)]
pub struct Keeper {
    pub(crate) seat: WordSeat,
}

impl Model for Keeper {
    ghost use Rattle.std.specs.Prelude.{◌≡◌, []};
    ghost use Rattle.word_table.specs.Ends.{SeatState, seat_state};

    ghost Value = { SeatState };

    ghost view = { λ k. seat_state k.seat.table_id k.seat.me.0 };

    ghost invariant = { λ k. k.seat.me.1 ≡ [] };
}

impl Keeper {
    /// Loads a word of the group. It is as the keeper saw or left it last but for its pins, and the same word where it was
    /// away or awaited its free.
    pub fn load(&mut self, cache: &Cache, number: u64) -> u64
        requires cache { self.old.cache ≡ cache.now.name }
        requires inside { IsInodeNumber cache.now.geometry number }
        requires keeps { Keeps self.old.known (place_of cache.now.geometry number) }
        ensures looked { let place = place_of cache.now.geometry number in
            self.new ≡ record self.old { known = looked place result self.old.known } }
        ensures holds { Holds (place_of cache.now.geometry number) self.old.known result }
        ensures right { IsRight (parts_of result) }
        ensures tells { Tells result (last_of (place_of cache.now.geometry number) self.old.known.looks) }
    {
        let place = cache.place(number);
        look(&cache.table.shared, &mut self.seat, place)
    }

    /// Takes a session's pin over, until `return_pin`: while the keeper has it, the inode is in the cache.
    pub fn take_pin(&mut self, cache: &Cache, session: &mut Session, pin: &Pin)
        requires cache { (self.old.cache ≡ cache.now.name) × (session.old.cache ≡ cache.now.name) }
        requires inside { IsInodeNumber cache.now.geometry pin.now.number }
        requires keeps { Keeps self.old.known (place_of cache.now.geometry pin.now.number) }
        requires pin { 1 ≤ times (place_of cache.now.geometry pin.now.number) pin.now.generation session.old.known.pins }
        ensures session { let place = place_of cache.now.geometry pin.now.number in
            session.new ≡ record session.old { known = unpinned place pin.now.generation session.old.known } }
        ensures stays { let place = place_of cache.now.geometry pin.now.number in
            let known = pinned place pin.now.generation self.old.known in
            self.new ≡ record self.old { known = with_looks self.new.known.looks known } }
        ensures taken { IsTaken (place_of cache.now.geometry pin.now.number) pin.now.generation self.old.known self.new.known }
    {
        let key = pin.key();
        let place = cache.place(key.number);
        let words = &cache.table.shared;
        let generation = key.generation;
        take_over(words, &mut session.seat, &mut self.seat, place, generation);
    }

    /// Gives a pin back to a session.
    pub fn return_pin(&mut self, cache: &Cache, session: &mut Session, pin: &Pin)
        requires cache { (self.old.cache ≡ cache.now.name) × (session.old.cache ≡ cache.now.name) }
        requires inside { IsInodeNumber cache.now.geometry pin.now.number }
        requires pin { 1 ≤ times (place_of cache.now.geometry pin.now.number) pin.now.generation self.old.known.pins }
        ensures session { let place = place_of cache.now.geometry pin.now.number in
            session.new ≡ record session.old { known = pinned place pin.now.generation session.old.known } }
        ensures keeper { let place = place_of cache.now.geometry pin.now.number in
            self.new ≡ record self.old { known = unpinned place pin.now.generation self.old.known } }
    {
        let key = pin.key();
        let place = cache.place(key.number);
        let words = &cache.table.shared;
        carry(
            words,
            &mut self.seat,
            &mut session.seat,
            place,
            key.generation,
        );
    }

    /// Sets the mark of an inode that lost its last link. The keeper has a pin of it.
    pub fn mark(&mut self, cache: &Cache, pin: &Pin)
        requires cache { self.old.cache ≡ cache.now.name }
        requires inside { IsInodeNumber cache.now.geometry pin.now.number }
        requires keeps { Keeps self.old.known (place_of cache.now.geometry pin.now.number) }
        requires pin { 1 ≤ times (place_of cache.now.geometry pin.now.number) pin.now.generation self.old.known.pins }
        ensures stays { self.new ≡ record self.old { known = with_looks self.new.known.looks self.old.known } }
        ensures marked { let place = place_of cache.now.geometry pin.now.number in
            IsRemarked place pin.now.generation true self.old.known self.new.known }
    {
        let key = pin.key();
        let place = cache.place(key.number);
        set_mark(&cache.table.shared, &mut self.seat, place, key.generation);
    }

    /// Takes the mark away from an inode that got a link again. The keeper has a pin of it.
    pub fn unmark(&mut self, cache: &Cache, pin: &Pin)
        requires cache { self.old.cache ≡ cache.now.name }
        requires inside { IsInodeNumber cache.now.geometry pin.now.number }
        requires keeps { Keeps self.old.known (place_of cache.now.geometry pin.now.number) }
        requires pin { 1 ≤ times (place_of cache.now.geometry pin.now.number) pin.now.generation self.old.known.pins }
        ensures stays { self.new ≡ record self.old { known = with_looks self.new.known.looks self.old.known } }
        ensures unmarked { let place = place_of cache.now.geometry pin.now.number in
            IsRemarked place pin.now.generation false self.old.known self.new.known }
    {
        let key = pin.key();
        let place = cache.place(key.number);
        clear_mark(&cache.table.shared, &mut self.seat, place, key.generation);
    }

    /// Brings an inode into the cache with one pin, which the session gets. By the keeper's last look it is not there.
    pub fn install(&mut self, cache: &Cache, session: &mut Session, key: Key, unlinked: bool) -> Pin
        requires cache { (self.old.cache ≡ cache.now.name) × (session.old.cache ≡ cache.now.name) }
        requires inside { IsInodeNumber cache.now.geometry key.number }
        requires keeps { Keeps self.old.known (place_of cache.now.geometry key.number) }
        requires away { (parts_of (last_of (place_of cache.now.geometry key.number) self.old.known.looks)).live ≡ false }
        ensures pin { result ≡ key }
        ensures session { let place = place_of cache.now.geometry key.number in
            session.new ≡ record session.old { known = pinned place key.generation session.old.known } }
        ensures stays { self.new ≡ record self.old { known = with_looks self.new.known.looks self.old.known } }
        ensures installed { let place = place_of cache.now.geometry key.number in
            IsInstalled place key.generation unlinked self.old.known self.new.known }
    {
        let place = cache.place(key.number);
        let words = &cache.table.shared;
        install_at(
            words,
            &mut self.seat,
            &mut session.seat,
            place,
            key.generation,
            unlinked,
        );
        Pin { key }
    }

    /// Takes an inode with links that nobody holds out of the cache, and says whether it did.
    pub fn retire(&mut self, cache: &Cache, number: u64) -> bool
        requires cache { self.old.cache ≡ cache.now.name }
        requires inside { IsInodeNumber cache.now.geometry number }
        requires keeps { Keeps self.old.known (place_of cache.now.geometry number) }
        ensures stays { self.new ≡ record self.old { known = with_looks self.new.known.looks self.old.known } }
        ensures retired { Retired (place_of cache.now.geometry number) self.old.known result self.new.known }
    {
        let place = cache.place(number);
        retire_at(&cache.table.shared, &mut self.seat, place)
    }

    /// Takes an inode that was freed out of the cache: it has no links, and nobody holds it. Says whether it did.
    pub fn kill(&mut self, cache: &Cache, key: Key) -> bool
        requires cache { self.old.cache ≡ cache.now.name }
        requires inside { IsInodeNumber cache.now.geometry key.number }
        requires keeps { Keeps self.old.known (place_of cache.now.geometry key.number) }
        ensures stays { self.new ≡ record self.old { known = with_looks self.new.known.looks self.old.known } }
        ensures killed { Killed (place_of cache.now.geometry key.number) key.generation self.old.known result self.new.known }
        ensures awaited { let last = last_of (place_of cache.now.geometry key.number) self.old.known.looks in
            is_awaiting key.generation (parts_of last) ≡ true → result ≡ true }
    {
        let place = cache.place(key.number);
        kill_at(&cache.table.shared, &mut self.seat, place, key.generation)
    }
}
