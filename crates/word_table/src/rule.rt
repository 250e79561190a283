// The rule of the words, and the kinds of steps on them. The types are names alone, and no value of them is made.
use crate::known::Known;
use atomic_table::{Join, Play, Seat, Shared, Split, Table, TableRule};
use geometry::Geometry;
use std::alloc::Global;

pub struct Pins;

pub type WordTable = Table<u8, Known, Geometry, Pins, Global>;

pub type Words = Shared<u8, Known, Geometry, Pins>;

pub type WordSeat = Seat<u8, Known>;

impl TableRule<u8, Known, Geometry> for Pins {
    ghost use Rattle.geometry.specs.Places.{anchor_of, group_sectors};
    ghost use Rattle.word_table.specs.Known.{maker_knows};
    ghost use Rattle.word_table.specs.Rule.{Kept};

    ghost holds = { λ g. Kept (anchor_of g) };

    ghost first = { λ g. maker_knows 0 (anchor_of g) (group_sectors g) };
}

/// A load.
pub struct LookAt;

impl Play<u8, Known> for LookAt {
    ghost use Rattle.word_table.specs.Steps.{Looked};

    ghost then = { Looked };
}

/// One pin more.
pub struct PinOne;

impl Play<u8, Known> for PinOne {
    ghost use Rattle.word_table.specs.Steps.{Pinned};

    ghost then = { Pinned };
}

/// One pin less.
pub struct Unpin;

impl Play<u8, Known> for Unpin {
    ghost use Rattle.word_table.specs.Steps.{Unpinned};

    ghost then = { Unpinned };
}

/// A load that moves a pin to the front.
pub struct Front;

impl Play<u8, Known> for Front {
    ghost use Rattle.word_table.specs.Steps.{Fronted};

    ghost then = { Fronted };
}

/// The keeper changes a word without pins.
pub struct Change;

impl Play<u8, Known> for Change {
    ghost use Rattle.word_table.specs.Steps.{WordChanged};

    ghost then = { WordChanged };
}

/// The keeper brings an inode into the cache.
pub struct Install;

impl Play<u8, Known> for Install {
    ghost use Rattle.word_table.specs.Steps.{Installed};

    ghost then = { Installed };
}

/// The keeper sets the mark.
pub struct Mark;

impl Play<u8, Known> for Mark {
    ghost use Rattle.word_table.specs.Steps.{Marked};

    ghost then = { Marked };
}

/// The keeper takes the mark away.
pub struct Unmark;

impl Play<u8, Known> for Unmark {
    ghost use Rattle.word_table.specs.Steps.{Unmarked};

    ghost then = { Unmarked };
}

/// A session is made.
pub struct MakeSession;

impl Split<Known> for MakeSession {
    ghost use Rattle.word_table.specs.Known.{nothing_known};

    ghost left = { λ v. v };

    ghost right = { λ v. nothing_known };
}

/// A keeper is made, of the first words that have none.
pub struct MakeKeeper;

impl Split<Known> for MakeKeeper {
    ghost use Rattle.std.specs.Prelude.{◌+◌, ◌-◌};
    ghost use Rattle.word_table.specs.Known.{maker_knows, new_keeper};

    ghost left = { λ v. maker_knows (v.first + v.per) (v.count - v.per) v.per };

    ghost right = { λ v. new_keeper v.first v.per };
}

/// The first pin goes over to another.
pub struct Carry;

impl Split<Known> for Carry {
    ghost use Rattle.word_table.specs.Known.{first_alone, without_first};

    ghost left = { without_first };

    ghost right = { first_alone };
}

impl Join<Known> for Carry {
    ghost use Rattle.word_table.specs.Known.{nothing_known, with_pins};

    ghost both = { with_pins };

    ghost spent = { nothing_known };
}
