// The rule of the versions, and the kinds of steps on them. The types are names alone, and no value of them is made.
use crate::story::Story;
use atomic_table::{Join, Play, Seat, Shared, Split, Table, TableRule};
use life_table::Entry;
use std::alloc::Global;

pub struct Histories;

pub type VersionTable = Table<Entry, Story, u64, Histories, Global>;

pub type Words = Shared<Entry, Story, u64, Histories>;

pub type VersionSeat = Seat<Entry, Story>;

impl TableRule<Entry, Story, u64> for Histories {
    ghost use Rattle.version_table.specs.Story.{new_keeper};
    ghost use Rattle.version_table.specs.Rule.{Told};

    ghost holds = { Told };

    ghost first = { λ count. new_keeper 0 count };
}

/// A load.
pub struct Load;

impl Play<Entry, Story> for Load {
    ghost use Rattle.version_table.specs.Steps.{Loaded};

    ghost then = { Loaded };
}

/// An entry comes to the history.
pub struct Enter;

impl Play<Entry, Story> for Enter {
    ghost use Rattle.version_table.specs.Steps.{Entered};

    ghost then = { Entered };
}

/// A reader is made.
pub struct MakeReader;

impl Split<Story> for MakeReader {
    ghost use Rattle.version_table.specs.Story.{nothing_known};

    ghost left = { λ v. v };

    ghost right = { λ v. nothing_known };
}

/// The keeper of the next history is made.
pub struct MakeKeeper;

impl Split<Story> for MakeKeeper {
    ghost use Rattle.std.specs.Prelude.{◌+◌, ◌-◌};
    ghost use Rattle.version_table.specs.Story.{new_keeper};

    ghost left = { λ v. new_keeper (v.first + 1) (v.count - 1) };

    ghost right = { λ v. new_keeper v.first 1 };
}

/// Before an entry: what the reader saw.
pub struct Warn;

impl Split<Story> for Warn {
    ghost use Rattle.version_table.specs.Story.{warning};

    ghost left = { λ v. v };

    ghost right = { warning };
}

/// After an entry: the history, and the places that wait to be handed over.
pub struct Tell;

impl Split<Story> for Tell {
    ghost use Rattle.version_table.specs.Story.{handed_over, telling};

    ghost left = { handed_over };

    ghost right = { telling };
}

/// What was split off comes to another.
pub struct TakeIn;

impl Join<Story> for TakeIn {
    ghost use Rattle.version_table.specs.Story.{nothing_known, with_story};

    ghost both = { with_story };

    ghost spent = { nothing_known };
}
