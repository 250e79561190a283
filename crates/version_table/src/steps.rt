// The steps on a version, one call of the table each.
ghost use Rattle.std.specs.Prelude.{◌≡◌, ◌<◌, ◌≤◌, ◌^◌, [], ◌∷◌, ◌++◌, ℕ, length};
ghost use mathlib.Core.Option.{none, some};
ghost use Rattle.atomic_table.specs.Table.{step};
ghost use Rattle.version_table.specs.Story.{Keeps, entered, known_of, seen_of};
ghost use Rattle.version_table.specs.Steps.{Entered, Loaded};

use crate::rule::{Enter, Load, VersionSeat, Words};
use life_table::Entry;

// Loads the length of a history.
pub fn load(words: &Words, seat: &mut VersionSeat, group: usize) -> u64
    requires seat { seat.old.table_id ≡ words.now.table_id }
    requires words { words.now.table_id.words ≡ words.now.key }
    requires inside { group < words.now.key }
    ensures seat { seat.new.table_id ≡ seat.old.table_id }
    ensures step { Loaded (step words.now.table_id.slots group 0 0 none) seat.old.me result seat.new.me }
{
    words.load::<Load>(seat, group)
}

// Counts an entry, behind all that the keeper knows.
pub fn count_entry(words: &Words, seat: &mut VersionSeat, group: usize, old: u64, entry: &Entry)
    requires seat { seat.old.table_id ≡ words.now.table_id }
    requires words { words.now.table_id.words ≡ words.now.key }
    requires inside { group < words.now.key }
    requires keeps { Keeps seat.old.me.0 group }
    requires length { old ≡ length (known_of group seat.old.me.0.lines) }
    requires short { old < 2 ^ 63 }
    ensures seat { seat.new.table_id ≡ seat.old.table_id }
    ensures slots { seat.new.me.1 ≡ seat.old.me.1 }
    ensures entered { seat.new.me.0 ≡ entered group entry.now seat.old.me.0 }
    ensures seen { seen_of group seat.old.me.0.sights ≤ old }
{
    words.compare_exchange_with::<Enter>(seat, group, old, old + 1, entry);
}
