//! What the rule of the versions says of what was seen, and of whose own entries are.

ghost use Rattle.std.specs.Prelude.{ℕ};
ghost use Rattle.atomic_table.specs.Table.{State};
ghost use Rattle.life_table.specs.declared.types.Entry.{Entry};
ghost use Rattle.version_table.specs.declared.story.Story.{Story};
ghost use Rattle.version_table.specs.Laws.{EntriesHaveOneOwner, NoSightIsAhead};
ghost use Rattle.version_table.specs.Rule.{Told};

/// A law: whenever the rule holds, that is between any two steps, nobody has seen more entries of a group than its keeper
/// knows, and what anybody knows of the history begins the keeper's.
pub fn no_sight_is_ahead()
    ensures { NoSightIsAhead }
{}

/// A law: whenever the rule holds, each entry of an actor is the own one of exactly one reader or keeper, once, where the
/// group has its keeper; no other entry is anybody's own.
pub fn each_entry_has_one_owner()
    ensures { (count : ℕ) (s : State Entry Story) → Told count s → EntriesHaveOneOwner s }
{}
