// Keepers: who has a group's lock makes the entries of the group's history.
ghost use Rattle.std.specs.Prelude.{◌≡◌, ◌≤◌, ◌<◌, ◌^◌, ◌∷◌, ◌++◌, [], length};
ghost use Rattle.version_table.specs.Ends.{IsEntered, IsToldOf};
ghost use Rattle.version_table.specs.Story.{known_of, seen_of};

use crate::reader::Reader;
use crate::rule::VersionSeat;
use crate::telling::make_entry;
use crate::versions::Versions;
use life_table::Entry;
use std::marker::Model;

/// Who counts the entries of one group's history. It lies behind the group's lock.
///
/// Contracts see the versions that it belongs to, the group, and what it knows: the history whole.
#[derive(Drop)]
pub struct VersionKeeper {
    pub(crate) seat: VersionSeat,
    pub(crate) group: u32,
    pub(crate) length: u64,
}

impl Model for VersionKeeper {
    ghost use Rattle.version_table.specs.Ends.{IsKeeper, KeeperState, keeper_state};

    ghost Value = { KeeperState };

    ghost view = { λ k. keeper_state k.seat.table_id k.group k.seat.me.0 };

    ghost invariant = { λ k. IsKeeper k.group k.length k.seat.me };
}

impl VersionKeeper {
    /// How many entries the group's history has.
    pub fn length(&self) -> u64
        ensures { result ≡ length (known_of self.now.group self.now.story.lines) }
    {
        self.length
    }

    /// Makes an entry of the group's history for a reader. It stands behind all that the reader saw of the group.
    pub fn enter(&mut self, versions: &Versions, reader: &mut Reader, entry: &Entry)
        requires versions { (self.old.versions ≡ versions.now.name) × (reader.old.versions ≡ versions.now.name) }
        requires group { (self.old.group < versions.now.groups) × (self.old.group < reader.old.groups) }
        requires short { length (known_of self.old.group self.old.story.lines) < 2 ^ 63 }
        ensures keeper { (self.new.versions ≡ self.old.versions) × (self.new.group ≡ self.old.group) }
        ensures entered { IsEntered self.old.group entry.now self.old.story self.new.story }
        ensures reader { (reader.new.versions ≡ reader.old.versions) × (reader.new.groups ≡ reader.old.groups) }
        ensures fresh { seen_of self.old.group reader.old.story.sights ≤ length (known_of self.old.group self.old.story.lines) }
        ensures told { IsToldOf self.old.group entry.now self.old.story reader.old.story reader.new.story }
    {
        let words = &versions.table.shared;
        make_entry(
            words,
            &mut self.seat,
            &mut reader.seat,
            self.group,
            self.length,
            entry,
        );
        self.length += 1;
        reader.seen[self.group as usize] = self.length;
    }
}
