// Readers: what a thread saw of the histories.
ghost use Rattle.std.specs.Prelude.{◌≡◌, ◌≤◌, ◌<◌};
ghost use Rattle.version_table.specs.Story.{saw, seen_of};

use crate::rule::VersionSeat;
use crate::steps::load;
use crate::versions::Versions;
use std::marker::Model;

/// What one thread at a time saw of the histories.
///
/// Contracts see the versions that it belongs to, the number of groups, and what it knows.
#[derive(Drop)]
pub struct Reader {
    pub(crate) seat: VersionSeat,
    pub(crate) seen: Vec<u64>,
}

impl Model for Reader {
    ghost use Rattle.version_table.specs.Ends.{IsReader, ReaderState, reader_state};

    ghost Value = { ReaderState };

    ghost view = { λ r. reader_state r.seat.table_id r.seen.items r.seat.me.0 };

    ghost invariant = { λ r. IsReader r.seen.items r.seat.me };
}

impl Reader {
    /// How many entries of the group's history were seen.
    pub fn seen(&self, group: u32) -> u64
        requires { group < self.now.groups }
        ensures { result ≡ seen_of group self.now.story.sights }
    {
        self.seen[group as usize]
    }

    /// Looks how long the group's history is: no shorter than it was seen before.
    pub fn load(&mut self, versions: &Versions, group: u32) -> u64
        requires versions { self.old.versions ≡ versions.now.name }
        requires group { (group < versions.now.groups) × (group < self.old.groups) }
        ensures saw { self.new ≡ record self.old { story = saw group result self.old.story } }
        ensures later { seen_of group self.old.story.sights ≤ result }
    {
        let found = load(&versions.table.shared, &mut self.seat, group as usize);
        self.seen[group as usize] = found;
        found
    }
}
