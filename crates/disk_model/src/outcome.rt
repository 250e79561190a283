// One outcome of a stop, for a disk that keeps its writes and flushes.
ghost use Rattle.std.specs.Prelude.{◌≡◌, ◌<◌, ◌≤◌, ◌+◌, ◌/◌, ◌%◌, ◌^◌, length};
ghost use Rattle.std.specs.Option.{option_copied};
ghost use Rattle.disk_model.specs.Disk.{Cell, settled, settled_as};
ghost use Rattle.disk_model.specs.MemoryDisk.{after_changes};
ghost use Rattle.disk_model.specs.MemoryEntry.{change_of, changes_of};
ghost use Rattle.disk_model.specs.OneSector.{piece_for, cell_after, cell_replayed, Walked};
ghost use Rattle.disk_model.specs.Outcome.{candidates, candidate_at, picked};

use crate::memory_disk::Entry;
use life_bytes::Sector;

// What a walk over the entries knows of the values that a stop may leave in one sector.
#[derive(Clone, Copy)]
struct Walk<'a> {
    count: usize,
    latest: &'a Sector,
    chosen: &'a Sector,
}

impl<'a> Walk<'a> {
    // The walk behind one more entry.
    fn next(self, entry: &'a Entry, at: u64, index: usize) -> Walk<'a>
        requires { self.count < 2 ^ 63 }
        ensures few { result.count ≤ self.entry.count + 1 }
        ensures walked { (cell : Cell) →
            Walked index cell self.entry.count self.entry.latest.now self.entry.chosen.now →
            Walked index (cell_after at cell (change_of entry.now))
            result.count result.latest.now result.chosen.now }
    {
        match entry {
            Entry::Flushed => Walk {
                count: 1,
                latest: self.latest,
                chosen: self.latest,
            },
            Entry::Wrote(start, pieces) => match piece_at(*start, pieces, at) {
                None => self,
                Some(piece) if self.count == index => Walk {
                    count: self.count + 1,
                    latest: piece,
                    chosen: piece,
                },
                Some(piece) => Walk {
                    count: self.count + 1,
                    latest: piece,
                    chosen: self.chosen,
                },
            },
        }
    }
}

// The piece that comes to the sector `at`, where the first comes to `start`.
fn piece_at(start: u64, pieces: &[Sector], at: u64) -> Option<&Sector>
    ensures { option_copied result ≡ piece_for start pieces.now at }
{
    pieces.get(at.checked_sub(start)? as usize)
}

// Walks over all the entries.
fn walked<'a>(first: &'a Sector, entries: &'a [Entry], at: u64, index: usize) -> Walk<'a>
    ensures { Walked index (cell_replayed at (settled first.now) (changes_of entries.now))
        result.count result.latest.now result.chosen.now }
{
    let mut walk = Walk {
        count: 1,
        latest: first,
        chosen: first,
    };
    for entry in entries {
        walk = walk.next(entry, at, index);
    }
    walk
}

// One of the values that a stop may leave in the sector `at`, and the choice for the sectors behind it.
fn outcome(first: &Sector, entries: &[Entry], at: u64, choice: u64) -> (Sector, u64)
    ensures value { let cell = cell_replayed at (settled first.now) (changes_of entries.now) in
        result.0 ≡ candidate_at cell (choice % length (candidates cell)) }
    ensures rest { let cell = cell_replayed at (settled first.now) (changes_of entries.now) in
        result.1 ≡ choice / length (candidates cell) }
{
    let count = walked(first, entries, at, 0).count as u64;
    let index = (choice % count) as usize;
    (*walked(first, entries, at, index).chosen, choice / count)
}

/// Puts one outcome of a stop in the place of what the disk held at first.
pub(crate) fn settle(first: &mut [Sector], entries: &[Entry], choice: u64)
    ensures { first.new ≡ picked choice (after_changes (settled_as first.old) (changes_of entries.now)) }
{
    let mut rest = choice;
    for at in 0..first.len() {
        let (value, next) = outcome(&first[at], entries, at as u64, rest);
        first[at] = value;
        rest = next;
    }
}
