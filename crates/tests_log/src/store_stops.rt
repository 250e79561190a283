// A store that is stopped after each of its device calls.
ghost use Rattle.std.specs.Prelude.{◌≡◌, IsSome, IfOk};
ghost use Rattle.tests_log.specs.Stores.{IsReady, IsSet};

use crate::stores::{commit, empty_store, sectors_of, step, take};
use disk_model::Disk;
use life_bytes::Sector;
use life_ports::NoMemory;
use log_image::read_anchor;
use log_record::{Image, read_record};
use log_store::Store;
use std::alloc::Global;
use std::test::Fail;

/// A commit of a run: the sectors that it writes, and whether it is forced before the next one is taken.
#[derive(Clone, Copy)]
pub(crate) struct Row {
    pub first: u64,
    pub count: u64,
    pub forced: bool,
}

/// The sixth commit finds no room for its record, which then passes the ring's end; the seventh has a record of its own.
pub(crate) const ROWS: [Row; 7] = [
    Row {
        first: 5,
        count: 1,
        forced: true,
    },
    Row {
        first: 7,
        count: 3,
        forced: false,
    },
    Row {
        first: 8,
        count: 1,
        forced: true,
    },
    Row {
        first: 1,
        count: 128,
        forced: true,
    },
    Row {
        first: 100,
        count: 1,
        forced: true,
    },
    Row {
        first: 1,
        count: 128,
        forced: false,
    },
    Row {
        first: 200,
        count: 3,
        forced: true,
    },
];

/// Takes the commit of a row, whose sectors are filled with its number, and answers whether it is forced.
pub(crate) fn take_row<D: Disk>(
    alloc: Global,
    store: &mut Store<D>,
    at: usize,
) -> Result<bool, Fail>
    requires { IsSet D.known D.cells D.sector_count store.old }
    ensures set { IsSet D.known D.cells D.sector_count store.new }
    ensures job { store.new.job ≡ store.old.job }
{
    let Row {
        first,
        count,
        forced,
    } = *ROWS.get(at).ok_or("no row")?;
    take(store, commit(alloc, first, count, (at % 250) as u8 + 1)?)?;
    Ok(forced)
}

/// Goes on with a store's job for so many steps at most, and answers how many are left, if it ended.
fn steps<D: Disk>(store: &mut Store<D>, most: u64) -> Result<Option<u64>, Fail>
    requires { IsSet D.known D.cells D.sector_count store.old }
    ensures { IfOk result (λ left. IsSome left → IsReady D.known D.cells D.sector_count store.new) }
{
    for used in 0..most {
        let Ok(ended) = step(store) else {
            return Err("a fault".into());
        };
        if ended {
            return Ok(Some(most - used - 1));
        }
    }
    Ok(None)
}

/// Takes the commit of a row, forces it where it is to be forced, and answers how many steps are left, if it was not stopped.
fn run_row<D: Disk>(
    alloc: Global,
    store: &mut Store<D>,
    at: usize,
    most: u64,
) -> Result<Option<u64>, Fail>
    requires { IsReady D.known D.cells D.sector_count store.old }
    ensures { IfOk result (λ left. IsSome left → IsReady D.known D.cells D.sector_count store.new) }
{
    if !take_row(alloc, store, at)? {
        return Ok(Some(most));
    }
    store.begin_force();
    steps(store, most)
}

/// What a run came to when it was stopped: how many commits were taken, how many were acknowledged by a force, and
/// whether it was at its end.
#[derive(Clone, Copy, Debug, PartialEq, Eq)]
struct Stopped {
    taken: u64,
    acknowledged: u64,
    ended: bool,
}

/// Takes and forces the rows' commits, and stops after so many steps.
fn run<D: Disk>(alloc: Global, store: &mut Store<D>, most: u64) -> Result<Stopped, Fail>
    requires { IsReady D.known D.cells D.sector_count store.old }
{
    let mut left = most;
    let mut acknowledged = 0;
    for at in 0..ROWS.len() {
        let taken = at as u64 + 1;
        let Some(rest) = run_row(alloc, store, at, left)? else {
            return Ok(Stopped {
                taken,
                acknowledged,
                ended: false,
            });
        };
        left = rest;
        if ROWS[at].forced {
            acknowledged = taken;
        }
    }
    Ok(Stopped {
        taken: 7,
        acknowledged,
        ended: true,
    })
}

/// The sectors of the groups as the log of an image leaves them, and the number of its last commit.
#[derive(Drop)]
struct Replayed {
    groups: Vec<Sector>,
    commits: u64,
}

/// The position of the first record that counts, where none is whole but from this position on.
fn first_position(alloc: Global, ring: &[Sector], position: u64) -> Result<u64, NoMemory> {
    let mut first = position;
    for ahead in 0..512u64 {
        if let Some(item) = read_record(alloc, ring, position.saturating_add(ahead))? {
            first = item.tail;
        }
    }
    Ok(first)
}

/// Puts images over sectors.
fn put_images(groups: &mut [Sector], images: &[Image]) {
    for image in images {
        if let Some(sector) = groups.get_mut(image.home as usize) {
            *sector = image.sector;
        }
    }
}

/// Reads an image's log from its anchor on, record by record.
fn replay(alloc: Global, image: &[Sector]) -> Result<Replayed, Fail> {
    let anchor = read_anchor(image.get(512).ok_or("no anchor")?).ok_or("another anchor")?;
    let ring = image.get(513..769).ok_or("no ring")?;
    let mut groups = Vec::from_slice(alloc, image.get(..512).ok_or("no groups")?)?;
    let mut next = anchor.next_commit;
    let mut position = first_position(alloc, ring, anchor.position)?;
    for _ in 0..256 {
        if let Some(item) = read_record(alloc, ring, position)? {
            put_images(&mut groups, item.images.as_slice());
            next = item.first.saturating_add(item.commits as u64);
            let bytes = (item.images.len() as u64)
                .saturating_mul(520)
                .saturating_add(32);
            position = position.saturating_add(bytes.div_ceil(496));
        }
    }
    Ok(Replayed {
        groups,
        commits: next.saturating_sub(1),
    })
}

/// What the sector of a group is filled with after so many of the rows' commits.
fn filled(home: u64, commits: u64) -> u8 {
    let mut byte = 0;
    for (i, row) in ROWS.iter().enumerate() {
        if (i as u64) < commits && row.first <= home && home - row.first < row.count {
            byte = (i % 250) as u8 + 1;
        }
    }
    byte
}

/// Whether the sectors of the groups are as that many of the rows' commits leave them.
fn are_filled(replayed: &Replayed) -> bool {
    for (home, sector) in replayed.groups.iter().enumerate() {
        let byte = filled(home as u64, replayed.commits);
        if sector.bytes != [byte; 512] {
            return false;
        }
    }
    true
}

/// Runs so many steps, stops the disk, with a choice of what is left or as it reads, and answers whether the log has
/// the commits that it has to have; and whether the run was at its end.
fn stop_after(alloc: Global, most: u64, choice: Option<u64>) -> Result<(bool, bool), Fail> {
    let mut store = empty_store(alloc)?;
    let stopped = run(alloc, &mut store, most)?;
    let mut disk = store.into_disk();
    if let Some(choice) = choice {
        disk.pick(choice);
    }
    let replayed = replay(alloc, &sectors_of(alloc, &disk)?)?;
    let within = stopped.acknowledged <= replayed.commits && replayed.commits <= stopped.taken;
    Ok((within && are_filled(&replayed), stopped.ended))
}

/// Whether the run is stopped after so many steps with the choice at this place: with one of the four where sectors are
/// written home, and else with each.
fn is_tried(most: u64, place: usize) -> bool {
    most < 16 || 134 <= most || most % 4 == place as u64
}

#[test]
fn a_stop_leaves_some_first_commits(rt: HostRuntime) -> Result<(), Fail> {
    let choices = [None, Some(0), Some(u64::MAX), Some(0x5555_5555_5555_5555)];
    for most in 0..146 {
        for (place, choice) in choices.iter().enumerate() {
            if is_tried(most, place) {
                let (right, ended) = stop_after(rt.alloc(), most, *choice)?;
                assert!(rt; right, "after {most} steps, {choice:?}");
                assert_eq!(rt; ended, most >= 144, "after {most} steps");
            }
        }
    }
    Ok(())
}
