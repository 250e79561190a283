// A store of which one device call fails.
ghost use Rattle.std.specs.Prelude.{◌≡◌, IfOk};
ghost use Rattle.tests_log.specs.Stores.{IsReady, IsSet};

use crate::store_stops::{ROWS, take_row};
use crate::stores::{commit, failing_store, finish, force, take, write_back};
use disk_model::Disk;
use log_store::{Store, StoreFault};
use std::alloc::Global;
use std::test::Fail;

/// What became of a store of which a device call failed.
#[derive(Clone, Copy, Debug, PartialEq, Eq)]
enum Fate {
    /// Nothing failed.
    Well,
    /// It went on, and made all durable and wrote all home.
    GoesOn,
    /// It is down from a write on.
    Written,
    /// It is down from a flush on.
    Flushed,
    /// None of these.
    Other,
}

/// What became of a store that had taken so many commits, after this fault.
fn fate_after<D: Disk>(store: &mut Store<D>, fault: StoreFault, taken: u64) -> Fate
    requires { IsReady D.known D.cells D.sector_count store.old }
{
    let stop = store.stop_state();
    let forced = force(store);
    let written = write_back(store);
    let rest = store.pending() || store.dirty();
    let down = StoreFault::Down { fault: 1 };
    let answers = (stop, forced, written);
    if answers == (None, Ok(taken), Ok(())) && !rest && fault == StoreFault::WriteFault {
        return Fate::GoesOn;
    }
    if answers != (Some(1), Err(down), Err(down)) {
        return Fate::Other;
    }
    match fault {
        StoreFault::WriteFault => Fate::Written,
        StoreFault::FlushFault => Fate::Flushed,
        _ => Fate::Other,
    }
}

/// What becomes of the store after a job with this answer.
fn fate_of<D: Disk>(store: &mut Store<D>, answer: Result<(), StoreFault>, taken: u64) -> Fate
    requires { IsReady D.known D.cells D.sector_count store.old }
{
    match answer {
        Ok(()) => Fate::Well,
        Err(fault) => fate_after(store, fault, taken),
    }
}

/// Takes the commit of a row, and forces it where it is to be forced.
fn make_row<D: Disk>(
    alloc: Global,
    store: &mut Store<D>,
    at: usize,
) -> Result<Result<(), StoreFault>, Fail>
    requires { IsReady D.known D.cells D.sector_count store.old }
    ensures { IfOk result (λ _. IsReady D.known D.cells D.sector_count store.new) }
{
    if !take_row(alloc, store, at)? {
        return Ok(Ok(()));
    }
    match force(store) {
        Ok(_) => Ok(Ok(())),
        Err(fault) => Ok(Err(fault)),
    }
}

/// Takes and forces the rows' commits and writes them home, up to the first fault.
fn run_to_fault<D: Disk>(
    alloc: Global,
    store: &mut Store<D>,
) -> Result<Result<(), StoreFault>, Fail>
    requires { IsReady D.known D.cells D.sector_count store.old }
    ensures { IfOk result (λ _. IsReady D.known D.cells D.sector_count store.new) }
{
    for at in 0..ROWS.len() {
        if let Err(fault) = make_row(alloc, store, at)? {
            return Ok(Err(fault));
        }
    }
    Ok(write_back(store))
}

/// What becomes of a store of which this device call fails.
fn fate_at(alloc: Global, call: u64) -> Result<Fate, Fail> {
    let mut store = failing_store(alloc, call)?;
    let answer = run_to_fault(alloc, &mut store)?;
    Ok(fate_of(&mut store, answer, 7))
}

#[test]
fn each_device_call_fails_in_turn(rt: HostRuntime) -> Result<(), Fail> {
    // The device calls from a first to a last one, and what becomes of a store of which one of them fails.
    let calls = [
        (1, 1, Fate::Written),
        (2, 2, Fate::Flushed),
        (3, 3, Fate::Written),
        (4, 4, Fate::Flushed),
        (5, 5, Fate::Written),
        (6, 6, Fate::Flushed),
        (7, 7, Fate::Written),
        (8, 8, Fate::Flushed),
        (9, 136, Fate::GoesOn),
        (137, 137, Fate::Flushed),
        (138, 138, Fate::Written),
        (139, 139, Fate::Flushed),
        (140, 141, Fate::Written),
        (142, 142, Fate::Flushed),
        (143, 143, Fate::Written),
        (144, 144, Fate::Flushed),
        (145, 275, Fate::GoesOn),
        (276, 276, Fate::Flushed),
        (277, 277, Fate::Well),
    ];
    for (first, last, fate) in calls {
        for call in first..=last {
            assert_eq!(rt; fate_at(rt.alloc(), call)?, fate, "call {call}");
        }
    }
    Ok(())
}

/// A store of which this device call fails, with a commit of three sectors that is durable, by the calls 1 and 2.
fn store_with_dirty<D: Disk>(alloc: Global, store: &mut Store<D>) -> Result<(), Fail>
    requires { IsReady D.known D.cells D.sector_count store.old }
    ensures { IfOk result (λ _. IsReady D.known D.cells D.sector_count store.new) }
{
    take(store, commit(alloc, 5, 3, 1)?)?;
    match force(store) {
        Ok(_) => Ok(()),
        Err(_) => Err("not forced".into()),
    }
}

/// What becomes of it in a job that goes home.
fn home_fate(alloc: Global, call: u64) -> Result<Fate, Fail> {
    let mut store = failing_store(alloc, call)?;
    store_with_dirty(alloc, &mut store)?;
    store.begin_home();
    let answer = finish(&mut store)?;
    Ok(fate_of(&mut store, answer, 1))
}

/// What becomes of it in a cover, after its sectors were written back.
fn cover_fate(alloc: Global, call: u64) -> Result<Fate, Fail> {
    let mut store = failing_store(alloc, call)?;
    store_with_dirty(alloc, &mut store)?;
    let Ok(()) = write_back(&mut store) else {
        return Err("not written back".into());
    };
    let answer = store.cover();
    Ok(fate_of(&mut store, answer, 1))
}

#[test]
fn going_home_fails_at_each_call(rt: HostRuntime) -> Result<(), Fail> {
    // Three home writes, a flush, the cover, a flush; a home write that fails leaves a store that goes on.
    for (call, fate) in [
        (3, Fate::GoesOn),
        (4, Fate::GoesOn),
        (5, Fate::GoesOn),
        (6, Fate::Flushed),
        (7, Fate::Written),
        (8, Fate::Flushed),
        (9, Fate::Well),
    ] {
        assert_eq!(rt; home_fate(rt.alloc(), call)?, fate, "call {call}");
    }
    for (call, fate) in [(7, Fate::Written), (8, Fate::Flushed), (9, Fate::Well)] {
        assert_eq!(rt; cover_fate(rt.alloc(), call)?, fate, "call {call}");
    }
    Ok(())
}
