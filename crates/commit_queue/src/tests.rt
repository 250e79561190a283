ghost use Rattle.std.specs.Prelude.{◌≡◌, IfOk};

use crate::{Committer, QueueParts, Taker, make_queue};
use life_bytes::Sector;
use life_ports::NoMemory;
use log_record::{Commit, Image, ImageList};
use std::alloc::Global;
use std::sync::Wait;
use std::test::*;
use std::thread;

const PUSHES: u64 = 1000;

// A commit of one image.
fn commit_of(alloc: Global, group: u32, home: u64) -> Result<Commit, NoMemory>
    ensures { IfOk result (λ commit. commit.group ≡ group) }
{
    let mut images = ImageList::new(alloc);
    let sector = Sector::zero();
    images.push(Image { home, sector })?;
    Ok(Commit { group, images })
}

fn home_of(commit: &Commit) -> Option<u64> {
    commit.images.as_slice().first().map(|image| image.home)
}

#[test]
fn one_commit_goes_through(rt: HostRuntime) -> Result<(), Fail> {
    let QueueParts {
        mut committers,
        mut taker,
    } = make_queue(rt.alloc(), 1)?;
    let Some(mut committer) = committers.pop() else {
        return Err(Fail::from("there is no committer"));
    };
    let commit = commit_of(rt.alloc(), 0, 7)?;
    assert_eq!(rt; committer.push(&rt, commit).ok(), Some(1));
    assert_eq!(rt; taker.pop(&rt).and_then(|commit| home_of(&commit)), Some(7));
    taker.take_in(committer);
    assert!(rt; taker.pop(&rt).is_none());
    assert_eq!(rt; taker.taken(0), 1);
    Ok(())
}

// Pushes commits whose homes count up, and says whether all were pushed.
fn push_all<R: Wait>(rt: &R, alloc: Global, mut committer: Committer) -> bool {
    for home in 0..PUSHES {
        let Ok(commit) = commit_of(alloc, committer.group(), home) else {
            return false;
        };
        if committer.push(rt, commit).is_err() {
            return false;
        }
    }
    true
}

// Pops until all commits of two groups came, and says whether each group's came in order.
fn pop_all<R: Wait>(rt: &R, taker: &mut Taker) -> bool {
    let mut next = [0; 2];
    for _ in rt.forever() {
        if next == [PUSHES; 2] {
            return true;
        }
        let Some(commit) = taker.pop(rt) else {
            thread::yield_now();
            continue;
        };
        let group = commit.group as usize;
        if group >= 2 || next[group] >= PUSHES || home_of(&commit) != Some(next[group]) {
            return false;
        }
        next[group] += 1;
    }
    unreachable!()
}

#[test]
fn each_group_comes_in_order(rt: HostRuntime) -> Result<(), Fail> {
    let alloc = rt.alloc();
    let QueueParts {
        mut committers,
        mut taker,
    } = make_queue(alloc, 2)?;
    let Some(second) = committers.pop() else {
        return Err(Fail::from("there is no committer"));
    };
    let Some(first) = committers.pop() else {
        return Err(Fail::from("there is no committer"));
    };
    let one = thread::spawn(&rt, move || push_all(&rt, alloc, first))?;
    let other = thread::spawn(&rt, move || push_all(&rt, alloc, second))?;
    assert!(rt; pop_all(&rt, &mut taker));
    assert!(rt; one.join(&rt) && other.join(&rt));
    assert!(rt; taker.pop(&rt).is_none());
    Ok(())
}
