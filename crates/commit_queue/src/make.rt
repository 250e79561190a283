// The making of the queue.
ghost use Rattle.std.specs.Prelude.{[], IfOk};
ghost use Rattle.commit_queue.specs.Ends.{AreNewEnds};

use crate::committer::Committer;
use crate::shared::Shared;
use crate::taker::Taker;
use crossbeam_queue::RuledSegQueue;
use life_ports::NoMemory;
use std::alloc::{AllocError, Global};
use std::sync::Arc;

/// The ends of a new queue.
#[derive(Drop)]
pub struct QueueParts {
    /// One committer a group, in the order of the groups.
    pub committers: Vec<Committer>,
    pub taker: Taker,
}

// A taker that has made no committer yet.
fn make_taker(alloc: Global) -> Result<Taker, NoMemory>
    ensures { IfOk result (λ taker. AreNewEnds 0 [] taker) }
{
    let (queue, pass) = RuledSegQueue::with_rule(alloc)?;
    let queue = Shared { queue };
    let shared = Arc::new(alloc, queue)?;
    Ok(Taker {
        shared,
        pass,
        counts: Vec::new(alloc),
    })
}

/// A queue for so many groups, with nothing in it.
pub fn make_queue(alloc: Global, groups: u32) -> Result<QueueParts, NoMemory>
    ensures { IfOk result (λ parts. AreNewEnds groups parts.committers.items parts.taker) }
{
    let mut taker = make_taker(alloc)?;
    let mut committers = Vec::new(alloc);
    for group in 0..groups {
        let committer = taker.make_next(group)?;
        committers.push(committer)?;
    }
    Ok(QueueParts { committers, taker })
}
