// The taker.
ghost use Rattle.std.specs.Prelude.{◌≡◌, ◌+◌, ◌<◌, List, [], ◌∷◌, ◌++◌, length, IfOk, OnErr, MatchOption};
ghost use Rattle.log_record.specs.declared.image.Commit.{Commit};
ghost use Rattle.commit_queue.specs.Streams.{AreTakenOrQueued, commits_of, stream};

use crate::committer::Committer;
use crate::rule::{MakeNext, Pop, TakeIn};
use crate::shared::{Pass, Shared};
use life_ports::NoMemory;
use log_record::Commit;
use std::alloc::Global;
use std::marker::Model;
use std::sync::{Arc, Wait};

/// The one end of the queue at which commits are popped.
///
/// Contracts see the queue, the number of groups, the commits that were popped, and the streams of the committers that
/// were taken in.
#[derive(Drop)]
pub struct Taker {
    pub(crate) shared: Arc<Shared, Global>,
    pub(crate) pass: Pass,
    pub(crate) counts: Vec<u64>,
}

impl Model for Taker {
    ghost use Rattle.std.specs.Arc.{arc_value};
    ghost use Rattle.crossbeam_queue.specs.SegTies.{IsSegPassOf};
    ghost use Rattle.commit_queue.specs.Ends.{IsTaker, TakerState, taker_state};

    ghost Value = { TakerState };

    ghost view = { λ t. taker_state (arc_value t.shared).queue t.counts.items t.pass.me.view.client };

    ghost invariant = { λ t. IsSegPassOf (arc_value t.shared).queue t.pass
        × IsTaker t.counts.items t.pass.me.view.client };
}

impl Taker {
    /// Makes the committer of the next group, while nothing was taken.
    pub(crate) fn make_next(&mut self, group: u32) -> Result<Committer, NoMemory>
        requires next { group ≡ self.old.groups }
        requires new { self.old.taken ≡ [] }
        ensures { IfOk result (λ c. (c ≡ record { queue = self.old.queue; group = group; pushed = [] })
            × (self.new ≡ record self.old { groups = group + 1 })) }
    {
        let shared = Arc::try_clone(&self.shared)?;
        self.counts.push(0)?;
        let pass = self.shared.queue.another::<MakeNext>(&mut self.pass);
        Ok(Committer {
            shared,
            pass,
            group,
            pushes: 0,
        })
    }

    /// Pops the commit that was pushed first of those in the queue. None comes only where the queue was empty at one
    /// moment of the call: then all that the committers pushed was taken, of those that were taken in before.
    pub fn pop<R: Wait>(&mut self, rt: &R) -> Option<Commit>
        ensures stays { self.new ≡ record self.old { taken = self.new.taken } }
        ensures taken { MatchOption result (self.new ≡ self.old)
            (λ commit. self.new ≡ record self.old { taken = self.old.taken ++ commit ∷ [] }) }
        ensures queued { MatchOption result (AreTakenOrQueued self.new.streams self.new.taken [])
            (λ commit. (queued : List Commit) × AreTakenOrQueued self.new.streams self.new.taken queued) }
    {
        let commit = self.shared.queue.pop_as::<Pop, R>(rt, &mut self.pass)?;
        self.counts[commit.group as usize] += 1;
        Some(commit)
    }

    /// How many commits of a group were popped.
    pub fn taken(&self, group: u32) -> u64
        requires { group < self.now.groups }
        ensures { result ≡ length (commits_of group self.now.taken) }
    {
        self.counts[group as usize]
    }

    /// Takes in the committer of a group, which pushes no more.
    pub fn take_in(&mut self, committer: Committer)
        requires { committer.queue ≡ self.old.queue }
        ensures { let pushed = stream committer.group committer.pushed in
            self.new ≡ record self.old { streams = self.old.streams ++ pushed ∷ [] } }
    {
        let Committer { pass, .. } = committer;
        self.shared.queue.absorb::<TakeIn>(&mut self.pass, pass);
    }
}
