// The committer of a group.
ghost use Rattle.std.specs.Prelude.{◌≡◌, [], ◌∷◌, ◌++◌, length, MatchResult};

use crate::rule::Push;
use crate::shared::{Pass, Shared};
use log_record::Commit;
use std::alloc::Global;
use std::marker::Model;
use std::sync::{Arc, Wait};

/// The one end of the queue at which the commits of a group are pushed.
///
/// Contracts see the queue, the group, and what this committer has pushed. Nothing is lost by dropping it, but then the
/// taker can't take it in.
#[derive(Drop)]
pub struct Committer {
    pub(crate) shared: Arc<Shared, Global>,
    pub(crate) pass: Pass,
    pub(crate) group: u32,
    pub(crate) pushes: u64,
}

impl Model for Committer {
    ghost use Rattle.std.specs.Arc.{arc_value};
    ghost use Rattle.crossbeam_queue.specs.SegTies.{IsSegPassOf};
    ghost use Rattle.commit_queue.specs.Ends.{CommitterState, IsCommitter, committer_state};

    ghost Value = { CommitterState };

    ghost view = { λ c. committer_state (arc_value c.shared).queue c.group c.pass.me.view.client };

    ghost invariant = { λ c. IsSegPassOf (arc_value c.shared).queue c.pass
        × IsCommitter c.group c.pushes c.pass.me.view.client };
}

impl Committer {
    /// The group whose commits are pushed here.
    pub fn group(&self) -> u32
        ensures { result ≡ self.now.group }
    {
        self.group
    }

    /// Pushes a commit of the group, and answers how many this committer has pushed, this one included.
    ///
    /// The commit comes back where there is no memory, and after 2^64 - 1 pushes.
    pub fn push<R: Wait>(&mut self, rt: &R, commit: Commit) -> Result<u64, Commit>
        requires { commit.group ≡ self.old.group }
        ensures stays { self.new ≡ record self.old { pushed = self.new.pushed } }
        ensures pushed { MatchResult result
            (λ n. (n ≡ length self.new.pushed)
            × (self.new ≡ record self.old { pushed = self.old.pushed ++ commit ∷ [] }))
            (λ back. (back ≡ commit) × (self.new ≡ self.old)) }
    {
        if self.pushes == u64::MAX {
            return Err(commit);
        }
        self.shared
            .queue
            .push_as::<Push, R>(rt, &mut self.pass, commit)?;
        self.pushes += 1;
        Ok(self.pushes)
    }
}
