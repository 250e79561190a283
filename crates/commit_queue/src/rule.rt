// The rule of the queue, and what each call tells of it. The types are names alone, and no value of them is made.
ghost use Rattle.std.specs.Prelude.{◌≡◌};

use crate::known::Known;
use crossbeam_queue::protocol::{Join, Lesson, Outcome, Protocol, Split};
use log_record::Commit;

pub struct InOrder;

impl Protocol<Commit, Known> for InOrder {
    ghost use Rattle.std.specs.Prelude.{[]};
    ghost use Rattle.commit_queue.specs.Streams.{taker_knows};
    ghost use Rattle.commit_queue.specs.Queued.{Queued};

    ghost holds = { Queued };

    ghost first = { taker_knows [] 0 [] };
}

/// The taker makes the committer of the next group.
pub struct MakeNext;

impl Split<Known> for MakeNext {
    ghost use Rattle.std.specs.Prelude.{[], ◌+◌};
    ghost use Rattle.commit_queue.specs.Streams.{committer_knows, taker_knows};

    ghost left = { λ v. taker_knows v.streams (v.groups + 1) v.taken };

    ghost right = { λ v. committer_knows v.groups [] };
}

/// The taker takes in a committer.
pub struct TakeIn;

impl Join<Known> for TakeIn {
    ghost use Rattle.std.specs.Prelude.{◌++◌};
    ghost use Rattle.commit_queue.specs.Streams.{nothing_known, taker_knows};

    ghost both = { λ v w. taker_knows (v.streams ++ w.streams) v.groups v.taken };

    ghost spent = { nothing_known };
}

pub struct Push;

impl Outcome<Commit, Known> for Push {
    ghost use Rattle.commit_queue.specs.Queued.{Pushed};

    ghost then = { Pushed };
}

pub struct Pop;

impl Outcome<Commit, Known> for Pop {
    ghost use Rattle.commit_queue.specs.Queued.{Popped};

    ghost then = { Popped };
}

impl Lesson<Commit, Known> for Pop {
    ghost use Rattle.commit_queue.specs.Streams.{AreTakenOrQueued};

    ghost fact = { λ v items. AreTakenOrQueued v.streams v.taken items };
}
