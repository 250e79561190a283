// One atomic step of an actor.

ghost use Rattle.std.specs.Prelude.{◌≡◌, ◌≢◌, IfOk, OnErr, false, true};
ghost use Rattle.life_table.specs.declared.table.Table.{Table};
ghost use Rattle.actor_world.specs.Invariant.{Invariant};
ghost use Rattle.actor_world.specs.Steps.{Step};
ghost use Rattle.plain_world.specs.declared.step.StepAnswer.TheVariants.{Went};
ghost use Rattle.plain_world.specs.Telling.{any_telling};
ghost use Rattle.plain_world.specs.Worlds.{IsRight, face_of, world_of};
ghost use Rattle.plain_world.specs.Answers.{answer_at, from_at};

use crate::happen::is_log_call;
use crate::world::{AnyCommit, PlainWorld};
use actor_world::{
    calls_wait_for_locks_alone, right_worlds_have_one_history, steps_keep_the_invariant,
};
use disk_model::Disk;
use life_ports::NoMemory;
use life_table::{holders_have_rows, tables_stay_well_formed};
use plain_moves::{move_of, waits_in_group};
use std::alloc::Global;

/// What came of a step.
#[derive(Clone, Copy, Debug, PartialEq, Eq)]
pub enum StepAnswer {
    /// The actor has no call.
    Idle,
    /// The step takes a group's lock, which this actor holds. The world is as before.
    Waits { by: u32 },
    /// The log answers the actor's call, and its steps are not made here. The world is as before.
    OfLog,
    /// The step was made.
    Went,
}

/// Whether a step is made.
fn is_went(answer: StepAnswer) -> bool
    ensures went { result ≡ true → answer ≡ Went }
    ensures other { result ≡ false → answer ≢ Went }
{
    match answer {
        StepAnswer::Went => true,
        StepAnswer::Idle | StepAnswer::Waits { .. } | StepAnswer::OfLog => false,
    }
}

impl<D: Disk> PlainWorld<D> {
    /// What a step of an actor comes to now.
    fn answer(&self, a: u32) -> StepAnswer
        ensures { result ≡ answer_at a (world_of self.now) }
    {
        let Some(actor) = self.memory.actors.as_slice().get(a as usize) else {
            return StepAnswer::Idle;
        };
        let Some(doing) = &actor.doing else {
            return StepAnswer::Idle;
        };
        if let Some(by) = waits_in_group(actor.queue.as_slice(), doing, &self.memory) {
            return StepAnswer::Waits { by };
        }
        if is_log_call(&doing.call) {
            return StepAnswer::OfLog;
        }
        StepAnswer::Went
    }

    /// How many entries there were as the actor's call began.
    fn from_of(&self, a: u32) -> u64
        ensures { result ≡ from_at a (world_of self.now) }
    {
        match self.memory.actors.as_slice().get(a as usize) {
            Some(actor) => match &actor.doing {
                Some(doing) => doing.from,
                None => 0,
            },
            None => 0,
        }
    }

    /// The next step of an actor's call.
    pub fn step(&mut self, alloc: Global, a: u32) -> Result<StepAnswer, NoMemory>
        requires right { IsRight self.old }
        ensures answer { IfOk result (λ answer. answer ≡ answer_at a (world_of self.old)) }
        ensures went { IfOk result (λ answer. answer ≡ Went → Step (face_of D.known D.cells D.sector_count D.arming D.fault_count) any_telling a (world_of self.old) (world_of self.new)) }
        ensures stays { IfOk result (λ answer. answer ≢ Went → world_of self.new ≡ world_of self.old) }
        ensures err { OnErr result (world_of self.new ≡ world_of self.old) }
        ensures kept { (start : Table) → Invariant any_telling start (world_of self.old)
            → Invariant any_telling start (world_of self.new) }
    {
        steps_keep_the_invariant::<D, AnyCommit>();
        calls_wait_for_locks_alone::<D, AnyCommit>();
        right_worlds_have_one_history::<D, AnyCommit>();
        tables_stay_well_formed();
        holders_have_rows();
        let answer = self.answer(a);
        if !is_went(answer) {
            return Ok(answer);
        }
        let from = self.from_of(a);
        let Some(moved) = move_of(alloc, a, &self.table, &self.memory)? else {
            unreachable!();
        };
        self.make(alloc, a, from, moved)?;
        Ok(answer)
    }
}
