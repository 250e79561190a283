// The begin of a call.

ghost use Rattle.std.specs.Prelude.{◌≡◌, ◌↔◌, IsTrue, IfErr, IfNone, IfSome, OnOk, OnErr};
ghost use Rattle.life_table.specs.declared.table.Table.{Table};
ghost use Rattle.actor_world.specs.Invariant.{Invariant};
ghost use Rattle.actor_world.specs.World.{GroupExists, IsBegun};
ghost use Rattle.plain_world.specs.Refusals.{IsRefused, MayBegin};
ghost use Rattle.plain_world.specs.Telling.{any_telling};
ghost use Rattle.plain_world.specs.Worlds.{world_of};

use crate::holds::is_held;
use crate::world::{AnyCommit, PlainWorld};
use actor_world::{Doing, Memory, calls_begin_in_right_worlds};
use disk_model::Disk;
use life_table::{Call, Listed};
use plain_moves::{first_place, with_doing};
use std::alloc::Global;
use std::mem;

/// Why a call does not begin.
#[derive(Clone, Copy, Debug, PartialEq, Eq)]
pub enum BeginRefused {
    /// There is no such actor.
    NoActor,
    /// The actor is in a call.
    InCall,
    /// The actor does not hold the key.
    NotHeld,
    /// There is no such group.
    NoGroup,
}

/// Whether the group that a call names is there.
fn group_exists(memory: &Memory, call: &Call) -> bool
    ensures { IsTrue result ↔ GroupExists memory.now call.now }
{
    match *call {
        Call::Create { group }
        | Call::Tmpfile { group }
        | Call::FlushInodes { group }
        | Call::Reclaim { group } => (group as usize) < memory.groups.as_slice().len(),
        _ => true,
    }
}

impl<D: Disk> PlainWorld<D> {
    /// Why the call does not begin now, if it does not.
    fn refusal(&self, a: u32, call: &Call) -> Option<BeginRefused>
        ensures some { IfSome result (λ refused. IsRefused a call.now (world_of self.now) refused) }
        ensures none { IfNone result (MayBegin a call.now (world_of self.now)) }
    {
        let Some(actor) = self.memory.actors.as_slice().get(a as usize) else {
            return Some(BeginRefused::NoActor);
        };
        if actor.doing.is_some() {
            return Some(BeginRefused::InCall);
        }
        if !is_held(self.entries.as_slice(), a, call) {
            return Some(BeginRefused::NotHeld);
        }
        if !group_exists(&self.memory, call) {
            return Some(BeginRefused::NoGroup);
        }
        None
    }

    /// An actor without a call begins one. It makes no step.
    pub fn begin(&mut self, alloc: Global, a: u32, call: Call) -> Result<(), BeginRefused>
        ensures begun { OnOk result (IsBegun a call (world_of self.old) (world_of self.new)) }
        ensures refused { IfErr result (λ refused. IsRefused a call (world_of self.old) refused) }
        ensures same { OnErr result (world_of self.new ≡ world_of self.old) }
        ensures kept { (start : Table) → Invariant any_telling start (world_of self.old)
            → Invariant any_telling start (world_of self.new) }
    {
        calls_begin_in_right_worlds::<D, AnyCommit>();
        if let Some(refused) = self.refusal(a, &call) {
            return Err(refused);
        }
        let doing = Doing {
            call,
            place: first_place(&call),
            from: self.entries.len() as u64,
        };
        let none = Memory {
            actors: Listed::new(alloc),
            groups: Listed::new(alloc),
        };
        let memory = mem::replace(&mut self.memory, none);
        self.memory = with_doing(memory, a, Some(doing));
        Ok(())
    }
}
