// Lines that make a whole call.

ghost use Rattle.std.specs.Prelude.{◌≡◌, ◌<◌, ◌≤◌, ◌+◌, ◌++◌, ◌∷◌, ◌^◌, ◌-◌, ℕ, Bool, List, [], Some, Ok, None, OnOk, IsTrue, length, vec_len, vec_capacity};
ghost use Rattle.life_limits.specs.declared.TheConstants.{MAX_SCRIPT_BYTES};
ghost use Rattle.life_bytes.specs.declared.sector.Sector.{Sector};
ghost use Rattle.life_table.specs.declared.types.Call.{Call};
ghost use Rattle.life_table.specs.declared.types.Reply.{Reply};
ghost use Rattle.life_table.specs.declared.types.Event.TheVariants.{Called};
ghost use Rattle.life_table.specs.declared.types.Entry.{Entry};
ghost use Rattle.life_table.specs.declared.table.Table.{Table};
ghost use Rattle.life_table.specs.History.{IsHeld, key_of};
ghost use Rattle.script.specs.declared.types.Command.TheVariants as command;
ghost use Rattle.run_history.specs.Mounts.{MountStory, changes_made};
ghost use Rattle.run_history.specs.States.{Binding, RunState, UpMount, beginning, begun, holds_key, names_after};
ghost use Rattle.mounted_calls.specs.Calls.{NamesGroup, with_call};
ghost use Rattle.mounted_calls.specs.Running.{IsRunning};
ghost use Rattle.script_names.specs.Bindings.{AreNames};
ghost use Rattle.actor_holds.specs.Holds.{AreHolds, IsSteady};
ghost use Rattle.run_mounts.specs.Calls.{IsWholeCall};
ghost use Rattle.run_mounts.specs.Safe.{StandsSafe};
ghost use Rattle.run_faults.specs.News.{news_of_event};
ghost use Rattle.script_runs.specs.Faults.{IsTold, TellsOfLog};
ghost use Rattle.script_runs.specs.declared.running.Up.{Up};
ghost use Rattle.script_runs.specs.Lines.{AreSteadyWords};
ghost use Rattle.script_runs.specs.Running.{ComesTo, HasLine, IsRun, IsUntouched, SaysNoDamage, StandsWhereKnown, StaysUntouched, disk_of_run, run_of};
ghost use Rattle.script_runs.specs.Calling.{IsMadeIn, call_begun, call_held, lacks_in};
ghost use Rattle.script_runs.specs.declared.running.Device.TheVariants.{Mounted as MountedOn};

use crate::restarts::Restarts;
use crate::running::{Comes, Device, Run, Up};
use crate::saying::answered;
use crate::stopping::stopped_in;
use actor_holds::ActorHolds;
use life_ports::NoMemory;
use life_table::{Call, Entry, Key, MountRecord};
use run_mounts::call_on;
use script::{LineReply, Said, Spoken};
use script_names::Names;
use std::alloc::Global;

/// Whether the words name a group that is not there.
fn lacks_group(groups: u32, spoken: &Spoken) -> bool
    ensures { result ≡ lacks_in groups spoken.now }
{
    match spoken {
        Spoken::Create { group, .. } => groups <= *group,
        Spoken::Tmpfile { group, .. } => groups <= *group,
        Spoken::Flush { group } => groups <= *group,
        Spoken::Reclaim { group } => groups <= *group,
        _ => false,
    }
}

/// The key that a call is made on, if it is on one.
fn key_called(called: Call) -> Option<Key>
    ensures { result ≡ key_of called }
{
    match called {
        Call::CloseKey { key } => Some(key),
        Call::Link { key } => Some(key),
        Call::Unlink { key } => Some(key),
        Call::Grow { key, .. } => Some(key),
        Call::Cut { key, .. } => Some(key),
        Call::Stat { key } => Some(key),
        _ => None,
    }
}

/// Whether the actor holds the inode that a call is on, if it is on one.
fn may_make(holds: &ActorHolds, actor: u32, called: Call) -> bool
    ensures { (entries : List Entry) → AreHolds entries holds.now → result ≡ holds_key entries actor (key_of called) }
{
    match key_called(called) {
        None => true,
        Some(key) => holds.holds(actor, &key),
    }
}

/// The call that words mean, where the actor may make it.
fn held_call(holds: &ActorHolds, actor: u32, meant: Option<Call>) -> Result<Call, LineReply>
    ensures { (entries : List Entry) → AreHolds entries holds.now → result ≡ call_held entries actor meant }
{
    match meant {
        None => Err(LineReply::Unbound),
        Some(called) => {
            if may_make(holds, actor, called) {
                Ok(called)
            } else {
                Err(LineReply::Unbound)
            }
        }
    }
}

/// The call that an actor's words begin, or why they begin none.
fn begun_call(
    names: &Names,
    holds: &ActorHolds,
    groups: u32,
    actor: u32,
    spoken: &Spoken,
) -> Result<Call, LineReply>
    ensures { (bound : List Binding) (entries : List Entry) → AreNames bound names.now → AreHolds entries holds.now
        → result ≡ call_begun groups bound entries actor spoken.now }
{
    if lacks_group(groups, spoken) {
        return Err(LineReply::NoGroup);
    }
    held_call(holds, actor, names.meant(spoken))
}

/// Notes what the last entry of a mount's record tells: which key a name is bound to now, and who holds it.
fn note_last(
    alloc: Global,
    names: &mut Names,
    holds: &mut ActorHolds,
    mounted: &MountRecord,
    spoken: &Spoken,
) -> Result<(), NoMemory>
    ensures noted { (bound : List Binding) (entries : List Entry) (entry : Entry) → AreNames bound names.old → AreHolds entries holds.old → IsSteady entry.event
        → mounted.now.entries ≡ entries ++ entry ∷ [] → OnOk result (AreNames (names_after bound spoken.now (Some entry)) names.new × AreHolds (entries ++ entry ∷ []) holds.new) }
{
    let Some(entry) = mounted.entries.as_slice().last() else {
        return Ok(());
    };
    names.after(alloc, spoken, Some(entry))?;
    holds.note(entry)
}

/// The answer of a line whose call was made: its entry, which is the last one.
fn answer_made<D: Restarts>(
    alloc: Global,
    names: Names,
    past: Vec<MountRecord>,
    up: Up<D>,
    actor: u32,
    spoken: &Spoken,
) -> Comes<D>
    requires room { vec_len past < vec_capacity past }
    requires entry { 1 ≤ length up.mounted.story.entries }
    ensures run { (sure : Bool) (first : Table) (number : ℕ) (s : RunState) → IsMadeIn D.known sure D.cells D.sector_count D.arming first number s actor spoken.now names past.items up
        → ComesTo D.known sure D.cells D.sector_count D.arming first number s (command.Whole actor spoken.now) result }
    ensures no_damage { SaysNoDamage result }
    ensures log { (old : Up D) (called : Call) (answer : Reply) → up.mounted.story ≡ with_call old.mounted.story actor called answer
        → IsTold D.fault_count (news_of_event (Called called answer)) (MountedOn old) (MountedOn up) → TellsOfLog D.fault_count past.items (MountedOn old) result }
    ensures count { D.fault_count up.mounted.store.disk ≤ D.fault_count (disk_of_run (run_of result)) }
{
    let mut names = names;
    let Up { mounted, mut holds } = up;
    if mounted.store.stopped() {
        return stopped_in(names, past, mounted);
    }
    let noted = note_last(alloc, &mut names, &mut holds, &mounted.story, spoken);
    let mount = past.len() as u64;
    let entry = mounted.story.entries.as_slice().len() as u64 - 1;
    let device = Device::Mounted(Up { mounted, holds });
    let run = Run {
        names,
        past,
        device,
    };
    match noted {
        Ok(()) => Comes::Answered(run, Said::Of { mount, entry }),
        Err(NoMemory) => Comes::Unanswered(run),
    }
}

/// Makes a call that may be made on a mount.
fn make_call<D: Restarts>(
    alloc: Global,
    names: Names,
    past: Vec<MountRecord>,
    up: Up<D>,
    actor: u32,
    spoken: &Spoken,
    called: Call,
) -> Comes<D>
    requires room { vec_len past < vec_capacity past }
    requires kind { IsWholeCall called }
    requires running { (start : Table) × (t : Table) × IsRunning D.known D.cells D.sector_count start t up.mounted }
    requires group { NamesGroup up.mounted.geometry.groups called }
    requires held { IsHeld up.mounted.story.entries actor (key_of called) }
    requires number { up.mounted.story.base + changes_made up.mounted.story < 2 ^ 64 - 1 }
    ensures run { (sure : Bool) → (IsTrue sure → IsTrue D.known) → (first : Table) (number : ℕ) (s : RunState) (m : UpMount)
        → IsRun D.known D.cells D.sector_count D.arming s (record { names = names; past = past; device = MountedOn up }) → s.up ≡ Some m
        → (IsTrue sure → begun s m actor spoken.now None ≡ Ok (beginning s m actor spoken.now called))
        → StandsWhereKnown sure first number s (D.cells up.mounted.store.disk) → ComesTo D.known sure D.cells D.sector_count D.arming first number s (command.Whole actor spoken.now) result }
    ensures no_damage { SaysNoDamage result }
    ensures log { TellsOfLog D.fault_count past.items (MountedOn up) result }
    ensures count { D.fault_count up.mounted.store.disk ≤ D.fault_count (disk_of_run (run_of result)) }
{
    let mut up = up;
    match call_on(alloc, &mut up.mounted, actor, called) {
        Ok(()) => answer_made(alloc, names, past, up, actor, spoken),
        Err(NoMemory) => {
            let device = Device::Mounted(up);
            Comes::Unanswered(Run {
                names,
                past,
                device,
            })
        }
    }
}

/// A line that makes a whole call where a mount is up.
fn call_up<D: Restarts>(
    alloc: Global,
    names: Names,
    past: Vec<MountRecord>,
    up: Up<D>,
    actor: u32,
    spoken: &Spoken,
) -> Comes<D>
    requires words { AreSteadyWords spoken.now }
    requires line { HasLine D.known D.cells D.sector_count D.arming (record { names = names; past = past; device = MountedOn up }) }
    ensures run { (sure : Bool) → (IsTrue sure → IsTrue D.known) → (first : Table) (number : ℕ) (s : RunState)
        → IsRun D.known D.cells D.sector_count D.arming s (record { names = names; past = past; device = MountedOn up }) → s.lines < MAX_SCRIPT_BYTES
        → StandsWhereKnown sure first number s (D.cells up.mounted.store.disk) → ComesTo D.known sure D.cells D.sector_count D.arming first number s (command.Whole actor spoken.now) result }
    ensures no_damage { SaysNoDamage result }
    ensures log { TellsOfLog D.fault_count past.items (MountedOn up) result }
    ensures count { D.fault_count up.mounted.store.disk ≤ D.fault_count (disk_of_run (run_of result)) }
{
    match begun_call(&names, &up.holds, up.mounted.geometry.groups, actor, spoken) {
        Ok(called) => make_call(alloc, names, past, up, actor, spoken, called),
        Err(reply) => {
            let device = Device::Mounted(up);
            answered(
                Run {
                    names,
                    past,
                    device,
                },
                reply,
            )
        }
    }
}

/// Answers a line that makes a whole call of an actor.
pub fn call_line<D: Restarts>(alloc: Global, run: Run<D>, actor: u32, spoken: &Spoken) -> Comes<D>
    requires first { actor ≡ 0 }
    requires words { AreSteadyWords spoken.now }
    requires line { HasLine D.known D.cells D.sector_count D.arming run }
    ensures run { (sure : Bool) → (IsTrue sure → IsTrue D.known) → (first : Table) (number : ℕ) (s : RunState) → IsRun D.known D.cells D.sector_count D.arming s run → s.lines < MAX_SCRIPT_BYTES
        → StandsWhereKnown sure first number s (D.cells (disk_of_run run)) → ComesTo D.known sure D.cells D.sector_count D.arming first number s (command.Whole actor spoken.now) result }
    ensures untouched { IsTrue D.known → (before : List Sector) → IsUntouched D.cells before run → StaysUntouched D.cells before (command.Whole actor spoken.now) result }
    ensures sound { IsTrue D.known → (first : Table) (number : ℕ) (mounts : List MountStory) → StandsSafe first number mounts (D.cells (disk_of_run run)) → SaysNoDamage result }
    ensures log { TellsOfLog D.fault_count run.past.items run.device result }
    ensures count { D.fault_count (disk_of_run run) ≤ D.fault_count (disk_of_run (run_of result)) }
{
    let Run {
        names,
        past,
        device,
    } = run;
    match device {
        Device::Idle(disk) => {
            let device = Device::Idle(disk);
            answered(
                Run {
                    names,
                    past,
                    device,
                },
                LineReply::NotMounted,
            )
        }
        Device::Mounted(up) => call_up(alloc, names, past, up, actor, spoken),
    }
}
