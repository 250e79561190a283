// Unmount lines.

ghost use Rattle.std.specs.Prelude.{◌≡◌, ◌<◌, ◌≤◌, ◌+◌, ℕ, Bool, List, [], IsTrue, false, vec_len, vec_capacity};
ghost use Rattle.life_limits.specs.declared.TheConstants.{MAX_SCRIPT_BYTES};
ghost use Rattle.life_bytes.specs.declared.sector.Sector.{Sector};
ghost use Rattle.life_table.specs.declared.table.Table.{Table};
ghost use Rattle.life_table.specs.History.{LegalHistory};
ghost use Rattle.life_table.specs.WellFormed.{IsTable};
ghost use Rattle.life_table.specs.declared.types.Entry.{Entry};
ghost use Rattle.script.specs.declared.types.Command.TheVariants as command;
ghost use Rattle.mounted_calls.specs.Running.{NoneAwaits};
ghost use Rattle.run_history.specs.Answers.{all_awaiting};
ghost use Rattle.run_history.specs.Mounts.{MountStory};
ghost use Rattle.run_history.specs.States.{RunState};
ghost use Rattle.run_mounts.specs.Safe.{StandsSafe};
ghost use Rattle.script_runs.specs.Running.{ComesTo, HasLine, IsRun, IsUntouched, SaysNoDamage, StandsWhereKnown, StaysUntouched, disk_of_run, run_of};
ghost use Rattle.script_runs.specs.Unmounting.{EndTells, HasEnded, HasNotEnded, StillTells};
ghost use Rattle.script_runs.specs.Faults.{TellsOfLog};
ghost use Rattle.script_runs.specs.declared.running.Up.{Up};
ghost use Rattle.script_runs.specs.declared.running.Device.TheVariants.{Mounted as MountedOn};

use crate::restarts::{Restarts, restarted};
use crate::running::{Comes, Device, Run, Up};
use crate::saying::answered;
use crate::stopping::{leave, stopped_in};
use actor_holds::{ActorHolds, holds_are_of_rows};
use actor_world::{Tells, frees_are_exact};
use life_table::{MountRecord, tables_stay_well_formed};
use mount::{EndFault, Mounted, StillMounted};
use run_mounts::{EndedMount, end_mount, mounts_cut_off_stand_safe};
use script::LineReply;
use script_names::Names;
use std::alloc::Global;

/// No commit is told of. It stands in where a law of runs in a world is asked of tables alone.
struct NothingTold;

impl Tells for NothingTold {
    ghost use Rattle.std.specs.Prelude.{⊤};

    ghost tells = { λ old new commit. ⊤ };
}

/// A law: an unmount frees nothing of a table to which a legal history leads, and of which no row awaits being freed.
fn tables_without_orphans_free_nothing<D: Restarts>()
    ensures { (start t : Table) (entries : List Entry) → IsTable start → LegalHistory start entries t → NoneAwaits t → all_awaiting t ≡ [] }
{
    tables_stay_well_formed();
    frees_are_exact::<D, NothingTold>();
}

/// The record of a mount with so much acknowledged.
fn acknowledging(story: MountRecord, acknowledged: u64) -> MountRecord
    ensures { result ≡ record story { acknowledged = acknowledged } }
{
    let mut story = story;
    story.acknowledged = acknowledged;
    story
}

/// An unmount line whose mount ended. Where the armed write came meanwhile, the mount is left with what was acknowledged before.
fn ended<D: Restarts>(
    names: Names,
    past: Vec<MountRecord>,
    end: EndedMount<D>,
    acknowledged: u64,
) -> Comes<D>
    requires room { vec_len past < vec_capacity past }
    ensures run { (sure : Bool) (first : Table) (number : ℕ) (s : RunState) (up : Up D) → HasEnded D.known sure D.cells D.sector_count D.arming first number s names past.items up end
        → acknowledged ≡ up.mounted.story.acknowledged → ComesTo D.known sure D.cells D.sector_count D.arming first number s command.Unmount result }
    ensures no_damage { SaysNoDamage result }
    ensures log { (up : Up D) → EndTells up end → TellsOfLog D.fault_count past.items (MountedOn up) result }
    ensures count { D.fault_count end.disk ≤ D.fault_count (disk_of_run (run_of result)) }
{
    mounts_cut_off_stand_safe();
    tables_without_orphans_free_nothing::<D>();
    let mut past = past;
    let EndedMount { disk, story } = end;
    if disk.stopped() {
        past.push_reserved(acknowledging(story, acknowledged));
        let device = Device::Idle(restarted(disk));
        let run = Run {
            names,
            past,
            device,
        };
        return answered(run, LineReply::Stopped);
    }
    past.push_reserved(story);
    let device = Device::Idle(disk);
    let run = Run {
        names,
        past,
        device,
    };
    answered(run, LineReply::Unmounted)
}

/// The run in which the mount goes on.
fn still_up<D: Restarts>(
    names: Names,
    past: Vec<MountRecord>,
    holds: ActorHolds,
    mounted: Mounted<D>,
) -> Run<D>
    ensures { result ≡ record { names = names; past = past; device = MountedOn (record { mounted = mounted; holds = holds }) } }
{
    let device = Device::Mounted(Up { mounted, holds });
    Run {
        names,
        past,
        device,
    }
}

/// An unmount line whose mount did not end, in which the device goes on: the mount is left where its log is down, and else it goes on.
fn goes_on<D: Restarts>(
    names: Names,
    past: Vec<MountRecord>,
    holds: ActorHolds,
    still: StillMounted<D>,
) -> Comes<D>
    requires room { vec_len past < vec_capacity past }
    requires goes_on { (D.arming still.mounted.store.disk).stopped ≡ false }
    ensures run { (sure : Bool) (first : Table) (number : ℕ) (s : RunState) (up : Up D) → HasNotEnded D.known sure D.cells D.sector_count D.arming first number s names past.items holds up still
        → ComesTo D.known sure D.cells D.sector_count D.arming first number s command.Unmount result }
    ensures no_damage { SaysNoDamage result }
    ensures log { (up : Up D) → StillTells D.fault_count up still → TellsOfLog D.fault_count past.items (MountedOn up) result }
    ensures count { D.fault_count still.mounted.store.disk ≤ D.fault_count (disk_of_run (run_of result)) }
{
    tables_without_orphans_free_nothing::<D>();
    let StillMounted { mounted, fault } = still;
    if let EndFault::Down { fault } = fault {
        let mut past = past;
        let (disk, story) = leave(mounted);
        past.push_reserved(story);
        let device = Device::Idle(disk);
        let run = Run {
            names,
            past,
            device,
        };
        return answered(run, LineReply::Down { fault });
    }
    let run = still_up(names, past, holds, mounted);
    match fault {
        EndFault::WriteFault => answered(run, LineReply::WriteFault),
        EndFault::FlushFault => answered(run, LineReply::FlushFault),
        EndFault::PositionEnd => answered(run, LineReply::PositionEnd),
        EndFault::Busy { .. } | EndFault::Down { .. } | EndFault::NoMemory => Comes::Unanswered(
            run,
        ),
    }
}

/// An unmount line whose mount did not end. Where the armed write came meanwhile, the mount is left.
fn not_ended<D: Restarts>(
    names: Names,
    past: Vec<MountRecord>,
    holds: ActorHolds,
    still: StillMounted<D>,
) -> Comes<D>
    requires room { vec_len past < vec_capacity past }
    ensures run { (sure : Bool) (first : Table) (number : ℕ) (s : RunState) (up : Up D) → HasNotEnded D.known sure D.cells D.sector_count D.arming first number s names past.items holds up still
        → ComesTo D.known sure D.cells D.sector_count D.arming first number s command.Unmount result }
    ensures no_damage { SaysNoDamage result }
    ensures log { (up : Up D) → StillTells D.fault_count up still → TellsOfLog D.fault_count past.items (MountedOn up) result }
    ensures count { D.fault_count still.mounted.store.disk ≤ D.fault_count (disk_of_run (run_of result)) }
{
    tables_without_orphans_free_nothing::<D>();
    if still.mounted.store.stopped() {
        return stopped_in(names, past, still.mounted);
    }
    goes_on(names, past, holds, still)
}

/// An unmount line where a mount is up: it is busy where somebody holds an inode.
fn unmount_up<D: Restarts>(
    alloc: Global,
    names: Names,
    past: Vec<MountRecord>,
    up: Up<D>,
) -> Comes<D>
    requires line { HasLine D.known D.cells D.sector_count D.arming (record { names = names; past = past; device = MountedOn up }) }
    ensures run { (sure : Bool) → (IsTrue sure → IsTrue D.known) → (first : Table) (number : ℕ) (s : RunState)
        → IsRun D.known D.cells D.sector_count D.arming s (record { names = names; past = past; device = MountedOn up })
        → StandsWhereKnown sure first number s (D.cells up.mounted.store.disk) → ComesTo D.known sure D.cells D.sector_count D.arming first number s command.Unmount result }
    ensures no_damage { SaysNoDamage result }
    ensures log { TellsOfLog D.fault_count past.items (MountedOn up) result }
    ensures count { D.fault_count up.mounted.store.disk ≤ D.fault_count (disk_of_run (run_of result)) }
{
    holds_are_of_rows();
    tables_without_orphans_free_nothing::<D>();
    let opens = up.holds.count();
    if opens > 0 {
        let device = Device::Mounted(up);
        let run = Run {
            names,
            past,
            device,
        };
        return answered(run, LineReply::Busy { opens });
    }
    let Up { mounted, holds } = up;
    let acknowledged = mounted.story.acknowledged;
    match end_mount(alloc, mounted) {
        Ok(end) => ended(names, past, end, acknowledged),
        Err(still) => not_ended(names, past, holds, still),
    }
}

/// Answers an unmount line.
pub fn unmount_line<D: Restarts>(alloc: Global, run: Run<D>) -> Comes<D>
    requires line { HasLine D.known D.cells D.sector_count D.arming run }
    ensures run { (sure : Bool) → (IsTrue sure → IsTrue D.known) → (first : Table) (number : ℕ) (s : RunState) → IsRun D.known D.cells D.sector_count D.arming s run → s.lines < MAX_SCRIPT_BYTES
        → StandsWhereKnown sure first number s (D.cells (disk_of_run run)) → ComesTo D.known sure D.cells D.sector_count D.arming first number s command.Unmount result }
    ensures untouched { IsTrue D.known → (before : List Sector) → IsUntouched D.cells before run → StaysUntouched D.cells before command.Unmount result }
    ensures sound { IsTrue D.known → (first : Table) (number : ℕ) (mounts : List MountStory) → StandsSafe first number mounts (D.cells (disk_of_run run)) → SaysNoDamage result }
    ensures log { TellsOfLog D.fault_count run.past.items run.device result }
    ensures count { D.fault_count (disk_of_run run) ≤ D.fault_count (disk_of_run (run_of result)) }
{
    let Run {
        names,
        past,
        device,
    } = run;
    match device {
        Device::Idle(disk) => {
            let device = Device::Idle(disk);
            let run = Run {
                names,
                past,
                device,
            };
            answered(run, LineReply::NotMounted)
        }
        Device::Mounted(up) => unmount_up(alloc, names, past, up),
    }
}
