// Mount lines.

ghost use Rattle.std.specs.Prelude.{◌≡◌, ◌<◌, ◌≤◌, ◌+◌, ℕ, Bool, List, [], IsTrue, false, vec_len, vec_capacity};
ghost use Rattle.life_limits.specs.declared.TheConstants.{MAX_SCRIPT_BYTES};
ghost use Rattle.life_bytes.specs.declared.sector.Sector.{Sector};
ghost use Rattle.disk_model.specs.Disk.{IsImage, as_read};
ghost use Rattle.log_store.specs.declared.store.Stage.TheVariants.{Free};
ghost use Rattle.life_table.specs.declared.table.Table.{Table};
ghost use Rattle.whole_image.specs.Damage.{IsSound};
ghost use Rattle.mount.specs.Faults.{IsDeviceCause};
ghost use Rattle.mount.specs.declared.fault.MountFault.TheVariants.{Damaged};
ghost use Rattle.script.specs.declared.types.Command.TheVariants as command;
ghost use Rattle.run_history.specs.Mounts.{MountStory};
ghost use Rattle.run_history.specs.States.{RunState};
ghost use Rattle.run_mounts.specs.Safe.{StandsSafe, base_behind};
ghost use Rattle.script_runs.specs.Running.{ComesTo, HasLine, IsArmedAs, IsRun, IsUntouched, SaysNoDamage, StandsWhereKnown, StaysUntouched, disk_of_run, records_of, run_of};
ghost use Rattle.script_runs.specs.Faults.{TellsOfLog};
ghost use Rattle.script_runs.specs.declared.running.Device.TheVariants.{Idle};
ghost use Rattle.script_runs.specs.Mounting.{CameUp, IsIdle, IsRefused, StayedDown, records_begun, refusal_of};

use crate::restarts::{Restarts, restarted};
use crate::running::{Comes, Device, Run, Up};
use crate::saying::answered;
use actor_holds::ActorHolds;
use life_table::MountRecord;
use mount::{MountFault, Mounted, NotMounted};
use run_mounts::{mount_behind, mounts_cut_off_stand_safe};
use script::LineReply;
use script_names::Names;
use std::alloc::Global;
use whole_image::one_first_damage;

/// The record of a mount of which nothing is acknowledged.
fn unacknowledged(story: MountRecord) -> MountRecord
    ensures { result ≡ record story { acknowledged = 0 } }
{
    let mut story = story;
    story.acknowledged = 0;
    story
}

/// A mount line whose mount came up. Where the armed write came meanwhile, the mount is left as one that never came up.
fn came_up<D: Restarts>(
    alloc: Global,
    names: Names,
    past: Vec<MountRecord>,
    mounted: Mounted<D>,
) -> Comes<D>
    requires room { vec_len past < vec_capacity past }
    ensures run { (sure : Bool) (first : Table) (number : ℕ) (s : RunState) → IsIdle s names past.items → CameUp D.known sure D.cells D.sector_count D.arming first number s mounted
        → ComesTo D.known sure D.cells D.sector_count D.arming first number s command.Mount result }
    ensures no_damage { SaysNoDamage result }
    ensures log { mounted.store.stage ≡ Free → (disk : D) → TellsOfLog D.fault_count past.items (Idle disk) result }
    ensures count { D.fault_count mounted.store.disk ≤ D.fault_count (disk_of_run (run_of result)) }
{
    mounts_cut_off_stand_safe();
    let mut past = past;
    if mounted.store.stopped() {
        let Mounted { store, story, .. } = mounted;
        past.push_reserved(unacknowledged(story));
        let device = Device::Idle(restarted(store.into_disk()));
        let run = Run {
            names,
            past,
            device,
        };
        return answered(run, LineReply::Stopped);
    }
    let kept = mounted.story.kept;
    let freed = mounted.story.freed;
    let holds = ActorHolds::new(alloc);
    let device = Device::Mounted(Up { mounted, holds });
    let run = Run {
        names,
        past,
        device,
    };
    answered(run, LineReply::Mounted { kept, freed })
}

/// What a mount line answers whose mount did not come up; nothing where memory ran out.
fn refusal(fault: MountFault) -> Option<LineReply>
    ensures { result ≡ refusal_of fault }
{
    match fault {
        MountFault::Damaged { rule, sector } => Some(LineReply::Damaged { rule, sector }),
        MountFault::ReadFault => Some(LineReply::ReadFault),
        MountFault::WriteFault => Some(LineReply::WriteFault),
        MountFault::FlushFault => Some(LineReply::FlushFault),
        MountFault::PositionEnd => Some(LineReply::PositionEnd),
        MountFault::NoMemory => None,
    }
}

/// The records of mounts, with that of one that had begun.
fn with_begun(past: Vec<MountRecord>, begun: Option<MountRecord>) -> Vec<MountRecord>
    requires room { vec_len past < vec_capacity past }
    ensures { result.items ≡ records_begun past.items begun }
{
    let mut past = past;
    if let Some(story) = begun {
        past.push_reserved(story);
    }
    past
}

/// A mount line whose mount did not come up. What recovery had freed is recorded.
fn stayed_down<D: Restarts>(names: Names, past: Vec<MountRecord>, down: NotMounted<D>) -> Comes<D>
    requires room { vec_len past < vec_capacity past }
    ensures run { (sure : Bool) (first : Table) (number : ℕ) (s : RunState) → IsIdle s names past.items → StayedDown sure D.cells D.arming first number s down
        → ComesTo D.known sure D.cells D.sector_count D.arming first number s command.Mount result }
    ensures untouched { (before : List Sector) → past.items ≡ [] → IsRefused D.cells D.arming before down → StaysUntouched D.cells before command.Mount result }
    ensures no_damage { ((rule sector : ℕ) → ¬ (down.fault ≡ Damaged rule sector)) → SaysNoDamage result }
    ensures log { (disk : D) → IsDeviceCause (D.fault_count disk) (D.fault_count down.disk) down.fault → TellsOfLog D.fault_count past.items (Idle disk) result }
    ensures count { D.fault_count down.disk ≤ D.fault_count (disk_of_run (run_of result)) }
{
    let NotMounted { disk, fault, begun } = down;
    let past = with_begun(past, begun);
    match refusal(fault) {
        None => Comes::Unanswered(Run {
            names,
            past,
            device: Device::Idle(disk),
        }),
        Some(_) if disk.stopped() => {
            let device = Device::Idle(restarted(disk));
            let run = Run {
                names,
                past,
                device,
            };
            answered(run, LineReply::Stopped)
        }
        Some(reply) => {
            let device = Device::Idle(disk);
            let run = Run {
                names,
                past,
                device,
            };
            answered(run, reply)
        }
    }
}

/// The number of the first change of the last of these mounts, if there is one.
fn last_base(past: &[MountRecord]) -> Option<u64>
    ensures { (mounts : List MountStory) → past.now ≡ records_of mounts → result ≡ base_behind mounts }
{
    match past.last() {
        Some(story) => Some(story.base),
        None => None,
    }
}

/// A mount line where no mount is up.
fn mount_idle<D: Restarts>(alloc: Global, names: Names, past: Vec<MountRecord>, disk: D) -> Comes<D>
    requires goes_on { (D.arming disk).stopped ≡ false }
    ensures run { (sure : Bool) → (IsTrue sure → IsTrue D.known) → (first : Table) (number : ℕ) (s : RunState) → IsIdle s names past.items → IsArmedAs s.armed (D.arming disk)
        → StandsWhereKnown sure first number s (D.cells disk) → ComesTo D.known sure D.cells D.sector_count D.arming first number s command.Mount result }
    ensures untouched { IsTrue D.known → (before : List Sector) → past.items ≡ [] → ((image : List Sector) → IsImage (D.cells disk) image → image ≡ before)
        → StaysUntouched D.cells before command.Mount result }
    ensures sound { IsTrue D.known → IsSound (as_read (D.cells disk)) → SaysNoDamage result }
    ensures log { TellsOfLog D.fault_count past.items (Idle disk) result }
    ensures count { D.fault_count disk ≤ D.fault_count (disk_of_run (run_of result)) }
{
    one_first_damage();
    let mut past = past;
    if past.reserve(1).is_err() {
        let device = Device::Idle(disk);
        return Comes::Unanswered(Run {
            names,
            past,
            device,
        });
    }
    let behind = last_base(&past);
    match mount_behind(alloc, disk, behind) {
        Ok(mounted) => came_up(alloc, names, past, mounted),
        Err(down) => stayed_down(names, past, down),
    }
}

/// Answers a mount line.
pub fn mount_line<D: Restarts>(alloc: Global, run: Run<D>) -> Comes<D>
    requires line { HasLine D.known D.cells D.sector_count D.arming run }
    ensures run { (sure : Bool) → (IsTrue sure → IsTrue D.known) → (first : Table) (number : ℕ) (s : RunState) → IsRun D.known D.cells D.sector_count D.arming s run → s.lines < MAX_SCRIPT_BYTES
        → StandsWhereKnown sure first number s (D.cells (disk_of_run run)) → ComesTo D.known sure D.cells D.sector_count D.arming first number s command.Mount result }
    ensures untouched { IsTrue D.known → (before : List Sector) → IsUntouched D.cells before run → StaysUntouched D.cells before command.Mount result }
    ensures sound { IsTrue D.known → (first : Table) (number : ℕ) (mounts : List MountStory) → StandsSafe first number mounts (D.cells (disk_of_run run)) → SaysNoDamage result }
    ensures log { TellsOfLog D.fault_count run.past.items run.device result }
    ensures count { D.fault_count (disk_of_run run) ≤ D.fault_count (disk_of_run (run_of result)) }
{
    let Run {
        names,
        past,
        device,
    } = run;
    match device {
        Device::Mounted(up) => {
            let device = Device::Mounted(up);
            let run = Run {
                names,
                past,
                device,
            };
            answered(run, LineReply::AlreadyMounted)
        }
        Device::Idle(disk) => mount_idle(alloc, names, past, disk),
    }
}
