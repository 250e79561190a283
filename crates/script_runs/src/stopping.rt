// Lines that stop the device, and those in which it stops.

ghost use Rattle.std.specs.Prelude.{◌≡◌, ◌<◌, ◌≤◌, ◌+◌, ℕ, Bool, List, IsTrue, vec_len, vec_capacity};
ghost use Rattle.life_limits.specs.declared.TheConstants.{MAX_SCRIPT_BYTES};
ghost use Rattle.life_bytes.specs.declared.sector.Sector.{Sector};
ghost use Rattle.life_table.specs.declared.table.Table.{Table};
ghost use Rattle.script.specs.declared.types.Command.TheVariants as command;
ghost use Rattle.run_history.specs.Mounts.{MountStory};
ghost use Rattle.run_history.specs.States.{RunState};
ghost use Rattle.run_mounts.specs.Safe.{StandsSafe};
ghost use Rattle.script_runs.specs.Running.{ComesTo, HasLine, IsRun, IsUntouched, SaysNoDamage, StandsWhereKnown, StaysUntouched, disk_of_run, run_of};
ghost use Rattle.script_runs.specs.Faults.{TellsOfLog};
ghost use Rattle.script_runs.specs.Stopping.{ComesToStop, IsArmedDevice};

use crate::restarts::{Restarts, restarted};
use crate::running::{Comes, Device, Run};
use crate::saying::answered;
use life_table::MountRecord;
use mount::Mounted;
use script::LineReply;
use script_names::Names;

/// The device of a mount that is left, and what is recorded of it.
pub(crate) fn leave<D: Restarts>(mounted: Mounted<D>) -> (D, MountRecord)
    ensures disk { result.0 ≡ mounted.store.disk }
    ensures story { result.1 ≡ mounted.story }
{
    let Mounted { store, story, .. } = mounted;
    (store.into_disk(), story)
}

/// A line in which the armed write came while a mount was up: the mount is left, and the device restarted.
pub(crate) fn stopped_in<D: Restarts>(
    names: Names,
    past: Vec<MountRecord>,
    mounted: Mounted<D>,
) -> Comes<D>
    requires { vec_len past < vec_capacity past }
    ensures { ComesToStop D.cells D.arming D.fault_count names past.items mounted result }
{
    let mut past = past;
    let (disk, story) = leave(mounted);
    past.push_reserved(story);
    let device = Device::Idle(restarted(disk));
    answered(
        Run {
            names,
            past,
            device,
        },
        LineReply::Stopped,
    )
}

/// Answers a line that stops the device now. A mount that is up is left.
pub fn stop_line<D: Restarts>(run: Run<D>) -> Comes<D>
    requires line { HasLine D.known D.cells D.sector_count D.arming run }
    ensures run { (sure : Bool) → (IsTrue sure → IsTrue D.known) → (first : Table) (number : ℕ) (s : RunState) → IsRun D.known D.cells D.sector_count D.arming s run → s.lines < MAX_SCRIPT_BYTES
        → StandsWhereKnown sure first number s (D.cells (disk_of_run run)) → ComesTo D.known sure D.cells D.sector_count D.arming first number s command.Stop result }
    ensures untouched { IsTrue D.known → (before : List Sector) → IsUntouched D.cells before run → StaysUntouched D.cells before command.Stop result }
    ensures sound { IsTrue D.known → (first : Table) (number : ℕ) (mounts : List MountStory) → StandsSafe first number mounts (D.cells (disk_of_run run)) → SaysNoDamage result }
    ensures log { TellsOfLog D.fault_count run.past.items run.device result }
    ensures count { D.fault_count (disk_of_run run) ≤ D.fault_count (disk_of_run (run_of result)) }
{
    let Run {
        names,
        past,
        device,
    } = run;
    match device {
        Device::Idle(disk) => {
            let device = Device::Idle(restarted(disk));
            answered(
                Run {
                    names,
                    past,
                    device,
                },
                LineReply::Stopped,
            )
        }
        Device::Mounted(up) => stopped_in(names, past, up.mounted),
    }
}

/// The device, with a stop armed.
fn armed<D: Restarts>(device: Device<D>, count: u32, sectors: u32) -> Device<D>
    requires { 1 ≤ count }
    ensures { IsArmedDevice D.known D.cells D.sector_count D.fault_count D.arming count sectors device result }
{
    match device {
        Device::Idle(disk) => {
            let mut disk = disk;
            disk.arm(u64::from(count), u64::from(sectors));
            Device::Idle(disk)
        }
        Device::Mounted(up) => {
            let mut up = up;
            up.mounted.store.arm(u64::from(count), u64::from(sectors));
            Device::Mounted(up)
        }
    }
}

/// Answers a line that arms a stop within a write: the device stops at the `count`-th write from now on, of which only the first `sectors` sectors pass.
pub fn arm_line<D: Restarts>(run: Run<D>, count: u32, sectors: u32) -> Comes<D>
    requires writes { 1 ≤ count }
    requires line { HasLine D.known D.cells D.sector_count D.arming run }
    ensures run { (sure : Bool) → (IsTrue sure → IsTrue D.known) → (first : Table) (number : ℕ) (s : RunState) → IsRun D.known D.cells D.sector_count D.arming s run → s.lines < MAX_SCRIPT_BYTES
        → StandsWhereKnown sure first number s (D.cells (disk_of_run run)) → ComesTo D.known sure D.cells D.sector_count D.arming first number s (command.Arm count sectors) result }
    ensures untouched { IsTrue D.known → (before : List Sector) → IsUntouched D.cells before run → StaysUntouched D.cells before (command.Arm count sectors) result }
    ensures sound { IsTrue D.known → (first : Table) (number : ℕ) (mounts : List MountStory) → StandsSafe first number mounts (D.cells (disk_of_run run)) → SaysNoDamage result }
    ensures log { TellsOfLog D.fault_count run.past.items run.device result }
    ensures count { D.fault_count (disk_of_run run) ≤ D.fault_count (disk_of_run (run_of result)) }
{
    let Run {
        names,
        past,
        device,
    } = run;
    let device = armed(device, count, sectors);
    answered(
        Run {
            names,
            past,
            device,
        },
        LineReply::Armed,
    )
}
