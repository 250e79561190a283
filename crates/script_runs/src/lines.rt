// The answer of a line.

ghost use Rattle.std.specs.Prelude.{◌≡◌, ◌<◌, ◌≤◌, ◌+◌, ℕ, Bool, List, IsTrue};
ghost use Rattle.life_limits.specs.declared.TheConstants.{MAX_SCRIPT_BYTES};
ghost use Rattle.life_bytes.specs.declared.sector.Sector.{Sector};
ghost use Rattle.life_table.specs.declared.table.Table.{Table};
ghost use Rattle.run_history.specs.Mounts.{MountStory};
ghost use Rattle.run_history.specs.States.{RunState};
ghost use Rattle.run_mounts.specs.Safe.{StandsSafe};
ghost use Rattle.script_runs.specs.Faults.{TellsOfLog};
ghost use Rattle.script_runs.specs.Lines.{IsSteadyLine};
ghost use Rattle.script_runs.specs.Running.{ComesTo, HasLine, IsRun, IsUntouched, SaysNoDamage, StandsWhereKnown, StaysUntouched, disk_of_run, run_of};

use crate::calling::call_line;
use crate::coming::mount_line;
use crate::restarts::Restarts;
use crate::running::{Comes, Run};
use crate::stopping::{arm_line, stop_line};
use crate::unmounting::unmount_line;
use script::Command;
use std::alloc::Global;

/// Answers a line.
pub fn answer_line<D: Restarts>(alloc: Global, run: Run<D>, command: &Command) -> Comes<D>
    requires steady { IsSteadyLine command.now }
    requires line { HasLine D.known D.cells D.sector_count D.arming run }
    ensures run { (sure : Bool) → (IsTrue sure → IsTrue D.known) → (first : Table) (number : ℕ) (s : RunState) → IsRun D.known D.cells D.sector_count D.arming s run → s.lines < MAX_SCRIPT_BYTES
        → StandsWhereKnown sure first number s (D.cells (disk_of_run run)) → ComesTo D.known sure D.cells D.sector_count D.arming first number s command.now result }
    ensures untouched { IsTrue D.known → (before : List Sector) → IsUntouched D.cells before run → StaysUntouched D.cells before command.now result }
    ensures sound { IsTrue D.known → (first : Table) (number : ℕ) (mounts : List MountStory) → StandsSafe first number mounts (D.cells (disk_of_run run)) → SaysNoDamage result }
    ensures log { TellsOfLog D.fault_count run.past.items run.device result }
    ensures count { D.fault_count (disk_of_run run) ≤ D.fault_count (disk_of_run (run_of result)) }
{
    match command {
        Command::Mount => mount_line(alloc, run),
        Command::Unmount => unmount_line(alloc, run),
        Command::Stop => stop_line(run),
        Command::Arm { count, first } => arm_line(run, *count, *first),
        Command::Whole { actor, spoken } => call_line(alloc, run, *actor, spoken),
        // No line that is run yet.
        Command::Bind { .. }
        | Command::Begin { .. }
        | Command::Step { .. }
        | Command::Finish { .. } => Comes::Unanswered(run),
    }
}
