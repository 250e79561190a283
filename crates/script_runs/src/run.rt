// A run of a script.

ghost use Rattle.std.specs.Prelude.{◌≡◌, ◌≤◌, ◌⊎◌, ℕ, List, IsTrue, None, false, length};
ghost use Rattle.life_limits.specs.declared.TheConstants.{MAX_SCRIPT_BYTES};
ghost use Rattle.life_bytes.specs.declared.sector.Sector.{Sector};
ghost use Rattle.disk_model.specs.Disk.{settled_as};
ghost use Rattle.whole_image.specs.Damage.{IsSound};
ghost use Rattle.script.specs.declared.status.Status.TheVariants as status;
ghost use Rattle.run_history.specs.FirstImage.{FitsFirstImage};
ghost use Rattle.run_history.specs.Headline.{Headline};
ghost use Rattle.run_faults.specs.Log.{KeepToLog, no_mount};
ghost use Rattle.run_faults.specs.Told.{TellsOfFaults};
ghost use Rattle.script_runs.specs.Lines.{AreSteadyLines};
ghost use Rattle.script_runs.specs.Running.{HasRoom, disk_of_run, records_with};

use crate::lines::answer_line;
use crate::restarts::Restarts;
use crate::running::{Comes, Device, Run};
use crate::stopping::leave;
use disk_model::Disk;
use life_table::MountRecord;
use run_faults::runs_tell_on;
use run_history::{answered_calls_stand_between, runs_go_on, runs_without_lines_are_crash_safe};
use script::{Line, Said, Status};
use script_names::Names;
use std::alloc::Global;
use whole_image::sound_images_represent_a_table;

/// A run of a script that is over.
#[derive(Drop)]
pub struct Ended<D> {
    /// `Good` behind the last line, or `NoMemory` where the run broke off.
    pub status: Status,
    pub disk: D,
    /// What is recorded of its mounts, in order. One that was up at the end is left there as by a stop.
    pub mounts: Vec<MountRecord>,
    /// The answers of its lines, in order.
    pub said: Vec<Said>,
}

/// The disk and the records of a run that is over.
fn handed_back<D: Restarts>(run: Run<D>, said: Vec<Said>, status: Status) -> Ended<D>
    requires { HasRoom run run.device }
    ensures status { result.status ≡ status }
    ensures said { result.said.items ≡ said.items }
    ensures mounts { result.mounts.items ≡ records_with run.past.items run.device }
    ensures disk { result.disk ≡ disk_of_run run }
{
    let Run {
        past: mut mounts,
        device,
        ..
    } = run;
    let disk = match device {
        Device::Idle(disk) => disk,
        Device::Mounted(up) => {
            let (disk, story) = leave(up.mounted);
            mounts.push_reserved(story);
            disk
        }
    };
    Ended {
        status,
        disk,
        mounts,
        said,
    }
}

/// Answers the lines of a script over a disk, in order, up to the last one or until memory runs out: mount lines, stops, and lines with whole calls of actor A. The disk is handed back, with what is recorded of each mount; a mount that is up
/// at the end is left as by a stop.
pub fn run_script<D: Restarts>(alloc: Global, disk: D, lines: &[Line]) -> Ended<D>
    requires steady { AreSteadyLines lines.now }
    requires few { length lines.now ≤ MAX_SCRIPT_BYTES }
    requires goes_on { (D.arming disk).stopped ≡ false }
    requires unarmed { (D.arming disk).armed ≡ None }
    // Of a disk that tells what it holds, and leaves one image, which is sound: the headline.
    ensures headline { IsTrue D.known → (before : List Sector) → D.cells disk ≡ settled_as before → IsSound before
        → Headline before lines.now result.status result.said.items result.mounts.items (D.cells result.disk) }
    // Whether it is sound or not.
    ensures first_image { IsTrue D.known → (before : List Sector) → D.cells disk ≡ settled_as before
        → FitsFirstImage before lines.now result.said.items result.mounts.items (D.cells result.disk) }
    // Whatever the disk tells.
    ensures status { (result.status ≡ status.Good) ⊎ (result.status ≡ status.NoMemory) }
    ensures all { result.status ≡ status.Good → length result.said.items ≡ length lines.now }
    ensures most { length result.said.items ≤ length lines.now }
    // What the answers tell of the log, and of the disk's faults.
    ensures log { KeepToLog result.mounts.items no_mount result.said.items }
    ensures faults { TellsOfFaults result.mounts.items result.said.items (D.fault_count disk) (D.fault_count result.disk) }
    ensures count { D.fault_count disk ≤ D.fault_count result.disk }
{
    runs_go_on();
    runs_tell_on();
    runs_without_lines_are_crash_safe();
    answered_calls_stand_between();
    sound_images_represent_a_table();
    let mut said = Vec::new(alloc);
    let mut run = Run {
        names: Names::new(alloc),
        past: Vec::new(alloc),
        device: Device::Idle(disk),
    };
    for line in lines {
        if said.reserve(1).is_err() {
            return handed_back(run, said, Status::NoMemory);
        }
        match answer_line(alloc, run, &line.command) {
            Comes::Answered(next, one) => {
                said.push_reserved(one);
                run = next;
            }
            Comes::Unanswered(left) => return handed_back(left, said, Status::NoMemory),
        }
    }
    handed_back(run, said, Status::Good)
}
