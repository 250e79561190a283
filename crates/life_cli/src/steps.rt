// A run of a script over the disk at a path.

ghost use Rattle.std.specs.Prelude.{◌≡◌, ◌≤◌, ◌+◌, ◌⊎◌, [], List, IfOk, IfErr, IfSome, IsSome, IsTrue, OnOk, length};
ghost use Rattle.std.specs.Io.KnownBytes.{IsAtEnd};
ghost use Rattle.life_limits.specs.declared.TheConstants.{MAX_SCRIPT_BYTES};
ghost use Rattle.life_bytes.specs.declared.sector.Sector.{Sector};
ghost use Rattle.disk_model.specs.Disk.{settled_as};
ghost use Rattle.whole_image.specs.Damage.{IsSound};
ghost use Rattle.script.specs.Scripts.{asking_lines, AreReadAs};
ghost use Rattle.script.specs.declared.status.Status.TheVariants as status;
ghost use Rattle.run_history.specs.FirstImage.{FitsFirstImage};
ghost use Rattle.run_history.specs.Headline.{Headline};
ghost use Rattle.run_faults.specs.Log.{KeepToLog, no_mount};
ghost use Rattle.script_runs.specs.Lines.{AreSteadyLines};
ghost use Rattle.life_cli.specs.Input.{Takes, TakesAtMost};
ghost use Rattle.life_cli.specs.Outcome.{IsReadable, IsScript, RefusesBytes, RefusesScript, WhereKnown};
ghost use Rattle.life_cli.specs.Steps.{RunsSteps};

use crate::ending::{Ended, ended_early};
use crate::input::{ReadFault, read_script};
use crate::subset::first_not_run;
use disk_model::{Disk, Images, StopDisk};
use life_ports::{Refused, Source};
use script::{Script, ScriptFault, Status, one_command, one_first_fault, parse};
use script_runs::run_script;
use std::alloc::Global;

/// The lines of a script of these bytes, or why they are not run.
fn parse_lines(alloc: Global, bytes: &[u8]) -> Result<Script, Status>
    requires short { length bytes.now ≤ MAX_SCRIPT_BYTES }
    ensures read { IfOk result (AreReadAs (asking_lines bytes.now)) }
    ensures steady { IfOk result AreSteadyLines }
    ensures few { IfOk result (λ lines. length lines ≤ MAX_SCRIPT_BYTES) }
    ensures readable { OnOk result (IsReadable bytes.now) }
    ensures refused { IfErr result (RefusesBytes bytes.now) }
{
    match parse(alloc, bytes) {
        Ok(script) => match first_not_run(&script) {
            None => Ok(script),
            Some(line) => Err(Status::ScriptFault { line, rule: 0 }),
        },
        Err(ScriptFault::Outside { line, rule }) => Err(Status::ScriptFault { line, rule }),
        Err(ScriptFault::NoMemory) => Err(Status::NoMemory),
    }
}

/// The lines of the script that the source has, or why they are not run.
fn read_lines<S: Source>(alloc: Global, script: &mut S) -> Result<Script, Status>
    ensures read { IfOk result (IsScript (S.bytes_left script.old)) }
    ensures steady { IfOk result AreSteadyLines }
    ensures few { IfOk result (λ lines. length lines ≤ MAX_SCRIPT_BYTES) }
    ensures readable { OnOk result (WhereKnown (S.bytes_left script.old) IsReadable) }
    ensures end { OnOk result (IsAtEnd (S.bytes_left script.new)) }
    ensures refused { IfErr result (RefusesScript (S.bytes_left script.old) (S.fault_count script.old) (S.fault_count script.new)) }
    ensures taken { TakesAtMost (MAX_SCRIPT_BYTES + 1) (S.bytes_left script.old) (S.bytes_left script.new) }
    ensures one_more { IfErr result (λ refused. refused ≡ status.ScriptTooLong
        → Takes (MAX_SCRIPT_BYTES + 1) (S.bytes_left script.old) (S.bytes_left script.new)) }
    ensures never_falls { S.fault_count script.old ≤ S.fault_count script.new }
{
    let bytes = match read_script(alloc, script) {
        Ok(bytes) => bytes,
        Err(ReadFault::SourceFault) => return Err(Status::SourceFault),
        Err(ReadFault::ScriptTooLong) => return Err(Status::ScriptTooLong),
        Err(ReadFault::NoMemory) => return Err(Status::NoMemory),
    };
    parse_lines(alloc, &bytes)
}

/// Runs the lines of a script over a disk that can be stopped meanwhile. The disk is handed back.
fn run_lines<D: Disk>(alloc: Global, disk: D, script: &Script) -> Ended<D>
    requires steady { AreSteadyLines script.now }
    requires few { length script.now ≤ MAX_SCRIPT_BYTES }
    ensures disk { IsSome result.disk }
    ensures headline { IsTrue D.known → (before : List Sector) → D.cells disk ≡ settled_as before → IsSound before
        → IfSome result.disk (λ after. Headline before script.now result.status result.said.items result.mounts.items (D.cells after)) }
    ensures first_image { IsTrue D.known → (before : List Sector) → D.cells disk ≡ settled_as before
        → IfSome result.disk (λ after. FitsFirstImage before script.now result.said.items result.mounts.items (D.cells after)) }
    ensures log { KeepToLog result.mounts.items no_mount result.said.items }
    ensures status { (result.status ≡ status.Good) ⊎ (result.status ≡ status.NoMemory) }
    ensures all { result.status ≡ status.Good → length result.said.items ≡ length script.now }
    ensures most { length result.said.items ≤ length script.now }
    ensures groups { result.groups.items ≡ [] }
{
    let run = run_script(alloc, StopDisk::new(disk), script.lines());
    Ended {
        status: run.status,
        disk: Some(run.disk.inner()),
        mounts: run.mounts,
        groups: Vec::new(alloc),
        said: run.said,
    }
}

/// Runs the script over the disk at a path. It is read whole, at most 2^24 bytes, before anything else is done. Where lines are outside the grammar, the first of them is a script
/// fault, by the least rule that it breaks; and else the first line that is not run yet, by rule 0. Then the disk is attached, and the lines are run. A mount that is up at the end is
/// left as by a stop. The disk that was given is handed back.
pub fn run_steps<I: Images, S: Source>(
    alloc: Global,
    path: &str,
    images: &mut I,
    script: &mut S,
) -> Ended<I::Disk>
    ensures { RunsSteps (record {
      given = I.given;
      faults = I.fault_count;
      image_at = I.image_at;
      known = I.Disk.known;
      cells = I.Disk.cells;
      sectors = I.Disk.sector_count;
      disk_faults = I.Disk.fault_count;
    })
        (record { bytes_left = S.bytes_left; faults = S.fault_count }) path.now images.old images.new script.old script.new
        result.status result.disk result.mounts.items result.groups.items result.said.items }
{
    one_first_fault();
    one_command();
    let lines = match read_lines(alloc, script) {
        Ok(lines) => lines,
        Err(status) => return ended_early(alloc, status),
    };
    match images.attach(path) {
        Ok(disk) => run_lines(alloc, disk, &lines),
        Err(Refused::Failed) => ended_early(alloc, Status::OpenFault),
        Err(Refused::NoMemory) => ended_early(alloc, Status::NoMemory),
    }
}
