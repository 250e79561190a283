// The whole of a run, from the words of the command line to the bytes that are written.

ghost use Rattle.std.specs.Prelude.{◌≡◌, ℕ, List, [], Option, IsSome, MatchOption};
ghost use Rattle.geometry.specs.declared.shape.Geometry.{Geometry};
ghost use Rattle.life_ports.specs.Faults.{Rose};
ghost use Rattle.life_cli.specs.Checking.{RunsCheck};
ghost use Rattle.life_cli.specs.declared.checking.Numbers.{Numbers};
ghost use Rattle.life_cli.specs.Form.{IsCheck, IsMake, IsNoForm, IsSteps};
ghost use Rattle.life_cli.specs.Making.{RunsMake, sectors_of};
ghost use Rattle.life_cli.specs.Outcome.{EndsWith, IsEarly, IsGiven, RunsNothing};
ghost use Rattle.life_cli.specs.Steps.{RunsSteps};
ghost use Rattle.life_cli.specs.Texts.{check_output, make_output};
ghost use Rattle.script.specs.Texts.{output};
ghost use Rattle.script.specs.declared.status.Status.TheVariants as status;

use crate::checking::{Checked, run_check};
use crate::ending::{Ended, ended_early, write_check, write_make, write_run, write_shortage};
use crate::form::{Form, read_form};
use crate::making::run_make;
use crate::steps::run_steps;
use disk_model::Images;
use life_ports::{NoMemory, Sink, Source};
use script::Status;
use std::alloc::Global;

/// Runs the program's words over these images, a script and a sink.
///
/// The words are `steps` and the path of an image, `check` and such a path, or `make`, a path and the groups, the blocks of a group and the sectors of the ring of an image that is to
/// be made there. The output is written once, at the end. `make` reads no script. A disk that was given is handed back.
pub fn top<I: Images, S: Source, K: Sink>(
    alloc: Global,
    words: &[String],
    images: &mut I,
    script: &mut S,
    out: &mut K,
) -> Ended<I::Disk>
    // What each form of words promises, and what is written of it.
    ensures steps { (path : List ℕ) → IsSteps words.now path → EndsWith (λ own. RunsSteps
        (record {
          given = I.given;
          faults = I.fault_count;
          image_at = I.image_at;
          known = I.Disk.known;
          cells = I.Disk.cells;
          sectors = I.Disk.sector_count;
          disk_faults = I.Disk.fault_count;
        })
        (record { bytes_left = S.bytes_left; faults = S.fault_count }) path images.old images.new script.old script.new
        own result.disk result.mounts.items result.groups.items result.said.items)
        (output result.said.items result.mounts.items result.groups.items) (K.bytes_held out.old) (K.bytes_held out.new) result.status }
    ensures make { (path : List ℕ) (g : Geometry) → IsMake words.now path g → EndsWith (λ own. RunsMake
        (record {
          given = I.given;
          faults = I.fault_count;
          image_at = I.image_at;
          known = I.Disk.known;
          cells = I.Disk.cells;
          sectors = I.Disk.sector_count;
          disk_faults = I.Disk.fault_count;
        })
        path g images.old images.new own result.disk result.mounts.items result.groups.items result.said.items)
        (make_output (sectors_of g)) (K.bytes_held out.old) (K.bytes_held out.new) result.status }
    ensures check { (path : List ℕ) → IsCheck words.now path → (found : Option Numbers) × EndsWith (λ own. RunsCheck
        (record {
          given = I.given;
          faults = I.fault_count;
          image_at = I.image_at;
          known = I.Disk.known;
          cells = I.Disk.cells;
          sectors = I.Disk.sector_count;
          disk_faults = I.Disk.fault_count;
        })
        path images.old images.new own result.disk found result.mounts.items result.groups.items result.said.items)
        (check_output found) (K.bytes_held out.old) (K.bytes_held out.new) result.status }
    ensures no_form { IsNoForm words.now → EndsWith (λ own. RunsNothing images.old images.new
        own result.disk result.mounts.items result.groups.items result.said.items)
        (output [] [] []) (K.bytes_held out.old) (K.bytes_held out.new) result.status }

    // Of every form: the words are faulty only where they are in none, and the sink failed only where its count rose.
    ensures usage { result.status ≡ status.Usage → IsNoForm words.now }
    ensures sink_fault { result.status ≡ status.SinkFault → Rose (K.fault_count out.old) (K.fault_count out.new) }

    // Only `steps` touches the script.
    ensures unread { ((path : List ℕ) → IsSteps words.now path → ⊥) → script.new ≡ script.old }

    // A disk is handed back exactly where one was given, which is at most one, and where the run ended well.
    ensures handed_back { MatchOption result.disk
        ((I.given images.new ≡ I.given images.old) × IsEarly result.mounts.items result.groups.items result.said.items)
        (λ _. IsGiven words.now (I.given images.old) (I.given images.new)) }
    ensures disk { result.status ≡ status.Good → IsSome result.disk }
{
    let form = match read_form(alloc, words) {
        Ok(form) => form,
        Err(NoMemory) => return write_shortage(alloc, out),
    };
    match form {
        Some(Form::Steps { path }) => write_run(alloc, run_steps(alloc, path, images, script), out),
        Some(Form::Make { path, geometry }) => {
            write_make(
                alloc,
                &geometry,
                run_make(alloc, path, &geometry, images),
                out,
            )
        }
        Some(Form::Check { path }) => {
            let Checked { ended, found } = run_check(alloc, path, images);
            write_check(alloc, &found, ended, out)
        }
        None => write_run(alloc, ended_early(alloc, Status::Usage), out),
    }
}
