// How a run ends: before it began, or with what is written of it.

ghost use Rattle.std.specs.Prelude.{◌≡◌, ◌≢◌, ◌≤◌, [], ℕ, List, IfOk, IsNone, string_bytes};
ghost use Rattle.life_ports.specs.Faults.{Rose};
ghost use Rattle.geometry.specs.Shape.{IsGeometry};
ghost use Rattle.life_cli.specs.Checking.{EndsCheck};
ghost use Rattle.life_cli.specs.Making.{EndsMake, sectors_of};
ghost use Rattle.life_cli.specs.Outcome.{IsWritten, Yields};
ghost use Rattle.script.specs.Texts.{output};
ghost use Rattle.life_cli.specs.Texts.{check_output, make_output};
ghost use Rattle.script.specs.declared.status.Status.{Status};
ghost use Rattle.script.specs.declared.status.Status.TheVariants as status;

use crate::checking::Numbers;
use crate::output::write_whole;
use crate::texts::{print_check, print_made};
use geometry::{Geometry, image_sectors};
use life_ports::{Failed, NoMemory, Sink};
use life_table::MountRecord;
use script::{GroupStory, Said, Status, no_memory_line, print_run};
use std::alloc::Global;

/// A run of the program that is over.
#[derive(Drop)]
pub struct Ended<D> {
    pub status: Status,
    /// The disk that was given, if one was.
    pub disk: Option<D>,
    /// What is recorded of the mounts of a script, in order. One that was up at the end is left there as by a stop.
    pub mounts: Vec<MountRecord>,
    /// What happened under each group's lock, where each actor has a worker of its own: nothing as yet.
    pub groups: Vec<GroupStory>,
    /// The answers of a script's lines, in order.
    pub said: Vec<Said>,
}

/// A run that ended before it was given a disk.
pub(crate) fn ended_early<D>(alloc: Global, status: Status) -> Ended<D>
    ensures status { result.status ≡ status }
    ensures disk { IsNone result.disk }
    ensures mounts { result.mounts.items ≡ [] }
    ensures groups { result.groups.items ≡ [] }
    ensures said { result.said.items ≡ [] }
{
    Ended {
        status,
        disk: None,
        mounts: Vec::new(alloc),
        groups: Vec::new(alloc),
        said: Vec::new(alloc),
    }
}

/// The same run, ended so.
pub(crate) fn with_status<D>(ended: Ended<D>, status: Status) -> Ended<D>
    ensures { result ≡ record ended { status = status } }
{
    let Ended {
        disk,
        mounts,
        groups,
        said,
        ..
    } = ended;
    Ended {
        status,
        disk,
        mounts,
        groups,
        said,
    }
}

/// Writes what was printed of a run. Its status becomes that of the sink where that failed, and that of running out of memory
/// where there was none to print.
fn write_out<D, K: Sink>(
    printed: Result<String, NoMemory>,
    ended: Ended<D>,
    out: &mut K,
) -> Ended<D>
    requires { ended.status ≢ status.SinkFault }
    ensures status { Yields result.status ended.status }
    ensures output { (told : Status → List ℕ) → IfOk printed (λ text. string_bytes text ≡ told ended.status)
        → IsWritten (K.bytes_held out.old) (K.bytes_held out.new) told ended.status result.status }
    ensures sink_fault { result.status ≡ status.SinkFault → Rose (K.fault_count out.old) (K.fault_count out.new) }
    ensures never_falls { K.fault_count out.old ≤ K.fault_count out.new }
    ensures disk { result.disk ≡ ended.disk }
    ensures mounts { result.mounts.items ≡ ended.mounts.items }
    ensures groups { result.groups.items ≡ ended.groups.items }
    ensures said { result.said.items ≡ ended.said.items }
{
    match printed {
        Ok(text) => match write_whole(out, text.as_bytes()) {
            Ok(()) => ended,
            Err(Failed) => with_status(ended, Status::SinkFault),
        },
        Err(NoMemory) => match write_whole(out, no_memory_line().as_bytes()) {
            Ok(()) => with_status(ended, Status::NoMemory),
            Err(Failed) => with_status(ended, Status::SinkFault),
        },
    }
}

/// Writes what a run of a script tells.
pub(crate) fn write_run<D, K: Sink>(alloc: Global, ended: Ended<D>, out: &mut K) -> Ended<D>
    requires { ended.status ≢ status.SinkFault }
    ensures status { Yields result.status ended.status }
    ensures output { IsWritten (K.bytes_held out.old) (K.bytes_held out.new) (output result.said.items result.mounts.items result.groups.items) ended.status result.status }
    ensures sink_fault { result.status ≡ status.SinkFault → Rose (K.fault_count out.old) (K.fault_count out.new) }
    ensures never_falls { K.fault_count out.old ≤ K.fault_count out.new }
    ensures disk { result.disk ≡ ended.disk }
    ensures mounts { result.mounts.items ≡ ended.mounts.items }
    ensures groups { result.groups.items ≡ ended.groups.items }
    ensures said { result.said.items ≡ ended.said.items }
{
    let printed = print_run(
        alloc,
        &ended.said,
        &ended.mounts,
        &ended.groups,
        ended.status,
    );
    write_out(printed, ended, out)
}

/// Writes what the making of an image tells.
pub(crate) fn write_make<D, K: Sink>(
    alloc: Global,
    g: &Geometry,
    ended: Ended<D>,
    out: &mut K,
) -> Ended<D>
    requires shape { IsGeometry g.now }
    requires ends { EndsMake ended.status }
    ensures status { Yields result.status ended.status }
    ensures output { IsWritten (K.bytes_held out.old) (K.bytes_held out.new) (make_output (sectors_of g.now)) ended.status result.status }
    ensures sink_fault { result.status ≡ status.SinkFault → Rose (K.fault_count out.old) (K.fault_count out.new) }
    ensures never_falls { K.fault_count out.old ≤ K.fault_count out.new }
    ensures disk { result.disk ≡ ended.disk }
    ensures mounts { result.mounts.items ≡ ended.mounts.items }
    ensures groups { result.groups.items ≡ ended.groups.items }
    ensures said { result.said.items ≡ ended.said.items }
{
    let printed = print_made(alloc, image_sectors(g), ended.status);
    write_out(printed, ended, out)
}

/// Writes what the check of an image tells, with what it found where that is sound.
pub(crate) fn write_check<D, K: Sink>(
    alloc: Global,
    found: &Option<Numbers>,
    ended: Ended<D>,
    out: &mut K,
) -> Ended<D>
    requires ends { EndsCheck ended.status }
    ensures status { Yields result.status ended.status }
    ensures output { IsWritten (K.bytes_held out.old) (K.bytes_held out.new) (check_output found.now) ended.status result.status }
    ensures sink_fault { result.status ≡ status.SinkFault → Rose (K.fault_count out.old) (K.fault_count out.new) }
    ensures never_falls { K.fault_count out.old ≤ K.fault_count out.new }
    ensures disk { result.disk ≡ ended.disk }
    ensures mounts { result.mounts.items ≡ ended.mounts.items }
    ensures groups { result.groups.items ≡ ended.groups.items }
    ensures said { result.said.items ≡ ended.said.items }
{
    let printed = print_check(alloc, found, ended.status);
    write_out(printed, ended, out)
}

/// Ends a run that was out of memory before its words were read.
pub(crate) fn write_shortage<D, K: Sink>(alloc: Global, out: &mut K) -> Ended<D>
    ensures status { Yields result.status status.NoMemory }
    ensures output { (told : Status → List ℕ) (own : Status) → IsWritten (K.bytes_held out.old) (K.bytes_held out.new) told own result.status }
    ensures sink_fault { result.status ≡ status.SinkFault → Rose (K.fault_count out.old) (K.fault_count out.new) }
    ensures disk { IsNone result.disk }
    ensures mounts { result.mounts.items ≡ [] }
    ensures groups { result.groups.items ≡ [] }
    ensures said { result.said.items ≡ [] }
{
    write_run(alloc, ended_early(alloc, Status::NoMemory), out)
}
