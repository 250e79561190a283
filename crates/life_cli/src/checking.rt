// The check of the image at a path.

ghost use Rattle.std.specs.Prelude.{◌≡◌, IfSome, IsSome};
ghost use Rattle.life_cli.specs.Checking.{EndsCheck, IsChecking, RunsCheck, fault_status};
ghost use Rattle.life_cli.specs.Outcome.{IsEarly};
ghost use Rattle.script.specs.declared.status.Status.{Status};

use crate::ending::{Ended, ended_early};
use disk_model::{Disk, Images};
use geometry::Geometry;
use image_rules::Tables;
use inspect::{InspectFault, inspect};
use life_ports::Refused;
use script::Status;
use std::alloc::Global;
use whole_image::one_first_damage;

/// What a check finds in a sound image: its geometry, and how many chunks, inodes in use, and inodes in use without links its table has.
#[derive(Clone, Copy, Debug, PartialEq, Eq)]
pub struct Numbers {
    pub geometry: Geometry,
    pub tables: Tables,
}

/// A run of a check, and what it found where the image is sound.
#[derive(Drop)]
pub struct Checked<D> {
    pub ended: Ended<D>,
    pub found: Option<Numbers>,
}

fn status_of(fault: InspectFault) -> Status
    ensures { result ≡ fault_status fault }
{
    match fault {
        InspectFault::Damaged { rule, sector } => Status::Damaged { rule, sector },
        InspectFault::ReadFault => Status::ReadFault,
        InspectFault::NoMemory => Status::NoMemory,
    }
}

// A check of a disk that ended so. It gives no answers.
fn ended_with<D>(alloc: Global, disk: D, status: Status, found: Option<Numbers>) -> Checked<D>
    ensures disk { result.ended.disk ≡ Some disk }
    ensures status { result.ended.status ≡ status }
    ensures found { result.found ≡ found }
    ensures early { IsEarly result.ended.mounts.items result.ended.groups.items result.ended.said.items }
{
    Checked {
        ended: Ended {
            status,
            disk: Some(disk),
            mounts: Vec::new(alloc),
            groups: Vec::new(alloc),
            said: Vec::new(alloc),
        },
        found,
    }
}

/// Checks the image of a disk, which is handed back.
fn check_disk<D: Disk>(alloc: Global, mut disk: D) -> Checked<D>
    ensures disk { IsSome result.ended.disk }
    ensures untouched { IfSome result.ended.disk (λ after. D.cells after ≡ D.cells disk) }
    ensures checked { IfSome result.ended.disk (λ after. IsChecking D.known (D.cells after) (D.fault_count disk) (D.fault_count after)
        result.ended.status result.found) }
    ensures early { IsEarly result.ended.mounts.items result.ended.groups.items result.ended.said.items }
    ensures ends { EndsCheck result.ended.status }
{
    one_first_damage();
    match inspect(alloc, &mut disk) {
        Ok((geometry, tables)) => {
            ended_with(
                alloc,
                disk,
                Status::Good,
                Some(Numbers { geometry, tables }),
            )
        }
        Err(fault) => ended_with(alloc, disk, status_of(fault), None),
    }
}

/// Checks the image that stands at a path by all rules of a sound image. It only reads. The disk that was given is handed back.
pub fn run_check<I: Images>(alloc: Global, path: &str, images: &mut I) -> Checked<I::Disk>
    ensures { RunsCheck (record {
      given = I.given;
      faults = I.fault_count;
      image_at = I.image_at;
      known = I.Disk.known;
      cells = I.Disk.cells;
      sectors = I.Disk.sector_count;
      disk_faults = I.Disk.fault_count;
    })
        path.now images.old images.new result.ended.status result.ended.disk result.found result.ended.mounts.items result.ended.groups.items result.ended.said.items }
{
    match images.attach(path) {
        Ok(disk) => check_disk(alloc, disk),
        Err(Refused::Failed) => Checked {
            ended: ended_early(alloc, Status::OpenFault),
            found: None,
        },
        Err(Refused::NoMemory) => Checked {
            ended: ended_early(alloc, Status::NoMemory),
            found: None,
        },
    }
}
