// The making of an image at a path.

ghost use Rattle.std.specs.Prelude.{◌≡◌, IfSome, IsSome, IsTrue, replicate};
ghost use Rattle.life_bytes.specs.Sectors.{zero_sector};
ghost use Rattle.disk_model.specs.Disk.{settled_as};
ghost use Rattle.geometry.specs.Shape.{IsGeometry};
ghost use Rattle.life_cli.specs.Making.{EndsMake, IsMaking, RunsMake, make_status, sectors_of};
ghost use Rattle.life_cli.specs.Outcome.{IsEarly};

use crate::ending::{Ended, ended_early};
use disk_model::{Disk, Images};
use geometry::{Geometry, image_sectors};
use image_make::{MakeFault, make};
use life_ports::Refused;
use script::Status;
use std::alloc::Global;

fn status_of(made: Result<(), MakeFault>) -> Status
    ensures status { result ≡ make_status made }
    ensures ends { EndsMake result }
{
    match made {
        Ok(()) => Status::Good,
        Err(MakeFault::WriteFault) => Status::WriteFault,
        Err(MakeFault::FlushFault) => Status::FlushFault,
    }
}

/// Makes an image on a disk that was created for it.
fn make_on<D: Disk>(alloc: Global, mut disk: D, g: &Geometry) -> Ended<D>
    requires shape { IsGeometry g.now }
    requires size { D.sector_count disk ≡ sectors_of g.now }
    requires blank { IsTrue D.known → D.cells disk ≡ settled_as (replicate (D.sector_count disk) zero_sector) }
    ensures disk { IsSome result.disk }
    ensures making { IfSome result.disk (λ after. IsMaking D.known g.now (D.cells after) (D.sector_count after) (D.fault_count disk) (D.fault_count after) result.status) }
    ensures early { IsEarly result.mounts.items result.groups.items result.said.items }
    ensures ends { EndsMake result.status }
{
    let made = make(g, &mut disk);
    Ended {
        status: status_of(made),
        disk: Some(disk),
        mounts: Vec::new(alloc),
        groups: Vec::new(alloc),
        said: Vec::new(alloc),
    }
}

/// Creates a disk at a path, and makes an image on it. The disk that was given is handed back.
pub fn run_make<I: Images>(
    alloc: Global,
    path: &str,
    g: &Geometry,
    images: &mut I,
) -> Ended<I::Disk>
    requires { IsGeometry g.now }
    ensures { RunsMake (record {
      given = I.given;
      faults = I.fault_count;
      image_at = I.image_at;
      known = I.Disk.known;
      cells = I.Disk.cells;
      sectors = I.Disk.sector_count;
      disk_faults = I.Disk.fault_count;
    })
        path.now g.now images.old images.new result.status result.disk result.mounts.items result.groups.items result.said.items }
{
    match images.create(path, image_sectors(g)) {
        Ok(disk) => make_on(alloc, disk, g),
        Err(Refused::Failed) => ended_early(alloc, Status::OpenFault),
        Err(Refused::NoMemory) => ended_early(alloc, Status::NoMemory),
    }
}
