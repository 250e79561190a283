//! A disk's image recovered: inspected, and its log brought home.

ghost use Rattle.std.specs.Prelude.{◌≡◌, ◌≤◌, ◌<◌, ◌+◌, IsTrue, IfOk, IfErr, OnOk};
ghost use Rattle.life_limits.specs.declared.TheConstants.{MOUNT_LIMIT};
ghost use Rattle.life_ports.specs.Faults.{NeverFalls};
ghost use Rattle.geometry.specs.Shape.{IsGeometry};
ghost use Rattle.geometry.specs.Places.{anchor_of};
ghost use Rattle.disk_model.specs.Disk.{Elapses, as_read};
ghost use Rattle.mount.specs.Faults.{IsDeviceCause, IsMountCause};
ghost use Rattle.mount.specs.Left.{Arms, IsHandedBack};
ghost use Rattle.mount.specs.Positions.{ArePositionsUsedUp};
ghost use Rattle.mount.specs.Recovered.{IsRecovered};
ghost use Rattle.mount.specs.Same.{IsLeftBy};

use crate::fault::MountFault;
use crate::laws::{positions_are_told, replays_keep_the_table};
use disk_model::Disk;
use geometry::Geometry;
use inspect::inspect_with_log;
use recovery::{Start, replay};
use std::alloc::Global;

/// An image that was recovered.
#[derive(Clone, Copy, Debug, PartialEq, Eq)]
pub struct Recovery {
    pub geometry: Geometry,
    /// Where its log begins anew.
    pub start: Start,
}

/// Recovers the image of a disk: inspects it, flushes, so that what was inspected can't be lost, and brings its log home. The log is empty then.
///
/// It reads each sector that it needs once, and writes each logged sector home once, and then the anchor.
pub fn recover<D: Disk>(alloc: Global, disk: &mut D) -> Result<Recovery, MountFault>
    // Where the disk tells what it holds.
    ensures recovered { IsTrue D.known → IfOk result (λ r. IsRecovered (as_read (D.cells disk.old)) r.geometry r.start (D.cells disk.new)) }
    ensures positions { IsTrue D.known → OnOk result (¬ ArePositionsUsedUp (as_read (D.cells disk.old))) }
    ensures every_moment { IsTrue D.known → Elapses (D.moment disk.old) (D.moment disk.new) (D.left_since disk.old) (D.left_since disk.new) (IsLeftBy (D.cells disk.old)) }
    ensures handed_back { IsTrue D.known → IsHandedBack result (D.cells disk.old) (D.cells disk.new) }
    ensures cause { IsTrue D.known → IfErr result (IsMountCause (as_read (D.cells disk.old))) }
    // Whether it tells or not.
    ensures shape { IfOk result (λ r. IsGeometry r.geometry) }
    ensures size { IfOk result (λ r. anchor_of r.geometry + 1 + r.geometry.ring ≤ D.sector_count disk.new) }
    ensures position { IfOk result (λ r. (r.geometry.ring ≤ r.start.position) × (r.start.position < MOUNT_LIMIT)) }
    ensures number { IfOk result (λ r. (1 ≤ r.start.next_commit) × (r.start.next_commit < MOUNT_LIMIT)) }
    ensures device { IfErr result (IsDeviceCause (D.fault_count disk.old) (D.fault_count disk.new)) }
    ensures count { NeverFalls (D.fault_count disk.old) (D.fault_count disk.new) }
    ensures sectors { D.sector_count disk.new ≡ D.sector_count disk.old }
    ensures writes { Arms result (D.arming disk.old) (D.arming disk.new) }
{
    positions_are_told();
    replays_keep_the_table();
    let found = inspect_with_log(alloc, disk)?;
    let Ok(()) = disk.flush() else {
        return Err(MountFault::FlushFault);
    };
    let start = replay(disk, &found.geometry, &found.log)?;
    Ok(Recovery {
        geometry: found.geometry,
        start,
    })
}
