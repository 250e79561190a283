//! The groups of a disk's image, as its log leaves them.

ghost use Rattle.std.specs.Prelude.{◌≡◌, ◌≤◌, ◌+◌, IsTrue, IfOk, IfErr, OnOk};
ghost use Rattle.geometry.specs.Shape.{IsGeometry};
ghost use Rattle.geometry.specs.Places.{anchor_of};
ghost use Rattle.disk_model.specs.Disk.{as_read};
ghost use Rattle.disk_model.specs.View.{OnlyRead};
ghost use Rattle.sound_image.specs.Damage.{AreGroupsSound};
ghost use Rattle.log_image.specs.Log.{groups_part};
ghost use Rattle.image_rules.specs.Counted.{HasTables};
ghost use Rattle.image_rules.specs.Faults.{IsCaused, IsDamage};
ghost use Rattle.recovery.specs.Replay.{groups_found};

use crate::first_sectors::FirstSectors;
use disk_model::{Disk, View};
use geometry::{Geometry, image_sectors};
use image_rules::{CheckFault, Tables, check_groups};
use log_image::overlays;
use recovery::Found;
use std::alloc::Global;

/// Checks the groups of the image that a view shows, whatever is behind them.
fn check_front<V: View>(alloc: Global, view: &mut V, g: &Geometry) -> Result<Tables, CheckFault>
    requires shape { IsGeometry g.now }
    requires size { anchor_of g.now ≤ V.sector_count view.old }
    ensures sound { IsTrue V.known → OnOk result (AreGroupsSound g.now (groups_part (anchor_of g.now) (V.image view.old))) }
    ensures counted { IsTrue V.known → IfOk result (HasTables g.now (groups_part (anchor_of g.now) (V.image view.old))) }
    ensures damaged { IsTrue V.known → IfErr result (IsDamage g.now (groups_part (anchor_of g.now) (V.image view.old))) }
    ensures read_fault { IfErr result (IsCaused (V.fault_count view.old) (V.fault_count view.new)) }
    ensures only_read { V.only_read view.old view.new }
{
    let sectors = image_sectors(g) - 1 - u64::from(g.ring);
    let mut groups = FirstSectors::new(view, sectors);
    check_groups(alloc, &mut groups, g)
}

/// Checks the groups of a disk's image with what was found of its log over them.
pub(crate) fn check_replayed<D: Disk>(
    alloc: Global,
    disk: &mut D,
    g: &Geometry,
    found: &Found,
) -> Result<Tables, CheckFault>
    requires shape { IsGeometry g.now }
    requires size { anchor_of g.now ≤ D.sector_count disk.old }
    ensures sound { IsTrue D.known → OnOk result (AreGroupsSound g.now (groups_found (anchor_of g.now) (as_read (D.cells disk.old)) found.now)) }
    ensures counted { IsTrue D.known → IfOk result (HasTables g.now (groups_found (anchor_of g.now) (as_read (D.cells disk.old)) found.now)) }
    ensures damaged { IsTrue D.known → IfErr result (IsDamage g.now (groups_found (anchor_of g.now) (as_read (D.cells disk.old)) found.now)) }
    ensures read_fault { IfErr result (IsCaused (D.fault_count disk.old) (D.fault_count disk.new)) }
    ensures only_reads { OnlyRead D.known D.cells D.sector_count D.fault_count D.arming D.moment D.left_since disk.old disk.new }
{
    overlays();
    let mut view = found.overlay(disk);
    check_front(alloc, &mut view, g)
}
