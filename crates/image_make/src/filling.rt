// The writes of all but the superblock. Up to there sector 0 is zero, whatever a stop leaves.

ghost use Rattle.std.specs.Prelude.{◌≡◌, ◌+◌, ◌++◌, ◌<◌, ◌≤◌, IsTrue, OnOk, drop, length, take};
ghost use Rattle.life_ports.specs.Faults.{HasCause};
ghost use Rattle.disk_model.specs.Disk.{FailsAs, as_read};
ghost use Rattle.disk_model.specs.Disk.CallKind.{WriteCall};
ghost use Rattle.geometry.specs.Shape.{IsGeometry};
ghost use Rattle.geometry.specs.Places.{anchor_of};
ghost use Rattle.log_image.specs.Anchor.{anchor_sector};
ghost use Rattle.image_make.specs.Empty.{AreMade, AwaitsSuperblock};
ghost use Rattle.image_make.specs.Outcome.{IsBlank, LeavesBlank, LeavesOnly};

use crate::empty::{HEAD_PLACE, empty_bitmap, empty_head};
use disk_model::Disk;
use geometry::Geometry;
use life_bytes::Sector;
use life_limits::BLOCK_SECTORS;
use life_ports::Failed;
use log_image::{Anchor, write_anchor};

/// Writes sectors behind sector 0.
fn write_behind<D: Disk>(disk: &mut D, at: u64, pieces: &[Sector]) -> Result<(), Failed>
    requires some { 0 < length pieces.now }
    requires behind { 0 < at }
    requires within { at + length pieces.now ≤ D.sector_count disk.old }
    requires blank { IsTrue D.known → LeavesBlank (D.cells disk.old) }
    ensures leaves { LeavesOnly D.known D.cells D.sector_count D.moment D.arming D.left_since IsBlank disk.old disk.new }
    ensures read { IsTrue D.known → OnOk result (as_read (D.cells disk.new) ≡ take at (as_read (D.cells disk.old)) ++ pieces.now
        ++ drop (at + length pieces.now) (as_read (D.cells disk.old))) }
    ensures cause { HasCause result (D.fault_count disk.old) (D.fault_count disk.new) }
    ensures kind { FailsAs WriteCall result (λ kind. D.only_failed kind disk.old disk.new) }
{
    disk.write(at, pieces)
}

/// Writes the header, the bitmap and the page of each group, on a disk that reads as zero.
fn write_groups<D: Disk>(g: &Geometry, disk: &mut D) -> Result<(), Failed>
    requires shape { IsGeometry g.now }
    requires size { anchor_of g.now + 1 + g.now.ring ≤ D.sector_count disk.old }
    requires blank { IsTrue D.known → LeavesBlank (D.cells disk.old) }
    requires zero { IsTrue D.known → AreMade g.now 0 (as_read (D.cells disk.old)) }
    ensures leaves { LeavesOnly D.known D.cells D.sector_count D.moment D.arming D.left_since IsBlank disk.old disk.new }
    ensures made { IsTrue D.known → OnOk result (AreMade g.now g.now.groups (as_read (D.cells disk.new))) }
    ensures cause { HasCause result (D.fault_count disk.old) (D.fault_count disk.new) }
    ensures kind { FailsAs WriteCall result (λ kind. D.only_failed kind disk.old disk.new) }
{
    let free_blocks = empty_bitmap(g.blocks);
    for group in 0..g.groups {
        let at = group * (g.blocks * BLOCK_SECTORS) + HEAD_PLACE;
        write_behind(disk, u64::from(at), &empty_head(g, group, &free_blocks))?;
    }
    Ok(())
}

/// The anchor of a log without records, which goes on one turn of the ring behind its beginning.
fn first_anchor(g: &Geometry) -> Sector
    ensures { result ≡ anchor_sector g.now.ring 1 }
{
    let mut sector = Sector::zero();
    let anchor = Anchor {
        position: u64::from(g.ring),
        next_commit: 1,
    };
    write_anchor(&anchor, &mut sector);
    sector
}

/// Writes all but the superblock.
pub(crate) fn write_without_superblock<D: Disk>(g: &Geometry, disk: &mut D) -> Result<(), Failed>
    requires shape { IsGeometry g.now }
    requires size { anchor_of g.now + 1 + g.now.ring ≤ D.sector_count disk.old }
    requires blank { IsTrue D.known → LeavesBlank (D.cells disk.old) }
    requires zero { IsTrue D.known → AreMade g.now 0 (as_read (D.cells disk.old)) }
    ensures leaves { LeavesOnly D.known D.cells D.sector_count D.moment D.arming D.left_since IsBlank disk.old disk.new }
    ensures made { IsTrue D.known → OnOk result (AwaitsSuperblock g.now (as_read (D.cells disk.new))) }
    ensures cause { HasCause result (D.fault_count disk.old) (D.fault_count disk.new) }
    ensures kind { FailsAs WriteCall result (λ kind. D.only_failed kind disk.old disk.new) }
{
    write_groups(g, disk)?;
    let at = g.groups * (g.blocks * BLOCK_SECTORS);
    write_behind(disk, u64::from(at), &[first_anchor(g)])
}
