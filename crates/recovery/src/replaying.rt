// A log brought home.
ghost use Rattle.std.specs.Prelude.{ℕ, ◌≡◌, ◌≤◌, ◌<◌, ◌+◌, ◌↔◌, List, IsTrue, IsErrOf, IfOk, OnOk, length, slice_set};
ghost use Rattle.std.specs.List.{All};
ghost use Rattle.life_bytes.specs.declared.sector.Sector.{Sector};
ghost use Rattle.life_ports.specs.Faults.{NeverFalls, Rose};
ghost use Rattle.geometry.specs.Shape.{IsGeometry};
ghost use Rattle.geometry.specs.Places.{anchor_of};
ghost use Rattle.disk_model.specs.Disk.{Elapses, HasOneImage, IsImage, as_read};
ghost use Rattle.log_image.specs.Anchor.{anchor_sector};
ghost use Rattle.log_image.specs.Overlay.{overlaid};
ghost use Rattle.recovery.specs.Found.{HasGroupImages, LogIsFound};
ghost use Rattle.recovery.specs.Put.{IsPartlyPut, MakesWrites};
ghost use Rattle.recovery.specs.Replay.{AreUsedUp, BeginsAnew, HasDeviceCause, IsBehind, IsEither, IsOfReplay, brought_home, groups_found};

use crate::found::Found;
use crate::homes::HomeImages;
use crate::scanning::anchor_of;
use crate::start::{ReplayFault, Start, start_behind};
use disk_model::Disk;
use geometry::Geometry;
use life_bytes::Sector;
use log_image::{Anchor, home_writes, logs, write_anchor};

/// Writes each image home, and flushes.
fn settle_home<D: Disk>(disk: &mut D, images: &HomeImages) -> Result<(), ReplayFault>
    requires { All (λ image. image.home < D.sector_count disk.old) images.now }
    ensures reads { IsTrue D.known → OnOk result (as_read (D.cells disk.new) ≡ overlaid (as_read (D.cells disk.old)) images.now) }
    ensures one { IsTrue D.known → OnOk result (HasOneImage (D.cells disk.new)) }
    ensures left { IsTrue D.known → HasOneImage (D.cells disk.old) → (image : List Sector) → IsImage (D.cells disk.new) image
        → IsPartlyPut images.now (as_read (D.cells disk.old)) image }
    ensures time { IsTrue D.known → HasOneImage (D.cells disk.old) → Elapses (D.moment disk.old) (D.moment disk.new)
        (D.left_since disk.old) (D.left_since disk.new) (IsPartlyPut images.now (as_read (D.cells disk.old))) }
    ensures sectors { D.sector_count disk.new ≡ D.sector_count disk.old }
    ensures writes { MakesWrites (length images.now) result (D.arming disk.old) (D.arming disk.new) }
    ensures cause { HasDeviceCause result (D.fault_count disk.old) (D.fault_count disk.new) }
{
    let Ok(()) = images.write_home(disk) else {
        return Err(ReplayFault::WriteFault);
    };
    let Ok(()) = disk.flush() else {
        return Err(ReplayFault::FlushFault);
    };
    Ok(())
}

/// Writes one sector, and flushes.
fn settle_sector<D: Disk>(disk: &mut D, at: u64, sector: &Sector) -> Result<(), ReplayFault>
    requires { at < D.sector_count disk.old }
    ensures reads { IsTrue D.known → OnOk result (as_read (D.cells disk.new) ≡ slice_set (as_read (D.cells disk.old)) at sector.now) }
    ensures one { IsTrue D.known → OnOk result (HasOneImage (D.cells disk.new)) }
    ensures left { IsTrue D.known → HasOneImage (D.cells disk.old) → (image : List Sector) → IsImage (D.cells disk.new) image
        → IsEither (as_read (D.cells disk.old)) at sector.now image }
    ensures time { IsTrue D.known → HasOneImage (D.cells disk.old) → Elapses (D.moment disk.old) (D.moment disk.new)
        (D.left_since disk.old) (D.left_since disk.new) (IsEither (as_read (D.cells disk.old)) at sector.now) }
    ensures sectors { D.sector_count disk.new ≡ D.sector_count disk.old }
    ensures writes { MakesWrites 1 result (D.arming disk.old) (D.arming disk.new) }
    ensures cause { HasDeviceCause result (D.fault_count disk.old) (D.fault_count disk.new) }
{
    let Ok(()) = disk.write(at, &[*sector]) else {
        return Err(ReplayFault::WriteFault);
    };
    let Ok(()) = disk.flush() else {
        return Err(ReplayFault::FlushFault);
    };
    Ok(())
}

/// The sector of the anchor with which a log begins.
fn anchor_at(start: &Start) -> Sector
    ensures { result ≡ anchor_sector start.now.position start.now.next_commit }
{
    let mut sector = Sector::zero();
    write_anchor(
        &Anchor {
            position: start.position,
            next_commit: start.next_commit,
        },
        &mut sector,
    );
    sector
}

/// Brings home what was found of the disk's log: writes each image to its sector, by ascending home, flushes, writes the
/// anchor with which the log begins anew, and flushes.
///
/// A stop at any moment of it leaves an image whose log replays to the same groups, with the same next commit number, and in which no other sector has changed,
/// those behind the image included. It makes one write for each home and one for the anchor, and no other. That the homes ascend no contract of a disk can
/// show, since a stop may leave any of the sectors that were written since a flush.
pub fn replay<D: Disk>(disk: &mut D, g: &Geometry, found: &Found) -> Result<Start, ReplayFault>
    requires shape { IsGeometry g.now }
    requires size { anchor_of g.now + 1 + g.now.ring ≤ D.sector_count disk.old }
    requires homes { HasGroupImages (anchor_of g.now) found.now }
    requires found { IsTrue D.known → LogIsFound (as_read (D.cells disk.old)) (anchor_of g.now) g.now.ring found.now }
    requires one { IsTrue D.known → HasOneImage (D.cells disk.old) }
    ensures start { IfOk result (IsBehind g.now.ring found.now) }
    ensures anew { IsTrue D.known → IfOk result (BeginsAnew (anchor_of g.now) g.now.ring
        (groups_found (anchor_of g.now) (as_read (D.cells disk.old)) found.now) (D.cells disk.new)) }
    // The homes, and the anchor in front of the ring, are all that is changed, at every moment and whatever the answer.
    ensures reads { IsTrue D.known → IfOk result (λ start. as_read (D.cells disk.new)
        ≡ brought_home (anchor_of g.now) (as_read (D.cells disk.old)) found.now start) }
    ensures left { IsTrue D.known → (image : List Sector) → IsImage (D.cells disk.new) image
        → IsOfReplay (anchor_of g.now) g.now.ring found.now (as_read (D.cells disk.old)) image }
    ensures time { IsTrue D.known → Elapses (D.moment disk.old) (D.moment disk.new) (D.left_since disk.old) (D.left_since disk.new)
        (IsOfReplay (anchor_of g.now) g.now.ring found.now (as_read (D.cells disk.old))) }
    ensures position_end { IsErrOf result ReplayFault.PositionEnd ↔ AreUsedUp g.now.ring found.now }
    ensures untouched { IsErrOf result ReplayFault.PositionEnd → disk.new ≡ disk.old }
    ensures write_fault { IsErrOf result ReplayFault.WriteFault → Rose (D.fault_count disk.old) (D.fault_count disk.new) }
    ensures flush_fault { IsErrOf result ReplayFault.FlushFault → Rose (D.fault_count disk.old) (D.fault_count disk.new) }
    ensures count { NeverFalls (D.fault_count disk.old) (D.fault_count disk.new) }
    ensures sectors { D.sector_count disk.new ≡ D.sector_count disk.old }
    ensures writes { MakesWrites (length found.now.images + 1) result (D.arming disk.old) (D.arming disk.new) }
{
    home_writes();
    logs();
    let Some(start) = start_behind(found, g.ring) else {
        return Err(ReplayFault::PositionEnd);
    };
    let anchor = anchor_of(g);
    settle_home(disk, &found.images)?;
    settle_sector(disk, anchor, &anchor_at(&start))?;
    Ok(start)
}
