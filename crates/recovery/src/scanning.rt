//! What the log of a disk says.

ghost use Rattle.std.specs.Prelude.{ℕ, ◌≡◌, ◌≤◌, ◌<◌, ◌+◌, ◌*◌, ◌^◌, IsTrue, IsErrOf, IfOk, IfErr, MatchOption, length, take, drop};
ghost use Rattle.life_ports.specs.Faults.{Rose};
ghost use Rattle.geometry.specs.Shape.{IsGeometry};
ghost use Rattle.geometry.specs.Places.{anchor_of};
ghost use Rattle.disk_model.specs.Disk.{as_read};
ghost use Rattle.disk_model.specs.View.{OnlyRead};
ghost use Rattle.recovery.specs.Found.{HasGroupImages, LogIsFound};
ghost use Rattle.recovery.specs.Scan.{IsStart, NamesNoDamage, NoStart, NamesLogDamage};

use crate::fault::ScanFault;
use crate::found::Found;
use crate::ring::read_log;
use disk_model::Disk;
use geometry::{Geometry, image_sectors};
use life_bytes::Sector;
use log_image::{Anchor, overlays, read_anchor};
use std::alloc::Global;

/// The rule of the anchor among the rules of sound images.
const ANCHOR_RULE: u32 = 3;

/// The number of the anchor's sector, which is that of the groups' sectors.
pub(crate) fn anchor_of(g: &Geometry) -> u64
    requires { IsGeometry g.now }
    ensures at { result ≡ anchor_of g.now }
    ensures small { result + 1 + g.now.ring < 2 ^ 32 }
{
    image_sectors(g) - 1 - u64::from(g.ring)
}

/// What an anchor says that is right in front of a ring of so many sectors.
fn start_of(sector: &Sector, ring: u32) -> Option<Anchor>
    ensures { MatchOption result (NoStart sector.now ring) (IsStart sector.now ring) }
{
    let start = read_anchor(sector)?;
    if start.position < u64::from(ring) || start.next_commit == 0 {
        return None;
    }
    Some(start)
}

/// Reads so many sectors of the disk.
fn read_sectors<D: Disk>(
    alloc: Global,
    disk: &mut D,
    from: u64,
    count: u32,
) -> Result<Vec<Sector>, ScanFault>
    requires within { from + count ≤ D.sector_count disk.old }
    requires small { from + count < 2 ^ 64 }
    ensures sectors { IsTrue D.known → IfOk result (λ read. read.items ≡ take count (drop from (as_read (D.cells disk.old)))) }
    ensures size { IfOk result (λ read. length read.items ≡ count) }
    ensures fault { IfErr result NamesNoDamage }
    ensures only_reads { OnlyRead D.known D.cells D.sector_count D.fault_count D.arming D.moment D.left_since disk.old disk.new }
    ensures read_fault { IsErrOf result ScanFault.ReadFault → Rose (D.fault_count disk.old) (D.fault_count disk.new) }
{
    let mut read = Vec::with_capacity(alloc, count as usize)?;
    let mut sector = Sector::zero();
    for i in 0..u64::from(count) {
        disk.read(from + i, &mut sector)?;
        read.push(sector)?;
    }
    Ok(read)
}

/// What the log of a disk says, or the first of the two rules of the anchor and of the log that is broken, with the least
/// sector that is named for it. It only reads the disk: the anchor and the ring, once.
pub fn scan<D: Disk>(alloc: Global, disk: &mut D, g: &Geometry) -> Result<Found, ScanFault>
    requires shape { IsGeometry g.now }
    requires size { anchor_of g.now + 1 + g.now.ring ≤ D.sector_count disk.old }
    ensures found { IsTrue D.known → IfOk result (LogIsFound (as_read (D.cells disk.old)) (anchor_of g.now) g.now.ring) }
    ensures damaged { IsTrue D.known → IfErr result (NamesLogDamage (as_read (D.cells disk.old)) (anchor_of g.now) g.now.ring) }
    ensures homes { IfOk result (HasGroupImages (anchor_of g.now)) }
    ensures number { IfOk result (λ found. 1 ≤ found.next_commit) }
    ensures only_reads { OnlyRead D.known D.cells D.sector_count D.fault_count D.arming D.moment D.left_since disk.old disk.new }
    ensures read_fault { IsErrOf result ScanFault.ReadFault → Rose (D.fault_count disk.old) (D.fault_count disk.new) }
{
    overlays();
    let anchor = anchor_of(g);
    let mut sector = Sector::zero();
    disk.read(anchor, &mut sector)?;
    let Some(start) = start_of(&sector, g.ring) else {
        return Err(ScanFault::Damaged {
            rule: ANCHOR_RULE,
            sector: anchor,
        });
    };
    let ring = read_sectors(alloc, disk, anchor + 1, g.ring)?;
    read_log(alloc, &ring, anchor, &start)
}
