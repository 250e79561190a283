//! The bitmaps of the groups.

ghost use Rattle.std.specs.Prelude.{◌≡◌, ◌≢◌, ◌≤◌, ◌<◌, ◌*◌, ℕ, IsTrue, IfErr, IfNone, IfSome, OnOk, All, length};
ghost use Rattle.life_limits.specs.declared.TheConstants.{SECTOR_BYTES};
ghost use Rattle.life_bytes.specs.declared.sector.Sector.{Sector};
ghost use Rattle.geometry.specs.Places.{group_sectors};
ghost use Rattle.geometry.specs.Shape.{IsGeometry};
ghost use Rattle.sound_image.specs.Damage.{HoldsIn, bitmap};
ghost use Rattle.sound_image.specs.Places.{bytes_at};
ghost use Rattle.sound_image.specs.Reading.{group_read};
ghost use Rattle.sound_image.specs.Rules.{free_set};
ghost use Rattle.image_rules.specs.Faults.{IsCaused};
ghost use Rattle.image_rules.specs.Gathered.{BitmapFault};

use crate::fault::{CheckFault, GroupRule};
use crate::groups::sector_at;
use crate::inodes::has_its_bytes;
use crate::reading::read_sectors;
use disk_model::View;
use free_map::FreeMap;
use geometry::Geometry;
use life_bytes::Sector;
use std::alloc::Global;

/// The first sector of a group's bitmap in the group, and how many there are.
const BITMAP: u32 = 8;

const BITMAP_SECTORS: u64 = 4;

/// Each sector has 512 bytes, as each value of its type.
fn have_their_bytes(sectors: &[Sector])
    ensures { All (λ sector. length sector.bytes ≡ SECTOR_BYTES) sectors.now }
{
    for sector in sectors {
        has_its_bytes(sector);
    }
}

/// The index of the first sector that has other bytes than the one at its index in the other list.
fn first_other(sectors: &[Sector], others: &[Sector]) -> Option<u64>
    requires { length sectors.now ≡ length others.now }
    ensures some { IfSome result (λ k. (k < length sectors.now) × (bytes_at sectors.now k ≢ bytes_at others.now k)
        × ((j : ℕ) → j < k → bytes_at sectors.now j ≡ bytes_at others.now j)) }
    ensures none { IfNone result ((j : ℕ) → j < length sectors.now → bytes_at sectors.now j ≡ bytes_at others.now j) }
{
    for (index, sector) in sectors.iter().enumerate() {
        if !sector.is_same(&others[index]) {
            return Some(index as u64);
        }
    }
    None
}

/// Whether the bitmap of a group has exactly the blocks of the map.
pub(crate) fn check_bitmap<V: View>(
    alloc: Global,
    view: &mut V,
    g: &Geometry,
    group: u32,
    map: &FreeMap,
) -> Result<(), CheckFault>
    requires shape { IsGeometry g.now }
    requires inside { group < g.now.groups }
    requires size { g.now.groups * group_sectors g.now ≤ V.sector_count view.old }
    ensures right { IsTrue V.known → map.now ≡ free_set g.now.blocks (group_read g.now (V.image view.old) group) → OnOk result (HoldsIn g.now (V.image view.old) bitmap group) }
    ensures fault { IsTrue V.known → map.now ≡ free_set g.now.blocks (group_read g.now (V.image view.old) group) → IfErr result (BitmapFault g.now (V.image view.old) group) }
    ensures cause { IfErr result (IsCaused (V.fault_count view.old) (V.fault_count view.new)) }
    ensures only_read { V.only_read view.old view.new }
{
    let at = sector_at(g, group, BITMAP);
    let sectors = read_sectors(alloc, view, at, BITMAP_SECTORS)?;
    let mut encoded = [Sector::zero(); 4];
    map.write_map(&mut encoded);
    have_their_bytes(&encoded);
    match first_other(&sectors, &encoded) {
        None => Ok(()),
        Some(index) => Err(CheckFault::Damaged {
            rule: GroupRule::Bitmap as u32,
            sector: at + index,
        }),
    }
}
