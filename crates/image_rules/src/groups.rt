//! A group of an image, rule by rule.

ghost use Rattle.std.specs.Prelude.{◌≡◌, ◌≤◌, ◌<◌, ◌+◌, ◌*◌, ◌^◌, ℕ, IsTrue, IfOk, IfErr, All, length};
ghost use Rattle.life_limits.specs.declared.TheConstants.{LAST_PAGE_BLOCK};
ghost use Rattle.geometry.specs.Places.{group_sectors};
ghost use Rattle.geometry.specs.Shape.{IsGeometry};
ghost use Rattle.ag_header.specs.Headers.{IsAgi};
ghost use Rattle.sound_image.specs.Counts.{orphans_in_group};
ghost use Rattle.sound_image.specs.Damage.{HoldsIn, tree};
ghost use Rattle.sound_image.specs.Places.{sector_in};
ghost use Rattle.sound_image.specs.Reading.{group_read, header_of, records_of};
ghost use Rattle.sound_image.specs.Rules.{IsHeaderRight, IsInData};
ghost use Rattle.image_rules.specs.Faults.{FaultIn, IsCaused};
ghost use Rattle.image_rules.specs.Gathered.{AllGathered, CoreFault};
ghost use Rattle.image_rules.specs.Listing.{AllNoted};

use crate::fault::{CheckFault, GroupRule};
use crate::found::Found;
use crate::headers::right_header;
use crate::pages::{has_counts, right_leaf};
use crate::reading::{read_sector, read_sectors};
use ag_header::Agi;
use disk_model::View;
use geometry::Geometry;
use inobt_leaf::{Leaf, PageFault};
use life_limits::{BLOCK_SECTORS, CHUNK_INODES};
use sound_image::chunks_are_read;
use std::alloc::Global;

/// The sector of a group's header in the group.
pub(crate) const HEADER: u32 = 2;

/// The sector of the image at a place of a group.
pub(crate) fn sector_at(g: &Geometry, group: u32, place: u32) -> u64
    requires shape { IsGeometry g.now }
    requires inside { group < g.now.groups }
    requires low { place < group_sectors g.now }
    ensures place { result ≡ sector_in g.now group place }
    ensures within { result < g.now.groups * group_sectors g.now }
    ensures room { (n : ℕ) → place + n ≤ group_sectors g.now → result + n ≤ g.now.groups * group_sectors g.now }
    ensures small { result < 2 ^ 32 }
{
    u64::from(group * (g.blocks * BLOCK_SECTORS) + place)
}

/// The header of a group, where it is right.
pub(crate) fn check_header<V: View>(
    view: &mut V,
    g: &Geometry,
    group: u32,
) -> Result<Agi, CheckFault>
    requires shape { IsGeometry g.now }
    requires inside { group < g.now.groups }
    requires size { g.now.groups * group_sectors g.now ≤ V.sector_count view.old }
    ensures right { IsTrue V.known → IfOk result (λ agi. IsHeaderRight g.now (V.image view.old) group × (header_of g.now (V.image view.old) group ≡ agi)) }
    ensures allowed { IfOk result IsAgi }
    ensures fault { IsTrue V.known → IfErr result (FaultIn g.now (V.image view.old) group) }
    ensures cause { IfErr result (IsCaused (V.fault_count view.old) (V.fault_count view.new)) }
    ensures only_read { V.only_read view.old view.new }
{
    let at = sector_at(g, group, HEADER);
    let sector = read_sector(view, at)?;
    match right_header(g, group, &sector) {
        Some(agi) => Ok(agi),
        None => Err(CheckFault::Damaged {
            rule: GroupRule::Header as u32,
            sector: at,
        }),
    }
}

/// The leaf of a group, where it is right and the header counts its inodes.
pub(crate) fn check_leaf<V: View>(
    alloc: Global,
    view: &mut V,
    g: &Geometry,
    group: u32,
    agi: &Agi,
) -> Result<Leaf, CheckFault>
    requires shape { IsGeometry g.now }
    requires inside { group < g.now.groups }
    requires size { g.now.groups * group_sectors g.now ≤ V.sector_count view.old }
    requires allowed { IsAgi agi.now }
    ensures right { IsTrue V.known → header_of g.now (V.image view.old) group ≡ agi.now
        → IfOk result (λ leaf. HoldsIn g.now (V.image view.old) tree group × (records_of g.now (V.image view.old) group ≡ leaf)) }
    ensures in_data { IfOk result (λ leaf. All (IsInData g.now.blocks) leaf) }
    ensures fault { IsTrue V.known → IsHeaderRight g.now (V.image view.old) group → header_of g.now (V.image view.old) group ≡ agi.now
        → IfErr result (FaultIn g.now (V.image view.old) group) }
    ensures cause { IfErr result (IsCaused (V.fault_count view.old) (V.fault_count view.new)) }
    ensures only_read { V.only_read view.old view.new }
{
    let at = sector_at(g, group, BLOCK_SECTORS * agi.root);
    let page = read_sectors(alloc, view, at, u64::from(BLOCK_SECTORS))?;
    let leaf = match right_leaf(alloc, g, group, agi.root, &page) {
        Ok(leaf) => leaf,
        Err(PageFault::NoMemory) => return Err(CheckFault::NoMemory),
        Err(PageFault::Malformed) => {
            return Err(CheckFault::Damaged {
                rule: GroupRule::Tree as u32,
                sector: at,
            });
        }
    };
    if !has_counts(agi, &leaf) {
        return Err(CheckFault::Damaged {
            rule: GroupRule::Tree as u32,
            sector: sector_at(g, group, HEADER),
        });
    }
    Ok(leaf)
}

/// What the inodes of a group's chunks tell, where each of them has its core.
pub(crate) fn check_inodes<V: View>(
    alloc: Global,
    view: &mut V,
    g: &Geometry,
    group: u32,
    leaf: &Leaf,
) -> Result<Found, CheckFault>
    requires shape { IsGeometry g.now }
    requires inside { group < g.now.groups }
    requires size { g.now.groups * group_sectors g.now ≤ V.sector_count view.old }
    requires in_data { All (IsInData g.now.blocks) leaf.now }
    ensures right { IsTrue V.known → records_of g.now (V.image view.old) group ≡ leaf.now
        → IfOk result (λ found. AllGathered g.now (V.image view.old) group found.map found.fork found.shared
        × AllNoted g.now (V.image view.old) group found.links.orphans.entries found.links.pointing) }
    ensures counted { IsTrue V.known → records_of g.now (V.image view.old) group ≡ leaf.now
        → IfOk result (λ found. length found.links.orphans.entries ≡ orphans_in_group (group_read g.now (V.image view.old) group)) }
    ensures fault { IsTrue V.known → records_of g.now (V.image view.old) group ≡ leaf.now → IfErr result (CoreFault g.now (V.image view.old) group) }
    ensures cause { IfErr result (IsCaused (V.fault_count view.old) (V.fault_count view.new)) }
    ensures only_read { V.only_read view.old view.new }
{
    chunks_are_read();
    let chunks = leaf.chunks();
    let mut found = Found::new(alloc, g.blocks, chunks);
    for chunk in chunks {
        let at = sector_at(g, group, chunk.start);
        let sectors = read_sectors(alloc, view, at, u64::from(CHUNK_INODES))?;
        found.add_chunk(alloc, g, group, chunk, &sectors)?;
    }
    Ok(found)
}
