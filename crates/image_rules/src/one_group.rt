//! A group by all its rules.

ghost use Rattle.std.specs.Prelude.{◌≡◌, ◌≤◌, ◌<◌, ◌*◌, IsTrue, IfOk, IfErr, OnOk};
ghost use Rattle.geometry.specs.Places.{group_sectors};
ghost use Rattle.geometry.specs.Shape.{IsGeometry};
ghost use Rattle.sound_image.specs.Damage.{Rule, groups_rule_number, HoldsIn};
ghost use Rattle.sound_image.specs.Reading.{header_of, records_of};
ghost use Rattle.image_rules.specs.Counted.{IsCounted};
ghost use Rattle.image_rules.specs.Faults.{AllHold, FaultIn, IsCaused, SpaceHolds};
ghost use Rattle.image_rules.specs.Listing.{AllNoted};

use crate::bitmaps::check_bitmap;
use crate::fault::{CheckFault, GroupRule};
use crate::groups::{check_header, check_inodes, check_leaf};
use crate::links::Links;
use crate::lists::check_lists;
use crate::tables::{Tables, count};
use ag_header::Agi;
use disk_model::View;
use geometry::Geometry;
use sound_image::{chunks_are_read, groups_are_counted};
use std::alloc::Global;

/// What the rules on unlinked lists are checked by.
#[derive(Drop)]
struct Space {
    header: Agi,
    links: Links,
    tables: Tables,
}

/// Checks a group by its header, its inode btree, the cores and forks of its inodes, who has which block, and its bitmap.
fn check_space<V: View>(
    alloc: Global,
    view: &mut V,
    g: &Geometry,
    group: u32,
) -> Result<Space, CheckFault>
    requires shape { IsGeometry g.now }
    requires inside { group < g.now.groups }
    requires size { g.now.groups * group_sectors g.now ≤ V.sector_count view.old }
    ensures right { IsTrue V.known → IfOk result (λ space. SpaceHolds g.now (V.image view.old) group × (header_of g.now (V.image view.old) group ≡ space.header)
        × AllNoted g.now (V.image view.old) group space.links.orphans.entries space.links.pointing × IsCounted g.now (V.image view.old) group space.tables) }
    ensures damaged { IsTrue V.known → IfErr result (FaultIn g.now (V.image view.old) group) }
    ensures read_fault { IfErr result (IsCaused (V.fault_count view.old) (V.fault_count view.new)) }
    ensures only_read { V.only_read view.old view.new }
{
    chunks_are_read();
    groups_are_counted();
    let agi = check_header(view, g, group)?;
    let leaf = check_leaf(alloc, view, g, group, &agi)?;
    let found = check_inodes(alloc, view, g, group, &leaf)?;
    if let Some(sector) = found.fork {
        return Err(CheckFault::Damaged {
            rule: GroupRule::Fork as u32,
            sector,
        });
    }
    if let Some(sector) = found.shared {
        return Err(CheckFault::Damaged {
            rule: GroupRule::Blocks as u32,
            sector,
        });
    }
    check_bitmap(alloc, view, g, group, &found.map)?;
    let tables = count(&agi, &leaf, &found.links);
    Ok(Space {
        header: agi,
        links: found.links,
        tables,
    })
}

/// Checks a group by all its rules: its header, its inode btree, the cores and forks of its inodes, who has which block, its bitmap, the pointers of its
/// unlinked buckets, and who is in their lists. Each sector is read once; a bucket is walked in memory, and costs its members.
pub fn check_group<V: View>(
    alloc: Global,
    view: &mut V,
    g: &Geometry,
    group: u32,
) -> Result<Tables, CheckFault>
    requires shape { IsGeometry g.now }
    requires inside { group < g.now.groups }
    requires size { g.now.groups * group_sectors g.now ≤ V.sector_count view.old }
    // Where the view tells, the rules hold where it is Ok, the numbers are the group's, and damage is the first of the group.
    ensures right { IsTrue V.known → OnOk result (AllHold g.now (V.image view.old) group) }
    ensures counted { IsTrue V.known → IfOk result (IsCounted g.now (V.image view.old) group) }
    ensures damaged { IsTrue V.known → IfErr result (FaultIn g.now (V.image view.old) group) }
    ensures read_fault { IfErr result (IsCaused (V.fault_count view.old) (V.fault_count view.new)) }
    ensures only_read { V.only_read view.old view.new }
{
    let mut space = check_space(alloc, view, g, group)?;
    check_lists(g, group, &space.header, &mut space.links)?;
    Ok(space.tables)
}
