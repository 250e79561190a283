//! The groups of a disk's image, loaded.

ghost use Rattle.std.specs.Prelude.{◌≡◌, ◌≤◌, IsTrue, IfOk, IfErr};
ghost use Rattle.life_bytes.specs.declared.sector.Sector.{Sector};
ghost use Rattle.geometry.specs.Shape.{IsGeometry};
ghost use Rattle.geometry.specs.Places.{anchor_of};
ghost use Rattle.disk_model.specs.Disk.{as_read};
ghost use Rattle.disk_model.specs.View.{OnlyRead};
ghost use Rattle.life_table.specs.declared.table.Table.{Table};
ghost use Rattle.log_image.specs.Log.{groups_part};
ghost use Rattle.sound_image.specs.Encoding.{Layouts};
ghost use Rattle.commit_history.specs.Carried.{IsEncoding};
ghost use Rattle.group_ops.specs.Loading.{IsLoadCause, IsNoDamage};
ghost use Rattle.mount.specs.Kept.{kept_image};
ghost use Rattle.orphan_frees.specs.Loaded.{AreGroups, AreGroupsOf};

use crate::keeping::keep_groups;
use crate::memory_view::MemoryView;
use disk_model::{Disk, DiskView};
use geometry::Geometry;
use group_ops::{GroupState, LoadFault, load_group};
use image_rules::{CheckFault, check_groups};
use life_bytes::Sector;
use life_limits::BLOCK_SECTORS;
use sound_image::{
    encoded_images_are_sound, one_first_damage, sound_images_are_encoded,
    sound_tables_are_well_formed,
};
use std::alloc::Global;
use std::collections::BTreeMap;

/// How many sectors the groups have.
pub(crate) fn sectors_of(g: &Geometry) -> u64
    requires { IsGeometry g.now }
    ensures { result ≡ anchor_of g.now }
{
    u64::from(g.groups * (g.blocks * BLOCK_SECTORS))
}

/// Loads each group from sectors in memory.
fn load_all(
    alloc: Global,
    kept: &BTreeMap<u64, Sector>,
    g: &Geometry,
) -> Result<Vec<GroupState>, LoadFault>
    requires shape { IsGeometry g.now }
    ensures groups { (t : Table) (layouts : Layouts) → IsEncoding g.now t layouts (kept_image kept.now (anchor_of g.now)) → IfOk result (λ states. AreGroupsOf g.now t layouts states.items) }
    ensures no_damage { (t : Table) (layouts : Layouts) → IsEncoding g.now t layouts (kept_image kept.now (anchor_of g.now)) → IfErr result IsNoDamage }
    ensures cause { IfErr result (IsLoadCause 0 0) }
{
    let mut groups = Vec::new(alloc);
    let mut view = MemoryView::new(kept, sectors_of(g));
    for group in 0..g.groups {
        groups.push(load_group(alloc, &mut view, g, group)?)?;
    }
    Ok(groups)
}

/// Checks the groups of sectors in memory by all rules, and loads them from there.
fn load_checked(
    alloc: Global,
    kept: &BTreeMap<u64, Sector>,
    g: &Geometry,
) -> Result<Vec<GroupState>, LoadFault>
    requires shape { IsGeometry g.now }
    ensures groups { IfOk result (λ states. AreGroups g.now states.items) }
    ensures told { (t : Table) (layouts : Layouts) → IsEncoding g.now t layouts (kept_image kept.now (anchor_of g.now)) → IfOk result (λ states. AreGroupsOf g.now t layouts states.items) }
    ensures no_damage { (t : Table) (layouts : Layouts) → IsEncoding g.now t layouts (kept_image kept.now (anchor_of g.now)) → IfErr result IsNoDamage }
    ensures cause { IfErr result (IsLoadCause 0 0) }
{
    encoded_images_are_sound();
    one_first_damage();
    sound_images_are_encoded();
    sound_tables_are_well_formed();
    let mut view = MemoryView::new(kept, sectors_of(g));
    match check_groups(alloc, &mut view, g) {
        Ok(_) => load_all(alloc, kept, g),
        Err(CheckFault::Damaged { rule, sector }) => Err(LoadFault::Damaged { rule, sector }),
        Err(CheckFault::ReadFault) => unreachable!(),
        Err(CheckFault::NoMemory) => Err(LoadFault::NoMemory),
    }
}

/// Keeps the sectors of a disk's groups of which the format says what stands there.
fn keep_disk<D: Disk>(
    alloc: Global,
    disk: &mut D,
    g: &Geometry,
) -> Result<BTreeMap<u64, Sector>, LoadFault>
    requires shape { IsGeometry g.now }
    requires size { anchor_of g.now ≤ D.sector_count disk.old }
    ensures encodes { IsTrue D.known → (t : Table) (layouts : Layouts) → IsEncoding g.now t layouts (groups_part (anchor_of g.now) (as_read (D.cells disk.old)))
        → IfOk result (λ kept. IsEncoding g.now t layouts (kept_image kept (anchor_of g.now))) }
    ensures no_damage { IfErr result IsNoDamage }
    ensures read_fault { IfErr result (IsLoadCause (D.fault_count disk.old) (D.fault_count disk.new)) }
    ensures only_reads { OnlyRead D.known D.cells D.sector_count D.fault_count D.arming D.moment D.left_since disk.old disk.new }
{
    let mut view = DiskView::new(disk);
    keep_groups(alloc, &mut view, g)
}

/// Loads the groups of a disk's image, of which each sector that the format speaks of is read once. Nothing is in core then.
///
/// What was read is checked once more before it is loaded, since somebody else may have written the image since it was inspected: damage never comes where the disk's contents are
/// known and encode a table.
pub fn load_groups<D: Disk>(
    alloc: Global,
    disk: &mut D,
    g: &Geometry,
) -> Result<Vec<GroupState>, LoadFault>
    requires shape { IsGeometry g.now }
    requires size { anchor_of g.now ≤ D.sector_count disk.old }
    ensures groups { IfOk result (λ states. AreGroups g.now states.items) }
    ensures told { IsTrue D.known → (t : Table) (layouts : Layouts) → IsEncoding g.now t layouts (groups_part (anchor_of g.now) (as_read (D.cells disk.old)))
        → IfOk result (λ states. AreGroupsOf g.now t layouts states.items) }
    ensures no_damage { IsTrue D.known → (t : Table) (layouts : Layouts) → IsEncoding g.now t layouts (groups_part (anchor_of g.now) (as_read (D.cells disk.old)))
        → IfErr result IsNoDamage }
    ensures read_fault { IfErr result (IsLoadCause (D.fault_count disk.old) (D.fault_count disk.new)) }
    ensures only_reads { OnlyRead D.known D.cells D.sector_count D.fault_count D.arming D.moment D.left_since disk.old disk.new }
{
    let kept = keep_disk(alloc, disk, g)?;
    load_checked(alloc, &kept, g)
}
