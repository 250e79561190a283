//! All groups of an image.

ghost use Rattle.std.specs.Prelude.{◌≡◌, ◌≤◌, ◌<◌, ◌+◌, ◌*◌, ℕ, List, None, IsTrue, IfOk, IfErr, OnOk};
ghost use Rattle.life_bytes.specs.declared.sector.Sector.{Sector};
ghost use Rattle.geometry.specs.declared.shape.Geometry.{Geometry};
ghost use Rattle.geometry.specs.Places.{group_sectors};
ghost use Rattle.geometry.specs.Shape.{IsGeometry};
ghost use Rattle.sound_image.specs.Damage.{AreGroupsSound};
ghost use Rattle.image_rules.specs.Counted.{HasTables, IsCounted};
ghost use Rattle.image_rules.specs.Faults.{AreChecked, IsCaused, IsEarlier, IsDamage, IsChecked, IsOutside};

use crate::fault::{CheckFault, Damage};
use crate::one_group::check_group;
use crate::tables::Tables;
use disk_model::View;
use geometry::Geometry;
use sound_image::rules_hold_or_break;
use std::alloc::Global;

/// What is found in a group.
#[derive(Drop)]
struct Verdict {
    /// Its first damage.
    damage: Option<Damage>,
    /// How much it holds, where it has no damage.
    tables: Tables,
}

/// What a group holds, or its first damage.
fn check_one<V: View>(
    alloc: Global,
    view: &mut V,
    g: &Geometry,
    group: u32,
) -> Result<Verdict, CheckFault>
    requires shape { IsGeometry g.now }
    requires inside { group < g.now.groups }
    requires size { g.now.groups * group_sectors g.now ≤ V.sector_count view.old }
    ensures checked { IsTrue V.known → IfOk result (λ verdict. IsChecked g.now (V.image view.old) group verdict.damage) }
    ensures counted { IsTrue V.known → IfOk result (λ verdict. verdict.damage ≡ None → IsCounted g.now (V.image view.old) group verdict.tables) }
    ensures outside { IfErr result (IsOutside (V.fault_count view.old) (V.fault_count view.new)) }
    ensures only_read { V.only_read view.old view.new }
{
    match check_group(alloc, view, g, group) {
        Ok(tables) => Ok(Verdict {
            damage: None,
            tables,
        }),
        Err(CheckFault::Damaged { rule, sector }) => Ok(Verdict {
            damage: Some(Damage { rule, sector }),
            tables: Tables::NONE,
        }),
        Err(CheckFault::ReadFault) => Err(CheckFault::ReadFault),
        Err(CheckFault::NoMemory) => Err(CheckFault::NoMemory),
    }
}

/// Of two damages the one by the lesser rule, and by one rule the one at the lesser sector.
fn earlier(first: Damage, second: Damage) -> Damage
    ensures { IsEarlier first second result }
{
    if second.rule < first.rule {
        return second;
    }
    if first.rule < second.rule {
        return first;
    }
    if second.sector < first.sector {
        return second;
    }
    first
}

/// The first damage of the groups up to and with one.
fn first_of(first: Option<Damage>, second: Option<Damage>) -> Option<Damage>
    ensures checked { (g : Geometry) (image : List Sector) (group : ℕ) → AreChecked g image group first → IsChecked g image group second → AreChecked g image (group + 1) result }
    ensures none { result ≡ None → (first ≡ None) × (second ≡ None) }
{
    rules_hold_or_break();
    match (first, second) {
        (Some(first), Some(second)) => Some(earlier(first, second)),
        (first, None) => first,
        (None, second) => second,
    }
}

/// Checks the groups of an image by all rules on groups, from those of their headers up to those of their unlinked lists. The first damage is by the
/// least rule that is broken in a group, and names the least sector at which it is. Each sector is read once.
pub fn check_groups<V: View>(
    alloc: Global,
    view: &mut V,
    g: &Geometry,
) -> Result<Tables, CheckFault>
    requires shape { IsGeometry g.now }
    requires size { g.now.groups * group_sectors g.now ≤ V.sector_count view.old }
    // Where the view tells, the groups are sound where it is Ok, the numbers are those of their table, and damage is the first of them.
    ensures sound { IsTrue V.known → OnOk result (AreGroupsSound g.now (V.image view.old)) }
    ensures counted { IsTrue V.known → IfOk result (HasTables g.now (V.image view.old)) }
    ensures damaged { IsTrue V.known → IfErr result (IsDamage g.now (V.image view.old)) }
    ensures read_fault { IfErr result (IsCaused (V.fault_count view.old) (V.fault_count view.new)) }
    ensures only_read { V.only_read view.old view.new }
{
    let mut first = None;
    let mut tables = Tables::NONE;
    for group in 0..g.groups {
        let found = check_one(alloc, view, g, group)?;
        first = first_of(first, found.damage);
        let Some(sum) = tables.plus(&found.tables) else {
            return Err(CheckFault::NoMemory);
        };
        tables = sum;
    }
    match first {
        None => Ok(tables),
        Some(Damage { rule, sector }) => Err(CheckFault::Damaged { rule, sector }),
    }
}
