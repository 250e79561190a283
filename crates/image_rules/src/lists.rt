//! The unlinked lists of a group.

ghost use Rattle.std.specs.Prelude.{◌≡◌, ◌≢◌, ◌≤◌, ◌<◌, ◌%◌, ℕ, List, None, IfErr, IfNone, IfSome, IsSome, OnOk, length, slice_index};
ghost use Rattle.life_limits.specs.declared.TheConstants.{BUCKETS};
ghost use Rattle.life_bytes.specs.declared.sector.Sector.{Sector};
ghost use Rattle.geometry.specs.declared.shape.Geometry.{Geometry};
ghost use Rattle.geometry.specs.Places.{group_sectors};
ghost use Rattle.geometry.specs.Shape.{IsGeometry};
ghost use Rattle.sound_image.specs.Places.{sector_in};
ghost use Rattle.sound_image.specs.Reading.{header_of};
ghost use Rattle.image_rules.specs.Faults.{AllHold, FaultIn, IsCaused, SpaceHolds};
ghost use Rattle.image_rules.specs.declared.fault.CheckFault.TheVariants.{Damaged};
ghost use Rattle.image_rules.specs.Listing.{AllNoted, AreUnmet, IsLesser, IsWalked, IsWrongAt, Takes, WalkedBelow, next_pointer_of};

use crate::fault::{CheckFault, GroupRule};
use crate::groups::{HEADER, sector_at};
use crate::links::Links;
use ag_header::Agi;
use geometry::Geometry;
use life_limits::{BUCKETS, NO_INODE};
use std::collections::BTreeMap;

/// The next pointer of a member of a bucket that no pointer pointed at yet; it is met then.
fn meet(unmet: &mut BTreeMap<u32, u32>, bucket: u32, agino: u32) -> Option<u32>
    ensures met { IfSome result (λ next. (agino % BUCKETS ≡ bucket) × Takes unmet.old.entries agino next unmet.new.entries) }
    ensures other { IfNone result (agino % BUCKETS ≡ bucket → next_pointer_of unmet.old.entries agino ≡ None) }
    ensures stay { IfNone result (unmet.new.entries ≡ unmet.old.entries) }
    ensures fewer { IfSome result (λ next. length unmet.new.entries < length unmet.old.entries) }
{
    if agino % BUCKETS != bucket {
        return None;
    }
    unmet.remove(&agino)
}

/// Walks a bucket from its head. The members that it meets are taken out of those that are unmet. The answer is the place in the group of the sector
/// that holds its first wrong pointer.
fn walk(unmet: &mut BTreeMap<u32, u32>, bucket: u32, head: u32) -> Option<u32>
    ensures ends { (g : Geometry) (image : List Sector) (group : ℕ) → slice_index (header_of g image group).heads bucket ≡ head → AreUnmet g image group bucket 0 unmet.old.entries
        → IfNone result (IsWalked g image group bucket unmet.new.entries) }
    ensures wrong { (g : Geometry) (image : List Sector) (group : ℕ) → slice_index (header_of g image group).heads bucket ≡ head → AreUnmet g image group bucket 0 unmet.old.entries
        → IfSome result (IsWrongAt g image group bucket) }
    ensures others { (agino : ℕ) → agino % BUCKETS ≢ bucket → next_pointer_of unmet.new.entries agino ≡ next_pointer_of unmet.old.entries agino }
{
    let mut holder = HEADER;
    let mut at = head;
    while at != NO_INODE {
        let Some(next) = meet(unmet, bucket, at) else {
            return Some(holder);
        };
        holder = at;
        at = next;
    }
    None
}

/// The less of two numbers, where there are two.
fn least(first: Option<u32>, second: Option<u32>) -> Option<u32>
    ensures { IsLesser first second result }
{
    match (first, second) {
        (Some(first), Some(second)) => Some(first.min(second)),
        (first, None) => first,
        (None, second) => second,
    }
}

/// Walks all buckets from their heads. The answer is the least place in the group of a sector that holds a wrong pointer.
fn walk_all(unmet: &mut BTreeMap<u32, u32>, heads: &[u32; 64]) -> Option<u32>
    ensures { (g : Geometry) (image : List Sector) (group : ℕ) → (header_of g image group).heads ≡ heads.now → ((bucket : ℕ) → AreUnmet g image group bucket 0 unmet.old.entries)
        → WalkedBelow g image group BUCKETS unmet.new.entries result }
{
    let mut wrong = None;
    for bucket in 0..BUCKETS {
        let place = walk(unmet, bucket, heads[bucket as usize]);
        wrong = least(wrong, place);
    }
    wrong
}

/// The least number for which there is a next pointer.
fn first(unmet: &BTreeMap<u32, u32>) -> Option<u32>
    ensures some { IfSome result (λ agino. IsSome (next_pointer_of unmet.now.entries agino) × ((other : ℕ) → IsSome (next_pointer_of unmet.now.entries other) → agino ≤ other)) }
    ensures none { IfNone result ((other : ℕ) → next_pointer_of unmet.now.entries other ≡ None) }
{
    let (agino, _) = unmet.first_key_value()?;
    Some(*agino)
}

/// Damage at a place of a group.
fn damage(g: &Geometry, group: u32, rule: u32, place: u32) -> CheckFault
    requires shape { IsGeometry g.now }
    requires inside { group < g.now.groups }
    ensures { result ≡ Damaged rule (sector_in g.now group place) }
{
    CheckFault::Damaged {
        rule,
        sector: sector_at(g, group, 0) + u64::from(place),
    }
}

/// Checks the unlinked lists of a group, where all rules up to that of the bitmap hold. The members that are met are taken out of `links`.
pub(crate) fn check_lists(
    g: &Geometry,
    group: u32,
    agi: &Agi,
    links: &mut Links,
) -> Result<(), CheckFault>
    requires shape { IsGeometry g.now }
    requires inside { group < g.now.groups }
    ensures right { (image : List Sector) → SpaceHolds g.now image group → header_of g.now image group ≡ agi.now → AllNoted g.now image group links.old.orphans.entries links.old.pointing
        → OnOk result (AllHold g.now image group) }
    ensures fault { (image : List Sector) → SpaceHolds g.now image group → header_of g.now image group ≡ agi.now → AllNoted g.now image group links.old.orphans.entries links.old.pointing
        → IfErr result (FaultIn g.now image group) }
    ensures no_read { (before now : ℕ) → IfErr result (IsCaused before now) }
{
    if let Some(place) = walk_all(&mut links.orphans, &agi.heads) {
        return Err(damage(g, group, GroupRule::Pointers as u32, place));
    }
    let unmet = first(&links.orphans);
    match least(unmet, links.pointing) {
        Some(place) => Err(damage(g, group, GroupRule::Lists as u32, place)),
        None => Ok(()),
    }
}
