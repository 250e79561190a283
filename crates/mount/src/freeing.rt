//! What is freed of an image's groups in memory, and what is recorded of it.

ghost use Rattle.std.specs.Prelude.{◌≡◌, ◌+◌, ◌-◌, ◌<◌, ◌^◌, ℕ, List, [], All, IfOk};
ghost use Rattle.std.specs.List.{range_with_len};
ghost use Rattle.life_limits.specs.declared.TheConstants.{MAX_ACTORS, MAX_NUMBERS};
ghost use Rattle.life_bytes.specs.declared.sector.Sector.{Sector};
ghost use Rattle.geometry.specs.declared.shape.Geometry.{Geometry};
ghost use Rattle.geometry.specs.Places.{anchor_of};
ghost use Rattle.life_table.specs.declared.key.Key.{Key};
ghost use Rattle.life_table.specs.declared.table.Table.{Table};
ghost use Rattle.life_table.specs.History.{closed, frees_of};
ghost use Rattle.log_store.specs.State.{state_of};
ghost use Rattle.log_store.specs.Steps.{IsStore};
ghost use Rattle.sound_image.specs.Encoding.{CanEncode, Layouts};
ghost use Rattle.orphan_frees.specs.Loaded.{AreGroups, AreGroupsOf};
ghost use Rattle.mount.specs.Coming.{AreFreed};
ghost use Rattle.mount.specs.Mounts.{IsStoryOf, states_of};

use disk_model::Disk;
use group_core::{Group, begin_group};
use group_ops::GroupState;
use life_ports::NoMemory;
use life_table::{Entries, Entry, Froms, MountRecord};
use log_store::Store;
use orphan_frees::{free_orphans, recovery_frees_in_order};
use std::alloc::Global;

/// The groups of an image whose rows without links were freed, and the record of that.
pub(crate) struct Freed {
    pub(crate) groups: Vec<Group<GroupState>>,
    pub(crate) story: MountRecord,
}

/// For so many entries the place of each.
fn own_places(alloc: Global, count: u64) -> Result<Vec<u64>, NoMemory>
    ensures { IfOk result (λ places. places.items ≡ range_with_len 0 count) }
{
    let mut places = Vec::new(alloc);
    for place in 0..count {
        places.push(place)?;
    }
    Ok(places)
}

/// The record of a mount that freed nothing.
pub(crate) fn story_of_none(alloc: Global, base: u64) -> MountRecord
    ensures { IsStoryOf base [] 0 result }
{
    MountRecord {
        base,
        kept: 0,
        freed: 0,
        entries: Entries::new(alloc),
        froms: Froms::new(alloc),
        acknowledged: 0,
    }
}

/// The record of a mount that made these frees.
fn story_of(alloc: Global, base: u64, entries: Vec<Entry>) -> Result<MountRecord, NoMemory>
    ensures { (keys : List Key) → entries.items ≡ frees_of MAX_ACTORS keys → IfOk result (IsStoryOf base keys 0) }
{
    let freed = entries.len() as u64;
    let froms = own_places(alloc, freed)?;
    Ok(MountRecord {
        base,
        kept: 0,
        freed,
        entries: Entries::from_vec(entries),
        froms: Froms::from_vec(froms),
        acknowledged: 0,
    })
}

/// The groups of these states. Their histories begin here.
fn begin_groups(alloc: Global, states: Vec<GroupState>) -> Result<Vec<Group<GroupState>>, NoMemory>
    ensures states { IfOk result (λ groups. states_of groups.items ≡ states.items) }
    ensures fresh { IfOk result (λ groups. All (λ group. group.history ≡ []) groups.items) }
{
    let mut groups = Vec::new(alloc);
    for state in states {
        groups.push(begin_group(alloc, state)?)?;
    }
    Ok(groups)
}

/// Frees the rows without links of an image's groups, whose histories begin behind that. The commits of the frees wait in the store.
pub(crate) fn free_all<D: Disk>(
    alloc: Global,
    states: Vec<GroupState>,
    store: &mut Store<D>,
    base: u64,
) -> Result<Freed, NoMemory>
    requires store { IsStore D.known D.cells D.sector_count store.old }
    requires groups { (g : Geometry) × AreGroups g states.items × (store.old.anchor ≡ anchor_of g) }
    requires none { store.old.queue.items ≡ [] }
    requires numbers { store.old.durable + MAX_NUMBERS < 2 ^ 64 - 1 }
    ensures freed { (g : Geometry) (t : Table) (layouts : Layouts) (sectors : List Sector) → AreGroupsOf g t layouts states.items → CanEncode g t layouts sectors → closed t ≡ t
        → store.old.anchor ≡ anchor_of g → IfOk result (AreFreed g t layouts base store.new.queue.items) }
    ensures store { IsStore D.known D.cells D.sector_count store.new }
    ensures state { state_of store.new ≡ record (state_of store.old) { list = store.new.queue.items } }
    ensures disk { store.new.disk ≡ store.old.disk }
    ensures job { store.new.job ≡ store.old.job }
{
    recovery_frees_in_order();
    let mut groups = states;
    let mut entries = Vec::new(alloc);
    free_orphans(&mut groups, store, &mut entries)?;
    let groups = begin_groups(alloc, groups)?;
    let story = story_of(alloc, base, entries)?;
    Ok(Freed { groups, story })
}
