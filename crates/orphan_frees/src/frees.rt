// The frees of the rows without links.

ghost use Rattle.std.specs.Prelude.{◌≡◌, ◌≤◌, ◌<◌, ◌+◌, ◌-◌, ◌^◌, ℕ, [], ◌∷◌, List, length, take, vec_len, vec_capacity, OnErr, OnOk};
ghost use Rattle.life_limits.specs.declared.TheConstants.{MAX_IMAGES, MAX_NUMBERS};
ghost use Rattle.life_bytes.specs.declared.sector.Sector.{Sector};
ghost use Rattle.geometry.specs.declared.shape.Geometry.{Geometry};
ghost use Rattle.geometry.specs.Places.{anchor_of};
ghost use Rattle.log_store.specs.Spare.{spare_commits, spare_images};
ghost use Rattle.log_store.specs.State.{state_of};
ghost use Rattle.log_store.specs.Steps.{IsStore};
ghost use Rattle.life_table.specs.declared.key.Key.{Key};
ghost use Rattle.life_table.specs.declared.table.Table.{Table};
ghost use Rattle.life_table.specs.History.{closed};
ghost use Rattle.sound_image.specs.Encoding.{CanEncode, Layouts};
ghost use Rattle.group_ops.specs.Calls.{FreesKey};
ghost use Rattle.group_ops.specs.Changes.{with_room};
ghost use Rattle.orphan_frees.specs.Frees.{FreesAll, FreesSome};
ghost use Rattle.orphan_frees.specs.Loaded.{AreGroups, AreGroupsOf};
ghost use Rattle.orphan_frees.specs.Order.{keys_of_group};
ghost use Rattle.orphan_frees.specs.Steps.{AreUnheld, FreesInGroup, FreesInGroups, IsDue, IsGroupIn};

use crate::laws::{groups_are_freed_in_order, recovery_frees_in_order};
use commit_history::{commits_fit_the_log, commits_follow_each_other};
use disk_model::Disk;
use group_core::{GroupTable, Staged};
use group_ops::{Change, GroupState, changes_are_events};
use life_limits::{MAX_ACTORS, MAX_IMAGES};
use life_ports::NoMemory;
use life_table::{Entry, Event, Key};
use log_store::Store;

/// Makes room for one free: for its commit, its change and its entry.
fn make_room<D: Disk>(
    group: &mut GroupState,
    store: &mut Store<D>,
    entries: &mut Vec<Entry>,
) -> Result<(), NoMemory>
    requires { IsStore D.known D.cells D.sector_count store.old }
    ensures store { IsStore D.known D.cells D.sector_count store.new }
    ensures state { state_of store.new ≡ state_of store.old }
    ensures disk { store.new.disk ≡ store.old.disk }
    ensures job { store.new.job ≡ store.old.job }
    ensures group { group.new ≡ with_room group.old group.new.room }
    ensures entries { entries.new.items ≡ entries.old.items }
    ensures commits { OnOk result (0 < spare_commits store.new) }
    ensures images { OnOk result (MAX_IMAGES ≤ spare_images store.new) }
    ensures changes { OnOk result (1 ≤ group.new.room) }
    ensures places { OnOk result (vec_len entries.new < vec_capacity entries.new) }
{
    store.reserve(1, MAX_IMAGES)?;
    group.reserve()?;
    entries.reserve(1)?;
    Ok(())
}

/// Makes the change of a free, gives its commit to the store, and adds its entry, for all of which there has to be room.
fn make_free<D: Disk>(
    group: &mut GroupState,
    store: &mut Store<D>,
    entries: &mut Vec<Entry>,
    key: Key,
    change: Change,
)
    requires store { IsStore D.known D.cells D.sector_count store.old }
    requires place { store.old.anchor ≡ anchor_of group.old.geometry }
    requires number { store.old.durable + length store.old.queue.items + 1 < 2 ^ 64 - 1 }
    requires commits { 0 < spare_commits store.old }
    requires images { MAX_IMAGES ≤ spare_images store.old }
    requires changes { 1 ≤ group.old.room }
    requires places { vec_len entries.old < vec_capacity entries.old }
    requires due { (t : Table) × (layouts : Layouts) × (sectors : List Sector) × IsDue group.old t layouts sectors key × FreesKey group.old change t layouts key }
    ensures freed { (t : Table) (layouts : Layouts) (sectors : List Sector) → IsDue group.old t layouts sectors key → FreesKey group.old change t layouts key
        → FreesInGroup group.old t layouts (key ∷ []) store.old.queue.items store.new.queue.items entries.old.items entries.new.items group.new }
    ensures store { IsStore D.known D.cells D.sector_count store.new }
    ensures state { state_of store.new ≡ record (state_of store.old) { list = store.new.queue.items } }
    ensures disk { store.new.disk ≡ store.old.disk }
    ensures job { store.new.job ≡ store.old.job }
{
    changes_are_events();
    commits_fit_the_log();
    groups_are_freed_in_order();
    let mut change = change;
    let commit = change.take_commit();
    group.apply(change);
    store.take(commit);
    entries.push_reserved(Entry {
        actor: MAX_ACTORS,
        event: Event::Freed { key },
    });
}

/// Frees one row of a group. Where there is no memory, none is freed.
fn free_row<D: Disk>(
    group: &mut GroupState,
    store: &mut Store<D>,
    entries: &mut Vec<Entry>,
    key: Key,
) -> Result<(), NoMemory>
    requires store { IsStore D.known D.cells D.sector_count store.old }
    requires place { store.old.anchor ≡ anchor_of group.old.geometry }
    requires number { store.old.durable + length store.old.queue.items + 1 < 2 ^ 64 - 1 }
    requires due { (t : Table) × (layouts : Layouts) × (sectors : List Sector) × IsDue group.old t layouts sectors key }
    ensures freed { (t : Table) (layouts : Layouts) (sectors : List Sector) → IsDue group.old t layouts sectors key
        → OnOk result (FreesInGroup group.old t layouts (key ∷ []) store.old.queue.items store.new.queue.items entries.old.items entries.new.items group.new) }
    ensures none { (t : Table) (layouts : Layouts) (sectors : List Sector) → IsDue group.old t layouts sectors key
        → OnErr result (FreesInGroup group.old t layouts [] store.old.queue.items store.new.queue.items entries.old.items entries.new.items group.new) }
    ensures store { IsStore D.known D.cells D.sector_count store.new }
    ensures state { state_of store.new ≡ record (state_of store.old) { list = store.new.queue.items } }
    ensures disk { store.new.disk ≡ store.old.disk }
    ensures job { store.new.job ≡ store.old.job }
{
    commits_follow_each_other();
    make_room(group, store, entries)?;
    let change = group.free(key)?;
    make_free(group, store, entries, key, change);
    Ok(())
}

/// Frees the rows without links of a group. Where there is no memory, some first of them.
fn free_group<D: Disk>(
    group: &mut GroupState,
    store: &mut Store<D>,
    entries: &mut Vec<Entry>,
) -> Result<(), NoMemory>
    requires store { IsStore D.known D.cells D.sector_count store.old }
    requires place { store.old.anchor ≡ anchor_of group.old.geometry }
    requires unheld { (t : Table) × (layouts : Layouts) × (sectors : List Sector) × IsGroupIn group.old t layouts sectors × (closed t ≡ t)
        × (store.old.durable + length store.old.queue.items + length (keys_of_group t layouts group.old.group) < 2 ^ 64 - 1) }
    ensures all { (t : Table) (layouts : Layouts) (sectors : List Sector) → IsGroupIn group.old t layouts sectors → closed t ≡ t
        → OnOk result (FreesInGroup group.old t layouts (keys_of_group t layouts group.old.group) store.old.queue.items store.new.queue.items entries.old.items entries.new.items group.new) }
    ensures some { (t : Table) (layouts : Layouts) (sectors : List Sector) → IsGroupIn group.old t layouts sectors → closed t ≡ t
        → (count : ℕ) × (count ≤ length (keys_of_group t layouts group.old.group))
        × FreesInGroup group.old t layouts (take count (keys_of_group t layouts group.old.group)) store.old.queue.items store.new.queue.items entries.old.items entries.new.items group.new }
    ensures store { IsStore D.known D.cells D.sector_count store.new }
    ensures state { state_of store.new ≡ record (state_of store.old) { list = store.new.queue.items } }
    ensures disk { store.new.disk ≡ store.old.disk }
    ensures job { store.new.job ≡ store.old.job }
{
    commits_follow_each_other();
    groups_are_freed_in_order();
    let keys = group.orphans()?;
    for i in 0..keys.len() {
        free_row(group, store, entries, keys[i])?;
    }
    Ok(())
}

/// The same of one of an image's groups. The others stay.
fn free_group_at<D: Disk>(
    groups: &mut Vec<GroupState>,
    index: usize,
    store: &mut Store<D>,
    entries: &mut Vec<Entry>,
) -> Result<(), NoMemory>
    requires store { IsStore D.known D.cells D.sector_count store.old }
    requires unheld { (g : Geometry) × (t : Table) × (layouts : Layouts) × (sectors : List Sector) × AreUnheld g t layouts sectors groups.old.items × (store.old.anchor ≡ anchor_of g)
        × (store.old.durable + length store.old.queue.items + length (keys_of_group t layouts index) < 2 ^ 64 - 1) }
    requires inside { index < length groups.old.items }
    ensures all { (g : Geometry) (t : Table) (layouts : Layouts) (sectors : List Sector) → AreUnheld g t layouts sectors groups.old.items
        → OnOk result (FreesInGroups g t layouts (keys_of_group t layouts index) store.old.queue.items store.new.queue.items entries.old.items entries.new.items groups.new.items) }
    ensures some { (g : Geometry) (t : Table) (layouts : Layouts) (sectors : List Sector) → AreUnheld g t layouts sectors groups.old.items
        → (count : ℕ) × (count ≤ length (keys_of_group t layouts index))
        × FreesInGroups g t layouts (take count (keys_of_group t layouts index)) store.old.queue.items store.new.queue.items entries.old.items entries.new.items groups.new.items }
    ensures store { IsStore D.known D.cells D.sector_count store.new }
    ensures state { state_of store.new ≡ record (state_of store.old) { list = store.new.queue.items } }
    ensures disk { store.new.disk ≡ store.old.disk }
    ensures job { store.new.job ≡ store.old.job }
    ensures count { length groups.new.items ≡ length groups.old.items }
{
    groups_are_freed_in_order();
    free_group(&mut groups[index], store, entries)
}

/// Frees the rows without links of an image's groups: group by group, bucket by bucket, each list from its head on. Each free is a commit that the store
/// takes, and an entry of an actor that is nobody. Where there is no memory, some first of these frees were made.
pub fn free_orphans<D: Disk>(
    groups: &mut Vec<GroupState>,
    store: &mut Store<D>,
    entries: &mut Vec<Entry>,
) -> Result<(), NoMemory>
    requires store { IsStore D.known D.cells D.sector_count store.old }
    requires groups { (g : Geometry) × AreGroups g groups.old.items × (store.old.anchor ≡ anchor_of g) }
    requires numbers { store.old.durable + length store.old.queue.items + MAX_NUMBERS < 2 ^ 64 - 1 }
    ensures all { (g : Geometry) (t : Table) (layouts : Layouts) (sectors : List Sector) → AreGroupsOf g t layouts groups.old.items → CanEncode g t layouts sectors → closed t ≡ t → store.old.anchor ≡ anchor_of g
        → OnOk result (FreesAll g t layouts store.old.queue.items store.new.queue.items entries.old.items entries.new.items groups.new.items) }
    ensures some { (g : Geometry) (t : Table) (layouts : Layouts) (sectors : List Sector) → AreGroupsOf g t layouts groups.old.items → CanEncode g t layouts sectors → closed t ≡ t → store.old.anchor ≡ anchor_of g
        → FreesSome g t layouts store.old.queue.items store.new.queue.items entries.old.items entries.new.items groups.new.items }
    ensures store { IsStore D.known D.cells D.sector_count store.new }
    ensures state { state_of store.new ≡ record (state_of store.old) { list = store.new.queue.items } }
    ensures disk { store.new.disk ≡ store.old.disk }
    ensures job { store.new.job ≡ store.old.job }
{
    recovery_frees_in_order();
    groups_are_freed_in_order();
    commits_follow_each_other();
    for index in 0..groups.len() {
        free_group_at(groups, index, store, entries)?;
    }
    Ok(())
}
