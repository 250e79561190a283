// Laws of the definitions. Each is the contract of a function that does nothing but call the laws that its own rests on.

ghost use Rattle.std.specs.Prelude.{◌≡◌, ◌≤◌, ◌<◌, ◌+◌, ◌*◌, ◌/◌, ◌%◌, ℕ, List, [], Some, All, IsSomeAnd, length, slice_get, slice_index_or, take};
ghost use Rattle.life_limits.specs.declared.TheConstants.{BUCKETS, GROUP_NUMBERS, MAX_NUMBERS};
ghost use Rattle.life_bytes.specs.declared.sector.Sector.{Sector};
ghost use Rattle.geometry.specs.declared.shape.Geometry.{Geometry};
ghost use Rattle.life_table.specs.declared.key.Key.{Key};
ghost use Rattle.life_table.specs.declared.table.Table.{Table};
ghost use Rattle.life_table.specs.History.{After, LegalHistory, changes, closed, frees_of, orphans, recovered};
ghost use Rattle.life_table.specs.Legal.{Awaits, freed};
ghost use Rattle.life_table.specs.Table.{row_of};
ghost use Rattle.sound_image.specs.Encoding.{CanEncode, Layouts};
ghost use Rattle.encoded_changes.specs.Changes.{taken_from};
ghost use Rattle.orphan_frees.specs.Order.{freed_all, keys_of_group, keys_to_free, unlisted_all};

use encoded_changes::{
    encodings_follow_the_table, groups_change_alone, places_have_their_metadata,
};
use life_table::{changes_pass_over_holds, recovery_frees_once, tables_stay_well_formed};

/// A law: the frees of a table's rows without links are legal, one after the other, from a table that nobody holds; the first so many lead to a table without
/// holds, which can be encoded with the layouts from which their inodes were taken; each is a change; and all lead to the recovered table. There is one for each
/// row without links, and none where there is no such row, as in the recovered table.
pub fn recovery_frees_in_order()
    ensures legal { (g : Geometry) (t : Table) (layouts : Layouts) (sectors : List Sector) (actor count : ℕ) → CanEncode g t layouts sectors → closed t ≡ t
        → LegalHistory t (frees_of actor (take count (keys_to_free t layouts))) (freed_all t (take count (keys_to_free t layouts))) }
    ensures encodes { (g : Geometry) (t : Table) (layouts : Layouts) (sectors : List Sector) (count : ℕ) → CanEncode g t layouts sectors → closed t ≡ t
        → CanEncode g (freed_all t (take count (keys_to_free t layouts))) (unlisted_all layouts (take count (keys_to_free t layouts))) sectors }
    ensures unheld { (t : Table) (keys : List Key) → closed t ≡ t → closed (freed_all t keys) ≡ freed_all t keys }
    ensures each_is_a_change { (actor : ℕ) (keys : List Key) → changes (frees_of actor keys) ≡ frees_of actor keys }
    ensures after { (t : Table) (actor count : ℕ) (keys : List Key) → closed t ≡ t → After t (frees_of actor keys) count ≡ freed_all t (take count keys) }
    ensures all { (g : Geometry) (t : Table) (layouts : Layouts) (sectors : List Sector) → CanEncode g t layouts sectors → closed t ≡ t
        → freed_all t (keys_to_free t layouts) ≡ recovered t }
    ensures none_left { (g : Geometry) (t : Table) (layouts : Layouts) (sectors : List Sector) → CanEncode g t layouts sectors → closed t ≡ t → orphans (recovered t) ≡ 0 }
    ensures one_each { (g : Geometry) (t : Table) (layouts : Layouts) (sectors : List Sector) → CanEncode g t layouts sectors → closed t ≡ t
        → length (keys_to_free t layouts) ≡ orphans t }
    ensures none { (g : Geometry) (t : Table) (layouts : Layouts) (sectors : List Sector) → CanEncode g t layouts sectors → closed t ≡ t → orphans t ≡ 0 → keys_to_free t layouts ≡ [] }
    ensures few { (g : Geometry) (t : Table) (layouts : Layouts) (sectors : List Sector) → CanEncode g t layouts sectors → closed t ≡ t
        → length (keys_to_free t layouts) ≤ MAX_NUMBERS }
{
    tables_stay_well_formed();
    recovery_frees_once();
    changes_pass_over_holds();
    encodings_follow_the_table();
    groups_change_alone();
    places_have_their_metadata();
}

/// A law: what a table can be encoded in, the one after a free can be too, once the inode is taken out of its list. The keys of a group's rows without links are
/// of that group; of a table that nobody holds each of these rows awaits once those before it were freed.
pub fn groups_are_freed_in_order()
    ensures encodes { (g : Geometry) (t : Table) (layouts : Layouts) (sectors : List Sector) (key : Key) → CanEncode g t layouts sectors → IsSomeAnd (row_of t key) Awaits
        → CanEncode g (freed t key) (taken_from layouts (key.number / GROUP_NUMBERS) (key.number % GROUP_NUMBERS)) sectors }
    ensures all_encode { (g : Geometry) (t : Table) (layouts : Layouts) (sectors : List Sector) (group count : ℕ) → CanEncode g t layouts sectors → closed t ≡ t → group < g.groups
        → CanEncode g (freed_all t (take count (keys_of_group t layouts group))) (unlisted_all layouts (take count (keys_of_group t layouts group))) sectors }
    ensures own { (g : Geometry) (t : Table) (layouts : Layouts) (sectors : List Sector) (group : ℕ) → CanEncode g t layouts sectors → closed t ≡ t → group < g.groups
        → All (λ (key : Key). key.number / GROUP_NUMBERS ≡ group) (keys_of_group t layouts group) }
    ensures awaits { (g : Geometry) (t : Table) (layouts : Layouts) (sectors : List Sector) (group i : ℕ) (d : Key) → CanEncode g t layouts sectors → closed t ≡ t → group < g.groups
        → i < length (keys_of_group t layouts group)
        → IsSomeAnd (row_of (freed_all t (take i (keys_of_group t layouts group))) (slice_index_or (keys_of_group t layouts group) i d)) Awaits }
{
    tables_stay_well_formed();
    recovery_frees_once();
    changes_pass_over_holds();
    encodings_follow_the_table();
    groups_change_alone();
    places_have_their_metadata();
}

/// A law: the keys of a table's rows without links stand group by group, and in a group bucket by bucket.
pub fn recovery_goes_by_bucket()
    ensures { (g : Geometry) (t : Table) (layouts : Layouts) (sectors : List Sector) (i j : ℕ) (earlier later : Key) → CanEncode g t layouts sectors → i ≤ j
        → slice_get (keys_to_free t layouts) i ≡ Some earlier → slice_get (keys_to_free t layouts) j ≡ Some later
        → earlier.number / GROUP_NUMBERS * BUCKETS + earlier.number % BUCKETS ≤ later.number / GROUP_NUMBERS * BUCKETS + later.number % BUCKETS }
{
    places_have_their_metadata();
}
