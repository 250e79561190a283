// Laws of the definitions. Each is the contract of a function that does nothing but call the laws that its own rests on.

ghost use Rattle.std.specs.Prelude.{◌≡◌, ◌≢◌, ◌≤◌, ◌<◌, ◌++◌, ◌∷◌, ℕ, List, [], All, take, drop, length, slice_index_or};
ghost use Rattle.life_bytes.specs.declared.sector.Sector.{Sector};
ghost use Rattle.geometry.specs.declared.shape.Geometry.{Geometry};
ghost use Rattle.geometry.specs.Places.{anchor_of, group_sectors};
ghost use Rattle.log_record.specs.declared.image.Commit.{Commit};
ghost use Rattle.log_image.specs.Log.{IsGroupImage, Log};
ghost use Rattle.log_image.specs.Overlay.{overlaid};
ghost use Rattle.log_batch.specs.Newest.{IsCommit, commit_images};
ghost use Rattle.life_table.specs.declared.table.Table.{Table};
ghost use Rattle.life_table.specs.History.{closed};
ghost use Rattle.sound_image.specs.Places.{sector_in};
ghost use Rattle.sound_image.specs.Encoding.{Layouts, CanEncode, encoded};
ghost use Rattle.whole_image.specs.Damage.{HasFrontAndLog, groups_of};
ghost use Rattle.whole_image.specs.Represents.{Represents};
ghost use Rattle.commit_history.specs.Carried.{AreAlikeIn, CommitCarries, CommitsCarry, IsEncoding, commits_in};

use encoded_changes::{images_carry_changes, places_have_their_metadata};
use whole_image::encoded_images_represent_their_table;

/// A law: no commit leaves the table with its layouts; one more at the end carries on from where the first lead; two lists that follow each other are one; and
/// one list is its first so many commits and then the others, from the table to which the first lead.
pub fn commits_follow_each_other()
    ensures none { (g : Geometry) (t : Table) (layouts : Layouts) → CommitsCarry g t layouts [] t layouts }
    ensures added { (g : Geometry) (t u v : Table) (layouts others last : Layouts) (commits : List Commit) (commit : Commit) → CommitsCarry g t layouts commits u others
        → CommitCarries g u others v last commit → CommitsCarry g t layouts (commits ++ commit ∷ []) v last }
    ensures joined { (g : Geometry) (t u v : Table) (layouts others last : Layouts) (first second : List Commit) → CommitsCarry g t layouts first u others
        → CommitsCarry g u others second v last → CommitsCarry g t layouts (first ++ second) v last }
    ensures parted { (g : Geometry) (t v : Table) (layouts last : Layouts) (commits : List Commit) (count : ℕ) → CommitsCarry g t layouts commits v last
        → (u : Table) × (others : Layouts) × CommitsCarry g t layouts (take count commits) u others × CommitsCarry g u others (drop count commits) v last }
{}

/// A law: sectors that encode a table with its layouts, with the images of commits put over them that carry it on, encode the table to which these lead; so
/// they do with those of the first so many commits. What is left of encoding a table encodes it.
pub fn commits_lead_from_encoding_to_encoding()
    ensures made { (g : Geometry) (t : Table) (layouts : Layouts) (sectors : List Sector) → CanEncode g t layouts sectors → IsEncoding g t layouts (encoded g t layouts sectors) }
    ensures all { (g : Geometry) (t u : Table) (layouts others : Layouts) (base : List Sector) (commits : List Commit) → IsEncoding g t layouts base
        → CommitsCarry g t layouts commits u others → IsEncoding g u others (overlaid base (commit_images commits)) }
    ensures first { (g : Geometry) (t v : Table) (layouts last : Layouts) (base : List Sector) (commits : List Commit) (count : ℕ) → IsEncoding g t layouts base
        → CommitsCarry g t layouts commits v last → (u : Table) × (others : Layouts) × CommitsCarry g t layouts (take count commits) u others
        × CommitsCarry g u others (drop count commits) v last × IsEncoding g u others (overlaid base (commit_images (take count commits))) }
{
    images_carry_changes();
}

/// A law: commits that carry a table on are ones that the log takes: no more images than a record may have, by ascending home, each of a sector of the groups and
/// none of the superblock.
pub fn commits_fit_the_log()
    ensures one { (g : Geometry) (t u : Table) (layouts others : Layouts) (sectors : List Sector) (commit : Commit) → CanEncode g t layouts sectors → CommitCarries g t layouts u others commit
        → IsCommit commit × All (IsGroupImage (anchor_of g)) commit.images }
    ensures all { (g : Geometry) (t u : Table) (layouts others : Layouts) (sectors : List Sector) (commits : List Commit) → CanEncode g t layouts sectors
        → CommitsCarry g t layouts commits u others → All IsCommit commits × All (IsGroupImage (anchor_of g)) (commit_images commits) }
{
    places_have_their_metadata();
}

/// A law: an image whose superblock, anchor and log are right, and whose replayed groups are what encodes a table with the images of the first so many commits
/// over it, represents the table to which these lead.
pub fn prefixes_represent_their_table()
    ensures { (g : Geometry) (t v : Table) (layouts last : Layouts) (base image : List Sector) (said : Log) (commits : List Commit) (count : ℕ) → IsEncoding g t layouts base
        → CommitsCarry g t layouts commits v last → HasFrontAndLog g image said → groups_of g image said ≡ overlaid base (commit_images (take count commits))
        → (u : Table) × (others : Layouts) × CommitsCarry g t layouts (take count commits) u others × CommitsCarry g u others (drop count commits) v last
        × Represents image (closed u) said.next }
{
    images_carry_changes();
    encoded_images_represent_their_table();
}

/// A law: a commit leaves the sectors of all groups but its own. Commits of one group carry on each table that has this group, to one that has it as the first
/// had it at their end, and its other groups stay. Of a list that carries a table on, the commits of one group carry it on to where this group is as at the end;
/// and where those of each group carry the table on, the whole list does, to a table each group of which is as at the end of its own.
pub fn groups_are_carried_apart()
    ensures leaves { (g : Geometry) (t u : Table) (layouts others : Layouts) (sectors : List Sector) (commit : Commit) (other place : ℕ) (d : Sector) → CommitCarries g t layouts u others commit
        → other ≢ commit.group → place < group_sectors g → slice_index_or (overlaid sectors commit.images) (sector_in g other place) d ≡ slice_index_or sectors (sector_in g other place) d }
    ensures moved { (g : Geometry) (group : ℕ) (t u s : Table) (layouts others shown : Layouts) (sectors other : List Sector) (commits : List Commit) → All (λ (c : Commit). c.group ≡ group) commits
        → CommitsCarry g t layouts commits u others → CanEncode g t layouts sectors → CanEncode g s shown other → AreAlikeIn group t layouts s shown
        → (v : Table) × (last : Layouts) × CommitsCarry g s shown commits v last × AreAlikeIn group u others v last
        × ((rest : ℕ) → rest ≢ group → AreAlikeIn rest s shown v last) }
    ensures of_one_group { (g : Geometry) (group : ℕ) (t u : Table) (layouts others : Layouts) (sectors : List Sector) (commits : List Commit) → CanEncode g t layouts sectors
        → CommitsCarry g t layouts commits u others → (v : Table) × (last : Layouts) × CommitsCarry g t layouts (commits_in group commits) v last × AreAlikeIn group u others v last
        × ((rest : ℕ) → rest ≢ group → AreAlikeIn rest t layouts v last) }
    ensures of_all_groups { (g : Geometry) (t : Table) (layouts : Layouts) (sectors : List Sector) (commits : List Commit) (ends : ℕ → Table) (lists : ℕ → Layouts) → CanEncode g t layouts sectors
        → All (λ (c : Commit). c.group < g.groups) commits → ((group : ℕ) → group < g.groups → CommitsCarry g t layouts (commits_in group commits) (ends group) (lists group))
        → (u : Table) × (others : Layouts) × CommitsCarry g t layouts commits u others × ((group : ℕ) → group < g.groups → AreAlikeIn group (ends group) (lists group) u others) }
{}
