// Laws of the definitions. Each is the contract of a function that does nothing.

ghost use Rattle.std.specs.Prelude.{◌≡◌, ◌≢◌, ◌≤◌, ◌<◌, ◌+◌, ◌*◌, ◌%◌, ◌++◌, ◌∷◌, ℕ, true, false, List, [], None, Some, is_none, is_some, length, map};
ghost use Rattle.std.specs.List.{All};
ghost use Rattle.life_limits.specs.declared.TheConstants.{BLOCK_SECTORS, BUCKETS, GROUP_NUMBERS, MAX_IMAGES};
ghost use Rattle.geometry.specs.declared.shape.Geometry.{Geometry};
ghost use Rattle.geometry.specs.Places.{anchor_of};
ghost use Rattle.life_bytes.specs.declared.sector.Sector.{Sector};
ghost use Rattle.log_record.specs.declared.image.Image.{Image};
ghost use Rattle.log_image.specs.Log.{IsGroupImage};
ghost use Rattle.life_table.specs.declared.key.Key.{Key};
ghost use Rattle.life_table.specs.declared.table.Inode.{Inode};
ghost use Rattle.life_table.specs.declared.table.Table.{Table};
ghost use Rattle.life_table.specs.Legal.{IsNextKey};
ghost use Rattle.life_table.specs.Space.{chunk_place, lowest_key, prepared, row_blocks};
ghost use Rattle.life_table.specs.Table.{Group, group_at, inode_in, set_inode};
ghost use Rattle.sound_image.specs.Places.{bitmap_place, header_place};
ghost use Rattle.sound_image.specs.Encoding.{Layouts, CanEncode, bucket_list, head_of, is_unlinked_row, next_in};
ghost use Rattle.encoded_changes.specs.Carry.{AreImagesOf};
ghost use Rattle.encoded_changes.specs.Changes.{HaveSameBlocks, PutsFirst, Relists, TakesOut};
ghost use Rattle.change_images.specs.Candidates.{Candidate, IsCandidate, changed_images};
ghost use Rattle.change_images.specs.Enough.{AreEnough, AreEnoughFor, AreParts, IsInodeOf, bitmap_places, chunk_places, in_order, page_places, bitmap_part};

use encoded_changes::{
    bitmaps_touch_their_part, buckets_touch_pointers, created_keys_are_free,
    creates_touch_their_inode, inodes_touch_themselves, places_have_their_metadata,
    rows_touch_their_bucket,
};
use life_table::chunks_have_the_lowest_place;

/// A law: the candidates at places that are enough for a change give exactly its images, by ascending home and no more than a commit may have. What several
/// candidates give is what the first give and then the others.
pub fn candidates_give_the_images()
    ensures images { (g : Geometry) (group : ℕ) (layouts others : Layouts) (chunks next : Group) (places : List ℕ) (cs : List Candidate)
        → AreEnough g group layouts chunks others next places → map (λ (c : Candidate). c.place) cs ≡ places → All (IsCandidate g group layouts chunks others next) cs
        → AreImagesOf g group layouts chunks others next (changed_images g group cs) × (length (changed_images g group cs) ≤ MAX_IMAGES) }
    ensures few { (g : Geometry) (group : ℕ) (cs : List Candidate) → length (changed_images g group cs) ≤ length cs }
    ensures joined { (g : Geometry) (group : ℕ) (xs ys : List Candidate) → changed_images g group (xs ++ ys) ≡ changed_images g group xs ++ changed_images g group ys }
{}

/// A law: the places that are enough for a link or an unlink. Where the inode stays with or without links, its own; where it comes to be without links and is
/// put into its bucket, the header's and its own; where it is taken out of its bucket, those of what pointed at it, the header or the inode before it, and its own.
pub fn links_touch_two_places()
    ensures alone { (g : Geometry) (t : Table) (layouts : Layouts) (image : List Sector) (group agino : ℕ) (old new : Inode) → IsInodeOf g t layouts image group agino old
        → is_none new.row ≡ is_none old.row → HaveSameBlocks old new → AreEnoughFor g t layouts layouts group agino new (agino ∷ []) }
    ensures put { (g : Geometry) (t : Table) (layouts others : Layouts) (image : List Sector) (group agino : ℕ) (old new : Inode) → IsInodeOf g t layouts image group agino old
        → is_none new.row ≡ is_none old.row → HaveSameBlocks old new → PutsFirst layouts others group agino
        → AreEnoughFor g t layouts others group agino new (header_place ∷ agino ∷ []) }
    ensures taken_first { (g : Geometry) (t : Table) (layouts others : Layouts) (image : List Sector) (group agino : ℕ) (old new : Inode) → IsInodeOf g t layouts image group agino old
        → is_none new.row ≡ is_none old.row → HaveSameBlocks old new → TakesOut layouts others group agino → head_of (bucket_list layouts group (agino % BUCKETS)) ≡ agino
        → AreEnoughFor g t layouts others group agino new (header_place ∷ agino ∷ []) }
    ensures taken_later { (g : Geometry) (t : Table) (layouts others : Layouts) (image : List Sector) (group agino prior : ℕ) (old new other : Inode) → IsInodeOf g t layouts image group agino old
        → is_none new.row ≡ is_none old.row → HaveSameBlocks old new → TakesOut layouts others group agino
        → inode_in (group_at t group) prior ≡ Some other → next_in (bucket_list layouts group (agino % BUCKETS)) prior ≡ agino
        → AreEnoughFor g t layouts others group agino new (in_order prior agino) }
{
    places_have_their_metadata();
    inodes_touch_themselves();
    rows_touch_their_bucket();
    buckets_touch_pointers();
}

/// A law: the places that are enough for a grow or a cut: those of the sectors of the bitmap that have the bits of the blocks which come or go, and the inode's.
pub fn blocks_touch_their_bits()
    ensures { (g : Geometry) (t : Table) (layouts : Layouts) (image : List Sector) (group agino : ℕ) (old new : Inode) (parts : List ℕ) → IsInodeOf g t layouts image group agino old
        → is_none new.row ≡ is_none old.row → AreParts old new parts → AreEnoughFor g t layouts layouts group agino new (bitmap_places parts ++ agino ∷ []) }
{
    places_have_their_metadata();
    inodes_touch_themselves();
    bitmaps_touch_their_part();
}

/// A law: the places that are enough for a free: the header's, those of the sectors of the bitmap that have the bits of the inode's blocks, the page's, that of
/// the inode before it in its bucket, where there is one, and its own. The inode before it may stand behind it.
pub fn frees_touch_their_places()
    ensures first { (g : Geometry) (t : Table) (layouts others : Layouts) (image : List Sector) (group agino : ℕ) (old new : Inode) (parts : List ℕ) → IsInodeOf g t layouts image group agino old
        → AreParts old new parts → TakesOut layouts others group agino → head_of (bucket_list layouts group (agino % BUCKETS)) ≡ agino
        → AreEnoughFor g t layouts others group agino new (header_place ∷ (bitmap_places parts ++ (page_places layouts group ++ agino ∷ []))) }
    ensures later { (g : Geometry) (t : Table) (layouts others : Layouts) (image : List Sector) (group agino prior : ℕ) (old new other : Inode) (parts : List ℕ) → IsInodeOf g t layouts image group agino old
        → AreParts old new parts → TakesOut layouts others group agino
        → inode_in (group_at t group) prior ≡ Some other → next_in (bucket_list layouts group (agino % BUCKETS)) prior ≡ agino
        → AreEnoughFor g t layouts others group agino new (header_place ∷ (bitmap_places parts ++ (page_places layouts group ++ in_order prior agino))) }
{
    places_have_their_metadata();
    rows_touch_their_bucket();
    buckets_touch_pointers();
    bitmaps_touch_their_part();
}

/// A law: the places that are enough for a create. Where a number was free, the header's, the page's and the inode's; where a chunk is added, which is at this
/// block, the header's, that of the sector of the bitmap that has the chunk's bits, the page's and the 64 of the chunk.
pub fn creates_touch_their_places()
    ensures in_chunk { (g : Geometry) (t : Table) (layouts others : Layouts) (image : List Sector) (group : ℕ) (key : Key) (new : Inode) → CanEncode g t layouts image → group < g.groups
        → IsNextKey t group key → Relists layouts group (key.number % GROUP_NUMBERS) false (is_unlinked_row new.row) others → row_blocks new.row ≡ []
        → is_some (lowest_key group (group_at t group)) ≡ true
        → AreEnough g group layouts (group_at t group) others (set_inode (prepared t.blocks group (group_at t group)) (key.number % GROUP_NUMBERS) new)
        (header_place ∷ (page_places layouts group ++ key.number % GROUP_NUMBERS ∷ [])) }
    ensures in_new_chunk { (g : Geometry) (t : Table) (layouts others : Layouts) (image : List Sector) (group block : ℕ) (key : Key) (new : Inode) → CanEncode g t layouts image → group < g.groups
        → IsNextKey t group key → Relists layouts group (key.number % GROUP_NUMBERS) false (is_unlinked_row new.row) others → row_blocks new.row ≡ []
        → lowest_key group (group_at t group) ≡ None → chunk_place t.blocks (group_at t group) ≡ Some block
        → AreEnough g group layouts (group_at t group) others (set_inode (prepared t.blocks group (group_at t group)) (key.number % GROUP_NUMBERS) new)
        (header_place ∷ ((bitmap_place + bitmap_part block) ∷ (page_places layouts group ++ chunk_places (block * BLOCK_SECTORS)))) }
{
    places_have_their_metadata();
    creates_touch_their_inode();
    created_keys_are_free();
    bitmaps_touch_their_part();
    chunks_have_the_lowest_place();
}
