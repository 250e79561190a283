// Laws of the definitions. Each is the contract of a function that does nothing.

ghost use Rattle.std.specs.Prelude.{◌≡◌, ◌≢◌, ◌⊎◌, ◌+◌, ◌≤◌, ◌<◌, ◌*◌, ◌/◌, ◌%◌, ℕ, true, false, List, [], ◌∷◌, None, Some, is_none, length};
ghost use Rattle.life_limits.specs.declared.TheConstants.{BLOCK_SECTORS, BUCKETS, FIRST_DATA_BLOCK, FIRST_PAGE_BLOCK, GROUP_NUMBERS, LAST_PAGE_BLOCK, NO_INODE, SECTOR_BYTES};
ghost use Rattle.life_bytes.specs.declared.sector.Sector.{Sector};
ghost use Rattle.geometry.specs.declared.shape.Geometry.{Geometry};
ghost use Rattle.geometry.specs.Places.{group_sectors};
ghost use Rattle.log_image.specs.Overlay.{overlaid};
ghost use Rattle.log_record.specs.declared.image.Image.{Image};
ghost use Rattle.life_table.specs.declared.key.Key.{Key};
ghost use Rattle.life_table.specs.declared.types.Row.{Row};
ghost use Rattle.life_table.specs.Legal.{IsNextKey, prepare};
ghost use Rattle.life_table.specs.declared.table.Table.{Table};
ghost use Rattle.life_table.specs.declared.table.Inode.{Inode};
ghost use Rattle.life_table.specs.declared.table.Chunk.{Chunk};
ghost use Rattle.life_table.specs.Table.{Group, group_at, in_use, inode_in, inode_of, row_of, set_inode, start_of, with_group, with_inode};
ghost use Rattle.life_table.specs.Space.{times, insert_chunk, is_free_block, new_chunk, prepared, row_blocks};
ghost use Rattle.life_table.specs.WellFormed.{IsTable};
ghost use Rattle.sound_image.specs.Places.{bitmap_place, bitmap_sectors, header_place, part};
ghost use Rattle.sound_image.specs.Encoding.{Layouts, AreLayouts, CanEncode, head_of, header_for, inode_sector, is_unlinked_row, layout_of, bucket_list, metadata, next_in, page_bytes, page_of, page_place, encoded};
ghost use Rattle.sound_image.specs.Rules.{free_set};
ghost use Rattle.ag_header.specs.Headers.{header_encoding};
ghost use Rattle.free_map.specs.Bitmap.{bitmap};
ghost use Rattle.agi_buckets.specs.Buckets.{without};
ghost use Rattle.encoded_changes.specs.Carry.{AreImagesOf, ChangesOnly, Stays, Carry, CarryGroup, image_for};
ghost use Rattle.encoded_changes.specs.Changes.{FollowInode, HaveSameBlocks, IsOfBitmap, IsChunkPlace, IsOfNoNewChunk, IsOfPage, PutsFirst, Relists, TakesOut, put_in, taken_from, unused_inode};

/// A law: images that carry a change, put over what encodes the table before it, give what encodes the table after it. Where one group alone has changed,
/// images that carry how that group changes are such. The images of a change, those of the sectors that it changes alone, are one list.
pub fn images_carry_changes()
    ensures encoded { (g : Geometry) (t u : Table) (layouts others : Layouts) (image : List Sector) (images : List Image)
        → g.groups * group_sectors g ≤ length image → Carry g t layouts u others images
        → overlaid (encoded g t layouts image) images ≡ encoded g u others image }
    ensures one_group { (g : Geometry) (t u : Table) (layouts others : Layouts) (group : ℕ) (images : List Image)
        → group < g.groups → ChangesOnly group t layouts u others
        → CarryGroup g group layouts (group_at t group) others (group_at u group) images → Carry g t layouts u others images }
    ensures in_group { (g : Geometry) (t : Table) (layouts others : Layouts) (image : List Sector) (group : ℕ) (next : Group) (images : List Image)
        → CanEncode g t layouts image → group < g.groups → ((other : ℕ) → other ≢ group → layout_of others other ≡ layout_of layouts other)
        → CarryGroup g group layouts (group_at t group) others next images
        → overlaid (encoded g t layouts image) images ≡ encoded g (with_group t group next) others image }
    ensures one_list { (g : Geometry) (group : ℕ) (layouts others : Layouts) (chunks next : Group) (first second : List Image)
        → AreImagesOf g group layouts chunks others next first → AreImagesOf g group layouts chunks others next second → first ≡ second }
{}

/// A law: another inode at a number touches its sector alone; the header and the page too where one of the two is in use and the other is not; the bitmap
/// too where they have not the same blocks.
pub fn inodes_touch_themselves()
    ensures { (g : Geometry) (layouts : Layouts) (group : ℕ) (chunks : Group) (agino : ℕ) (old new : Inode) (place : ℕ)
        → inode_in chunks agino ≡ Some old → place ≢ agino
        → (is_none new.row ≡ is_none old.row) ⊎ ((place ≢ header_place) × ¬ IsOfPage layouts group place)
        → HaveSameBlocks old new ⊎ ¬ IsOfBitmap place
        → Stays g group layouts chunks layouts (set_inode chunks agino new) place }
{}

/// A law: one chunk more touches the header, the bitmap, the page, and the sectors of its inodes.
pub fn chunks_touch_themselves()
    ensures { (g : Geometry) (layouts : Layouts) (group : ℕ) (chunks : Group) (new : Chunk) (place : ℕ)
        → place ≢ header_place → ¬ IsOfBitmap place → ¬ IsOfPage layouts group place → ¬ IsChunkPlace new.start place
        → Stays g group layouts chunks layouts (insert_chunk new chunks) place }
{}

/// A law: an inode that is put first in its bucket touches the header and its own sector; one that is taken out touches its own sector and what pointed at it,
/// which is the header where it was the head, and else the sector of the one inode before it. No inode is before itself; and what follows another one stays
/// where an inode is taken out, unless it was that one.
pub fn buckets_touch_pointers()
    ensures put { (g : Geometry) (layouts others : Layouts) (group : ℕ) (chunks : Group) (agino place : ℕ) → PutsFirst layouts others group agino
        → place ≢ agino → place ≢ header_place → Stays g group layouts chunks others chunks place }
    ensures taken { (g : Geometry) (layouts others : Layouts) (group : ℕ) (chunks : Group) (agino place : ℕ) → TakesOut layouts others group agino
        → place ≢ agino → (place ≢ header_place) ⊎ (head_of (bucket_list layouts group (agino % BUCKETS)) ≢ agino)
        → next_in (bucket_list layouts group (agino % BUCKETS)) place ≢ agino → Stays g group layouts chunks others chunks place }
    ensures one_before { (members : List ℕ) (agino first second : ℕ) → times agino members ≤ 1 → agino ≢ NO_INODE
        → next_in members first ≡ agino → next_in members second ≡ agino → first ≡ second }
    ensures none_before { (members : List ℕ) (agino other : ℕ) → times agino members ≤ 1 → agino ≢ NO_INODE
        → head_of members ≡ agino → next_in members other ≢ agino }
    ensures not_itself { (members : List ℕ) (agino : ℕ) → times agino members ≤ 1 → agino ≢ NO_INODE → next_in members agino ≢ agino }
    ensures others_stay { (members : List ℕ) (agino other : ℕ) → other ≢ agino → next_in members other ≢ agino
        → next_in (without members agino) other ≡ next_in members other }
{}

/// A law: an inode that comes to be without links, and is put into its bucket, touches the header and its sector; one that is no more without links, or no
/// more in use, and is taken out of its bucket, touches its sector and what pointed at it. Both touch the page too, and the second the header too, where the
/// inode comes or goes; and both touch the bitmap too where its blocks differ.
pub fn rows_touch_their_bucket()
    ensures put { (g : Geometry) (layouts others : Layouts) (group : ℕ) (chunks : Group) (agino : ℕ) (old new : Inode) (place : ℕ)
        → PutsFirst layouts others group agino → inode_in chunks agino ≡ Some old → place ≢ agino → place ≢ header_place
        → (is_none new.row ≡ is_none old.row) ⊎ ¬ IsOfPage layouts group place
        → HaveSameBlocks old new ⊎ ¬ IsOfBitmap place
        → Stays g group layouts chunks others (set_inode chunks agino new) place }
    ensures taken { (g : Geometry) (layouts others : Layouts) (group : ℕ) (chunks : Group) (agino : ℕ) (old new : Inode) (place : ℕ)
        → TakesOut layouts others group agino → inode_in chunks agino ≡ Some old → place ≢ agino
        → (place ≢ header_place) ⊎ (head_of (bucket_list layouts group (agino % BUCKETS)) ≢ agino)
        → next_in (bucket_list layouts group (agino % BUCKETS)) place ≢ agino
        → (is_none new.row ≡ is_none old.row) ⊎ ((place ≢ header_place) × ¬ IsOfPage layouts group place)
        → HaveSameBlocks old new ⊎ ¬ IsOfBitmap place
        → Stays g group layouts chunks others (set_inode chunks agino new) place }
{}

/// A law: where a group of a table is replaced, and no layout but its own, it alone has changed, and the image can encode the next table where that is well
/// formed and has these layouts. An inode put first in its bucket, and one taken out, change the layout of their group alone.
pub fn groups_change_alone()
    ensures own { (t : Table) (group : ℕ) (chunks : Group) → group < length t.groups → group_at (with_group t group chunks) group ≡ chunks }
    ensures only { (t : Table) (layouts others : Layouts) (group : ℕ) (chunks : Group) → ((other : ℕ) → other ≢ group → layout_of others other ≡ layout_of layouts other)
        → ChangesOnly group t layouts (with_group t group chunks) others }
    ensures encodes { (g : Geometry) (t : Table) (layouts others : Layouts) (image : List Sector) (group : ℕ) (chunks : Group) → CanEncode g t layouts image
        → IsTable (with_group t group chunks) → AreLayouts (with_group t group chunks) others → CanEncode g (with_group t group chunks) others image }
    ensures put { (t : Table) (layouts : Layouts) (group agino : ℕ) → AreLayouts t layouts → group < length t.groups
        → PutsFirst layouts (put_in layouts group agino) group agino }
    ensures taken { (t : Table) (layouts : Layouts) (group agino : ℕ) → AreLayouts t layouts → group < length t.groups
        → TakesOut layouts (taken_from layouts group agino) group agino }
{}

/// A law: layouts of a table are layouts of the next one where no inode of a group comes to be without links and none ceases to be; where one comes to be,
/// once it is put into its bucket; and where one ceases to be, once it is taken out of it.
pub fn layouts_follow_the_table()
    ensures same { (t : Table) (layouts : Layouts) (group agino : ℕ) (old new : Inode) → AreLayouts t layouts → group < length t.groups
        → inode_in (group_at t group) agino ≡ Some old → is_unlinked_row new.row ≡ is_unlinked_row old.row
        → AreLayouts (with_group t group (set_inode (group_at t group) agino new)) layouts }
    ensures put { (t : Table) (layouts others : Layouts) (group agino : ℕ) (old new : Inode) → AreLayouts t layouts → group < length t.groups
        → inode_in (group_at t group) agino ≡ Some old → is_unlinked_row old.row ≡ false → is_unlinked_row new.row ≡ true → PutsFirst layouts others group agino
        → AreLayouts (with_group t group (set_inode (group_at t group) agino new)) others }
    ensures taken { (t : Table) (layouts others : Layouts) (group agino : ℕ) (old new : Inode) → AreLayouts t layouts → group < length t.groups
        → inode_in (group_at t group) agino ≡ Some old → is_unlinked_row new.row ≡ false → TakesOut layouts others group agino
        → AreLayouts (with_group t group (set_inode (group_at t group) agino new)) others }
    ensures chunk { (t : Table) (layouts : Layouts) (group block : ℕ) → AreLayouts t layouts → group < length t.groups
        → ((agino : ℕ) → start_of agino ≡ (new_chunk block).start → inode_in (group_at t group) agino ≡ None)
        → AreLayouts (with_group t group (insert_chunk (new_chunk block) (group_at t group))) layouts }
{}

/// A law: another inode at a number of the image, with its list as it follows, leaves what the image can encode; and images that carry the change of its group
/// give what encodes the next table. So it is after each change but a create, and after a create where its group was prepared first, which leaves the layouts.
pub fn encodings_follow_the_table()
    ensures row { (t : Table) (key : Key) (row : Row) → row_of t key ≡ Some row → inode_of t key.number ≡ Some (in_use key row) }
    ensures inode { (g : Geometry) (t : Table) (layouts others : Layouts) (image : List Sector) (number : ℕ) (old new : Inode) → CanEncode g t layouts image
        → inode_of t number ≡ Some old → IsTable (with_inode t number new) → FollowInode layouts number old new others
        → CanEncode g (with_inode t number new) others image }
    ensures carried { (g : Geometry) (t : Table) (layouts others : Layouts) (image : List Sector) (number : ℕ) (old new : Inode) (images : List Image) → CanEncode g t layouts image
        → inode_of t number ≡ Some old → FollowInode layouts number old new others
        → CarryGroup g (number / GROUP_NUMBERS) layouts (group_at t (number / GROUP_NUMBERS)) others (set_inode (group_at t (number / GROUP_NUMBERS)) (number % GROUP_NUMBERS) new) images
        → overlaid (encoded g t layouts image) images ≡ encoded g (with_inode t number new) others image }
    ensures prepared { (t : Table) (layouts : Layouts) (group : ℕ) → AreLayouts t layouts → group < length t.groups → AreLayouts (prepare t group) layouts }
    ensures made { (g : Geometry) (t : Table) (layouts others : Layouts) (image : List Sector) (group number : ℕ) (old new : Inode) → CanEncode g t layouts image → group < g.groups
        → inode_of (prepare t group) number ≡ Some old → IsTable (with_inode (prepare t group) number new) → FollowInode layouts number old new others
        → CanEncode g (with_inode (prepare t group) number new) others image }
    ensures made_carried { (g : Geometry) (t : Table) (layouts others : Layouts) (image : List Sector) (group number : ℕ) (old new : Inode) (images : List Image) → CanEncode g t layouts image
        → group < g.groups → number / GROUP_NUMBERS ≡ group → FollowInode layouts number old new others
        → CarryGroup g group layouts (group_at t group) others (set_inode (prepared t.blocks group (group_at t group)) (number % GROUP_NUMBERS) new) images
        → overlaid (encoded g t layouts image) images ≡ encoded g (with_inode (prepare t group) number new) others image }
{}

/// A law: the key that a create gives is in its group, and the inode of its number, once the group was prepared, is in no use and has that life next.
pub fn created_keys_are_free()
    ensures group { (t : Table) (group : ℕ) (key : Key) → IsTable t → IsNextKey t group key → key.number / GROUP_NUMBERS ≡ group }
    ensures inode { (t : Table) (group : ℕ) (key : Key) → IsTable t → IsNextKey t group key → inode_of (prepare t group) key.number ≡ Some (unused_inode key) }
{}

/// A law: a create touches the header, the page and the sector of its inode, and where it adds a chunk also the bitmap and the sectors of the chunk.
pub fn creates_touch_their_inode()
    ensures { (g : Geometry) (t : Table) (layouts others : Layouts) (group : ℕ) (key : Key) (new : Inode) (place : ℕ) → IsTable t → IsNextKey t group key
        → Relists layouts group (key.number % GROUP_NUMBERS) false (is_unlinked_row new.row) others → row_blocks new.row ≡ []
        → place ≢ header_place → ¬ IsOfPage layouts group place → place ≢ key.number % GROUP_NUMBERS → IsOfNoNewChunk t group place
        → Stays g group layouts (group_at t group) others (set_inode (prepared t.blocks group (group_at t group)) (key.number % GROUP_NUMBERS) new) place }
{}

/// A law: a sector of the bitmap changes only where a block of its part comes to be free or ceases to be.
pub fn bitmaps_touch_their_part()
    ensures { (g : Geometry) (layouts others : Layouts) (group : ℕ) (chunks next : Group) (k : ℕ) → k < bitmap_sectors
        → ((block : ℕ) → block / (8 * SECTOR_BYTES) ≡ k → is_free_block g.blocks next block ≡ is_free_block g.blocks chunks block)
        → Stays g group layouts chunks others next (bitmap_place + k) }
{}

/// A law: what the format says of each place of a group; and an inode of a table that an image can encode has a place behind all pages, in its group.
pub fn places_have_their_metadata()
    ensures header { (g : Geometry) (layouts : Layouts) (group : ℕ) (chunks : Group) → metadata g layouts group chunks header_place ≡ Some (header_encoding (header_for g group chunks layouts)) }
    ensures bitmap { (g : Geometry) (layouts : Layouts) (group : ℕ) (chunks : Group) (k : ℕ) → k < bitmap_sectors
        → metadata g layouts group chunks (bitmap_place + k) ≡ Some (part k (bitmap (free_set g.blocks chunks))) }
    ensures page { (g : Geometry) (layouts : Layouts) (group : ℕ) (chunks : Group) (k : ℕ) → FIRST_PAGE_BLOCK ≤ page_of layouts group → k < BLOCK_SECTORS
        → metadata g layouts group chunks (page_place layouts group + k) ≡ Some (part k (page_bytes g layouts group chunks)) }
    ensures inode { (g : Geometry) (layouts : Layouts) (group : ℕ) (chunks : Group) (agino : ℕ) (inode : Inode) → page_of layouts group ≤ LAST_PAGE_BLOCK
        → FIRST_DATA_BLOCK * BLOCK_SECTORS ≤ agino → inode_in chunks agino ≡ Some inode → metadata g layouts group chunks agino ≡ Some (inode_sector g layouts group agino inode) }
    ensures place { (g : Geometry) (t : Table) (layouts : Layouts) (image : List Sector) (group agino : ℕ) (inode : Inode) → CanEncode g t layouts image → group < g.groups
        → inode_in (group_at t group) agino ≡ Some inode → (FIRST_DATA_BLOCK * BLOCK_SECTORS ≤ agino) × (agino < group_sectors g) }
{}

/// A law: where an inode stays in use or out of it, its blocks stay, and its list too, the image of its sector carries the change; where it comes to be without
/// links and is put first in its list, those of the header and of its sector do; where it ceases to be and is taken out, that of its sector and that of what
/// pointed at it, the header or the inode before it.
pub fn links_are_carried()
    ensures alone { (g : Geometry) (t : Table) (layouts : Layouts) (image : List Sector) (group agino : ℕ) (old new : Inode) → CanEncode g t layouts image → group < g.groups
        → inode_in (group_at t group) agino ≡ Some old → is_none new.row ≡ is_none old.row → HaveSameBlocks old new
        → CarryGroup g group layouts (group_at t group) layouts (set_inode (group_at t group) agino new) (image_for g group agino (inode_sector g layouts group agino new) ∷ []) }
    ensures put { (g : Geometry) (t : Table) (layouts others : Layouts) (image : List Sector) (group agino : ℕ) (old new : Inode) → CanEncode g t layouts image → group < g.groups
        → inode_in (group_at t group) agino ≡ Some old → is_none new.row ≡ is_none old.row → HaveSameBlocks old new → PutsFirst layouts others group agino
        → CarryGroup g group layouts (group_at t group) others (set_inode (group_at t group) agino new)
        (image_for g group header_place (header_encoding (header_for g group (set_inode (group_at t group) agino new) others))
        ∷ image_for g group agino (inode_sector g others group agino new) ∷ []) }
    ensures taken_first { (g : Geometry) (t : Table) (layouts others : Layouts) (image : List Sector) (group agino : ℕ) (old new : Inode) → CanEncode g t layouts image → group < g.groups
        → inode_in (group_at t group) agino ≡ Some old → is_none new.row ≡ is_none old.row → HaveSameBlocks old new → TakesOut layouts others group agino
        → head_of (bucket_list layouts group (agino % BUCKETS)) ≡ agino
        → CarryGroup g group layouts (group_at t group) others (set_inode (group_at t group) agino new)
        (image_for g group header_place (header_encoding (header_for g group (set_inode (group_at t group) agino new) others))
        ∷ image_for g group agino (inode_sector g others group agino new) ∷ []) }
    ensures taken_later { (g : Geometry) (t : Table) (layouts others : Layouts) (image : List Sector) (group agino before : ℕ) (old new other : Inode) → CanEncode g t layouts image → group < g.groups
        → inode_in (group_at t group) agino ≡ Some old → is_none new.row ≡ is_none old.row → HaveSameBlocks old new → TakesOut layouts others group agino
        → inode_in (group_at t group) before ≡ Some other → next_in (bucket_list layouts group (agino % BUCKETS)) before ≡ agino
        → CarryGroup g group layouts (group_at t group) others (set_inode (group_at t group) agino new)
        (image_for g group before (inode_sector g others group before other) ∷ image_for g group agino (inode_sector g others group agino new) ∷ []) }
{}
