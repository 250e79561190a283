// What the definitions have been proved to mean: each law is the contract of a function that does nothing.

ghost use Rattle.std.specs.Prelude.{◌≡◌, ◌≢◌, ◌↔◌, ◌⊎◌, ◌<◌, ◌≤◌, ◌+◌, ◌/◌, ℕ, true, false, List, None, Some, IsSome, IsSomeAnd, length, take};
ghost use Rattle.std.specs.List.{AllByRecursion};
ghost use Rattle.std.specs.Option.{option_map};
ghost use Rattle.life_table.specs.declared.key.Key.{Key};
ghost use Rattle.life_table.specs.declared.types.Row.{Row};
ghost use Rattle.life_table.specs.declared.types.Call.{Call};
ghost use Rattle.life_table.specs.declared.types.Reply.{Reply};
ghost use Rattle.life_table.specs.declared.types.Entry.{Entry};
ghost use Rattle.life_table.specs.declared.types.Event.{Event};
ghost use Rattle.life_table.specs.declared.table.Table.{Table};
ghost use Rattle.life_limits.specs.declared.TheConstants.{GROUP_NUMBERS, MAX_BLOCKS, MAX_CHUNKS, MAX_GROUPS, MIN_BLOCKS, VERSION};
ghost use Rattle.life_table.specs.Table.{Group, empty_table, group_number, group_at, inode_of, row_of};
ghost use Rattle.life_table.specs.Space.{BeginsFreeRun, IsFreeNumber, chunk_place, lowest_key, times};
ghost use Rattle.life_table.specs.Legal.{Awaits, Legal, Permits, Frees, IsDeviceFault, IsOpen, IsOfTable, CanMake, IsNoCut, IsNoHold, free_in, free_of, last_blocks};
ghost use Rattle.life_table.specs.Replies.{reply_of};
ghost use Rattle.life_table.specs.WellFormed.{IsDataBlock, IsRow, IsTable};
ghost use Rattle.life_table.specs.History.{Leads, LegalHistory, holds, After, after_event, changes, closed, closed_row, is_change, recovered, recovered_inode, orphans, frees_of};

use crate::types::{Call, Event, Reply};

/// A law: a table without chunks is well formed, and what legally happens to a well formed table leaves a well formed one. So no block comes to be in two rows,
/// in a row and a chunk, or twice in one, and no number comes to have two rows.
pub fn tables_stay_well_formed()
    ensures empty { (groups blocks : ℕ) → 1 ≤ groups → groups ≤ MAX_GROUPS → MIN_BLOCKS ≤ blocks → blocks ≤ MAX_BLOCKS → IsTable (empty_table VERSION groups blocks) }
    ensures call { (t u : Table) (called : Call) (answer : Reply) → IsTable t → Legal t called answer u → IsTable u }
    ensures free { (t u : Table) (key : Key) → IsTable t → Frees t key u → IsTable u }
    ensures history { (t u : Table) (entries : List Entry) → IsTable t → Leads t entries u → IsTable u }
    ensures without_holds { (t : Table) → IsTable t → IsTable (closed t) }
    ensures recovery { (t : Table) → IsTable t → IsTable (recovered t) }
{}

/// A law: a key that had a row and has none never has one again, whatever legally happens from then on. So a handle
/// never reaches another life of its inode.
pub fn no_key_comes_back()
    ensures { (first gone last : Table) (before after : List Entry) (key : Key) → IsTable first → IsSome (row_of first key) → Leads first before gone → row_of gone key ≡ None → Leads gone after last → row_of last key ≡ None }
{}

/// A law: a call that the table answers has at most one reply and leaves one table, and it has a reply wherever somebody
/// may make it: its group is there, or its key is held.
pub fn each_call_has_one_reply()
    ensures at_most_one { (t u v : Table) (called : Call) (first second : Reply) → IsOfTable called → Legal t called first u → Legal t called second v → (first ≡ second) × (u ≡ v) }
    ensures at_least_one { (t : Table) (called : Call) → IsOfTable called → CanMake t called → (answer : Reply) × (u : Table) × Legal t called answer u }
    ensures computed { (t : Table) (called : Call) → IsOfTable called → CanMake t called → Permits t called (reply_of t called) }
{}

/// A law: an actor that holds a key by the entries of a legal history has a row there that somebody holds. So each call
/// that a history lets an actor make has a reply.
pub fn holders_have_rows()
    ensures { (t u : Table) (entries : List Entry) (actor : ℕ) (key : Key) → IsTable t → LegalHistory t entries u → 0 < holds entries actor key → IsOpen (row_of u key) }
{}

/// A law: a free gives back the blocks of its row, each once, and touches no other group; a cut does so with the blocks
/// that it takes away; and no other call makes a block free. So an unlinked file's blocks come back once.
pub fn blocks_come_back_once()
    ensures free { (t u : Table) (key : Key) (row : Row) (block : ℕ) → IsTable t → Frees t key u → row_of t key ≡ Some row → times block (free_of u key) ≡ times block (free_of t key) + times block row.blocks }
    ensures free_elsewhere { (t u : Table) (key : Key) (g : ℕ) → Frees t key u → g ≢ group_number key → group_at u g ≡ group_at t g }
    ensures cut { (t u : Table) (key : Key) (count : ℕ) (row : Row) (block : ℕ) → IsTable t → Legal t (Call.Cut key count) Reply.Done u → row_of t key ≡ Some row → times block (free_of u key) ≡ times block (free_of t key) + times block (last_blocks count row) }
    ensures cut_elsewhere { (t u : Table) (key : Key) (count g : ℕ) → Legal t (Call.Cut key count) Reply.Done u → g ≢ group_number key → group_at u g ≡ group_at t g }
    ensures other_calls { (t u : Table) (called : Call) (answer : Reply) (g block : ℕ) → IsTable t → Legal t called answer u → IsNoCut called → times block (free_in u g) ≤ times block (free_in t g) }
{}

/// A law: all changes of a history lead to the table of its end, none to that of its start, and the first so many to that
/// of some moment between, each with no holds.
pub fn changes_tell_the_table()
    ensures all { (t u : Table) (entries : List Entry) → Leads t entries u → After t entries (length (changes entries)) ≡ closed u }
    ensures none { (t : Table) (entries : List Entry) → After t entries 0 ≡ closed t }
    ensures between { (t u : Table) (entries : List Entry) (n : ℕ) → Leads t entries u → (count : ℕ) × (middle : Table) × Leads t (take count entries) middle × (After t entries n ≡ closed middle) }
{}

/// A law: what a change does has nothing to do with holds, and what is no change leaves all but holds. Nor has what a call may be answered, but for a call
/// that takes a hold or gives one up.
pub fn changes_pass_over_holds()
    ensures permits { (t : Table) (called : Call) (answer : Reply) → IsNoHold called → (Permits (closed t) called answer ↔ Permits t called answer) }
    ensures awaits { (t : Table) (key : Key) → IsSomeAnd (row_of t key) Awaits → IsSomeAnd (row_of (closed t) key) Awaits }
    ensures rows { (t : Table) (key : Key) → row_of (closed t) key ≡ closed_row (row_of t key) }
    ensures change { (t : Table) (event : Event) → is_change event ≡ true → closed (after_event t event) ≡ closed (after_event (closed t) event) }
    ensures no_change { (t : Table) (event : Event) → is_change event ≡ false → closed (after_event t event) ≡ closed t }
    ensures twice { (t : Table) → closed (closed t) ≡ closed t }
{}

/// A law: the lowest key of a group is that of its least free number, and there is none only where no number of the group is free.
pub fn lowest_keys_are_least()
    ensures free { (t : Table) (g : ℕ) (key : Key) → IsTable t → lowest_key g (group_at t g) ≡ Some key
        → (key.number / GROUP_NUMBERS ≡ g) × IsFreeNumber t key.number }
    ensures least { (t : Table) (g n : ℕ) (key : Key) → IsTable t → lowest_key g (group_at t g) ≡ Some key → n / GROUP_NUMBERS ≡ g → IsFreeNumber t n
        → key.number ≤ n }
    ensures none { (t : Table) (g n : ℕ) → IsTable t → lowest_key g (group_at t g) ≡ None → n / GROUP_NUMBERS ≡ g → ¬ IsFreeNumber t n }
{}

/// A law: the next chunk has the lowest place that there is: a multiple of 8 from which 8 blocks are free, in a group that may have one chunk more; and it has
/// none only where there is none.
pub fn chunks_have_the_lowest_place()
    ensures place { (blocks : ℕ) (group : Group) (block : ℕ) → chunk_place blocks group ≡ Some block
        → (length group < MAX_CHUNKS) × (block < blocks) × BeginsFreeRun blocks group block }
    ensures least { (blocks : ℕ) (group : Group) (block other : ℕ) → chunk_place blocks group ≡ Some block → other < block
        → ¬ BeginsFreeRun blocks group other }
    ensures none { (blocks : ℕ) (group : Group) (block : ℕ) → chunk_place blocks group ≡ None → length group < MAX_CHUNKS → block < blocks
        → ¬ BeginsFreeRun blocks group block }
{}

/// A law: an open, a close, a look at a row, what keeps house and what asks the device are no changes, whatever they are answered. What a home is answered is
/// that it is done, or a fault of the device.
pub fn other_calls_change_nothing()
    ensures open { (key : Key) (answer : Reply) → is_change (Event.Called (Call.OpenKey key) answer) ≡ false }
    ensures close { (key : Key) (answer : Reply) → is_change (Event.Called (Call.CloseKey key) answer) ≡ false }
    ensures stat { (key : Key) (answer : Reply) → is_change (Event.Called (Call.Stat key) answer) ≡ false }
    ensures gc { (answer : Reply) → is_change (Event.Called Call.Gc answer) ≡ false }
    ensures flush { (g : ℕ) (answer : Reply) → is_change (Event.Called (Call.FlushInodes g) answer) ≡ false }
    ensures reclaim { (g : ℕ) (answer : Reply) → is_change (Event.Called (Call.Reclaim g) answer) ≡ false }
    ensures sync { (answer : Reply) → is_change (Event.Called Call.Sync answer) ≡ false }
    ensures home { (answer : Reply) → is_change (Event.Called Call.Home answer) ≡ false }
    ensures home_answers { (t u : Table) (answer : Reply) → Legal t Call.Home answer u → (answer ≡ Reply.Done) ⊎ IsDeviceFault answer }
{}

/// A law: recovery ends the row of each inode without links once, by one rise of its generation, and leaves the other
/// inodes. It is what the frees come to, one for each such row, in whichever order. No row without links is left, and
/// a second recovery changes nothing.
pub fn recovery_frees_once()
    ensures each { (t : Table) (number : ℕ) → inode_of (recovered t) number ≡ option_map recovered_inode (inode_of t number) }
    ensures by_frees { (t : Table) (actor : ℕ) → IsTable t → closed t ≡ t → (keys : List Key) × (length keys ≡ orphans t) × Leads t (frees_of actor keys) (recovered t) }
    ensures any_order { (t u : Table) (actor : ℕ) (keys : List Key) → Leads t (frees_of actor keys) u → orphans u ≡ 0 → u ≡ recovered t }
    ensures none_left { (t : Table) (key : Key) (row : Row) → row_of (recovered t) key ≡ Some row → 1 ≤ row.links }
    ensures twice { (t : Table) → recovered (recovered t) ≡ recovered t }
{}

/// A law: a row of a well formed table is within the limits, its key has a life that is not the last generation, and its
/// blocks are data blocks, at most as many as its group has.
pub fn rows_are_within_limits()
    ensures limits { (t : Table) (key : Key) (row : Row) → IsTable t → row_of t key ≡ Some row → IsRow key.generation row }
    ensures blocks { (t : Table) (key : Key) (row : Row) → IsTable t → row_of t key ≡ Some row → AllByRecursion (IsDataBlock t.blocks) row.blocks }
    ensures few { (t : Table) (key : Key) (row : Row) → IsTable t → row_of t key ≡ Some row → length row.blocks ≤ t.blocks }
{}
