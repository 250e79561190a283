// Laws of the world's steps.

ghost use Rattle.std.specs.Prelude.{◌≡◌, ◌≤◌, ◌⊎◌, ◌↔◌, ◌<◌, ℕ, true, false, List, Option, None, Some, IsSome, IsSomeAnd, length, slice_get};
ghost use Rattle.log_record.specs.declared.image.Commit.{Commit};
ghost use Rattle.log_store.specs.State.{state_of};
ghost use Rattle.log_store.specs.Outcome.{steps_left};
ghost use Rattle.log_store.specs.Steps.{IsStore};
ghost use Rattle.life_table.specs.declared.key.Key.{Key};
ghost use Rattle.life_table.specs.declared.types.Call.{Call as AnyCall};
ghost use Rattle.life_table.specs.declared.types.Call.TheVariants as Call;
ghost use Rattle.life_table.specs.declared.types.Reply.TheVariants as Reply;
ghost use Rattle.life_table.specs.declared.types.Event.{Event as AnyEvent};
ghost use Rattle.life_table.specs.declared.types.Event.TheVariants as Event;
ghost use Rattle.life_table.specs.declared.table.Table.{Table};
ghost use Rattle.std.specs.List.{Contains};
ghost use Rattle.life_table.specs.declared.types.Row.{Row};
ghost use Rattle.life_table.specs.WellFormed.{IsTable};
ghost use Rattle.life_table.specs.Table.{group_number, row_of};
ghost use Rattle.life_table.specs.Legal.{Awaits, Permits};
ghost use Rattle.life_table.specs.History.{Leads, LegalHistory, after_entries, frees_of};
ghost use Rattle.slot_words.specs.declared.sight.Sight.TheVariants as Sight;
ghost use Rattle.slot_words.specs.Steps.{sight_of};
ghost use Rattle.actor_world.specs.declared.memory.Place.{Place};
ghost use Rattle.actor_world.specs.declared.memory.Place.TheVariants as place;
ghost use Rattle.actor_world.specs.declared.memory.Doing.{Doing};
ghost use Rattle.actor_world.specs.declared.memory.Memory.{Memory};
ghost use Rattle.actor_world.specs.Caches.{moved_to, cached_word, ended, is_of_geometry, actor_at};
ghost use Rattle.actor_world.specs.Moves.{answers, awaiting_of, awaiting_rows, open_move, pinned, silent, lies_in_group, lies_in_log, takes_group, takes_log, waits_in_group, is_log_call, move_of};
ghost use Rattle.actor_world.specs.World.{History, IsBegun, World, told_if};
ghost use Rattle.actor_world.specs.Steps.{DiskFace, Step};
ghost use Rattle.actor_world.specs.Bounds.{StepsInLock, steps_in_call, steps_in_lock};
ghost use Rattle.actor_world.specs.Kinds.{IsLogKind};
ghost use Rattle.actor_world.specs.Licence.{Interval, Licensed, table_at};
ghost use Rattle.actor_world.specs.Invariant.{Invariant, HasEntry, KeysAscend, unfinished_from};
ghost use Rattle.actor_world.specs.Houses.{HasNoDirty, IsReclaimed};
ghost use Rattle.actor_world.specs.Lines.{line};
ghost use Rattle.actor_world.specs.WholeCalls.{IsWholeCall, lines_state};
ghost use Rattle.actor_world.specs.LogCalls.{GoesWell, LogAnswers};
ghost use Rattle.actor_world.specs.Mounted.{IsMounted};
ghost use Rattle.actor_world.specs.Settled.{IsSettled};
ghost use Rattle.life_table.specs.declared.types.Reply.{Reply as AnyReply};

use disk_model::Disk;
use life_table::{
    changes_pass_over_holds, each_call_has_one_reply, holders_have_rows, lowest_keys_are_least,
    recovery_frees_once, rows_are_within_limits, tables_stay_well_formed,
};
use log_store::jobs_end;

/// What a commit is told of: whether it encodes the change from one history to the next. What is proved of the bytes of
/// a commit fills it in.
pub trait Tells {
    ghost use Rattle.log_record.specs.declared.image.Commit.{Commit};
    ghost use Rattle.actor_world.specs.World.{History};

    ghost tells: { History → History → Commit → Type 0 };
}

/// A law: each step is of one of four kinds towards the log. It commits one change, as the last of the queue; or it moves
/// all queued commits, in order, behind those of the store's list; or it is one step of the store; or it leaves queue,
/// store and disk. Only the first kind adds a change.
pub fn steps_are_of_four_kinds<D: Disk, T: Tells>()
    ensures { (face : DiskFace D) (a : ℕ) (old new : World D) → Step face T.tells a old new
        → IsLogKind face T.tells a old new }
{}

/// A law: a step appends at most one entry, which is of the actor that takes it and of its call.
pub fn steps_append_one_entry<D: Disk, T: Tells>()
    ensures { (face : DiskFace D) (a : ℕ) (old new : World D) → (step : Step face T.tells a old new)
        → (event : Option AnyEvent) × (new.history ≡ told_if a step.doing.«from» event old.history) }
{}

/// A law: the first step of an open or a close takes no lock of a group, so it never waits. An open whose first step finds
/// the word open, and whose next step finds it unchanged, ends there with one pin more.
pub fn opens_begin_unlocked()
    ensures open { (queue : List Key) (key : Key) (begin : ℕ) (m : Memory)
        → waits_in_group queue (record { call = Call.OpenKey key; place = place.Load; «from» = begin }) m ≡ None }
    ensures close { (queue : List Key) (key : Key) (begin : ℕ) (m : Memory)
        → waits_in_group queue (record { call = Call.CloseKey key; place = place.Unpin; «from» = begin }) m ≡ None }
    ensures sees { (key : Key) (a : ℕ) (doing : Doing) (t : Table) (m : Memory) → is_of_geometry t key.number ≡ true
        → sight_of key.generation (cached_word m key.number) ≡ Sight.Open
        → open_move key place.Load a doing t m
        ≡ Some (silent (moved_to a doing (place.Pin (cached_word m key.number)) m)) }
    ensures ends { (key : Key) (a : ℕ) (doing : Doing) (t : Table) (m : Memory)
        → open_move key (place.Pin (cached_word m key.number)) a doing t m
        ≡ Some (answers doing Reply.Done (ended a (pinned key m))) }
{}

/// A law: a world as a mount gives it meets the invariant.
pub fn mounted_worlds_are_right<D: Disk, T: Tells>()
    ensures { (start : Table) (w : World D) → IsMounted T.tells start w → Invariant T.tells start w }
{
    recovery_frees_once();
    changes_pass_over_holds();
}

/// A law: a call whose place lies in a lock takes none by its next step. So whoever holds a lock never waits, and nobody
/// holds two.
pub fn holders_never_wait()
    ensures group { (at : Place) → lies_in_group at ≡ true → (takes_group at ≡ false) × (takes_log at ≡ false) }
    ensures log { (at : Place) → lies_in_log at ≡ true → (takes_group at ≡ false) × (takes_log at ≡ false) }
{}

/// A law: a call that begins, by an actor without one, in a world that meets the invariant, leaves a world that meets it.
pub fn calls_begin_in_right_worlds<D: Disk, T: Tells>()
    ensures { (start : Table) (a : ℕ) (made : AnyCall) (old new : World D) → Invariant T.tells start old → IsBegun a made old new
        → Invariant T.tells start new }
{
    each_call_has_one_reply();
    tables_stay_well_formed();
    rows_are_within_limits();
    holders_have_rows();
}

/// A law: a call that a step ends has exactly one entry, and the reply of that is its reply.
pub fn ended_calls_have_one_entry<D: Disk, T: Tells>()
    ensures { (face : DiskFace D) (start : Table) (a : ℕ) (old new : World D) → Invariant T.tells start old
        → (step : Step face T.tells a old new) → (actor_at new.memory a).doing ≡ None
        → (answer : AnyReply) × HasEntry new.history.entries new.history.froms a step.doing.«from» step.doing.call (Some answer) }
{
    each_call_has_one_reply();
    tables_stay_well_formed();
    rows_are_within_limits();
    holders_have_rows();
}

/// A law: in a world that meets the invariant what happened is one legal history from the table at which the mount began,
/// each free has its call and its reason, and no entry stands before its call's begin.
pub fn right_worlds_have_one_history<D: Disk, T: Tells>()
    ensures legal { (start : Table) (w : World D) → Invariant T.tells start w → LegalHistory start w.history.entries w.history.table }
    ensures licensed { (start : Table) (w : World D) → Invariant T.tells start w
        → Licensed start w.history.entries w.history.froms (unfinished_from 0 w.memory.actors) }
    ensures intervals { (start : Table) (w : World D) → Invariant T.tells start w → Interval w.history.entries w.history.froms }
{}

/// A law: in a world that meets the invariant a call that the log does not answer has its next step, unless that takes a
/// lock that another actor holds. So a call waits exactly there, and whoever holds a lock of a group has a step.
pub fn calls_wait_for_locks_alone<D: Disk, T: Tells>()
    ensures steps { (start : Table) (w : World D) (a : ℕ) (d : Doing) → Invariant T.tells start w → (actor_at w.memory a).doing ≡ Some d
        → is_log_call d.call ≡ false → waits_in_group (actor_at w.memory a).queue d w.memory ≡ None → IsSome (move_of a w.history.table w.memory) }
    ensures waits { (t : Table) (m : Memory) (a b : ℕ) (d : Doing) → (actor_at m a).doing ≡ Some d
        → waits_in_group (actor_at m a).queue d m ≡ Some b → move_of a t m ≡ None }
    ensures holders { (queue : List Key) (d : Doing) (m : Memory) → lies_in_group d.place ≡ true → waits_in_group queue d m ≡ None }
{}

/// A law: each step leads from a world that meets the invariant to one that meets it, for every actor, call and place.
pub fn steps_keep_the_invariant<D: Disk, T: Tells>()
    ensures { (face : DiskFace D) (start : Table) (a : ℕ) (old new : World D) → Invariant T.tells start old → Step face T.tells a old new
        → Invariant T.tells start new }
{
    each_call_has_one_reply();
    tables_stay_well_formed();
    rows_are_within_limits();
    holders_have_rows();
    lowest_keys_are_least();
    changes_pass_over_holds();
}

/// A law: whoever holds the lock of a group gives it back after fewer of its own steps than the world bounds, where no
/// other actor steps between; and a holder of the log's lock ends, or its store has fewer steps left.
pub fn locks_are_given_back<D: Disk, T: Tells>()
    ensures alone { (face : DiskFace D) (start : Table) (a n : ℕ) (old new : World D) → Invariant T.tells start old
        → StepsInLock face T.tells a n old new → n < steps_in_lock old.memory a }
    ensures log { (start : Table) (a : ℕ) (old new : World D) → Invariant T.tells start old → IsStore D.known D.cells D.sector_count old.store
        → Step (record { known = D.known; cells = D.cells; sectors = D.sector_count; arming = D.arming; faults = D.fault_count }) T.tells a old new
        → old.holder ≡ Some a
        → (new.holder ≡ None) ⊎ (steps_left (state_of new.store) new.store.job < steps_left (state_of old.store) old.store.job) }
{
    each_call_has_one_reply();
    tables_stay_well_formed();
    rows_are_within_limits();
    holders_have_rows();
    lowest_keys_are_least();
    changes_pass_over_holds();
    jobs_end::<D>();
}

/// A law: a key is settled where its number is in a chunk and in a later life, or where its row awaits being freed. A
/// settled key stays so, and each later open of it is answered that it is stale; and a key that had a row in this mount is
/// settled where an open of it would be answered so. A key of a life to come may be stale now and made later.
pub fn settled_keys_stay_stale<D: Disk, T: Tells>()
    ensures stays { (start : Table) (w : World D) (n : ℕ) (key : Key) → Invariant T.tells start w
        → IsSettled (table_at start w.history.entries n) key → IsSettled w.history.table key }
    ensures steps { (face : DiskFace D) (start : Table) (a : ℕ) (old new : World D) (key : Key) → Invariant T.tells start old
        → Step face T.tells a old new → IsSettled old.history.table key → IsSettled new.history.table key }
    ensures stale { (t : Table) (key : Key) (answer : AnyReply) → IsSettled t key → Permits t (Call.OpenKey key) answer → answer ≡ Reply.Stale }
    ensures entries { (start : Table) (w : World D) (n i a : ℕ) (key : Key) (answer : AnyReply) → Invariant T.tells start w → n ≤ i
        → IsSettled (table_at start w.history.entries n) key
        → slice_get w.history.entries i ≡ Some (record { actor = a; event = Event.Called (Call.OpenKey key) answer }) → answer ≡ Reply.Stale }
    ensures answered { (start : Table) (w : World D) (n : ℕ) (key : Key) → Invariant T.tells start w
        → IsSome (row_of (table_at start w.history.entries n) key) → Permits w.history.table (Call.OpenKey key) Reply.Stale
        → IsSettled w.history.table key }
{
    each_call_has_one_reply();
    tables_stay_well_formed();
    rows_are_within_limits();
    holders_have_rows();
    lowest_keys_are_least();
}

/// A law: what a shortage frees are the rows of its group that await as the lock is taken, ascending; a key of an actor's
/// queue has no row or one that awaits, so a gc may free it; what an unmount frees can be freed in turn, and leaves all
/// rows but those that await; and no key is freed twice.
pub fn frees_are_exact<D: Disk, T: Tells>()
    ensures shortage { (t : Table) (g : ℕ) (key : Key) → IsTable t
        → Contains (awaiting_of t g) key ↔ (group_number key ≡ g) × IsSomeAnd (row_of t key) Awaits }
    ensures ascending { (t : Table) (g : ℕ) → IsTable t → KeysAscend (awaiting_of t g) }
    ensures gc { (start : Table) (w : World D) (a : ℕ) (key : Key) → Invariant T.tells start w → Contains (actor_at w.memory a).queue key
        → IsSome (row_of w.history.table key) → IsSomeAnd (row_of w.history.table key) Awaits }
    ensures unmount { (t : Table) (actor : ℕ) → IsTable t
        → Leads t (frees_of actor (awaiting_rows t)) (after_entries t (frees_of actor (awaiting_rows t))) }
    ensures left { (t : Table) (actor : ℕ) (key : Key) (row : Row) → IsTable t
        → row_of (after_entries t (frees_of actor (awaiting_rows t))) key ≡ Some row → (row_of t key ≡ Some row) × (Awaits row → ⊥) }
    ensures once { (start : Table) (w : World D) (i j a b : ℕ) (key : Key) → Invariant T.tells start w
        → slice_get w.history.entries i ≡ Some (record { actor = a; event = Event.Freed key })
        → slice_get w.history.entries j ≡ Some (record { actor = b; event = Event.Freed key }) → i ≡ j }
{
    each_call_has_one_reply();
    tables_stay_well_formed();
    rows_are_within_limits();
    holders_have_rows();
    lowest_keys_are_least();
}

/// A law: a whole call of the group, which one actor begins and steps through with no other actor's step between, is
/// answered as whole lines say, and leaves the table, the queues of gc and the number of changes that they say.
pub fn whole_calls_are_lines<D: Disk, T: Tells>()
    ensures { (face : DiskFace D) (start : Table) (a n : ℕ) (made : AnyCall) (old new : World D) → Invariant T.tells start old
        → is_log_call made ≡ false → IsWholeCall face T.tells a made n old new
        → HasEntry new.history.entries new.history.froms a (length old.history.entries) made (Some (line a made (lines_state old)).reply)
        × (lines_state new ≡ (line a made (lines_state old)).state) }
{
    each_call_has_one_reply();
    tables_stay_well_formed();
    rows_are_within_limits();
    holders_have_rows();
    lowest_keys_are_least();
    changes_pass_over_holds();
}

/// A law: a whole sync or home leaves the table, the queues of gc and the number of changes. Where the store was not down, no
/// call of the disk failed and positions are left, it is answered as whole lines say; else it may be answered a fault, each of
/// which has its cause.
pub fn whole_syncs_are_lines<D: Disk, T: Tells>()
    ensures lines { (face : DiskFace D) (start : Table) (a n : ℕ) (made : AnyCall) (old new : World D) → Invariant T.tells start old
        → is_log_call made ≡ true → IsWholeCall face T.tells a made n old new → GoesWell face old new
        → HasEntry new.history.entries new.history.froms a (length old.history.entries) made (Some (line a made (lines_state old)).reply)
        × (lines_state new ≡ (line a made (lines_state old)).state) }
    ensures answers { (face : DiskFace D) (start : Table) (a n : ℕ) (made : AnyCall) (old new : World D) → Invariant T.tells start old
        → is_log_call made ≡ true → IsWholeCall face T.tells a made n old new
        → (answer : AnyReply) × HasEntry new.history.entries new.history.froms a (length old.history.entries) made (Some answer)
        × LogAnswers face made old new answer × (lines_state new ≡ lines_state old) }
{
    each_call_has_one_reply();
    tables_stay_well_formed();
    rows_are_within_limits();
    holders_have_rows();
    lowest_keys_are_least();
    changes_pass_over_holds();
}

/// A law: such a call of the group has ended after at most so many steps as the world bounds.
pub fn whole_calls_end<D: Disk, T: Tells>()
    ensures { (face : DiskFace D) (start : Table) (a n : ℕ) (made : AnyCall) (old new : World D) → Invariant T.tells start old
        → is_log_call made ≡ false → IsWholeCall face T.tells a made n old new → n ≤ steps_in_call old a made }
{
    each_call_has_one_reply();
    tables_stay_well_formed();
    rows_are_within_limits();
    holders_have_rows();
    lowest_keys_are_least();
    changes_pass_over_holds();
}

/// A law: once a flush of a group has run whole, none of the group's inodes in core is dirty. Once a reclaim has, a live word
/// of the group is pinned or marked, or its inode in core is dirty.
pub fn flush_and_reclaim_clean<D: Disk, T: Tells>()
    ensures flush { (face : DiskFace D) (start : Table) (a n g : ℕ) (old new : World D) → Invariant T.tells start old
        → IsWholeCall face T.tells a (Call.FlushInodes g) n old new → HasNoDirty new.memory g }
    ensures reclaim { (face : DiskFace D) (start : Table) (a n g : ℕ) (old new : World D) → Invariant T.tells start old
        → IsWholeCall face T.tells a (Call.Reclaim g) n old new → IsReclaimed new.memory g }
{
    each_call_has_one_reply();
    tables_stay_well_formed();
    rows_are_within_limits();
    holders_have_rows();
    lowest_keys_are_least();
    changes_pass_over_holds();
}
