// An entry, with what the reader tells the keeper before it, and what the keeper tells the reader after it.
ghost use Rattle.std.specs.Prelude.{◌≡◌, ◌≤◌, ◌<◌, ◌^◌, [], length};
ghost use Rattle.version_table.specs.Ends.{IsEntered, IsNewest, IsToldOf};
ghost use Rattle.version_table.specs.Story.{Keeps, handed_over, known_of, seen_of, telling, warning, with_story};

use crate::rule::{TakeIn, Tell, VersionSeat, Warn, Words};
use crate::steps::{count_entry, load};
use life_table::Entry;

// The reader tells the keeper what it saw last.
fn warn(words: &Words, from: &mut VersionSeat, to: &mut VersionSeat)
    requires from { from.old.table_id ≡ words.now.table_id }
    requires to { to.old.table_id ≡ words.now.table_id }
    requires words { 0 < words.now.table_id.words }
    ensures seats { (from.new.table_id ≡ from.old.table_id) × (to.new.table_id ≡ to.old.table_id) }
    ensures from { from.new.me ≡ from.old.me }
    ensures to { to.new.me ≡ (with_story to.old.me.0 (warning from.old.me.0), to.old.me.1) }
{
    let note = words.split_seat::<Warn>(from);
    words.join_seat::<TakeIn>(to, note);
}

// The keeper tells the reader of the entry that it made last.
fn tell(words: &Words, from: &mut VersionSeat, to: &mut VersionSeat, _entry: &Entry)
    requires from { from.old.table_id ≡ words.now.table_id }
    requires to { to.old.table_id ≡ words.now.table_id }
    requires words { 0 < words.now.table_id.words }
    requires made { IsNewest _entry.now from.old.me.0 }
    ensures seats { (from.new.table_id ≡ from.old.table_id) × (to.new.table_id ≡ to.old.table_id) }
    ensures from { from.new.me ≡ (handed_over from.old.me.0, from.old.me.1) }
    ensures to { to.new.me ≡ (with_story to.old.me.0 (telling from.old.me.0), to.old.me.1) }
{
    let note = words.split_seat::<Tell>(from);
    words.join_seat::<TakeIn>(to, note);
}

// Makes an entry for a reader.
pub fn make_entry(
    words: &Words,
    keeper: &mut VersionSeat,
    reader: &mut VersionSeat,
    group: u32,
    old: u64,
    entry: &Entry,
)
    requires keeper { keeper.old.table_id ≡ words.now.table_id }
    requires reader { reader.old.table_id ≡ words.now.table_id }
    requires words { words.now.table_id.words ≡ words.now.key }
    requires inside { group < words.now.key }
    requires keeps { Keeps keeper.old.me.0 group }
    requires length { old ≡ length (known_of group keeper.old.me.0.lines) }
    requires short { old < 2 ^ 63 }
    requires handed { keeper.old.me.0.places ≡ [] }
    ensures seats { (keeper.new.table_id ≡ keeper.old.table_id) × (reader.new.table_id ≡ reader.old.table_id) }
    ensures slots { (keeper.new.me.1 ≡ keeper.old.me.1) × (reader.new.me.1 ≡ reader.old.me.1) }
    ensures entered { IsEntered group entry.now keeper.old.me.0 keeper.new.me.0 }
    ensures fresh { seen_of group reader.old.me.0.sights ≤ old }
    ensures told { IsToldOf group entry.now keeper.old.me.0 reader.old.me.0 reader.new.me.0 }
{
    load(words, reader, group as usize);
    warn(words, reader, keeper);
    count_entry(words, keeper, group as usize, old, entry);
    tell(words, keeper, reader, entry);
}
