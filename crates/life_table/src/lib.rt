//! The model of an image: its inodes by number and generation, the calls on them with their replies, and which
//! histories of calls are legal. Everything above is proved against these definitions; nothing here runs an image.
#![tactic(auto)]

mod handle;
mod key;
mod laws;
mod list;
mod table;
mod types;

pub use handle::{print_handle, read_handle, read_number};
pub use key::{Handle, Key};
pub use laws::{
    blocks_come_back_once, changes_pass_over_holds, changes_tell_the_table,
    chunks_have_the_lowest_place, each_call_has_one_reply, holders_have_rows,
    lowest_keys_are_least, no_key_comes_back, other_calls_change_nothing, recovery_frees_once,
    rows_are_within_limits, tables_stay_well_formed,
};
pub use list::Listed;
pub use table::{Chunk, Group, Inode, Table};
pub use types::{Blocks, Call, Entries, Entry, Event, Froms, MountRecord, Reply, Row, Runs};
