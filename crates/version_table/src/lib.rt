//! How long the history of each group is, as threads see it without the group's lock.
//!
//! Each group has one version, a word that counts the entries of its history. The keeper of the group lies behind the group's
//! lock, knows the history whole, and counts each entry. A reader belongs to one thread. It knows how many entries it has
//! seen of each group, and the histories that it was told of.
//!
//! An entry is made for a reader: it stands behind all that the reader saw of the group before, and afterwards the reader
//! knows the history with the entry in it, and has seen as many entries. So a thread never makes an entry that is older than
//! what it saw. Which entries are a reader's own is known to that reader alone, each once.
//!
//! The histories are not in memory. Contracts see them in what readers and keepers know (`Story`), and the rule of the table
//! (`specs/Rule.antt`) ties these to one history for each group, whatever the threads do.
#![tactic(auto)]

mod keeper;
mod laws;
mod make;
mod reader;
mod rule;
mod steps;
mod story;
mod telling;
mod versions;

pub use keeper::VersionKeeper;
pub use laws::{each_entry_has_one_owner, no_sight_is_ahead};
pub use make::{VersionParts, make_versions};
pub use reader::Reader;
pub use versions::Versions;
