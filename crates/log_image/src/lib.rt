//! What the log of an image says: its anchor, the chain of its whole records, and the sectors that they leave. But for the anchor it is definitions (`specs/`) and laws.
#![tactic(auto)]

mod anchor;
mod cover;
mod damage;
mod disk;
mod home;
mod log;
mod overlay;
mod torn;

pub use anchor::{Anchor, read_anchor, write_anchor};
pub use cover::covers;
pub use damage::log_damages;
pub use disk::disk_writes;
pub use home::home_writes;
pub use log::logs;
pub use overlay::overlays;
pub use torn::torn_records;
