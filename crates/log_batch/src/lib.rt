//! What the log's store keeps between its device calls: the commits that one record takes, with the newest image of each sector, and the logged sectors that are not home yet.
#![tactic(auto)]

mod batch;
mod dirty;
mod find;

pub use batch::Batch;
pub use dirty::DirtySectors;
