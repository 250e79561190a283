//! A group behind its lock: its state, and the history that led to it.
#![tactic(auto)]

mod group;
mod group_table;
mod laws;

pub use group::{Group, begin_group};
pub use group_table::{GroupTable, Staged};
pub use laws::{histories_lead_to_one_table, legal_events_happen_unheld};
