//! The log's store: commits that become durable in order, by records in a ring on a disk, and go home later.
#![tactic(auto)]

mod begin;
mod fault;
mod force;
mod home;
mod job;
mod laws;
mod record;
mod stops;
mod store;
mod take;

pub use begin::begin_store;
pub use fault::{Progress, StoreFault};
pub use laws::{home_ends_in_a_cover, jobs_end, steps_go_on};
pub use store::Store;
