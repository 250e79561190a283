//! The outside as the program sees it: where bytes come from, where bytes go, and how each may fail.
//!
//! An object of the outside tells a count of its faults, which never falls, and may tell its content.
//! A call answers `Failed` only where that count rose in the call, or stands at `u64::MAX`.
#![tactic(auto)]

mod adapters;
mod errors;
mod fault_plan;
mod memory_sink;
mod memory_source;
mod sink;
mod source;
#[cfg(test)]
mod tests;

pub use adapters::{ReaderSource, WriterSink};
pub use errors::{Failed, NoMemory, Refused};
pub use fault_plan::FaultPlan;
pub use memory_sink::MemorySink;
pub use memory_source::MemorySource;
pub use sink::Sink;
pub use source::Source;
