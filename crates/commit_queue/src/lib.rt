//! The commit queue: the commits of all groups on their way to the log, in the order of their pushes.
//!
//! Each group has one committer, which pushes the commits of that group alone. One taker pops them. Threads share the
//! queue without a lock. Under any schedule, the commits of a group that were popped, and then those that wait, are the
//! ones that its committer pushed, in that order and each once.
//!
//! What an end of the queue knows has no bytes. When the committers are done, the taker takes them in, and pops until
//! there is nothing: then it has popped all that they pushed.
#![tactic(auto)]

mod committer;
mod known;
mod make;
mod rule;
mod shared;
mod taker;

pub use committer::Committer;
pub use known::Stream;
pub use make::{QueueParts, make_queue};
pub use taker::Taker;

#[cfg(test)]
mod tests;
