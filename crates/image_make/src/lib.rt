//! Making an image without a file: the headers, bitmaps and pages of its groups, the anchor, and last its superblock.
#![tactic(auto)]

mod empty;
mod fault;
mod filling;
mod laws;
mod making;

pub use fault::MakeFault;
pub use making::make;
