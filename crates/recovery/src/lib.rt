//! Recovery: what the log of an image says, and the log brought home.
#![tactic(auto)]

mod chain;
mod fault;
mod found;
mod high;
mod homes;
mod last;
mod overlay;
mod replaying;
mod ring;
mod scanning;
mod start;

pub use fault::ScanFault;
pub use found::Found;
pub use homes::HomeImages;
pub use overlay::Overlay;
pub use replaying::replay;
pub use scanning::scan;
pub use start::{ReplayFault, Start};
