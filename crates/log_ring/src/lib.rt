//! The positions of the log: where in its ring the next record goes, and how much room there is before its tail.
//!
//! A position counts ring sectors from the making of the image. The sector of a position is the one at its place in
//! the ring, which the position shares with those that lie whole turns of the ring away.
#![tactic(auto)]

mod positions;

pub use positions::Positions;
