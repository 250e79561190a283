//! What the names of a script are bound to, as a map from names to keys.
#![tactic(auto)]

mod names;

pub use names::Names;
