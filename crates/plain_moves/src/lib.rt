//! What the next step of an actor's call comes to, computed as the model of actors defines it, over the plain table. Nothing
//! here is fast: each step works on a copy of what is in memory.
#![tactic(auto)]

mod calls;
mod copies;
mod gc;
mod house;
mod marks;
mod memory;
mod moves;
mod open;
mod room;
mod rows;
mod words;

pub use copies::copy_memory;
pub use memory::with_doing;
pub use moves::{Moved, first_place, move_of, waits_in_group};
