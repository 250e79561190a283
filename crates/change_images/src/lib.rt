//! From the sectors that a change of a group may touch to its commit: which places are enough for each kind of change, and the images of those whose bytes change.
#![tactic(auto)]

mod laws;
mod staging;

pub use laws::{
    blocks_touch_their_bits, candidates_give_the_images, creates_touch_their_places,
    frees_touch_their_places, links_touch_two_places,
};
pub use staging::Staging;
