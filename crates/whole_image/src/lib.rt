//! What a whole image represents, with its superblock, its anchor and its log: the rules of a sound image and the first
//! damage of another. There is no code: it is definitions (`specs/`) and laws.
#![tactic(auto)]

mod laws;

pub use laws::{
    blank_images_are_damaged, encoded_images_represent_their_table, images_represent_one_table,
    one_first_damage, sound_images_represent_a_table,
};
