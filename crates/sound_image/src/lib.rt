//! What an image represents: the rules of a sound image, the table that its sectors have, and the sectors that encode a table.
#![tactic(auto)]

mod laws;
mod parts;

pub use laws::{
    chunks_are_read, encoded_images_are_sound, encoded_places, encoding_leaves_the_rest,
    groups_are_counted, groups_stand_alone, one_first_damage, rules_hold_or_break,
    sound_images_are_encoded, sound_tables_are_well_formed,
};
pub use parts::sectors_hold_parts;
