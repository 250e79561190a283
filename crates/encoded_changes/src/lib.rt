//! What changes of an image that encodes a table, when the table and its layouts change. There is no code: it is definitions (`specs/`) and laws.
#![tactic(auto)]

mod laws;

pub use laws::{
    bitmaps_touch_their_part, buckets_touch_pointers, chunks_touch_themselves,
    created_keys_are_free, creates_touch_their_inode, encodings_follow_the_table,
    groups_change_alone, images_carry_changes, inodes_touch_themselves, layouts_follow_the_table,
    links_are_carried, places_have_their_metadata, rows_touch_their_bucket,
};
