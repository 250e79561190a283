// What somebody who steps on the words knows. No value of these types is made.
use std::collections::LinkedList;

/// A pin: the place of the word, and the generation of the inode.
pub struct Hold {
    pub place: u64,
    pub generation: u32,
}

/// A word as it was found or left at a place.
pub struct Look {
    pub place: u64,
    pub word: u64,
}

/// What one session or keeper knows.
pub struct Known {
    /// Its pins.
    pub pins: LinkedList<Hold>,
    /// The words that it loaded, found or left, the newest first.
    pub looks: LinkedList<Look>,
    /// The place of the first word that it keeps, and how many it keeps.
    pub first: u64,
    pub count: u64,
    /// How many words a keeper gets that is made from it.
    pub per: u64,
}
