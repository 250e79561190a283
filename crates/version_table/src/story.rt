// What one who steps on the versions knows. No value of these types is made.
use life_table::Entry;
use std::collections::LinkedList;

/// The history of a group was seen to have so many entries.
pub struct Sight {
    pub group: u32,
    pub count: u64,
}

/// The first entries of a group's history.
pub struct Line {
    pub group: u32,
    pub entries: LinkedList<Entry>,
}

/// The place of an entry in a group's history.
pub struct Place {
    pub group: u32,
    pub place: u64,
}

/// What one reader or keeper knows.
pub struct Story {
    pub sights: LinkedList<Sight>,
    pub lines: LinkedList<Line>,
    /// The places of its own entries; of a keeper those that were not handed over yet.
    pub places: LinkedList<Place>,
    /// The first group whose history it keeps, and of how many.
    pub first: u64,
    pub count: u64,
}
