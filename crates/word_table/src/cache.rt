// The cache, and what is had of it.
ghost use Rattle.std.specs.Prelude.{◌≡◌, ◌<◌};
ghost use Rattle.geometry.specs.Places.{IsInodeNumber, anchor_of, place_of};

use crate::rule::WordTable;
use geometry::{Geometry, word_at};
use life_table::Key;
use std::marker::Model;

/// The words of all inodes of an image, one for each number. Threads share it by `&`.
///
/// Contracts see its name, which no other cache has, and the geometry of the image.
#[derive(Drop)]
pub struct Cache {
    pub(crate) table: WordTable,
    pub(crate) geometry: Geometry,
}

impl Model for Cache {
    ghost use Rattle.word_table.specs.Ends.{CacheState, IsCache};

    ghost Value = { CacheState };

    ghost view = { λ c. record { name = c.table.shared.table_id; geometry = c.geometry } };

    ghost invariant = { λ c. IsCache c.geometry c.table.shared.key c.table.shared.table_id.words };
}

impl Cache {
    /// The place of an inode's word: the sector in which the inode stands.
    pub(crate) fn place(&self, number: u64) -> usize
        requires { IsInodeNumber self.now.geometry number }
        ensures place { result ≡ place_of self.now.geometry number }
        ensures inside { result < anchor_of self.now.geometry }
    {
        word_at(&self.geometry, number)
    }
}

/// A hold on an inode in the cache: while it is out, the inode stays there, in this life of it.
///
/// Contracts see its key. It ends by `release` alone. One that is dropped leaves its inode held for good.
#[derive(Drop)]
pub struct Pin {
    pub(crate) key: Key,
}

impl Model for Pin {
    ghost use Rattle.life_table.specs.declared.key.Key.{Key};

    ghost Value = { Key };

    ghost view = { λ p. p.key };
}

impl Pin {
    pub fn key(&self) -> Key
        ensures { result ≡ self.now }
    {
        self.key
    }
}

/// What is owed by who gives up the last hold on an inode without links: to have it freed.
#[derive(Clone, Copy, Debug, PartialEq, Eq)]
pub struct Duty {
    pub key: Key,
}
