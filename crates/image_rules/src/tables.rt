//! How much the groups hold.

ghost use Rattle.std.specs.Prelude.{◌≡◌, ◌+◌, ◌-◌, IfSome, length};

use crate::links::Links;
use ag_header::Agi;
use inobt_leaf::Leaf;

/// How many there are.
#[derive(Clone, Copy, Debug, PartialEq, Eq)]
pub struct Tables {
    pub chunks: u64,
    /// Inodes in use.
    pub inodes: u64,
    /// Inodes in use without links.
    pub orphans: u64,
}

impl Tables {
    pub(crate) const NONE: Tables = Tables {
        chunks: 0,
        inodes: 0,
        orphans: 0,
    };

    /// Both together, where no number is too large.
    pub(crate) fn plus(&self, other: &Tables) -> Option<Tables>
        ensures chunks { IfSome result (λ t. t.chunks ≡ self.now.chunks + other.now.chunks) }
        ensures inodes { IfSome result (λ t. t.inodes ≡ self.now.inodes + other.now.inodes) }
        ensures orphans { IfSome result (λ t. t.orphans ≡ self.now.orphans + other.now.orphans) }
    {
        Some(Tables {
            chunks: self.chunks.checked_add(other.chunks)?,
            inodes: self.inodes.checked_add(other.inodes)?,
            orphans: self.orphans.checked_add(other.orphans)?,
        })
    }
}

/// How many a group has, by its header, its leaf and its next pointers.
pub(crate) fn count(agi: &Agi, leaf: &Leaf, links: &Links) -> Tables
    ensures chunks { result.chunks ≡ length leaf.now }
    ensures inodes { result.inodes ≡ agi.now.count - agi.now.free }
    ensures orphans { result.orphans ≡ length links.now.orphans.entries }
{
    Tables {
        chunks: leaf.chunks().len() as u64,
        inodes: u64::from(agi.count.saturating_sub(agi.free)),
        orphans: links.orphans.len() as u64,
    }
}
