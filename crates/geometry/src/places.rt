//! Inode numbers, and where inodes stand in an image.

ghost use Rattle.std.specs.Prelude.{◌≡◌, ◌+◌, ◌*◌, ◌<◌, ℕ};
ghost use Rattle.geometry.specs.Shape.{IsGeometry};
ghost use Rattle.geometry.specs.Places.{group_of, agino_of, number_in, group_sectors, IsInodeNumber, place_of};

use crate::shape::Geometry;
use life_limits::{BLOCK_SECTORS, GROUP_NUMBERS, MAX_GROUPS, MAX_NUMBERS};

/// The inode number of a place in a group. `agino` counts the group's sectors.
pub fn number(group: u32, agino: u32) -> u64
    requires group_small { group < MAX_GROUPS }
    requires agino_small { agino < GROUP_NUMBERS }
    ensures { result ≡ number_in group agino }
{
    u64::from(group * GROUP_NUMBERS + agino)
}

/// The group of an inode number, and its place in the group.
pub fn split(number: u64) -> (u32, u32)
    requires { number < MAX_NUMBERS }
    ensures group { result.0 ≡ group_of number }
    ensures agino { result.1 ≡ agino_of number }
{
    let number = number as u32;
    (number / GROUP_NUMBERS, number % GROUP_NUMBERS)
}

/// How many sectors an image has: the groups, the anchor, and the ring.
pub fn image_sectors(g: &Geometry) -> u64
    requires { IsGeometry g.now }
    ensures { result ≡ g.now.groups * group_sectors g.now + 1 + g.now.ring }
{
    u64::from(g.groups * (g.blocks * BLOCK_SECTORS) + 1 + g.ring)
}

/// The sector in which an inode stands.
pub fn sector_of(g: &Geometry, number: u64) -> u64
    requires shape { IsGeometry g.now }
    requires inside { IsInodeNumber g.now number }
    ensures place { result ≡ place_of g.now number }
    ensures in_groups { result < g.now.groups * group_sectors g.now }
    ensures alone { (other : ℕ) → IsInodeNumber g.now other → place_of g.now other ≡ result → other ≡ number }
{
    let (group, agino) = split(number);
    u64::from(group * (g.blocks * BLOCK_SECTORS) + agino)
}

/// The index of an inode's word, where each number of the image has one: the words of a group follow those of the group before it.
pub fn word_at(g: &Geometry, number: u64) -> usize
    requires shape { IsGeometry g.now }
    requires inside { IsInodeNumber g.now number }
    ensures place { result ≡ place_of g.now number }
    ensures in_words { result < g.now.groups * group_sectors g.now }
    ensures alone { (other : ℕ) → IsInodeNumber g.now other → place_of g.now other ≡ result → other ≡ number }
{
    sector_of(g, number) as usize
}
