//! What superblocks and geometries are to each other.

ghost use Rattle.geometry.specs.Superblock.{SuperblocksTell};

/// A law: no sector is the superblock of two geometries.
pub fn superblocks_tell_geometries()
    ensures { SuperblocksTell }
{}
