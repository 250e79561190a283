//! What cores and sectors are to each other.

ghost use Rattle.inode_core.specs.Reading.{CoresAreRead};

/// A law: the fields of a sector that encodes a core give that core, so no sector encodes two; and each core that is allowed before a fork has a
/// sector that encodes it and has that fork.
pub fn encoded_cores_are_read()
    ensures { CoresAreRead }
{}
