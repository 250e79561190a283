//! What forks, runs and blocks are to each other.

ghost use Rattle.extent_fork.specs.Reading.{ForksAreRead};
ghost use Rattle.extent_fork.specs.Runs.{LongestRunsAreOne};

/// A law: the records of a fork that encodes runs give those runs, so no fork encodes two lists; and each list of data blocks has runs that a fork
/// may have, whose blocks are the list.
pub fn encoded_forks_are_read()
    ensures { ForksAreRead }
{}

/// A law: each list of blocks has one list of longest runs, and no list of fewer runs has its blocks.
pub fn longest_runs_are_one()
    ensures { LongestRunsAreOne }
{}
