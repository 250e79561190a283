// A script as it was read.

ghost use Rattle.std.specs.Prelude.{◌≡◌};

use crate::name::Name;
use life_table::Handle;
use std::marker::Model;

/// A line that was read.
#[derive(Debug, Drop)]
pub struct Line {
    /// Its number in the script, from 1 on. Lines that are skipped count.
    pub number: u64,
    pub command: Command,
}

/// What a line asks for. Actors are numbered from 0, as the letters from A on.
#[derive(Debug, Drop)]
pub enum Command {
    /// Mounts the image.
    Mount,
    /// Ends the mount.
    Unmount,
    /// Stops the device now.
    Stop,
    /// Stops the device at a write: `count` is which write from now on, from 1, and `first` how many of its sectors pass.
    Arm { count: u32, first: u32 },
    /// Binds a name to a handle.
    Bind { name: Name, handle: Handle },
    /// Begins a call, and makes no step of it.
    Begin { actor: u32, spoken: Spoken },
    /// Makes one step of the actor's call.
    Step { actor: u32 },
    /// Makes all steps that are left of the actor's call.
    Finish { actor: u32 },
    /// Makes a whole call.
    Whole { actor: u32, spoken: Spoken },
}

/// A call as a script writes it, with names in place of keys.
#[derive(Debug, Drop)]
pub enum Spoken {
    /// Makes an inode with one link in the group, and binds the name.
    Create { group: u32, name: Name },
    /// The same without links.
    Tmpfile { group: u32, name: Name },
    Open { name: Name },
    Close { name: Name },
    Link { name: Name },
    Unlink { name: Name },
    /// Appends so many blocks, 1 to 16,384.
    Grow { name: Name, count: u32 },
    /// Takes so many blocks away from the end, 1 to 16,384.
    Cut { name: Name, count: u32 },
    Stat { name: Name },
    Sync,
    Home,
    Gc,
    /// Copies the changed inodes of the group into their buffers.
    Flush { group: u32 },
    /// Takes inodes of the group out of the cache.
    Reclaim { group: u32 },
}

/// A script, seen as the list of its lines that are not skipped.
#[derive(Debug, Drop)]
pub struct Script {
    lines: Vec<Line>,
}

impl Model for Script {
    ghost use Rattle.std.specs.Prelude.{List};
    ghost use Rattle.script.specs.declared.types.Line.{Line};

    ghost Value = { List Line };

    ghost view = { λ s. s.lines.items };
}

impl Script {
    /// The script of these lines, which are not copied.
    pub fn from_vec(lines: Vec<Line>) -> Script
        ensures { result ≡ lines.items }
    {
        Script { lines }
    }

    /// Its lines, in order.
    pub fn lines(&self) -> &[Line]
        ensures { result.now ≡ self.now }
    {
        self.lines.as_slice()
    }
}
