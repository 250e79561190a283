// What keeps the table of a group, and the changes of it.

ghost use Rattle.std.specs.Prelude.{◌≡◌, ◌≤◌, ◌<◌, ◌+◌, ℕ, Bool, true, false, IfNone, IfSome, OnErr, OnOk};
ghost use Rattle.life_table.specs.declared.table.Table.{Table};
ghost use Rattle.log_record.specs.declared.image.Commit.{Commit};
ghost use Rattle.group_core.specs.InCore.{Cached, HasNumber, StaysInCore, but_at, is_in_core, is_unchanged, once_brought, once_flushed, uncached, unchanged};

use life_ports::NoMemory;
use log_record::Commit;

/// A change that was computed and is not made yet, with the commit that tells the log of it.
pub trait Staged {
    /// What the log is given.
    ghost commit: { Self → Commit };

    /// Whether the commit was handed out.
    ghost handed_out: { Self → Bool };

    /// The one change before and after its commit was handed out.
    ghost hands_out: { Self → Self → Type 0 };

    /// Hands out the commit, which can be done once. It takes no memory.
    fn take_commit(&mut self) -> Commit
        requires { handed_out self.old ≡ false }
        ensures commit { result ≡ commit self.old }
        ensures handed_out { handed_out self.new ≡ true }
        ensures same { hands_out self.old self.new };
}

/// A value that represents the rows, the chunks and the generations of one group.
pub trait GroupTable {
    type Change: Staged;

    /// The number of the group.
    ghost group: { Self → ℕ };

    /// The table that it represents: the chunks of its group, whose rows nobody holds.
    ghost table: { Self → Table };

    /// For how many changes there is room.
    ghost room: { Self → ℕ };

    /// The change was made on this value as it stands, and takes its table to that one.
    ghost takes: { Self → Self.Change → Table → Type 0 };

    /// What it keeps in core of the inode of each number of its group.
    ghost cached: { Self → ℕ → Cached };

    /// The same value, with room for so many changes.
    ghost with_room: { Self → ℕ → Self };

    /// What else it says of itself, before and after a change.
    ghost applied: { Self → Self.Change → Self → Type 0 };

    /// It represents a group's table, as each value does on which calls are made.
    ghost represents: { Self → Type 0 };

    /// What else it says of itself, before and after the inode of a number was brought into core.
    ghost brought: { Self → ℕ → Self → Type 0 };

    /// The same where all changed inodes were copied into their buffers.
    ghost flushed: { Self → Self → Type 0 };

    /// The same where the inode of a number was let go.
    ghost gone: { Self → ℕ → Self → Type 0 };

    /// Makes room for one change. Where there is no memory, nothing but the room may have changed either.
    fn reserve(&mut self) -> Result<(), NoMemory>
        ensures group { group self.new ≡ group self.old }
        ensures table { table self.new ≡ table self.old }
        ensures changes { (next : Self.Change) (u : Table) → takes self.old next u → takes self.new next u }
        ensures represents { represents self.old → represents self.new }
        ensures cached { (agino : ℕ) → cached self.new agino ≡ cached self.old agino }
        ensures same { self.new ≡ with_room self.old (room self.new) }
        ensures kept { room self.old ≤ room self.new }
        ensures room { OnOk result (1 ≤ room self.new) };

    /// Makes a change, for which there has to be room. It takes no memory.
    fn apply(&mut self, next: Self::Change)
        requires made { (u : Table) × takes self.old next u }
        requires handed_out { Self.Change.handed_out next ≡ true }
        requires room { 1 ≤ room self.old }
        ensures group { group self.new ≡ group self.old }
        ensures table { (u : Table) → takes self.old next u → table self.new ≡ u }
        ensures represents { represents self.new }
        ensures cached { (agino : ℕ) → StaysInCore (cached self.old agino) (cached self.new agino) }
        ensures applied { applied self.old next self.new }
        ensures room { room self.old ≤ room self.new + 1 };

    /// Brings the inode of a number into core, where it is not there yet. A chunk of the group has to have the number. Where there is no memory, nothing but the
    /// room may have changed.
    fn bring_in(&mut self, agino: u32) -> Result<(), NoMemory>
        requires represents { represents self.old }
        requires inside { HasNumber (table self.old) (group self.old) agino }
        ensures group { group self.new ≡ group self.old }
        ensures table { table self.new ≡ table self.old }
        ensures represents { represents self.new }
        ensures cached { OnOk result ((number : ℕ) → cached self.new number ≡ but_at (cached self.old) agino (once_brought (cached self.old agino)) number) }
        ensures brought { OnOk result (brought self.old agino self.new) }
        ensures same { OnErr result (self.new ≡ with_room self.old (room self.new)) }
        ensures unmoved { OnErr result ((number : ℕ) → cached self.new number ≡ cached self.old number) }
        ensures room { room self.old ≤ room self.new + 1 };

    /// The least number from one on whose inode is in core.
    fn in_core(&self, from: u32) -> Option<u32>
        ensures found { IfSome result (λ n. (from ≤ n) × (is_in_core (cached self.now n) ≡ true)) }
        ensures least { IfSome result (λ n. (k : ℕ) → from ≤ k → k < n → is_in_core (cached self.now k) ≡ false) }
        ensures none { IfNone result ((k : ℕ) → from ≤ k → is_in_core (cached self.now k) ≡ false) };

    /// Whether the inode of a number, which has to be in core, is as its buffer encodes it.
    fn clean(&self, agino: u32) -> bool
        requires { is_in_core (cached self.now agino) ≡ true }
        ensures { result ≡ is_unchanged (cached self.now agino) };

    /// Copies all changed inodes into their buffers. It takes no memory.
    fn flush(&mut self)
        requires { represents self.old }
        ensures group { group self.new ≡ group self.old }
        ensures table { table self.new ≡ table self.old }
        ensures represents { represents self.new }
        ensures cached { (number : ℕ) → cached self.new number ≡ once_flushed (cached self.old number) }
        ensures flushed { flushed self.old self.new }
        ensures room { room self.new ≡ room self.old };

    /// Takes the inode of a number out of core. It has to be as its buffer encodes it: what was changed would be lost. It takes no memory.
    fn let_go(&mut self, agino: u32)
        requires represents { represents self.old }
        requires clean { cached self.old agino ≡ unchanged }
        ensures group { group self.new ≡ group self.old }
        ensures table { table self.new ≡ table self.old }
        ensures represents { represents self.new }
        ensures cached { (number : ℕ) → cached self.new number ≡ but_at (cached self.old) agino uncached number }
        ensures gone { gone self.old agino self.new }
        ensures room { room self.old ≤ room self.new };

    /// The room is all that the number says: with its own room a value is itself, and the last number is the one that counts.
    ghost has_room: { (value : Self) (n : ℕ) → room (with_room value n) ≡ n };

    ghost own_room: { (value : Self) → with_room value (room value) ≡ value };

    ghost last_room: { (value : Self) (m n : ℕ) → with_room (with_room value m) n ≡ with_room value n };

    /// A change whose commit was handed out is still the change that was made on the value.
    ghost outlives: { (value : Self) (before after : Self.Change) (u : Table) → Self.Change.hands_out before after
        → takes value before u → takes value after u };
}
