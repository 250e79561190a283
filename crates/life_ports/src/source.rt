// Where bytes come from.
ghost use Rattle.std.specs.Prelude.{◌≡◌, ◌<◌, ◌≤◌, ℕ, List, Option, length, take, IfOk, OnErr};
ghost use Rattle.std.specs.Io.KnownBytes.{Consumes, IsAtEnd, Keeps};
ghost use Rattle.life_ports.specs.Faults.{HasCause};

use crate::Failed;

/// A source of bytes, which the caller lends.
pub trait Source {
    /// The bytes that reads are still to give, where the source tells them.
    ghost bytes_left: { Self → Option (List ℕ) };

    /// How many faults the source has had.
    ghost fault_count: { Self → ℕ };

    /// The count of faults. It stands still at `u64::MAX`.
    fn faults(&self) -> u64
        ensures { result ≡ fault_count self.now };

    /// Puts the next bytes at the front of a piece, and answers how many. With 0 for a piece that
    /// is not empty, the source is at its end. What stands in the piece behind them is not said.
    fn read(&mut self, into: &mut [u8]) -> Result<usize, Failed>
        ensures within { IfOk result (λ n. n ≤ length into.new) }
        ensures taken { IfOk result (λ n. Consumes (bytes_left self.old) (bytes_left self.new)
            (take n into.new)) }
        ensures end { IfOk result (λ n. n ≡ 0 → 0 < length into.new → IsAtEnd (bytes_left self.new)) }

        // A read that failed took nothing.
        ensures kept { OnErr result (Keeps (bytes_left self.old) (bytes_left self.new)) }
        ensures cause { HasCause result (fault_count self.old) (fault_count self.new) };
}
