// Where bytes go.
ghost use Rattle.std.specs.Prelude.{◌≡◌, ◌<◌, ◌≤◌, ℕ, List, Option, length, take, IfOk, OnErr};
ghost use Rattle.std.specs.Io.KnownBytes.{Appends, Keeps};
ghost use Rattle.life_ports.specs.Faults.{HasCause};

use crate::Failed;

/// A sink of bytes, which the caller lends.
pub trait Sink {
    /// The bytes that the sink holds, where it tells them.
    ghost bytes_held: { Self → Option (List ℕ) };

    /// How many faults the sink has had.
    ghost fault_count: { Self → ℕ };

    /// The count of faults. It stands still at `u64::MAX`.
    fn faults(&self) -> u64
        ensures { result ≡ fault_count self.now };

    /// Takes the first bytes of a piece, and answers how many: at least one of a piece that is not
    /// empty.
    fn write(&mut self, piece: &[u8]) -> Result<usize, Failed>
        ensures within { IfOk result (λ n. n ≤ length piece.now) }
        ensures progress { IfOk result (λ n. 0 < length piece.now → 0 < n) }
        ensures written { IfOk result (λ n. Appends (bytes_held self.old) (bytes_held self.new)
            (take n piece.now)) }

        // A write that failed left what the sink holds.
        ensures kept { OnErr result (Keeps (bytes_held self.old) (bytes_held self.new)) }
        ensures cause { HasCause result (fault_count self.old) (fault_count self.new) };
}
