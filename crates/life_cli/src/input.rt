// Taking in a script.

ghost use Rattle.std.specs.Prelude.{◌≡◌, ◌≤◌, ◌<◌, ◌+◌, length, IfOk, OnOk, IsErrOf};
ghost use Rattle.std.specs.Io.KnownBytes.{Consumes, IsAtEnd};
ghost use Rattle.life_limits.specs.declared.TheConstants.{MAX_SCRIPT_BYTES};
ghost use Rattle.life_ports.specs.Faults.{NeverFalls, Rose};
ghost use Rattle.life_cli.specs.Input.{Takes, TakesAtMost, HasAtMost, HasMoreThan};
ghost use Rattle.life_cli.specs.declared.input.ReadFault.TheVariants.{SourceFault, ScriptTooLong};

use life_limits::MAX_SCRIPT_BYTES;
use life_ports::{Failed, Source};
use std::alloc::{AllocError, Global};

// The most bytes that one read asks for.
const PIECE_BYTES: usize = 4096;

/// Why a script was not taken in.
#[derive(Clone, Copy, Debug, PartialEq, Eq)]
pub(crate) enum ReadFault {
    SourceFault,
    ScriptTooLong,
    NoMemory,
}

impl From<Failed> for ReadFault {
    ghost use Rattle.std.specs.Prelude.{◌≡◌};
    ghost use Rattle.life_cli.specs.declared.input.ReadFault.TheVariants.{SourceFault};

    ghost from_gives = { λ _ e. e ≡ SourceFault };

    fn from(_: Failed) -> Self {
        ReadFault::SourceFault
    }
}

impl From<AllocError> for ReadFault {
    ghost use Rattle.std.specs.Prelude.{◌≡◌};
    ghost use Rattle.life_cli.specs.declared.input.ReadFault.TheVariants.{NoMemory};

    ghost from_gives = { λ _ e. e ≡ NoMemory };

    fn from(_: AllocError) -> Self {
        ReadFault::NoMemory
    }
}

// How many bytes to ask for with so many taken: only with the most that a script may have, one more.
fn bytes_to_ask(taken: usize) -> usize
    requires { taken ≤ MAX_SCRIPT_BYTES }
    ensures some { 0 < result }
    ensures piece { result ≤ PIECE_BYTES }
    ensures within { taken < MAX_SCRIPT_BYTES → taken + result ≤ MAX_SCRIPT_BYTES }
    ensures one_more { taken + result ≤ MAX_SCRIPT_BYTES + 1 }
{
    if taken < MAX_SCRIPT_BYTES {
        PIECE_BYTES.min(MAX_SCRIPT_BYTES - taken)
    } else {
        1
    }
}

/// Takes the bytes of a source to its end. One byte past the most that a script may have is taken
/// to see that the script is too long, and none behind it.
pub(crate) fn read_script<S: Source>(alloc: Global, source: &mut S) -> Result<Vec<u8>, ReadFault>
    ensures bytes { IfOk result (λ script. Consumes (S.bytes_left source.old) (S.bytes_left source.new) script.items) }
    ensures end { OnOk result (IsAtEnd (S.bytes_left source.new)) }
    ensures within { IfOk result (λ script. length script.items ≤ MAX_SCRIPT_BYTES) }
    ensures fits { OnOk result (HasAtMost MAX_SCRIPT_BYTES (S.bytes_left source.old)) }

    ensures source_fault { IsErrOf result SourceFault → Rose (S.fault_count source.old) (S.fault_count source.new) }
    ensures too_long { IsErrOf result ScriptTooLong → Takes (MAX_SCRIPT_BYTES + 1) (S.bytes_left source.old) (S.bytes_left source.new) }
    ensures exceeds { IsErrOf result ScriptTooLong → HasMoreThan MAX_SCRIPT_BYTES (S.bytes_left source.old) }

    ensures taken { TakesAtMost (MAX_SCRIPT_BYTES + 1) (S.bytes_left source.old) (S.bytes_left source.new) }
    ensures never_falls { NeverFalls (S.fault_count source.old) (S.fault_count source.new) }
{
    let mut script = Vec::new(alloc);
    let mut piece = [0; PIECE_BYTES];
    while script.len() <= MAX_SCRIPT_BYTES {
        let ask = bytes_to_ask(script.len());
        let count = source.read(&mut piece[..ask])?;
        if count == 0 {
            return Ok(script);
        }
        script.extend_from_slice(&piece[..count])?;
    }
    Err(ReadFault::ScriptTooLong)
}
