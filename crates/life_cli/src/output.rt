// Writing to a sink.

ghost use Rattle.std.specs.Prelude.{◌≡◌, [], IsOk, OnOk, OnErr};
ghost use Rattle.std.specs.Io.KnownBytes.{Appends};
ghost use Rattle.life_ports.specs.Faults.{HasCause};
ghost use Rattle.life_cli.specs.Output.{AppendsPrefix};

use life_ports::{Failed, Sink};

/// Writes all of these bytes, piece by piece. The first write that fails ends it.
pub fn write_whole<K: Sink>(out: &mut K, bytes: &[u8]) -> Result<(), Failed>
    ensures whole { OnOk result (Appends (K.bytes_held out.old) (K.bytes_held out.new) bytes.now) }
    ensures prefix { OnErr result (AppendsPrefix (K.bytes_held out.old) (K.bytes_held out.new) bytes.now) }
    ensures nothing { bytes.now ≡ [] → IsOk result }
    ensures untouched { bytes.now ≡ [] → out.new ≡ out.old }
    ensures cause { HasCause result (K.fault_count out.old) (K.fault_count out.new) }
{
    let mut written = 0;
    while written < bytes.len() {
        written += out.write(&bytes[written..])?;
    }
    Ok(())
}
