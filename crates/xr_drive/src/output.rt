// Writing all of a report.
ghost use Rattle.std.specs.Prelude.{◌≡◌, ℕ, take, OnOk, OnErr};
ghost use Rattle.std.specs.Io.KnownBytes.{Appends};
ghost use Rattle.xr_io.specs.Outside.{HasCause};

use xr_io::Sink;
use xr_types::Failed;

/// Writes all of the bytes, piece by piece. After a fault a first part of them is written.
pub fn write_all<K: Sink>(sink: &mut K, bytes: &[u8]) -> Result<(), Failed>
    ensures written { OnOk result (Appends (K.output sink.old).bytes (K.output sink.new).bytes bytes.now) }
    ensures part { OnErr result ((n : ℕ) × Appends (K.output sink.old).bytes (K.output sink.new).bytes (take n bytes.now)) }
    ensures cause { HasCause (K.output sink.old).faults (K.output sink.new).faults result }
    ensures counts { OnOk result ((K.output sink.new).faults ≡ (K.output sink.old).faults) }
{
    let mut done = 0;
    while done < bytes.len() {
        let count = sink.write(&bytes[done..])?;
        if count == 0 {
            return Err(Failed);
        }
        done += count;
    }
    Ok(())
}
