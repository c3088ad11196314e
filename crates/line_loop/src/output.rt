// Bytes on their way to the sink.
ghost use Rattle.std.specs.Prelude.{◌≡◌, ◌≤◌, ◌<◌, ℕ, take, length, OnOk, OnErr};
ghost use Rattle.std.specs.Io.KnownBytes.{Appends};
ghost use Rattle.wave_outside.specs.Counts.{HasCause};

use wave_outside::{Failed, Sink};

/// Writes all the bytes, in as many pieces as the sink takes them. A write that fails leaves some of them out.
pub fn write_all<W: Sink>(sink: &mut W, bytes: &[u8]) -> Result<(), Failed>
    ensures ok { OnOk result (Appends (W.written sink.old) (W.written sink.new) bytes.now) }
    ensures err { OnErr result
        ((k : ℕ) × (k < length bytes.now) × Appends (W.written sink.old) (W.written sink.new) (take k bytes.now)) }
    ensures cause { HasCause (W.faults sink.old) (W.faults sink.new) result }
{
    let mut at = 0;
    while at < bytes.len() {
        at += sink.write(&bytes[at..])?;
    }
    Ok(())
}
