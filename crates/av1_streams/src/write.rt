//! Writes all bytes of a slice to a sink, until a write fails. Does output; does not allocate.
ghost use Rattle.std.specs.Prelude.{OnOk};
ghost use Rattle.std.specs.Io.KnownBytes.{Appends};
ghost use Rattle.av1_streams.specs.Faults.{HasCause};
ghost use Rattle.av1_streams.specs.Streams.{AppendsPrefix};

use crate::{Failed, Sink};

/// The error of a call that could not write all of its bytes.
#[derive(Clone, Copy, Debug, PartialEq, Eq)]
pub struct WriteFault;

impl From<Failed> for WriteFault {
    fn from(_: Failed) -> Self {
        WriteFault
    }
}

/// Appends the bytes to the sink, in as many writes as it needs. The first write that fails ends the call; then a
/// prefix of the bytes was appended.
pub fn write_bytes<W: Sink>(sink: &mut W, bytes: &[u8]) -> Result<(), WriteFault>
    ensures whole { OnOk result (Appends (W.taken sink.old) (W.taken sink.new) bytes.now) }
    ensures prefix { AppendsPrefix (W.taken sink.old) (W.taken sink.new) bytes.now }
    ensures cause { HasCause (W.faults sink.old) (W.faults sink.new) result }
{
    let mut written = 0;
    'writing: while written < bytes.len() {
        written += sink.write(&bytes[written..])?;
    }
    Ok(())
}
