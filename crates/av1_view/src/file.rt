//! Writes the page of a file of frames or tiles, and of its planes, to a sink. Does not allocate.
ghost use Rattle.std.specs.Prelude.{OnOk};
ghost use Rattle.std.specs.Io.KnownBytes.{Appends};
ghost use Rattle.av1_streams.specs.Faults.{HasCause};
ghost use Rattle.av1_streams.specs.Streams.{AppendsPrefix};
ghost use Rattle.av1_view.specs.FilePages.{file_page};

use crate::page::{Shown, write_page};
use av1_streams::{Sink, WriteFault};

/// A file in memory, and its planes.
#[derive(Drop)]
pub struct KeptFile {
    /// The bytes of a sequence of frames or of a grid of tiles.
    pub bytes: Vec<u8>,
    /// The visible planes of the file's frames, one after the other.
    pub planes: Vec<u8>,
}

/// Appends the page of a file and of its planes. The first write that fails ends the call, and the sink has a prefix of
/// the page.
#[tactic(auto, unfolding(crate::specs::FilePages::file_page))]
pub fn write_file_page<W: Sink>(file: &KeptFile, sink: &mut W) -> Result<(), WriteFault>
    ensures whole { OnOk result (Appends (W.taken sink.old) (W.taken sink.new)
        (file_page file.now.bytes.items file.now.planes.items)) }
    ensures prefix { AppendsPrefix (W.taken sink.old) (W.taken sink.new)
        (file_page file.now.bytes.items file.now.planes.items) }
    ensures cause { HasCause (W.faults sink.old) (W.faults sink.new) result }
{
    let shown = Shown {
        plan: &file.bytes,
        planes: &file.planes,
        predictions: &[],
        given: &[],
    };
    write_page(shown, sink)
}
