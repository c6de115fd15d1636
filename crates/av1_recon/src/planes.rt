//! Writes the visible planes of a frame to a sink, row by row, through a fixed buffer. Does not allocate.
ghost use Rattle.std.specs.Prelude.{◌≡◌, ◌*◌, ◌≤◌, map, OnOk};
ghost use Rattle.std.specs.List.{flat_map};
ghost use Rattle.std.specs.Io.KnownBytes.{Appends};
ghost use Rattle.av1_frame.specs.Planes.{sample_at};
ghost use Rattle.av1_streams.specs.Faults.{HasCause};
ghost use Rattle.av1_streams.specs.Streams.{AppendsPrefix};
ghost use Rattle.av1_tile.specs.PlaneBlocks.{shown_of};
ghost use Rattle.av1_tile.specs.State.{IsSound, state_header, shown};
ghost use Rattle.av1_tile.specs.Output.{visible, plane_bytes, sample_bytes};
ghost use Rattle.av1_tile.specs.Walk.{AreFrame, IsPlaneOf, samples_of};

use crate::samples::pack;
use crate::{Sink, TileState, WriteFault};
use av1_frame::{Pixel, Plane};
use av1_plan::Header;
use av1_streams::write_bytes;
use av1_tile::{Planes, visible_row};

// The greatest number of samples that are written at once: a row of the widest frame.
const MOST_SAMPLES: usize = 2048;

// The number of bytes of these samples.
pub const MOST_BYTES: usize = 2 * MOST_SAMPLES;

/// Appends the visible planes to the sink: Y, U and V, each row by row, one byte a sample at depth 8, else two, the low
/// one first. The first write that fails ends the call; then a prefix of the planes was appended.
pub fn write_planes<T: Pixel, W: Sink>(state: &TileState<T>, sink: &mut W) -> Result<(), WriteFault>
    requires sound { IsSound T.num state.now }
    requires narrow { (state_header state.now).depth ≡ 8 → T.BITS ≤ 8 }
    ensures whole { OnOk result (Appends (W.taken sink.old) (W.taken sink.new) (visible (state_header state.now) (shown T.num state.now))) }
    ensures prefix { AppendsPrefix (W.taken sink.old) (W.taken sink.new) (visible (state_header state.now) (shown T.num state.now)) }
    ensures cause { HasCause (W.faults sink.old) (W.faults sink.new) result }
{
    write_frame(state.header(), state.planes(), sink)
}

/// Appends the visible planes of a frame to the sink, as [`write_planes`] does those of a state.
pub fn write_frame<T: Pixel, W: Sink>(
    header: &Header,
    planes: &Planes<T>,
    sink: &mut W,
) -> Result<(), WriteFault>
    requires frame { AreFrame header.now planes.now }
    requires narrow { header.now.depth ≡ 8 → T.BITS ≤ 8 }
    ensures whole { OnOk result (Appends (W.taken sink.old) (W.taken sink.new) (visible header.now (samples_of T.num planes.now))) }
    ensures prefix { AppendsPrefix (W.taken sink.old) (W.taken sink.new) (visible header.now (samples_of T.num planes.now)) }
    ensures cause { HasCause (W.faults sink.old) (W.faults sink.new) result }
{
    let mut buffer = [0; MOST_BYTES];
    write_plane(header, &planes.y, 0, &mut buffer, sink)?;
    write_plane(header, &planes.u, 1, &mut buffer, sink)?;
    write_plane(header, &planes.v, 2, &mut buffer, sink)
}

// Appends the visible rows of plane `p` of a frame, or a prefix of their bytes.
#[tactic(auto, using(av1_tile::proofs::Pictures::shows_part))]
fn write_plane<T: Pixel, W: Sink>(
    header: &Header,
    plane: &Plane<T>,
    p: usize,
    buffer: &mut [u8; MOST_BYTES],
    sink: &mut W,
) -> Result<(), WriteFault>
    requires plane { IsPlaneOf header.now p plane.now }
    requires narrow { header.now.depth ≡ 8 → T.BITS ≤ 8 }
    ensures whole { OnOk result (Appends (W.taken sink.old) (W.taken sink.new) (plane_bytes (shown_of header.now p) (sample_at T.num plane.now))) }
    ensures prefix { AppendsPrefix (W.taken sink.old) (W.taken sink.new) (plane_bytes (shown_of header.now p) (sample_at T.num plane.now)) }
    ensures cause { HasCause (W.faults sink.old) (W.faults sink.new) result }
{
    for y in 0..header.shown_rows(p) {
        write_row(header.depth, visible_row(plane, header, p, y), buffer, sink)?;
    }
    Ok(())
}

/// Appends samples one after another, or a prefix of their bytes.
pub fn write_row<T: Pixel, W: Sink>(
    depth: u8,
    row: &[T],
    buffer: &mut [u8; MOST_BYTES],
    sink: &mut W,
) -> Result<(), WriteFault>
    requires narrow { depth ≡ 8 → T.BITS ≤ 8 }
    ensures whole { OnOk result (Appends (W.taken sink.old) (W.taken sink.new) (flat_map (sample_bytes depth) (map T.num row.now))) }
    ensures prefix { AppendsPrefix (W.taken sink.old) (W.taken sink.new) (flat_map (sample_bytes depth) (map T.num row.now)) }
    ensures cause { HasCause (W.faults sink.old) (W.faults sink.new) result }
{
    let mut at = 0;
    'pieces: while at < row.len() {
        let count = (row.len() - at).min(MOST_SAMPLES);
        let len = pack(depth, &row[at..at + count], buffer);
        write_bytes(sink, &buffer[..len])?;
        at += count;
    }
    Ok(())
}
