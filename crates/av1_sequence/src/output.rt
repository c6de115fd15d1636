//! Writes the visible planes of the last frame to a sink, row by row. Does not allocate.
//!
//! Rows of 8-bit samples are written directly. Rows of 16-bit samples are first put into a buffer, two bytes for each
//! sample.

ghost use Rattle.std.specs.Prelude.{◌≡◌, ◌*◌, ◌<◌, ◌≤◌, Some, length, map, take, OnOk};
ghost use Rattle.std.specs.List.{flat_map};
ghost use Rattle.std.specs.Io.KnownBytes.{Appends};
ghost use Rattle.av1_frame.specs.Planes.{sample_at};
ghost use Rattle.av1_streams.specs.Faults.{HasCause};
ghost use Rattle.av1_streams.specs.Streams.{AppendsPrefix};
ghost use Rattle.av1_tile.specs.Output.{plane_bytes, sample_bytes};
ghost use Rattle.av1_tile.specs.PlaneBlocks.{shown_of};
ghost use Rattle.av1_sequence.specs.Output.{AreWrittenAs, IsWritable, frame_text, plane_text};
ghost use Rattle.av1_sequence.specs.Slots.{Frame};

use crate::sequence::SequenceOf;
use av1_frame::{Pixel, Plane};
use av1_plan::Header;
use av1_streams::{Sink, WriteFault, write_bytes};
use av1_tile::visible_row;

/// The length of the widest frame's rows in bytes.
pub const MOST_BYTES: usize = 2 * 2048;

/// A sample that can be written: 8 bits as one byte, and 16 bits as two, the low byte first.
pub trait Written: Pixel {
    /// Appends the samples of a row. If a write fails, the sink has a prefix of their bytes. `buffer` is scratch for
    /// samples that are not bytes.
    fn write_row<W: Sink>(
        row: &[Self],
        buffer: &mut [u8; MOST_BYTES],
        sink: &mut W,
    ) -> Result<(), WriteFault>
        requires short { length row.now ≤ 2048 }
        ensures whole { OnOk result (Appends (W.taken sink.old) (W.taken sink.new) (flat_map (sample_bytes Self.BITS) (map Self.num row.now))) }
        ensures prefix { AppendsPrefix (W.taken sink.old) (W.taken sink.new) (flat_map (sample_bytes Self.BITS) (map Self.num row.now)) }
        ensures cause { HasCause (W.faults sink.old) (W.faults sink.new) result };
}

impl Written for u8 {
    fn write_row<W: Sink>(
        row: &[u8],
        _: &mut [u8; MOST_BYTES],
        sink: &mut W,
    ) -> Result<(), WriteFault> {
        write_bytes(sink, row)
    }
}

impl Written for u16 {
    fn write_row<W: Sink>(
        row: &[u16],
        buffer: &mut [u8; MOST_BYTES],
        sink: &mut W,
    ) -> Result<(), WriteFault> {
        pack(row, buffer);
        write_bytes(sink, &buffer[..2 * row.len()])
    }
}

// Writes the samples to the front of the bytes, two bytes for each sample.
fn pack(samples: &[u16], bytes: &mut [u8])
    requires room { 2 * length samples.now ≤ length bytes.old }
    ensures { take (2 * length samples.now) bytes.new ≡ flat_map (sample_bytes 16) samples.now }
{
    for (i, sample) in samples.iter().enumerate() {
        bytes[2 * i] = (*sample % 256) as u8;
        bytes[2 * i + 1] = (*sample / 256) as u8;
    }
}

/// Appends the visible planes of the last frame: Y, U and V, each row by row. A sample has one byte at depth 8, else
/// two, the low byte first. The first write that fails ends the call, and the sink then has a prefix of the planes.
/// `buffer` is scratch for a row.
pub fn write_last<T: Written, W: Sink>(
    sequence: &SequenceOf<T>,
    buffer: &mut [u8; MOST_BYTES],
    sink: &mut W,
) -> Result<(), WriteFault>
    requires written { AreWrittenAs sequence.now.frames.depth T.BITS }
    ensures whole { OnOk result ((frame : Frame) → sequence.now.last ≡ Some frame →
        Appends (W.taken sink.old) (W.taken sink.new) (frame_text sequence.now.frames frame)) }
    ensures prefix { (frame : Frame) → sequence.now.last ≡ Some frame →
        AppendsPrefix (W.taken sink.old) (W.taken sink.new) (frame_text sequence.now.frames frame) }
    ensures cause { HasCause (W.faults sink.old) (W.faults sink.new) result }
{
    write_plane(sequence, 0, buffer, sink)?;
    write_plane(sequence, 1, buffer, sink)?;
    write_plane(sequence, 2, buffer, sink)
}

// Appends the visible rows of plane `p` of the last frame. If a write fails, the sink has a prefix of their bytes.
fn write_plane<T: Written, W: Sink>(
    sequence: &SequenceOf<T>,
    p: usize,
    buffer: &mut [u8; MOST_BYTES],
    sink: &mut W,
) -> Result<(), WriteFault>
    requires plane { p < 3 }
    requires written { AreWrittenAs sequence.now.frames.depth T.BITS }
    ensures whole { OnOk result ((frame : Frame) → sequence.now.last ≡ Some frame →
        Appends (W.taken sink.old) (W.taken sink.new) (plane_text sequence.now.frames frame p)) }
    ensures prefix { (frame : Frame) → sequence.now.last ≡ Some frame →
        AppendsPrefix (W.taken sink.old) (W.taken sink.new) (plane_text sequence.now.frames frame p) }
    ensures cause { HasCause (W.faults sink.old) (W.faults sink.new) result }
{
    match sequence.last_plane(p) {
        Some(plane) => write_rows(sequence.header(), plane, p, buffer, sink),
        None => Ok(()),
    }
}

// Appends the visible rows of plane `p` of a frame. If a write fails, the sink has a prefix of their bytes.
fn write_rows<T: Written, W: Sink>(
    header: &Header,
    plane: &Plane<T>,
    p: usize,
    buffer: &mut [u8; MOST_BYTES],
    sink: &mut W,
) -> Result<(), WriteFault>
    requires plane { IsWritable header.now p plane.now }
    requires written { AreWrittenAs header.now.depth T.BITS }
    ensures whole { OnOk result (Appends (W.taken sink.old) (W.taken sink.new) (plane_bytes (shown_of header.now p) (sample_at T.num plane.now))) }
    ensures prefix { AppendsPrefix (W.taken sink.old) (W.taken sink.new) (plane_bytes (shown_of header.now p) (sample_at T.num plane.now)) }
    ensures cause { HasCause (W.faults sink.old) (W.faults sink.new) result }
{
    for y in 0..header.shown_rows(p) {
        T::write_row(visible_row(plane, header, p, y), buffer, sink)?;
    }
    Ok(())
}
