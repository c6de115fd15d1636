//! Reads a grid of tiles from a source, and writes the planes of its frame to a sink. Allocates.

ghost use Rattle.std.specs.Prelude.{◌≢◌, ◌≤◌, Ok, IfOk, IfErr, OnOk, length};
ghost use Rattle.std.specs.Io.KnownBytes.{Appends};
ghost use Rattle.av1_streams.specs.Faults.{HasCause};
ghost use Rattle.av1_streams.specs.Streams.{AppendsPrefix, max_plan_bytes};
ghost use Rattle.av1_streams.specs.Tasks.{Performs, Reads, WritesBytes};
ghost use Rattle.av1_tiles.specs.Frames.{IsFrame, frame_bytes};
ghost use Rattle.av1_tiles.specs.Outcomes.{HasOutcome};
ghost use Rattle.av1_tiles.specs.Refusals.{AreRefusedFor};
ghost use Rattle.av1_tiles.specs.Tasks.{cause_of, tiles_task, HoldFrame};
ghost use Rattle.av1_tiles.specs.declared.error.TilesError.TheVariants.{Memory};

use crate::container::read_tiles;
use crate::error::TilesError;
use crate::joined::{Frame, FrameSamples, join_frame};
use av1_recon::write_frame;
use av1_streams::{Sink, Source, WriteFault, read_plan_bytes};
use std::alloc::Global;

/// Reads a grid of tiles from the source to its end, and reconstructs each tile separately. Then appends the visible
/// planes of their frame to the sink. The planes are Y, U and V, each row by row. A sample has one byte at depth 8,
/// else two, the low byte first.
///
/// # Errors
///
/// `ReadFault` and `TooLong` while the call reads, then `Malformed`, then `Tile`, then `WriteFault`. `Memory` may
/// replace any of them, before the first byte is written. Every tile is read, checked and reconstructed before anything
/// is written.
pub fn reconstruct_tiles<R: Source, W: Sink>(
    alloc: Global,
    source: &mut R,
    sink: &mut W,
) -> Result<(), TilesError>
    ensures { Performs tiles_task R.left R.faults W.taken W.faults source.old source.new sink.old sink.new result }
{
    let frame = read_joined(alloc, source)?;
    write_joined(&frame, sink)
}

// Reads a grid of tiles from a source, and reconstructs its frame.
fn read_joined<R: Source>(alloc: Global, source: &mut R) -> Result<Frame, TilesError>
    ensures { Reads max_plan_bytes cause_of HoldFrame R.left R.faults source.old source.new result }
{
    let bytes = read_plan_bytes(alloc, source)?;
    frame_of_bytes(alloc, &bytes)
}

// Reconstructs the frame of a grid of tiles from its bytes.
fn frame_of_bytes(alloc: Global, bytes: &[u8]) -> Result<Frame, TilesError>
    requires short { length bytes.now ≤ max_plan_bytes }
    ensures found { IfOk result (λ frame. HasOutcome bytes.now (Ok (frame_bytes frame))) }
    ensures frame { IfOk result (λ frame. IsFrame frame) }
    ensures refused { IfErr result (λ e. e ≢ Memory → AreRefusedFor bytes.now e) }
{
    let file = read_tiles(alloc, bytes)?;
    join_frame(alloc, &file)
}

// Appends the visible planes of a frame. If a write fails, the sink has a prefix of their bytes.
fn write_joined<W: Sink>(frame: &Frame, sink: &mut W) -> Result<(), TilesError>
    requires frame { IsFrame frame.now }
    ensures { WritesBytes cause_of W.taken W.faults sink.old sink.new (frame_bytes frame.now) result }
{
    write_samples(frame, sink)?;
    Ok(())
}

// Appends the visible planes of a frame, in samples of their type.
fn write_samples<W: Sink>(frame: &Frame, sink: &mut W) -> Result<(), WriteFault>
    requires frame { IsFrame frame.now }
    ensures whole { OnOk result (Appends (W.taken sink.old) (W.taken sink.new) (frame_bytes frame.now)) }
    ensures prefix { AppendsPrefix (W.taken sink.old) (W.taken sink.new) (frame_bytes frame.now) }
    ensures cause { HasCause (W.faults sink.old) (W.faults sink.new) result }
{
    match &frame.samples {
        FrameSamples::Bytes(planes) => write_frame(&frame.header, planes, sink),
        FrameSamples::Words(planes) => write_frame(&frame.header, planes, sink),
    }
}
