//! Reads a grid of tiles from a source, and writes a page that shows it to a sink. Allocates.
ghost use Rattle.std.specs.Prelude.{◌≡◌, ◌≢◌, ◌≤◌, Ok, Err, IfOk, IfErr, length};
ghost use Rattle.av1_tiles.specs.Tasks.{cause_of};
ghost use Rattle.av1_tiles.specs.declared.error.TilesError.TheVariants.{Memory};
ghost use Rattle.av1_streams.specs.Streams.{max_plan_bytes};
ghost use Rattle.av1_streams.specs.Tasks.{Performs, Reads, WritesBytes};
ghost use Rattle.av1_tiles.specs.Outcomes.{HasOutcome};
ghost use Rattle.av1_view.specs.FilePages.{IsKept, file_page, tiles_in_memory, tiles_page_task};

use crate::file::{KeptFile, write_file_page};
use crate::gathered::Gathered;
use av1_recon::{Sink, Source};
use av1_streams::{MAX_PLAN_BYTES, SliceSource, read_plan_bytes};
use av1_tiles::{TilesError, reconstruct_tiles};
use std::alloc::Global;

/// Reads a grid of tiles from the source to its end, and appends a page that shows it to the sink. The page has
/// constant parts, and between them data in base64: the bytes of the grid, and the visible planes of its frame.
///
/// # Errors
///
/// The errors of [`av1_tiles::reconstruct_tiles`]: `ReadFault` and `TooLong` while the call reads, then `Malformed`,
/// then `Tile`, then `WriteFault`. `Memory` may replace any of them, before the first byte is written.
pub fn view_tiles<R: Source, W: Sink>(
    alloc: Global,
    source: &mut R,
    sink: &mut W,
) -> Result<(), TilesError>
    ensures { Performs tiles_page_task R.left R.faults W.taken W.faults source.old source.new sink.old sink.new result }
{
    let file = read_kept(alloc, source)?;
    append_page(&file, sink)
}

// Reads a grid, and reconstructs it.
fn read_kept<R: Source>(alloc: Global, source: &mut R) -> Result<KeptFile, TilesError>
    ensures { Reads max_plan_bytes cause_of (IsKept HasOutcome) R.left R.faults source.old source.new result }
{
    let bytes = read_plan_bytes(alloc, source)?;
    kept(alloc, bytes)
}

// The grid of these bytes, with its planes.
fn kept(alloc: Global, bytes: Vec<u8>) -> Result<KeptFile, TilesError>
    requires short { length bytes.items ≤ max_plan_bytes }
    ensures found { IfOk result (λ file. IsKept HasOutcome bytes.items (Ok file)) }
    ensures refused { IfErr result (λ e. e ≢ Memory → HasOutcome bytes.items (Err e)) }
{
    let planes = joined_planes(alloc, &bytes)?;
    Ok(KeptFile { bytes, planes })
}

// The visible planes of the frame of a grid. `bytes` is the grid.
fn joined_planes(alloc: Global, bytes: &[u8]) -> Result<Vec<u8>, TilesError>
    requires short { length bytes.now ≤ max_plan_bytes }
    ensures found { IfOk result (λ planes. HasOutcome bytes.now (Ok planes.items)) }
    ensures refused { IfErr result (λ e. e ≢ Memory → HasOutcome bytes.now (Err e)) }
{
    let mut source = SliceSource::new(bytes, MAX_PLAN_BYTES, &[]);
    let mut sink = Gathered::new(alloc);
    match reconstruct_tiles(alloc, &mut source, &mut sink) {
        Ok(()) => Ok(sink.into_bytes()),
        Err(error) => Err(in_memory(error)),
    }
}

// The error if bytes are read from a slice and written to memory. Reads of a slice never fail.
fn in_memory(error: TilesError) -> TilesError
    ensures { result ≡ tiles_in_memory error }
{
    match error {
        TilesError::ReadFault | TilesError::WriteFault => TilesError::Memory,
        other => other,
    }
}

// Appends the page of a grid.
fn append_page<W: Sink>(file: &KeptFile, sink: &mut W) -> Result<(), TilesError>
    ensures { WritesBytes cause_of W.taken W.faults sink.old sink.new (file_page file.now.bytes.items file.now.planes.items) result }
{
    write_file_page(file, sink)?;
    Ok(())
}
