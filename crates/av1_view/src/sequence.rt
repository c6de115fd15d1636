//! Reads a sequence of frames from a source, and writes a page that shows it to a sink. Allocates.
ghost use Rattle.std.specs.Prelude.{◌≡◌, ◌≢◌, ◌≤◌, Ok, Err, IfOk, IfErr, length};
ghost use Rattle.av1_sequence.specs.Tasks.{cause_of};
ghost use Rattle.av1_sequence.specs.declared.error.SequenceError.TheVariants.{Memory};
ghost use Rattle.av1_streams.specs.Streams.{max_plan_bytes};
ghost use Rattle.av1_streams.specs.Tasks.{Performs, Reads, WritesBytes};
ghost use Rattle.av1_view.specs.FilePages.{IsKept, SequenceComesTo, file_page, sequence_in_memory, sequence_page_task};

use crate::file::{KeptFile, write_file_page};
use crate::gathered::Gathered;
use av1_recon::{Sink, Source};
use av1_sequence::{SequenceError, reconstruct_sequence};
use av1_streams::{MAX_PLAN_BYTES, SliceSource, read_plan_bytes};
use std::alloc::Global;

/// Reads a sequence of frames from the source to its end, and appends a page that shows it to the sink. The page has
/// constant parts, and between them data in base64: the bytes of the sequence, and the visible planes of its shown
/// frames.
///
/// # Errors
///
/// The errors of [`av1_sequence::reconstruct_sequence`]: `ReadFault` and `TooLong` while the call reads, then
/// `Malformed`, then `Frame` or `EmptySlot`, then `WriteFault`. `Memory` may replace any of them, before the first byte
/// is written. If an entry is rejected, there is no page.
pub fn view_sequence<R: Source, W: Sink>(
    alloc: Global,
    source: &mut R,
    sink: &mut W,
) -> Result<(), SequenceError>
    ensures { Performs sequence_page_task R.left R.faults W.taken W.faults source.old source.new sink.old sink.new result }
{
    let file = read_kept(alloc, source)?;
    append_page(&file, sink)
}

// Reads a sequence, and reconstructs it.
fn read_kept<R: Source>(alloc: Global, source: &mut R) -> Result<KeptFile, SequenceError>
    ensures { Reads max_plan_bytes cause_of (IsKept SequenceComesTo) R.left R.faults source.old source.new result }
{
    let bytes = read_plan_bytes(alloc, source)?;
    kept(alloc, bytes)
}

// The sequence of these bytes, with its planes.
fn kept(alloc: Global, bytes: Vec<u8>) -> Result<KeptFile, SequenceError>
    requires short { length bytes.items ≤ max_plan_bytes }
    ensures found { IfOk result (λ file. IsKept SequenceComesTo bytes.items (Ok file)) }
    ensures refused { IfErr result (λ e. e ≢ Memory → SequenceComesTo bytes.items (Err e)) }
{
    let planes = all_planes(alloc, &bytes)?;
    Ok(KeptFile { bytes, planes })
}

// The visible planes of the frames that a sequence shows. `bytes` is the sequence.
fn all_planes(alloc: Global, bytes: &[u8]) -> Result<Vec<u8>, SequenceError>
    requires short { length bytes.now ≤ max_plan_bytes }
    ensures found { IfOk result (λ planes. SequenceComesTo bytes.now (Ok planes.items)) }
    ensures refused { IfErr result (λ e. e ≢ Memory → SequenceComesTo bytes.now (Err e)) }
{
    let mut source = SliceSource::new(bytes, MAX_PLAN_BYTES, &[]);
    let mut sink = Gathered::new(alloc);
    match reconstruct_sequence(alloc, &mut source, &mut sink) {
        Ok(()) => Ok(sink.into_bytes()),
        Err(error) => Err(in_memory(error)),
    }
}

// The error if bytes are read from a slice and written to memory. Reads of a slice never fail.
fn in_memory(error: SequenceError) -> SequenceError
    ensures { result ≡ sequence_in_memory error }
{
    match error {
        SequenceError::ReadFault | SequenceError::WriteFault => SequenceError::Memory,
        other => other,
    }
}

// Appends the page of a sequence.
fn append_page<W: Sink>(file: &KeptFile, sink: &mut W) -> Result<(), SequenceError>
    ensures { WritesBytes cause_of W.taken W.faults sink.old sink.new (file_page file.now.bytes.items file.now.planes.items) result }
{
    write_file_page(file, sink)?;
    Ok(())
}
