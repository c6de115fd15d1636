//! Reads a sequence of frames from a source, and writes the planes of shown frames to a sink. Allocates.

ghost use Rattle.std.specs.Prelude.{◌≡◌, ◌≢◌, ◌<◌, ◌≤◌, ℕ, List, Option, Err, IfOk, IfErr, IsErrAnd};
ghost use Rattle.av1_streams.specs.Faults.{FaultCounted};
ghost use Rattle.av1_streams.specs.Tasks.{write_failed};
ghost use Rattle.av1_sequence.specs.Errors.{frame_error};
ghost use Rattle.av1_sequence.specs.File.{IsReadEntry, IsReadFile, entry_value, file_value};
ghost use Rattle.av1_sequence.specs.Output.{AreWrittenAs};
ghost use Rattle.av1_sequence.specs.Tasks.{AnswersInTurn, IsTaken, PerformsInTurn, Shows, ShowsEntry, cause_of};

use crate::container::read_sequence;
use crate::error::{FrameError, FrameFault, SequenceError};
use crate::file::{Entry, SequenceFile};
use crate::output::{MOST_BYTES, Written, write_last};
use crate::sequence::SequenceOf;
use av1_frame::Pixel;
use av1_streams::{Sink, Source, read_plan_bytes};
use std::alloc::Global;

/// Reads a sequence of frames from the source to its end and reconstructs one frame after the other. Appends the
/// visible planes of each shown frame to the sink as soon as the frame is accepted. The planes are Y, U and V, each row
/// by row. A sample has one byte at depth 8, else two, the low byte first. A frame that is shown again is appended
/// again.
///
/// AV1 specification: output process.
///
/// # Errors
///
/// - `ReadFault` and `TooLong` while the call reads, then `Malformed`. Nothing is written before these.
/// - `Frame` or `EmptySlot` for the first rejected entry. The planes of frames that are shown before it were written.
/// - `WriteFault` if a write fails. The sink then has a prefix of the output.
/// - `Memory` may replace any of them. The sink then has the planes of the first shown frames, each whole.
pub fn reconstruct_sequence<R: Source, W: Sink>(
    alloc: Global,
    source: &mut R,
    sink: &mut W,
) -> Result<(), SequenceError>
    ensures does { PerformsInTurn R.left R.faults W.taken W.faults source.old source.new sink.old sink.new result }
    // What follows if the bytes of the source are known.
    ensures tells { AnswersInTurn R.left R.faults W.taken W.faults source.old source.new sink.old sink.new result }
{
    let bytes = read_plan_bytes(alloc, source)?;
    let file = read_sequence(alloc, &bytes)?;
    if file.depth == 8 {
        show_frames::<u8, W>(alloc, &file, sink)
    } else {
        show_frames::<u16, W>(alloc, &file, sink)
    }
}

/// Takes the entries of a sequence, one after the other. Writes each shown frame as soon as it is accepted.
fn show_frames<T: Written, W: Sink>(
    alloc: Global,
    file: &SequenceFile<'_>,
    sink: &mut W,
) -> Result<(), SequenceError>
    requires file { IsReadFile file.now }
    requires fits { file.now.depth ≤ T.BITS }
    requires written { AreWrittenAs file.now.depth T.BITS }
    ensures shows { Shows (file_value file.now) result (W.taken sink.old) (W.taken sink.new) }
    ensures write_fault { IsErrAnd result (λ e. cause_of e ≡ write_failed) → FaultCounted (W.faults sink.old) (W.faults sink.new) }
    ensures uncounted { ¬ IsErrAnd result (λ e. cause_of e ≡ write_failed) → W.faults sink.new ≡ W.faults sink.old }
    ensures later { W.faults sink.old ≤ W.faults sink.new }
{
    let mut sequence: SequenceOf<T> = SequenceOf::with_version(
        alloc,
        file.version,
        file.width,
        file.height,
        file.depth,
        file.sampling,
    )?;
    let mut buffer = [0; MOST_BYTES];
    for index in 0..file.entries.len() {
        show_entry(
            &mut sequence,
            index,
            &file.entries[index],
            &mut buffer,
            sink,
        )?;
    }
    Ok(())
}

/// Passes entry number `index` to the sequence, and writes its frame if it is accepted and shown. `buffer` is scratch
/// for a row.
fn show_entry<T: Written, W: Sink>(
    sequence: &mut SequenceOf<T>,
    index: usize,
    entry: &Entry<'_>,
    buffer: &mut [u8; MOST_BYTES],
    sink: &mut W,
) -> Result<(), SequenceError>
    requires text { IsReadEntry entry.now }
    requires index { index < 65536 }
    requires written { AreWrittenAs sequence.old.frames.depth T.BITS }
    ensures frames { sequence.new.frames ≡ sequence.old.frames }
    ensures shows { ShowsEntry sequence.old index (entry_value entry.now) result sequence.new (W.taken sink.old) (W.taken sink.new) }
    ensures write_fault { IsErrAnd result (λ e. cause_of e ≡ write_failed) → FaultCounted (W.faults sink.old) (W.faults sink.new) }
    ensures uncounted { ¬ IsErrAnd result (λ e. cause_of e ≡ write_failed) → W.faults sink.new ≡ W.faults sink.old }
    ensures later { W.faults sink.old ≤ W.faults sink.new }
{
    if take_entry(sequence, index, entry)? {
        write_last(sequence, buffer, sink)?;
    }
    Ok(())
}

/// Passes entry number `index` to the sequence, and returns whether its frame is shown.
fn take_entry<T: Pixel>(
    sequence: &mut SequenceOf<T>,
    index: usize,
    entry: &Entry<'_>,
) -> Result<bool, SequenceError>
    requires text { IsReadEntry entry.now }
    requires index { index < 65536 }
    ensures frames { sequence.new.frames ≡ sequence.old.frames }
    ensures taken { IfOk result (λ shown. IsTaken sequence.old (entry_value entry.now) shown sequence.new) }
    ensures refused { IfErr result (λ e. (taken : Option (List ℕ)) → ShowsEntry sequence.old index (entry_value entry.now) (Err e) sequence.new taken taken) }
    ensures no_write { IfErr result (λ e. cause_of e ≢ write_failed) }
{
    match entry {
        Entry::Coded { shown, frame } => match sequence.frame(&frame.head, frame.part) {
            Ok(()) => Ok(*shown),
            Err(error) => Err(frame_error(index, error)),
        },
        Entry::Again { slot, refresh } => {
            if sequence.show_again(usize::from(*slot), *refresh) {
                Ok(true)
            } else {
                Err(empty_slot(index))
            }
        }
    }
}

/// The error of entry number `index` if the slot that it shows again is empty.
fn empty_slot(index: usize) -> SequenceError
    requires { index < 65536 }
    ensures { result ≡ SequenceError.EmptySlot index }
{
    SequenceError::EmptySlot {
        frame: index as u16,
    }
}

/// The error of a sequence for the error of the frame with entry number `index`.
fn frame_error(index: usize, error: FrameError) -> SequenceError
    requires { index < 65536 }
    ensures { result ≡ frame_error index error }
{
    let frame = index as u16;
    match error {
        FrameError::TooLarge => SequenceError::Frame {
            frame,
            fault: FrameFault::TooLarge,
        },
        FrameError::Malformed { at } => SequenceError::Frame {
            frame,
            fault: FrameFault::Malformed { at },
        },
        FrameError::Invalid { leaf, kind } => SequenceError::Frame {
            frame,
            fault: FrameFault::Invalid { leaf, kind },
        },
        FrameError::Memory => SequenceError::Memory,
    }
}
