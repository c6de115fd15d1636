//! Turns a tool's result into an exit status and a line, and writes the line to the error sink.
ghost use Rattle.std.specs.Prelude.{◌≡◌};
ghost use Rattle.av1_recon.specs.Answers.{HasLine};
ghost use Rattle.av1_recon.specs.Ends.{answer_line as line_of, answer_status as status_of, written};
ghost use Rattle.av1_sequence.specs.Tasks.{cause_of as sequence_cause};
ghost use Rattle.av1_tiles.specs.Tasks.{cause_of as tiles_cause};
ghost use Rattle.av1_trace.specs.Answers.{error_line as trace_line};
ghost use Rattle.av1_trace.specs.Checking.{cause as trace_cause};
ghost use Rattle.av1_toolbox.specs.Answers.{sequence_line, tiles_line, trace_done};

use av1_recon::{
    Sink, malformed_line, plain_line, push_invalid, push_malformed, push_refusal, say,
};
use av1_sequence::{FrameFault, SequenceError};
use av1_streams::Line;
use av1_tiles::{TileFault, TilesError};
use av1_trace::{TraceError, report_error};

// The line for the part of a tile.
fn tile_line(tile: u16, fault: TileFault) -> Line
    ensures { result ≡ tiles_line (TilesError.Tile tile fault) }
{
    let mut line = Line::new();
    line.push(b"tile ");
    line.push_number(u64::from(tile));
    line.push(b" ");
    push_refusal(&mut line, fault);
    line
}

fn tiles_line(error: TilesError) -> Line
    ensures { result ≡ tiles_line error }
{
    match error {
        TilesError::ReadFault => plain_line(b"read fault"),
        TilesError::TooLong => plain_line(b"too long"),
        TilesError::Malformed { at } => malformed_line(at),
        TilesError::Tile { tile, fault } => tile_line(tile, fault),
        TilesError::WriteFault => plain_line(b"write fault"),
        TilesError::Memory => plain_line(b"out of memory"),
    }
}

/// Writes the line for a result of `reconstruct_tiles`, if it has one, and returns its exit status.
pub fn report_tiles<E: Sink>(answer: Result<(), TilesError>, err: &mut E) -> u8
    ensures status { result ≡ status_of tiles_cause written answer }
    ensures line { HasLine E.taken E.faults err.old err.new (line_of tiles_line answer) }
{
    let Err(error) = answer else {
        return 0;
    };
    say(tiles_line(error).as_bytes(), err);
    match error {
        TilesError::TooLong | TilesError::Malformed { .. } | TilesError::Tile { .. } => 2,
        TilesError::Memory => 3,
        TilesError::ReadFault => 4,
        TilesError::WriteFault => 5,
    }
}

/// Writes the line for a result of `check_trace`, if it has one, and returns its exit status.
pub fn report_trace<E: Sink>(answer: Result<u32, TraceError>, err: &mut E) -> u8
    ensures status { result ≡ status_of trace_cause trace_done answer }
    ensures line { HasLine E.taken E.faults err.old err.new (line_of trace_line answer) }
{
    match answer {
        Ok(0) => 0,
        Ok(_) => 7,
        Err(error) => report_error(error, err),
    }
}

// The line for a frame of a sequence.
fn frame_line(frame: u16, fault: FrameFault) -> Line
    ensures { result ≡ sequence_line (SequenceError.Frame frame fault) }
{
    let mut line = Line::new();
    line.push(b"frame ");
    line.push_number(u64::from(frame));
    line.push(b" ");
    match fault {
        FrameFault::TooLarge => line.push(b"too large\n"),
        FrameFault::Malformed { at } => push_malformed(&mut line, at),
        FrameFault::Invalid { leaf, kind } => push_invalid(&mut line, leaf, kind),
    }
    line
}

// The line for an entry of a sequence that shows an empty slot again.
fn empty_slot_line(frame: u16) -> Line
    ensures { result ≡ sequence_line (SequenceError.EmptySlot frame) }
{
    let mut line = Line::new();
    line.push(b"frame ");
    line.push_number(u64::from(frame));
    line.push(b" empty slot\n");
    line
}

fn sequence_line(error: SequenceError) -> Line
    ensures { result ≡ sequence_line error }
{
    match error {
        SequenceError::ReadFault => plain_line(b"read fault"),
        SequenceError::TooLong => plain_line(b"too long"),
        SequenceError::Malformed { at } => malformed_line(at),
        SequenceError::Frame { frame, fault } => frame_line(frame, fault),
        SequenceError::EmptySlot { frame } => empty_slot_line(frame),
        SequenceError::WriteFault => plain_line(b"write fault"),
        SequenceError::Memory => plain_line(b"out of memory"),
    }
}

/// Writes the line for a result of `reconstruct_sequence`, if it has one, and returns its exit status.
pub fn report_sequence<E: Sink>(answer: Result<(), SequenceError>, err: &mut E) -> u8
    ensures status { result ≡ status_of sequence_cause written answer }
    ensures line { HasLine E.taken E.faults err.old err.new (line_of sequence_line answer) }
{
    let Err(error) = answer else {
        return 0;
    };
    say(sequence_line(error).as_bytes(), err);
    match error {
        SequenceError::TooLong
        | SequenceError::Malformed { .. }
        | SequenceError::Frame { .. }
        | SequenceError::EmptySlot { .. } => 2,
        SequenceError::Memory => 3,
        SequenceError::ReadFault => 4,
        SequenceError::WriteFault => 5,
    }
}
