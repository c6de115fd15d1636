//! Turns a result into an exit status and a line, and writes the line to the error sink. Does not allocate.
ghost use Rattle.std.specs.Prelude.{◌≡◌, ◌≤◌, ◌++◌, length, codes};
ghost use Rattle.av1_recon.specs.Answers.{status_of, line_of, error_line, kind_text, malformed_text, invalid_text, refusal_text, HasLine};

use crate::{InvalidKind, PlanFault, ReconError, Sink};
use av1_streams::{Line, write_bytes};

fn kind_text(kind: InvalidKind) -> &'static [u8]
    ensures text { result.now ≡ kind_text kind }
    ensures short { length result.now ≤ 20 }
{
    match kind {
        InvalidKind::InvalidBlockSize => b"block size",
        InvalidKind::Transform => b"transform",
        InvalidKind::Mode => b"mode",
        InvalidKind::Vector => b"vector",
        InvalidKind::MissingReference => b"missing reference",
        InvalidKind::Coefficient => b"coefficient",
    }
}

/// A line of a text of at most 20 bytes.
pub fn plain_line(text: &[u8]) -> Line
    requires { length text.now ≤ 20 }
    ensures { result ≡ text.now ++ codes "\n" }
{
    let mut line = Line::new();
    line.push(text);
    line.push(b"\n");
    line
}

/// Appends the text for the field that begins at byte `at`: `malformed at N`, and the end of the line.
#[tactic(auto, using(std::proofs::lemmas::List::append_assoc))]
pub fn push_malformed(line: &mut Line, at: u32)
    requires { length line.old ≤ 64 }
    ensures { line.new ≡ line.old ++ malformed_text at }
{
    line.push(b"malformed at ");
    line.push_number(u64::from(at));
    line.push(b"\n");
}

/// Appends the text for the leaf at fault: `invalid leaf N: K`, and the end of the line.
#[tactic(auto, using(std::proofs::lemmas::List::append_assoc))]
pub fn push_invalid(line: &mut Line, leaf: u32, kind: InvalidKind)
    requires { length line.old ≤ 64 }
    ensures { line.new ≡ line.old ++ invalid_text leaf kind }
{
    line.push(b"invalid leaf ");
    line.push_number(u64::from(leaf));
    line.push(b": ");
    line.push(kind_text(kind));
    line.push(b"\n");
}

/// Appends the text for a plan that is rejected, and the end of the line.
pub fn push_refusal(line: &mut Line, refusal: PlanFault)
    requires { length line.old ≤ 64 }
    ensures { line.new ≡ line.old ++ refusal_text refusal }
{
    match refusal {
        PlanFault::Malformed { at } => push_malformed(line, at),
        PlanFault::Invalid { leaf, kind } => push_invalid(line, leaf, kind),
    }
}

/// The line for the field that begins at byte `at`.
pub fn malformed_line(at: u32) -> Line
    ensures { result ≡ malformed_text at }
{
    let mut line = Line::new();
    push_malformed(&mut line, at);
    line
}

// The line for a leaf at fault.
fn invalid_line(leaf: u32, kind: InvalidKind) -> Line
    ensures { result ≡ invalid_text leaf kind }
{
    let mut line = Line::new();
    push_invalid(&mut line, leaf, kind);
    line
}

fn error_line(error: ReconError) -> Line
    ensures { result ≡ error_line error }
{
    match error {
        ReconError::ReadFault => plain_line(b"read fault"),
        ReconError::TooLong => plain_line(b"too long"),
        ReconError::Malformed { at } => malformed_line(at),
        ReconError::Invalid { leaf, kind } => invalid_line(leaf, kind),
        ReconError::WriteFault => plain_line(b"write fault"),
        ReconError::Memory => plain_line(b"out of memory"),
    }
}

/// Writes the line of the result, if it has one, and returns its exit status.
pub fn report<E: Sink>(answer: Result<(), ReconError>, err: &mut E) -> u8
    ensures status { result ≡ status_of answer }
    ensures line { HasLine E.taken E.faults err.old err.new (line_of answer) }
{
    let Err(error) = answer else {
        return 0;
    };
    say(error_line(error).as_bytes(), err);
    match error {
        ReconError::TooLong | ReconError::Malformed { .. } | ReconError::Invalid { .. } => 2,
        ReconError::Memory => 3,
        ReconError::ReadFault => 4,
        ReconError::WriteFault => 5,
    }
}

/// Writes a line, or a prefix of it if a write fails.
pub fn say<E: Sink>(line: &[u8], err: &mut E)
    ensures { HasLine E.taken E.faults err.old err.new line.now }
{
    // A line that can't be written doesn't change the exit status.
    let _ = write_bytes(err, line);
}
