//! Turns an error into an exit status and a line, and writes the line to the error sink. Does not allocate.
ghost use Rattle.std.specs.Prelude.{◌≡◌};
ghost use Rattle.av1_recon.specs.Answers.{HasLine};
ghost use Rattle.av1_recon.specs.Ends.{error_status};
ghost use Rattle.av1_trace.specs.Answers.{error_line};
ghost use Rattle.av1_trace.specs.Checking.{cause};
ghost use Rattle.av1_trace.specs.declared.error.TraceError.TheVariants.{Plan as InPlan};

use crate::TraceError;
use av1_recon::{PlanFault, malformed_line, plain_line, push_refusal, say};
use av1_streams::{Line, Sink};

// The line for the plan of a trace.
fn plan_line(fault: PlanFault) -> Line
    ensures { result ≡ error_line (InPlan fault) }
{
    let mut line = Line::new();
    line.push(b"plan ");
    push_refusal(&mut line, fault);
    line
}

// The line for an error.
fn error_line(error: TraceError) -> Line
    ensures { result ≡ error_line error }
{
    match error {
        TraceError::ReadFault => plain_line(b"read fault"),
        TraceError::TooLong => plain_line(b"too long"),
        TraceError::Malformed { at } => malformed_line(at),
        TraceError::Plan { fault } => plan_line(fault),
        TraceError::WriteFault => plain_line(b"write fault"),
        TraceError::Memory => plain_line(b"out of memory"),
    }
}

/// Writes the line of an error, and returns its exit status. It is 2 if the bytes are rejected, 3 if memory ran out, 4
/// if a read failed, 5 if a write failed. If a write to `err` fails, `err` has a prefix of the line, and the status is
/// the same.
pub fn report_error<E: Sink>(error: TraceError, err: &mut E) -> u8
    ensures status { result ≡ error_status (cause error) }
    ensures line { HasLine E.taken E.faults err.old err.new (error_line error) }
{
    say(error_line(error).as_bytes(), err);
    match error {
        TraceError::TooLong | TraceError::Malformed { .. } | TraceError::Plan { .. } => 2,
        TraceError::Memory => 3,
        TraceError::ReadFault => 4,
        TraceError::WriteFault => 5,
    }
}
