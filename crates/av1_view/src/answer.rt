//! Turns the result on a trace into an exit status and a line, and writes the line to the error sink.
ghost use Rattle.std.specs.Prelude.{◌≡◌};
ghost use Rattle.av1_recon.specs.Answers.{HasLine};
ghost use Rattle.av1_view.specs.Answers.{trace_line, trace_status};

use av1_recon::Sink;
use av1_trace::{TraceError, report_error};

/// Writes the line for a result of [`crate::trace::view_trace`], if it has one, and returns its exit status.
pub fn report_trace<E: Sink>(answer: Result<(), TraceError>, err: &mut E) -> u8
    ensures status { result ≡ trace_status answer }
    ensures line { HasLine E.taken E.faults err.old err.new (trace_line answer) }
{
    match answer {
        Ok(()) => 0,
        Err(error) => report_error(error, err),
    }
}
