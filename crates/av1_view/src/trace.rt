//! Reads a trace from a source, and writes a page that shows where samples differ to a sink. Allocates.
ghost use Rattle.std.specs.Prelude.{◌≡◌, ◌≢◌, ◌≤◌, None, IfOk, IfErr, length};
ghost use Rattle.av1_plan.specs.Values.{plan_value};
ghost use Rattle.av1_plan.specs.Validity.{first_fault};
ghost use Rattle.av1_streams.specs.Tasks.{Performs, WritesBytes};
ghost use Rattle.av1_trace.specs.Checking.{cause};
ghost use Rattle.av1_trace.specs.Traces.{AreRefusedFor, IsTrace, max_trace_bytes};
ghost use Rattle.av1_trace.specs.declared.error.TraceError.TheVariants.{Memory};
ghost use Rattle.av1_view.specs.Shown.{trace_page};
ghost use Rattle.av1_view.specs.TracePages.{ReadsTrace, trace_page_task};

use crate::page::{Shown, write_page};
use crate::view::gather;
use av1_blocks::OutOfMemory;
use av1_plan::Plan;
use av1_recon::{Sink, Source};
use av1_streams::read_bytes;
use av1_trace::{MAX_TRACE_BYTES, Trace, TraceError, parse_trace};
use std::alloc::Global;

/// A trace that owns its planes, because the bytes that it was read from are dropped.
#[derive(Drop)]
pub struct KeptTrace {
    plan: Plan,
    planes: Vec<u8>,
}

/// Reads a trace from the source to its end, and appends a page to the sink. The page shows the trace's plan, as
/// [`crate::view::view_plan`] does, and the trace's planes.
///
/// # Errors
///
/// The errors of [`av1_trace::check_trace`], in this order:
///
/// - `ReadFault` and `TooLong` while the call reads.
/// - `Malformed` for the letters, the length or a plan that is cut off.
/// - `Plan`.
/// - `Malformed` for planes of the wrong length.
/// - `WriteFault`.
///
/// `Memory` may replace any of them, before the first byte is written.
pub fn view_trace<R: Source, W: Sink>(
    alloc: Global,
    source: &mut R,
    sink: &mut W,
) -> Result<(), TraceError>
    ensures { Performs trace_page_task R.left R.faults W.taken W.faults source.old source.new sink.old sink.new result }
{
    let trace = read_trace(alloc, source)?;
    append_trace(alloc, &trace.plan, &trace.planes, sink)
}

// Reads a trace.
fn read_trace<R: Source>(alloc: Global, source: &mut R) -> Result<KeptTrace, TraceError>
    ensures { ReadsTrace R.left R.faults source.old source.new result }
{
    let bytes = read_bytes(alloc, source, MAX_TRACE_BYTES)?;
    trace_of(alloc, &bytes)
}

// The trace of these bytes.
fn trace_of(alloc: Global, bytes: &[u8]) -> Result<KeptTrace, TraceError>
    requires short { length bytes.now ≤ max_trace_bytes }
    ensures found { IfOk result (λ trace. IsTrace bytes.now (plan_value trace.plan) trace.planes.items) }
    ensures refused { IfErr result (λ e. e ≢ Memory → AreRefusedFor bytes.now e) }
{
    let Trace { plan, planes } = parse_trace(alloc, bytes)?;
    let planes = copied(alloc, planes)?;
    Ok(KeptTrace { plan, planes })
}

// A copy of the bytes.
fn copied(alloc: Global, bytes: &[u8]) -> Result<Vec<u8>, OutOfMemory>
    ensures { IfOk result (λ copy. copy.items ≡ bytes.now) }
{
    let mut copy = Vec::new(alloc);
    copy.extend_from_slice(bytes)?;
    Ok(copy)
}

// Appends the page of a valid plan and of the trace's planes.
#[tactic(auto, using(crate::proofs::Pages::page_is))]
fn append_trace<W: Sink>(
    alloc: Global,
    plan: &Plan,
    given: &[u8],
    sink: &mut W,
) -> Result<(), TraceError>
    requires valid { first_fault (plan_value plan.now) ≡ None }
    ensures { WritesBytes cause W.taken W.faults sink.old sink.new (trace_page (plan_value plan.now) given.now) result }
{
    let parts = gather(alloc, plan)?;
    let shown = Shown {
        plan: &parts.plan,
        planes: &parts.planes,
        predictions: &parts.predictions,
        given,
    };
    write_page(shown, sink)?;
    Ok(())
}
