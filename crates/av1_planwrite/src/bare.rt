//! Reads a plan from a source, and writes the plan without its coefficients to a sink. Allocates.

ghost use Rattle.av1_plan.specs.Values.{plan_value};
ghost use Rattle.av1_planwrite.specs.Bare.{bare_text};
ghost use Rattle.av1_recon.specs.Outcomes.{Converts};
ghost use Rattle.av1_recon.specs.Writing.{Writes};

use crate::write::write_bare;
use av1_plan::Plan;
use av1_recon::{ReconError, Sink, Source, read_plan};
use av1_streams::write_bytes;
use std::alloc::Global;

/// Reads a plan from the source to its end, and appends the text of the same plan without its coefficients to the sink.
/// This shows an encoder its predictions without residuals.
///
/// # Errors
///
/// As for [`av1_recon::reconstruct_plan`]: `ReadFault` and `TooLong` while the call reads, then `Malformed`, then
/// `Invalid`, then `WriteFault`. `Memory` may replace any of them, before the first byte is written.
pub fn bare_plan<R: Source, W: Sink>(
    alloc: Global,
    source: &mut R,
    sink: &mut W,
) -> Result<(), ReconError>
    ensures { Converts bare_text R.left R.faults W.taken W.faults source.old source.new sink.old sink.new result }
{
    let plan = read_plan(alloc, source)?;
    append_bare(alloc, &plan, sink)
}

// Appends the text of a plan without its coefficients.
fn append_bare<W: Sink>(alloc: Global, plan: &Plan, sink: &mut W) -> Result<(), ReconError>
    ensures { Writes W.taken W.faults sink.old sink.new (bare_text (plan_value plan.now)) result }
{
    let bytes = write_bare(alloc, plan)?;
    write_bytes(sink, &bytes)?;
    Ok(())
}
