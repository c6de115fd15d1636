//! Reads a plan from a source, reconstructs it many times, and writes four lines of sums to a sink. Allocates.
ghost use Rattle.av1_recon.specs.Lines.{sum_lines};
ghost use Rattle.av1_recon.specs.Outcomes.{Converts};

use av1_recon::{ReconError, Sink, Source, read_plan, write_sums};
use std::alloc::Global;
use std::num::NonZeroU32;

/// Reads a plan from the source to its end, and reconstructs it `rounds` times in the same state. Appends four lines to
/// the sink: the number of its leaves, and the sum of the visible samples of each plane.
///
/// # Errors
///
/// `ReadFault` and `TooLong` while the call reads, then `Malformed`, then `Invalid`, then `WriteFault`. `Memory` may
/// replace any of them, before the first byte is written.
pub fn bench<R: Source, W: Sink>(
    alloc: Global,
    rounds: NonZeroU32,
    source: &mut R,
    sink: &mut W,
) -> Result<(), ReconError>
    ensures { Converts sum_lines R.left R.faults W.taken W.faults source.old source.new sink.old sink.new result }
{
    let plan = read_plan(alloc, source)?;
    write_sums(alloc, rounds, &plan, sink)
}
