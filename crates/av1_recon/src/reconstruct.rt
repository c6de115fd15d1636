//! Reads a plan from a source, reconstructs it, and writes its planes to a sink. Allocates.
ghost use Rattle.std.specs.Prelude.{◌≡◌, ◌≤◌, None};
ghost use Rattle.av1_plan.specs.Values.{plan_value};
ghost use Rattle.av1_plan.specs.Validity.{first_fault};
ghost use Rattle.av1_streams.specs.Tasks.{AnswersBytes};
ghost use Rattle.av1_tile.specs.Output.{planes_of};
ghost use Rattle.av1_tile.specs.State.{IsSound, MadeFor};
ghost use Rattle.av1_recon.specs.Outcomes.{Reconstructs, plan_task};
ghost use Rattle.av1_recon.specs.Writing.{Writes};

use crate::{ReconError, Sink, Source, TileState, read_plan, reconstruct_tile, write_planes};
use av1_frame::Pixel;
use av1_plan::Plan;
use std::alloc::Global;

/// Reads a plan from the source to its end, and appends the plan's visible planes to the sink: Y, U and V, each row by
/// row, one byte a sample at depth 8, else two, the low one first.
///
/// # Errors
///
/// `ReadFault` and `TooLong` while it reads, then `Malformed`, then `Invalid`, then `WriteFault`. `Memory` may be
/// returned instead of any of them, before the first written byte.
pub fn reconstruct_plan<R: Source, W: Sink>(
    alloc: Global,
    source: &mut R,
    sink: &mut W,
) -> Result<(), ReconError>
    ensures does { Reconstructs R.left R.faults W.taken W.faults source.old source.new sink.old sink.new result }
    // What follows for a source that reports its bytes.
    ensures tells { AnswersBytes (plan_task planes_of) R.left R.faults W.taken W.faults source.old source.new sink.old sink.new result }
{
    let plan = read_plan(alloc, source)?;
    reconstruct_valid(alloc, &plan, sink)
}

/// Appends the visible planes of a valid plan to the sink, as [`reconstruct_plan`] does.
///
/// # Errors
///
/// `WriteFault`. `Memory` may be returned instead, before the first written byte.
pub fn reconstruct_valid<W: Sink>(
    alloc: Global,
    plan: &Plan,
    sink: &mut W,
) -> Result<(), ReconError>
    requires valid { first_fault (plan_value plan.now) ≡ None }
    ensures { Writes W.taken W.faults sink.old sink.new (planes_of (plan_value plan.now)) result }
{
    match plan.header().depth {
        8 => reconstruct_as::<u8, W>(alloc, plan, sink),
        _ => reconstruct_as::<u16, W>(alloc, plan, sink),
    }
}

// Appends the planes of a valid plan, in samples of this type.
fn reconstruct_as<T: Pixel, W: Sink>(
    alloc: Global,
    plan: &Plan,
    sink: &mut W,
) -> Result<(), ReconError>
    requires valid { first_fault (plan_value plan.now) ≡ None }
    requires depth { (plan_value plan.now).header.depth ≤ T.BITS }
    requires narrow { (plan_value plan.now).header.depth ≡ 8 → T.BITS ≤ 8 }
    ensures { Writes W.taken W.faults sink.old sink.new (planes_of (plan_value plan.now)) result }
{
    let mut state = TileState::<T>::new(alloc, plan)?;
    write_reconstructed(&mut state, plan, sink)
}

// Reconstructs a plan in a state that was made for it, and appends its planes.
fn write_reconstructed<T: Pixel, W: Sink>(
    state: &mut TileState<T>,
    plan: &Plan,
    sink: &mut W,
) -> Result<(), ReconError>
    requires valid { first_fault (plan_value plan.now) ≡ None }
    requires sound { IsSound T.num state.old }
    requires made { MadeFor T.num (plan_value plan.now) state.old }
    requires depth { (plan_value plan.now).header.depth ≤ T.BITS }
    requires narrow { (plan_value plan.now).header.depth ≡ 8 → T.BITS ≤ 8 }
    ensures { Writes W.taken W.faults sink.old sink.new (planes_of (plan_value plan.now)) result }
{
    reconstruct_tile(state, plan);
    write_planes(state, sink)?;
    Ok(())
}
