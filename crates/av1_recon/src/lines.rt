//! Reconstructs a plan some number of times, and writes four lines of sums to a sink. Allocates.
ghost use Rattle.std.specs.Prelude.{◌≡◌, ◌≤◌, None, IfOk};
ghost use Rattle.av1_plan.specs.Values.{plan_value};
ghost use Rattle.av1_plan.specs.Validity.{first_fault};
ghost use Rattle.av1_tile.specs.State.{IsSound, MadeFor, shown, state_header};
ghost use Rattle.av1_tile.specs.Output.{planes_of, visible};
ghost use Rattle.av1_recon.specs.Lines.{four_lines, sum_lines};
ghost use Rattle.av1_recon.specs.Writing.{Writes};

use crate::{ReconError, Sink, TileState, plane_sum, reconstruct_tile};
use av1_blocks::OutOfMemory;
use av1_frame::Pixel;
use av1_plan::Plan;
use av1_streams::{Line, write_bytes};
use std::alloc::Global;
use std::num::NonZeroU32;

/// Reconstructs a valid plan `rounds` times in one state, and appends four lines to the sink. They have the number of
/// its leaves, and the sum of the visible samples of each plane.
///
/// # Errors
///
/// `Memory` before the first written byte, and `WriteFault`.
pub fn write_sums<W: Sink>(
    alloc: Global,
    rounds: NonZeroU32,
    plan: &Plan,
    sink: &mut W,
) -> Result<(), ReconError>
    requires valid { first_fault (plan_value plan.now) ≡ None }
    ensures { Writes W.taken W.faults sink.old sink.new (sum_lines (plan_value plan.now)) result }
{
    let lines = lines_of_plan(alloc, rounds, plan)?;
    write_bytes(sink, lines.as_bytes())?;
    Ok(())
}

// The lines of a valid plan.
fn lines_of_plan(alloc: Global, rounds: NonZeroU32, plan: &Plan) -> Result<Line, OutOfMemory>
    requires valid { first_fault (plan_value plan.now) ≡ None }
    ensures { IfOk result (λ lines. lines ≡ sum_lines (plan_value plan.now)) }
{
    match plan.header().depth {
        8 => lines_as::<u8>(alloc, rounds, plan),
        _ => lines_as::<u16>(alloc, rounds, plan),
    }
}

// The lines of a valid plan, by samples of this type.
fn lines_as<T: Pixel>(alloc: Global, rounds: NonZeroU32, plan: &Plan) -> Result<Line, OutOfMemory>
    requires valid { first_fault (plan_value plan.now) ≡ None }
    requires depth { (plan_value plan.now).header.depth ≤ T.BITS }
    ensures { IfOk result (λ lines. lines ≡ sum_lines (plan_value plan.now)) }
{
    let mut state = TileState::<T>::new(alloc, plan)?;
    reconstruct_often(&mut state, rounds, plan);
    Ok(four_lines(
        plan.leaves().len(),
        plane_sum(&state, 0),
        plane_sum(&state, 1),
        plane_sum(&state, 2),
    ))
}

// Reconstructs the plan `rounds` times in the state.
fn reconstruct_often<T: Pixel>(state: &mut TileState<T>, rounds: NonZeroU32, plan: &Plan)
    requires valid { first_fault (plan_value plan.now) ≡ None }
    requires sound { IsSound T.num state.old }
    requires made { MadeFor T.num (plan_value plan.now) state.old }
    requires depth { (plan_value plan.now).header.depth ≤ T.BITS }
    ensures sound { IsSound T.num state.new }
    ensures header { state_header state.new ≡ (plan_value plan.now).header }
    ensures visible { visible (state_header state.new) (shown T.num state.new) ≡ planes_of (plan_value plan.now) }
{
    for _ in 0..rounds.get() {
        reconstruct_tile(state, plan);
    }
}

// A number of leaves, and a sum for each plane.
fn four_lines(leaves: usize, y: u64, u: u64, v: u64) -> Line
    ensures { result ≡ four_lines leaves y u v }
{
    let mut lines = Line::new();
    lines.push(b"leaves ");
    lines.push_number(leaves as u64);
    lines.push(b"\nY ");
    lines.push_number(y);
    lines.push(b"\nU ");
    lines.push_number(u);
    lines.push(b"\nV ");
    lines.push_number(v);
    lines.push(b"\n");
    lines
}
