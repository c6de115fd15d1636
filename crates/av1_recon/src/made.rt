//! Makes the plan of a number, and writes its bytes, or four lines on it, to a sink. Allocates.
ghost use Rattle.std.specs.Prelude.{◌≡◌, ◌≤◌, None, IfOk, IfErr, ℕ, List};
ghost use Rattle.av1_plan.specs.Generator.{plan_bytes, plan_bytes_in};
ghost use Rattle.av1_plan.specs.Values.{plan_value};
ghost use Rattle.av1_plan.specs.Validity.{first_fault};
ghost use Rattle.av1_recon.specs.Made.{AreMadeSums};
ghost use Rattle.av1_recon.specs.Outcomes.{ArePlan};
ghost use Rattle.av1_recon.specs.Writing.{Writes};
ghost use Rattle.av1_recon.specs.declared.error.ReconError.TheVariants.{Memory};

use crate::{ReconError, Sink, write_sums};
use av1_plan::{Plan, make_plan, make_plan_in, parse_plan};
use av1_streams::write_bytes;
use std::alloc::Global;
use std::num::NonZeroU32;

/// Appends the plan of a number to the sink, by the plan format.
///
/// # Errors
///
/// `Memory` before the first written byte, and `WriteFault`.
#[tactic(auto, unfolding(av1_plan::specs::Generator::plan_bytes))]
pub fn write_made<W: Sink>(alloc: Global, number: u32, sink: &mut W) -> Result<(), ReconError>
    ensures { Writes W.taken W.faults sink.old sink.new (plan_bytes number) result }
{
    write_made_in(alloc, 1, number, sink)
}

/// Appends the plan of a number in a version of the plan grammar, 1, 2 or 3, to the sink.
///
/// # Errors
///
/// `Memory` before the first written byte, and `WriteFault`.
pub fn write_made_in<W: Sink>(
    alloc: Global,
    version: u8,
    number: u32,
    sink: &mut W,
) -> Result<(), ReconError>
    requires version { (1 ≤ version) × (version ≤ 3) }
    ensures { Writes W.taken W.faults sink.old sink.new (plan_bytes_in version number) result }
{
    let bytes = make_plan_in(alloc, version, number)?;
    write_bytes(sink, &bytes)?;
    Ok(())
}

/// Reconstructs the plan of a number once, and appends four lines to the sink. They have the number of its leaves, and
/// the sum of the visible samples of each plane.
///
/// # Errors
///
/// `Memory` before the first written byte, and `WriteFault`.
pub fn write_made_sums<W: Sink>(alloc: Global, number: u32, sink: &mut W) -> Result<(), ReconError>
    ensures { (lines : List ℕ) × AreMadeSums number lines
        × Writes W.taken W.faults sink.old sink.new lines result }
{
    let plan = parse_made(alloc, number)?;
    write_sums(alloc, NonZeroU32::MIN, &plan, sink)
}

// The plan of a number, parsed. It is valid, so the only error is running out of memory.
fn parse_made(alloc: Global, number: u32) -> Result<Plan, ReconError>
    ensures plan { IfOk result (λ plan. ArePlan (plan_bytes number) (plan_value plan)) }
    ensures valid { IfOk result (λ plan. first_fault (plan_value plan) ≡ None) }
    ensures memory { IfErr result (λ e. e ≡ Memory) }
{
    let bytes = make_plan(alloc, number)?;
    let plan = parse_plan(alloc, &bytes)?;
    Ok(plan)
}
