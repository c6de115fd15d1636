//! Reads a source to its end, and returns the valid plan that its bytes spell. Allocates the plan; writes nothing.
ghost use Rattle.std.specs.Prelude.{◌≡◌, ◌≢◌, ◌≤◌, None, IfOk, IfErr, length};
ghost use Rattle.av1_plan.specs.Values.{plan_value};
ghost use Rattle.av1_plan.specs.Validity.{first_fault};
ghost use Rattle.av1_streams.specs.Streams.{max_plan_bytes};
ghost use Rattle.av1_recon.specs.Outcomes.{ArePlan, AreRefusedFor};
ghost use Rattle.av1_recon.specs.Reading.{ReadsPlan};
ghost use Rattle.av1_recon.specs.declared.error.ReconError.TheVariants.{Memory};

use crate::{ReconError, Source, read_plan_bytes};
use av1_plan::{Plan, check_plan, parse_plan};
use std::alloc::Global;

/// Reads a plan from the source to its end, and checks it.
///
/// # Errors
///
/// `ReadFault` and `TooLong` while it reads, then `Malformed`, then `Invalid`. `Memory` may be returned instead of any
/// of them.
pub fn read_plan<R: Source>(alloc: Global, source: &mut R) -> Result<Plan, ReconError>
    ensures { ReadsPlan R.left R.faults source.old source.new result }
{
    let bytes = read_plan_bytes(alloc, source)?;
    plan_of_bytes(alloc, &bytes)
}

// The valid plan with these bytes.
fn plan_of_bytes(alloc: Global, bytes: &[u8]) -> Result<Plan, ReconError>
    requires short { length bytes.now ≤ max_plan_bytes }
    ensures found { IfOk result (λ plan. ArePlan bytes.now (plan_value plan) × (first_fault (plan_value plan) ≡ None)) }
    ensures refused { IfErr result (λ e. e ≢ Memory → AreRefusedFor bytes.now e) }
{
    let plan = parse_plan(alloc, bytes)?;
    check_plan(&plan)?;
    Ok(plan)
}
