//! Reconstructs a plan, and returns its planes and its predictions as bytes. Allocates them.
ghost use Rattle.std.specs.Prelude.{◌≡◌, None, IfOk};
ghost use Rattle.av1_plan.specs.Values.{plan_value};
ghost use Rattle.av1_plan.specs.Validity.{first_fault};
ghost use Rattle.av1_tile.specs.Output.{planes_of};
ghost use Rattle.av1_tile.specs.Predicted.{predictions_of};

use crate::gathered::Gathered;
use av1_blocks::OutOfMemory;
use av1_plan::Plan;
use av1_recon::write_with_predictions;
use av1_trace::planes_len;
use std::alloc::Global;

/// The planes and the predictions of a plan.
#[derive(Drop)]
pub struct Reconstructed {
    /// The bytes of the visible planes.
    pub planes: Vec<u8>,
    /// The bytes of the predictions of these planes, before residuals were added.
    pub predictions: Vec<u8>,
}

/// Reconstructs a valid plan, and keeps its predictions.
///
/// # Errors
///
/// `OutOfMemory` if memory runs out.
pub fn reconstruct(alloc: Global, plan: &Plan) -> Result<Reconstructed, OutOfMemory>
    requires valid { first_fault (plan_value plan.now) ≡ None }
    ensures planes { IfOk result (λ made. made.planes.items ≡ planes_of (plan_value plan.now)) }
    ensures predictions { IfOk result (λ made. made.predictions.items ≡ predictions_of (plan_value plan.now)) }
{
    let len = planes_len(plan.header());
    let mut planes = Gathered::with_capacity(alloc, len)?;
    let mut predictions = Gathered::with_capacity(alloc, len)?;
    // Writes to memory only fail if memory runs out.
    match write_with_predictions(alloc, plan, &mut planes, &mut predictions) {
        Ok(()) => Ok(Reconstructed {
            planes: planes.into_bytes(),
            predictions: predictions.into_bytes(),
        }),
        Err(_) => Err(OutOfMemory),
    }
}
