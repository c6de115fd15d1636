//! Reconstructs a plan once, and writes its planes to one sink and its predictions to another. Allocates.
ghost use Rattle.std.specs.Prelude.{◌≡◌, ◌≤◌, None, OnOk, IfErr};
ghost use Rattle.std.specs.Io.KnownBytes.{Appends};
ghost use Rattle.av1_plan.specs.Values.{plan_value};
ghost use Rattle.av1_plan.specs.Validity.{first_fault};
ghost use Rattle.av1_streams.specs.Faults.{HasCause};
ghost use Rattle.av1_streams.specs.Streams.{AppendsPrefix};
ghost use Rattle.av1_tile.specs.Memory.{ShowsPlan};
ghost use Rattle.av1_tile.specs.Output.{planes_of};
ghost use Rattle.av1_tile.specs.Predicted.{ShowsPredictions, predictions_of};
ghost use Rattle.av1_tile.specs.Walk.{StoresAll};
ghost use Rattle.av1_recon.specs.Predictions.{FailsInTurn, kept_bytes};

use crate::planes::{MOST_BYTES, write_frame, write_row};
use crate::{ReconError, Sink, WriteFault};
use av1_frame::Pixel;
use av1_plan::Plan;
use av1_tile::{Planes, PredictedPlanes, reconstruct_with_predictions};
use std::alloc::Global;

/// Reconstructs a valid plan once, and appends its visible planes to `planes`, as [`crate::reconstruct_valid`] does.
/// Then it appends to `predictions` the prediction of each sample before its residual is added, in the same order.
///
/// # Errors
///
/// `WriteFault` if a write to either failed. In that case, `predictions` was not begun unless all of `planes` was
/// written. `Memory` may be returned instead, before the first written byte.
pub fn write_with_predictions<W: Sink>(
    alloc: Global,
    plan: &Plan,
    planes: &mut W,
    predictions: &mut W,
) -> Result<(), ReconError>
    requires valid { first_fault (plan_value plan.now) ≡ None }
    ensures planes { OnOk result (Appends (W.taken planes.old) (W.taken planes.new) (planes_of (plan_value plan.now))) }
    ensures predictions { OnOk result (Appends (W.taken predictions.old) (W.taken predictions.new) (predictions_of (plan_value plan.now))) }
    ensures planes_uncounted { OnOk result (W.faults planes.new ≡ W.faults planes.old) }
    ensures predictions_uncounted { OnOk result (W.faults predictions.new ≡ W.faults predictions.old) }
    ensures failed { IfErr result (FailsInTurn W.taken W.faults (plan_value plan.now) planes.old planes.new predictions.old predictions.new) }
{
    match plan.header().depth {
        8 => write_both::<u8, W>(alloc, plan, planes, predictions),
        _ => write_both::<u16, W>(alloc, plan, planes, predictions),
    }
}

// As `write_with_predictions`, in samples of this type.
fn write_both<T: Pixel, W: Sink>(
    alloc: Global,
    plan: &Plan,
    planes: &mut W,
    predictions: &mut W,
) -> Result<(), ReconError>
    requires valid { first_fault (plan_value plan.now) ≡ None }
    requires depth { (plan_value plan.now).header.depth ≤ T.BITS }
    requires narrow { (plan_value plan.now).header.depth ≡ 8 → T.BITS ≤ 8 }
    ensures planes { OnOk result (Appends (W.taken planes.old) (W.taken planes.new) (planes_of (plan_value plan.now))) }
    ensures predictions { OnOk result (Appends (W.taken predictions.old) (W.taken predictions.new) (predictions_of (plan_value plan.now))) }
    ensures planes_uncounted { OnOk result (W.faults planes.new ≡ W.faults planes.old) }
    ensures predictions_uncounted { OnOk result (W.faults predictions.new ≡ W.faults predictions.old) }
    ensures failed { IfErr result (FailsInTurn W.taken W.faults (plan_value plan.now) planes.old planes.new predictions.old predictions.new) }
{
    let tile = reconstruct_with_predictions::<T>(alloc, plan)?;
    write_shown(plan, &tile.planes, planes)?;
    write_predicted(plan, &tile.predictions, predictions)?;
    Ok(())
}

// Appends planes that show a plan, or a prefix of their bytes.
fn write_shown<T: Pixel, W: Sink>(
    plan: &Plan,
    planes: &Planes<T>,
    sink: &mut W,
) -> Result<(), WriteFault>
    requires shows { ShowsPlan T.num (plan_value plan.now) planes.now }
    requires stores { StoresAll T.num (plan_value plan.now).header planes.now }
    requires narrow { (plan_value plan.now).header.depth ≡ 8 → T.BITS ≤ 8 }
    ensures whole { OnOk result (Appends (W.taken sink.old) (W.taken sink.new) (planes_of (plan_value plan.now))) }
    ensures prefix { AppendsPrefix (W.taken sink.old) (W.taken sink.new) (planes_of (plan_value plan.now)) }
    ensures cause { HasCause (W.faults sink.old) (W.faults sink.new) result }
{
    write_frame(plan.header(), planes, sink)
}

// Appends the predictions that are kept of a plan, or a prefix of their bytes.
fn write_predicted<T: Pixel, W: Sink>(
    plan: &Plan,
    kept: &PredictedPlanes<T>,
    sink: &mut W,
) -> Result<(), WriteFault>
    requires shows { ShowsPredictions T.num (plan_value plan.now) kept.now }
    requires narrow { (plan_value plan.now).header.depth ≡ 8 → T.BITS ≤ 8 }
    ensures whole { OnOk result (Appends (W.taken sink.old) (W.taken sink.new) (predictions_of (plan_value plan.now))) }
    ensures prefix { AppendsPrefix (W.taken sink.old) (W.taken sink.new) (predictions_of (plan_value plan.now)) }
    ensures cause { HasCause (W.faults sink.old) (W.faults sink.new) result }
{
    write_kept(plan.header().depth, kept, sink)
}

// Appends the samples that are kept of each plane, or a prefix of their bytes.
fn write_kept<T: Pixel, W: Sink>(
    depth: u8,
    kept: &PredictedPlanes<T>,
    sink: &mut W,
) -> Result<(), WriteFault>
    requires narrow { depth ≡ 8 → T.BITS ≤ 8 }
    ensures whole { OnOk result (Appends (W.taken sink.old) (W.taken sink.new) (kept_bytes depth T.num kept.now)) }
    ensures prefix { AppendsPrefix (W.taken sink.old) (W.taken sink.new) (kept_bytes depth T.num kept.now) }
    ensures cause { HasCause (W.faults sink.old) (W.faults sink.new) result }
{
    let mut buffer = [0; MOST_BYTES];
    let (y, u, v) = (kept.y.samples(), kept.u.samples(), kept.v.samples());
    write_row(depth, y, &mut buffer, sink)?;
    write_row(depth, u, &mut buffer, sink)?;
    write_row(depth, v, &mut buffer, sink)
}
