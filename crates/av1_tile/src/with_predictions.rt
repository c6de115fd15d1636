//! Reconstructs a plan, and returns its planes and the prediction of each visible sample. Allocates them.

ghost use Rattle.std.specs.Prelude.{◌≡◌, ◌≤◌, IfOk, None};
ghost use Rattle.av1_plan.specs.Values.{plan_value};
ghost use Rattle.av1_plan.specs.Validity.{first_fault};
ghost use Rattle.av1_tile.specs.Memory.{ShowsPlan};
ghost use Rattle.av1_tile.specs.Predicted.{AreBlank, ShowsPredictions};
ghost use Rattle.av1_tile.specs.Walk.{StoresAll};

use crate::buffers::WalkBuffers;
use crate::cells::CodedCells;
use crate::planes::Planes;
use crate::predicted::PredictedPlanes;
use crate::references::TileReferences;
use crate::slots::frame_invariants;
use crate::tile::reconstruct_leaves;
use av1_blocks::OutOfMemory;
use av1_frame::Pixel;
use av1_plan::Plan;
use std::alloc::Global;

/// The planes of a plan, and the predictions of their visible samples.
#[derive(Drop)]
pub struct PredictedTile<T> {
    /// The planes.
    pub planes: Planes<T>,
    /// The prediction of each block, before its residual was added.
    pub predictions: PredictedPlanes<T>,
}

/// Allocates the buffers of a walk that keeps its predictions.
fn keeping_buffers<T: Pixel>(alloc: Global, plan: &Plan) -> Result<WalkBuffers<T>, OutOfMemory>
    ensures { IfOk result (λ buffers. AreBlank T.pixel (plan_value plan.now).header buffers.kept) }
{
    let mut buffers = WalkBuffers::new(alloc)?;
    buffers.kept = PredictedPlanes::new(alloc, plan.header())?;
    Ok(buffers)
}

/// Reconstructs a plan as [`crate::reconstruct_tile`] does, in buffers of its own, and keeps the prediction of each
/// visible sample. The only error is running out of memory.
pub fn reconstruct_with_predictions<T: Pixel>(
    alloc: Global,
    plan: &Plan,
) -> Result<PredictedTile<T>, OutOfMemory>
    requires valid { first_fault (plan_value plan.now) ≡ None }
    requires depth { (plan_value plan.now).header.depth ≤ T.BITS }
    ensures planes { IfOk result (λ tile. ShowsPlan T.num (plan_value plan.now) tile.planes) }
    ensures stores { IfOk result (λ tile. StoresAll T.num (plan_value plan.now).header tile.planes) }
    ensures predictions { IfOk result (λ tile. ShowsPredictions T.num (plan_value plan.now) tile.predictions) }
{
    let header = plan.header();
    let fi = frame_invariants(alloc, plan)?;
    let mut planes = Planes::new(alloc, header, 0)?;
    let mut cells = CodedCells::new(alloc, header)?;
    let mut buffers = keeping_buffers(alloc, plan)?;
    let leaves = plan.leaves_with_triples();
    let from = TileReferences::whole(&fi, header);
    reconstruct_leaves(&mut planes, &mut cells, &mut buffers, &from, header, leaves);
    let WalkBuffers { kept, .. } = buffers;
    Ok(PredictedTile {
        planes,
        predictions: kept,
    })
}
