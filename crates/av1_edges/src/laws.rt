//! Theorems about edges. Each function does nothing: its contract is the theorem.

ghost use Rattle.std.specs.Prelude.{ℕ, ◌^◌, ◌<◌, ◌≤◌, Bool, Option};
ghost use Rattle.av1_blocks.specs.declared.predict.PredictionMode.{PredictionMode};
ghost use Rattle.av1_blocks.specs.declared.predict.IntraParam.{IntraParam};
ghost use Rattle.av1_frame.specs.declared.plane_region.PlaneRegion.{PlaneRegion};
ghost use Rattle.av1_edges.specs.declared.position.TransformPosition.{TransformPosition};
ghost use Rattle.av1_edges.specs.Edges.{region_sample, visible_columns, visible_rows, prepared_edge};
ghost use Rattle.av1_edges.specs.Within.{EdgeIsWithin};

use av1_frame::Pixel;

/// If the visible samples of a region lie within the depth, so does the edge of a transform in its visible part, for
/// every mode.
pub fn prepared_edges_lie_within<T: Pixel>()
    ensures { (r : PlaneRegion T) (at : TransformPosition) (depth : ℕ) (mode : Option PredictionMode) (filter : Bool) (param : IntraParam) → 8 ≤ depth
        → at.x < visible_columns r → at.y < visible_rows r
        → ((x y : ℕ) → x < visible_columns r → y < visible_rows r → region_sample T.num r x y < 2 ^ depth)
        → EdgeIsWithin depth (prepared_edge T.num r at depth mode filter param) }
{}
