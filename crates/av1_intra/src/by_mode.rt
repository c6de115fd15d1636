//! Predicts a rectangle of a slice by an intra mode: reads the sides round it, and writes only the rectangle.
//!
//! AV1 specification: intra prediction process.

ghost use Rattle.std.specs.Prelude.{◌≡◌, ◌≢◌, ◌-◌, ◌*◌, ◌<◌, ◌≤◌, length, min, drop, IsTrue};
ghost use Rattle.av1_lists.specs.Sides.{IsTransformSide};
ghost use Rattle.av1_blocks.specs.Modes.{is_intra, is_directional, is_cfl};
ghost use Rattle.av1_frame.specs.Areas.{AreRows};
ghost use Rattle.av1_frame.specs.Samples.{paint};
ghost use Rattle.av1_intra.specs.Angles.{is_interpolated};
ghost use Rattle.av1_intra.specs.ChromaFromLuma.{ac_at};
ghost use Rattle.av1_intra.specs.Blocks.{IsRectangle};
ghost use Rattle.av1_intra.specs.Predicted.{edge_round, dc, smoothly, along, predicted, dc_above, dc_left, along_above, along_left, places_above, places_left};

use crate::chroma_from_luma::pred_cfl_to;
use crate::dc::{half_sample, mean_of, side_mean};
use crate::directional::{DirectionalBlock, pred_directional_to};
use crate::fill::fill_block;
use crate::paeth::pred_paeth_to;
use crate::smooth::{pred_smooth_h_to, pred_smooth_to, pred_smooth_v_to};
use crate::straight::{pred_h_to, pred_v_to};
use crate::variant::PredictionVariant;
use av1_blocks::PredictionMode;
use av1_frame::{Pixel, StoredArea};

/// Returns the samples of a left side next to a block of `height` rows: the last ones.
#[inline(always)]
fn beside<T: Pixel>(left: &[T], height: usize) -> &[T]
    ensures last { result.now ≡ drop (length left.now - height) left.now }
    ensures len { length result.now ≡ min height (length left.now) }
{
    &left[left.len().saturating_sub(height)..]
}

/// Returns the sample of DC prediction, from the sides that lie in the tile.
#[inline(always)]
fn dc_sample<T: Pixel>(
    variant: PredictionVariant,
    above: &[T],
    left: &[T],
    block: DirectionalBlock,
) -> T
    requires some_columns { 0 < block.width }
    requires some_rows { 0 < block.height }
    requires width { block.width ≤ 64 }
    requires height { block.height ≤ 64 }
    requires above_long { dc_above variant block.width ≤ length above.now }
    requires left_long { dc_left variant block.height ≤ length left.now }
    requires low { 8 ≤ block.bit_depth }
    requires high { block.bit_depth ≤ T.BITS }
    ensures { result ≡ T.pixel (dc variant block.bit_depth block.width block.height (edge_round T.num left.now 0 above.now)) }
{
    match variant {
        PredictionVariant::NONE => half_sample(block.bit_depth),
        PredictionVariant::LEFT => side_mean(beside(left, block.height)),
        PredictionVariant::TOP => side_mean(&above[..block.width]),
        PredictionVariant::BOTH => { mean_of(beside(left, block.height), &above[..block.width]) }
    }
}

/// Predicts a rectangle along an angle: 90 and 180 degrees copy a side.
#[inline(always)]
fn predict_along<T: Pixel>(
    samples: &mut [T],
    stride: usize,
    area: StoredArea,
    above: &[T],
    left: &[T],
    corner: T,
    block: DirectionalBlock,
)
    requires block { IsRectangle block stride area (length samples.old) }
    requires angle { block.p_angle ≢ 90 → block.p_angle ≢ 180 → IsTrue (is_interpolated block.p_angle) }
    requires above_long { along_above block.p_angle block.width block.height ≤ length above.now }
    requires left_long { along_left block.p_angle block.width block.height ≤ length left.now }
    requires depth { block.bit_depth ≤ T.BITS }
    ensures { samples.new ≡ paint stride area (λ r c _. T.pixel (along block (edge_round T.num left.now (T.num corner) above.now) r c)) samples.old }
{
    if block.p_angle == 90 {
        pred_v_to(samples, stride, area, above);
    } else if block.p_angle == 180 {
        pred_h_to(samples, stride, area, beside(left, block.height));
    } else {
        pred_directional_to(samples, stride, area, above, left, corner, block);
    }
}

/// Predicts a rectangle by one of the smooth modes, or by Paeth prediction.
#[inline(never)]
fn predict_smooth<T: Pixel>(
    mode: PredictionMode,
    samples: &mut [T],
    stride: usize,
    area: StoredArea,
    above: &[T],
    left: &[T],
    corner: T,
)
    requires rows { AreRows stride area (length samples.old) }
    requires width { IsTransformSide area.width }
    requires height { IsTransformSide area.height }
    requires above_long { area.width ≤ length above.now }
    requires left_long { area.height ≤ length left.now }
    ensures { samples.new ≡ paint stride area (λ r c _. T.pixel (smoothly mode area.width area.height (edge_round T.num left.now (T.num corner) above.now) r c))
        samples.old }
{
    let left = beside(left, area.height);
    match mode {
        PredictionMode::SMOOTH_PRED => pred_smooth_to(samples, stride, area, above, left),
        PredictionMode::SMOOTH_V_PRED => pred_smooth_v_to(samples, stride, area, above, left),
        PredictionMode::SMOOTH_H_PRED => pred_smooth_h_to(samples, stride, area, above, left),
        _ => pred_paeth_to(samples, stride, area, above, left, corner),
    }
}

/// Predicts the samples of a rectangle by an intra mode, from the sides round it. The rows of `samples` are `stride`
/// apart. Samples outside the rectangle are unchanged.
///
/// `area` is the rectangle in `samples`. `block` has the same width and height, those of a transform. Only directional
/// modes read its angle, in degrees. `smooth_filter` is `None` if the edge filter is off, and else says whether a
/// neighbour has a smooth mode. Next to the block, the filter smooths only samples in its visible columns and rows.
///
/// `variant` says which sides lie in the tile, for the modes that take a mean. `UV_CFL_PRED` adds to the mean the
/// differences of luma in `ac`, row by row, at the weight `alpha`; both are in eighths.
///
/// `left` runs from the bottom up, and its last sample is next to the first row. `above` runs from the left, and
/// `corner` is between both. A mode reads `places_left` and `places_above` samples of the sides: the ones nearest to
/// the corner.
///
/// AV1 specification: intra prediction process.
#[inline(always)]
pub fn dispatch_predict_intra_to<T: Pixel>(
    mode: PredictionMode,
    variant: PredictionVariant,
    samples: &mut [T],
    stride: usize,
    area: StoredArea,
    block: DirectionalBlock,
    left: &[T],
    corner: T,
    above: &[T],
    ac: &[i16],
    alpha: i16,
)
    requires intra { IsTrue (is_intra mode) }
    requires rows { AreRows stride area (length samples.old) }
    requires columns { area.width ≡ block.width }
    requires lines { area.height ≡ block.height }
    requires width { IsTransformSide block.width }
    requires height { IsTransformSide block.height }
    requires angle { IsTrue (is_directional mode) → block.p_angle ≢ 90 → block.p_angle ≢ 180 → IsTrue (is_interpolated block.p_angle) }
    requires above_long { places_above mode variant block.p_angle block.width block.height ≤ length above.now }
    requires left_long { places_left mode variant block.p_angle block.width block.height ≤ length left.now }
    requires ac_long { IsTrue (is_cfl mode) → block.width * block.height ≤ length ac.now }
    requires low { 8 ≤ block.bit_depth }
    requires high { block.bit_depth ≤ T.BITS }
    ensures { samples.new ≡ paint stride area
        (λ r c _. T.pixel (predicted block variant mode alpha (ac_at block.width ac.now) (edge_round T.num left.now (T.num corner) above.now) r c))
        samples.old }
{
    match mode {
        PredictionMode::DC_PRED => {
            let dc = dc_sample(variant, above, left, block);
            fill_block(samples, stride, area, dc);
        }
        PredictionMode::UV_CFL_PRED => {
            let dc = dc_sample(variant, above, left, block);
            pred_cfl_to(samples, stride, area, ac, alpha, dc, block.bit_depth);
        }
        PredictionMode::SMOOTH_PRED
        | PredictionMode::SMOOTH_V_PRED
        | PredictionMode::SMOOTH_H_PRED
        | PredictionMode::PAETH_PRED => {
            predict_smooth(mode, samples, stride, area, above, left, corner);
        }
        _ => predict_along(samples, stride, area, above, left, corner, block),
    }
}
