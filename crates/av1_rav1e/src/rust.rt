//! The predictors of one kind each, under rav1e's names: each reads sides, and writes a block of a region.
//! In rav1e, the module `rust` has the plain functions, and other modules have functions for single processors.
//!
//! Each predicts the samples of the first `height` rows and `width` columns of its region `output`. All others are
//! unchanged. `above` runs from the left: its first sample is above the first column. `left` runs from the bottom up:
//! its sample at `height - 1` is next to the first row, and the sample before it next to the second. Other samples are
//! not read. Depths are in bits. An argument whose name begins with `_` is not read.
#![tactic(auto, using(av1_frame::proofs::Regions::region_lending))]

ghost use Rattle.std.specs.Prelude.{◌≡◌, ◌+◌, ◌<◌, ◌≤◌, ◌++◌, length, map, take, reverse, if◌then◌else◌, nat_lt, IsTrue};
ghost use Rattle.av1_lists.specs.Sides.{IsTransformSide};
ghost use Rattle.av1_frame.specs.Regions.{InStorage, painted};
ghost use Rattle.av1_edges.specs.Sides.{base};
ghost use Rattle.av1_intra.specs.Angles.{is_interpolated};
ghost use Rattle.av1_intra.specs.Dc.{mean};
ghost use Rattle.av1_intra.specs.Directional.{directional};
ghost use Rattle.av1_intra.specs.Paeth.{paeth};
ghost use Rattle.av1_rav1e.specs.Blocks.{AreBeside, HoldsBlock, block_at};
ghost use Rattle.av1_intra.specs.Sides.{numbers, from_top};
ghost use Rattle.av1_intra.specs.Smooth.{smooth, smooth_v, smooth_h};

mod from_luma;

pub use crate::predict::dispatch_predict_intra;
use crate::region_block::block_in;
use av1_frame::{Pixel, PlaneRegionMut};
use av1_intra::{
    IntraEdgeFilterParameters, fill_block, half_sample, mean_of, pred_directional_to, pred_h_to,
    pred_paeth_to, pred_smooth_h_to, pred_smooth_to, pred_smooth_v_to, pred_v_to, side_mean,
};
pub use av1_intra::{
    dr_intra_derivative, filter_edge, pred_cfl_ac, select_ief_strength, select_ief_upsample,
    upsample_edge,
};
pub use from_luma::{pred_cfl, pred_cfl_128, pred_cfl_inner, pred_cfl_left, pred_cfl_top};

/// Each row becomes the samples of `above`.
pub fn pred_v<T: Pixel>(
    output: &mut PlaneRegionMut<'_, T>,
    above: &[T],
    width: usize,
    height: usize,
)
    requires block { HoldsBlock output.old width height }
    requires above_long { width ≤ length above.now }
    ensures painted { output.new ≡ painted output.old width height (λ _ c _. T.pixel (numbers T.num above.now c)) }
    ensures fits { InStorage output.new }
{
    let stride = output.plane_cfg.stride;
    let area = output.corner(width, height);
    pred_v_to(output.rows_mut(), stride, area, above);
}

/// Each row becomes its sample of `left`, repeated.
pub fn pred_h<T: Pixel>(output: &mut PlaneRegionMut<'_, T>, left: &[T], width: usize, height: usize)
    requires block { HoldsBlock output.old width height }
    requires left_long { height ≤ length left.now }
    ensures painted { output.new ≡ painted output.old width height (λ r _ _. T.pixel (from_top T.num height left.now r)) }
    ensures fits { InStorage output.new }
{
    let stride = output.plane_cfg.stride;
    let area = output.corner(width, height);
    pred_h_to(output.rows_mut(), stride, area, left);
}

/// Each sample becomes the sample above its column, the left sample of its row or the corner `above_left`: whichever is
/// nearest to the first two less the third.
pub fn pred_paeth<T: Pixel>(
    output: &mut PlaneRegionMut<'_, T>,
    above: &[T],
    left: &[T],
    above_left: T,
    width: usize,
    height: usize,
)
    requires block { HoldsBlock output.old width height }
    requires sides { AreBeside width height above.now left.now }
    ensures painted { output.new ≡ painted output.old width height
        (λ r c _. T.pixel (paeth (numbers T.num above.now c) (from_top T.num height left.now r) (T.num above_left))) }
    ensures fits { InStorage output.new }
{
    let stride = output.plane_cfg.stride;
    let area = output.corner(width, height);
    pred_paeth_to(output.rows_mut(), stride, area, above, left, above_left);
}

/// Each sample becomes the mean of the results of `pred_smooth_v` and `pred_smooth_h`, rounded once.
pub fn pred_smooth<T: Pixel>(
    output: &mut PlaneRegionMut<'_, T>,
    above: &[T],
    left: &[T],
    width: usize,
    height: usize,
)
    requires block { HoldsBlock output.old width height }
    requires width { IsTransformSide width }
    requires height { IsTransformSide height }
    requires sides { AreBeside width height above.now left.now }
    ensures painted { output.new ≡ painted output.old width height
        (λ r c _. T.pixel (smooth width height (numbers T.num above.now) (from_top T.num height left.now) r c)) }
    ensures fits { InStorage output.new }
{
    let stride = output.plane_cfg.stride;
    let area = output.corner(width, height);
    pred_smooth_to(output.rows_mut(), stride, area, above, left);
}

/// Each sample becomes a weighted mean of the left sample of its row and the last one above, whose weight grows to the
/// right.
pub fn pred_smooth_h<T: Pixel>(
    output: &mut PlaneRegionMut<'_, T>,
    above: &[T],
    left: &[T],
    width: usize,
    height: usize,
)
    requires block { HoldsBlock output.old width height }
    requires width { IsTransformSide width }
    requires sides { AreBeside width height above.now left.now }
    ensures painted { output.new ≡ painted output.old width height
        (λ r c _. T.pixel (smooth_h width (numbers T.num above.now) (from_top T.num height left.now) r c)) }
    ensures fits { InStorage output.new }
{
    let stride = output.plane_cfg.stride;
    let area = output.corner(width, height);
    pred_smooth_h_to(output.rows_mut(), stride, area, above, left);
}

/// Each sample becomes a weighted mean of the sample above its column and the lowest one on the left, whose weight
/// grows downward.
pub fn pred_smooth_v<T: Pixel>(
    output: &mut PlaneRegionMut<'_, T>,
    above: &[T],
    left: &[T],
    width: usize,
    height: usize,
)
    requires block { HoldsBlock output.old width height }
    requires height { IsTransformSide height }
    requires sides { AreBeside width height above.now left.now }
    ensures painted { output.new ≡ painted output.old width height
        (λ r c _. T.pixel (smooth_v height (numbers T.num above.now) (from_top T.num height left.now) r c)) }
    ensures fits { InStorage output.new }
{
    let stride = output.plane_cfg.stride;
    let area = output.corner(width, height);
    pred_smooth_v_to(output.rows_mut(), stride, area, above, left);
}

/// Predicts each sample along the angle `p_angle`, in degrees. It is an angle that a directional mode and an angle step
/// from -3 to 3 give, except 90 and 180, which copy a side, or an angle that `dr_intra_derivative` knows.
///
/// A sample is taken from the point where its line meets a side: below 90 degrees the side `above`, past 180 the side
/// `left`, and between them the side that it meets first. The line meets the side between two samples. The prediction
/// is interpolated between these two, in 32nds, and clipped to the depth.
///
/// Below 90 degrees `above` has `height` more samples. The last sample of `left` is next to the first row, and past 180
/// degrees `left` has `width` more samples before those next to the block. `top_left` is the corner. A side that the
/// angle doesn't meet is not read.
///
/// With `ief_params` the sides are first smoothed and upsampled, as the angle, the block's dimensions and the
/// neighbours require. Next to the block, only samples in the plane's visible columns and rows are smoothed.
///
/// AV1 specification: directional intra prediction process.
pub fn pred_directional<T: Pixel>(
    output: &mut PlaneRegionMut<'_, T>,
    above: &[T],
    left: &[T],
    top_left: &[T],
    p_angle: usize,
    width: usize,
    height: usize,
    bit_depth: usize,
    ief_params: Option<IntraEdgeFilterParameters>,
)
    requires block { HoldsBlock output.old width height }
    requires width { width ≤ 64 }
    requires height { height ≤ 64 }
    requires angle { IsTrue (is_interpolated p_angle) }
    requires above_long { p_angle < 180 → width + (if nat_lt p_angle 90 then height else 0) ≤ length above.now }
    requires left_long { 90 < p_angle → height + (if nat_lt 180 p_angle then width else 0) ≤ length left.now }
    requires corner { 0 < length top_left.now }
    requires depth { bit_depth ≤ T.BITS }
    ensures painted { output.new ≡ painted output.old width height
        (λ i j _.
        T.pixel (directional (block_at output.old p_angle width height bit_depth ief_params) (numbers T.num top_left.now 0) (map T.num above.now)
        (reverse (map T.num left.now)) i j)) }
    ensures fits { InStorage output.new }
{
    let block = block_in(output, p_angle, width, height, bit_depth, ief_params);
    let stride = output.plane_cfg.stride;
    let area = output.corner(width, height);
    let corner = top_left[0];
    pred_directional_to(output.rows_mut(), stride, area, above, left, corner, block);
}

/// Each sample becomes `value`.
fn fill_rows<T: Pixel>(output: &mut PlaneRegionMut<'_, T>, value: T, width: usize, height: usize)
    requires block { HoldsBlock output.old width height }
    ensures painted { output.new ≡ painted output.old width height (λ _ _ _. value) }
    ensures fits { InStorage output.new }
{
    let stride = output.plane_cfg.stride;
    let area = output.corner(width, height);
    fill_block(output.rows_mut(), stride, area, value);
}

/// Each sample becomes the rounded mean of the samples next to the block on both sides.
pub fn pred_dc<T: Pixel>(
    output: &mut PlaneRegionMut<'_, T>,
    above: &[T],
    left: &[T],
    width: usize,
    height: usize,
    _bit_depth: usize,
)
    requires block { HoldsBlock output.old width height }
    requires some { 0 < width + height }
    requires width { width ≤ 64 }
    requires height { height ≤ 64 }
    requires sides { AreBeside width height above.now left.now }
    ensures painted { output.new ≡ painted output.old width height
        (λ _ _ _. T.pixel (mean (map T.num (take height left.now) ++ map T.num (take width above.now)))) }
    ensures fits { InStorage output.new }
{
    fill_rows(
        output,
        mean_of(&left[..height], &above[..width]),
        width,
        height,
    );
}

/// Each sample becomes half of the range of samples of `bit_depth`.
pub fn pred_dc_128<T: Pixel>(
    output: &mut PlaneRegionMut<'_, T>,
    _above: &[T],
    _left: &[T],
    width: usize,
    height: usize,
    bit_depth: usize,
)
    requires block { HoldsBlock output.old width height }
    requires low { 8 ≤ bit_depth }
    requires high { bit_depth ≤ T.BITS }
    ensures painted { output.new ≡ painted output.old width height (λ _ _ _. T.pixel (base bit_depth)) }
    ensures fits { InStorage output.new }
{
    fill_rows(output, half_sample(bit_depth), width, height);
}

/// Each sample becomes the rounded mean of the `height` samples of `left`.
pub fn pred_dc_left<T: Pixel>(
    output: &mut PlaneRegionMut<'_, T>,
    _above: &[T],
    left: &[T],
    width: usize,
    height: usize,
    _bit_depth: usize,
)
    requires block { HoldsBlock output.old width height }
    requires some { 0 < height }
    requires height { height ≤ 64 }
    requires left_whole { length left.now ≡ height }
    ensures painted { output.new ≡ painted output.old width height (λ _ _ _. T.pixel (mean (map T.num left.now))) }
    ensures fits { InStorage output.new }
{
    fill_rows(output, side_mean(left), width, height);
}

/// Each sample becomes the mean of the samples of `above` over the block, rounded.
pub fn pred_dc_top<T: Pixel>(
    output: &mut PlaneRegionMut<'_, T>,
    above: &[T],
    _left: &[T],
    width: usize,
    height: usize,
    _bit_depth: usize,
)
    requires block { HoldsBlock output.old width height }
    requires some { 0 < width }
    requires width { width ≤ 64 }
    requires above_long { width ≤ length above.now }
    ensures painted { output.new ≡ painted output.old width height (λ _ _ _. T.pixel (mean (map T.num (take width above.now)))) }
    ensures fits { InStorage output.new }
{
    fill_rows(output, side_mean(&above[..width]), width, height);
}
