//! The predictors of chroma from luma, under rav1e's names: each reads `ac`, and writes a block of a region.
//!
//! `ac` holds the differences of luma from its mean row by row, `width` a row (see `pred_cfl_ac`), and `alpha` their
//! weight; both are in eighths.
#![tactic(auto, using(av1_frame::proofs::Regions::region_lending))]

ghost use Rattle.std.specs.Prelude.{◌≡◌, ◌+◌, ◌*◌, ◌<◌, ◌≤◌, ◌++◌, length, map, take, if◌then◌else◌, pos};
ghost use Rattle.std.specs.Ordering.{int_eq};
ghost use Rattle.av1_frame.specs.Regions.{InStorage, painted};
ghost use Rattle.av1_edges.specs.Sides.{base};
ghost use Rattle.av1_rav1e.specs.Blocks.{AreBeside, HoldsBlock, first_sample};
ghost use Rattle.av1_intra.specs.ChromaFromLuma.{ac_at, from_luma};
ghost use Rattle.av1_intra.specs.Dc.{mean};

use av1_frame::{Pixel, PlaneRegionMut};
use av1_intra::{half_sample, mean_of, pred_cfl_to, side_mean};

/// Each sample becomes `dc` plus its difference in `ac` at the weight `alpha`, clipped to the depth. If the weight is
/// 0, it becomes `dc`.
fn flat_from_luma<T: Pixel>(
    output: &mut PlaneRegionMut<'_, T>,
    ac: &[i16],
    alpha: i16,
    dc: T,
    width: usize,
    height: usize,
    bit_depth: usize,
)
    requires block { HoldsBlock output.old width height }
    requires width { width ≤ 128 }
    requires height { height ≤ 128 }
    requires ac_long { width * height ≤ length ac.now }
    requires depth { bit_depth ≤ T.BITS }
    ensures painted { output.new ≡ painted output.old width height
        (λ r c _. T.pixel (from_luma bit_depth alpha (T.num dc) (ac_at width ac.now r c))) }
    ensures fits { InStorage output.new }
{
    let stride = output.plane_cfg.stride;
    let area = output.corner(width, height);
    pred_cfl_to(output.rows_mut(), stride, area, ac, alpha, dc, bit_depth);
}

/// Each sample becomes the first sample of `output` plus its difference in `ac`, clipped to the depth. If the weight is
/// 0, nothing changes.
pub fn pred_cfl_inner<T: Pixel>(
    output: &mut PlaneRegionMut<'_, T>,
    ac: &[i16],
    alpha: i16,
    width: usize,
    height: usize,
    bit_depth: usize,
)
    requires block { HoldsBlock output.old width height }
    requires some_columns { 0 < width }
    requires some_rows { 0 < height }
    requires width { width ≤ 128 }
    requires height { height ≤ 128 }
    requires ac_long { width * height ≤ length ac.now }
    requires depth { bit_depth ≤ T.BITS }
    ensures painted { output.new ≡ painted output.old width height
        (λ r c v. T.pixel (if int_eq alpha (pos 0) then T.num v else from_luma bit_depth alpha (first_sample T.num output.old) (ac_at width ac.now r c))) }
    ensures fits { InStorage output.new }
{
    if alpha == 0 {
        return;
    }
    let dc = output.row(0)[0];
    flat_from_luma(output, ac, alpha, dc, width, height, bit_depth);
}

/// Each sample becomes the result of `pred_dc` plus its difference in `ac`, clipped to the depth.
pub fn pred_cfl<T: Pixel>(
    output: &mut PlaneRegionMut<'_, T>,
    ac: &[i16],
    alpha: i16,
    above: &[T],
    left: &[T],
    width: usize,
    height: usize,
    bit_depth: usize,
)
    requires block { HoldsBlock output.old width height }
    requires some { 0 < width + height }
    requires width { width ≤ 64 }
    requires height { height ≤ 64 }
    requires sides { AreBeside width height above.now left.now }
    requires ac_long { width * height ≤ length ac.now }
    requires depth { bit_depth ≤ T.BITS }
    ensures painted { output.new ≡ painted output.old width height
        (λ r c _. T.pixel (from_luma bit_depth alpha (mean (map T.num (take height left.now) ++ map T.num (take width above.now))) (ac_at width ac.now r c))) }
    ensures fits { InStorage output.new }
{
    let dc = mean_of(&left[..height], &above[..width]);
    flat_from_luma(output, ac, alpha, dc, width, height, bit_depth);
}

/// Each sample becomes the result of `pred_dc_128` plus its difference in `ac`, clipped to the depth.
pub fn pred_cfl_128<T: Pixel>(
    output: &mut PlaneRegionMut<'_, T>,
    ac: &[i16],
    alpha: i16,
    _above: &[T],
    _left: &[T],
    width: usize,
    height: usize,
    bit_depth: usize,
)
    requires block { HoldsBlock output.old width height }
    requires width { width ≤ 64 }
    requires height { height ≤ 64 }
    requires ac_long { width * height ≤ length ac.now }
    requires low { 8 ≤ bit_depth }
    requires high { bit_depth ≤ T.BITS }
    ensures painted { output.new ≡ painted output.old width height
        (λ r c _. T.pixel (from_luma bit_depth alpha (base bit_depth) (ac_at width ac.now r c))) }
    ensures fits { InStorage output.new }
{
    let dc = half_sample(bit_depth);
    flat_from_luma(output, ac, alpha, dc, width, height, bit_depth);
}

/// Each sample becomes the result of `pred_dc_left` plus its difference in `ac`, clipped to the depth.
pub fn pred_cfl_left<T: Pixel>(
    output: &mut PlaneRegionMut<'_, T>,
    ac: &[i16],
    alpha: i16,
    _above: &[T],
    left: &[T],
    width: usize,
    height: usize,
    bit_depth: usize,
)
    requires block { HoldsBlock output.old width height }
    requires some { 0 < height }
    requires width { width ≤ 64 }
    requires height { height ≤ 64 }
    requires left_whole { length left.now ≡ height }
    requires ac_long { width * height ≤ length ac.now }
    requires depth { bit_depth ≤ T.BITS }
    ensures painted { output.new ≡ painted output.old width height
        (λ r c _. T.pixel (from_luma bit_depth alpha (mean (map T.num left.now)) (ac_at width ac.now r c))) }
    ensures fits { InStorage output.new }
{
    let dc = side_mean(left);
    flat_from_luma(output, ac, alpha, dc, width, height, bit_depth);
}

/// Each sample becomes the result of `pred_dc_top` plus its difference in `ac`, clipped to the depth.
pub fn pred_cfl_top<T: Pixel>(
    output: &mut PlaneRegionMut<'_, T>,
    ac: &[i16],
    alpha: i16,
    above: &[T],
    _left: &[T],
    width: usize,
    height: usize,
    bit_depth: usize,
)
    requires block { HoldsBlock output.old width height }
    requires some { 0 < width }
    requires width { width ≤ 64 }
    requires height { height ≤ 64 }
    requires above_long { width ≤ length above.now }
    requires ac_long { width * height ≤ length ac.now }
    requires depth { bit_depth ≤ T.BITS }
    ensures painted { output.new ≡ painted output.old width height
        (λ r c _. T.pixel (from_luma bit_depth alpha (mean (map T.num (take width above.now))) (ac_at width ac.now r c))) }
    ensures fits { InStorage output.new }
{
    let dc = side_mean(&above[..width]);
    flat_from_luma(output, ac, alpha, dc, width, height, bit_depth);
}
