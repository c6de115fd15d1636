//! Predicts chroma from luma: adds the differences of luma in `ac` to the DC prediction. Writes only the rectangle.
//!
//! AV1 specification: predict chroma from luma process.

ghost use Rattle.std.specs.Prelude.{◌≡◌, ◌+◌, ◌*◌, ◌≤◌, length, pos, ℤ, slice_index_or, ◌≤ℤ◌, ◌<ℤ◌, ◌+ℤ◌, ◌*ℤ◌};
ghost use Rattle.std.specs.Prelude.{unsigned_abs};
ghost use Rattle.av1_frame.specs.Arithmetic.{clip};
ghost use Rattle.av1_frame.specs.Areas.{AreRows};
ghost use Rattle.av1_frame.specs.Samples.{paint, paint_row};
ghost use Rattle.av1_intra.specs.ChromaFromLuma.{scaled_luma, from_luma, ac_at};

use crate::fill::fill_block;
use crate::row_lines::write_line;
use av1_frame::{Pixel, StoredArea, clip};

/// Returns a difference of luma times its weight, in 64ths.
#[inline(always)]
fn weighted(alpha: i16, difference: i16) -> i32
    ensures value { result ≡ alpha *ℤ difference }
    ensures small { unsigned_abs result ≤ 1073741824 }
{
    i32::from(alpha) * i32::from(difference)
}

/// Returns what luma adds to the DC prediction. Its weight `alpha` and its difference from the mean are in eighths.
#[inline(always)]
fn scaled_luma(alpha: i16, difference: i16) -> i32
    ensures value { result ≡ scaled_luma alpha difference }
    ensures small { unsigned_abs result ≤ 16777216 }
{
    let product = weighted(alpha, difference);
    if product < 0 {
        (product + 31) >> 6
    } else {
        (product + 32) >> 6
    }
}

/// Returns the sample whose DC prediction is `dc`.
#[inline(always)]
fn sample_from_luma<T: Pixel>(dc: i32, alpha: i16, difference: i16, bit_depth: usize) -> T
    requires low { pos 0 ≤ℤ dc }
    requires high { dc <ℤ pos 65536 }
    requires depth { bit_depth ≤ T.BITS }
    ensures { result ≡ T.pixel (clip bit_depth (dc +ℤ scaled_luma alpha difference)) }
{
    clip(dc + scaled_luma(alpha, difference), bit_depth)
}

/// How samples are predicted from luma.
#[derive(Clone, Copy)]
pub(crate) struct LumaWeight<T> {
    /// The weight of luma, in eighths.
    pub(crate) alpha: i16,
    /// The DC prediction of each sample.
    pub(crate) dc: T,
    /// The number of bits of a sample.
    pub(crate) bit_depth: usize,
}

/// Predicts `N` samples from the differences from `start` on in `ac`, into a line.
#[inline(always)]
#[tactic(auto, using(av1_frame::proofs::Paint::row_painting))]
fn line_from_luma<T: Pixel, const N: usize>(
    line: &mut [T],
    ac: &[i16],
    start: usize,
    weight: LumaWeight<T>,
)
    requires long { N ≤ length line.old }
    requires ac_long { start + N ≤ length ac.now }
    requires depth { weight.bit_depth ≤ T.BITS }
    ensures { line.new ≡ paint_row N (λ c _. T.pixel (clip weight.bit_depth
        (pos (T.num weight.dc) +ℤ scaled_luma weight.alpha (slice_index_or ac.now (start + c) (pos 0))))) line.old }
{
    let dc = weight.dc.to_i32();
    for c in 0..N {
        line[c] = sample_from_luma(dc, weight.alpha, ac[start + c], weight.bit_depth);
    }
}

/// Predicts the first `N * groups` samples of a row, `N` at a time. Its differences begin at `start` in `ac`.
#[inline(always)]
#[tactic(auto, using(crate::proofs::Groups::group_inside))]
fn row_from_luma<T: Pixel, const N: usize>(
    row: &mut [T],
    ac: &[i16],
    start: usize,
    weight: LumaWeight<T>,
    groups: usize,
)
    requires row_long { N * groups ≤ length row.old }
    requires ac_long { start + N * groups ≤ length ac.now }
    requires short { N ≤ 64 }
    requires depth { weight.bit_depth ≤ T.BITS }
    ensures { row.new ≡ paint_row (N * groups) (λ c _. T.pixel (clip weight.bit_depth
        (pos (T.num weight.dc) +ℤ scaled_luma weight.alpha (slice_index_or ac.now (start + c) (pos 0))))) row.old }
{
    for g in 0..groups {
        let mut line = [weight.dc; N];
        line_from_luma::<T, N>(&mut line, ac, start + N * g, weight);
        write_line::<T, N>(row, N * g, &line);
    }
}

/// Predicts a rectangle, `N` columns at a time.
#[inline(always)]
#[tactic(auto, using(av1_frame::proofs::Paint::rectangle_painting))]
fn block_from_luma<T: Pixel, const N: usize>(
    samples: &mut [T],
    stride: usize,
    area: StoredArea,
    ac: &[i16],
    weight: LumaWeight<T>,
    groups: usize,
)
    requires rows { AreRows stride area (length samples.old) }
    requires groups { area.width ≡ N * groups }
    requires short { N ≤ 64 }
    requires width { area.width ≤ 128 }
    requires height { area.height ≤ 128 }
    requires ac_long { area.width * area.height ≤ length ac.now }
    requires depth { weight.bit_depth ≤ T.BITS }
    ensures { samples.new ≡ paint stride area (λ r c _. T.pixel (clip weight.bit_depth
        (pos (T.num weight.dc) +ℤ scaled_luma weight.alpha (ac_at area.width ac.now r c)))) samples.old }
{
    for r in 0..area.height {
        let (_, row) = samples.split_at_mut((area.y + r) * stride + area.x);
        row_from_luma::<T, N>(row, ac, r * area.width, weight, groups);
    }
}

/// Predicts a rectangle with a weight of luma that isn't 0.
fn weighted_from_luma<T: Pixel>(
    samples: &mut [T],
    stride: usize,
    area: StoredArea,
    ac: &[i16],
    weight: LumaWeight<T>,
)
    requires rows { AreRows stride area (length samples.old) }
    requires width { area.width ≤ 128 }
    requires height { area.height ≤ 128 }
    requires ac_long { area.width * area.height ≤ length ac.now }
    requires depth { weight.bit_depth ≤ T.BITS }
    ensures { samples.new ≡ paint stride area (λ r c _. T.pixel (clip weight.bit_depth
        (pos (T.num weight.dc) +ℤ scaled_luma weight.alpha (ac_at area.width ac.now r c)))) samples.old }
{
    match area.width {
        4 => block_from_luma::<T, 4>(samples, stride, area, ac, weight, 1),
        8 => block_from_luma::<T, 8>(samples, stride, area, ac, weight, 1),
        16 => block_from_luma::<T, 16>(samples, stride, area, ac, weight, 1),
        32 => block_from_luma::<T, 16>(samples, stride, area, ac, weight, 2),
        _ => block_from_luma::<T, 1>(samples, stride, area, ac, weight, area.width),
    }
}

/// Predicts the samples of a rectangle from luma. Each becomes the DC prediction `dc` plus its difference in `ac` at
/// the weight `alpha`, clipped to the depth. The rows of `samples` are `stride` apart.
///
/// `ac` holds the differences of luma from its mean in eighths, row by row (see `pred_cfl_ac`). `alpha` is also in
/// eighths. With a weight of 0 each sample is `dc`, and `ac` is not read.
#[inline(never)]
pub fn pred_cfl_to<T: Pixel>(
    samples: &mut [T],
    stride: usize,
    area: StoredArea,
    ac: &[i16],
    alpha: i16,
    dc: T,
    bit_depth: usize,
)
    requires rows { AreRows stride area (length samples.old) }
    requires width { area.width ≤ 128 }
    requires height { area.height ≤ 128 }
    requires ac_long { area.width * area.height ≤ length ac.now }
    requires depth { bit_depth ≤ T.BITS }
    ensures { samples.new ≡ paint stride area (λ r c _. T.pixel (from_luma bit_depth alpha (T.num dc) (ac_at area.width ac.now r c))) samples.old }
{
    if alpha == 0 {
        fill_block(samples, stride, area, dc);
    } else {
        let weight = LumaWeight {
            alpha,
            dc,
            bit_depth,
        };
        weighted_from_luma(samples, stride, area, ac, weight);
    }
}
