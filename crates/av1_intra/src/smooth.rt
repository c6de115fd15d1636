//! Smooth prediction: each sample becomes a weighted mean of samples on the sides. Writes only the rectangle.
//!
//! AV1 specification: smooth intra prediction process.

ghost use Rattle.std.specs.Prelude.{◌≡◌, ℕ, ◌+◌, ◌-◌, ◌*◌, ◌/◌, ◌^◌, ◌<◌, ◌≤◌, length, slice_index};
ghost use Rattle.av1_lists.specs.Sides.{IsTransformSide};
ghost use Rattle.av1_frame.specs.Areas.{AreRows};
ghost use Rattle.av1_frame.specs.Samples.{paint, paint_row};
ghost use Rattle.av1_intra.specs.Sides.{numbers, from_top};
ghost use Rattle.av1_intra.specs.Smooth.{weights, mix, smooth, smooth_v, smooth_h};
ghost use Rattle.av1_intra.specs.Scaffolding.{AreNumbers, smoothed};

use crate::row_lines::write_line;
use crate::samples::number_at;
use av1_frame::{Pixel, StoredArea};

const WEIGHTS_4: [u8; 4] = [255, 149, 85, 64];

const WEIGHTS_8: [u8; 8] = [255, 197, 146, 105, 73, 50, 37, 32];

const WEIGHTS_16: [u8; 16] = [
    255, 225, 196, 170, 145, 123, 102, 84, 68, 54, 43, 33, 26, 20, 17, 16,
];

const WEIGHTS_32: [u8; 32] = [
    255, 240, 225, 210, 196, 182, 169, 157, 145, 133, 122, 111, 101, 92, 83, 74, 66, 59, 52, 45,
    39, 34, 29, 25, 21, 17, 14, 12, 10, 9, 8, 8,
];

const WEIGHTS_64: [u8; 64] = [
    255, 248, 240, 233, 225, 218, 210, 203, 196, 189, 182, 176, 169, 163, 156, 150, 144, 138, 133,
    127, 121, 116, 111, 106, 101, 96, 91, 86, 82, 77, 73, 69, 65, 61, 57, 54, 50, 47, 44, 41, 38,
    35, 32, 29, 27, 25, 22, 20, 18, 16, 15, 13, 12, 10, 9, 8, 7, 6, 6, 5, 5, 4, 4, 4,
];

/// Returns the weights of the samples of a side of `n`, in 256ths, from the first sample on.
#[tactic(auto, using(std::proofs::lemmas::Bool::Decides::nat_tests), unfolding(crate::specs::Smooth::weights))]
fn smooth_weights(n: usize) -> &'static [u8]
    requires { IsTransformSide n }
    ensures value { result.now ≡ weights n }
    ensures len { length result.now ≡ n }
{
    match n {
        4 => &WEIGHTS_4,
        8 => &WEIGHTS_8,
        16 => &WEIGHTS_16,
        32 => &WEIGHTS_32,
        _ => &WEIGHTS_64,
    }
}

/// Returns 256 times the mean of `a`, at a weight of `weight` 256ths, and `b`.
#[tactic(auto, using(crate::proofs::Mixes::mix_within))]
fn mixed(weight: u8, a: u32, b: u32) -> u32
    requires a { a < 2 ^ 16 }
    requires b { b < 2 ^ 16 }
    ensures value { result ≡ mix weight a b }
    ensures few { result < 2 ^ 24 }
    ensures within { (top : ℕ) → a < top → b < top → result + 256 ≤ 256 * top }
{
    let weight = u32::from(weight);
    weight * a + (256 - weight) * b
}

/// As `mixed`, for samples of one byte: the result fits 16 bits.
#[inline(always)]
#[tactic(auto, using(crate::proofs::Mixes::mix_within))]
fn mixed_bytes(weight: u8, a: u16, b: u16) -> u16
    requires a { a < 2 ^ 8 }
    requires b { b < 2 ^ 8 }
    ensures value { result ≡ mix weight a b }
    ensures few { result ≤ 65280 }
{
    let weight = u16::from(weight);
    weight * a + (256 - weight) * b
}

/// Returns the rounded mean of `a`, at a weight of `weight` 256ths, and `b`.
#[inline(always)]
fn mean_of_two<T: Pixel>(weight: u8, a: u32, b: u32) -> T
    requires a { a < 2 ^ T.BITS }
    requires b { b < 2 ^ T.BITS }
    ensures { result ≡ T.pixel ((mix weight a b + 128) / 256) }
{
    if T::BITS == 8 {
        let sum = mixed_bytes(weight, a as u16, b as u16);
        T::from_u32(u32::from((sum + 128) / 256))
    } else {
        T::from_u32((mixed(weight, a, b) + 128) / 256)
    }
}

/// Returns the mean of two such means, one down and one across, rounded once.
#[inline(always)]
fn mean_of_four<T: Pixel>(down: u8, above: u32, bottom: u32, across: u8, side: u32, right: u32) -> T
    requires above { above < 2 ^ T.BITS }
    requires bottom { bottom < 2 ^ T.BITS }
    requires side { side < 2 ^ T.BITS }
    requires right { right < 2 ^ T.BITS }
    ensures { result ≡ T.pixel ((mix down above bottom + mix across side right + 256) / 512) }
{
    if T::BITS == 8 {
        let first = mixed_bytes(down, above as u16, bottom as u16) + 255;
        let second = mixed_bytes(across, side as u16, right as u16);
        // Half of the sum, rounded up, in 16 bits.
        let most = first.max(second);
        let mean = most - (most - first.min(second)) / 2;
        T::from_u32(u32::from(mean / 256))
    } else {
        let sum = mixed(down, above, bottom) + mixed(across, side, right);
        T::from_u32((sum + 256) / 512)
    }
}

/// Predicts `N` samples of a row, from column `start` on, into a line.
#[inline(always)]
#[tactic(auto, using(av1_frame::proofs::Paint::row_painting))]
fn smooth_v_line<T: Pixel, const N: usize>(
    line: &mut [T],
    above: &[T],
    start: usize,
    weight: u8,
    bottom: u32,
)
    requires long { N ≤ length line.old }
    requires above_long { start + N ≤ length above.now }
    requires bottom { bottom < 2 ^ T.BITS }
    ensures { line.new ≡ paint_row N (λ c _. T.pixel ((mix weight (numbers T.num above.now (start + c)) bottom + 128) / 256)) line.old }
{
    for c in 0..N {
        line[c] = mean_of_two(weight, number_at(above, start + c), bottom);
    }
}

/// As `smooth_v_line`, from the weights of the columns.
#[inline(always)]
#[tactic(auto, using(av1_frame::proofs::Paint::row_painting))]
fn smooth_h_line<T: Pixel, const N: usize>(
    line: &mut [T],
    weights: &[u8],
    start: usize,
    side: u32,
    right: u32,
)
    requires long { N ≤ length line.old }
    requires weights { start + N ≤ length weights.now }
    requires side { side < 2 ^ T.BITS }
    requires right { right < 2 ^ T.BITS }
    ensures { line.new ≡ paint_row N (λ c _. T.pixel ((mix (slice_index weights.now (start + c)) side right + 128) / 256)) line.old }
{
    for c in 0..N {
        line[c] = mean_of_two(weights[start + c], side, right);
    }
}

/// The numbers that the samples of a row have in common.
#[derive(Clone, Copy)]
pub(crate) struct SmoothRow {
    /// The weight of the samples above, in 256ths.
    pub(crate) weight: u8,
    /// The sample to the left of the row.
    pub(crate) side: u32,
    /// The lowest sample on the left.
    pub(crate) bottom: u32,
    /// The last sample above.
    pub(crate) right: u32,
}

/// As `smooth_v_line`, from both sides.
#[inline(always)]
#[tactic(auto, using(av1_frame::proofs::Paint::row_painting))]
fn smooth_line<T: Pixel, const N: usize>(
    line: &mut [T],
    above: &[T],
    weights: &[u8],
    start: usize,
    row: SmoothRow,
)
    requires long { N ≤ length line.old }
    requires above_long { start + N ≤ length above.now }
    requires weights { start + N ≤ length weights.now }
    requires numbers { AreNumbers (2 ^ T.BITS) row }
    ensures { line.new ≡ paint_row N (λ c _. T.pixel (smoothed row (numbers T.num above.now (start + c)) (slice_index weights.now (start + c)))) line.old }
{
    for c in 0..N {
        line[c] = mean_of_four(
            row.weight,
            number_at(above, start + c),
            row.bottom,
            weights[start + c],
            row.side,
            row.right,
        );
    }
}

/// Predicts the first `N * groups` samples of a row, `N` at a time.
#[inline(always)]
#[tactic(auto, using(crate::proofs::Groups::group_inside))]
fn smooth_v_row<T: Pixel, const N: usize>(
    row: &mut [T],
    above: &[T],
    groups: usize,
    weight: u8,
    bottom: u32,
)
    requires row_long { N * groups ≤ length row.old }
    requires above_long { N * groups ≤ length above.now }
    requires short { N ≤ 64 }
    requires bottom { bottom < 2 ^ T.BITS }
    ensures { row.new ≡ paint_row (N * groups) (λ c _. T.pixel ((mix weight (numbers T.num above.now c) bottom + 128) / 256)) row.old }
{
    for g in 0..groups {
        let mut line = [T::from_u32(0); N];
        smooth_v_line::<T, N>(&mut line, above, N * g, weight, bottom);
        write_line::<T, N>(row, N * g, &line);
    }
}

/// Predicts the first `N * groups` samples of a row, `N` at a time.
#[inline(always)]
#[tactic(auto, using(crate::proofs::Groups::group_inside))]
fn smooth_h_row<T: Pixel, const N: usize>(
    row: &mut [T],
    weights: &[u8],
    groups: usize,
    side: u32,
    right: u32,
)
    requires row_long { N * groups ≤ length row.old }
    requires weights { N * groups ≤ length weights.now }
    requires short { N ≤ 64 }
    requires side { side < 2 ^ T.BITS }
    requires right { right < 2 ^ T.BITS }
    ensures { row.new ≡ paint_row (N * groups) (λ c _. T.pixel ((mix (slice_index weights.now c) side right + 128) / 256)) row.old }
{
    for g in 0..groups {
        let mut line = [T::from_u32(0); N];
        smooth_h_line::<T, N>(&mut line, weights, N * g, side, right);
        write_line::<T, N>(row, N * g, &line);
    }
}

/// Predicts the first `N * groups` samples of a row, `N` at a time.
#[inline(always)]
#[tactic(auto, using(crate::proofs::Groups::group_inside))]
fn smooth_row<T: Pixel, const N: usize>(
    row: &mut [T],
    above: &[T],
    weights: &[u8],
    groups: usize,
    common: SmoothRow,
)
    requires row_long { N * groups ≤ length row.old }
    requires above_long { N * groups ≤ length above.now }
    requires weights { N * groups ≤ length weights.now }
    requires short { N ≤ 64 }
    requires numbers { AreNumbers (2 ^ T.BITS) common }
    ensures { row.new ≡ paint_row (N * groups) (λ c _. T.pixel (smoothed common (numbers T.num above.now c) (slice_index weights.now c))) row.old }
{
    for g in 0..groups {
        let mut line = [T::from_u32(0); N];
        smooth_line::<T, N>(&mut line, above, weights, N * g, common);
        write_line::<T, N>(row, N * g, &line);
    }
}

/// As `pred_smooth_to`, `N` columns at a time.
#[inline(always)]
#[tactic(auto, using(av1_frame::proofs::Paint::rectangle_painting))]
fn smooth_rows<T: Pixel, const N: usize>(
    samples: &mut [T],
    stride: usize,
    area: StoredArea,
    above: &[T],
    left: &[T],
    groups: usize,
)
    requires rows { AreRows stride area (length samples.old) }
    requires groups { area.width ≡ N * groups }
    requires short { N ≤ 64 }
    requires width { IsTransformSide area.width }
    requires height { IsTransformSide area.height }
    requires above_long { area.width ≤ length above.now }
    requires left_long { area.height ≤ length left.now }
    ensures { samples.new ≡
        paint stride area (λ r c _. T.pixel (smooth area.width area.height (numbers T.num above.now) (from_top T.num area.height left.now) r c)) samples.old }
{
    let row_weights = smooth_weights(area.height);
    let column_weights = smooth_weights(area.width);
    let bottom = number_at(left, 0);
    let right = number_at(above, area.width - 1);
    for r in 0..area.height {
        let side = number_at(left, area.height - 1 - r);
        let common = SmoothRow {
            weight: row_weights[r],
            side,
            bottom,
            right,
        };
        let (_, row) = samples.split_at_mut((area.y + r) * stride + area.x);
        smooth_row::<T, N>(row, above, column_weights, groups, common);
    }
}

/// As `pred_smooth_h_to`, `N` columns at a time.
#[inline(always)]
#[tactic(auto, using(av1_frame::proofs::Paint::rectangle_painting))]
fn smooth_h_rows<T: Pixel, const N: usize>(
    samples: &mut [T],
    stride: usize,
    area: StoredArea,
    above: &[T],
    left: &[T],
    groups: usize,
)
    requires rows { AreRows stride area (length samples.old) }
    requires groups { area.width ≡ N * groups }
    requires short { N ≤ 64 }
    requires width { IsTransformSide area.width }
    requires above_long { area.width ≤ length above.now }
    requires left_long { area.height ≤ length left.now }
    ensures { samples.new ≡ paint stride area (λ r c _. T.pixel (smooth_h area.width (numbers T.num above.now) (from_top T.num area.height left.now) r c))
        samples.old }
{
    let weights = smooth_weights(area.width);
    let right = number_at(above, area.width - 1);
    for r in 0..area.height {
        let side = number_at(left, area.height - 1 - r);
        let (_, row) = samples.split_at_mut((area.y + r) * stride + area.x);
        smooth_h_row::<T, N>(row, weights, groups, side, right);
    }
}

/// As `pred_smooth_v_to`, `N` columns at a time.
#[inline(always)]
#[tactic(auto, using(av1_frame::proofs::Paint::rectangle_painting))]
fn smooth_v_rows<T: Pixel, const N: usize>(
    samples: &mut [T],
    stride: usize,
    area: StoredArea,
    above: &[T],
    left: &[T],
    groups: usize,
)
    requires rows { AreRows stride area (length samples.old) }
    requires groups { area.width ≡ N * groups }
    requires short { N ≤ 64 }
    requires height { IsTransformSide area.height }
    requires above_long { area.width ≤ length above.now }
    requires left_long { area.height ≤ length left.now }
    ensures { samples.new ≡ paint stride area (λ r c _. T.pixel (smooth_v area.height (numbers T.num above.now) (from_top T.num area.height left.now) r c))
        samples.old }
{
    let weights = smooth_weights(area.height);
    let bottom = number_at(left, 0);
    for r in 0..area.height {
        let (_, row) = samples.split_at_mut((area.y + r) * stride + area.x);
        smooth_v_row::<T, N>(row, above, groups, weights[r], bottom);
    }
}

/// Predicts the samples of a rectangle. Each becomes the mean of the results of `pred_smooth_v_to` and
/// `pred_smooth_h_to`, rounded once. The rows of `samples` are `stride` apart.
///
/// `above` runs from the left. `left` runs from the bottom up: its first sample is next to the lowest row. Samples past
/// the rectangle's columns and rows are not read.
pub fn pred_smooth_to<T: Pixel>(
    samples: &mut [T],
    stride: usize,
    area: StoredArea,
    above: &[T],
    left: &[T],
)
    requires rows { AreRows stride area (length samples.old) }
    requires width { IsTransformSide area.width }
    requires height { IsTransformSide area.height }
    requires above_long { area.width ≤ length above.now }
    requires left_long { area.height ≤ length left.now }
    ensures { samples.new ≡
        paint stride area (λ r c _. T.pixel (smooth area.width area.height (numbers T.num above.now) (from_top T.num area.height left.now) r c)) samples.old }
{
    match area.width {
        4 => smooth_rows::<T, 4>(samples, stride, area, above, left, 1),
        8 => smooth_rows::<T, 8>(samples, stride, area, above, left, 1),
        16 => smooth_rows::<T, 16>(samples, stride, area, above, left, 1),
        32 => smooth_rows::<T, 32>(samples, stride, area, above, left, 1),
        _ => smooth_rows::<T, 32>(samples, stride, area, above, left, 2),
    }
}

/// Predicts the samples of a rectangle. Each becomes a weighted mean of the sample of `left` in its row and the last
/// sample of `above`, whose weight grows to the right. The rows of `samples` are `stride` apart.
///
/// `above` runs from the left. `left` runs from the bottom up: its first sample is next to the lowest row. Samples past
/// the rectangle's columns and rows are not read.
pub fn pred_smooth_h_to<T: Pixel>(
    samples: &mut [T],
    stride: usize,
    area: StoredArea,
    above: &[T],
    left: &[T],
)
    requires rows { AreRows stride area (length samples.old) }
    requires width { IsTransformSide area.width }
    requires above_long { area.width ≤ length above.now }
    requires left_long { area.height ≤ length left.now }
    ensures { samples.new ≡ paint stride area (λ r c _. T.pixel (smooth_h area.width (numbers T.num above.now) (from_top T.num area.height left.now) r c))
        samples.old }
{
    match area.width {
        4 => smooth_h_rows::<T, 4>(samples, stride, area, above, left, 1),
        8 => smooth_h_rows::<T, 8>(samples, stride, area, above, left, 1),
        16 => smooth_h_rows::<T, 16>(samples, stride, area, above, left, 1),
        32 => smooth_h_rows::<T, 32>(samples, stride, area, above, left, 1),
        _ => smooth_h_rows::<T, 32>(samples, stride, area, above, left, 2),
    }
}

/// Predicts the samples of a rectangle. Each becomes a weighted mean of the sample of `above` in its column and the
/// lowest sample on the left, whose weight grows downward. The rows of `samples` are `stride` apart.
///
/// `above` runs from the left. `left` runs from the bottom up: its first sample is next to the lowest row. Samples past
/// the rectangle's columns and rows are not read.
pub fn pred_smooth_v_to<T: Pixel>(
    samples: &mut [T],
    stride: usize,
    area: StoredArea,
    above: &[T],
    left: &[T],
)
    requires rows { AreRows stride area (length samples.old) }
    requires height { IsTransformSide area.height }
    requires above_long { area.width ≤ length above.now }
    requires left_long { area.height ≤ length left.now }
    ensures { samples.new ≡ paint stride area (λ r c _. T.pixel (smooth_v area.height (numbers T.num above.now) (from_top T.num area.height left.now) r c))
        samples.old }
{
    match area.width {
        4 => smooth_v_rows::<T, 4>(samples, stride, area, above, left, 1),
        8 => smooth_v_rows::<T, 8>(samples, stride, area, above, left, 1),
        16 => smooth_v_rows::<T, 16>(samples, stride, area, above, left, 1),
        32 => smooth_v_rows::<T, 32>(samples, stride, area, above, left, 1),
        64 => smooth_v_rows::<T, 32>(samples, stride, area, above, left, 2),
        _ => smooth_v_rows::<T, 1>(samples, stride, area, above, left, area.width),
    }
}
