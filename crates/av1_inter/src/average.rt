//! Averages two prepared blocks: reads their values, and writes the samples of a rectangle.
//!
//! Sums that 16 bits don't hold are cut to 16 bits: their samples are the greatest or the least in any case.
//!
//! AV1 specification: block inter prediction process, and the average of its two predictions.

ghost use Rattle.std.specs.Prelude.{◌≡◌, false, ◌+◌, ◌*◌, ◌^◌, ◌≤◌, ◌<◌, pos, ◌+ℤ◌, ◌*ℤ◌, length};
ghost use Rattle.std.specs.Int.{saturate_signed, w16};
ghost use Rattle.av1_frame.specs.Areas.{AreRows};
ghost use Rattle.av1_frame.specs.Samples.{paint, paint_row};
ghost use Rattle.av1_frame.specs.Regions.{InStorage, painted};
ghost use Rattle.av1_inter.specs.Motion.{averaged, bias, entry, intermediate_bits};
ghost use Rattle.av1_inter.specs.Scaffolding.{Between};
ghost use Rattle.av1_blocks.specs.Depths.{IsDepth};

use crate::copies::copy_each;
use crate::rounding::{greatest, intermediate_bits};
use crate::writer::depth_of;
use av1_frame::{Pixel, PlaneRegionMut, StoredArea};

/// The sum of two numbers, or the nearest number of 16 bits.
#[inline(always)]
fn held_sum(first: i16, second: i16) -> i16
    ensures { result ≡ saturate_signed w16 (first +ℤ second) }
{
    (i32::from(first) + i32::from(second))
        .max(-32768)
        .min(32767) as i16
}

/// The number that is added to the sum of two prepared values: both biases, and half of the divisor.
#[inline(always)]
fn rise(bit_depth: usize) -> i16
    requires { IsDepth bit_depth }
    ensures value { result ≡ pos (2 ^ intermediate_bits bit_depth) +ℤ pos 2 *ℤ bias bit_depth }
    ensures small { Between 0 16400 result }
{
    if bit_depth == 8 {
        16
    } else if bit_depth == 12 {
        16388
    } else {
        16400
    }
}

/// The sum of a number and the result of `rise`, or the greatest number of 16 bits.
#[inline(always)]
fn raised<T: Pixel>(number: i16, rise: i16) -> i16
    requires { Between 0 16400 rise }
    ensures { result ≡ saturate_signed w16 (number +ℤ rise) }
{
    if T::BITS == 8 {
        // The compiler knows the rise: this is one instruction.
        held_sum(number, rise)
    } else {
        // The number is cut before the sum, so the sum never leaves 16 bits.
        number.min(32767 - rise) + rise
    }
}

/// The number of the sample that is the average of two prepared values. For one-byte samples the compiler knows every
/// number except the shift. If it knew the shift, it would compute the limits more slowly.
#[inline(always)]
fn average_number<T: Pixel>(first: i16, second: i16, bit_depth: usize) -> i16
    requires depths { IsDepth bit_depth }
    requires depth { bit_depth ≤ T.BITS }
    ensures { result ≡ pos (averaged bit_depth first second) }
{
    let known = depth_of::<T>(bit_depth);
    let sum = raised::<T>(held_sum(first, second), rise(known));
    (sum >> (intermediate_bits(bit_depth) + 1))
        .max(0)
        .min(greatest(known))
}

/// The sample that is the average of two prepared values.
#[inline(always)]
fn average_of<T: Pixel>(first: i16, second: i16, bit_depth: usize) -> T
    requires depths { IsDepth bit_depth }
    requires depth { bit_depth ≤ T.BITS }
    ensures { result ≡ T.pixel (averaged bit_depth first second) }
{
    T::from_u32(average_number::<T>(first, second, bit_depth) as u32)
}

/// Sets the first `width` samples of the row to the averages of the values from `start` on.
#[inline(always)]
#[tactic(auto, using(av1_frame::proofs::Paint::row_painting))]
fn average_row<T: Pixel>(
    row: &mut [T],
    tmp1: &[i16],
    tmp2: &[i16],
    start: usize,
    width: usize,
    bit_depth: usize,
)
    requires row_long { width ≤ length row.old }
    requires first_long { start + width ≤ length tmp1.now }
    requires second_long { start + width ≤ length tmp2.now }
    requires depths { IsDepth bit_depth }
    requires depth { bit_depth ≤ T.BITS }
    ensures { row.new ≡ paint_row width (λ c _. T.pixel (averaged bit_depth (entry tmp1.now (start + c)) (entry tmp2.now (start + c)))) row.old }
{
    for c in 0..width {
        row[c] = average_of(tmp1[start + c], tmp2[start + c], bit_depth);
    }
}

/// As `average_row`, through an array of its own, so that nothing that is read can be what is written.
#[inline(always)]
fn average_by_array<T: Pixel, const N: usize>(
    row: &mut [T],
    tmp1: &[i16],
    tmp2: &[i16],
    start: usize,
    bit_depth: usize,
)
    requires row_long { N ≤ length row.old }
    requires short { N ≤ 128 }
    requires first_long { start + N ≤ length tmp1.now }
    requires second_long { start + N ≤ length tmp2.now }
    requires depths { IsDepth bit_depth }
    requires depth { bit_depth ≤ T.BITS }
    ensures { row.new ≡ paint_row N (λ c _. T.pixel (averaged bit_depth (entry tmp1.now (start + c)) (entry tmp2.now (start + c)))) row.old }
{
    let mut line = [T::from_u32(0); N];
    average_row(&mut line, tmp1, tmp2, start, N, bit_depth);
    copy_each::<T, N>(row, &line);
}

/// Sets the first `width` samples of the row to the averages of the values from `start` on. If `ANY` is false, `width`
/// is `N`, and the averages go through an array.
#[inline(always)]
fn average_row_of<T: Pixel, const N: usize, const ANY: bool>(
    row: &mut [T],
    tmp1: &[i16],
    tmp2: &[i16],
    start: usize,
    width: usize,
    bit_depth: usize,
)
    requires row_long { width ≤ length row.old }
    requires width { ANY ≡ false → width ≡ N }
    requires short { N ≤ 128 }
    requires first_long { start + width ≤ length tmp1.now }
    requires second_long { start + width ≤ length tmp2.now }
    requires depths { IsDepth bit_depth }
    requires depth { bit_depth ≤ T.BITS }
    ensures { row.new ≡ paint_row width (λ c _. T.pixel (averaged bit_depth (entry tmp1.now (start + c)) (entry tmp2.now (start + c)))) row.old }
{
    if ANY {
        average_row(row, tmp1, tmp2, start, width, bit_depth);
    } else {
        average_by_array::<T, N>(row, tmp1, tmp2, start, bit_depth);
    }
}

/// Sets the samples of a rectangle to the averages of the values, which are stored row by row. The rectangle has `N`
/// columns unless `ANY` is true.
#[inline(never)]
#[tactic(auto, using(av1_frame::proofs::Paint::rectangle_painting, av1_frame::proofs::Fits::row_end_le))]
fn average_rows<T: Pixel, const N: usize, const ANY: bool>(
    samples: &mut [T],
    stride: usize,
    area: StoredArea,
    tmp1: &[i16],
    tmp2: &[i16],
    bit_depth: usize,
)
    requires rows { AreRows stride area (length samples.old) }
    requires width { ANY ≡ false → area.width ≡ N }
    requires short { N ≤ 128 }
    requires first_long { area.height * area.width ≤ length tmp1.now }
    requires second_long { area.height * area.width ≤ length tmp2.now }
    requires depths { IsDepth bit_depth }
    requires depth { bit_depth ≤ T.BITS }
    ensures { samples.new ≡
        paint stride area (λ r c _. T.pixel (averaged bit_depth (entry tmp1.now (r * area.width + c)) (entry tmp2.now (r * area.width + c)))) samples.old }
{
    let width = area.width;
    for r in 0..area.height {
        let (_, row) = samples.split_at_mut((area.y + r) * stride + area.x);
        average_row_of::<T, N, ANY>(row, tmp1, tmp2, r * width, width, bit_depth);
    }
}

/// Sets each sample of a rectangle to the average of its two prepared values, which are stored row by row in `tmp1` and
/// `tmp2`. The rows of `samples` are `stride` apart.
pub fn mc_avg_to<T: Pixel>(
    samples: &mut [T],
    stride: usize,
    area: StoredArea,
    tmp1: &[i16],
    tmp2: &[i16],
    bit_depth: usize,
)
    requires rows { AreRows stride area (length samples.old) }
    requires first_long { area.height * area.width ≤ length tmp1.now }
    requires second_long { area.height * area.width ≤ length tmp2.now }
    requires depths { IsDepth bit_depth }
    requires depth { bit_depth ≤ T.BITS }
    ensures { samples.new ≡
        paint stride area (λ r c _. T.pixel (averaged bit_depth (entry tmp1.now (r * area.width + c)) (entry tmp2.now (r * area.width + c)))) samples.old }
{
    if area.width == 4 {
        average_rows::<T, 4, false>(samples, stride, area, tmp1, tmp2, bit_depth);
    } else if area.width == 8 {
        average_rows::<T, 8, false>(samples, stride, area, tmp1, tmp2, bit_depth);
    } else if area.width == 16 {
        average_rows::<T, 16, false>(samples, stride, area, tmp1, tmp2, bit_depth);
    } else if area.width == 32 {
        average_rows::<T, 32, false>(samples, stride, area, tmp1, tmp2, bit_depth);
    } else if area.width == 64 {
        average_rows::<T, 64, false>(samples, stride, area, tmp1, tmp2, bit_depth);
    } else if area.width == 128 {
        average_rows::<T, 128, false>(samples, stride, area, tmp1, tmp2, bit_depth);
    } else {
        average_rows::<T, 0, true>(samples, stride, area, tmp1, tmp2, bit_depth);
    }
}

/// Sets each sample of the first `height` rows and `width` columns of `dst` to the average of its two prepared values,
/// which are stored row by row in `tmp1` and `tmp2`.
#[tactic(auto, using(av1_frame::proofs::Regions::region_lending))]
pub fn mc_avg<T: Pixel>(
    dst: &mut PlaneRegionMut<'_, T>,
    tmp1: &[i16],
    tmp2: &[i16],
    width: usize,
    height: usize,
    bit_depth: usize,
)
    requires fits { InStorage dst.old }
    requires columns { width ≤ dst.old.area.width }
    requires rows { height ≤ dst.old.area.height }
    requires first_long { height * width ≤ length tmp1.now }
    requires second_long { height * width ≤ length tmp2.now }
    requires depths { IsDepth bit_depth }
    requires depth { bit_depth ≤ T.BITS }
    ensures painted { dst.new ≡
        painted dst.old width height (λ r c _. T.pixel (averaged bit_depth (entry tmp1.now (r * width + c)) (entry tmp2.now (r * width + c)))) }
    ensures fits { InStorage dst.new }
{
    let stride = dst.plane_cfg.stride;
    let area = dst.corner(width, height);
    mc_avg_to(dst.rows_mut(), stride, area, tmp1, tmp2, bit_depth);
}
