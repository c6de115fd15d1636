//! Predicts straight down or across: copies one side over the rectangle of a slice, and writes nothing else.
//!
//! AV1 specification: directional intra prediction process, for the angles 90 and 180.

ghost use Rattle.std.specs.Prelude.{◌≡◌, ◌<◌, ◌≤◌, length};
ghost use Rattle.av1_frame.specs.Areas.{AreRows};
ghost use Rattle.av1_frame.specs.Samples.{paint, paint_row};
ghost use Rattle.av1_intra.specs.Sides.{numbers, from_top};

use crate::samples::number_at;
use av1_frame::{Pixel, StoredArea, copy_row, fill_row};

/// Predicts the samples of a rectangle: each row becomes the samples of `above`, which runs from the left. The rows of
/// `samples` are `stride` apart. Samples of `above` past the rectangle's width are not read.
#[inline(always)]
pub fn pred_v_to<T: Pixel>(samples: &mut [T], stride: usize, area: StoredArea, above: &[T])
    requires rows { AreRows stride area (length samples.old) }
    requires above_long { area.width ≤ length above.now }
    ensures { samples.new ≡ paint stride area (λ _ c _. T.pixel (numbers T.num above.now c)) samples.old }
{
    if area.width == 4 {
        copy_down(samples, stride, area, above, 4);
    } else if area.width == 8 {
        copy_down(samples, stride, area, above, 8);
    } else {
        copy_down_wide(samples, stride, area, above);
    }
}

/// As `pred_v_to`, for rectangles of more columns.
#[inline(never)]
fn copy_down_wide<T: Pixel>(samples: &mut [T], stride: usize, area: StoredArea, above: &[T])
    requires rows { AreRows stride area (length samples.old) }
    requires above_long { area.width ≤ length above.now }
    ensures { samples.new ≡ paint stride area (λ _ c _. T.pixel (numbers T.num above.now c)) samples.old }
{
    match area.width {
        16 => copy_down(samples, stride, area, above, 16),
        32 => copy_down(samples, stride, area, above, 32),
        64 => copy_down(samples, stride, area, above, 64),
        _ => copy_down(samples, stride, area, above, area.width),
    }
}

/// As `pred_v_to`, inlined, so that the compiler knows the width of the rows that it copies.
#[inline(always)]
#[tactic(auto, using(av1_frame::proofs::Paint::rectangle_painting))]
fn copy_down<T: Pixel>(
    samples: &mut [T],
    stride: usize,
    area: StoredArea,
    above: &[T],
    width: usize,
)
    requires rows { AreRows stride area (length samples.old) }
    requires width { area.width ≡ width }
    requires above_long { width ≤ length above.now }
    ensures { samples.new ≡ paint stride area (λ _ c _. T.pixel (numbers T.num above.now c)) samples.old }
{
    for r in 0..area.height {
        let (_, row) = samples.split_at_mut((area.y + r) * stride + area.x);
        copy_row(row, above, width);
    }
}

/// Predicts the samples of a rectangle: each row becomes its sample of `left`, repeated. The rows of `samples` are
/// `stride` apart.
///
/// `left` runs from the bottom up: of as many samples as the rectangle has rows, the last is next to the first row.
/// Other samples are not read.
#[inline(always)]
pub fn pred_h_to<T: Pixel>(samples: &mut [T], stride: usize, area: StoredArea, left: &[T])
    requires rows { AreRows stride area (length samples.old) }
    requires left_long { area.height ≤ length left.now }
    ensures { samples.new ≡ paint stride area (λ r _ _. T.pixel (from_top T.num area.height left.now r)) samples.old }
{
    if area.width == 4 {
        copy_across(samples, stride, area, left, 4);
    } else if area.width == 8 {
        copy_across(samples, stride, area, left, 8);
    } else {
        copy_across_wide(samples, stride, area, left);
    }
}

/// As `pred_h_to`, for rectangles of more columns.
#[inline(never)]
fn copy_across_wide<T: Pixel>(samples: &mut [T], stride: usize, area: StoredArea, left: &[T])
    requires rows { AreRows stride area (length samples.old) }
    requires left_long { area.height ≤ length left.now }
    ensures { samples.new ≡ paint stride area (λ r _ _. T.pixel (from_top T.num area.height left.now r)) samples.old }
{
    match area.width {
        16 => copy_across(samples, stride, area, left, 16),
        32 => copy_across(samples, stride, area, left, 32),
        64 => copy_across(samples, stride, area, left, 64),
        _ => copy_across(samples, stride, area, left, area.width),
    }
}

/// Fills the first `width` samples of a row with sample `k` of `left`.
#[inline(always)]
fn copy_along<T: Pixel>(row: &mut [T], left: &[T], k: usize, width: usize)
    requires row_long { width ≤ length row.old }
    requires left_long { k < length left.now }
    ensures { row.new ≡ paint_row width (λ _ _. T.pixel (numbers T.num left.now k)) row.old }
{
    let sample = T::from_u32(number_at(left, k));
    fill_row(row, sample, width);
}

/// As `pred_h_to`, inlined, so that the compiler knows the width of the rows that it fills.
#[inline(always)]
#[tactic(auto, using(av1_frame::proofs::Paint::rectangle_painting))]
fn copy_across<T: Pixel>(
    samples: &mut [T],
    stride: usize,
    area: StoredArea,
    left: &[T],
    width: usize,
)
    requires rows { AreRows stride area (length samples.old) }
    requires width { area.width ≡ width }
    requires left_long { area.height ≤ length left.now }
    ensures { samples.new ≡ paint stride area (λ r _ _. T.pixel (from_top T.num area.height left.now r)) samples.old }
{
    for r in 0..area.height {
        let (_, row) = samples.split_at_mut((area.y + r) * stride + area.x);
        copy_along(row, left, area.height - 1 - r, width);
    }
}
