//! Fills and copies rows, and fills rectangles, in place. `repeated` and `zero_samples` allocate lists of one value.

ghost use Rattle.std.specs.Prelude.{◌≡◌, ◌≤◌, length, slice_index_or, IfOk, replicate, vec_len};
ghost use Rattle.av1_frame.specs.Areas.{AreRows};
ghost use Rattle.av1_frame.specs.Samples.{paint, paint_row};

use crate::pixel::Pixel;
use crate::plane_region::StoredArea;
use std::alloc::{AllocError, Global};

/// The number of values that are written at a time.
const RUN: usize = 512;

/// Sets the first `width` samples of the row to `value`.
#[inline]
#[tactic(auto, using(crate::proofs::Paint::row_painting))]
pub fn fill_row<T: Copy>(row: &mut [T], value: T, width: usize)
    requires { width ≤ length row.old }
    ensures { row.new ≡ paint_row width (λ _ _. value) row.old }
{
    for c in 0..width {
        row[c] = value;
    }
}

/// Sets each sample of the rectangle to `value`. The rows of `samples` are `stride` apart.
#[inline(always)]
#[tactic(auto, using(crate::proofs::Paint::rectangle_painting))]
pub fn fill_area<T: Copy>(samples: &mut [T], stride: usize, area: StoredArea, value: T)
    requires rows { AreRows stride area (length samples.old) }
    ensures { samples.new ≡ paint stride area (λ _ _ _. value) samples.old }
{
    for r in 0..area.height {
        let (_, row) = samples.split_at_mut((area.y + r) * stride + area.x);
        fill_row(row, value, area.width);
    }
}

/// Sets the first `width` samples of the row to those of `source`.
#[inline]
pub fn copy_row<T: Pixel>(row: &mut [T], source: &[T], width: usize)
    requires row_long { width ≤ length row.old }
    requires source_long { width ≤ length source.now }
    ensures { row.new ≡ paint_row width (λ c v. slice_index_or source.now c v) row.old }
{
    row[..width].copy_from_slice(&source[..width]);
}

/// Allocates a list of `count` times `value`: once, and then fills it piece by piece.
pub fn repeated<T: Copy>(alloc: Global, value: T, count: usize) -> Result<Vec<T>, AllocError>
    ensures items { IfOk result (λ values. values.items ≡ replicate count value) }
    ensures len { IfOk result (λ values. vec_len values ≡ count) }
{
    let mut values = Vec::with_capacity(alloc, count)?;
    for run in 0..count / RUN {
        values.resize((run + 1) * RUN, value)?;
    }
    values.resize(count, value)?;
    Ok(values)
}

/// Allocates a list of `count` zero samples.
pub fn zero_samples<T: Pixel>(alloc: Global, count: usize) -> Result<Vec<T>, AllocError>
    ensures zeros { IfOk result (λ samples. samples.items ≡ replicate count (T.pixel 0)) }
    ensures len { IfOk result (λ samples. vec_len samples ≡ count) }
{
    repeated(alloc, T::from_u32(0), count)
}
