//! Copies or prepares a block that its vector moves by whole samples. Writes only the block's samples or values.
//!
//! AV1 specification: block inter prediction process.

ghost use Rattle.std.specs.Prelude.{◌≡◌, false, ◌+◌, ◌*◌, ◌^◌, ◌≤◌, ◌<◌, pos, ◌-ℤ◌, ℕ, length, map, slice_index, slice_index_or};
ghost use Rattle.av1_blocks.specs.Depths.{IsDepth};
ghost use Rattle.av1_frame.specs.Areas.{AreRows};
ghost use Rattle.av1_frame.specs.Samples.{paint, paint_row};
ghost use Rattle.av1_inter.specs.Motion.{bias, intermediate_bits};
ghost use Rattle.av1_inter.specs.Scaffolding.{IsBlock, sample_of};

use crate::rounding::{intermediate_bits, prep_bias};
use crate::strip::Strip;
use av1_frame::{Pixel, copy_row};

/// Sets the first `N` samples of the row to those of `source`.
#[inline(always)]
#[tactic(auto, using(av1_frame::proofs::Paint::row_painting))]
pub(crate) fn copy_each<E: Copy, const N: usize>(row: &mut [E], source: &[E])
    requires row_long { N ≤ length row.old }
    requires short { N ≤ 128 }
    requires source_long { N ≤ length source.now }
    ensures { row.new ≡ paint_row N (λ c v. slice_index_or source.now c v) row.old }
{
    for c in 0..N {
        row[c] = source[c];
    }
}

/// As `copy_each`, through an array of its own, so that nothing that is read can be what is written.
#[inline(always)]
fn copy_by_array<T: Pixel, const N: usize>(row: &mut [T], source: &[T])
    requires row_long { N ≤ length row.old }
    requires some { 0 < N }
    requires short { N ≤ 128 }
    requires source_long { N ≤ length source.now }
    ensures { row.new ≡ paint_row N (λ c v. slice_index_or source.now c v) row.old }
{
    let mut line = [source[0]; N];
    copy_each::<T, N>(&mut line, source);
    copy_each::<T, N>(row, &line);
}

/// As `copy_by_array`, of twice as many samples, by one array for each half.
#[inline(always)]
fn copy_by_halves<T: Pixel, const N: usize>(row: &mut [T], source: &[T])
    requires row_long { N + N ≤ length row.old }
    requires some { 0 < N }
    requires short { N ≤ 128 }
    requires source_long { N + N ≤ length source.now }
    ensures { row.new ≡ paint_row (N + N) (λ c v. slice_index_or source.now c v) row.old }
{
    let (front, back) = row.split_at_mut(N);
    let (first, second) = source.split_at(N);
    copy_by_array::<T, N>(front, first);
    copy_by_array::<T, N>(back, second);
}

/// As `copy_by_array`, of a row of a block. A loop over 64 samples would become two calls of a function that copies.
#[inline(always)]
fn copy_line<T: Pixel, const N: usize>(row: &mut [T], source: &[T])
    requires row_long { N ≤ length row.old }
    requires some { 0 < N }
    requires short { N ≤ 128 }
    requires source_long { N ≤ length source.now }
    ensures { row.new ≡ paint_row N (λ c v. slice_index_or source.now c v) row.old }
{
    if N == 64 {
        copy_by_halves::<T, 32>(row, source);
    } else {
        copy_by_array::<T, N>(row, source);
    }
}

/// Writes the samples of a block of `N` columns, whose rows are copied by a few moves.
#[tactic(auto, using(av1_frame::proofs::Paint::rectangle_painting))]
fn copy_rows<T: Pixel, const N: usize>(samples: &mut [T], stride: usize, block: &Strip<'_, T>)
    requires rows { AreRows stride block.now.area (length samples.old) }
    requires width { block.now.area.width ≡ N }
    requires some { 0 < N }
    requires block { IsBlock T.num 0 0 block.now }
    ensures { samples.new ≡ paint stride block.now.area (λ r c _. T.pixel (sample_of T.num block.now c r)) samples.old }
{
    let block = *block;
    for r in 0..block.area.height {
        let (_, row) = samples.split_at_mut((block.area.y + r) * stride + block.area.x);
        let (_, from) = block.source.split_at(r * block.source_stride);
        copy_line::<T, N>(row, from);
    }
}

/// Writes the samples of a block of any width.
#[tactic(auto, using(av1_frame::proofs::Paint::rectangle_painting))]
fn copy_any_rows<T: Pixel>(samples: &mut [T], stride: usize, block: &Strip<'_, T>)
    requires rows { AreRows stride block.now.area (length samples.old) }
    requires block { IsBlock T.num 0 0 block.now }
    ensures { samples.new ≡ paint stride block.now.area (λ r c _. T.pixel (sample_of T.num block.now c r)) samples.old }
{
    for r in 0..block.area.height {
        let (_, row) = samples.split_at_mut((block.area.y + r) * stride + block.area.x);
        let (_, from) = block.source.split_at(r * block.source_stride);
        copy_row(row, from, block.area.width);
    }
}

/// Writes the samples of a block that is not moved by part of a sample. As part of one function with the filters, its
/// loops would keep numbers in memory.
#[inline(never)]
pub(crate) fn put_copy<T: Pixel>(samples: &mut [T], stride: usize, block: &Strip<'_, T>)
    requires rows { AreRows stride block.now.area (length samples.old) }
    requires block { IsBlock T.num 0 0 block.now }
    ensures { samples.new ≡ paint stride block.now.area (λ r c _. T.pixel (sample_of T.num block.now c r)) samples.old }
{
    match block.area.width {
        4 => copy_rows::<T, 4>(samples, stride, block),
        8 => copy_rows::<T, 8>(samples, stride, block),
        16 => copy_rows::<T, 16>(samples, stride, block),
        32 => copy_rows::<T, 32>(samples, stride, block),
        64 => copy_rows::<T, 64>(samples, stride, block),
        128 => copy_rows::<T, 128>(samples, stride, block),
        _ => copy_any_rows(samples, stride, block),
    }
}

/// A sample in the intermediate bits, less the bias.
#[inline(always)]
fn widen<T: Pixel>(sample: T, bit_depth: usize) -> i16
    requires depths { IsDepth bit_depth }
    requires within { T.num sample < 2 ^ bit_depth }
    ensures { result ≡ pos (T.num sample * 2 ^ intermediate_bits bit_depth) -ℤ bias bit_depth }
{
    let bits = intermediate_bits(bit_depth);
    let value = (sample.to_i32() << bits) - i32::from(prep_bias(bit_depth));
    value as i16
}

/// Sets the first `width` entries of the row to the prepared values of the samples.
#[inline(always)]
#[tactic(auto, using(av1_frame::proofs::Paint::row_painting))]
fn widen_row<T: Pixel>(row: &mut [i16], source: &[T], width: usize, bit_depth: usize)
    requires row_long { width ≤ length row.old }
    requires source_long { width ≤ length source.now }
    requires depths { IsDepth bit_depth }
    requires within { (c : ℕ) → c < width → slice_index (map T.num source.now) c < 2 ^ bit_depth }
    ensures { row.new ≡ paint_row width (λ c _. pos (slice_index (map T.num source.now) c * 2 ^ intermediate_bits bit_depth) -ℤ bias bit_depth) row.old }
{
    for c in 0..width {
        row[c] = widen(source[c], bit_depth);
    }
}

/// As `widen_row`, through an array of its own, so that nothing that is read can be what is written.
#[inline(always)]
fn widen_by_array<T: Pixel, const N: usize>(row: &mut [i16], source: &[T], bit_depth: usize)
    requires row_long { N ≤ length row.old }
    requires short { N ≤ 128 }
    requires source_long { N ≤ length source.now }
    requires depths { IsDepth bit_depth }
    requires within { (c : ℕ) → c < N → slice_index (map T.num source.now) c < 2 ^ bit_depth }
    ensures { row.new ≡ paint_row N (λ c _. pos (slice_index (map T.num source.now) c * 2 ^ intermediate_bits bit_depth) -ℤ bias bit_depth) row.old }
{
    let mut line = [0; N];
    widen_row(&mut line, source, N, bit_depth);
    copy_each::<i16, N>(row, &line);
}

/// As `widen_row`. If `ANY` is false, `width` is `N`, and the values go through an array.
#[inline(always)]
fn widen_row_of<T: Pixel, const N: usize, const ANY: bool>(
    row: &mut [i16],
    source: &[T],
    width: usize,
    bit_depth: usize,
)
    requires row_long { width ≤ length row.old }
    requires width { ANY ≡ false → width ≡ N }
    requires short { N ≤ 128 }
    requires source_long { width ≤ length source.now }
    requires depths { IsDepth bit_depth }
    requires within { (c : ℕ) → c < width → slice_index (map T.num source.now) c < 2 ^ bit_depth }
    ensures { row.new ≡ paint_row width (λ c _. pos (slice_index (map T.num source.now) c * 2 ^ intermediate_bits bit_depth) -ℤ bias bit_depth) row.old }
{
    if ANY {
        widen_row(row, source, width, bit_depth);
    } else {
        widen_by_array::<T, N>(row, source, bit_depth);
    }
}

/// Writes the prepared values of a block. It has `N` columns unless `ANY` is true.
#[tactic(auto, using(av1_frame::proofs::Paint::rectangle_painting))]
fn widen_rows<T: Pixel, const N: usize, const ANY: bool>(
    tmp: &mut [i16],
    stride: usize,
    block: &Strip<'_, T>,
)
    requires rows { AreRows stride block.now.area (length tmp.old) }
    requires width { ANY ≡ false → block.now.area.width ≡ N }
    requires short { N ≤ 128 }
    requires block { IsBlock T.num 0 0 block.now }
    ensures { tmp.new ≡
        paint stride block.now.area
        (λ r c _. pos (sample_of T.num block.now c r * 2 ^ intermediate_bits block.now.bit_depth) -ℤ bias block.now.bit_depth) tmp.old }
{
    let block = *block;
    for r in 0..block.area.height {
        let (_, from) = block.source.split_at(r * block.source_stride);
        let (_, row) = tmp.split_at_mut((block.area.y + r) * stride + block.area.x);
        widen_row_of::<T, N, ANY>(row, from, block.area.width, block.bit_depth);
    }
}

/// Writes the prepared values of a block that is not moved by part of a sample.
#[inline(never)]
pub(crate) fn prepare_copy<T: Pixel>(tmp: &mut [i16], stride: usize, block: &Strip<'_, T>)
    requires rows { AreRows stride block.now.area (length tmp.old) }
    requires block { IsBlock T.num 0 0 block.now }
    ensures { tmp.new ≡
        paint stride block.now.area
        (λ r c _. pos (sample_of T.num block.now c r * 2 ^ intermediate_bits block.now.bit_depth) -ℤ bias block.now.bit_depth) tmp.old }
{
    match block.area.width {
        4 => widen_rows::<T, 4, false>(tmp, stride, block),
        8 => widen_rows::<T, 8, false>(tmp, stride, block),
        16 => widen_rows::<T, 16, false>(tmp, stride, block),
        32 => widen_rows::<T, 32, false>(tmp, stride, block),
        64 => widen_rows::<T, 64, false>(tmp, stride, block),
        128 => widen_rows::<T, 128, false>(tmp, stride, block),
        _ => widen_rows::<T, 0, true>(tmp, stride, block),
    }
}
