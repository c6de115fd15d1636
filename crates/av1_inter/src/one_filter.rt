//! Filters a block in one direction, along its rows or down its columns. Writes only the block's samples or values.
//!
//! Both are one loop. The eight samples of a sum are 1 apart along a row, and one row's distance apart down a column.
//!
//! AV1 specification: block inter prediction process.

ghost use Rattle.std.specs.Prelude.{◌≡◌, true, ℕ, ◌+◌, ◌*◌, ◌≤◌, ◌<◌, pos, length, map, slice_index, List};
ghost use Rattle.av1_blocks.specs.Depths.{IsDepth};
ghost use Rattle.av1_frame.specs.Areas.{AreRows};
ghost use Rattle.av1_frame.specs.Samples.{corner, paint, paint_row};
ghost use Rattle.av1_inter.specs.Motion.{entry};
ghost use Rattle.av1_inter.specs.Scaffolding.{AreZero, doubled, filtered, IsAlone, IsFilter, IsLaid, IsRounding, IsStripWidth, settled, sum_from};

use crate::bytes::filter_bytes;
use crate::filter::outer_zeros;
use crate::strip::{Strip, Taps, part_at, strip_width};
use crate::words::{filter_four, filter_words};
use crate::writer::Writer;
use av1_frame::Pixel;

/// The values of the filter for `N` columns from a position on. Bytes are filtered in 16 bits if they fill a vector.
#[inline(always)]
fn filter_line<T: Pixel, const N: usize, const ZEROS: usize>(
    source: &[T],
    start: usize,
    taps: &Taps,
) -> [i16; N]
    requires filter { IsFilter (doubled taps.now.halves) }
    requires few { ZEROS ≤ 2 }
    requires zeros { AreZero ZEROS taps.now.halves }
    requires rounding { IsRounding taps.now.rounding }
    requires kind { IsStripWidth N }
    requires short { N ≤ 128 }
    requires reach { start + N + 7 * taps.now.step ≤ length source.now }
    requires small { (c t : ℕ) → c < N → t < 8 → slice_index (map T.num source.now) (start + c + t * taps.now.step) < 32768 }
    ensures { (c : ℕ) → c < N →
        entry result c ≡ settled taps.now.rounding (sum_from taps.now.halves (λ i. pos (slice_index (map T.num source.now) i)) (start + c) taps.now.step) }
{
    if T::BITS == 8 && N >= 8 {
        filter_bytes::<T, N, ZEROS>(source, start, taps.step, &taps.halves, taps.rounding)
    } else if T::BITS == 8 && N == 4 && ZEROS == 2 && taps.step == 1 {
        filter_four::<T, N, ZEROS>(source, start, taps.step, &taps.halves, taps.rounding)
    } else {
        filter_words::<T, N, ZEROS>(source, start, taps.step, &taps.halves, taps.rounding)
    }
}

/// Sets the first `N` entries of the row to the entries of the values.
#[inline(always)]
#[tactic(auto, using(av1_frame::proofs::Paint::row_painting))]
fn write_row<E: Copy, W: Writer<E>, const N: usize>(
    row: &mut [E],
    values: &[i16; N],
    bit_depth: usize,
)
    requires row_long { N ≤ length row.old }
    requires short { N ≤ 128 }
    requires depths { IsDepth bit_depth }
    requires serves { W.serves bit_depth }
    ensures { row.new ≡ paint_row N (λ c _. W.written bit_depth (entry values.now c)) row.old }
{
    for c in 0..N {
        row[c] = W::entry(values[c], bit_depth);
    }
}

/// Sets the entries of row `r` of a strip of `N` columns to the values of a filter, whose outer `ZEROS` weights on
/// either side are 0.
#[inline(always)]
#[tactic(auto, using(av1_frame::proofs::Paint::rectangle_painting))]
fn filter_row<T: Pixel, E: Copy, W: Writer<E>, const N: usize, const ZEROS: usize>(
    target: &mut [E],
    stride: usize,
    strip: &Strip<'_, T>,
    taps: &Taps,
    r: usize,
)
    requires rows { AreRows stride strip.now.area (length target.old) }
    requires width { strip.now.area.width ≡ N }
    requires kind { IsStripWidth N }
    requires short { N ≤ 128 }
    requires few { ZEROS ≤ 2 }
    requires zeros { AreZero ZEROS taps.now.halves }
    requires laid { IsLaid T.num strip.now taps.now }
    requires depths { IsDepth strip.now.bit_depth }
    requires serves { W.serves strip.now.bit_depth }
    requires inside { r < strip.now.area.height }
    ensures { (s : List E) → AreRows stride strip.now.area (length s) →
        target.old ≡ paint stride (corner strip.now.area strip.now.area.width r)
        (λ r c _. W.written strip.now.bit_depth (filtered T.num strip.now taps.now r c)) s →
        target.new ≡ paint stride (corner strip.now.area strip.now.area.width (r + 1))
        (λ r c _. W.written strip.now.bit_depth (filtered T.num strip.now taps.now r c)) s }
{
    let start = taps.start + r * strip.source_stride;
    let values = filter_line::<T, N, ZEROS>(strip.source, start, taps);
    let (_, row) = target.split_at_mut((strip.area.y + r) * stride + strip.area.x);
    write_row::<E, W, N>(row, &values, strip.bit_depth);
}

/// Returns the same taps. If `ALONE` is true, this is the block's only filter, and the compiler knows shift and bias.
/// It does not know them for 16 columns of two-byte samples. Then it limits the sums and cuts them to 16 bits in one
/// step, else in two.
#[inline(always)]
fn known_taps<T: Pixel, E: Copy, W: Writer<E>, const N: usize, const ALONE: bool>(
    taps: &Taps,
    bit_depth: usize,
) -> Taps
    requires depths { IsDepth bit_depth }
    requires alone { ALONE ≡ true → IsAlone (W.roundings bit_depth) taps.now.rounding }
    ensures { result ≡ taps.now }
{
    let mut known = *taps;
    if ALONE && (T::BITS == 8 || N < 16) {
        let rows = W::roundings(bit_depth).rows;
        known.rounding.shift = rows.shift;
        known.rounding.bias = rows.bias;
    }
    known
}

/// Sets the entries of a strip of `N` columns to the values of a filter, whose outer `ZEROS` weights on either side are
/// 0. `ALONE` says that no other filter is applied to the block.
#[inline(always)]
#[tactic(auto, using(av1_frame::proofs::Paint::rectangle_painting))]
fn filter_by<
    T: Pixel,
    E: Copy,
    W: Writer<E>,
    const N: usize,
    const ZEROS: usize,
    const ALONE: bool,
>(target: &mut [E], stride: usize, strip: &Strip<'_, T>, taps: &Taps)
    requires rows { AreRows stride strip.now.area (length target.old) }
    requires width { strip.now.area.width ≡ N }
    requires kind { IsStripWidth N }
    requires few { ZEROS ≤ 2 }
    requires zeros { AreZero ZEROS taps.now.halves }
    requires laid { IsLaid T.num strip.now taps.now }
    requires depths { IsDepth strip.now.bit_depth }
    requires serves { W.serves strip.now.bit_depth }
    requires alone { ALONE ≡ true → IsAlone (W.roundings strip.now.bit_depth) taps.now.rounding }
    ensures { target.new ≡ paint stride strip.now.area (λ r c _. W.written strip.now.bit_depth (filtered T.num strip.now taps.now r c)) target.old }
{
    // Copies of their own can't be what is written, so they stay in registers.
    let taps = known_taps::<T, E, W, N, ALONE>(taps, strip.bit_depth);
    let strip = *strip;
    for r in 0..strip.area.height {
        filter_row::<T, E, W, N, ZEROS>(target, stride, &strip, &taps, r);
    }
}

/// As `filter_by`, for any filter. It is a function of its own, for which the step between samples is a number like any
/// other. So eight samples side by side are read at once, even if the next eight overlap them.
#[inline(never)]
pub(crate) fn filter_strip<T: Pixel, E: Copy, W: Writer<E>, const N: usize, const ALONE: bool>(
    target: &mut [E],
    stride: usize,
    strip: &Strip<'_, T>,
    taps: &Taps,
)
    requires rows { AreRows stride strip.now.area (length target.old) }
    requires width { strip.now.area.width ≡ N }
    requires kind { IsStripWidth N }
    requires laid { IsLaid T.num strip.now taps.now }
    requires depths { IsDepth strip.now.bit_depth }
    requires serves { W.serves strip.now.bit_depth }
    requires alone { ALONE ≡ true → IsAlone (W.roundings strip.now.bit_depth) taps.now.rounding }
    ensures { target.new ≡ paint stride strip.now.area (λ r c _. W.written strip.now.bit_depth (filtered T.num strip.now taps.now r c)) target.old }
{
    let zeros = outer_zeros(&taps.halves);
    if zeros == 2 {
        filter_by::<T, E, W, N, 2, ALONE>(target, stride, strip, taps);
    } else if zeros == 1 {
        filter_by::<T, E, W, N, 1, ALONE>(target, stride, strip, taps);
    } else {
        filter_by::<T, E, W, N, 0, ALONE>(target, stride, strip, taps);
    }
}

/// As `filter_strip`, for a strip of 16, 8, 4 or 1 columns.
#[inline(always)]
fn filter_columns<T: Pixel, E: Copy, W: Writer<E>>(
    target: &mut [E],
    stride: usize,
    strip: &Strip<'_, T>,
    taps: &Taps,
)
    requires rows { AreRows stride strip.now.area (length target.old) }
    requires kind { IsStripWidth strip.now.area.width }
    requires laid { IsLaid T.num strip.now taps.now }
    requires depths { IsDepth strip.now.bit_depth }
    requires serves { W.serves strip.now.bit_depth }
    requires alone { IsAlone (W.roundings strip.now.bit_depth) taps.now.rounding }
    ensures { target.new ≡ paint stride strip.now.area (λ r c _. W.written strip.now.bit_depth (filtered T.num strip.now taps.now r c)) target.old }
{
    if strip.area.width == 16 {
        filter_strip::<T, E, W, 16, true>(target, stride, strip, taps);
    } else if strip.area.width == 8 {
        filter_strip::<T, E, W, 8, true>(target, stride, strip, taps);
    } else if strip.area.width == 4 {
        filter_strip::<T, E, W, 4, true>(target, stride, strip, taps);
    } else {
        filter_strip::<T, E, W, 1, true>(target, stride, strip, taps);
    }
}

/// Filters a block, strip by strip. A block of 4x4 bytes with four weights is filtered in place: the compiler unrolls
/// its four rows.
#[inline(always)]
#[tactic(auto, using(crate::proofs::Strips::paint_no_column))]
pub(crate) fn filter_once<T: Pixel, E: Copy, W: Writer<E>>(
    target: &mut [E],
    stride: usize,
    block: &Strip<'_, T>,
    taps: &Taps,
)
    requires rows { AreRows stride block.now.area (length target.old) }
    requires some { 0 < block.now.area.height }
    requires depths { IsDepth block.now.bit_depth }
    requires laid { IsLaid T.num block.now taps.now }
    requires serves { W.serves block.now.bit_depth }
    requires alone { IsAlone (W.roundings block.now.bit_depth) taps.now.rounding }
    ensures { target.new ≡ paint stride block.now.area (λ r c _. W.written block.now.bit_depth (filtered T.num block.now taps.now r c)) target.old }
{
    if T::BITS == 8
        && block.area.width == 4
        && block.area.height == 4
        && outer_zeros(&taps.halves) == 2
    {
        filter_by::<T, E, W, 4, 2, true>(target, stride, block, taps);
        return;
    }
    let mut start = 0;
    while start < block.area.width {
        let columns = strip_width(block.area.width - start);
        let strip = part_at(block, start, 0, columns, block.area.height);
        filter_columns::<T, E, W>(target, stride, &strip, taps);
        start += columns;
    }
}
