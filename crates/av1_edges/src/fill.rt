//! Fills the sides of an edge: reads the samples round a block in its region, and writes the sides.
//!
//! AV1 specification: intra prediction process: general, the preparation of the arrays AboveRow and LeftCol.

ghost use Rattle.std.specs.Prelude.{◌≡◌, ℕ, ◌+◌, ◌-◌, ◌^◌, ◌<◌, ◌≤◌, length, slice_index_or, min, map, reverse, if◌then◌else◌};
ghost use Rattle.av1_edges.specs.Sides.{base, above_at, left_at, corner_at, smoothed};
ghost use Rattle.av1_lists.specs.Lists.{by_index};
ghost use Rattle.av1_edges.specs.Edges.{BeginsVisible, region_sample, visible_columns, visible_rows};

use av1_frame::{Pixel, PlaneRegion};

/// Sets each sample of the row to `value`.
pub fn fill_with<T: Pixel>(row: &mut [T], value: T)
    ensures { (k : ℕ) (d : T) → k < length row.new → slice_index_or row.new k d ≡ value }
{
    for sample in row.iter_mut() {
        *sample = value;
    }
}

/// Copies `source` to the start of the row, and repeats its last sample in the rest of the row.
pub fn extend_from<T: Pixel>(row: &mut [T], source: &[T])
    requires some { 0 < length source.now }
    requires room { length source.now ≤ length row.old }
    ensures { (k : ℕ) (d : T) → k < length row.new → slice_index_or row.new k d ≡ slice_index_or source.now (min k (length source.now - 1)) d }
{
    let count = source.len();
    let last = source[count - 1];
    row[..count].copy_from_slice(source);
    fill_with(&mut row[count..], last);
}

/// Half of the range of samples of this depth.
pub fn base(bit_depth: usize) -> u32
    requires low { 8 ≤ bit_depth }
    requires high { bit_depth ≤ 16 }
    ensures value { result ≡ base bit_depth }
    ensures room { result + result ≡ 2 ^ bit_depth }
    ensures some { 128 ≤ result }
{
    128 << (bit_depth - 8)
}

/// The sample in the middle of the range of this depth, or `less` before it.
fn middle_sample<T: Pixel>(less: u32, bit_depth: usize) -> T
    requires few { less ≤ 1 }
    requires low { 8 ≤ bit_depth }
    requires depth { bit_depth ≤ T.BITS }
    ensures { T.num result ≡ base bit_depth - less }
{
    T::from_u32(base(bit_depth) - less)
}

/// The sample at column `x` of row `y` of the region.
fn region_sample<T: Pixel>(dst: &PlaneRegion<'_, T>, x: usize, y: usize) -> T
    requires begins { BeginsVisible dst.now }
    requires column { x < visible_columns dst.now }
    requires row { y < visible_rows dst.now }
    ensures { T.num result ≡ region_sample T.num dst.now x y }
{
    dst.row(y)[x]
}

/// Fills the side above a block at column `x` of row `y`, as wide as `above`; `num_avail` samples are available.
pub(crate) fn fill_above<T: Pixel>(
    above: &mut [T],
    dst: &PlaneRegion<'_, T>,
    x: usize,
    y: usize,
    num_avail: usize,
    bit_depth: usize,
)
    requires some { 0 < num_avail }
    requires room { num_avail ≤ length above.old }
    requires begins { BeginsVisible dst.now }
    requires columns { x + num_avail ≤ visible_columns dst.now }
    requires row { y < visible_rows dst.now }
    requires low { 8 ≤ bit_depth }
    requires depth { bit_depth ≤ T.BITS }
    ensures { map T.num above.new ≡ by_index (length above.old) (above_at (region_sample T.num dst.now) (base bit_depth) x y num_avail) }
{
    if y > 0 {
        extend_from(above, &dst.row(y - 1)[x..x + num_avail]);
    } else if x > 0 {
        fill_with(above, region_sample(dst, x - 1, 0));
    } else {
        fill_with(above, middle_sample(1, bit_depth));
    }
}

/// Copies the samples of column `x` from row `y` on, as many as `left` has, from the bottom up.
fn copy_column<T: Pixel>(left: &mut [T], dst: &PlaneRegion<'_, T>, x: usize, y: usize)
    requires begins { BeginsVisible dst.now }
    requires column { x < visible_columns dst.now }
    requires rows { y + length left.old ≤ visible_rows dst.now }
    ensures { (k : ℕ) (d : T) → k < length left.new → T.num (slice_index_or left.new k d) ≡ region_sample T.num dst.now x (y + (length left.old - 1 - k)) }
{
    match left.len() {
        4 => copy_rows(left, dst, x, y, 4),
        8 => copy_rows(left, dst, x, y, 8),
        count => copy_rows(left, dst, x, y, count),
    }
}

/// As `copy_column`, inlined, so that the compiler knows how many samples it copies.
#[inline(always)]
fn copy_rows<T: Pixel>(left: &mut [T], dst: &PlaneRegion<'_, T>, x: usize, y: usize, count: usize)
    requires begins { BeginsVisible dst.now }
    requires column { x < visible_columns dst.now }
    requires count { length left.old ≡ count }
    requires rows { y + count ≤ visible_rows dst.now }
    ensures { (k : ℕ) (d : T) → k < length left.new → T.num (slice_index_or left.new k d) ≡ region_sample T.num dst.now x (y + (count - 1 - k)) }
{
    for i in 0..count {
        left[i] = dst.row(y + (count - 1 - i))[x];
    }
}

/// Fills the side to the left of a block at column `x` of row `y`, from the bottom up, as high as `left`; `num_avail`
/// samples are available.
pub(crate) fn fill_left<T: Pixel>(
    left: &mut [T],
    dst: &PlaneRegion<'_, T>,
    x: usize,
    y: usize,
    num_avail: usize,
    bit_depth: usize,
)
    requires some { 0 < num_avail }
    requires room { 0 < x → num_avail ≤ length left.old }
    requires begins { BeginsVisible dst.now }
    requires column { x < visible_columns dst.now }
    requires rows { y + num_avail ≤ visible_rows dst.now }
    requires low { 8 ≤ bit_depth }
    requires depth { bit_depth ≤ T.BITS }
    ensures { map T.num left.new ≡ reverse (by_index (length left.old) (left_at (region_sample T.num dst.now) (base bit_depth) x y num_avail)) }
{
    if x > 0 {
        let rest = left.len() - num_avail;
        let (below, inside) = left.split_at_mut(rest);
        copy_column(inside, dst, x - 1, y);
        fill_with(below, inside[0]);
    } else if y > 0 {
        fill_with(left, region_sample(dst, 0, y - 1));
    } else {
        fill_with(left, T::from_u32(base(bit_depth) + 1));
    }
}

/// The corner of a block at column `x` of row `y` if it is needed, else half of the samples' range.
pub(crate) fn corner_of<T: Pixel>(
    dst: &PlaneRegion<'_, T>,
    x: usize,
    y: usize,
    needed: bool,
    bit_depth: usize,
) -> T
    requires begins { BeginsVisible dst.now }
    requires column { x < visible_columns dst.now }
    requires row { y < visible_rows dst.now }
    requires low { 8 ≤ bit_depth }
    requires depth { bit_depth ≤ T.BITS }
    ensures { T.num result ≡ (if needed then corner_at (region_sample T.num dst.now) (base bit_depth) x y else base bit_depth) }
{
    if needed && x + y > 0 {
        region_sample(dst, x.saturating_sub(1), y.saturating_sub(1))
    } else {
        middle_sample(0, bit_depth)
    }
}

/// The corner, smoothed by the first samples to the left and above.
///
/// AV1 specification: filter corner process.
pub(crate) fn smooth_corner<T: Pixel>(left: T, corner: T, above: T) -> T
    ensures { T.num result ≡ smoothed (T.num left) (T.num corner) (T.num above) }
{
    let sum = 5 * left.to_u32() + 6 * corner.to_u32() + 5 * above.to_u32();
    T::from_u32((sum + 8) >> 4)
}
