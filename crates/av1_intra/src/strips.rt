//! Directional prediction past 90 degrees, in strips of eight rows: reads the sides, writes only the rectangle.
//!
//! All samples of a column lie equally far between two entries of the left side. So a strip is computed column by
//! column, eight numbers at a time, and its rows are written afterwards. Between 90 and 180 degrees, samples from the
//! side above then replace those from the left.

ghost use Rattle.std.specs.Prelude.{◌≡◌, ℕ, ◌+◌, ◌-◌, ◌*◌, ◌/◌, ◌^◌, ◌<◌, ◌≤◌, length, List, nat_le, if◌then◌else◌};
ghost use Rattle.av1_frame.specs.Areas.{AreRows};
ghost use Rattle.av1_frame.specs.Samples.{corner, paint, paint_row};
ghost use Rattle.av1_intra.specs.Sides.{entries};
ghost use Rattle.av1_intra.specs.Angles.{ArePair};
ghost use Rattle.av1_intra.specs.Directional.{at, between};
ghost use Rattle.av1_intra.specs.Scaffolding.{IsPut, IsFilled};

use crate::filtered_side::FilteredSide;
use crate::interpolation::{eight_at, eight_from, write_numbers};
use av1_frame::{Pixel, StoredArea};

/// How far lines of an angle between 90 and 180 move along each side for each sample away from it, in 64ths of a
/// sample.
#[derive(Clone, Copy)]
pub(crate) struct Slopes {
    /// Along the side above.
    pub(crate) dx: usize,
    /// Along the left side.
    pub(crate) dy: usize,
}

/// Puts eight numbers into a strip whose rows begin `STEP` numbers apart: one under the other, from `place` on.
#[inline(always)]
fn put_column<const STEP: usize>(strip: &mut [u16], place: usize, column: [u16; 8])
    requires some { 0 < STEP }
    requires room { place + 7 * STEP < length strip.old }
    ensures { IsPut STEP place 8 column strip.old strip.new }
{
    for k in 0..8 {
        strip[place + STEP * k] = column[k];
    }
}

/// Writes the first `N * groups` numbers of a row of a strip, which begins at `from`.
#[inline(always)]
#[tactic(auto, using(crate::proofs::Groups::group_inside))]
fn write_row<T: Pixel, const N: usize>(row: &mut [T], strip: &[u16], from: usize, groups: usize)
    requires room { N * groups ≤ length row.old }
    requires long { from + N * groups ≤ length strip.now }
    requires fits { (q : ℕ) → entries strip.now q < 2 ^ T.BITS }
    ensures { row.new ≡ paint_row (N * groups) (λ c _. T.pixel (entries strip.now (from + c))) row.old }
{
    for g in 0..groups {
        write_numbers::<T, N>(row, N * g, strip, from + N * g);
    }
}

/// Fills the columns of a strip at an angle past 180 with the derivative `dy`. The strip begins at row `first` of the
/// block.
#[inline(always)]
fn fill_past_180<const STEP: usize>(
    strip: &mut [u16],
    left: &FilteredSide,
    dy: usize,
    first: usize,
    columns: usize,
    bit_depth: usize,
)
    requires columns { (columns ≤ STEP) × (columns ≤ 64) }
    requires long { length strip.old ≡ 8 * STEP }
    requires first { first ≤ 63 }
    requires upsampling { left.now.upsampling ≤ 1 }
    requires dy { dy ≤ 40 }
    requires depth { bit_depth ≤ 16 }
    ensures { IsFilled STEP columns (λ _. 0) (λ r c. at bit_depth (entries left.now.numbers) left.now.upsampling ((c + 1) * dy + 64) (first + r)) strip.old
        strip.new }
{
    for c in 0..columns {
        let column = eight_from(left, (c + 1) * dy + 64 + 64 * first, bit_depth);
        put_column::<STEP>(strip, c, column);
    }
}

/// Writes the first `rows` rows of a strip into a rectangle, from its row `first` on.
#[inline(always)]
fn write_strip<T: Pixel, const N: usize, const STEP: usize>(
    samples: &mut [T],
    stride: usize,
    area: StoredArea,
    strip: &[u16],
    first: usize,
    rows: usize,
    groups: usize,
)
    requires rows { AreRows stride area (length samples.old) }
    requires whole { area.width ≡ N * groups }
    requires few { first + rows ≤ area.height }
    requires eight { rows ≤ 8 }
    requires width { area.width ≤ STEP }
    requires long { 8 * STEP ≤ length strip.now }
    requires fits { (q : ℕ) → entries strip.now q < 2 ^ T.BITS }
    ensures { (f : ℕ → ℕ → T → T) (s : List T) → samples.old ≡ paint stride (corner area area.width first) f s →
        ((r c : ℕ) (v : T) → r < rows → c < area.width → T.pixel (entries strip.now (STEP * r + c)) ≡ f (first + r) c v) →
        samples.new ≡ paint stride (corner area area.width (first + rows)) f s }
{
    for r in 0..rows {
        let (_, row) = samples.split_at_mut((area.y + (first + r)) * stride + area.x);
        write_row::<T, N>(row, strip, STEP * r, groups);
    }
}

/// As `columns_past_180`, in strips of rows that begin `STEP` numbers apart, `N` columns at a time.
#[inline(always)]
fn strips_past_180<T: Pixel, const N: usize, const STEP: usize, const LENGTH: usize>(
    samples: &mut [T],
    stride: usize,
    area: StoredArea,
    left: &FilteredSide,
    dy: usize,
    groups: usize,
    bit_depth: usize,
)
    requires rows { AreRows stride area (length samples.old) }
    requires whole { area.width ≡ N * groups }
    requires step { (area.width ≤ STEP) × (STEP ≤ 64) }
    requires strip { LENGTH ≡ 8 * STEP }
    requires height { area.height ≤ 64 }
    requires upsampling { left.now.upsampling ≤ 1 }
    requires dy { dy ≤ 40 }
    requires depth { bit_depth ≤ T.BITS }
    ensures { samples.new ≡ paint stride area (λ i j _. T.pixel (at bit_depth (entries left.now.numbers) left.now.upsampling ((j + 1) * dy + 64) i))
        samples.old }
{
    let mut strip = [0; LENGTH];
    for g in 0..(area.height + 7) / 8 {
        let first = 8 * g;
        let rows = (area.height - first).min(8);
        fill_past_180::<STEP>(&mut strip, left, dy, first, area.width, bit_depth);
        write_strip::<T, N, STEP>(samples, stride, area, &strip, first, rows, groups);
    }
}

/// Predicts a rectangle at an angle past 180 with the derivative `dy`.
pub(crate) fn columns_past_180<T: Pixel>(
    samples: &mut [T],
    stride: usize,
    area: StoredArea,
    left: &FilteredSide,
    dy: usize,
    bit_depth: usize,
)
    requires rows { AreRows stride area (length samples.old) }
    requires width { area.width ≤ 64 }
    requires height { area.height ≤ 64 }
    requires upsampling { left.now.upsampling ≤ 1 }
    requires dy { dy ≤ 40 }
    requires depth { bit_depth ≤ T.BITS }
    ensures { samples.new ≡ paint stride area (λ i j _. T.pixel (at bit_depth (entries left.now.numbers) left.now.upsampling ((j + 1) * dy + 64) i))
        samples.old }
{
    match area.width {
        4 => strips_past_180::<T, 4, 8, 64>(samples, stride, area, left, dy, 1, bit_depth),
        8 => strips_past_180::<T, 8, 8, 64>(samples, stride, area, left, dy, 1, bit_depth),
        16 | 32 | 64 => {
            let groups = area.width / 8;
            strips_past_180::<T, 8, 64, 512>(samples, stride, area, left, dy, groups, bit_depth);
        }
        width => strips_past_180::<T, 1, 64, 512>(
            samples, stride, area, left, dy, width, bit_depth,
        ),
    }
}

/// Fills the columns of a strip between 90 and 180 degrees, from the left side. Lines move `dy` 64ths along it for each
/// column. Numbers whose line would meet the side before its corner are left out.
#[inline(always)]
fn fill_between<const STEP: usize>(
    strip: &mut [u16],
    left: &FilteredSide,
    dy: usize,
    first: usize,
    columns: usize,
    bit_depth: usize,
)
    requires columns { (columns ≤ STEP) × (columns ≤ 64) }
    requires long { length strip.old ≡ 15 * STEP }
    requires first { first ≤ 63 }
    requires upsampling { left.now.upsampling ≤ 1 }
    requires dy { dy ≤ 4096 }
    requires reach { (c : ℕ) → c < columns → (c + 1) * dy < 64 * (first + 8) }
    requires depth { bit_depth ≤ 16 }
    ensures { IsFilled STEP columns (λ c. ((c + 1) * dy - 64 * (first + 1) + 63) / 64)
        (λ r c. at bit_depth (entries left.now.numbers) left.now.upsampling (64 * (first + r + 1) - (c + 1) * dy) 0) strip.old strip.new }
{
    for c in 0..columns {
        let line = (c + 1) * dy;
        let skipped = (line.saturating_sub(64 * (first + 1)) + 63) / 64;
        let column = eight_from(left, 64 * (first + skipped + 1) - line, bit_depth);
        put_column::<STEP>(strip, STEP * skipped + c, column);
    }
}

/// Returns eight numbers of a row: those of its strip, from `from` on, which begin at the column `column`, and from the
/// side above those whose lines meet it. The line of column `j` meets it at `64 * (j + 1) - line` 64ths past the
/// corner, if that isn't below 0.
#[inline(always)]
fn merged(
    strip: &[u16],
    from: usize,
    above: &FilteredSide,
    line: usize,
    column: usize,
    bit_depth: usize,
) -> [u16; 16]
    requires long { from + 8 ≤ length strip.now }
    requires some { 0 < line }
    requires few { line ≤ 2 ^ 20 }
    requires column { column ≤ 63 }
    requires upsampling { above.now.upsampling ≤ 1 }
    requires depth { bit_depth ≤ 16 }
    ensures value { (c : ℕ) → c < 8 → entries result c ≡
        (if nat_le line (64 * (column + c + 1)) then at bit_depth (entries above.now.numbers) above.now.upsampling (64 * (column + c + 1) - line) 0
        else entries strip.now (from + c)) }
    ensures within { (b : ℕ) → 2 ^ bit_depth ≤ b → ((q : ℕ) → entries strip.now q < b) → (q : ℕ) → entries result q < b }
{
    let mut run = [0; 16];
    put_column::<1>(&mut run, 0, eight_at(strip, from));
    let split = ((line - 1) / 64).saturating_sub(column);
    if split < 8 {
        let numbers = eight_from(above, 64 * (column + split + 1) - line, bit_depth);
        put_column::<1>(&mut run, split, numbers);
    }
    run
}

/// Writes the first `N * groups` numbers of a row of a strip, which begins at `from`, and of the side above, as
/// `merged` does.
#[inline(always)]
#[tactic(auto, using(crate::proofs::Groups::group_inside))]
fn write_merged<T: Pixel, const N: usize>(
    row: &mut [T],
    strip: &[u16],
    from: usize,
    above: &FilteredSide,
    line: usize,
    groups: usize,
    bit_depth: usize,
)
    requires room { N * groups ≤ length row.old }
    requires short { N ≤ 8 }
    requires width { N * groups ≤ 64 }
    requires some { 0 < N }
    requires long { from + N * groups + 7 ≤ length strip.now }
    requires line { (0 < line) × (line ≤ 2 ^ 20) }
    requires upsampling { above.now.upsampling ≤ 1 }
    requires fits { (q : ℕ) → entries strip.now q < 2 ^ T.BITS }
    requires depth { bit_depth ≤ T.BITS }
    ensures { row.new ≡ paint_row (N * groups) (λ c _. T.pixel
        (if nat_le line (64 * (c + 1)) then at bit_depth (entries above.now.numbers) above.now.upsampling (64 * (c + 1) - line) 0
        else entries strip.now (from + c))) row.old }
{
    for g in 0..groups {
        let run = merged(strip, from + N * g, above, line, N * g, bit_depth);
        write_numbers::<T, N>(row, N * g, &run, 0);
    }
}

/// Writes the first `rows` rows of a strip and of the side above into a rectangle, from its row `first` on. Lines move
/// `dx` 64ths along the side above for each row.
#[inline(always)]
fn write_between<T: Pixel, const N: usize, const STEP: usize>(
    samples: &mut [T],
    stride: usize,
    area: StoredArea,
    strip: &[u16],
    above: &FilteredSide,
    dx: usize,
    first: usize,
    rows: usize,
    groups: usize,
    bit_depth: usize,
)
    requires rows { AreRows stride area (length samples.old) }
    requires whole { area.width ≡ N * groups }
    requires some { 0 < N }
    requires short { N ≤ 8 }
    requires few { first + rows ≤ area.height }
    requires height { area.height ≤ 64 }
    requires eight { rows ≤ 8 }
    requires width { (area.width ≤ STEP) × (area.width ≤ 64) }
    requires step { 8 ≤ STEP }
    requires long { length strip.now ≡ 15 * STEP }
    requires dx { (0 < dx) × (dx ≤ 4096) }
    requires upsampling { above.now.upsampling ≤ 1 }
    requires fits { (q : ℕ) → entries strip.now q < 2 ^ T.BITS }
    requires depth { bit_depth ≤ T.BITS }
    ensures { (f : ℕ → ℕ → T → T) (s : List T) → samples.old ≡ paint stride (corner area area.width first) f s →
        ((r c : ℕ) (v : T) → r < rows → c < area.width → T.pixel
        (if nat_le ((first + r + 1) * dx) (64 * (c + 1))
        then at bit_depth (entries above.now.numbers) above.now.upsampling (64 * (c + 1) - (first + r + 1) * dx) 0
        else entries strip.now (STEP * r + c)) ≡ f (first + r) c v) →
        samples.new ≡ paint stride (corner area area.width (first + rows)) f s }
{
    for r in 0..rows {
        let line = (first + r + 1) * dx;
        let (_, row) = samples.split_at_mut((area.y + (first + r)) * stride + area.x);
        write_merged::<T, N>(row, strip, STEP * r, above, line, groups, bit_depth);
    }
}

/// As `rows_between`, in strips of rows that begin `STEP` numbers apart, `N` columns at a time.
#[inline(always)]
fn strips_between<T: Pixel, const N: usize, const STEP: usize, const LENGTH: usize>(
    samples: &mut [T],
    stride: usize,
    area: StoredArea,
    above: &FilteredSide,
    left: &FilteredSide,
    slopes: Slopes,
    groups: usize,
    bit_depth: usize,
)
    requires rows { AreRows stride area (length samples.old) }
    requires whole { area.width ≡ N * groups }
    requires some { 0 < N }
    requires short { N ≤ 8 }
    requires step { (area.width ≤ STEP) × (STEP ≤ 64) }
    requires least { 8 ≤ STEP }
    requires strip { LENGTH ≡ 15 * STEP }
    requires height { area.height ≤ 64 }
    requires above_upsampling { above.now.upsampling ≤ 1 }
    requires left_upsampling { left.now.upsampling ≤ 1 }
    requires pair { ArePair slopes.dx slopes.dy }
    requires depth { bit_depth ≤ T.BITS }
    ensures { samples.new ≡
        paint stride area
        (λ i j _.
        T.pixel (between bit_depth (entries above.now.numbers) above.now.upsampling (entries left.now.numbers) left.now.upsampling slopes.dx slopes.dy i j))
        samples.old }
{
    let mut strip = [0; LENGTH];
    for g in 0..(area.height + 7) / 8 {
        let first = 8 * g;
        let rows = (area.height - first).min(8);
        let reached = ((first + rows) * slopes.dx - 1) / 64;
        let columns = area.width.min(reached);
        fill_between::<STEP>(&mut strip, left, slopes.dy, first, columns, bit_depth);
        write_between::<T, N, STEP>(
            samples, stride, area, &strip, above, slopes.dx, first, rows, groups, bit_depth,
        );
    }
}

/// Predicts a rectangle at an angle between 90 and 180 with these slopes.
pub(crate) fn rows_between<T: Pixel>(
    samples: &mut [T],
    stride: usize,
    area: StoredArea,
    above: &FilteredSide,
    left: &FilteredSide,
    slopes: Slopes,
    bit_depth: usize,
)
    requires rows { AreRows stride area (length samples.old) }
    requires width { area.width ≤ 64 }
    requires height { area.height ≤ 64 }
    requires above_upsampling { above.now.upsampling ≤ 1 }
    requires left_upsampling { left.now.upsampling ≤ 1 }
    requires pair { ArePair slopes.dx slopes.dy }
    requires depth { bit_depth ≤ T.BITS }
    ensures { samples.new ≡
        paint stride area
        (λ i j _.
        T.pixel (between bit_depth (entries above.now.numbers) above.now.upsampling (entries left.now.numbers) left.now.upsampling slopes.dx slopes.dy i j))
        samples.old }
{
    let depth = bit_depth;
    match area.width {
        4 => strips_between::<T, 4, 8, 120>(samples, stride, area, above, left, slopes, 1, depth),
        8 => strips_between::<T, 8, 8, 120>(samples, stride, area, above, left, slopes, 1, depth),
        16 | 32 | 64 => {
            let groups = area.width / 8;
            strips_between::<T, 8, 64, 960>(
                samples, stride, area, above, left, slopes, groups, depth,
            );
        }
        width => {
            strips_between::<T, 1, 64, 960>(
                samples, stride, area, above, left, slopes, width, depth,
            );
        }
    }
}
