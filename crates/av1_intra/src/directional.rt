//! Directional prediction: takes each sample from where a line meets a side. Writes only the rectangle.
//!
//! AV1 specification: directional intra prediction process.

ghost use Rattle.std.specs.Prelude.{◌≡◌, ℕ, ◌+◌, ◌-◌, ◌<◌, ◌≤◌, length, List, map, reverse, if◌then◌else◌, nat_lt, IsTrue};
ghost use Rattle.av1_frame.specs.Samples.{paint};
ghost use Rattle.av1_intra.specs.Angles.{ArePair, derivative, is_interpolated};
ghost use Rattle.av1_intra.specs.Directional.{directional};
ghost use Rattle.av1_intra.specs.Blocks.{IsRectangle};

use crate::angle::dr_intra_derivative;
use crate::filtered_side::{FilteredSide, prepare_above, prepare_left, repeat_entry};
use crate::interpolation::rows_below_90;
use crate::strips::{Slopes, columns_past_180, rows_between};
use av1_frame::{Pixel, StoredArea};

/// What intra modes need of a block: dimensions, depth, and for directional modes the angle and the filter.
#[derive(Clone, Copy)]
pub struct DirectionalBlock {
    /// The angle, in degrees. Only directional modes read it.
    pub p_angle: usize,
    /// The number of columns of the block.
    pub width: usize,
    /// The number of rows of the block.
    pub height: usize,
    /// The depth of its samples, in bits.
    pub bit_depth: usize,
    /// Whether a neighbour has a smooth mode; `None` if the edge filter is off.
    pub smooth_filter: Option<bool>,
    /// The number of coded columns of the plane from the block's first column on. The filter smooths no more columns.
    pub visible_columns: usize,
    /// The number of coded rows of the plane from the block's first row on. The filter smooths no more rows.
    pub visible_rows: usize,
}

/// Predicts a rectangle at an angle below 90.
fn directional_below_90<T: Pixel>(
    samples: &mut [T],
    stride: usize,
    area: StoredArea,
    above: &[T],
    corner: T,
    block: DirectionalBlock,
)
    requires block { IsRectangle block stride area (length samples.old) }
    requires angle { IsTrue (is_interpolated block.p_angle) }
    requires range { block.p_angle < 90 }
    requires long { block.width + block.height ≤ length above.now }
    requires depth { block.bit_depth ≤ T.BITS }
    ensures { (left : List ℕ) →
        samples.new ≡ paint stride area (λ i j _. T.pixel (directional block (T.num corner) (map T.num above.now) left i j)) samples.old }
{
    let dx = dr_intra_derivative(block.p_angle);
    let places = block.width + block.height;
    let smoothed = block.width.min(block.visible_columns) + block.height;
    let mut side = FilteredSide::empty();
    prepare_above(&mut side, above, corner, block, smoothed, places);
    repeat_entry(&mut side.numbers, places << side.upsampling);
    rows_below_90(samples, stride, area, &side, places, dx, block.bit_depth);
}

/// Returns how far lines of an angle between 90 and 180 move along each side.
fn slopes_of(p_angle: usize) -> Slopes
    requires angle { IsTrue (is_interpolated p_angle) }
    requires low { 90 < p_angle }
    requires high { p_angle < 180 }
    ensures dx { result.dx ≡ derivative (180 - p_angle) }
    ensures dy { result.dy ≡ derivative (p_angle - 90) }
    ensures pair { ArePair result.dx result.dy }
{
    Slopes {
        dx: dr_intra_derivative(180 - p_angle),
        dy: dr_intra_derivative(p_angle - 90),
    }
}

/// Predicts a rectangle at an angle between 90 and 180.
fn directional_between<T: Pixel>(
    samples: &mut [T],
    stride: usize,
    area: StoredArea,
    above: &[T],
    left: &[T],
    corner: T,
    block: DirectionalBlock,
)
    requires block { IsRectangle block stride area (length samples.old) }
    requires angle { IsTrue (is_interpolated block.p_angle) }
    requires low { 90 < block.p_angle }
    requires high { block.p_angle < 180 }
    requires above_long { block.width ≤ length above.now }
    requires left_long { block.height ≤ length left.now }
    requires depth { block.bit_depth ≤ T.BITS }
    ensures { samples.new ≡ paint stride area (λ i j _. T.pixel (directional block (T.num corner) (map T.num above.now) (reverse (map T.num left.now)) i j))
        samples.old }
{
    let slopes = slopes_of(block.p_angle);
    let columns = block.width.min(block.visible_columns);
    let mut above_side = FilteredSide::empty();
    prepare_above(&mut above_side, above, corner, block, columns, block.width);
    let rows = block.height.min(block.visible_rows);
    let mut left_side = FilteredSide::empty();
    prepare_left(&mut left_side, left, corner, block, rows, block.height);
    rows_between(
        samples,
        stride,
        area,
        &above_side,
        &left_side,
        slopes,
        block.bit_depth,
    );
}

/// Returns how far down a line of an angle past 180 moves for each column, in 64ths of a sample.
fn derivative_past_180(p_angle: usize) -> usize
    requires angle { IsTrue (is_interpolated p_angle) }
    requires range { 180 < p_angle }
    ensures value { result ≡ derivative (270 - p_angle) }
    ensures small { result ≤ 40 }
    ensures few { p_angle < 213 }
{
    dr_intra_derivative(270 - p_angle)
}

/// Predicts a rectangle at an angle past 180.
fn directional_past_180<T: Pixel>(
    samples: &mut [T],
    stride: usize,
    area: StoredArea,
    left: &[T],
    corner: T,
    block: DirectionalBlock,
)
    requires block { IsRectangle block stride area (length samples.old) }
    requires angle { IsTrue (is_interpolated block.p_angle) }
    requires range { 180 < block.p_angle }
    requires long { block.height + block.width ≤ length left.now }
    requires depth { block.bit_depth ≤ T.BITS }
    ensures { (above : List ℕ) →
        samples.new ≡ paint stride area (λ i j _. T.pixel (directional block (T.num corner) above (reverse (map T.num left.now)) i j)) samples.old }
{
    let dy = derivative_past_180(block.p_angle);
    let places = block.height + block.width;
    let smoothed = block.height.min(block.visible_rows) + block.width;
    let mut side = FilteredSide::empty();
    prepare_left(&mut side, left, corner, block, smoothed, places);
    columns_past_180(samples, stride, area, &side, dy, block.bit_depth);
}

/// Predicts the samples of a rectangle along the angle of `block`. A directional mode and an angle step from -3 to 3
/// give the angle; 90 and 180, which copy a side, are left out. The rows of `samples` are `stride` apart.
///
/// `above` runs from the left, and has `block.height` more samples if the angle is below 90. `left` runs from the
/// bottom up, its last sample is next to the first row, and it has `block.width` more samples if the angle is past 180.
/// `corner` is between both. A side that the angle doesn't meet is not read.
///
/// AV1 specification: directional intra prediction process.
#[inline(never)]
pub fn pred_directional_to<T: Pixel>(
    samples: &mut [T],
    stride: usize,
    area: StoredArea,
    above: &[T],
    left: &[T],
    corner: T,
    block: DirectionalBlock,
)
    requires block { IsRectangle block stride area (length samples.old) }
    requires angle { IsTrue (is_interpolated block.p_angle) }
    requires above_long { block.p_angle < 180 → block.width + (if nat_lt block.p_angle 90 then block.height else 0) ≤ length above.now }
    requires left_long { 90 < block.p_angle → block.height + (if nat_lt 180 block.p_angle then block.width else 0) ≤ length left.now }
    requires depth { block.bit_depth ≤ T.BITS }
    ensures { samples.new ≡ paint stride area (λ i j _. T.pixel (directional block (T.num corner) (map T.num above.now) (reverse (map T.num left.now)) i j))
        samples.old }
{
    if block.p_angle < 90 {
        directional_below_90(samples, stride, area, above, corner, block);
    } else if block.p_angle < 180 {
        directional_between(samples, stride, area, above, left, corner, block);
    } else {
        directional_past_180(samples, stride, area, left, corner, block);
    }
}
