//! Copies the samples that a block reads from its plane to a window. Writes only the window.
//!
//! Outside the plane, a sample of the window is the nearest visible sample.
//! AV1 specification: block inter prediction process.
ghost use Rattle.std.specs.Prelude.{◌≡◌, ◌+◌, ◌-ℤ◌, ◌+ℤ◌, ◌<◌, ◌≤◌, ◌≤ℤ◌, length, pos, slice_index_or};
ghost use Rattle.av1_calls.specs.MovedBlocks.{AreParts, gathered_column, nearest_place, visible_of};
ghost use Rattle.av1_frame.specs.Areas.{AreRows};
ghost use Rattle.av1_frame.specs.Samples.{paint, paint_row};
ghost use Rattle.av1_frame.specs.Slices.{nearest_visible};

use crate::intra_edge::signed;
use crate::motion_place::MotionPlane;
use av1_frame::{Pixel, StoredArea, copy_row, fill_row};

/// The visible column or row that is nearest to a place. There are `visible` of them.
#[inline(always)]
fn nearest(place: isize, visible: usize) -> usize
    requires { 0 < visible }
    ensures value { result ≡ nearest_visible visible place }
    ensures below { result < visible }
{
    if place < 0 {
        return 0;
    }
    place.unsigned_abs().min(visible - 1)
}

/// The visible column or row that is nearest to the place `steps` after `first`.
#[inline(always)]
fn nearest_behind(first: isize, steps: usize, visible: usize) -> usize
    requires some { 0 < visible }
    requires least { (pos 0 -ℤ pos 256) ≤ℤ first }
    requires greatest { first ≤ℤ pos 131072 }
    requires few { steps ≤ 256 }
    ensures value { result ≡ nearest_visible visible (first +ℤ pos steps) }
    ensures below { result < visible }
{
    let place = first + signed(steps);
    nearest(place, visible)
}

/// How the columns of a window's row lie in a plane. The first `before` columns precede the first visible one. Then
/// come `inside` visible ones from column `start` on, and the others follow the last visible one.
#[derive(Clone, Copy)]
struct Parts {
    before: usize,
    start: usize,
    inside: usize,
}

/// The parts of `count` columns from `first` on. `visible` columns are visible.
#[inline(always)]
fn parts_of(first: isize, count: usize, visible: usize) -> Parts
    requires some { 0 < visible }
    ensures { AreParts first count visible result.before result.start result.inside }
{
    let steps = first.unsigned_abs();
    if first < 0 {
        let before = count.min(steps);
        Parts {
            before,
            start: 0,
            inside: visible.min(count - before),
        }
    } else {
        let start = visible.min(steps);
        Parts {
            before: 0,
            start,
            inside: count.min(visible - start),
        }
    }
}

/// Copies `width` columns of `source` to the front of the row. `visible` samples of `source` are visible. Columns
/// outside them have the value of the nearest one.
#[inline(always)]
fn gather_row<T: Pixel>(row: &mut [T], source: &[T], parts: Parts, width: usize, visible: usize)
    requires row_long { width ≤ length row.old }
    requires source_long { visible ≤ length source.now }
    requires some { 0 < visible }
    requires fits { parts.before + parts.inside ≤ width }
    requires stored { parts.start + parts.inside ≤ visible }
    ensures { row.new ≡ paint_row width (λ c v. slice_index_or source.now (gathered_column parts.before parts.start parts.inside visible c) v) row.old }
{
    let (before, rest) = row.split_at_mut(parts.before);
    let (inside, behind) = rest.split_at_mut(parts.inside);
    let (_, from) = source.split_at(parts.start);
    fill_row(before, source[0], parts.before);
    copy_row(inside, from, parts.inside);
    fill_row(
        behind,
        source[visible - 1],
        width - parts.before - parts.inside,
    );
}

/// Fills the rectangle of `window` with the samples of a plane from column `x` of row `y` on, counted from the first
/// visible sample. Rows of `window` are `stride` samples apart.
#[tactic(auto, using(av1_frame::proofs::Paint::rectangle_painting))]
pub(crate) fn gather<T: Pixel>(
    window: &mut [T],
    stride: usize,
    area: StoredArea,
    source: &[T],
    plane: MotionPlane,
    x: isize,
    y: isize,
)
    requires rows { AreRows stride area (length window.old) }
    requires visible { AreRows plane.stride (visible_of plane) (length source.now) }
    requires some_columns { 0 < plane.width }
    requires some_rows { 0 < plane.height }
    requires left { (pos 0 -ℤ pos 256) ≤ℤ x }
    requires right { x ≤ℤ pos 131072 }
    requires top { (pos 0 -ℤ pos 256) ≤ℤ y }
    requires bottom { y ≤ℤ pos 131072 }
    requires few_columns { area.width ≤ 256 }
    requires few_rows { area.height ≤ 256 }
    ensures { window.new ≡ paint stride area (λ r c v. slice_index_or source.now (nearest_place plane (x +ℤ pos c) (y +ℤ pos r)) v) window.old }
{
    let parts = parts_of(x, area.width, plane.width);
    for r in 0..area.height {
        let line = nearest_behind(y, r, plane.height);
        let (_, from) = source.split_at((plane.y + line) * plane.stride + plane.x);
        let (_, row) = window.split_at_mut((area.y + r) * stride + area.x);
        gather_row(row, from, parts, area.width, plane.width);
    }
}
