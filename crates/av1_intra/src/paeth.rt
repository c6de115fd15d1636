//! Paeth prediction: each sample becomes the nearest of its three neighbours. Writes only the rectangle.
//!
//! AV1 specification: basic intra prediction process.

ghost use Rattle.std.specs.Prelude.{◌≡◌, ◌+◌, ◌*◌, ◌≤◌, length, ◌⊎◌};
ghost use Rattle.av1_frame.specs.Areas.{AreRows};
ghost use Rattle.av1_frame.specs.Samples.{paint, paint_row};
ghost use Rattle.av1_intra.specs.Sides.{numbers, from_top};
ghost use Rattle.av1_intra.specs.Paeth.{paeth};
ghost use Rattle.av1_intra.specs.Scaffolding.{IsCornerDistance};

use crate::row_lines::write_line;
use av1_frame::{Pixel, StoredArea};

/// Returns how far `above + left - corner` is from `corner`, or the greatest number if `above` and `left` lie on one
/// side of `corner`, which then is never the nearest.
#[inline(always)]
fn corner_distance(above: u16, left: u16, corner: u16) -> u16
    ensures { IsCornerDistance above left corner result }
{
    if (above < corner) == (left < corner) {
        u16::MAX
    } else {
        above.abs_diff(corner).abs_diff(left.abs_diff(corner))
    }
}

/// Returns `left`, `above` or `corner`, whichever is nearest to `above + left - corner`. The sum is as far from `left`
/// as `above` is from `corner`, and as far from `above` as `left` is.
#[inline(always)]
fn nearest_number(above: u16, left: u16, corner: u16) -> u16
    ensures value { result ≡ paeth above left corner }
    ensures one_of_three { (result ≡ above) ⊎ ((result ≡ left) ⊎ (result ≡ corner)) }
{
    let left_off = above.abs_diff(corner);
    let above_off = left.abs_diff(corner);
    let corner_off = corner_distance(above, left, corner);
    if left_off <= above_off.min(corner_off) {
        left
    } else if above_off <= corner_off {
        above
    } else {
        corner
    }
}

/// Returns the nearest of three samples.
#[inline(always)]
fn nearest<T: Pixel>(above: T, left: T, corner: T) -> T
    ensures { result ≡ T.pixel (paeth (T.num above) (T.num left) (T.num corner)) }
{
    let nearest = nearest_number(
        above.to_u32() as u16,
        left.to_u32() as u16,
        corner.to_u32() as u16,
    );
    T::from_u32(u32::from(nearest))
}

/// Predicts `N` samples of a row, from column `start` on, into a line.
#[inline(always)]
#[tactic(auto, using(av1_frame::proofs::Paint::row_painting))]
fn paeth_line<T: Pixel, const N: usize>(
    line: &mut [T],
    above: &[T],
    start: usize,
    left: T,
    corner: T,
)
    requires long { N ≤ length line.old }
    requires above_long { start + N ≤ length above.now }
    ensures { line.new ≡ paint_row N (λ c _. T.pixel (paeth (numbers T.num above.now (start + c)) (T.num left) (T.num corner))) line.old }
{
    for c in 0..N {
        line[c] = nearest(above[start + c], left, corner);
    }
}

/// Predicts the first `N * groups` samples of a row, `N` at a time.
#[inline(always)]
#[tactic(auto, using(crate::proofs::Groups::group_inside))]
fn paeth_row<T: Pixel, const N: usize>(
    row: &mut [T],
    above: &[T],
    groups: usize,
    left: T,
    corner: T,
)
    requires row_long { N * groups ≤ length row.old }
    requires above_long { N * groups ≤ length above.now }
    requires short { N ≤ 64 }
    ensures { row.new ≡ paint_row (N * groups) (λ c _. T.pixel (paeth (numbers T.num above.now c) (T.num left) (T.num corner))) row.old }
{
    for g in 0..groups {
        let mut line = [corner; N];
        paeth_line::<T, N>(&mut line, above, N * g, left, corner);
        write_line::<T, N>(row, N * g, &line);
    }
}

/// As `pred_paeth_to`, `N` columns at a time.
#[inline(always)]
#[tactic(auto, using(av1_frame::proofs::Paint::rectangle_painting))]
fn paeth_rows<T: Pixel, const N: usize>(
    samples: &mut [T],
    stride: usize,
    area: StoredArea,
    above: &[T],
    left: &[T],
    corner: T,
    groups: usize,
)
    requires rows { AreRows stride area (length samples.old) }
    requires groups { area.width ≡ N * groups }
    requires short { N ≤ 64 }
    requires above_long { area.width ≤ length above.now }
    requires left_long { area.height ≤ length left.now }
    ensures { samples.new ≡ paint stride area (λ r c _. T.pixel (paeth (numbers T.num above.now c) (from_top T.num area.height left.now r) (T.num corner)))
        samples.old }
{
    for r in 0..area.height {
        let (_, row) = samples.split_at_mut((area.y + r) * stride + area.x);
        let side = left[area.height - 1 - r];
        paeth_row::<T, N>(row, above, groups, side, corner);
    }
}

/// Predicts the samples of a rectangle. Each becomes the sample `above` its column, the `left` sample of its row or the
/// corner `above_left`: whichever is nearest to the first two less the third. The rows of `samples` are `stride` apart.
///
/// `above` runs from the left. `left` runs from the bottom up: of as many samples as the rectangle has rows, the last
/// is next to the first row. Other samples of the sides are not read.
pub fn pred_paeth_to<T: Pixel>(
    samples: &mut [T],
    stride: usize,
    area: StoredArea,
    above: &[T],
    left: &[T],
    above_left: T,
)
    requires rows { AreRows stride area (length samples.old) }
    requires above_long { area.width ≤ length above.now }
    requires left_long { area.height ≤ length left.now }
    ensures { samples.new ≡ paint stride area (λ r c _. T.pixel (paeth (numbers T.num above.now c) (from_top T.num area.height left.now r) (T.num above_left)))
        samples.old }
{
    match area.width {
        4 => paeth_rows::<T, 4>(samples, stride, area, above, left, above_left, 1),
        8 => paeth_rows::<T, 8>(samples, stride, area, above, left, above_left, 1),
        16 => paeth_rows::<T, 16>(samples, stride, area, above, left, above_left, 1),
        32 => paeth_rows::<T, 32>(samples, stride, area, above, left, above_left, 1),
        64 => paeth_rows::<T, 32>(samples, stride, area, above, left, above_left, 2),
        _ => paeth_rows::<T, 1>(samples, stride, area, above, left, above_left, area.width),
    }
}
