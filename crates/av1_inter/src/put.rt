//! Predicts a block from one reference: reads its stored samples, and writes the block's samples.
//!
//! AV1 specification: block inter prediction process.

ghost use Rattle.std.specs.Prelude.{◌≡◌, ℕ, ◌+◌, ◌≤◌, ◌<◌, pos, ◌≤ℤ◌, ◌<ℤ◌, length, unsigned_abs};
ghost use Rattle.av1_frame.specs.Areas.{AreRows};
ghost use Rattle.av1_frame.specs.Samples.{paint};
ghost use Rattle.av1_frame.specs.Regions.{InStorage, painted};
ghost use Rattle.av1_inter.specs.Filters.{filter_of};
ghost use Rattle.av1_inter.specs.Motion.{single};
ghost use Rattle.av1_inter.specs.Places.{AreWithinDepth, HoldRows, IsReadFrom, corner_of, IsStoredFrom, read_beside, sample_in, samples_from};
ghost use Rattle.av1_blocks.specs.Depths.{IsDepth};

use crate::block::{Moved, filter_block, moved_by};
use crate::copies::put_copy;
use crate::strip::Strip;
use crate::taps::{read_from, taps_of_block};
use crate::writer::Samples;
use av1_blocks::FilterMode;
use av1_frame::{Pixel, PlaneRegionMut, PlaneSlice, StoredArea};

/// Predicts the samples of a rectangle from one reference. Each becomes the sample of the block in the reference, moved
/// as `moved` says. The rows of `samples` are `stride` apart.
///
/// `source` begins with the first sample that is read, and its rows are `source_stride` apart. In a direction in which
/// the block is moved by part of a sample, 3 columns (or rows) before the block and 4 after it are read. In a direction
/// in which it isn't, nothing is read beside it. The last row may end with its samples.
///
/// `mode_x` filters along the rows and `mode_y` down the columns; a side up to 4 has filters of its own. The sums are
/// rounded once after each filter, and at the end clipped to the depth.
#[inline(always)]
pub fn put_8tap_to<T: Pixel>(
    samples: &mut [T],
    stride: usize,
    area: StoredArea,
    source: &[T],
    source_stride: usize,
    moved: Moved,
    bit_depth: usize,
)
    requires rows { AreRows stride area (length samples.old) }
    requires wide { area.width ≤ 128 }
    requires high { area.height ≤ 128 }
    requires col_frac { moved.col_frac < 16 }
    requires row_frac { moved.row_frac < 16 }
    requires reach { HoldRows (length source.now) source_stride (area.width + read_beside moved.col_frac) (area.height + read_beside moved.row_frac) }
    requires depths { IsDepth bit_depth }
    requires depth { bit_depth ≤ T.BITS }
    requires within { AreWithinDepth bit_depth (sample_in T.num source.now source_stride)
        (area.width + read_beside moved.col_frac) (area.height + read_beside moved.row_frac) }
    ensures { (around : ℕ → ℕ → ℕ) →
        IsReadFrom moved.col_frac moved.row_frac area.width area.height (sample_in T.num source.now source_stride) around →
        samples.new ≡ paint stride area (λ r c _. T.pixel (single bit_depth moved.col_frac moved.row_frac
        (filter_of moved.mode_x moved.col_frac area.width) (filter_of moved.mode_y moved.row_frac area.height) around r c)) samples.old }
{
    if area.height == 0 {
        return;
    }
    let block = Strip {
        area,
        source,
        source_stride,
        bit_depth,
    };
    if moved.col_frac == 0 && moved.row_frac == 0 {
        put_copy(samples, stride, &block);
    } else {
        filter_block::<T, T, Samples>(samples, stride, &block, moved);
    }
}

/// Predicts a block from one reference. Each sample of the first `height` rows and `width` columns of `dst` becomes the
/// sample of the block at the position `src`, moved right by `col_frac` and down by `row_frac` sixteenths of a sample.
///
/// `mode_x` filters along the rows and `mode_y` down the columns; a side up to 4 has filters of its own. The sums are
/// rounded once after each filter, and at the end clipped to the depth. At every fraction, 3 columns and rows before
/// the block and 4 after it have to be stored, but only those are read that the fractions need.
#[tactic(auto, using(av1_frame::proofs::Regions::region_lending))]
pub fn put_8tap<T: Pixel>(
    dst: &mut PlaneRegionMut<'_, T>,
    src: PlaneSlice<'_, T>,
    width: usize,
    height: usize,
    col_frac: i32,
    row_frac: i32,
    mode_x: FilterMode,
    mode_y: FilterMode,
    bit_depth: usize,
)
    requires fits { InStorage dst.old }
    requires columns { width ≤ dst.old.area.width }
    requires rows { height ≤ dst.old.area.height }
    requires wide { width ≤ 128 }
    requires high { height ≤ 128 }
    requires col_frac { (pos 0 ≤ℤ col_frac) × (col_frac <ℤ pos 16) }
    requires row_frac { (pos 0 ≤ℤ row_frac) × (row_frac <ℤ pos 16) }
    requires stored { IsStoredFrom (corner_of src) (width + 7) (height + 7) }
    requires depths { IsDepth bit_depth }
    requires depth { bit_depth ≤ T.BITS }
    requires within { AreWithinDepth bit_depth (samples_from T.num (corner_of src)) (width + 7) (height + 7) }
    ensures painted { dst.new ≡ painted dst.old width height (λ r c _. T.pixel
        (single bit_depth (unsigned_abs col_frac) (unsigned_abs row_frac) (filter_of mode_x (unsigned_abs col_frac) width)
        (filter_of mode_y (unsigned_abs row_frac) height) (samples_from T.num (corner_of src.entry)) r c)) }
    ensures fits { InStorage dst.new }
{
    let moved = moved_by(col_frac, row_frac, mode_x, mode_y);
    let corner = taps_of_block(src);
    let stride = dst.plane_cfg.stride;
    let area = dst.corner(width, height);
    put_8tap_to(
        dst.rows_mut(),
        stride,
        area,
        read_from(&corner, moved),
        corner.stride(),
        moved,
        bit_depth,
    );
}
