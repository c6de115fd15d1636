//! Prepares a block for the average with another: reads a reference, and writes values to a buffer.
//!
//! AV1 specification: block inter prediction process, with the rounding of compound prediction.

ghost use Rattle.std.specs.Prelude.{◌≡◌, ℕ, ◌+◌, ◌*◌, ◌≤◌, ◌<◌, pos, ◌≤ℤ◌, ◌<ℤ◌, length, unsigned_abs};
ghost use Rattle.av1_inter.specs.Filters.{filter_of};
ghost use Rattle.av1_inter.specs.Motion.{entry, prepared};
ghost use Rattle.av1_inter.specs.Places.{AreWithinDepth, HoldRows, IsReadFrom, corner_of, IsStoredFrom, read_beside, sample_in, samples_from};
ghost use Rattle.av1_blocks.specs.Depths.{IsDepth};

use crate::block::{Moved, filter_block, moved_by};
use crate::copies::prepare_copy;
use crate::strip::Strip;
use crate::taps::{read_from, taps_of_block};
use crate::writer::Prepared;
use av1_blocks::FilterMode;
use av1_frame::{Pixel, PlaneSlice, StoredArea};

/// Prepares a block for the average with another. Entry `r * width + c` of `tmp` becomes the value for row r and column
/// c of the block in the reference, moved as `moved` says. The value has more bits than a sample. If the depth is over
/// 8, a bias is subtracted, so that it fits 16 bits. All other entries are unchanged.
///
/// Filters and the samples that are read are as in `put_8tap_to`.
#[inline(always)]
pub fn prep_8tap_from<T: Pixel>(
    tmp: &mut [i16],
    source: &[T],
    source_stride: usize,
    width: usize,
    height: usize,
    moved: Moved,
    bit_depth: usize,
)
    requires tmp_long { height * width ≤ length tmp.old }
    requires wide { width ≤ 128 }
    requires high { height ≤ 128 }
    requires col_frac { moved.col_frac < 16 }
    requires row_frac { moved.row_frac < 16 }
    requires reach { HoldRows (length source.now) source_stride (width + read_beside moved.col_frac) (height + read_beside moved.row_frac) }
    requires depths { IsDepth bit_depth }
    requires within { AreWithinDepth bit_depth (sample_in T.num source.now source_stride)
        (width + read_beside moved.col_frac) (height + read_beside moved.row_frac) }
    ensures value { (around : ℕ → ℕ → ℕ) →
        IsReadFrom moved.col_frac moved.row_frac width height (sample_in T.num source.now source_stride) around →
        (r c : ℕ) → r < height → c < width → entry tmp.new (r * width + c) ≡ prepared bit_depth moved.col_frac moved.row_frac
        (filter_of moved.mode_x moved.col_frac width) (filter_of moved.mode_y moved.row_frac height) around r c }
    ensures others { (i : ℕ) → height * width ≤ i → entry tmp.new i ≡ entry tmp.old i }
{
    if width == 0 {
        return;
    }
    if height == 0 {
        return;
    }
    let block = Strip {
        area: StoredArea {
            x: 0,
            y: 0,
            width,
            height,
        },
        source,
        source_stride,
        bit_depth,
    };
    if moved.col_frac == 0 && moved.row_frac == 0 {
        prepare_copy(tmp, width, &block);
    } else {
        filter_block::<T, i16, Prepared>(tmp, width, &block, moved);
    }
}

/// Prepares a block for the average with another. Entry `r * width + c` of `tmp` becomes the value for row r and column
/// c of the block at the position `src`, moved right by `col_frac` and down by `row_frac` sixteenths of a sample. The
/// value has more bits than a sample. If the depth is over 8, a bias is subtracted, so that it fits 16 bits. All other
/// entries are unchanged.
///
/// Filters and stored samples are as in `put_8tap`.
pub fn prep_8tap<T: Pixel>(
    tmp: &mut [i16],
    src: PlaneSlice<'_, T>,
    width: usize,
    height: usize,
    col_frac: i32,
    row_frac: i32,
    mode_x: FilterMode,
    mode_y: FilterMode,
    bit_depth: usize,
)
    requires tmp_long { height * width ≤ length tmp.old }
    requires wide { width ≤ 128 }
    requires high { height ≤ 128 }
    requires col_frac { (pos 0 ≤ℤ col_frac) × (col_frac <ℤ pos 16) }
    requires row_frac { (pos 0 ≤ℤ row_frac) × (row_frac <ℤ pos 16) }
    requires stored { IsStoredFrom (corner_of src) (width + 7) (height + 7) }
    requires depths { IsDepth bit_depth }
    requires within { AreWithinDepth bit_depth (samples_from T.num (corner_of src)) (width + 7) (height + 7) }
    ensures value { (r c : ℕ) → r < height → c < width → entry tmp.new (r * width + c) ≡
        prepared bit_depth (unsigned_abs col_frac) (unsigned_abs row_frac) (filter_of mode_x (unsigned_abs col_frac) width)
        (filter_of mode_y (unsigned_abs row_frac) height) (samples_from T.num (corner_of src.entry)) r c }
    ensures others { (i : ℕ) → height * width ≤ i → entry tmp.new i ≡ entry tmp.old i }
{
    let moved = moved_by(col_frac, row_frac, mode_x, mode_y);
    let corner = taps_of_block(src);
    let source = read_from(&corner, moved);
    let source_stride = corner.stride();
    prep_8tap_from(tmp, source, source_stride, width, height, moved, bit_depth);
}
