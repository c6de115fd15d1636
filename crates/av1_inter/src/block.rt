//! Filters a block along its rows, down its columns, or both. Writes only the block's samples or values.
//!
//! AV1 specification: block inter prediction process.

ghost use Rattle.std.specs.Prelude.{◌≡◌, ◌≢◌, ◌⊎◌, ◌<◌, ◌≤ℤ◌, ◌<ℤ◌, pos, length, unsigned_abs};
ghost use Rattle.av1_frame.specs.Areas.{AreRows};
ghost use Rattle.av1_frame.specs.Samples.{paint};
ghost use Rattle.av1_inter.specs.Filters.{filter_of};
ghost use Rattle.av1_inter.specs.Places.{read_beside};
ghost use Rattle.av1_inter.specs.Scaffolding.{halved, IsBlock, sample_of, value_of};

use crate::filter::get_filter;
use crate::one_filter::filter_once;
use crate::strip::{Strip, Taps};
use crate::two_filters::{Halves, filter_twice};
use crate::writer::Writer;
use av1_blocks::FilterMode;
use av1_frame::Pixel;

/// How far a block is moved from the place at which it is read, and the filters for these directions.
#[derive(Clone, Copy)]
pub struct Moved {
    /// How far it is moved right, in sixteenths of a sample: below 16.
    pub col_frac: usize,
    /// How far it is moved down, in sixteenths of a sample: below 16.
    pub row_frac: usize,
    /// The filter along its rows.
    pub mode_x: FilterMode,
    /// The filter down its columns.
    pub mode_y: FilterMode,
}

/// Makes a `Moved` from fractions as rav1e passes them.
#[inline(always)]
pub(crate) fn moved_by(
    col_frac: i32,
    row_frac: i32,
    mode_x: FilterMode,
    mode_y: FilterMode,
) -> Moved
    requires col_frac { (pos 0 ≤ℤ col_frac) × (col_frac <ℤ pos 16) }
    requires row_frac { (pos 0 ≤ℤ row_frac) × (row_frac <ℤ pos 16) }
    ensures small { (result.col_frac < 16) × (result.row_frac < 16) }
    ensures col_frac { result.col_frac ≡ unsigned_abs col_frac }
    ensures row_frac { result.row_frac ≡ unsigned_abs row_frac }
    ensures mode_x { result.mode_x ≡ mode_x }
    ensures mode_y { result.mode_y ≡ mode_y }
{
    Moved {
        col_frac: col_frac.unsigned_abs() as usize,
        row_frac: row_frac.unsigned_abs() as usize,
        mode_x,
        mode_y,
    }
}

/// Writes the entries of a block that is moved by part of a sample. In a direction in which it isn't, nothing is read
/// beside the block.
#[inline(never)]
pub(crate) fn filter_block<T: Pixel, E: Copy, W: Writer<E>>(
    target: &mut [E],
    stride: usize,
    block: &Strip<'_, T>,
    moved: Moved,
)
    requires rows { AreRows stride block.now.area (length target.old) }
    requires block { IsBlock T.num (read_beside moved.col_frac) (read_beside moved.row_frac) block.now }
    requires serves { W.serves block.now.bit_depth }
    requires col_frac { moved.col_frac < 16 }
    requires row_frac { moved.row_frac < 16 }
    requires some { (moved.col_frac ≢ 0) ⊎ (moved.row_frac ≢ 0) }
    ensures { let depth = block.now.bit_depth in let a = block.now.area in
        target.new ≡ paint stride a (λ r c _. W.written depth (value_of (W.roundings depth) depth moved.col_frac moved.row_frac
        (halved (filter_of moved.mode_x moved.col_frac a.width)) (halved (filter_of moved.mode_y moved.row_frac a.height))
        (sample_of T.num block.now) r c)) target.old }
{
    let depth = block.bit_depth;
    if moved.row_frac == 0 {
        let taps = Taps {
            start: 0,
            step: 1,
            halves: get_filter(moved.mode_x, moved.col_frac, block.area.width),
            rounding: W::roundings(depth).rows,
        };
        filter_once::<T, E, W>(target, stride, block, &taps);
    } else if moved.col_frac == 0 {
        let taps = Taps {
            start: 0,
            step: block.source_stride,
            halves: get_filter(moved.mode_y, moved.row_frac, block.area.height),
            rounding: W::roundings(depth).columns,
        };
        filter_once::<T, E, W>(target, stride, block, &taps);
    } else {
        let halves = Halves {
            across: get_filter(moved.mode_x, moved.col_frac, block.area.width),
            down: get_filter(moved.mode_y, moved.row_frac, block.area.height),
        };
        filter_twice::<T, E, W>(target, stride, block, &halves);
    }
}
