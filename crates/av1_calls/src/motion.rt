//! Tests the arguments of motion calls, and computes which samples a block reads. Writes nothing.
ghost use Rattle.std.specs.Prelude.{◌≡◌, true, ◌≤◌, IfOk, IfErr, length, drop};
ghost use Rattle.av1_frame.specs.Samples.{row_start};
ghost use Rattle.av1_inter.specs.Places.{read_before, read_beside};
ghost use Rattle.av1_calls.specs.Motions.{AreFilters, AreFractions, AreSides, IsAverage, IsAverageFault, IsFilterNumber, IsMotion};
ghost use Rattle.av1_calls.specs.Motions.{IsMotionFault, IsPrep, IsPrepFault, IsPut, IsPutFault, IsSource, filter_along};
ghost use Rattle.av1_calls.specs.Motions.{read_for, rectangle_at};

use crate::argument::{BadArgument, are_rows, filter_mode};
use crate::samples::are_held;
use av1_blocks::FilterMode;
use av1_frame::{Pixel, StoredArea};
use av1_inter::{Moved, mode_along};

/// The number of the sharp filter.
pub const SHARP: u8 = 2;

/// The number of rav1e's sharp filter. If a side has at most 4 samples, rav1e uses the smooth filter, and AV1 uses the
/// regular one.
pub const RAV1E_SHARP: u8 = 5;

/// A block that is read between the samples of its reference.
#[repr(C)]
#[derive(Clone, Copy, Debug, PartialEq, Eq)]
pub struct MotionBlock {
    /// How many columns it has: from 1 to 128.
    pub width: usize,
    /// How many rows it has: from 1 to 128.
    pub height: usize,
    /// How far the block is moved right, in sixteenths of a sample: below 16.
    pub col_frac: u8,
    /// How far the block is moved down, in sixteenths of a sample: below 16.
    pub row_frac: u8,
    /// The number of the filter along its rows: 0 regular, 1 smooth, 2 sharp, 3 bilinear, or [`RAV1E_SHARP`].
    pub filter_x: u8,
    /// The number of the filter down its columns, as in `filter_x`.
    pub filter_y: u8,
}

/// Column `x` of row `y` of samples, in rows that are `stride` samples apart.
#[derive(Clone, Copy)]
pub struct Place {
    /// The distance between the starts of two rows, in samples.
    pub stride: usize,
    /// The column.
    pub x: usize,
    /// The row.
    pub y: usize,
}

/// The rectangle of `width` columns and `height` rows from a place on.
#[inline(always)]
pub(crate) fn rectangle_at(at: Place, width: usize, height: usize) -> StoredArea
    ensures { result ≡ rectangle_at at width height }
{
    StoredArea {
        x: at.x,
        y: at.y,
        width,
        height,
    }
}

// Whether the width and the height are from 1 to 128.
#[inline(always)]
pub(crate) fn are_sides(width: usize, height: usize) -> bool
    ensures true_is { result ≡ true → AreSides width height }
    ensures is_true { AreSides width height → result ≡ true }
{
    0 < width && width <= 128 && 0 < height && height <= 128
}

/// Whether a filter has this number.
#[inline(always)]
pub(crate) fn is_filter_number(number: u8) -> bool
    ensures true_is { result ≡ true → IsFilterNumber number }
    ensures is_true { IsFilterNumber number → result ≡ true }
{
    number < 4 || number == RAV1E_SHARP
}

#[inline(always)]
fn are_filters(block: MotionBlock) -> bool
    ensures true_is { result ≡ true → AreFilters block }
    ensures is_true { AreFilters block → result ≡ true }
{
    is_filter_number(block.filter_x) && is_filter_number(block.filter_y)
}

#[inline(always)]
fn are_fractions(block: MotionBlock) -> bool
    ensures true_is { result ≡ true → AreFractions block }
    ensures is_true { AreFractions block → result ≡ true }
{
    block.col_frac < 16 && block.row_frac < 16
}

/// The filter of a number along a side of a block. If the side has at most 4 samples, AV1 uses the regular filter for
/// the sharp one.
#[inline(always)]
pub(crate) fn filter_along(number: u8, side: usize) -> FilterMode
    ensures { result ≡ filter_along number side }
{
    if number == RAV1E_SHARP {
        FilterMode::SHARP
    } else {
        mode_along(true, filter_mode(number), side)
    }
}

/// How many columns (or rows) before a block are read, at a fraction.
#[inline(always)]
pub(crate) fn read_before(frac: u8) -> usize
    ensures value { result ≡ read_before frac }
    ensures few { result ≤ 3 }
{
    if frac == 0 { 0 } else { 3 }
}

/// How many columns (or rows) more than the block has are read, at a fraction.
#[inline(always)]
pub(crate) fn read_beside(frac: u8) -> usize
    ensures value { result ≡ read_beside frac }
    ensures few { result ≤ 7 }
{
    if frac == 0 { 0 } else { 7 }
}

// The rectangle that is read for a block.
#[inline(always)]
fn read_for(from: Place, block: MotionBlock) -> StoredArea
    requires sides { AreSides block.width block.height }
    ensures { result ≡ read_for from block }
{
    StoredArea {
        x: from.x.saturating_sub(read_before(block.col_frac)),
        y: from.y.saturating_sub(read_before(block.row_frac)),
        width: block.width + read_beside(block.col_frac),
        height: block.height + read_beside(block.row_frac),
    }
}

// Whether all that is read for a block lies in `samples` samples.
#[inline(always)]
fn is_source(from: Place, block: MotionBlock, samples: usize) -> bool
    requires sides { AreSides block.width block.height }
    ensures true_is { result ≡ true → IsSource from block samples }
    ensures is_true { IsSource from block samples → result ≡ true }
{
    read_before(block.col_frac) <= from.x
        && read_before(block.row_frac) <= from.y
        && are_held(from.stride, read_for(from, block), samples)
}

/// Tests that the block can be read from a place in `samples` samples.
///
/// # Errors
///
/// `Size`, then `Mode`, then `Fraction`, then `Area`.
#[inline(always)]
fn test_motion(from: Place, block: MotionBlock, samples: usize) -> Result<(), BadArgument>
    ensures good { IfOk result (λ _. IsMotion from block samples) }
    ensures fault { IfErr result (IsMotionFault from samples block) }
{
    if !are_sides(block.width, block.height) {
        return Err(BadArgument::Size);
    }
    if !are_filters(block) {
        return Err(BadArgument::Mode);
    }
    if !are_fractions(block) {
        return Err(BadArgument::Fraction);
    }
    if !is_source(from, block, samples) {
        return Err(BadArgument::Area);
    }
    Ok(())
}

/// Tests that the block can be read from `samples` samples, and written to a place in `room` samples.
///
/// # Errors
///
/// `Size`, then `Mode`, then `Fraction`, then `Area`.
#[inline(always)]
pub(crate) fn test_put(
    to: Place,
    room: usize,
    from: Place,
    samples: usize,
    block: MotionBlock,
) -> Result<(), BadArgument>
    ensures good { IfOk result (λ _. IsPut to room from samples block) }
    ensures fault { IfErr result (IsPutFault to room from samples block) }
{
    test_motion(from, block, samples)?;
    if are_rows(to.stride, rectangle_at(to, block.width, block.height), room) {
        Ok(())
    } else {
        Err(BadArgument::Area)
    }
}

/// Tests that the block can be read from `samples` samples, and prepared in `room` values.
///
/// # Errors
///
/// `Size`, then `Mode`, then `Fraction`, then `Area`, then `Short`.
#[inline(always)]
pub(crate) fn test_prep(
    room: usize,
    from: Place,
    samples: usize,
    block: MotionBlock,
) -> Result<(), BadArgument>
    ensures good { IfOk result (λ _. IsPrep room from samples block) }
    ensures fault { IfErr result (IsPrepFault room from samples block) }
{
    test_motion(from, block, samples)?;
    if block.height * block.width <= room {
        Ok(())
    } else {
        Err(BadArgument::Short)
    }
}

/// Tests that two prepared blocks have these dimensions, and that their average can be written to a place in `room`
/// samples. The blocks have `first` and `second` values.
///
/// # Errors
///
/// `Size`, then `Area`, then `Short`.
#[inline(always)]
pub(crate) fn test_average(
    to: Place,
    room: usize,
    width: usize,
    height: usize,
    first: usize,
    second: usize,
) -> Result<(), BadArgument>
    ensures good { IfOk result (λ _. IsAverage to room width height first second) }
    ensures fault { IfErr result (IsAverageFault to room width height first second) }
{
    if !are_sides(width, height) {
        return Err(BadArgument::Size);
    }
    if !are_rows(to.stride, rectangle_at(to, width, height), room) {
        return Err(BadArgument::Area);
    }
    if first < height * width || second < height * width {
        return Err(BadArgument::Short);
    }
    Ok(())
}

/// How far the block is moved, and its filters.
#[inline(always)]
pub(crate) fn moved_by(block: MotionBlock) -> Moved
    ensures col_frac { result.col_frac ≡ block.col_frac }
    ensures row_frac { result.row_frac ≡ block.row_frac }
    ensures mode_x { result.mode_x ≡ filter_along block.filter_x block.width }
    ensures mode_y { result.mode_y ≡ filter_along block.filter_y block.height }
{
    Moved {
        col_frac: usize::from(block.col_frac),
        row_frac: usize::from(block.row_frac),
        mode_x: filter_along(block.filter_x, block.width),
        mode_y: filter_along(block.filter_y, block.height),
    }
}

/// The samples from the first one on that is read for a block.
#[inline(always)]
pub(crate) fn read_from<T: Pixel>(samples: &[T], from: Place, block: MotionBlock) -> &[T]
    requires { IsMotion from block (length samples.now) }
    ensures { result.now ≡ drop (row_start from.stride (read_for from block) 0) samples.now }
{
    let area = read_for(from, block);
    let (_, read) = samples.split_at(area.y * from.stride + area.x);
    read
}
