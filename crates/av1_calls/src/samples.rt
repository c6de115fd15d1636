//! Tests whether the caller's samples fit a depth, and whether a rectangle lies in them. Writes nothing.
ghost use Rattle.std.specs.Prelude.{◌≡◌, true, ℕ, ◌+◌, ◌*◌, ◌^◌, ◌<◌, ◌≤◌, length, slice_index};
ghost use Rattle.av1_blocks.specs.Depths.{IsDepth};
ghost use Rattle.av1_calls.specs.Samples.{AreBelow, AreHeld, AreLanesBelow, IsGreatest, TakesIn, TakesInRows, rectangle_of};

use crate::argument::are_rows;
use av1_frame::StoredArea;
use std::simd::prelude::*;

// Reads each sample, so that the proof knows that it has 8 bits. This compiles to nothing.
pub(crate) fn have_8_bits(samples: &[u8])
    ensures { (i : ℕ) → i < length samples.now → slice_index samples.now i < 256 }
{
    for i in 0..samples.len() {
        let _sample = samples[i];
    }
}

fn sample_at(samples: &[u16], i: usize) -> u16
    requires { i < length samples.now }
    ensures { result ≡ slice_index samples.now i }
{
    samples[i]
}

fn greater(a: u16, b: u16) -> u16
    ensures above_first { a ≤ result }
    ensures above_second { b ≤ result }
    ensures reached { (bound : ℕ) → a ≤ bound → b ≤ bound → result ≤ bound }
{
    if a < b { b } else { a }
}

// The greatest of `least` and of `count` samples from `start` on.
fn greatest_from(samples: &[u16], start: usize, count: usize, least: u16) -> u16
    requires long { start + count ≤ length samples.now }
    ensures above { least ≤ result }
    ensures each { (i : ℕ) → i < count → slice_index samples.now (start + i) ≤ result }
    ensures reached { (bound : ℕ) → least ≤ bound → ((i : ℕ) → i < count → slice_index samples.now (start + i) ≤ bound) → result ≤ bound }
{
    let mut greatest = least;
    for i in 0..count {
        greatest = greater(greatest, sample_at(samples, start + i));
    }
    greatest
}

// The greatest sample of a rectangle, or 0 if the rectangle has none.
fn greatest_of(samples: &[u16], stride: usize, area: StoredArea) -> u16
    requires { AreHeld stride area (length samples.now) }
    ensures { IsGreatest stride area samples.now result }
{
    let mut greatest = 0;
    for r in 0..area.height {
        let start = (area.y + r) * stride + area.x;
        greatest = greatest_from(samples, start, area.width, greatest);
    }
    greatest
}

// The greater of each lane and its sample among the eight samples from `start` on.
#[inline(always)]
fn with_eight(greatest: u16x8, samples: &[u16], start: usize) -> u16x8
    requires { start + 8 ≤ length samples.now }
    ensures { TakesIn samples.now start 8 greatest result }
{
    greatest.simd_max(u16x8::from_slice(&samples[start..]))
}

// Takes in a row from `start` on, eight samples at a time. If the width is not a multiple of 8, the last eight samples
// overlap those before.
#[inline(always)]
fn with_row(greatest: u16x8, samples: &[u16], start: usize, width: usize, eights: usize) -> u16x8
    requires some { 8 ≤ width }
    requires eights { 8 * eights ≤ width }
    requires rest { width ≤ 8 * eights + 8 }
    requires long { start + width ≤ length samples.now }
    ensures { TakesIn samples.now start width greatest result }
{
    let mut lanes = greatest;
    for k in 0..eights {
        lanes = with_eight(lanes, samples, start + 8 * k);
    }
    with_eight(lanes, samples, start + width - 8)
}

// Eight lanes of greatest samples of a rectangle. Each sample of the rectangle counts in at least one lane.
#[inline(always)]
fn greatest_lanes(samples: &[u16], stride: usize, area: StoredArea, eights: usize) -> u16x8
    requires rows { AreHeld stride area (length samples.now) }
    requires some { 8 ≤ area.width }
    requires eights { 8 * eights ≤ area.width }
    requires rest { area.width ≤ 8 * eights + 8 }
    ensures { TakesInRows stride area samples.now area.height result }
{
    let mut lanes = u16x8::splat(0);
    for r in 0..area.height {
        let start = (area.y + r) * stride + area.x;
        lanes = with_row(lanes, samples, start, area.width, eights);
    }
    lanes
}

#[inline(always)]
fn are_lanes_below(lanes: u16x8, bound: u16) -> bool
    ensures true_is { result ≡ true → AreLanesBelow bound lanes }
    ensures is_true { AreLanesBelow bound lanes → result ≡ true }
{
    lanes.simd_ge(u16x8::splat(bound)).to_bitmask() == 0
}

// Whether each sample of a rectangle is below a bound. A row has at least `eights` times 8 samples and at most 8 more.
#[inline(always)]
fn are_wide_below(
    samples: &[u16],
    stride: usize,
    area: StoredArea,
    eights: usize,
    bound: u16,
) -> bool
    requires rows { AreHeld stride area (length samples.now) }
    requires some { 0 < bound }
    requires some_columns { 8 ≤ area.width }
    requires eights { 8 * eights ≤ area.width }
    requires rest { area.width ≤ 8 * eights + 8 }
    ensures true_is { result ≡ true → AreBelow bound stride area samples.now }
    ensures is_true { AreBelow bound stride area samples.now → result ≡ true }
{
    are_lanes_below(greatest_lanes(samples, stride, area, eights), bound)
}

// Whether each sample is below a bound, in the rectangle of these dimensions at column `x` of row `y`.
#[inline(never)]
fn are_any_below(
    samples: &[u16],
    stride: usize,
    x: usize,
    y: usize,
    width: usize,
    height: usize,
    bound: u16,
) -> bool
    requires rows { AreHeld stride (rectangle_of x y width height) (length samples.now) }
    requires some { 0 < bound }
    ensures true_is { result ≡ true → AreBelow bound stride (rectangle_of x y width height) samples.now }
    ensures is_true { AreBelow bound stride (rectangle_of x y width height) samples.now → result ≡ true }
{
    let area = StoredArea {
        x,
        y,
        width,
        height,
    };
    if width < 8 {
        greatest_of(samples, stride, area) < bound
    } else {
        are_wide_below(samples, stride, area, (width - 1) / 8, bound)
    }
}

// Whether each sample of a rectangle is below a bound, with a separate loop for each usual width. The dimensions are
// separate arguments, so that they are passed in registers.
#[inline(never)]
fn are_below(
    samples: &[u16],
    stride: usize,
    x: usize,
    y: usize,
    width: usize,
    height: usize,
    bound: u16,
) -> bool
    requires rows { AreHeld stride (rectangle_of x y width height) (length samples.now) }
    requires some { 0 < bound }
    ensures true_is { result ≡ true → AreBelow bound stride (rectangle_of x y width height) samples.now }
    ensures is_true { AreBelow bound stride (rectangle_of x y width height) samples.now → result ≡ true }
{
    let area = StoredArea {
        x,
        y,
        width,
        height,
    };
    if width < 8 {
        return are_any_below(samples, stride, x, y, width, height, bound);
    }
    match (width - 1) / 8 {
        0 => are_wide_below(samples, stride, area, 0, bound),
        1 => are_wide_below(samples, stride, area, 1, bound),
        2 => are_wide_below(samples, stride, area, 2, bound),
        3 => are_wide_below(samples, stride, area, 3, bound),
        4 => are_wide_below(samples, stride, area, 4, bound),
        7 => are_wide_below(samples, stride, area, 7, bound),
        8 => are_wide_below(samples, stride, area, 8, bound),
        16 => are_wide_below(samples, stride, area, 16, bound),
        _ => are_any_below(samples, stride, x, y, width, height, bound),
    }
}

// The least number that is past the depth.
#[inline(always)]
fn bound_of(bit_depth: usize) -> u16
    requires { IsDepth bit_depth }
    ensures { result ≡ 2 ^ bit_depth }
{
    1 << bit_depth
}

// Whether no sample of a rectangle is past the depth. The last row may end with its samples.
#[inline(always)]
pub(crate) fn are_within(samples: &[u16], stride: usize, area: StoredArea, bit_depth: usize) -> bool
    requires rows { AreHeld stride area (length samples.now) }
    requires depths { IsDepth bit_depth }
    ensures true_is { result ≡ true → AreBelow (2 ^ bit_depth) stride area samples.now }
    ensures is_true { AreBelow (2 ^ bit_depth) stride area samples.now → result ≡ true }
{
    are_below(
        samples,
        stride,
        area.x,
        area.y,
        area.width,
        area.height,
        bound_of(bit_depth),
    )
}

// Whether row `last` ends in `samples` samples. The product has twice the bits of a `usize`, so it can't overflow.
#[inline(always)]
fn ends_within(last: usize, stride: usize, right: usize, samples: usize) -> bool
    ensures true_is { result ≡ true → last * stride + right ≤ samples }
    ensures is_true { last * stride + right ≤ samples → result ≡ true }
{
    last as u128 * stride as u128 + right as u128 <= samples as u128
}

/// Whether each row of the rectangle ends in `samples` samples, in rows of this stride.
#[inline(always)]
pub(crate) fn are_held(stride: usize, area: StoredArea, samples: usize) -> bool
    requires { 0 < area.height }
    ensures true_is { result ≡ true → AreHeld stride area samples }
    ensures is_true { AreHeld stride area samples → result ≡ true }
{
    let Some(right) = area.x.checked_add(area.width) else {
        return false;
    };
    let Some(last) = area.y.checked_add(area.height - 1) else {
        return false;
    };
    0 < stride && right <= stride && samples < 1 << 63 && ends_within(last, stride, right, samples)
}

/// Whether each row of the rectangle ends in `samples` samples, in rows of this stride. A rectangle may have no rows.
pub fn is_readable(stride: usize, area: StoredArea, samples: usize) -> bool
    ensures true_is { result ≡ true → AreHeld stride area samples }
    ensures is_true { AreHeld stride area samples → result ≡ true }
{
    if area.height == 0 {
        let none = StoredArea {
            x: area.x,
            y: 0,
            width: area.width,
            height: 0,
        };
        are_rows(stride, none, samples)
    } else {
        are_held(stride, area, samples)
    }
}
