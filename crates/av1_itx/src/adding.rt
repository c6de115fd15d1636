//! Adds residuals to the samples of a rectangle and clips them, in place: eight at a time, or four in narrow rows.
//!
//! A word is in registers before the first sample is written, so that a compiler can treat all its lanes at the same
//! time.

ghost use Rattle.std.specs.Prelude.{◌≡◌, ℕ, ◌+◌, ◌*◌, ◌/◌, ◌<◌, ◌≤◌, ◌⊎◌, pos, ◌+ℤ◌, List, length};
ghost use Rattle.av1_dct.specs.Arithmetic.{at, FitsBits};
ghost use Rattle.av1_frame.specs.Areas.{AreRows};
ghost use Rattle.av1_frame.specs.Arithmetic.{clip, round_shift};
ghost use Rattle.av1_frame.specs.Samples.{paint, paint_row};

use crate::columns::LANES;
use crate::words::BlockWord;
use av1_frame::{Pixel, StoredArea, clip};
use std::simd::prelude::*;

/// The depth of samples of a type, which the compiler knows if they have one byte.
#[inline(always)]
pub(crate) fn depth_of<T: Pixel>(bd: usize) -> usize
    requires depths { 8 ≤ bd }
    requires depth { bd ≤ T.BITS }
    ensures { result ≡ bd }
{
    if T::BITS == 8 { 8 } else { bd }
}

// The sample v with a residual added.
#[inline(always)]
fn add_one<T: Pixel>(v: T, residue: i32, bd: usize) -> T
    requires depths { 8 ≤ bd }
    requires depth { bd ≤ T.BITS }
    requires fits { FitsBits 24 residue }
    ensures { result ≡ T.pixel (clip bd (pos (T.num v) +ℤ residue)) }
{
    clip(v.to_i32() + residue, depth_of::<T>(bd))
}

// The results of the columns, rounded by no bits or by four.
#[inline(always)]
fn residues_of<W: BlockWord, const SHIFT: usize>(z: W) -> W
    requires shift_in { (SHIFT ≡ 0) ⊎ (SHIFT ≡ 4) }
    requires fits { (i : ℕ) → i < W.LANES → FitsBits 24 (W.lane_of z i) }
    ensures { (i : ℕ) → i < W.LANES → W.lane_of result i ≡ round_shift (W.lane_of z i) SHIFT }
{
    if SHIFT == 0 {
        return z;
    }
    z.plus(W::splat(8)).halve().halve().halve().halve()
}

// Adds residuals to the samples from `start` on, one in each lane.
#[inline(always)]
fn add_word<T: Pixel, W: BlockWord>(samples: &mut [T], start: usize, residues: W, bd: usize)
    requires room { start + W.LANES ≤ length samples.old }
    requires depths { 8 ≤ bd }
    requires depth { bd ≤ T.BITS }
    requires fits { (i : ℕ) → i < W.LANES → FitsBits 24 (W.lane_of residues i) }
    ensures { (f : ℕ → T → T) (s : List T) → samples.old ≡ paint_row start f s →
        ((i : ℕ) (v : T) → i < W.LANES → T.pixel (clip bd (pos (T.num v) +ℤ W.lane_of residues i)) ≡ f (start + i) v) →
        samples.new ≡ paint_row (start + W.LANES) f s }
{
    for i in 0..W::LANES {
        samples[start + i] = add_one(samples[start + i], residues.lane(i), bd);
    }
}

// Adds the values from `start` on to the row's first w samples, as many at a time as a word has lanes.
#[inline(always)]
fn add_row<T: Pixel, W: BlockWord, const SHIFT: usize>(
    samples: &mut [T],
    buffer: &[i32],
    start: usize,
    w: usize,
    bd: usize,
)
    requires some { 0 < W.LANES }
    requires whole { W.LANES * (w / W.LANES) ≡ w }
    requires row_long { w ≤ length samples.old }
    requires buffer_long { start + w ≤ length buffer.now }
    requires depths { 8 ≤ bd }
    requires depth { bd ≤ T.BITS }
    requires shift_in { (SHIFT ≡ 0) ⊎ (SHIFT ≡ 4) }
    requires fit { (c : ℕ) → c < w → FitsBits 24 (at buffer.now (start + c)) }
    ensures { samples.new ≡ paint_row w (λ c v. T.pixel (clip bd (pos (T.num v) +ℤ round_shift (at buffer.now (start + c)) SHIFT))) samples.old }
{
    let m = W::LANES;
    for g in 0..w / m {
        let residues = residues_of::<W, SHIFT>(W::read(buffer, start + m * g));
        add_word(samples, m * g, residues, bd);
    }
}

// Adds the values, row by row, to the samples of the rectangle, as many at a time as a word has lanes.
#[inline(always)]
#[tactic(auto, using(av1_frame::proofs::Paint::rectangle_painting))]
fn add_rows<T: Pixel, W: BlockWord, const SHIFT: usize>(
    samples: &mut [T],
    stride: usize,
    area: StoredArea,
    buffer: &[i32],
    bd: usize,
)
    requires some { 0 < W.LANES }
    requires whole { W.LANES * (area.width / W.LANES) ≡ area.width }
    requires rows { AreRows stride area (length samples.old) }
    requires buffer_long { length buffer.now ≡ area.height * area.width }
    requires depths { 8 ≤ bd }
    requires depth { bd ≤ T.BITS }
    requires shift_in { (SHIFT ≡ 0) ⊎ (SHIFT ≡ 4) }
    requires fit { (r c : ℕ) → r < area.height → c < area.width → FitsBits 24 (at buffer.now (r * area.width + c)) }
    ensures { samples.new ≡ paint stride area (λ r c v. T.pixel (clip bd (pos (T.num v) +ℤ round_shift (at buffer.now (r * area.width + c)) SHIFT)))
        samples.old }
{
    let width = area.width;
    for r in 0..area.height {
        let (_, row) = samples.split_at_mut((area.y + r) * stride + area.x);
        add_row::<T, W, SHIFT>(row, buffer, r * width, width, bd);
    }
}

// Adds the values, row by row, to the samples of the rectangle, eight at a time, or four if a row has no more.
#[inline(always)]
fn add_rounded<T: Pixel, const SHIFT: usize>(
    samples: &mut [T],
    stride: usize,
    area: StoredArea,
    buffer: &[i32],
    bd: usize,
)
    requires fours { 4 * (area.width / 4) ≡ area.width }
    requires eights { 8 ≤ area.width → 8 * (area.width / 8) ≡ area.width }
    requires rows { AreRows stride area (length samples.old) }
    requires buffer_long { length buffer.now ≡ area.height * area.width }
    requires depths { 8 ≤ bd }
    requires depth { bd ≤ T.BITS }
    requires shift_in { (SHIFT ≡ 0) ⊎ (SHIFT ≡ 4) }
    requires fit { (r c : ℕ) → r < area.height → c < area.width → FitsBits 24 (at buffer.now (r * area.width + c)) }
    ensures { samples.new ≡ paint stride area (λ r c v. T.pixel (clip bd (pos (T.num v) +ℤ round_shift (at buffer.now (r * area.width + c)) SHIFT)))
        samples.old }
{
    if area.width < LANES {
        add_rows::<T, i32x4, SHIFT>(samples, stride, area, buffer, bd);
    } else {
        add_rows::<T, i32x8, SHIFT>(samples, stride, area, buffer, bd);
    }
}

/// Adds the values, row by row, to the samples of the rectangle, each rounded by `shift` bits.
#[inline(always)]
pub(crate) fn add_all<T: Pixel>(
    samples: &mut [T],
    stride: usize,
    area: StoredArea,
    buffer: &[i32],
    shift: usize,
    bd: usize,
)
    requires fours { 4 * (area.width / 4) ≡ area.width }
    requires eights { 8 ≤ area.width → 8 * (area.width / 8) ≡ area.width }
    requires rows { AreRows stride area (length samples.old) }
    requires buffer_long { length buffer.now ≡ area.height * area.width }
    requires depths { 8 ≤ bd }
    requires depth { bd ≤ T.BITS }
    requires shift_in { (shift ≡ 0) ⊎ (shift ≡ 4) }
    requires fit { (r c : ℕ) → r < area.height → c < area.width → FitsBits 24 (at buffer.now (r * area.width + c)) }
    ensures { samples.new ≡ paint stride area (λ r c v. T.pixel (clip bd (pos (T.num v) +ℤ round_shift (at buffer.now (r * area.width + c)) shift)))
        samples.old }
{
    if shift == 0 {
        add_rounded::<T, 0>(samples, stride, area, buffer, bd);
    } else {
        add_rounded::<T, 4>(samples, stride, area, buffer, bd);
    }
}

// Adds one residual to the row's first w samples, as many at a time as a word has lanes.
#[inline(always)]
fn raise_row<T: Pixel, W: BlockWord>(samples: &mut [T], residue: i32, w: usize, bd: usize)
    requires some { 0 < W.LANES }
    requires whole { W.LANES * (w / W.LANES) ≡ w }
    requires row_long { w ≤ length samples.old }
    requires depths { 8 ≤ bd }
    requires depth { bd ≤ T.BITS }
    requires fits { FitsBits 24 residue }
    ensures { samples.new ≡ paint_row w (λ _ v. T.pixel (clip bd (pos (T.num v) +ℤ residue))) samples.old }
{
    let m = W::LANES;
    let residues = W::splat(residue);
    for g in 0..w / m {
        add_word(samples, m * g, residues, bd);
    }
}

// Adds one residual to the samples of the rectangle, as many at a time as a word has lanes.
#[tactic(auto, using(av1_frame::proofs::Paint::rectangle_painting))]
fn raise_rows<T: Pixel, W: BlockWord>(
    samples: &mut [T],
    stride: usize,
    area: StoredArea,
    residue: i32,
    bd: usize,
)
    requires some { 0 < W.LANES }
    requires whole { W.LANES * (area.width / W.LANES) ≡ area.width }
    requires rows { AreRows stride area (length samples.old) }
    requires depths { 8 ≤ bd }
    requires depth { bd ≤ T.BITS }
    requires fits { FitsBits 24 residue }
    ensures { samples.new ≡ paint stride area (λ _ _ v. T.pixel (clip bd (pos (T.num v) +ℤ residue))) samples.old }
{
    for r in 0..area.height {
        let (_, row) = samples.split_at_mut((area.y + r) * stride + area.x);
        raise_row::<T, W>(row, residue, area.width, bd);
    }
}

/// Adds one residual to the samples of the rectangle.
#[inline(always)]
pub(crate) fn raise_all<T: Pixel>(
    samples: &mut [T],
    stride: usize,
    area: StoredArea,
    residue: i32,
    bd: usize,
)
    requires fours { 4 * (area.width / 4) ≡ area.width }
    requires eights { 8 ≤ area.width → 8 * (area.width / 8) ≡ area.width }
    requires rows { AreRows stride area (length samples.old) }
    requires depths { 8 ≤ bd }
    requires depth { bd ≤ T.BITS }
    requires fits { FitsBits 24 residue }
    ensures { samples.new ≡ paint stride area (λ _ _ v. T.pixel (clip bd (pos (T.num v) +ℤ residue))) samples.old }
{
    if area.width < LANES {
        raise_rows::<T, i32x4>(samples, stride, area, residue, bd);
    } else {
        raise_rows::<T, i32x8>(samples, stride, area, residue, bd);
    }
}
