//! Upsampling: decides whether a side needs it, and puts a new sample between each two of the side, in place.

ghost use Rattle.std.specs.Prelude.{◌≡◌, ℕ, ◌+◌, ◌-◌, ◌*◌, ◌/◌, ◌^◌, ◌<◌, ◌≤◌, length, unsigned_abs, pos};
ghost use Rattle.av1_frame.specs.Arithmetic.{clip};
ghost use Rattle.av1_frame.specs.Samples.{paint_row};
ghost use Rattle.av1_intra.specs.Scaffolding.{IsDoubled, IsPut};
ghost use Rattle.av1_intra.specs.Sides.{entries, numbers};
ghost use Rattle.av1_intra.specs.Upsampling.{is_upsampled, upsampled};

use crate::interpolation::eight_at;
use av1_frame::{Pixel, clip, fill_row};
use std::simd::prelude::*;

/// Whether a side of a block of `width` by `height` samples is upsampled. It is if the block is small and the angle is
/// less than 40 degrees from the side's own, but not equal to it. The arguments are those of `select_ief_strength`.
///
/// AV1 specification: intra edge upsample selection process.
#[tactic(auto, using(std::proofs::lemmas::Bool::Decides::nat_tests))]
pub fn select_ief_upsample(
    width: usize,
    height: usize,
    smooth_filter: bool,
    angle_delta: isize,
) -> bool
    requires { width + height < 2 ^ 64 }
    ensures { result ≡ is_upsampled (width + height) smooth_filter (unsigned_abs angle_delta) }
{
    let delta = angle_delta.unsigned_abs();
    let most = if smooth_filter { 8 } else { 16 };
    delta >= 1 && delta <= 39 && width + height <= most
}

/// The sample halfway between `b` and `c`, which have the neighbours `a` and `d`, clipped to the depth.
fn halfway<T: Pixel>(a: u32, b: u32, c: u32, d: u32, bit_depth: usize) -> T
    requires a { a < 2 ^ 16 }
    requires b { b < 2 ^ 16 }
    requires c { c < 2 ^ 16 }
    requires d { d < 2 ^ 16 }
    requires depth { bit_depth ≤ T.BITS }
    ensures { result ≡ T.pixel (clip bit_depth (pos ((9 * b + 9 * c + 8 - (a + d)) / 16))) }
{
    let sum = (9 * b + 9 * c + 8).saturating_sub(a + d);
    clip((sum / 16) as i32, bit_depth)
}

/// Upsamples the first `size + 1` entries of `edge`, of which entry 0 is the corner. Entry e moves to 2e, and a number
/// halfway comes between each two. Entries past `2 * size` are unchanged.
///
/// AV1 specification: intra edge upsample process.
pub fn upsample_edge<T: Pixel>(size: usize, edge: &mut [T], bit_depth: usize)
    requires size { size ≤ 61 }
    requires long { 2 * size + 1 ≤ length edge.old }
    requires depth { bit_depth ≤ T.BITS }
    ensures { edge.new ≡ paint_row (2 * size + 1) (λ e _. T.pixel (upsampled bit_depth size (numbers T.num edge.old) e)) edge.old }
{
    for e in (0..size).rev() {
        let a = edge[e.saturating_sub(1)].to_u32();
        let b = edge[e].to_u32();
        let c = edge[e + 1].to_u32();
        let d = edge[size.min(e + 2)].to_u32();
        edge[2 * e + 2] = T::from_u32(c);
        edge[2 * e + 1] = halfway(a, b, c, d, bit_depth);
    }
}

/// The numbers halfway between those of `b` and `c`, which have the neighbours `a` and `d`, clipped to the depth.
#[inline(always)]
fn halfway_eight(a: [u16; 8], b: [u16; 8], c: [u16; 8], d: [u16; 8], bit_depth: usize) -> [u16; 8]
    requires depth { bit_depth ≤ 16 }
    ensures { (k : ℕ) → k < 8 → entries result k ≡
        clip bit_depth (pos ((9 * entries b k + 9 * entries c k + 8 - (entries a k + entries d k)) / 16)) }
{
    let inner = u16x8::from_array(b).cast::<u32>() + u16x8::from_array(c).cast::<u32>();
    let outer = u16x8::from_array(a).cast::<u32>() + u16x8::from_array(d).cast::<u32>();
    let weighted = inner * u32x8::splat(9) + u32x8::splat(8);
    let halfway = weighted.saturating_sub(outer) >> u32x8::splat(4);
    let top = (1 << bit_depth) - 1;
    halfway.simd_min(u32x8::splat(top)).cast::<u16>().to_array()
}

/// Returns the entries before eight entries of a side, of which the first is `e`. The corner is before itself.
#[inline(always)]
fn eight_before(numbers: &[u16], e: usize) -> [u16; 8]
    requires { e + 8 ≤ length numbers.now }
    ensures { (k : ℕ) → k < 8 → entries result k ≡ entries numbers.now (e + k - 1) }
{
    if e == 0 {
        let moved: u16x8 = u16x8::from_slice(numbers).swizzle([0, 0, 1, 2, 3, 4, 5, 6]);
        moved.to_array()
    } else {
        eight_at(numbers, e - 1)
    }
}

/// Returns the numbers of both in turn.
#[inline(always)]
fn in_turn(first: [u16; 8], second: [u16; 8]) -> [u16; 16]
    ensures first { (k : ℕ) → k < 8 → entries result (2 * k) ≡ entries first k }
    ensures second { (k : ℕ) → k < 8 → entries result (2 * k + 1) ≡ entries second k }
{
    let both: u16x16 = u16x8::from_array(first).shuffle(
        u16x8::from_array(second),
        [0, 8, 1, 9, 2, 10, 3, 11, 4, 12, 5, 13, 6, 14, 7, 15],
    );
    both.to_array()
}

/// Puts 16 numbers into the entries from `place` on.
#[inline(always)]
fn put_sixteen(numbers: &mut [u16], place: usize, values: [u16; 16])
    requires { place + 15 < length numbers.old }
    ensures { IsPut 1 place 16 values numbers.old numbers.new }
{
    for k in 0..16 {
        numbers[place + k] = values[k];
    }
}

/// Moves the entries `e + 1` to `e + 8` of a side to twice their places, and puts the number halfway before each.
#[inline(always)]
fn put_doubled(numbers: &mut [u16; 257], e: usize, bit_depth: usize)
    requires few { e ≤ 56 }
    requires depth { bit_depth ≤ 16 }
    ensures { IsDoubled bit_depth e numbers.old numbers.new }
{
    let next = eight_at(numbers, e + 1);
    let halfway = halfway_eight(
        eight_before(numbers, e),
        eight_at(numbers, e),
        next,
        eight_at(numbers, e + 2),
        bit_depth,
    );
    put_sixteen(numbers, 2 * e + 1, in_turn(halfway, next));
}

/// Upsamples a side that has no entries past the first `size + 1`, eight entries at a time, as `upsample_edge` does.
#[inline(never)]
pub(crate) fn upsample_side(numbers: &mut [u16; 257], size: usize, bit_depth: usize)
    requires size { size ≤ 61 }
    requires past { (e : ℕ) → size < e → entries numbers.old e ≡ 0 }
    requires depth { bit_depth ≤ 16 }
    ensures { entries numbers.new ≡ upsampled bit_depth size (entries numbers.old) }
{
    numbers[size + 1] = numbers[size];
    for g in (0..(size + 7) / 8).rev() {
        put_doubled(numbers, 8 * g, bit_depth);
    }
    let (_, rest) = numbers.split_at_mut(2 * size + 1);
    fill_row(rest, 0, 16);
}
