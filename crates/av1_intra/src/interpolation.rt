//! Interpolates between the samples of a side. Predicts rectangles at angles below 90, and writes only these.

ghost use Rattle.std.specs.Prelude.{◌≡◌, ℕ, ◌+◌, ◌-◌, ◌*◌, ◌/◌, ◌^◌, ◌<◌, ◌≤◌, length, pos, List};
ghost use Rattle.av1_frame.specs.Areas.{AreRows};
ghost use Rattle.av1_frame.specs.Arithmetic.{clip};
ghost use Rattle.av1_frame.specs.Samples.{paint, paint_row};
ghost use Rattle.av1_intra.specs.Sides.{entries};
ghost use Rattle.av1_intra.specs.Directional.{at, below_90};
ghost use Rattle.av1_intra.specs.Scaffolding.{IsRepeated};

use crate::filtered_side::FilteredSide;
use av1_frame::{Pixel, StoredArea};
use std::simd::prelude::*;

/// Returns eight entries of a side, from entry `e` on.
#[inline(always)]
pub(crate) fn eight_at(numbers: &[u16], e: usize) -> [u16; 8]
    requires { e + 8 ≤ length numbers.now }
    ensures { (k : ℕ) → k < 8 → entries result k ≡ entries numbers.now (e + k) }
{
    u16x8::from_slice(&numbers[e..]).to_array()
}

/// Returns every second of 16 entries of a side, from entry `e` on.
#[inline(always)]
fn every_second(numbers: &[u16], e: usize) -> [u16; 8]
    requires { e + 16 ≤ length numbers.now }
    ensures { (k : ℕ) → k < 8 → entries result k ≡ entries numbers.now (e + k * 2) }
{
    let second: u16x8 = u16x16::from_slice(&numbers[e..]).swizzle([0, 2, 4, 6, 8, 10, 12, 14]);
    second.to_array()
}

/// Returns eight entries of a side from entry `e` on, one for each place. `UPSAMPLING` is the side's upsampling, known
/// to the compiler.
#[inline(always)]
fn eight_places<const UPSAMPLING: usize>(numbers: &[u16], e: usize) -> [u16; 8]
    requires upsampling { UPSAMPLING ≤ 1 }
    requires inside { e + 8 * 2 ^ UPSAMPLING ≤ length numbers.now }
    ensures { (k : ℕ) → k < 8 → entries result k ≡ entries numbers.now (e + k * 2 ^ UPSAMPLING) }
{
    if UPSAMPLING == 0 {
        eight_at(numbers, e)
    } else {
        every_second(numbers, e)
    }
}

/// Returns the numbers between those of `near` and `far`, `z` 32nds past the first.
#[inline(always)]
fn between_eight(near: [u16; 8], far: [u16; 8], z: u32, bit_depth: usize) -> [u16; 8]
    requires z { z ≤ 32 }
    requires depth { bit_depth ≤ 16 }
    ensures { (k : ℕ) → k < 8 → entries result k ≡ clip bit_depth (pos ((entries near k * (32 - z) + entries far k * z + 16) / 32)) }
{
    let near = u16x8::from_array(near).cast::<u32>() * u32x8::splat(32 - z);
    let far = u16x8::from_array(far).cast::<u32>() * u32x8::splat(z);
    let mean = (near + far + u32x8::splat(16)) >> u32x8::splat(5);
    let top = (1 << bit_depth) - 1;
    mean.simd_min(u32x8::splat(top)).cast::<u16>().to_array()
}

/// Interpolates eight numbers from `n / 64` past the corner of a side on. `UPSAMPLING` is the side's upsampling, known
/// to the compiler.
#[inline(always)]
fn eight_by<const UPSAMPLING: usize>(numbers: &[u16], n: usize, bit_depth: usize) -> [u16; 8]
    requires upsampling { UPSAMPLING ≤ 1 }
    requires n { n < 2 ^ 20 }
    requires inside { n / 2 ^ (6 - UPSAMPLING) + 8 * 2 ^ UPSAMPLING + 1 ≤ length numbers.now }
    requires depth { bit_depth ≤ 16 }
    ensures { (k : ℕ) → k < 8 → entries result k ≡ at bit_depth (entries numbers.now) UPSAMPLING n k }
{
    let first = n >> (6 - UPSAMPLING);
    let z = ((n << UPSAMPLING) / 2 % 32) as u32;
    let near = eight_places::<UPSAMPLING>(numbers, first);
    let far = eight_places::<UPSAMPLING>(numbers, first + 1);
    between_eight(near, far, z, bit_depth)
}

/// Interpolates eight numbers from `n / 64` past the corner of the side on.
#[inline(always)]
pub(crate) fn eight_from(side: &FilteredSide, n: usize, bit_depth: usize) -> [u16; 8]
    requires upsampling { side.now.upsampling ≤ 1 }
    requires n { n < 2 ^ 20 }
    requires inside { n / 2 ^ (6 - side.now.upsampling) + 8 * 2 ^ side.now.upsampling ≤ 256 }
    requires depth { bit_depth ≤ 16 }
    ensures { (k : ℕ) → k < 8 → entries result k ≡ at bit_depth (entries side.now.numbers) side.now.upsampling n k }
{
    if side.upsampling == 0 {
        eight_by::<0>(&side.numbers, n, bit_depth)
    } else {
        eight_by::<1>(&side.numbers, n, bit_depth)
    }
}

/// Writes `N` numbers, from number `from` on, into a row, from column `start` on.
#[inline(always)]
pub(crate) fn write_numbers<T: Pixel, const N: usize>(
    row: &mut [T],
    start: usize,
    numbers: &[u16],
    from: usize,
)
    requires room { start + N ≤ length row.old }
    requires long { from + N ≤ length numbers.now }
    requires fits { (c : ℕ) → c < N → entries numbers.now (from + c) < 2 ^ T.BITS }
    ensures { (f : ℕ → T → T) (s : List T) → row.old ≡ paint_row start f s →
        ((c : ℕ) (v : T) → c < N → T.pixel (entries numbers.now (from + c)) ≡ f (start + c) v) →
        row.new ≡ paint_row (start + N) f s }
{
    for c in 0..N {
        row[start + c] = T::from_u32(u32::from(numbers[from + c]));
    }
}

/// Predicts the first `N * groups` samples of a row, `N` of at most eight at a time. Its line meets the side above at
/// `n / 64` past the corner. The last of the `sides` samples of the side is repeated after it.
#[inline(always)]
#[tactic(auto, using(crate::proofs::Groups::group_inside))]
fn row_below_90<T: Pixel, const N: usize>(
    row: &mut [T],
    above: &FilteredSide,
    sides: usize,
    n: usize,
    groups: usize,
    bit_depth: usize,
)
    requires row_long { N * groups ≤ length row.old }
    requires short { N ≤ 8 }
    requires upsampling { above.now.upsampling ≤ 1 }
    requires reach { N * groups * 2 ^ above.now.upsampling ≤ 64 }
    requires sides { sides * 2 ^ above.now.upsampling ≤ 128 }
    requires repeated { IsRepeated (sides * 2 ^ above.now.upsampling) (entries above.now.numbers) }
    requires depth { bit_depth ≤ T.BITS }
    ensures { row.new ≡ paint_row (N * groups) (λ j _. T.pixel (below_90 bit_depth (entries above.now.numbers) above.now.upsampling sides n j)) row.old }
{
    let n = n.min(64 * sides);
    for g in 0..groups {
        let line = eight_from(above, n + 64 * (N * g), bit_depth);
        write_numbers::<T, N>(row, N * g, &line, 0);
    }
}

/// As `rows_below_90`, `N` columns at a time.
#[inline(always)]
#[tactic(auto, using(av1_frame::proofs::Paint::rectangle_painting))]
fn rows_below_90_by<T: Pixel, const N: usize>(
    samples: &mut [T],
    stride: usize,
    area: StoredArea,
    above: &FilteredSide,
    sides: usize,
    dx: usize,
    groups: usize,
    bit_depth: usize,
)
    requires rows { AreRows stride area (length samples.old) }
    requires short { N ≤ 8 }
    requires whole { area.width ≡ N * groups }
    requires height { area.height ≤ 64 }
    requires upsampling { above.now.upsampling ≤ 1 }
    requires reach { area.width * 2 ^ above.now.upsampling ≤ 64 }
    requires sides { sides * 2 ^ above.now.upsampling ≤ 128 }
    requires repeated { IsRepeated (sides * 2 ^ above.now.upsampling) (entries above.now.numbers) }
    requires dx { dx ≤ 1023 }
    requires depth { bit_depth ≤ T.BITS }
    ensures { samples.new ≡
        paint stride area (λ i j _. T.pixel (below_90 bit_depth (entries above.now.numbers) above.now.upsampling sides ((i + 1) * dx + 64) j)) samples.old }
{
    for i in 0..area.height {
        let n = (i + 1) * dx + 64;
        let (_, row) = samples.split_at_mut((area.y + i) * stride + area.x);
        row_below_90::<T, N>(row, above, sides, n, groups, bit_depth);
    }
}

/// Predicts a rectangle at an angle below 90 with the derivative `dx`. The last of the `sides` samples above is
/// repeated after it.
pub(crate) fn rows_below_90<T: Pixel>(
    samples: &mut [T],
    stride: usize,
    area: StoredArea,
    above: &FilteredSide,
    sides: usize,
    dx: usize,
    bit_depth: usize,
)
    requires rows { AreRows stride area (length samples.old) }
    requires height { area.height ≤ 64 }
    requires upsampling { above.now.upsampling ≤ 1 }
    requires reach { area.width * 2 ^ above.now.upsampling ≤ 64 }
    requires sides { sides * 2 ^ above.now.upsampling ≤ 128 }
    requires repeated { IsRepeated (sides * 2 ^ above.now.upsampling) (entries above.now.numbers) }
    requires dx { dx ≤ 1023 }
    requires depth { bit_depth ≤ T.BITS }
    ensures { samples.new ≡
        paint stride area (λ i j _. T.pixel (below_90 bit_depth (entries above.now.numbers) above.now.upsampling sides ((i + 1) * dx + 64) j)) samples.old }
{
    match area.width {
        4 => rows_below_90_by::<T, 4>(samples, stride, area, above, sides, dx, 1, bit_depth),
        8 | 16 | 32 | 64 => {
            rows_below_90_by::<T, 8>(
                samples,
                stride,
                area,
                above,
                sides,
                dx,
                area.width / 8,
                bit_depth,
            );
        }
        _ => {
            rows_below_90_by::<T, 1>(
                samples, stride, area, above, sides, dx, area.width, bit_depth,
            );
        }
    }
}
