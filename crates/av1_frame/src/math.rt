//! Arithmetic on numbers of samples, as pure functions: shifts with rounding, clamps, and clips to a depth.

ghost use Rattle.std.specs.Prelude.{◌≡◌, ◌/◌, ◌≤◌, ◌<◌, ◌^◌, ◌<ℤ◌, pos, ◌+ℤ◌, ◌≤ℤ◌};
ghost use Rattle.std.specs.Int.{int_min, int_max};
ghost use Rattle.av1_frame.specs.Arithmetic.{clip, round_shift};
ghost use Rattle.av1_frame.specs.Slices.{within_pads};

use crate::pixel::Pixel;

/// `v` divided by 2 to the power of `bit` and rounded to the nearest number, up if two are equally near (the
/// specification's Round2). The sum of `v` and half of that power has to fit 32 bits.
pub fn round_shift(v: i32, bit: usize) -> i32
    requires small { bit ≤ 30 }
    requires fits { (v +ℤ pos (2 ^ bit / 2)) <ℤ pos (2 ^ 31) }
    ensures { result ≡ round_shift v bit }
{
    let half = (1usize << bit) / 2;
    (v + half as i32) >> bit
}

/// The number from `low` to `high` that is nearest to `v`.
pub fn clamp(v: i32, low: i32, high: i32) -> i32
    requires { low ≤ℤ high }
    ensures { result ≡ int_min (int_max v low) high }
{
    v.max(low).min(high)
}

/// The sample of the depth `bit_depth` that is nearest to `value` (the specification's Clip1).
#[inline]
pub fn clip<T: Pixel>(value: i32, bit_depth: usize) -> T
    requires depth { bit_depth ≤ T.BITS }
    ensures { result ≡ T.pixel (clip bit_depth value) }
{
    T::from_u32(clip_number(value, bit_depth))
}

/// The number of the sample that `clip` gives.
#[inline]
fn clip_number(value: i32, bit_depth: usize) -> u32
    requires depth { bit_depth ≤ 16 }
    ensures value { result ≡ clip bit_depth value }
    ensures fits { result < 2 ^ bit_depth }
{
    clamp(value, 0, (1 << bit_depth) - 1) as u32
}

/// The column or row from `-pad` to `side` that is nearest to `at`.
pub(crate) fn within_pads(at: isize, pad: usize, side: usize) -> isize
    requires pad { pad < 2 ^ 63 }
    requires side { side < 2 ^ 63 }
    ensures { result ≡ within_pads at pad side }
{
    at.max(-(pad as isize)).min(side as isize)
}
