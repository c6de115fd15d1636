//! Eight lanes of 16 bits, for transforms whose sums are clamped to 16 bits: their operations, as pure functions.

ghost use Rattle.std.specs.Prelude.{◌≡◌, refl, true, ℕ, ◌+◌, ◌-◌, ◌*◌, ◌^◌, ◌<◌, ◌≤◌, pos, neg_ℤ};
ghost use Rattle.av1_dct.specs.Arithmetic.{clamp_value};
ghost use Rattle.av1_dct.specs.Operations.{half_btf};
ghost use Rattle.av1_dct.specs.Word.{lane_of_pair, lane_of_short, lane_of_vector};

use crate::arithmetic::limits;
use crate::butterfly::Butterfly;
use std::simd::prelude::*;

/// The number of bits of a narrow lane.
pub(crate) const SHORT_BITS: usize = 16;

/// Eight values of 32 bits: the result of a rotation of eight lanes of 16 bits before it is clamped.
#[derive(Clone, Copy)]
pub(crate) struct WideLanes {
    low: i32x4,
    high: i32x4,
}

// Four rotations: the words of two vectors side by side, each pair by two weights.
#[inline(always)]
fn weigh(z: i16x8, w0: i32, w1: i32) -> i32x4
    ensures { (i : ℕ) → i < 4 → lane_of_vector result i ≡ half_btf w0 (lane_of_short z (2 * i)) w1 (lane_of_short z (2 * i + 1)) }
{
    let products = i32x8::from_array([w0, w1, w0, w1, w0, w1, w0, w1]) * z.cast::<i32>();
    let even: i32x4 = products.swizzle([0, 2, 4, 6]);
    let odd: i32x4 = products.swizzle([1, 3, 5, 7]);
    (even + odd + i32x4::splat(2048)) >> i32x4::splat(12)
}

// The greatest number of `range` signed bits, and the least.
#[inline(always)]
fn short_limits(range: usize) -> (i16, i16)
    requires { (8 ≤ range) × (range ≤ 16) }
    ensures top { result.0 ≡ pos (2 ^ (range - 1) - 1) }
    ensures low { result.1 ≡ neg_ℤ (pos (2 ^ (range - 1))) }
{
    let (top, low) = limits(range);
    (top as i16, low as i16)
}

// `clamp_value` in each lane. The first two steps and the cast are one operation, and at 16 bits the last two have no
// effect.
#[inline(always)]
fn clamp_wide(v: i32x8, range: usize) -> i16x8
    requires { (8 ≤ range) × (range ≤ 16) }
    ensures { (i : ℕ) → i < 8 → lane_of_short result i ≡ clamp_value (lane_of_vector v i) range }
{
    let (top, low) = short_limits(range);
    let _v = v.to_array();
    let cut = v
        .simd_max(i32x8::splat(-32768))
        .simd_min(i32x8::splat(32767))
        .cast::<i16>();
    cut.simd_min(i16x8::splat(top)).simd_max(i16x8::splat(low))
}

// Whether each number of a word is 0.
#[inline(always)]
pub(crate) fn is_zero(word: i32x8) -> bool
    ensures { result ≡ true → (i : ℕ) → i < 8 → lane_of_vector word i ≡ pos 0 }
{
    word.to_array() == [0; 8]
}

/// Eight narrow lanes, which are cut from words and widened to them.
pub(crate) trait Short: Butterfly {
    /// Zeros.
    fn none() -> Self
        ensures { (i : ℕ) → i < 8 → Self.lane_of result i ≡ pos 0 };

    /// Each number of a word, clamped to 16 bits.
    fn cut(word: i32x8) -> Self
        ensures { (i : ℕ) → i < 8 → Self.lane_of result i ≡ clamp_value (lane_of_vector word i) 16 };

    /// The lanes' numbers in lanes of 32 bits.
    fn spread(self) -> i32x8
        ensures { (i : ℕ) → i < 8 → lane_of_vector result i ≡ Self.lane_of self i };

    ghost eight: { Self.LANES ≡ 8 };

    ghost sixteen: { Self.bits ≡ 16 };
}

/// Eight numbers of 16 bits, in an array: a proof covers an array of numbers, and not one of vectors.
#[derive(Clone, Copy)]
pub(crate) struct ShortLanes {
    pub(crate) lanes: i16x8,
}

/// The result of a rotation has 32 bits, and is clamped to 16 again.
impl Butterfly for ShortLanes {
    type Wide = WideLanes;

    ghost LANES = { 8 };

    ghost bits = { 16 };

    ghost lane_of = { λ word i. lane_of_short word.lanes i };

    ghost wide_lane_of = { λ wide i. lane_of_pair wide.low wide.high i };

    // The two arrays tell the proof that each lane is an i16.
    #[inline(always)]
    fn rotate(w0: i32, a: ShortLanes, w1: i32, b: ShortLanes) -> WideLanes {
        let (_a, _b) = (a.lanes.to_array(), b.lanes.to_array());
        let (low, high) = a.lanes.interleave(b.lanes);
        WideLanes {
            low: weigh(low, w0, w1),
            high: weigh(high, w0, w1),
        }
    }

    #[inline(always)]
    fn widen(self) -> WideLanes {
        let wide = self.lanes.cast::<i32>();
        WideLanes {
            low: wide.swizzle([0, 1, 2, 3]),
            high: wide.swizzle([4, 5, 6, 7]),
        }
    }

    #[inline(always)]
    fn sum(x: WideLanes, y: WideLanes, range: usize) -> ShortLanes {
        let (_xl, _xh, _yl, _yh) = (
            x.low.to_array(),
            x.high.to_array(),
            y.low.to_array(),
            y.high.to_array(),
        );
        ShortLanes {
            lanes: clamp_wide(
                (x.low + y.low).shuffle(x.high + y.high, [0, 1, 2, 3, 4, 5, 6, 7]),
                range,
            ),
        }
    }

    #[inline(always)]
    fn difference(x: WideLanes, y: WideLanes, range: usize) -> ShortLanes {
        let (_xl, _xh, _yl, _yh) = (
            x.low.to_array(),
            x.high.to_array(),
            y.low.to_array(),
            y.high.to_array(),
        );
        ShortLanes {
            lanes: clamp_wide(
                (x.low - y.low).shuffle(x.high - y.high, [0, 1, 2, 3, 4, 5, 6, 7]),
                range,
            ),
        }
    }

    #[inline(always)]
    fn own_sum(self, o: ShortLanes, range: usize) -> ShortLanes {
        ShortLanes {
            lanes: clamp_wide(self.lanes.cast::<i32>() + o.lanes.cast::<i32>(), range),
        }
    }

    #[inline(always)]
    fn own_difference(self, o: ShortLanes, range: usize) -> ShortLanes {
        ShortLanes {
            lanes: clamp_wide(self.lanes.cast::<i32>() - o.lanes.cast::<i32>(), range),
        }
    }
}

impl Short for ShortLanes {
    #[inline(always)]
    fn none() -> ShortLanes {
        ShortLanes {
            lanes: i16x8::splat(0),
        }
    }

    #[inline(always)]
    fn cut(word: i32x8) -> ShortLanes {
        let _lanes = word.to_array();
        ShortLanes {
            lanes: clamp_wide(word, SHORT_BITS),
        }
    }

    #[inline(always)]
    fn spread(self) -> i32x8 {
        self.lanes.cast::<i32>()
    }

    ghost eight = { refl };

    ghost sixteen = { refl };
}
