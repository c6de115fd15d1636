//! Operations on words that the passes need in addition to `Word`: reading, writing, halving, rounding, multiplying.

ghost use Rattle.std.specs.Prelude.{◌≡◌, true, ℕ, ◌+◌, ◌-◌, ◌*◌, ◌^◌, ◌<◌, ◌≤◌, nat_le, nat_lt, ◌&&◌, if◌then◌else◌, pos, length, take, ◌+ℤ◌, ◌*ℤ◌};
ghost use Rattle.std.specs.List.{All};
ghost use Rattle.std.specs.Int.{int_shr};
ghost use Rattle.av1_dct.specs.Arithmetic.{at, round12, wrap32, FitsBits};
ghost use Rattle.av1_dct.specs.Cosine.{cosine};
ghost use Rattle.av1_dct.specs.Word.{column};
ghost use Rattle.av1_lists.specs.Counts.{raised};
ghost use Rattle.av1_lists.specs.Sides.{IsTransformSide};

use av1_dct::{LaneCount, Word, cosine_lanes, cosine_words};
use std::simd::prelude::*;

/// Words that are read from a block and written to it, with the arithmetic of the transforms of 4 values.
pub(crate) trait BlockWord: Word {
    // the number of groups of eight that a cosine transform in all lanes counts for
    ghost COUNTED: { ℕ };

    /// The cosine transform of `n` words, in each lane. `count` counts it if words have eight lanes.
    fn cosine(count: &mut LaneCount, n: usize, input: &[Self], output: &mut [Self], range: usize)
        requires range_in { (8 ≤ range) × (range ≤ 20) }
        requires n_in { IsTransformSide n }
        requires input_len { n ≤ length input.now }
        requires output_len { n ≤ length output.old }
        requires fit { (i : ℕ) → i < Self.LANES → All (FitsBits range) (take n (column Self.lane_of i input.now)) }
        ensures value { (k i : ℕ) → i < Self.LANES → n ≡ 2 * 2 ^ k →
            take n (column Self.lane_of i output.new) ≡ cosine range k (take n (column Self.lane_of i input.now)) }
        ensures counts { count.new.groups ≡ raised count.old.groups COUNTED };

    /// Adds a multiple in each lane, and wraps at 32 bits.
    fn add_product(self, weight: i32, o: Self) -> Self
        ensures { (i : ℕ) → i < Self.LANES → Self.lane_of result i ≡ wrap32 (Self.lane_of self i +ℤ weight *ℤ Self.lane_of o i) };

    /// Rounds, in each lane, a sum of products with weights in twelve-bit fixed point to a whole number, a half upward.
    fn round12(self) -> Self
        ensures { (i : ℕ) → i < Self.LANES → Self.lane_of result i ≡ round12 (Self.lane_of self i) };

    /// Halves each lane, downward.
    fn halve(self) -> Self
        ensures { (i : ℕ) → i < Self.LANES → Self.lane_of result i ≡ int_shr (Self.lane_of self i) 1 };

    /// Whether each lane is 0.
    fn is_zero(self) -> bool
        ensures zeros { result ≡ true → (i : ℕ) → i < Self.LANES → Self.lane_of self i ≡ pos 0 }
        ensures told { ((i : ℕ) → i < Self.LANES → Self.lane_of self i ≡ pos 0) → result ≡ true };

    /// Reads the numbers from position `start` on, one in each lane.
    fn read(values: &[i32], start: usize) -> Self
        requires { start + Self.LANES ≤ length values.now }
        ensures { (i : ℕ) → i < Self.LANES → Self.lane_of result i ≡ at values.now (start + i) };

    /// Writes the numbers of the lanes to the positions from `start` on. All others are unchanged.
    fn write(self, values: &mut [i32], start: usize)
        requires { start + Self.LANES ≤ length values.old }
        ensures { (p : ℕ) → at values.new p ≡ (if nat_le start p && nat_lt p (start + Self.LANES) then Self.lane_of self (p - start) else at values.old p) };
}

impl BlockWord for i32 {
    ghost COUNTED = { 0 };

    #[inline(always)]
    fn cosine(count: &mut LaneCount, n: usize, input: &[i32], output: &mut [i32], range: usize) {
        // This tells the proof that the count is a u64.
        let _count = count.groups();
        cosine_words(n, input, &mut [], output, range);
    }

    #[inline(always)]
    fn add_product(self, weight: i32, o: i32) -> i32 {
        self.wrapping_add(weight.wrapping_mul(o))
    }

    #[inline(always)]
    fn round12(self) -> i32 {
        self.wrapping_add(2048) >> 12
    }

    #[inline(always)]
    fn halve(self) -> i32 {
        self >> 1
    }

    #[inline(always)]
    fn is_zero(self) -> bool {
        self == 0
    }

    #[inline(always)]
    fn read(values: &[i32], start: usize) -> i32 {
        values[start]
    }

    #[inline(always)]
    fn write(self, values: &mut [i32], start: usize) {
        values[start] = self;
    }
}

impl BlockWord for i32x4 {
    ghost COUNTED = { 0 };

    #[inline(always)]
    fn cosine(
        count: &mut LaneCount,
        n: usize,
        input: &[i32x4],
        output: &mut [i32x4],
        range: usize,
    ) {
        // This tells the proof that the count is a u64.
        let _count = count.groups();
        cosine_words(n, input, &mut [], output, range);
    }

    #[inline(always)]
    fn add_product(self, weight: i32, o: i32x4) -> i32x4 {
        let (_a, _b) = (self.to_array(), o.to_array());
        self + i32x4::splat(weight) * o
    }

    #[inline(always)]
    fn round12(self) -> i32x4 {
        let _a = self.to_array();
        (self + i32x4::splat(2048)) >> i32x4::splat(12)
    }

    #[inline(always)]
    fn halve(self) -> i32x4 {
        let _a = self.to_array();
        self >> i32x4::splat(1)
    }

    #[inline(always)]
    fn is_zero(self) -> bool {
        self.to_array() == [0; 4]
    }

    #[inline(always)]
    fn read(values: &[i32], start: usize) -> i32x4 {
        let mut lanes = [0; 4];
        for k in 0..4 {
            lanes[k] = values[start + k];
        }
        i32x4::from_array(lanes)
    }

    #[inline(always)]
    fn write(self, values: &mut [i32], start: usize) {
        let lanes = self.to_array();
        for k in 0..4 {
            values[start + k] = lanes[k];
        }
    }
}

impl BlockWord for i32x8 {
    ghost COUNTED = { 1 };

    #[inline(always)]
    fn cosine(
        count: &mut LaneCount,
        n: usize,
        input: &[i32x8],
        output: &mut [i32x8],
        range: usize,
    ) {
        cosine_lanes(count, n, input, &mut [], output, range);
    }

    #[inline(always)]
    fn add_product(self, weight: i32, o: i32x8) -> i32x8 {
        let (_a, _b) = (self.to_array(), o.to_array());
        self + i32x8::splat(weight) * o
    }

    #[inline(always)]
    fn round12(self) -> i32x8 {
        let _a = self.to_array();
        (self + i32x8::splat(2048)) >> i32x8::splat(12)
    }

    #[inline(always)]
    fn halve(self) -> i32x8 {
        let _a = self.to_array();
        self >> i32x8::splat(1)
    }

    #[inline(always)]
    fn is_zero(self) -> bool {
        self.to_array() == [0; 8]
    }

    #[inline(always)]
    fn read(values: &[i32], start: usize) -> i32x8 {
        let mut lanes = [0; 8];
        for k in 0..8 {
            lanes[k] = values[start + k];
        }
        i32x8::from_array(lanes)
    }

    #[inline(always)]
    fn write(self, values: &mut [i32], start: usize) {
        let lanes = self.to_array();
        for k in 0..8 {
            values[start + k] = lanes[k];
        }
    }
}
