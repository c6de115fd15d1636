//! Words: one, four or eight numbers of 32 bits side by side, and the operations on all of them at once. Pure.

ghost use Rattle.std.specs.Prelude.{◌≡◌, ℕ, ◌<◌, ◌≤◌, ℤ, ◌+ℤ◌, ◌-ℤ◌};
ghost use Rattle.std.specs.Int.RustNames.{FitsSigned};
ghost use Rattle.std.specs.Int.{w32};
ghost use Rattle.av1_dct.specs.Arithmetic.{clamp_value};
ghost use Rattle.av1_dct.specs.Operations.{half_btf};
ghost use Rattle.av1_dct.specs.Word.{lane_of_vector};

use crate::arithmetic::{clamp_value, half_btf, limits};
use std::simd::prelude::*;

/// Some `i32` side by side, the lanes: lane i of an operation's result is that operation of lane i of its arguments.
/// The networks are written over words, and so run one transform over `i32`, four at a time over `i32x4` and eight over
/// `i32x8`.
pub trait Word: Copy {
    /// The number of lanes.
    const LANES: usize;

    ghost LANES: { ℕ };

    // the number in each lane
    ghost lane_of: { Self → ℕ → ℤ };

    /// The word with `v` in every lane.
    fn splat(v: i32) -> Self
        ensures { (i : ℕ) → i < LANES → lane_of result i ≡ v };

    /// The number in lane `i`.
    fn lane(self, i: usize) -> i32
        requires { i < LANES }
        ensures { result ≡ lane_of self i };

    /// Adds lane by lane.
    fn plus(self, o: Self) -> Self
        requires { (i : ℕ) → i < LANES → FitsSigned w32 (lane_of self i +ℤ lane_of o i) }
        ensures { (i : ℕ) → i < LANES → lane_of result i ≡ lane_of self i +ℤ lane_of o i };

    /// Subtracts lane by lane.
    fn minus(self, o: Self) -> Self
        requires { (i : ℕ) → i < LANES → FitsSigned w32 (lane_of self i -ℤ lane_of o i) }
        ensures { (i : ℕ) → i < LANES → lane_of result i ≡ lane_of self i -ℤ lane_of o i };

    /// `half_btf` in each lane, with the same two weights.
    fn turn(w0: i32, a: Self, w1: i32, b: Self) -> Self
        ensures { (i : ℕ) → i < LANES → lane_of result i ≡ half_btf w0 (lane_of a i) w1 (lane_of b i) };

    /// `clamp_value` in each lane.
    fn clamp_to(self, range: usize) -> Self
        requires { (8 ≤ range) × (range ≤ 20) }
        ensures { (i : ℕ) → i < LANES → lane_of result i ≡ clamp_value (lane_of self i) range };
}

impl Word for i32 {
    const LANES: usize = 1;

    ghost LANES = { 1 };

    ghost lane_of = { λ x _. x };

    #[inline(always)]
    fn splat(v: i32) -> i32 {
        v
    }

    #[inline(always)]
    fn lane(self, i: usize) -> i32 {
        self
    }

    #[inline(always)]
    fn plus(self, o: i32) -> i32 {
        self + o
    }

    #[inline(always)]
    fn minus(self, o: i32) -> i32 {
        self - o
    }

    #[inline(always)]
    fn turn(w0: i32, a: i32, w1: i32, b: i32) -> i32 {
        half_btf(w0, a, w1, b, 12)
    }

    #[inline(always)]
    fn clamp_to(self, range: usize) -> i32 {
        clamp_value(self, range)
    }
}

impl Word for i32x4 {
    const LANES: usize = 4;

    ghost LANES = { 4 };

    ghost lane_of = { lane_of_vector };

    #[inline(always)]
    fn splat(v: i32) -> i32x4 {
        i32x4::splat(v)
    }

    #[inline(always)]
    fn lane(self, i: usize) -> i32 {
        let lanes = self.to_array();
        lanes[i]
    }

    // The two arrays tell the proof that each lane is an i32.
    #[inline(always)]
    fn plus(self, o: i32x4) -> i32x4 {
        let (_a, _b) = (self.to_array(), o.to_array());
        self + o
    }

    #[inline(always)]
    fn minus(self, o: i32x4) -> i32x4 {
        let (_a, _b) = (self.to_array(), o.to_array());
        self - o
    }

    #[inline(always)]
    fn turn(w0: i32, a: i32x4, w1: i32, b: i32x4) -> i32x4 {
        let (_a, _b) = (a.to_array(), b.to_array());
        (i32x4::splat(w0) * a + i32x4::splat(w1) * b + i32x4::splat(2048)) >> i32x4::splat(12)
    }

    #[inline(always)]
    fn clamp_to(self, range: usize) -> i32x4 {
        let (top, low) = limits(range);
        let _a = self.to_array();
        self.simd_min(i32x4::splat(top)).simd_max(i32x4::splat(low))
    }
}

impl Word for i32x8 {
    const LANES: usize = 8;

    ghost LANES = { 8 };

    ghost lane_of = { lane_of_vector };

    #[inline(always)]
    fn splat(v: i32) -> i32x8 {
        i32x8::splat(v)
    }

    #[inline(always)]
    fn lane(self, i: usize) -> i32 {
        let lanes = self.to_array();
        lanes[i]
    }

    // The two arrays tell the proof that each lane is an i32.
    #[inline(always)]
    fn plus(self, o: i32x8) -> i32x8 {
        let (_a, _b) = (self.to_array(), o.to_array());
        self + o
    }

    #[inline(always)]
    fn minus(self, o: i32x8) -> i32x8 {
        let (_a, _b) = (self.to_array(), o.to_array());
        self - o
    }

    #[inline(always)]
    fn turn(w0: i32, a: i32x8, w1: i32, b: i32x8) -> i32x8 {
        let (_a, _b) = (a.to_array(), b.to_array());
        (i32x8::splat(w0) * a + i32x8::splat(w1) * b + i32x8::splat(2048)) >> i32x8::splat(12)
    }

    #[inline(always)]
    fn clamp_to(self, range: usize) -> i32x8 {
        let (top, low) = limits(range);
        let _a = self.to_array();
        self.simd_min(i32x8::splat(top)).simd_max(i32x8::splat(low))
    }
}
