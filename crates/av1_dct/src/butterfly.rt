//! The operations on lanes that a cosine transform needs: butterfly rotations and Hadamard rotations. Pure.

ghost use Rattle.std.specs.Prelude.{◌≡◌, ℕ, ◌<◌, ◌≤◌, ℤ, ◌+ℤ◌, ◌-ℤ◌};
ghost use Rattle.av1_dct.specs.Arithmetic.{FitsBits, clamp_value};
ghost use Rattle.av1_dct.specs.Operations.{half_btf};

use crate::word::Word;

/// Numbers side by side, the lanes, with the two steps of a cosine transform: butterfly rotations and Hadamard
/// rotations, in each lane. The result of a butterfly rotation may need more bits than a lane has. The Hadamard
/// rotation after it clamps.
pub(crate) trait Butterfly: Copy {
    /// The result of a butterfly rotation: as many lanes, which are wide enough for it.
    type Wide: Copy;

    // the number of lanes
    ghost LANES: { ℕ };

    // the number of bits of a lane, including its sign
    ghost bits: { ℕ };

    // the number in each lane
    ghost lane_of: { Self → ℕ → ℤ };

    ghost wide_lane_of: { Self.Wide → ℕ → ℤ };

    /// One half of a butterfly rotation, `half_btf`, in each lane, with the same two weights.
    fn rotate(w0: i32, a: Self, w1: i32, b: Self) -> Self::Wide
        ensures { (i : ℕ) → i < LANES → wide_lane_of result i ≡ half_btf w0 (lane_of a i) w1 (lane_of b i) };

    /// The lanes' numbers in wide lanes.
    fn widen(self) -> Self::Wide
        ensures { (i : ℕ) → i < LANES → wide_lane_of result i ≡ lane_of self i };

    /// One half of a Hadamard rotation: in each lane the sum, clamped to `range` signed bits.
    fn sum(x: Self::Wide, y: Self::Wide, range: usize) -> Self
        requires range_in { (8 ≤ range) × (range ≤ 20) }
        requires within { range ≤ bits }
        requires first { (i : ℕ) → i < LANES → FitsBits 20 (wide_lane_of x i) }
        requires second { (i : ℕ) → i < LANES → FitsBits 20 (wide_lane_of y i) }
        ensures { (i : ℕ) → i < LANES → lane_of result i ≡ clamp_value (wide_lane_of x i +ℤ wide_lane_of y i) range };

    /// The other half: the difference, clamped.
    fn difference(x: Self::Wide, y: Self::Wide, range: usize) -> Self
        requires range_in { (8 ≤ range) × (range ≤ 20) }
        requires within { range ≤ bits }
        requires first { (i : ℕ) → i < LANES → FitsBits 20 (wide_lane_of x i) }
        requires second { (i : ℕ) → i < LANES → FitsBits 20 (wide_lane_of y i) }
        ensures { (i : ℕ) → i < LANES → lane_of result i ≡ clamp_value (wide_lane_of x i -ℤ wide_lane_of y i) range };

    /// In each lane the clamped sum of two numbers that do not come from a rotation.
    fn own_sum(self, o: Self, range: usize) -> Self
        requires range_in { (8 ≤ range) × (range ≤ 20) }
        requires within { range ≤ bits }
        requires first { (i : ℕ) → i < LANES → FitsBits 20 (lane_of self i) }
        requires second { (i : ℕ) → i < LANES → FitsBits 20 (lane_of o i) }
        ensures { (i : ℕ) → i < LANES → lane_of result i ≡ clamp_value (lane_of self i +ℤ lane_of o i) range };

    /// In each lane the clamped difference of two numbers that do not come from a rotation.
    fn own_difference(self, o: Self, range: usize) -> Self
        requires range_in { (8 ≤ range) × (range ≤ 20) }
        requires within { range ≤ bits }
        requires first { (i : ℕ) → i < LANES → FitsBits 20 (lane_of self i) }
        requires second { (i : ℕ) → i < LANES → FitsBits 20 (lane_of o i) }
        ensures { (i : ℕ) → i < LANES → lane_of result i ≡ clamp_value (lane_of self i -ℤ lane_of o i) range };
}

/// Any word, whose lanes have 32 bits, so that a rotation's result fits them.
impl<W: Word> Butterfly for W {
    type Wide = W;

    ghost LANES = { W.LANES };

    ghost bits = { 32 };

    ghost lane_of = { W.lane_of };

    ghost wide_lane_of = { W.lane_of };

    #[inline(always)]
    fn rotate(w0: i32, a: W, w1: i32, b: W) -> W {
        W::turn(w0, a, w1, b)
    }

    #[inline(always)]
    fn widen(self) -> W {
        self
    }

    #[inline(always)]
    fn sum(x: W, y: W, range: usize) -> W {
        x.plus(y).clamp_to(range)
    }

    #[inline(always)]
    fn difference(x: W, y: W, range: usize) -> W {
        x.minus(y).clamp_to(range)
    }

    #[inline(always)]
    fn own_sum(self, o: W, range: usize) -> W {
        self.plus(o).clamp_to(range)
    }

    #[inline(always)]
    fn own_difference(self, o: W, range: usize) -> W {
        self.minus(o).clamp_to(range)
    }
}
