//! The arithmetic of motion vectors, as pure functions: whole samples, valid range, sum, products, shifts.
#![tactic(auto)]

ghost use Rattle.std.specs.Prelude.{◌≡◌, ◌<◌, ◌≤◌, ◌^◌, ◌↔◌, pos, int_rem, nat_abs, IsTrue};
ghost use Rattle.av1_blocks.specs.Vectors.{
  FitsVector,
  added,
  scaled,
  shifted_right,
  to_whole,
  to_fullpel,
  IsFullpel,
  IsNoLonger,
  is_valid_component,
  is_valid_vector,
};

use crate::context::{MV_LOW, MV_UPP};
use crate::mc::MotionVector;
use std::ops::{Add, Mul, Shl, Shr};

impl MotionVector {
    /// The vector cut to whole samples, toward zero.
    #[inline]
    pub fn quantize_to_fullpel(self) -> Self
        ensures value { result ≡ to_fullpel self }
        ensures whole { IsFullpel result }
        ensures nearer { IsNoLonger result self }
        ensures once { to_fullpel result ≡ result }
    {
        MotionVector {
            row: component_to_fullpel(self.row),
            col: component_to_fullpel(self.col),
        }
    }

    /// Whether the vector is zero.
    #[inline]
    pub fn is_zero(self) -> bool
        ensures { IsTrue result ↔ ((self.row ≡ pos 0) × (self.col ≡ pos 0)) }
    {
        self.row == 0 && self.col == 0
    }

    /// Whether both components lie strictly between -16384 and 16384, as in every vector of a bitstream.
    #[inline]
    #[tactic(auto, unfolding(crate::specs::Vectors::is_valid_vector))]
    pub fn is_valid(self) -> bool
        ensures { result ≡ is_valid_vector self }
    {
        is_valid_component(self.row) && is_valid_component(self.col)
    }
}

/// A component cut to whole samples, toward zero.
#[inline]
fn component_to_fullpel(component: i16) -> i16
    ensures value { result ≡ to_whole component }
    ensures whole { int_rem result (pos 8) ≡ pos 0 }
    ensures nearer { nat_abs result ≤ nat_abs component }
    ensures once { to_whole result ≡ result }
{
    component / 8 * 8
}

/// Whether a component lies strictly between its bounds.
#[inline]
#[tactic(auto, unfolding(crate::specs::Vectors::is_valid_component))]
fn is_valid_component(component: i16) -> bool
    ensures { result ≡ is_valid_component component }
{
    MV_LOW < component as i32 && (component as i32) < MV_UPP
}

/// Multiplies both components. The products have to fit 16 bits.
impl Mul<i16> for MotionVector {
    type Output = MotionVector;

    ghost can_mul = { λ v factor. FitsVector (scaled v factor) };

    ghost mul_gives = { λ v factor product. product ≡ scaled v factor };

    #[inline]
    fn mul(self, rhs: i16) -> MotionVector {
        MotionVector {
            row: self.row * rhs,
            col: self.col * rhs,
        }
    }
}

/// Multiplies both components. The factor and the products have to fit 16 bits with a sign.
impl Mul<u16> for MotionVector {
    type Output = MotionVector;

    ghost can_mul = { λ v factor. (factor ≤ 32767) × FitsVector (scaled v (pos factor)) };

    ghost mul_gives = { λ v factor product. product ≡ scaled v (pos factor) };

    #[inline]
    fn mul(self, rhs: u16) -> MotionVector {
        self * rhs as i16
    }
}

/// Shifts both components to the right by less than 16 bits, and rounds down.
impl Shr<u8> for MotionVector {
    type Output = MotionVector;

    ghost can_shr = { λ _ amount. amount < 16 };

    ghost shr_gives = { λ v amount shifted. shifted ≡ shifted_right v amount };

    #[inline]
    fn shr(self, rhs: u8) -> MotionVector {
        MotionVector {
            row: self.row >> rhs,
            col: self.col >> rhs,
        }
    }
}

/// Shifts both components to the left by less than 16 bits. The results have to fit 16 bits.
impl Shl<u8> for MotionVector {
    type Output = MotionVector;

    ghost can_shl = { λ v amount. (amount < 16) × FitsVector (scaled v (pos (2 ^ amount))) };

    ghost shl_gives = { λ v amount shifted. shifted ≡ scaled v (pos (2 ^ amount)) };

    #[inline]
    fn shl(self, rhs: u8) -> MotionVector {
        MotionVector {
            row: self.row << rhs,
            col: self.col << rhs,
        }
    }
}

/// Adds the vectors. The sums have to fit 16 bits.
impl Add<MotionVector> for MotionVector {
    type Output = MotionVector;

    ghost can_add = { λ v w. FitsVector (added v w) };

    ghost add_gives = { λ v w sum. sum ≡ added v w };

    #[inline]
    fn add(self, rhs: MotionVector) -> MotionVector {
        MotionVector {
            row: self.row + rhs.row,
            col: self.col + rhs.col,
        }
    }
}
