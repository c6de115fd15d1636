//! Turns filtered values into samples, or into values between two filters or for an average. Pure functions.

ghost use Rattle.std.specs.Prelude.{◌≡◌, ℕ, ℤ, ◌≤◌};
ghost use Rattle.av1_blocks.specs.Depths.{IsDepth};
ghost use Rattle.av1_frame.specs.Arithmetic.{clip};
ghost use Rattle.av1_inter.specs.Scaffolding.{AreRoundings, kept_roundings, prepared_roundings, put_roundings};
ghost use Rattle.av1_inter.specs.declared.rounding.Roundings.{Roundings as RoundingsRecord};

use crate::rounding::{Roundings, greatest, kept_roundings, prepared_roundings, put_roundings};
use av1_frame::Pixel;

/// Writes values of 16 bits as entries of type `E`, and gives the rounding of the sums that they come from.
pub(crate) trait Writer<E: Copy> {
    // the depths that it serves
    ghost serves: { ℕ → Type 0 };

    // the roundings at a depth
    ghost roundings: { ℕ → RoundingsRecord };

    // the entry of a value, at a depth
    ghost written: { ℕ → ℤ → E };

    /// The roundings of sums.
    fn roundings(bit_depth: usize) -> Roundings
        requires { IsDepth bit_depth }
        ensures value { result ≡ roundings bit_depth }
        ensures small { AreRoundings result };

    /// The entry of a value.
    fn entry(value: i16, bit_depth: usize) -> E
        requires depths { IsDepth bit_depth }
        requires serves { serves bit_depth }
        ensures { result ≡ written bit_depth value };
}

/// The depth of samples of a type, which the compiler knows if they have one byte.
#[inline(always)]
pub(crate) fn depth_of<T: Pixel>(bit_depth: usize) -> usize
    requires depths { IsDepth bit_depth }
    requires fits { bit_depth ≤ T.BITS }
    ensures value { result ≡ bit_depth }
    ensures depths { IsDepth result }
{
    if T::BITS == 8 { 8 } else { bit_depth }
}

/// Values become samples: they are clipped to the depth.
pub(crate) struct Samples {}

impl<T: Pixel> Writer<T> for Samples {
    ghost serves = { λ depth. depth ≤ T.BITS };

    ghost roundings = { put_roundings };

    ghost written = { λ depth value. T.pixel (clip depth value) };

    #[inline(always)]
    fn roundings(bit_depth: usize) -> Roundings {
        put_roundings(bit_depth)
    }

    #[inline(always)]
    fn entry(value: i16, bit_depth: usize) -> T {
        T::from_u32(value.max(0).min(greatest(depth_of::<T>(bit_depth))) as u32)
    }
}

/// Values of rows are kept for the filter down the columns, as samples of 15 bits: they are raised so far that they
/// have no sign.
pub(crate) struct Between {}

impl Writer<u16> for Between {
    ghost serves = { λ _. Unit };

    ghost roundings = { kept_roundings };

    ghost written = { λ _ value. clip 15 value };

    #[inline(always)]
    fn roundings(bit_depth: usize) -> Roundings {
        kept_roundings(bit_depth)
    }

    #[inline(always)]
    fn entry(value: i16, bit_depth: usize) -> u16 {
        value.max(0) as u16
    }
}

/// Values are kept as they are, for an average.
pub(crate) struct Prepared {}

impl Writer<i16> for Prepared {
    ghost serves = { λ _. Unit };

    ghost roundings = { prepared_roundings };

    ghost written = { λ _ value. value };

    #[inline(always)]
    fn roundings(bit_depth: usize) -> Roundings {
        prepared_roundings(bit_depth)
    }

    #[inline(always)]
    fn entry(value: i16, bit_depth: usize) -> i16 {
        value
    }
}
