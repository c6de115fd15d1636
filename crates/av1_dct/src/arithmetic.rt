//! The arithmetic of every transform, as pure functions: half of a butterfly rotation, and clamps.

ghost use Rattle.std.specs.Prelude.{◌≡◌, ◌-◌, ◌^◌, ◌≤◌, pos, neg_ℤ};
ghost use Rattle.av1_dct.specs.Arithmetic.{clamp_value};
ghost use Rattle.av1_dct.specs.Operations.{half_btf};

/// The fractional bits of a weight.
const INV_COS_BIT: usize = 12;

/// One half of a butterfly rotation (the AV1 specification's butterfly functions): `w0 * in0 + w1 * in1`, whose weights
/// have `bit` fractional bits, rounded to a whole number, a half upward. The sum wraps at 32 bits, as in rav1e. In
/// valid streams of 12-bit samples it may wrap; the outputs then follow from the wrapped sum.
#[inline(always)]
pub fn half_btf(w0: i32, in0: i32, w1: i32, in1: i32, bit: usize) -> i32
    requires { bit ≡ 12 }
    ensures { result ≡ half_btf w0 in0 w1 in1 }
{
    let sum = w0.wrapping_mul(in0).wrapping_add(w1.wrapping_mul(in1));
    sum.wrapping_add(1 << (INV_COS_BIT - 1)) >> INV_COS_BIT
}

// The greatest number of `bit` signed bits, and the least.
#[inline(always)]
pub(crate) fn limits(bit: usize) -> (i32, i32)
    requires { (1 ≤ bit) × (bit ≤ 32) }
    ensures top { result.0 ≡ pos (2 ^ (bit - 1) - 1) }
    ensures low { result.1 ≡ neg_ℤ (pos (2 ^ (bit - 1))) }
{
    let half = 1i64 << (bit - 1);
    ((half - 1) as i32, (-half) as i32)
}

/// The number of `bit` signed bits that is nearest to `value`.
#[inline(always)]
pub fn clamp_value(value: i32, bit: usize) -> i32
    requires { (1 ≤ bit) × (bit ≤ 32) }
    ensures { result ≡ clamp_value value bit }
{
    let (top, low) = limits(bit);
    value.min(top).max(low)
}
