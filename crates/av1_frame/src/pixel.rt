//! Traits of samples (`u8`, `u16`) and of coefficients (`i16`, `i32`): conversions to numbers and back. Pure.

ghost use Rattle.std.specs.Prelude.{◌≡◌, ℕ, ◌^◌, ◌-◌, ◌*◌, ◌<◌, ◌≤◌, refl, pos, neg_ℤ, ◌≤ℤ◌, ◌<ℤ◌, ℤ};
ghost use Rattle.std.specs.Ordering.{nat_cmp};
ghost use Rattle.std.proofs.Common.{rules};

/// A coefficient of a transform: a signed number of `BITS` bits.
///
/// In contracts `val` is the number of a coefficient, and `coefficient` the coefficient of a number.
pub trait Coefficient: Copy {
    /// The number of bits of a coefficient, including its sign.
    const BITS: usize;

    ghost BITS: { ℕ };

    ghost val: { Self → ℤ };

    ghost coefficient: { ℤ → Self };

    /// The coefficient of the number `v`, which fits.
    fn from_i32(v: i32) -> Self
        requires low { neg_ℤ (pos (2 ^ (BITS - 1))) ≤ℤ v }
        requires high { v <ℤ pos (2 ^ (BITS - 1)) }
        ensures { result ≡ coefficient v };

    /// The number of the coefficient.
    fn to_i32(self) -> i32
        ensures value { result ≡ val self }
        ensures low { neg_ℤ (pos (2 ^ (BITS - 1))) ≤ℤ result }
        ensures high { result <ℤ pos (2 ^ (BITS - 1)) };

    ghost coefficient_of_val: { (x : Self) → coefficient (val x) ≡ x };

    ghost val_of_coefficient: { (v : ℤ) → val (coefficient v) ≡ v };
}

impl Coefficient for i16 {
    const BITS: usize = 16;

    ghost BITS = { 16 };

    ghost val = { λ x. x };

    ghost coefficient = { λ v. v };

    fn from_i32(v: i32) -> i16 {
        v as i16
    }

    fn to_i32(self) -> i32 {
        i32::from(self)
    }

    ghost coefficient_of_val = { λ x. refl };

    ghost val_of_coefficient = { λ v. refl };
}

impl Coefficient for i32 {
    const BITS: usize = 32;

    ghost BITS = { 32 };

    ghost val = { λ x. x };

    ghost coefficient = { λ v. v };

    fn from_i32(v: i32) -> i32 {
        v
    }

    fn to_i32(self) -> i32 {
        self
    }

    ghost coefficient_of_val = { λ x. refl };

    ghost val_of_coefficient = { λ v. refl };
}

/// A sample: an unsigned number of `BITS` bits.
///
/// In contracts `num` is the number of a sample, and `pixel` the sample of a number.
pub trait Pixel: Copy + Ord {
    /// The number of bits of a sample.
    const BITS: usize;

    /// The coefficients of transforms of these samples. They have twice as many bits as a sample.
    type Coeff: Coefficient;

    ghost BITS: { ℕ };

    ghost num: { Self → ℕ };

    ghost pixel: { ℕ → Self };

    /// The sample of the number `v`, which fits.
    fn from_u32(v: u32) -> Self
        requires { v < 2 ^ BITS }
        ensures { result ≡ pixel v };

    /// The number of the sample.
    fn to_u32(self) -> u32
        ensures value { result ≡ num self }
        ensures fits { result < 2 ^ BITS }
        ensures fits_16_bits { result < 2 ^ 16 };

    /// The number of the sample.
    fn to_i32(self) -> i32
        ensures value { result ≡ pos (num self) }
        ensures fits { num self < 2 ^ BITS }
        ensures fits_16_bits { num self < 2 ^ 16 };

    ghost pixel_of_num: { (x : Self) → pixel (num x) ≡ x };

    ghost num_of_pixel: { (v : ℕ) → num (pixel v) ≡ v };

    ghost cmp_is_of_numbers: { (x y : Self) → Self.Ord.cmp x y ≡ nat_cmp (num x) (num y) };

    ghost bits_at_most: { BITS ≤ 16 };

    ghost coeff_bits: { Self.Coeff.BITS ≡ 2 * BITS };
}

impl Pixel for u8 {
    const BITS: usize = 8;

    type Coeff = i16;

    ghost BITS = { 8 };

    ghost num = { λ x. x };

    ghost pixel = { λ v. v };

    fn from_u32(v: u32) -> u8 {
        v as u8
    }

    fn to_u32(self) -> u32 {
        u32::from(self)
    }

    fn to_i32(self) -> i32 {
        i32::from(self)
    }

    ghost pixel_of_num = { λ x. refl };

    ghost num_of_pixel = { λ v. refl };

    ghost cmp_is_of_numbers = { λ x y. refl };

    ghost bits_at_most = { Prim.search rules };

    ghost coeff_bits = { refl };
}

impl Pixel for u16 {
    const BITS: usize = 16;

    type Coeff = i32;

    ghost BITS = { 16 };

    ghost num = { λ x. x };

    ghost pixel = { λ v. v };

    fn from_u32(v: u32) -> u16 {
        v as u16
    }

    fn to_u32(self) -> u32 {
        u32::from(self)
    }

    fn to_i32(self) -> i32 {
        i32::from(self)
    }

    ghost pixel_of_num = { λ x. refl };

    ghost num_of_pixel = { λ v. refl };

    ghost cmp_is_of_numbers = { λ x y. refl };

    ghost bits_at_most = { Prim.search rules };

    ghost coeff_bits = { refl };
}

/// The laws of samples: number and sample back and forth, and their order and width.
pub fn pixel_laws<T: Pixel>()
    ensures number_of_sample { (v : ℕ) → T.num (T.pixel v) ≡ v }
    ensures sample_of_number { (x : T) → T.pixel (T.num x) ≡ x }
    ensures order { (x y : T) → T.Ord.cmp x y ≡ nat_cmp (T.num x) (T.num y) }
    ensures bits { T.BITS ≤ 16 }
    ensures coefficient_bits { T.Coeff.BITS ≡ 2 * T.BITS }
{}

/// The laws of coefficients: number and coefficient back and forth.
pub fn coefficient_laws<C: Coefficient>()
    ensures number_of_coefficient { (v : ℤ) → C.val (C.coefficient v) ≡ v }
    ensures coefficient_of_number { (x : C) → C.coefficient (C.val x) ≡ x }
{}
