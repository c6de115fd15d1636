//! Writes a transform block's coefficients to a slice, from the triples of its leaf. Does not allocate.

ghost use Rattle.std.specs.Prelude.{◌≡◌, ℕ, ◌≤◌, ◌<◌, ◌-◌, length, map, pos, All, replicate, slice_set, if◌then◌else◌};
ghost use Rattle.std.specs.List.{fold};
ghost use Rattle.av1_tile.specs.Reference.{with_triple};
ghost use Rattle.av1_dct.specs.Arithmetic.{FitsBits};

use av1_frame::Coefficient;
use av1_plan::Triple;

/// Sets each coefficient to 0.
fn clear<C: Coefficient>(coefficients: &mut [C])
    ensures { map C.val coefficients.new ≡ replicate (length coefficients.old) (pos 0) }
{
    for coefficient in coefficients.iter_mut() {
        *coefficient = C::from_i32(0);
    }
}

/// Writes a value to its position if it belongs to this block.
fn put_value<C: Coefficient>(coefficients: &mut [C], is_here: bool, place: usize, value: i32)
    requires place { place < length coefficients.old }
    requires value { FitsBits C.BITS value }
    ensures { map C.val coefficients.new ≡ (if is_here then slice_set (map C.val coefficients.old) place value else map C.val coefficients.old) }
{
    if is_here {
        coefficients[place] = C::from_i32(value);
    }
}

/// Writes the coefficients of transform block number `block`: the values of its triples at their positions, and 0 at
/// all others.
pub fn load_coefficients<C: Coefficient>(coefficients: &mut [C], block: usize, triples: &[Triple])
    requires places { All (λ (t : Triple). t.place < length coefficients.old) triples.now }
    requires values { All (λ (t : Triple). FitsBits C.BITS t.value) triples.now }
    ensures { map C.val coefficients.new ≡ fold (with_triple block) (replicate (length coefficients.old) (pos 0)) triples.now }
{
    clear(coefficients);
    for triple in triples {
        let Triple {
            block: number,
            place,
            value,
        } = *triple;
        let is_here = usize::from(number) == block;
        put_value(coefficients, is_here, usize::from(place), value);
    }
}

/// The number of coefficients up to the last position of the triples.
pub fn coefficients_up_to(triples: &[Triple]) -> usize
    ensures reach { All (λ (t : Triple). t.place < result) triples.now }
    ensures least { (n : ℕ) → All (λ (t : Triple). t.place < n) triples.now → result ≤ n }
{
    let mut count = 0;
    for triple in triples {
        count = greater(count, usize::from(triple.place) + 1);
    }
    count
}

#[inline(always)]
fn greater(a: usize, b: usize) -> usize
    ensures first { a ≤ result }
    ensures second { b ≤ result }
    ensures least { (n : ℕ) → a ≤ n → b ≤ n → result ≤ n }
{
    if a < b { b } else { a }
}
