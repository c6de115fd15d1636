//! The edge filter: chooses how strongly a side is smoothed before it is interpolated, and smooths it in place.

ghost use Rattle.std.specs.Prelude.{◌≡◌, ℕ, ◌+◌, ◌-◌, ◌/◌, ◌^◌, ◌<◌, ◌≤◌, List, [], ◌∷◌, length, min, unsigned_abs, true, false};
ghost use Rattle.av1_frame.specs.Samples.{paint_row};
ghost use Rattle.av1_intra.specs.Sides.{entries, numbers};
ghost use Rattle.av1_intra.specs.EdgeFilter.{filter_strength, kernel, weighted, filtered};
ghost use Rattle.av1_intra.specs.Scaffolding.{IsSmoothed};

use av1_frame::Pixel;

/// How strongly a side of a block of `width` by `height` samples is smoothed, from 0 (not at all) to 3. `smooth_filter`
/// says that a neighbour has a smooth mode. `angle_delta` is the distance in degrees from the side's own angle, which
/// is 90 above and 180 on the left.
///
/// Without `smooth_filter`, if width and height sum to 25 to 32, a side is smoothed even at less than 4 degrees.
///
/// AV1 specification: intra edge filter strength selection process.
#[tactic(auto, using(std::proofs::lemmas::Bool::Decides::nat_tests))]
pub fn select_ief_strength(
    width: usize,
    height: usize,
    smooth_filter: bool,
    angle_delta: isize,
) -> u8
    requires { width + height < 2 ^ 64 }
    ensures value { result ≡ filter_strength (width + height) smooth_filter (unsigned_abs angle_delta) }
    ensures at_most { result ≤ 3 }
{
    let sides = width + height;
    let delta = angle_delta.unsigned_abs();
    if smooth_filter {
        smooth_strength(sides, delta)
    } else {
        plain_strength(sides, delta)
    }
}

/// Returns the strength if a neighbour has a smooth mode.
#[tactic(auto, using(std::proofs::lemmas::Bool::Decides::nat_tests))]
fn smooth_strength(sides: usize, delta: usize) -> u8
    ensures value { result ≡ filter_strength sides true delta }
    ensures at_most { result ≤ 3 }
{
    match (sides, delta) {
        (..=8, 64..) => 2,
        (..=8, 40..) => 1,
        (..=8, _) => 0,
        (..=16, 48..) => 2,
        (..=16, 20..) => 1,
        (..=16, _) => 0,
        (..=24, ..4) => 0,
        _ => 3,
    }
}

/// Returns the strength if no neighbour has a smooth mode.
#[tactic(auto, using(std::proofs::lemmas::Bool::Decides::nat_tests))]
fn plain_strength(sides: usize, delta: usize) -> u8
    ensures value { result ≡ filter_strength sides false delta }
    ensures at_most { result ≤ 3 }
{
    match (sides, delta) {
        (..=8, 56..) => 1,
        (..=8, _) => 0,
        (..=16, 40..) => 1,
        (..=16, _) => 0,
        (..=32, 32..) => 3,
        (..=24, 16..) => 2,
        (..=24, 8..) => 1,
        (..=24, _) => 0,
        (..=32, 4..) => 2,
        (..=32, _) => 1,
        _ => 3,
    }
}

/// Returns the mean of five samples by the weights of a strength, rounded.
#[tactic(auto, using(std::proofs::lemmas::Bool::Decides::nat_tests))]
fn smoothed<const STRENGTH: usize>(a: u32, b: u32, c: u32, d: u32, e: u32) -> u32
    requires strength { (1 ≤ STRENGTH) × (STRENGTH ≤ 3) }
    requires a { a < 2 ^ 16 }
    requires b { b < 2 ^ 16 }
    requires c { c < 2 ^ 16 }
    requires d { d < 2 ^ 16 }
    requires e { e < 2 ^ 16 }
    ensures value { result ≡ (weighted (kernel STRENGTH) 0 (entries (a ∷ b ∷ c ∷ d ∷ e ∷ [])) + 8) / 16 }
    ensures within { (top : ℕ) → a < top → b < top → c < top → d < top → e < top → result < top }
{
    let sum = match STRENGTH {
        1 => 4 * (b + d) + 8 * c,
        2 => 5 * (b + d) + 6 * c,
        _ => 2 * (a + e) + 4 * (b + c + d),
    };
    (sum + 8) / 16
}

/// Smooths entry `i` and returns its old value. `next` and `second` are the indices of the two entries on its right.
/// `a` and `b` are the old values of the two entries before it.
fn smooth_entry<T: Pixel, const STRENGTH: usize>(
    edge: &mut [T],
    i: usize,
    next: usize,
    second: usize,
    a: u32,
    b: u32,
) -> u32
    requires strength { (1 ≤ STRENGTH) × (STRENGTH ≤ 3) }
    requires i { i < length edge.old }
    requires next { (i ≤ next) × (next < length edge.old) }
    requires second { (i ≤ second) × (second < length edge.old) }
    requires a { a < 2 ^ T.BITS }
    requires b { b < 2 ^ T.BITS }
    ensures fits { result < 2 ^ T.BITS }
    ensures step { (old : List T) (n : ℕ) → 1 ≤ i → i ≤ n → next ≡ min n (i + 1) → second ≡ min n (i + 2)
        → IsSmoothed T.num T.pixel n STRENGTH old edge.old i a b → IsSmoothed T.num T.pixel n STRENGTH old edge.new (i + 1) b result }
{
    let c = edge[i].to_u32();
    let d = edge[next].to_u32();
    let e = edge[second].to_u32();
    edge[i] = T::from_u32(smoothed::<STRENGTH>(a, b, c, d, e));
    c
}

/// Smooths four entries that are followed by two others, and returns the old values of the last two of the four. The
/// compiler smooths the four at the same time. `a` and `b` are the old values of the two entries before them.
fn smooth_four<T: Pixel, const STRENGTH: usize>(
    edge: &mut [T],
    first: usize,
    a: u32,
    b: u32,
) -> (u32, u32)
    requires strength { (1 ≤ STRENGTH) × (STRENGTH ≤ 3) }
    requires some { 1 ≤ first }
    requires long { first + 6 ≤ length edge.old }
    requires short { length edge.old ≤ 257 }
    requires a { a < 2 ^ T.BITS }
    requires b { b < 2 ^ T.BITS }
    ensures a_fits { result.0 < 2 ^ T.BITS }
    ensures b_fits { result.1 < 2 ^ T.BITS }
    ensures step { (old : List T) (n : ℕ) → first + 5 ≤ n → IsSmoothed T.num T.pixel n STRENGTH old edge.old first a b
        → IsSmoothed T.num T.pixel n STRENGTH old edge.new (first + 4) result.0 result.1 }
{
    let mut a = a;
    let mut b = b;
    for k in 0..4 {
        let i = first + k;
        let c = smooth_entry::<T, STRENGTH>(edge, i, i + 1, i + 2, a, b);
        a = b;
        b = c;
    }
    (a, b)
}

/// Smooths the entries from `first` to `size - 1`; past the end the last one is repeated. `a` and `b` are the old
/// values of the two entries before them.
fn smooth_rest<T: Pixel, const STRENGTH: usize>(
    edge: &mut [T],
    first: usize,
    size: usize,
    a: u32,
    b: u32,
)
    requires strength { (1 ≤ STRENGTH) × (STRENGTH ≤ 3) }
    requires some { (1 ≤ first) × (first ≤ size) }
    requires size { size ≤ length edge.old }
    requires short { length edge.old ≤ 257 }
    requires a { a < 2 ^ T.BITS }
    requires b { b < 2 ^ T.BITS }
    ensures { (old : List T) → IsSmoothed T.num T.pixel (size - 1) STRENGTH old edge.old first a b
        → edge.new ≡ paint_row size (λ e _. T.pixel (filtered (size - 1) STRENGTH (numbers T.num old) e)) old }
{
    let last = size - 1;
    let mut a = a;
    let mut b = b;
    for i in first..size {
        let c = smooth_entry::<T, STRENGTH>(edge, i, last.min(i + 1), last.min(i + 2), a, b);
        a = b;
        b = c;
    }
}

/// Smooths two entries or more as `filter_edge` does, by a strength that the compiler knows.
fn filter_by<T: Pixel, const STRENGTH: usize>(size: usize, edge: &mut [T])
    requires strength { (1 ≤ STRENGTH) × (STRENGTH ≤ 3) }
    requires some { 2 ≤ size }
    requires size { size ≤ length edge.old }
    requires short { length edge.old ≤ 257 }
    ensures { edge.new ≡ paint_row size (λ e _. T.pixel (filtered (size - 1) STRENGTH (numbers T.num edge.old) e)) edge.old }
{
    let fours = size.saturating_sub(3) / 4;
    let mut a = edge[0].to_u32();
    let mut b = a;
    for i in 0..fours {
        let (c, d) = smooth_four::<T, STRENGTH>(edge, 4 * i + 1, a, b);
        a = c;
        b = d;
    }
    smooth_rest::<T, STRENGTH>(edge, 4 * fours + 1, size, a, b);
}

/// Smooths the entries of `edge` from 1 to `size - 1` by the kernel of `strength`, from 1 to 3. Strength 0 has no
/// effect. Entry 0, which is the corner, and the entries from `size` on are unchanged. Past either end of the first
/// `size` entries, the entry at that end is repeated.
///
/// AV1 specification: intra edge filter process.
pub fn filter_edge<T: Pixel>(size: usize, strength: u8, edge: &mut [T])
    requires strength { strength ≤ 3 }
    requires size { size ≤ length edge.old }
    requires short { length edge.old ≤ 257 }
    ensures { edge.new ≡ paint_row size (λ e _. T.pixel (filtered (size - 1) strength (numbers T.num edge.old) e)) edge.old }
{
    if strength == 0 || size <= 1 {
        return;
    }
    if strength == 1 {
        filter_by::<T, 1>(size, edge);
    } else if strength == 2 {
        filter_by::<T, 2>(size, edge);
    } else {
        filter_by::<T, 3>(size, edge);
    }
}
