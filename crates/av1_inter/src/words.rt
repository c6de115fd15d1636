//! Filters samples in 32 bits, two products at a time: reads a slice, and returns an array of values.
//! The samples have two bytes, or one byte if fewer than 8 columns are filtered at once.
//!
//! In one step, a machine multiplies eight or 16 numbers of 16 bits by as many others and adds each two neighbouring
//! products. So the samples of two weights are put side by side, for eight or 16 columns at once.
//!
//! AV1 specification: block inter prediction process.

ghost use Rattle.std.specs.Prelude.{◌≡◌, ℕ, ◌+◌, ◌*◌, ◌^◌, ◌≤◌, ◌<◌, nat_lt, if◌then◌else◌, pos, ◌+ℤ◌, ◌*ℤ◌, length, map, slice_index};
ghost use Rattle.av1_inter.specs.Motion.{entry};
ghost use Rattle.av1_inter.specs.Scaffolding.{AreZero, Between, crossed, doubled, IsFilter, IsRounding, IsStripWidth, IsWithin, settled, sum_from};

use crate::rounding::Rounding;
use av1_blocks::SUBPEL_FILTER_SIZE;
use av1_frame::Pixel;
use std::simd::prelude::*;

/// The positions of all lanes of two vectors of eight.
const EACH: [usize; 16] = [0, 1, 2, 3, 4, 5, 6, 7, 8, 9, 10, 11, 12, 13, 14, 15];

/// The positions of all lanes of two vectors of sixteen.
const EACH_OF_32: [usize; 32] = [
    0, 1, 2, 3, 4, 5, 6, 7, 8, 9, 10, 11, 12, 13, 14, 15, 16, 17, 18, 19, 20, 21, 22, 23, 24, 25,
    26, 27, 28, 29, 30, 31,
];

/// The lanes of two vectors of eight, interleaved: columns 0 to 3, and then the others.
const LOW: [usize; 8] = [0, 8, 1, 9, 2, 10, 3, 11];

const HIGH: [usize; 8] = [4, 12, 5, 13, 6, 14, 7, 15];

/// The lanes of two vectors of sixteen, interleaved: columns 0 to 3 and 8 to 11, and then the others. A register of 256
/// bits interleaves each of its halves separately.
const NEAR: [usize; 16] = [0, 16, 1, 17, 2, 18, 3, 19, 8, 24, 9, 25, 10, 26, 11, 27];

const FAR: [usize; 16] = [4, 20, 5, 21, 6, 22, 7, 23, 12, 28, 13, 29, 14, 30, 15, 31];

/// The positions of the columns 0 to 15 if the columns of `FAR` follow those of `NEAR`.
const IN_ORDER: [usize; 16] = [0, 1, 2, 3, 8, 9, 10, 11, 4, 5, 6, 7, 12, 13, 14, 15];

/// Sample `c` of the `N` samples from a position on, and 0 after them.
#[inline(always)]
fn sample_or_none<T: Pixel, const N: usize>(source: &[T], start: usize, c: usize) -> i32
    requires reach { start + N ≤ length source.now }
    ensures { result ≡ pos (if nat_lt c N then slice_index (map T.num source.now) (start + c) else 0) }
{
    if c < N { source[start + c].to_i32() } else { 0 }
}

/// `N` samples from a position on, and 0 after them.
#[inline(always)]
fn eight_from<T: Pixel, const N: usize>(source: &[T], start: usize) -> [i16; 8]
    requires reach { start + N ≤ length source.now }
    requires small { (c : ℕ) → c < N → slice_index (map T.num source.now) (start + c) < 32768 }
    ensures value { (c : ℕ) → c < 8 → c < N → entry result c ≡ pos (slice_index (map T.num source.now) (start + c)) }
    ensures within { (c : ℕ) → c < 8 → Between 0 32767 (entry result c) }
{
    let mut values = [0; 8];
    for c in 0..8 {
        values[c] = sample_or_none::<T, N>(source, start, c);
    }
    i32x8::from_array(values).cast::<i16>().to_array()
}

/// Each of eight numbers times a weight, plus the number at the same position of eight others times another weight.
#[inline(always)]
fn pair_sums(first: [i16; 8], second: [i16; 8], weight: i16, other: i16) -> [i32; 8]
    requires first { (c : ℕ) → c < 8 → Between 0 32767 (entry first c) }
    requires second { (c : ℕ) → c < 8 → Between 0 32767 (entry second c) }
    requires weight { Between 28 92 weight }
    requires other { Between 28 92 other }
    ensures { (c : ℕ) → c < 8 → entry result c ≡ weight *ℤ entry first c +ℤ other *ℤ entry second c }
{
    let first = i16x8::from_array(first);
    let second = i16x8::from_array(second);
    let low: i16x8 = first.shuffle(second, LOW);
    let high: i16x8 = first.shuffle(second, HIGH);
    let weights = i16x8::from_array([weight, other, weight, other, weight, other, weight, other]);
    // Both factors are widened at the same time: a compiler would widen weights before a loop, and narrow them in it.
    let low: i16x16 = low.shuffle(weights, EACH);
    let high: i16x16 = high.shuffle(weights, EACH);
    let low = low.cast::<i32>();
    let high = high.cast::<i32>();
    let low = low.extract::<0, 8>() * low.extract::<8, 8>();
    let high = high.extract::<0, 8>() * high.extract::<8, 8>();
    let low: i32x4 = low.swizzle([0, 2, 4, 6]) + low.swizzle([1, 3, 5, 7]);
    let high: i32x4 = high.swizzle([0, 2, 4, 6]) + high.swizzle([1, 3, 5, 7]);
    low.shuffle(high, [0, 1, 2, 3, 4, 5, 6, 7]).to_array()
}

/// The sample at a position.
#[inline(always)]
fn sample_at<T: Pixel>(source: &[T], place: usize) -> i32
    requires { place < length source.now }
    ensures { result ≡ pos (slice_index (map T.num source.now) place) }
{
    source[place].to_i32()
}

/// 16 samples from a position on.
#[inline(always)]
fn sixteen_from<T: Pixel>(source: &[T], start: usize) -> [i16; 16]
    requires reach { start + 16 ≤ length source.now }
    requires small { (c : ℕ) → c < 16 → slice_index (map T.num source.now) (start + c) < 32768 }
    ensures value { (c : ℕ) → c < 16 → entry result c ≡ pos (slice_index (map T.num source.now) (start + c)) }
    ensures within { (c : ℕ) → c < 16 → Between 0 32767 (entry result c) }
{
    let mut values = [0; 16];
    for c in 0..16 {
        values[c] = sample_at(source, start + c);
    }
    i32x16::from_array(values).cast::<i16>().to_array()
}

/// Each of 16 numbers times a weight, plus the number at the same position of 16 others times another weight. Columns 0
/// to 3 and 8 to 11 come before the others, as `crossed` says.
#[inline(always)]
fn wide_pair_sums(first: [i16; 16], second: [i16; 16], weight: i16, other: i16) -> [i32; 16]
    requires first { (c : ℕ) → c < 16 → Between 0 32767 (entry first c) }
    requires second { (c : ℕ) → c < 16 → Between 0 32767 (entry second c) }
    requires weight { Between 28 92 weight }
    requires other { Between 28 92 other }
    ensures { (c : ℕ) → c < 16 → entry result c ≡ weight *ℤ entry first (crossed c) +ℤ other *ℤ entry second (crossed c) }
{
    let first = i16x16::from_array(first);
    let second = i16x16::from_array(second);
    let near: i16x16 = first.shuffle(second, NEAR);
    let far: i16x16 = first.shuffle(second, FAR);
    let weights = i16x16::from_array([
        weight, other, weight, other, weight, other, weight, other, weight, other, weight, other,
        weight, other, weight, other,
    ]);
    let near: i16x32 = near.shuffle(weights, EACH_OF_32);
    let far: i16x32 = far.shuffle(weights, EACH_OF_32);
    let near = near.cast::<i32>();
    let far = far.cast::<i32>();
    let near = near.extract::<0, 16>() * near.extract::<16, 16>();
    let far = far.extract::<0, 16>() * far.extract::<16, 16>();
    let near: i32x8 = near.swizzle([0, 2, 4, 6, 8, 10, 12, 14])
        + near.swizzle([1, 3, 5, 7, 9, 11, 13, 15]);
    let far: i32x8 = far.swizzle([0, 2, 4, 6, 8, 10, 12, 14])
        + far.swizzle([1, 3, 5, 7, 9, 11, 13, 15]);
    near.shuffle(far, EACH).to_array()
}

/// The sum of two of the eight products of a sum, for the halved weights `at` and `at + 1`, from each of `N` positions
/// on.
#[inline(always)]
fn pair_from<T: Pixel, const N: usize>(
    source: &[T],
    start: usize,
    step: usize,
    halves: &[i16; SUBPEL_FILTER_SIZE],
    at: usize,
) -> [i32; 8]
    requires two { at < 7 }
    requires filter { IsFilter (doubled halves.now) }
    requires reach { start + N + 7 * step ≤ length source.now }
    requires small { (c t : ℕ) → c < N → t < 8 → slice_index (map T.num source.now) (start + c + t * step) < 32768 }
    ensures value { (c : ℕ) → c < 8 → c < N →
        entry result c ≡ entry halves.now at *ℤ pos (slice_index (map T.num source.now) (start + c + at * step)) +ℤ entry halves.now (at + 1) *ℤ pos
        (slice_index (map T.num source.now) (start + c + (at + 1) * step)) }
    ensures within { (c : ℕ) → c < 8 → IsWithin (2 ^ 23) (entry result c) }
{
    pair_sums(
        eight_from::<T, N>(source, start + at * step),
        eight_from::<T, N>(source, start + (at + 1) * step),
        halves[at],
        halves[at + 1],
    )
}

/// As `pair_from`, from each of 16 positions on, in crossed order.
#[inline(always)]
fn wide_pair_from<T: Pixel>(
    source: &[T],
    start: usize,
    step: usize,
    halves: &[i16; SUBPEL_FILTER_SIZE],
    at: usize,
) -> [i32; 16]
    requires two { at < 7 }
    requires filter { IsFilter (doubled halves.now) }
    requires reach { start + 16 + 7 * step ≤ length source.now }
    requires small { (c t : ℕ) → c < 16 → t < 8 → slice_index (map T.num source.now) (start + c + t * step) < 32768 }
    ensures value { (c : ℕ) → c < 16 →
        entry result c ≡ entry halves.now at *ℤ pos (slice_index (map T.num source.now) (start + crossed c + at * step)) +ℤ
        entry halves.now (at + 1) *ℤ pos (slice_index (map T.num source.now) (start + crossed c + (at + 1) * step)) }
    ensures within { (c : ℕ) → c < 16 → IsWithin (2 ^ 23) (entry result c) }
{
    wide_pair_sums(
        sixteen_from(source, start + at * step),
        sixteen_from(source, start + (at + 1) * step),
        halves[at],
        halves[at + 1],
    )
}

/// Adds numbers to as many others, position by position.
#[inline(always)]
fn add_products<const L: usize>(sums: &mut [i32; L], products: &[i32; L])
    requires sums { (c : ℕ) → c < L → IsWithin (2 ^ 25) (entry sums.old c) }
    requires products { (c : ℕ) → c < L → IsWithin (2 ^ 25) (entry products.now c) }
    ensures { (c : ℕ) → c < L → entry sums.new c ≡ entry sums.old c +ℤ entry products.now c }
{
    for c in 0..L {
        sums[c] += products[c];
    }
}

/// The sums of eight samples that are `step` apart, each times its halved weight, from each of `N` positions on. The
/// outer `ZEROS` weights on either side are 0, so their products are left out.
#[inline(always)]
fn eight_sums<T: Pixel, const N: usize, const ZEROS: usize>(
    source: &[T],
    start: usize,
    step: usize,
    halves: &[i16; SUBPEL_FILTER_SIZE],
) -> [i32; 8]
    requires filter { IsFilter (doubled halves.now) }
    requires few { ZEROS ≤ 2 }
    requires zeros { AreZero ZEROS halves.now }
    requires reach { start + N + 7 * step ≤ length source.now }
    requires small { (c t : ℕ) → c < N → t < 8 → slice_index (map T.num source.now) (start + c + t * step) < 32768 }
    ensures value { (c : ℕ) → c < 8 → c < N → entry result c ≡ sum_from halves.now (λ i. pos (slice_index (map T.num source.now) i)) (start + c) step }
    ensures within { (c : ℕ) → c < 8 → IsWithin (2 ^ 25) (entry result c) }
{
    let mut sums = [0; 8];
    for pair in 0..SUBPEL_FILTER_SIZE / 2 - ZEROS {
        let products = pair_from::<T, N>(source, start, step, halves, ZEROS + 2 * pair);
        add_products(&mut sums, &products);
    }
    sums
}

/// As `eight_sums`, from each of 16 positions on, in crossed order.
#[inline(always)]
fn sixteen_sums<T: Pixel, const ZEROS: usize>(
    source: &[T],
    start: usize,
    step: usize,
    halves: &[i16; SUBPEL_FILTER_SIZE],
) -> [i32; 16]
    requires filter { IsFilter (doubled halves.now) }
    requires few { ZEROS ≤ 2 }
    requires zeros { AreZero ZEROS halves.now }
    requires reach { start + 16 + 7 * step ≤ length source.now }
    requires small { (c t : ℕ) → c < 16 → t < 8 → slice_index (map T.num source.now) (start + c + t * step) < 32768 }
    ensures value { (c : ℕ) → c < 16 → entry result c ≡ sum_from halves.now (λ i. pos (slice_index (map T.num source.now) i)) (start + crossed c) step }
    ensures within { (c : ℕ) → c < 16 → IsWithin (2 ^ 25) (entry result c) }
{
    let mut sums = [0; 16];
    for pair in 0..SUBPEL_FILTER_SIZE / 2 - ZEROS {
        let products = wide_pair_from(source, start, step, halves, ZEROS + 2 * pair);
        add_products(&mut sums, &products);
    }
    sums
}

/// The sums of samples side by side, each times its halved weight, from each of the first four positions of `values`
/// on. The first of these samples belongs to the third weight. The outer two weights on either side are 0.
#[inline(always)]
fn sums_along(values: [i16; 8], halves: &[i16; SUBPEL_FILTER_SIZE]) -> [i32; 8]
    requires filter { IsFilter (doubled halves.now) }
    requires values { (c : ℕ) → c < 8 → Between 0 32767 (entry values c) }
    ensures value { (c : ℕ) → c < 4 →
        entry result c ≡ (entry halves.now 2 *ℤ entry values c +ℤ entry halves.now 3 *ℤ entry values (c + 1)) +ℤ
        (entry halves.now 4 *ℤ entry values (c + 2) +ℤ entry halves.now 5 *ℤ entry values (c + 3)) }
    ensures within { (c : ℕ) → c < 8 → IsWithin (2 ^ 25) (entry result c) }
{
    let lanes = i16x8::from_array(values);
    let second = lanes.rotate_elements_left::<1>().to_array();
    let third = lanes.rotate_elements_left::<2>().to_array();
    let fourth = lanes.rotate_elements_left::<3>().to_array();
    let mut sums = pair_sums(values, second, halves[2], halves[3]);
    let others = pair_sums(third, fourth, halves[4], halves[5]);
    add_products(&mut sums, &others);
    sums
}

/// The value of such a sum. All that is added before the shift and subtracted after it is added at once.
#[inline(always)]
fn settle(sum: i32, rounding: Rounding) -> i32
    requires rounding { IsRounding rounding }
    requires within { IsWithin (2 ^ 25) sum }
    ensures { result ≡ settled rounding sum }
{
    let add = i32::from(rounding.add) - (i32::from(rounding.bias) << rounding.shift);
    ((sum + add) >> rounding.shift).max(-32768).min(32767)
}

/// The values of eight such sums. All are cut to 16 bits at once, even if fewer are needed.
#[inline(always)]
fn settle_eight(sums: &[i32; 8], rounding: Rounding) -> [i16; 8]
    requires rounding { IsRounding rounding }
    requires within { (c : ℕ) → c < 8 → IsWithin (2 ^ 25) (entry sums.now c) }
    ensures { (c : ℕ) → c < 8 → entry result c ≡ settled rounding (entry sums.now c) }
{
    let mut values = [0; 8];
    for c in 0..8 {
        values[c] = settle(sums[c], rounding);
    }
    i32x8::from_array(values).cast::<i16>().to_array()
}

/// The values of 16 such sums in crossed order: this call puts them in order. A compiler would do so at the start of
/// the sums, but doesn't move it past their limits.
#[inline(always)]
fn settle_sixteen(sums: &[i32; 16], rounding: Rounding) -> [i16; 16]
    requires rounding { IsRounding rounding }
    requires within { (c : ℕ) → c < 16 → IsWithin (2 ^ 25) (entry sums.now c) }
    ensures { (c : ℕ) → c < 16 → entry result c ≡ settled rounding (entry sums.now (crossed c)) }
{
    let mut values = [0; 16];
    for c in 0..16 {
        values[c] = settle(sums[c], rounding);
    }
    let values: i32x16 = i32x16::from_array(values).swizzle(IN_ORDER);
    values.cast::<i16>().to_array()
}

/// The first `N` of some numbers.
#[inline(always)]
fn first_of<const L: usize, const N: usize>(numbers: &[i16; L]) -> [i16; N]
    requires { N ≤ L }
    ensures { (c : ℕ) → c < N → entry result c ≡ entry numbers.now c }
{
    let mut values = [0; N];
    for c in 0..N {
        values[c] = numbers[c];
    }
    values
}

/// The first `N` values of eight such sums.
#[inline(always)]
fn settle_first<const N: usize>(sums: &[i32; 8], rounding: Rounding) -> [i16; N]
    requires narrow { N ≤ 8 }
    requires rounding { IsRounding rounding }
    requires within { (c : ℕ) → c < 8 → IsWithin (2 ^ 25) (entry sums.now c) }
    ensures { (c : ℕ) → c < N → entry result c ≡ settled rounding (entry sums.now c) }
{
    first_of::<8, N>(&settle_eight(sums, rounding))
}

/// The values of the sums from each of at most eight positions on.
#[inline(always)]
fn filter_group<T: Pixel, const N: usize, const ZEROS: usize>(
    source: &[T],
    start: usize,
    step: usize,
    halves: &[i16; SUBPEL_FILTER_SIZE],
    rounding: Rounding,
) -> [i16; N]
    requires filter { IsFilter (doubled halves.now) }
    requires few { ZEROS ≤ 2 }
    requires zeros { AreZero ZEROS halves.now }
    requires rounding { IsRounding rounding }
    requires narrow { N ≤ 8 }
    requires reach { start + N + 7 * step ≤ length source.now }
    requires small { (c t : ℕ) → c < N → t < 8 → slice_index (map T.num source.now) (start + c + t * step) < 32768 }
    ensures { (c : ℕ) → c < N → entry result c ≡ settled rounding (sum_from halves.now (λ i. pos (slice_index (map T.num source.now) i)) (start + c) step) }
{
    let sums = eight_sums::<T, N, ZEROS>(source, start, step, halves);
    settle_first::<N>(&sums, rounding)
}

/// As `filter_group`, for four bytes side by side and four weights. Each byte is read once: a compiler doesn't read
/// four at once if the next four overlap them.
#[inline(always)]
pub(crate) fn filter_four<T: Pixel, const N: usize, const ZEROS: usize>(
    source: &[T],
    start: usize,
    step: usize,
    halves: &[i16; SUBPEL_FILTER_SIZE],
    rounding: Rounding,
) -> [i16; N]
    requires filter { IsFilter (doubled halves.now) }
    requires zeros { AreZero ZEROS halves.now }
    requires rounding { IsRounding rounding }
    requires four { N ≡ 4 }
    requires two { ZEROS ≡ 2 }
    requires one { step ≡ 1 }
    requires reach { start + N + 7 * step ≤ length source.now }
    requires small { (c t : ℕ) → c < N → t < 8 → slice_index (map T.num source.now) (start + c + t * step) < 32768 }
    ensures { (c : ℕ) → c < N → entry result c ≡ settled rounding (sum_from halves.now (λ i. pos (slice_index (map T.num source.now) i)) (start + c) step) }
{
    let sums = sums_along(eight_from::<T, 8>(source, start + 2), halves);
    settle_first::<N>(&sums, rounding)
}

/// As `filter_group`, for 16 positions or at most eight. The sums of 16 positions are formed at once.
#[inline(always)]
pub(crate) fn filter_words<T: Pixel, const N: usize, const ZEROS: usize>(
    source: &[T],
    start: usize,
    step: usize,
    halves: &[i16; SUBPEL_FILTER_SIZE],
    rounding: Rounding,
) -> [i16; N]
    requires filter { IsFilter (doubled halves.now) }
    requires few { ZEROS ≤ 2 }
    requires zeros { AreZero ZEROS halves.now }
    requires rounding { IsRounding rounding }
    requires kind { IsStripWidth N }
    requires reach { start + N + 7 * step ≤ length source.now }
    requires small { (c t : ℕ) → c < N → t < 8 → slice_index (map T.num source.now) (start + c + t * step) < 32768 }
    ensures { (c : ℕ) → c < N → entry result c ≡ settled rounding (sum_from halves.now (λ i. pos (slice_index (map T.num source.now) i)) (start + c) step) }
{
    if N == 16 {
        let sums = sixteen_sums::<T, ZEROS>(source, start, step, halves);
        first_of::<16, N>(&settle_sixteen(&sums, rounding))
    } else {
        filter_group::<T, N, ZEROS>(source, start, step, halves, rounding)
    }
}
