//! Filters samples of one byte in 16 bits: reads a slice, and returns an array of values.
//!
//! Every weight is even, so half of a sum of eight samples is the sum by halved weights. Over samples of 8 bits it lies
//! from -7140 to 23460, and so do the partial sums of its products.
//!
//! AV1 specification: block inter prediction process.

ghost use Rattle.std.specs.Prelude.{◌≡◌, ℕ, ◌+◌, ◌*◌, ◌≤◌, ◌<◌, pos, length, map, slice_index};
ghost use Rattle.av1_inter.specs.Motion.{entry, weighted};
ghost use Rattle.av1_inter.specs.Scaffolding.{AreZero, Between, doubled, IsFilter, IsRounding, settled, sum_from};

use crate::rounding::Rounding;
use av1_blocks::SUBPEL_FILTER_SIZE;
use av1_frame::Pixel;

/// The sample at a position.
#[inline(always)]
fn byte_at<T: Pixel>(source: &[T], place: usize) -> i16
    requires inside { place < length source.now }
    requires bytes { T.BITS ≡ 8 }
    ensures value { result ≡ pos (slice_index (map T.num source.now) place) }
    ensures within { Between 0 255 result }
{
    source[place].to_i32() as i16
}

/// The sum of eight samples, each times its halved weight. The outer `ZEROS` weights on either side are 0, so their
/// products are left out.
#[inline(always)]
fn weigh_bytes<const ZEROS: usize>(
    halves: &[i16; SUBPEL_FILTER_SIZE],
    values: [i16; SUBPEL_FILTER_SIZE],
) -> i16
    requires filter { IsFilter (doubled halves.now) }
    requires few { ZEROS ≤ 2 }
    requires zeros { AreZero ZEROS halves.now }
    requires within { (t : ℕ) → t < 8 → Between 0 255 (entry values t) }
    ensures value { result ≡ weighted halves.now (entry values) }
    ensures within { Between 7140 23460 result }
{
    let mut sum = 0;
    for t in ZEROS..SUBPEL_FILTER_SIZE - ZEROS {
        sum += halves[t] * values[t];
    }
    sum
}

/// The sum of eight samples that are `step` apart, each times its halved weight.
#[inline(always)]
fn sum_bytes<T: Pixel, const ZEROS: usize>(
    source: &[T],
    start: usize,
    step: usize,
    halves: &[i16; SUBPEL_FILTER_SIZE],
) -> i16
    requires filter { IsFilter (doubled halves.now) }
    requires few { ZEROS ≤ 2 }
    requires zeros { AreZero ZEROS halves.now }
    requires bytes { T.BITS ≡ 8 }
    requires reach { start + 7 * step < length source.now }
    ensures value { result ≡ sum_from halves.now (λ i. pos (slice_index (map T.num source.now) i)) start step }
    ensures within { Between 7140 23460 result }
{
    // Read from both ends: with samples of neighbouring weights one after the other a compiler mixes their products.
    let first = byte_at(source, start);
    let eighth = byte_at(source, start + 7 * step);
    let second = byte_at(source, start + step);
    let seventh = byte_at(source, start + 6 * step);
    let third = byte_at(source, start + 2 * step);
    let sixth = byte_at(source, start + 5 * step);
    let fourth = byte_at(source, start + 3 * step);
    let fifth = byte_at(source, start + 4 * step);
    let values = [first, second, third, fourth, fifth, sixth, seventh, eighth];
    weigh_bytes::<ZEROS>(halves, values)
}

/// The value of such a sum.
#[inline(always)]
fn settle_short(sum: i16, rounding: Rounding) -> i16
    requires rounding { IsRounding rounding }
    requires within { Between 7140 23460 sum }
    ensures { result ≡ settled rounding sum }
{
    ((sum + rounding.add) >> rounding.shift) - rounding.bias
}

/// The values of the sums from each of `N` positions on.
#[inline(always)]
pub(crate) fn filter_bytes<T: Pixel, const N: usize, const ZEROS: usize>(
    source: &[T],
    start: usize,
    step: usize,
    halves: &[i16; SUBPEL_FILTER_SIZE],
    rounding: Rounding,
) -> [i16; N]
    requires filter { IsFilter (doubled halves.now) }
    requires few { ZEROS ≤ 2 }
    requires zeros { AreZero ZEROS halves.now }
    requires rounding { IsRounding rounding }
    requires bytes { T.BITS ≡ 8 }
    requires short { N ≤ 128 }
    requires reach { start + N + 7 * step ≤ length source.now }
    ensures { (c : ℕ) → c < N → entry result c ≡ settled rounding (sum_from halves.now (λ i. pos (slice_index (map T.num source.now) i)) (start + c) step) }
{
    let mut values = [0; N];
    for c in 0..N {
        let sum = sum_bytes::<T, ZEROS>(source, start + c, step, halves);
        values[c] = settle_short(sum, rounding);
    }
    values
}
