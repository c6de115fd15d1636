//! Gives the weights, angles and places of the butterflies, from tables of constants. Pure functions.

ghost use Rattle.std.specs.Prelude.{◌≡◌, ◌+◌, ◌-◌, ◌*◌, ◌/◌, ◌%◌, ◌^◌, ◌<◌, ◌≤◌, ℤ, pos, neg_ℤ, suc, ◌≤ℤ◌};
ghost use Rattle.av1_dct.specs.Cosine.{cos128, brev};

/// 4096 times the cosine of a * pi / 128, rounded, for a from 0 to 63.
const COSPI_INV: [i32; 64] = [
    4096, 4095, 4091, 4085, 4076, 4065, 4052, 4036, 4017, 3996, 3973, 3948, 3920, 3889, 3857, 3822,
    3784, 3745, 3703, 3659, 3612, 3564, 3513, 3461, 3406, 3349, 3290, 3229, 3166, 3102, 3035, 2967,
    2896, 2824, 2751, 2675, 2598, 2520, 2440, 2359, 2276, 2191, 2106, 2019, 1931, 1842, 1751, 1660,
    1567, 1474, 1380, 1285, 1189, 1092, 995, 897, 799, 700, 601, 501, 401, 301, 201, 101,
];

/// The six bits of each number, in reverse order.
const REVERSED: [usize; 64] = [
    0, 32, 16, 48, 8, 40, 24, 56, 4, 36, 20, 52, 12, 44, 28, 60, 2, 34, 18, 50, 10, 42, 26, 58, 6,
    38, 22, 54, 14, 46, 30, 62, 1, 33, 17, 49, 9, 41, 25, 57, 5, 37, 21, 53, 13, 45, 29, 61, 3, 35,
    19, 51, 11, 43, 27, 59, 7, 39, 23, 55, 15, 47, 31, 63,
];

// The weight of an angle, its cosine. Its sine is the weight of 64 - a.
#[inline(always)]
pub(crate) fn weight_of(a: usize) -> i32
    requires { a < 64 }
    ensures value { result ≡ cos128 a }
    ensures bounds { (pos 0 ≤ℤ result) × (result ≤ℤ pos 4096) }
{
    COSPI_INV[a]
}

// The weight of an angle, negated.
#[inline(always)]
pub(crate) fn minus_weight_of(a: usize) -> i32
    requires { a < 64 }
    ensures value { result ≡ neg_ℤ (cos128 a) }
    ensures bounds { (neg_ℤ (pos 4096) ≤ℤ result) × (result ≤ℤ pos 0) }
{
    -weight_of(a)
}

#[inline(always)]
pub(crate) fn power(j: usize) -> usize
    requires { j ≤ 5 }
    ensures value { result ≡ 2 ^ j }
    ensures bounds { (1 ≤ result) × (result ≤ 32) }
{
    1 << j
}

// The angle by which step 1 turns place p of 2^k.
#[inline(always)]
pub(crate) fn outer_angle(k: usize, p: usize) -> usize
    requires k_in { (1 ≤ k) × (k ≤ 5) }
    requires p_in { p < 2 ^ k }
    ensures value { result ≡ 32 / 2 ^ k * (2 * brev k p + 1) }
    ensures bounds { (1 ≤ result) × (result ≤ 63) }
{
    REVERSED[p] + (32 >> k)
}

// The angle by which step 3 turns the places of group d, of 2^(j+2) places.
#[inline(always)]
pub(crate) fn inner_angle(k: usize, j: usize, d: usize) -> usize
    requires j_in { j + 2 ≤ k }
    requires k_in { k ≤ 5 }
    requires d_in { d < 2 ^ (k - j - 3) }
    ensures value { result ≡ 128 * 2 ^ j / 2 ^ k * (4 * brev (k - j - 3) d + 1) }
    ensures bounds { (1 ≤ result) × (result ≤ 63) }
{
    REVERSED[d] + (128 >> (k - j))
}

// The group of 2^(j+2) places that turn n of round j is for, in the lower half of 2^k places.
#[inline(always)]
#[tactic(auto, using(crate::proofs::Turned::group_angle))]
pub(crate) fn group_of(k: usize, j: usize, n: usize) -> usize
    requires j_in { j + 3 ≤ k }
    requires k_in { k ≤ 5 }
    requires n_in { n < 2 ^ k / 8 }
    ensures value { result ≡ n / 2 ^ j }
    ensures angle { result < 2 ^ (k - j - 3) }
{
    n >> j
}

// The first and the last place of that group that the turn is for. The other two are 2^j places further in.
#[inline(always)]
#[tactic(auto, using(crate::proofs::Turned::group_in, crate::proofs::Turned::rest_in))]
pub(crate) fn outer_places(k: usize, j: usize, n: usize) -> (usize, usize)
    requires j_in { j + 3 ≤ k }
    requires k_in { k ≤ 5 }
    requires n_in { n < 2 ^ k / 8 }
    ensures first { result.0 ≡ n / 2 ^ j * (4 * 2 ^ j) + n % 2 ^ j }
    ensures last { result.1 ≡ n / 2 ^ j * (4 * 2 ^ j) + 4 * 2 ^ j - 1 - n % 2 ^ j }
    ensures apart { result.0 + 2 * 2 ^ j < result.1 }
    ensures within { 2 * result.1 < 2 ^ k }
{
    let h = power(j);
    let (start, rest) = ((n >> j) * (4 * h), n % h);
    (start + rest, start + 4 * h - 1 - rest)
}

// The place, among 2^(k+1), whose bits are those of p in reverse order.
#[inline(always)]
pub(crate) fn reversed_place(k: usize, p: usize) -> usize
    requires k_in { k ≤ 5 }
    requires p_in { p < 2 * 2 ^ k }
    ensures value { result ≡ brev (suc k) p }
    ensures bound { result < 2 * 2 ^ k }
{
    REVERSED[p] >> (5 - k)
}
