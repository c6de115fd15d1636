//! The steps of a cosine transform over its odd inputs: rotations and sums, in place in the caller's words.

ghost use Rattle.std.specs.Prelude.{◌≡◌, ℕ, ◌+◌, ◌-◌, ◌*◌, ◌^◌, ◌<◌, ◌≤◌, min, ℤ, neg_ℤ, List, length};
ghost use Rattle.av1_dct.specs.Arithmetic.{AllFit, FitsBits, at};
ghost use Rattle.av1_dct.specs.Word.{column};
ghost use Rattle.av1_dct.specs.InPlace.{begun, end_all, ended, paired, rounded, sums};
ghost use Rattle.av1_dct.specs.Operations.{half_btf};
ghost use Rattle.av1_dct.specs.Cosine.{cos128, outer_turn};
ghost use Rattle.av1_lists.specs.Lists.{by_index};

use crate::butterfly::Butterfly;
use crate::weights::{
    group_of, inner_angle, minus_weight_of, outer_angle, outer_places, power, weight_of,
};

// The places p and e become the clamped sum and difference of the results of two rotations; if `odd`, the difference
// and the sum.
#[inline(always)]
pub(crate) fn put<W: Butterfly>(
    odd: bool,
    v: &mut [W],
    p: usize,
    e: usize,
    x: W::Wide,
    y: W::Wide,
    range: usize,
)
    requires range_in { (8 ≤ range) × (range ≤ 20) }
    requires within { range ≤ W.bits }
    requires p_in { p < length v.old }
    requires e_in { e < length v.old }
    requires first { (i : ℕ) → i < W.LANES → FitsBits 20 (W.wide_lane_of x i) }
    requires second { (i : ℕ) → i < W.LANES → FitsBits 20 (W.wide_lane_of y i) }
    ensures value { (i : ℕ) → i < W.LANES →
        column W.lane_of i v.new ≡ paired odd range p e (W.wide_lane_of x i) (W.wide_lane_of y i) (column W.lane_of i v.old) }
    ensures fit { (i : ℕ) → i < W.LANES → AllFit 20 (column W.lane_of i v.old) → AllFit 20 (column W.lane_of i v.new) }
{
    let total = W::sum(x, y, range);
    if odd {
        v[p] = W::difference(y, x, range);
        v[e] = total;
        return;
    }
    v[p] = total;
    v[e] = W::difference(x, y, range);
}

// The word at place p.
#[inline(always)]
fn word_at<W: Butterfly>(v: &[W], p: usize) -> W
    requires p_in { p < length v.now }
    requires fit { (i : ℕ) → i < W.LANES → AllFit 20 (column W.lane_of i v.now) }
    ensures value { (i : ℕ) → i < W.LANES → W.lane_of result i ≡ at (column W.lane_of i v.now) p }
    ensures fits { (i : ℕ) → i < W.LANES → FitsBits 20 (W.lane_of result i) }
{
    v[p]
}

// As `put`, from the words at places p and e themselves.
#[inline(always)]
fn put_own<W: Butterfly>(odd: bool, v: &mut [W], p: usize, e: usize, range: usize)
    requires range_in { (8 ≤ range) × (range ≤ 20) }
    requires within { range ≤ W.bits }
    requires p_in { p < length v.old }
    requires e_in { e < length v.old }
    requires fit { (i : ℕ) → i < W.LANES → AllFit 20 (column W.lane_of i v.old) }
    ensures value { (i : ℕ) → i < W.LANES → let zs = column W.lane_of i v.old in column W.lane_of i v.new ≡ paired odd range p e (at zs p) (at zs e) zs }
    ensures fit { (i : ℕ) → i < W.LANES → AllFit 20 (column W.lane_of i v.new) }
{
    let (x, y) = (word_at(v, p), word_at(v, e));
    let total = x.own_sum(y, range);
    if odd {
        v[p] = y.own_difference(x, range);
        v[e] = total;
        return;
    }
    v[p] = total;
    v[e] = x.own_difference(y, range);
}

// The words at places p and q, rotated by angle a as step 1 rotates a place and its mirror image.
#[inline(always)]
pub(crate) fn rotate_outer<W: Butterfly>(
    v: &[W],
    p: usize,
    q: usize,
    a: usize,
) -> (W::Wide, W::Wide)
    requires p_in { p < length v.now }
    requires q_in { q < length v.now }
    requires angle { (1 ≤ a) × (a ≤ 63) }
    ensures first { (i : ℕ) → i < W.LANES → let zs = column W.lane_of i v.now in
        W.wide_lane_of result.0 i ≡ half_btf (cos128 (64 - a)) (at zs p) (neg_ℤ (cos128 a)) (at zs q) }
    ensures second { (i : ℕ) → i < W.LANES → let zs = column W.lane_of i v.now in
        W.wide_lane_of result.1 i ≡ half_btf (cos128 a) (at zs p) (cos128 (64 - a)) (at zs q) }
    ensures first_fits { (i : ℕ) → i < W.LANES → FitsBits 20 (W.wide_lane_of result.0 i) }
    ensures second_fits { (i : ℕ) → i < W.LANES → FitsBits 20 (W.wide_lane_of result.1 i) }
{
    let (c, s, n) = (weight_of(64 - a), weight_of(a), minus_weight_of(a));
    let (x, y) = (v[p], v[q]);
    (W::rotate(c, x, n, y), W::rotate(s, x, c, y))
}

// The words at places p and q, rotated by angle b as step 3 rotates a place in the first half of its group and its
// mirror image.
#[inline(always)]
fn rotate_inner<W: Butterfly>(v: &[W], p: usize, q: usize, b: usize) -> (W::Wide, W::Wide)
    requires p_in { p < length v.now }
    requires q_in { q < length v.now }
    requires angle { (1 ≤ b) × (b ≤ 63) }
    ensures first { (i : ℕ) → i < W.LANES → let zs = column W.lane_of i v.now in
        W.wide_lane_of result.0 i ≡ half_btf (neg_ℤ (cos128 b)) (at zs p) (cos128 (64 - b)) (at zs q) }
    ensures second { (i : ℕ) → i < W.LANES → let zs = column W.lane_of i v.now in
        W.wide_lane_of result.1 i ≡ half_btf (cos128 (64 - b)) (at zs p) (cos128 b) (at zs q) }
    ensures first_fits { (i : ℕ) → i < W.LANES → FitsBits 20 (W.wide_lane_of result.0 i) }
    ensures second_fits { (i : ℕ) → i < W.LANES → FitsBits 20 (W.wide_lane_of result.1 i) }
{
    let (c, s, n) = (weight_of(64 - b), weight_of(b), minus_weight_of(b));
    let (x, y) = (v[p], v[q]);
    (W::rotate(n, x, c, y), W::rotate(c, x, s, y))
}

// The same of a place in the second half of its group.
#[inline(always)]
fn rotate_inner_last<W: Butterfly>(v: &[W], p: usize, q: usize, b: usize) -> (W::Wide, W::Wide)
    requires p_in { p < length v.now }
    requires q_in { q < length v.now }
    requires angle { (1 ≤ b) × (b ≤ 63) }
    ensures first { (i : ℕ) → i < W.LANES → let zs = column W.lane_of i v.now in
        W.wide_lane_of result.0 i ≡ half_btf (neg_ℤ (cos128 (64 - b))) (at zs p) (neg_ℤ (cos128 b)) (at zs q) }
    ensures second { (i : ℕ) → i < W.LANES → let zs = column W.lane_of i v.now in
        W.wide_lane_of result.1 i ≡ half_btf (neg_ℤ (cos128 b)) (at zs p) (cos128 (64 - b)) (at zs q) }
    ensures first_fits { (i : ℕ) → i < W.LANES → FitsBits 20 (W.wide_lane_of result.0 i) }
    ensures second_fits { (i : ℕ) → i < W.LANES → FitsBits 20 (W.wide_lane_of result.1 i) }
{
    let (c, minus_c, n) = (
        weight_of(64 - b),
        minus_weight_of(64 - b),
        minus_weight_of(b),
    );
    let (x, y) = (v[p], v[q]);
    (W::rotate(minus_c, x, n, y), W::rotate(n, x, c, y))
}

// Turn N of step 1 and the sums of pairs: at pair N and its mirror image. Past the last it does nothing.
#[inline(always)]
fn begin_at<W: Butterfly, const K: usize, const N: usize>(v: &mut [W], range: usize)
    requires range_in { (8 ≤ range) × (range ≤ 20) }
    requires within { range ≤ W.bits }
    requires k_in { (2 ≤ K) × (K ≤ 5) }
    requires n_in { N ≤ 7 }
    requires len { length v.old ≡ 2 ^ K }
    ensures { (i : ℕ) (u : List ℤ) → i < W.LANES → column W.lane_of i v.old ≡ begun range K N u → column W.lane_of i v.new ≡ begun range K (N + 1) u }
{
    let m = power(K);
    if m / 4 <= N {
        return;
    }
    let (p, e) = (2 * N, 2 * N + 1);
    let (f, q) = (m - 1 - e, m - 1 - p);
    let odd = N % 2 == 1;
    let (tp, tq) = rotate_outer(v, p, q, outer_angle(K, p));
    let (te, tf) = rotate_outer(v, e, f, outer_angle(K, e));
    put(odd, v, p, e, tp, te, range);
    put(!odd, v, f, q, tf, tq, range);
}

// Turn N of round J's rotations, and of the sums after them in groups twice as large: two pairs in a group of 2^(J+2)
// places that are not turned, and two that are, there and in its mirror image. Past the last turn it does nothing.
#[inline(always)]
fn round_at<W: Butterfly, const K: usize, const J: usize, const N: usize>(v: &mut [W], range: usize)
    requires range_in { (8 ≤ range) × (range ≤ 20) }
    requires within { range ≤ W.bits }
    requires j_in { J + 3 ≤ K }
    requires k_in { K ≤ 5 }
    requires n_in { N ≤ 3 }
    requires len { length v.old ≡ 2 ^ K }
    requires fit { (i : ℕ) → i < W.LANES → AllFit 20 (column W.lane_of i v.old) }
    ensures value { (i : ℕ) (u : List ℤ) → i < W.LANES → column W.lane_of i v.old ≡ rounded range K J N u →
        column W.lane_of i v.new ≡ rounded range K J (N + 1) u }
    ensures fit { (i : ℕ) → i < W.LANES → AllFit 20 (column W.lane_of i v.new) }
{
    let (m, h) = (power(K), power(J));
    if m / 8 <= N {
        return;
    }
    let d = group_of(K, J, N);
    let odd = d % 2 == 1;
    let (first, last) = outer_places(K, J, N);
    put_own(odd, v, first, last, range);
    put_own(!odd, v, m - 1 - last, m - 1 - first, range);
    let b = inner_angle(K, J, d);
    let (p, e) = (first + h, last - h);
    let (q, f) = (m - 1 - p, m - 1 - e);
    let (tp, tq) = rotate_inner(v, p, q, b);
    let (te, tf) = rotate_inner_last(v, e, f, b);
    put(odd, v, p, e, tp, te, range);
    put(!odd, v, f, q, tf, tq, range);
}

// Turn N of the last rotations, of the second half, and of the sums of both halves: two pairs of which the odd place is
// not turned, and two of which it is. Past the last it does nothing.
#[inline(always)]
fn end_at<W: Butterfly, const K: usize, const N: usize>(w: &mut [W], range: usize)
    requires range_in { (8 ≤ range) × (range ≤ 20) }
    requires within { range ≤ W.bits }
    requires k_in { (2 ≤ K) × (K ≤ 5) }
    requires n_in { N ≤ 7 }
    requires len { length w.old ≡ 2 * 2 ^ K }
    requires fit { (i : ℕ) → i < W.LANES → AllFit 20 (column W.lane_of i w.old) }
    ensures value { (i : ℕ) (u : List ℤ) → i < W.LANES → column W.lane_of i w.old ≡ ended range K N u → column W.lane_of i w.new ≡ ended range K (N + 1) u }
    ensures fit { (i : ℕ) → i < W.LANES → AllFit 20 (column W.lane_of i w.new) }
{
    let m = power(K);
    let h = m / 4;
    if h <= N {
        return;
    }
    put_own(false, w, N, 2 * m - 1 - N, range);
    put_own(false, w, m - 1 - N, m + N, range);
    let (p, q) = (h + N, m - 1 - (h + N));
    let (x, y) = (word_at(w, q).widen(), word_at(w, p).widen());
    let (tp, tq) = rotate_inner(w, m + p, m + q, inner_angle(K, K - 2, 0));
    put(false, w, q, m + p, x, tp, range);
    put(false, w, p, m + q, y, tq, range);
}

// Step 1 and the sums of pairs. All turns are written out, so that the compiler knows their places and weights as
// numbers.
#[inline(always)]
pub(crate) fn begin<W: Butterfly, const K: usize>(v: &mut [W], range: usize)
    requires range_in { (8 ≤ range) × (range ≤ 20) }
    requires within { range ≤ W.bits }
    requires k_in { (2 ≤ K) × (K ≤ 5) }
    requires len { length v.old ≡ 2 ^ K }
    ensures value { (i : ℕ) → i < W.LANES → column W.lane_of i v.new ≡ sums range K 0 (by_index (2 ^ K) (outer_turn K (column W.lane_of i v.old))) }
    ensures fit { (i : ℕ) → i < W.LANES → AllFit 20 (column W.lane_of i v.new) }
{
    begin_at::<W, K, 0>(v, range);
    begin_at::<W, K, 1>(v, range);
    begin_at::<W, K, 2>(v, range);
    begin_at::<W, K, 3>(v, range);
    begin_at::<W, K, 4>(v, range);
    begin_at::<W, K, 5>(v, range);
    begin_at::<W, K, 6>(v, range);
    begin_at::<W, K, 7>(v, range);
}

// Round J's rotations and the sums after them. There are K - 2 such rounds. Past the last it does nothing.
#[inline(always)]
pub(crate) fn round<W: Butterfly, const K: usize, const J: usize>(v: &mut [W], range: usize)
    requires range_in { (8 ≤ range) × (range ≤ 20) }
    requires within { range ≤ W.bits }
    requires k_in { (2 ≤ K) × (K ≤ 5) }
    requires j_in { J ≤ 2 }
    requires len { length v.old ≡ 2 ^ K }
    requires fit { (i : ℕ) → i < W.LANES → AllFit 20 (column W.lane_of i v.old) }
    ensures value { (i : ℕ) (u : List ℤ) → i < W.LANES → column W.lane_of i v.old ≡ sums range K (min J (K - 2)) u →
        column W.lane_of i v.new ≡ sums range K (min (J + 1) (K - 2)) u }
    ensures fit { (i : ℕ) → i < W.LANES → AllFit 20 (column W.lane_of i v.new) }
{
    if K < J + 3 {
        return;
    }
    round_at::<W, K, J, 0>(v, range);
    round_at::<W, K, J, 1>(v, range);
    round_at::<W, K, J, 2>(v, range);
    round_at::<W, K, J, 3>(v, range);
}

// The last rotations, of the second half, and the sums of both halves.
#[inline(always)]
pub(crate) fn end<W: Butterfly, const K: usize>(w: &mut [W], range: usize)
    requires range_in { (8 ≤ range) × (range ≤ 20) }
    requires within { range ≤ W.bits }
    requires k_in { (2 ≤ K) × (K ≤ 5) }
    requires len { length w.old ≡ 2 * 2 ^ K }
    requires fit { (i : ℕ) → i < W.LANES → AllFit 20 (column W.lane_of i w.old) }
    ensures { (i : ℕ) → i < W.LANES → column W.lane_of i w.new ≡ end_all range K (column W.lane_of i w.old) }
{
    end_at::<W, K, 0>(w, range);
    end_at::<W, K, 1>(w, range);
    end_at::<W, K, 2>(w, range);
    end_at::<W, K, 3>(w, range);
    end_at::<W, K, 4>(w, range);
    end_at::<W, K, 5>(w, range);
    end_at::<W, K, 6>(w, range);
    end_at::<W, K, 7>(w, range);
}
