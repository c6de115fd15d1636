//! The inverse cosine transforms of 4 to 64 words: they read `input`, write `output`, and allocate nothing.

ghost use Rattle.std.specs.Prelude.{◌≡◌, ℕ, ◌*◌, ◌^◌, ◌<◌, ◌≤◌, length, take, drop, suc};
ghost use Rattle.std.specs.List.{All};
ghost use Rattle.av1_dct.specs.Arithmetic.{at, AllFit, FitsBits};
ghost use Rattle.av1_dct.specs.Word.{column};
ghost use Rattle.av1_dct.specs.InPlace.{joined, network};
ghost use Rattle.av1_lists.specs.Sides.{IsTransformSide};
ghost use Rattle.av1_dct.specs.Cosine.{brev, cosine};
ghost use Rattle.av1_lists.specs.Lists.{by_index};

use crate::butterfly::Butterfly;
use crate::steps::{begin, end, put, rotate_outer, round};
use crate::weights::{power, reversed_place};
use crate::word::Word;

// The transform of 4 words.
#[inline(always)]
fn network_4<W: Butterfly>(w: &mut [W], range: usize)
    requires range_in { (8 ≤ range) × (range ≤ 20) }
    requires within { range ≤ W.bits }
    requires len { length w.old ≡ 4 }
    ensures { (i : ℕ) → i < W.LANES → column W.lane_of i w.new ≡ network range 1 (column W.lane_of i w.old) }
{
    let (b, a) = rotate_outer(w, 0, 1, 32);
    let (x, y) = rotate_outer(w, 2, 3, 16);
    put(false, w, 0, 3, a, y, range);
    put(false, w, 1, 2, b, x, range);
}

// Makes the transform of all inputs from 2^(K+1) words: the transform of the even inputs, then the odd inputs. Each
// rotation is done together with the sums after it, so that its result is not stored.
#[inline(always)]
fn join_halves<W: Butterfly, const K: usize>(w: &mut [W], range: usize)
    requires range_in { (8 ≤ range) × (range ≤ 20) }
    requires within { range ≤ W.bits }
    requires k_in { (2 ≤ K) × (K ≤ 5) }
    requires len { length w.old ≡ 2 * 2 ^ K }
    requires fit { (i : ℕ) → i < W.LANES → AllFit 20 (column W.lane_of i w.old) }
    ensures { (i : ℕ) → i < W.LANES → column W.lane_of i w.new ≡ joined range K (column W.lane_of i w.old) }
{
    let odd = &mut w[power(K)..];
    begin::<W, K>(odd, range);
    round::<W, K, 0>(odd, range);
    round::<W, K, 1>(odd, range);
    round::<W, K, 2>(odd, range);
    end::<W, K>(w, range);
}

// The transform of 8 words.
#[inline(always)]
fn network_8<W: Butterfly>(w: &mut [W], range: usize)
    requires range_in { (8 ≤ range) × (range ≤ 20) }
    requires within { range ≤ W.bits }
    requires len { length w.old ≡ 8 }
    requires fit { (i : ℕ) → i < W.LANES → AllFit 20 (column W.lane_of i w.old) }
    ensures { (i : ℕ) → i < W.LANES → column W.lane_of i w.new ≡ network range 2 (column W.lane_of i w.old) }
{
    network_4(&mut w[..4], range);
    join_halves::<W, 2>(w, range);
}

// The transform of 16 words.
#[inline(always)]
fn network_16<W: Butterfly>(w: &mut [W], range: usize)
    requires range_in { (8 ≤ range) × (range ≤ 20) }
    requires within { range ≤ W.bits }
    requires len { length w.old ≡ 16 }
    requires fit { (i : ℕ) → i < W.LANES → AllFit 20 (column W.lane_of i w.old) }
    ensures { (i : ℕ) → i < W.LANES → column W.lane_of i w.new ≡ network range 3 (column W.lane_of i w.old) }
{
    network_8(&mut w[..8], range);
    join_halves::<W, 3>(w, range);
}

// The transform of 32 words.
#[inline(always)]
fn network_32<W: Butterfly>(w: &mut [W], range: usize)
    requires range_in { (8 ≤ range) × (range ≤ 20) }
    requires within { range ≤ W.bits }
    requires len { length w.old ≡ 32 }
    requires fit { (i : ℕ) → i < W.LANES → AllFit 20 (column W.lane_of i w.old) }
    ensures { (i : ℕ) → i < W.LANES → column W.lane_of i w.new ≡ network range 4 (column W.lane_of i w.old) }
{
    network_16(&mut w[..16], range);
    join_halves::<W, 4>(w, range);
}

// The last step of the transform of 64 words, as a function of its own. Within the rest it takes a compiler longer, and
// less of the whole stays in registers. A compiler inlines it if only one function calls it, as for one column.
fn join_64<W: Butterfly>(w: &mut [W], range: usize)
    requires range_in { (8 ≤ range) × (range ≤ 20) }
    requires within { range ≤ W.bits }
    requires len { length w.old ≡ 64 }
    requires fit { (i : ℕ) → i < W.LANES → AllFit 20 (column W.lane_of i w.old) }
    ensures { (i : ℕ) → i < W.LANES → column W.lane_of i w.new ≡ joined range 5 (column W.lane_of i w.old) }
{
    join_halves::<W, 5>(w, range);
}

// The transform of 64 words.
#[inline(always)]
fn network_64<W: Butterfly>(w: &mut [W], range: usize)
    requires range_in { (8 ≤ range) × (range ≤ 20) }
    requires within { range ≤ W.bits }
    requires len { length w.old ≡ 64 }
    requires fit { (i : ℕ) → i < W.LANES → AllFit 20 (column W.lane_of i w.old) }
    ensures { (i : ℕ) → i < W.LANES → column W.lane_of i w.new ≡ network range 5 (column W.lane_of i w.old) }
{
    network_32(&mut w[..32], range);
    join_64(w, range);
}

// The transform of 2^(K+1) words that are in the order of their reversed places: the even inputs are the first half.
// Each length has a function of its own, so that the compiler knows its angles and places as numbers.
#[inline(always)]
pub(crate) fn run_network<W: Butterfly, const K: usize>(w: &mut [W], range: usize)
    requires range_in { (8 ≤ range) × (range ≤ 20) }
    requires within { range ≤ W.bits }
    requires k_in { (1 ≤ K) × (K ≤ 5) }
    requires len { length w.old ≡ 2 * 2 ^ K }
    requires fit { (i : ℕ) → i < W.LANES → AllFit 20 (column W.lane_of i w.old) }
    ensures { (i : ℕ) → i < W.LANES → column W.lane_of i w.new ≡ network range K (column W.lane_of i w.old) }
{
    match K {
        1 => network_4(w, range),
        2 => network_8(w, range),
        3 => network_16(w, range),
        4 => network_32(w, range),
        _ => network_64(w, range),
    }
}

// Writes the first 2^(K+1) words of `input` in the order of their reversed places.
#[inline(always)]
fn reorder<W: Butterfly, const K: usize>(input: &[W], output: &mut [W])
    requires k_in { K ≤ 5 }
    requires input_len { 2 * 2 ^ K ≤ length input.now }
    requires output_len { length output.old ≡ 2 * 2 ^ K }
    ensures { (i : ℕ) → i < W.LANES → column W.lane_of i output.new ≡ by_index (2 * 2 ^ K) (λ p. at (column W.lane_of i input.now) (brev (suc K) p)) }
{
    for p in 0..output.len() {
        output[p] = input[reversed_place(K, p)];
    }
}

// The transform of N = 2^(K+1) words. Both are constants of each instance, so every loop has its length and its weights
// as numbers.
fn cosine_of<W: Butterfly, const K: usize, const N: usize>(
    input: &[W],
    output: &mut [W],
    range: usize,
)
    requires range_in { (8 ≤ range) × (range ≤ 20) }
    requires within { range ≤ W.bits }
    requires k_in { (1 ≤ K) × (K ≤ 5) }
    requires n_in { N ≡ 2 * 2 ^ K }
    requires input_len { 2 * 2 ^ K ≤ length input.now }
    requires output_len { 2 * 2 ^ K ≤ length output.old }
    requires fit { (i : ℕ) → i < W.LANES → All (FitsBits range) (take (2 * 2 ^ K) (column W.lane_of i input.now)) }
    ensures value { (i : ℕ) → i < W.LANES →
        take (2 * 2 ^ K) (column W.lane_of i output.new) ≡ cosine range K (take (2 * 2 ^ K) (column W.lane_of i input.now)) }
    ensures rest { drop (2 * 2 ^ K) output.new ≡ drop (2 * 2 ^ K) output.old }
{
    let part = &mut output[..N];
    reorder::<W, K>(input, part);
    run_network::<W, K>(part, range);
}

// The transform of n words, each length by a function of its own.
#[inline(always)]
pub(crate) fn cosine_any<W: Butterfly>(n: usize, input: &[W], output: &mut [W], range: usize)
    requires range_in { (8 ≤ range) × (range ≤ 20) }
    requires within { range ≤ W.bits }
    requires n_in { IsTransformSide n }
    requires input_len { n ≤ length input.now }
    requires output_len { n ≤ length output.old }
    requires fit { (i : ℕ) → i < W.LANES → All (FitsBits range) (take n (column W.lane_of i input.now)) }
    ensures value { (k i : ℕ) → i < W.LANES → n ≡ 2 * 2 ^ k → take n (column W.lane_of i output.new) ≡ cosine range k (take n (column W.lane_of i input.now)) }
    ensures rest { drop n output.new ≡ drop n output.old }
{
    match n {
        4 => cosine_of::<W, 1, 4>(input, output, range),
        8 => cosine_of::<W, 2, 8>(input, output, range),
        16 => cosine_of::<W, 3, 16>(input, output, range),
        32 => cosine_of::<W, 4, 32>(input, output, range),
        _ => cosine_of::<W, 5, 64>(input, output, range),
    }
}

/// The inverse cosine transform of `n` words, in each lane (the inverse DCT process of the AV1 specification, lane by
/// lane). The first n words of `output` become the transform of the first n words of `input`. The rest of `output` is
/// unchanged. Here n is 2^(k+1). Sums are clamped to `range` signed bits.
///
/// `_work` is a buffer for a transform that does not run in place. This one runs in place, within `output`, so `_work`
/// may have any length.
#[inline(always)]
pub fn cosine_words<W: Word>(n: usize, input: &[W], _work: &mut [W], output: &mut [W], range: usize)
    requires range_in { (8 ≤ range) × (range ≤ 20) }
    requires n_in { IsTransformSide n }
    requires input_len { n ≤ length input.now }
    requires output_len { n ≤ length output.old }
    requires fit { (i : ℕ) → i < W.LANES → All (FitsBits range) (take n (column W.lane_of i input.now)) }
    ensures value { (k i : ℕ) → i < W.LANES → n ≡ 2 * 2 ^ k → take n (column W.lane_of i output.new) ≡ cosine range k (take n (column W.lane_of i input.now)) }
    ensures rest { drop n output.new ≡ drop n output.old }
{
    cosine_any(n, input, output, range);
}
