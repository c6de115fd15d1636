//! Runs eight cosine transforms over lanes of 16 bits. Reads words of `input`, writes words of `output`.
//! Each word has eight numbers of 16 bits. They are cut to narrow lanes, transformed there, and widened again.

ghost use Rattle.std.specs.Prelude.{◌≡◌, true, ℕ, ◌+◌, ◌*◌, ◌^◌, ◌<◌, ◌≤◌, pos, length, slice_index_or, take, drop};
ghost use Rattle.std.specs.List.{All};
ghost use Rattle.av1_dct.specs.Arithmetic.{at, clamp_value, FitsBits};
ghost use Rattle.av1_dct.specs.Cosine.{cosine};
ghost use Rattle.av1_dct.specs.InPlace.{cut_place};
ghost use Rattle.av1_dct.specs.Word.{column, lane_of_vector};
ghost use Rattle.av1_lists.specs.Lists.{by_index};
ghost use Rattle.av1_lists.specs.Sides.{IsTransformSide};

use crate::cosine::run_network;
use crate::narrow::{SHORT_BITS, Short, ShortLanes, is_zero};
use crate::weights::{power, reversed_place};
use std::simd::prelude::*;

// The word at place p. A proof sees the result of a call, and not a vector that is read from a slice.
#[inline(always)]
fn taken<W: Copy>(words: &[W], p: usize) -> W
    requires { p < length words.now }
    ensures { result ≡ slice_index_or words.now p result }
{
    words[p]
}

// The word at place p, cut. From place LIVE on nothing is read, since all numbers there are zeros.
#[inline(always)]
fn cut_word<S: Short, const LIVE: usize>(input: &[i32x8], p: usize) -> S
    requires within { p < length input.now }
    requires zeros { LIVE ≤ p → (i : ℕ) → i < 8 → at (column lane_of_vector i input.now) p ≡ pos 0 }
    ensures { (i : ℕ) → i < 8 → S.lane_of result i ≡ clamp_value (at (column lane_of_vector i input.now) p) 16 }
{
    if LIVE <= p {
        return S::none();
    }
    let word = taken(input, p);
    let _lanes = word.to_array();
    S::cut(word)
}

// Cuts the words that come to eight places, from 8A on, in the order of reversed places. Past the last it does nothing.
// Its place is a constant, so that the compiler knows each place as a number, and which words are zeros.
#[inline(always)]
fn cut_eight<S: Short, const K: usize, const LIVE: usize, const A: usize>(
    input: &[i32x8],
    words: &mut [S],
)
    requires k_in { K ≤ 5 }
    requires a_in { A ≤ 7 }
    requires input_len { 2 * 2 ^ K ≤ length input.now }
    requires zeros { (i p : ℕ) → i < 8 → LIVE ≤ p → p < 2 * 2 ^ K → at (column lane_of_vector i input.now) p ≡ pos 0 }
    requires words_len { length words.old ≡ 2 * 2 ^ K }
    requires before { (i q : ℕ) → i < 8 → q < 8 * A → q < 2 * 2 ^ K → at (column S.lane_of i words.old) q ≡ cut_place K (column lane_of_vector i input.now) q }
    ensures { (i q : ℕ) → i < 8 → q < 8 * A + 8 → q < 2 * 2 ^ K → at (column S.lane_of i words.new) q ≡ cut_place K (column lane_of_vector i input.now) q }
{
    let n = 2 * power(K);
    let start = 8 * A;
    if n <= start {
        return;
    }
    for q in 0..(n - start).min(8) {
        words[start + q] = cut_word::<S, LIVE>(input, reversed_place(K, start + q));
    }
}

// Cuts the first 2^(K+1) words of `input`, in the order of their reversed places.
#[inline(always)]
fn cut_words<S: Short, const K: usize, const LIVE: usize>(input: &[i32x8], words: &mut [S])
    requires k_in { K ≤ 5 }
    requires input_len { 2 * 2 ^ K ≤ length input.now }
    requires zeros { (i p : ℕ) → i < 8 → LIVE ≤ p → p < 2 * 2 ^ K → at (column lane_of_vector i input.now) p ≡ pos 0 }
    requires words_len { length words.old ≡ 2 * 2 ^ K }
    ensures { (i : ℕ) → i < 8 → column S.lane_of i words.new ≡ by_index (2 * 2 ^ K) (cut_place K (column lane_of_vector i input.now)) }
{
    cut_eight::<S, K, LIVE, 0>(input, words);
    cut_eight::<S, K, LIVE, 1>(input, words);
    cut_eight::<S, K, LIVE, 2>(input, words);
    cut_eight::<S, K, LIVE, 3>(input, words);
    cut_eight::<S, K, LIVE, 4>(input, words);
    cut_eight::<S, K, LIVE, 5>(input, words);
    cut_eight::<S, K, LIVE, 6>(input, words);
    cut_eight::<S, K, LIVE, 7>(input, words);
}

// Writes the words in wide lanes.
#[inline(always)]
fn spread_words<S: Short>(words: &[S], output: &mut [i32x8])
    requires len { length output.old ≡ length words.now }
    ensures { (i : ℕ) → i < 8 → column lane_of_vector i output.new ≡ column S.lane_of i words.now }
{
    for p in 0..words.len() {
        let word = words[p];
        let wide = word.spread();
        let _lanes = wide.to_array();
        output[p] = wide;
    }
}

// Eight transforms of 2^(K+1) values of 16 bits: the words are cut, run through the network, and what comes out is
// widened.
#[inline(always)]
fn cosine_within<S: Short, const K: usize, const LIVE: usize>(
    input: &[i32x8],
    words: &mut [S],
    output: &mut [i32x8],
)
    requires k_in { (1 ≤ K) × (K ≤ 5) }
    requires input_len { 2 * 2 ^ K ≤ length input.now }
    requires words_len { length words.old ≡ 2 * 2 ^ K }
    requires output_len { length output.old ≡ 2 * 2 ^ K }
    requires zeros { (i p : ℕ) → i < 8 → LIVE ≤ p → p < 2 * 2 ^ K → at (column lane_of_vector i input.now) p ≡ pos 0 }
    requires fit { (i : ℕ) → i < 8 → All (FitsBits 16) (take (2 * 2 ^ K) (column lane_of_vector i input.now)) }
    ensures { (i : ℕ) → i < 8 → column lane_of_vector i output.new ≡ cosine 16 K (take (2 * 2 ^ K) (column lane_of_vector i input.now)) }
{
    cut_words::<S, K, LIVE>(input, words);
    run_network::<S, K>(words, SHORT_BITS);
    spread_words(words, output);
}

// Eight transforms within the first N = 2^(K+1) words of `output`, over narrow words of its own. All inputs are zeros
// from place LIVE on, so that rotations of two of them fall away.
#[inline(always)]
fn cosine_short_of<const K: usize, const N: usize, const LIVE: usize>(
    input: &[i32x8],
    output: &mut [i32x8],
)
    requires k_in { (1 ≤ K) × (K ≤ 5) }
    requires n_in { N ≡ 2 * 2 ^ K }
    requires few { N ≤ 64 }
    requires input_len { 2 * 2 ^ K ≤ length input.now }
    requires output_len { 2 * 2 ^ K ≤ length output.old }
    requires zeros { (i p : ℕ) → i < 8 → LIVE ≤ p → p < 2 * 2 ^ K → at (column lane_of_vector i input.now) p ≡ pos 0 }
    requires fit { (i : ℕ) → i < 8 → All (FitsBits 16) (take (2 * 2 ^ K) (column lane_of_vector i input.now)) }
    ensures value { (i : ℕ) → i < 8 →
        take (2 * 2 ^ K) (column lane_of_vector i output.new) ≡ cosine 16 K (take (2 * 2 ^ K) (column lane_of_vector i input.now)) }
    ensures rest { drop (2 * 2 ^ K) output.new ≡ drop (2 * 2 ^ K) output.old }
{
    let zero = ShortLanes {
        lanes: i16x8::splat(0),
    };
    let mut words = [zero; N];
    cosine_within::<ShortLanes, K, LIVE>(input, &mut words, &mut output[..N]);
}

// Whether the words from place `first` to `end` are zeros.
#[inline(always)]
fn are_zero(input: &[i32x8], first: usize, end: usize) -> bool
    requires { end ≤ length input.now }
    ensures { result ≡ true → (i p : ℕ) → i < 8 → first ≤ p → p < end → at (column lane_of_vector i input.now) p ≡ pos 0 }
{
    for p in first..end {
        let word = taken(input, p);
        let _lanes = word.to_array();
        if !is_zero(word) {
            return false;
        }
    }
    true
}

// Eight transforms, in fewer steps if the inputs are zeros from place FEW on, as in most blocks.
#[inline(always)]
fn cosine_of_few<const K: usize, const N: usize, const FEW: usize>(
    input: &[i32x8],
    output: &mut [i32x8],
)
    requires k_in { (1 ≤ K) × (K ≤ 5) }
    requires n_in { N ≡ 2 * 2 ^ K }
    requires few { N ≤ 64 }
    requires input_len { 2 * 2 ^ K ≤ length input.now }
    requires output_len { 2 * 2 ^ K ≤ length output.old }
    requires fit { (i : ℕ) → i < 8 → All (FitsBits 16) (take (2 * 2 ^ K) (column lane_of_vector i input.now)) }
    ensures value { (i : ℕ) → i < 8 →
        take (2 * 2 ^ K) (column lane_of_vector i output.new) ≡ cosine 16 K (take (2 * 2 ^ K) (column lane_of_vector i input.now)) }
    ensures rest { drop (2 * 2 ^ K) output.new ≡ drop (2 * 2 ^ K) output.old }
{
    if are_zero(input, FEW, N) {
        cosine_short_of::<K, N, FEW>(input, output);
    } else {
        cosine_short_of::<K, N, N>(input, output);
    }
}

/// Eight transforms of n values of 16 bits, 8 or more of them, each length by a function of its own.
#[inline(always)]
pub(crate) fn cosine_short(n: usize, input: &[i32x8], output: &mut [i32x8])
    requires n_in { IsTransformSide n }
    requires some { 8 ≤ n }
    requires input_len { n ≤ length input.now }
    requires output_len { n ≤ length output.old }
    requires fit { (i : ℕ) → i < 8 → All (FitsBits 16) (take n (column lane_of_vector i input.now)) }
    ensures value { (k i : ℕ) → i < 8 → n ≡ 2 * 2 ^ k → take n (column lane_of_vector i output.new) ≡ cosine 16 k (take n (column lane_of_vector i input.now)) }
    ensures rest { drop n output.new ≡ drop n output.old }
{
    match n {
        8 => cosine_short_of::<2, 8, 8>(input, output),
        16 => cosine_of_few::<3, 16, 4>(input, output),
        32 => cosine_of_few::<4, 32, 4>(input, output),
        _ => cosine_of_few::<5, 64, 4>(input, output),
    }
}
