//! The inverse asymmetric sine transforms of 4, 8 and 16 values: they read `input`, write `output`, allocate nothing.

ghost use Rattle.std.specs.Prelude.{◌≡◌, ℕ, ◌+◌, ◌-◌, ◌*◌, ◌/◌, ◌^◌, ◌<◌, ◌≤◌, pos, length, reverse, take, drop, slice_index_or};
ghost use Rattle.std.specs.List.{All};
ghost use Rattle.av1_dct.specs.Arithmetic.{AllFit, FitsBits};
ghost use Rattle.av1_dct.specs.Word.{column};
ghost use Rattle.av1_lists.specs.Lists.{by_index};
ghost use Rattle.av1_itx.specs.Adst.{adst, adst4, adst_more, adst_in, adst_out, adst_sum, adst_turn, turned, round_weights, out_place};

use crate::words::BlockWord;

// The weights of the turns of neighbours: of all pairs at the start, and of the pairs in the upper half of a block of
// 16, 8 and 4.
const START_8: [(i32, i32); 4] = [(4076, 401), (3612, 1931), (2598, 3166), (1189, 3920)];

const START_16: [(i32, i32); 8] = [
    (4091, 201),
    (3973, 995),
    (3703, 1751),
    (3290, 2440),
    (2751, 3035),
    (2106, 3513),
    (1380, 3857),
    (601, 4052),
];

const BLOCK_16: [(i32, i32); 4] = [(4017, 799), (2276, 3406), (-799, 4017), (-3406, 2276)];

const BLOCK_8: [(i32, i32); 2] = [(3784, 1567), (-1567, 3784)];

const BLOCK_4: [(i32, i32); 1] = [(2896, 2896)];

// The positions from which the outputs are read.
const PLACES_8: [usize; 8] = [0, 4, 6, 2, 3, 7, 5, 1];

const PLACES_16: [usize; 16] = [0, 8, 12, 4, 6, 14, 10, 2, 3, 11, 15, 7, 5, 13, 9, 1];

// Turns each pair of neighbours by its weights.
#[inline(always)]
fn turn_pairs<W: BlockWord>(v: &mut [W], weights: &[(i32, i32)])
    requires len { length v.old ≡ 2 * length weights.now }
    requires small { (p : ℕ) → p < length weights.now → FitsBits 20 (slice_index_or weights.now p (pos 0, pos 0)).0 }
    ensures { (i : ℕ) → i < W.LANES →
        column W.lane_of i v.new ≡ by_index (length v.old) (λ k. let w = slice_index_or weights.now (k / 2) (pos 0, pos 0)
        in turned w.0 w.1 (column W.lane_of i v.old) k) }
{
    for p in 0..weights.len() {
        let (w0, w1) = weights[p];
        let (a, b) = (2 * p, 2 * p + 1);
        let (x, y) = (v[a], v[b]);
        v[a] = W::turn(w0, x, w1, y);
        v[b] = W::turn(w1, x, -w0, y);
    }
}

// The halves become their sums and differences, position by position.
#[inline(always)]
fn sum_halves<W: BlockWord>(v: &mut [W], range: usize)
    requires range_in { (8 ≤ range) × (range ≤ 20) }
    requires even { 2 * (length v.old / 2) ≡ length v.old }
    requires fit { (i : ℕ) → i < W.LANES → AllFit 20 (column W.lane_of i v.old) }
    ensures { (i : ℕ) → i < W.LANES → column W.lane_of i v.new ≡ by_index (length v.old) (adst_sum range (length v.old / 2) (column W.lane_of i v.old)) }
{
    let s = v.len() / 2;
    for p in 0..s {
        let q = p + s;
        let (x, y) = (v[p], v[q]);
        v[p] = x.plus(y).clamp_to(range);
        v[q] = x.minus(y).clamp_to(range);
    }
}

// The sums and differences of the halves of a block, whose upper half is then turned.
#[inline(always)]
fn run_block<W: BlockWord>(v: &mut [W], weights: &[(i32, i32)], range: usize)
    requires range_in { (8 ≤ range) × (range ≤ 20) }
    requires some { 1 ≤ length weights.now }
    requires len { length v.old ≡ 2 * (2 * length weights.now) }
    requires table { (p : ℕ) → p < length weights.now → slice_index_or weights.now p (pos 0, pos 0) ≡ round_weights (2 * length weights.now) p }
    requires fit { (i : ℕ) → i < W.LANES → AllFit 20 (column W.lane_of i v.old) }
    ensures { (i : ℕ) → i < W.LANES → let s = 2 * length weights.now
        in column W.lane_of i v.new ≡ by_index (2 * s) (adst_turn s (by_index (2 * s) (adst_sum range s (column W.lane_of i v.old)))) }
{
    let s = 2 * weights.len();
    sum_halves(v, range);
    turn_pairs(&mut v[s..], weights);
}

// As `run_block`, in each block.
#[inline(always)]
fn run_blocks<W: BlockWord>(v: &mut [W], blocks: usize, weights: &[(i32, i32)], range: usize)
    requires range_in { (8 ≤ range) × (range ≤ 20) }
    requires some { 1 ≤ length weights.now }
    requires len { length v.old ≡ blocks * (2 * (2 * length weights.now)) }
    requires table { (p : ℕ) → p < length weights.now → slice_index_or weights.now p (pos 0, pos 0) ≡ round_weights (2 * length weights.now) p }
    requires fit { (i : ℕ) → i < W.LANES → AllFit 20 (column W.lane_of i v.old) }
    ensures { (i : ℕ) → i < W.LANES → let s = 2 * length weights.now
        in column W.lane_of i v.new ≡ by_index (length v.old) (adst_turn s (by_index (length v.old) (adst_sum range s (column W.lane_of i v.old)))) }
{
    let n = 4 * weights.len();
    for b in 0..blocks {
        run_block(&mut v[b * n..b * n + n], weights, range);
    }
}

// Writes the inputs in the order in which their pairs are turned.
#[inline(always)]
fn permute_in<W: BlockWord>(input: &[W], v: &mut [W])
    requires even { 2 * (length v.old / 2) ≡ length v.old }
    requires len { length input.now ≡ length v.old }
    ensures { (i : ℕ) → i < W.LANES → column W.lane_of i v.new ≡ by_index (length v.old) (adst_in (length v.old) (column W.lane_of i input.now)) }
{
    let n = v.len();
    for p in 0..n / 2 {
        let a = 2 * p;
        v[a] = input[n - 1 - a];
        v[a + 1] = input[a];
    }
}

// Reads the outputs from their positions, every second one negated.
#[inline(always)]
fn permute_out<W: BlockWord>(k: usize, v: &[W], places: &[usize], output: &mut [W])
    requires k_in { k ≤ 3 }
    requires len { length v.now ≡ 2 * 2 ^ k }
    requires output_len { length output.old ≡ 2 * 2 ^ k }
    requires places_len { length places.now ≡ 2 * 2 ^ k }
    requires table { (j : ℕ) → j < 2 * 2 ^ k → (slice_index_or places.now j 0 ≡ out_place k j) × (slice_index_or places.now j 0 < 2 * 2 ^ k) }
    requires fit { (i : ℕ) → i < W.LANES → AllFit 20 (column W.lane_of i v.now) }
    ensures { (i : ℕ) → i < W.LANES → column W.lane_of i output.new ≡ by_index (2 * 2 ^ k) (adst_out k (column W.lane_of i v.now)) }
{
    let zero = W::splat(0);
    for p in 0..places.len() / 2 {
        let a = 2 * p;
        let (s, t) = (places[a], places[a + 1]);
        output[a] = v[s];
        output[a + 1] = zero.minus(v[t]);
    }
}

#[inline(always)]
fn adst8_of<W: BlockWord>(input: &[W], v: &mut [W], output: &mut [W], range: usize)
    requires range_in { (8 ≤ range) × (range ≤ 20) }
    requires input_len { length input.now ≡ 8 }
    requires work_len { length v.old ≡ 8 }
    requires output_len { length output.old ≡ 8 }
    ensures { (i : ℕ) → i < W.LANES → column W.lane_of i output.new ≡ adst_more range 2 (column W.lane_of i input.now) }
{
    permute_in(input, v);
    turn_pairs(v, &START_8);
    run_blocks(v, 1, &BLOCK_8, range);
    run_blocks(v, 2, &BLOCK_4, range);
    permute_out(2, v, &PLACES_8, output);
}

#[inline(always)]
fn adst16_of<W: BlockWord>(input: &[W], v: &mut [W], output: &mut [W], range: usize)
    requires range_in { (8 ≤ range) × (range ≤ 20) }
    requires input_len { length input.now ≡ 16 }
    requires work_len { length v.old ≡ 16 }
    requires output_len { length output.old ≡ 16 }
    ensures { (i : ℕ) → i < W.LANES → column W.lane_of i output.new ≡ adst_more range 3 (column W.lane_of i input.now) }
{
    permute_in(input, v);
    turn_pairs(v, &START_16);
    run_blocks(v, 1, &BLOCK_16, range);
    run_blocks(v, 2, &BLOCK_8, range);
    run_blocks(v, 4, &BLOCK_4, range);
    permute_out(3, v, &PLACES_16, output);
}

#[inline(always)]
fn adst4_of<W: BlockWord>(input: &[W], output: &mut [W])
    requires input_len { length input.now ≡ 4 }
    requires output_len { length output.old ≡ 4 }
    requires fit { (i : ℕ) → i < W.LANES → AllFit 20 (column W.lane_of i input.now) }
    ensures { (i : ℕ) → i < W.LANES → column W.lane_of i output.new ≡ adst4 (column W.lane_of i input.now) }
{
    let (x0, x1, x2, x3) = (input[0], input[1], input[2], input[3]);
    let zero = W::splat(0);
    let first = zero
        .add_product(1321, x0)
        .add_product(3803, x2)
        .add_product(2482, x3);
    let second = zero
        .add_product(2482, x0)
        .add_product(-1321, x2)
        .add_product(-3803, x3);
    let third = zero.add_product(3344, x1);
    output[0] = first.add_product(1, third).round12();
    output[1] = second.add_product(1, third).round12();
    output[2] = zero.add_product(3344, x0.minus(x2).plus(x3)).round12();
    output[3] = first
        .add_product(1, second)
        .add_product(-1, third)
        .round12();
}

/// The inverse asymmetric sine transform of 2^(k+1) values, in each lane.
#[inline(always)]
pub(crate) fn adst_of<W: BlockWord>(k: usize, input: &[W], output: &mut [W], range: usize)
    requires range_in { (8 ≤ range) × (range ≤ 20) }
    requires k_in { (1 ≤ k) × (k ≤ 3) }
    requires input_len { length input.now ≡ 2 * 2 ^ k }
    requires output_len { length output.old ≡ 2 * 2 ^ k }
    requires fit { (i : ℕ) → i < W.LANES → AllFit 20 (column W.lane_of i input.now) }
    ensures { (i : ℕ) → i < W.LANES → column W.lane_of i output.new ≡ adst range k (column W.lane_of i input.now) }
{
    let zero = W::splat(0);
    match k {
        1 => adst4_of(input, output),
        2 => {
            let mut v = [zero; 8];
            adst8_of(input, &mut v, output, range);
        }
        _ => {
            let mut v = [zero; 16];
            adst16_of(input, &mut v, output, range);
        }
    }
}

/// The inverse ADST4 process on the first 4 values. The rest of `output` is unchanged. `_range` is not read.
pub fn av1_iadst4(input: &[i32], output: &mut [i32], _range: usize)
    requires input_len { 4 ≤ length input.now }
    requires output_len { 4 ≤ length output.old }
    requires fit { All (FitsBits 20) (take 4 input.now) }
    ensures value { take 4 output.new ≡ adst4 (take 4 input.now) }
    ensures rest { drop 4 output.new ≡ drop 4 output.old }
{
    adst4_of(&input[..4], &mut output[..4]);
}

/// As `av1_iadst4`, with its outputs in reverse order.
pub fn av1_iflipadst4(input: &[i32], output: &mut [i32], range: usize)
    requires input_len { 4 ≤ length input.now }
    requires output_len { 4 ≤ length output.old }
    requires fit { All (FitsBits 20) (take 4 input.now) }
    ensures value { take 4 output.new ≡ reverse (adst4 (take 4 input.now)) }
    ensures rest { drop 4 output.new ≡ drop 4 output.old }
{
    av1_iadst4(input, output, range);
    output[..4].reverse();
}

/// The inverse ADST8 process on the first 8 values, with clamps to `range` bits. The rest of `output` is unchanged.
pub fn av1_iadst8(input: &[i32], output: &mut [i32], range: usize)
    requires range_in { (8 ≤ range) × (range ≤ 20) }
    requires input_len { 8 ≤ length input.now }
    requires output_len { 8 ≤ length output.old }
    requires fit { All (FitsBits range) (take 8 input.now) }
    ensures value { take 8 output.new ≡ adst_more range 2 (take 8 input.now) }
    ensures rest { drop 8 output.new ≡ drop 8 output.old }
{
    let mut v = [0; 8];
    adst8_of(&input[..8], &mut v, &mut output[..8], range);
}

/// As `av1_iadst8`, with its outputs in reverse order.
pub fn av1_iflipadst8(input: &[i32], output: &mut [i32], range: usize)
    requires range_in { (8 ≤ range) × (range ≤ 20) }
    requires input_len { 8 ≤ length input.now }
    requires output_len { 8 ≤ length output.old }
    requires fit { All (FitsBits range) (take 8 input.now) }
    ensures value { take 8 output.new ≡ reverse (adst_more range 2 (take 8 input.now)) }
    ensures rest { drop 8 output.new ≡ drop 8 output.old }
{
    av1_iadst8(input, output, range);
    output[..8].reverse();
}

/// The inverse ADST16 process on the first 16 values, with clamps to `range` bits. The rest of `output` is unchanged.
pub fn av1_iadst16(input: &[i32], output: &mut [i32], range: usize)
    requires range_in { (8 ≤ range) × (range ≤ 20) }
    requires input_len { 16 ≤ length input.now }
    requires output_len { 16 ≤ length output.old }
    requires fit { All (FitsBits range) (take 16 input.now) }
    ensures value { take 16 output.new ≡ adst_more range 3 (take 16 input.now) }
    ensures rest { drop 16 output.new ≡ drop 16 output.old }
{
    let mut v = [0; 16];
    adst16_of(&input[..16], &mut v, &mut output[..16], range);
}

/// As `av1_iadst16`, with its outputs in reverse order.
pub fn av1_iflipadst16(input: &[i32], output: &mut [i32], range: usize)
    requires range_in { (8 ≤ range) × (range ≤ 20) }
    requires input_len { 16 ≤ length input.now }
    requires output_len { 16 ≤ length output.old }
    requires fit { All (FitsBits range) (take 16 input.now) }
    ensures value { take 16 output.new ≡ reverse (adst_more range 3 (take 16 input.now)) }
    ensures rest { drop 16 output.new ≡ drop 16 output.old }
{
    av1_iadst16(input, output, range);
    output[..16].reverse();
}
