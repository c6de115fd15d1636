//! The inverse identity transforms of 4 to 32 values: they read `input`, write it scaled to `output`.

ghost use Rattle.std.specs.Prelude.{◌≡◌, ℕ, ◌*◌, ◌^◌, ◌<◌, ◌≤◌, pos, ◌+ℤ◌, ◌*ℤ◌, length, take, drop};
ghost use Rattle.std.specs.Int.{int_shr};
ghost use Rattle.std.specs.List.{All};
ghost use Rattle.av1_dct.specs.Arithmetic.{AllFit, FitsBits};
ghost use Rattle.av1_dct.specs.Word.{column};
ghost use Rattle.av1_itx.specs.Identity.{exact, identity, identity_with, scaled, scaled_with};

use crate::words::BlockWord;
use av1_blocks::SQRT2;

// One of 2^(k+1) values after the transform, in each lane.
#[inline(always)]
fn scaled_of<W: BlockWord>(k: usize, z: W) -> W
    requires k_in { (1 ≤ k) × (k ≤ 4) }
    requires fits { (i : ℕ) → i < W.LANES → FitsBits 20 (W.lane_of z i) }
    ensures { (i : ℕ) → i < W.LANES → W.lane_of result i ≡ scaled k (W.lane_of z i) }
{
    if k == 1 {
        return W::turn(SQRT2, z, 0, z);
    }
    if k == 3 {
        return W::turn(2 * SQRT2, z, 0, z);
    }
    let double = z.plus(z);
    if k == 2 {
        return double;
    }
    double.plus(double)
}

#[inline(always)]
pub(crate) fn identity_of<W: BlockWord>(k: usize, input: &[W], output: &mut [W])
    requires k_in { (1 ≤ k) × (k ≤ 4) }
    requires input_len { length input.now ≡ 2 * 2 ^ k }
    requires output_len { length output.old ≡ 2 * 2 ^ k }
    requires fit { (i : ℕ) → i < W.LANES → AllFit 20 (column W.lane_of i input.now) }
    ensures { (i : ℕ) → i < W.LANES → column W.lane_of i output.new ≡ identity k (column W.lane_of i input.now) }
{
    for p in 0..output.len() {
        let z = input[p];
        output[p] = scaled_of(k, z);
    }
}

// A value times the square root of 2, never wrapped: only the part of the weight past 1 is multiplied and rounded.
#[inline(always)]
fn by_root<W: BlockWord>(z: W) -> W
    requires { (i : ℕ) → i < W.LANES → FitsBits 20 (W.lane_of z i) }
    ensures { (i : ℕ) → i < W.LANES → W.lane_of result i ≡ int_shr (pos 5793 *ℤ W.lane_of z i +ℤ pos 2048) 12 }
{
    z.plus(W::turn(SQRT2 - 4096, z, 0, z))
}

// A value times twice the square root of 2, never wrapped: only the part of the weight past 2 is multiplied and
// rounded.
#[inline(always)]
fn by_two_roots<W: BlockWord>(z: W) -> W
    requires { (i : ℕ) → i < W.LANES → FitsBits 20 (W.lane_of z i) }
    ensures { (i : ℕ) → i < W.LANES → W.lane_of result i ≡ int_shr (pos 11586 *ℤ W.lane_of z i +ℤ pos 2048) 12 }
{
    let double = z.plus(z);
    double.plus(W::turn(2 * SQRT2 - 8192, z, 0, z))
}

// One of 2^(k+1) values after the identity that never wraps, in each lane.
#[inline(always)]
fn exactly_scaled<W: BlockWord>(k: usize, z: W) -> W
    requires k_in { (1 ≤ k) × (k ≤ 4) }
    requires fits { (i : ℕ) → i < W.LANES → FitsBits 20 (W.lane_of z i) }
    ensures { (i : ℕ) → i < W.LANES → W.lane_of result i ≡ scaled_with exact k (W.lane_of z i) }
{
    if k == 1 {
        return by_root(z);
    }
    if k == 3 {
        return by_two_roots(z);
    }
    scaled_of(k, z)
}

#[inline(always)]
pub(crate) fn exact_identity_of<W: BlockWord>(k: usize, input: &[W], output: &mut [W])
    requires k_in { (1 ≤ k) × (k ≤ 4) }
    requires input_len { length input.now ≡ 2 * 2 ^ k }
    requires output_len { length output.old ≡ 2 * 2 ^ k }
    requires fit { (i : ℕ) → i < W.LANES → AllFit 20 (column W.lane_of i input.now) }
    ensures { (i : ℕ) → i < W.LANES → column W.lane_of i output.new ≡ identity_with exact k (column W.lane_of i input.now) }
{
    for p in 0..output.len() {
        let z = input[p];
        output[p] = exactly_scaled(k, z);
    }
}

/// The inverse identity transform of 4 values: each is scaled by the square root of 2. The rest of `output` is
/// unchanged, and `_range` is not read.
pub fn av1_iidentity4(input: &[i32], output: &mut [i32], _range: usize)
    requires input_len { 4 ≤ length input.now }
    requires output_len { 4 ≤ length output.old }
    requires fit { All (FitsBits 20) (take 4 input.now) }
    ensures value { take 4 output.new ≡ identity 1 (take 4 input.now) }
    ensures rest { drop 4 output.new ≡ drop 4 output.old }
{
    identity_of(1, &input[..4], &mut output[..4]);
}

/// The inverse identity transform of 8 values: each is scaled by 2. The rest of `output` is unchanged.
pub fn av1_iidentity8(input: &[i32], output: &mut [i32], _range: usize)
    requires input_len { 8 ≤ length input.now }
    requires output_len { 8 ≤ length output.old }
    requires fit { All (FitsBits 20) (take 8 input.now) }
    ensures value { take 8 output.new ≡ identity 2 (take 8 input.now) }
    ensures rest { drop 8 output.new ≡ drop 8 output.old }
{
    identity_of(2, &input[..8], &mut output[..8]);
}

/// The inverse identity transform of 16 values: each is scaled by twice the square root of 2. The rest of `output` is
/// unchanged.
pub fn av1_iidentity16(input: &[i32], output: &mut [i32], _range: usize)
    requires input_len { 16 ≤ length input.now }
    requires output_len { 16 ≤ length output.old }
    requires fit { All (FitsBits 20) (take 16 input.now) }
    ensures value { take 16 output.new ≡ identity 3 (take 16 input.now) }
    ensures rest { drop 16 output.new ≡ drop 16 output.old }
{
    identity_of(3, &input[..16], &mut output[..16]);
}

/// The inverse identity transform of 32 values: each is scaled by 4. The rest of `output` is unchanged.
pub fn av1_iidentity32(input: &[i32], output: &mut [i32], _range: usize)
    requires input_len { 32 ≤ length input.now }
    requires output_len { 32 ≤ length output.old }
    requires fit { All (FitsBits 20) (take 32 input.now) }
    ensures value { take 32 output.new ≡ identity 4 (take 32 input.now) }
    ensures rest { drop 32 output.new ≡ drop 32 output.old }
{
    identity_of(4, &input[..32], &mut output[..32]);
}
