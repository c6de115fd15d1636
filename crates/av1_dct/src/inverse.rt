//! The inverse cosine transforms of one column, under rav1e's names. Each reads `input` and writes `output`.

ghost use Rattle.std.specs.Prelude.{◌≡◌, ◌≤◌, length, take, drop};
ghost use Rattle.std.specs.List.{All};
ghost use Rattle.av1_dct.specs.Arithmetic.{FitsBits};
ghost use Rattle.av1_dct.specs.Cosine.{cosine};

use crate::cosine::cosine_words;

/// The inverse cosine transform of 4 values (the inverse DCT process of the AV1 specification). The first 4 entries of
/// `output` become the transform of the first 4 entries of `input`. The rest of `output` is unchanged. Sums are clamped
/// to `range` signed bits.
pub fn av1_idct4(input: &[i32], output: &mut [i32], range: usize)
    requires range_in { (8 ≤ range) × (range ≤ 20) }
    requires input_len { 4 ≤ length input.now }
    requires output_len { 4 ≤ length output.old }
    requires fit { All (FitsBits range) (take 4 input.now) }
    ensures value { take 4 output.new ≡ cosine range 1 (take 4 input.now) }
    ensures rest { drop 4 output.new ≡ drop 4 output.old }
{
    cosine_words(4, input, &mut [], output, range);
}

/// The inverse cosine transform of 8 values (the inverse DCT process of the AV1 specification). The first 8 entries of
/// `output` become the transform of the first 8 entries of `input`. The rest of `output` is unchanged. Sums are clamped
/// to `range` signed bits.
pub fn av1_idct8(input: &[i32], output: &mut [i32], range: usize)
    requires range_in { (8 ≤ range) × (range ≤ 20) }
    requires input_len { 8 ≤ length input.now }
    requires output_len { 8 ≤ length output.old }
    requires fit { All (FitsBits range) (take 8 input.now) }
    ensures value { take 8 output.new ≡ cosine range 2 (take 8 input.now) }
    ensures rest { drop 8 output.new ≡ drop 8 output.old }
{
    cosine_words(8, input, &mut [], output, range);
}

/// The inverse cosine transform of 16 values (the inverse DCT process of the AV1 specification). The first 16 entries
/// of `output` become the transform of the first 16 entries of `input`. The rest of `output` is unchanged. Sums are
/// clamped to `range` signed bits.
pub fn av1_idct16(input: &[i32], output: &mut [i32], range: usize)
    requires range_in { (8 ≤ range) × (range ≤ 20) }
    requires input_len { 16 ≤ length input.now }
    requires output_len { 16 ≤ length output.old }
    requires fit { All (FitsBits range) (take 16 input.now) }
    ensures value { take 16 output.new ≡ cosine range 3 (take 16 input.now) }
    ensures rest { drop 16 output.new ≡ drop 16 output.old }
{
    cosine_words(16, input, &mut [], output, range);
}

/// The inverse cosine transform of 32 values (the inverse DCT process of the AV1 specification). The first 32 entries
/// of `output` become the transform of the first 32 entries of `input`. The rest of `output` is unchanged. Sums are
/// clamped to `range` signed bits.
pub fn av1_idct32(input: &[i32], output: &mut [i32], range: usize)
    requires range_in { (8 ≤ range) × (range ≤ 20) }
    requires input_len { 32 ≤ length input.now }
    requires output_len { 32 ≤ length output.old }
    requires fit { All (FitsBits range) (take 32 input.now) }
    ensures value { take 32 output.new ≡ cosine range 4 (take 32 input.now) }
    ensures rest { drop 32 output.new ≡ drop 32 output.old }
{
    cosine_words(32, input, &mut [], output, range);
}

/// The inverse cosine transform of 64 values (the inverse DCT process of the AV1 specification). The first 64 entries
/// of `output` become the transform of the first 64 entries of `input`. The rest of `output` is unchanged. Sums are
/// clamped to `range` signed bits.
pub fn av1_idct64(input: &[i32], output: &mut [i32], range: usize)
    requires range_in { (8 ≤ range) × (range ≤ 20) }
    requires input_len { 64 ≤ length input.now }
    requires output_len { 64 ≤ length output.old }
    requires fit { All (FitsBits range) (take 64 input.now) }
    ensures value { take 64 output.new ≡ cosine range 5 (take 64 input.now) }
    ensures rest { drop 64 output.new ≡ drop 64 output.old }
{
    cosine_words(64, input, &mut [], output, range);
}
