//! The inverse Walsh-Hadamard transform of 4 values: reads `input`, writes `output`, allocates nothing.

ghost use Rattle.std.specs.Prelude.{◌≡◌, ℕ, ◌<◌, ◌≤◌, length, take, drop};
ghost use Rattle.std.specs.List.{All};
ghost use Rattle.av1_dct.specs.Arithmetic.{AllFit, FitsBits};
ghost use Rattle.av1_dct.specs.Word.{column};
ghost use Rattle.av1_itx.specs.Walsh.{walsh};

use crate::words::BlockWord;

#[inline(always)]
pub(crate) fn walsh_of<W: BlockWord>(input: &[W], output: &mut [W])
    requires input_len { length input.now ≡ 4 }
    requires output_len { length output.old ≡ 4 }
    requires fit { (i : ℕ) → i < W.LANES → AllFit 29 (column W.lane_of i input.now) }
    ensures { (i : ℕ) → i < W.LANES → column W.lane_of i output.new ≡ walsh (column W.lane_of i input.now) }
{
    let (x0, x1, x2, x3) = (input[0], input[1], input[2], input[3]);
    let s0 = x0.plus(x1);
    let s2 = x2.minus(x3);
    let s4 = s0.minus(s2).halve();
    let s3 = s4.minus(x3);
    let s1 = s4.minus(x1);
    output[0] = s0.minus(s3);
    output[1] = s3;
    output[2] = s1;
    output[3] = s2.plus(s1);
}

/// The inverse Walsh-Hadamard transform process on the first 4 values, which have at most 29 bits. The rest of `output`
/// is unchanged, and `_range` is not read.
pub fn av1_iwht4(input: &[i32], output: &mut [i32], _range: usize)
    requires input_len { 4 ≤ length input.now }
    requires output_len { 4 ≤ length output.old }
    requires fit { All (FitsBits 29) (take 4 input.now) }
    ensures value { take 4 output.new ≡ walsh (take 4 input.now) }
    ensures rest { drop 4 output.new ≡ drop 4 output.old }
{
    walsh_of(&input[..4], &mut output[..4]);
}
