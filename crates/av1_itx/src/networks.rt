//! Runs the one-dimensional inverse transform of any kind, from `input` to `output`, and counts cosine transforms.

ghost use Rattle.std.specs.Prelude.{◌≡◌, ℕ, ◌*◌, ◌^◌, ◌<◌, ◌≤◌, length};
ghost use Rattle.std.specs.List.{All};
ghost use Rattle.av1_dct.specs.Arithmetic.{FitsBits};
ghost use Rattle.av1_dct.specs.Cosine.{cosine};
ghost use Rattle.av1_dct.specs.Word.{column};
ghost use Rattle.av1_lists.specs.Counts.{raised};
ghost use Rattle.av1_itx.specs.Networks.{network, HasNetwork};
ghost use Rattle.av1_itx.specs.Scaffolding.{cosine_groups};

use crate::adst::adst_of;
use crate::identity::{exact_identity_of, identity_of};
use crate::kinds::TxType1D;
use crate::walsh::walsh_of;
use crate::words::BlockWord;
use av1_dct::LaneCount;

// The inverse cosine transform of all words.
#[inline(always)]
fn cosine_of<W: BlockWord>(
    k: usize,
    count: &mut LaneCount,
    input: &[W],
    output: &mut [W],
    range: usize,
)
    requires range_in { (8 ≤ range) × (range ≤ 20) }
    requires k_in { (1 ≤ k) × (k ≤ 5) }
    requires input_len { length input.now ≡ 2 * 2 ^ k }
    requires output_len { length output.old ≡ 2 * 2 ^ k }
    requires fit { (i : ℕ) → i < W.LANES → All (FitsBits range) (column W.lane_of i input.now) }
    ensures value { (i : ℕ) → i < W.LANES → column W.lane_of i output.new ≡ cosine range k (column W.lane_of i input.now) }
    ensures counts { count.new.groups ≡ raised count.old.groups W.COUNTED }
{
    let n = output.len();
    W::cosine(count, n, input, output, range);
}

/// The inverse transform of a kind, of 2^(k+1) words, in each lane. `count` counts it if it is the cosine transform and
/// words have eight lanes.
#[inline(always)]
pub(crate) fn inverse_1d<W: BlockWord>(
    kind: TxType1D,
    k: usize,
    count: &mut LaneCount,
    input: &[W],
    output: &mut [W],
    range: usize,
)
    requires range_in { (8 ≤ range) × (range ≤ 20) }
    requires has { HasNetwork kind k }
    requires input_len { length input.now ≡ 2 * 2 ^ k }
    requires output_len { length output.old ≡ 2 * 2 ^ k }
    requires fit { (i : ℕ) → i < W.LANES → All (FitsBits range) (column W.lane_of i input.now) }
    ensures value { (i : ℕ) → i < W.LANES → column W.lane_of i output.new ≡ network kind range k (column W.lane_of i input.now) }
    ensures counts { count.new.groups ≡ raised count.old.groups (cosine_groups kind W.COUNTED) }
{
    // This tells the proof that the count is a u64.
    let _count = count.groups();
    match kind {
        TxType1D::DCT => cosine_of(k, count, input, output, range),
        TxType1D::ADST => adst_of(k, input, output, range),
        TxType1D::FLIPADST => {
            adst_of(k, input, output, range);
            output.reverse();
        }
        TxType1D::IDENTITY => identity_of(k, input, output),
        TxType1D::EXACT_IDENTITY => exact_identity_of(k, input, output),
        TxType1D::WHT => walsh_of(input, output),
    }
}
