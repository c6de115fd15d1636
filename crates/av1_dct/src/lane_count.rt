//! Runs eight inverse cosine transforms at a time, from `input` to `output`, and counts them in a `LaneCount`.

ghost use Rattle.std.specs.Prelude.{◌≡◌, ℕ, ◌*◌, ◌^◌, ◌<◌, ◌≤◌, length, take, drop};
ghost use Rattle.std.specs.List.{All};
ghost use Rattle.av1_dct.specs.Arithmetic.{FitsBits};
ghost use Rattle.av1_lists.specs.Counts.{counted};
ghost use Rattle.av1_dct.specs.Word.{column, lane_of_vector};
ghost use Rattle.av1_lists.specs.Sides.{IsTransformSide};
ghost use Rattle.av1_dct.specs.Cosine.{cosine};

use crate::cosine::cosine_any;
use crate::narrow::SHORT_BITS;
use crate::narrow_lanes::cosine_short;
use std::simd::prelude::*;

/// Counts the groups of eight transforms that were run with it. Only `cosine_lanes` raises the count, and nothing
/// lowers it.
#[derive(Drop)]
pub struct LaneCount {
    groups: u64,
}

impl LaneCount {
    /// A count that begins at 0.
    pub fn new() -> LaneCount
        ensures { result.groups ≡ 0 }
    {
        LaneCount { groups: 0 }
    }

    /// The number of groups. It stays at the last value of a `u64`.
    pub fn groups(&self) -> u64
        ensures { result ≡ self.now.groups }
    {
        self.groups
    }
}

// Eight transforms of n values. Lanes of 16 bits are used if the range has 16; for 4 values the cut costs more than it
// saves.
#[inline(always)]
fn cosine_eight(n: usize, input: &[i32x8], output: &mut [i32x8], range: usize)
    requires range_in { (8 ≤ range) × (range ≤ 20) }
    requires n_in { IsTransformSide n }
    requires input_len { n ≤ length input.now }
    requires output_len { n ≤ length output.old }
    requires fit { (i : ℕ) → i < 8 → All (FitsBits range) (take n (column lane_of_vector i input.now)) }
    ensures value { (k i : ℕ) → i < 8 → n ≡ 2 * 2 ^ k →
        take n (column lane_of_vector i output.new) ≡ cosine range k (take n (column lane_of_vector i input.now)) }
    ensures rest { drop n output.new ≡ drop n output.old }
{
    if range == SHORT_BITS && 8 <= n {
        cosine_short(n, input, output);
    } else {
        cosine_any(n, input, output, range);
    }
}

/// Eight inverse cosine transforms of `n` values at a time, one in each lane, as `cosine_words` over `i32x8`. It counts
/// one group.
///
/// `_work` is a buffer for a transform that does not run in place. This one runs in place, within `output`, so `_work`
/// may have any length.
#[inline(always)]
pub fn cosine_lanes(
    count: &mut LaneCount,
    n: usize,
    input: &[i32x8],
    _work: &mut [i32x8],
    output: &mut [i32x8],
    range: usize,
)
    requires range_in { (8 ≤ range) × (range ≤ 20) }
    requires n_in { IsTransformSide n }
    requires input_len { n ≤ length input.now }
    requires output_len { n ≤ length output.old }
    requires fit { (i : ℕ) → i < 8 → All (FitsBits range) (take n (column lane_of_vector i input.now)) }
    ensures value { (k i : ℕ) → i < 8 → n ≡ 2 * 2 ^ k →
        take n (column lane_of_vector i output.new) ≡ cosine range k (take n (column lane_of_vector i input.now)) }
    ensures rest { drop n output.new ≡ drop n output.old }
    ensures counts { count.new.groups ≡ counted count.old.groups }
{
    count.groups = count.groups.saturating_add(1);
    cosine_eight(n, input, output, range);
}
