//! Copies a side of a block into an array, and filters and upsamples it there as the angle requires.

ghost use Rattle.std.specs.Prelude.{◌≡◌, ℕ, ◌+◌, ◌-◌, ◌*◌, ◌/◌, ◌<◌, ◌≤◌, length, map, take, reverse, replicate, if◌then◌else◌, IsTrue};
ghost use Rattle.av1_intra.specs.Sides.{entries, distance};
ghost use Rattle.av1_intra.specs.EdgeFilter.{filtered};
ghost use Rattle.av1_intra.specs.Upsampling.{upsampled};
ghost use Rattle.av1_intra.specs.Directional.{side, prepared, upsampling};
ghost use Rattle.av1_intra.specs.Scaffolding.{IsRepeated};

use crate::directional::DirectionalBlock;
use crate::edge_filter::{filter_edge, select_ief_strength};
use crate::upsampling::{select_ief_upsample, upsample_side};
use av1_frame::{Pixel, fill_row};

/// The greatest number of entries of a side: a corner and 128 places, upsampled.
const ENTRIES: usize = 257;

/// A side of a block, filtered and upsampled.
#[derive(Drop)]
pub(crate) struct FilteredSide {
    /// The corner, then the samples away from it, then zeros.
    pub(crate) numbers: [u16; ENTRIES],
    /// 1 if the side is upsampled, else 0.
    pub(crate) upsampling: usize,
}

/// Copies the corner and the first `count` samples above into empty entries.
#[tactic(auto, using(av1_frame::proofs::Paint::row_painting))]
fn above_numbers<T: Pixel>(numbers: &mut [u16; ENTRIES], corner: T, above: &[T], count: usize)
    requires empty { numbers.old ≡ replicate 257 0 }
    requires few { count ≤ 128 }
    requires long { count ≤ length above.now }
    ensures { entries numbers.new ≡ side (T.num corner) (take count (map T.num above.now)) }
{
    numbers[0] = corner.to_u32() as u16;
    for k in 0..count {
        numbers[k + 1] = above[k].to_u32() as u16;
    }
}

/// Copies the corner and the last `count` samples of `left`, the last one first, into empty entries.
#[tactic(auto, using(av1_frame::proofs::Paint::row_painting))]
fn left_numbers<T: Pixel>(numbers: &mut [u16; ENTRIES], corner: T, left: &[T], count: usize)
    requires empty { numbers.old ≡ replicate 257 0 }
    requires few { count ≤ 128 }
    requires long { count ≤ length left.now }
    ensures { entries numbers.new ≡ side (T.num corner) (take count (reverse (map T.num left.now))) }
{
    let last = left.len();
    numbers[0] = corner.to_u32() as u16;
    for k in 0..count {
        numbers[k + 1] = left[last - 1 - k].to_u32() as u16;
    }
}

/// Filters the first `smoothed` samples after the corner, then upsamples the first `places`.
fn prepare(
    numbers: &mut [u16; ENTRIES],
    smoothed: usize,
    places: usize,
    strength: u8,
    upsample: bool,
    bit_depth: usize,
)
    requires strength { strength ≤ 3 }
    requires smoothed { (smoothed ≤ 128) × (smoothed ≤ places) }
    requires places { IsTrue upsample → places ≤ 61 }
    requires past { (e : ℕ) → places < e → entries numbers.old e ≡ 0 }
    requires depth { bit_depth ≤ 16 }
    ensures { entries numbers.new ≡ (if upsample then upsampled bit_depth places (filtered smoothed strength (entries numbers.old))
        else filtered smoothed strength (entries numbers.old)) }
{
    filter_edge(smoothed + 1, strength, numbers);
    if upsample {
        upsample_side(numbers, places, bit_depth);
    }
}

/// Filters and upsamples a side as the block's edge filter requires. `straight` is the angle of the side: 90 above and
/// 180 on the left. Returns 1 if the side was upsampled, else 0.
fn filter_side(
    numbers: &mut [u16; ENTRIES],
    block: DirectionalBlock,
    straight: usize,
    smoothed: usize,
    places: usize,
) -> usize
    requires smoothed { (smoothed ≤ 128) × (smoothed ≤ places) }
    requires places { places ≤ block.width + block.height }
    requires past { (e : ℕ) → places < e → entries numbers.old e ≡ 0 }
    requires sides { block.width + block.height ≤ 128 }
    requires angle { block.p_angle < 300 }
    requires straight { straight < 300 }
    requires depth { block.bit_depth ≤ 16 }
    ensures numbers { entries numbers.new ≡ prepared block (distance block.p_angle straight) smoothed places (entries numbers.old) }
    ensures upsampling { result ≡ upsampling block (distance block.p_angle straight) }
    ensures at_most_one { result ≤ 1 }
{
    match block.smooth_filter {
        None => 0,
        Some(smooth) => {
            let delta = block.p_angle as isize - straight as isize;
            let strength = select_ief_strength(block.width, block.height, smooth, delta);
            let upsample = select_ief_upsample(block.width, block.height, smooth, delta);
            prepare(
                numbers,
                smoothed,
                places,
                strength,
                upsample,
                block.bit_depth,
            );
            usize::from(upsample)
        }
    }
}

/// Fills an empty side from `above`: `places` samples, of which the first `smoothed` are filtered.
pub(crate) fn prepare_above<T: Pixel>(
    ready: &mut FilteredSide,
    above: &[T],
    corner: T,
    block: DirectionalBlock,
    smoothed: usize,
    places: usize,
)
    requires empty { ready.old.numbers ≡ replicate 257 0 }
    requires smoothed { (smoothed ≤ 128) × (smoothed ≤ places) }
    requires places { places ≤ block.width + block.height }
    requires sides { block.width + block.height ≤ 128 }
    requires long { places ≤ length above.now }
    requires angle { block.p_angle < 300 }
    requires depth { block.bit_depth ≤ 16 }
    ensures numbers { entries ready.new.numbers ≡
        prepared block (distance block.p_angle 90) smoothed places (side (T.num corner) (take places (map T.num above.now))) }
    ensures upsampling { ready.new.upsampling ≡ upsampling block (distance block.p_angle 90) }
    ensures at_most_one { ready.new.upsampling ≤ 1 }
{
    above_numbers(&mut ready.numbers, corner, above, places);
    ready.upsampling = filter_side(&mut ready.numbers, block, 90, smoothed, places);
}

/// Fills an empty side from `left`, from the top down: `places` samples, of which the first `smoothed` are filtered.
pub(crate) fn prepare_left<T: Pixel>(
    ready: &mut FilteredSide,
    left: &[T],
    corner: T,
    block: DirectionalBlock,
    smoothed: usize,
    places: usize,
)
    requires empty { ready.old.numbers ≡ replicate 257 0 }
    requires smoothed { (smoothed ≤ 128) × (smoothed ≤ places) }
    requires places { places ≤ block.width + block.height }
    requires sides { block.width + block.height ≤ 128 }
    requires long { places ≤ length left.now }
    requires angle { block.p_angle < 300 }
    requires depth { block.bit_depth ≤ 16 }
    ensures numbers { entries ready.new.numbers ≡
        prepared block (distance block.p_angle 180) smoothed places (side (T.num corner) (take places (reverse (map T.num left.now)))) }
    ensures upsampling { ready.new.upsampling ≡ upsampling block (distance block.p_angle 180) }
    ensures at_most_one { ready.new.upsampling ≤ 1 }
{
    left_numbers(&mut ready.numbers, corner, left, places);
    ready.upsampling = filter_side(&mut ready.numbers, block, 180, smoothed, places);
}

/// Repeats the entry `last` after it, as far as a row of 64 samples reads.
pub(crate) fn repeat_entry(numbers: &mut [u16; ENTRIES], last: usize)
    requires { last ≤ 128 }
    ensures kept { (k : ℕ) → k ≤ last → entries numbers.new k ≡ entries numbers.old k }
    ensures repeated { IsRepeated last (entries numbers.new) }
{
    let value = numbers[last];
    let (_, rest) = numbers.split_at_mut(last);
    fill_row(rest, value, 66);
}

impl FilteredSide {
    /// A side without samples.
    pub(crate) fn empty() -> FilteredSide
        ensures { result.numbers ≡ replicate 257 0 }
    {
        FilteredSide {
            numbers: [0; ENTRIES],
            upsampling: 0,
        }
    }
}
