//! Transforms columns of a buffer in place, one in each lane: eight at a time, or four if there are no more.
//! Arrays on the stack hold a group of columns while it is transformed. Nothing allocates.

ghost use Rattle.std.specs.Prelude.{◌≡◌, ℕ, ◌+◌, ◌-◌, ◌*◌, ◌/◌, ◌<◌, ◌≤◌, nat_le, nat_lt, ◌&&◌, if◌then◌else◌, pos, length, ◌==◌};
ghost use Rattle.av1_dct.specs.Arithmetic.{at, clamp_value, FitsBits};
ghost use Rattle.av1_lists.specs.Counts.{raised};
ghost use Rattle.av1_dct.specs.Operations.{half_btf};
ghost use Rattle.av1_lists.specs.Lists.{by_index};
ghost use Rattle.av1_dct.specs.Word.{column};
ghost use Rattle.av1_itx.specs.Scaffolding.{AreColumns, AreTransformed, cosine_groups, IsSmallWord};
ghost use Rattle.av1_itx.specs.LaneGroups.{is_cosine};

use crate::kinds::TxType1D;
use crate::networks::inverse_1d;
use crate::words::BlockWord;
use av1_blocks::INV_SQRT2;
use av1_dct::{LaneCount, clamp_value, cosine_lanes, half_btf};
use std::simd::prelude::*;

/// Columns of a buffer that are transformed in place: the first `count` of `width`, of `height` rows. The buffer is
/// stored row by row, and the height is 2^(power + 1).
#[derive(Clone, Copy)]
pub(crate) struct Columns {
    /// The kind of their transform.
    pub(crate) kind: TxType1D,
    pub(crate) count: usize,
    pub(crate) width: usize,
    pub(crate) height: usize,
    pub(crate) power: usize,
    /// The number of bits to which values within them are clamped.
    pub(crate) range: usize,
}

// The inputs of the columns from c on, one in each lane, from a buffer of w columns.
#[inline(always)]
fn gather_words<W: BlockWord>(buffer: &[i32], line: &mut [W], c: usize, w: usize)
    requires columns_in { c + W.LANES ≤ w }
    requires few { w ≤ 64 }
    requires lines { length line.old ≤ 64 }
    requires buffer_len { length buffer.now ≡ length line.old * w }
    ensures { (i : ℕ) → i < W.LANES → column W.lane_of i line.new ≡ by_index (length line.old) (λ r. at buffer.now (r * w + (c + i))) }
{
    for r in 0..line.len() {
        line[r] = W::read(buffer, r * w + c);
    }
}

// Writes the lanes of a line to the columns from c on, in a buffer of w columns.
#[inline(always)]
fn scatter_words<W: BlockWord>(buffer: &mut [i32], line: &[W], c: usize, w: usize)
    requires columns_in { c + W.LANES ≤ w }
    requires few { w ≤ 64 }
    requires lines { length line.now ≤ 64 }
    requires buffer_len { length buffer.old ≡ length line.now * w }
    ensures { (r q : ℕ) → r < length line.now → q < w →
        at buffer.new (r * w + q) ≡ (if nat_le c q && nat_lt q (c + W.LANES) then at (column W.lane_of (q - c) line.now) r else at buffer.old (r * w + q)) }
{
    for r in 0..line.len() {
        let lanes = line[r];
        lanes.write(buffer, r * w + c);
    }
}

/// Transforms columns in place by any kind, one in each lane. `count` counts the groups of eight that take the cosine
/// transform.
#[inline(always)]
#[tactic(auto, using(crate::proofs::Eights::group_within))]
pub(crate) fn run_words<W: BlockWord>(
    buffer: &mut [i32],
    line: &mut [W],
    transformed: &mut [W],
    count: &mut LaneCount,
    columns: Columns,
)
    requires some { 0 < W.LANES }
    requires whole { W.LANES * (columns.count / W.LANES) ≡ columns.count }
    requires columns { AreColumns columns buffer.old }
    requires line_len { columns.height ≤ length line.old }
    requires transformed_len { columns.height ≤ length transformed.old }
    ensures value { AreTransformed columns buffer.old buffer.new }
    ensures counts { count.new.groups ≡ raised count.old.groups (cosine_groups columns.kind (columns.count / W.LANES * W.COUNTED)) }
{
    // This tells the proof that the count is a u64.
    let _count = count.groups();
    let m = W::LANES;
    let (w, h) = (columns.width, columns.height);
    for g in 0..columns.count / m {
        let c = m * g;
        gather_words(buffer, &mut line[..h], c, w);
        inverse_1d(
            columns.kind,
            columns.power,
            count,
            &line[..h],
            &mut transformed[..h],
            columns.range,
        );
        scatter_words(buffer, &transformed[..h], c, w);
    }
}

/// The value of each sample of a column after the cosine transform, if only its first value is not 0.
pub(crate) fn single_value(top: i32, range: usize) -> i32
    requires range_in { (8 ≤ range) × (range ≤ 20) }
    ensures { result ≡ clamp_value (half_btf (pos 2896) top (pos 0) top) range }
{
    clamp_value(half_btf(INV_SQRT2, top, 0, top, 12), range)
}

/// Runs and counts groups of eight columns of four values, of which the first is `top` and the others are 0.
#[inline(always)]
pub(crate) fn run_single_groups(
    line: &mut [i32x8],
    transformed: &mut [i32x8],
    count: &mut LaneCount,
    top: i32,
    groups: usize,
    range: usize,
)
    requires line_len { length line.old ≡ 4 }
    requires transformed_len { length transformed.old ≡ 4 }
    requires range_in { (8 ≤ range) × (range ≤ 20) }
    requires fits { FitsBits range top }
    ensures { count.new.groups ≡ raised count.old.groups groups }
{
    // This tells the proof that the count is a u64.
    let _count = count.groups();
    fill_single::<i32x8>(line, top);
    for _g in 0..groups {
        cosine_lanes(count, 4, line, &mut [], transformed, range);
    }
}

// The value at position r of a line whose first value is `top` and whose others are 0.
#[inline(always)]
fn single_at(top: i32, r: usize) -> i32
    ensures { result ≡ (if r == 0 then top else pos 0) }
{
    if r == 0 { top } else { 0 }
}

// Fills words so that only the first has a value, the same in each lane.
#[inline(always)]
fn fill_single<W: BlockWord>(line: &mut [W], top: i32)
    ensures { (i : ℕ) → i < W.LANES → column W.lane_of i line.new ≡ by_index (length line.old) (λ r. if r == 0 then top else pos 0) }
{
    for r in 0..line.len() {
        line[r] = W::splat(single_at(top, r));
    }
}

/// The number of columns that are transformed at a time, if the buffer has as many.
pub(crate) const LANES: usize = 8;

/// Whether a kind is the cosine transform.
pub(crate) fn is_cosine(kind: TxType1D) -> bool
    ensures { result ≡ is_cosine kind }
{
    matches!(kind, TxType1D::DCT)
}

// An array of equal items. A proof covers an array of vectors only if a call made it.
#[inline(always)]
pub(crate) fn filled<T: Copy, const N: usize>(item: T) -> [T; N] {
    [item; N]
}

// Transforms columns of N = 2^(K+1) rows, one in each lane. Both numbers are constants of each instance, so that the
// compiler knows all positions of a transform as numbers.
#[inline(always)]
pub(crate) fn words_of<W: BlockWord, const K: usize, const N: usize>(
    buffer: &mut [i32],
    count: &mut LaneCount,
    columns: &Columns,
)
    requires some { 0 < W.LANES }
    requires small { IsSmallWord W.row }
    requires whole { W.LANES * (columns.now.count / W.LANES) ≡ columns.now.count }
    requires columns { AreColumns columns.now buffer.old }
    requires height { columns.now.height ≡ N }
    requires power { columns.now.power ≡ K }
    ensures value { AreTransformed columns.now buffer.old buffer.new }
    ensures counts { count.new.groups ≡ raised count.old.groups (cosine_groups columns.now.kind (columns.now.count / W.LANES * W.COUNTED)) }
{
    let zero = W::splat(0);
    let (mut line, mut transformed) = (filled::<W, N>(zero), filled::<W, N>(zero));
    let known = Columns {
        height: N,
        power: K,
        ..*columns
    };
    run_words(buffer, &mut line, &mut transformed, count, known);
}

// Transforms columns, as many at a time as a word has lanes, each height by a function of its own.
fn word_columns<W: BlockWord>(buffer: &mut [i32], count: &mut LaneCount, columns: &Columns)
    requires some { 0 < W.LANES }
    requires small { IsSmallWord W.row }
    requires whole { W.LANES * (columns.now.count / W.LANES) ≡ columns.now.count }
    requires columns { AreColumns columns.now buffer.old }
    ensures value { AreTransformed columns.now buffer.old buffer.new }
    ensures counts { count.new.groups ≡ raised count.old.groups (cosine_groups columns.now.kind (columns.now.count / W.LANES * W.COUNTED)) }
{
    match columns.height {
        4 => words_of::<W, 1, 4>(buffer, count, columns),
        8 => words_of::<W, 2, 8>(buffer, count, columns),
        16 => words_of::<W, 3, 16>(buffer, count, columns),
        32 => words_of::<W, 4, 32>(buffer, count, columns),
        _ => words_of::<W, 5, 64>(buffer, count, columns),
    }
}

/// Transforms columns in place: eight at a time, or four if the buffer has no more. If eight at a time take the cosine
/// transform, `count` counts each group of eight.
pub(crate) fn run_columns(buffer: &mut [i32], count: &mut LaneCount, columns: &Columns)
    requires columns { AreColumns columns.now buffer.old }
    ensures value { AreTransformed columns.now buffer.old buffer.new }
    ensures counts { count.new.groups ≡ raised count.old.groups (cosine_groups columns.now.kind (columns.now.count / 8)) }
{
    if columns.width < LANES {
        word_columns::<i32x4>(buffer, count, columns);
    } else {
        word_columns::<i32x8>(buffer, count, columns);
    }
}

/// Runs and counts groups of eight columns. Each column has `top` as its first value and zeros below it. Nothing reads
/// their results, since each is one product, `single_value`. The transform of a single value is the same at every
/// length, so four values are enough.
pub(crate) fn run_single(count: &mut LaneCount, top: i32, groups: usize, range: usize)
    requires range_in { (8 ≤ range) × (range ≤ 20) }
    requires fits { FitsBits range top }
    ensures { count.new.groups ≡ raised count.old.groups groups }
{
    // This tells the proof that the count is a u64.
    let _count = count.groups();
    if groups == 0 {
        return;
    }
    let zero = i32x8::splat(0);
    let (mut line, mut out) = (filled::<i32x8, 4>(zero), filled::<i32x8, 4>(zero));
    run_single_groups(&mut line, &mut out, count, top, groups, range);
}
