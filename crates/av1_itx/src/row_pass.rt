//! The first pass: reads a block's coefficients, transforms each row, and writes the results to the block's buffer.
//!
//! Coefficients are stored column by column, so neighbours belong to different rows. A word has a coefficient of one
//! row in each lane. These rows are transformed side by side, and written to the buffer row by row. Nothing allocates.
//! The columns are transformed afterwards (`column_pass`).

ghost use Rattle.std.specs.Prelude.{◌≡◌, true, ℕ, ◌+◌, ◌*◌, ◌/◌, ◌<◌, ◌≤◌, ◌==◌, if◌then◌else◌, pos, ◌*ℤ◌, length, map, ◌⊎◌};
ghost use Rattle.std.specs.Int.{int_shr};
ghost use Rattle.av1_blocks.specs.Transforms.{tx_width, tx_height, coded};
ghost use Rattle.av1_dct.specs.Arithmetic.{at, clamp_value, AllFit, FitsBits};
ghost use Rattle.av1_dct.specs.Word.{column};
ghost use Rattle.av1_frame.specs.Arithmetic.{round_shift};
ghost use Rattle.av1_lists.specs.Lists.{by_index};
ghost use Rattle.av1_itx.specs.Residue.{column_value, is_lossless, is_two_to_one, row_input, row_power, row_range, transformed_row};
ghost use Rattle.av1_itx.specs.Scaffolding.{AreCoefficients, AreRowsDone, IsSmallWord};

use crate::block::Block;
use crate::column_pass::{column_bits_of, row_shift_of};
use crate::columns::{LANES, filled};
use crate::kinds::{is_lossless, row_kind_of};
use crate::networks::inverse_1d;
use crate::words::BlockWord;
use av1_blocks::{INV_SQRT2, TxSize, TxType};
use av1_dct::LaneCount;
use av1_frame::Coefficient;
use std::simd::prelude::*;

/// The number of values that are cleared at once.
const PIECE: usize = 256;

/// If a block has a side of at least this length, its rows are read only up to the last column with a coefficient. In
/// smaller blocks a loop of constant length costs less.
const LONG_SIDE: usize = 16;

/// How the coefficients of a block are scaled before its rows are transformed.
#[derive(Copy, Clone)]
pub(crate) struct Scaling {
    /// By the square root of one half, if one side is twice the other.
    two_to_one: bool,
    /// By one quarter, in a lossless block.
    lossless: bool,
}

pub(crate) fn scaling_of(tx_size: TxSize, tx_type: TxType) -> Scaling
    ensures two_to_one { result.two_to_one ≡ is_two_to_one tx_size }
    ensures lossless { result.lossless ≡ is_lossless tx_type }
{
    let (width, height) = (tx_size.width(), tx_size.height());
    Scaling {
        two_to_one: width == 2 * height || height == 2 * width,
        lossless: is_lossless(tx_type),
    }
}

/// Coefficients, scaled and clamped, as the rows take them.
#[inline(always)]
pub(crate) fn scaled<W: BlockWord>(z: W, scaling: Scaling, bd: usize) -> W
    requires depth_in { (8 ≤ bd) × (bd ≤ 12) }
    requires fits { (i : ℕ) → i < W.LANES → FitsBits (bd + 8) (W.lane_of z i) }
    ensures { (i : ℕ) → i < W.LANES → W.lane_of result i ≡
        clamp_value (if scaling.two_to_one then round_shift (pos 2896 *ℤ W.lane_of z i) 12
        else if scaling.lossless then int_shr (W.lane_of z i) 2 else W.lane_of z i) (row_range bd) }
{
    if scaling.two_to_one {
        return W::turn(INV_SQRT2, z, 0, z).clamp_to(bd + 8);
    }
    if scaling.lossless {
        return z.halve().halve().clamp_to(bd + 8);
    }
    z.clamp_to(bd + 8)
}

/// The coefficient at a place. Past the last it is 0.
#[inline(always)]
pub(crate) fn coefficient_at<C: Coefficient>(input: &[C], place: usize) -> i32
    ensures { result ≡ at (map C.val input.now) place }
{
    if input.len() <= place {
        return 0;
    }
    input[place].to_i32()
}

// The coefficients from place `start` on, one in each lane, if the list ends before the last lane.
#[inline(never)]
fn last_word<C: Coefficient, W: BlockWord>(input: &[C], start: usize) -> W
    requires lanes { W.LANES ≤ 8 }
    requires few { start ≤ 2048 }
    ensures { (i : ℕ) → i < W.LANES → W.lane_of result i ≡ at (map C.val input.now) (start + i) }
{
    let mut lanes = [0; 8];
    for i in 0..W::LANES {
        lanes[i] = coefficient_at(input, start + i);
    }
    W::read(&lanes, 0)
}

// The coefficients from place `start` on, one in each lane, if the list has them all.
#[inline(always)]
fn whole_word<C: Coefficient, W: BlockWord>(input: &[C], start: usize) -> W
    requires lanes { W.LANES ≤ 8 }
    requires all { start + W.LANES ≤ length input.now }
    ensures { (i : ℕ) → i < W.LANES → W.lane_of result i ≡ at (map C.val input.now) (start + i) }
{
    let mut lanes = [0; 8];
    for i in 0..W::LANES {
        let place = start + i;
        lanes[i] = input[place].to_i32();
    }
    W::read(&lanes, 0)
}

// The coefficients from place `start` on, one in each lane.
#[inline(always)]
fn word_at<C: Coefficient, W: BlockWord>(input: &[C], start: usize) -> W
    requires lanes { W.LANES ≤ 8 }
    requires few { start ≤ 2048 }
    ensures { (i : ℕ) → i < W.LANES → W.lane_of result i ≡ at (map C.val input.now) (start + i) }
{
    if start + W::LANES <= input.len() {
        return whole_word(input, start);
    }
    if input.len() <= start {
        return W::splat(0);
    }
    last_word(input, start)
}

// The inputs of the rows from r on at column c, one in each lane.
#[inline(always)]
fn row_word<C: Coefficient, W: BlockWord>(input: &[C], c: usize, r: usize, block: Block) -> W
    requires lanes { W.LANES ≤ 8 }
    requires block { AreCoefficients C.val block input.now }
    requires rows_in { r + W.LANES ≤ coded (tx_height block.tx_size) }
    requires column_in { c < tx_width block.tx_size }
    requires few { c < 32 }
    ensures { (i : ℕ) → i < W.LANES → W.lane_of result i ≡ row_input block.tx_size block.tx_type block.bd (map C.val input.now) (r + i) c }
{
    let rows = block.tx_size.height().min(32);
    let word = word_at::<C, W>(input, c * rows + r);
    scaled(word, scaling_of(block.tx_size, block.tx_type), block.bd)
}

// The number of columns to read: all of a small block, and otherwise those up to the last that may have a coefficient.
// Columns from 32 on have none.
#[inline(always)]
fn given_columns<C: Coefficient>(input: &[C], width: usize, block: Block) -> usize
    requires width_is { width ≡ tx_width block.tx_size }
    ensures within { result ≤ tx_width block.tx_size }
    ensures few { result ≤ 32 }
    ensures rest { (r c : ℕ) → result ≤ c → row_input block.tx_size block.tx_type block.bd (map C.val input.now) r c ≡ pos 0 }
{
    let rows = block.tx_size.height().min(32);
    let longer = width.max(rows);
    if longer < LONG_SIDE {
        return width;
    }
    (input.len() / rows + 1).min(width.min(32))
}

// Sets the words from position `start` on to 0.
#[inline(always)]
fn clear_from<W: BlockWord>(line: &mut [W], start: usize)
    ensures kept { (i c : ℕ) → i < W.LANES → c < start → at (column W.lane_of i line.new) c ≡ at (column W.lane_of i line.old) c }
    ensures rest { (i c : ℕ) → i < W.LANES → start ≤ c → at (column W.lane_of i line.new) c ≡ pos 0 }
{
    for c in start..line.len() {
        line[c] = W::splat(0);
    }
}

// The inputs of the rows from r on, one row in each lane. Columns from `given` on have no coefficients.
#[inline(always)]
fn fill_line<C: Coefficient, W: BlockWord>(
    input: &[C],
    line: &mut [W],
    r: usize,
    given: usize,
    block: Block,
)
    requires lanes { W.LANES ≤ 8 }
    requires block { AreCoefficients C.val block input.now }
    requires rows_in { r + W.LANES ≤ coded (tx_height block.tx_size) }
    requires line_len { length line.old ≡ tx_width block.tx_size }
    requires given_in { given ≤ tx_width block.tx_size }
    requires few { given ≤ 32 }
    requires rest { (q c : ℕ) → given ≤ c → row_input block.tx_size block.tx_type block.bd (map C.val input.now) q c ≡ pos 0 }
    ensures { (i : ℕ) → i < W.LANES → column W.lane_of i line.new ≡
        by_index (tx_width block.tx_size) (row_input block.tx_size block.tx_type block.bd (map C.val input.now) (r + i)) }
{
    for c in 0..given {
        line[c] = row_word(input, c, r, block);
    }
    clear_from(line, given);
}

// Whether all lanes of the first `given` words are 0.
#[inline(always)]
fn are_zero<W: BlockWord>(line: &[W], given: usize) -> bool
    requires given_in { given ≤ length line.now }
    ensures { result ≡ true → (i c : ℕ) → i < W.LANES → c < given → at (column W.lane_of i line.now) c ≡ pos 0 }
{
    for c in 0..given {
        let word = line[c];
        if !word.is_zero() {
            return false;
        }
    }
    true
}

// Sets each value of a piece to 0.
#[inline(never)]
fn clear_piece(line: &mut [i32])
    ensures { (i : ℕ) → at line.new i ≡ pos 0 }
{
    for v in line.iter_mut() {
        *v = 0;
    }
}

// Sets each value to 0, a piece at a time: clearing more than 2,048 bytes at once takes longer to begin.
#[inline(always)]
fn clear(line: &mut [i32])
    ensures { (i : ℕ) → at line.new i ≡ pos 0 }
{
    let pieces = line.len() / PIECE;
    for g in 0..pieces {
        clear_piece(&mut line[g * PIECE..g * PIECE + PIECE]);
    }
    clear_piece(&mut line[pieces * PIECE..]);
}

// The result of a row as the columns take it: rounded by `shift` bits, and clamped.
#[inline(always)]
fn rounded<W: BlockWord>(z: W, shift: usize, range: usize) -> W
    requires shift_in { shift ≤ 2 }
    requires range_in { (8 ≤ range) × (range ≤ 20) }
    requires fits { (i : ℕ) → i < W.LANES → FitsBits 24 (W.lane_of z i) }
    ensures { (i : ℕ) → i < W.LANES → W.lane_of result i ≡ clamp_value (round_shift (W.lane_of z i) shift) range }
{
    match shift {
        0 => z.clamp_to(range),
        1 => z.plus(W::splat(1)).halve().clamp_to(range),
        _ => z.plus(W::splat(2)).halve().halve().clamp_to(range),
    }
}

// Writes the lanes of a word down column c of rows of w values.
#[inline(always)]
fn spread_word<W: BlockWord>(part: &mut [i32], word: W, c: usize, w: usize)
    requires column_in { c < w }
    requires few { w ≤ 64 }
    requires lanes { W.LANES ≤ 8 }
    requires part_len { length part.old ≡ W.LANES * w }
    ensures { (i q : ℕ) → i < W.LANES → q < w → at part.new (i * w + q) ≡ (if q == c then W.lane_of word i else at part.old (i * w + q)) }
{
    for i in 0..W::LANES {
        part[i * w + c] = word.lane(i);
    }
}

// Writes rows, one in each lane of a line, rounded and clamped.
#[inline(always)]
fn write_rows<W: BlockWord>(line: &[W], part: &mut [i32], shift: usize, range: usize)
    requires few { length line.now ≤ 64 }
    requires lanes { W.LANES ≤ 8 }
    requires shift_in { shift ≤ 2 }
    requires range_in { (8 ≤ range) × (range ≤ 20) }
    requires part_len { length part.old ≡ W.LANES * length line.now }
    requires fit { (i : ℕ) → i < W.LANES → AllFit 24 (column W.lane_of i line.now) }
    ensures { (i c : ℕ) → i < W.LANES → c < length line.now →
        at part.new (i * length line.now + c) ≡ clamp_value (round_shift (at (column W.lane_of i line.now) c) shift) range }
{
    let w = line.len();
    for c in 0..w {
        let word = line[c];
        spread_word(part, rounded(word, shift, range), c, w);
    }
}

// Transforms the rows from r on, one in each lane, and writes them to `part`. Rows of zeros are not transformed.
#[inline(always)]
fn run_group<C: Coefficient, W: BlockWord, const K: usize>(
    input: &[C],
    line: &mut [W],
    transformed: &mut [W],
    part: &mut [i32],
    r: usize,
    given: usize,
    block: Block,
)
    requires lanes { W.LANES ≤ 8 }
    requires block { AreCoefficients C.val block input.now }
    requires power { K ≡ row_power block.tx_size }
    requires rows_in { r + W.LANES ≤ coded (tx_height block.tx_size) }
    requires given_in { given ≤ tx_width block.tx_size }
    requires few { given ≤ 32 }
    requires rest { (q c : ℕ) → given ≤ c → row_input block.tx_size block.tx_type block.bd (map C.val input.now) q c ≡ pos 0 }
    requires line_len { length line.old ≡ tx_width block.tx_size }
    requires transformed_len { length transformed.old ≡ tx_width block.tx_size }
    requires part_len { length part.old ≡ W.LANES * tx_width block.tx_size }
    ensures { (i c : ℕ) → i < W.LANES → c < tx_width block.tx_size → at part.new (i * tx_width block.tx_size + c) ≡
        column_value block.by_av1 block.tx_size block.tx_type block.bd
        (at (transformed_row block.by_av1 block.tx_size block.tx_type block.bd (map C.val input.now) (r + i)) c) }
{
    fill_line(input, line, r, given, block);
    if are_zero(line, given) {
        clear(part);
        return;
    }
    let kind = row_kind_of(block.tx_type, block.by_av1);
    inverse_1d(
        kind,
        K,
        &mut LaneCount::new(),
        line,
        transformed,
        block.bd + 8,
    );
    write_rows(
        transformed,
        part,
        row_shift_of(block.tx_size),
        column_bits_of(block),
    );
}

/// As `row_pass`, for rows of N = 2^(K+1) values, as many at a time as a word has lanes.
#[inline(always)]
pub(crate) fn rows_of<C: Coefficient, W: BlockWord, const K: usize, const N: usize>(
    input: &[C],
    buffer: &mut [i32],
    block: Block,
)
    requires lanes { (W.LANES ≡ 4) ⊎ (W.LANES ≡ 8) }
    requires small { IsSmallWord W.row }
    requires whole { W.LANES * (coded (tx_height block.tx_size) / W.LANES) ≡ coded (tx_height block.tx_size) }
    requires block { AreCoefficients C.val block input.now }
    requires width { tx_width block.tx_size ≡ N }
    requires power { K ≡ row_power block.tx_size }
    requires buffer_len { length buffer.old ≡ tx_height block.tx_size * tx_width block.tx_size }
    ensures { AreRowsDone block (map C.val input.now) buffer.new }
{
    let zero = W::splat(0);
    let (mut line, mut transformed) = (filled::<W, N>(zero), filled::<W, N>(zero));
    let m = W::LANES;
    let rows = block.tx_size.height().min(32);
    let n = m * N;
    let given = given_columns(input, N, block);
    for g in 0..rows / m {
        let part = &mut buffer[g * n..g * n + n];
        run_group::<C, W, K>(
            input,
            &mut line,
            &mut transformed,
            part,
            m * g,
            given,
            block,
        );
    }
    clear(&mut buffer[rows * N..]);
}

// Transforms all rows, each length by code of its own.
fn rows_by_width<C: Coefficient, W: BlockWord>(input: &[C], buffer: &mut [i32], block: Block)
    requires lanes { (W.LANES ≡ 4) ⊎ (W.LANES ≡ 8) }
    requires small { IsSmallWord W.row }
    requires whole { W.LANES * (coded (tx_height block.tx_size) / W.LANES) ≡ coded (tx_height block.tx_size) }
    requires block { AreCoefficients C.val block input.now }
    requires buffer_len { length buffer.old ≡ tx_height block.tx_size * tx_width block.tx_size }
    ensures { AreRowsDone block (map C.val input.now) buffer.new }
{
    match block.tx_size.width() {
        4 => rows_of::<C, W, 1, 4>(input, buffer, block),
        8 => rows_of::<C, W, 2, 8>(input, buffer, block),
        16 => rows_of::<C, W, 3, 16>(input, buffer, block),
        32 => rows_of::<C, W, 4, 32>(input, buffer, block),
        _ => rows_of::<C, W, 5, 64>(input, buffer, block),
    }
}

/// Transforms each row of a block and writes the inputs of the columns: the results rounded and clamped. By AV1's rule
/// they are not clamped in lossless blocks. `buffer` gets the block row by row; the rows from 32 on are zeros.
pub(crate) fn row_pass<C: Coefficient>(input: &[C], buffer: &mut [i32], block: Block)
    requires block { AreCoefficients C.val block input.now }
    requires buffer_len { length buffer.old ≡ tx_height block.tx_size * tx_width block.tx_size }
    ensures { AreRowsDone block (map C.val input.now) buffer.new }
{
    if block.tx_size.height() < LANES {
        rows_by_width::<C, i32x4>(input, buffer, block);
    } else {
        rows_by_width::<C, i32x8>(input, buffer, block);
    }
}
