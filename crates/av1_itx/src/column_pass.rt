//! The second pass: transforms each column of a block in place, in its buffer, and counts groups of eight columns.

ghost use Rattle.std.specs.Prelude.{◌≡◌, ◌*◌, ◌/◌, ◌<◌, ◌≤◌};
ghost use Rattle.av1_blocks.specs.Transforms.{tx_height, tx_width};
ghost use Rattle.av1_lists.specs.Counts.{raised};
ghost use Rattle.av1_itx.specs.LaneGroups.{lane_groups};
ghost use Rattle.av1_itx.specs.Residue.{column_power, column_range, row_shift};
ghost use Rattle.av1_itx.specs.Scaffolding.{AreColumns, AreTransformed, IsSmallWord, block_columns, column_bits};

use crate::block::Block;
use crate::columns::{Columns, run_columns, words_of};
use crate::kinds::{get_1d_tx_types, is_lossless};
use crate::words::BlockWord;
use av1_blocks::TxSize;
use av1_dct::LaneCount;

/// The number of bits by which values are rounded between the passes.
pub(crate) fn row_shift_of(tx_size: TxSize) -> usize
    ensures value { result ≡ row_shift tx_size }
    ensures small { result ≤ 2 }
{
    match tx_size {
        TxSize::TX_4X4 | TxSize::TX_4X8 | TxSize::TX_8X4 => 0,
        TxSize::TX_8X8
        | TxSize::TX_8X16
        | TxSize::TX_16X8
        | TxSize::TX_16X32
        | TxSize::TX_32X16
        | TxSize::TX_32X64
        | TxSize::TX_64X32
        | TxSize::TX_4X16
        | TxSize::TX_16X4 => 1,
        TxSize::TX_16X16
        | TxSize::TX_32X32
        | TxSize::TX_64X64
        | TxSize::TX_8X32
        | TxSize::TX_32X8
        | TxSize::TX_16X64
        | TxSize::TX_64X16 => 2,
    }
}

/// The number of bits to which values are clamped between the passes, and within the columns.
pub(crate) fn column_range_of(bd: usize) -> usize
    requires { (8 ≤ bd) × (bd ≤ 12) }
    ensures value { result ≡ column_range bd }
    ensures bounds { (16 ≤ result) × (result ≤ 18) }
{
    (bd + 6).max(16)
}

/// The number of bits that hold the inputs of the columns of a block. In lossless blocks AV1 does not clamp between the
/// passes, and their rows give no value of more than 20 bits.
pub(crate) fn column_bits_of(block: Block) -> usize
    requires { (8 ≤ block.bd) × (block.bd ≤ 12) }
    ensures value { result ≡ column_bits block }
    ensures bounds { (16 ≤ result) × (result ≤ 20) }
{
    if block.by_av1 && is_lossless(block.tx_type) {
        return 20;
    }
    column_range_of(block.bd)
}

// All columns of a block.
#[inline(always)]
fn columns_of(block: Block) -> Columns
    requires { (8 ≤ block.bd) × (block.bd ≤ 12) }
    ensures { result ≡ block_columns block }
{
    let (kind, _) = get_1d_tx_types(block.tx_type);
    Columns {
        kind,
        count: block.tx_size.width(),
        width: block.tx_size.width(),
        height: block.tx_size.height(),
        power: block.tx_size.height_log2() - 1,
        range: column_bits_of(block),
    }
}

/// Transforms each column of a block in place. `buffer` has the results of the rows, row by row. `count` counts the
/// groups of eight columns that take the cosine transform.
pub(crate) fn column_pass(buffer: &mut [i32], count: &mut LaneCount, block: Block)
    requires depth { (8 ≤ block.bd) × (block.bd ≤ 12) }
    requires columns { AreColumns (block_columns block) buffer.old }
    ensures value { AreTransformed (block_columns block) buffer.old buffer.new }
    ensures counts { count.new.groups ≡ raised count.old.groups (lane_groups block.tx_size block.tx_type) }
{
    run_columns(buffer, count, &columns_of(block));
}

/// As `column_pass`, for columns of N = 2^(K+1) rows, as many at a time as a word has lanes.
#[inline(always)]
pub(crate) fn column_pass_of<W: BlockWord, const K: usize, const N: usize>(
    buffer: &mut [i32],
    count: &mut LaneCount,
    block: Block,
)
    requires depth { (8 ≤ block.bd) × (block.bd ≤ 12) }
    requires some { 0 < W.LANES }
    requires small { IsSmallWord W.row }
    requires whole { W.LANES * (tx_width block.tx_size / W.LANES) ≡ tx_width block.tx_size }
    requires counted { tx_width block.tx_size / W.LANES * W.COUNTED ≡ tx_width block.tx_size / 8 }
    requires height { tx_height block.tx_size ≡ N }
    requires power { column_power block.tx_size ≡ K }
    requires columns { AreColumns (block_columns block) buffer.old }
    ensures value { AreTransformed (block_columns block) buffer.old buffer.new }
    ensures counts { count.new.groups ≡ raised count.old.groups (lane_groups block.tx_size block.tx_type) }
{
    words_of::<W, K, N>(buffer, count, &columns_of(block));
}
