//! Looks up in tables whether samples above right and below left of a transform are coded before it. Pure.

ghost use Rattle.std.specs.Prelude.{ℕ, ◌≡◌, ◌<◌, ◌≤◌, ◌+◌, ◌*◌, ◌^◌, ◌/◌, ◌&&◌, false, length};
ghost use Rattle.av1_avail.specs.Agreement.{bottom_left_before, IsTile, IsWhole, IsNearSquare, run_length, top_right_before};
ghost use Rattle.av1_avail.specs.Availability.{table_bottom_left, table_top_right};
ghost use Rattle.av1_avail.specs.Bits.{bits_bottom_left, bits_top_right};
ghost use Rattle.av1_avail.specs.Cells.{block_columns, transform_columns, transform_rows};
ghost use Rattle.av1_avail.specs.Tables.{table_bit};

use crate::superblock::{SUPERBLOCK_CELLS, place_in_superblock, units_of_superblock};
use crate::tables::{get_has_bl_table, get_has_tr_table};
use av1_blocks::{BlockSize, MAX_MIB_SIZE_LOG2, TxSize};
use av1_frame::TileBlockOffset;

/// The number of a block in the tables' raster, whose rows are 128 samples wide.
#[inline]
fn number_in_raster(bsize: BlockSize, row: usize, column: usize) -> usize
    requires row { row < 16 }
    requires column { column < 16 }
    ensures { result ≡ row * (32 / block_columns bsize) + column }
{
    (row << (MAX_MIB_SIZE_LOG2 - bsize.width_mi_log2())) + column
}

/// Bit `i % 8` of entry `i / 8`.
#[inline]
fn bit_of(table: &[u8], i: usize) -> bool
    requires { i / 8 < length table.now }
    ensures { result ≡ table_bit table.now i }
{
    (table[i / 8] >> (i % 8)) & 1 == 1
}

/// Whether the samples above right of a transform are coded before it, if they lie in the frame.
#[inline]
#[tactic(auto, unfolding(crate::specs::Availability::table_top_right))]
fn top_right_by_table(
    bsize: BlockSize,
    partition_bo: TileBlockOffset,
    tx_size: TxSize,
    row_off: usize,
    col_off: usize,
    ss_x: usize,
) -> bool
    requires halved_x { ss_x ≤ 1 }
    requires col_fits { col_off < 2 ^ 16 }
    ensures { result ≡ table_top_right bsize partition_bo.0.x partition_bo.0.y (transform_columns tx_size) row_off col_off ss_x }
{
    let width = bsize.width_mi();
    let tx_width = tx_size.width_mi();
    if row_off > 0 && width > SUPERBLOCK_CELLS {
        let half = units_of_superblock(ss_x);
        return col_off % half + tx_width < half;
    }
    if col_off + tx_width < (width >> ss_x).max(1) {
        return true;
    }
    if row_off > 0 {
        return false;
    }
    let (row, column) = place_in_superblock(bsize, partition_bo);
    if row == 0 {
        return true;
    }
    if SUPERBLOCK_CELLS <= (column + 1) * width {
        return false;
    }
    bit_of(
        get_has_tr_table(bsize),
        number_in_raster(bsize, row, column),
    )
}

/// Whether the samples below left of a transform are coded before it, if they lie in the frame.
#[inline]
#[tactic(auto, unfolding(crate::specs::Availability::table_bottom_left))]
fn bottom_left_by_table(
    bsize: BlockSize,
    partition_bo: TileBlockOffset,
    tx_size: TxSize,
    row_off: usize,
    col_off: usize,
    ss_x: usize,
    ss_y: usize,
) -> bool
    requires halved_x { ss_x ≤ 1 }
    requires halved_y { ss_y ≤ 1 }
    requires row_fits { row_off < 2 ^ 16 }
    ensures { result ≡ table_bottom_left bsize partition_bo.0.x partition_bo.0.y (transform_rows tx_size) row_off col_off ss_x ss_y }
{
    let width = bsize.width_mi();
    let height = bsize.height_mi();
    let tx_height = tx_size.height_mi();
    if col_off > 0 {
        return width > SUPERBLOCK_CELLS
            && col_off % units_of_superblock(ss_x) == 0
            && row_off % units_of_superblock(ss_y) + tx_height
                < height.min(SUPERBLOCK_CELLS) >> ss_y;
    }
    if row_off + tx_height < (height >> ss_y).max(1) {
        return true;
    }
    let (row, column) = place_in_superblock(bsize, partition_bo);
    if column == 0 {
        return ((row * height) >> ss_y) + row_off + tx_height < units_of_superblock(ss_y);
    }
    if SUPERBLOCK_CELLS <= (row + 1) * height {
        return false;
    }
    bit_of(
        get_has_bl_table(bsize),
        number_in_raster(bsize, row, column),
    )
}

/// Whether the samples above right of a transform are coded before it: in the row above it, from its right end on, as
/// many as its lesser side.
///
/// `partition_bo` is a cell of the block of size `bsize`, counted from its tile's first cell; blocks of this size lie
/// side by side from there on. The transform begins `row_off` units below and `col_off` units right of the block's
/// first unit. A unit is 4x4 samples of the plane, whose decimations are `ss_x` and `ss_y`. `top_available` and
/// `right_available` say that the row above and the column on the right lie in the frame. If one doesn't, the result is
/// false.
///
/// For transforms that tile a block with sides up to 64, the result follows coding order. For all others it is rav1e's:
/// at the centre of a block 128 samples wide it is false, although those samples are coded before, as a comment in
/// rav1e says.
///
/// AV1 specification: transform block syntax (haveAboveRt).
pub fn has_top_right(
    bsize: BlockSize,
    partition_bo: TileBlockOffset,
    top_available: bool,
    right_available: bool,
    tx_size: TxSize,
    row_off: usize,
    col_off: usize,
    ss_x: usize,
    ss_y: usize,
) -> bool
    requires halved_x { ss_x ≤ 1 }
    requires halved_y { ss_y ≤ 1 }
    requires row_fits { row_off < 2 ^ 16 }
    requires col_fits { col_off < 2 ^ 16 }
    ensures by_table { result ≡
        (top_available && right_available && table_top_right bsize partition_bo.0.x partition_bo.0.y (transform_columns tx_size) row_off col_off ss_x) }
    // for each unit of the run, so the run is coded as a whole or not at all
    ensures by_order { (i : ℕ) → IsTile bsize tx_size row_off col_off ss_x ss_y → i < run_length tx_size →
        result ≡ (top_available && right_available && top_right_before bsize partition_bo.0.x partition_bo.0.y tx_size row_off col_off ss_x ss_y i) }
    // as `has_tr` returns
    ensures by_bits { IsNearSquare bsize → IsWhole bsize tx_size row_off col_off ss_x ss_y →
        result ≡ (top_available && right_available && bits_top_right bsize partition_bo.0.x partition_bo.0.y) }
    ensures centre { block_columns bsize ≡ 32 → row_off ≡ 16 / 2 ^ ss_y → col_off + transform_columns tx_size ≡ 16 / 2 ^ ss_x → result ≡ false }
{
    if !top_available || !right_available {
        return false;
    }
    top_right_by_table(bsize, partition_bo, tx_size, row_off, col_off, ss_x)
}

/// Whether the samples below left of a transform are coded before it: in the column left of it, from its lower end on,
/// as many as its lesser side.
///
/// The arguments are those of `has_top_right`. `bottom_available` and `left_available` say that the row below and the
/// column on the left lie in the frame. For transforms that tile a block with sides up to 64, the result follows coding
/// order. For all others it is rav1e's.
///
/// AV1 specification: transform block syntax (haveBelowLft).
pub fn has_bottom_left(
    bsize: BlockSize,
    partition_bo: TileBlockOffset,
    bottom_available: bool,
    left_available: bool,
    tx_size: TxSize,
    row_off: usize,
    col_off: usize,
    ss_x: usize,
    ss_y: usize,
) -> bool
    requires halved_x { ss_x ≤ 1 }
    requires halved_y { ss_y ≤ 1 }
    requires row_fits { row_off < 2 ^ 16 }
    requires col_fits { col_off < 2 ^ 16 }
    ensures by_table { result ≡
        (bottom_available && left_available && table_bottom_left bsize partition_bo.0.x partition_bo.0.y (transform_rows tx_size) row_off col_off ss_x ss_y) }
    // for each unit of the run, so the run is coded as a whole or not at all
    ensures by_order { (i : ℕ) → IsTile bsize tx_size row_off col_off ss_x ss_y → i < run_length tx_size →
        result ≡ (bottom_available && left_available && bottom_left_before bsize partition_bo.0.x partition_bo.0.y tx_size row_off col_off ss_x ss_y i) }
    // as `has_bl` returns
    ensures by_bits { IsNearSquare bsize → IsWhole bsize tx_size row_off col_off ss_x ss_y →
        result ≡ (bottom_available && left_available && bits_bottom_left bsize partition_bo.0.x partition_bo.0.y) }
{
    if !bottom_available || !left_available {
        return false;
    }
    bottom_left_by_table(bsize, partition_bo, tx_size, row_off, col_off, ss_x, ss_y)
}
