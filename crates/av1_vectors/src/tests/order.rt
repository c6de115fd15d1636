// Tests whether tables and bits say that samples above right are coded before a block.
use super::support::same;
use av1_avail::{has_top_right, has_tr};
use av1_blocks::{BlockSize, TxSize};
use av1_frame::{BlockOffset, TileBlockOffset};

/// The cell at column `x` of row `y` of a tile.
fn cell(x: usize, y: usize) -> TileBlockOffset {
    TileBlockOffset(BlockOffset { x, y })
}

/// Whether the samples above right of a 4x4 block at this cell are coded before the block.
fn is_before(x: usize, y: usize) -> bool {
    has_tr(cell(x, y), BlockSize::BLOCK_4X4)
}

#[test]
fn above_right_is_coded_before_some_blocks(rt: HostRuntime) {
    same(&rt, is_before(1, 1), false, "column 1, row 1");
    same(&rt, is_before(1, 2), true, "column 1, row 2");
    same(&rt, is_before(3, 2), false, "column 3, row 2");
}

#[test]
fn of_the_narrowest_blocks_the_tables_know_more_than_the_bits(rt: HostRuntime) {
    let (size, tx_size) = (BlockSize::BLOCK_4X16, TxSize::TX_4X16);
    let by_table = has_top_right(size, cell(5, 4), true, true, tx_size, 0, 0, 0, 0);
    same(&rt, by_table, true, "by the tables");
    same(&rt, has_tr(cell(5, 4), size), false, "by the bits");
}
