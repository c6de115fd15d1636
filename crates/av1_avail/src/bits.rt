//! Finds from the bits of a block's position whether cells above right and below left are coded before it. Pure.

ghost use Rattle.std.specs.Prelude.{◌≡◌, ◌-◌};
ghost use Rattle.av1_avail.specs.Agreement.{bottom_left_earlier, IsNearSquare, top_right_earlier};
ghost use Rattle.av1_avail.specs.Bits.{bits_bottom_left, bits_top_right, reaches_lower_right};

use crate::superblock::{SUPERBLOCK_CELLS, SUPERBLOCK_LOG2};
use av1_blocks::BlockSize;
use av1_frame::TileBlockOffset;

/// Whether the way up the quadtree of a superblock, from the node of `2^shift` cells a side that holds column `x` of
/// row `y`, goes through upper right quarters to a lower right one. The cells right of that come later.
///
/// ```text
/// +-------+-------+
/// |  no   |  up   |    Bit k of the column and of the row say which quarter of a node of 2^(k+1) cells
/// +-------+-------+    it is. `up` asks the same of the node around it, and past the superblock the
/// |  no   |  yes  |    answer is no.
/// +-------+-------+
/// ```
#[inline]
fn reaches_lower_right(x: usize, y: usize, shift: usize) -> bool
    ensures { result ≡ reaches_lower_right (4 - shift) x y }
{
    for k in shift..SUPERBLOCK_LOG2 {
        if (x >> k) & 1 == 0 {
            return false;
        }
        if (y >> k) & 1 == 1 {
            return true;
        }
    }
    false
}

/// Whether the cell above right of a block is coded before it, by the bits of its position.
#[inline]
#[tactic(auto, unfolding(crate::specs::Bits::bits_top_right))]
fn top_right_by_bits(bo: TileBlockOffset, bsize: BlockSize) -> bool
    ensures { result ≡ bits_top_right bsize bo.0.x bo.0.y }
{
    let width = bsize.width_mi_log2();
    let height = bsize.height_mi_log2();
    let side = width.max(height);
    if side > SUPERBLOCK_LOG2 || height < width && (bo.0.y >> height) & 1 == 1 {
        return false;
    }
    if width < height && (bo.0.x >> width) & 1 == 0 {
        return true;
    }
    !reaches_lower_right(bo.0.x, bo.0.y, side)
}

/// Whether the cell below left of a block is coded before it, by the bits of its position.
#[inline]
#[tactic(auto, unfolding(crate::specs::Bits::bits_bottom_left))]
fn bottom_left_by_bits(bo: TileBlockOffset, bsize: BlockSize) -> bool
    ensures { result ≡ bits_bottom_left bsize bo.0.x bo.0.y }
{
    let width = bsize.width_mi_log2();
    let height = bsize.height_mi_log2();
    let side = width.max(height);
    if side > SUPERBLOCK_LOG2 {
        return false;
    }
    if height < width && (bo.0.y >> height) & 1 == 0 {
        return true;
    }
    if width < height && (bo.0.x >> width) & 1 == 1 {
        return false;
    }
    reaches_lower_right(
        SUPERBLOCK_CELLS - 1 - bo.0.x % SUPERBLOCK_CELLS,
        SUPERBLOCK_CELLS - 1 - bo.0.y % SUPERBLOCK_CELLS,
        side,
    )
}

/// Whether the cell right of a block and one row above it is coded before it. The block holds the cell `bo`, counted
/// from its tile's first cell, among others of its size from there on.
///
/// The frame's ends have no effect. For squares and 2:1 sizes up to 64 the result follows coding order, and equals the
/// result of `has_top_right` for a transform as large as the block. For the 4:1 sizes it is rav1e's and may differ from
/// both. For sizes with a side of 128 it is false.
pub fn has_tr(bo: TileBlockOffset, bsize: BlockSize) -> bool
    ensures by_bits { result ≡ bits_top_right bsize bo.0.x bo.0.y }
    ensures by_order { IsNearSquare bsize → result ≡ top_right_earlier bsize bo.0.x bo.0.y }
{
    top_right_by_bits(bo, bsize)
}

/// Whether the cell left of a block and one row below it is coded before it. The block holds the cell `bo`, counted
/// from its tile's first cell, among others of its size from there on.
///
/// The frame's ends have no effect. For squares and 2:1 sizes up to 64 the result follows coding order, and equals the
/// result of `has_bottom_left` for a transform as large as the block. For the 4:1 sizes it is rav1e's and may differ
/// from both. For sizes with a side of 128 it is false.
pub fn has_bl(bo: TileBlockOffset, bsize: BlockSize) -> bool
    ensures by_bits { result ≡ bits_bottom_left bsize bo.0.x bo.0.y }
    ensures by_order { IsNearSquare bsize → result ≡ bottom_left_earlier bsize bo.0.x bo.0.y }
{
    bottom_left_by_bits(bo, bsize)
}
