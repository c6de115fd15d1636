//! Superblocks of 64x64 luma samples: their dimensions, and where in its superblock a cell lies. Pure arithmetic.

ghost use Rattle.std.specs.Prelude.{◌≡◌, ◌<◌, ◌≤◌, ◌/◌, ◌%◌, ◌^◌};
ghost use Rattle.av1_avail.specs.Cells.{block_columns, block_rows};

use av1_blocks::BlockSize;
use av1_frame::TileBlockOffset;

/// The logarithm to base 2 of a superblock's side in cells.
pub const SUPERBLOCK_LOG2: usize = 4;

/// A superblock's side in cells.
pub const SUPERBLOCK_CELLS: usize = 1 << SUPERBLOCK_LOG2;

/// A superblock's side in units of a plane with the decimation `ss`.
#[inline]
pub fn units_of_superblock(ss: usize) -> usize
    requires { ss ≤ 1 }
    ensures value { result ≡ 16 / 2 ^ ss }
    ensures some { 0 < result }
{
    SUPERBLOCK_CELLS >> ss
}

/// The row and column of blocks of a size in which a cell lies, counted from the corner of its superblock.
#[inline]
pub fn place_in_superblock(bsize: BlockSize, bo: TileBlockOffset) -> (usize, usize)
    ensures row { result.0 ≡ bo.0.y % 16 / block_rows bsize }
    ensures column { result.1 ≡ bo.0.x % 16 / block_columns bsize }
{
    (
        (bo.0.y % SUPERBLOCK_CELLS) >> bsize.height_mi_log2(),
        (bo.0.x % SUPERBLOCK_CELLS) >> bsize.width_mi_log2(),
    )
}
