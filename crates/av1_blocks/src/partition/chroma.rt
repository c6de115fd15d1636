//! Maps a luma block size to its chroma block, its chroma transform, and the luma block its chroma belongs to. Pure.
#![tactic(auto)]

ghost use Rattle.std.specs.Prelude.{◌≡◌, ◌≤◌, pos, negsuc, ◌||◌, IfOk, IsOk, if◌then◌else◌};
ghost use Rattle.av1_blocks.specs.Chroma.{
  halved,
  halved_columns,
  subsampled_size,
  IsSubsampled,
  largest_chroma_tx_size,
  is_narrow,
  is_low,
  supersample_chroma_bsize,
};

use crate::partition::BlockSize::{self, *};
use crate::partition::InvalidBlockSize;
use crate::transform::{TxSize, coded_tx_size};

impl BlockSize {
    /// The block under this luma block in a plane with these decimations, in samples of that plane. It is the function
    /// `Subsampled_Size` of the AV1 specification.
    ///
    /// # Errors
    ///
    /// `InvalidBlockSize` for a block that is taller than wide if only the columns are decimated, and for decimations
    /// other than (0, 0), (1, 0) and (1, 1).
    #[inline]
    pub fn subsampled_size(self, xdec: usize, ydec: usize) -> Result<BlockSize, InvalidBlockSize>
        ensures value { result ≡ subsampled_size self xdec ydec }
        ensures sides { IfOk result (IsSubsampled self xdec ydec) }
    {
        match (xdec, ydec) {
            (0, 0) => Ok(self),
            (1, 0) => self.with_half_the_columns(),
            (1, 1) => Ok(self.with_half_the_sides()),
            _ => Err(InvalidBlockSize),
        }
    }

    /// The block with half of the columns, at least 4, and the same number of rows.
    #[inline]
    fn with_half_the_columns(self) -> Result<BlockSize, InvalidBlockSize>
        ensures { result ≡ halved_columns self }
    {
        Ok(match self {
            BLOCK_4X4 | BLOCK_8X4 => BLOCK_4X4,
            BLOCK_8X8 => BLOCK_4X8,
            BLOCK_16X8 => BLOCK_8X8,
            BLOCK_16X16 => BLOCK_8X16,
            BLOCK_32X16 => BLOCK_16X16,
            BLOCK_32X32 => BLOCK_16X32,
            BLOCK_64X32 => BLOCK_32X32,
            BLOCK_64X64 => BLOCK_32X64,
            BLOCK_128X64 => BLOCK_64X64,
            BLOCK_128X128 => BLOCK_64X128,
            BLOCK_16X4 => BLOCK_8X4,
            BLOCK_32X8 => BLOCK_16X8,
            BLOCK_64X16 => BLOCK_32X16,
            _ => return Err(InvalidBlockSize),
        })
    }

    /// The block with half of the columns and half of the rows, each at least 4.
    #[inline]
    fn with_half_the_sides(self) -> BlockSize
        ensures { result ≡ halved self }
    {
        match self {
            BLOCK_4X4 | BLOCK_4X8 | BLOCK_8X4 | BLOCK_8X8 => BLOCK_4X4,
            BLOCK_8X16 | BLOCK_4X16 => BLOCK_4X8,
            BLOCK_16X8 | BLOCK_16X4 => BLOCK_8X4,
            BLOCK_16X16 => BLOCK_8X8,
            BLOCK_16X32 => BLOCK_8X16,
            BLOCK_32X16 => BLOCK_16X8,
            BLOCK_32X32 => BLOCK_16X16,
            BLOCK_32X64 => BLOCK_16X32,
            BLOCK_64X32 => BLOCK_32X16,
            BLOCK_64X64 => BLOCK_32X32,
            BLOCK_64X128 => BLOCK_32X64,
            BLOCK_128X64 => BLOCK_64X32,
            BLOCK_128X128 => BLOCK_64X64,
            BLOCK_8X32 => BLOCK_4X16,
            BLOCK_32X8 => BLOCK_16X4,
            BLOCK_16X64 => BLOCK_8X32,
            BLOCK_64X16 => BLOCK_32X8,
        }
    }

    /// The coded size of the greatest transform of the chroma under this luma block, which has a chroma block.
    #[inline]
    pub fn largest_chroma_tx_size(self, xdec: usize, ydec: usize) -> TxSize
        requires { IsOk (subsampled_size self xdec ydec) }
        ensures { result ≡ largest_chroma_tx_size self xdec ydec }
    {
        let plane_block = self.subsampled_size(xdec, ydec).unwrap();
        coded_tx_size(plane_block.tx_size())
    }

    /// Whether the block has only 4 luma samples in a decimated direction, so that its chroma has fewer than 4.
    #[inline]
    pub fn is_sub8x8(self, xdec: usize, ydec: usize) -> bool
        ensures { result ≡ (is_narrow self xdec || is_low self ydec) }
    {
        xdec != 0 && self.width_log2() == 2 || ydec != 0 && self.height_log2() == 2
    }

    /// The offset in cells, right and down, of the block to which the chroma belongs: -1 in each direction in which
    /// this block's own chroma has fewer than 4 samples, else 0.
    #[inline]
    pub fn sub8x8_offset(self, xdec: usize, ydec: usize) -> (isize, isize)
        ensures across { result.0 ≡ (if is_narrow self xdec then negsuc 0 else pos 0) }
        ensures down { result.1 ≡ (if is_low self ydec then negsuc 0 else pos 0) }
    {
        let across = if xdec != 0 && self.width_log2() == 2 {
            -1
        } else {
            0
        };
        let down = if ydec != 0 && self.height_log2() == 2 {
            -1
        } else {
            0
        };
        (across, down)
    }
}

/// The luma block to which the chroma of this block belongs. It has at least 8 samples in each decimated direction. The
/// decimations are 0 or 1.
pub fn supersample_chroma_bsize(bsize: BlockSize, ss_x: usize, ss_y: usize) -> BlockSize
    requires across { ss_x ≤ 1 }
    requires down { ss_y ≤ 1 }
    ensures { result ≡ supersample_chroma_bsize bsize ss_x ss_y }
{
    match (bsize, ss_x, ss_y) {
        (BLOCK_4X4, 1, 1) => BLOCK_8X8,
        (BLOCK_4X4, 1, 0) => BLOCK_8X4,
        (BLOCK_4X4, 0, 1) => BLOCK_4X8,
        (BLOCK_4X8, 1, _) => BLOCK_8X8,
        (BLOCK_8X4, _, 1) => BLOCK_8X8,
        (BLOCK_4X16, 1, _) => BLOCK_8X16,
        (BLOCK_16X4, _, 1) => BLOCK_16X8,
        _ => bsize,
    }
}
