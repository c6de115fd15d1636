//! Maps a block size and a partition to the size of the parts, or to an error if no block has that size. Pure.
#![tactic(auto)]

ghost use Rattle.std.specs.Prelude.{◌≡◌, IfOk};
ghost use Rattle.av1_blocks.specs.Parts.{subsize, Tiles, chosen_partitions, quarter_of, upper_half, left_half, top_stripe, left_stripe};

use crate::partition::BlockSize::{self, *};
use crate::partition::PartitionType::{self, *};
use crate::partition::{InvalidBlockSize, RAV1E_PARTITION_TYPES};

impl BlockSize {
    /// The size of a partition's parts. If the partition (such as `PARTITION_HORZ_A`) cuts one half once more, it is
    /// the size of the halves.
    ///
    /// # Errors
    ///
    /// `InvalidBlockSize` for `PARTITION_INVALID`. Also for any partition other than `PARTITION_NONE` if the block
    /// isn't square, or if no block has the part's width and height.
    pub fn subsize(self, partition: PartitionType) -> Result<BlockSize, InvalidBlockSize>
        ensures value { result ≡ subsize self partition }
        ensures tiles { IfOk result (Tiles self partition) }
    {
        match partition {
            PARTITION_NONE => Ok(self),
            PARTITION_SPLIT => self.quarter(),
            PARTITION_HORZ | PARTITION_HORZ_A | PARTITION_HORZ_B => self.upper_half(),
            PARTITION_VERT | PARTITION_VERT_A | PARTITION_VERT_B => self.left_half(),
            PARTITION_HORZ_4 => self.top_stripe(),
            PARTITION_VERT_4 => self.left_stripe(),
            PARTITION_INVALID => Err(InvalidBlockSize),
        }
    }

    /// A square of half the sides.
    #[inline]
    fn quarter(self) -> Result<BlockSize, InvalidBlockSize>
        ensures { result ≡ quarter_of self }
    {
        Ok(match self {
            BLOCK_8X8 => BLOCK_4X4,
            BLOCK_16X16 => BLOCK_8X8,
            BLOCK_32X32 => BLOCK_16X16,
            BLOCK_64X64 => BLOCK_32X32,
            BLOCK_128X128 => BLOCK_64X64,
            _ => return Err(InvalidBlockSize),
        })
    }

    /// The upper half of a square.
    #[inline]
    fn upper_half(self) -> Result<BlockSize, InvalidBlockSize>
        ensures { result ≡ upper_half self }
    {
        Ok(match self {
            BLOCK_8X8 => BLOCK_8X4,
            BLOCK_16X16 => BLOCK_16X8,
            BLOCK_32X32 => BLOCK_32X16,
            BLOCK_64X64 => BLOCK_64X32,
            BLOCK_128X128 => BLOCK_128X64,
            _ => return Err(InvalidBlockSize),
        })
    }

    /// The left half of a square.
    #[inline]
    fn left_half(self) -> Result<BlockSize, InvalidBlockSize>
        ensures { result ≡ left_half self }
    {
        Ok(match self {
            BLOCK_8X8 => BLOCK_4X8,
            BLOCK_16X16 => BLOCK_8X16,
            BLOCK_32X32 => BLOCK_16X32,
            BLOCK_64X64 => BLOCK_32X64,
            BLOCK_128X128 => BLOCK_64X128,
            _ => return Err(InvalidBlockSize),
        })
    }

    /// The uppermost of four stripes of a square.
    #[inline]
    fn top_stripe(self) -> Result<BlockSize, InvalidBlockSize>
        ensures { result ≡ top_stripe self }
    {
        Ok(match self {
            BLOCK_16X16 => BLOCK_16X4,
            BLOCK_32X32 => BLOCK_32X8,
            BLOCK_64X64 => BLOCK_64X16,
            _ => return Err(InvalidBlockSize),
        })
    }

    /// The leftmost of four stripes of a square.
    #[inline]
    fn left_stripe(self) -> Result<BlockSize, InvalidBlockSize>
        ensures { result ≡ left_stripe self }
    {
        Ok(match self {
            BLOCK_16X16 => BLOCK_4X16,
            BLOCK_32X32 => BLOCK_8X32,
            BLOCK_64X64 => BLOCK_16X64,
            _ => return Err(InvalidBlockSize),
        })
    }
}

/// The partitions that rav1e chooses from.
pub fn chosen_partitions()
    ensures { RAV1E_PARTITION_TYPES ≡ chosen_partitions }
{}
