//! Tables of the partition tree: the cut that a mark names, and the sizes of the parts of a node.

ghost use Rattle.std.specs.Prelude.{◌≡◌, ◌*◌, ◌≤◌};
ghost use Rattle.av1_plan.specs.Grammar.{half_side, whole_size, part_size, cut_by};

use av1_blocks::BlockSize;
use av1_blocks::PartitionType::{self, *};

/// A part of a superblock, at column `x` and row `y` of luma.
#[derive(Copy, Clone, Debug, PartialEq, Eq)]
pub enum Part {
    /// A node of side `4 << level`, which begins with its mark.
    Node { level: u8, x: u16, y: u16 },
    /// A leaf of this size.
    Leaf { size: BlockSize, x: u16, y: u16 },
}

/// Half the side of a node of this level, which has side `4 << level`.
pub fn half_side(level: u8) -> u16
    requires { level ≤ 4 }
    ensures value { result ≡ half_side level }
    ensures small { result ≤ 32 }
{
    2 << level
}

/// The cut of a node, by its mark.
const CUTS: [PartitionType; 10] = [
    PARTITION_NONE,
    PARTITION_HORZ,
    PARTITION_VERT,
    PARTITION_SPLIT,
    PARTITION_HORZ_A,
    PARTITION_HORZ_B,
    PARTITION_VERT_A,
    PARTITION_VERT_B,
    PARTITION_HORZ_4,
    PARTITION_VERT_4,
];

/// The cut of a node with this mark.
#[tactic(auto, unfolding(crate::specs::Grammar::cut_by))]
pub fn cut_by(mark: u8) -> PartitionType
    requires { mark ≤ 9 }
    ensures { result ≡ cut_by mark }
{
    CUTS[usize::from(mark)]
}

/// The sizes of a leaf that is a whole node, by the node's level.
const WHOLE_SIZES: [BlockSize; 5] = [
    BlockSize::BLOCK_4X4,
    BlockSize::BLOCK_8X8,
    BlockSize::BLOCK_16X16,
    BlockSize::BLOCK_32X32,
    BlockSize::BLOCK_64X64,
];

/// The size of a leaf that is a whole node of this level.
#[tactic(auto, unfolding(crate::specs::Grammar::whole_size))]
pub fn whole_size(level: u8) -> BlockSize
    requires { level ≤ 4 }
    ensures { result ≡ whole_size level }
{
    WHOLE_SIZES[usize::from(level)]
}

/// The size of the parts of a node of this level with this cut. If the node can't be cut so, its own size.
#[tactic(auto, unfolding(crate::specs::Grammar::part_size))]
pub fn part_size(level: u8, partition: PartitionType) -> BlockSize
    requires { level ≤ 4 }
    ensures { result ≡ part_size level partition }
{
    let whole = whole_size(level);
    match whole.subsize(partition) {
        Ok(size) => size,
        Err(_) => whole,
    }
}
