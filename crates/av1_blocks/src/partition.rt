//! The types of references, partitions and block sizes, and the constants that belong to them.
#![tactic(auto)]

mod block_size;
mod chroma;
mod reference;
mod subsize;

pub use block_size::{block_size_counts, sizes_compare_by_sides};
pub use chroma::supersample_chroma_bsize;
pub use reference::{motion_contexts, reference_counts, reference_pairs};
pub use subsize::chosen_partitions;

/// The frame that a block is predicted from. `LAST_FRAME` to `ALTREF_FRAME` are the seven reference
/// slots of a frame.
#[derive(Copy, Clone, Debug, PartialEq, Eq, PartialOrd)]
pub enum RefType {
    INTRA_FRAME,
    LAST_FRAME,
    LAST2_FRAME,
    LAST3_FRAME,
    GOLDEN_FRAME,
    BWDREF_FRAME,
    ALTREF2_FRAME,
    ALTREF_FRAME,
    NONE_FRAME,
}

impl RefType {
    /// Every reference, in the order of their numbers.
    pub const ALL: [RefType; 9] = [
        RefType::INTRA_FRAME,
        RefType::LAST_FRAME,
        RefType::LAST2_FRAME,
        RefType::LAST3_FRAME,
        RefType::GOLDEN_FRAME,
        RefType::BWDREF_FRAME,
        RefType::ALTREF2_FRAME,
        RefType::ALTREF_FRAME,
        RefType::NONE_FRAME,
    ];
}

/// The references to other frames, in the order of their slots.
pub const ALL_INTER_REFS: [RefType; 7] = [
    RefType::LAST_FRAME,
    RefType::LAST2_FRAME,
    RefType::LAST3_FRAME,
    RefType::GOLDEN_FRAME,
    RefType::BWDREF_FRAME,
    RefType::ALTREF2_FRAME,
    RefType::ALTREF_FRAME,
];

/// The number of the one-directional pair of `LAST_FRAME` and `LAST2_FRAME`.
pub const LAST_LAST2_FRAMES: usize = 0;

/// The number of the one-directional pair of `LAST_FRAME` and `LAST3_FRAME`.
pub const LAST_LAST3_FRAMES: usize = 1;

/// The number of the one-directional pair of `LAST_FRAME` and `GOLDEN_FRAME`.
pub const LAST_GOLDEN_FRAMES: usize = 2;

/// The number of the one-directional pair of `BWDREF_FRAME` and `ALTREF_FRAME`.
pub const BWDREF_ALTREF_FRAMES: usize = 3;

/// The number of the one-directional pair of `LAST2_FRAME` and `LAST3_FRAME`.
pub const LAST2_LAST3_FRAMES: usize = 4;

/// The number of the one-directional pair of `LAST2_FRAME` and `GOLDEN_FRAME`.
pub const LAST2_GOLDEN_FRAMES: usize = 5;

/// The number of the one-directional pair of `LAST3_FRAME` and `GOLDEN_FRAME`.
pub const LAST3_GOLDEN_FRAMES: usize = 6;

/// The number of the one-directional pair of `BWDREF_FRAME` and `ALTREF2_FRAME`.
pub const BWDREF_ALTREF2_FRAMES: usize = 7;

/// The number of the one-directional pair of `ALTREF2_FRAME` and `ALTREF_FRAME`.
pub const ALTREF2_ALTREF_FRAMES: usize = 8;

/// The number of one-directional pairs of references.
pub const TOTAL_UNIDIR_COMP_REFS: usize = 9;

/// The number of one-directional pairs of references that a bitstream can name.
pub const UNIDIR_COMP_REFS: usize = BWDREF_ALTREF_FRAMES + 1;

/// The number of forward references.
pub const FWD_REFS: usize = 4;

/// The number of backward references.
pub const BWD_REFS: usize = 3;

/// The number of references from which a block with a single reference chooses.
pub const SINGLE_REFS: usize = 7;

/// The number of references of a frame, intra prediction included.
pub const TOTAL_REFS_PER_FRAME: usize = 8;

/// The number of references of a frame to other frames.
pub const INTER_REFS_PER_FRAME: usize = 7;

/// The number of pairs of references, in one direction or two.
pub const TOTAL_COMP_REFS: usize = FWD_REFS * BWD_REFS + TOTAL_UNIDIR_COMP_REFS;

/// The logarithm to base 2 of the number of frame slots.
pub const REF_FRAMES_LOG2: usize = 3;

/// The number of frame slots of a decoder.
pub const REF_FRAMES: usize = 1 << REF_FRAMES_LOG2;

/// The number of contexts in which a reference is coded.
pub const REF_CONTEXTS: usize = 3;

/// The number of columns and rows of neighbours that are searched for motion vectors.
pub const MVREF_ROW_COLS: usize = 3;

/// The number of contexts in which a new motion vector's mode is coded.
pub const NEWMV_MODE_CONTEXTS: usize = 7;

/// The number of contexts in which the global motion mode is coded.
pub const GLOBALMV_MODE_CONTEXTS: usize = 2;

/// The number of contexts in which the reference motion mode is coded.
pub const REFMV_MODE_CONTEXTS: usize = 6;

/// The number of compound inter modes.
pub const INTER_COMPOUND_MODES: usize = 8;

/// The first bit of the reference motion mode's context.
pub const REFMV_OFFSET: usize = 4;

/// The first bit of the global motion mode's context.
pub const GLOBALMV_OFFSET: usize = 3;

/// The bits of the new motion vector's context.
pub const NEWMV_CTX_MASK: usize = (1 << GLOBALMV_OFFSET) - 1;

/// The bits of the global motion mode's context, once they are shifted to the lowest.
pub const GLOBALMV_CTX_MASK: usize = (1 << (REFMV_OFFSET - GLOBALMV_OFFSET)) - 1;

/// The bits of the reference motion mode's context, once they are shifted to the lowest.
pub const REFMV_CTX_MASK: usize = (1 << (8 - REFMV_OFFSET)) - 1;

/// How a block is cut into parts.
#[derive(Copy, Clone, Debug, PartialEq, Eq, PartialOrd)]
pub enum PartitionType {
    /// One part, the block itself.
    PARTITION_NONE,
    /// An upper and a lower half.
    PARTITION_HORZ,
    /// A left and a right half.
    PARTITION_VERT,
    /// Four quarters.
    PARTITION_SPLIT,
    /// Two quarters above a lower half.
    PARTITION_HORZ_A,
    /// An upper half above two quarters.
    PARTITION_HORZ_B,
    /// Two quarters beside a right half.
    PARTITION_VERT_A,
    /// A left half beside two quarters.
    PARTITION_VERT_B,
    /// Four stripes above one another.
    PARTITION_HORZ_4,
    /// Four stripes side by side.
    PARTITION_VERT_4,
    /// Not a valid partition.
    PARTITION_INVALID,
}

/// The partitions that rav1e chooses from.
pub const RAV1E_PARTITION_TYPES: [PartitionType; 4] = [
    PartitionType::PARTITION_NONE,
    PartitionType::PARTITION_HORZ,
    PartitionType::PARTITION_VERT,
    PartitionType::PARTITION_SPLIT,
];

/// The width and height of a block in luma samples, width first.
#[derive(Copy, Clone, Debug, PartialEq, Eq)]
pub enum BlockSize {
    BLOCK_4X4,
    BLOCK_4X8,
    BLOCK_8X4,
    BLOCK_8X8,
    BLOCK_8X16,
    BLOCK_16X8,
    BLOCK_16X16,
    BLOCK_16X32,
    BLOCK_32X16,
    BLOCK_32X32,
    BLOCK_32X64,
    BLOCK_64X32,
    BLOCK_64X64,
    BLOCK_64X128,
    BLOCK_128X64,
    BLOCK_128X128,
    BLOCK_4X16,
    BLOCK_16X4,
    BLOCK_8X32,
    BLOCK_32X8,
    BLOCK_16X64,
    BLOCK_64X16,
}

impl BlockSize {
    /// The number of sizes.
    pub const BLOCK_SIZES_ALL: usize = 22;

    /// The number of sizes, without the six with one side four times the other.
    pub const BLOCK_SIZES: usize = BlockSize::BLOCK_SIZES_ALL - 6;

    /// Every size, in the order of their numbers.
    pub const ALL: [BlockSize; 22] = [
        BlockSize::BLOCK_4X4,
        BlockSize::BLOCK_4X8,
        BlockSize::BLOCK_8X4,
        BlockSize::BLOCK_8X8,
        BlockSize::BLOCK_8X16,
        BlockSize::BLOCK_16X8,
        BlockSize::BLOCK_16X16,
        BlockSize::BLOCK_16X32,
        BlockSize::BLOCK_32X16,
        BlockSize::BLOCK_32X32,
        BlockSize::BLOCK_32X64,
        BlockSize::BLOCK_64X32,
        BlockSize::BLOCK_64X64,
        BlockSize::BLOCK_64X128,
        BlockSize::BLOCK_128X64,
        BlockSize::BLOCK_128X128,
        BlockSize::BLOCK_4X16,
        BlockSize::BLOCK_16X4,
        BlockSize::BLOCK_8X32,
        BlockSize::BLOCK_32X8,
        BlockSize::BLOCK_16X64,
        BlockSize::BLOCK_64X16,
    ];
}

/// The error of a call if no block size is its result.
#[derive(Copy, Clone, Debug, PartialEq, Eq)]
pub struct InvalidBlockSize;

/// How a whole frame moves relative to its reference.
#[derive(Copy, Clone, Debug, PartialEq, Eq, PartialOrd)]
pub enum GlobalMVMode {
    /// Not at all.
    IDENTITY,
    /// By one vector.
    TRANSLATION,
    /// By a vector, a turn and a zoom.
    ROTZOOM,
    /// By an affine map.
    AFFINE,
}

/// The precision with which motion vectors are coded.
#[derive(Copy, Clone, Debug, PartialEq, Eq, PartialOrd)]
pub enum MvSubpelPrecision {
    /// Whole samples.
    MV_SUBPEL_NONE = -1,
    /// Quarters of a sample.
    MV_SUBPEL_LOW_PRECISION = 0,
    /// Eighths of a sample.
    MV_SUBPEL_HIGH_PRECISION = 1,
}

/// The number of values of `MvJointType`.
pub const MV_JOINTS: usize = 4;

/// Which components of a motion vector are coded as not zero.
#[derive(Copy, Clone, Debug, PartialEq, Eq, PartialOrd)]
pub enum MvJointType {
    /// Neither.
    MV_JOINT_ZERO,
    /// The column.
    MV_JOINT_HNZVZ,
    /// The row.
    MV_JOINT_HZVNZ,
    /// Both.
    MV_JOINT_HNZVNZ,
}
