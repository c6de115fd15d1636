//! Constants that several parts of a decoder share: cell, superblock and transform sizes, limits of motion vectors.
#![tactic(auto)]

ghost use Rattle.std.specs.Prelude.{◌≡◌, pos, negsuc};

/// The logarithm to base 2 of a cell's side in luma samples: cells are 4 by 4.
pub const MI_SIZE_LOG2: usize = 2;

/// The greatest side of a transform, in samples.
pub const MAX_TX_SIZE: usize = 64;

/// The logarithm to base 2 of the greatest superblock's side, in luma samples.
pub const MAX_SB_SIZE_LOG2: usize = 7;

/// The logarithm to base 2 of the greatest superblock's side, in cells.
pub const MAX_MIB_SIZE_LOG2: usize = MAX_SB_SIZE_LOG2 - MI_SIZE_LOG2;

/// The bits of a cell's column or row that give its position in a superblock of 64x64 luma samples.
pub const LOCAL_BLOCK_MASK: usize = 15;

/// Each component of a valid motion vector is greater than this, in eighths of a sample.
pub const MV_LOW: i32 = -16384;

/// Each component of a valid motion vector is less than this, in eighths of a sample.
pub const MV_UPP: i32 = 16384;

/// The values of the constants.
pub fn shared_constants()
    ensures mi_size_log2 { MI_SIZE_LOG2 ≡ 2 }
    ensures max_tx_size { MAX_TX_SIZE ≡ 64 }
    ensures max_sb_size_log2 { MAX_SB_SIZE_LOG2 ≡ 7 }
    ensures max_mib_size_log2 { MAX_MIB_SIZE_LOG2 ≡ 5 }
    ensures local_block_mask { LOCAL_BLOCK_MASK ≡ 15 }
    ensures mv_low { MV_LOW ≡ negsuc 16383 }
    ensures mv_upp { MV_UPP ≡ pos 16384 }
{}
