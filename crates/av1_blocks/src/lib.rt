//! The types of AV1 blocks and their tables, as pure functions and constants. Nothing here allocates.
//! The types: sizes of blocks and transforms, prediction modes, references, motion vectors and interpolation filters.
//!
//! The crate needs only the standard library. Its modules, names and values are those of rav1e. It promises to the
//! crates above that each call gives exactly the value of its table or formula. The tables are numbers in `specs/`, and
//! every constant and every result here is proved equal to its entry there. If a table leaves an entry out, the call
//! rejects it with an error or excludes it by a condition.
//!
//! Widths and heights are counted in samples, or in cells of 4x4 samples if a name ends in `mi`. Motion vectors are
//! counted in eighths of a sample. `xdec` and `ydec` (or `ss_x` and `ss_y`) are the decimations of a plane, as
//! logarithms to base 2: one of its samples covers 2^xdec luma columns and 2^ydec luma rows. So (0, 0) is 4:4:4, (1, 0)
//! is 4:2:2 and (1, 1) is 4:2:0.
#![tactic(auto)]

pub mod context;
pub mod mc;
pub mod memory;
mod numbers;
pub mod partition;
pub mod predict;
pub mod transform;

pub use context::{
    LOCAL_BLOCK_MASK, MAX_MIB_SIZE_LOG2, MAX_SB_SIZE_LOG2, MAX_TX_SIZE, MI_SIZE_LOG2, MV_LOW,
    MV_UPP, shared_constants,
};
pub use mc::{FilterMode, MotionVector, SUBPEL_FILTER_SIZE, SUBPEL_FILTERS, filters_are_whole};
pub use memory::OutOfMemory;
pub use partition::{
    ALL_INTER_REFS, ALTREF2_ALTREF_FRAMES, BWD_REFS, BWDREF_ALTREF_FRAMES, BWDREF_ALTREF2_FRAMES,
    BlockSize, FWD_REFS, GLOBALMV_CTX_MASK, GLOBALMV_MODE_CONTEXTS, GLOBALMV_OFFSET, GlobalMVMode,
    INTER_COMPOUND_MODES, INTER_REFS_PER_FRAME, InvalidBlockSize, LAST_GOLDEN_FRAMES,
    LAST_LAST2_FRAMES, LAST_LAST3_FRAMES, LAST2_GOLDEN_FRAMES, LAST2_LAST3_FRAMES,
    LAST3_GOLDEN_FRAMES, MV_JOINTS, MVREF_ROW_COLS, MvJointType, MvSubpelPrecision, NEWMV_CTX_MASK,
    NEWMV_MODE_CONTEXTS, PartitionType, RAV1E_PARTITION_TYPES, REF_CONTEXTS, REF_FRAMES,
    REF_FRAMES_LOG2, REFMV_CTX_MASK, REFMV_MODE_CONTEXTS, REFMV_OFFSET, RefType, SINGLE_REFS,
    TOTAL_COMP_REFS, TOTAL_REFS_PER_FRAME, TOTAL_UNIDIR_COMP_REFS, UNIDIR_COMP_REFS,
    block_size_counts, chosen_partitions, motion_contexts, reference_counts, reference_pairs,
    sizes_compare_by_sides, supersample_chroma_bsize,
};
pub use predict::{
    ANGLE_STEP, AngleDelta, CompoundType, FilterIntraMode, InterIntraMode, IntraParam, MotionMode,
    PREDICTION_MODES, PaletteColor, PaletteSize, PredictionMode, RAV1E_INTER_COMPOUND_MODES,
    RAV1E_INTER_MODES_MINIMAL, RAV1E_INTRA_MODES, intra_mode_to_angle, mode_constants,
};
pub use transform::{
    INV_SQRT2, RAV1E_TX_TYPES, SQRT2, SQRT2_BITS, TX_TYPES, TX_TYPES_PLUS_LL, TxSet, TxSize,
    TxType, coded_tx_size, transform_constants, valid_av1_transform,
};
