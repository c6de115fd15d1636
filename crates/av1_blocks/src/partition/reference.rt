//! References as pure functions: number, index, and direction. Proves the values of the constants of references.
#![tactic(auto)]

ghost use Rattle.std.specs.Prelude.{◌≡◌, ◌≢◌, ◌+◌, nat_lt, nat_le, length, slice_get, Some};
ghost use Rattle.av1_blocks.specs.References.{reference_number, inter_references};

use crate::numbers::variant_of;
use crate::partition::{
    ALL_INTER_REFS, ALTREF2_ALTREF_FRAMES, BWD_REFS, BWDREF_ALTREF_FRAMES, BWDREF_ALTREF2_FRAMES,
    FWD_REFS, GLOBALMV_CTX_MASK, GLOBALMV_MODE_CONTEXTS, GLOBALMV_OFFSET, INTER_COMPOUND_MODES,
    INTER_REFS_PER_FRAME, LAST_GOLDEN_FRAMES, LAST_LAST2_FRAMES, LAST_LAST3_FRAMES,
    LAST2_GOLDEN_FRAMES, LAST2_LAST3_FRAMES, LAST3_GOLDEN_FRAMES, MV_JOINTS, MVREF_ROW_COLS,
    NEWMV_CTX_MASK, NEWMV_MODE_CONTEXTS, REF_CONTEXTS, REF_FRAMES, REF_FRAMES_LOG2, REFMV_CTX_MASK,
    REFMV_MODE_CONTEXTS, REFMV_OFFSET, RefType, SINGLE_REFS, TOTAL_COMP_REFS, TOTAL_REFS_PER_FRAME,
    TOTAL_UNIDIR_COMP_REFS, UNIDIR_COMP_REFS,
};

impl RefType {
    /// The reference of this number, if there is one.
    #[inline]
    pub fn from_number(number: u8) -> Option<RefType>
        ensures { result ≡ slice_get RefType.ALL number }
    {
        variant_of(&RefType::ALL, number)
    }

    /// The reference's number, which `from_number` takes back.
    #[inline]
    pub fn number(self) -> u8
        ensures value { result ≡ reference_number self }
        ensures named { slice_get RefType.ALL (reference_number self) ≡ Some self }
        ensures all { length RefType.ALL ≡ 9 }
    {
        self as u8
    }

    /// The reference's place among a frame's references to other frames, 0 to 6.
    #[inline]
    pub fn to_index(self) -> usize
        requires inter { self ≢ RefType.INTRA_FRAME }
        requires some { self ≢ RefType.NONE_FRAME }
        ensures { result + 1 ≡ reference_number self }
    {
        self as usize - 1
    }

    /// Whether the number is below 5: the forward references, and `INTRA_FRAME`.
    #[inline]
    pub fn is_fwd_ref(self) -> bool
        ensures { result ≡ nat_lt (reference_number self) 5 }
    {
        (self as usize) < 5
    }

    /// Whether the number is 5 or more: the backward references, and `NONE_FRAME`.
    #[inline]
    pub fn is_bwd_ref(self) -> bool
        ensures { result ≡ nat_le 5 (reference_number self) }
    {
        self as usize >= 5
    }
}

/// The numbers of the pairs of references in one direction, and the number of these pairs.
pub fn reference_pairs()
    ensures last_last2_frames { LAST_LAST2_FRAMES ≡ 0 }
    ensures last_last3_frames { LAST_LAST3_FRAMES ≡ 1 }
    ensures last_golden_frames { LAST_GOLDEN_FRAMES ≡ 2 }
    ensures bwdref_altref_frames { BWDREF_ALTREF_FRAMES ≡ 3 }
    ensures last2_last3_frames { LAST2_LAST3_FRAMES ≡ 4 }
    ensures last2_golden_frames { LAST2_GOLDEN_FRAMES ≡ 5 }
    ensures last3_golden_frames { LAST3_GOLDEN_FRAMES ≡ 6 }
    ensures bwdref_altref2_frames { BWDREF_ALTREF2_FRAMES ≡ 7 }
    ensures altref2_altref_frames { ALTREF2_ALTREF_FRAMES ≡ 8 }
    ensures total_unidir_comp_refs { TOTAL_UNIDIR_COMP_REFS ≡ 9 }
    ensures unidir_comp_refs { UNIDIR_COMP_REFS ≡ 4 }
    ensures total_comp_refs { TOTAL_COMP_REFS ≡ 21 }
{}

/// The numbers of references and frame slots, and the references to other frames.
pub fn reference_counts()
    ensures fwd_refs { FWD_REFS ≡ 4 }
    ensures bwd_refs { BWD_REFS ≡ 3 }
    ensures single_refs { SINGLE_REFS ≡ 7 }
    ensures total_refs_per_frame { TOTAL_REFS_PER_FRAME ≡ 8 }
    ensures inter_refs_per_frame { INTER_REFS_PER_FRAME ≡ 7 }
    ensures ref_frames_log2 { REF_FRAMES_LOG2 ≡ 3 }
    ensures ref_frames { REF_FRAMES ≡ 8 }
    ensures ref_contexts { REF_CONTEXTS ≡ 3 }
    ensures mvref_row_cols { MVREF_ROW_COLS ≡ 3 }
    ensures all_inter_refs { ALL_INTER_REFS ≡ inter_references }
{}

/// The contexts in which motion vectors are coded: their numbers, and their positions in one number.
pub fn motion_contexts()
    ensures newmv_mode_contexts { NEWMV_MODE_CONTEXTS ≡ 7 }
    ensures globalmv_mode_contexts { GLOBALMV_MODE_CONTEXTS ≡ 2 }
    ensures refmv_mode_contexts { REFMV_MODE_CONTEXTS ≡ 6 }
    ensures inter_compound_modes { INTER_COMPOUND_MODES ≡ 8 }
    ensures refmv_offset { REFMV_OFFSET ≡ 4 }
    ensures globalmv_offset { GLOBALMV_OFFSET ≡ 3 }
    ensures newmv_ctx_mask { NEWMV_CTX_MASK ≡ 7 }
    ensures globalmv_ctx_mask { GLOBALMV_CTX_MASK ≡ 1 }
    ensures refmv_ctx_mask { REFMV_CTX_MASK ≡ 15 }
    ensures mv_joints { MV_JOINTS ≡ 4 }
{}
