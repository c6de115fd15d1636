//! Finds whether a neighbour of a block has a smooth mode, for the edge filter. Reads only modes and references.
//!
//! AV1 specification: intra filter type process.

ghost use Rattle.std.specs.Prelude.{◌≡◌, None};
ghost use Rattle.std.specs.Option.{option_map};
ghost use Rattle.av1_intra.specs.Neighbours.{mode_in, parameters_of, is_smooth, is_intra, is_smooth_in, uses_smooth_filter};

use av1_blocks::{PredictionMode, RefType};
use av1_frame::CodedBlockInfo;

/// The neighbours above and to the left of a block, in one plane. A neighbour outside the tile is `None`.
#[derive(Clone, Copy, Debug, PartialEq, Eq)]
pub struct IntraEdgeFilterParameters {
    /// The plane: 0 is luma.
    pub plane: usize,
    /// The frames that the block above is predicted from.
    pub above_ref_frame_types: Option<[RefType; 2]>,
    /// The frames that the block to the left is predicted from.
    pub left_ref_frame_types: Option<[RefType; 2]>,
    /// The mode of the block above in this plane.
    pub above_mode: Option<PredictionMode>,
    /// The mode of the block to the left in this plane.
    pub left_mode: Option<PredictionMode>,
}

impl Default for IntraEdgeFilterParameters {
    /// The parameters of a luma block without neighbours.
    fn default() -> IntraEdgeFilterParameters
        ensures { result ≡ record { plane = 0; above_ref_frame_types = None; left_ref_frame_types = None; above_mode = None; left_mode = None } }
    {
        IntraEdgeFilterParameters {
            plane: 0,
            above_ref_frame_types: None,
            left_ref_frame_types: None,
            above_mode: None,
            left_mode: None,
        }
    }
}

/// The mode of a neighbour in a plane.
fn mode_of(plane: usize, block: Option<CodedBlockInfo>) -> Option<PredictionMode>
    ensures { result ≡ option_map (mode_in plane) block }
{
    match block {
        Some(block) if plane == 0 => Some(block.luma_mode),
        Some(block) => Some(block.chroma_mode),
        None => None,
    }
}

/// The frames that a neighbour is predicted from.
fn reference_types_of(block: Option<CodedBlockInfo>) -> Option<[RefType; 2]>
    ensures { result ≡ option_map (λ block. block.reference_types) block }
{
    match block {
        Some(block) => Some(block.reference_types),
        None => None,
    }
}

/// Whether a mode is one of the three smooth ones.
fn is_smooth(mode: Option<PredictionMode>) -> bool
    ensures { result ≡ is_smooth mode }
{
    match mode {
        Some(PredictionMode::SMOOTH_PRED)
        | Some(PredictionMode::SMOOTH_V_PRED)
        | Some(PredictionMode::SMOOTH_H_PRED) => true,
        _ => false,
    }
}

/// Whether the first reference is the block's own frame.
fn is_intra(types: Option<[RefType; 2]>) -> bool
    ensures { result ≡ is_intra types }
{
    match types {
        Some(types) => {
            let [first, _] = types;
            match first {
                RefType::INTRA_FRAME => true,
                _ => false,
            }
        }
        None => false,
    }
}

/// Whether a neighbour is smooth in a plane.
fn is_smooth_in(plane: usize, types: Option<[RefType; 2]>, mode: Option<PredictionMode>) -> bool
    ensures { result ≡ is_smooth_in plane types mode }
{
    is_smooth(mode) && (plane == 0 || is_intra(types))
}

impl IntraEdgeFilterParameters {
    /// Takes what the filter reads of the neighbours: their references, and their mode in `plane`.
    pub fn new(
        plane: usize,
        above_ctx: Option<CodedBlockInfo>,
        left_ctx: Option<CodedBlockInfo>,
    ) -> Self
        ensures { result ≡ parameters_of plane above_ctx left_ctx }
    {
        IntraEdgeFilterParameters {
            plane,
            above_ref_frame_types: reference_types_of(above_ctx),
            left_ref_frame_types: reference_types_of(left_ctx),
            above_mode: mode_of(plane, above_ctx),
            left_mode: mode_of(plane, left_ctx),
        }
    }

    /// Whether one of the neighbours has a smooth mode. In a chroma plane, only a neighbour counts that is predicted
    /// from its own frame. A neighbour without references doesn't count there.
    pub fn use_smooth_filter(self) -> bool
        ensures { result ≡ uses_smooth_filter self }
    {
        is_smooth_in(self.plane, self.above_ref_frame_types, self.above_mode)
            || is_smooth_in(self.plane, self.left_ref_frame_types, self.left_mode)
    }
}

/// Whether a neighbour has a smooth mode, if the edge filter is on. `None` if it is off.
pub fn smooth_filter_of(ief_params: Option<IntraEdgeFilterParameters>) -> Option<bool>
    ensures { result ≡ option_map uses_smooth_filter ief_params }
{
    match ief_params {
        Some(parameters) => Some(parameters.use_smooth_filter()),
        None => None,
    }
}
