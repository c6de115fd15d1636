//! Intra prediction: computes the samples of a block from the samples round it, in slices. Allocates nothing.
//!
//! The crate takes samples from `av1_frame`, the samples round a block from `av1_edges`, and modes and references from
//! `av1_blocks`. Its names and values are those of rav1e. Each predictor takes a slice whose rows are a stride apart,
//! and a rectangle of it; `av1_rav1e` has the names of rav1e over regions. Its promises:
//!
//! - `dispatch_predict_intra_to` predicts the rectangle from the sides of a block. One definition covers all intra
//!   modes, `predicted` (`specs/Predicted.antt`). All other samples are unchanged. One equation says both: `samples.new
//!   ≡ paint stride area f samples.old`.
//! - The predictors of one kind do the same, each by its own definition: `pred_v_to`, `pred_h_to`, `pred_paeth_to`,
//!   `pred_smooth_to`, `pred_smooth_v_to`, `pred_smooth_h_to`, `pred_directional_to` and `pred_cfl_to`. DC prediction
//!   is `fill_block` with `mean_of` two sides, `side_mean` of one side, or `half_sample` without sides.
//! - `angle_or_alpha` and `alpha_of` give the angle of a mode and its parameter, and the weight of luma.
//! - `leaf_luma_ac` and `pred_cfl_ac` write to a slice, row by row, how far the luma over each chroma sample is from
//!   its mean. The rest of the slice is unchanged (`specs/ChromaFromLuma.antt`).
//! - `filter_edge` and `upsample_edge` prepare a side in a slice, entry by entry. The rest of the slice is unchanged.
//! - `select_ief_strength`, `select_ief_upsample` and `dr_intra_derivative` are their tables.
//!   `IntraEdgeFilterParameters` says whether a neighbour has a smooth mode.
//! - The laws: a side has every entry that a direction reads. `pred_directional_to` accepts the angles of the modes.
//!   Prepared edges are as long as their modes read. Luma's differences fit 16 bits. A prediction from samples within
//!   the depth lies within the depth.
//!
//! The crate does not allocate and rejects nothing: each call states its conditions in `requires`. Sides are counted in
//! samples and angles in degrees: 90 points straight up, and 180 to the left. A side above runs from the left, and a
//! left side is stored from the bottom up.
#![tactic(auto)]

mod angle;
mod by_mode;
mod chroma_from_luma;
mod dc;
mod directional;
mod edge_filter;
mod edge_lengths;
mod fill;
mod filtered_side;
mod interpolation;
mod laws;
mod luma;
mod neighbours;
mod paeth;
mod row_lines;
mod samples;
mod smooth;
mod straight;
mod strips;
mod upsampling;
mod variant;

pub use angle::{alpha_of, angle_or_alpha, dr_intra_derivative};
pub use by_mode::dispatch_predict_intra_to;
pub use chroma_from_luma::pred_cfl_to;
pub use dc::{half_sample, mean_of, side_mean, sum_of};
pub use directional::{DirectionalBlock, pred_directional_to};
pub use edge_filter::{filter_edge, select_ief_strength};
pub use edge_lengths::{places_above, places_left};
pub use fill::fill_block;
pub use laws::{
    lines_meet_their_sides, luma_differences_fit, modes_have_angles, predictions_lie_within,
    prepared_edges_suffice,
};
pub use luma::{LumaLeaf, leaf_luma_ac, pred_cfl_ac};
pub use neighbours::{IntraEdgeFilterParameters, smooth_filter_of};
pub use paeth::pred_paeth_to;
pub use smooth::{pred_smooth_h_to, pred_smooth_to, pred_smooth_v_to};
pub use straight::{pred_h_to, pred_v_to};
pub use upsampling::{select_ief_upsample, upsample_edge};
pub use variant::PredictionVariant;
