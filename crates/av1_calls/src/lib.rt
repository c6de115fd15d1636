//! Calls on one block: each tests its arguments, writes the caller's buffers, returns a status. No allocation, no I/O.
//!
//! - Residual: [`tilg_inverse_transform_add_8`] and [`tilg_inverse_transform_add_16`] add the residual of a block to
//!   samples, by AV1's rule. [`tilg_inverse_transform_add_rav1e_16`] adds the residual by rav1e's rule.
//! - Motion: [`tilg_put_8tap_8`] and [`tilg_put_tested_16`] predict a block from a reference. [`tilg_prep_8tap_8`] and
//!   [`tilg_prep_tested_16`] prepare a block from one of two references. [`tilg_mc_avg_8`] and [`tilg_mc_avg_16`]
//!   average two prepared blocks.
//! - Motion without margins: [`tilg_put_moved_8`], [`tilg_put_moved_16`], [`tilg_prep_moved_8`] and
//!   [`tilg_prep_moved_16`] follow a vector in a plane without margins.
//! - Intra: [`tilg_predict_intra_8`], [`tilg_predict_intra_16`], [`tilg_predict_cfl_8`] and [`tilg_predict_cfl_16`]
//!   predict a block from the edge that the caller passes. [`tilg_intra_edge_8`] and [`tilg_intra_edge_16`] prepare
//!   this edge from a plane. [`tilg_predict_in_plane_8`] and [`tilg_predict_in_plane_16`] do both.
//! - Chroma from luma: [`tilg_cfl_ac_8`] and [`tilg_cfl_ac_tested_16`] give the differences of luma from its mean,
//!   which predict chroma.
//! - Arguments: [`tilg_cfl_block_of`] computes numbers that [`tilg_cfl_ac_8`] and [`tilg_cfl_ac_tested_16`] require.
//!
//! [`tilg_put_tested_16`], [`tilg_prep_tested_16`], [`tilg_put_moved_16`], [`tilg_prep_moved_16`] and
//! [`tilg_cfl_ac_tested_16`] require that samples fit the depth, but do not test this. For these calls,
//! [`tilg_test_samples_16`] tests samples once.
//!
//! This crate uses `av1_itx` for transforms and `av1_inter` for motion, and `av1_edges` and `av1_intra` for intra
//! prediction. `av1_c` exports the calls for C.
//!
//! What the calls promise:
//!
//! - No call allocates, and each call returns. The result is one of the statuses of `src/status.rt`.
//! - Only those five calls require something: samples within the depth, or ([`tilg_cfl_ac_tested_16`]) below 4096.
//! - Valid arguments give [`DONE`], and [`DONE`] says that the arguments are valid.
//! - After [`DONE`] the contract says what was written: samples (`specs/Transforms.antt`, `specs/Motions.antt`,
//!   `specs/MovedBlocks.antt`, `specs/IntraBlocks.antt`, `specs/IntraEdges.antt`, `specs/IntraPlanes.antt`),
//!   differences of luma (`specs/LumaBlocks.antt`) or a block of chroma (`specs/CflPads.antt`).
//! - Each other status names the first bad argument. The output is then unchanged. Scratch buffers may have changed.
#![tactic(auto)]

mod argument;
mod cfl_block;
mod context;
mod intra;
mod intra_edge;
mod intra_plane;
mod luma;
mod mc_avg;
mod motion;
mod motion_place;
mod moved;
mod prep_8tap;
mod prep_moved;
mod put_8tap;
mod put_moved;
mod samples;
mod status;
mod tested;
mod transform_add;
mod window;

pub use argument::filter_mode;
pub use cfl_block::{LumaLeafBlock, tilg_cfl_block_of};
pub use context::Context;
pub use intra::{
    IntraBlock, tilg_predict_cfl_8, tilg_predict_cfl_16, tilg_predict_intra_8,
    tilg_predict_intra_16,
};
pub use intra_edge::{
    ANY_MODE, EDGE_SAMPLES, EdgeBlock, EdgePlane, tilg_intra_edge_8, tilg_intra_edge_16,
};
pub use intra_plane::{FROM_LUMA, tilg_predict_in_plane_8, tilg_predict_in_plane_16};
pub use luma::{CflBlock, tilg_cfl_ac_8, tilg_cfl_ac_tested_16};
pub use mc_avg::{tilg_mc_avg_8, tilg_mc_avg_16};
pub use motion::{MotionBlock, RAV1E_SHARP, SHARP};
pub use motion_place::{MotionPlane, MovedBlock};
pub use prep_8tap::{tilg_prep_8tap_8, tilg_prep_tested_16};
pub use prep_moved::{tilg_prep_moved_8, tilg_prep_moved_16};
pub use put_8tap::{tilg_put_8tap_8, tilg_put_tested_16};
pub use put_moved::{tilg_put_moved_8, tilg_put_moved_16};
pub use samples::is_readable;
pub use status::{
    BAD_ANGLE, BAD_AREA, BAD_COEFFICIENT, BAD_DEPTH, BAD_FRACTION, BAD_MODE, BAD_PAD, BAD_SAMPLE,
    BAD_SAMPLING, BAD_SIZE, BAD_TYPE, DONE, ROOM_TOO_SMALL, TOO_SHORT,
};
pub use tested::tilg_test_samples_16;
pub use transform_add::{
    tilg_inverse_transform_add_8, tilg_inverse_transform_add_16,
    tilg_inverse_transform_add_rav1e_16,
};
