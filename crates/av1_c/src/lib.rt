//! Block reconstruction for C: exported calls over the caller's memory. Only calls that reconstruct plans allocate.
//!
//! - [`tilg_planes_len`] gives the length of a plan's planes in bytes. [`tilg_reconstruct_plan`] writes the planes to
//!   the caller's buffer.
//! - [`tilg_reconstruct_tiles`] and [`tilg_reconstruct_sequence`] write the planes of a grid of tiles and of a
//!   sequence. [`tilg_trace_differences`] lists where planes of another encoder differ from their plan.
//! - [`tilg_builder_begin`] and the calls after it write a plan field by field to the caller's buffer. The caller keeps
//!   a [`Builder`] between the calls. These calls do not allocate.
//! - The calls on one block (`src/transform_calls.rt`, `src/motion_calls.rt`, `src/intra_calls.rt`) are those of
//!   `av1_calls`. They do not allocate either.
//! - [`tilg_version_0_4`] gives the version of the library that is linked.
//!
//! Each call tests its arguments and returns a status of `src/status.rt` or of `av1_calls`. No test can check pointers,
//! and five calls don't test samples (see `av1_calls`). So the caller has to ensure three things:
//!
//! - Each pointer leads to as many elements as the length beside it says.
//! - Memory that a call writes overlaps no other memory that the call uses.
//! - The samples that these five calls read fit the depth.
//!
//! This crate uses `av1_plan` and `av1_recon` for plans, `av1_tiles` for grids and `av1_sequence` for sequences. It
//! uses `av1_trace` for traces and the length of planes, `av1_planwrite` to build plans, and `av1_calls` for blocks.
//!
//! What the calls promise:
//!
//! - Every call returns.
//! - `DONE` of a call on a plan says that the bytes are a valid plan. The front of the buffer is then its planes by the
//!   slow definition, and the rest of the buffer is unchanged. Each other status has its cause, and then the buffer and
//!   the count are unchanged.
//! - The bytes decide the status (`status_for`, `specs/Plans.antt`), unless memory runs out. The same holds for tiles,
//!   sequences and traces (`specs/Parts.antt`, `specs/TraceCalls.antt`).
//! - `DONE` of a builder's call says that the call appended exactly its fields, and that the builder needs what the
//!   grammar needs after them. Each other status has its cause, and then the builder and the buffer are unchanged
//!   (`specs/Builders.antt`, `specs/BuildFaults.antt`).
//! - A call on a block promises what the call of `av1_calls` promises.
#![tactic(auto)]

mod append_leaf;
mod appending;
mod build_calls;
mod build_fault;
mod build_leaf;
mod build_next;
mod builder;
mod differences;
mod fault;
mod gathered;
mod intra_calls;
mod leaf_field;
mod leaf_numbers;
mod motion_calls;
mod part_fault;
mod part_planes;
mod plan_header;
mod planes_length;
mod reconstruct;
mod sequence;
mod status;
mod tiles;
mod transform_calls;
mod version;

pub use build_calls::{tilg_builder_begin, tilg_builder_mark, tilg_builder_reference};
pub use build_leaf::tilg_builder_leaf;
pub use build_next::{NextField, tilg_builder_next};
pub use builder::{Builder, BuilderPart};
pub use differences::{TraceDifference, tilg_trace_differences};
pub use fault::Refusal;
pub use intra_calls::{
    tilg_cfl_ac_8, tilg_cfl_ac_tested_16, tilg_cfl_block_of, tilg_intra_edge_8, tilg_intra_edge_16,
    tilg_predict_cfl_8, tilg_predict_cfl_16, tilg_predict_in_plane_8, tilg_predict_in_plane_16,
    tilg_predict_intra_8, tilg_predict_intra_16,
};
pub use leaf_numbers::{Coefficient, LeafMotion, LeafNumbers};
pub use motion_calls::{
    tilg_mc_avg_8, tilg_mc_avg_16, tilg_prep_8tap_8, tilg_prep_moved_8, tilg_prep_moved_16,
    tilg_prep_tested_16, tilg_put_8tap_8, tilg_put_moved_8, tilg_put_moved_16, tilg_put_tested_16,
    tilg_test_samples_16,
};
pub use part_fault::PartRefusal;
pub use plan_header::PlanHeader;
pub use planes_length::tilg_planes_len;
pub use reconstruct::tilg_reconstruct_plan;
pub use sequence::tilg_reconstruct_sequence;
pub use status::{
    BAD_STATE, EMPTY_SLOT, INVALID, INVALID_BLOCK_SIZE, INVALID_COEFFICIENT, INVALID_MODE,
    INVALID_PART, INVALID_TRANSFORM, INVALID_VECTOR, MALFORMED, MALFORMED_PART, MISSING_REFERENCE,
    NEXT_LEAF, NEXT_MARK, NEXT_NOTHING, NEXT_REFERENCE, NOT_ADMITTED, NOT_NOW, OUT_OF_MEMORY,
    TOO_LONG, TOO_LONG_PART,
};
pub use tiles::tilg_reconstruct_tiles;
pub use transform_calls::{
    tilg_inverse_transform_add_8, tilg_inverse_transform_add_16,
    tilg_inverse_transform_add_rav1e_16,
};
pub use version::tilg_version_0_4;
