//! Intra prediction under rav1e's own names: reads and writes planes and regions of the caller. Allocates nothing.
//!
//! Each call has a contract of its own. It calls a form of `av1_intra` that takes a slice and a stride. The walk over a
//! plan and the library call those forms. Only tests call this crate. Its promises:
//!
//! - `predict_intra` and `dispatch_predict_intra` predict each sample of the first rows and columns of a region, by one
//!   definition for all intra modes, `predicted` (`av1_intra`, `specs/Predicted.antt`), over the edge that
//!   `get_intra_edges` prepares. All other samples are unchanged. One equation says both: `output.new ≡ painted
//!   output.old width height f`.
//! - The predictors of one kind, in the module `rust`, do the same, each by its own definition.
//! - `luma_ac` does in a tile what `leaf_luma_ac` does, and returns the entries that it wrote.
//!
//! The crate does not allocate and rejects nothing: each call states its conditions in `requires`.
#![tactic(auto)]

mod predict;
mod region_block;
pub mod rust;
mod tile_luma;

pub use predict::{dispatch_predict_intra, predict_intra};
pub use tile_luma::luma_ac;
