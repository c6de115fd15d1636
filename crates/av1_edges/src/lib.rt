//! Prepares the samples round a transform for its intra prediction: reads a region, writes a buffer.
//! They are the samples above it and above right, to its left and below left, and the corner.
//!
//! The crate takes samples and regions from `av1_frame`, what is coded before a transform from `av1_avail`, and modes
//! and sizes from `av1_blocks`. Its names and values are those of rav1e. Its promises:
//!
//! - `get_intra_edges` finds each sample of an edge by its position in the region, as `prepared_edge` says
//!   (`specs/Edges.antt`, and for each place `specs/Sides.antt`). It keeps no record of what is written. It calls
//!   `has_top_right` and `has_bottom_left`, or `has_tr` and `has_bl` if the transform is a whole block.
//! - The mode decides which parts are prepared (`specs/Parts.antt`). If no mode is named, all are prepared, and the
//!   corner isn't smoothed.
//! - A buffer counts the edges that were prepared in it, by one for each call, up to the last value of a `u64`. No
//!   other call changes the count.
//! - `prepared_edges_lie_within` is a law: if the region's visible samples lie within the depth, so do the numbers of
//!   an edge.
//!
//! An edge lies in its buffer, or in samples of the caller (`get_intra_edges_to`). Only `IntraEdgeBuffer::new`
//! allocates. Samples are copied once, above by rows and to the left by columns. Columns, rows, sides and lengths are
//! counted in samples of the region; cells are 4x4 luma samples.
//!
//! AV1 specification: intra prediction process: general, the preparation of the arrays AboveRow and LeftCol.
#![tactic(auto)]

mod buffer;
mod edge;
mod fill;
mod intra_edges;
mod laws;
mod parts;
mod position;

pub use buffer::IntraEdgeBuffer;
pub use edge::{EdgePlaces, IntraEdge};
pub use fill::{base, extend_from, fill_with};
pub use intra_edges::{get_intra_edges, get_intra_edges_to};
pub use laws::prepared_edges_lie_within;
pub use parts::{angle, effective, step_of};
