//! Laws of coding order: which samples of a plane are written before a rectangle follows from its position. No code.
//!
//! An intra prediction reads the samples round its rectangle that are already written. An encoder keeps no record of
//! them: it computes them from positions. This crate is the theory that allows it, for every partition of every frame,
//! in planes of every sampling. Each law is stated in `specs/`, and is the contract of a function in `laws` that does
//! nothing. It takes the order of cells from `av1_avail`, and leaves from `av1_plan`. Its promises to the walk above
//! it:
//!
//! - The leaves of a frame lie on their grid and tile it (`specs/Leaves.antt`).
//! - Before each step of a plane (`specs/Steps.antt`), exactly the units are written that follow from its position
//!   (`specs/Places.antt`). So all samples above and to the left are written, and the runs above right and below left
//!   are written whole or not at all (`specs/Samples.antt`). In the end each visible sample is written.
//! - `has_top_right` and `has_bottom_left` of `av1_avail` return whether those runs are written (`specs/Asked.antt`).
//! - The steps of a plan's leaves are their transform blocks, and each plane of a valid plan is such a plane
//!   (`specs/Plans.antt`).
//! - Before each step, and at each transform block of a plan, the tables, called as `av1_edges` calls them,
//!   say what is visible and written past it (`specs/Tabled.antt`, `specs/Turns.antt`).
//! - The leaf whose area holds a sample is found from a record for each luma cell (`specs/Neighbours.antt`).
//! - The luma that chroma from luma reads is written (`specs/ChromaFromLuma.antt`). Inter leaves are predicted whole,
//!   and residuals are added to written samples (`specs/WholeAreas.antt`).
#![tactic(auto)]

mod laws;

pub use laws::{
    areas_are_predicted, availability_matches_order, cuts_are_told, edges_are_answered,
    edges_are_told_by_places, leaves_lie_on_their_grid, leaves_tile_the_frame, luma_is_written,
    neighbours_are_found, order_follows_from_position, planes_are_written, plans_are_frames,
    plans_are_written, steps_are_transform_blocks,
};
