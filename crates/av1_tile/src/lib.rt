//! Reconstructs the frame of a plan: walks over its leaves, predicts, adds residuals. Writes planes; does no I/O.
//!
//! A [`TileState`] holds the three planes of a frame and its references, and [`reconstruct_tile`] writes a valid plan
//! to the planes. For each leaf, in coding order, and each plane that the leaf covers:
//!
//! - the block of an inter leaf is predicted from references as a whole. Chroma that small inter leaves share is
//!   predicted in parts, each by the motion of the leaf over it;
//! - each transform block of an intra leaf is predicted from the samples above and left of it;
//! - the residuals of the transform blocks are added in raster order.
//!
//! Positions and dimensions are in samples of the plane at hand. A block that begins in the frame is written whole. At
//! the frame's right and lower ends, an edge repeats its last sample inside. At the left or upper end, a missing side
//! repeats one written sample. At the first sample, the sides are mid-grey plus or minus 1. A reference repeats its
//! nearest visible sample on all sides.
//!
//! [`frame_invariants`] makes the settings of a plan's frame and fills its slots with the plan's planes
//! (`HoldsReferences` of `specs/Motion.antt`). Each plane is padded by 80 samples on every side, or by 40 in a
//! direction in which it is halved. That is enough for motion of blocks up to 64x64. [`stored_references`] does the
//! same for a frame without leaves. A caller may also keep the planes of earlier frames in slots of its own choice
//! (`ServesPlan`).
//!
//! AV1 specification: decode block syntax, compute prediction syntax, intra prediction process, inter prediction
//! process, reconstruction process.
//!
//! Proved: the visible planes are those of the slow definition, `planes_of` (`specs/Output.antt`), and so is each of
//! their rows, `plan_row` (`specs/State.antt`), whatever the planes held before. Callers that keep planes and
//! references from one frame to the next use a [`WalkMemory`] over [`Planes`] of their own (`ShowsPlan` of
//! `specs/Memory.antt`). [`reconstruct_with_predictions`] also keeps the prediction of each visible sample
//! (`slow_predictions`, `specs/Predicted.antt`).
//!
//! Only these calls allocate: `TileState::new`, `Planes::new`, `WalkMemory::new`, `frame_invariants`,
//! `stored_references` and `reconstruct_with_predictions`.
#![tactic(auto)]

mod block;
mod buffers;
mod cells;
mod coefficients;
mod extent;
mod fill;
mod frame;
mod laws;
mod leaf;
mod memory;
mod motion;
mod plane_block;
mod planes;
mod predicted;
mod references;
mod samples;
mod shared_chroma;
mod slots;
mod state;
mod tile;
mod walk;
mod with_predictions;

pub use laws::{
    earlier_versions_keep_the_short_filter, earlier_versions_share_no_chroma,
    look_ups_find_samples, motion_lies_within_depth, samples_are_sums, versions_agree_early,
    versions_agree_elsewhere, versions_show_the_same,
};
pub use memory::WalkMemory;
pub use planes::{Planes, visible_row};
pub use predicted::{PredictedPlane, PredictedPlanes};
pub use references::TileReferences;
pub use slots::{frame_invariants, stored_references};
pub use state::{TileState, reconstruct_tile};
pub use with_predictions::{PredictedTile, reconstruct_with_predictions};
