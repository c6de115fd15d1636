//! Planes of samples, and the rectangles in them that calls read and write. Only calls that take an allocator allocate.
//!
//! The crate needs the standard library, and `av1_blocks` for the names of modes, references and filters. Its modules,
//! names and values are those of rav1e, and those of v_frame, which rav1e uses.
//!
//! Its promises to the crates above:
//! - `Pixel` and `Coefficient` are numbers of a fixed width. Each converts to its number and back, and samples have the
//!   order of their numbers.
//! - `clip` gives the sample of a depth that is nearest to a number.
//! - The samples of a `Plane` or a `PlaneSlice` fill the rows of its settings, and the visible ones lie among them. The
//!   types say so. Only the constructors of slices and `Plane::set_sides` require it.
//! - `PlaneRegion` and `PlaneSlice` only read, and copy nothing. They hold settings and a slice of samples, of a plane
//!   or, by `from_slice`, of memory that a caller holds. Each of their rows is a part of that slice.
//! - `fill_row` and `copy_row` change the first samples of a row. `fill_area` changes the samples of a rectangle.
//! - What is written through a region is in the plane when the borrow ends. All other samples, the settings and the
//!   rectangle are unchanged. A call that writes says so in one equation, `output.new ≡ painted output.old width height
//!   f`, with `f row column old` as the new sample (`specs/Regions.antt`). `painted_plane` (`specs/Planes.antt`) says
//!   the same in positions from the first visible sample, and `proofs/Planes.antt` reads it sample by sample.
//!   `region_painting` (`proofs/Regions.antt`) proves a loop that writes row by row, and `row_painting`
//!   (`proofs/Paint.antt`) a loop that writes a row.
//! - A call that writes a slice says the same of it: `samples.new ≡ paint stride area f samples.old`. It requires
//!   `AreRows` of the rectangle. `PlaneRegionMut` lends its samples to such a call, by `region_lending`
//!   (`proofs/Regions.antt`). `rectangle_painting` and `row_painted_rest` (`proofs/Paint.antt`) prove the loop.
//! - `Plane::pad` keeps every visible sample. After it, each other stored sample equals the nearest visible one.
//! - A slot of `FrameInvariants` holds the planes that were put there last.
//!
//! Five public calls allocate: `Plane::new`, `Plane::from_slice`, `FrameInvariants::new`, `repeated` and
//! `zero_samples`. A plane is one allocation. Regions and slices are slice arithmetic, and padding moves whole rows.
//!
//! Columns, rows, widths, heights and pads are counted in samples of the plane at hand. A plane's visible rectangle
//! lies in its storage, with pads round it. `xdec` and `ydec` are 1 if the plane has half of luma's columns or rows.
//! Cells, in `BlockOffset`, are squares of 4x4 luma samples.
#![tactic(auto)]

mod block_unit;
mod frame_invariants;
mod math;
mod pad;
mod pixel;
mod plane;
mod plane_region;
mod plane_slice;
mod rows;
mod slots;
mod storage;
mod tile_state;

pub use block_unit::{BlockOffset, TileBlockOffset};
pub use frame_invariants::FrameInvariants;
pub use math::{clamp, clip, round_shift};
pub use pixel::{Coefficient, Pixel, coefficient_laws, pixel_laws};
pub use plane::{Plane, PlaneConfig, PlaneOffset};
pub use plane_region::{Area, PlaneRegion, PlaneRegionMut, Rect, StoredArea, visible_area};
pub use plane_slice::PlaneSlice;
pub use rows::{copy_row, fill_area, fill_row, repeated, zero_samples};
pub use tile_state::{CodedBlockInfo, TileRect, TileStateMut};
