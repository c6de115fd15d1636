//! Grids of tiles that don't read each other: reads a source, reconstructs the tiles, writes their frame. Allocates.
//!
//! The format has the settings and the reference samples of a frame, where its tiles begin, and a part for each tile. A
//! tile's plan has the tile's dimensions, the tile's rectangle of each reference, and the leaves that its part spells
//! by the plan grammar. So a tile is reconstructed as a frame of its own, and its planes are copied to those of the
//! frame. In plans of version 3, motion still reads the whole of each reference, from the tile's position in the frame
//! on, as AV1's does (`tile_motion`). In earlier versions motion only reads the tile's rectangle.
//!
//! [`reconstruct_tiles`] is the whole path. It reads a source to its end, reads the grid, and reconstructs its tiles
//! one after the other in raster order. Then it writes the planes of the frame: Y, U and V, row by row.
//!
//! This crate uses `av1_plan` for the fields of plans, and `av1_tile` for the samples and the references of a tile. It
//! uses `av1_streams` for sources and sinks, and `av1_recon` to write planes.
//!
//! What the calls promise:
//!
//! - One definition, `HasOutcome` (`specs/Outcomes.antt`), gives the outcome of bytes. It decides each result of
//!   [`reconstruct_tiles`].
//! - The result is Ok only if the bytes are a grid of valid tiles. Exactly the bytes of the joined planes were then
//!   appended.
//! - The call rejects bytes only if that is their outcome, and always then, unless a read fails or memory runs out. The
//!   container is tested before its tiles, and the first bad tile counts.
//! - [`read_tiles`] returns the grid that bytes spell, or the first bad field.
//! - [`read_tile`] returns a tile's valid plan, or why there is none.
//! - [`place_tile`] writes a tile's planes to the tile's rectangle of each plane, and nothing else.
//! - The planes of the frame and the memory to reconstruct tiles in are allocated once.
#![tactic(auto)]

mod area;
mod bounds;
mod container;
mod error;
mod file;
mod frame;
mod joined;
mod laws;
mod reconstruct;
mod tile;

pub use area::TileArea;
pub use av1_recon::PlanFault as TileFault;
pub use container::read_tiles;
pub use error::{TileError, TilesError};
pub use file::{Front, TileFile};
pub use frame::{TilePicture, place_tile, reconstruct_alone, reconstruct_in};
pub use joined::{Frame, FrameSamples, join_frame, join_tiles};
pub use laws::{grids_are_texts, outcomes_are_one, tiles_are_isolated};
pub use reconstruct::reconstruct_tiles;
pub use tile::{parse_tile, read_tile, tile_area};
