//! Whether the samples above right and below left of a transform are coded before it, as pure arithmetic on positions.
//! If they are not, an intra prediction may not read them.
//!
//! The crate takes the sizes of blocks and transforms from `av1_blocks`, and positions in a tile from `av1_frame`. Its
//! names and values are those of rav1e. Its promises:
//!
//! - `has_top_right` and `has_bottom_left` return what rav1e's tables say (`specs/Availability.antt`), for every size
//!   and argument. Take any block up to 64x64 (square, 2:1 or 4:1), in a plane that is halved or not, and any of the
//!   equal transforms that tile it. If both `available` arguments are true, the result is true exactly
//!   if each sample of the run past the transform comes before it in coding order (`specs/Order.antt`,
//!   `specs/Agreement.antt`).
//! - `has_tr` and `has_bl` return what the bits of a block's position say (`specs/Bits.antt`). For squares and 2:1
//!   sizes up to 64x64 they follow coding order, and equal the tables for a transform as large as the block.
//! - The tables are the lists of `specs/Tables.antt`. The lists of the 4:1 sizes follow from those of the squares. The
//!   quarters of a square come one after another in coding order.
//!
//! Blocks are counted in cells of 4x4 luma samples, transforms in units of 4x4 samples of their plane. A position is a
//! cell counted from its tile's first. All calls are plain arithmetic: they do not allocate and reject nothing.
#![tactic(auto)]

mod availability;
mod bits;
mod laws;
mod superblock;
mod tables;

pub use availability::{has_bottom_left, has_top_right};
pub use bits::{has_bl, has_tr};
pub use laws::{quarters_are_in_turn, stripes_follow_squares, tables_follow_order};
pub use tables::{get_has_bl_table, get_has_tr_table};
