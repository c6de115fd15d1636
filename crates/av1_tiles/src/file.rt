//! The types of a parsed grid: settings, reference planes, where tiles begin, and a slice for each tile.

use av1_plan::{Header, SlotPlanes};

/// The fields before the parts of the tiles.
#[derive(Drop)]
pub struct Front {
    /// The header of the whole frame.
    pub header: Header,
    /// For each slot its planes, of the whole frame.
    pub references: Vec<Option<SlotPlanes>>,
    /// The columns of luma samples at which tiles begin, rising from 0, and then the frame's width.
    pub columns: Vec<u16>,
    /// The rows of luma samples at which tiles begin, rising from 0, and then the frame's height.
    pub rows: Vec<u16>,
}

/// A grid of tiles that was read from bytes.
#[derive(Drop)]
pub struct TileFile<'a> {
    /// The fields before the parts.
    pub front: Front,
    /// The parts of the tiles in raster order: each spells the leaves of its tile.
    pub parts: Vec<&'a [u8]>,
}
