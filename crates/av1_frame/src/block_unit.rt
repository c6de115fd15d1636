//! Positions counted in cells of 4x4 luma samples, and the sample at which a cell begins in a plane. Pure arithmetic.

ghost use Rattle.std.specs.Prelude.{◌≡◌, ◌^◌, ◌<◌, ◌≤◌, pos, ◌+ℤ◌, ◌≤ℤ◌, ◌<ℤ◌};
ghost use Rattle.av1_frame.specs.Areas.{block_start};

use crate::plane::{PlaneConfig, PlaneOffset};

/// A cell of 4x4 luma samples, counted from the first cell of the frame, or of a tile if it is in a `TileBlockOffset`.
#[derive(Clone, Copy, Debug, PartialEq, Eq)]
pub struct BlockOffset {
    /// The column of cells.
    pub x: usize,
    /// The row of cells.
    pub y: usize,
}

/// A cell of 4x4 luma samples, counted from the first cell of its tile.
#[derive(Clone, Copy, Debug, PartialEq, Eq)]
pub struct TileBlockOffset(pub BlockOffset);

impl TileBlockOffset {
    /// The cell `dx` columns to the right and `dy` rows below.
    pub fn with_offset(self, dx: isize, dy: isize) -> TileBlockOffset
        requires left { pos 0 ≤ℤ (pos self.0.x +ℤ dx) }
        requires right { (pos self.0.x +ℤ dx) <ℤ pos (2 ^ 64) }
        requires top { pos 0 ≤ℤ (pos self.0.y +ℤ dy) }
        requires bottom { (pos self.0.y +ℤ dy) <ℤ pos (2 ^ 64) }
        ensures x { pos result.0.x ≡ pos self.0.x +ℤ dx }
        ensures y { pos result.0.y ≡ pos self.0.y +ℤ dy }
    {
        TileBlockOffset(BlockOffset {
            x: self.0.x.saturating_add_signed(dx),
            y: self.0.y.saturating_add_signed(dy),
        })
    }

    /// The position of the cell's first sample in a plane with the settings `cfg`, counted from the tile's first
    /// sample.
    pub fn plane_offset(self, cfg: &PlaneConfig) -> PlaneOffset
        requires xdec { cfg.now.xdec ≤ 1 }
        requires ydec { cfg.now.ydec ≤ 1 }
        requires x { block_start self.0.x cfg.now.xdec < 2 ^ 63 }
        requires y { block_start self.0.y cfg.now.ydec < 2 ^ 63 }
        ensures x { result.x ≡ pos (block_start self.0.x cfg.now.xdec) }
        ensures y { result.y ≡ pos (block_start self.0.y cfg.now.ydec) }
    {
        PlaneOffset {
            x: ((self.0.x >> cfg.xdec) * 4) as isize,
            y: ((self.0.y >> cfg.ydec) * 4) as isize,
        }
    }
}
