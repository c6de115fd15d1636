//! Types of a tile: its rectangle in a plane, its part of three planes to write, and a block's modes and references.

ghost use Rattle.std.specs.Prelude.{◌≡◌, ◌^◌, ◌<◌, pos, ◌+ℤ◌, FitsSigned};
ghost use Rattle.std.specs.Int.{w64};

use crate::block_unit::BlockOffset;
use crate::plane::PlaneOffset;
use crate::plane_region::PlaneRegionMut;
use av1_blocks::{PredictionMode, RefType};

/// The rectangle of a tile in a plane, in samples counted from the first visible one.
#[derive(Clone, Copy, Debug, PartialEq, Eq)]
pub struct TileRect {
    /// The first column.
    pub x: usize,
    /// The first row.
    pub y: usize,
    /// The number of columns.
    pub width: usize,
    /// The number of rows.
    pub height: usize,
}

impl TileRect {
    /// The position in the plane of a position `po` that counts from the tile's first sample.
    pub fn to_frame_plane_offset(&self, po: PlaneOffset) -> PlaneOffset
        requires x { self.now.x < 2 ^ 63 }
        requires y { self.now.y < 2 ^ 63 }
        requires column { FitsSigned w64 (pos self.now.x +ℤ po.x) }
        requires row { FitsSigned w64 (pos self.now.y +ℤ po.y) }
        ensures x { result.x ≡ pos self.now.x +ℤ po.x }
        ensures y { result.y ≡ pos self.now.y +ℤ po.y }
    {
        PlaneOffset {
            x: self.x as isize + po.x,
            y: self.y as isize + po.y,
        }
    }
}

/// The modes and references of a block.
#[derive(Clone, Copy, Debug, PartialEq, Eq)]
pub struct CodedBlockInfo {
    /// The mode of its luma samples.
    pub luma_mode: PredictionMode,
    /// The mode of its chroma samples.
    pub chroma_mode: PredictionMode,
    /// The frames that it is predicted from, the first and the second.
    pub reference_types: [RefType; 2],
}

/// A tile's part of each of the three planes, to read and to write.
#[derive(Drop)]
pub struct TileStateMut<'a, T> {
    /// Luma.
    pub y: PlaneRegionMut<'a, T>,
    /// The first plane of chroma.
    pub u: PlaneRegionMut<'a, T>,
    /// The second plane of chroma.
    pub v: PlaneRegionMut<'a, T>,
    /// The tile's first cell of 4x4 luma samples in the frame.
    pub sbo: BlockOffset,
}
