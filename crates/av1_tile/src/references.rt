//! The references of a tile: the planes of its frame, and the tile's position in them. Only reads them.

ghost use Rattle.std.specs.Prelude.{◌≡◌};

use av1_frame::{FrameInvariants, TileRect};
use av1_plan::Header;

/// The references of a frame, and the position of a tile in it.
#[derive(Clone, Copy)]
pub struct TileReferences<'a, T> {
    /// The settings of the frame, with the planes of its slots.
    pub fi: &'a FrameInvariants<T>,
    /// The tile's rectangle of the luma plane.
    pub luma: TileRect,
    /// The tile's rectangle of each plane of chroma.
    pub chroma: TileRect,
}

/// The whole coded plane `p` of a frame, as a tile.
pub fn whole_plane(header: &Header, p: usize) -> TileRect
    ensures x { result.x ≡ 0 }
    ensures y { result.y ≡ 0 }
{
    TileRect {
        x: 0,
        y: 0,
        width: header.plane_width(p),
        height: header.plane_height(p),
    }
}

impl<'a, T> TileReferences<'a, T> {
    ghost use Rattle.std.specs.Prelude.{◌≡◌};
    ghost use Rattle.av1_tile.specs.Motion.{IsWholeFrame, rect_of};

    /// The references of a tile that is the whole frame.
    pub fn whole(fi: &'a FrameInvariants<T>, header: &Header) -> TileReferences<'a, T>
        ensures frame { result.fi.now ≡ fi.now }
        ensures whole { IsWholeFrame result }
    {
        TileReferences {
            fi,
            luma: whole_plane(header, 0),
            chroma: whole_plane(header, 1),
        }
    }

    /// The tile's rectangle of plane `p`.
    pub fn rect(&self, p: usize) -> TileRect
        ensures { result ≡ rect_of self.now p }
    {
        if p == 0 { self.luma } else { self.chroma }
    }
}
