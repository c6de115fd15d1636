//! The type `PlaneExtent`: width, height and depth of a part of a plane.

use av1_plan::Header;

/// Width and height of a part of a plane in samples (its coded or its visible part), and the depth of its samples in
/// bits.
#[derive(Clone, Copy)]
pub struct PlaneExtent {
    /// The number of columns.
    pub width: usize,
    /// The number of rows.
    pub height: usize,
    /// The number of bits of a sample: 8, 10 or 12.
    pub depth: usize,
}

impl PlaneExtent {
    ghost use Rattle.std.specs.Prelude.{◌≡◌};
    ghost use Rattle.av1_tile.specs.PlaneBlocks.{extent_of};

    /// The coded part of plane `p` of a plan's frame: 0 for Y, 1 for U and 2 for V.
    pub fn of_plane(header: &Header, p: usize) -> PlaneExtent
        ensures { result ≡ extent_of header.now p }
    {
        PlaneExtent {
            width: header.plane_width(p),
            height: header.plane_height(p),
            depth: usize::from(header.depth),
        }
    }
}
