//! The header of a plan as numbers for C, and its conversion to `Header`. Does not allocate.

ghost use Rattle.std.specs.Prelude.{◌≡◌};
ghost use Rattle.av1_c.specs.Builders.{header_of};

use av1_calls::filter_mode;
use av1_plan::Header;

/// The fields that a plan begins with: the frame that it is for, and what holds for all leaves.
#[repr(C)]
#[derive(Clone, Copy)]
pub struct PlanHeader {
    /// Visible columns of luma samples, from 1 to 2048. In versions 1 and 2 it is a multiple of 8.
    pub width: u16,
    /// Visible rows of luma samples, from 1 to 2048. In versions 1 and 2 it is a multiple of 8.
    pub height: u16,
    /// The version of the grammar, from 1 to 3. From version 2 on, a node may be cut into four leaves that are a
    /// quarter as wide or as high. In version 3, the dimensions need not be multiples of 8.
    pub version: u8,
    /// Bits of a sample: 8, 10 or 12.
    pub depth: u8,
    /// 0 for 4:2:0, 1 for 4:2:2 and 2 for 4:4:4.
    pub sampling: u8,
    /// The interpolation filter of motion compensation: 0 to 3.
    pub filter: u8,
    /// 0 if intra edges are not filtered.
    pub edge_filter: u8,
    /// The slots that carry planes: bit s is slot s.
    pub mask: u8,
    /// The slot that each reference names, from LAST to ALTREF: 0 to 7.
    pub slots: [u8; 7],
}

impl PlanHeader {
    /// The header of these numbers.
    pub fn header(&self) -> Header
        ensures { result ≡ header_of self.now }
    {
        Header {
            version: self.version,
            width: self.width,
            height: self.height,
            depth: self.depth,
            sampling: self.sampling,
            filter: filter_mode(self.filter),
            edge_filter: self.edge_filter > 0,
            slots: self.slots,
            mask: self.mask,
        }
    }
}
