//! The type `Header`: a plan's version, dimensions, depth, sampling, filters and reference slots.

use av1_blocks::FilterMode;

/// The frame that a plan is for, and what holds for all its leaves.
#[derive(Copy, Clone, Debug, PartialEq, Eq)]
pub struct Header {
    /// The version of the plan format: 1, 2 or 3. From 2 on, a node may be cut into four leaves that are a quarter as
    /// wide or as high. In 3, width and height need not be multiples of 8, any leaf may have references
    /// (`admits_references`), and the rules under `follows_av1` are AV1's.
    pub version: u8,
    /// Columns of luma samples that are shown, from 1 to 2048, up to the second version a multiple of 8. References and
    /// output have only these; more may be coded (`coded_width`).
    pub width: u16,
    /// Rows of luma samples that are shown, from 1 to 2048, up to the second version a multiple of 8.
    pub height: u16,
    /// Bits of a sample: 8, 10 or 12.
    pub depth: u8,
    /// 0 for 4:2:0, 1 for 4:2:2 and 2 for 4:4:4.
    pub sampling: u8,
    /// The interpolation filter of motion compensation.
    pub filter: FilterMode,
    /// Whether intra edges are filtered.
    pub edge_filter: bool,
    /// For each reference from LAST to ALTREF, the slot that it names, from 0 to 7.
    pub slots: [u8; 7],
    /// The slots that carry planes: bit s is slot s.
    pub mask: u8,
}
