//! The types of an entry's fields before its part: filters, reference slots, and the slots that it replaces.

use av1_blocks::FilterMode;

/// What holds for all leaves of a frame of a sequence, and the slots that the frame replaces.
#[derive(Copy, Clone, Debug, PartialEq, Eq)]
pub struct FrameHead {
    /// The interpolation filter of motion compensation, not `SWITCHABLE`.
    pub filter: FilterMode,
    /// Whether intra edges are filtered.
    pub edge_filter: bool,
    /// The slot that each reference names, from LAST to ALTREF: 0 to 7.
    pub slots: [u8; 7],
    /// The slots that the frame replaces: bit s is slot s.
    pub refresh: u8,
}

/// The fields of an entry before its part.
#[derive(Copy, Clone, Debug, PartialEq, Eq)]
pub(crate) enum EntryHead {
    /// The head of a frame, and whether it is shown.
    Coded { shown: bool, head: FrameHead },
    /// A slot that is shown again, and the slots that then also hold its frame: bit s is slot s.
    Again { slot: u8, refresh: u8 },
}
