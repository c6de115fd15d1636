//! The types of a parsed sequence: its settings and its entries. The leaves stay in the slice that was parsed.

use crate::head::FrameHead;

/// A frame of a sequence that was read from bytes.
#[derive(Drop)]
pub struct FrameText<'a> {
    /// The fields before its leaves.
    pub head: FrameHead,
    /// The bytes that spell its leaves.
    pub part: &'a [u8],
}

/// An entry of a sequence that was read from bytes.
#[derive(Drop)]
pub enum Entry<'a> {
    /// A frame, and whether it is shown.
    Coded { shown: bool, frame: FrameText<'a> },
    /// A slot (0 to 7) that is shown again, and the slots that then also hold its frame: bit s is slot s.
    Again { slot: u8, refresh: u8 },
}

/// A sequence of frames that was read from bytes.
#[derive(Drop)]
pub struct SequenceFile<'a> {
    /// The version of plans that the frames have: 2 for `RSQ1`, 3 for `RSQ2`.
    pub version: u8,
    /// Visible columns of luma samples, from 1 to 2048. In version 2 it is a multiple of 8.
    pub width: u16,
    /// Visible rows of luma samples, from 1 to 2048. In version 2 it is a multiple of 8.
    pub height: u16,
    /// Bits of a sample: 8, 10 or 12.
    pub depth: u8,
    /// 0 for 4:2:0, 1 for 4:2:2 and 2 for 4:4:4.
    pub sampling: u8,
    /// The entries, in their order.
    pub entries: Vec<Entry<'a>>,
}
