//! The type `TileArea`: a tile's rectangle of its frame, in samples of luma.

/// A tile's rectangle of the frame, in samples of luma.
#[derive(Clone, Copy, Debug, PartialEq, Eq)]
pub struct TileArea {
    /// The column of its first sample.
    pub x: u16,
    /// The row of its first sample.
    pub y: u16,
    /// Columns.
    pub width: u16,
    /// Rows.
    pub height: u16,
}
