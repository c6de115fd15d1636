//! The type `Last`: where a sequence keeps the last accepted frame.

/// The place of the frame that was accepted last.
#[derive(Clone, Copy, Debug, PartialEq, Eq)]
pub enum Last {
    /// No frame was accepted yet.
    Nowhere,
    /// The frame is in no slot, and is kept separately.
    Apart,
    /// The frame is among the frames of slots, at this place.
    At(u8),
}
