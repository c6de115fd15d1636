//! The type `SlotPlanes`: the samples of the three reference planes in a slot.

/// The planes of a slot, row by row, without padding.
#[derive(Debug, Drop)]
pub struct SlotPlanes {
    pub y: Vec<u16>,
    pub u: Vec<u16>,
    pub v: Vec<u16>,
}
