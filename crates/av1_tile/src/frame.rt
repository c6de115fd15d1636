//! The type `WalkedFrame`: what the walk reads for one leaf (header, references, earlier leaves).

use crate::cells::CodedCells;
use crate::references::TileReferences;
use av1_plan::{Header, Leaf};

/// The inputs of the walk for one leaf.
#[derive(Drop)]
pub struct WalkedFrame<'a, 'b, T> {
    /// The header of the plan.
    pub header: &'a Header,
    /// The references, and the position of the tile in their frame.
    pub from: &'b TileReferences<'b, T>,
    /// The modes and references of the leaves before it, for each cell.
    pub cells: &'a CodedCells,
    /// The leaves before it, in coding order.
    pub earlier: &'a [Leaf],
}
