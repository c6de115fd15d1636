//! The type `State`: what an unfinished plan needs next, as plain data.

use av1_plan::{Stacked, Superblocks};

/// What an unfinished plan needs next, in a form that can be kept anywhere. [`crate::Progress::state`] returns it, and
/// [`crate::Progress::resume`] takes it back.
#[derive(Copy, Clone)]
pub struct State {
    /// The slot whose planes the plan needs next, or 8.
    pub slot: usize,
    /// The parts of the current superblock that the plan still needs, the next one on top.
    pub parts: Stacked,
    /// The superblocks after that one.
    pub left: Superblocks,
}
