//! Describes a block to the passes: the size and type of its transform, the rule, and the depth. Only a type.

use av1_blocks::{TxSize, TxType};

/// A block whose coefficients are transformed.
#[derive(Clone, Copy)]
pub struct Block {
    pub tx_size: TxSize,
    pub tx_type: TxType,
    /// Whether the block follows AV1's rule: no identity along its rows wraps, and if it is lossless (`WHT_WHT`),
    /// nothing is clamped between the passes. By rav1e's rule identities wrap at 32 bits, and every block is clamped.
    pub by_av1: bool,
    /// The number of bits of a sample.
    pub bd: usize,
}
