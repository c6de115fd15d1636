//! Allocates the buffers for the two prepared blocks of a compound prediction.

ghost use Rattle.std.specs.Prelude.{◌≡◌, IfOk, pos, replicate, vec_len};

use av1_blocks::OutOfMemory;
use av1_frame::repeated;
use std::alloc::Global;

/// The number of entries of the largest block.
const BUFFER_SIZE: usize = 128 * 128;

/// The prepared values of a block from each of two references. It is allocated once, and each compound prediction
/// overwrites it.
#[derive(Debug, Drop)]
pub struct InterCompoundBuffers {
    pub(crate) first: Vec<i16>,
    pub(crate) second: Vec<i16>,
    ghost first_long: { vec_len first ≡ 16384 },
    ghost second_long: { vec_len second ≡ 16384 },
}

impl InterCompoundBuffers {
    /// Allocates two buffers of 16,384 entries, all 0. The only error is running out of memory.
    pub fn new(alloc: Global) -> Result<InterCompoundBuffers, OutOfMemory>
        ensures first { IfOk result (λ buffers. buffers.first.items ≡ replicate 16384 (pos 0)) }
        ensures second { IfOk result (λ buffers. buffers.second.items ≡ replicate 16384 (pos 0)) }
    {
        let first = repeated(alloc, 0, BUFFER_SIZE)?;
        let second = repeated(alloc, 0, BUFFER_SIZE)?;
        Ok(InterCompoundBuffers { first, second })
    }
}
