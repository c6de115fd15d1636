//! The buffer that holds an edge, and counts the edges prepared in it. Only `new` allocates.

ghost use Rattle.std.specs.Prelude.{◌≡◌, IfOk, vec_len};
ghost use Rattle.av1_lists.specs.Counts.{counted};

use av1_blocks::OutOfMemory;
use av1_frame::{Pixel, zero_samples};
use std::alloc::Global;

/// The greatest number of places on one side of an edge: twice the side of the largest transform.
pub(crate) const LONGEST_EDGE: usize = 128;

/// A buffer for the samples round a transform, 257 of them: 128 to its left from the bottom up, the corner, and 128
/// above it from left to right. It counts the edges that are prepared in it.
#[derive(Drop)]
pub struct IntraEdgeBuffer<T> {
    pub(crate) samples: Vec<T>,
    pub(crate) prepared: u64,
    pub(crate) ghost whole: { vec_len samples ≡ 257 },
}

impl<T: Pixel> IntraEdgeBuffer<T> {
    /// Allocates a buffer in which no edge has been prepared. The only error is running out of memory.
    pub fn new(alloc: Global) -> Result<IntraEdgeBuffer<T>, OutOfMemory>
        ensures { IfOk result (λ buffer. buffer.prepared ≡ 0) }
    {
        Ok(IntraEdgeBuffer {
            samples: zero_samples(alloc, 2 * LONGEST_EDGE + 1)?,
            prepared: 0,
        })
    }

    /// The number of edges that have been prepared in the buffer, up to the last value of a `u64`.
    pub fn prepared(&self) -> u64
        ensures { result ≡ self.now.prepared }
    {
        self.prepared
    }

    /// Counts one more edge.
    pub(crate) fn count(&mut self)
        ensures { self.new ≡ record self.old { prepared = counted self.old.prepared } }
    {
        self.prepared = self.prepared.saturating_add(1);
    }
}
