//! A sink that keeps all bytes in memory. Each write may allocate.
ghost use Rattle.std.specs.Prelude.{◌≡◌, ◌<◌, [], Some, length, IfOk};
ghost use Rattle.std.specs.Io.{WritesAtMost};
ghost use Rattle.std.specs.Io.KnownBytes.{WriteAppends};
ghost use Rattle.av1_streams.specs.Faults.{HasCause};
ghost use Rattle.av1_view.specs.Gathered.{gathered_bytes, gathered_faults};

use av1_blocks::OutOfMemory;
use av1_streams::{Failed, Sink};
use std::alloc::Global;

/// All bytes so far. A write only fails if memory runs out.
#[derive(Drop)]
pub struct Gathered {
    bytes: Vec<u8>,
    faults: u64,
}

impl Gathered {
    /// An empty sink.
    pub fn new(alloc: Global) -> Gathered
        ensures { gathered_bytes result ≡ [] }
    {
        Gathered {
            bytes: Vec::new(alloc),
            faults: 0,
        }
    }

    /// An empty sink with space for `capacity` bytes. The error is that memory ran out.
    pub fn with_capacity(alloc: Global, capacity: usize) -> Result<Gathered, OutOfMemory>
        ensures { IfOk result (λ gathered. gathered_bytes gathered ≡ []) }
    {
        Ok(Gathered {
            bytes: Vec::with_capacity(alloc, capacity)?,
            faults: 0,
        })
    }

    /// The bytes that were written.
    pub fn into_bytes(self) -> Vec<u8>
        ensures { result.items ≡ gathered_bytes self }
    {
        let Gathered { bytes, .. } = self;
        bytes
    }
}

impl Sink for Gathered {
    ghost taken = { λ s. Some (gathered_bytes s) };

    ghost faults = { gathered_faults };

    /// Takes all bytes, or none if memory runs out.
    fn write(&mut self, buf: &[u8]) -> Result<usize, Failed>
        requires { 0 < length buf.now }
        ensures some { IfOk result (λ count. 0 < count) }
        ensures bound { WritesAtMost result buf.now }
        ensures bytes { WriteAppends (Some (gathered_bytes self.old)) (Some (gathered_bytes self.new)) result buf.now }
        ensures cause { HasCause (gathered_faults self.old) (gathered_faults self.new) result }
    {
        if self.bytes.extend_from_slice(buf).is_err() {
            self.faults = self.faults.saturating_add(1);
            return Err(Failed);
        }
        Ok(buf.len())
    }
}
