//! A sink that collects bytes in memory. Each write may allocate.
ghost use Rattle.std.specs.Prelude.{◌≡◌, ◌<◌, [], length, IfOk};
ghost use Rattle.std.specs.Io.{WritesAtMost};
ghost use Rattle.std.specs.Io.KnownBytes.{WriteAppends};
ghost use Rattle.av1_streams.specs.Faults.{HasCause};

use av1_streams::{Failed, Sink};
use std::alloc::Global;

/// A sink in memory that takes all bytes of each write. A write only fails if memory runs out.
#[derive(Drop)]
pub struct GatheringSink {
    bytes: Vec<u8>,
    faults: u64,
}

impl GatheringSink {
    ghost use Rattle.av1_c.specs.Gathered.{gathered};

    /// An empty sink.
    pub fn new(alloc: Global) -> GatheringSink
        ensures { gathered result ≡ [] }
    {
        GatheringSink {
            bytes: Vec::new(alloc),
            faults: 0,
        }
    }

    /// All bytes that the sink took.
    pub fn into_bytes(self) -> Vec<u8>
        ensures { result.items ≡ gathered self }
    {
        self.bytes
    }
}

impl Sink for GatheringSink {
    ghost use Rattle.av1_c.specs.Gathered.{gathered, gathering_faults, taken_of};

    ghost taken = { taken_of };

    ghost faults = { gathering_faults };

    fn write(&mut self, buf: &[u8]) -> Result<usize, Failed>
        requires { 0 < length buf.now }
        ensures some { IfOk result (λ count. 0 < count) }
        ensures bound { WritesAtMost result buf.now }
        ensures bytes { WriteAppends (taken_of self.old) (taken_of self.new) result buf.now }
        ensures cause { HasCause (gathering_faults self.old) (gathering_faults self.new) result }
    {
        match self.bytes.extend_from_slice(buf) {
            Ok(()) => Ok(buf.len()),
            Err(_) => {
                self.faults = self.faults.saturating_add(1);
                Err(Failed)
            }
        }
    }
}
