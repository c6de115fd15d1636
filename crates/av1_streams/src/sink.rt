//! Sinks of bytes: the trait, one in memory, and one over any writer. Does output; only `MemSink::new` allocates.
ghost use Rattle.std.specs.Prelude.{◌≡◌, ◌⊎◌, ◌↔◌, ℕ, ◌-◌, ◌<◌, ◌≤◌, min, List, [], length, Option, Some, Contains, IsErr, IfOk, vec_len, vec_capacity};
ghost use Rattle.std.specs.Io.{WritesAtMost};
ghost use Rattle.std.specs.Io.KnownBytes.{WriteAppends};
ghost use Rattle.av1_lists.specs.Counts.{counted};
ghost use Rattle.av1_streams.specs.Faults.{HasCause};

use crate::Failed;
use av1_blocks::OutOfMemory;
use std::alloc::Global;
use std::io::Write;

/// A sink of bytes that counts its faults.
pub trait Sink {
    /// The bytes taken so far, if the sink reports them.
    ghost taken: { Self → Option (List ℕ) };

    /// How many writes have failed, up to the last value of a `u64`.
    ghost faults: { Self → ℕ };

    /// Takes the first bytes of `buf`, at least one, and returns how many. A write that failed took nothing. It is
    /// counted, and no other write is.
    fn write(&mut self, buf: &[u8]) -> Result<usize, Failed>
        requires { 0 < length buf.now }
        ensures some { IfOk result (λ count. 0 < count) }
        ensures bound { WritesAtMost result buf.now }
        ensures bytes { WriteAppends (taken self.old) (taken self.new) result buf.now }
        ensures cause { HasCause (faults self.old) (faults self.new) result };
}

/// A sink in memory, with a buffer of `room` bytes. A write takes at most `piece` of them, and the writes whose numbers
/// are listed fail.
#[derive(Drop)]
pub struct MemSink<'a> {
    bytes: Vec<u8>,
    room: usize,
    piece: usize,
    fails: &'a [u64],
    calls: u64,
    faults: u64,
    ghost moves: { 0 < piece },
    ghost reserved: { room ≤ vec_capacity bytes },
    ghost within: { vec_len bytes ≤ room },
}

impl<'a> MemSink<'a> {
    ghost use Rattle.av1_streams.specs.Memory.{sink_bytes, sink_room, sink_piece, sink_fails, sink_calls, sink_faults};

    /// An empty sink. It reserves the whole buffer, so that no write allocates. The writes numbered in `fails`, from 0,
    /// fail, and writes to a full buffer.
    pub fn new(
        alloc: Global,
        room: usize,
        piece: usize,
        fails: &'a [u64],
    ) -> Result<MemSink<'a>, OutOfMemory>
        requires { 0 < piece }
        ensures bytes { IfOk result (λ s. sink_bytes s ≡ []) }
        ensures room { IfOk result (λ s. sink_room s ≡ room) }
        ensures piece { IfOk result (λ s. sink_piece s ≡ piece) }
        ensures fails { IfOk result (λ s. sink_fails s ≡ fails.entry.now) }
        ensures calls { IfOk result (λ s. sink_calls s ≡ 0) }
        ensures faults { IfOk result (λ s. sink_faults s ≡ 0) }
    {
        Ok(MemSink {
            bytes: Vec::with_capacity(alloc, room)?,
            room,
            piece,
            fails,
            calls: 0,
            faults: 0,
        })
    }

    /// The bytes that were taken.
    pub fn bytes(&self) -> &[u8]
        ensures { result.now ≡ sink_bytes self.now }
    {
        &self.bytes
    }
}

impl Sink for MemSink<'_> {
    ghost use Rattle.av1_streams.specs.Memory.{sink_bytes, sink_room, sink_piece, sink_fails, sink_calls, sink_faults};

    ghost taken = { λ s. Some (sink_bytes s) };

    ghost faults = { sink_faults };

    fn write(&mut self, buf: &[u8]) -> Result<usize, Failed>
        requires { 0 < length buf.now }
        ensures some { IfOk result (λ count. 0 < count) }
        ensures bound { WritesAtMost result buf.now }
        ensures bytes { WriteAppends (Some (sink_bytes self.old)) (Some (sink_bytes self.new)) result buf.now }
        ensures cause { HasCause (sink_faults self.old) (sink_faults self.new) result }

        // It takes what fits, up to a piece. It fails only if the buffer is full and in the numbered calls.
        ensures count { IfOk result (λ n. n ≡ min (sink_piece self.old) (min (sink_room self.old - length (sink_bytes self.old)) (length buf.now))) }
        ensures numbered { IsErr result ↔ (Contains (sink_fails self.old) (sink_calls self.old) ⊎ (sink_room self.old ≤ length (sink_bytes self.old))) }
        ensures calls { sink_calls self.new ≡ counted (sink_calls self.old) }
        ensures same { (sink_room self.new ≡ sink_room self.old) × (sink_piece self.new ≡ sink_piece self.old) × (sink_fails self.new ≡ sink_fails self.old) }
    {
        let call = self.calls;
        self.calls = call.saturating_add(1);
        let count = (self.room - self.bytes.len())
            .min(buf.len())
            .min(self.piece);
        if count == 0 || self.fails.contains(&call) {
            self.faults = self.faults.saturating_add(1);
            return Err(Failed);
        }
        // The buffer was reserved, so this can't fail.
        self.bytes.extend_from_slice(&buf[..count]).unwrap();
        Ok(count)
    }
}

/// A sink over any writer, such as standard output. It reports the bytes that the writer reports.
///
/// Each write is one write to the writer. No clause can say this of a writer that reports nothing, or of a write that
/// failed. The reason is the same as for [`crate::ReadSource`].
#[derive(Drop)]
pub struct WriteSink<W> {
    inner: W,
    faults: u64,
}

impl<W: Write> WriteSink<W> {
    ghost use Rattle.av1_streams.specs.Adapters.{writer_of, writer_faults};

    /// A sink into this writer, with no fault so far.
    pub fn new(inner: W) -> WriteSink<W>
        ensures inner { writer_of result ≡ inner }
        ensures faults { writer_faults result ≡ 0 }
    {
        WriteSink { inner, faults: 0 }
    }
}

impl<W: Write> Sink for WriteSink<W> {
    ghost use Rattle.av1_streams.specs.Adapters.{writer_of, writer_faults};

    ghost taken = { λ s. W.contents (writer_of s) };

    ghost faults = { writer_faults };

    /// Each error of the writer is a fault, and so is each write that took nothing.
    fn write(&mut self, buf: &[u8]) -> Result<usize, Failed>
        requires { 0 < length buf.now }
        ensures some { IfOk result (λ count. 0 < count) }
        ensures bound { WritesAtMost result buf.now }
        ensures bytes { WriteAppends (W.contents (writer_of self.old)) (W.contents (writer_of self.new)) result buf.now }
        ensures cause { HasCause (writer_faults self.old) (writer_faults self.new) result }
    {
        match self.inner.write(buf) {
            Ok(count) if 0 < count => Ok(count),
            _ => {
                self.faults = self.faults.saturating_add(1);
                Err(Failed)
            }
        }
    }
}
