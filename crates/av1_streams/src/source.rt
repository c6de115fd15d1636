//! Sources of bytes: the trait, one over a slice, and one over any reader. Does input; never allocates.
ghost use Rattle.std.specs.Prelude.{◌≡◌, ◌↔◌, ℕ, ◌<◌, min, List, length, drop, Option, Some, Contains, MatchResult, IsErr, IfOk};
ghost use Rattle.std.specs.Io.{ReadsAtMost};
ghost use Rattle.std.specs.Io.KnownBytes.{ReadConsumes};
ghost use Rattle.av1_lists.specs.Counts.{counted};
ghost use Rattle.av1_streams.specs.Faults.{HasCause};

use std::io::Read;

/// The error of a read or a write that failed.
#[derive(Clone, Copy, Debug, PartialEq, Eq)]
pub struct Failed;

/// A source of bytes that counts its faults.
pub trait Source {
    /// The bytes that are left, if the source reports them.
    ghost left: { Self → Option (List ℕ) };

    /// How many reads have failed, up to the last value of a `u64`.
    ghost faults: { Self → ℕ };

    /// Moves the first bytes that are left into the front of `buf`, and returns how many. `Ok(0)` is the end: nothing
    /// is left. A read that failed moved nothing. It is counted, and no other read is.
    fn read(&mut self, buf: &mut [u8]) -> Result<usize, Failed>
        requires { 0 < length buf.old }
        ensures bound { ReadsAtMost result buf.new }
        ensures bytes { ReadConsumes (left self.old) (left self.new) result buf.new }
        ensures cause { HasCause (faults self.old) (faults self.new) result };
}

/// A source over a slice: a read gives at most `piece` bytes, and the reads whose numbers are listed
/// fail.
#[derive(Drop)]
pub struct SliceSource<'a> {
    bytes: &'a [u8],
    piece: usize,
    fails: &'a [u64],
    calls: u64,
    faults: u64,
    ghost moves: { 0 < piece },
}

impl<'a> SliceSource<'a> {
    ghost use Rattle.av1_streams.specs.Memory.{source_bytes, source_piece, source_fails, source_calls, source_faults};

    /// A source of these bytes. The reads numbered in `fails`, from 0, fail, and no others.
    pub fn new(bytes: &'a [u8], piece: usize, fails: &'a [u64]) -> SliceSource<'a>
        requires { 0 < piece }
        ensures bytes { source_bytes result ≡ bytes.entry.now }
        ensures piece { source_piece result ≡ piece }
        ensures fails { source_fails result ≡ fails.entry.now }
        ensures calls { source_calls result ≡ 0 }
        ensures faults { source_faults result ≡ 0 }
    {
        SliceSource {
            bytes,
            piece,
            fails,
            calls: 0,
            faults: 0,
        }
    }
}

impl Source for SliceSource<'_> {
    ghost use Rattle.av1_streams.specs.Memory.{source_bytes, source_piece, source_fails, source_calls, source_faults};

    ghost left = { λ s. Some (source_bytes s) };

    ghost faults = { source_faults };

    fn read(&mut self, buf: &mut [u8]) -> Result<usize, Failed>
        requires { 0 < length buf.old }
        ensures bound { ReadsAtMost result buf.new }
        ensures bytes { ReadConsumes (Some (source_bytes self.old)) (Some (source_bytes self.new)) result buf.new }
        ensures cause { HasCause (source_faults self.old) (source_faults self.new) result }

        // It gives the bytes that are left, up to a piece, and fails only in the numbered calls.
        ensures count { IfOk result (λ n. n ≡ min (source_piece self.old) (min (length (source_bytes self.old)) (length buf.old))) }
        ensures rest { MatchResult result (λ n. drop n buf.new ≡ drop n buf.old) (λ _. buf.new ≡ buf.old) }
        ensures numbered { IsErr result ↔ Contains (source_fails self.old) (source_calls self.old) }
        ensures calls { source_calls self.new ≡ counted (source_calls self.old) }
        ensures same { (source_piece self.new ≡ source_piece self.old) × (source_fails self.new ≡ source_fails self.old) }
    {
        let call = self.calls;
        self.calls = call.saturating_add(1);
        if self.fails.contains(&call) {
            self.faults = self.faults.saturating_add(1);
            return Err(Failed);
        }
        let count = self.bytes.len().min(buf.len()).min(self.piece);
        let (front, rest) = self.bytes.split_at(count);
        buf[..count].copy_from_slice(front);
        self.bytes = rest;
        Ok(count)
    }
}

/// A source over any reader, such as standard input. It reports the bytes that the reader reports.
///
/// Each read is one read of the reader. No clause can say this of a reader that reports nothing, or of a read that
/// failed. The reason is that std counts no reads and doesn't promise that any succeeds.
#[derive(Drop)]
pub struct ReadSource<R> {
    inner: R,
    faults: u64,
}

impl<R: Read> ReadSource<R> {
    ghost use Rattle.av1_streams.specs.Adapters.{reader_of, reader_faults};

    /// A source of what this reader gives, with no fault so far.
    pub fn new(inner: R) -> ReadSource<R>
        ensures inner { reader_of result ≡ inner }
        ensures faults { reader_faults result ≡ 0 }
    {
        ReadSource { inner, faults: 0 }
    }
}

impl<R: Read> Source for ReadSource<R> {
    ghost use Rattle.av1_streams.specs.Adapters.{reader_of, reader_faults};

    ghost left = { λ s. R.remaining (reader_of s) };

    ghost faults = { reader_faults };

    /// Each error of the reader is a fault.
    fn read(&mut self, buf: &mut [u8]) -> Result<usize, Failed>
        requires { 0 < length buf.old }
        ensures bound { ReadsAtMost result buf.new }
        ensures bytes { ReadConsumes (R.remaining (reader_of self.old)) (R.remaining (reader_of self.new)) result buf.new }
        ensures cause { HasCause (reader_faults self.old) (reader_faults self.new) result }
    {
        match self.inner.read(buf) {
            Ok(count) => Ok(count),
            Err(_) => {
                self.faults = self.faults.saturating_add(1);
                Err(Failed)
            }
        }
    }
}
