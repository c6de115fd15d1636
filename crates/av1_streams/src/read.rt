//! Reads a source to its end, up to a limit, and returns the bytes. Does input, and allocates the bytes.
ghost use Rattle.std.specs.Prelude.{◌≡◌, ◌+◌, ◌<◌, ◌≤◌, ◌^◌, length, take, drop, IsErrOf, IfOk, IfSome, OnOk, OnErr, vec_len};
ghost use Rattle.std.specs.Io.KnownBytes.{Consumes, Keeps, IsAtEnd};
ghost use Rattle.av1_streams.specs.Faults.{HasCause, FaultCounted};
ghost use Rattle.av1_streams.specs.Streams.{AreBytes, Takes, TakesAtMost, max_plan_bytes};
ghost use Rattle.av1_streams.specs.declared.read.ReadError.TheVariants.{Memory};

use crate::{Failed, Source};
use std::alloc::{AllocError, Global};

/// The greatest length of a plan in bytes: 64 MiB.
pub const MAX_PLAN_BYTES: usize = 1 << 26;

// The size of the first read: as much as a pipe holds.
const FIRST_READ: usize = 1 << 16;

// The number of zeros that are appended at a time.
const RUN: usize = 1024;

/// Why the bytes of a plan could not be read.
#[derive(Clone, Copy, Debug, PartialEq, Eq)]
pub enum ReadError {
    /// A read failed.
    ReadFault,
    /// The source gave a byte past the longest plan.
    TooLong,
    /// Memory ran out.
    Memory,
}

impl From<AllocError> for ReadError {
    ghost from_gives = { λ _ e. e ≡ Memory };

    fn from(_: AllocError) -> Self {
        ReadError::Memory
    }
}

/// Reads all that the source has left, to its end, at most [`MAX_PLAN_BYTES`], as [`read_bytes`] does.
pub fn read_plan_bytes<R: Source>(alloc: Global, source: &mut R) -> Result<Vec<u8>, ReadError>
    ensures bytes { IfOk result (λ bytes. IfSome (R.left source.old) (λ left. bytes.items ≡ left)) }
    ensures consumed { IfOk result (λ bytes. Consumes (R.left source.old) (R.left source.new) bytes.items) }
    ensures end { OnOk result (IsAtEnd (R.left source.new)) }
    ensures fits { IfOk result (λ bytes. AreBytes bytes.items) }
    ensures short { IfOk result (λ bytes. length bytes.items ≤ max_plan_bytes) }

    // It takes at most one byte past the longest plan, and returns `TooLong` if it took that byte.
    ensures taken { TakesAtMost (max_plan_bytes + 1) (R.left source.old) (R.left source.new) }
    ensures too_long { IsErrOf result ReadError.TooLong → Takes (max_plan_bytes + 1) (R.left source.old) (R.left source.new) }
    ensures longer { IsErrOf result ReadError.TooLong → IfSome (R.left source.old) (λ left. max_plan_bytes < length left) }

    // `ReadFault` is returned exactly if a read failed: the source counts this one. With every other result the count
    // is unchanged.
    ensures read_fault { IsErrOf result ReadError.ReadFault → FaultCounted (R.faults source.old) (R.faults source.new) }
    ensures uncounted { ¬ IsErrOf result ReadError.ReadFault → R.faults source.new ≡ R.faults source.old }
    ensures later { R.faults source.old ≤ R.faults source.new }
{
    read_bytes(alloc, source, MAX_PLAN_BYTES)
}

/// Reads all that the source has left, to its end, at most `limit` bytes. The limit is from 64 KiB, the size of the
/// first read, to 1 TiB. Each read fills the buffer as far as it can. The first read that fails ends the call.
pub fn read_bytes<R: Source>(
    alloc: Global,
    source: &mut R,
    limit: usize,
) -> Result<Vec<u8>, ReadError>
    requires least { 2 ^ 16 ≤ limit }
    requires most { limit ≤ 2 ^ 40 }
    ensures bytes { IfOk result (λ bytes. IfSome (R.left source.old) (λ left. bytes.items ≡ left)) }
    ensures consumed { IfOk result (λ bytes. Consumes (R.left source.old) (R.left source.new) bytes.items) }
    ensures end { OnOk result (IsAtEnd (R.left source.new)) }
    ensures fits { IfOk result (λ bytes. AreBytes bytes.items) }
    ensures short { IfOk result (λ bytes. length bytes.items ≤ limit) }

    // It takes at most one byte past the limit, and returns `TooLong` if it took that byte.
    ensures taken { TakesAtMost (limit + 1) (R.left source.old) (R.left source.new) }
    ensures too_long { IsErrOf result ReadError.TooLong → Takes (limit + 1) (R.left source.old) (R.left source.new) }
    ensures longer { IsErrOf result ReadError.TooLong → IfSome (R.left source.old) (λ left. limit < length left) }

    // `ReadFault` is returned exactly if a read failed: the source counts this one. With every other result the count
    // is unchanged.
    ensures read_fault { IsErrOf result ReadError.ReadFault → FaultCounted (R.faults source.old) (R.faults source.new) }
    ensures uncounted { ¬ IsErrOf result ReadError.ReadFault → R.faults source.new ≡ R.faults source.old }
    ensures later { R.faults source.old ≤ R.faults source.new }
{
    let mut bytes = Vec::new(alloc);
    let mut filled = 0;
    'reading: while filled <= limit {
        make_room(&mut bytes, filled, limit)?;
        match read_at(source, &mut bytes, filled) {
            Ok(0) => {
                bytes.truncate(filled);
                bytes.shrink_to_fit();
                return Ok(bytes);
            }
            Ok(count) => filled += count,
            Err(Failed) => return Err(ReadError::ReadFault),
        }
    }
    Err(ReadError::TooLong)
}

// Makes `bytes` longer than its filled part, by zeros: twice as long, if it is full.
fn make_room(bytes: &mut Vec<u8>, filled: usize, limit: usize) -> Result<(), AllocError>
    requires within { filled ≤ vec_len bytes.old }
    requires least { 2 ^ 16 ≤ limit }
    requires most { limit ≤ 2 ^ 40 }
    requires short { filled ≤ limit }
    requires limit { vec_len bytes.old ≤ limit + 1 }
    ensures room { OnOk result (filled < vec_len bytes.new) }
    ensures limit { vec_len bytes.new ≤ limit + 1 }
    ensures front { take filled bytes.new.items ≡ take filled bytes.old.items }
{
    if filled < bytes.len() {
        return Ok(());
    }
    lengthen(bytes, (2 * filled).clamp(FIRST_READ, limit + 1))
}

// Makes `bytes` `end` bytes long, by zeros.
fn lengthen(bytes: &mut Vec<u8>, end: usize) -> Result<(), AllocError>
    requires { vec_len bytes.old ≤ end }
    ensures len { OnOk result (vec_len bytes.new ≡ end) }
    ensures within { vec_len bytes.new ≤ end }
    ensures front { take (vec_len bytes.old) bytes.new.items ≡ bytes.old.items }
{
    let start = bytes.len();
    bytes.reserve_exact(end - start)?;
    for run in 0..(end - start) / RUN {
        bytes.resize(start + (run + 1) * RUN, 0)?;
    }
    bytes.resize(end, 0)
}

// Reads once into the bytes after the filled part.
fn read_at<R: Source>(source: &mut R, bytes: &mut [u8], filled: usize) -> Result<usize, Failed>
    requires { filled < length bytes.old }
    ensures front { take filled bytes.new ≡ take filled bytes.old }
    ensures bytes { AreBytes bytes.new }
    ensures fits { IfOk result (λ count. filled + count ≤ length bytes.new) }
    ensures ok { IfOk result (λ count. Consumes (R.left source.old) (R.left source.new) (take count (drop filled bytes.new))) }
    ensures end { IfOk result (λ count. count ≡ 0 → IsAtEnd (R.left source.new)) }
    ensures err { OnErr result (Keeps (R.left source.old) (R.left source.new)) }
    ensures cause { HasCause (R.faults source.old) (R.faults source.new) result }
{
    source.read(&mut bytes[filled..])
}
