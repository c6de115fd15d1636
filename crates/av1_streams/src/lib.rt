//! Sources and sinks of bytes that count faults: over memory, or over any reader or writer. Does input and output.
//!
//! A [`Source`] gives bytes and a [`Sink`] takes them, in pieces of any size, and each counts its faults.
//! [`read_bytes`] reads a source to its end, and [`read_plan_bytes`] reads one that has a plan. [`write_bytes`] writes
//! all of a slice, or a prefix of it up to a fault. They are generic, so their promises hold for standard input and
//! output ([`ReadSource`], [`WriteSink`]) and for memory ([`SliceSource`], [`MemSink`]), whose calls fail on request. A
//! [`Line`] is a line of text for such a sink, built without allocating.
//!
//! The crate takes counts from `av1_lists`, and the error for running out of memory from `av1_blocks`.
//!
//! Promised to the layer above: every call returns. If a source or a sink reports its bytes, the clauses say which
//! bytes were taken from it or appended to it, also for errors. A count of faults rises by one, up to the last value of
//! a `u64`, if a read or a write fails, and only then. A call that makes many reads or writes and returns a fault has
//! counted one; with every other result the count is unchanged.
#![tactic(auto)]

mod line;
mod read;
mod sink;
mod source;
mod write;

pub use line::{LINE_BYTES, Line};
pub use read::{MAX_PLAN_BYTES, ReadError, read_bytes, read_plan_bytes};
pub use sink::{MemSink, Sink, WriteSink};
pub use source::{Failed, ReadSource, SliceSource, Source};
pub use write::{WriteFault, write_bytes};
