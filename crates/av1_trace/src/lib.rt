//! Compares planes of another encoder with their plan: reads a source, writes lines to a sink. Allocates.
//!
//! [`compare`] takes a valid plan and the bytes of its visible planes from another encoder. It lists each leaf and
//! plane with a sample that differs from the slow definition, and the first such sample. So the list says at which
//! block an encoder first went wrong. [`write_differences`] writes a line for each entry.
//!
//! [`parse_trace`] reads the plan and the planes from the bytes of one trace, and [`trace_differences`] compares them.
//! [`check_trace`] reads these bytes from a source to its end and writes the lines to a sink. [`report_error`] gives
//! programs the line and the exit status of an error.
//!
//! This crate uses `av1_streams` for sinks and lines, `av1_plan` for plans and `av1_tile` for their samples. It uses
//! `av1_order` for the law that the leaves of a plan tile its planes, and `av1_recon` for the statuses and lines of
//! programs.
//!
//! What the calls promise:
//!
//! - The list is `differences` (`specs/Differences.antt`), complete and with nothing else. It is empty exactly if the
//!   bytes are those of the plan's planes.
//! - Bytes that are not a valid trace are rejected with the first bad field (`specs/Traces.antt`).
//! - One definition, `HasOutcome` (`specs/Checking.antt`), gives the outcome of bytes. It decides what [`check_trace`]
//!   does, by the record `Performs` of `av1_streams`.
//! - The exception is that memory may run out. This happens only before the first byte is written.
#![tactic(auto)]

mod answer;
mod comparison;
mod entry;
mod error;
mod laws;
mod lines;
mod samples;
mod trace;

pub use answer::report_error;
pub use av1_recon::PlanFault;
pub use comparison::compare;
pub use entry::Difference;
pub use error::TraceError;
pub use laws::{every_place_has_its_leaf, trace_outcome_laws};
pub use lines::write_differences;
pub use samples::planes_len;
pub use trace::{MAX_TRACE_BYTES, Trace, check_trace, parse_trace, trace_differences};
