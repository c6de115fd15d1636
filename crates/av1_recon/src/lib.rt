//! Reads a plan from a source, reconstructs it, writes its planes to a sink; and the program around this. Allocates.
//!
//! [`reconstruct_plan`] is the whole path. It reads a source to its end, parses the plan, checks it, reconstructs it
//! and writes its visible planes, Y, U and V row by row. [`run`] does what the program's command line says.
//!
//! Other programs use the parts:
//!
//! - [`read_plan`] reads and checks a plan.
//! - [`write_with_predictions`] writes the planes, and to a second sink the prediction of each sample before the
//!   residual is added.
//! - [`write_sums`] reconstructs a plan and writes four lines on it: the number of its leaves, and the [`plane_sum`] of
//!   each plane.
//! - [`number_of`] parses an argument that is a number.
//! - [`report`] gives the line and the exit status of a result.
//! - [`run_on_words`] does the rest of a `main`.
//!
//! The crate takes sources and sinks from `av1_streams`, the grammar and the check of plans from `av1_plan`, and the
//! samples from `av1_tile`. It passes on what its callers need of them.
//!
//! Promised: these calls return, over every source and sink. One definition gives the outcome of bytes, `HasOutcome`
//! (`specs/Outcomes.antt`), and each result follows from it. The result is Ok only if the bytes are a valid plan; then
//! exactly the planes of the slow definition were appended. The bytes are rejected only if that is their outcome, and
//! then always, unless a read failed or memory ran out. The result is a fault exactly if the source or the sink counted
//! one, up to the last value of a `u64`. Only running out of memory is not determined; it comes before the first
//! written byte. All calls that read a plan and then write promise the same, `Converts`, whatever they write.
#![tactic(auto)]

mod answer;
mod command;
mod error;
mod host;
mod laws;
mod lines;
mod made;
mod number;
mod planes;
mod predictions;
mod program;
mod read;
mod reconstruct;
mod samples;
mod sums;

pub use answer::{
    malformed_line, plain_line, push_invalid, push_malformed, push_refusal, report, say,
};
pub use av1_plan::InvalidKind;
pub use av1_streams::{
    Failed, MAX_PLAN_BYTES, MemSink, ReadError, ReadSource, Sink, SliceSource, Source, WriteFault,
    WriteSink, read_plan_bytes,
};
pub use av1_tile::{TileState, reconstruct_tile};
pub use command::Command;
pub use error::{PlanFault, ReconError};
pub use host::run_on_words;
pub use laws::outcome_laws;
pub use lines::write_sums;
pub use made::{write_made, write_made_in, write_made_sums};
pub use number::number_of;
pub use planes::{write_frame, write_planes};
pub use predictions::write_with_predictions;
pub use program::run;
pub use read::read_plan;
pub use reconstruct::{reconstruct_plan, reconstruct_valid};
pub use sums::plane_sum;
