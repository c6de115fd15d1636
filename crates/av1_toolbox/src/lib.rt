//! Tools for plans, each with a name. A tool reads a source, and writes a sink and an error line. Allocates. The tools:
//!
//! - `tiles` reconstructs a grid of tiles.
//! - `trace` compares the planes of another encoder with a plan.
//! - `sequence` reconstructs frames that are predicted from earlier frames.
//! - `bare` writes a plan without its coefficients.
//!
//! [`run_tools`] is all that the program `av1_tools` does with its arguments. So other programs can run the tools over
//! memory. [`report_sequence`] and [`report_tiles`] give the statuses and the lines of two tools, for programs that do
//! something else with such files.
//!
//! This crate uses `av1_tiles`, `av1_trace`, `av1_sequence` and `av1_planwrite` for the tools, and `av1_recon` for the
//! lines and statuses of programs.
//!
//! What it promises: each tool keeps the contract of its call, and the status and the line are those of the result.
//! Each status also says something about the bytes and the output (`specs/Ends.antt`,
//! `specs/EndsInTurn.antt`).
#![tactic(auto)]

mod answer;
mod program;
mod tool;

pub use answer::{report_sequence, report_tiles};
pub use program::run_tools;
