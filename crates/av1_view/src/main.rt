//! Reads a plan from standard input, and writes a page that shows it to standard output.
//! The page is one file for any browser. The program also shows other inputs:
//!
//! - With the argument `trace` it reads a plan and its planes from another encoder. The page marks where these differ.
//! - With the argument `sequence` it reads a sequence of frames.
//! - With the argument `tiles` it reads a grid of tiles.
//!
//! [`program::run_view`] is all that the program does. This file connects it to the real source and sinks.
//! `av1_recon::run_on_words` reads the arguments, flushes the output and sets the exit status.
//!
//! What the program promises:
//!
//! - One definition, `page` (`specs/Page.antt`), says what the page is: constant parts, and between them data in
//!   base64. The data is the plan's bytes, its visible planes by the slow definition, and its predictions, packed
//!   (`packed`, `specs/Packed.antt`).
//! - The packed predictions can be unpacked ([`laws::packed_is_read_again`]).
//! - [`view::view_plan`] keeps the contract of all calls that read a plan and write (`Converts` of `av1_recon`).
//! - [`trace::view_trace`], [`sequence::view_sequence`] and [`tiles::view_tiles`] keep the contract of all calls that
//!   read bytes and write (`Performs` of `av1_streams`).
//! - The page of a sequence or of a grid has the file's bytes and all of its planes (`file_page`,
//!   `specs/FilePages.antt`).
//! - What a browser shows of a page is tested, not proved.
#![tactic(auto)]

mod answer;
mod base64_text;
mod command;
mod file;
mod gathered;
mod laws;
mod packed;
mod page;
mod planes;
mod program;
mod sequence;
mod template;
mod tiles;
mod trace;
mod view;

use av1_recon::{ReadSource, WriteSink, run_on_words};
use std::process::ExitCode;

fn main(rt: HostRuntime) -> ExitCode {
    run_on_words(&rt, |words| {
        let mut source = ReadSource::new(rt.stdin());
        let mut out = WriteSink::new(rt.stdout());
        let mut err = WriteSink::new(rt.stderr());
        program::run_view(rt.alloc(), words, &mut source, &mut out, &mut err)
    })
}
