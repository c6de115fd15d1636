//! Replays recorded rows (calls and their answers) from standard input, and prints how many differ.
//! Each kind of row has a line. Both answers of the first differing row follow. Format: `tools/record_rows/README.md`.
//!
//! [`program::replay_rows`] is all that the program does. This file connects it to the real source and sinks.
//! `av1_recon::run_on_words` flushes the output and sets the exit status. The program ignores its arguments.
#![tactic(auto)]

mod error;
mod program;
mod report;
mod row;
mod run;
mod tally;

use av1_recon::{ReadSource, WriteSink, run_on_words};
use std::process::ExitCode;

fn main(rt: HostRuntime) -> ExitCode {
    run_on_words(&rt, |_words| {
        let mut source = ReadSource::new(rt.stdin());
        let mut out = WriteSink::new(rt.stdout());
        let mut err = WriteSink::new(rt.stderr());
        program::replay_rows(rt.alloc(), &mut source, &mut out, &mut err)
    })
}
