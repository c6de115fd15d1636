//! Runs a tool for plans on standard input and output. The argument names the tool:
//! `tiles` reconstructs a grid of tiles. `trace` compares another encoder's planes with a plan. `sequence` reconstructs
//! frames that are predicted from earlier frames. `bare` writes a plan without its coefficients.
//!
//! `av1_toolbox::run_tools` is all that the program does. This file connects it to the real source and sinks.
//! `av1_recon::run_on_words` reads the arguments, flushes the output and sets the exit status.
#![tactic(auto)]

use av1_recon::{ReadSource, WriteSink, run_on_words};
use av1_toolbox::run_tools;
use std::process::ExitCode;

fn main(rt: HostRuntime) -> ExitCode {
    run_on_words(&rt, |words| {
        let mut source = ReadSource::new(rt.stdin());
        let mut out = WriteSink::new(rt.stdout());
        let mut err = WriteSink::new(rt.stderr());
        run_tools(rt.alloc(), words, &mut source, &mut out, &mut err)
    })
}
