//! Reads a plan from standard input, reconstructs it, and writes its planes to standard output.
//!
//! `av1_recon::run` does this, and also the commands `make N` and `sum N`. This file connects it to the real streams.
//! `av1_recon::run_on_words` reads the arguments, flushes the output and sets the exit status.
#![tactic(auto)]

#[cfg(test)]
mod tests;

use av1_recon::{ReadSource, WriteSink, run, run_on_words};
use std::process::ExitCode;

fn main(rt: HostRuntime) -> ExitCode {
    run_on_words(&rt, |words| {
        let mut source = ReadSource::new(rt.stdin());
        let mut out = WriteSink::new(rt.stdout());
        let mut err = WriteSink::new(rt.stderr());
        run(rt.alloc(), words, &mut source, &mut out, &mut err)
    })
}
