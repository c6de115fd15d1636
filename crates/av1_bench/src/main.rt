//! Reconstructs the plan on standard input N times, where N is the only argument, and prints its sums.
//! The sums are of the visible samples of each plane. It also prints the number of leaves. `make N` writes plan N.
//!
//! The plan is read, parsed and checked once, and one state serves all reconstructions. So the difference in time
//! between two values of N is only the time of reconstruction. [`program::run`] is all that the program does. This file
//! connects it to the real source and sinks. `av1_recon::run_on_words` reads the arguments, flushes the output and sets
//! the exit status.
#![tactic(auto)]

mod bench;
mod count;
mod program;

use av1_recon::{ReadSource, WriteSink, run_on_words};
use std::process::ExitCode;

fn main(rt: HostRuntime) -> ExitCode {
    run_on_words(&rt, |words| {
        let mut source = ReadSource::new(rt.stdin());
        let mut out = WriteSink::new(rt.stdout());
        let mut err = WriteSink::new(rt.stderr());
        program::run(rt.alloc(), words, &mut source, &mut out, &mut err)
    })
}
