//! Reads the program's arguments (allocates them), calls the program with them, and flushes standard output.

use std::env;
use std::io::{ErrorKind, Write};
use std::process::ExitCode;

// The status if the output could not be flushed, which is also the status of a failed write.
const WRITE_FAULT: u8 = 5;

// The status if the arguments could not be read.
const NO_WORDS: u8 = 6;

/// Calls `run` with the arguments after the program's name, flushes the output and returns the exit status of the
/// program. It is the status of `run`, with two exceptions. It is 5 if `run` returns 0 and the flush fails. It is 6 if
/// memory runs out before `run` has its arguments.
///
/// If an argument or the program's name is not UTF-8, `run` gets one empty argument instead of all. No program has such
/// a command, so it responds as to every other unknown command.
pub fn run_on_words<F: FnOnce(&[String]) -> u8>(rt: &HostRuntime, run: F) -> ExitCode
    requires { F.IsAlwaysCallable run }
{
    let Some(words) = words(rt) else {
        return ExitCode::from(NO_WORDS);
    };
    let status = run(&words);
    if rt.stdout().flush().is_err() && status == 0 {
        return ExitCode::from(WRITE_FAULT);
    }
    ExitCode::from(status)
}

// The arguments after the program's name, or one empty argument if they are not text, unless memory runs out.
fn words(rt: &HostRuntime) -> Option<Vec<String>> {
    match env::args(rt) {
        Ok(words) => words.skip(1).collect(rt.alloc()).ok(),
        Err(error) if error.kind() == ErrorKind::InvalidData => {
            Vec::from_array(rt.alloc(), [String::new(rt.alloc())]).ok()
        }
        Err(_) => None,
    }
}
