//! Converts a stream of values from one format to another: `convert_values FROM TO MODE` reads little-endian values in
//! the format FROM from standard input, and writes them in the format TO to standard output, in order. A line on
//! standard error counts the values and the flags that their conversions raised. `convert_values --block FORM FORMAT
//! MODE` quantizes values to blocks with a common scale, and with `--dequantize` takes them out of such blocks; with
//! `--stochastic SEED` random digits round.
//!
//! `HELP` explains the arguments.
//!
//! The exit status is 0 if all values were converted, 1 if the stream ended inside a value or a block, 2 for other
//! arguments, 3 if there is not enough memory for the buffers, and 4 if a read or a write failed.
#![tactic(auto)]

mod block_form;
mod block_words;
mod blocks;
mod conversions;
mod job;
mod random;
mod random_numbers;
mod run;
mod stream;
mod wrong_word;

use crate::run::run;
use commands::words_of_system;
use std::io::IsTerminal;
use std::process::ExitCode;

/// Runs the program and returns its exit status.
fn main(rt: HostRuntime) -> ExitCode {
    let words = words_of_system(&rt);
    let mut err = rt.stderr();
    let is_terminal = err.is_terminal();
    let status = run(
        &rt,
        words,
        is_terminal,
        &mut rt.stdin(),
        &mut rt.stdout(),
        &mut err,
    );
    ExitCode::from(status)
}
