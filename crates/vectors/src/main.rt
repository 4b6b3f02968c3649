//! Computes one operation: `vectors FORMAT OP MODE A [B [C]]` prints the bits and the flags of the result.
//!
//! The crate `commands` explains the arguments.
//!
//! The exit status is 0 for a result, 2 for a refusal, 3 if there is not enough memory for the arguments, and 1 if a
//! write fails or the arguments are not valid text.
#![tactic(auto)]

use commands::{run_given, words_of_system};
use std::process::ExitCode;

/// Runs the program and returns its exit status.
fn main(rt: HostRuntime) -> ExitCode {
    ExitCode::from(run_given(words_of_system(&rt), &mut rt.stdout(), &mut rt.stderr()))
}
