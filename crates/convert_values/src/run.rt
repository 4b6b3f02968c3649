//! Runs the program, and reports the outcome.

ghost use Rattle.std.specs.Prelude.{◌≡◌, IfOk};
ghost use Rattle.convert_values.specs.Statuses.{failure_status, summary_status};

use crate::job::{HELP, Job};
use crate::stream::{Failure, Summary, convert_stream};
use crate::wrong_word::{wrong_form, wrong_word};
use apfloat_arrays::Counts;
use commands::{Progress, write_fault};
use std::io;
use std::io::{ErrorKind, Read, Write};
use std::rt::Clock;

const PROGRAM: &str = "convert_values";

const ENDED_INSIDE: u8 = 1;

const OTHER_WORDS: u8 = 2;

const NO_MEMORY: u8 = 3;

const FAILED: u8 = 4;

/// Runs the program with the arguments from the system: converts `input` to `output`, and reports the outcome on `err`,
/// and if that is a terminal, also how far a long stream has come.
///
/// Returns the exit status.
pub fn run<R: Clock + AllocGlobal, I: Read, W: Write, V: Write>(
    rt: &R,
    given: io::Result<Vec<String>>,
    is_terminal: bool,
    input: &mut I,
    output: &mut W,
    err: &mut V,
) -> u8 {
    match given {
        Ok(words) => {
            answer(rt, words.as_slice(), is_terminal, input, output, err).unwrap_or(FAILED)
        }
        Err(error) => refuse_words(error, err).unwrap_or(FAILED),
    }
}

/// The exit status, or the error of a write to `err` or of writing the help.
fn answer<R: Clock + AllocGlobal, I: Read, W: Write, V: Write>(
    rt: &R,
    words: &[String],
    is_terminal: bool,
    input: &mut I,
    output: &mut W,
    err: &mut V,
) -> io::Result<u8> {
    match Job::named(words) {
        None => {
            tell_wrong_word(words, err)?;
            Ok(OTHER_WORDS)
        }
        Some(Job::About(about)) => {
            about.answer(PROGRAM, HELP, output)?;
            Ok(0)
        }
        Some(Job::Convert(conversion)) => {
            let progress = Progress::new(is_terminal, rt);
            match convert_stream(rt, conversion, progress, input, output, err) {
                Ok(summary) => tell(conversion.unit(), summary, err),
                Err(failure) => tell_failure(failure, err),
            }
        }
    }
}

/// Names the word that is wrong, if one is.
fn tell_wrong_word<V: Write>(words: &[String], err: &mut V) -> io::Result<()> {
    match wrong_word(words) {
        Some(wrong) => wrong.write(PROGRAM, err),
        None => write_fault(PROGRAM, wrong_form(words), err),
    }
}

/// Reports why there are no arguments.
fn refuse_words<V: Write>(error: io::Error, err: &mut V) -> io::Result<u8> {
    match error.kind() {
        ErrorKind::OutOfMemory => {
            writeln!(err, "convert_values: no memory for the words")?;
            Ok(NO_MEMORY)
        }
        _ => {
            write_fault(PROGRAM, "the words are not valid text", err)?;
            Ok(OTHER_WORDS)
        }
    }
}

/// Reports the counts, and whether the stream ended inside a value or a block.
fn tell<V: Write>(unit: &str, summary: Summary, err: &mut V) -> io::Result<u8>
    ensures { IfOk result (λ status. status ≡ summary_status summary) }
{
    tell_counts(summary.counts, err)?;
    let bytes = summary.left_over;
    if bytes == 0 {
        return Ok(0);
    }
    writeln!(
        err,
        "convert_values: the stream ended inside a {unit}; bytes after the last whole one: {bytes}"
    )?;
    Ok(ENDED_INSIDE)
}

/// Writes the line of counts.
fn tell_counts<V: Write>(counts: Counts, err: &mut V) -> io::Result<()> {
    let Counts {
        values,
        inexact,
        underflow,
        overflow,
        invalid,
        nans,
    } = counts;
    writeln!(
        err,
        "values {values}, inexact {inexact}, underflow {underflow}, overflow {overflow}, invalid {invalid}, NaNs {nans}"
    )
}

/// Reports what failed.
pub fn tell_failure<V: Write>(failure: Failure, err: &mut V) -> io::Result<u8>
    ensures { IfOk result (λ status. status ≡ failure_status failure) }
{
    match failure {
        Failure::Memory => {
            writeln!(err, "convert_values: no memory for the buffers")?;
            return Ok(NO_MEMORY);
        }
        Failure::Reading(error) => tell_error("reading", error, err)?,
        Failure::Writing(error) => tell_error("writing", error, err)?,
        Failure::TooLong => writeln!(err, "convert_values: the stream has too many values")?,
    }
    Ok(FAILED)
}

/// Reports a read or a write that failed.
fn tell_error<V: Write>(what: &str, error: io::Error, err: &mut V) -> io::Result<()> {
    writeln!(err, "convert_values: {what} failed: {error}")
}
