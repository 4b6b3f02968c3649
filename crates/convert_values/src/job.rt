//! The words of a command line, as a job for the program.

use crate::block_words::{blocks_named, is_block_option};
use crate::conversions::StreamConversion;
use apfloat_arrays::Extended;
use commands::About;
use small_formats::saturation::{FiniteNan, Overflow};

/// The help; `packaging/manual` makes the man page and the completions of it.
pub const HELP: &str = "\
usage: convert_values [--saturate | --saturate-finite | --saturate-all]
                      [--x87-bytes=10|16] FROM TO MODE
       convert_values --block FORM [--dequantize] [--block-length N]
                      [--tensor-scale X] FORMAT MODE
       convert_values [--saturate ..] [--x87-bytes=10|16]
                      --stochastic SEED FROM TO
       convert_values --help | --version

Converts a stream of values to another format: reads little-endian values of the
format FROM from standard input, and writes them in the format TO to standard
output.

FROM, TO  half single double quad bfloat e5m2 e4m3fn e4m3fnuz x87 e4m3
          e5m2fnuz e4m3b11fnuz tf32 e2m1fn e2m3fn e3m2fn e3m4 e8m0fnu ue4m3
MODE      even    to the nearest value, ties to even
          up      toward positive
          down    toward negative
          zero    toward zero
          away    to the nearest value, ties away from zero

--saturate         a number past the largest value of TO becomes the largest
                   value of its sign, with the same flags as without the option
--saturate-finite  the same, and an infinity becomes the largest value of its
                   sign, with INEXACT
--saturate-all     the same, and a NaN becomes the largest value, with
                   INVALID_OP
--x87-bytes=10     a value of the format x87 takes 10 bytes; this is the default
--x87-bytes=16     it takes 16 bytes; the last 6 are ignored, and written as 0
--block FORM       values of FORMAT become blocks with a common scale, of the form
                   mxfp4, mxfp6e2m3, mxfp6e3m2, mxfp8e4m3, mxfp8e5m2 or nvfp4
--dequantize       such blocks become values of FORMAT
--block-length N   a block has N values, 1 to 1024; without this option 32, and 16
                   in nvfp4
--tensor-scale X   the scale of all blocks of nvfp4, a positive number, decimal or
                   hexadecimal, read as the nearest single; 1 without this option
--stochastic SEED  in place of a MODE: random digits take each number to one of
                   its two neighbours, the nearer one more often; SEED is a
                   whole number below 2^64
--help, -h         writes this text
--version          writes the name and the version of the program

The last six formats are storage formats, whose values take a byte each. FROM
and TO cannot both be one, FORMAT cannot, and with --stochastic only TO can.

A block is its scale in e8m0fnu, or ue4m3 in nvfp4, a byte, and after it the
codes of its values: one of 8 bits in a byte, two of 4 bits in a byte or four of
6 bits in three, from the lowest bit on.

At the end a line on standard error counts the values, those that raised each
flag, and the NaNs among the values written. Before that, if standard error is
a terminal, a line every two seconds says how many values were written.

The exit status is 0; 1 if the stream ended inside a value or a block, 2
for other arguments, 3 if there is not enough memory, and 4 if a read or a write
failed.

    convert_values single e4m3fn even < singles > bytes
    convert_values --block mxfp4 single even < singles > blocks
";

/// What the program is to do.
#[derive(Clone, Copy)]
pub enum Job {
    /// Answer a question about the program.
    About(About),
    /// Convert a stream.
    Convert(StreamConversion),
}

impl Job {
    /// The job that the words of a command line name, without the program's own name.
    pub fn named(words: &[String]) -> Option<Job> {
        match About::among(words) {
            Some(about) => Some(Job::About(about)),
            None => Some(Job::Convert(conversion_named(words)?)),
        }
    }
}

/// The conversion of a stream that the words name.
fn conversion_named(words: &[String]) -> Option<StreamConversion> {
    match words {
        [option, ..] if is_block_option(option.as_str()) => match blocks_named(words) {
            Ok(conversion) => Some(StreamConversion::Blocks(conversion)),
            Err(_) => None,
        },
        [option, others @ ..] => match overflow_named(option.as_str()) {
            Some(overflow) => after_overflow(overflow, others),
            None => after_overflow(Overflow::Rounded, words),
        },
        [] => None,
    }
}

/// The conversion that the words after the treatment of overflow name.
fn after_overflow(overflow: Overflow, words: &[String]) -> Option<StreamConversion> {
    match words {
        [option, others @ ..] => match extended_named(option.as_str()) {
            Some(extended) => after_layout(overflow, extended, others),
            None => after_layout(overflow, Extended::Packed, words),
        },
        [] => None,
    }
}

/// The conversion that the words after the options name.
fn after_layout(
    overflow: Overflow,
    extended: Extended,
    words: &[String],
) -> Option<StreamConversion> {
    match words {
        [option, seed, source, target] if is_stochastic(option.as_str()) => {
            let seed = seed_named(seed.as_str())?;
            let (source, target) = (source.as_str(), target.as_str());
            StreamConversion::random(extended, overflow, seed, source, target)
        }
        [source, target, mode] => {
            let (source, target) = (source.as_str(), target.as_str());
            StreamConversion::named(extended, overflow, source, target, mode.as_str())
        }
        _ => None,
    }
}

/// What a number that overflows becomes with this option.
fn overflow_named(option: &str) -> Option<Overflow> {
    match option {
        "--saturate" => Some(Overflow::Saturated),
        "--saturate-finite" => Some(Overflow::Finite(FiniteNan::Kept)),
        "--saturate-all" => Some(Overflow::Finite(FiniteNan::Largest)),
        _ => None,
    }
}

/// The layout of x87 values that this option names.
fn extended_named(option: &str) -> Option<Extended> {
    match option {
        "--x87-bytes=10" => Some(Extended::Packed),
        "--x87-bytes=16" => Some(Extended::Padded),
        _ => None,
    }
}

/// Whether the option asks for random digits.
pub fn is_stochastic(option: &str) -> bool {
    option == "--stochastic"
}

/// The seed of random numbers that this word is.
pub fn seed_named(word: &str) -> Option<u64> {
    match word.parse::<u64>() {
        Ok(seed) => Some(seed),
        Err(_) => None,
    }
}
