//! Which word of a command line is wrong.

use crate::block_words::{blocks_named, is_block_option, is_later_option};
use crate::job::{is_stochastic, seed_named};
use apfloat_arrays::stored::StoredFormat;
use commands::{FORMATS, MODES, WrongWord, suggested};
use formats_at_run_time::{BuiltInKind, mode_named};

/// The storage formats.
static STORED: &[&str] = &["e2m1fn", "e2m3fn", "e3m2fn", "e3m4", "e8m0fnu", "ue4m3"];

/// The options before a format.
static OPTIONS: &[&str] = &[
    "--block",
    "--saturate",
    "--saturate-finite",
    "--saturate-all",
    "--x87-bytes=10",
    "--x87-bytes=16",
    "--stochastic",
    "--help",
    "-h",
    "--version",
];

/// The first wrong word, if three words and any options before them make a job, or two with random digits.
pub fn wrong_word(words: &[String]) -> Option<WrongWord<'_>> {
    match words {
        [word, ..] if is_block_option(word.as_str()) => blocks_named(words).err()?,
        [word, next, ..] if is_option(word.as_str()) && is_block_option(next.as_str()) => {
            Some(wrong("no such option of blocks", word, &[]))
        }
        [word, ..] if is_later_option(word.as_str()) => Some(wrong(
            "an option that stands after `--block FORM`",
            word,
            &[],
        )),
        [word, seed, others @ ..] if is_stochastic(word.as_str()) => wrong_seed(seed, others),
        [word, others @ ..] if is_option(word.as_str()) => wrong_word(others),
        [word, ..] if word.as_str().starts_with('-') => Some(wrong(
            "no such option",
            word,
            OPTIONS,
        )),
        [_, _, _, word, ..] => Some(too_many(word)),
        _ => wrong_name(words),
    }
}

/// What is wrong with a word.
pub fn wrong<'a>(
    fault: &'static str,
    word: &'a String,
    known: &'static [&'static str],
) -> WrongWord<'a> {
    WrongWord {
        fault,
        word: word.as_str(),
        known,
    }
}

/// A word for which there is no place.
pub fn too_many(word: &String) -> WrongWord<'_> {
    wrong("a word too many", word, &[])
}

/// The first wrong word of a seed and the words after it.
fn wrong_seed<'a>(seed: &'a String, others: &'a [String]) -> Option<WrongWord<'a>> {
    if seed_named(seed.as_str()).is_none() {
        return Some(wrong("no whole number below 2^64", seed, &[]));
    }
    match others {
        [word, ..] if word.as_str().starts_with('-') => Some(wrong(
            "an option after the seed",
            word,
            &[],
        )),
        [_, _, word, ..] => Some(too_many(word)),
        [source, target] => match wrong_format(source.as_str()) {
            Some(wrong) => Some(wrong),
            None => wrong_format(target.as_str()),
        },
        _ => None,
    }
}

/// What is wrong with words none of which is wrong.
pub fn wrong_form(words: &[String]) -> &'static str {
    match words {
        [word, ..] if is_block_option(word.as_str()) => "too few words",
        [.., option, _, source, _]
            if is_stochastic(option.as_str()) && is_stored(source.as_str()) => {
            "random digits do not round values of a storage format: convert by way of single"
        }
        [.., source, target, _] if is_stored(source.as_str()) && is_stored(target.as_str()) => {
            "only one of the formats can be a storage format: convert by way of single"
        }
        [.., source, _, _] if !is_option(source.as_str()) => {
            "an option is given twice, or a saturating option is not the first"
        }
        _ => "too few words",
    }
}

/// Whether the word is an option.
fn is_option(word: &str) -> bool {
    matches!(
        word,
        "--saturate"
            | "--saturate-finite"
            | "--saturate-all"
            | "--x87-bytes=10"
            | "--x87-bytes=16"
            | "--stochastic"
    )
}

/// The first that does not exist, of two formats and a mode.
fn wrong_name(names: &[String]) -> Option<WrongWord<'_>> {
    let [source, target, mode] = names else {
        return None;
    };
    if let Some(wrong) = wrong_format(source.as_str()) {
        Some(wrong)
    } else if let Some(wrong) = wrong_format(target.as_str()) {
        Some(wrong)
    } else if mode_named(mode.as_str()).is_none() {
        Some(wrong("no such mode", mode, MODES))
    } else {
        None
    }
}

/// The word, if it names no format.
fn wrong_format(word: &str) -> Option<WrongWord<'_>> {
    if is_format(word) {
        return None;
    }
    Some(WrongWord {
        fault: "no such format",
        word,
        known: formats_near(word),
    })
}

/// The formats among which the one is that was meant, if one is one edit away.
fn formats_near(word: &str) -> &'static [&'static str] {
    if suggested(word, FORMATS).is_some() {
        FORMATS
    } else {
        STORED
    }
}

/// Whether the word names a format.
fn is_format(word: &str) -> bool {
    match BuiltInKind::named(word) {
        Some(kind) => kind.format().is_some(),
        None => is_stored(word),
    }
}

/// Whether the word names a storage format.
fn is_stored(word: &str) -> bool {
    StoredFormat::named(word).is_some()
}
