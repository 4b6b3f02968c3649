//! The words of a command line that name a conversion to blocks, or out of them.

ghost use Rattle.std.specs.Prelude.{◌≡◌, true, IfOk};
ghost use Rattle.apfloat_arrays.specs.scaled_blocks.Formats.{has_scale};
ghost use Rattle.convert_values.specs.BlockFormats.{IsTensorScale};

use crate::block_form::{BlockForm, LONGEST};
use crate::blocks::{BlockConversion, BlockWay};
use crate::wrong_word::{too_many, wrong};
use apfloat_arrays::scaled_blocks::BlockFormat;
use apfloat_arrays::stored::StoredFormat;
use apfloat_decimals::{built_in_formats, read_decimal};
use commands::{FORMATS, MODES, WrongWord};
use formats_at_run_time::{BuiltInFormat, BuiltInKind, mode_named};
use rustc_apfloat::ieee::SingleS;
use rustc_apfloat::{Float, Round};
use small_formats::blocks::{ElementFormat, is_positive};

/// The forms of blocks.
static FORMS: &[&str] = &[
    "mxfp4",
    "mxfp6e2m3",
    "mxfp6e3m2",
    "mxfp8e4m3",
    "mxfp8e5m2",
    "nvfp4",
];

/// The options after the form.
static OPTIONS: &[&str] = &["--dequantize", "--block-length", "--tensor-scale"];

/// What the options after the form say.
#[derive(Clone, Copy)]
struct BlockOptions<'a> {
    way: BlockWay,
    /// The word for the length, if there is one.
    length: Option<&'a str>,
    /// The word for the scale of the tensor, if there is one.
    tensor: Option<&'a str>,
}

/// Whether the word is the option that asks for blocks.
pub fn is_block_option(word: &str) -> bool {
    word == "--block" || word.starts_with("--block=")
}

/// Whether the word is an option that stands after it.
pub fn is_later_option(word: &str) -> bool {
    word == "--dequantize"
        || is_valued(word)
        || word.starts_with("--block-length=")
        || word.starts_with("--tensor-scale=")
}

/// Whether the word is an option that stands before its value.
fn is_valued(word: &str) -> bool {
    word == "--block-length" || word == "--tensor-scale"
}

/// The conversion that these words name, or the word that is wrong, or none if some are missing.
pub fn blocks_named(words: &[String]) -> Result<BlockConversion, Option<WrongWord<'_>>> {
    let Some((form, others)) = value_of("--block", words) else {
        return Err(None);
    };
    let (options, names) = options_of(others);
    let format = format_of_blocks(form, options.tensor)?;
    let form = match options.length {
        Some(length) => form_with(format, length)?,
        None => BlockForm::standard(format),
    };
    let (format, round) = names_of(names)?;
    Ok(BlockConversion {
        form,
        way: options.way,
        format,
        round,
    })
}

/// The value of the option with which these words begin, after `=` or as the next word, and the words after it.
fn value_of<'a>(option: &str, words: &'a [String]) -> Option<(&'a str, &'a [String])> {
    let [word, others @ ..] = words else {
        return None;
    };
    let rest = word.as_str().strip_prefix(option)?;
    if let Some(value) = rest.strip_prefix('=') {
        return Some((value, others));
    }
    match others {
        [value, others @ ..] if rest.is_empty() => Some((value.as_str(), others)),
        _ => None,
    }
}

/// The format of blocks of this form. The other word is the scale of their tensor, which is 1 without it.
fn format_of_blocks<'a>(
    form: &'a str,
    tensor: Option<&'a str>,
) -> Result<BlockFormat, Option<WrongWord<'a>>>
    ensures { IfOk result (λ format. has_scale format ≡ true) }
{
    if form == "nvfp4" {
        let word = tensor.unwrap_or("1");
        return match tensor_named(word) {
            Ok(scale) => Ok(BlockFormat::Nvfp4(scale)),
            Err(fault) => Err(Some(faulty(fault, word))),
        };
    }
    match (element_named(form), tensor) {
        (Some(element), None) => Ok(BlockFormat::Mx(element)),
        (Some(_), Some(word)) => Err(Some(faulty("only nvfp4 has a scale of the tensor", word))),
        (None, _) => Err(Some(wrong_form(form))),
    }
}

/// The bits of the single nearest to the number that a word spells, if it is positive, or what is wrong.
fn tensor_named(word: &str) -> Result<u32, &'static str>
    ensures { IfOk result (λ bits. IsTensorScale word.now bits) }
{
    built_in_formats();
    let Ok(read) = read_decimal::<SingleS>(word, Round::NearestTiesToEven) else {
        return Err("no number");
    };
    if is_positive(read.value) {
        Ok(read.value.to_bits() as u32)
    } else {
        Err("the scale of a tensor is a positive number")
    }
}

/// The format of the elements of blocks of this form.
fn element_named(form: &str) -> Option<ElementFormat> {
    match form {
        "mxfp4" => Some(ElementFormat::E2M1FN),
        "mxfp6e2m3" => Some(ElementFormat::E2M3FN),
        "mxfp6e3m2" => Some(ElementFormat::E3M2FN),
        "mxfp8e4m3" => Some(ElementFormat::E4M3FN),
        "mxfp8e5m2" => Some(ElementFormat::E5M2),
        _ => None,
    }
}

/// What is wrong with the word for a form.
fn wrong_form(word: &str) -> WrongWord<'_> {
    match word {
        "mxfp6" => faulty("the form is mxfp6e2m3 or mxfp6e3m2", word),
        "mxfp8" => faulty("the form is mxfp8e4m3 or mxfp8e5m2", word),
        _ => WrongWord {
            fault: "no such form of blocks",
            word,
            known: FORMS,
        },
    }
}

/// What is wrong with a word for which no other word can be meant.
fn faulty<'a>(fault: &'static str, word: &'a str) -> WrongWord<'a> {
    WrongWord {
        fault,
        word,
        known: &[],
    }
}

/// What the options with which these words begin say, and the words after them.
fn options_of(words: &[String]) -> (BlockOptions<'_>, &[String]) {
    let mut options = BlockOptions {
        way: BlockWay::Quantize,
        length: None,
        tensor: None,
    };
    let mut others = words;
    for _ in 0..words.len() {
        if let Some((length, later)) = value_of("--block-length", others) {
            options.length = Some(length);
            others = later;
            continue;
        }
        if let Some((scale, later)) = value_of("--tensor-scale", others) {
            options.tensor = Some(scale);
            others = later;
            continue;
        }
        match others {
            [word, later @ ..] if word.as_str() == "--dequantize" => {
                options.way = BlockWay::Dequantize;
                others = later;
            }
            _ => return (options, others),
        }
    }
    (options, others)
}

/// The form of blocks with as many elements as the word says.
fn form_with(format: BlockFormat, word: &str) -> Result<BlockForm, Option<WrongWord<'_>>>
    requires { has_scale format ≡ true }
{
    let fault = match word.parse::<usize>() {
        Ok(length) if 1 <= length && length <= LONGEST => match BlockForm::new(format, length) {
            Some(form) => return Ok(form),
            None => "the codes of a block would not fill whole bytes",
        },
        _ => "a block has 1 to 1024 values",
    };
    Err(Some(faulty(fault, word)))
}

/// The format and the mode of these words.
fn names_of(words: &[String]) -> Result<(BuiltInFormat, Round), Option<WrongWord<'_>>> {
    match words {
        // Its value is missing.
        [word, ..] if is_valued(word.as_str()) => Err(None),
        [word, ..] if word.as_str().starts_with('-') => Err(Some(wrong(
            "no such option of blocks",
            word,
            OPTIONS,
        ))),
        [_, _, word, ..] => Err(Some(too_many(word))),
        [format, mode] => {
            let Some(known) = format_named(format.as_str()) else {
                return Err(Some(wrong_format(format.as_str())));
            };
            match mode_named(mode.as_str()) {
                Some(round) => Ok((known, round)),
                None => Err(Some(wrong("no such mode", mode, MODES))),
            }
        }
        _ => Err(None),
    }
}

/// The format of this word.
fn format_named(word: &str) -> Option<BuiltInFormat> {
    BuiltInKind::named(word)?.format()
}

/// What is wrong with the word for a format.
fn wrong_format(word: &str) -> WrongWord<'_> {
    let fault = match StoredFormat::named(word) {
        Some(_) => "values of a storage format cannot become blocks",
        None => "no such format",
    };
    WrongWord {
        fault,
        word,
        known: FORMATS,
    }
}
