//! The reply to a command.

ghost use Rattle.std.specs.Prelude.{◌≡◌, ◌≤◌, map, string_bytes, take};
ghost use Rattle.commands.specs.{Commands.with_format, Commands.word_at, Operands.words_of};
ghost use Rattle.commands.specs.Replies.{IsOnly, IsReply, IsReplyTo, digit_count, reply_of};

use crate::calculation::{Calculation, Operands};
use crate::words::{ARGUMENTS, named};
use formats_at_run_time::CommandKind;
use rustc_apfloat::Status;

/// The reply to a command.
#[derive(Clone, Copy)]
pub enum Reply<'a> {
    /// The bits, the number of their hexadecimal digits, and the flags.
    Line(u128, usize, Status),
    /// The word of a refusal: one of the command's own, or a fixed one.
    Refused(&'a str),
}

/// The reply to a command, given by its words without the program's own name. Of several faults, the first is named.
pub fn command(words: &[String]) -> Reply<'_>
    ensures reply { IsOnly (IsReply (map string_bytes words.now)) (reply_of result) }
    ensures short { digit_count (reply_of result) ≤ 32 }
{
    if words.len() < 4 || words.len() > 6 {
        return Reply::Refused(ARGUMENTS);
    }
    let operands = Operands {
        first: words[3].as_str(),
        second: string_at(words, 4),
        third: string_at(words, 5),
    };
    answer(
        words[0].as_str(),
        words[1].as_str(),
        words[2].as_str(),
        operands,
        words.len() - 3,
    )
}

/// The reply to a command whose words are parts of a text.
pub fn command_of<'a>(words: &[&'a str]) -> Reply<'a>
    ensures reply { IsOnly (IsReply (map (λ w. w.now) words.now)) (reply_of result) }
    ensures short { digit_count (reply_of result) ≤ 32 }
{
    if words.len() < 4 || words.len() > 6 {
        return Reply::Refused(ARGUMENTS);
    }
    let operands = Operands {
        first: words[3],
        second: text_at(words, 4),
        third: text_at(words, 5),
    };
    answer(words[0], words[1], words[2], operands, words.len() - 3)
}

/// The word at a place, or an empty one.
fn string_at(words: &[String], place: usize) -> &str
    ensures { result.now ≡ word_at (map string_bytes words.now) place }
{
    match words.get(place) {
        Some(word) => word.as_str(),
        None => "",
    }
}

/// The word at a place, or an empty one.
fn text_at<'a>(words: &[&'a str], place: usize) -> &'a str
    ensures { result.now ≡ word_at (map (λ w. w.now) words.now) place }
{
    match words.get(place) {
        Some(word) => *word,
        None => "",
    }
}

/// The reply to a command with `count` operands, in the format of this name.
fn answer<'a>(
    format: &'a str,
    operation: &'a str,
    mode: &'a str,
    operands: Operands<'a>,
    count: usize,
) -> Reply<'a>
    requires { count ≤ 3 }
    ensures reply { let words = take count (words_of operands.entry) in IsOnly
        (IsReplyTo (with_format format.now operation.now mode.now words))
        (reply_of result) }
    ensures short { digit_count (reply_of result) ≤ 32 }
{
    let Some(kind) = CommandKind::named(format) else {
        return Reply::Refused(format);
    };
    let (known, round) = match named(operation, mode, count) {
        Ok(known_and_round) => known_and_round,
        Err(word) => return Reply::Refused(word),
    };
    kind.run(Calculation {
        operation: known,
        name: operation,
        round,
        operands,
    })
}
