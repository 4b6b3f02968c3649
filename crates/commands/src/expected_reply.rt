//! Checks a command against the reply that a row expects.

ghost use Rattle.std.specs.Prelude.{◌≡◌, ◌≤◌, ◌++◌, codes, map, true};
ghost use Rattle.rustc_apfloat.specs.Flags.{bits_of};
ghost use Rattle.commands.specs.Replies.{IsReplied, line_text, refusal_text, status_text};

use crate::output::{hexadecimal, write_status};
use crate::reply::{Reply, command_of};
use crate::text_buffer::TextBuffer;
use rustc_apfloat::Status;

/// The names of all five flags take 53 bytes, with the bars between them.
const STATUS_ROOM: usize = 64;

/// Whether a command has this reply: the line of a result, or `refused: ` and a word.
pub fn agrees(words: &[&str], reply: &str) -> bool
    ensures { result ≡ true → IsReplied (map (λ w. w.now) words.now) reply.now }
{
    match command_of(words) {
        Reply::Line(bits, digits, status) => is_line(bits, digits, status, reply.as_bytes()),
        Reply::Refused(word) => is_refusal(word, reply.as_bytes()),
    }
}

/// Whether a text is the line of a result, without the newline.
fn is_line(bits: u128, digits: usize, status: Status, text: &[u8]) -> bool
    requires { digits ≤ 32 }
    ensures { result ≡ true → line_text bits digits (bits_of status) ≡ text.now ++ codes "\n" }
{
    let shown = hexadecimal(bits, digits);
    let Some(rest) = text.strip_prefix(&shown[shown.len() - digits..]) else {
        return false;
    };
    match rest.strip_prefix(b" ") {
        Some(flags) => is_status(status, flags),
        None => false,
    }
}

/// Whether a text is the names of these flags, joined by bars, or `OK` for none.
fn is_status(status: Status, text: &[u8]) -> bool
    ensures { result ≡ true → status_text (bits_of status) ≡ text.now }
{
    let mut names = TextBuffer::<STATUS_ROOM>::new();
    match write_status(status, &mut names) {
        Ok(()) => names.as_bytes() == text,
        Err(_) => false,
    }
}

/// Whether a text is the line of a refusal, without the newline.
fn is_refusal(word: &str, text: &[u8]) -> bool
    ensures { result ≡ true → refusal_text word.now ≡ text.now ++ codes "\n" }
{
    match text.strip_prefix(b"refused: ") {
        Some(named) => named == word.as_bytes(),
        None => false,
    }
}
