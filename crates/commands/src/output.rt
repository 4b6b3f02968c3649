//! Writes the replies of the program.
//!
//! A reply is assembled first and written in one call, so that the replies of programs that run in parallel are not
//! interleaved. Only a refusal longer than `REFUSAL_ROOM` is written in parts.

ghost use Rattle.std.specs.Prelude.{◌≡◌, ◌≢◌, ◌<◌, ◌≤◌, ◌++◌, ◌-◌, codes, drop, if◌then◌else◌, IfErr, is_ok, map};
ghost use Rattle.std.specs.Prelude.{MatchResult, OnErr, OnOk, string_bytes};
ghost use Rattle.std.specs.{IoError.error_kind, Io.KnownBytes.Appends};
ghost use Rattle.rustc_apfloat.specs.Flags.{bits_of};
ghost use Rattle.commands.specs.Replies.{IsMemoryRefused, IsRun, hexadecimal_digit, hexadecimal_text, line_text};
ghost use Rattle.commands.specs.Replies.{refusal_text, status_text};

use crate::reply::{Reply, command};
use crate::text_buffer::TextBuffer;
use rustc_apfloat::{Flags, Status};
use std::io;
use std::io::{ErrorKind, Write};

/// The longest line has 32 digits and all five flags: 83 bytes.
const LINE_ROOM: usize = 96;

/// The system does not interleave writes of up to this many bytes to a pipe (`PIPE_BUF`).
const REFUSAL_ROOM: usize = 4096;

/// Runs a command, given as the arguments without the program's own name: writes a line to `out` or a refusal to `err`.
///
/// Returns the exit status: 0 for a line, 2 for a refusal, 1 if a write failed.
pub fn run<W: Write, V: Write>(words: &[String], out: &mut W, err: &mut V) -> u8
    ensures { result ≢ 1 → IsRun (map string_bytes words.now)
        (W.contents out.old) (W.contents out.new) (V.contents err.old) (V.contents err.new) result }
{
    match command(words) {
        Reply::Line(bits, digits, status) => status_after(write_line(bits, digits, status, out), 0),
        Reply::Refused(word) => status_after(write_refusal(word, err), 2),
    }
}

/// Runs the program with the arguments that the system gave, or reports the error that it gave instead.
///
/// Returns the exit status: that of `run` if there are arguments; 3 if there was no memory for them, which is reported
/// on `err`; and 1 if a write failed, or for any other error, such as arguments that are not valid text, in which case
/// nothing is written.
pub fn run_given<W: Write, V: Write>(given: io::Result<Vec<String>>, out: &mut W, err: &mut V) -> u8
    ensures known { result ≢ 1 → MatchResult given
        (λ words. IsRun (map string_bytes words.items)
        (W.contents out.old) (W.contents out.new) (V.contents err.old) (V.contents err.new) result)
        (λ error. IsMemoryRefused (error_kind error)
        (V.contents err.old) (V.contents err.new) result) }
    ensures silent { OnErr given (W.contents out.new ≡ W.contents out.old) }
    ensures other { IfErr given (λ error. error_kind error ≢ ErrorKind.OutOfMemory
        → (V.contents err.new ≡ V.contents err.old) × (result ≡ 1)) }
{
    match given {
        Ok(words) => run(words.as_slice(), out, err),
        Err(error) => match error.kind() {
            ErrorKind::OutOfMemory => refuse_memory(err),
            _ => 1,
        },
    }
}

/// Reports that there is no memory for the arguments. Returns the exit status: 3, or 1 if a write failed.
fn refuse_memory<V: Write>(err: &mut V) -> u8
    ensures status { result ≢ 1 → result ≡ 3 }
    ensures text { result ≢ 1
        → Appends (V.contents err.old) (V.contents err.new) (refusal_text (codes "memory")) }
{
    status_after(write_refusal("memory", err), 3)
}

/// The exit status after a write.
fn status_after(written: io::Result<()>, status: u8) -> u8
    ensures { result ≡ (if is_ok written then status else 1) }
{
    match written {
        Ok(()) => status,
        Err(_) => 1,
    }
}

/// Writes the line of a result, its bits in `digits` hexadecimal digits and its flags, in one call.
pub fn write_line<W: Write>(
    bits: u128,
    digits: usize,
    status: Status,
    out: &mut W,
) -> io::Result<()>
    requires { digits ≤ 32 }
    ensures { OnOk result
        (Appends (W.contents out.old) (W.contents out.new)
        (line_text bits digits (bits_of status))) }
{
    let mut line = TextBuffer::<LINE_ROOM>::new();
    write_line_parts(bits, digits, status, &mut line)?;
    out.write_all(line.as_bytes())
}

/// Writes the parts of the line of a result.
fn write_line_parts<W: Write>(
    bits: u128,
    digits: usize,
    status: Status,
    out: &mut W,
) -> io::Result<()>
    requires { digits ≤ 32 }
    ensures { OnOk result
        (Appends (W.contents out.old) (W.contents out.new)
        (line_text bits digits (bits_of status))) }
{
    write_hexadecimal(bits, digits, out)?;
    out.write_all(b" ")?;
    write_status(status, out)?;
    out.write_all(b"\n")
}

/// Writes the word of a refusal, in one call if there is room for it.
fn write_refusal<W: Write>(word: &str, err: &mut W) -> io::Result<()>
    ensures { OnOk result
        (Appends (W.contents err.old) (W.contents err.new) (refusal_text word.now)) }
{
    let mut text = TextBuffer::<REFUSAL_ROOM>::new();
    match write_refusal_parts(word, &mut text) {
        Ok(()) => err.write_all(text.as_bytes()),
        Err(_) => write_refusal_parts(word, err),
    }
}

/// Writes the parts of a refusal.
fn write_refusal_parts<W: Write>(word: &str, err: &mut W) -> io::Result<()>
    ensures { OnOk result
        (Appends (W.contents err.old) (W.contents err.new) (refusal_text word.now)) }
{
    err.write_all(b"refused: ")?;
    err.write_all(word.as_bytes())?;
    err.write_all(b"\n")
}

/// Writes the last `digits` hexadecimal digits of an integer.
fn write_hexadecimal<W: Write>(number: u128, digits: usize, out: &mut W) -> io::Result<()>
    requires { digits ≤ 32 }
    ensures { OnOk result
        (Appends (W.contents out.old) (W.contents out.new) (hexadecimal_text number digits)) }
{
    let text = hexadecimal(number, digits);
    out.write_all(&text[text.len() - digits..])
}

/// A text whose last `digits` bytes are the last hexadecimal digits of an integer.
pub fn hexadecimal(number: u128, digits: usize) -> [u8; 32]
    requires { digits ≤ 32 }
    ensures { drop (32 - digits) result ≡ hexadecimal_text number digits }
{
    let mut text = [b'0'; 32];
    let mut rest = number;
    for place in 0..digits {
        text[31 - place] = hexadecimal_digit((rest % 16) as u8);
        rest /= 16;
    }
    text
}

/// The character of a hexadecimal digit.
fn hexadecimal_digit(digit: u8) -> u8
    requires { digit < 16 }
    ensures { result ≡ hexadecimal_digit digit }
{
    if digit < 10 {
        b'0' + digit
    } else {
        b'a' + (digit - 10)
    }
}

/// Writes the names of the flags, joined by bars, or `OK`.
pub fn write_status<W: Write>(status: Status, out: &mut W) -> io::Result<()>
    ensures { OnOk result
        (Appends (W.contents out.old) (W.contents out.new) (status_text (bits_of status))) }
{
    if status.is_empty() {
        return out.write_all(b"OK");
    }
    let mut separator: &[u8] = b"";
    for flag in Status::flags() {
        if status.intersects(*flag.value()) {
            write_name(separator, flag.name(), out)?;
            separator = b"|";
        }
    }
    Ok(())
}

/// Writes a name after a separator.
fn write_name<W: Write>(separator: &[u8], name: &str, out: &mut W) -> io::Result<()>
    ensures { OnOk result
        (Appends (W.contents out.old) (W.contents out.new) (separator.now ++ name.now)) }
{
    out.write_all(separator)?;
    out.write_all(name.as_bytes())
}
