//! `command` and `run`, on the lines of the README and the guide, and with writers that fail at each byte.

use crate::asserts::same;
use commands::{Reply, command, run};
use rustc_apfloat::Flags;
use std::alloc::{AllocError, Global};
use std::io;
use std::io::{ErrorKind, Write};
use std::process::Abort;
use std::test::Fail;

/// The words of a command, which single spaces separate.
fn words_of(alloc: Global, command: &str) -> Result<Vec<String>, AllocError> {
    let mut words = Vec::new(alloc);
    for word in command.split(' ') {
        words.push(String::from_str(alloc, word)?)?;
    }
    Ok(words)
}

/// The bits of the result, the number of their digits and the bits of the status; or the word of the refusal.
fn reply_to(words: &[String]) -> Result<(u128, usize, u8), &str> {
    match command(words) {
        Reply::Line(bits, digits, status) => Ok((bits, digits, status.bits())),
        Reply::Refused(word) => Err(word),
    }
}

#[test]
fn replies_with_bits_digits_and_flags(rt: HostRuntime) -> Result<(), Fail> {
    let past = words_of(rt.alloc(), "half int even 65520")?;
    let odd = words_of(rt.alloc(), "half int odd 1")?;
    same(
        &rt,
        reply_to(past.as_slice()),
        Ok((0x7c00, 4, 0b10100)),
        "past",
    );
    same(&rt, reply_to(odd.as_slice()), Err("odd"), "odd");
    Ok(())
}

/// Commands, the status, and what is written to each writer.
static WRITTEN: [(&str, (u8, &str, &str)); 11] = [
    ("half int even 464", (0, "5f40 OK\n", "")),
    ("half int even 65520", (0, "7c00 OVERFLOW|INEXACT\n", "")),
    ("e4m3fn int even 480", (0, "7f OVERFLOW|INEXACT\n", "")),
    (
        "half fma down 0d89 09c8 8001",
        (0, "0000 UNDERFLOW|INEXACT\n", ""),
    ),
    (
        "dd div even 3ff0000000000000 4008000000000000",
        (0, "3c755555555555563fd5555555555555 INEXACT\n", ""),
    ),
    ("half", (2, "", "refused: arguments\n")),
    ("half add odd 3c00 3c00", (2, "", "refused: odd\n")),
    ("half add even 3c00", (2, "", "refused: arguments\n")),
    ("quad mul even 0 0", (2, "", "refused: mul\n")),
    ("dd fma even 0 0 0", (2, "", "refused: fma\n")),
    (
        "half parse even 0x1",
        (2, "", "refused: Hex strings require an exponent\n"),
    ),
];

/// A writer with room for a limited number of bytes, which accepts one byte in each write.
#[derive(Drop)]
struct Failing {
    room: usize,
    taken: Vec<u8>,
}

impl Failing {
    /// A writer with this room.
    fn new(alloc: Global, room: usize) -> Failing {
        Failing {
            room,
            taken: Vec::new(alloc),
        }
    }
}

impl Write for Failing {
    fn write(&mut self, buf: &[u8]) -> io::Result<usize> {
        if self.taken.len() >= self.room {
            return Err(io::Error::from(ErrorKind::BrokenPipe));
        }
        self.taken.write(&buf[..buf.len().min(1)])
    }

    fn flush(&mut self) -> io::Result<()> {
        Ok(())
    }
}

/// The first bytes of a text, as many as there is room for.
fn that_fit(text: &str, room: usize) -> &[u8] {
    let bytes = text.as_bytes();
    &bytes[..bytes.len().min(room)]
}

/// Asserts that a run on writers with limited room writes the first bytes of `on_out` and of `on_err` that fit, and
/// returns the status, or 1 if not all fit.
fn expect_first_bytes<R: Abort + AllocGlobal>(
    rt: &R,
    command: &str,
    (status, on_out, on_err): (u8, &str, &str),
    (out_room, err_room): (usize, usize),
) -> Result<(), Fail> {
    let words = words_of(rt.alloc(), command)?;
    let mut out = Failing::new(rt.alloc(), out_room);
    let mut err = Failing::new(rt.alloc(), err_room);
    let answered = run(words.as_slice(), &mut out, &mut err);
    let is_written = on_out.len() <= out_room && on_err.len() <= err_room;
    let wanted = if is_written { status } else { 1 };
    let got = (answered, out.taken.as_slice(), err.taken.as_slice());
    let expected = (
        wanted,
        that_fit(on_out, out_room),
        that_fit(on_err, err_room),
    );
    same(rt, got, expected, (command, out_room, err_room));
    Ok(())
}

/// A writer that is not used may have no room at all.
#[test]
fn answers_1_exactly_where_a_write_fails(rt: HostRuntime) -> Result<(), Fail> {
    for (command, wanted) in &WRITTEN {
        for room in 0..44 {
            for rooms in [(room, 0), (0, room), (room, room)] {
                expect_first_bytes(&rt, *command, *wanted, rooms)?;
            }
        }
    }
    Ok(())
}
