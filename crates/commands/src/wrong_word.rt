//! The line of a program about a word that is wrong.

use crate::suggestions::suggested;
use std::io;
use std::io::Write;

/// A word of a command line that is wrong.
#[derive(Clone, Copy)]
pub struct WrongWord<'a> {
    /// What is wrong with it.
    pub fault: &'static str,
    /// The word.
    pub word: &'a str,
    /// The words that may stand in its place, as far as they can be listed.
    pub known: &'static [&'static str],
}

impl WrongWord<'_> {
    /// Writes the line of a program about the word, with the word that was meant, or where to look.
    pub fn write<W: Write>(self, program: &str, err: &mut W) -> io::Result<()> {
        let WrongWord { fault, word, known } = self;
        write!(err, "{program}: {fault}: `{word}`; ")?;
        match suggested(word, known) {
            Some(meant) => writeln!(err, "did you mean `{meant}`?"),
            None => writeln!(err, "see `{program} --help`"),
        }
    }
}

/// Writes the line of a program about its words as a whole.
pub fn write_fault<W: Write>(program: &str, fault: &str, err: &mut W) -> io::Result<()> {
    writeln!(err, "{program}: {fault}; see `{program} --help`")
}
