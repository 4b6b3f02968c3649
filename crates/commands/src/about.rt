//! What a program is asked about itself: `--help` or `-h`, and `--version`.

ghost use Rattle.std.specs.Prelude.{◌≡◌, OnOk, map, string_bytes};
ghost use Rattle.std.specs.Io.KnownBytes.{Appends};
ghost use Rattle.commands.specs.Commands.{found};
ghost use Rattle.commands.specs.About.{answer_text, first_question, questions, version_text};

use std::io;
use std::io::Write;

/// The version of the programs, which is that of the library.
const VERSION: &str = "0.1.0";

/// A question about a program.
#[derive(Clone, Copy)]
pub enum About {
    /// How it is called.
    Help,
    /// Which version it is.
    Version,
}

impl About {
    /// The question that this word asks, if it asks one.
    pub fn named(word: &str) -> Option<About>
        ensures { result ≡ found questions word.now }
    {
        match word {
            "--help" => Some(About::Help),
            "-h" => Some(About::Help),
            "--version" => Some(About::Version),
            _ => None,
        }
    }

    /// The first question among the words before `--`, if there is one.
    pub fn among(words: &[String]) -> Option<About>
        ensures { result ≡ first_question (map string_bytes words.now) }
    {
        let Some((word, others)) = words.split_first() else {
            return None;
        };
        if word.as_str() == "--" {
            return None;
        }
        About::named(word.as_str()).or(About::among(others))
    }

    /// Writes the answer of a program: its help, or its name and its version.
    pub fn answer<W: Write>(self, program: &str, help: &str, out: &mut W) -> io::Result<()>
        ensures { OnOk result (Appends (W.contents out.old) (W.contents out.new)
            (answer_text self program.now help.now)) }
    {
        match self {
            About::Help => out.write_all(help.as_bytes())?,
            About::Version => write_version(program, out)?,
        }
        out.flush()
    }
}

/// Writes the name and the version of a program.
fn write_version<W: Write>(program: &str, out: &mut W) -> io::Result<()>
    ensures { OnOk result (Appends (W.contents out.old) (W.contents out.new)
        (version_text program.now)) }
{
    out.write_all(program.as_bytes())?;
    out.write_all(b" ")?;
    out.write_all(VERSION.as_bytes())?;
    out.write_all(b"\n")
}
