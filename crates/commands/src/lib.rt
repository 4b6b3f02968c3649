//! Commands of one operation, `FORMAT OP MODE A [B [C]]`, and the replies to them: the bits and the flags of the
//! result, or the word of a refusal.
//!
//! - FORMAT: `half`, `single`, `double`, `quad`, `bfloat`, `e5m2`, `e4m3fn`, `e4m3fnuz` or `x87`; or `dd`,
//!   pairs of doubles.
//! - OP: `add`, `sub`, `mul`, `div`, `rem` (by the nearest quotient), `mod` (by the quotient truncated toward zero) on
//!   two values; `fma` on three; `int`, an integer in decimal digits; `parse`, the text of a value. A format of more
//!   than 64 digits has no `mul`, one of more than 63 no `fma`. Pairs of doubles have `mul`, but no `fma`.
//! - MODE: `even`, `up`, `down`, `zero` or `away`.
//!
//! A value is given as its bits: 1 to 32 hexadecimal digits, optionally after `0x`.
//!
//! Also what the other programs have in common: the answers to `--help` and `--version`, the word that was meant by a
//! misspelt one, the line about a word that is wrong, and when a long work tells how far it is.
//!
//! `custom_formats` has formats declared as a user would declare them, for rows and tests.
#![tactic(auto)]

mod about;
mod calculation;
pub mod custom_formats;
mod expected_reply;
mod operation;
mod output;
mod progress;
mod reply;
mod suggestions;
mod system_words;
mod text_buffer;
mod words;
mod wrong_word;

pub use about::About;
pub use expected_reply::agrees;
pub use output::{run, run_given, write_line, write_status};
pub use progress::Progress;
pub use reply::{Reply, command, command_of};
pub use suggestions::{FORMATS, MODES, suggested};
pub use system_words::words_of_system;
pub use words::{bits_of, number_of};
pub use wrong_word::{WrongWord, write_fault};
