//! Values written in hexadecimal digits, into a buffer of the caller.
//!
//! A nonzero number has its first digit before the dot, always 1, and the digits after it in groups of four binary
//! ones, at most 31 of them (`significands`). `write_hex` writes them all, without the zeros at their end;
//! `write_hex_rounded` writes a given number of them, rounded once (`rounded`), and `write_hex_with_payload` the
//! payloads of NaNs too (`payloads`). All of them build the text in a line on the stack (`texts`) and copy it if it
//! fits (`written`). `reading_back` states what a text is read as.

mod payloads;
mod reading_back;
mod rounded;
mod significands;
mod texts;
mod written;

pub use payloads::{
    full_hex_once, full_text_reads_back, hex_length_with_payload, write_hex_with_payload,
};
pub use reading_back::text_reads_back;
pub use rounded::{MOST_DIGITS, rounded_hex_once, write_hex_rounded};
pub use written::{HexError, hex_length, hex_once, write_hex};
