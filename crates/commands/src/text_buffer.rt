//! A text that is assembled before it is written.

ghost use Rattle.std.specs.Prelude.{◌≡◌, ◌≤◌, Some, take};

use std::io;
use std::io::{ErrorKind, Write};

/// A text of at most `ROOM` bytes, so that it can be written in one call.
#[derive(Drop)]
pub struct TextBuffer<const ROOM: usize> {
    bytes: [u8; ROOM],
    len: usize,
    ghost fits: { len ≤ ROOM },
}

impl<const ROOM: usize> TextBuffer<ROOM> {
    /// An empty text.
    pub fn new() -> TextBuffer<ROOM>
        ensures { result.len ≡ 0 }
    {
        TextBuffer {
            bytes: [0; ROOM],
            len: 0,
        }
    }

    /// The text.
    pub fn as_bytes(&self) -> &[u8]
        ensures { result.now ≡ take self.now.len self.now.bytes }
    {
        &self.bytes[..self.len]
    }
}

impl<const ROOM: usize> Write for TextBuffer<ROOM> {
    ghost contents = { λ text. Some (take text.len text.bytes) };

    /// Appends all of the bytes, or none if they do not fit.
    fn write(&mut self, buf: &[u8]) -> io::Result<usize> {
        if buf.len() > ROOM - self.len {
            return Err(io::Error::from(ErrorKind::StorageFull));
        }
        let end = self.len + buf.len();
        let bytes = &mut self.bytes[..];
        bytes[self.len..end].copy_from_slice(buf);
        self.len = end;
        Ok(buf.len())
    }

    fn flush(&mut self) -> io::Result<()> {
        Ok(())
    }
}
