//! A stream that remembers why its last call was refused.

use std::io;
use std::io::{ErrorKind, Read, Write};

/// A stream that remembers why its last call was refused.
#[derive(Drop)]
pub(crate) struct Heard<'a, F> {
    stream: &'a mut F,
    error: io::Error,
}

impl<'a, F> Heard<'a, F> {
    /// Returns the stream, of which no call was refused yet.
    pub(crate) fn new(stream: &'a mut F) -> Heard<'a, F> {
        Heard {
            stream,
            error: io::Error::from(ErrorKind::WriteZero),
        }
    }

    /// Returns the kind of the last error; before one, that of a write which takes nothing.
    pub(crate) fn error(&self) -> ErrorKind {
        self.error.kind()
    }

    /// Returns the last error; before one, that of a write which takes nothing.
    pub(crate) fn cause(&self) -> io::Error {
        self.error
    }
}

impl<F: Read> Read for Heard<'_, F> {
    // Reads from the stream, and remembers why it refuses.
    fn read(&mut self, buffer: &mut [u8]) -> io::Result<usize> {
        match self.stream.read(buffer) {
            Ok(count) => Ok(count),
            Err(error) => {
                self.error = error;
                Err(error)
            }
        }
    }
}

impl<F: Write> Write for Heard<'_, F> {
    // Writes to the stream, and remembers why it refuses.
    fn write(&mut self, bytes: &[u8]) -> io::Result<usize> {
        match self.stream.write(bytes) {
            Ok(count) => Ok(count),
            Err(error) => {
                self.error = error;
                Err(error)
            }
        }
    }

    // Flushes the stream.
    fn flush(&mut self) -> io::Result<()> {
        self.stream.flush()
    }
}
