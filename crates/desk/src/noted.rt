//! Streams whose last error is kept.
ghost use Rattle.std.specs.Prelude.{◌≡◌};

use advice::LastError;
use std::io::{self, Error, Read, Write};

/// A stream that keeps the error of its last call.
#[derive(Drop)]
pub(crate) struct Noted<'a, T: Drop> {
    inner: T,
    last: &'a LastError,
}

impl<'a, T: Drop> Noted<'a, T> {
    /// Of which there was no call yet.
    pub(crate) fn new(inner: T, last: &'a LastError) -> Noted<'a, T> {
        Noted { inner, last }
    }
}

/// Keeps what became of a call.
pub(crate) fn note<T>(last: &LastError, outcome: io::Result<T>) -> io::Result<T>
    ensures { result ≡ outcome }
{
    match &outcome {
        Ok(_) => last.set(None),
        Err(error) => last.set(Some(*error)),
    }
    outcome
}

impl<'a, R: Read + Drop> Read for Noted<'a, R> {
    fn read(&mut self, buffer: &mut [u8]) -> io::Result<usize> {
        note(self.last, self.inner.read(buffer))
    }
}

impl<'a, W: Write + Drop> Write for Noted<'a, W> {
    fn write(&mut self, bytes: &[u8]) -> io::Result<usize> {
        note(self.last, self.inner.write(bytes))
    }

    fn flush(&mut self) -> io::Result<()> {
        note(self.last, self.inner.flush())
    }
}

/// A standard input that is closed.
#[derive(Drop)]
pub(crate) struct Closed;

// What Linux says of a stream that is closed.
const BAD_DESCRIPTOR: i32 = 9;

impl Read for Closed {
    fn read(&mut self, _buffer: &mut [u8]) -> io::Result<usize> {
        Err(Error::from_raw_os_error(BAD_DESCRIPTOR))
    }
}
