//! What the system says of a call that failed.

use sentences::push_clean;
use std::alloc::{AllocError, Global};
use std::cell::Cell;
use std::io::{Error, ErrorKind, Write};
use streams::Watched;

/// The error of the last call on some streams; none where it didn't fail. No contract can say what it is.
pub type LastError = Cell<Option<Error>>;

// What the system says of an error, without its number.
fn push_error(text: &mut String, alloc: Global, error: Error) -> Result<(), AllocError> {
    let said = format!(in alloc; "{error}")?;
    match said.split(" (os error ").next() {
        Some(words) => push_clean(text, words),
        None => Ok(()),
    }
}

/// The same behind a colon, where the last call failed.
pub(crate) fn push_last(
    text: &mut String,
    alloc: Global,
    last: &LastError,
) -> Result<(), AllocError> {
    match last.get() {
        Some(error) => {
            text.push_str(": ")?;
            push_error(text, alloc, error)
        }
        None => Ok(()),
    }
}

// The line on an output that could not be written.
fn line_of(alloc: Global, error: Error) -> Result<String, AllocError> {
    let mut line = String::new(alloc);
    line.push_str("standard output: can't be written: ")?;
    push_error(&mut line, alloc, error)?;
    line.push_str("\n")?;
    Ok(line)
}

/// Tells why the output could not be written, where its last call failed. Not where nobody reads it any more.
pub fn tell_unwritten<W: Write + Drop>(alloc: Global, last: &LastError, errors: &mut Watched<W>) {
    match last.get() {
        Some(error) if error.kind() != ErrorKind::BrokenPipe => {
            if let Ok(line) = line_of(alloc, error) {
                let _ = errors.write(line.as_bytes());
            }
        }
        _ => {}
    }
}
