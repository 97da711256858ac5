//! Writers that are interrupted.
ghost use Rattle.std.specs.Prelude.{◌+◌, ◌<◌, ◌≤◌, IfOk};
ghost use Rattle.std.specs.Io.{WritesAtMost};
ghost use Rattle.std.specs.Io.KnownBytes.{WriteAppends};
ghost use Rattle.streams.specs.declared.patient.TheConstants.{TRY_LIMIT};

use std::io::{Error, ErrorKind, Result, Write};

// How often the writes of a writer are tried again in all.
const TRY_LIMIT: u64 = 33_554_432;

/// A reader or a writer. An interrupted write of it is tried again, until it has no try left.
#[derive(Drop)]
pub struct Patient<T: Drop> {
    pub inner: T,
    /// How many writes were tried again.
    pub tries: u64,
    ghost few: { tries ≤ TRY_LIMIT },
}

impl<W: Write + Drop> Patient<W> {
    // One write. 0 where it was interrupted and may be tried again.
    fn write_some(&mut self, bytes: &[u8]) -> Result<usize>
        ensures bound { WritesAtMost result bytes.now }
        ensures bytes { WriteAppends
            (W.contents self.old.inner) (W.contents self.new.inner) result bytes.now }
        ensures some { IfOk result (λ n. self.old.tries < self.new.tries + n) }
        ensures counted { self.old.tries ≤ self.new.tries }
    {
        match self.inner.write(bytes) {
            Ok(0) => Err(Error::from(ErrorKind::WriteZero)),
            Ok(count) => Ok(count),
            Err(error) if error.kind() == ErrorKind::Interrupted && self.tries < TRY_LIMIT => {
                self.tries += 1;
                Ok(0)
            }
            Err(error) => Err(error),
        }
    }
}

impl<W: Write + Drop> Write for Patient<W> {
    ghost contents = { λ p. W.contents p.inner };

    fn write(&mut self, bytes: &[u8]) -> Result<usize> {
        self.inner.write(bytes)
    }

    fn flush(&mut self) -> Result<()> {
        self.inner.flush()
    }

    fn write_all(&mut self, bytes: &[u8]) -> Result<()> {
        let mut rest = bytes;
        while !rest.is_empty() {
            let count = self.write_some(rest)?;
            rest = &rest[count..];
        }
        Ok(())
    }
}
