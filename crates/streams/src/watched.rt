//! Readers and writers that keep what became of their calls.
ghost use Rattle.std.specs.Prelude.{◌≡◌, ◌≢◌, ◌+◌, ◌^◌, ◌<◌, ◌≤◌, true, false, Err, IsErr, OnOk, OnErr, IfSome};
ghost use Rattle.std.specs.Io.{ReadsAtMost};
ghost use Rattle.std.specs.Io.KnownBytes.{Appends, ReadConsumes};
ghost use Rattle.streams.specs.Watching.{WatchedData};

use crate::patient::Patient;
use std::fmt::Display;
use std::io::{ErrorKind, Read, Write};
use std::marker::Model;

/// Why a read gave no bytes.
#[derive(Clone, Copy)]
pub enum ReadFault {
    /// It was interrupted, and may be tried again.
    Interrupted,
    /// It failed.
    Failed,
}

/// The writer failed; how much of the bytes went out is open.
#[derive(Clone, Copy)]
pub struct WriteFailed;

/// A reader or a writer, and what became of its calls.
#[derive(Drop)]
pub struct Watched<T: Drop> {
    inner: Patient<T>,
    has_failed: bool,
    was_interrupted: bool,
    reads: u64,
}

impl<T: Drop> Model for Watched<T> {
    ghost Value = { WatchedData T };

    ghost view = { λ w. record {
      inner = w.inner.inner;
      has_failed = w.has_failed;
      was_interrupted = w.was_interrupted;
      reads = w.reads;
      tries = w.inner.tries;
    } };
}

impl<T: Drop> Watched<T> {
    /// Of which there was no call yet.
    pub fn new(inner: T) -> Watched<T>
        ensures inner { result.inner ≡ inner }
        ensures fresh { result.has_failed ≡ false }
        ensures uninterrupted { result.was_interrupted ≡ false }
        ensures unread { result.reads ≡ 0 }
        ensures untried { result.tries ≡ 0 }
    {
        Watched {
            inner: Patient { inner, tries: 0 },
            has_failed: false,
            was_interrupted: false,
            reads: 0,
        }
    }

    /// The reader or writer.
    pub fn into_inner(self) -> T
        ensures { result ≡ self.inner }
    {
        self.inner.inner
    }
}

impl<R: Read + Drop> Watched<R> {
    /// One read. It is counted, up to the greatest number that a `u64` has.
    pub fn read(&mut self, buffer: &mut [u8]) -> Result<usize, ReadFault>
        ensures bound { ReadsAtMost result buffer.new }
        ensures bytes { ReadConsumes
            (R.remaining self.old.inner) (R.remaining self.new.inner) result buffer.new }
        ensures ok { OnOk result (self.new.was_interrupted ≡ self.old.was_interrupted) }
        ensures interrupted { result ≡ Err ReadFault.Interrupted → self.new.was_interrupted ≡ true }
        ensures sound { result ≢ Err ReadFault.Failed → self.new.has_failed ≡ self.old.has_failed }
        ensures failed { result ≡ Err ReadFault.Failed → self.new.has_failed ≡ true }
        ensures once { self.new.reads ≤ self.old.reads + 1 }
        ensures counted { self.old.reads + 1 < 2 ^ 64 → self.new.reads ≡ self.old.reads + 1 }
    {
        self.reads = self.reads.saturating_add(1);
        match self.inner.inner.read(buffer) {
            Ok(count) => Ok(count),
            Err(error) => match error.kind() {
                ErrorKind::Interrupted => {
                    self.was_interrupted = true;
                    Err(ReadFault::Interrupted)
                }
                _ => {
                    self.has_failed = true;
                    Err(ReadFault::Failed)
                }
            },
        }
    }
}

impl<W: Write + Drop> Watched<W> {
    /// Writes all of the bytes; nothing once a call has failed. An interrupted write is tried again, 33,554,432 times in
    /// all calls; the next one that is interrupted has failed.
    pub fn write(&mut self, bytes: &[u8]) -> Result<(), WriteFailed>
        ensures written { OnOk result
            (Appends (W.contents self.old.inner) (W.contents self.new.inner) bytes.now) }
        ensures ok { OnOk result (self.new.has_failed ≡ self.old.has_failed) }
        ensures failed { OnErr result (self.new.has_failed ≡ true) }
        ensures stuck { self.old.has_failed ≡ true → IsErr result × (self.new ≡ self.old) }
        ensures tries { self.new.tries ≤ 33554432 }
    {
        if self.has_failed || self.inner.write_all(bytes).is_err() {
            self.has_failed = true;
            return Err(WriteFailed);
        }
        Ok(())
    }

    /// What `write!` calls: writes a value as its `Display` gives it; nothing once a call has failed.
    pub fn write_fmt<D: Display + Drop>(&mut self, text: D) -> Result<(), WriteFailed>
        ensures written { OnOk result
            (IfSome (D.output text)
            (Appends (W.contents self.old.inner) (W.contents self.new.inner))) }
        ensures ok { OnOk result (self.new.has_failed ≡ self.old.has_failed) }
        ensures failed { OnErr result (self.new.has_failed ≡ true) }
        ensures stuck { self.old.has_failed ≡ true → IsErr result × (self.new ≡ self.old) }
        ensures tries { self.new.tries ≤ 33554432 }
    {
        if self.has_failed || self.inner.write_fmt(text).is_err() {
            self.has_failed = true;
            return Err(WriteFailed);
        }
        Ok(())
    }
}
