//! Bytes that are held back, so that a writer gets many at once.
ghost use Rattle.std.specs.Prelude.{◌≡◌, ◌++◌, [], IsErr, OnOk, OnErr, true, false, ℕ, List};
ghost use Rattle.std.specs.Io.KnownBytes.{Appends};
ghost use Rattle.streams.specs.Sending.{Sends};

use crate::watched::{Watched, WriteFailed};
use arrayvec::ArrayVec;
use std::io::Write;
use std::marker::Model;

// How many bytes are held back at most.
const ROOM: usize = 16_384;

/// Up to 16,384 bytes that wait to be written. They lie in the value itself, and take no memory.
#[derive(Drop)]
pub struct Held {
    bytes: ArrayVec<u8, ROOM>,
}

impl Model for Held {
    ghost Value = { List ℕ };

    ghost view = { λ h. h.bytes.items };
}

impl Held {
    /// With nothing held back.
    pub fn new() -> Held
        ensures { result ≡ [] }
    {
        Held {
            bytes: ArrayVec::new(),
        }
    }

    // Puts a text behind what is held back, if there is room for both.
    fn keep(&mut self, text: &[u8]) -> bool
        ensures kept { result ≡ true → self.new ≡ self.old ++ text.now }
        ensures full { result ≡ false → self.new ≡ self.old }
    {
        self.bytes.try_extend_from_slice(text).is_ok()
    }

    /// Writes what is held back.
    pub fn send<W: Write + Drop>(&mut self, out: &mut Watched<W>) -> Result<(), WriteFailed>
        ensures sent { OnOk result
            (Appends (W.contents out.old.inner) (W.contents out.new.inner) self.old) }
        ensures empty { OnOk result (self.new ≡ []) }
        ensures ok { OnOk result (out.new.has_failed ≡ out.old.has_failed) }
        ensures failed { OnErr result (out.new.has_failed ≡ true) }
        ensures stuck { out.old.has_failed ≡ true → IsErr result × (out.new ≡ out.old) }
    {
        out.write(self.bytes.as_slice())?;
        self.bytes.clear();
        Ok(())
    }

    /// Puts a text behind what is held back, which is written first where there is no room for both. A text that has no
    /// room by itself is written at once.
    pub fn put<W: Write + Drop>(
        &mut self,
        text: &[u8],
        out: &mut Watched<W>,
    ) -> Result<(), WriteFailed>
        ensures sent { OnOk result
            (Sends (W.contents out.old.inner) self.old
            (W.contents out.new.inner) self.new text.now) }
        ensures ok { OnOk result (out.new.has_failed ≡ out.old.has_failed) }
        ensures failed { OnErr result (out.new.has_failed ≡ true) }
        ensures stuck { out.old.has_failed ≡ true → out.new ≡ out.old }
    {
        if self.keep(text) {
            return Ok(());
        }
        self.send(out)?;
        if self.keep(text) {
            return Ok(());
        }
        out.write(text)
    }
}
