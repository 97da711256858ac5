//! Writers for which bytes are held back.
ghost use Rattle.std.specs.Prelude.{◌≡◌, [], true, IfSome, OnOk, OnErr};
ghost use Rattle.std.specs.Io.KnownBytes.{Appends};
ghost use Rattle.streams.specs.Puts.{Puts};

use crate::held::Held;
use crate::watched::{Watched, WriteFailed};
use arrayvec::ArrayVec;
use std::fmt::Display;
use std::io::Write;

// How long a value's text may be that is put as one.
const LINE: usize = 512;

/// A writer, and the bytes that are held back for it.
#[derive(Drop)]
pub struct Outlet<'a, W: Write + Drop> {
    out: &'a mut Watched<W>,
    held: Held,
}

impl<'a, W: Write + Drop> Outlet<'a, W> {
    /// With nothing held back.
    pub fn new(out: &'a mut Watched<W>) -> Outlet<'a, W>
        ensures same { result.out.ghost_name ≡ out.entry.ghost_name }
        ensures writer { result.out.now ≡ out.old }
        ensures empty { result.held ≡ [] }
    {
        Outlet {
            out,
            held: Held::new(),
        }
    }

    /// Puts bytes behind what is held back.
    pub fn put(&mut self, bytes: &[u8]) -> Result<(), WriteFailed>
        ensures { Puts W.contents self.old self.new result bytes.now }
    {
        self.held.put(bytes, self.out)
    }

    /// What `write!` calls: puts a value as its `Display` gives it. One that is longer than 512 bytes is written piece
    /// after piece.
    pub fn write_fmt<D: Display + Drop>(&mut self, text: D) -> Result<(), WriteFailed>
        ensures put { IfSome (D.output text) (Puts W.contents self.old self.new result) }
        ensures ok { OnOk result (self.new.out.now.has_failed ≡ self.old.out.now.has_failed) }
        ensures failed { OnErr result (self.new.out.now.has_failed ≡ true) }
        ensures same { self.new.out.ghost_name ≡ self.old.out.ghost_name }
    {
        let mut line = ArrayVec::<u8, LINE>::new();
        match write!(line, "{text}") {
            Ok(()) => self.held.put(line.as_slice(), self.out),
            Err(_) => {
                self.held.send(self.out)?;
                write!(self.out, "{text}")
            }
        }
    }

    /// Writes what is held back.
    pub fn send(self) -> Result<(), WriteFailed>
        ensures sent { OnOk result (Appends (W.contents self.entry.out.now.inner)
            (W.contents self.exit.0.now.inner) self.entry.held) }
        ensures ok { OnOk result (self.exit.0.now.has_failed ≡ self.entry.out.now.has_failed) }
        ensures failed { OnErr result (self.exit.0.now.has_failed ≡ true) }
    {
        let Outlet { out, mut held } = self;
        held.send(out)
    }
}
