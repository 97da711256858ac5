//! Notes, written in pieces.

use std::io::Write;
use streams::{Held, Watched, WriteFailed};

/// Puts pieces behind what is held back.
pub(crate) fn put_pieces<W: Write + Drop>(
    pieces: &[&str],
    held: &mut Held,
    out: &mut Watched<W>,
) -> Result<(), WriteFailed> {
    for piece in pieces {
        held.put(piece.as_bytes(), out)?;
    }
    Ok(())
}

/// Writes a note of some pieces.
pub(crate) fn write_note<W: Write + Drop>(
    pieces: &[&str],
    out: &mut Watched<W>,
) -> Result<(), WriteFailed> {
    let mut held = Held::new();
    put_pieces(pieces, &mut held, out)?;
    held.send(out)
}
