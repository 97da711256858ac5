//! What the signs of a way mean: each stands where the ways have what it stands for.
ghost use Rattle.std.specs.Prelude.{◌≡◌, ◌++◌, OnOk, string_bytes};
ghost use Rattle.drawn_ways.specs.WaySigns.{reads_sign, signed, signs_text, writes_sign};

use chains::Writes;
use frames::{put_sign, put_sign_of};
use std::alloc::AllocError;

// A job reads as it begins, or as it arrives.
const BEGINS: &str = concat!(
    "<path class=\"ya yd\" d=\"M160 1032h1\"/>",
    "<text x=\"230\" y=\"1070\">begins, and reads</text>\n",
);

const ARRIVES: &str = concat!(
    "<path class=\"ya yd\" d=\"M160 1032h1\"/>",
    "<text x=\"230\" y=\"1070\">arrives, and reads</text>\n",
);

// It writes at its finish, or at its deadline.
const TO_FINISH: &str = concat!(
    "<path class=\"ya\" d=\"M1310 1032h260\"/>",
    "<text x=\"1630\" y=\"1070\">to its finish, and writes</text>\n",
);

const TO_DEADLINE: &str = concat!(
    "<path class=\"ya\" d=\"M1310 1032h260\"/>",
    "<text x=\"1630\" y=\"1070\">to its deadline, and writes</text>\n",
);

// What comes of that.
const WAITS: &str = concat!(
    "<path class=\"ya yw\" d=\"M3140 1032h260\"/>",
    "<text x=\"3470\" y=\"1070\">what it wrote waits</text>\n",
);

const STANDS: &str = concat!(
    "<path class=\"ya ys\" d=\"M4610 1032h260\"/>",
    "<text x=\"4930\" y=\"1070\">stands longest</text>\n",
);

const NEXT: &str = concat!(
    "<path class=\"yb\" d=\"M5840 1032h260\"/>",
    "<text x=\"6160\" y=\"1070\">what comes next</text>\n",
);

// Where a job reads.
fn reads_sign(writes: Writes) -> &'static str
    ensures { result.now ≡ reads_sign writes }
{
    match writes {
        Writes::AtFinish => BEGINS,
        Writes::AtDeadline => ARRIVES,
    }
}

// Up to where it writes.
fn writes_sign(writes: Writes) -> &'static str
    ensures { result.now ≡ writes_sign writes }
{
    match writes {
        Writes::AtFinish => TO_FINISH,
        Writes::AtDeadline => TO_DEADLINE,
    }
}

// Puts the signs that some ways have.
fn put_signs(writes: Writes, ways: &str, text: &mut String) -> Result<(), AllocError>
    ensures { OnOk result (string_bytes text.new ≡ string_bytes text.old
        ++ signs_text writes ways.now) }
{
    let (reads, to) = (reads_sign(writes), writes_sign(writes));
    put_sign_of(
        ways,
        "<path class=\"ya yd\"",
        "<path class=\"yb yd\"",
        reads,
        text,
    )?;
    put_sign_of(ways, "<path class=\"ya\"", "<path class=\"yb\"", to, text)?;
    put_sign_of(
        ways,
        "<path class=\"ya yw\"",
        "<path class=\"yb yw\"",
        WAITS,
        text,
    )?;
    put_sign(ways, "<path class=\"ya ys\"", STANDS, text)?;
    put_sign(ways, "<path class=\"yb", NEXT, text)
}

// Puts ways, and the signs that they have.
pub(crate) fn put_signed(writes: Writes, ways: &str, text: &mut String) -> Result<(), AllocError>
    ensures { OnOk result (string_bytes text.new ≡ string_bytes text.old ++ signed writes ways.now) }
{
    text.push_str(ways)?;
    put_signs(writes, ways, text)
}
