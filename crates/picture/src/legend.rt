//! What the signs mean: each stands where the picture has it.
ghost use Rattle.std.specs.Prelude.{◌≡◌, ◌++◌, IfOk, OnOk, codes, string_bytes};
ghost use Rattle.picture.specs.Legend.{first_line, legend_text, second_line};

use frames::{put_sign, put_sign_of};
use std::alloc::{AllocError, Global};

// The signs of the first line.
const EXECUTES: &str = concat!(
    "<path class=\"f0\" d=\"M100 540h260v180h-260z\"/>",
    "<text x=\"420\" y=\"668\">executes</text>\n",
);

const WAITS: &str = concat!(
    "<path class=\"wa i0\" d=\"M1100 630h260\"/>",
    "<text x=\"1420\" y=\"668\">waits for a task above, in its colour</text>\n",
);

const BLOCKED: &str = concat!(
    "<path class=\"wb d0\" d=\"M3730 630h200\"/>",
    "<text x=\"4020\" y=\"668\">is blocked by a task below, in the lock's tone</text>\n",
);

const SEVERAL: &str = concat!(
    "<path class=\"wa ns\" d=\"M6900 630h260\"/>",
    "<text x=\"7220\" y=\"668\">waits for several above</text>\n",
);

const GOES_ON: &str = concat!(
    "<path class=\"a\" d=\"M8760 570l60 60-60 60m60-120l60 60-60 60\"/>",
    "<text x=\"8960\" y=\"668\">goes on</text>\n",
);

// Those of the second.
const BOUND: &str = concat!(
    "<path class=\"w\" d=\"M100 790h260v180h-260z\"/>",
    "<path class=\"b\" d=\"M360 780h-35m35 0v40m0 120v40h-35\"/>",
    "<text x=\"420\" y=\"918\">arrival to bound</text>\n",
);

const ARRIVAL: &str = concat!(
    "<path class=\"a\" d=\"M1560 940v-110m-35 50l35-50 35 50\"/>",
    "<text x=\"1650\" y=\"918\">arrival</text>\n",
);

const NOT_READY: &str = concat!(
    "<path class=\"r\" d=\"M2260 880h200\"/>",
    "<text x=\"2520\" y=\"918\">not ready yet</text>\n",
);

const DEADLINE: &str = concat!(
    "<path class=\"d\" d=\"M3460 820v110m0 0l-35-50h70z\"/>",
    "<text x=\"3550\" y=\"918\">deadline</text>\n",
);

const MISSED: &str = concat!(
    "<path class=\"x\" d=\"M4330 880h1\"/>",
    "<path class=\"y\" d=\"M4330 880m-38-38l76 76m0-76l-76 76\"/>",
    "<text x=\"4450\" y=\"918\">missed</text>\n",
);

const UNRUN: &str = concat!(
    "<path class=\"w\" d=\"M5230 790h260v180h-260z\"/>",
    "<path class=\"wt\" d=\"M5230 790h260v180h-260z\"/>",
    "<text x=\"5550\" y=\"918\">timers and interrupts, not in this run</text>\n",
);

const CHANGED: &str = concat!(
    "<path class=\"ch\" d=\"M7750 840l-45 80h90z\"/>",
    "<text x=\"7850\" y=\"918\">response changed</text>\n",
);

// The first line.
fn put_first_line(drawn: &str, text: &mut String) -> Result<(), AllocError>
    ensures { OnOk result (string_bytes text.new ≡ string_bytes text.old ++ first_line drawn.now) }
{
    put_sign(drawn, "<path class=\"f", EXECUTES, text)?;
    put_sign(drawn, "<path class=\"wa i", WAITS, text)?;
    put_sign(drawn, "<path class=\"wb", BLOCKED, text)?;
    put_sign(drawn, "<path class=\"wa ns", SEVERAL, text)?;
    put_sign(drawn, "<path class=\"a\" d=\"M", GOES_ON, text)
}

// The second.
fn put_second_line(drawn: &str, text: &mut String) -> Result<(), AllocError>
    ensures { OnOk result (string_bytes text.new ≡ string_bytes text.old ++ second_line drawn.now) }
{
    put_sign_of(
        drawn,
        "<path class=\"w\"",
        "<path class=\"l w\"",
        BOUND,
        text,
    )?;
    put_sign(drawn, "<path class=\"a\" d=\"\nM", ARRIVAL, text)?;
    put_sign(drawn, "<path class=\"r\" d=\"\nM", NOT_READY, text)?;
    put_sign(drawn, "<path class=\"d\" d=\"\nM", DEADLINE, text)?;
    put_sign_of(
        drawn,
        "<path class=\"x\"",
        "<path class=\"z\"",
        MISSED,
        text,
    )?;
    put_sign(drawn, "<path class=\"wt\"", UNRUN, text)?;
    put_sign(drawn, "<path class=\"ch\"", CHANGED, text)
}

// What the signs mean that a picture has.
pub(crate) fn legend_of(alloc: Global, drawn: &str) -> Result<String, AllocError>
    ensures { IfOk result (λ legend. string_bytes legend
        ≡ legend_text drawn.now ++ codes "</svg>\n") }
{
    let mut text = String::new(alloc);
    put_first_line(drawn, &mut text)?;
    put_second_line(drawn, &mut text)?;
    text.push_str("</svg>\n")?;
    Ok(text)
}
