//! What the signs of a picture mean: each stands where the picture has what it stands for.
ghost use Rattle.std.specs.Prelude.{◌≡◌, ◌++◌, OnOk, string_bytes};
ghost use Rattle.frames.specs.Signs.{has_words, sign_of, sign_text};

use memchr::memmem;
use std::alloc::AllocError;

// Whether words stand somewhere in what is drawn.
fn has_words(drawn: &str, words: &str) -> bool
    ensures { result ≡ has_words drawn.now words.now }
{
    memmem::find(drawn.as_bytes(), words.as_bytes()).is_some()
}

/// Puts a sign, where what is drawn has an element that begins so.
pub fn put_sign(drawn: &str, mark: &str, sign: &str, text: &mut String) -> Result<(), AllocError>
    ensures { OnOk result (string_bytes text.new ≡ string_bytes text.old
        ++ sign_text drawn.now mark.now sign.now) }
{
    if has_words(drawn, mark) {
        text.push_str(sign)?;
    }
    Ok(())
}

/// Puts a sign, where it has one that begins in either of two ways.
pub fn put_sign_of(
    drawn: &str,
    mark: &str,
    other: &str,
    sign: &str,
    text: &mut String,
) -> Result<(), AllocError>
    ensures { OnOk result (string_bytes text.new ≡ string_bytes text.old
        ++ sign_of drawn.now mark.now other.now sign.now) }
{
    if has_words(drawn, mark) {
        text.push_str(sign)
    } else {
        put_sign(drawn, other, sign, text)
    }
}
