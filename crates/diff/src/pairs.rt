//! What was, and what is.
ghost use Rattle.std.specs.Prelude.{◌≡◌, ◌++◌, OnOk, string_bytes};
ghost use Rattle.diff.specs.Keys.{number_words, pair_words};

use lines::push_some;
use std::alloc::AllocError;

/// A word, and a number before and after.
pub(crate) fn push_pair(
    text: &mut String,
    word: &str,
    old: Option<u64>,
    new: Option<u64>,
) -> Result<(), AllocError>
    ensures { OnOk result (string_bytes text.new ≡ string_bytes text.old
        ++ pair_words word.now old new) }
{
    text.push_str(word)?;
    push_some(text, old)?;
    text.push_str(" ")?;
    push_some(text, new)
}

/// The same behind a space, where the number is another one.
pub(crate) fn push_number(
    text: &mut String,
    word: &str,
    differs: bool,
    old: u64,
    new: u64,
) -> Result<(), AllocError>
    ensures { OnOk result (string_bytes text.new ≡ string_bytes text.old
        ++ number_words word.now differs old new) }
{
    if !differs {
        return Ok(());
    }
    write!(text, " {word} ")?;
    push_pair(text, "", Some(old), Some(new))
}
