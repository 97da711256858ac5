//! A number that may be missing, in a line that is written.
ghost use Rattle.std.specs.Prelude.{◌≡◌, ◌++◌, OnOk, string_bytes};
ghost use Rattle.lines.specs.Known.{some_words};

use std::alloc::AllocError;

/// Writes a number, or `-` for none. The error is out of memory.
pub fn push_some(text: &mut String, number: Option<u64>) -> Result<(), AllocError>
    ensures { OnOk result (string_bytes text.new ≡ string_bytes text.old ++ some_words number) }
{
    match number {
        Some(number) => write!(text, "{number}"),
        None => text.push_str("-"),
    }
}

/// The same of a number of up to 128 bits.
pub fn push_some_wide(text: &mut String, number: Option<u128>) -> Result<(), AllocError>
    ensures { OnOk result (string_bytes text.new ≡ string_bytes text.old ++ some_words number) }
{
    match number {
        Some(number) => write!(text, "{number}"),
        None => text.push_str("-"),
    }
}
