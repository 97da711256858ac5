//! The title, behind what a picture says of its run.
ghost use Rattle.std.specs.Prelude.{◌≡◌, ◌++◌, OnOk, string_bytes};
ghost use Rattle.std.specs.Str.{IsCharBoundary};
ghost use Rattle.picture.specs.Titles.{letters_at, letters_behind, place_past, shown_char, title_in, title_tail};

use frames::{Frame, end_of};
use std::alloc::AllocError;

// What stands where a title is cut.
const CUT: &str = "…";

// How wide a letter of it is taken to be.
const LETTER: u64 = 100;

// A character, as text has it.
fn put_char(letter: char, text: &mut String) -> Result<(), AllocError>
    ensures { OnOk result (string_bytes text.new ≡ string_bytes text.old ++ shown_char letter) }
{
    if letter == '&' {
        text.push_str("&amp;")
    } else if letter == '<' {
        text.push_str("&lt;")
    } else if letter == '>' {
        text.push_str("&gt;")
    } else if letter < ' ' || letter == '\u{fffe}' || letter == '\u{ffff}' {
        text.push_str(" ")
    } else {
        text.push(letter)
    }
}

// A title, where it isn't empty.
pub(crate) fn put_title_tail(title: &str, text: &mut String) -> Result<(), AllocError>
    ensures { OnOk result (string_bytes text.new ≡ string_bytes text.old ++ title_tail title.now) }
{
    if title.is_empty() {
        return Ok(());
    }
    text.push_str(" - ")?;
    for letter in title.chars() {
        put_char(letter, text)?;
    }
    Ok(())
}

// How many letters the character takes that begins with a byte.
fn letters_at(byte: u8) -> usize
    ensures { result ≡ letters_at byte }
{
    if byte < 128 {
        1
    } else if byte < 192 {
        0
    } else if byte < 224 {
        1
    } else {
        2
    }
}

// Where the first character begins for which so many letters are too few; the end, where they are enough.
fn place_past(title: &str, room: usize) -> usize
    ensures place { result ≡ place_past title.now room }
    ensures within { IsCharBoundary title.now result }
{
    let bytes = title.as_bytes();
    let mut left = room;
    for place in 0..bytes.len() {
        let letters = letters_at(bytes[place]);
        if left < letters {
            return place;
        }
        left -= letters;
    }
    bytes.len()
}

// A title in so many letters, cut where it is longer.
pub(crate) fn put_title_in(title: &str, room: usize, text: &mut String) -> Result<(), AllocError>
    ensures { OnOk result (string_bytes text.new ≡ string_bytes text.old
        ++ title_in title.now room) }
{
    if place_past(title, room) == title.len() {
        put_title_tail(title, text)
    } else {
        let end = place_past(title, room.saturating_sub(2));
        put_title_tail(&title[..end], text)?;
        text.push_str(CUT)
    }
}

// How many letters have room in a picture behind so many.
pub(crate) fn letters_behind(frame: Frame, before: usize) -> usize
    ensures { result ≡ letters_behind frame before }
{
    let letters = end_of(frame).saturating_sub(100) / LETTER;
    (letters as usize).saturating_sub(before)
}
