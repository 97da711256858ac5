//! The lines of a text, as a sentence shows them.

use crate::told::Told;
use lines::cut;

/// The byte order mark in UTF-8.
pub(crate) const MARK: &[u8] = b"\xef\xbb\xbf";

/// Whether a byte ends a line.
pub(crate) fn is_line_end(byte: &u8) -> bool {
    *byte == b'\n'
}

/// Whether a byte stands between two words.
pub(crate) fn is_space(byte: &u8) -> bool {
    *byte == b' '
}

// The piece at a place, from 0, of what has such a byte between two pieces; an empty one where there is none.
fn piece_at(bytes: &[u8], byte: u8, place: u64) -> &[u8] {
    let mut rest = bytes;
    for _ in 0..place {
        match cut(rest, byte) {
            Some((_, after)) => rest = after,
            None => return &[],
        }
    }
    match cut(rest, byte) {
        Some((front, _)) => front,
        None => rest,
    }
}

/// The line of a number, from 1, without its LF; an empty one where there is none.
pub(crate) fn line_at(bytes: &[u8], number: u64) -> &[u8] {
    piece_at(bytes, b'\n', number.saturating_sub(1))
}

/// The word at a place of a line, from 0; an empty one where there is none. Between two words stands a space.
pub(crate) fn word_at(line: &[u8], place: u64) -> &[u8] {
    piece_at(line, b' ', place)
}

/// Whether the line is empty or begins with `#`.
pub(crate) fn is_skipped(line: &[u8]) -> bool {
    match line.first() {
        Some(first) => *first == b'#',
        None => true,
    }
}

// Whether a word is of digits alone.
fn is_digits(word: &[u8]) -> bool {
    for byte in word {
        if !byte.is_ascii_digit() {
            return false;
        }
    }
    true
}

// What is wrong with a word of digits that is no number.
fn slip_in_number(word: &[u8]) -> &'static str {
    if word.len() > 1 && word.starts_with(b"0") && is_digits(word) {
        "; a number has no leading zero"
    } else if word.len() > 10 && is_digits(word) {
        "; a number has 10 digits at most"
    } else {
        ""
    }
}

// The same of the first such word of a line.
fn slip_in_numbers(line: &[u8]) -> &'static str {
    for word in line.split(is_space) {
        let slip = slip_in_number(word);
        if !slip.is_empty() {
            return slip;
        }
    }
    ""
}

// A slip in a line: a tab, a comment, a space too many, or a number that is none.
fn slip_in(line: &[u8]) -> &'static str {
    if line.contains(&b'\t') {
        return "; a tab stands in it, where one space stands between words";
    }
    let mut is_first = true;
    let mut is_spaced = true;
    for word in line.split(is_space) {
        if !is_first && word.starts_with(b"#") {
            return "; a comment has to be a line of its own, which begins with #";
        }
        is_first = false;
        is_spaced = is_spaced && !word.is_empty();
    }
    if is_spaced {
        slip_in_numbers(line)
    } else {
        "; one space stands between words, none before or after them"
    }
}

/// A line of a text, with its number, and what is wrong with it.
pub(crate) fn tell_line(told: &mut Told, bytes: &[u8], number: u64, wrong: &str) {
    told.number("line ", number);
    told.quoted(", ", line_at(bytes, number));
    told.words(wrong);
}

/// A line that has to be another, with the slip that the eye misses in it.
pub(crate) fn tell_bad_line(told: &mut Told, bytes: &[u8], number: u64, wanted: &str) {
    tell_line(told, bytes, number, wanted);
    tell_unseen(told, bytes, number);
}

/// A slip that the eye misses in a line of a text.
pub(crate) fn tell_unseen(told: &mut Told, bytes: &[u8], number: u64) {
    let line = line_at(bytes, number);
    if line.starts_with(MARK) {
        told.words("; it begins with a byte order mark, which only a set may have");
    }
    if line.ends_with(b"\r") {
        told.words("; it ends with CR and LF, where LF alone is wanted");
    } else {
        told.words(slip_in(line));
    }
}
