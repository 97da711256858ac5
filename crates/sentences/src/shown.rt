//! Foreign text in a sentence.

use crate::told::Told;
use std::alloc::AllocError;

// The most characters of a document that a sentence shows at once.
const MOST_SHOWN: usize = 60;

/// A character that can't be seen, or that a terminal takes for a command, as `?`.
pub(crate) fn clean(letter: char) -> char {
    if letter == ' ' || letter.is_ascii_graphic() || letter.is_alphanumeric() {
        letter
    } else {
        '?'
    }
}

/// The text, with `?` for what is no letter, digit or other sign of ASCII.
pub fn push_clean(text: &mut String, foreign: &str) -> Result<(), AllocError> {
    for letter in foreign.chars() {
        text.push(clean(letter))?;
    }
    Ok(())
}

impl Told {
    // The same, cut where it is long.
    fn cut(&mut self, foreign: &str) {
        let mut left = MOST_SHOWN;
        for letter in foreign.chars() {
            if left == 0 {
                return self.words("..");
            }
            left -= 1;
            self.letter(letter);
        }
    }

    // The bytes of ASCII, with `?` for each other one, cut where they are many.
    fn ascii(&mut self, foreign: &[u8]) {
        let mut left = MOST_SHOWN;
        for byte in foreign {
            if left == 0 {
                return self.words("..");
            }
            left -= 1;
            self.letter(if byte.is_ascii() {
                char::from(*byte)
            } else {
                '?'
            });
        }
    }

    /// Foreign text between words, in quotes where there is none.
    pub(crate) fn shown(&mut self, before: &str, foreign: &str, after: &str) {
        self.words(before);
        if foreign.is_empty() {
            self.words("\"\"");
        } else {
            self.cut(foreign);
        }
        self.words(after);
    }

    /// Bytes in quotes behind words, cut where they are long. Of bytes that are no text those of ASCII are shown.
    pub(crate) fn quoted(&mut self, words: &str, foreign: &[u8]) {
        self.words(words);
        match std::str::from_utf8(foreign) {
            Ok(text) => {
                self.words("\"");
                self.cut(text);
                self.words("\"");
            }
            Err(_) => {
                self.words("\"");
                self.ascii(foreign);
                self.words("\"");
            }
        }
    }
}
