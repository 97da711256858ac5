//! The words of a line.
ghost use Rattle.std.specs.Prelude.{◌≡◌, ℕ, List, ◌∷◌, [], MatchOption};
ghost use Rattle.lines.specs.Words.{words};

use crate::cutting::cut;
use std::marker::Model;

/// The words of a line that are left, from the first to the last. Between two words stands exactly one space, so that a
/// further space makes an empty word.
#[derive(Drop)]
pub struct Words<'a> {
    rest: Option<&'a [u8]>,
}

impl<'a> Model for Words<'a> {
    ghost use Rattle.std.specs.Prelude.{ℕ, List};
    ghost use Rattle.lines.specs.WordsFields.{words_left};

    ghost Value = { List (List ℕ) };

    ghost view = { words_left };
}

impl<'a> Words<'a> {
    /// Those of a line. An empty line has one word, which is empty.
    pub fn of(line: &'a [u8]) -> Words<'a>
        ensures { result ≡ words line.entry.now }
    {
        Words { rest: Some(line) }
    }

    /// The next word, which stays; `None` behind the last one.
    pub fn peek(&self) -> Option<&'a [u8]>
        ensures { MatchOption result (self.now ≡ [])
            (λ word. (rest : List (List ℕ)) × (self.now ≡ word.now ∷ rest)) }
    {
        let rest = self.rest?;
        match cut(rest, b' ') {
            Some((word, _after)) => Some(word),
            None => Some(rest),
        }
    }

    /// The next word; `None` behind the last one.
    pub fn next(&mut self) -> Option<&'a [u8]>
        ensures { MatchOption result ((self.old ≡ []) × (self.new ≡ []))
            (λ word. self.old ≡ word.now ∷ self.new) }
    {
        let rest = self.rest?;
        match cut(rest, b' ') {
            Some((word, after)) => {
                self.rest = Some(after);
                Some(word)
            }
            None => {
                self.rest = None;
                Some(rest)
            }
        }
    }
}
