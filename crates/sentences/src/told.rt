//! What a person is told, while it grows.

use crate::shown::clean;
use std::alloc::Global;
use std::fmt::Display;
use task_sheet::Name;

/// A text that grows by words and numbers; none in the end where one of them found no memory.
#[derive(Drop)]
pub(crate) struct Told {
    text: String,
    is_whole: bool,
}

/// What stands in front of an item of a list.
pub(crate) fn between(index: usize) -> &'static str {
    if index == 0 { " " } else { ", " }
}

impl Told {
    /// With no words yet.
    pub(crate) fn new(alloc: Global) -> Told {
        Told {
            text: String::new(alloc),
            is_whole: true,
        }
    }

    /// There is nothing to be told: memory runs out, or what it would be of isn't there.
    pub(crate) fn give_up(&mut self) {
        self.is_whole = false;
    }

    /// Words.
    pub(crate) fn words(&mut self, words: &str) {
        if self.is_whole {
            self.is_whole = self.text.push_str(words).is_ok();
        }
    }

    /// A number behind words.
    pub(crate) fn number(&mut self, words: &str, number: u64) {
        self.words(words);
        self.show(number);
    }

    /// A sentence, each `{}` of which is a number.
    pub(crate) fn numbers(&mut self, sentence: &str, numbers: &[u64]) {
        let mut rest = sentence;
        for number in numbers {
            if let Some((words, after)) = rest.split_once("{}") {
                self.number(words, *number);
                rest = after;
            }
        }
        self.words(rest);
    }

    /// What is shown as it is.
    pub(crate) fn show<D: Display + Drop>(&mut self, shown: D) {
        if self.is_whole {
            self.is_whole = write!(self.text, "{shown}").is_ok();
        }
    }

    /// A name behind words.
    pub(crate) fn name(&mut self, words: &str, name: Name) {
        self.words(words);
        self.words(name.as_str());
    }

    /// A letter that others wrote, as `?` where it can't be shown.
    pub(crate) fn letter(&mut self, letter: char) {
        if self.is_whole {
            self.is_whole = self.text.push(clean(letter)).is_ok();
        }
    }

    /// The whole.
    pub(crate) fn whole(self) -> Option<String> {
        if self.is_whole { Some(self.text) } else { None }
    }
}
