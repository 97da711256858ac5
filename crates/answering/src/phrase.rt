//! A name and what stands behind it: how the line of a refusal says a fault.
ghost use Rattle.std.specs.Prelude.{Some};
ghost use Rattle.std.specs.Fmt.{DisplaysOnOk};
ghost use Rattle.answering.specs.Phrases.{field_words, part_words, phrase_words};

use std::fmt;
use task_sheet::Name;

/// What stands behind a name.
#[derive(Clone, Copy)]
pub(crate) enum Field {
    /// A place, from 1.
    Place(usize),
    /// A line, a time or another number.
    Number(u64),
    /// A key or another word.
    Word(&'static str),
    /// A name that the set has.
    Named(Name),
}

impl fmt::Display for Field {
    ghost output = { λ field. Some (field_words field) };

    fn fmt<W: fmt::Write>(&self, f: &mut fmt::Formatter<W>) -> fmt::Result {
        match self {
            Field::Place(place) => write!(f, "{place}"),
            Field::Number(number) => write!(f, "{number}"),
            Field::Word(word) => f.write_str(word),
            Field::Named(name) => write!(f, "{name}"),
        }
    }
}

/// A name, and what stands behind it, each after a space.
#[derive(Clone, Copy)]
pub(crate) enum Phrase {
    Alone(&'static str),
    One(&'static str, Field),
    Two(&'static str, Field, Field),
    Three(&'static str, Field, Field, Field),
    Four(&'static str, Field, Field, Field, Field),
}

impl fmt::Display for Phrase {
    ghost output = { λ phrase. Some (phrase_words phrase) };

    fn fmt<W: fmt::Write>(&self, f: &mut fmt::Formatter<W>) -> fmt::Result {
        match self {
            Phrase::Alone(name) => f.write_str(name),
            Phrase::One(name, a) => write!(f, "{name} {a}"),
            Phrase::Two(name, a, b) => write!(f, "{name} {a} {b}"),
            Phrase::Three(name, a, b, c) => write!(f, "{name} {a} {b} {c}"),
            Phrase::Four(name, a, b, c, d) => write!(f, "{name} {a} {b} {c} {d}"),
        }
    }
}

/// What stands in front of a name: of which document, or of which line, it is.
#[derive(Clone, Copy)]
pub(crate) enum Front {
    Nothing,
    Node,
    Team(Name),
    Task(Name, Name),
    Line(u64),
}

/// Writes a phrase behind what stands in front of it.
pub(crate) fn write_part<W: fmt::Write>(
    front: Front,
    phrase: &Phrase,
    f: &mut fmt::Formatter<W>,
) -> fmt::Result
    ensures { DisplaysOnOk W.write_str_gives f.old result
        (Some (part_words front (phrase_words phrase.now))) f.new }
{
    match front {
        Front::Nothing => write!(f, "{phrase}"),
        Front::Node => write!(f, "node {phrase}"),
        Front::Team(team) => write!(f, "team {team} {phrase}"),
        Front::Task(team, task) => write!(f, "team {team} task {task} {phrase}"),
        Front::Line(line) => write!(f, "line {line} {phrase}"),
    }
}
