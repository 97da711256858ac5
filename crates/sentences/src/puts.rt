//! Why a text is no script.

use crate::causes::{tell_cause, tell_jitter};
use crate::sets::section_of;
use crate::texts::{is_space, line_at, tell_line, tell_unseen, word_at};
use crate::told::Told;
use crate::values::{NO_SPAN, Numbers, Span};
use lines::{cut, number_of};
use scripts::ScriptFault;
use std::alloc::Global;
use task_sheet::{INTERRUPT_FROM, INTERRUPT_LIMIT, PERIOD_FROM, PERIOD_TO, SheetCause};

// The place of the first word of a put that may be a section, from 0.
const BEHIND_COST: u64 = 7;

/// What a person is told of a script's fault; none where memory runs out.
pub fn of_script(alloc: Global, bytes: &[u8], fault: ScriptFault) -> Option<String> {
    let mut told = Told::new(alloc);
    match fault {
        ScriptFault::BadLine { line } => tell_bad_line(&mut told, bytes, line),
        ScriptFault::Sheet { line, cause } => {
            tell_line(&mut told, bytes, line, ": ");
            tell_sheet(&mut told, line_at(bytes, line), cause);
        }
        ScriptFault::BadJitter { line } => {
            tell_line(&mut told, bytes, line, ": ");
            tell_jitter(&mut told, numbers_in(line_at(bytes, line)));
        }
        ScriptFault::Outranks { line, cause } => {
            tell_line(&mut told, bytes, line, ": over: ");
            told.show(cause);
        }
        ScriptFault::BadOverhead { line } => {
            tell_line(&mut told, bytes, line, ": ");
            told.numbers(
                "node: job, lock and late are at most {} microseconds, release at most {}",
                &[PERIOD_TO, PERIOD_FROM],
            );
        }
        ScriptFault::BadInterrupt { line } => {
            tell_line(&mut told, bytes, line, ": ");
            told.numbers(
                "irq: at most {}, each with a period from {} to {} microseconds and a cost of at most its period",
                &[INTERRUPT_LIMIT as u64, INTERRUPT_FROM, PERIOD_TO],
            );
        }
        ScriptFault::OutOfMemory => told.give_up(),
    }
    told.whole()
}

// ---- lines

// The lines of a script by their first words, and how they are written.
const FORMS: [(&str, &str); 7] = [
    ("open", "open TEAM, with TEAM from 1 to 8"),
    (
        "put",
        "put DRAFT NAME WEIGHT PERIOD DEADLINE COST, then j=JITTER, over=NAME+NAME \
            or over=*, node=JOB+LOCK+RELEASE+LATE, irq=PERIOD:COST+PERIOD:COST and \
            LOCK+LOCK@AT:LEN where there are such",
    ),
    ("remove", "remove DRAFT NAME"),
    ("found", "found DRAFT NAME or found DRAFT NAME OTHER"),
    ("test", "test DRAFT"),
    ("commit", "commit DRAFT"),
    ("abandon", "abandon DRAFT"),
];

// How the lines of a first word are written.
fn form_of(word: &[u8]) -> &'static str {
    for (first, form) in &FORMS {
        if first.as_bytes() == word {
            return form;
        }
    }
    "of open, put, remove, found, test, commit or abandon"
}

// A line that a script doesn't have.
fn tell_bad_line(told: &mut Told, bytes: &[u8], line: u64) {
    let form = form_of(word_at(line_at(bytes, line), 0));
    tell_line(told, bytes, line, " has to be ");
    told.words(form);
    if form.contains("DRAFT") {
        told.words("; DRAFT is the number of an open line above it");
    }
    tell_unseen(told, bytes, line);
}

// ---- values

// The number that a word is; 0 where it is none.
fn number_at(line: &[u8], place: u64) -> u64 {
    number_of(word_at(line, place)).unwrap_or(0)
}

// Whether a word is a section.
fn is_section(word: &[u8]) -> bool {
    cut(word, b'@').is_some()
}

// The number of a word `j=NUMBER` behind the cost; 0 where there is none.
fn jitter_in(line: &[u8]) -> u64 {
    match cut(word_at(line, BEHIND_COST), b'=') {
        Some(([b'j'], value)) => number_of(value).unwrap_or(0),
        _ => 0,
    }
}

// How many sections a put has.
fn sections_in(line: &[u8]) -> u64 {
    let mut count = 0u64;
    for word in line.split(is_space) {
        if is_section(word) {
            count = count.saturating_add(1);
        }
    }
    count
}

// The numbers of a put.
fn numbers_in(line: &[u8]) -> Numbers {
    Numbers {
        weight: number_at(line, 3),
        period: number_at(line, 4),
        deadline: number_at(line, 5),
        cost: number_at(line, 6),
        jitter: jitter_in(line),
        sections: sections_in(line),
    }
}

// The section of a place in a put, from 1; an empty one where there is none.
fn section_at(line: &[u8], place: usize) -> &[u8] {
    let mut count = 0usize;
    for word in line.split(is_space) {
        if is_section(word) {
            count = count.saturating_add(1);
            if count == place {
                return word;
            }
        }
    }
    &[]
}

// Where a section begins, and how long it is; 0 where there is none.
fn ends_of(section: &[u8]) -> (u64, u64) {
    if let Some((_, span)) = cut(section, b'@') {
        if let Some((at, len)) = cut(span, b':') {
            return (number_of(at).unwrap_or(0), number_of(len).unwrap_or(0));
        }
    }
    (0, 0)
}

// How many locks a section has.
fn locks_in(section: &[u8]) -> u64 {
    let mut count = 1u64;
    for byte in section {
        if *byte == b'+' {
            count = count.saturating_add(1);
        }
    }
    count
}

// The values of the section at a place of a put, from 1.
fn span_at(line: &[u8], place: usize) -> Span {
    let section = section_at(line, place);
    let (at, len) = ends_of(section);
    let (before, long) = ends_of(section_at(line, place.saturating_sub(1)));
    Span {
        at,
        len,
        locks: locks_in(section),
        from: before.saturating_add(long),
    }
}

// A put whose values are no sheet, with the section that the cause names, as it stands in the line.
fn tell_sheet(told: &mut Told, put: &[u8], cause: SheetCause) {
    match section_of(cause) {
        Some(place) => {
            tell_cause(told, cause, numbers_in(put), span_at(put, place));
            told.quoted(", in ", section_at(put, place));
        }
        None => tell_cause(told, cause, numbers_in(put), NO_SPAN),
    }
}
