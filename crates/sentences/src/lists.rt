//! Why a text is no release list or no settings of a set.

use crate::texts::{is_line_end, is_skipped, line_at, tell_bad_line, tell_line, word_at};
use crate::told::Told;
use ceiling_kernel::{HORIZON, RELEASE_LIMIT, RunFault};
use judge::SettingsFault;
use lines::{name_of, number_of};
use std::alloc::Global;
use task_sheet::{Name, Sheet, TaskSet};

// ---- release lists

/// What a person is told of a line that a release list doesn't have; none where memory runs out.
pub fn of_release_line(alloc: Global, bytes: &[u8], line: u64) -> Option<String> {
    let mut told = Told::new(alloc);
    match line_of_place(bytes, 0) {
        None => told.words("there is no line until N"),
        Some(first) => {
            let wanted = if first == line {
                " has to be until N, in whole microseconds"
            } else {
                " has to be TIME NAME [LATE] [runs N], in whole microseconds"
            };
            tell_bad_line(&mut told, bytes, line, wanted);
        }
    }
    told.whole()
}

// Whether a line has a word at a place.
fn has_word(line: &[u8], place: u64, word: &[u8]) -> bool {
    word_at(line, place) == word
}

// Whether a line has a place in a release list: it isn't skipped, and sets no thread or mutex, as those do that may stand
// in front of the list.
fn is_listed(line: &[u8]) -> bool {
    !is_skipped(line) && !has_word(line, 0, b"thread") && !has_word(line, 0, b"mutex")
}

// The number of the line of a place in a release list; the line until has place 0.
fn line_of_place(bytes: &[u8], place: usize) -> Option<u64> {
    let mut left = place;
    let mut number = 0u64;
    for line in bytes.split(is_line_end) {
        number = number.saturating_add(1);
        if is_listed(line) {
            if left == 0 {
                return Some(number);
            }
            left -= 1;
        }
    }
    None
}

/// What a person is told of why a release list wasn't run, with the set of its tasks where that is at hand; none where
/// memory runs out.
pub fn of_run(
    alloc: Global,
    bytes: &[u8],
    set: Option<&TaskSet>,
    fault: RunFault,
) -> Option<String> {
    let mut told = Told::new(alloc);
    match fault {
        RunFault::PastHorizon => tell_horizon(&mut told, bytes),
        RunFault::TooMany => told.numbers("more than {} releases", &[RELEASE_LIMIT as u64]),
        RunFault::Overrun { name, time } => {
            told.name("a job of ", name);
            told.numbers(
                " becomes ready at {}, while the one before it isn't finished",
                &[time],
            );
        }
        RunFault::Unsorted { place } => {
            tell_release(&mut told, bytes, place, " arrives before the one above it");
        }
        RunFault::UnknownTask { place } => {
            let wrong = ": the set has no task of that name";
            tell_release(&mut told, bytes, place, wrong);
        }
        RunFault::TooSoon { place } => tell_soon(&mut told, bytes, set, place),
        RunFault::TooLate { place } => tell_late(&mut told, bytes, set, place),
        RunFault::OutsideCost { place } => tell_cost(&mut told, bytes, set, place),
        RunFault::OutOfMemory => told.give_up(),
    }
    told.whole()
}

// A release with its line, and what is wrong with it.
fn tell_release(told: &mut Told, bytes: &[u8], place: usize, wrong: &str) {
    match line_of_place(bytes, place) {
        Some(line) => tell_line(told, bytes, line, wrong),
        None => {
            told.number("release ", place as u64);
            told.words(wrong);
        }
    }
}

// The line of a release; an empty one where there is none.
fn release_at(bytes: &[u8], place: usize) -> &[u8] {
    match line_of_place(bytes, place) {
        Some(line) => line_at(bytes, line),
        None => &[],
    }
}

/// The task that a word names, where the set is at hand.
pub(crate) fn task_named<'a>(set: Option<&'a TaskSet>, word: &[u8]) -> Option<&'a Sheet> {
    let set = set?;
    set.get(set.find(name_of(word)?)?)
}

// When the release before this place arrives that has the name of the one there; 0 where there is none.
fn arrival_before(bytes: &[u8], place: usize) -> u64 {
    let name = word_at(release_at(bytes, place), 1);
    let mut arrival = 0u64;
    let mut left = place;
    for line in bytes.split(is_line_end) {
        if is_listed(line) {
            if left == 0 {
                return arrival;
            }
            left -= 1;
            if has_word(line, 1, name) {
                arrival = time_at(line, 0);
            }
        }
    }
    arrival
}

// A release that arrives too soon after another one, with both times and the period.
fn tell_soon(told: &mut Told, bytes: &[u8], set: Option<&TaskSet>, place: usize) {
    let wrong = " arrives less than the task's period after the one before it";
    tell_release(told, bytes, place, wrong);
    let line = release_at(bytes, place);
    told.numbers(
        ": at {}, that one at {}",
        &[time_at(line, 0), arrival_before(bytes, place)],
    );
    if let Some(task) = task_named(set, word_at(line, 1)) {
        told.number(", period ", task.period());
    }
}

// A release that is too late, with the jitter.
fn tell_late(told: &mut Told, bytes: &[u8], set: Option<&TaskSet>, place: usize) {
    let wrong = " is later than the task's jitter allows";
    tell_release(told, bytes, place, wrong);
    let line = release_at(bytes, place);
    told.number(": late ", time_at(line, 2));
    if let Some(task) = task_named(set, word_at(line, 1)) {
        told.number(", jitter ", task.jitter());
    }
}

// A release whose job executes for nothing or for too long, with the cost.
fn tell_cost(told: &mut Told, bytes: &[u8], set: Option<&TaskSet>, place: usize) {
    let line = release_at(bytes, place);
    // behind the word `runs`, in front of which may stand how late it is
    let runs = time_at(line, if has_word(line, 2, b"runs") { 3 } else { 4 });
    let wrong = if runs == 0 {
        " runs for nothing"
    } else {
        " runs for more than the task's cost"
    };
    tell_release(told, bytes, place, wrong);
    told.number(": runs ", runs);
    if let Some(task) = task_named(set, word_at(line, 1)) {
        told.number(", cost ", task.cost());
    }
}

// The number of a word of a line; 0 where there is none.
fn time_at(line: &[u8], place: u64) -> u64 {
    number_of(word_at(line, place)).unwrap_or(0)
}

/// Whether settings stand in front of a list.
pub(crate) fn has_order(bytes: &[u8]) -> bool {
    for line in bytes.split(is_line_end) {
        if !is_skipped(line) && has_word(line, 0, b"thread") {
            return true;
        }
    }
    false
}

/// The time of the line until.
pub(crate) fn until_of(bytes: &[u8]) -> u64 {
    time_at(release_at(bytes, 0), 1)
}

// The number of the first line of a release that becomes ready at a time or after it.
fn line_ready_at(bytes: &[u8], until: u64) -> Option<u64> {
    let mut is_release = false;
    let mut number = 0u64;
    for line in bytes.split(is_line_end) {
        number = number.saturating_add(1);
        if is_listed(line) {
            if is_release && time_at(line, 0).saturating_add(time_at(line, 2)) >= until {
                return Some(number);
            }
            is_release = true;
        }
    }
    None
}

// The end is too late, or a release is past it.
fn tell_horizon(told: &mut Told, bytes: &[u8]) {
    let until = until_of(bytes);
    if until > HORIZON {
        return told.numbers("until {} is above {} microseconds", &[until, HORIZON]);
    }
    if let Some(line) = line_ready_at(bytes, until) {
        tell_line(told, bytes, line, ": ");
    }
    told.number("a job has to become ready before until, ", until);
}

// ---- settings

/// What a person is told of a fault of settings; none where memory runs out.
pub fn of_settings(alloc: Global, bytes: &[u8], fault: SettingsFault) -> Option<String> {
    let mut told = Told::new(alloc);
    match fault {
        SettingsFault::BadLine { line } => {
            let wanted =
                " has to be thread NAME NUMBER or mutex NAME NUMBER, with a number from 1 to 1000000";
            tell_bad_line(&mut told, bytes, line, wanted);
        }
        SettingsFault::UnknownTask { line } => {
            tell_line(&mut told, bytes, line, ": the set has no task of that name");
        }
        SettingsFault::UnknownLock { line } => {
            tell_line(
                &mut told,
                bytes,
                line,
                ": no task of the set uses that lock",
            );
        }
        SettingsFault::SameTask { line } => {
            tell_line(
                &mut told,
                bytes,
                line,
                ": a thread line before it has that name",
            );
        }
        SettingsFault::SameLock { line } => {
            tell_line(
                &mut told,
                bytes,
                line,
                ": a mutex line before it has that name",
            );
        }
        SettingsFault::SameNumber { line } => {
            tell_line(
                &mut told,
                bytes,
                line,
                ": a thread line before it has that number",
            );
        }
        SettingsFault::MissingTask { name } => {
            told.name("no line thread ", name);
            told.words(" NUMBER");
        }
        SettingsFault::MissingLock { name } => {
            told.name("no line mutex ", name);
            told.words(" NUMBER; there is one for each lock or for none");
        }
        SettingsFault::WrongCeiling { name, number } => {
            tell_ceiling(&mut told, bytes, name, number);
        }
        SettingsFault::OutOfMemory => told.give_up(),
    }
    told.whole()
}

// The number of the line of a lock's mutex.
fn line_of_mutex(bytes: &[u8], lock: &Name) -> Option<u64> {
    let mut number = 0u64;
    for line in bytes.split(is_line_end) {
        number = number.saturating_add(1);
        if has_word(line, 0, b"mutex") && has_word(line, 1, lock.bytes()) {
            return Some(number);
        }
    }
    None
}

// A mutex that isn't at its ceiling, which is this number.
fn tell_ceiling(told: &mut Told, bytes: &[u8], lock: Name, number: u64) {
    match line_of_mutex(bytes, &lock) {
        Some(line) => tell_line(told, bytes, line, ""),
        None => told.name("mutex ", lock),
    }
    told.numbers(
        " isn't at {}, the number of the highest thread that uses it; desk judge alone takes a higher one",
        &[number],
    );
}
