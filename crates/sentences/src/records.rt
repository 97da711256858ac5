//! Why a text is no certificate, or doesn't show what it says.

use crate::lists::task_named;
use crate::texts::{is_line_end, line_at, tell_bad_line, tell_unseen, word_at};
use crate::told::Told;
use cert_checker::CheckFault;
use certificate::CertFault;
use chain_tables::Chain;
use chains::{Level, Writes, bound_of};
use lines::{name_of, number_of};
use std::alloc::{AllocError, Global};
use task_sheet::{Name, TaskSet};

/// What a person is told of a fault of a certificate's text; none where memory runs out.
pub fn of_certificate(alloc: Global, bytes: &[u8], fault: CertFault) -> Option<String> {
    let mut told = Told::new(alloc);
    match fault {
        CertFault::BadHead => {
            told.words("line 1 has to be desk-certificate 1, 2, 4 or 5");
            told.quoted("; it is ", line_at(bytes, 1));
            tell_unseen(&mut told, bytes, 1);
        }
        CertFault::BadLine { line } => tell_bad_line(&mut told, bytes, line, WANTED),
        CertFault::Truncated => told.words(
            "the complete lines stop before one that says end; each line ends with LF, the last, too",
        ),
        CertFault::Trailing => {
            told.words("something follows the line end, which has to be the last");
        }
        CertFault::OutOfMemory => told.give_up(),
    }
    told.whole()
}

// What a certificate has behind its first line.
const WANTED: &str =
    ": no such line may stand here; after the head come best N, for each level from 1 \
    level K NAME NUMBER and lines fails NAME REASON, then, in version 5, lines chain NAME NUMBER, or none N and lines member NAME REASON, then end";

/// What a person is told of what a certificate fails to show, with the set that it is of where that is at hand, its chains,
/// and whether the call says by what the set is preferred; none where memory runs out.
pub fn of_check(
    alloc: Global,
    bytes: &[u8],
    set: Option<&TaskSet>,
    chains: &[Chain],
    is_preferred: bool,
    fault: CheckFault,
) -> Option<String> {
    let mut told = Told::new(alloc);
    match fault {
        CheckFault::WrongVersion => told.words(
            "its version doesn't serve for this set: best of one with chains needs 5, and nothing else takes it; else one with release of [node] or an interrupt needs 4, and no other takes it; else one with jitter, late of [node] or outranks needs 2",
        ),
        CheckFault::WrongTasks { level } => tell_tasks(&mut told, level),
        CheckFault::BadPass { level } => tell_pass(&mut told, bytes, set, level),
        CheckFault::BadChain { level, name } => tell_chain(&mut told, level, name),
        CheckFault::MissingFail { level, name } => {
            told.numbers("level {}: ", &[level as u64]);
            told.name("", name);
            told.words(
                " is left and of smaller rank than the level's task, but no line fails says why it can't have the level",
            );
        }
        CheckFault::EmptySet => told.words("none without members shows nothing"),
        CheckFault::WrongChains => told.words(
            "its lines chain have to name the set's chains, each once, as the documents say them",
        ),
        CheckFault::BadAge { name } => tell_age(&mut told, alloc, bytes, set, chains, name),
    }
    if !is_preferred && may_be_of_other(fault) {
        told.words(" (a certificate made with --prefer is checked with it)");
    }
    told.whole()
}

// Whether a certificate of another preference has this fault.
fn may_be_of_other(fault: CheckFault) -> bool {
    match fault {
        CheckFault::WrongTasks { level } => level > 0,
        CheckFault::MissingFail { .. } => true,
        _ => false,
    }
}

// The line of a level; an empty one where there is none.
fn level_line(bytes: &[u8], level: u64) -> &[u8] {
    for line in bytes.split(is_line_end) {
        let is_one = word_at(line, 0) == b"level".as_slice();
        if is_one && number_of(word_at(line, 1)) == Some(level) {
            return line;
        }
    }
    &[]
}

// The number of a chain's line; 0 where there is none.
fn chain_number(bytes: &[u8], name: Name) -> u64 {
    for line in bytes.split(is_line_end) {
        let is_of_chain = word_at(line, 0) == b"chain".as_slice();
        if is_of_chain && word_at(line, 1) == name.bytes() {
            return number_of(word_at(line, 2)).unwrap_or(0);
        }
    }
    0
}

// The level that a line names, with the response that its number says.
fn level_in(set: &TaskSet, line: &[u8]) -> Option<Level> {
    if word_at(line, 0) != b"level".as_slice() {
        return None;
    }
    let task = set.find(name_of(word_at(line, 2))?)?;
    let number = number_of(word_at(line, 3))?;
    let jitter = set.get(task)?.jitter();
    Some(Level {
        task,
        response: Some(number.saturating_add(jitter)),
    })
}

// The levels of a certificate, the lowest first.
fn levels_in(alloc: Global, bytes: &[u8], set: &TaskSet) -> Result<Vec<Level>, AllocError> {
    let mut levels = Vec::new(alloc);
    for line in bytes.split(is_line_end) {
        if let Some(level) = level_in(set, line) {
            levels.push(level)?;
        }
    }
    Ok(levels)
}

// The bound of a chain by the numbers of a certificate's levels, where all that it is of is at hand.
fn bound_by(alloc: Global, bytes: &[u8], set: Option<&TaskSet>, chain: &Chain) -> Option<u128> {
    let set = set?;
    let levels = levels_in(alloc, bytes, set).ok()?;
    let (writes, offsets) = (chain.writes, &chain.offsets);
    bound_of(alloc, set, &levels, writes, offsets, &chain.tasks).ok()?
}

// What a chain's bound is.
fn rule_of(chain: &Chain) -> &'static str {
    match chain.writes {
        Writes::AtFinish if chain.offsets.is_empty() => {
            ", the sum of its periods, of what its tasks hand over and of the last one's response, by the numbers of the levels"
        }
        Writes::AtFinish => {
            ", its longest span from an arrival of its first task, by the numbers of the levels"
        }
        Writes::AtDeadline if chain.offsets.is_empty() => {
            ", the sum of its periods and of its tasks' deadlines"
        }
        Writes::AtDeadline => {
            ", its longest span from an arrival of its first task, by its tasks' deadlines"
        }
    }
}

// The number of a chain that is below its bound by the numbers of the levels, with that bound.
fn tell_age(
    told: &mut Told,
    alloc: Global,
    bytes: &[u8],
    set: Option<&TaskSet>,
    chains: &[Chain],
    name: Name,
) {
    let Some(chain) = chains.iter().find(|chain| chain.name == name) else {
        return told.give_up();
    };
    let Some(bound) = bound_by(alloc, bytes, set, chain) else {
        return told.give_up();
    };
    told.name("chain ", name);
    told.number(": its number, ", chain_number(bytes, name));
    told.words(", is below ");
    told.show(bound);
    told.words(rule_of(chain));
}

// The number of a level that its task can't have, with its limit.
fn tell_pass(told: &mut Told, bytes: &[u8], set: Option<&TaskSet>, level: usize) {
    let line = level_line(bytes, level as u64);
    let number = number_of(word_at(line, 3)).unwrap_or(0);
    told.numbers("level {}: its number, {}", &[level as u64, number]);
    match task_named(set, word_at(line, 2)) {
        Some(task) if number > task.limit() => {
            told.number(", is past the deadline less the jitter, ", task.limit());
        }
        _ => told.words(
            ", is below what the task may need, or its task has to outrank one above it",
        ),
    }
}

// Names that are not those that have to stand there; level 0 is the whole certificate.
fn tell_tasks(told: &mut Told, level: usize) {
    if level == 0 {
        told.words(
            "its levels don't name each task of the set once, or a member is no task or named twice",
        );
    } else {
        told.numbers(
            "level {}: its lines fails have to name tasks that are left and of smaller rank, by rank",
            &[level as u64],
        );
    }
}

// A reason that is none.
fn tell_chain(told: &mut Told, level: usize, name: Name) {
    if level > 0 {
        told.number("level ", level as u64);
        told.name(", fails ", name);
    } else {
        told.name("member ", name);
    }
    told.words(
        ": its numbers have to begin with 1, each above the one before and at most the task's demand there, and to end with the first past the deadline less the jitter; after over stands a task above it that it has to outrank",
    );
}
