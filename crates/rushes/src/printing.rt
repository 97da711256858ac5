//! The lines of a log, and of what is reported of lines that did nothing.
ghost use Rattle.std.specs.Prelude.{◌≡◌, ◌≤◌, ◌++◌, OnOk, IfOk, map, string_bytes};
ghost use Rattle.drafts.specs.declared.team.TheConstants.{TEAM_LIMIT};
ghost use Rattle.rushes.specs.Hands.{AreOfTeams, closed_book};
ghost use Rattle.rushes.specs.Printed.{all_note_lines, entry_line, IsBookLog, missed_words, note_line, note_lines};

use crate::hand::Hand;
use crate::note::{Missed, Note};
use book_lock::Closing;
use drafts::Entry;
use plays::{book_text, edit_word, ruling_text};
use std::alloc::{AllocError, Global};
use std::sync::ledger::Ledger;

// The line of an entry, which has a place.
fn push_entry(
    alloc: Global,
    text: &mut String,
    place: usize,
    entry: &Entry,
) -> Result<(), AllocError>
    ensures ok { OnOk result (string_bytes text.new ≡ string_bytes text.old
        ++ entry_line place entry.now) }
    ensures team { (1 ≤ entry.now.team) × (entry.now.team ≤ TEAM_LIMIT) }
{
    let team = entry.team().number();
    let ruling = ruling_text(alloc, entry.decision())?;
    write!(text, "{place} team {team} {ruling}")
}

/// The lines of a log, and then those of the state that it comes to. Each entry tells its team's number, which is one
/// from 1 to `TEAM_LIMIT`.
pub(crate) fn log_text(alloc: Global, closing: &Closing) -> Result<String, AllocError>
    ensures text { IfOk result (λ text. IsBookLog (closed_book closing.now) (string_bytes text)) }
    ensures teams { OnOk result (AreOfTeams (closed_book closing.now).log) }
{
    let mut text = String::new(alloc);
    let log = closing.log.as_slice();
    for (i, entry) in log.iter().enumerate() {
        push_entry(alloc, &mut text, i + 1, entry)?;
    }
    let book = book_text(alloc, &closing.state)?;
    text.push_str(&book)?;
    Ok(text)
}

// Why a line did nothing.
fn push_missed(text: &mut String, missed: Missed) -> Result<(), AllocError>
    ensures { OnOk result (string_bytes text.new ≡ string_bytes text.old ++ missed_words missed) }
{
    match missed {
        Missed::PutRefused { name, refusal } => {
            let word = edit_word(refusal);
            write!(text, "put {name}: {word}")
        }
        Missed::RemoveRefused { name, refusal } => {
            let word = edit_word(refusal);
            write!(text, "remove {name}: {word}")
        }
        Missed::Ended { draft } => write!(text, "skipped, draft {draft} has ended"),
    }
}

// A line that did nothing.
fn push_note(text: &mut String, note: Note) -> Result<(), AllocError>
    ensures { OnOk result (string_bytes text.new ≡ string_bytes text.old ++ note_line note) }
{
    let line = note.line;
    write!(text, "line {line}: ")?;
    push_missed(text, note.missed)?;
    text.push_str("\n")
}

// The lines of a team that did nothing.
fn push_notes(text: &mut String, notes: &[Note]) -> Result<(), AllocError>
    ensures { OnOk result (string_bytes text.new ≡ string_bytes text.old ++ note_lines notes.now) }
{
    for note in notes {
        push_note(text, *note)?;
    }
    Ok(())
}

/// What is reported of the lines of all teams that did nothing, by team and then by line.
pub(crate) fn notes_text<L: Ledger>(alloc: Global, teams: &[Hand<L>]) -> Result<String, AllocError>
    ensures { IfOk result (λ text. string_bytes text
        ≡ all_note_lines (map (λ last. last.notes) teams.now)) }
{
    let mut text = String::new(alloc);
    for last in teams {
        push_notes(&mut text, last.notes())?;
    }
    Ok(text)
}
