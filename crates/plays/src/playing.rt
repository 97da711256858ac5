//! Playing lines.
ghost use Rattle.std.specs.Prelude.{◌≡◌, ◌≢◌, ℕ, List, Err, OnOk, IfOk, string_bytes, true};
ghost use Rattle.std.specs.Io.KnownBytes.{Appends};
ghost use Rattle.streams.specs.Sending.{Sends};
ghost use Rattle.desk_core.specs.World.{live_at, start};
ghost use Rattle.plays.specs.Plays.{Answers, first_cause, IsFoundLine, IsPlayed, IsStandingSaid, IsTestLine, no_levels, PlaysAll, PlaysSome};
ghost use Rattle.plays.specs.Testing.{IsOver};

use crate::asking::{bring_all, find, first_cause, why_none};
use crate::printing::{book_text, refused_text, reply_text, tested_text};
use desk_core::{Cause, Core, Event, Standing};
use scripts::{Line, Row};
use std::alloc::{AllocError, Global};
use std::io::Write;
use streams::{Held, Watched};
use task_sheet::Name;

/// Why lines were not played to their end.
#[derive(Clone, Copy, Debug, PartialEq, Eq)]
pub enum PlayFault {
    /// Memory ran out; what was printed before stands.
    OutOfMemory,
    /// The writer failed; how much of what was printed went out is open.
    WriteFailed,
}

// One event, and the line of its reply.
fn play_event(alloc: Global, core: &mut Core, event: Event) -> Result<String, AllocError>
    ensures { IfOk result (λ text. Answers core.old event core.new (string_bytes text)) }
{
    match core.step(alloc, event) {
        Ok(reply) => reply_text(alloc, &reply),
        Err(_) => Err(AllocError),
    }
}

// A line `found`.
fn play_found(
    alloc: Global,
    core: &mut Core,
    draft: usize,
    name: Name,
    other: usize,
) -> Result<String, AllocError>
    ensures { IfOk result (λ text. IsFoundLine core.old draft name other core.new
        (string_bytes text)
        (first_cause (no_levels (live_at core.old.drafts draft))
        (no_levels (live_at core.old.drafts other)))) }
{
    let first = why_none(alloc, core, draft)?;
    let second = why_none(alloc, core, other)?;
    if let Some(cause) = first_cause(first, second) {
        return refused_text(alloc, cause);
    }
    match find(alloc, core, other, name)? {
        None => String::from_str(alloc, "refused NoQuestion\n"),
        Some(finding) => play_event(alloc, core, Event::Found { draft, finding }),
    }
}

// What is said of a draft that asks nothing.
fn standing_text(alloc: Global, standing: &Standing) -> Result<String, AllocError>
    requires { IsOver standing.now }
    ensures { IfOk result (λ text. IsStandingSaid standing.now (string_bytes text)) }
{
    match standing {
        Standing::NoSuchDraft => refused_text(alloc, Cause::NoSuchDraft),
        Standing::Untestable => refused_text(alloc, Cause::Untestable),
        Standing::Asking { .. } => unreachable!(),
        Standing::Tested { infeasible } => tested_text(alloc, infeasible),
    }
}

// A line `test`.
fn play_test(alloc: Global, core: &mut Core, draft: usize) -> Result<String, AllocError>
    ensures { IfOk result (λ text. IsTestLine core.old draft core.new (string_bytes text)) }
{
    let standing = bring_all(alloc, core, draft)?;
    standing_text(alloc, &standing)
}

// One row, and its printed line.
fn play_row(alloc: Global, core: &mut Core, row: Row) -> Result<String, AllocError>
    ensures { IfOk result (λ text. IsPlayed core.old row core.new (string_bytes text)) }
{
    match row {
        Row::Open { team } => play_event(alloc, core, Event::Open { team }),
        Row::Put { draft, sheet } => {
            let sheet = sheet.into_sheet();
            play_event(alloc, core, Event::Put { draft, sheet })
        }
        Row::Remove { draft, name } => play_event(alloc, core, Event::Remove { draft, name }),
        Row::Found { draft, name, other } => play_found(alloc, core, draft, name, other),
        Row::Test { draft } => play_test(alloc, core, draft),
        Row::Commit { draft } => play_event(alloc, core, Event::Commit { draft }),
        Row::Abandon { draft } => play_event(alloc, core, Event::Abandon { draft }),
    }
}

// Plays lines from an empty desk on. The line of each is put as it was played, and at the end the book.
fn put_lines<W: Write + Drop>(
    alloc: Global,
    lines: Vec<Line>,
    held: &mut Held,
    out: &mut Watched<W>,
) -> Result<(), PlayFault>
    ensures all { OnOk result ((text : List ℕ) × PlaysAll start lines.items text
        × Sends (W.contents out.old.inner) held.old (W.contents out.new.inner) held.new text) }
    ensures some { result ≡ Err PlayFault.OutOfMemory
        → (text : List ℕ) × PlaysSome start lines.items text
        × Sends (W.contents out.old.inner) held.old (W.contents out.new.inner) held.new text }
    ensures ok { result ≢ Err PlayFault.WriteFailed → out.new.has_failed ≡ out.old.has_failed }
    ensures failed { result ≡ Err PlayFault.WriteFailed → out.new.has_failed ≡ true }
{
    let Ok(mut core) = Core::new(alloc) else {
        return Err(PlayFault::OutOfMemory);
    };
    for line in lines {
        let Line { number: _, row } = line;
        let Ok(text) = play_row(alloc, &mut core, row) else {
            return Err(PlayFault::OutOfMemory);
        };
        if held.put(text.as_bytes(), out).is_err() {
            return Err(PlayFault::WriteFailed);
        }
    }
    let Ok(text) = book_text(alloc, core.book().state()) else {
        return Err(PlayFault::OutOfMemory);
    };
    match held.put(text.as_bytes(), out) {
        Ok(()) => Ok(()),
        Err(_) => Err(PlayFault::WriteFailed),
    }
}

/// Plays lines from an empty desk on. The line of each is put as it was played, through a buffer of 16,384 bytes, and at
/// the end the book. The buffer takes no memory, and what it holds is written before any answer but that the writer
/// failed. The clause `all` names the book, which is legal: the lines are a run (`laws::played_lines_are_runs`), and the
/// book of any run is legal (`desk_core::laws::runs_are_legal`).
pub fn play_lines<W: Write + Drop>(
    alloc: Global,
    lines: Vec<Line>,
    out: &mut Watched<W>,
) -> Result<(), PlayFault>
    ensures all { OnOk result ((text : List ℕ) × PlaysAll start lines.items text
        × Appends (W.contents out.old.inner) (W.contents out.new.inner) text) }
    ensures some { result ≡ Err PlayFault.OutOfMemory
        → (text : List ℕ) × PlaysSome start lines.items text
        × Appends (W.contents out.old.inner) (W.contents out.new.inner) text }
    ensures ok { result ≢ Err PlayFault.WriteFailed → out.new.has_failed ≡ out.old.has_failed }
    ensures failed { result ≡ Err PlayFault.WriteFailed → out.new.has_failed ≡ true }
{
    let mut held = Held::new();
    let played = put_lines(alloc, lines, &mut held, out);
    if let Err(PlayFault::WriteFailed) = played {
        return played;
    }
    match held.send(out) {
        Ok(()) => played,
        Err(_) => Err(PlayFault::WriteFailed),
    }
}
