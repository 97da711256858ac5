//! The lines of replies, and of the book.
ghost use Rattle.std.specs.Prelude.{◌≡◌, ◌++◌, OnOk, IfOk, slice_get, string_bytes};
ghost use Rattle.drafts.specs.Applied.{set_of};
ghost use Rattle.plays.specs.Printed.{cause_word, edit_word, held_line, holder, level_done_line, names_text, opened_line, printed, refusal_words, refused_line, ruling_line, team_text, tested_line};
ghost use Rattle.plays.specs.Plays.{IsBookText};
ghost use Rattle.drafts.specs.Rulings.{ruling_of};

use assignment::Place;
use desk_core::{Cause, Reply};
use drafts::{Decision, EditRefusal, NodeState, Refusal, Team};
use lines::push_name;
use std::alloc::{AllocError, Global};
use task_sheet::Name;

// The name of a cause.
fn cause_word(cause: Cause) -> &'static str
    ensures { result.now ≡ cause_word cause }
{
    match cause {
        Cause::NoSuchDraft => "NoSuchDraft",
        Cause::NotYours => "NotYours",
        Cause::NoSuchTask => "NoSuchTask",
        Cause::DraftFull => "DraftFull",
        Cause::Untestable => "Untestable",
        Cause::Stranger => "Stranger",
        Cause::Twice => "Twice",
    }
}

/// The name of an edit's refusal: that of the cause for which the core refuses it.
pub fn edit_word(refusal: EditRefusal) -> &'static str
    ensures { result.now ≡ edit_word refusal }
{
    cause_word(Cause::of_edit(refusal))
}

/// The line of an event that is refused.
pub(crate) fn refused_text(alloc: Global, cause: Cause) -> Result<String, AllocError>
    ensures { IfOk result (λ text. string_bytes text ≡ refused_line (cause_word cause)) }
{
    let word = cause_word(cause);
    format!(in alloc; "refused {word}\n")
}

/// The line of a verdict that is complete.
pub(crate) fn tested_text(alloc: Global, names: &[Name]) -> Result<String, AllocError>
    ensures { IfOk result (λ text. string_bytes text ≡ tested_line names.now) }
{
    if names.is_empty() {
        return String::from_str(alloc, "tested admitted\n");
    }
    let mut text = String::from_str(alloc, "tested infeasible")?;
    push_names(&mut text, names)?;
    text.push_str("\n")?;
    Ok(text)
}

// Each name after a space.
fn push_names(text: &mut String, names: &[Name]) -> Result<(), AllocError>
    ensures { OnOk result (string_bytes text.new ≡ string_bytes text.old ++ names_text names.now) }
{
    for name in names {
        write!(text, " {name}")?;
    }
    Ok(())
}

// The line of changes that are refused.
fn refusal_text(alloc: Global, refusal: Refusal) -> Result<String, AllocError>
    ensures { IfOk result (λ text. string_bytes text ≡ refused_line (refusal_words refusal)) }
{
    match refusal {
        Refusal::NotYours { name } => format!(in alloc; "refused NotYours {name}\n"),
        Refusal::NoSuchTask { name } => format!(in alloc; "refused NoSuchTask {name}\n"),
        Refusal::TooManyTasks => String::from_str(alloc, "refused TooManyTasks\n"),
        Refusal::TooManyInterrupts => String::from_str(alloc, "refused TooManyInterrupts\n"),
    }
}

/// The line of a decision.
pub fn ruling_text(alloc: Global, decision: &Decision) -> Result<String, AllocError>
    ensures { IfOk result (λ text. string_bytes text ≡ ruling_line (ruling_of decision.now)) }
{
    match decision {
        Decision::Admitted { version } => format!(in alloc; "admitted {version}\n"),
        Decision::Refused { refusal } => refusal_text(alloc, *refusal),
        Decision::Infeasible { stuck } => {
            let mut text = String::from_str(alloc, "infeasible")?;
            lines::push_names(&mut text, stuck.set(), stuck.members())?;
            text.push_str("\n")?;
            Ok(text)
        }
    }
}

// The line of a draft that is opened.
fn opened_text(alloc: Global, draft: usize, version: u64) -> Result<String, AllocError>
    ensures { IfOk result (λ text. string_bytes text ≡ opened_line draft version) }
{
    let mut text = String::from_str(alloc, "draft ")?;
    writeln!(text, "{draft} version {version}")?;
    Ok(text)
}

// The line of a level that is decided.
fn level_text(alloc: Global, level: usize, name: Name, response: u64) -> Result<String, AllocError>
    ensures { IfOk result (λ text. string_bytes text ≡ level_done_line level name response) }
{
    let mut text = String::from_str(alloc, "level ")?;
    writeln!(text, "{level} {name} {response}")?;
    Ok(text)
}

/// The line of a reply.
pub(crate) fn reply_text(alloc: Global, reply: &Reply) -> Result<String, AllocError>
    ensures { IfOk result (λ text. string_bytes text ≡ printed reply.now) }
{
    match reply {
        Reply::Opened { draft, version } => opened_text(alloc, *draft, *version),
        Reply::Done => String::from_str(alloc, "ok\n"),
        Reply::Taken => String::from_str(alloc, "taken\n"),
        Reply::LevelDone {
            level,
            name,
            response,
        } => level_text(alloc, *level, *name, *response),
        Reply::Tested { infeasible } => tested_text(alloc, infeasible),
        Reply::Stale { version } => format!(in alloc; "stale {version}\n"),
        Reply::Decided { entry, .. } => ruling_text(alloc, entry.decision()),
        Reply::Refused { cause } => refused_text(alloc, *cause),
    }
}

// The team that holds the name of the task at an index.
fn holder_of(state: &NodeState, task: usize) -> Option<Team>
    ensures { result ≡ holder state.now.node.tasks (slice_get (set_of state.now.node) task) }
{
    let sheet = state.set().get(task)?;
    state.team_of(sheet.name())
}

// The number of a team, if there is one.
fn push_team(text: &mut String, team: Option<Team>) -> Result<(), AllocError>
    ensures { OnOk result (string_bytes text.new ≡ string_bytes text.old ++ team_text team) }
{
    match team {
        Some(team) => {
            let number = team.number();
            write!(text, "{number}")
        }
        None => Ok(()),
    }
}

// The line of a level of the book.
fn push_level(
    text: &mut String,
    state: &NodeState,
    number: usize,
    place: &Place,
) -> Result<(), AllocError>
    ensures { OnOk result (string_bytes text.new
        ≡ string_bytes text.old ++ held_line state.now.node number place.now) }
{
    let response = place.response;
    write!(text, "level {number} ")?;
    push_name(text, state.set(), place.task)?;
    text.push_str(" ")?;
    push_team(text, holder_of(state, place.task))?;
    writeln!(text, " {response}")
}

/// The lines of the book's present state.
pub fn book_text(alloc: Global, state: &NodeState) -> Result<String, AllocError>
    ensures { IfOk result (λ text. IsBookText state.now (string_bytes text)) }
{
    let version = state.version();
    let places = state.order().places();
    let mut text = format!(in alloc; "version {version}\n")?;
    for (i, place) in places.iter().enumerate() {
        push_level(&mut text, state, i + 1, place)?;
    }
    Ok(text)
}
