//! A set's text.
ghost use Rattle.std.specs.Prelude.{◌≡◌, []};
ghost use Rattle.task_sheet.specs.ReadsSet.{AreWithinLimits};
ghost use Rattle.teams.specs.Budgets.{AreSound};
ghost use Rattle.teams.specs.ReadsText.{Joins, Judges, ReadsAlone, ReadsBounded, ReadsDocuments, ReadsText, ReadsWritten, Pads, is_gathered};

use crate::fault::TeamsFault;
use crate::gathering::{node_part, read_documents, read_gathered};
use crate::keeping::budgets_fault;
use crate::naming::named_sets;
use crate::node::{Budget, NodeDocument, read_node_document};
use crate::rights::rights_fault;
use crate::uniting::{TeamSet, owned_all, united};
use overheads::{PadFault, pad};
use std::alloc::{AllocError, Global};
use task_sheet::{Document, SetFault, read_document};

/// Whether a text is documents of teams: it begins with `#% `.
pub fn is_gathered(text: &[u8]) -> bool
    ensures { result ≡ is_gathered text.now }
{
    text.starts_with(b"#% ")
}

// What a text says that is one document.
fn read_alone(alloc: Global, text: &[u8]) -> Result<Document, TeamsFault>
    ensures { ReadsAlone text.now result }
{
    match read_document(alloc, text) {
        Ok(document) => Ok(document),
        Err(SetFault::OutOfMemory) => Err(TeamsFault::OutOfMemory),
        Err(fault) => Err(TeamsFault::Alone { fault }),
    }
}

// What is said for all and what the teams say together, where each keeps to its budget.
fn joined(
    alloc: Global,
    own: TeamSet,
    budgets: &[Budget],
    teams: Vec<TeamSet>,
) -> Result<Document, TeamsFault>
    requires sound { AreSound teams.items }
    requires bare { own.set ≡ [] }
    ensures { Joins own budgets.now teams.items result }
{
    let mut sets = teams;
    sets.insert(0, own).map_err(AllocError::from)?;
    let document = united(alloc, &sets)?;
    let teams = &sets[1..];
    let tasks = owned_all(alloc, teams)?;
    match budgets_fault(alloc, teams, &tasks, budgets)? {
        Some(fault) => Err(fault),
        None => Ok(document),
    }
}

// What the node's document and those of teams say together.
fn judged(alloc: Global, node: NodeDocument, teams: Vec<TeamSet>) -> Result<Document, TeamsFault>
    requires sound { AreSound teams.items }
    requires bare { node.own.set ≡ [] }
    ensures { Judges node teams.items result }
{
    let NodeDocument {
        own,
        locks,
        budgets,
        ..
    } = node;
    if let Some(fault) = rights_fault(&budgets, &teams) {
        return Err(fault);
    }
    match locks {
        Some(locks) => {
            let teams = named_sets(alloc, &locks, &teams)?;
            joined(alloc, own, &budgets, teams)
        }
        None => joined(alloc, own, &budgets, teams),
    }
}

// What the documents of teams say behind the node's.
fn read_bounded(alloc: Global, node: &[u8], text: &[u8]) -> Result<Document, TeamsFault>
    ensures { ReadsBounded node.now text.now result }
{
    let document = read_node_document(alloc, node)?;
    let teams = read_documents(alloc, text)?;
    judged(alloc, document, teams)
}

// What documents say: the node's and those of the teams, or the latter alone.
fn read_several(alloc: Global, text: &[u8]) -> Result<Document, TeamsFault>
    ensures { ReadsDocuments text.now result }
{
    match node_part(text) {
        Some((node, rest)) => read_bounded(alloc, node, rest),
        None => read_gathered(alloc, text),
    }
}

// The set that a text says, as it is written.
fn read_written(alloc: Global, text: &[u8]) -> Result<Document, TeamsFault>
    ensures { ReadsWritten text.now result }
{
    if is_gathered(text) {
        read_several(alloc, text)
    } else {
        read_alone(alloc, text)
    }
}

// The document, its set with what the node takes, where it says a node, and with the interrupts.
fn padded(alloc: Global, document: Document) -> Result<Document, TeamsFault>
    requires limits { AreWithinLimits document.node document.interrupts.items }
    ensures { Pads document result }
{
    if document.node.is_none() && document.interrupts.is_empty() {
        return Ok(document);
    }
    match pad(alloc, &document.set, document.node, &document.interrupts) {
        Ok(set) => Ok(Document {
            set,
            prefers: document.prefers,
            node: document.node,
            interrupts: document.interrupts,
        }),
        Err(PadFault::OutOfMemory) => Err(TeamsFault::OutOfMemory),
        Err(fault) => Err(TeamsFault::Padded { fault }),
    }
}

/// The set that a text says, and what it prefers: of documents of teams where it begins with `#% `, as `read_gathered`
/// reads them; else of one document, as `task_sheet::read_document` does. In front of the teams' documents that of the
/// node may stand, behind a line `#% COUNT`: what it says holds for all, as in a document of a team before theirs, and
/// these may not say `prefer`, `node` or `interrupt` without the right to, nor take locks that it doesn't list, where it
/// does. What it refuses comes first; behind the parts the first document that does so; the first task with another lock, or
/// that by the own names of its locks is no sheet; and behind all of the teams the first budget by the names of the teams whose team has
/// no document, or takes more. To TOML the lines with `#% ` are comments. Where a document says a
/// node or interrupts, the set has what these take, as `overheads::pad` puts it in; what that refuses comes last of all.
pub fn read_text(alloc: Global, text: &[u8]) -> Result<Document, TeamsFault>
    ensures { ReadsText text.now result }
{
    let document = read_written(alloc, text)?;
    padded(alloc, document)
}
