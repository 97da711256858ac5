//! Whose each task and interrupt of a set's text is.
ghost use Rattle.std.specs.Prelude.{◌≡◌, ◌<◌, ◌≤◌, ◌++◌, IfOk, OnOk, MatchOption, string_bytes};
ghost use Rattle.toml.specs.View.{table_view};
ghost use Rattle.task_sheet.specs.declared.node.TheConstants.{INTERRUPT_LIMIT};
ghost use Rattle.teams.specs.NodeDocument.{node_word};
ghost use Rattle.owners.specs.Owners.{AreBoth, AreNodeOwners, AreOwners, AreOwnersIn, AreWhose, IsDocumentOf, IsNoDocument, interrupt_of, interrupt_team, interrupt_words, interrupts_by, is_interrupt_of, node_owners, number_below, owned_by};

use crate::followers::read_followers;
use std::alloc::{AllocError, Global};
use task_lines::Owner;
use task_sheet::{Document, Interrupt, Name, SetFault, TaskSet, read_document, read_interrupts};
use teams::{Part, first_part, is_gathered, node_part};
use toml::Table;

/// Whose the interrupt at a place among all is, from 0.
pub(crate) fn interrupt_team(owners: &[Owner], place: usize) -> Option<Name>
    ensures { result ≡ interrupt_team owners.now place }
{
    let mut left = place;
    for owner in owners {
        if let Owner::Interrupt { team } = *owner {
            if left == 0 {
                return Some(team);
            }
            left -= 1;
        }
    }
    None
}

// The interrupt at a place among all is of this team.
fn is_interrupt_of(owners: &[Owner], team: Name, place: usize) -> bool
    ensures { result ≡ is_interrupt_of owners.now team place }
{
    match interrupt_team(owners, place) {
        Some(said) => said == team,
        None => false,
    }
}

// How many of those before a place are of this team.
fn interrupts_before(owners: &[Owner], team: Name, place: usize) -> usize
    ensures same { result ≡ number_below place (is_interrupt_of owners.now team) }
    ensures few { result ≤ place }
{
    let mut count = 0;
    for before in 0..place {
        if is_interrupt_of(owners, team, before) {
            count += 1;
        }
    }
    count
}

// The team of the interrupt at a place among all, from 0, and which of that team's it is, from 1.
fn interrupt_of(owners: &[Owner], place: usize) -> Option<(Name, usize)>
    requires { place < INTERRUPT_LIMIT }
    ensures { result ≡ interrupt_of owners.now place }
{
    match interrupt_team(owners, place) {
        Some(team) => Some((team, interrupts_before(owners, team, place) + 1)),
        None => None,
    }
}

/// What a line calls the interrupt at a place among all, from 0: by the team and its place among that team's, from 1, where one
/// of several has it.
pub fn push_interrupt(text: &mut String, owners: &[Owner], place: usize) -> Result<(), AllocError>
    requires { place < INTERRUPT_LIMIT }
    ensures { OnOk result (string_bytes text.new
        ≡ string_bytes text.old ++ interrupt_words owners.now place) }
{
    match interrupt_of(owners, place) {
        Some((team, own)) => write!(text, "{team} interrupt {own}"),
        None => {
            let count = place as u64 + 1;
            write!(text, "interrupt {count}")
        }
    }
}

// What a team's document says; none where it is no set. The error is out of memory.
fn document_of(alloc: Global, part: &Part<'_>) -> Result<Option<Document>, AllocError>
    ensures { IfOk result (λ d. MatchOption d (IsNoDocument part.now) (IsDocumentOf part.now)) }
{
    match read_document(alloc, part.text) {
        Ok(document) => Ok(Some(document)),
        Err(SetFault::OutOfMemory) => Err(AllocError),
        Err(_) => Ok(None),
    }
}

// Adds the tasks of a team's set.
fn push_owned(owners: &mut Vec<Owner>, team: Name, set: &TaskSet) -> Result<(), AllocError>
    ensures { OnOk result (owners.new.items ≡ owners.old.items ++ owned_by team set.now) }
{
    let sheets = set.sheets();
    for sheet in sheets {
        let name = sheet.name();
        owners.push(Owner::Task { name, team })?;
    }
    Ok(())
}

// Adds as many interrupts of a team's document.
fn push_interrupts(
    owners: &mut Vec<Owner>,
    team: Name,
    interrupts: &[Interrupt],
) -> Result<(), AllocError>
    ensures { OnOk result (owners.new.items
        ≡ owners.old.items ++ interrupts_by team interrupts.now) }
{
    for _ in interrupts {
        owners.push(Owner::Interrupt { team })?;
    }
    Ok(())
}

// The tasks and interrupts of the documents that a text begins with, up to the first that is no set.
fn owners_in(alloc: Global, text: &[u8]) -> Result<Vec<Owner>, AllocError>
    ensures { IfOk result (λ owners. AreOwnersIn text.now owners.items) }
{
    let mut owners = Vec::new(alloc);
    let mut rest = text;
    while let Some((part, after)) = first_part(rest) {
        let Some(document) = document_of(alloc, &part)? else {
            return Ok(owners);
        };
        push_owned(&mut owners, part.team, &document.set)?;
        push_interrupts(&mut owners, part.team, &document.interrupts)?;
        rest = after;
    }
    Ok(owners)
}

// How the node's document is called among those of teams.
fn node_name() -> Name
    ensures { result ≡ node_word }
{
    match Name::read(b"node") {
        Ok(name) => name,
        Err(_) => unreachable!(),
    }
}

// The interrupts that the node's document says; none where they have a fault.
fn tree_owners(alloc: Global, root: &Table) -> Result<Vec<Owner>, AllocError>
    ensures { IfOk result (λ owners. owners.items ≡ node_owners (table_view root.now)) }
{
    let mut owners = Vec::new(alloc);
    match read_interrupts(alloc, root) {
        Ok(interrupts) => push_interrupts(&mut owners, node_name(), &interrupts)?,
        Err(SetFault::OutOfMemory) => return Err(AllocError),
        Err(_) => {}
    }
    Ok(owners)
}

// The same of its bytes; none where they are no document.
fn node_owners(alloc: Global, text: &[u8]) -> Result<Vec<Owner>, AllocError>
    ensures { IfOk result (λ owners. AreNodeOwners text.now owners.items) }
{
    match toml::table_from_slice(alloc, text) {
        Ok(root) => tree_owners(alloc, &root),
        Err(error) if error.is_memory() => Err(AllocError),
        Err(_) => Ok(Vec::new(alloc)),
    }
}

// The node's, and those of the teams behind them.
fn owners_of_both(alloc: Global, node: &[u8], text: &[u8]) -> Result<Vec<Owner>, AllocError>
    ensures { IfOk result (λ owners. AreBoth node.now text.now owners.items) }
{
    let mut owners = node_owners(alloc, node)?;
    let teams = owners_in(alloc, text)?;
    owners.extend_from_slice(&teams)?;
    Ok(owners)
}

// Whose the tasks and interrupts are that a set's text says.
fn read_whose(alloc: Global, text: &[u8]) -> Result<Vec<Owner>, AllocError>
    ensures { IfOk result (λ owners. AreWhose text.now owners.items) }
{
    if !is_gathered(text) {
        return Ok(Vec::new(alloc));
    }
    match node_part(text) {
        Some((node, rest)) => owners_of_both(alloc, node, rest),
        None => owners_in(alloc, text),
    }
}

/// What a set's text says beside the set: whose the tasks and interrupts are, those of the node's document, where one is there,
/// and then of the teams', in their order, as the set has its interrupts; and which sections don't say where they begin. A
/// text of one document says of no task and no interrupt whose it is. The error is out of memory.
pub fn read_owners(alloc: Global, text: &[u8]) -> Result<Vec<Owner>, AllocError>
    ensures { IfOk result (λ owners. AreOwners text.now owners.items) }
{
    let mut owners = read_whose(alloc, text)?;
    let followers = read_followers(alloc, text)?;
    owners.extend_from_slice(&followers)?;
    Ok(owners)
}
