//! A set's tasks by their teams.
ghost use Rattle.std.specs.Prelude.{◌≡◌, IfOk, OnOk, map, not, []};
ghost use Rattle.std.specs.List.{filter};
ghost use Rattle.owners.specs.Owners.{has_task};
ghost use Rattle.owners.specs.Parts.{is_among, parts_by, parts_of, teams_from, with_owner};

use crate::accounts::accounted;
use std::alloc::{AllocError, Global};
use task_lines::{Owner, team_of};
use task_sheet::{Name, Sheet};

// Whether a team is among some.
fn is_among(teams: &[Name], team: Name) -> bool
    ensures { result ≡ is_among teams.now team }
{
    teams.iter().any(|seen| *seen == team)
}

// Adds the team whose task this is, if it isn't there.
fn push_owner(teams: &mut Vec<Name>, owner: Owner) -> Result<(), AllocError>
    ensures { OnOk result (teams.new.items ≡ with_owner teams.old.items owner) }
{
    if let Owner::Task { team, .. } = owner {
        if !is_among(teams, team) {
            teams.push(team)?;
        }
    }
    Ok(())
}

// The teams that have tasks, each once, by their first tasks.
fn teams_of(alloc: Global, owners: &[Owner]) -> Result<Vec<Name>, AllocError>
    ensures { IfOk result (λ teams. teams.items ≡ teams_from [] owners.now) }
{
    let mut teams = Vec::new(alloc);
    for owner in owners {
        push_owner(&mut teams, *owner)?;
    }
    Ok(teams)
}

/// Whether a team has a task.
pub(crate) fn has_task(owners: &[Owner], team: Name, sheet: &Sheet) -> bool
    ensures { result ≡ has_task owners.now team sheet.now }
{
    match team_of(owners, sheet.name().bytes()) {
        Some(said) => said == team,
        None => false,
    }
}

// The tasks that a team has.
fn tasks_of(
    alloc: Global,
    owners: &[Owner],
    team: Name,
    sheets: &[Sheet],
) -> Result<Vec<Sheet>, AllocError>
    ensures { IfOk result (λ own. own.items ≡ filter (has_task owners.now team) sheets.now) }
{
    let mut own = Vec::new(alloc);
    for sheet in sheets {
        if has_task(owners, team, sheet) {
            own.push(sheet.copy(alloc)?)?;
        }
    }
    Ok(own)
}

// The others.
fn others_of(
    alloc: Global,
    owners: &[Owner],
    team: Name,
    sheets: &[Sheet],
) -> Result<Vec<Sheet>, AllocError>
    ensures { IfOk result (λ others. others.items
        ≡ filter (λ t. not (has_task owners.now team t)) sheets.now) }
{
    let mut others = Vec::new(alloc);
    for sheet in sheets {
        if !has_task(owners, team, sheet) {
            others.push(sheet.copy(alloc)?)?;
        }
    }
    Ok(others)
}

/// The tasks again. The error is out of memory.
pub(crate) fn copies_of(alloc: Global, sheets: &[Sheet]) -> Result<Vec<Sheet>, AllocError>
    ensures { IfOk result (λ copies. copies.items ≡ sheets.now) }
{
    let mut copies = Vec::new(alloc);
    for sheet in sheets {
        copies.push(sheet.copy(alloc)?)?;
    }
    Ok(copies)
}

// The tasks of each of some teams; and those that none of them has, where there are some.
fn parts_by(
    alloc: Global,
    owners: &[Owner],
    teams: &[Name],
    sheets: &[Sheet],
) -> Result<Vec<Vec<Sheet>>, AllocError>
    ensures { IfOk result (λ parts. map (λ part. part.items) parts.items
        ≡ parts_by owners.now teams.now sheets.now) }
{
    let mut parts = Vec::new(alloc);
    let mut rest = copies_of(alloc, sheets)?;
    for team in teams {
        parts.push(tasks_of(alloc, owners, *team, &rest)?)?;
        rest = others_of(alloc, owners, *team, &rest)?;
    }
    if !rest.is_empty() {
        parts.push(rest)?;
    }
    Ok(parts)
}

/// The parts of a set: of each team that has tasks its own, by rank, in the order of the documents, with the interrupts that it
/// says on the account of the first; where no team is named, as in a text of one document, all in one. The error is out of
/// memory.
pub fn parts_of(
    alloc: Global,
    owners: &[Owner],
    sheets: &[Sheet],
) -> Result<Vec<Vec<Sheet>>, AllocError>
    ensures { IfOk result (λ parts. map (λ part. part.items) parts.items
        ≡ parts_of owners.now sheets.now) }
{
    let teams = teams_of(alloc, owners)?;
    parts_by(alloc, owners, &teams, &accounted(alloc, owners, sheets)?)
}
