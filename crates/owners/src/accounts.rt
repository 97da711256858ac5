//! Interrupts on the accounts of the teams that say them.
ghost use Rattle.std.specs.Prelude.{◌≡◌, ◌++◌, IfOk, OnOk, position};
ghost use Rattle.std.specs.List.{All};
ghost use Rattle.task_sheet.specs.Sheet.{IsInterrupt};
ghost use Rattle.owners.specs.Accounts.{account_by, account_of, accounted, interrupts_on, own_from, own_if};
ghost use Rattle.owners.specs.Owners.{has_task};

use crate::owner::interrupt_team;
use crate::parts::{copies_of, has_task};
use std::alloc::{AllocError, Global};
use task_lines::Owner;
use task_sheet::{INTERRUPT_LIMIT, Interrupt, Name, Sheet};

// The first of a team's tasks.
fn first_of(owners: &[Owner], team: Name, sheets: &[Sheet]) -> Option<usize>
    ensures { result ≡ position (has_task owners.now team) sheets.now }
{
    sheets
        .iter()
        .position(|sheet| has_task(owners, team, sheet))
}

// The task on whose account a team's interrupts are.
fn account_by(owners: &[Owner], sheets: &[Sheet], team: Option<Name>) -> usize
    ensures { result ≡ account_by owners.now sheets.now team }
{
    match team {
        Some(team) => first_of(owners, team, sheets).unwrap_or(0),
        None => 0,
    }
}

// The task on whose account the interrupt at a place among all is.
fn account_of(owners: &[Owner], sheets: &[Sheet], place: usize) -> usize
    ensures { result ≡ account_of owners.now sheets.now place }
{
    account_by(owners, sheets, interrupt_team(owners, place))
}

// Adds an interrupt, if it is on a task's account.
fn push_if(own: &mut Vec<Interrupt>, is_own: bool, interrupt: Interrupt) -> Result<(), AllocError>
    ensures { OnOk result (own.new.items ≡ own.old.items ++ own_if is_own interrupt) }
{
    if is_own {
        own.push(interrupt)?;
    }
    Ok(())
}

// Those of some interrupts that are on a task's account.
fn own_interrupts(
    alloc: Global,
    owners: &[Owner],
    sheets: &[Sheet],
    task: usize,
    interrupts: &[Interrupt],
) -> Result<Vec<Interrupt>, AllocError>
    ensures { IfOk result (λ own. own.items ≡ own_from owners.now sheets.now task 0 interrupts.now) }
{
    let mut own = Vec::new(alloc);
    for (place, interrupt) in interrupts.iter().enumerate() {
        let is_own = account_of(owners, sheets, place) == task;
        push_if(&mut own, is_own, *interrupt)?;
    }
    Ok(own)
}

// The interrupts on the accounts of tasks.
fn interrupts_on(alloc: Global, sheets: &[Sheet]) -> Result<Vec<Interrupt>, AllocError>
    ensures all { IfOk result (λ all. all.items ≡ interrupts_on sheets.now) }
    ensures valid { IfOk result (λ all. All IsInterrupt all.items) }
{
    let mut all = Vec::new(alloc);
    for sheet in sheets {
        all.extend_from_slice(sheet.interrupts())?;
    }
    Ok(all)
}

/// The tasks of a set, each of its interrupts on the account of the first task of the team that says it; where that has none,
/// of the first of all. They are as they were where these are more interrupts than a task may have, as none are that a set's
/// documents say. The error is out of memory.
pub(crate) fn accounted(
    alloc: Global,
    owners: &[Owner],
    sheets: &[Sheet],
) -> Result<Vec<Sheet>, AllocError>
    ensures { IfOk result (λ all. all.items ≡ accounted owners.now sheets.now) }
{
    let said = interrupts_on(alloc, sheets)?;
    if said.len() > INTERRUPT_LIMIT {
        return copies_of(alloc, sheets);
    }
    let mut all = Vec::new(alloc);
    for (task, sheet) in sheets.iter().enumerate() {
        let own = own_interrupts(alloc, owners, sheets, task, &said)?;
        all.push(sheet.copy(alloc)?.interrupted(own))?;
    }
    Ok(all)
}
