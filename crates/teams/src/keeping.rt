//! Whether teams keep to their budgets.
ghost use Rattle.std.specs.Prelude.{◌≡◌, ◌≤◌, ◌++◌, length, map, All, IfOk, OnOk};
ghost use Rattle.task_sheet.specs.Locks.{names_lock, shares_lock, uses};
ghost use Rattle.task_sheet.specs.Sheet.{IsInterrupt};
ghost use Rattle.task_sheet.specs.declared.node.TheConstants.{INTERRUPT_LIMIT};
ghost use Rattle.task_sheet.specs.declared.set.TheConstants.{TASK_LIMIT};
ghost use Rattle.teams.specs.Agreeing.{interrupts_by};
ghost use Rattle.teams.specs.Budgets.{AreSound, budget_fault, budgets_fault, has_team, interrupt_share, is_shared, limits_fault, load_fault, longest_of, longest_shared, section_fault, shares_by, task_share};
ghost use Rattle.teams.specs.Owned.{owned_all};
ghost use Rattle.loads.specs.Shares.{IsShare};

use crate::fault::TeamsFault;
use crate::node::{Budget, Quantity};
use crate::uniting::{Owned, TeamSet};
use loads::{Share, load_in};
use std::alloc::{AllocError, Global};
use task_sheet::{Interrupt, Name, Section, Sheet};

// ---- what a team takes

// What a task takes: its cost in each period.
fn task_share(sheet: &Sheet) -> Share
    ensures is { result ≡ task_share sheet.now }
    ensures valid { IsShare result }
{
    // The sheet is valid: the proof has it from its name.
    let _ = sheet.name();
    Share {
        cost: sheet.cost(),
        period: sheet.period(),
    }
}

// Adds what the tasks take.
fn push_tasks(shares: &mut Vec<Share>, sheets: &[Sheet]) -> Result<(), AllocError>
    requires valid { All IsShare shares.old.items }
    ensures are { OnOk result
        (shares.new.items ≡ shares.old.items ++ map task_share sheets.now) }
    ensures valid { OnOk result (All IsShare shares.new.items) }
{
    for sheet in sheets {
        shares.push(task_share(sheet))?;
    }
    Ok(())
}

// Adds what interrupts take.
fn push_interrupts(shares: &mut Vec<Share>, interrupts: &[Interrupt]) -> Result<(), AllocError>
    requires valid { All IsShare shares.old.items }
    requires sound { All IsInterrupt interrupts.now }
    ensures are { OnOk result
        (shares.new.items ≡ shares.old.items ++ map interrupt_share interrupts.now) }
    ensures valid { OnOk result (All IsShare shares.new.items) }
{
    for interrupt in interrupts {
        shares.push(Share {
            cost: interrupt.cost,
            period: interrupt.period,
        })?;
    }
    Ok(())
}

// The shares of a team's documents.
fn shares_by(alloc: Global, sets: &[TeamSet], team: Name) -> Result<Vec<Share>, AllocError>
    requires sound { AreSound sets.now }
    ensures are { IfOk result (λ shares. shares.items ≡ shares_by sets.now team) }
    ensures valid { IfOk result (λ shares. All IsShare shares.items) }
{
    let mut shares = Vec::new(alloc);
    for part in sets {
        if part.team == team {
            push_tasks(&mut shares, &part.set)?;
            push_interrupts(&mut shares, &part.interrupts)?;
        }
    }
    Ok(shares)
}

// Whether a section names a lock.
fn names(section: &Section, lock: Name) -> bool
    ensures { result ≡ names_lock section.now lock }
{
    section.locks.iter().any(|name| *name == lock)
}

// Whether a task uses a lock.
fn sheet_uses(sheet: &Sheet, lock: Name) -> bool
    ensures { result ≡ uses sheet.now lock }
{
    sheet.sections().iter().any(|section| names(section, lock))
}

// Whether a task uses one of the section's locks.
fn shares(sheet: &Sheet, section: &Section) -> bool
    ensures { result ≡ shares_lock sheet.now section.now }
{
    section.locks.iter().any(|lock| sheet_uses(sheet, *lock))
}

// Whether a task of another team uses one of the section's locks.
fn is_shared(tasks: &[Owned], team: Name, section: &Section) -> bool
    ensures { result ≡ is_shared tasks.now team section.now }
{
    tasks.iter().any(|owned| owned.team != team && shares(&owned.sheet, section))
}

// The longest section of a team's task that is shared.
fn longest_of(tasks: &[Owned], team: Name, sheet: &Sheet) -> u64
    ensures { result ≡ longest_of tasks.now team sheet.now }
{
    let mut longest = 0;
    for section in sheet.sections() {
        if longest < section.len && is_shared(tasks, team, section) {
            longest = section.len;
        }
    }
    longest
}

// The longest shared section of a team's tasks.
fn longest_shared(tasks: &[Owned], team: Name) -> u64
    ensures { result ≡ longest_shared tasks.now team }
{
    let mut longest = 0;
    for owned in tasks {
        if owned.team == team {
            let own = longest_of(tasks, team, &owned.sheet);
            if longest < own {
                longest = own;
            }
        }
    }
    longest
}

// ---- beside its budget

// Whether a team has a document.
fn has_team(sets: &[TeamSet], team: Name) -> bool
    ensures { result ≡ has_team sets.now team }
{
    sets.iter().any(|part| part.team == team)
}

// That a team's load is past its limit, where there is one.
fn load_fault(
    alloc: Global,
    sets: &[TeamSet],
    team: Name,
    limit: Option<u64>,
) -> Result<Option<TeamsFault>, AllocError>
    requires sound { AreSound sets.now }
    requires few { length (owned_all sets.now) ≤ TASK_LIMIT }
    requires bounded { length (interrupts_by sets.now) ≤ INTERRUPT_LIMIT }
    ensures { IfOk result (λ fault. fault ≡ load_fault team (shares_by sets.now team) limit) }
{
    let Some(limit) = limit else {
        return Ok(None);
    };
    let shares = shares_by(alloc, sets, team)?;
    let number = load_in(alloc, 1000, &shares)?;
    if number <= limit {
        return Ok(None);
    }
    Ok(Some(TeamsFault::PastBudget {
        team,
        quantity: Quantity::Load,
        number,
        limit,
    }))
}

// That a team's longest shared section is past its limit, where there is one.
fn section_fault(tasks: &[Owned], team: Name, limit: Option<u64>) -> Option<TeamsFault>
    ensures { result ≡ section_fault team (longest_shared tasks.now team) limit }
{
    let limit = limit?;
    let longest = longest_shared(tasks, team);
    if longest <= limit {
        return None;
    }
    Some(TeamsFault::PastBudget {
        team,
        quantity: Quantity::Section,
        number: longest,
        limit,
    })
}

// Which of a budget's limits a team is past.
#[tactic(auto, unfolding(crate::specs::Budgets::limits_fault))]
fn limits_fault(
    alloc: Global,
    sets: &[TeamSet],
    tasks: &[Owned],
    budget: &Budget,
) -> Result<Option<TeamsFault>, AllocError>
    requires same { tasks.now ≡ owned_all sets.now }
    requires few { length tasks.now ≤ TASK_LIMIT }
    requires bounded { length (interrupts_by sets.now) ≤ INTERRUPT_LIMIT }
    requires sound { AreSound sets.now }
    ensures { IfOk result (λ fault. fault ≡ limits_fault sets.now budget.now) }
{
    match load_fault(alloc, sets, budget.team, budget.load)? {
        Some(fault) => Ok(Some(fault)),
        None => Ok(section_fault(tasks, budget.team, budget.section)),
    }
}

// Why a team doesn't keep to its budget.
#[tactic(auto, unfolding(crate::specs::Budgets::budget_fault))]
fn budget_fault(
    alloc: Global,
    sets: &[TeamSet],
    tasks: &[Owned],
    budget: &Budget,
) -> Result<Option<TeamsFault>, AllocError>
    requires same { tasks.now ≡ owned_all sets.now }
    requires few { length tasks.now ≤ TASK_LIMIT }
    requires bounded { length (interrupts_by sets.now) ≤ INTERRUPT_LIMIT }
    requires sound { AreSound sets.now }
    ensures { IfOk result (λ fault. fault ≡ budget_fault sets.now budget.now) }
{
    if has_team(sets, budget.team) {
        limits_fault(alloc, sets, tasks, budget)
    } else {
        Ok(Some(TeamsFault::NoSuchTeam { team: budget.team }))
    }
}

// The first budget to which its team doesn't keep, and why.
pub(crate) fn budgets_fault(
    alloc: Global,
    sets: &[TeamSet],
    tasks: &[Owned],
    budgets: &[Budget],
) -> Result<Option<TeamsFault>, AllocError>
    requires same { tasks.now ≡ owned_all sets.now }
    requires few { length tasks.now ≤ TASK_LIMIT }
    requires bounded { length (interrupts_by sets.now) ≤ INTERRUPT_LIMIT }
    requires sound { AreSound sets.now }
    ensures { IfOk result (λ fault. fault ≡ budgets_fault sets.now budgets.now) }
{
    for budget in budgets {
        if let Some(fault) = budget_fault(alloc, sets, tasks, budget)? {
            return Ok(Some(fault));
        }
    }
    Ok(None)
}
