//! The node's interrupts, each with the team that said it; and what changes make of them.

ghost use Rattle.std.specs.Prelude.{◌≡◌, ◌↔◌, ◌∷◌, [], ◌++◌, IsTrue, IfOk, OnOk};
ghost use Rattle.task_sheet.specs.Sheet.{AreInterrupts};
ghost use Rattle.overheads.specs.Padding.{charged};
ghost use Rattle.drafts.specs.Applied.{after_saying, interrupts_with, interrupts_after, of_others, said_by, said_of};
ghost use Rattle.drafts.specs.Rosters.{AreWithin};

use crate::change::Change;
use crate::team::Team;
use indexmap::IndexMap;
use std::alloc::{AllocError, Global};
use task_sheet::{Interrupt, Name, Sheet};

/// An interrupt of the node, and the team that said it.
#[derive(Clone, Copy, PartialEq, Eq)]
pub struct TeamInterrupt {
    pub interrupt: Interrupt,
    pub team: Team,
}

impl TeamInterrupt {
    // Whether two are the same.
    fn is_same(self, other: TeamInterrupt) -> bool
        ensures { IsTrue result ↔ (self ≡ other) }
    {
        self.interrupt.period == other.interrupt.period
            && self.interrupt.cost == other.interrupt.cost
            && self.team.number() == other.team.number()
    }
}

// Whether two lists are the same.
pub(crate) fn are_same(first: &[TeamInterrupt], second: &[TeamInterrupt]) -> bool
    ensures { IsTrue result ↔ (first.now ≡ second.now) }
{
    if first.len() != second.len() {
        return false;
    }
    for index in 0..first.len() {
        if !first[index].is_same(second[index]) {
            return false;
        }
    }
    true
}

// Takes a team's interrupts out.
fn take_said(interrupts: &mut Vec<TeamInterrupt>, team: Team)
    ensures { interrupts.new.items ≡ of_others team interrupts.old.items }
{
    interrupts.retain(|x| x.team.number() != team.number());
}

// A team says this interrupt, too, unless it takes nothing.
fn say_one(
    team: Team,
    interrupts: &mut Vec<TeamInterrupt>,
    interrupt: Interrupt,
) -> Result<(), AllocError>
    ensures { OnOk result (interrupts.new.items
        ≡ interrupts.old.items ++ said_by team (interrupt ∷ [])) }
{
    if interrupt.cost > 0 {
        interrupts.push(TeamInterrupt { interrupt, team })?;
    }
    Ok(())
}

// A team says these interrupts. Where it says none, all stay as they are.
fn say(
    team: Team,
    interrupts: &mut Vec<TeamInterrupt>,
    said: &[Interrupt],
) -> Result<(), AllocError>
    ensures { OnOk result
        (interrupts.new.items ≡ after_saying team interrupts.old.items said.now) }
{
    if said.is_empty() {
        return Ok(());
    }
    take_said(interrupts, team);
    for interrupt in said {
        say_one(team, interrupts, *interrupt)?;
    }
    Ok(())
}

// Makes one change of a team.
fn make_said(
    team: Team,
    interrupts: &mut Vec<TeamInterrupt>,
    change: &Change,
) -> Result<(), AllocError>
    requires { AreWithin interrupts.old.items }
    ensures ok { OnOk result
        (interrupts.new.items ≡ interrupts_with team interrupts.old.items change.now) }
    ensures within { OnOk result (AreWithin interrupts.new.items) }
{
    match change {
        Change::Put(sheet) => say(team, interrupts, sheet.interrupts()),
        Change::Remove => Ok(()),
    }
}

// Makes a team's changes in their order.
pub(crate) fn make_all_said(
    team: Team,
    interrupts: &mut Vec<TeamInterrupt>,
    changes: &IndexMap<Name, Change>,
) -> Result<(), AllocError>
    requires { AreWithin interrupts.old.items }
    ensures ok { OnOk result (interrupts.new.items
        ≡ interrupts_after team interrupts.old.items changes.now.entries) }
    ensures within { OnOk result (AreWithin interrupts.new.items) }
{
    for place in 0..changes.len() {
        let Some((_, change)) = changes.get_index(place) else {
            unreachable!();
        };
        make_said(team, interrupts, change)?;
    }
    Ok(())
}

// The interrupts, whoever said them.
fn said(alloc: Global, interrupts: &[TeamInterrupt]) -> Result<Vec<Interrupt>, AllocError>
    ensures { IfOk result (λ all. all.items ≡ said_of interrupts.now) }
{
    let mut all = Vec::with_capacity(alloc, interrupts.len())?;
    for x in interrupts {
        all.push(x.interrupt)?;
    }
    Ok(all)
}

// The sheets with the interrupts, where there are some, on the account of the first.
pub(crate) fn charge(
    alloc: Global,
    mut sheets: Vec<Sheet>,
    interrupts: &[TeamInterrupt],
) -> Result<Vec<Sheet>, AllocError>
    requires { AreInterrupts (said_of interrupts.now) }
    ensures { IfOk result
        (λ others. others.items ≡ charged (said_of interrupts.now) sheets.items) }
{
    if interrupts.is_empty() || sheets.is_empty() {
        return Ok(sheets);
    }
    let interrupts = said(alloc, interrupts)?;
    let first = sheets.remove(0).interrupted(interrupts);
    sheets.insert(0, first)?;
    Ok(sheets)
}
