//! Putting the sets of teams together.
ghost use Rattle.std.specs.Prelude.{◌≡◌, ◌≢◌, ◌<◌, ◌≤◌, ◌++◌, length, map, Err, None, Some, IfOk, IfErr, OnOk};
ghost use Rattle.task_sheet.specs.SheetsFault.{sheets_fault};
ghost use Rattle.task_sheet.specs.declared.node.TheConstants.{INTERRUPT_LIMIT};
ghost use Rattle.teams.specs.Agreeing.{disagreement, first_other, first_saying, interrupts_by, node_by, node_disagreement, preferred_by, says_other, says_other_node};
ghost use Rattle.teams.specs.Owned.{holder_of, owned_all, owned_by, taken_at};
ghost use Rattle.teams.specs.ReadsTeams.{Unites, UnitesAll};

use crate::fault::TeamsFault;
use std::alloc::{AllocError, Global};
use std::marker::Model;
use task_sheet::{
    Document, INTERRUPT_LIMIT, Interrupt, Name, Node, Preference, SetCause, Sheet, TaskSet,
};

// The tasks of a team's set by rank, what its document prefers, the node that it says, and its interrupts.
#[derive(Drop)]
pub(crate) struct TeamSet {
    pub team: Name,
    pub set: Vec<Sheet>,
    pub prefers: Option<Preference>,
    pub node: Option<Node>,
    pub interrupts: Vec<Interrupt>,
}

impl Model for TeamSet {
    ghost use Rattle.teams.specs.Owned.{TeamSetData};

    ghost Value = { TeamSetData };

    ghost view = { λ s. record {
      team = s.team;
      set = s.set.items;
      prefers = s.prefers;
      node = s.node;
      interrupts = s.interrupts.items;
    } };
}

// A team's task.
#[derive(Drop)]
pub(crate) struct Owned {
    pub team: Name,
    pub sheet: Sheet,
}

impl Model for Owned {
    ghost use Rattle.teams.specs.Owned.{OwnedData};

    ghost Value = { OwnedData };

    ghost view = { λ o. record { team = o.team; sheet = o.sheet } };
}

// Adds the tasks of a team's set.
fn push_tasks(
    alloc: Global,
    tasks: &mut Vec<Owned>,
    team: Name,
    sheets: &[Sheet],
) -> Result<(), AllocError>
    ensures { OnOk result (tasks.new.items ≡ tasks.old.items ++ owned_by team sheets.now) }
{
    for own in sheets {
        let sheet = own.copy(alloc)?;
        tasks.push(Owned { team, sheet })?;
    }
    Ok(())
}

// The tasks of all, in their order.
pub(crate) fn owned_all(alloc: Global, sets: &[TeamSet]) -> Result<Vec<Owned>, AllocError>
    ensures { IfOk result (λ tasks. tasks.items ≡ owned_all sets.now) }
{
    let mut tasks = Vec::new(alloc);
    for part in sets {
        push_tasks(alloc, &mut tasks, part.team, &part.set)?;
    }
    Ok(tasks)
}

// Their sheets.
fn sheets_of(alloc: Global, tasks: &[Owned]) -> Result<Vec<Sheet>, AllocError>
    ensures { IfOk result (λ sheets. sheets.items ≡ map (λ o. o.sheet) tasks.now) }
{
    let mut sheets = Vec::new(alloc);
    for task in tasks {
        sheets.push(task.sheet.copy(alloc)?)?;
    }
    Ok(sheets)
}

// The team of the first task with a name.
fn holder_of(tasks: &[Owned], name: Name) -> Option<Name>
    ensures { result ≡ holder_of tasks.now name }
{
    let task = tasks.iter().find(|task| task.sheet.name() == name)?;
    Some(task.team)
}

// The task at a place has the name of one before it.
fn taken_at(tasks: &[Owned], place: usize) -> TeamsFault
    requires { place < length tasks.now }
    ensures { result ≡ taken_at tasks.now place }
{
    let owned = &tasks[place];
    let team = owned.team;
    let task = owned.sheet.name();
    let other = holder_of(tasks, task).unwrap_or(team);
    TeamsFault::Taken { team, task, other }
}

// Why the tasks are no set.
fn fault_of(tasks: &[Owned], cause: SetCause) -> TeamsFault
    requires { cause ≢ SetCause.OutOfMemory
        → sheets_fault (map (λ o. o.sheet) tasks.now) ≡ Some cause }
    ensures { Unites tasks.now (Err result) }
{
    match cause {
        SetCause::SameName { task } => taken_at(tasks, task - 1),
        SetCause::TooManyTasks => TeamsFault::TooManyTasks,
        SetCause::OutOfMemory => TeamsFault::OutOfMemory,
    }
}

// The set of these sheets, which are those of the tasks.
fn set_of(alloc: Global, tasks: &[Owned], sheets: Vec<Sheet>) -> Result<TaskSet, TeamsFault>
    requires { sheets.items ≡ map (λ o. o.sheet) tasks.now }
    ensures { Unites tasks.now result }
{
    match TaskSet::new(alloc, sheets) {
        Ok(set) => Ok(set),
        Err(fault) => Err(fault_of(tasks, fault.cause)),
    }
}

// The set of the tasks of all, in their order.
fn united_set(alloc: Global, sets: &[TeamSet]) -> Result<TaskSet, TeamsFault>
    ensures { Unites (owned_all sets.now) result }
{
    let tasks = owned_all(alloc, sets)?;
    let sheets = sheets_of(alloc, &tasks)?;
    set_of(alloc, &tasks, sheets)
}

// ---- what teams prefer

// The first document that says a preference, with its team.
fn first_saying(sets: &[TeamSet]) -> Option<(Name, Preference)>
    ensures { result ≡ first_saying (λ s. s.prefers) sets.now }
{
    for part in sets {
        if let Some(preference) = part.prefers {
            return Some((part.team, preference));
        }
    }
    None
}

// Whether a document says another preference than this.
fn says_other(preference: Preference, said: Option<Preference>) -> bool
    ensures { result ≡ says_other preference said }
{
    match (preference, said) {
        (_, None) => false,
        (Preference::Weights, Some(Preference::Weights)) => false,
        (Preference::Deadline, Some(Preference::Deadline)) => false,
        (Preference::Chains, Some(Preference::Chains)) => false,
        _ => true,
    }
}

// The team of the first document that says another preference than this.
fn first_other(sets: &[TeamSet], preference: Preference) -> Option<Name>
    ensures { result ≡ first_other says_other (λ s. s.prefers) preference sets.now }
{
    let part = sets
        .iter()
        .find(|part| says_other(preference, part.prefers))?;
    Some(part.team)
}

// What the documents prefer, where one says so; or the first that prefers otherwise than one before it.
fn agreed(sets: &[TeamSet]) -> Result<Option<Preference>, TeamsFault>
    ensures ok { IfOk result (λ p. (disagreement sets.now ≡ None) × (p ≡ preferred_by sets.now)) }
    ensures err { IfErr result (λ e. disagreement sets.now ≡ Some e) }
{
    let Some((other, preference)) = first_saying(sets) else {
        return Ok(None);
    };
    match first_other(sets, preference) {
        Some(team) => Err(TeamsFault::OtherPreference { team, other }),
        None => Ok(Some(preference)),
    }
}

// ---- which node teams say

// The first document that says a node, with its team.
fn first_node(sets: &[TeamSet]) -> Option<(Name, Node)>
    ensures { result ≡ first_saying (λ s. s.node) sets.now }
{
    for part in sets {
        if let Some(node) = part.node {
            return Some((part.team, node));
        }
    }
    None
}

// Whether a document says another node than this.
fn says_other_node(node: Node, said: Option<Node>) -> bool
    ensures { result ≡ says_other_node node said }
{
    match said {
        Some(other) => node != other,
        None => false,
    }
}

// The team of the first document that says another node than this.
fn first_other_node(sets: &[TeamSet], node: Node) -> Option<Name>
    ensures { result ≡ first_other says_other_node (λ s. s.node) node sets.now }
{
    let part = sets.iter().find(|part| says_other_node(node, part.node))?;
    Some(part.team)
}

// The node of the documents, where one says it; or the first that says another than one before it.
fn agreed_node(sets: &[TeamSet]) -> Result<Option<Node>, TeamsFault>
    ensures ok { IfOk result (λ n. (node_disagreement sets.now ≡ None) × (n ≡ node_by sets.now)) }
    ensures err { IfErr result (λ e. node_disagreement sets.now ≡ Some e) }
{
    let Some((other, node)) = first_node(sets) else {
        return Ok(None);
    };
    match first_other_node(sets, node) {
        Some(team) => Err(TeamsFault::OtherNode { team, other }),
        None => Ok(Some(node)),
    }
}

// ---- the interrupts of all

// The interrupts of the documents, in their order, where they are not too many.
fn few_interrupts(alloc: Global, sets: &[TeamSet]) -> Result<Vec<Interrupt>, TeamsFault>
    ensures ok { IfOk result (λ v. (v.items ≡ interrupts_by sets.now)
        × (length (interrupts_by sets.now) ≤ INTERRUPT_LIMIT)) }
    ensures err { IfErr result (λ e. e ≢ TeamsFault.OutOfMemory
        → (e ≡ TeamsFault.TooManyInterrupts) × (INTERRUPT_LIMIT < length (interrupts_by sets.now))) }
{
    let mut interrupts = Vec::new(alloc);
    for part in sets {
        interrupts.extend_from_slice(&part.interrupts)?;
    }
    if interrupts.len() > INTERRUPT_LIMIT {
        return Err(TeamsFault::TooManyInterrupts);
    }
    Ok(interrupts)
}

/// The documents of teams as one.
pub(crate) fn united(alloc: Global, sets: &[TeamSet]) -> Result<Document, TeamsFault>
    ensures { UnitesAll sets.now result }
{
    let prefers = agreed(sets)?;
    let node = agreed_node(sets)?;
    let interrupts = few_interrupts(alloc, sets)?;
    let set = united_set(alloc, sets)?;
    Ok(Document {
        set,
        prefers,
        node,
        interrupts,
    })
}
