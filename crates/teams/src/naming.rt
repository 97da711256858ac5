//! The locks of a node, and the sections of teams that take them.
ghost use Rattle.std.specs.Prelude.{◌≡◌, ◌≢◌, map, None, Some, IfOk, IfErr};
ghost use Rattle.teams.specs.Naming.{lock_of, named_section, named_set, named_task, sets_fault, own_name, strange_section, stranger_in, task_fault, tasks_fault};

use crate::fault::TeamsFault;
use crate::uniting::TeamSet;
use std::alloc::{AllocError, Global};
use task_sheet::{Name, Section, Sheet};

/// A name under which sections may take a lock of the node, and that lock's own name: the same, or of a second name the first.
#[derive(Clone, Copy, Debug)]
pub(crate) struct Lock {
    pub name: Name,
    pub lock: Name,
}

// ---- names

// The lock that a name is of.
fn lock_of(locks: &[Lock], name: Name) -> Option<Name>
    ensures { result ≡ lock_of locks.now name }
{
    for lock in locks {
        if lock.name == name {
            return Some(lock.lock);
        }
    }
    None
}

// The first of some names that is of no lock.
fn stranger_in(locks: &[Lock], names: &[Name]) -> Option<Name>
    ensures { result ≡ stranger_in locks.now names.now }
{
    for name in names {
        if lock_of(locks, *name).is_none() {
            return Some(*name);
        }
    }
    None
}

// Some locks by their own names.
fn own_names(alloc: Global, locks: &[Lock], names: &[Name]) -> Result<Vec<Name>, AllocError>
    ensures { IfOk result (λ v. v.items ≡ map (own_name locks.now) names.now) }
{
    let mut own = Vec::new(alloc);
    for name in names {
        own.push(lock_of(locks, *name).unwrap_or(*name))?;
    }
    Ok(own)
}

// ---- sections

// The first section that takes a lock by a name of none.
fn strange_section(
    locks: &[Lock],
    team: Name,
    task: Name,
    sections: &[Section],
) -> Option<TeamsFault>
    ensures { result ≡ strange_section locks.now team task 1 sections.now }
{
    for (i, section) in sections.iter().enumerate() {
        if let Some(lock) = stranger_in(locks, &section.locks) {
            return Some(TeamsFault::UnknownLock {
                team,
                task,
                section: i + 1,
                lock,
            });
        }
    }
    None
}

// Sections that say their locks by their own names.
fn named_sections(
    alloc: Global,
    locks: &[Lock],
    sections: &[Section],
) -> Result<Vec<Section>, AllocError>
    ensures { IfOk result (λ v. v.items ≡ map (named_section locks.now) sections.now) }
{
    let mut named = Vec::new(alloc);
    for section in sections {
        let own = own_names(alloc, locks, &section.locks)?;
        named.push(Section {
            locks: own,
            at: section.at,
            len: section.len,
        })?;
    }
    Ok(named)
}

// ---- tasks

// A task of such sections.
fn named_sheet(
    alloc: Global,
    locks: &[Lock],
    team: Name,
    sheet: &Sheet,
) -> Result<Sheet, TeamsFault>
    ensures ok { IfOk result (λ s. (task_fault locks.now team sheet.now ≡ None)
        × (s ≡ named_task locks.now sheet.now)) }
    ensures err { IfErr result (λ e. e ≢ TeamsFault.OutOfMemory
        → task_fault locks.now team sheet.now ≡ Some e) }
{
    let task = sheet.name();
    if let Some(fault) = strange_section(locks, team, task, sheet.sections()) {
        return Err(fault);
    }
    let sections = named_sections(alloc, locks, sheet.sections())?;
    match sheet.copy(alloc)?.holding(sections) {
        Ok(sheet) => Ok(sheet),
        Err(cause) => Err(TeamsFault::Renamed { team, task, cause }),
    }
}

// The tasks of a document so.
fn named_sheets(
    alloc: Global,
    locks: &[Lock],
    team: Name,
    sheets: &[Sheet],
) -> Result<Vec<Sheet>, TeamsFault>
    ensures ok { IfOk result (λ v. (tasks_fault locks.now team sheets.now ≡ None)
        × (v.items ≡ map (named_task locks.now) sheets.now)) }
    ensures err { IfErr result (λ e. e ≢ TeamsFault.OutOfMemory
        → tasks_fault locks.now team sheets.now ≡ Some e) }
{
    let mut named = Vec::new(alloc);
    for sheet in sheets {
        let sheet = named_sheet(alloc, locks, team, sheet)?;
        named.push(sheet).map_err(AllocError::from)?;
    }
    Ok(named)
}

// A document so.
fn named_set(alloc: Global, locks: &[Lock], part: &TeamSet) -> Result<TeamSet, TeamsFault>
    ensures ok { IfOk result (λ s. (tasks_fault locks.now part.now.team part.now.set ≡ None)
        × (s ≡ named_set locks.now part.now)) }
    ensures err { IfErr result (λ e. e ≢ TeamsFault.OutOfMemory
        → tasks_fault locks.now part.now.team part.now.set ≡ Some e) }
{
    let set = named_sheets(alloc, locks, part.team, &part.set)?;
    let interrupts = Vec::from_slice(alloc, &part.interrupts)?;
    Ok(TeamSet {
        team: part.team,
        set,
        prefers: part.prefers,
        node: part.node,
        interrupts,
    })
}

// All documents so.
pub(crate) fn named_sets(
    alloc: Global,
    locks: &[Lock],
    sets: &[TeamSet],
) -> Result<Vec<TeamSet>, TeamsFault>
    ensures ok { IfOk result (λ v. (sets_fault locks.now sets.now ≡ None)
        × (v.items ≡ map (named_set locks.now) sets.now)) }
    ensures err { IfErr result (λ e. e ≢ TeamsFault.OutOfMemory
        → sets_fault locks.now sets.now ≡ Some e) }
{
    let mut named = Vec::new(alloc);
    for part in sets {
        let part = named_set(alloc, locks, part)?;
        named.push(part).map_err(AllocError::from)?;
    }
    Ok(named)
}
