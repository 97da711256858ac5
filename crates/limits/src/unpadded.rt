//! Tasks as their documents say them, without what the node takes of them.
ghost use Rattle.std.specs.Prelude.{◌≡◌, ◌-◌, IfOk, MatchOption};
ghost use Rattle.task_sheet.specs.Sheet.{AreOverheads, IsValidSheet};
ghost use Rattle.task_sheet.specs.TaskSet.{IsTaskSet};
ghost use Rattle.limits.specs.Written.{node_of, written_sections, written_task, written};

use std::alloc::{AllocError, Global};
use task_sheet::{Node, Section, SetCause, Sheet, TaskSet};

// A task's sections, each as much earlier and shorter as a node takes before it and in it.
fn written_sections(alloc: Global, sheet: &Sheet, node: Node) -> Result<Vec<Section>, AllocError>
    requires valid { IsValidSheet sheet.now }
    requires limits { AreOverheads node }
    ensures { IfOk result (λ others. others.items
        ≡ written_sections node (node.job - node.release) sheet.now.sections) }
{
    let sections = sheet.sections();
    let mut others = Vec::with_capacity(alloc, sections.len())?;
    let mut before = node.job.saturating_sub(node.release);
    for section in sections {
        let time = node.lock * section.locks.len() as u64;
        let locks = Vec::from_slice(alloc, &section.locks)?;
        let at = section.at.saturating_sub(before);
        let len = section.len.saturating_sub(time);
        others.push(Section { locks, at, len })?;
        before += time;
    }
    Ok(others)
}

// A task without what the node takes of it; none where that is no sheet.
fn written_sheet(alloc: Global, sheet: &Sheet) -> Result<Option<Sheet>, AllocError>
    requires { IsValidSheet sheet.now }
    ensures { IfOk result (λ other. MatchOption other (¬ IsValidSheet (written_task sheet.now))
        (λ s. s ≡ written_task sheet.now)) }
{
    let node = sheet.node();
    let sections = written_sections(alloc, sheet, node)?;
    let outranks = sheet.outranks().copy(alloc)?;
    let interrupts = Vec::from_slice(alloc, sheet.interrupts())?;
    let cost = sheet.cost().saturating_sub(sheet.overhead());
    let Ok(other) = Sheet::new(
        sheet.name(),
        sheet.weight(),
        sheet.period(),
        sheet.deadline(),
        cost,
        sections,
    ) else {
        return Ok(None);
    };
    let Ok(other) = other.jittered(sheet.jitter().saturating_sub(node.late)) else {
        unreachable!()
    };
    match other.outranking(outranks) {
        Ok(other) => Ok(Some(other.interrupted(interrupts))),
        Err(_) => unreachable!(),
    }
}

// The sheets so; none where one is no sheet.
fn written_sheets(alloc: Global, set: &TaskSet) -> Result<Option<Vec<Sheet>>, AllocError>
    ensures answer { IfOk result (λ others. MatchOption others (¬ IsTaskSet (written set.now))
        (λ v. v.items ≡ written set.now)) }
    ensures kept { IsTaskSet set.now }
{
    let sheets = set.sheets();
    let mut others = Vec::with_capacity(alloc, sheets.len())?;
    for sheet in sheets {
        let Some(other) = written_sheet(alloc, sheet)? else {
            return Ok(None);
        };
        others.push(other)?;
    }
    Ok(Some(others))
}

/// The tasks as they are written: a set with what its node takes, without that; none where what is left is no set, as of no
/// document. The error is out of memory.
pub fn written(alloc: Global, set: &TaskSet) -> Result<Option<TaskSet>, AllocError>
    ensures { IfOk result (λ other. MatchOption other (¬ IsTaskSet (written set.now))
        (λ tasks. tasks ≡ written set.now)) }
{
    let Some(sheets) = written_sheets(alloc, set)? else {
        return Ok(None);
    };
    match TaskSet::new(alloc, sheets) {
        Ok(other) => Ok(Some(other)),
        Err(fault) => match fault.cause {
            SetCause::OutOfMemory => Err(AllocError),
            _ => unreachable!(),
        },
    }
}

/// The node of a set: that of its first task; one that takes nothing of no tasks.
pub fn node_of(set: &TaskSet) -> Node
    ensures { result ≡ node_of set.now }
{
    match set.sheets() {
        [first, ..] => first.node(),
        [] => Node::none(),
    }
}
