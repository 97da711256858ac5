//! A set, each task with what the node takes of it.
ghost use Rattle.std.specs.Prelude.{◌≡◌, ◌≢◌, ◌+◌, ◌-◌, ◌<◌, ◌≤◌, [], None, Some, IfSome, IfOk, IfErr, MatchOption};
ghost use Rattle.task_sheet.specs.Overheads.{calls};
ghost use Rattle.task_sheet.specs.ReadsSet.{AreWithinLimits};
ghost use Rattle.task_sheet.specs.Sheet.{AreInterrupts, AreOverheads, IsValidSheet, no_overhead};
ghost use Rattle.task_sheet.specs.SheetFields.{outranks_of};
ghost use Rattle.task_sheet.specs.TaskSet.{IsTaskSet};
ghost use Rattle.overheads.specs.Padding.{IsPadded, charged, fault_by, padded_by, padded_cost, padded_sections, padded_task, padded, task_fault, padding_fault, whole_cost};
ghost use Rattle.overheads.specs.declared.padding.PadFault.TheVariants.{OutOfMemory};

use std::alloc::{AllocError, Global};
use task_sheet::{Interrupt, Name, Node, Outranks, Section, SetCause, Sheet, TaskSet, copy_sheets};
use thiserror::Error;

/// Why a set has no room for what a node takes: the first task by rank.
#[derive(Clone, Copy, Debug, PartialEq, Eq, Error)]
pub enum PadFault {
    /// Its cost, with what the node takes of a job and its timer, is past its period.
    #[error("{task}: the padded cost is past the period")]
    CostPastPeriod { task: Name },
    /// Its jitter, with how late the node may be, isn't below its deadline.
    #[error("{task}: the padded jitter is not below the deadline")]
    JitterPastDeadline { task: Name },
    /// An allocation was refused.
    #[error("out of memory")]
    OutOfMemory,
}

impl From<AllocError> for PadFault {
    ghost from_gives = { λ _ fault. fault ≡ OutOfMemory };

    fn from(_e: AllocError) -> PadFault {
        PadFault::OutOfMemory
    }
}

// ---- a task's numbers

// What the calls on a section's locks take; none where that is no 64-bit number.
fn calls(node: Node, section: &Section) -> Option<u64>
    ensures { MatchOption result (18446744073709551616 ≤ calls node section.now)
        (λ time. time ≡ calls node section.now) }
{
    node.lock.checked_mul(section.locks.len() as u64)
}

// A task's cost with what the node takes of its jobs; none where that, with the timer, is past its period.
fn padded_cost(sheet: &Sheet, node: Node) -> Option<u64>
    ensures { MatchOption result (sheet.now.period < whole_cost node sheet.now)
        (λ cost. (cost ≡ padded_cost node sheet.now)
        × (whole_cost node sheet.now ≤ sheet.now.period)) }
{
    let period = sheet.period();
    let mut cost = sheet.cost().checked_add(node.job)?;
    for section in sheet.sections() {
        cost = cost.checked_add(calls(node, section)?)?;
    }
    if cost <= period {
        Some(cost - node.release.min(node.job))
    } else {
        None
    }
}

// A task's jitter with how late the node may be; none where that isn't below its deadline.
fn padded_jitter(sheet: &Sheet, node: Node) -> Option<u64>
    ensures { MatchOption result (sheet.now.deadline ≤ sheet.now.jitter + node.late)
        (λ jitter. (jitter ≡ sheet.now.jitter + node.late) × (jitter < sheet.now.deadline)) }
{
    let deadline = sheet.deadline();
    let jitter = sheet.jitter().checked_add(node.late)?;
    if jitter < deadline {
        Some(jitter)
    } else {
        None
    }
}

// ---- a task

// A task's sections, each as much later and longer as the node takes before it and in it.
fn padded_sections(alloc: Global, sheet: &Sheet, node: Node) -> Result<Vec<Section>, AllocError>
    requires valid { IsValidSheet sheet.now }
    requires within { padded_cost node sheet.now ≤ sheet.now.period }
    ensures { IfOk result (λ others. others.items
        ≡ padded_sections node (node.job - node.release) sheet.now.sections) }
{
    let sections = sheet.sections();
    let mut others = Vec::with_capacity(alloc, sections.len())?;
    let mut before = node.job.saturating_sub(node.release);
    for section in sections {
        let time = node.lock * section.locks.len() as u64;
        let locks = Vec::from_slice(alloc, &section.locks)?;
        let at = section.at + before;
        let len = section.len + time;
        others.push(Section { locks, at, len })?;
        before += time;
    }
    Ok(others)
}

// The sheet with this cost and jitter, and these sections, of no node and without interrupts. The tasks above which it
// must stand are those of the sheet.
fn sheet_with(
    sheet: &Sheet,
    cost: u64,
    jitter: u64,
    sections: Vec<Section>,
    outranks: Outranks,
) -> Sheet
    requires may { IsValidSheet
        (record sheet.now { cost = cost; sections = sections.items; jitter = jitter }) }
    requires outranks { outranks_of outranks ≡ sheet.now.outranks }
    ensures { result ≡ record sheet.now {
      cost = cost;
      sections = sections.items;
      jitter = jitter;
      node = no_overhead;
      interrupts = [];
    } }
{
    let Ok(other) = Sheet::new(
        sheet.name(),
        sheet.weight(),
        sheet.period(),
        sheet.deadline(),
        cost,
        sections,
    ) else {
        unreachable!()
    };
    let Ok(other) = other.jittered(jitter) else {
        unreachable!()
    };
    match other.outranking(outranks) {
        Ok(other) => other,
        Err(_) => unreachable!(),
    }
}

// A task with what the node takes of it.
fn padded_sheet(alloc: Global, sheet: &Sheet, node: Node) -> Result<Sheet, PadFault>
    requires valid { IsValidSheet sheet.now }
    requires limits { AreOverheads node }
    ensures ok { IfOk result (λ other. (task_fault node sheet.now ≡ None)
        × (other ≡ padded_task node sheet.now)) }
    ensures err { IfErr result (λ e. e ≢ PadFault.OutOfMemory → task_fault node sheet.now ≡ Some e) }
{
    let task = sheet.name();
    let Some(cost) = padded_cost(sheet, node) else {
        return Err(PadFault::CostPastPeriod { task });
    };
    let Some(jitter) = padded_jitter(sheet, node) else {
        return Err(PadFault::JitterPastDeadline { task });
    };
    let sections = padded_sections(alloc, sheet, node)?;
    let outranks = sheet.outranks().copy(alloc)?;
    let interrupts = Vec::from_slice(alloc, sheet.interrupts())?;
    let other = sheet_with(sheet, cost, jitter, sections, outranks);
    Ok(other.of_node(node).interrupted(interrupts))
}

// ---- a set

// The tasks, each with what the node takes of it.
fn padded_sheets(alloc: Global, set: &TaskSet, node: Node) -> Result<Vec<Sheet>, PadFault>
    requires limits { AreOverheads node }
    ensures ok { IfOk result (λ others. (padding_fault node set.now ≡ None)
        × (others.items ≡ padded node set.now)) }
    ensures err { IfErr result (λ e. e ≢ PadFault.OutOfMemory
        → padding_fault node set.now ≡ Some e) }
    ensures kept { IsTaskSet set.now }
{
    let sheets = set.sheets();
    let mut others = Vec::with_capacity(alloc, sheets.len())?;
    for sheet in sheets {
        let other = padded_sheet(alloc, sheet, node)?;
        others.push(other).map_err(AllocError::from)?;
    }
    Ok(others)
}

// The same where there is a node, else as they are.
fn sheets_by(alloc: Global, set: &TaskSet, node: Option<Node>) -> Result<Vec<Sheet>, PadFault>
    requires limits { IfSome node AreOverheads }
    ensures ok { IfOk result (λ others. (fault_by node set.now ≡ None)
        × (others.items ≡ padded_by node set.now)) }
    ensures err { IfErr result (λ e. e ≢ PadFault.OutOfMemory → fault_by node set.now ≡ Some e) }
    ensures kept { IsTaskSet set.now }
{
    match node {
        Some(node) => padded_sheets(alloc, set, node),
        None => Ok(copy_sheets(alloc, set.sheets())?),
    }
}

// The sheets with these interrupts, where there are some, on the account of the first.
fn charged(
    alloc: Global,
    mut sheets: Vec<Sheet>,
    interrupts: &[Interrupt],
) -> Result<Vec<Sheet>, AllocError>
    requires limits { AreInterrupts interrupts.now }
    ensures { IfOk result (λ others. others.items ≡ charged interrupts.now sheets.items) }
{
    if interrupts.is_empty() || sheets.is_empty() {
        return Ok(sheets);
    }
    let interrupts = Vec::from_slice(alloc, interrupts)?;
    let first = sheets.remove(0).interrupted(interrupts);
    sheets.insert(0, first)?;
    Ok(sheets)
}

/// The set with what a node takes, where there is one: each cost longer by `job` less `release`, which its timer takes of
/// whoever executes, and by `lock` for each lock of each section; each section as much longer and later as that comes to
/// in it and before it; each jitter by `late`. Weights, periods and deadlines stay, and so the ranks (Burns, Wellings;
/// Audsley et al. 1993). The interrupts go on the account of the first task by rank. Refused by rank, of a task
/// `CostPastPeriod` first.
pub fn pad(
    alloc: Global,
    set: &TaskSet,
    node: Option<Node>,
    interrupts: &[Interrupt],
) -> Result<TaskSet, PadFault>
    requires limits { AreWithinLimits node interrupts.now }
    ensures ok { IfOk result (IsPadded node interrupts.now set.now) }
    ensures err { IfErr result (λ e. e ≢ PadFault.OutOfMemory → fault_by node set.now ≡ Some e) }
{
    let sheets = sheets_by(alloc, set, node)?;
    let sheets = charged(alloc, sheets, interrupts)?;
    match TaskSet::new(alloc, sheets) {
        Ok(other) => Ok(other),
        Err(fault) => match fault.cause {
            SetCause::OutOfMemory => Err(PadFault::OutOfMemory),
            _ => unreachable!(),
        },
    }
}
