//! Sets in which no section of a lock takes more of its own than this. Where a section begins counts for no deadline, so that
//! the sets that are made here leave it as it is.
ghost use Rattle.std.specs.Prelude.{◌≡◌, ◌≤◌, ◌↔◌, length, IfOk, IfSome, IsTrue, option_map};
ghost use Rattle.task_sheet.specs.Sheet.{AreOverheads, IsValidSheet};
ghost use Rattle.task_sheet.specs.declared.sheet.TheConstants.{LOCK_LIMIT};
ghost use Rattle.task_sheet.specs.Locks.{names_lock};
ghost use Rattle.task_sheet.specs.Overheads.{calls};
ghost use Rattle.task_sheet.specs.Orders.{IsOrder};
ghost use Rattle.limits.specs.InOrder.{PassesIn};
ghost use Rattle.limits.specs.Cuts.{AnswersMostOn, Following, cut, cut_len, cut_sections, cut_task, len_on, longest_in, longest_on, none_follows};

use crate::bisection::edge_of;
use crate::in_order::passes_in;
use crate::other_values::with_parts;
use ceilings::{LockTable, Tabled};
use other_numbers::times_of;
use std::alloc::{AllocError, Global};
use task_sheet::{Name, Node, Section, SetCause, Sheet, TaskSet};

// Whether a section names a lock.
fn names_lock(section: &Section, lock: Name) -> bool
    ensures { result ≡ names_lock section.now lock }
{
    section.locks.iter().any(|name| *name == lock)
}

// What the calls on a section's locks take.
fn calls(node: Node, section: &Section) -> u64
    requires limits { AreOverheads node }
    requires few { length section.now.locks ≤ LOCK_LIMIT }
    ensures same { result ≡ calls node section.now }
    ensures short { result ≤ 40000000 }
{
    node.lock * section.locks.len() as u64
}

// What a section of a lock takes of its own; 0 of another one.
fn len_on(section: &Section, lock: Name, node: Node) -> u64
    requires limits { AreOverheads node }
    requires few { length section.now.locks ≤ LOCK_LIMIT }
    ensures { result ≡ len_on lock node section.now }
{
    if names_lock(section, lock) {
        section.len.saturating_sub(calls(node, section))
    } else {
        0
    }
}

// The longest of a task; 0 of none.
fn longest_in(sheet: &Sheet, lock: Name) -> u64
    requires { IsValidSheet sheet.now }
    ensures { result ≡ longest_in lock sheet.now }
{
    let node = sheet.node();
    let mut longest = 0;
    for section in sheet.sections() {
        longest = longest.max(len_on(section, lock, node));
    }
    longest
}

/// What the longest section of a lock takes of its own, without the calls on its locks, in microseconds; 0 where there is
/// none.
pub fn longest_on(set: &Tabled<'_>, lock: Name) -> u64
    ensures same { result ≡ longest_on lock set.now }
    ensures short { result ≤ 10000000 }
{
    let mut longest = 0;
    for sheet in set.sheets() {
        longest = longest.max(longest_in(sheet, lock));
    }
    longest
}

// The length of a section, of a lock at most this and the calls on its locks.
fn cut_len(section: &Section, lock: Name, node: Node, most: u64) -> u64
    requires limits { AreOverheads node }
    requires few { length section.now.locks ≤ LOCK_LIMIT }
    requires short { most ≤ 10000000 }
    ensures { result ≡ cut_len lock most node section.now }
{
    if names_lock(section, lock) {
        section.len.min(most + calls(node, section))
    } else {
        section.len
    }
}

// A task's sections, each so; none moves.
fn cut_sections(
    alloc: Global,
    sheet: &Sheet,
    lock: Name,
    most: u64,
) -> Result<Vec<Section>, AllocError>
    requires valid { IsValidSheet sheet.now }
    requires short { most ≤ 10000000 }
    ensures { IfOk result (λ others. others.items
        ≡ cut_sections (none_follows sheet.now.name) lock most sheet.now.node 0 0 sheet.now.sections) }
{
    let node = sheet.node();
    let sections = sheet.sections();
    let mut others = Vec::with_capacity(alloc, sections.len())?;
    for section in sections {
        let locks = Vec::from_slice(alloc, &section.locks)?;
        let at = section.at;
        let len = cut_len(section, lock, node, most);
        others.push(Section { locks, at, len })?;
    }
    Ok(others)
}

// The sheet so.
fn cut_sheet(alloc: Global, sheet: &Sheet, lock: Name, most: u64) -> Result<Sheet, AllocError>
    requires valid { IsValidSheet sheet.now }
    requires some { 1 ≤ most }
    requires short { most ≤ 10000000 }
    ensures { IfOk result (λ other. other ≡ cut_task none_follows lock most sheet.now) }
{
    let times = times_of(sheet);
    let sections = cut_sections(alloc, sheet, lock, most)?;
    with_parts(alloc, sheet, times, sections)
}

// The sheets so.
fn cut_sheets(alloc: Global, set: &TaskSet, lock: Name, most: u64) -> Result<Vec<Sheet>, AllocError>
    requires some { 1 ≤ most }
    requires short { most ≤ 10000000 }
    ensures { IfOk result (λ others. others.items ≡ cut none_follows lock most set.now) }
{
    let sheets = set.sheets();
    let mut others = Vec::with_capacity(alloc, sheets.len())?;
    for sheet in sheets {
        let other = cut_sheet(alloc, sheet, lock, most)?;
        others.push(other)?;
    }
    Ok(others)
}

// The set so.
fn cut(alloc: Global, set: &TaskSet, lock: Name, most: u64) -> Result<TaskSet, AllocError>
    requires some { 1 ≤ most }
    requires short { most ≤ 10000000 }
    ensures { IfOk result (λ other. other ≡ cut none_follows lock most set.now) }
{
    // (a set, as its sheets say)
    let _own = set.sheets();
    let sheets = cut_sheets(alloc, set, lock, most)?;
    match TaskSet::new(alloc, sheets) {
        Ok(other) => Ok(other),
        Err(fault) => match fault.cause {
            SetCause::OutOfMemory => Err(AllocError),
            _ => unreachable!(),
        },
    }
}

// Whether the order passes in the set so, or some order where none is given.
fn passes_cut(
    alloc: Global,
    set: &TaskSet,
    lock: Name,
    most: u64,
    order: Option<&[usize]>,
) -> Result<bool, AllocError>
    requires some { 1 ≤ most }
    requires short { most ≤ 10000000 }
    requires order { IfSome (option_map (λ o. o.now) order) (IsOrder set.now) }
    ensures { IfOk result (λ passes. IsTrue passes
        ↔ PassesIn (option_map (λ o. o.now) order.entry) (cut none_follows lock most set.now)) }
{
    let other = cut(alloc, set, lock, most)?;
    let table = LockTable::new(alloc, &other)?;
    Ok(passes_in(&Tabled::of(&other, &table), order))
}

/// The most that each section of a lock may take of its own for an order to pass, or some order where none is given, up to
/// what the longest of them takes; none where nothing helps. It is the same whichever sections move along with a shorter
/// one. The error is out of memory.
pub fn most_on(
    alloc: Global,
    set: &TaskSet,
    lock: Name,
    longest: u64,
    order: Option<&[usize]>,
) -> Result<Option<u64>, AllocError>
    requires longest { longest ≡ longest_on lock set.now }
    requires some { 1 ≤ longest }
    requires short { longest ≤ 10000000 }
    requires order { IfSome (option_map (λ o. o.now) order) (IsOrder set.now) }
    ensures { IfOk result (λ answer. (follows : Following)
        → AnswersMostOn follows set.now lock (option_map (λ o. o.now) order.entry) answer) }
{
    // (a set, as its sheets say)
    let _own = set.sheets();
    let is_whole = passes_cut(alloc, set, lock, longest, order)?;
    if is_whole {
        return Ok(Some(longest));
    }
    let is_possible = passes_cut(alloc, set, lock, 1, order)?;
    if !is_possible {
        return Ok(None);
    }
    let most = edge_of(1, longest, longest, |most| {
        passes_cut(alloc, set, lock, most, order)
    })?;
    Ok(Some(most))
}
