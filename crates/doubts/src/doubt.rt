//! The first doubt of a set.
ghost use Rattle.std.specs.Prelude.{◌≡◌};
ghost use Rattle.task_sheet.specs.Locks.{names_lock, uses};
ghost use Rattle.doubts.specs.Doubts.{doubts_of, first_of, is_known, is_lone, is_unweighed, lone_in_sections, lone_in, lone_locks, lone_of, names_deciding, no_such_names, rise, rises, unknown_in, unknown_of};

use task_sheet::{Name, Outranks, Section, Sheet, TaskSet};

/// What may be a mistake in a set.
#[derive(Clone, Copy, Debug, PartialEq, Eq)]
pub enum Doubt {
    /// A task alone uses a lock.
    LoneLock { task: Name, lock: Name },
    /// A task must stand above one of a name that no task has.
    NoSuchName { task: Name, name: Name },
    /// Names alone put a task lower than one whose deadline, less jitter, is longer.
    NamesDecide { lower: Name, higher: Name },
}

// ---- locks

// Whether a section names a lock.
fn names(section: &Section, lock: Name) -> bool
    ensures { result ≡ names_lock section.now lock }
{
    section.locks.iter().any(|name| *name == lock)
}

// Whether a task uses a lock.
fn uses(sheet: &Sheet, lock: Name) -> bool
    ensures { result ≡ uses sheet.now lock }
{
    sheet.sections().iter().any(|section| names(section, lock))
}

// Whether one of the tasks alone uses a lock.
fn is_lone(sheets: &[Sheet], lock: Name) -> bool
    ensures { result ≡ is_lone sheets.now lock }
{
    sheets.iter().filter(|sheet| uses(sheet, lock)).count() == 1
}

// The first of a task's locks, which its sections name, that it alone uses.
fn first_lone_in(sheets: &[Sheet], task: Name, locks: &[Name]) -> Option<Doubt>
    ensures { result ≡ first_of (lone_in sheets.now task locks.now) }
{
    for lock in locks {
        if is_lone(sheets, *lock) {
            let lock = *lock;
            return Some(Doubt::LoneLock { task, lock });
        }
    }
    None
}

// The same, section by section.
fn first_lone_in_sections(sheets: &[Sheet], task: Name, sections: &[Section]) -> Option<Doubt>
    ensures { result ≡ first_of (lone_in_sections sheets.now task sections.now) }
{
    for section in sections {
        if let Some(doubt) = first_lone_in(sheets, task, &section.locks) {
            return Some(doubt);
        }
    }
    None
}

// The same of a task.
fn first_lone_of(sheets: &[Sheet], sheet: &Sheet) -> Option<Doubt>
    ensures { result ≡ first_of (lone_of sheets.now sheet.now) }
{
    first_lone_in_sections(sheets, sheet.name(), sheet.sections())
}

// The first lock, task by task, that one of all tasks alone uses.
fn first_lone_lock(all: &[Sheet], sheets: &[Sheet]) -> Option<Doubt>
    ensures { result ≡ first_of (lone_locks all.now sheets.now) }
{
    for sheet in sheets {
        if let Some(doubt) = first_lone_of(all, sheet) {
            return Some(doubt);
        }
    }
    None
}

// ---- names to outrank

// Whether a task has a name.
fn is_known(sheets: &[Sheet], name: Name) -> bool
    ensures { result ≡ is_known sheets.now name }
{
    sheets.iter().any(|sheet| sheet.name() == name)
}

// The first of the names that a task must outrank that no task has.
fn first_unknown_in(sheets: &[Sheet], task: Name, names: &[Name]) -> Option<Doubt>
    ensures { result ≡ first_of (unknown_in sheets.now task names.now) }
{
    for name in names {
        if !is_known(sheets, *name) {
            let name = *name;
            return Some(Doubt::NoSuchName { task, name });
        }
    }
    None
}

// The same of a task.
fn first_unknown_of(sheets: &[Sheet], sheet: &Sheet) -> Option<Doubt>
    ensures { result ≡ first_of (unknown_of sheets.now sheet.now) }
{
    match sheet.outranks() {
        Outranks::Named(names) => first_unknown_in(sheets, sheet.name(), names),
        Outranks::AllOthers => None,
    }
}

// The first name to outrank, task by task, that none of all tasks has.
fn first_unknown_name(all: &[Sheet], sheets: &[Sheet]) -> Option<Doubt>
    ensures { result ≡ first_of (no_such_names all.now sheets.now) }
{
    for sheet in sheets {
        if let Some(doubt) = first_unknown_of(all, sheet) {
            return Some(doubt);
        }
    }
    None
}

// ---- names that decide

// Whether no task has a weight.
fn is_unweighed(sheets: &[Sheet]) -> bool
    ensures { result ≡ is_unweighed sheets.now }
{
    sheets.iter().all(|sheet| sheet.weight() == 0)
}

// That the first of the tasks above one has a longer limit.
fn rise(lower: &Sheet, above: &[Sheet]) -> Option<Doubt>
    ensures { result ≡ rise lower.now above.now }
{
    let higher = above.first()?;
    if lower.limit() < higher.limit() {
        let (lower, higher) = (lower.name(), higher.name());
        Some(Doubt::NamesDecide { lower, higher })
    } else {
        None
    }
}

// The first of the tasks above which, in their order, one of a longer limit stands next.
fn first_rise(sheets: &[Sheet]) -> Option<Doubt>
    ensures { result ≡ first_of (rises sheets.now) }
{
    let mut rest = sheets;
    while let Some((lower, above)) = rest.split_first() {
        if let Some(doubt) = rise(lower, above) {
            return Some(doubt);
        }
        rest = above;
    }
    None
}

// Where no task has a weight, the first that names put lower than one of a longer limit.
fn first_decided(sheets: &[Sheet]) -> Option<Doubt>
    ensures { result ≡ first_of (names_deciding sheets.now) }
{
    if is_unweighed(sheets) {
        first_rise(sheets)
    } else {
        None
    }
}

/// The first doubt of a set: locks that one task alone uses, by rank, then as written; names to outrank that no task has,
/// likewise; where nobody says by what the set is preferred and no task has a weight, tasks below one of a longer limit,
/// by rank. It takes no memory.
pub fn first_doubt(set: &TaskSet, is_unpreferred: bool) -> Option<Doubt>
    ensures { result ≡ first_of (doubts_of is_unpreferred set.now) }
{
    let sheets = set.sheets();
    if let Some(doubt) = first_lone_lock(sheets, sheets) {
        return Some(doubt);
    }
    if let Some(doubt) = first_unknown_name(sheets, sheets) {
        return Some(doubt);
    }
    if is_unpreferred {
        first_decided(sheets)
    } else {
        None
    }
}
