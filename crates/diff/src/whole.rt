//! The lines of what no task has: what a set prefers, what its node takes, and its interrupts.
ghost use Rattle.std.specs.Prelude.{◌≡◌, ◌++◌, ◌<◌, OnOk, IfOk, slice_get, string_bytes};
ghost use Rattle.task_sheet.specs.declared.node.TheConstants.{INTERRUPT_LIMIT};
ghost use Rattle.owners.specs.Owners.{interrupt_words};
ghost use Rattle.diff.specs.Keys.{words_below};
ghost use Rattle.diff.specs.Whole.{both_weigh, came_at, gone_at, interrupt_line, interrupts_of, is_called, first_below, node_line, node_of, node_words, other_of, place_called, preference_line, same_number, same_preference, same_some, some_number_words, whole_lines};

use crate::pairs::{push_number, push_pair};
use crate::side::Side;
use owners::push_interrupt;
use std::alloc::{AllocError, Global};
use task_lines::Owner;
use task_sheet::{INTERRUPT_LIMIT, Interrupt, Node, Preference, TaskSet};

// The two preferences are one.
fn same_preference(old: Preference, new: Preference) -> bool
    ensures { result ≡ same_preference old new }
{
    match (old, new) {
        (Preference::Weights, Preference::Weights) => true,
        (Preference::Deadline, Preference::Deadline) => true,
        (Preference::Chains, Preference::Chains) => true,
        _ => false,
    }
}

/// Weights count: they are the sheets' own, before and after.
pub(crate) fn both_weigh(old: Preference, new: Preference) -> bool
    ensures { result ≡ both_weigh old new }
{
    match (old, new) {
        (Preference::Weights, Preference::Weights) => true,
        _ => false,
    }
}

// By what a set was taken, and by what the new one is, where that is another.
fn push_preference(text: &mut String, old: Preference, new: Preference) -> Result<(), AllocError>
    ensures { OnOk result (string_bytes text.new ≡ string_bytes text.old
        ++ preference_line old new) }
{
    if same_preference(old, new) {
        return Ok(());
    }
    text.push_str("prefer ")?;
    text.push_str(old.word())?;
    text.push_str(" ")?;
    text.push_str(new.word())?;
    text.push_str("\n")
}

// What a set's node takes; nothing of a set without tasks.
fn node_of(set: &TaskSet) -> Node
    ensures { result ≡ node_of set.now }
{
    match set.get(0) {
        Some(sheet) => sheet.node(),
        None => Node::none(),
    }
}

// The numbers in which two nodes differ.
fn push_numbers(text: &mut String, old: Node, new: Node) -> Result<(), AllocError>
    ensures { OnOk result (string_bytes text.new ≡ string_bytes text.old ++ node_words old new) }
{
    push_number(text, "job", old.job != new.job, old.job, new.job)?;
    push_number(text, "lock", old.lock != new.lock, old.lock, new.lock)?;
    push_number(
        text,
        "release",
        old.release != new.release,
        old.release,
        new.release,
    )?;
    push_number(text, "late", old.late != new.late, old.late, new.late)
}

// Their line, where there is one.
fn push_node(text: &mut String, old: &TaskSet, new: &TaskSet) -> Result<(), AllocError>
    ensures { OnOk result (string_bytes text.new ≡ string_bytes text.old
        ++ node_line old.now new.now) }
{
    let was = node_of(old);
    let is = node_of(new);
    if was == is {
        return Ok(());
    }
    text.push_str("node")?;
    push_numbers(text, was, is)?;
    text.push_str("\n")
}

// Of some interrupts the one at a place.
fn at_place(interrupts: &[Interrupt], place: usize) -> Option<Interrupt>
    ensures { result ≡ slice_get interrupts.now place }
{
    match interrupts.get(place) {
        Some(interrupt) => Some(*interrupt),
        None => None,
    }
}

// The interrupt at a place, from 0, where there is one.
fn interrupt_at(set: &TaskSet, place: usize) -> Option<Interrupt>
    ensures { result ≡ slice_get (interrupts_of set.now) place }
{
    for sheet in set.sheets() {
        let interrupts = sheet.interrupts();
        if !interrupts.is_empty() {
            return at_place(interrupts, place);
        }
    }
    None
}

// The interrupts are the same.
fn same_some(old: Option<Interrupt>, new: Option<Interrupt>) -> bool
    ensures { result ≡ same_some old new }
{
    match (old, new) {
        (Some(was), Some(is)) => was.period == is.period && was.cost == is.cost,
        (None, None) => true,
        _ => false,
    }
}

/// The numbers are the same.
pub(crate) fn same_number(old: Option<u64>, new: Option<u64>) -> bool
    ensures { result ≡ same_number old new }
{
    match (old, new) {
        (Some(was), Some(is)) => was == is,
        (None, None) => true,
        _ => false,
    }
}

// A number, where it is another one.
fn push_some_number(
    text: &mut String,
    word: &str,
    old: Option<u64>,
    new: Option<u64>,
) -> Result<(), AllocError>
    ensures { OnOk result (string_bytes text.new ≡ string_bytes text.old
        ++ some_number_words word.now old new) }
{
    if same_number(old, new) {
        return Ok(());
    }
    push_pair(text, word, old, new)
}

// What of an interrupt that a line calls so is another.
fn push_numbers_of(
    text: &mut String,
    name: &str,
    old: Option<Interrupt>,
    new: Option<Interrupt>,
) -> Result<(), AllocError>
    ensures { OnOk result (string_bytes text.new ≡ string_bytes text.old
        ++ interrupt_line name.now old new) }
{
    text.push_str(name)?;
    push_some_number(
        text,
        " period ",
        old.map(|interrupt| interrupt.period),
        new.map(|interrupt| interrupt.period),
    )?;
    push_some_number(
        text,
        " cost ",
        old.map(|interrupt| interrupt.cost),
        new.map(|interrupt| interrupt.cost),
    )?;
    text.push_str("\n")
}

// What a line calls the interrupt at a place.
fn name_at(alloc: Global, owners: &[Owner], place: usize) -> Result<String, AllocError>
    requires { place < INTERRUPT_LIMIT }
    ensures { IfOk result (λ name. string_bytes name ≡ interrupt_words owners.now place) }
{
    let mut name = String::new(alloc);
    push_interrupt(&mut name, owners, place)?;
    Ok(name)
}

// A set has an interrupt at a place, and a line calls it so.
fn is_called(alloc: Global, side: &Side<'_>, name: &str, place: usize) -> Result<bool, AllocError>
    requires { place < INTERRUPT_LIMIT }
    ensures { IfOk result (λ is. is ≡ is_called side.now.owners.now side.now.set.now name.now place) }
{
    if interrupt_at(side.set, place).is_none() {
        return Ok(false);
    }
    let own = name_at(alloc, side.owners, place)?;
    Ok(own.as_bytes() == name.as_bytes())
}

// The first place at which it has one that a line calls so.
fn first_called(alloc: Global, side: &Side<'_>, name: &str) -> Result<Option<usize>, AllocError>
    ensures { IfOk result (λ place. place ≡ first_below INTERRUPT_LIMIT
        (is_called side.now.owners.now side.now.set.now name.now)) }
{
    for place in 0..INTERRUPT_LIMIT {
        if is_called(alloc, side, name, place)? {
            return Ok(Some(place));
        }
    }
    Ok(None)
}

// Where it has the one that a line calls so, which the other side has at a place.
fn place_called(
    alloc: Global,
    side: &Side<'_>,
    place: usize,
    name: &str,
) -> Result<Option<usize>, AllocError>
    requires { place < INTERRUPT_LIMIT }
    ensures { IfOk result (λ found. found
        ≡ place_called side.now.owners.now side.now.set.now place name.now) }
{
    if is_called(alloc, side, name, place)? {
        return Ok(Some(place));
    }
    first_called(alloc, side, name)
}

// That interrupt, where there is one.
fn other_of(
    alloc: Global,
    side: &Side<'_>,
    place: usize,
    name: &str,
) -> Result<Option<Interrupt>, AllocError>
    requires { place < INTERRUPT_LIMIT }
    ensures { IfOk result (λ other. other
        ≡ other_of side.now.owners.now side.now.set.now place name.now) }
{
    match place_called(alloc, side, place, name)? {
        Some(found) => Ok(interrupt_at(side.set, found)),
        None => Ok(None),
    }
}

// The line of the new set's interrupt at a place, where it came or is another now.
fn push_came(
    alloc: Global,
    text: &mut String,
    old: &Side<'_>,
    new: &Side<'_>,
    place: usize,
) -> Result<(), AllocError>
    requires { place < INTERRUPT_LIMIT }
    ensures { OnOk result (string_bytes text.new ≡ string_bytes text.old
        ++ came_at old.now.owners.now old.now.set.now new.now.owners.now new.now.set.now place) }
{
    let Some(is) = interrupt_at(new.set, place) else {
        return Ok(());
    };
    let name = name_at(alloc, new.owners, place)?;
    let was = other_of(alloc, old, place, name.as_str())?;
    if same_some(was, Some(is)) {
        return Ok(());
    }
    push_numbers_of(text, name.as_str(), was, Some(is))
}

// The line of the old set's at a place, where it is gone.
fn push_gone(
    alloc: Global,
    text: &mut String,
    old: &Side<'_>,
    new: &Side<'_>,
    place: usize,
) -> Result<(), AllocError>
    requires { place < INTERRUPT_LIMIT }
    ensures { OnOk result (string_bytes text.new ≡ string_bytes text.old
        ++ gone_at old.now.owners.now old.now.set.now new.now.owners.now new.now.set.now place) }
{
    let Some(was) = interrupt_at(old.set, place) else {
        return Ok(());
    };
    let name = name_at(alloc, old.owners, place)?;
    match other_of(alloc, new, place, name.as_str())? {
        Some(_) => Ok(()),
        None => push_numbers_of(text, name.as_str(), Some(was), None),
    }
}

// Those of all that came or are others now.
fn push_all_came(
    alloc: Global,
    text: &mut String,
    old: &Side<'_>,
    new: &Side<'_>,
) -> Result<(), AllocError>
    ensures { OnOk result (string_bytes text.new ≡ string_bytes text.old
        ++ words_below INTERRUPT_LIMIT
        (came_at old.now.owners.now old.now.set.now new.now.owners.now new.now.set.now)) }
{
    for place in 0..INTERRUPT_LIMIT {
        push_came(alloc, text, old, new, place)?;
    }
    Ok(())
}

// Those of all that are gone.
fn push_all_gone(
    alloc: Global,
    text: &mut String,
    old: &Side<'_>,
    new: &Side<'_>,
) -> Result<(), AllocError>
    ensures { OnOk result (string_bytes text.new ≡ string_bytes text.old
        ++ words_below INTERRUPT_LIMIT
        (gone_at old.now.owners.now old.now.set.now new.now.owners.now new.now.set.now)) }
{
    for place in 0..INTERRUPT_LIMIT {
        push_gone(alloc, text, old, new, place)?;
    }
    Ok(())
}

/// The lines of what no task has: by what the set is preferred, what its node takes, and its interrupts, each by its team
/// and its place there; with what was and what is. The error is out of memory.
pub fn whole_text(alloc: Global, old: &Side<'_>, new: &Side<'_>) -> Result<String, AllocError>
    ensures { IfOk result (λ text. string_bytes text
        ≡ whole_lines old.now.preference old.now.owners.now old.now.set.now
        new.now.preference new.now.owners.now new.now.set.now) }
{
    let mut text = String::new(alloc);
    push_preference(&mut text, old.preference, new.preference)?;
    push_node(&mut text, old.set, new.set)?;
    push_all_came(alloc, &mut text, old, new)?;
    push_all_gone(alloc, &mut text, old, new)?;
    Ok(text)
}
