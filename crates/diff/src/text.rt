//! The lines of a change.
ghost use Rattle.std.specs.Prelude.{◌≡◌, ◌++◌, ◌<◌, length, OnOk, IfOk, Some, None, string_bytes};
ghost use Rattle.diff.specs.Seats.{seat_of};
ghost use Rattle.diff.specs.Keys.{words_below};
ghost use Rattle.diff.specs.Whole.{both_weigh};
ghost use Rattle.diff.specs.ChangeLines.{added_line, change_lines, changed_line, edit_line, effect_line, effect_of, index_in, kept_line, owned_line, removed_line, rest_line, seats_words, start_words, word_of};

use crate::keys::{is_changed, push_keys};
use crate::pairs::push_pair;
use crate::seats::{Seat, seat_of};
use crate::side::Side;
use crate::whole::both_weigh;
use lines::push_name;
use std::alloc::{AllocError, Global};
use task_lines::{Owner, push_team};
use task_sheet::TaskSet;

/// What becomes of a task or a chain.
#[derive(Clone, Copy)]
pub(crate) enum Kind {
    Removed,
    Added,
    // Its sheet says something else.
    Changed,
    // Its sheet says the same, and its response is longer.
    Slower,
    // It is shorter.
    Faster,
    // It is the same, at another level.
    Moved,
}

// Where a change is looked for that a task's sheet doesn't say.
#[derive(Clone, Copy)]
enum Effect {
    OnBound,
    // Where the bound stays.
    OnLevel,
}

impl Kind {
    /// The first word of its line.
    pub(crate) fn word<'a>(self) -> &'a str
        ensures { result.now ≡ word_of self }
    {
        match self {
            Kind::Removed => "removed",
            Kind::Added => "added",
            Kind::Changed => "changed",
            Kind::Slower => "slower",
            Kind::Faster => "faster",
            Kind::Moved => "moved",
        }
    }
}

// What becomes of a task whose sheet says the same, where anything does.
fn effect_of(effect: Effect, old: Seat, new: Seat) -> Option<Kind>
    ensures { result ≡ effect_of effect old new }
{
    match effect {
        Effect::OnBound => {
            if old.bound < new.bound {
                Some(Kind::Slower)
            } else if new.bound < old.bound {
                Some(Kind::Faster)
            } else {
                None
            }
        }
        Effect::OnLevel => {
            if old.bound == new.bound && old.level != new.level {
                Some(Kind::Moved)
            } else {
                None
            }
        }
    }
}

// The seats before and after.
fn push_seats(text: &mut String, old: Option<Seat>, new: Option<Seat>) -> Result<(), AllocError>
    ensures { OnOk result (string_bytes text.new ≡ string_bytes text.old ++ seats_words old new) }
{
    push_pair(
        text,
        " level ",
        old.map(|seat| seat.level as u64),
        new.map(|seat| seat.level as u64),
    )?;
    push_pair(
        text,
        " bound ",
        old.map(|seat| seat.bound),
        new.map(|seat| seat.bound),
    )?;
    push_pair(
        text,
        " slack ",
        old.map(|seat| seat.slack),
        new.map(|seat| seat.slack),
    )
}

// A task's line, as far as its seats.
fn push_start(
    text: &mut String,
    kind: Kind,
    set: &TaskSet,
    task: usize,
    old: Option<Seat>,
    new: Option<Seat>,
) -> Result<(), AllocError>
    ensures { OnOk result (string_bytes text.new ≡ string_bytes text.old
        ++ start_words kind set.now task old new) }
{
    text.push_str(kind.word())?;
    text.push_str(" ")?;
    push_name(text, set, task)?;
    push_seats(text, old, new)
}

// That line of a task, with its team.
fn push_owned(
    text: &mut String,
    kind: Kind,
    owners: &[Owner],
    set: &TaskSet,
    task: usize,
    old: Option<Seat>,
    new: Option<Seat>,
) -> Result<(), AllocError>
    ensures { OnOk result (string_bytes text.new ≡ string_bytes text.old
        ++ owned_line kind owners.now set.now task old new) }
{
    push_start(text, kind, set, task, old, new)?;
    push_team(text, owners, set, task)?;
    text.push_str("\n")
}

// The index of a set's task in another set, by its name.
fn index_in(other: &TaskSet, set: &TaskSet, task: usize) -> Option<usize>
    requires { task < length set.now }
    ensures { result ≡ index_in other.now set.now task }
{
    other.find(set.sheets()[task].name())
}

// The line of an old task that is gone.
fn push_removed(
    text: &mut String,
    owners: &[Owner],
    old: &Side<'_>,
    new: &Side<'_>,
    task: usize,
) -> Result<(), AllocError>
    requires { task < length old.now.set.now }
    ensures { OnOk result (string_bytes text.new ≡ string_bytes text.old
        ++ removed_line owners.now old.now.set.now old.now.placing.now new.now.set.now task) }
{
    match index_in(new.set, old.set, task) {
        Some(_) => Ok(()),
        None => {
            let seat = seat_of(old, task);
            push_owned(text, Kind::Removed, owners, old.set, task, seat, None)
        }
    }
}

// The line of a new task that was not there before.
fn push_added(
    text: &mut String,
    owners: &[Owner],
    new: &Side<'_>,
    task: usize,
) -> Result<(), AllocError>
    ensures { OnOk result (string_bytes text.new ≡ string_bytes text.old
        ++ added_line owners.now new.now.set.now new.now.placing.now task) }
{
    let seat = seat_of(new, task);
    push_owned(text, Kind::Added, owners, new.set, task, None, seat)
}

// The line of a new task that was there before, where its sheet says something else.
fn push_changed(
    text: &mut String,
    weighs: bool,
    old: &Side<'_>,
    before: usize,
    new: &Side<'_>,
    task: usize,
) -> Result<(), AllocError>
    requires before { before < length old.now.set.now }
    requires task { task < length new.now.set.now }
    ensures { OnOk result (string_bytes text.new ≡ string_bytes text.old
        ++ changed_line weighs old.now.set.now old.now.placing.now before
        new.now.set.now new.now.placing.now task) }
{
    let was = &old.set.sheets()[before];
    let is = &new.set.sheets()[task];
    if !is_changed(weighs, was, is) {
        return Ok(());
    }
    let from = seat_of(old, before);
    let to = seat_of(new, task);
    push_start(text, Kind::Changed, new.set, task, from, to)?;
    push_keys(text, weighs, was, is)?;
    text.push_str("\n")
}

// The line of a new task that was there before, where its sheet says the same and its seat is another.
fn push_kept(
    text: &mut String,
    effect: Effect,
    weighs: bool,
    owners: &[Owner],
    old: &Side<'_>,
    before: usize,
    new: &Side<'_>,
    task: usize,
) -> Result<(), AllocError>
    requires before { before < length old.now.set.now }
    requires task { task < length new.now.set.now }
    ensures { OnOk result (string_bytes text.new ≡ string_bytes text.old
        ++ kept_line effect weighs owners.now old.now.set.now old.now.placing.now before
        new.now.set.now new.now.placing.now task) }
{
    let was = &old.set.sheets()[before];
    let is = &new.set.sheets()[task];
    if is_changed(weighs, was, is) {
        return Ok(());
    }
    match (seat_of(old, before), seat_of(new, task)) {
        (Some(from), Some(to)) => push_effect(text, effect, owners, new.set, task, from, to),
        _ => Ok(()),
    }
}

// The line of a task whose sheet says the same, where its seat is another.
fn push_effect(
    text: &mut String,
    effect: Effect,
    owners: &[Owner],
    set: &TaskSet,
    task: usize,
    from: Seat,
    to: Seat,
) -> Result<(), AllocError>
    ensures { OnOk result (string_bytes text.new ≡ string_bytes text.old
        ++ effect_line effect owners.now set.now task from to) }
{
    match effect_of(effect, from, to) {
        Some(kind) => push_owned(text, kind, owners, set, task, Some(from), Some(to)),
        None => Ok(()),
    }
}

// The line of what was done to a new task, where anything was.
fn push_edit(
    text: &mut String,
    weighs: bool,
    owners: &[Owner],
    old: &Side<'_>,
    new: &Side<'_>,
    task: usize,
) -> Result<(), AllocError>
    requires { task < length new.now.set.now }
    ensures { OnOk result (string_bytes text.new ≡ string_bytes text.old
        ++ edit_line weighs owners.now old.now.set.now old.now.placing.now
        new.now.set.now new.now.placing.now task) }
{
    match index_in(old.set, new.set, task) {
        Some(before) => push_changed(text, weighs, old, before, new, task),
        None => push_added(text, owners, new, task),
    }
}

// The line of what comes of the change to a task that it leaves as it was, where anything does.
fn push_rest(
    text: &mut String,
    effect: Effect,
    weighs: bool,
    owners: &[Owner],
    old: &Side<'_>,
    new: &Side<'_>,
    task: usize,
) -> Result<(), AllocError>
    requires { task < length new.now.set.now }
    ensures { OnOk result (string_bytes text.new ≡ string_bytes text.old
        ++ rest_line effect weighs owners.now old.now.set.now old.now.placing.now
        new.now.set.now new.now.placing.now task) }
{
    match index_in(old.set, new.set, task) {
        Some(before) => push_kept(text, effect, weighs, owners, old, before, new, task),
        None => Ok(()),
    }
}

// The lines of the old tasks that are gone.
fn push_all_removed(
    text: &mut String,
    owners: &[Owner],
    old: &Side<'_>,
    new: &Side<'_>,
) -> Result<(), AllocError>
    ensures { OnOk result (string_bytes text.new ≡ string_bytes text.old
        ++ words_below (length old.now.set.now)
        (removed_line owners.now old.now.set.now old.now.placing.now new.now.set.now)) }
{
    for task in 0..old.set.len() {
        push_removed(text, owners, old, new, task)?;
    }
    Ok(())
}

// The lines of what was done to the new tasks.
fn push_edits(
    text: &mut String,
    weighs: bool,
    owners: &[Owner],
    old: &Side<'_>,
    new: &Side<'_>,
) -> Result<(), AllocError>
    ensures { OnOk result (string_bytes text.new ≡ string_bytes text.old
        ++ words_below (length new.now.set.now)
        (edit_line weighs owners.now old.now.set.now old.now.placing.now
        new.now.set.now new.now.placing.now)) }
{
    for task in 0..new.set.len() {
        push_edit(text, weighs, owners, old, new, task)?;
    }
    Ok(())
}

// The lines of what comes of the change to the others.
fn push_rests(
    text: &mut String,
    effect: Effect,
    weighs: bool,
    owners: &[Owner],
    old: &Side<'_>,
    new: &Side<'_>,
) -> Result<(), AllocError>
    ensures { OnOk result (string_bytes text.new ≡ string_bytes text.old
        ++ words_below (length new.now.set.now)
        (rest_line effect weighs owners.now old.now.set.now old.now.placing.now
        new.now.set.now new.now.placing.now)) }
{
    for task in 0..new.set.len() {
        push_rest(text, effect, weighs, owners, old, new, task)?;
    }
    Ok(())
}

/// The lines of a change from one set to another: of the tasks that are gone, then of those that came and those whose
/// sheets say something else, then of the others whose responses are other ones, and last of those whose levels alone are.
/// Each by rank, with its team. A weight counts only where weights are the sheets' own on both sides. The error is out of
/// memory.
pub fn change_text(
    alloc: Global,
    owners: &[Owner],
    old: &Side<'_>,
    new: &Side<'_>,
) -> Result<String, AllocError>
    ensures { IfOk result (λ text. string_bytes text
        ≡ change_lines (both_weigh old.now.preference new.now.preference) owners.now
        old.now.set.now old.now.placing.now new.now.set.now new.now.placing.now) }
{
    let weighs = both_weigh(old.preference, new.preference);
    let mut text = String::new(alloc);
    push_all_removed(&mut text, owners, old, new)?;
    push_edits(&mut text, weighs, owners, old, new)?;
    push_rests(&mut text, Effect::OnBound, weighs, owners, old, new)?;
    push_rests(&mut text, Effect::OnLevel, weighs, owners, old, new)?;
    Ok(text)
}
