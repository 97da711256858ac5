//! The view that the words of `desk draw` choose.
ghost use Rattle.std.specs.Prelude.{◌≡◌, ◌++◌, [], Ok, Err, Some, false, IfOk, option_map, string_bytes, MatchResult};
ghost use Rattle.std.specs.Option.{unwrap_or};
ghost use Rattle.std.specs.Prelude.{is_some};
ghost use Rattle.ceiling_kernel.specs.Releases.{task_named};
ghost use Rattle.two_input_commands.specs.View.{AsksRows, IsViewOf, Notes, is_all, is_unseen, known_name, names_of, rows_word, tasks_in, width_said};

use crate::simulate::Simulated;
use answering::CommandRefusal;
use command_line::Options;
use frames::{View, paper_width};
use lines::{cut, name_of};
use std::alloc::{AllocError, Global};
use task_sheet::{Name, Sheet, TaskSet};

/// The sets whose tasks a picture shows: one, or also the one that it becomes.
#[derive(Clone, Copy)]
pub(crate) struct Sets<'a> {
    pub(crate) old: &'a TaskSet,
    pub(crate) new: Option<&'a TaskSet>,
}

impl<'a> Sets<'a> {
    /// A set, and the one that it becomes.
    pub(crate) fn both(old: &'a TaskSet, new: &'a TaskSet) -> Sets<'a>
        ensures { tasks_in result ≡ old.now ++ new.now }
    {
        let new = Some(new);
        Sets { old, new }
    }
}

impl Sets<'_> {
    // Whether a task of one of them has a name.
    fn has(self, name: Name) -> bool
        ensures { result ≡ is_some (task_named (tasks_in self.entry) name) }
    {
        let is_old = self.old.find(name).is_some();
        match self.new {
            Some(new) => is_old || new.find(name).is_some(),
            None => is_old,
        }
    }
}

// The name of a task that a part of a word is.
fn known_name(sets: Sets<'_>, part: &[u8]) -> Option<Name>
    ensures { result ≡ known_name (tasks_in sets.entry) part.now }
{
    let name = name_of(part)?;
    if sets.has(name) { Some(name) } else { None }
}

// The name of one more task among those that have rows, or that there is none.
fn note_name(names: &mut Vec<Name>, sets: Sets<'_>, part: &[u8]) -> Result<(), CommandRefusal>
    ensures { Notes (tasks_in sets.entry) part.now names.old.items names.new.items result }
{
    let Some(name) = known_name(sets, part) else {
        return Err(CommandRefusal::NoSuchTask {
            name: name_of(part),
        });
    };
    match names.push(name) {
        Ok(()) => Ok(()),
        Err(_) => Err(CommandRefusal::OutOfMemory),
    }
}

// Whether a text is the word for all tasks.
fn is_all(text: &[u8]) -> bool
    ensures { result ≡ is_all text.now }
{
    text == b"all".as_slice()
}

// The names of all tasks of a set.
fn names_of(alloc: Global, sheets: &[Sheet]) -> Result<Vec<Name>, AllocError>
    ensures { IfOk result (λ names. names.items ≡ names_of sheets.now) }
{
    let mut names = Vec::with_capacity(alloc, sheets.len())?;
    for sheet in sheets {
        names.push(sheet.name())?;
    }
    Ok(names)
}

// The names of all tasks of some sets.
#[tactic(auto, using(crate::proofs::RowNames::names_in_both))]
pub(crate) fn all_names(alloc: Global, sets: Sets<'_>) -> Result<Vec<Name>, AllocError>
    ensures { IfOk result (λ names. names.items ≡ names_of (tasks_in sets.entry)) }
{
    let mut names = names_of(alloc, sets.old.sheets())?;
    if let Some(new) = sets.new {
        let more = names_of(alloc, new.sheets())?;
        names.extend_from_slice(&more)?;
    }
    Ok(names)
}

// The names of the tasks that the parts of a text name, or that there is none of a name.
fn names_in(alloc: Global, sets: Sets<'_>, text: &[u8]) -> Result<Vec<Name>, CommandRefusal>
    requires { is_all text.now ≡ false }
    ensures { MatchResult result
        (λ names. AsksRows (tasks_in sets.entry) (Some text.now) (Ok names.items))
        (λ r. AsksRows (tasks_in sets.entry) (Some text.now) (Err r)) }
{
    let mut names = Vec::new(alloc);
    let mut rest = text;
    for _ in 0..text.len() + 1 {
        match cut(rest, b',') {
            None => {
                note_name(&mut names, sets, rest)?;
                return Ok(names);
            }
            Some((part, after)) => {
                note_name(&mut names, sets, part)?;
                rest = after;
            }
        }
    }
    unreachable!()
}

// The names of the tasks that a text names.
fn names_said(alloc: Global, sets: Sets<'_>, text: &[u8]) -> Result<Vec<Name>, CommandRefusal>
    ensures { MatchResult result
        (λ names. AsksRows (tasks_in sets.entry) (Some text.now) (Ok names.items))
        (λ r. AsksRows (tasks_in sets.entry) (Some text.now) (Err r)) }
{
    if is_all(text) {
        Ok(all_names(alloc, sets)?)
    } else {
        names_in(alloc, sets, text)
    }
}

// The same, where there is a word.
fn rows_of(alloc: Global, sets: Sets<'_>, word: Option<&str>) -> Result<Vec<Name>, CommandRefusal>
    ensures { MatchResult result
        (λ names. AsksRows (tasks_in sets.entry) (option_map (λ w. w.now) word.entry) (Ok names.items))
        (λ r. AsksRows (tasks_in sets.entry) (option_map (λ w. w.now) word.entry) (Err r)) }
{
    match word {
        None => Ok(Vec::new(alloc)),
        Some(word) => names_said(alloc, sets, word.as_bytes()),
    }
}

// The title, where there is one.
fn title_of(alloc: Global, word: Option<&str>) -> Result<String, AllocError>
    ensures { IfOk result (λ title. string_bytes title
        ≡ unwrap_or (option_map (λ w. w.now) word.entry) []) }
{
    let mut title = String::new(alloc);
    if let Some(word) = word {
        title.push_str(word)?;
    }
    Ok(title)
}

// A number that words say.
fn number_said(number: Option<usize>) -> Option<u64>
    ensures { result ≡ number }
{
    match number {
        Some(number) => Some(number as u64),
        None => None,
    }
}

// How wide it is: as words say, else on paper of an A size so wide that its type can be read.
fn width_said(width: Option<usize>, print: Option<usize>) -> Option<u64>
    ensures { result ≡ width_said width print }
{
    match width {
        Some(width) => Some(width as u64),
        None => match print {
            Some(size) => Some(paper_width(size as u64)),
            None => None,
        },
    }
}

// The view of some sets that words choose.
pub(crate) fn view_of(
    alloc: Global,
    options: Options<'_>,
    sets: Sets<'_>,
) -> Result<View, CommandRefusal>
    ensures { MatchResult result (IsViewOf (tasks_in sets.entry) options.entry)
        (λ r. AsksRows (tasks_in sets.entry) (rows_word options.entry) (Err r)) }
{
    let tasks = rows_of(alloc, sets, options.rows)?;
    let title = title_of(alloc, options.title)?;
    Ok(View {
        from: options.from.unwrap_or(0) as u64,
        to: number_said(options.to),
        width: width_said(options.width, options.print),
        paper: number_said(options.print),
        title,
        tasks,
    })
}

// Whether nothing of what came of a set and a list lies in the window of a view.
pub(crate) fn is_unseen(view: &View, answer: &Simulated) -> bool
    ensures { result ≡ is_unseen view.now answer.now }
{
    match answer {
        Simulated::Ran(run) => view.is_empty(run.until),
        Simulated::Infeasible(_) => false,
    }
}
