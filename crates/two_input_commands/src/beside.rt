//! `desk draw` with `--beside`.
ghost use Rattle.std.specs.Prelude.{◌≡◌, ◌++◌, ◌≤◌, length, string_bytes, List, map, IfOk, MatchResult, Ok, Err};
ghost use Rattle.task_sheet.specs.Sheet.{Task};
ghost use Rattle.task_sheet.specs.declared.set.TheConstants.{TASK_LIMIT};
ghost use Rattle.answering.specs.Chosen.{chain_of};
ghost use Rattle.run_lines.specs.TaskBounds.{tasks_of_bounds};
ghost use Rattle.task_sheet.specs.Orders.{IsOrder};
ghost use Rattle.picture.specs.Beside.{run_of};
ghost use Rattle.two_input_commands.specs.Beside.{AreRuns, AsksBeside, BesidesBoth, BesidesText, IsNoRuns, are_unseen, beside_said, beside_status, drawn_run, list_of, new_of, new_run_refusal, picture_of_both, rows_drawn, toned_as, tone_among};
ghost use Rattle.two_input_commands.specs.Draw.{task_tones};
ghost use Rattle.two_input_commands.specs.Simulate.{IsInOrder};

use crate::diff_lines::read_new;
use crate::draw::{Looks, rows_in, settings_in, task_tones};
use crate::simulate::{Run, Simulated, run_notes, simulate_text};
use crate::view::{Sets, view_of};
use answering::{Answer, Both, CommandRefusal, Notes, Status, infeasible_text};
use command_line::Options;
use frames::{TaskRow, Toned, View};
use judge::SettingRow;
use picture::{DrawnRun, draw_beside};
use preferences::{Asking, Choice};
use std::alloc::{AllocError, Global};
use task_sheet::{Name, TaskSet};

// What comes of a release list on a set, and on the one that it becomes, and what is drawn of it.
#[derive(Drop)]
pub(crate) struct TwoRuns {
    // As `desk simulate` answers on the first set.
    was: Simulated,
    // The new set, and who says by what it is preferred.
    set: TaskSet,
    choice: Choice,
    // As `desk simulate` answers on that.
    is: Simulated,
    // In front of the list.
    settings: Vec<SettingRow>,
    // In whose window something lies.
    view: View,
}

/// The parts of a text in front of its first byte 0 and behind it: a release list and a task set.
pub fn parts_of(text: &[u8]) -> (&[u8], &[u8])
    ensures list { result.0.now ≡ list_of text.now }
    ensures new { result.1.now ≡ new_of text.now }
{
    for (i, b) in text.iter().enumerate() {
        if *b == 0 {
            let (front, rest) = text.split_at(i);
            return (front, &rest[1..]);
        }
    }
    (text, &[])
}

// Whether nothing of two runs lies in the window of a view.
fn are_unseen(view: &View, was: &Simulated, is: &Simulated) -> bool
    ensures { result ≡ are_unseen view.now was.now is.now }
{
    match (was, is) {
        (Simulated::Ran(was), Simulated::Ran(is)) => view.is_empty(was.until.max(is.until)),
        _ => false,
    }
}

// Why the new set has no run.
fn new_run_refusal(refusal: CommandRefusal) -> CommandRefusal
    ensures { result ≡ new_run_refusal refusal }
{
    match refusal {
        CommandRefusal::Run(fault) => CommandRefusal::NewRun(fault),
        CommandRefusal::Settings(fault) => CommandRefusal::NewSettings(fault),
        other => other,
    }
}

// What comes of a list on a set, and on the new one that a text says, and that set.
fn run_both(
    alloc: Global,
    asking: Asking,
    tasks: &TaskSet,
    text: &[u8],
) -> Result<(Simulated, TaskSet, Simulated, Choice), CommandRefusal>
    ensures answer { MatchResult result
        (λ runs. AreRuns asking tasks.now runs.1 text.now runs.0 runs.2)
        (λ r. IsNoRuns asking tasks.now text.now r) }
    ensures was { IfOk result (λ runs. IsInOrder tasks.now runs.0) }
    ensures is { IfOk result (λ runs. IsInOrder runs.1 runs.2) }
{
    let (list, new) = parts_of(text);
    let was = simulate_text(alloc, tasks, list)?;
    let (set, _by, _chains, choice) = read_new(alloc, asking, new)?;
    match simulate_text(alloc, &set, list) {
        Ok(is) => Ok((was, set, is, choice)),
        Err(refusal) => Err(new_run_refusal(refusal)),
    }
}

// What comes of a set and the text of a release list and a new set, and what is drawn of it.
fn runs_beside(
    alloc: Global,
    asking: Asking,
    options: Options<'_>,
    tasks: &TaskSet,
    text: &[u8],
) -> Result<TwoRuns, CommandRefusal>
    ensures answer { BesidesText asking options.entry tasks.now text.now result }
    ensures was { IfOk result (λ b. IsInOrder tasks.now b.was) }
    ensures is { IfOk result (λ b. IsInOrder b.set b.is) }
{
    let (was, set, is, choice) = run_both(alloc, asking, tasks, text)?;
    let settings = settings_in(alloc, parts_of(text).0)?;
    let sets = Sets::both(tasks, &set);
    let view = view_of(alloc, options, sets)?;
    if are_unseen(&view, &was, &is) {
        return Err(CommandRefusal::EmptyWindow);
    }
    Ok(TwoRuns {
        was,
        set,
        choice,
        is,
        settings,
        view,
    })
}

// The same, where no chain is named.
fn beside_text(
    alloc: Global,
    asking: Asking,
    options: Options<'_>,
    tasks: &TaskSet,
    text: &[u8],
) -> Result<TwoRuns, CommandRefusal>
    ensures answer { AsksBeside (chain_of options.entry) asking options.entry tasks.now text.now result }
    ensures was { IfOk result (λ b. IsInOrder tasks.now b.was) }
    ensures is { IfOk result (λ b. IsInOrder b.set b.is) }
{
    match options.chain {
        Some(_) => Err(CommandRefusal::ChainBeside),
        None => runs_beside(alloc, asking, options, tasks, text),
    }
}

// The rows of a set in a run, with the tones that the tasks of both sets have, in the view of both.
fn rows_beside(
    alloc: Global,
    set: &TaskSet,
    tones: &[Toned],
    beside: &TwoRuns,
    run: &Run,
) -> Result<Vec<TaskRow>, AllocError>
    requires { IsOrder set.now (tasks_of_bounds run.now.bounds.items) }
    ensures rows { (all : List Task) → tones.now ≡ task_tones all → IfOk result (λ rows. rows.items
        ≡ rows_drawn all set.now beside.now.settings.items beside.now.view run.now) }
    ensures few { IfOk result (λ rows. length rows.items ≤ TASK_LIMIT) }
{
    let looks = Looks {
        settings: &beside.settings,
        tones,
        names: &beside.view.tasks,
        releases: &run.releases,
    };
    rows_in(alloc, set, &looks, &run.bounds)
}

// The tone of the first of some rows that is of a name's task, else this one.
fn tone_among(rows: &[TaskRow], name: Name, own: u64) -> u64
    ensures { result ≡ tone_among rows.now name own }
{
    for row in rows {
        if row.sheet.name() == name {
            return row.tone;
        }
    }
    own
}

// A row with the tone that its task has among others.
fn toned_as(others: &[TaskRow], row: TaskRow) -> TaskRow
    ensures { result ≡ toned_as others.now row }
{
    let tone = tone_among(others, row.sheet.name(), row.tone);
    let mut toned = row;
    toned.tone = tone;
    toned
}

// The same of rows.
fn all_toned_as(
    alloc: Global,
    others: &[TaskRow],
    rows: Vec<TaskRow>,
) -> Result<Vec<TaskRow>, AllocError>
    ensures { IfOk result (λ toned. toned.items ≡ map (toned_as others.now) rows.items) }
{
    let mut toned = Vec::with_capacity(alloc, rows.len())?;
    for row in rows {
        toned.push(toned_as(others, row))?;
    }
    Ok(toned)
}

// What is drawn of a run with some rows.
fn drawn_run<'a>(rows: &'a [TaskRow], run: &'a Run) -> DrawnRun<'a>
    ensures run { run_of result ≡ drawn_run rows.now run.now }
    ensures rows { result.rows.now ≡ rows.now }
{
    DrawnRun {
        rows,
        until: run.until,
        releases: &run.releases,
        trace: &run.trace,
    }
}

// The picture of the runs of a set and of the one that it becomes.
fn picture_of_both(
    alloc: Global,
    tasks: &TaskSet,
    beside: &TwoRuns,
    was: &Run,
    is: &Run,
) -> Result<String, AllocError>
    requires was { IsOrder tasks.now (tasks_of_bounds was.now.bounds.items) }
    requires is { IsOrder beside.now.set (tasks_of_bounds is.now.bounds.items) }
    ensures { IfOk result (λ text. string_bytes text ≡ picture_of_both tasks.now beside.now.set
        beside.now.settings.items beside.now.view was.now is.now) }
{
    let sets = Sets::both(tasks, &beside.set);
    let tones = task_tones(alloc, sets)?;
    let olds = rows_beside(alloc, tasks, &tones, beside, was)?;
    let rows = rows_beside(alloc, &beside.set, &tones, beside, is)?;
    let news = all_toned_as(alloc, &olds, rows)?;
    let old = drawn_run(&olds, was);
    let new = drawn_run(&news, is);
    draw_beside(alloc, &old, &new, &beside.view)
}

// What is drawn of both runs, or why there is none of one.
fn drawn_text(alloc: Global, tasks: &TaskSet, beside: &TwoRuns) -> Result<String, AllocError>
    requires was { IsInOrder tasks.now beside.now.was }
    requires is { IsInOrder beside.now.set beside.now.is }
    ensures { IfOk result (λ text. string_bytes text ≡ beside_said tasks.now beside.now) }
{
    match (&beside.was, &beside.is) {
        (Simulated::Infeasible(members), _) => infeasible_text(alloc, tasks, *members),
        (_, Simulated::Infeasible(members)) => infeasible_text(alloc, &beside.set, *members),
        (Simulated::Ran(was), Simulated::Ran(is)) => picture_of_both(alloc, tasks, beside, was, is),
    }
}

// The exit status of both runs.
fn beside_status(beside: &TwoRuns) -> Status
    ensures { result ≡ beside_status beside.now }
{
    match (&beside.was, &beside.is) {
        (Simulated::Ran(_), Simulated::Ran(_)) => Status::Done,
        _ => Status::Infeasible,
    }
}

// What a person is told of both.
fn notes_of(beside: TwoRuns) -> Notes {
    let mut notes = run_notes(&beside.was);
    if let Simulated::Ran(run) = &beside.is {
        notes.overruns[1] = run.overrun;
    }
    notes.new = Some((beside.set, beside.choice));
    notes
}

/// The answer of `desk draw --beside` on a set and the text of a release list and a new set, as the words choose it.
pub fn draw_beside_both(
    alloc: Global,
    asking: Asking,
    options: Options<'_>,
    both: &Both,
) -> Result<Answer, CommandRefusal>
    ensures { BesidesBoth asking options.entry both.now result }
{
    let beside = beside_text(alloc, asking, options, &both.tasks, &both.text)?;
    let text = drawn_text(alloc, &both.tasks, &beside)?;
    Ok(Answer {
        text: text.into_bytes(),
        status: beside_status(&beside),
        notes: notes_of(beside),
    })
}
