//! `desk draw`.
ghost use Rattle.std.specs.Prelude.{◌≡◌, ◌<◌, ◌≤◌, length, string_bytes, IfOk, All, MatchResult, None, Ok};
ghost use Rattle.answering.specs.Chosen.{chain_of};
ghost use Rattle.judge.specs.Front.{settings_in};
ghost use Rattle.task_sheet.specs.Orders.{IsOrder};
ghost use Rattle.task_sheet.specs.declared.set.TheConstants.{TASK_LIMIT};
ghost use Rattle.run_lines.specs.TaskBounds.{tasks_of_bounds};
ghost use Rattle.drawn_runs.specs.DrawnRows.{drawn_row, rows_of, toned_in, unrun_of};
ghost use Rattle.frames.specs.Tones.{fitted_tone};
ghost use Rattle.two_input_commands.specs.Draw.{DrawsText, IsUnread, drawing_said, looks_in, looks_of, number_named, picture_of, task_tones};
ghost use Rattle.two_input_commands.specs.View.{tasks_in};
ghost use Rattle.two_input_commands.specs.Simulate.{IsInOrder};
ghost use Rattle.two_input_commands.specs.Way.{DrawsBoth};

use crate::simulate::{Run, Simulated, notes_run, simulate_text, simulation_status};
use crate::view::{Sets, all_names, is_unseen, view_of};
use crate::way::way_both;
use answering::{Answer, Both, CommandRefusal, infeasible_text};
use ceiling_kernel::Release;
use ceilings::{LockTable, Tabled};
use command_line::Options;
use frames::{TASK_TONES, TaskRow, Toned, View, fitted_tone, note_names, tone_named, tones_of};
use judge::{SettingRow, read_front};
use lines::TextPlace;
use observed::interrupts_within;
use picture::draw;
use run_lines::TaskBound;
use std::alloc::{AllocError, Global};
use task_sheet::{Name, Sheet, TaskSet};

// What came of a set and a release list, and what is drawn of it.
#[derive(Drop)]
pub(crate) struct Drawing {
    // As `desk simulate` answers.
    pub(crate) answer: Simulated,
    // In front of the list.
    pub(crate) settings: Vec<SettingRow>,
    // In whose window something lies.
    pub(crate) view: View,
}

// The number that settings give to the thread of a name, the first one, if there is one.
fn number_named(settings: &[SettingRow], name: Name) -> Option<u64>
    ensures { result ≡ number_named settings.now name }
{
    for row in settings {
        if let SettingRow::Thread(thread) = row {
            if thread.name == name {
                return Some(thread.number);
            }
        }
    }
    None
}

// What rows have beside tasks and bounds: the numbers that settings give, the tones of names, which tasks have rows that are
// shown, if that is said, and a list's releases.
#[derive(Clone, Copy)]
pub(crate) struct Looks<'a> {
    pub(crate) settings: &'a [SettingRow],
    pub(crate) tones: &'a [Toned],
    pub(crate) names: &'a [Name],
    pub(crate) releases: &'a [Release],
}

// The tones of the tasks of some sets, by their names.
pub(crate) fn task_tones(alloc: Global, sets: Sets<'_>) -> Result<Vec<Toned>, AllocError>
    ensures { IfOk result (λ tones. tones.items ≡ task_tones (tasks_in sets.entry)) }
{
    let names = all_names(alloc, sets)?;
    let mut sorted = Vec::new(alloc);
    note_names(&mut sorted, &names)?;
    tones_of(alloc, &sorted, TASK_TONES)
}

// How much of a task's bound is what timers and interrupts take in it.
fn unrun_of(set: &Tabled<'_>, sheet: &Sheet, bound: Option<u64>) -> u64
    ensures { result ≡ unrun_of set.now sheet.now bound }
{
    let Some(bound) = bound else {
        return 0;
    };
    let taken = interrupts_within(set, bound.saturating_sub(sheet.jitter()));
    taken.min(u128::from(bound)) as u64
}

// The tone of a task's row below some rows.
fn tone_of(looks: &Looks<'_>, above: &[TaskRow], name: Name) -> u64
    ensures { result ≡ fitted_tone looks.now.names.now looks.now.releases.now above.now
        (toned_in looks.now.tones.now name) }
{
    let tone = tone_named(looks.tones, name);
    fitted_tone(looks.names, looks.releases, above, Toned { name, tone })
}

// The row of a level, below some rows.
fn row_of(
    alloc: Global,
    set: &Tabled<'_>,
    looks: &Looks<'_>,
    above: &[TaskRow],
    bound: TaskBound,
) -> Result<TaskRow, AllocError>
    requires { bound.task < length set.now }
    ensures { IfOk result (λ row. row ≡ drawn_row set.now (looks_of looks.now) above.now bound) }
{
    let sheet = set.sheets()[bound.task].copy(alloc)?;
    let name = sheet.name();
    let unrun = unrun_of(set, &sheet, bound.bound);
    Ok(TaskRow {
        sheet,
        bound: bound.bound,
        number: number_named(looks.settings, name),
        tone: tone_of(looks, above, name),
        unrun,
    })
}

// The rows of bounds, the last one first.
fn rows_of(
    alloc: Global,
    set: &Tabled<'_>,
    looks: &Looks<'_>,
    bounds: &[TaskBound],
) -> Result<Vec<TaskRow>, AllocError>
    requires { All (λ task. task < length set.now) (tasks_of_bounds bounds.now) }
    ensures { IfOk result (λ rows. rows.items ≡ rows_of set.now (looks_of looks.now) bounds.now) }
{
    let mut rows = Vec::with_capacity(alloc, bounds.len())?;
    for i in 0..bounds.len() {
        let bound = bounds[bounds.len() - 1 - i];
        let row = row_of(alloc, set, looks, &rows, bound)?;
        rows.push(row)?;
    }
    Ok(rows)
}

// The rows of an order, the highest level first.
pub(crate) fn rows_in(
    alloc: Global,
    set: &TaskSet,
    looks: &Looks<'_>,
    bounds: &[TaskBound],
) -> Result<Vec<TaskRow>, AllocError>
    requires { IsOrder set.now (tasks_of_bounds bounds.now) }
    ensures rows { IfOk result (λ rows. rows.items
        ≡ rows_of set.now (looks_of looks.now) bounds.now) }
    ensures few { IfOk result (λ rows. length rows.items ≤ TASK_LIMIT) }
{
    // The set is valid: the proof has it from its sheets.
    let _ = set.sheets();
    let table = LockTable::new(alloc, set)?;
    rows_of(alloc, &Tabled::of(set, &table), looks, bounds)
}

// The rows of a run in an order of a set, as a view has them.
pub(crate) fn rows_in_view(
    alloc: Global,
    set: &TaskSet,
    settings: &[SettingRow],
    view: &View,
    run: &Run,
) -> Result<Vec<TaskRow>, AllocError>
    requires { IsOrder set.now (tasks_of_bounds run.now.bounds.items) }
    ensures rows { IfOk result (λ rows. rows.items
        ≡ rows_of set.now (looks_in set.now settings.now view.now run.now.releases.items) run.now.bounds.items) }
    ensures few { IfOk result (λ rows. length rows.items ≤ TASK_LIMIT) }
{
    let tones = task_tones(
        alloc,
        Sets {
            old: set,
            new: None,
        },
    )?;
    let looks = Looks {
        settings,
        tones: &tones,
        names: &view.tasks,
        releases: &run.releases,
    };
    rows_in(alloc, set, &looks, &run.bounds)
}

// The picture of a run in an order of a set.
fn picture_of(
    alloc: Global,
    set: &TaskSet,
    settings: &[SettingRow],
    view: &View,
    run: &Run,
) -> Result<String, AllocError>
    requires { IsOrder set.now (tasks_of_bounds run.now.bounds.items) }
    ensures { IfOk result (λ text. string_bytes text ≡ picture_of set.now settings.now view.now run.now) }
{
    let rows = rows_in_view(alloc, set, settings, view, run)?;
    draw(alloc, &rows, view, run.until, &run.releases, &run.trace)
}

// The settings in front of a list's text.
pub(crate) fn settings_in(alloc: Global, text: &[u8]) -> Result<Vec<SettingRow>, CommandRefusal>
    ensures { MatchResult result (λ settings. settings_in text.now ≡ Ok settings.items)
        (λ r. IsUnread text.now r) }
{
    match read_front(alloc, TextPlace::start(text)) {
        Ok(front) => Ok(front.rows),
        Err(fault) => Err(CommandRefusal::Settings(fault)),
    }
}

// What came of a set and the text of a release list, and what is drawn of it.
pub(crate) fn draw_text(
    alloc: Global,
    options: Options<'_>,
    tasks: &TaskSet,
    text: &[u8],
) -> Result<Drawing, CommandRefusal>
    ensures answer { DrawsText options.entry tasks.now text.now result }
    ensures order { IfOk result (λ d. IsInOrder tasks.now d.answer) }
{
    let answer = simulate_text(alloc, tasks, text)?;
    let settings = settings_in(alloc, text)?;
    let view = view_of(
        alloc,
        options,
        Sets {
            old: tasks,
            new: None,
        },
    )?;
    if is_unseen(&view, &answer) {
        return Err(CommandRefusal::EmptyWindow);
    }
    Ok(Drawing {
        answer,
        settings,
        view,
    })
}

// What is drawn of a run, or why there is none.
fn drawing_text(alloc: Global, tasks: &TaskSet, drawing: &Drawing) -> Result<String, AllocError>
    requires { IsInOrder tasks.now drawing.now.answer }
    ensures { IfOk result (λ text. string_bytes text ≡ drawing_said tasks.now drawing.now) }
{
    match &drawing.answer {
        Simulated::Ran(run) => picture_of(alloc, tasks, &drawing.settings, &drawing.view, run),
        Simulated::Infeasible(members) => infeasible_text(alloc, tasks, *members),
    }
}

// The answer of `desk draw` on a set and a release list, where no chain is named.
fn run_both(alloc: Global, options: Options<'_>, both: &Both) -> Result<Answer, CommandRefusal>
    ensures { DrawsBoth None options.entry both.now result }
{
    let drawing = draw_text(alloc, options, &both.tasks, &both.text)?;
    let text = drawing_text(alloc, &both.tasks, &drawing)?;
    let notes = notes_run(alloc, both, &drawing.answer)?;
    Ok(Answer {
        text: text.into_bytes(),
        status: simulation_status(&drawing.answer),
        notes,
    })
}

/// The answer of `desk draw` on a set and a release list, as the words choose it.
pub fn draw_both(alloc: Global, options: Options<'_>, both: &Both) -> Result<Answer, CommandRefusal>
    ensures { DrawsBoth (chain_of options.entry) options.entry both.now result }
{
    match options.chain {
        Some(word) => way_both(alloc, word, options, both),
        None => run_both(alloc, options, both),
    }
}
