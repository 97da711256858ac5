//! `desk draw` with `--chain`.
ghost use Rattle.std.specs.Prelude.{◌≡◌, ◌≤◌, IfOk, Some, length};
ghost use Rattle.task_sheet.specs.Orders.{IsOrder};
ghost use Rattle.task_sheet.specs.declared.set.TheConstants.{TASK_LIMIT};
ghost use Rattle.drawn_ways.specs.WayTexts.{way_of};
ghost use Rattle.run_lines.specs.TaskBounds.{tasks_of_bounds};
ghost use Rattle.two_input_commands.specs.Simulate.{IsInOrder};
ghost use Rattle.chains.specs.Parts.{bound_in};
ghost use Rattle.two_input_commands.specs.Way.{DrawsBoth, DrawsWay, IsViewWith, IsWayOf, answer_drawn, name_at, names_at, picture_with, rows_drawn, rows_with, told_bound, way_with};

use crate::draw::{Drawing, draw_text, rows_in_view};
use crate::reached::levels_of;
use crate::simulate::{Run, Simulated, notes_run, simulation_status};
use answering::{Answer, Both, CommandRefusal, find_chain, infeasible_text, no_such_chain};
use chain_tables::Chain;
use chains::{Level, bound_of};
use command_line::Options;
use drawn_ways::{Way, laid_over, way_text};
use frames::{TaskRow, View, frame_of, shown_of};
use judge::SettingRow;
use picture::draw;
use std::alloc::{AllocError, Global};
use task_sheet::{Name, TaskSet};

// What came of a set and a release list, and the picture of it with the way of a chain's datum.
#[derive(Drop)]
pub(crate) struct DrawnWay {
    // As `desk simulate` answers.
    answer: Simulated,
    // An SVG 1.1 document, or the line of an obstruction.
    text: Vec<u8>,
}

// The name of a task of a set.
fn name_at(set: &TaskSet, task: usize) -> Option<Name>
    ensures { result ≡ name_at set.now task }
{
    let sheet = set.sheets().get(task)?;
    Some(sheet.name())
}

// The names of tasks of a set.
fn names_at(alloc: Global, set: &TaskSet, tasks: &[usize]) -> Result<Vec<Name>, AllocError>
    ensures { IfOk result (λ names. names.items ≡ names_at set.now tasks.now) }
{
    let mut names = Vec::with_capacity(alloc, tasks.len())?;
    for task in tasks {
        if let Some(name) = name_at(set, *task) {
            names.push(name)?;
        }
    }
    Ok(names)
}

// The names of the tasks that have rows, where some are named, and those of a chain.
fn rows_with(
    alloc: Global,
    set: &TaskSet,
    chain: &Chain,
    rows: &[Name],
) -> Result<Vec<Name>, AllocError>
    ensures { IfOk result (λ names. names.items ≡ rows_with set.now chain.now rows.now) }
{
    let mut names = Vec::new(alloc);
    if rows.is_empty() {
        return Ok(names);
    }
    let more = names_at(alloc, set, &chain.tasks)?;
    names.extend_from_slice(rows)?;
    names.extend_from_slice(&more)?;
    Ok(names)
}

// A view with them.
fn view_with(alloc: Global, set: &TaskSet, chain: &Chain, view: View) -> Result<View, AllocError>
    ensures { IfOk result (IsViewWith set.now chain.now view) }
{
    let tasks = rows_with(alloc, set, chain, &view.tasks)?;
    Ok(View {
        from: view.from,
        to: view.to,
        width: view.width,
        paper: view.paper,
        title: view.title,
        tasks,
    })
}

// A bound that has no more than 64 bits.
fn told_bound(bound: Option<u128>) -> Option<u64>
    ensures { result ≡ told_bound bound }
{
    let bound = bound?;
    if bound < 18_446_744_073_709_551_616 {
        Some(bound as u64)
    } else {
        None
    }
}

// The bound of a chain in an order with these levels.
fn bound_at(
    alloc: Global,
    set: &TaskSet,
    levels: &[Level],
    chain: &Chain,
) -> Result<Option<u128>, AllocError>
    ensures { IfOk result (λ bound. bound
        ≡ bound_in chain.now.writes chain.now.offsets set.now levels.now chain.now.tasks) }
{
    let (offsets, tasks) = (&chain.offsets, &chain.tasks);
    bound_of(alloc, set, levels, chain.writes, offsets, tasks)
}

// What is drawn of a chain that has this bound.
fn way_with<'a>(chain: &'a Chain, bound: Option<u128>) -> Way<'a>
    ensures { way_of result ≡ way_with chain.now bound }
{
    let tasks: &'a [usize] = &chain.tasks;
    Way {
        name: chain.name,
        writes: chain.writes,
        tasks,
        bound: told_bound(bound),
    }
}

// The picture of rows of a run, with the way of a datum.
fn rows_drawn(
    alloc: Global,
    set: &TaskSet,
    rows: &[TaskRow],
    view: &View,
    run: &Run,
    way: &Way<'_>,
) -> Result<Vec<u8>, AllocError>
    requires { length rows.now ≤ TASK_LIMIT }
    ensures { IfOk result (λ text. text.items ≡ rows_drawn set.now rows.now view.now run.now (way_of way.now)) }
{
    let document = draw(alloc, rows, view, run.until, &run.releases, &run.trace)?;
    let shown = shown_of(alloc, &view.tasks, &run.releases, rows)?;
    let frame = frame_of(rows, view, run.until);
    let over = way_text(alloc, frame, set, rows, &shown, &run.trace, way)?;
    laid_over(alloc, document.as_bytes(), over.as_bytes())
}

// The picture of a run in an order of a set, with the way of a chain's datum.
fn picture_with(
    alloc: Global,
    set: &TaskSet,
    settings: &[SettingRow],
    view: &View,
    chain: &Chain,
    run: &Run,
) -> Result<Vec<u8>, AllocError>
    requires { IsOrder set.now (tasks_of_bounds run.now.bounds.items) }
    ensures { IfOk result (λ text. text.items ≡ picture_with set.now settings.now view.now chain.now run.now) }
{
    let rows = rows_in_view(alloc, set, settings, view, run)?;
    let levels = levels_of(alloc, &run.bounds)?;
    let bound = bound_at(alloc, set, &levels, chain)?;
    let way = way_with(chain, bound);
    rows_drawn(alloc, set, &rows, view, run, &way)
}

// The same of what came of a set; where no order passes the line of the obstruction.
fn answer_drawn(
    alloc: Global,
    set: &TaskSet,
    settings: &[SettingRow],
    view: &View,
    chain: &Chain,
    answer: &Simulated,
) -> Result<Vec<u8>, AllocError>
    requires { IsInOrder set.now answer.now }
    ensures { IfOk result (λ text. text.items
        ≡ answer_drawn set.now settings.now view.now chain.now answer.now) }
{
    match answer {
        Simulated::Ran(run) => picture_with(alloc, set, settings, view, chain, run),
        Simulated::Infeasible(members) => {
            let text = infeasible_text(alloc, set, *members)?;
            Ok(text.into_bytes())
        }
    }
}

// What was found, drawn with the way of a chain's datum.
fn way_drawn(
    alloc: Global,
    set: &TaskSet,
    chain: &Chain,
    drawing: Drawing,
) -> Result<DrawnWay, AllocError>
    requires { IsInOrder set.now drawing.answer }
    ensures { IfOk result (IsWayOf set.now chain.now drawing) }
{
    let view = view_with(alloc, set, chain, drawing.view)?;
    let text = answer_drawn(alloc, set, &drawing.settings, &view, chain, &drawing.answer)?;
    Ok(DrawnWay {
        answer: drawing.answer,
        text,
    })
}

// What came of a set with chains and the text of a release list, drawn with the way of the datum of the chain that a word names.
#[tactic(auto, using(crate::proofs::Ways::undrawn, crate::proofs::Ways::unknown))]
fn draw_way(
    alloc: Global,
    word: &str,
    options: Options<'_>,
    chains: &[Chain],
    tasks: &TaskSet,
    text: &[u8],
) -> Result<DrawnWay, CommandRefusal>
    ensures answer { DrawsWay word.now options.entry chains.now tasks.now text.now result }
    ensures order { IfOk result (λ found. IsInOrder tasks.now found.answer) }
{
    let drawing = draw_text(alloc, options, tasks, text)?;
    let Some(chain) = find_chain(chains, word) else {
        return Err(no_such_chain(word));
    };
    match way_drawn(alloc, tasks, chain, drawing) {
        Ok(found) => Ok(found),
        Err(_) => Err(CommandRefusal::OutOfMemory),
    }
}

/// The answer of `desk draw` on a set and a release list, where a chain is named.
pub(crate) fn way_both(
    alloc: Global,
    word: &str,
    options: Options<'_>,
    both: &Both,
) -> Result<Answer, CommandRefusal>
    ensures { DrawsBoth (Some word.now) options.entry both.now result }
{
    let found = draw_way(alloc, word, options, &both.chains, &both.tasks, &both.text)?;
    let status = simulation_status(&found.answer);
    let notes = notes_run(alloc, both, &found.answer)?;
    Ok(Answer {
        text: found.text,
        status,
        notes,
    })
}
