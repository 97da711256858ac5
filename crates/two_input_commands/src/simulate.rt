//! `desk simulate`.
ghost use Rattle.std.specs.Prelude.{◌≡◌, ◌<◌, ◌++◌, length, Ok, [], IfOk, string_bytes, true, false};
ghost use Rattle.task_sheet.specs.Orders.{IsBest, IsOrder};
ghost use Rattle.assignment.specs.Placings.{tasks_of_places};
ghost use Rattle.ceiling_kernel.specs.Tick.{node_in};
ghost use Rattle.release_list.specs.Reading.{list_at};
ghost use Rattle.run_lines.specs.RunLines.{task_lines};
ghost use Rattle.run_lines.specs.TaskBounds.{tasks_of_bounds};
ghost use Rattle.two_input_commands.specs.Simulate.{IsInOrder, RunsOrder, RunsOrderCut, SimulatesIn, SimulatesBoth, SimulatesRead, SimulatesText, bounds_judged, reached_said, simulation_said, simulation_status};

use crate::chained::response_judged;
use crate::reached::{ReachedChains, misses_listed, reach_text};
use answering::{Answer, Both, CommandRefusal, Notes, Status, infeasible_text};
use assignment::{Place, Placing, place_all, tasks_of_places};
use ceiling_kernel::{Kernel, KernelFault, Release, Trace};
use ceilings::{LockTable, Tabled};
use cut_runs::{CutRun, run_cut};
use judge::{Front, JudgedTask, SettingRow, judge_order, order_of_rows, read_front};
use lines::TextPlace;
use printed_runs::trace_text;
use release_list::read_releases;
use run_lines::{TaskBound, bounds_of, tasks_text};
use std::alloc::{AllocError, Global};
use task_sheet::{Members, Name, TaskSet};

// A run of a set's tasks in an order of theirs, up to its list's end or to the first overrun.
#[derive(Drop)]
pub(crate) struct Run {
    // The lowest level first, each task with its response where it meets its deadline.
    pub(crate) bounds: Vec<TaskBound>,
    // Whether the release list gives the order; else it is the set's best one, in which nothing overruns.
    pub(crate) is_listed: bool,
    // The task whose job becomes ready at the end, while the one before it isn't finished, if there is one.
    pub(crate) overrun: Option<Name>,
    // In microseconds.
    pub(crate) until: u64,
    pub(crate) releases: Vec<Release>,
    // What happened.
    pub(crate) trace: Trace,
}

// What a simulation comes to.
#[derive(Drop)]
pub(crate) enum Simulated {
    // No order of the set passes, and nothing was run: the members of the greatest obstruction.
    Infeasible(Members),
    Ran(Run),
}

// The kernel of a set's tasks at the levels of an order.
fn kernel_of<'a>(alloc: Global, set: &'a TaskSet, order: &[usize]) -> Result<Kernel<'a>, AllocError>
    requires { IsOrder set.now order.now }
    ensures { IfOk result (λ kernel. kernel ≡ node_in set.now order.now) }
{
    match Kernel::new(alloc, set, order) {
        Ok(kernel) => Ok(kernel),
        Err(KernelFault::OutOfMemory) => Err(AllocError),
        Err(KernelFault::WrongOrder) => unreachable!(),
    }
}

// Runs the tasks at the levels of an order.
fn run_order(
    alloc: Global,
    set: &TaskSet,
    order: &[usize],
    until: u64,
    releases: &[Release],
) -> Result<Trace, CommandRefusal>
    requires { IsOrder set.now order.now }
    ensures { RunsOrder set.now order.now releases.now until result }
{
    let kernel = kernel_of(alloc, set, order)?;
    match kernel.run(alloc, releases, until) {
        Ok(trace) => Ok(trace),
        Err(fault) => Err(CommandRefusal::Run(fault)),
    }
}

// The same up to the first overrun.
fn run_order_cut(
    alloc: Global,
    set: &TaskSet,
    order: &[usize],
    until: u64,
    releases: Vec<Release>,
) -> Result<CutRun, CommandRefusal>
    requires { IsOrder set.now order.now }
    ensures { RunsOrderCut set.now order.now releases.items until result }
{
    let kernel = kernel_of(alloc, set, order)?;
    match run_cut(alloc, &kernel, releases, until) {
        Ok(cut) => Ok(cut),
        Err(fault) => Err(CommandRefusal::Run(fault)),
    }
}

// Runs the tasks at the levels of their best order.
fn run_best(
    alloc: Global,
    set: &TaskSet,
    places: &[Place],
    until: u64,
    releases: &[Release],
) -> Result<Trace, CommandRefusal>
    requires { IsBest set.now (tasks_of_places places.now) }
    ensures { RunsOrder set.now (tasks_of_places places.now) releases.now until result }
{
    let order = tasks_of_places(alloc, places)?;
    run_order(alloc, set, &order, until, releases)
}

// What a set and a release list come to in the set's best order.
fn simulate_best(
    alloc: Global,
    tasks: &TaskSet,
    until: u64,
    releases: Vec<Release>,
) -> Result<Simulated, CommandRefusal>
    ensures { SimulatesRead tasks.now (Ok []) (Ok (until, releases.items)) result }
{
    // The set is valid: the proof has it from its sheets.
    let _ = tasks.sheets();
    let table = LockTable::new(alloc, tasks)?;
    match place_all(alloc, &Tabled::of(tasks, &table))? {
        Placing::Stuck(members) => Ok(Simulated::Infeasible(members)),
        Placing::Best(places) => {
            let trace = run_best(alloc, tasks, &places, until, &releases)?;
            let bounds = bounds_of(alloc, &places)?;
            Ok(Simulated::Ran(Run {
                bounds,
                is_listed: false,
                overrun: None,
                until,
                releases,
                trace,
            }))
        }
    }
}

// The bounds of tasks in an order.
fn bounds_judged(alloc: Global, judged: &[JudgedTask]) -> Result<Vec<TaskBound>, AllocError>
    ensures { IfOk result (λ bounds. bounds.items ≡ bounds_judged judged.now) }
{
    let mut bounds = Vec::with_capacity(alloc, judged.len())?;
    for entry in judged {
        bounds.push(TaskBound {
            task: entry.task,
            bound: response_judged(entry.judgement),
        })?;
    }
    Ok(bounds)
}

// What a set and a release list come to in an order of the set, up to the first overrun.
fn simulate_in(
    alloc: Global,
    set: &Tabled<'_>,
    order: &[usize],
    until: u64,
    releases: Vec<Release>,
) -> Result<Simulated, CommandRefusal>
    requires { IsOrder set.now order.now }
    ensures { SimulatesIn set.now order.now until releases.items result }
{
    // The set is valid: the proof has it from its sheets.
    let _ = set.sheets();
    let judged = judge_order(alloc, set, order)?;
    let bounds = bounds_judged(alloc, &judged)?;
    let cut = run_order_cut(alloc, set.tasks(), order, until, releases)?;
    Ok(Simulated::Ran(Run {
        bounds,
        is_listed: true,
        overrun: cut.overrun,
        until: cut.until,
        releases: cut.releases,
        trace: cut.trace,
    }))
}

// What a set and a release list come to in the order that some settings give.
fn simulate_order(
    alloc: Global,
    tasks: &TaskSet,
    rows: &[SettingRow],
    until: u64,
    releases: Vec<Release>,
) -> Result<Simulated, CommandRefusal>
    requires { 0 < length rows.now }
    ensures { SimulatesRead tasks.now (Ok rows.now) (Ok (until, releases.items)) result }
{
    let table = LockTable::new(alloc, tasks)?;
    let tabled = Tabled::of(tasks, &table);
    let order = match order_of_rows(alloc, &tabled, false, rows) {
        Ok(order) => order,
        Err(fault) => return Err(CommandRefusal::Settings(fault)),
    };
    simulate_in(alloc, &tabled, &order, until, releases)
}

// What a set and a release list come to behind settings, of which there may be none.
fn simulate_rows(
    alloc: Global,
    tasks: &TaskSet,
    rows: &[SettingRow],
    until: u64,
    releases: Vec<Release>,
) -> Result<Simulated, CommandRefusal>
    ensures { SimulatesRead tasks.now (Ok rows.now) (Ok (until, releases.items)) result }
{
    if rows.is_empty() {
        simulate_best(alloc, tasks, until, releases)
    } else {
        simulate_order(alloc, tasks, rows, until, releases)
    }
}

// What a set and a release list come to whose settings were read.
fn simulate_front(
    alloc: Global,
    tasks: &TaskSet,
    front: &Front<'_>,
) -> Result<Simulated, CommandRefusal>
    ensures { SimulatesRead tasks.now (Ok front.now.rows.items)
        (list_at front.now.behind.line front.now.behind.rest.now) result }
{
    match read_releases(alloc, front.behind) {
        Ok((until, releases)) => simulate_rows(alloc, tasks, &front.rows, until, releases),
        Err(fault) => Err(CommandRefusal::Text(fault)),
    }
}

// What a set and a release list's text come to.
pub(crate) fn simulate_text(
    alloc: Global,
    tasks: &TaskSet,
    text: &[u8],
) -> Result<Simulated, CommandRefusal>
    ensures answer { SimulatesText tasks.now text.now result }
    ensures order { IfOk result (IsInOrder tasks.now) }
{
    match read_front(alloc, TextPlace::start(text)) {
        Ok(front) => simulate_front(alloc, tasks, &front),
        Err(fault) => Err(CommandRefusal::Settings(fault)),
    }
}

// The lines of what the tasks of a set came to in a run, and then what is told of its chains.
fn reached_text(
    alloc: Global,
    set: &TaskSet,
    run: &Run,
    told: &ReachedChains,
) -> Result<String, AllocError>
    requires { IsOrder set.now (tasks_of_bounds run.now.bounds.items) }
    ensures { IfOk result (λ text. string_bytes text
        ≡ task_lines set.now run.now.trace.jobs.items run.now.bounds.items ++ string_bytes told.now.text) }
{
    let mut text = tasks_text(alloc, set, &run.bounds, &run.trace.jobs)?;
    text.push_str(told.text.as_str())?;
    Ok(text)
}

// The lines of the trace of a run, or why there is none.
fn simulated_text(alloc: Global, set: &TaskSet, answer: &Simulated) -> Result<String, AllocError>
    ensures { IfOk result (λ text. string_bytes text ≡ simulation_said set.now answer.now) }
{
    match answer {
        Simulated::Ran(run) => trace_text(alloc, &run.trace),
        Simulated::Infeasible(members) => infeasible_text(alloc, set, *members),
    }
}

// The lines of what the tasks and the chains came to in a run, or why there is none.
fn tasks_reached(
    alloc: Global,
    set: &TaskSet,
    answer: &Simulated,
    told: &ReachedChains,
) -> Result<String, AllocError>
    requires { IsInOrder set.now answer.now }
    ensures { IfOk result (λ text. string_bytes text ≡ reached_said set.now told.now answer.now) }
{
    match answer {
        Simulated::Ran(run) => reached_text(alloc, set, run, told),
        Simulated::Infeasible(members) => infeasible_text(alloc, set, *members),
    }
}

/// The exit status of what came of a set.
pub(crate) fn simulation_status(answer: &Simulated) -> Status
    ensures { result ≡ simulation_status answer.now }
{
    match answer {
        Simulated::Ran(_) => Status::Done,
        Simulated::Infeasible(_) => Status::Infeasible,
    }
}

/// What a person is told of what came of a set, but of its chains.
pub(crate) fn run_notes(answer: &Simulated) -> Notes {
    let mut notes = Notes::none();
    if let Simulated::Ran(run) = answer {
        notes.is_run = true;
        notes.in_best_order = !run.is_listed;
        notes.overruns[0] = run.overrun;
    }
    notes
}

/// The same with them. The error is out of memory.
pub(crate) fn notes_run(
    alloc: Global,
    both: &Both,
    answer: &Simulated,
) -> Result<Notes, AllocError> {
    let mut notes = run_notes(answer);
    if let Simulated::Ran(run) = answer {
        notes.misses_here = misses_listed(alloc, both, run)?;
    }
    Ok(notes)
}

// The answer of `desk simulate` on a set and a release list, as the lines of a trace.
fn trace_both(alloc: Global, both: &Both) -> Result<Answer, CommandRefusal>
    ensures { SimulatesBoth false both.now result }
{
    let found = simulate_text(alloc, &both.tasks, &both.text)?;
    let text = simulated_text(alloc, &both.tasks, &found)?;
    let notes = notes_run(alloc, both, &found)?;
    Ok(Answer {
        text: text.into_bytes(),
        status: simulation_status(&found),
        notes,
    })
}

// The same by task.
fn reach_both(alloc: Global, both: &Both) -> Result<Answer, CommandRefusal>
    ensures { SimulatesBoth true both.now result }
{
    let (found, told) = reach_text(alloc, &both.chains, &both.tasks, &both.text)?;
    let text = tasks_reached(alloc, &both.tasks, &found, &told)?;
    let notes = notes_run(alloc, both, &found)?;
    Ok(Answer {
        text: text.into_bytes(),
        status: simulation_status(&found),
        notes,
    })
}

/// The answer of `desk simulate` on a set and a release list: the lines of a trace, or by task.
pub fn simulate_both(alloc: Global, by_task: bool, both: &Both) -> Result<Answer, CommandRefusal>
    ensures { SimulatesBoth by_task both.now result }
{
    if by_task {
        reach_both(alloc, both)
    } else {
        trace_both(alloc, both)
    }
}
