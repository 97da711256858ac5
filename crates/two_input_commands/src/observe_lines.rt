//! `desk observe`.
ghost use Rattle.std.specs.Prelude.{◌≡◌, ◌<◌, ◌++◌, length, Ok, Err, [], IfOk, MatchResult, string_bytes};
ghost use Rattle.observed_lines.specs.ObservedLines.{observed_lines};
ghost use Rattle.trace_text.specs.TraceLines.{rows_at};
ghost use Rattle.two_input_commands.specs.Observe.{AreSilent, AreWatched, AreWatchedBy, AreWatchedIn, IsObservationOf, ObservesBoth, ObservesRead, ObservesText, ReadsBehind, ReadsTrace, WatchesText, leeway_of, observation_said, observation_status, observed_status};

use crate::judge_lines::judged_status;
use answering::{Answer, Both, CommandRefusal, Notes, Status, infeasible_text, joined};
use ceilings::{LockTable, Tabled};
use chain_lines::all_met;
use chain_tables::Chain;
use chain_traces::{ChainsSeen, see_chains};
use chains::Level;
use command_line::Options;
use judge::{JudgedNode, SettingRow, judge_rows, judged_text, places_of, read_front};
use lines::TextPlace;
use observed::{Observed, Promise, Seen, Sight, observe_at, observe_places};
use observed_lines::{Leeway, is_clean, observed_text};
use std::alloc::{AllocError, Global};
use task_sheet::{Members, Name, TaskSet};
use trace_text::{TraceLines, read_trace_at};

// What a trace shows of a set's tasks.
#[derive(Drop)]
pub(crate) enum Observation {
    // The promises of an order in which all tasks meet their deadlines, and what is seen of each job: of the one that is given
    // in front of the trace, or else of the set's best one.
    Seen { is_given: bool, observed: Observed },
    // No order passes, and none is given, so that nothing is promised: the members of the greatest obstruction.
    Infeasible(Members),
    // In the order that is given some task misses its deadline, so that nothing is promised: what becomes of each.
    Missed(JudgedNode),
}

/// What is let pass of a trace, as the words choose.
pub fn leeway_of(options: Options<'_>) -> Leeway
    ensures { result ≡ leeway_of options.entry }
{
    Leeway {
        tolerance: options.tolerance.unwrap_or(0) as u64,
        jobless: options.jobless,
    }
}

// What a trace shows of a set in the order that some settings give.
fn observe_order(
    alloc: Global,
    tasks: &TaskSet,
    rows: &[SettingRow],
    at: TextPlace<'_>,
) -> Result<Observation, CommandRefusal>
    requires { 0 < length rows.now }
    ensures answer { ObservesRead tasks.now (Ok rows.now) (rows_at at.entry.line at.entry.rest.now) result }
    ensures within { IfOk result IsObservationOf }
{
    let trace = match read_trace_at(alloc, at) {
        Ok(trace) => trace,
        Err(fault) => return Err(CommandRefusal::Trace(fault)),
    };
    let table = LockTable::new(alloc, tasks)?;
    let tabled = Tabled::of(tasks, &table);
    let node = match judge_rows(alloc, &tabled, false, rows) {
        Ok(node) => node,
        Err(fault) => return Err(CommandRefusal::Settings(fault)),
    };
    let Some(places) = places_of(alloc, &node.judged)? else {
        return Ok(Observation::Missed(node));
    };
    match observe_places(alloc, &tabled, &node.numbers, &places, &trace) {
        Ok(observed) => Ok(Observation::Seen {
            is_given: true,
            observed,
        }),
        Err(fault) => Err(CommandRefusal::Trace(fault)),
    }
}

// What a trace shows of a set in its best order.
fn observe_best(
    alloc: Global,
    tasks: &TaskSet,
    at: TextPlace<'_>,
) -> Result<Observation, CommandRefusal>
    ensures answer { ObservesRead tasks.now (Ok []) (rows_at at.entry.line at.entry.rest.now) result }
    ensures within { IfOk result IsObservationOf }
{
    let sight = match observe_at(alloc, tasks, at) {
        Ok(sight) => sight,
        Err(fault) => return Err(CommandRefusal::Trace(fault)),
    };
    match sight {
        Sight::Infeasible(members) => Ok(Observation::Infeasible(members)),
        Sight::Seen(observed) => Ok(Observation::Seen {
            is_given: false,
            observed,
        }),
    }
}

// What a trace shows of a set behind settings, of which there may be none.
fn observe_behind(
    alloc: Global,
    tasks: &TaskSet,
    rows: &[SettingRow],
    at: TextPlace<'_>,
) -> Result<Observation, CommandRefusal>
    ensures answer { ObservesRead tasks.now (Ok rows.now) (rows_at at.entry.line at.entry.rest.now) result }
    ensures within { IfOk result IsObservationOf }
{
    if rows.is_empty() {
        observe_best(alloc, tasks, at)
    } else {
        observe_order(alloc, tasks, rows, at)
    }
}

// What the text of a trace shows of a set.
fn observe_text(alloc: Global, tasks: &TaskSet, text: &[u8]) -> Result<Observation, CommandRefusal>
    ensures answer { ObservesText tasks.now text.now result }
    ensures within { IfOk result IsObservationOf }
{
    match read_front(alloc, TextPlace::start(text)) {
        Ok(front) => observe_behind(alloc, tasks, &front.rows, front.behind),
        Err(fault) => Err(CommandRefusal::Settings(fault)),
    }
}

// Where there is nothing to say of chains.
fn silent(alloc: Global) -> ChainsSeen
    ensures { AreSilent result }
{
    ChainsSeen {
        text: String::new(alloc),
        are_kept: true,
    }
}

// The trace of a text behind these settings.
fn read_behind(
    alloc: Global,
    _rows: &[SettingRow],
    at: TextPlace<'_>,
) -> Result<TraceLines, CommandRefusal>
    ensures { ReadsBehind (Ok _rows.now) (rows_at at.entry.line at.entry.rest.now) result }
{
    match read_trace_at(alloc, at) {
        Ok(trace) => Ok(trace),
        Err(fault) => Err(CommandRefusal::Trace(fault)),
    }
}

// The trace of a text, behind settings, of which there may be none.
fn trace_of(alloc: Global, text: &[u8]) -> Result<TraceLines, CommandRefusal>
    ensures { ReadsTrace text.now result }
{
    match read_front(alloc, TextPlace::start(text)) {
        Ok(front) => read_behind(alloc, &front.rows, front.behind),
        Err(fault) => Err(CommandRefusal::Settings(fault)),
    }
}

// What is printed of chains in the trace of a text, beside what that shows of the set's jobs.
#[tactic(auto, using(crate::proofs::Observations::unread))]
fn watched_in(
    alloc: Global,
    leeway: Leeway,
    chains: &[Chain],
    tasks: &TaskSet,
    text: &[u8],
    shown: &Observed,
) -> Result<ChainsSeen, CommandRefusal>
    ensures { MatchResult result (λ told. AreWatchedIn leeway chains.now tasks.now text.now shown.now told)
        (λ r. ObservesText tasks.now text.now (Err r)) }
{
    let trace = trace_of(alloc, text)?;
    let told = see_chains(alloc, leeway.tolerance, tasks, chains, shown, &trace)?;
    Ok(told)
}

// What is printed of chains beside what the trace of a text shows, where something is promised.
fn watched_by(
    alloc: Global,
    leeway: Leeway,
    chains: &[Chain],
    tasks: &TaskSet,
    text: &[u8],
    shown: &Observation,
) -> Result<ChainsSeen, CommandRefusal>
    ensures { MatchResult result (λ told. AreWatchedBy leeway chains.now tasks.now text.now shown.now told)
        (λ r. ObservesText tasks.now text.now (Err r)) }
{
    match shown {
        Observation::Seen { observed, .. } => {
            watched_in(alloc, leeway, chains, tasks, text, observed)
        }
        Observation::Infeasible(_) | Observation::Missed(_) => Ok(silent(alloc)),
    }
}

// The same where there are chains.
fn watched(
    alloc: Global,
    leeway: Leeway,
    chains: &[Chain],
    tasks: &TaskSet,
    text: &[u8],
    shown: &Observation,
) -> Result<ChainsSeen, CommandRefusal>
    ensures { MatchResult result (λ told. AreWatched leeway chains.now tasks.now text.now shown.now told)
        (λ r. ObservesText tasks.now text.now (Err r)) }
{
    if chains.is_empty() {
        return Ok(silent(alloc));
    }
    watched_by(alloc, leeway, chains, tasks, text, shown)
}

// What the text of a trace shows of a set, and what is printed of these chains.
fn watch_text(
    alloc: Global,
    leeway: Leeway,
    chains: &[Chain],
    tasks: &TaskSet,
    text: &[u8],
) -> Result<(Observation, ChainsSeen), CommandRefusal>
    ensures answer { WatchesText leeway chains.now tasks.now text.now result }
    ensures within { IfOk result (λ found. IsObservationOf found.0) }
{
    let shown = observe_text(alloc, tasks, text)?;
    let told = watched(alloc, leeway, chains, tasks, text, &shown)?;
    Ok((shown, told))
}

// The exit status of what a trace shows of jobs and of chains.
fn observed_status(leeway: Leeway, shown: &Observed, told: &ChainsSeen) -> Status
    ensures { result ≡ observed_status leeway shown.now told.now }
{
    if is_clean(leeway, &shown.promises, &shown.seen) && told.are_kept {
        Status::Done
    } else {
        Status::Infeasible
    }
}

// The exit status of what a trace shows.
fn observation_status(leeway: Leeway, observation: &Observation, told: &ChainsSeen) -> Status
    ensures { result ≡ observation_status leeway observation.now told.now }
{
    match observation {
        Observation::Seen { observed, .. } => observed_status(leeway, observed, told),
        Observation::Infeasible(_members) => Status::Infeasible,
        Observation::Missed(node) => judged_status(&node.judged),
    }
}

// The lines of what a trace shows of jobs, and of chains.
fn seen_text(
    alloc: Global,
    leeway: Leeway,
    shown: &Observed,
    told: &ChainsSeen,
) -> Result<Vec<u8>, AllocError>
    ensures { IfOk result (λ text. text.items
        ≡ observed_lines leeway shown.now.promises.items shown.now.seen.items ++ string_bytes told.now.text) }
{
    let lines = observed_text(alloc, leeway, &shown.promises, &shown.seen)?;
    joined(alloc, lines.as_bytes(), told.text.as_bytes())
}

// What is printed of what a trace shows of a set and of its chains.
fn observation_said(
    alloc: Global,
    leeway: Leeway,
    tasks: &TaskSet,
    shown: &Observation,
    told: &ChainsSeen,
) -> Result<Vec<u8>, AllocError>
    requires { IsObservationOf shown.now }
    ensures { IfOk result (λ text. text.items ≡ observation_said leeway tasks.now shown.now told.now) }
{
    let text = match shown {
        Observation::Seen { observed, .. } => return seen_text(alloc, leeway, observed, told),
        Observation::Infeasible(members) => infeasible_text(alloc, tasks, *members)?,
        Observation::Missed(node) => {
            judged_text(alloc, false, tasks, &node.judged, &node.numbers)?
        }
    };
    Ok(text.into_bytes())
}

// Whether a task of a name has one of the jobs.
fn has_job(jobs: &[Seen], name: Name) -> bool {
    jobs.iter().any(|job| job.promise.name == name)
}

// The tasks of a set of which a trace shows jobs.
fn tasks_seen(tasks: &TaskSet, jobs: &[Seen]) -> Members {
    let mut seen = Members::empty();
    for (i, sheet) in tasks.sheets().iter().enumerate() {
        if has_job(jobs, sheet.name()) {
            seen = seen.with(i);
        }
    }
    seen
}

// The levels of an order with these promises.
fn levels_promised(alloc: Global, promises: &[Promise]) -> Result<Vec<Level>, AllocError> {
    let mut levels = Vec::with_capacity(alloc, promises.len())?;
    for promise in promises {
        levels.push(Level {
            task: promise.task,
            response: Some(promise.bound),
        })?;
    }
    Ok(levels)
}

// Whether a chain misses its limit in an order with these promises.
fn misses_promised(alloc: Global, both: &Both, promises: &[Promise]) -> Result<bool, AllocError> {
    if both.chains.is_empty() {
        return Ok(false);
    }
    let levels = levels_promised(alloc, promises)?;
    let are_met = all_met(alloc, &both.tasks, &levels, &both.chains)?;
    Ok(!are_met)
}

// What a person is told of what a trace shows. The error is out of memory.
fn notes_of(alloc: Global, both: &Both, shown: &Observation) -> Result<Notes, AllocError> {
    let mut notes = Notes::none();
    if let Observation::Seen { is_given, observed } = shown {
        notes.in_best_order = !*is_given;
        notes.seen = Some(tasks_seen(&both.tasks, &observed.seen));
        notes.misses_here = *is_given && misses_promised(alloc, both, &observed.promises)?;
    }
    Ok(notes)
}

/// The answer of `desk observe` on a set and a trace.
pub fn observe_both(alloc: Global, leeway: Leeway, both: &Both) -> Result<Answer, CommandRefusal>
    ensures { ObservesBoth leeway both.now result }
{
    let (shown, told) = watch_text(alloc, leeway, &both.chains, &both.tasks, &both.text)?;
    let text = observation_said(alloc, leeway, &both.tasks, &shown, &told)?;
    let notes = notes_of(alloc, both, &shown)?;
    Ok(Answer {
        text,
        status: observation_status(leeway, &shown, &told),
        notes,
    })
}
