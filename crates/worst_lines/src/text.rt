//! The lines of a worst case.
ghost use Rattle.std.specs.Prelude.{◌≡◌, ◌<◌, ◌++◌, length, codes, IfOk, OnOk, string_bytes};
ghost use Rattle.std.specs.Fmt.{decimal};
ghost use Rattle.task_sheet.specs.Sheet.{task_at};
ghost use Rattle.task_sheet.specs.Indexes.{indexes_of};
ghost use Rattle.task_sheet.specs.Orders.{IsOrder};
ghost use Rattle.assignment.specs.Placings.{IsPlacingOf, tasks_of_places};
ghost use Rattle.ceiling_kernel.specs.Releases.{release_at};
ghost use Rattle.ceiling_kernel.specs.Tick.{node_in};
ghost use Rattle.release_list.specs.Text.{list_lines};
ghost use Rattle.settings.specs.Settings.{settings_from};
ghost use Rattle.explain.specs.Conflict.{IsLeastConflict};
ghost use Rattle.judge.specs.Judgements.{order_judged};
ghost use Rattle.worst_lines.specs.Worst.{IsLookedAtIn, IsOrderFor};
ghost use Rattle.worst_lines.specs.WorstLines.{AreWorstLines, AreWorstLinesIn, EndsAt, IsSaidOf, case_lines, comes_words, comment, front_of, reached_lines, reason_words, response_words, shown_lines, worst_lines};

use crate::asked::chosen;
use crate::below::order_below;
use crate::deciding::deciding_order;
use crate::worst::{Worst, worst_of};
use assignment::{Place, Placing, tasks_of_places};
use ceiling_kernel::Release;
use ceilings::{LockTable, Tabled};
use explain::least_conflict;
use judge::{JudgedTask, judge_order, order_of};
use lines::push_name;
use miss::{NoRun, Reached, Run, Shown, WorstRun, case_of, end_of};
use release_list::list_text;
use settings::settings_text;
use std::alloc::{AllocError, Global};
use task_sheet::{Members, TaskSet};

// How long after its arrival a job is done, or `-` where it isn't.
fn push_response(text: &mut String, arrival: u64, finish: Option<u64>) -> Result<(), AllocError>
    ensures { OnOk result (string_bytes text.new ≡ string_bytes text.old
        ++ response_words arrival finish) }
{
    match finish {
        Some(finish) => {
            let response = finish.saturating_sub(arrival);
            write!(text, "{response}")
        }
        None => text.push_str("-"),
    }
}

// When the release at a place arrives.
fn arrival_of(releases: &[Release], place: usize) -> u64
    ensures { result ≡ (release_at releases.now place).time }
{
    match releases.get(place) {
        Some(release) => release.time,
        None => 0,
    }
}

// What the job of a worst case came to.
fn comes_text(alloc: Global, bound: u64, run: &WorstRun) -> Result<String, AllocError>
    ensures { IfOk result (λ text. string_bytes text ≡ comes_words bound run.now) }
{
    let mut text = String::new(alloc);
    push_response(&mut text, arrival_of(&run.releases, run.job), run.finish)?;
    write!(text, " of {bound}")?;
    Ok(text)
}

// Why it is no run in which the task misses its deadline.
fn reason_text(alloc: Global, set: &TaskSet, reason: NoRun) -> Result<String, AllocError>
    ensures { IfOk result (λ text. string_bytes text ≡ reason_words set.now reason) }
{
    let mut text = String::new(alloc);
    match reason {
        NoRun::MustOutrank { other } => {
            text.push_str("must-outrank ")?;
            push_name(&mut text, set, other)?;
        }
        NoRun::TooMany => text.push_str("too-many-releases")?,
        NoRun::Below { above } => {
            text.push_str("below ")?;
            push_name(&mut text, set, above)?;
        }
        NoRun::EndsInside => text.push_str("ends-inside-a-section")?,
        NoRun::WithinTick => text.push_str("within-a-tick")?,
        NoRun::WithinInterrupts => text.push_str("within-interrupts")?,
    }
    Ok(text)
}

// The line of comment.
fn comment_text(
    alloc: Global,
    set: &TaskSet,
    task: usize,
    words: &str,
) -> Result<String, AllocError>
    ensures { IfOk result (λ text. string_bytes text ≡ comment set.now task words.now) }
{
    let mut text = String::from_str(alloc, "# ")?;
    push_name(&mut text, set, task)?;
    text.push_str(" ")?;
    text.push_str(words)?;
    text.push_str("\n")?;
    Ok(text)
}

// A line of comment, and a list behind what stands in front of it.
fn commented_list(
    alloc: Global,
    set: &TaskSet,
    task: usize,
    words: &str,
    front: &str,
    until: u64,
    releases: &[Release],
) -> Result<String, AllocError>
    ensures { IfOk result (λ text. string_bytes text
        ≡ comment set.now task words.now ++ front.now ++ list_lines until releases.now) }
{
    let mut text = comment_text(alloc, set, task, words)?;
    text.push_str(front)?;
    let list = list_text(alloc, until, releases)?;
    text.push_str(list.as_str())?;
    Ok(text)
}

// The list of a worst case; of one that is too long that of no releases.
fn case_text(alloc: Global, case: &Option<Run>) -> Result<String, AllocError>
    ensures { IfOk result (λ text. string_bytes text ≡ case_lines case.now) }
{
    match case {
        Some(run) => list_text(alloc, run.until, &run.releases),
        None => list_text(alloc, 0, &[]),
    }
}

// A line of comment that says why the worst case of a task shows neither, and behind what stands in front of it the list.
fn reasoned_list(
    alloc: Global,
    set: &TaskSet,
    task: usize,
    words: &str,
    front: &str,
    listed: &str,
) -> Result<String, AllocError>
    ensures { IfOk result (λ text. string_bytes text
        ≡ comment set.now task words.now ++ front.now ++ listed.now) }
{
    let mut text = comment_text(alloc, set, task, words)?;
    text.push_str(front)?;
    text.push_str(listed)?;
    Ok(text)
}

// What is printed of how the worst case of a task went.
fn reached_text(
    alloc: Global,
    set: &TaskSet,
    front: &str,
    listed: &str,
    entry: JudgedTask,
    bound: u64,
    reached: &Reached,
) -> Result<String, AllocError>
    ensures { IfOk result (λ text. string_bytes text
        ≡ reached_lines set.now front.now listed.now entry bound reached.now) }
{
    match reached {
        Reached::Ran(run) => {
            let words = comes_text(alloc, bound, run)?;
            let words = words.as_str();
            commented_list(
                alloc,
                set,
                entry.task,
                words,
                front,
                run.until,
                &run.releases,
            )
        }
        Reached::TooMany => {
            reasoned_list(alloc, set, entry.task, "too-many-releases", front, listed)
        }
        Reached::Stopped => reasoned_list(alloc, set, entry.task, "below-a-miss", front, listed),
    }
}

// That a task misses its deadline.
fn misses_text(alloc: Global, set: &TaskSet, task: usize) -> Result<String, AllocError>
    requires { task < length set.now }
    ensures { IfOk result (λ text. string_bytes text
        ≡ codes "misses " ++ decimal (task_at set.now task).deadline) }
{
    let deadline = set.sheets()[task].deadline();
    format!(in alloc; "misses {deadline}")
}

// What is printed of a task that may not stand in its place.
fn shown_text(
    alloc: Global,
    set: &TaskSet,
    front: &str,
    listed: &str,
    entry: JudgedTask,
    end: u64,
    shown: &Shown,
) -> Result<String, AllocError>
    requires { entry.task < length set.now }
    ensures { IfOk result (λ text. string_bytes text
        ≡ shown_lines set.now front.now listed.now entry end shown.now) }
{
    match shown {
        Shown::Misses(miss) => {
            let words = misses_text(alloc, set, entry.task)?;
            let words = words.as_str();
            commented_list(alloc, set, entry.task, words, front, end, &miss.releases)
        }
        Shown::NoRun(reason) => {
            let words = reason_text(alloc, set, *reason)?;
            reasoned_list(alloc, set, entry.task, words.as_str(), front, listed)
        }
        Shown::Stands => Ok(String::new(alloc)),
    }
}

// What is printed of a worst case.
fn lines_text(
    alloc: Global,
    set: &TaskSet,
    front: &str,
    listed: &str,
    entry: JudgedTask,
    end: u64,
    worst: &Worst,
) -> Result<String, AllocError>
    requires { entry.task < length set.now }
    ensures { IfOk result (λ text. string_bytes text
        ≡ worst_lines set.now front.now listed.now entry end worst.now) }
{
    match worst {
        Worst::Comes { bound, reached } => {
            reached_text(alloc, set, front, listed, entry, *bound, reached)
        }
        Worst::Fails(shown) => shown_text(alloc, set, front, listed, entry, end, shown),
    }
}

// The places of an order that was judged, whose responses don't matter.
fn places_of(alloc: Global, judged: &[JudgedTask]) -> Result<Vec<Place>, AllocError>
    ensures { IfOk result (λ places. tasks_of_places places.items ≡ order_judged judged.now) }
{
    let mut places = Vec::with_capacity(alloc, judged.len())?;
    for entry in judged {
        places.push(Place {
            task: entry.task,
            response: 0,
        })?;
    }
    Ok(places)
}

/// The settings of an order that was judged. The error is out of memory.
pub fn settings_judged(
    alloc: Global,
    set: &TaskSet,
    judged: &[JudgedTask],
) -> Result<String, AllocError>
    requires { IsOrder set.now (order_judged judged.now) }
    ensures { IfOk result (λ text. string_bytes text ≡ settings_from set.now 1 (order_judged judged.now)) }
{
    let places = places_of(alloc, judged)?;
    settings_text(alloc, set, 1, &places)
}

// The settings of an order that was judged, where it isn't the set's best one.
fn front_text(
    alloc: Global,
    set: &TaskSet,
    placing: &Placing,
    judged: &[JudgedTask],
) -> Result<String, AllocError>
    requires { IsOrder set.now (order_judged judged.now) }
    ensures { IfOk result (λ text. string_bytes text ≡ front_of set.now placing.now (order_judged judged.now)) }
{
    match placing {
        Placing::Best(_) => Ok(String::new(alloc)),
        Placing::Stuck(_) => settings_judged(alloc, set, judged),
    }
}

// The order in which a refused set is looked at for a task, by its minimal conflict.
fn order_for(
    alloc: Global,
    set: &Tabled<'_>,
    conflict: Members,
    asked: Option<usize>,
) -> Result<Vec<usize>, AllocError>
    requires { IsLeastConflict set.now (indexes_of conflict) }
    ensures looked { IfOk result (λ order. IsOrderFor set.now (indexes_of conflict) asked order.items) }
    ensures order { IfOk result (λ order. IsOrder set.now order.items) }
{
    match asked {
        Some(task) => {
            if task < set.sheets().len() && conflict.has(task) {
                order_below(alloc, set, conflict, task)
            } else {
                deciding_order(alloc, set)
            }
        }
        None => deciding_order(alloc, set),
    }
}

// The order in which a set is looked at.
fn order_looked_at(
    alloc: Global,
    set: &Tabled<'_>,
    placing: &Placing,
    asked: Option<usize>,
) -> Result<Vec<usize>, AllocError>
    requires { IsPlacingOf set.now placing.now }
    ensures looked { IfOk result (λ order. IsLookedAtIn set.now placing.now asked order.items) }
    ensures order { IfOk result (λ order. IsOrder set.now order.items) }
{
    match placing {
        Placing::Best(places) => tasks_of_places(alloc, places),
        Placing::Stuck(greatest) => {
            let conflict = least_conflict(set, *greatest);
            order_for(alloc, set, conflict, asked)
        }
    }
}

// Up to which end a run in which a deadline is missed goes on; no other run is asked.
fn end_of_worst(
    alloc: Global,
    set: &TaskSet,
    order: &[usize],
    worst: &Worst,
) -> Result<u64, AllocError>
    requires { IsOrder set.now order.now }
    ensures { IfOk result (EndsAt (node_in set.now order.now) worst.now) }
{
    match worst {
        Worst::Fails(Shown::Misses(miss)) => end_of(alloc, set, order, miss),
        _ => Ok(0),
    }
}

// What is printed of a task of an order.
fn entry_text(
    alloc: Global,
    set: &TaskSet,
    front: &str,
    order: &[usize],
    entry: JudgedTask,
) -> Result<String, AllocError>
    requires order { IsOrder set.now order.now }
    requires task { entry.task < length set.now }
    ensures { IfOk result (λ text. IsSaidOf set.now front.now order.now entry (string_bytes text)) }
{
    let worst = worst_of(alloc, set, order, entry)?;
    let case = case_of(alloc, set, order, entry.task)?;
    let listed = case_text(alloc, &case)?;
    let end = end_of_worst(alloc, set, order, &worst)?;
    lines_text(alloc, set, front, listed.as_str(), entry, end, &worst)
}

/// What is printed of a task's worst case in an order that was judged, with this in front of the list: of the task that is asked
/// about; else, where all meet their deadlines, of the one of least slack, and else of the highest one that doesn't. The error
/// is out of memory.
pub fn worst_text_in(
    alloc: Global,
    set: &TaskSet,
    front: &str,
    judged: &[JudgedTask],
    asked: Option<usize>,
) -> Result<String, AllocError>
    requires { IsOrder set.now (order_judged judged.now) }
    ensures { IfOk result (λ text. AreWorstLinesIn set.now front.now judged.now asked (string_bytes text)) }
{
    let order = order_of(alloc, judged)?;
    match chosen(set, asked, judged) {
        Some(entry) => entry_text(alloc, set, front, &order, entry),
        None => list_text(alloc, 0, &[]),
    }
}

/// The same in the order in which a set is looked at: its best one; of a refused set, for a task of the minimal conflict that
/// below the others of it, else one that decides. Its settings stand in front of the list where it isn't the best one. The
/// error is out of memory.
pub fn worst_text(
    alloc: Global,
    set: &TaskSet,
    placing: &Placing,
    asked: Option<usize>,
) -> Result<String, AllocError>
    requires { IsPlacingOf set.now placing.now }
    ensures { IfOk result (λ text. AreWorstLines set.now placing.now asked (string_bytes text)) }
{
    let table = LockTable::new(alloc, set)?;
    let tabled = Tabled::of(set, &table);
    let order = order_looked_at(alloc, &tabled, placing, asked)?;
    let judged = judge_order(alloc, &tabled, &order)?;
    let front = front_text(alloc, set, placing, &judged)?;
    worst_text_in(alloc, set, front.as_str(), &judged, asked)
}
