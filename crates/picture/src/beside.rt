//! Two runs of one release list in one picture.
ghost use Rattle.std.specs.Prelude.{◌≡◌, ◌≤◌, ◌++◌, IfOk, OnOk, length, string_bytes};
ghost use Rattle.task_sheet.specs.declared.set.TheConstants.{TASK_LIMIT};
ghost use Rattle.frames.specs.declared.locks.TheConstants.{LOCKS_LIMIT};
ghost use Rattle.frames.specs.declared.places.TheConstants.{PLACES_LIMIT};
ghost use Rattle.picture.specs.Beside.{body_beside, document_beside, new_places, old_places, run_of, scene_at, side_text};
ghost use Rattle.picture.specs.Document.{signed};
ghost use Rattle.picture.specs.Waits.{scene_of};

use crate::document::{put_run, signed};
use crate::sides::{known_to, put_ground_beside, put_lanes_beside};
use ceiling_kernel::{Release, Slice, Trace};
use drawn_jobs::{held_beside, put_changes};
use frames::{
    Chart, Frame, TaskRow, Toned, View, below_of, frame_beside, locks_beside, lower_places,
    shown_of, starts_rise, upper_places,
};
use std::alloc::{AllocError, Global};

/// A run: its rows, the highest level first, when it ends, in microseconds, the list's releases, and what happened in it.
#[derive(Drop)]
pub struct DrawnRun<'a> {
    pub rows: &'a [TaskRow],
    pub until: u64,
    pub releases: &'a [Release],
    pub trace: &'a Trace,
}

// The places of the rows of two runs.
#[derive(Drop)]
struct Sides {
    upper: Vec<usize>,
    lower: Vec<usize>,
    ghost few_upper: { length upper.items ≤ PLACES_LIMIT },
    ghost few_lower: { length lower.items ≤ PLACES_LIMIT },
}

// Where the rows of two runs stand.
fn sides_of(
    alloc: Global,
    old: &DrawnRun<'_>,
    new: &DrawnRun<'_>,
    view: &View,
) -> Result<Sides, AllocError>
    requires old { length old.now.rows.now ≤ TASK_LIMIT }
    requires new { length new.now.rows.now ≤ TASK_LIMIT }
    ensures upper { IfOk result (λ s. s.upper.items ≡ old_places view.now (run_of old.now)) }
    ensures lower { IfOk result (λ s. s.lower.items
        ≡ new_places view.now (run_of old.now) (run_of new.now)) }
{
    let before = shown_of(alloc, &view.tasks, old.releases, old.rows)?;
    let after = shown_of(alloc, &view.tasks, new.releases, new.rows)?;
    let below = below_of(alloc, old.rows, &before, new.rows, &after)?;
    Ok(Sides {
        upper: upper_places(alloc, &before)?,
        lower: lower_places(alloc, &below)?,
    })
}

// What happens in the rows of a chart. Memory is taken for a count of each job.
fn put_side(alloc: Global, chart: &Chart<'_>, text: &mut String) -> Result<(), AllocError>
    ensures { OnOk result (string_bytes text.new ≡ string_bytes text.old
        ++ side_text (scene_of chart.now)) }
{
    let mut executed = vec![in alloc; 0; chart.jobs.len()]?;
    put_run(chart, &mut executed, text)
}

// What is drawn of two charts. Memory is taken for it, for two counts of each job, and for two names of each lock.
fn body_beside(alloc: Global, old: &Chart<'_>, new: &Chart<'_>) -> Result<String, AllocError>
    ensures { IfOk result (λ text. string_bytes text ≡ body_beside (scene_of old.now) (scene_of new.now)
        new.now.title.now old.now.until new.now.until) }
{
    let held = held_beside(alloc, old, new)?;
    let mut text = String::new(alloc);
    put_ground_beside(old, new, &held, &mut text)?;
    put_lanes_beside(old, new, &mut text)?;
    put_side(alloc, old, &mut text)?;
    put_side(alloc, new, &mut text)?;
    put_changes(new, known_to(old, new), old.jobs, &mut text)?;
    Ok(text)
}

// A run in a frame, with locks, at places.
fn chart_of<'a>(
    run: &'a DrawnRun<'a>,
    frame: Frame,
    title: &'a str,
    shown: &'a [usize],
    locks: &'a [Toned],
) -> Chart<'a>
    requires few { length run.now.rows.now ≤ TASK_LIMIT }
    requires few_shown { length shown.now ≤ PLACES_LIMIT }
    requires few_locks { length locks.now ≤ LOCKS_LIMIT }
    ensures scene { scene_of result ≡ scene_at frame locks.now (run_of run.now) shown.now }
    ensures title { result.title.now ≡ title.now }
    ensures until { result.until ≡ run.now.until }
{
    let slices: &'a [Slice] = &run.trace.slices;
    Chart {
        frame,
        title,
        rows: run.rows,
        shown,
        until: run.until,
        releases: run.releases,
        jobs: &run.trace.jobs,
        slices,
        rising: starts_rise(slices),
        locks,
    }
}

/// Returns one picture of two runs of a release list, before a change and after it, as a view has them: an SVG 1.1 document.
/// The row of each task as it is stands right below the row of the same task as it was, and a job whose response changed has
/// a sign. Memory is taken for the document, and for two counts of each job, five names of each lock and seven numbers of
/// each row.
pub fn draw_beside(
    alloc: Global,
    old: &DrawnRun<'_>,
    new: &DrawnRun<'_>,
    view: &View,
) -> Result<String, AllocError>
    requires old { length old.now.rows.now ≤ TASK_LIMIT }
    requires new { length new.now.rows.now ≤ TASK_LIMIT }
    ensures { IfOk result (λ text. string_bytes text ≡ document_beside (run_of old.now) (run_of new.now)
        view.now) }
{
    let until = old.until.max(new.until);
    let sides = sides_of(alloc, old, new, view)?;
    let locks = locks_beside(alloc, old.rows, new.rows)?;
    let before = frame_beside(old.rows.len(), old.rows, new.rows, view, old.until, until);
    let after = frame_beside(new.rows.len(), old.rows, new.rows, view, new.until, until);
    let upper = chart_of(old, before, view.title.as_str(), &sides.upper, &locks);
    let lower = chart_of(new, after, view.title.as_str(), &sides.lower, &locks);
    signed(alloc, body_beside(alloc, &upper, &lower)?)
}
