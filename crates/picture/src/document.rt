//! The whole picture.
ghost use Rattle.std.specs.Prelude.{◌≡◌, ◌≤◌, ◌++◌, IfOk, OnOk, length, string_bytes};
ghost use Rattle.task_sheet.specs.declared.set.TheConstants.{TASK_LIMIT};
ghost use Rattle.drawn_jobs.specs.Sections.{AreUncounted};
ghost use Rattle.picture.specs.Document.{body_text, document, framed, run_text, signed};

use crate::ground::put_ground;
use crate::legend::legend_of;
use crate::why::put_waits;
use ceiling_kernel::{Release, Slice, Trace};
use drawn_jobs::{held_locks, put_all_marks, put_jobs, put_lanes, put_misses, put_slices};
use frames::{Chart, TaskRow, View, frame_of, locks_of, shown_of, starts_rise};
use std::alloc::{AllocError, Global};

// What happens in the rows of a chart. The ticks that each job has executed are counted; none were before.
pub(crate) fn put_run(
    chart: &Chart<'_>,
    executed: &mut [u64],
    text: &mut String,
) -> Result<(), AllocError>
    requires { AreUncounted executed.old (length chart.now.jobs.now) }
    ensures { OnOk result (string_bytes text.new ≡ string_bytes text.old
        ++ run_text chart.now.frame chart.now.locks.now chart.now.rows.now chart.now.shown.now
        chart.now.releases.now chart.now.jobs.now chart.now.slices.now) }
{
    put_jobs(chart, text)?;
    put_all_marks(chart, text)?;
    put_misses(chart, text)?;
    put_waits(chart, text)?;
    put_slices(chart, executed, text)
}

// What is drawn of a chart. Memory is taken for it, for two counts of each job, and for two names of each lock.
fn body_of(alloc: Global, chart: &Chart<'_>) -> Result<String, AllocError>
    ensures { IfOk result (λ text. string_bytes text
        ≡ body_text chart.now.frame chart.now.title.now chart.now.locks.now chart.now.rows.now
        chart.now.shown.now chart.now.until chart.now.releases.now chart.now.jobs.now
        chart.now.slices.now) }
{
    let held = held_locks(alloc, chart)?;
    let mut executed = vec![in alloc; 0; chart.jobs.len()]?;
    let mut text = String::new(alloc);
    put_ground(chart, &held, &mut text)?;
    put_lanes(chart, &mut text)?;
    put_run(chart, &mut executed, &mut text)?;
    Ok(text)
}

// A document of what is drawn, with what the signs in it mean.
pub(crate) fn signed(alloc: Global, text: String) -> Result<String, AllocError>
    ensures { IfOk result (λ document. string_bytes document ≡ signed (string_bytes text)) }
{
    let mut text = text;
    let legend = legend_of(alloc, text.as_str())?;
    text.push_str(legend.as_str())?;
    Ok(text)
}

// The document of a chart.
fn draw_chart(alloc: Global, chart: &Chart<'_>) -> Result<String, AllocError>
    ensures { IfOk result (λ text. string_bytes text
        ≡ framed chart.now.frame chart.now.title.now chart.now.locks.now chart.now.rows.now
        chart.now.shown.now chart.now.until chart.now.releases.now chart.now.jobs.now
        chart.now.slices.now) }
{
    signed(alloc, body_of(alloc, chart)?)
}

/// Returns the picture of a run of these rows, the highest level first, whose trace ends at `until`, in microseconds, as a
/// view has it: an SVG 1.1 document. A window in which nothing lies is one of a microsecond. Memory is taken for the
/// document, and for two counts of each job, four names of each lock and one number of each row.
pub fn draw(
    alloc: Global,
    rows: &[TaskRow],
    view: &View,
    until: u64,
    releases: &[Release],
    trace: &Trace,
) -> Result<String, AllocError>
    requires { length rows.now ≤ TASK_LIMIT }
    ensures { IfOk result (λ text. string_bytes text ≡ document rows.now view.now until releases.now
        trace.now) }
{
    let shown = shown_of(alloc, &view.tasks, releases, rows)?;
    let locks = locks_of(alloc, rows)?;
    let slices: &[Slice] = &trace.slices;
    let chart = Chart {
        frame: frame_of(rows, view, until),
        title: view.title.as_str(),
        rows,
        shown: &shown,
        until,
        releases,
        jobs: &trace.jobs,
        slices,
        rising: starts_rise(slices),
        locks: &locks,
    };
    draw_chart(alloc, &chart)
}
