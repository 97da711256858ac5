//! The locks that a picture shows as held.
ghost use Rattle.std.specs.List.{filter};
ghost use Rattle.std.specs.Prelude.{◌≡◌, ◌≤◌, IfOk, OnOk, [], length};
ghost use Rattle.frames.specs.declared.locks.TheConstants.{LOCKS_LIMIT};
ghost use Rattle.std.specs.Prelude.{slice_get};
ghost use Rattle.drawn_jobs.specs.Held.{held_before, held_beside, held_by, held_inside, held_locks, held_with, holds_in, is_held};
ghost use Rattle.drawn_jobs.specs.Sections.{AreUncounted};

use crate::bars::count_slice;
use crate::ticks::{dark_from, dark_to};
use ceiling_kernel::Slice;
use frames::{Chart, Frame, Toned, note_names, sees};
use std::alloc::{AllocError, Global};
use task_sheet::{Name, Section};

// Whether a job executes in a slice inside a section, in the window.
fn holds_in(frame: Frame, executed: u64, slice: Slice, section: &Section) -> bool
    ensures { result ≡ holds_in frame executed slice section.now }
{
    let from = dark_from(section, executed);
    let to = dark_to(section, executed, slice);
    from < to && sees(frame, slice.start + from, slice.start + to)
}

// Notes the locks of a section, where it does.
fn note_section(
    frame: Frame,
    executed: u64,
    slice: Slice,
    section: &Section,
    held: &mut Vec<Name>,
) -> Result<(), AllocError>
    requires { length held.old.items ≤ LOCKS_LIMIT }
    ensures noted { OnOk result (held.new.items ≡ held_with frame executed slice held.old.items
        section.now) }
    ensures few { OnOk result (length held.new.items ≤ LOCKS_LIMIT) }
{
    if holds_in(frame, executed, slice, section) {
        note_names(held, &section.locks)?;
    }
    Ok(())
}

// Notes those of some sections.
fn note_sections(
    frame: Frame,
    executed: u64,
    slice: Slice,
    sections: &[Section],
    held: &mut Vec<Name>,
) -> Result<(), AllocError>
    requires { length held.old.items ≤ LOCKS_LIMIT }
    ensures noted { OnOk result (held.new.items ≡ held_inside frame executed slice held.old.items
        sections.now) }
    ensures few { OnOk result (length held.new.items ≤ LOCKS_LIMIT) }
{
    for section in sections {
        note_section(frame, executed, slice, section, held)?;
    }
    Ok(())
}

// Notes those that the job of a slice holds in it, where the row of its task is shown.
fn note_held(
    chart: &Chart<'_>,
    executed: u64,
    slice: Slice,
    held: &mut Vec<Name>,
) -> Result<(), AllocError>
    requires { length held.old.items ≤ LOCKS_LIMIT }
    ensures noted { OnOk result (held.new.items ≡ held_by chart.now.frame chart.now.rows.now
        chart.now.shown.now executed slice held.old.items (slice_get chart.now.jobs.now slice.job)) }
    ensures few { OnOk result (length held.new.items ≤ LOCKS_LIMIT) }
{
    let Some(job) = chart.job_of(slice) else {
        return Ok(());
    };
    let Some(spot) = chart.spot_of(job.name) else {
        return Ok(());
    };
    let row = &chart.rows[spot.rank];
    note_sections(chart.frame, executed, slice, row.sheet.sections(), held)
}

// Notes those of each slice. The ticks that each job has executed are counted; none were before, and no lock was noted.
fn note_slices(
    chart: &Chart<'_>,
    executed: &mut [u64],
    held: &mut Vec<Name>,
) -> Result<(), AllocError>
    requires counts { AreUncounted executed.old (length chart.now.jobs.now) }
    requires none { held.old.items ≡ [] }
    ensures { OnOk result (held.new.items ≡ held_before chart.now.frame chart.now.rows.now
        chart.now.shown.now chart.now.jobs.now chart.now.slices.now
        (length chart.now.slices.now)) }
{
    for slice in chart.slices {
        let before = count_slice(executed, *slice);
        note_held(chart, before, *slice, held)?;
    }
    Ok(())
}

// The locks that are held in the window. Memory is taken for them, and for one count of each job.
fn held_names(alloc: Global, chart: &Chart<'_>) -> Result<Vec<Name>, AllocError>
    ensures { IfOk result (λ held. held.items ≡ held_before chart.now.frame chart.now.rows.now
        chart.now.shown.now chart.now.jobs.now chart.now.slices.now
        (length chart.now.slices.now)) }
{
    let mut executed = vec![in alloc; 0; chart.jobs.len()]?;
    let mut held = Vec::new(alloc);
    note_slices(chart, &mut executed, &mut held)?;
    Ok(held)
}

// Whether a lock is one of some names.
fn is_held(held: &[Name], lock: Toned) -> bool
    ensures { result ≡ is_held held.now lock }
{
    held.contains(&lock.name)
}

// Of some locks those that are among names.
fn locks_held(alloc: Global, locks: &[Toned], held: &[Name]) -> Result<Vec<Toned>, AllocError>
    ensures { IfOk result (λ kept. kept.items ≡ filter (is_held held.now) locks.now) }
{
    let mut kept = Vec::new(alloc);
    for lock in locks {
        if is_held(held, *lock) {
            kept.push(*lock)?;
        }
    }
    Ok(kept)
}

/// The locks that are held in the window by tasks whose rows are shown. Memory is taken for them and their names, and for
/// one count of each job.
pub fn held_locks(alloc: Global, chart: &Chart<'_>) -> Result<Vec<Toned>, AllocError>
    ensures held { IfOk result (λ held. held.items ≡ held_locks chart.now.frame chart.now.locks.now
        chart.now.rows.now chart.now.shown.now chart.now.jobs.now chart.now.slices.now) }
    ensures few { IfOk result (λ held. length held.items ≤ LOCKS_LIMIT) }
{
    let names = held_names(alloc, chart)?;
    locks_held(alloc, chart.locks, &names)
}

/// The locks of two charts that are held in the window of either.
pub fn held_beside(
    alloc: Global,
    old: &Chart<'_>,
    new: &Chart<'_>,
) -> Result<Vec<Toned>, AllocError>
    ensures held { IfOk result (λ held. held.items ≡ held_beside new.now.locks.now
        (held_before old.now.frame old.now.rows.now old.now.shown.now old.now.jobs.now
        old.now.slices.now (length old.now.slices.now)) (held_before new.now.frame new.now.rows.now
        new.now.shown.now new.now.jobs.now new.now.slices.now (length new.now.slices.now))) }
    ensures few { IfOk result (λ held. length held.items ≤ LOCKS_LIMIT) }
{
    let mut names = held_names(alloc, old)?;
    let others = held_names(alloc, new)?;
    names.extend_from_slice(&others)?;
    locks_held(alloc, new.locks, &names)
}
