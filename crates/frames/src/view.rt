//! What part of a run is drawn, and how.
ghost use Rattle.std.specs.Prelude.{◌<◌, ◌≡◌, ◌≤◌, All, IfOk, None, OnOk, [], length, string_bytes};
ghost use Rattle.ceiling_kernel.specs.declared.accept.TheConstants.{HORIZON};
ghost use Rattle.frames.specs.View.{end_of_run, is_chosen, is_empty, is_released, noted_rank, paper_width, shown_of, window_end};

use crate::rows::{TaskRow, name_in};
use ceiling_kernel::{HORIZON, Release};
use std::alloc::{AllocError, Global};
use task_sheet::Name;

/// What part of a run is drawn, and how.
#[derive(Drop)]
pub struct View {
    /// Where the picture begins, in microseconds.
    pub from: u64,
    /// Where it ends, if not with the run.
    pub to: Option<u64>,
    /// How wide it is, in pixels, from 960 to 16,000; where this isn't said, from 960 to 1,600.
    pub width: Option<u64>,
    /// The number of the A size of the paper that it is printed on, across, 3 or 4; none for a screen.
    pub paper: Option<u64>,
    /// What stands before the verdict; nothing where it is empty.
    pub title: String,
    /// The tasks that have rows; where none is named, those of which the list has a release.
    pub tasks: Vec<Name>,
}

impl View {
    /// The whole run.
    pub fn whole(alloc: Global) -> View
        ensures from { result.from ≡ 0 }
        ensures to { result.to ≡ None }
        ensures width { result.width ≡ None }
        ensures paper { result.paper ≡ None }
        ensures title { string_bytes result.title ≡ [] }
        ensures tasks { result.tasks.items ≡ [] }
    {
        View {
            from: 0,
            to: None,
            width: None,
            paper: None,
            title: String::new(alloc),
            tasks: Vec::new(alloc),
        }
    }

    /// Whether nothing of a run up to a time lies in the window.
    pub fn is_empty(&self, until: u64) -> bool
        ensures { result ≡ is_empty self.now until }
    {
        window_end(self, until) <= self.from
    }
}

/// How many pixels a picture is wide on paper of an A size where that isn't said, so that its least type is 6 points high.
pub fn paper_width(size: u64) -> u64
    ensures { result ≡ paper_width size }
{
    if size == 3 { 2_080 } else { 1_470 }
}

// Where the window of a view of a run up to a time ends.
pub(crate) fn window_end(view: &View, until: u64) -> u64
    ensures value { result ≡ window_end view.now until }
    ensures within { result ≤ end_of_run until }
{
    let end = until.min(HORIZON).max(1);
    view.to.unwrap_or(end).min(end)
}

// Whether a task has a release in a list.
fn is_released(releases: &[Release], name: Name) -> bool
    ensures { result ≡ is_released releases.now name }
{
    releases.iter().any(|release| release.name == name)
}

// Whether a task has a row.
pub(crate) fn is_chosen(names: &[Name], releases: &[Release], name: Name) -> bool
    ensures { result ≡ is_chosen names.now releases.now name }
{
    if names.is_empty() {
        is_released(releases, name)
    } else {
        names.contains(&name)
    }
}

// Notes a row that is shown.
fn note(shown: &mut Vec<usize>, rank: usize, is_shown: bool) -> Result<(), AllocError>
    ensures { OnOk result (shown.new.items ≡ noted_rank shown.old.items rank is_shown) }
{
    if is_shown {
        shown.push(rank)?;
    }
    Ok(())
}

/// The rows that are shown, by their ranks: those that are named, or where none is, those of which a list has a release.
pub fn shown_of(
    alloc: Global,
    names: &[Name],
    releases: &[Release],
    rows: &[TaskRow],
) -> Result<Vec<usize>, AllocError>
    ensures shown { IfOk result (λ shown. shown.items
        ≡ shown_of names.now releases.now rows.now) }
    ensures within { IfOk result (λ shown. All (λ rank. rank < length rows.now) shown.items) }
    ensures few { IfOk result (λ shown. length shown.items ≤ length rows.now) }
{
    let mut shown = Vec::new(alloc);
    for rank in 0..rows.len() {
        let is_shown = is_chosen(names, releases, name_in(rows, rank));
        note(&mut shown, rank, is_shown)?;
    }
    Ok(shown)
}
