//! A run in a frame.
ghost use Rattle.std.specs.Prelude.{◌<◌, ◌≡◌, ◌≤◌, IfSome, length};
ghost use Rattle.task_sheet.specs.declared.set.TheConstants.{TASK_LIMIT};
ghost use Rattle.frames.specs.declared.places.TheConstants.{PLACES_LIMIT};
ghost use Rattle.frames.specs.PictureRows.{row_at, spot_in, spot_named};
ghost use Rattle.frames.specs.Slices.{rises};
ghost use Rattle.frames.specs.declared.locks.TheConstants.{LOCKS_LIMIT};

use crate::frame::Frame;
use crate::rows::{Spot, TaskRow, job_at, spot_named};
use crate::tones::Toned;
use ceiling_kernel::{JobRecord, Release, Slice};
use task_sheet::Name;

/// What is drawn: how time lies, the title, the rows, the highest level first, and which of them are shown, by their ranks (a
/// rank of no row is a place that is free), when the run ends, what happened in it, and the locks.
#[derive(Drop)]
pub struct Chart<'a> {
    pub frame: Frame,
    pub title: &'a str,
    pub rows: &'a [TaskRow],
    pub shown: &'a [usize],
    pub until: u64,
    pub releases: &'a [Release],
    pub jobs: &'a [JobRecord],
    pub slices: &'a [Slice],
    /// Whether slices begin one after the other.
    pub rising: bool,
    pub locks: &'a [Toned],
    ghost few: { length rows.now ≤ TASK_LIMIT },
    ghost few_shown: { length shown.now ≤ PLACES_LIMIT },
    ghost some_locks: { length locks.now ≤ LOCKS_LIMIT },
    ghost rises: { rising ≡ rises 0 slices.now },
}

/// A row of it, and where it stands.
#[derive(Drop)]
pub struct Lane<'a> {
    pub frame: Frame,
    pub spot: Spot,
    pub row: &'a TaskRow,
    pub locks: &'a [Toned],
    ghost within: { spot.k ≤ PLACES_LIMIT },
}

impl Chart<'_> {
    ghost use Rattle.std.specs.Prelude.{IfSome, slice_get};
    ghost use Rattle.frames.specs.PictureRows.{row_at, spot_in, spot_named};

    /// The row at a spot.
    pub fn lane(&self, spot: Spot) -> Lane<'_>
        requires row { spot.rank < length self.now.rows.now }
        requires place { spot.k ≤ PLACES_LIMIT }
        ensures frame { result.frame ≡ self.now.frame }
        ensures spot { result.spot ≡ spot }
        ensures locks { result.locks.now ≡ self.now.locks.now }
        ensures row { result.row.now ≡ row_at self.now.rows.now spot.rank }
    {
        Lane {
            frame: self.frame,
            spot,
            row: &self.rows[spot.rank],
            locks: self.locks,
        }
    }

    /// The spot at a place, which may be free.
    pub fn spot(&self, k: usize) -> Spot
        requires { k < length self.now.shown.now }
        ensures spot { result ≡ spot_in self.now.shown.now k }
        ensures place { result.k ≤ PLACES_LIMIT }
    {
        Spot {
            rank: self.shown[k],
            k,
        }
    }

    /// The job of a slice, if there is one.
    pub fn job_of(&self, slice: Slice) -> Option<JobRecord>
        ensures { result ≡ slice_get self.now.jobs.now slice.job }
    {
        if slice.job >= self.jobs.len() {
            return None;
        }
        Some(job_at(self.jobs, slice.job))
    }

    /// The spot of the task with a name, if it is shown.
    pub fn spot_of(&self, name: Name) -> Option<Spot>
        ensures spot { result ≡ spot_named self.now.rows.now self.now.shown.now name }
        ensures row { IfSome result (λ s. s.rank < length self.now.rows.now) }
        ensures place { IfSome result (λ s. s.k ≤ PLACES_LIMIT) }
    {
        spot_named(self.rows, self.shown, name)
    }
}
