//! Rows.
ghost use Rattle.std.specs.Prelude.{◌<◌, ◌≡◌, IfSome, length};
ghost use Rattle.frames.specs.PictureRows.{name_in, place_in, record_at, row_named, spot_named, tone_in};

use ceiling_kernel::JobRecord;
use task_sheet::{Name, Sheet};

/// A row: a task, and how long after its arrival each of its jobs is done at the latest, where that is known; the number of
/// its thread, where settings say it; its tone; and how much of the bound is what timers and interrupts take, which no run
/// has. Times are in microseconds.
#[derive(Drop)]
pub struct TaskRow {
    pub sheet: Sheet,
    pub bound: Option<u64>,
    pub number: Option<u64>,
    pub tone: u64,
    pub unrun: u64,
}

/// Where a row stands that is shown: its rank among all, and its place in the picture, each from 0, the highest first.
#[derive(Clone, Copy)]
pub struct Spot {
    pub rank: usize,
    pub k: usize,
}

/// The name of the task of a row.
pub fn name_in(rows: &[TaskRow], k: usize) -> Name
    requires { k < length rows.now }
    ensures { result ≡ name_in rows.now k }
{
    rows[k].sheet.name()
}

/// The tone of a row.
pub fn tone_in(rows: &[TaskRow], k: usize) -> u64
    requires { k < length rows.now }
    ensures { result ≡ tone_in rows.now k }
{
    rows[k].tone
}

/// The name of the task of job j.
pub fn name_of(jobs: &[JobRecord], j: usize) -> Name
    requires { j < length jobs.now }
    ensures { result ≡ (record_at jobs.now j).name }
{
    jobs[j].name
}

/// The place of the row of the task with a name.
pub fn find_row(rows: &[TaskRow], name: Name) -> Option<usize>
    ensures place { result ≡ row_named rows.now name }
    ensures within { IfSome result (λ k. k < length rows.now) }
{
    rows.iter().position(|row| row.sheet.name() == name)
}

/// The place of a row among those that are shown.
pub fn place_in(shown: &[usize], rank: usize) -> Option<usize>
    ensures place { result ≡ place_in shown.now rank }
    ensures within { IfSome result (λ k. k < length shown.now) }
{
    shown.iter().position(|other| *other == rank)
}

/// The spot of the task with a name, if it is shown.
pub fn spot_named(rows: &[TaskRow], shown: &[usize], name: Name) -> Option<Spot>
    ensures spot { result ≡ spot_named rows.now shown.now name }
    ensures row { IfSome result (λ s. s.rank < length rows.now) }
    ensures place { IfSome result (λ s. s.k < length shown.now) }
{
    let rank = find_row(rows, name)?;
    let k = place_in(shown, rank)?;
    Some(Spot { rank, k })
}

/// The job at a place.
pub fn job_at(jobs: &[JobRecord], i: usize) -> JobRecord
    requires { i < length jobs.now }
    ensures { result ≡ record_at jobs.now i }
{
    jobs[i]
}
