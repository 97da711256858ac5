//! Why a job doesn't execute while it is ready.
ghost use Rattle.std.specs.Prelude.{◌<◌, ◌≡◌, ◌≤◌, IfSome, length, slice_get, true};
ghost use Rattle.frames.specs.Slices.{rises, slice_at};
ghost use Rattle.picture.specs.Waits.{EndBy, are_close, is_gathered, is_short, ready_at, scene_of, stay_of, wait_at, wait_before, wait_during};

use ceiling_kernel::{Release, Slice};
use frames::{Chart, Frame, ended, find_row, job_at, slice_at, x_of};
use pieces::wait_in;

// A job by its place, and from when to when it is ready and not done.
#[derive(Clone, Copy)]
pub(crate) struct Stay {
    pub(crate) job: usize,
    pub(crate) from: u64,
    pub(crate) to: u64,
}

// From when to when a job waits, and the row of the task that executes.
#[derive(Clone, Copy)]
pub(crate) struct Wait {
    pub(crate) start: u64,
    pub(crate) stop: u64,
    pub(crate) row: usize,
}

// When the job at a place is ready; at the beginning, where there is none.
fn ready_at(frame: Frame, releases: &[Release], job: usize) -> u64
    ensures { result ≡ ready_at frame (slice_get releases.now job) }
{
    match releases.get(job) {
        None => 0,
        Some(release) => release.time.min(frame.until) + release.late.min(frame.until),
    }
}

// From when to when a job is ready and not done.
pub(crate) fn stay_of(chart: &Chart<'_>, job: usize) -> Stay
    requires { job < length chart.now.jobs.now }
    ensures { result ≡ stay_of (scene_of chart.now) job }
{
    Stay {
        job,
        from: ready_at(chart.frame, chart.releases, job),
        to: ended(chart.frame, &chart.jobs[job]),
    }
}

// How many of the first slices are known to end by a time.
#[derive(Clone, Copy)]
pub(crate) struct Past {
    pub(crate) count: usize,
    pub(crate) time: u64,
}

// So many and those right behind them that end by a time, too.
fn ended_by(slices: &[Slice], count: usize, time: u64) -> usize
    requires within { count ≤ length slices.now }
    requires ended { EndBy slices.now count time }
    ensures within { result ≤ length slices.now }
    ensures ended { EndBy slices.now result time }
{
    for n in count..slices.len() {
        if slice_at(slices, n).stop > time {
            return n;
        }
    }
    slices.len()
}

// How many end before a job is ready: where that isn't earlier than the last one, it is known of some.
pub(crate) fn past_before(chart: &Chart<'_>, j: usize, past: Past) -> Past
    requires job { j < length chart.now.jobs.now }
    requires within { past.count ≤ length chart.now.slices.now }
    requires ended { EndBy chart.now.slices.now past.count past.time }
    ensures within { result.count ≤ length chart.now.slices.now }
    ensures ended { EndBy chart.now.slices.now result.count result.time }
    ensures before { result.time ≤ (stay_of (scene_of chart.now) j).from }
{
    let arrival = job_at(chart.jobs, j).release;
    let time = arrival.min(stay_of(chart, j).from);
    let count = if time < past.time { 0 } else { past.count };
    Past {
        count: ended_by(chart.slices, count, time),
        time,
    }
}

// Whether slice n and those behind it begin when a job is done.
pub(crate) fn is_behind(chart: &Chart<'_>, stay: Stay, n: usize) -> bool
    requires { n < length chart.now.slices.now }
    ensures rises { result ≡ true → rises 0 chart.now.slices.now ≡ true }
    ensures done { result ≡ true → stay.to ≤ (slice_at chart.now.slices.now n).start }
{
    chart.rising && stay.to <= slice_at(chart.slices, n).start
}

// From when to when a job waits in a slice, and for which row.
fn wait_during(chart: &Chart<'_>, stay: Stay, slice: Slice) -> Option<Wait>
    ensures wait { result ≡ wait_during (scene_of chart.now) stay slice }
    ensures within { IfSome result (λ w. w.row < length chart.now.rows.now) }
{
    let piece = wait_in(stay.job, stay.from, stay.to, slice)?;
    let job = chart.job_of(slice)?;
    let row = find_row(chart.rows, job.name)?;
    Some(Wait {
        start: piece.start,
        stop: piece.stop,
        row,
    })
}

// The same in slice n, where there is one.
pub(crate) fn wait_at(chart: &Chart<'_>, stay: Stay, n: usize) -> Option<Wait>
    ensures wait { result ≡ wait_at (scene_of chart.now) stay n }
    ensures within { IfSome result (λ w. w.row < length chart.now.rows.now) }
{
    if n >= chart.slices.len() {
        return None;
    }
    wait_during(chart, stay, slice_at(chart.slices, n))
}

// The wait in the slice before slice n.
fn wait_before(chart: &Chart<'_>, stay: Stay, n: usize) -> Option<Wait>
    ensures { result ≡ wait_before (scene_of chart.now) stay n }
{
    if n == 0 {
        return None;
    }
    wait_at(chart, stay, n - 1)
}

// Whether a wait of row k for a task above is less than 4 pixels wide.
fn is_short(frame: Frame, k: usize, wait: Wait) -> bool
    ensures { result ≡ is_short frame k wait }
{
    let wide = x_of(frame, wait.stop).saturating_sub(x_of(frame, wait.start));
    wait.row <= k && wide < 40
}

// Whether two of them touch, if both are there.
fn are_close(frame: Frame, k: usize, first: Option<Wait>, second: Option<Wait>) -> bool
    ensures { result ≡ are_close frame k first second }
{
    let (Some(first), Some(second)) = (first, second) else {
        return false;
    };
    let (one, other) = (is_short(frame, k, first), is_short(frame, k, second));
    one && other && first.stop == second.start
}

// Whether the wait in slice n touches the one before it or the one behind it.
pub(crate) fn is_gathered(chart: &Chart<'_>, stay: Stay, k: usize, n: usize) -> bool
    requires { n < length chart.now.slices.now }
    ensures { result ≡ is_gathered (scene_of chart.now) stay k n }
{
    // (there are no more slices than a `usize` counts)
    let _count = chart.slices.len();
    let before = wait_before(chart, stay, n);
    let wait = wait_at(chart, stay, n);
    let behind = wait_at(chart, stay, n + 1);
    let (one, other) = (
        are_close(chart.frame, k, before, wait),
        are_close(chart.frame, k, wait, behind),
    );
    one || other
}
