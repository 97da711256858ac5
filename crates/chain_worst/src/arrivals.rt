//! When the jobs of a task arrive in the run that a chain's bound describes.
ghost use Rattle.std.specs.List.{list_any};
ghost use Rattle.std.specs.Prelude.{◌≡◌, ◌==◌, ◌&&◌, nat_lt, ◌<◌, ◌≤◌, ◌+◌, min};
ghost use Rattle.task_sheet.specs.declared.set.TheConstants.{TASK_LIMIT};
ghost use Rattle.task_sheet.specs.Sheet.{IsValidSheet};
ghost use Rattle.ceiling_kernel.specs.declared.accept.TheConstants.{HORIZON};
ghost use Rattle.chain_worst.specs.Arrivals.{against, in_window, late_at, next_of, own_aim, release_at, start_window, window_of};

use crate::aims::{Aim, BlockerStart};
use ceiling_kernel::Release;
use task_sheet::Sheet;

/// From when on jobs of a task may arrive, and up to when, in microseconds.
#[derive(Clone, Copy)]
pub struct Window {
    pub from: u64,
    pub to: u64,
}

// So long after a time, or the end, if that is sooner.
fn up_to(time: u64, length: u64, until: u64) -> u64
    ensures { result ≡ min (time + length) until }
{
    if length < until.saturating_sub(time) {
        time + length
    } else {
        until
    }
}

// The one job of a task that blocks an aim.
fn start_window(rank: usize, until: u64, blocker: Option<BlockerStart>) -> Option<Window>
    ensures { result ≡ start_window rank until blocker }
{
    let Some(blocker) = blocker else {
        return None;
    };
    if blocker.task == rank {
        Some(Window {
            from: blocker.time,
            to: up_to(blocker.time, 1, until),
        })
    } else {
        None
    }
}

// Where jobs of a task stand against an aim.
fn window_of(sheet: &Sheet, rank: usize, until: u64, aim: Aim) -> Option<Window>
    requires { rank < TASK_LIMIT }
    ensures { result ≡ window_of sheet.now rank until aim }
{
    if aim.above.has(rank) {
        Some(Window {
            from: aim.ready.saturating_sub(sheet.jitter()),
            to: up_to(aim.arrival, aim.response, until),
        })
    } else {
        start_window(rank, until, aim.blocker)
    }
}

// The first time from another on within a window, if there is one.
fn in_window(window: Option<Window>, time: u64) -> Option<u64>
    ensures { result ≡ in_window window time }
{
    match window {
        Some(window) => {
            if time < window.to {
                Some(time.max(window.from))
            } else {
                None
            }
        }
        None => None,
    }
}

// The first time from another on at which a job of a task stands against one of the aims, or the end.
fn against(sheet: &Sheet, rank: usize, until: u64, aims: &[Aim], time: u64) -> u64
    requires { rank < TASK_LIMIT }
    ensures { result ≡ against sheet.now rank until aims.now time }
{
    for aim in aims {
        if let Some(next) = in_window(window_of(sheet, rank, until, *aim), time) {
            return next;
        }
    }
    time.max(until)
}

// The aim of a task.
fn own_aim(rank: usize, aims: &[Aim]) -> Option<Aim>
    ensures { result ≡ own_aim rank aims.now }
{
    aims.iter().copied().find(|aim| aim.task == rank)
}

/// When the next job of a task arrives that may arrive from a time on.
pub(crate) fn next_of(sheet: &Sheet, rank: usize, until: u64, aims: &[Aim], time: u64) -> u64
    requires rank { rank < TASK_LIMIT }
    requires some { 0 < sheet.now.period }
    ensures { result ≡ next_of sheet.now rank until aims.now time }
{
    match own_aim(rank, aims) {
        Some(aim) => time.max(aim.arrival % sheet.period()),
        None => against(sheet, rank, until, aims, time),
    }
}

// An aim is ready then.
fn has_ready(aims: &[Aim], ready: u64) -> bool
    ensures { result ≡ list_any (λ m. m.ready == ready) aims.now }
{
    aims.iter().any(|aim| aim.ready == ready)
}

// An aim is, before the end.
fn is_with_aim(until: u64, aims: &[Aim], ready: u64) -> bool
    ensures { result ≡ (nat_lt ready until && list_any (λ m. m.ready == ready) aims.now) }
{
    ready < until && has_ready(aims, ready)
}

// How late a job of a task is that arrives at a time.
fn late_at(sheet: &Sheet, until: u64, aims: &[Aim], time: u64) -> u64
    requires valid { IsValidSheet sheet.now }
    requires before { time < until }
    requires horizon { until ≤ HORIZON }
    ensures { result ≡ late_at sheet.now until aims.now time }
{
    let late = sheet.jitter();
    if is_with_aim(until, aims, time + late) {
        late
    } else {
        0
    }
}

/// The release of a job of a task that arrives at a time.
pub(crate) fn release_at(sheet: &Sheet, until: u64, aims: &[Aim], time: u64) -> Release
    requires valid { IsValidSheet sheet.now }
    requires before { time < until }
    requires horizon { until ≤ HORIZON }
    ensures { result ≡ release_at sheet.now until aims.now time }
{
    Release {
        time,
        name: sheet.name(),
        late: late_at(sheet, until, aims, time),
        runs: None,
    }
}
