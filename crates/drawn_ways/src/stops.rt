//! Where the jobs of a way lie in the picture.
ghost use Rattle.std.specs.Prelude.{◌≡◌, ◌≤◌, All, IfOk, IfSome, length};
ghost use Rattle.frames.specs.declared.places.TheConstants.{PLACES_LIMIT};
ghost use Rattle.drawn_ways.specs.Stops.{stop_of, stops_of};

use crate::legs::Leg;
use frames::{TaskRow, spot_named};
use std::alloc::{AllocError, Global};
use task_sheet::{Name, TaskSet};

// A job of a way: its task, the place of that task's row, and from when it reads to when it writes, in microseconds.
#[derive(Clone, Copy)]
pub(crate) struct Stop {
    pub(crate) name: Name,
    pub(crate) k: usize,
    pub(crate) start: u64,
    pub(crate) stop: u64,
}

// A job, where the row of its task is shown.
fn stop_of(set: &TaskSet, rows: &[TaskRow], shown: &[usize], leg: Leg) -> Option<Stop>
    requires { length shown.now ≤ PLACES_LIMIT }
    ensures stop { result ≡ stop_of set.now rows.now shown.now leg }
    ensures within { IfSome result (λ s. s.k ≤ PLACES_LIMIT) }
{
    let sheet = set.sheets().get(leg.task)?;
    let name = sheet.name();
    let spot = spot_named(rows, shown, name)?;
    Some(Stop {
        name,
        k: spot.k,
        start: leg.start,
        stop: leg.stop,
    })
}

// Those of some jobs.
pub(crate) fn stops_of(
    alloc: Global,
    set: &TaskSet,
    rows: &[TaskRow],
    shown: &[usize],
    legs: &[Leg],
) -> Result<Vec<Stop>, AllocError>
    requires { length shown.now ≤ PLACES_LIMIT }
    ensures stops { IfOk result (λ stops. stops.items ≡ stops_of set.now rows.now shown.now legs.now) }
    ensures within { IfOk result (λ stops. All (λ s. s.k ≤ PLACES_LIMIT) stops.items) }
{
    let mut stops = Vec::with_capacity(alloc, legs.len())?;
    for leg in legs {
        if let Some(stop) = stop_of(set, rows, shown, *leg) {
            stops.push(stop)?;
        }
    }
    Ok(stops)
}
