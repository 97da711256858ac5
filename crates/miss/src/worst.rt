//! The worst case of a task with others above it.
ghost use Rattle.std.specs.Prelude.{◌≡◌, ◌∷◌, [], ◌++◌, ◌<◌, ◌≤◌, max, length, map, All, IfOk, IfSome, IfNone};
ghost use Rattle.task_sheet.specs.declared.sheet.TheConstants.{PERIOD_TO};
ghost use Rattle.ceiling_kernel.specs.declared.accept.TheConstants.{HORIZON, RELEASE_LIMIT};
ghost use Rattle.task_sheet.specs.Demand.{greatest_of};
ghost use Rattle.miss.specs.Shown.{IsTooLong};
ghost use Rattle.miss.specs.Misses.{IsInSet, lead_of, member_stream, blocker_streams, IsWorstCase};
ghost use Rattle.ceiling_kernel.specs.Waits.{lateness_of};
ghost use Rattle.task_sheet.specs.Sheet.{task_at};

use assignment::members_of;
use ceiling_kernel::{Release, RunFault};
use ceilings::Tabled;
use explain::{Blocker, first_blocker};
use release_list::{Stream, list_of, stream_of};
use std::alloc::{AllocError, Global};

/// A release list, and until when it runs, in microseconds.
#[derive(Drop)]
pub struct Run {
    pub releases: Vec<Release>,
    pub until: u64,
}

// How long a blocker executes up to the end of the first tick of its section; 0 without one.
fn lead_of(set: &Tabled<'_>, blocker: &Option<Blocker>) -> u64
    requires { IsInSet set.now blocker.now }
    ensures is { result ≡ lead_of set.now blocker.now }
    ensures small { result ≤ PERIOD_TO }
{
    match blocker {
        Some(blocker) => {
            let sheet = &set.sheets()[blocker.task];
            let section = &sheet.sections()[blocker.place as usize];
            section.at + 1
        }
        None => 0,
    }
}

// The instant at which a task and those above it become ready together, no earlier than another time.
fn instant_of(set: &Tabled<'_>, task: usize, above: &[usize], lead: u64) -> u64
    requires task { task < length set.now }
    requires above { All (λ k. k < length set.now) above.now }
    requires lead { lead ≤ PERIOD_TO }
    ensures is { result ≡ max (greatest_of (λ i. lateness_of (task_at set.now i))
        (task ∷ above.now)) lead }
    ensures small { result ≤ PERIOD_TO }
{
    let sheets = set.sheets();
    let mut instant = lead.max(sheets[task].jitter());
    for member in above {
        instant = instant.max(sheets[*member].jitter());
    }
    instant
}

// The job of a blocker.
fn blocker_stream(
    set: &Tabled<'_>,
    blocker: &Option<Blocker>,
    instant: u64,
    until: u64,
) -> Option<Stream>
    requires blocker { IsInSet set.now blocker.now }
    requires until { until ≤ HORIZON }
    ensures some { IfSome result (λ s. blocker_streams set.now instant until blocker.now ≡ s ∷ []) }
    ensures none { IfNone result (blocker_streams set.now instant until blocker.now ≡ []) }
{
    let lead = lead_of(set, blocker);
    let Some(blocker) = blocker else {
        return None;
    };
    let sheet = &set.sheets()[blocker.task];
    Some(Stream {
        name: sheet.name(),
        first: instant.saturating_sub(lead),
        late: 0,
        period: until + sheet.period(),
    })
}

// The jobs of a task, of those above it, and of a blocker.
fn streams_of(
    alloc: Global,
    set: &Tabled<'_>,
    task: usize,
    above: &[usize],
    blocker: &Option<Blocker>,
    instant: u64,
    until: u64,
) -> Result<Vec<Stream>, AllocError>
    requires task { task < length set.now }
    requires above { All (λ k. k < length set.now) above.now }
    requires blocker { IsInSet set.now blocker.now }
    requires until { until ≤ HORIZON }
    ensures { IfOk result (λ streams. streams.items
        ≡ map (member_stream set.now instant) (task ∷ above.now)
        ++ blocker_streams set.now instant until blocker.now) }
{
    let mut streams = Vec::new(alloc);
    let sheets = set.sheets();
    streams.push(stream_of(&sheets[task], instant))?;
    for member in above {
        streams.push(stream_of(&sheets[*member], instant))?;
    }
    if let Some(stream) = blocker_stream(set, blocker, instant, until) {
        streams.push(stream)?;
    }
    Ok(streams)
}

/// The worst case of a task with others above it, up to the deadline of its job; none where it has more releases than a
/// run takes.
pub fn worst_case(
    alloc: Global,
    set: &Tabled<'_>,
    task: usize,
    above: &[usize],
) -> Result<Option<Run>, AllocError>
    requires task { task < length set.now }
    requires above { All (λ k. k < length set.now) above.now }
    ensures some { IfOk result (λ run. IfSome run (λ run. IsWorstCase set.now task above.now
        run.releases.items run.until × (length run.releases.items ≤ RELEASE_LIMIT))) }
    ensures none { IfOk result (λ run. IfNone run (IsTooLong set.now task above.now)) }
{
    let sheets = set.sheets();
    let blocker = first_blocker(set, task, members_of(above));
    let lead = lead_of(set, &blocker);
    let instant = instant_of(set, task, above, lead);
    let until = instant + sheets[task].limit();
    let streams = streams_of(alloc, set, task, above, &blocker, instant, until)?;
    match list_of(alloc, &streams, until) {
        Ok(releases) => Ok(Some(Run { releases, until })),
        Err(RunFault::TooMany) => Ok(None),
        Err(_) => Err(AllocError),
    }
}
