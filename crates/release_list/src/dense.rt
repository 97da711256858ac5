//! The densest release list of a set.
ghost use Rattle.std.specs.Prelude.{◌≡◌, ◌<◌, length, None, MatchResult, IfOk};
ghost use Rattle.ceiling_kernel.specs.Releases.{IsRefusal, refusal_of};
ghost use Rattle.task_sheet.specs.Sheet.{task_at};
ghost use Rattle.release_list.specs.Densest.{instant_of, stream_of, stream_from, own_stream, streams_of, densest_of, list_refusal};

use crate::list::list_of;
use crate::steady::{SteadyTask, offset_in};
use crate::stream::Stream;
use ceiling_kernel::{HORIZON, Release, RunFault};
use std::alloc::{AllocError, Global};
use task_sheet::{Sheet, TaskSet};

// The instant at which all tasks become ready together.
fn instant_of(sheets: &[Sheet]) -> u64
    ensures { result ≡ instant_of sheets.now }
{
    let mut instant = 0;
    for sheet in sheets {
        instant = instant.max(sheet.jitter());
    }
    instant
}

/// The densest jobs of a task, the first of which is ready at the instant, as late as its jitter allows, or arrives at
/// time 0 where the jitter is longer.
pub fn stream_of(sheet: &Sheet, instant: u64) -> Stream
    ensures { result ≡ stream_of instant sheet.now }
{
    Stream {
        name: sheet.name(),
        first: instant.saturating_sub(sheet.jitter()),
        late: sheet.jitter(),
        period: sheet.period(),
    }
}

// The same from an offset on, where one is known.
fn stream_from(offset: Option<u64>, instant: u64, sheet: &Sheet) -> Stream
    ensures { result ≡ stream_from offset instant sheet.now }
{
    let stream = stream_of(sheet, instant);
    match offset {
        None => stream,
        Some(first) => Stream { first, ..stream },
    }
}

// Those of each task, by rank.
fn streams_of(
    alloc: Global,
    sheets: &[Sheet],
    steady: &[SteadyTask],
) -> Result<Vec<Stream>, AllocError>
    ensures { IfOk result (λ streams. streams.items ≡ streams_of sheets.now steady.now) }
{
    let instant = instant_of(sheets);
    let mut streams = Vec::new(alloc);
    for rank in 0..sheets.len() {
        let offset = offset_in(steady, rank);
        streams.push(stream_from(offset, instant, &sheets[rank]))?;
    }
    Ok(streams)
}

/// The densest release list that a set allows up to `until`, from an instant at which all tasks become ready together.
/// The first job of each task arrives at the greatest jitter of the set less its own, as late as its jitter allows, and
/// each further one a period after the one before, not late: all that are ready before `until`, by time, then by rank.
/// A task whose offset is known arrives from there on.
/// Refused in this order: `PastHorizon`, `TooMany`. A kernel of the set refuses no such list.
pub fn densest(
    alloc: Global,
    set: &TaskSet,
    steady: &[SteadyTask],
    until: u64,
) -> Result<Vec<Release>, RunFault>
    ensures list { MatchResult result
        (λ releases. (list_refusal set.now steady.now until ≡ None)
        × (releases.items ≡ densest_of set.now steady.now until))
        (λ e. IsRefusal e (list_refusal set.now steady.now until)) }
    ensures accepted { IfOk result (λ releases. refusal_of set.now releases.items until ≡ None) }
{
    if until > HORIZON {
        return Err(RunFault::PastHorizon);
    }
    let streams = streams_of(alloc, set.sheets(), steady)?;
    list_of(alloc, &streams, until)
}
