//! The releases of some streams of jobs, by time.
ghost use Rattle.std.specs.Prelude.{◌≡◌, ◌<◌, ◌≤◌, ℕ, ◌+◌, ◌++◌, length, [], false, All, None, MatchResult, nat_lt};
ghost use Rattle.ceiling_kernel.specs.declared.accept.TheConstants.{HORIZON, RELEASE_LIMIT};
ghost use Rattle.ceiling_kernel.specs.Releases.{IsRefusal, refuse_if};
ghost use Rattle.release_list.specs.Streams.{IsStream, arrives, late_at, release_of, is_listed, releases_at, list_of, count_refusal};

use crate::stream::Stream;
use ceiling_kernel::{HORIZON, RELEASE_LIMIT, Release, RunFault};
use std::alloc::Global;

// How late the job is that arrives at a time.
fn late_at(stream: &Stream, time: u64) -> u64
    ensures { result ≡ late_at time stream.now }
{
    if time == stream.first { stream.late } else { 0 }
}

// A job arrives at a time.
fn arrives(stream: &Stream, time: u64) -> bool
    requires { 0 < stream.now.period }
    ensures { result ≡ arrives time stream.now }
{
    time >= stream.first && (time - stream.first) % stream.period == 0
}

// It is ready before the end, which comes after it arrives.
fn is_listed(stream: &Stream, time: u64, until: u64) -> bool
    requires some { 0 < stream.now.period }
    requires before { time < until }
    ensures { result ≡ is_listed time until stream.now }
{
    arrives(stream, time) && late_at(stream, time) < until - time
}

// The release of the job that arrives at a time.
fn release_of(stream: &Stream, time: u64) -> Release
    ensures { result ≡ release_of time stream.now }
{
    Release {
        time,
        name: stream.name,
        late: late_at(stream, time),
        runs: None,
    }
}

// When the next job after a time arrives.
fn next_arrival(stream: &Stream, time: u64) -> u64
    requires stream { IsStream stream.now }
    requires before { time ≤ HORIZON }
    ensures after { time < result }
    ensures none { (t : ℕ) → time < t → t < result → arrives t stream.now ≡ false }
{
    if time < stream.first {
        return stream.first;
    }
    time + (stream.period - (time - stream.first) % stream.period)
}

// The first time after another at which a job may arrive, or the end.
fn next_time(streams: &[Stream], time: u64, until: u64) -> u64
    requires streams { All IsStream streams.now }
    requires before { time < until }
    requires horizon { until ≤ HORIZON }
    ensures after { time < result }
    ensures until { result ≤ until }
    ensures none { (t : ℕ) → time < t → t < result → releases_at streams.now t until ≡ [] }
{
    let mut next = until;
    for stream in streams {
        next = next.min(next_arrival(stream, time));
    }
    next
}

// The releases of a time, put behind others.
fn push_releases(
    streams: &[Stream],
    time: u64,
    until: u64,
    releases: &mut Vec<Release>,
) -> Result<(), RunFault>
    requires streams { All IsStream streams.now }
    requires before { time < until }
    requires few { length releases.old.items ≤ RELEASE_LIMIT }
    ensures { MatchResult result
        (λ _. (releases.new.items ≡ releases.old.items ++ releases_at streams.now time until)
        × (length releases.new.items ≤ RELEASE_LIMIT))
        (λ e. IsRefusal e
        (refuse_if (nat_lt RELEASE_LIMIT
        (length (releases.old.items ++ releases_at streams.now time until))) RunFault.TooMany)) }
{
    for stream in streams {
        if is_listed(stream, time, until) {
            if releases.len() == RELEASE_LIMIT {
                return Err(RunFault::TooMany);
            }
            match releases.push(release_of(stream, time)) {
                Ok(()) => {}
                Err(_) => return Err(RunFault::OutOfMemory),
            }
        }
    }
    Ok(())
}

/// The releases of the streams that are ready before `until`, by time, and those of one time in the order of the streams;
/// refused only as `TooMany`.
pub fn list_of(alloc: Global, streams: &[Stream], until: u64) -> Result<Vec<Release>, RunFault>
    requires streams { All IsStream streams.now }
    requires horizon { until ≤ HORIZON }
    ensures { MatchResult result
        (λ releases. (count_refusal streams.now until ≡ None)
        × (releases.items ≡ list_of streams.now until))
        (λ e. IsRefusal e (count_refusal streams.now until)) }
{
    let mut releases = Vec::new(alloc);
    let mut time = 0;
    while time < until {
        push_releases(streams, time, until, &mut releases)?;
        time = next_time(streams, time, until);
    }
    Ok(releases)
}
