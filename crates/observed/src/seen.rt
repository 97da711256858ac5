//! What a trace shows of a job.
ghost use Rattle.std.specs.Prelude.{◌≡◌, ◌<◌, ◌≤◌, ◌-◌, [], None, length, option_map, slice_index_or, unwrap_or, if◌then◌else◌, All, IfOk};
ghost use Rattle.observed.specs.Promises.{no_promise};
ghost use Rattle.observed.specs.Seen.{closest_to, culprits_of, delay_of, gap_since, last_job, ready_by, seen_job, stranger_of, until_of, waited_of};

use crate::culprits::{Culprit, culprits_below};
use crate::interrupts::interrupts_within;
use crate::pieces::Piece;
use crate::promises::Promise;
use crate::ranks::stray_in;
use crate::shares::{Whom, time_in};
use crate::strangers::longest_stranger;
use ceilings::Tabled;
use std::alloc::{AllocError, Global};
use std::marker::Model;
use std::rc::Rc;
use task_sheet::Name;
use trace_text::TraceJob;

/// What a trace shows of a job of a task of the set, in microseconds. It waits for sure from when it is ready,
/// at the latest its task's jitter after its arrival, up to its finish, or to the end of the trace.
#[derive(Drop)]
pub struct Seen {
    /// Of its task, counted from 0, the lowest.
    pub level: usize,
    /// What the set promises of its task.
    pub promise: Rc<Promise>,
    pub arrival: u64,
    /// From its arrival to its finish, or to the end of the trace.
    pub lasted: u64,
    /// From the arrival before of its task.
    pub gap: Option<u64>,
    /// How long after its arrival it was ready, where that is said.
    pub delay: Option<u64>,
    /// For how long nobody executed while it waited.
    pub idle: u64,
    pub is_finished: bool,
    // The arrival before may be seen late: it isn't said when its job was ready.
    is_after_late: bool,
    /// For how long it executed.
    pub executed: u128,
    /// For how long it may execute: for its cost, and for what timers and interrupts may take in that time.
    pub may_execute: u128,
    /// For how long tasks below may execute while it waits: for its blocking, and for what timers and interrupts may take.
    pub may_be_blocked: u128,
    odd: Option<Box<Odd>>,
}

// What few jobs have.
#[derive(Drop)]
struct Odd {
    blocked: u128,
    foreign: u128,
    stray: Option<u64>,
    culprits: Vec<Culprit>,
    stranger: Option<Name>,
}

impl Model for Seen {
    ghost use Rattle.std.specs.Prelude.{◌-◌, [], None, option_map, unwrap_or, if◌then◌else◌};
    ghost use Rattle.observed.specs.SeenJob.{SeenData};

    ghost Value = { SeenData };

    ghost view = { λ s. record {
      level = s.level;
      promise = s.promise.value;
      arrival = s.arrival;
      gap = s.gap;
      closest = if s.is_after_late then s.promise.value.period - s.promise.value.jitter else s.promise.value.period;
      delay = s.delay;
      is_finished = s.is_finished;
      lasted = s.lasted;
      executed = s.executed;
      stray = unwrap_or (option_map (λ o. o.value.stray) s.odd) None;
      may_execute = s.may_execute;
      blocked = unwrap_or (option_map (λ o. o.value.blocked) s.odd) 0;
      culprits = unwrap_or (option_map (λ o. o.value.culprits.items) s.odd) [];
      may_be_blocked = s.may_be_blocked;
      foreign = unwrap_or (option_map (λ o. o.value.foreign) s.odd) 0;
      stranger = unwrap_or (option_map (λ o. o.value.stranger) s.odd) None;
      idle = s.idle;
      may_be_taken = s.may_be_blocked - s.promise.value.blocking;
    } };
}

impl Seen {
    /// The least that the gap may be: the arrival before may be seen late by the jitter, where it isn't said when its job was ready.
    pub fn closest(&self) -> u64
        ensures { result ≡ self.now.closest }
    {
        if self.is_after_late {
            self.promise.period.saturating_sub(self.promise.jitter)
        } else {
            self.promise.period
        }
    }

    /// The first priority at which it ran that is neither its thread's nor the ceiling of a lock of its task's.
    pub fn stray(&self) -> Option<u64>
        ensures { result ≡ self.now.stray }
    {
        match &self.odd {
            Some(odd) => odd.stray,
            None => None,
        }
    }

    /// For how long tasks below executed while it waited.
    pub fn blocked(&self) -> u128
        ensures { result ≡ self.now.blocked }
    {
        match &self.odd {
            Some(odd) => odd.blocked,
            None => 0,
        }
    }

    /// Where tasks below executed for longer than they may: each that did so, the longest first, of equals the lowest.
    pub fn culprits(&self) -> &[Culprit]
        ensures { result.now ≡ self.now.culprits }
    {
        match &self.odd {
            Some(odd) => &odd.culprits,
            None => &[],
        }
    }

    /// For how long threads executed, while it waited, that the set doesn't have.
    pub fn foreign(&self) -> u128
        ensures { result ≡ self.now.foreign }
    {
        match &self.odd {
            Some(odd) => odd.foreign,
            None => 0,
        }
    }

    /// Where threads that the set doesn't have executed for longer than they may: who of them did so longest, of equals the
    /// first.
    pub fn stranger(&self) -> Option<Name>
        ensures { result ≡ self.now.stranger }
    {
        match &self.odd {
            Some(odd) => odd.stranger,
            None => None,
        }
    }

    /// What timers and interrupts may take while it waits: for how long such threads, and nobody, may execute in all.
    pub fn may_be_taken(&self) -> u128
        ensures { result ≡ self.now.may_be_taken }
    {
        self.may_be_blocked
            .saturating_sub(u128::from(self.promise.blocking))
    }
}

// What few jobs have, where a job has any of it.
fn odd_of(alloc: Global, odd: Odd) -> Result<Option<Box<Odd>>, AllocError>
    ensures blocked { IfOk result (λ kept. unwrap_or (option_map (λ o. o.value.blocked) kept) 0 ≡ odd.blocked) }
    ensures foreign { IfOk result (λ kept. unwrap_or (option_map (λ o. o.value.foreign) kept) 0 ≡ odd.foreign) }
    ensures stray { IfOk result (λ kept. unwrap_or (option_map (λ o. o.value.stray) kept) None ≡ odd.stray) }
    ensures culprits { IfOk result
        (λ kept. unwrap_or (option_map (λ o. o.value.culprits.items) kept) [] ≡ odd.culprits.items) }
    ensures stranger { IfOk result
        (λ kept. unwrap_or (option_map (λ o. o.value.stranger) kept) None ≡ odd.stranger) }
{
    let is_unblocked = odd.blocked == 0 && odd.culprits.is_empty();
    let is_untaken = odd.foreign == 0 && odd.stranger.is_none();
    if is_unblocked && is_untaken && odd.stray.is_none() {
        return Ok(None);
    }
    Ok(Some(Box::new(alloc, odd)?))
}

// The last of these jobs that is of the task with a name.
fn last_job(jobs: &[TraceJob], name: Name) -> Option<TraceJob>
    ensures { result ≡ last_job name jobs.now }
{
    jobs.iter().rev().find(|job| job.name == name).copied()
}

// A time from the arrival of a job, if there is one.
fn gap_since(before: Option<TraceJob>, time: u64) -> Option<u64>
    ensures { result ≡ gap_since before time }
{
    let before = before?;
    Some(time.saturating_sub(before.arrival))
}

// The arrival before, of this job, may be seen late, so that the next may come sooner after it.
fn is_late(_promise: &Promise, before: &Option<TraceJob>) -> bool
    ensures { (if result then _promise.now.period - _promise.now.jitter else _promise.now.period)
        ≡ closest_to _promise.now before.now }
{
    match before {
        None => false,
        Some(before) => before.ready.is_none(),
    }
}

// When a job finished, or the end of the trace.
pub(crate) fn until_of(end: u64, job: &TraceJob) -> u64
    ensures { result ≡ until_of end job.now }
{
    job.finish.unwrap_or(end)
}

// When a job is ready, at the latest.
fn ready_by(promise: &Promise, job: &TraceJob) -> u128
    ensures { result ≡ ready_by promise.now job.now }
{
    match job.ready {
        Some(ready) => u128::from(job.arrival.max(ready)),
        None => u128::from(job.arrival) + u128::from(promise.jitter),
    }
}

// For how long a job waits for sure.
fn waited_of(promise: &Promise, end: u64, job: &TraceJob) -> u64
    ensures { result ≡ waited_of promise.now end job.now }
{
    let lasted = until_of(end, job).saturating_sub(job.arrival);
    match job.ready {
        Some(ready) => until_of(end, job).saturating_sub(job.arrival.max(ready)),
        None => lasted.saturating_sub(promise.jitter),
    }
}

// How long after its arrival a job was ready, where it says so.
fn delay_of(job: &TraceJob) -> Option<u64>
    ensures { result ≡ delay_of job.now }
{
    let ready = job.ready?;
    Some(ready.saturating_sub(job.arrival))
}

// Where tasks below execute for longer than they may, each that does so.
fn culprits_of(
    alloc: Global,
    is_past: bool,
    promises: &[Promise],
    promise: &Promise,
    level: usize,
    end: u64,
    pieces: &[Piece],
    job: &TraceJob,
) -> Result<Vec<Culprit>, AllocError>
    requires { level ≤ length promises.now }
    ensures { IfOk result (λ culprits. culprits.items
        ≡ culprits_of is_past promises.now promise.now level end pieces.now job.now) }
{
    if is_past {
        let to = u128::from(until_of(end, job));
        culprits_below(alloc, promises, ready_by(promise, job), to, pieces, level)
    } else {
        Ok(Vec::new(alloc))
    }
}

// Where threads that the set doesn't have execute for longer than they may, who does so longest.
fn stranger_of(
    alloc: Global,
    is_past: bool,
    promise: &Promise,
    end: u64,
    pieces: &[Piece],
    job: &TraceJob,
) -> Result<Option<Name>, AllocError>
    ensures { IfOk result (λ name. name ≡ stranger_of is_past promise.now end pieces.now job.now) }
{
    if is_past {
        let to = u128::from(until_of(end, job));
        longest_stranger(alloc, ready_by(promise, job), to, pieces)
    } else {
        Ok(None)
    }
}

// What is seen of the job of a set at a place, whose task has this level, with the jobs before it.
pub(crate) fn seen_job(
    alloc: Global,
    set: &Tabled<'_>,
    promises: &[Promise],
    shared: &Rc<Promise>,
    level: usize,
    end: u64,
    pieces: &[Piece],
    before: &[TraceJob],
    job: &TraceJob,
) -> Result<Seen, AllocError>
    requires level { level < length promises.now }
    requires tasks { All (λ p. p.task < length set.now) promises.now }
    requires shared { shared.now.value ≡ slice_index_or promises.now level no_promise }
    ensures { IfOk result (λ seen. seen
        ≡ seen_job set.now promises.now (slice_index_or promises.now level no_promise) level end pieces.now before.now job.now) }
{
    let promise = &promises[level];
    let ready = ready_by(promise, job);
    let until = until_of(end, job);
    let to = u128::from(until);
    let lasted = until.saturating_sub(job.arrival);
    let taken = interrupts_within(set, waited_of(promise, end, job));
    let last = last_job(before, job.name);
    let is_after_late = is_late(promise, &last);
    let below = Whom::Below(level);
    let blocked = time_in(&below, ready, to, pieces);
    let may_be_blocked = u128::from(promise.blocking) + taken;
    let is_past = may_be_blocked < blocked;
    let culprits = culprits_of(alloc, is_past, promises, promise, level, end, pieces, job)?;
    let strange = Whom::Foreign;
    let foreign = time_in(&strange, ready, to, pieces);
    let stranger = stranger_of(alloc, taken < foreign, promise, end, pieces, job)?;
    let from = u128::from(job.arrival);
    let stray = stray_in(set, promises, promise, before.len(), from, to, pieces);
    let own = Whom::Job(before.len());
    let anyone = Whom::Anyone;
    let idle = to
        .saturating_sub(ready)
        .saturating_sub(time_in(&anyone, ready, to, pieces));
    let odd = Odd {
        blocked,
        foreign,
        stray,
        culprits,
        stranger,
    };
    let odd = odd_of(alloc, odd)?;
    Ok(Seen {
        level,
        promise: shared.clone()?,
        arrival: job.arrival,
        lasted,
        gap: gap_since(last, job.arrival),
        delay: delay_of(job),
        idle: idle as u64,
        is_finished: job.finish.is_some(),
        is_after_late,
        executed: time_in(&own, from, to, pieces),
        may_execute: u128::from(promise.cost) + interrupts_within(set, lasted),
        may_be_blocked,
        odd,
    })
}
