//! A random release list of a set, by a fixed rule.
ghost use Rattle.std.specs.Prelude.{◌≡◌, ◌<◌, ◌≤◌, ◌+◌, ◌++◌, ◌^◌, length, None, MatchResult, IfOk, nat_lt};
ghost use Rattle.task_sheet.specs.Sheet.{IsValidSheet};
ghost use Rattle.task_sheet.specs.TaskSet.{IsTaskSet};
ghost use Rattle.ceiling_kernel.specs.declared.accept.TheConstants.{HORIZON, RELEASE_LIMIT};
ghost use Rattle.ceiling_kernel.specs.Releases.{IsRefusal, refusal_of, refuse_if};
ghost use Rattle.release_list.specs.Random.{word_after, word_before, drawn, late_after, runs_after, third_after, gap_after, first_at, if_ready, jobs_within, all_jobs, pace_of, random_of, random_refusal};

use crate::steady::{SteadyTask, is_steady, offset_in};
use ceiling_kernel::{HORIZON, RELEASE_LIMIT, Release, RunFault};
use std::alloc::Global;
use task_sheet::{Sheet, TaskSet};

// How the jobs of a task come, in microseconds: the first at the offset, where that is known, each further one less than the
// spread more than a period after the one before.
#[derive(Clone, Copy)]
struct Pace {
    offset: Option<u64>,
    spread: u64,
}

// The numbers of a task, by the word that was drawn last.
#[derive(Clone, Copy)]
struct Generator {
    word: u64,
}

impl Generator {
    fn step(&mut self)
        ensures { self.new.word ≡ word_after self.old.word }
    {
        self.word = self
            .word
            .wrapping_mul(6_364_136_223_846_793_005)
            .wrapping_add(1_442_695_040_888_963_407);
    }

    // The generator of the task of a rank.
    fn of(seed: u64, rank: u64) -> Generator
        requires { rank < 2 ^ 32 }
        ensures { result.word ≡ word_before seed rank }
    {
        let mut generator = Generator {
            word: seed.wrapping_add(rank << 32),
        };
        generator.step();
        generator.step();
        generator
    }

    // A number below a bound.
    fn draw(&mut self, below: u64) -> u64
        requires { below ≤ 2 ^ 32 }
        ensures word { self.new.word ≡ word_after self.old.word }
        ensures drawn { result ≡ drawn (word_after self.old.word) below }
        ensures small { result ≤ below }
    {
        self.step();
        ((self.word >> 32) * below) >> 32
    }

    // When the first job of a task arrives.
    fn first(&mut self, sheet: &Sheet, offset: Option<u64>) -> u64
        requires { IsValidSheet sheet.now }
        ensures word { self.new.word ≡ word_after self.old.word }
        ensures first { result ≡ first_at offset sheet.now.period (word_after self.old.word) }
    {
        let drawn = self.draw(sheet.period());
        offset.unwrap_or(drawn)
    }

    // The release of a task's job that arrives at a time.
    fn release(&mut self, sheet: &Sheet, time: u64) -> Release
        requires { IsValidSheet sheet.now }
        ensures word { self.new.word ≡ third_after self.old.word }
        ensures release { result ≡ record {
          time = time;
          name = sheet.now.name;
          late = late_after sheet.now self.old.word;
          runs = runs_after sheet.now self.old.word;
        } }
    {
        let late = self.draw(sheet.jitter() + 1);
        let all = self.draw(4) == 0;
        let some = 1 + self.draw(sheet.cost());
        Release {
            time,
            name: sheet.name(),
            late,
            runs: if all { None } else { Some(some) },
        }
    }

    // From its arrival to the next, less than the spread more than a period later, or a period.
    fn gap(&mut self, sheet: &Sheet, spread: u64) -> u64
        requires valid { IsValidSheet sheet.now }
        requires spread { spread ≤ sheet.now.period }
        ensures word { self.new.word ≡ word_after (word_after self.old.word) }
        ensures gap { result ≡ gap_after sheet.now spread self.old.word }
        ensures small { result ≤ sheet.now.period + sheet.now.period }
    {
        let waits = self.draw(4) == 0;
        let extra = self.draw(spread);
        sheet.period() + if waits { extra } else { 0 }
    }
}

// A release is put behind others, if it is ready before the end.
fn push_if_ready(releases: &mut Vec<Release>, release: Release, until: u64) -> Result<(), RunFault>
    requires time { release.time < until }
    requires few { length releases.old.items ≤ RELEASE_LIMIT }
    ensures { MatchResult result
        (λ _. (releases.new.items ≡ releases.old.items ++ if_ready until release)
        × (length releases.new.items ≤ RELEASE_LIMIT))
        (λ e. IsRefusal e
        (refuse_if (nat_lt RELEASE_LIMIT
        (length (releases.old.items ++ if_ready until release))) RunFault.TooMany)) }
{
    if release.late >= until - release.time {
        return Ok(());
    }
    if releases.len() == RELEASE_LIMIT {
        return Err(RunFault::TooMany);
    }
    match releases.push(release) {
        Ok(()) => Ok(()),
        Err(_) => Err(RunFault::OutOfMemory),
    }
}

// The jobs of a task are put behind others.
fn push_jobs(
    sheet: &Sheet,
    pace: Pace,
    mut generator: Generator,
    until: u64,
    releases: &mut Vec<Release>,
) -> Result<(), RunFault>
    requires valid { IsValidSheet sheet.now }
    requires spread { pace.spread ≤ sheet.now.period }
    requires horizon { until ≤ HORIZON }
    requires few { length releases.old.items ≤ RELEASE_LIMIT }
    ensures { MatchResult result
        (λ _. (releases.new.items ≡ releases.old.items ++ jobs_within sheet.now pace generator.word until until)
        × (length releases.new.items ≤ RELEASE_LIMIT))
        (λ e. IsRefusal e
        (refuse_if (nat_lt RELEASE_LIMIT
        (length (releases.old.items ++ jobs_within sheet.now pace generator.word until until))) RunFault.TooMany)) }
{
    let mut time = generator.first(sheet, pace.offset);
    while time < until {
        let release = generator.release(sheet, time);
        push_if_ready(releases, release, until)?;
        time += generator.gap(sheet, pace.spread);
    }
    Ok(())
}

// How jobs of the task of a rank come.
fn pace_of(sheet: &Sheet, steady: &[SteadyTask], rank: usize) -> Pace
    ensures value { result ≡ pace_of sheet.now steady.now rank }
    ensures within { result.spread ≤ sheet.now.period }
{
    let offset = offset_in(steady, rank);
    let spread = if is_steady(steady, rank) {
        0
    } else {
        sheet.period()
    };
    Pace { offset, spread }
}

// The jobs of a set, task by task.
fn jobs(
    alloc: Global,
    sheets: &[Sheet],
    steady: &[SteadyTask],
    until: u64,
    seed: u64,
) -> Result<Vec<Release>, RunFault>
    requires set { IsTaskSet sheets.now }
    requires horizon { until ≤ HORIZON }
    ensures { MatchResult result
        (λ releases. (releases.items ≡ all_jobs sheets.now steady.now until seed)
        × (length releases.items ≤ RELEASE_LIMIT))
        (λ e. IsRefusal e
        (refuse_if (nat_lt RELEASE_LIMIT (length (all_jobs sheets.now steady.now until seed))) RunFault.TooMany)) }
{
    let mut releases = Vec::new(alloc);
    for rank in 0..sheets.len() {
        let sheet = &sheets[rank];
        push_jobs(
            sheet,
            pace_of(sheet, steady, rank),
            Generator::of(seed, rank as u64),
            until,
            &mut releases,
        )?;
    }
    Ok(releases)
}

/// A random release list that a set allows up to `until`, the same for the same seed: jobs that may be late within their
/// jitter, execute less than their cost, and come more than a period apart, those of steady tasks exactly a period, from their
/// offsets on, where these are known; all that are ready before `until`, by time, then by rank. Refused in this order:
/// `PastHorizon`, `TooMany`. A kernel of the set refuses no such list.
pub fn random(
    alloc: Global,
    set: &TaskSet,
    steady: &[SteadyTask],
    until: u64,
    seed: u64,
) -> Result<Vec<Release>, RunFault>
    ensures list { MatchResult result
        (λ releases. (random_refusal set.now steady.now until seed ≡ None)
        × (releases.items ≡ random_of set.now steady.now until seed))
        (λ e. IsRefusal e (random_refusal set.now steady.now until seed)) }
    ensures accepted { IfOk result (λ releases. refusal_of set.now releases.items until ≡ None) }
{
    if until > HORIZON {
        return Err(RunFault::PastHorizon);
    }
    let mut releases = jobs(alloc, set.sheets(), steady, until, seed)?;
    match releases.sort_by_key(|release| release.time) {
        Ok(()) => Ok(releases),
        Err(_) => Err(RunFault::OutOfMemory),
    }
}
