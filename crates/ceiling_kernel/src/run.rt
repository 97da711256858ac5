//! The run of a kernel, from event to event: its cost grows with releases and sections, never with ticks.
ghost use Rattle.std.specs.Prelude.{◌≡◌, ◌<◌, ◌≤◌, ◌+◌, ◌-◌, ℕ, max, List, length, map, IfOk, IfErr, None, Some, replicate, reverse};
ghost use Rattle.ceiling_kernel.specs.declared.trace.Release.{Release};
ghost use Rattle.ceiling_kernel.specs.Turns.{time_in_turn};
ghost use Rattle.ceiling_kernel.specs.Tick.{Node};
ghost use Rattle.ceiling_kernel.specs.Trace.{with_run};
ghost use Rattle.ceiling_kernel.specs.Releases.{task_number, jobs_of};
ghost use Rattle.ceiling_kernel.specs.Runs.{records_from, Runs, MeetsBounds, MeetsTighterBounds, IsNoOverrun};
ghost use Rattle.ceiling_kernel.specs.Waits.{EachIsGranted};
ghost use Rattle.task_sheet.specs.Orders.{IsPassingOrder};
ghost use Rattle.ceiling_kernel.specs.NodeTasks.{IsTaskOf};
ghost use Rattle.ceiling_kernel.specs.States.{held_top, next_change, active_at, slices_shown, IsTidy, IsRunnable, AreFinishes, IsRunning, IsFurther, IsStop};

use crate::accept::accept;
use crate::kernel::Kernel;
use crate::lists::{drop_first, empty_lists, enqueue, move_first, pick};
use crate::tasks::{NodeSection, NodeTask};
use crate::trace::{JobRecord, Release, RunFault, Slice, Trace};
use crate::turns::{Agenda, turns_of};
use std::alloc::{AllocError, Global};
use std::collections::VecDeque;

/// A job that is ready and not finished, with its active priority.
#[derive(Clone, Copy)]
pub struct Pending {
    pub job: usize,
    pub task: usize,
    pub level: u32,
    pub executed: u64,
    pub active: u32,
}

/// The slices so far: those that are closed, and the one that may still grow.
#[derive(Drop)]
pub struct Slices {
    pub closed: Vec<Slice>,
    pub current: Option<Slice>,
}

/// The state between two events: a slot for each task's pending job, the lists of the tasks with one, by its active
/// priority, the next turn, the slices, and when each job finished.
#[derive(Drop)]
pub struct Simulation {
    pub now: u64,
    pub next: usize,
    pub slots: Vec<Option<Pending>>,
    pub lists: Vec<VecDeque<usize>>,
    pub slices: Slices,
    pub finishes: Vec<Option<u64>>,
}

// The highest ceiling that a job with these sections holds after `executed` ticks.
fn held(sections: &[NodeSection], executed: u64) -> u32
    ensures { result ≡ held_top sections.now executed }
{
    let mut best = 0;
    for section in sections {
        if section.is_within(executed) {
            best = best.max(section.top);
        }
    }
    best
}

// After how many ticks what it holds may change next.
fn next_change(sections: &[NodeSection], executed: u64, limit: u64) -> u64
    ensures { result ≡ next_change sections.now executed limit }
{
    for section in sections {
        let stop = section.stop;
        if executed <= section.at {
            return section.at + 1;
        }
        if executed < stop {
            return stop;
        }
    }
    limit
}

// The active priority of a job of the task.
fn active(task: &NodeTask, executed: u64) -> u32
    ensures { (node : Node) (i : ℕ) → IsTaskOf node i task.now
        → result ≡ active_at node i executed }
{
    task.level.max(held(&task.sections, executed))
}

// Until when the pending jobs run by themselves: the next turn, or the end.
fn limit_of(turns: &[(u64, usize)], next: usize, now: u64, until: u64) -> u64
    requires before { now < until }
    requires next { next < length turns.now → now < time_in_turn turns.now next }
    ensures after { now < result }
    ensures until { result ≤ until }
    ensures next { next < length turns.now → result ≤ time_in_turn turns.now next }
{
    if next < turns.len() {
        let (ready, _) = turns[next];
        if ready < until {
            return ready;
        }
    }
    until
}

// Until when a job of the task that runs for so long runs at one priority, from `now` on and to `limit` at most.
fn stop_at(task: &NodeTask, runs: u64, executed: u64, now: u64, limit: u64) -> u64
    requires ahead { executed < next_change task.now.sections.items executed runs }
    requires open { executed < runs }
    requires before { now < limit }
    ensures after { now < result }
    ensures limit { result ≤ limit }
    ensures within { executed + (result - now) ≤ next_change task.now.sections.items executed runs }
    ensures end { executed + (result - now) ≤ runs }
{
    let change = next_change(&task.sections, executed, runs).min(runs);
    let most = change - executed;
    if most < limit - now {
        now + most
    } else {
        limit
    }
}

impl Slices {
    // Adds a run of ticks of one job.
    fn add(&mut self, job: usize, start: u64, stop: u64) -> Result<(), AllocError>
        requires { IsTidy self.old }
        ensures run { IfOk result (λ _. slices_shown self.new
            ≡ with_run (slices_shown self.old) job start stop) }
        ensures tidy { IfOk result (λ _. IsTidy self.new) }
    {
        let Some(last) = self.current else {
            self.current = Some(Slice { job, start, stop });
            return Ok(());
        };
        if last.job == job && last.stop == start {
            let start = last.start;
            self.current = Some(Slice { job, start, stop });
            return Ok(());
        }
        self.closed.push(last)?;
        self.current = Some(Slice { job, start, stop });
        Ok(())
    }

    // All slices, by time.
    fn close(self) -> Result<Vec<Slice>, AllocError>
        requires { IsTidy self }
        ensures { IfOk result (λ slices. slices.items ≡ reverse (slices_shown self)) }
    {
        let mut closed = self.closed;
        if let Some(last) = self.current {
            closed.push(last)?;
        }
        Ok(closed)
    }
}

// None for each of `count` tasks or jobs.
fn all_none<T: Drop>(alloc: Global, count: usize) -> Result<Vec<Option<T>>, AllocError>
    ensures { IfOk result (λ nones. nones.items ≡ replicate count None) }
{
    let mut nones = Vec::new(alloc);
    for _ in 0..count {
        nones.push(None)?;
    }
    Ok(nones)
}

// The records of the releases.
fn records_of(
    alloc: Global,
    releases: &[Release],
    finishes: &[Option<u64>],
) -> Result<Vec<JobRecord>, AllocError>
    requires { length finishes.now ≡ length releases.now }
    ensures { (node : Node) (t : ℕ) → AreFinishes node releases.now t finishes.now
        → IfOk result (λ records. records.items
        ≡ records_from node (jobs_of node.tasks releases.now) t 0 releases.now) }
{
    let mut records = Vec::new(alloc);
    for k in 0..releases.len() {
        let release = releases[k];
        records.push(JobRecord {
            name: release.name,
            release: release.time,
            finish: finishes[k],
        })?;
    }
    Ok(records)
}

impl Simulation {
    // Before the first tick.
    fn start(alloc: Global, kernel: &Kernel, jobs: usize) -> Result<Simulation, AllocError>
        ensures { (rs : List Release) (turns : List (ℕ × ℕ)) → IsRunnable kernel.now rs turns
            → length rs ≡ jobs
            → IfOk result (λ s. IsRunning kernel.now rs turns s × (s.now ≡ 0)) }
    {
        let count = kernel.tasks().len();
        let slots = all_none(alloc, count)?;
        let lists = empty_lists(alloc, count + 1)?;
        let finishes = all_none(alloc, jobs)?;
        Ok(Simulation {
            now: 0,
            next: 0,
            slots,
            lists,
            slices: Slices {
                closed: Vec::new(alloc),
                current: None,
            },
            finishes,
        })
    }

    // The job whose turn it is becomes pending.
    fn admit(&mut self, kernel: &Kernel, agenda: &Agenda) -> Result<(), RunFault>
        requires runnable { IsRunnable kernel.now agenda.now.releases.now agenda.now.turns.now }
        requires tasks { agenda.now.tasks.now
            ≡ map (task_number kernel.now.tasks) agenda.now.releases.now }
        requires running { IsRunning kernel.now agenda.now.releases.now agenda.now.turns.now self.old }
        requires next { self.old.next < length agenda.now.turns.now }
        requires ready { time_in_turn agenda.now.turns.now self.old.next ≤ self.old.now }
        ensures ok { IfOk result
            (λ _. IsRunning kernel.now agenda.now.releases.now agenda.now.turns.now self.new
            × (self.new.now ≡ self.old.now)
            × (self.new.next ≡ self.old.next + 1)) }
        ensures err { IfErr result (IsStop kernel.now agenda.now.releases.now) }
    {
        let (ready, job) = agenda.turns[self.next];
        let task = agenda.tasks[job];
        let level = kernel.tasks()[task].level;
        if self.slots[task].is_some() {
            return Err(RunFault::Overrun {
                name: agenda.releases[job].name,
                time: ready,
            });
        }
        enqueue(&mut self.lists, level, task)?;
        self.slots[task] = Some(Pending {
            job,
            task,
            level,
            executed: 0,
            active: level,
        });
        self.next += 1;
        Ok(())
    }

    // The pending job that goes first executes up to its next boundary, the next turn or the end.
    fn advance(&mut self, kernel: &Kernel, agenda: &Agenda, until: u64) -> Result<(), AllocError>
        requires runnable { IsRunnable kernel.now agenda.now.releases.now agenda.now.turns.now }
        requires running { IsRunning kernel.now agenda.now.releases.now agenda.now.turns.now self.old }
        requires before { self.old.now < until }
        requires next { self.old.next < length agenda.now.turns.now
            → self.old.now < time_in_turn agenda.now.turns.now self.old.next }
        ensures ok { IfOk result
            (λ _. IsFurther kernel.now agenda.now.releases.now agenda.now.turns.now until self.old self.new) }
    {
        let limit = limit_of(agenda.turns, self.next, self.now, until);
        let Some(picked) = pick(&self.slots, &self.lists) else {
            self.now = limit;
            return Ok(());
        };
        let task = &kernel.tasks()[picked.task];
        let runs = agenda.releases[picked.job].runs.unwrap_or(task.cost);
        let stop = stop_at(task, runs, picked.executed, self.now, limit);
        self.slices.add(picked.job, self.now, stop)?;
        let executed = picked.executed + (stop - self.now);
        self.now = stop;
        if executed == runs {
            drop_first(&mut self.lists, picked.active);
            self.slots[picked.task] = None;
            self.finishes[picked.job] = Some(stop);
            return Ok(());
        }
        let active = active(task, executed);
        move_first(&mut self.lists, picked.active, active, picked.task)?;
        self.slots[picked.task] = Some(Pending {
            job: picked.job,
            task: picked.task,
            level: picked.level,
            executed,
            active,
        });
        Ok(())
    }

    // One event.
    fn step(&mut self, kernel: &Kernel, agenda: &Agenda, until: u64) -> Result<(), RunFault>
        requires runnable { IsRunnable kernel.now agenda.now.releases.now agenda.now.turns.now }
        requires tasks { agenda.now.tasks.now
            ≡ map (task_number kernel.now.tasks) agenda.now.releases.now }
        requires running { IsRunning kernel.now agenda.now.releases.now agenda.now.turns.now self.old }
        requires before { self.old.now < until }
        ensures ok { IfOk result
            (λ _. IsFurther kernel.now agenda.now.releases.now agenda.now.turns.now until self.old self.new) }
        ensures err { IfErr result (IsStop kernel.now agenda.now.releases.now) }
    {
        if self.next < agenda.turns.len() && agenda.turns[self.next].0 <= self.now {
            return self.admit(kernel, agenda);
        }
        self.advance(kernel, agenda, until)?;
        Ok(())
    }
}

impl<'a> Kernel<'a> {
    /// The trace of the releases in the ticks before `until`, in microseconds. A list of releases is refused before
    /// anything runs; Overrun names the first release, by the time at which it becomes ready and then in the list, of a
    /// task whose job before it isn't finished.
    pub fn run(&self, alloc: Global, releases: &[Release], until: u64) -> Result<Trace, RunFault>
        ensures trace { Runs self.now releases.now until result }
        ensures granted { IfOk result (λ _. EachIsGranted self.now
            (jobs_of self.now.tasks releases.now)) }

        // What the analysis says of the order holds in the run.
        ensures bounds { IfOk result (MeetsBounds self.now releases.now until) }
        ensures tighter { IfOk result (MeetsTighterBounds self.now releases.now until) }
        ensures no_overrun { IsPassingOrder self.now.tasks self.now.order
            → IfErr result IsNoOverrun }
    {
        let tasks = accept(alloc, self.set(), releases, until)?;
        let turns = turns_of(alloc, releases)?;
        let agenda = Agenda {
            releases,
            tasks: &tasks,
            turns: &turns,
        };
        let mut simulation = Simulation::start(alloc, self, releases.len())?;
        while simulation.now < until {
            simulation.step(self, &agenda, until)?;
        }
        let jobs = records_of(alloc, releases, &simulation.finishes)?;
        let slices = simulation.slices.close()?;
        Ok(Trace { slices, jobs })
    }
}
