//! Gates that hold or shut questions.
ghost use Rattle.std.specs.Prelude.{◌≡◌};

use assignment::Question;
use candidate_workers::Gate;
use example_sets::wait_until;
use std::sync::atomic::{AtomicBool, AtomicU64, Ordering};
use task_sheet::Name;

/// Shuts one task out.
#[derive(Clone, Copy)]
pub struct ShutOne {
    pub task: usize,
}

impl Gate for ShutOne {
    ghost may_shut = { λ gate question. question.task ≡ gate.task };

    ghost always_shuts = { λ gate question. question.task ≡ gate.task };

    ghost among = { λ gate question same. same };

    fn pass(&self, question: &Question) -> bool {
        question.task() != self.task
    }
}

/// Lets each question of a set of three tasks pass once, and counts them. How often each came is a digit of its own.
#[derive(Drop)]
pub struct OnceGate {
    pub came: AtomicU64,
    pub each: AtomicU64,
}

impl OnceGate {
    /// The gate to which no question came yet.
    pub fn new() -> OnceGate {
        OnceGate {
            came: AtomicU64::new(0),
            each: AtomicU64::new(0),
        }
    }
}

impl Gate for OnceGate {
    ghost may_shut = { λ gate question. Unit {0} };

    ghost always_shuts = { λ gate question. ⊥ };

    ghost among = { λ gate question never. absurd never };

    fn pass(&self, question: &Question) -> bool {
        self.came.fetch_add(1, Ordering::SeqCst);
        let task = question.task();
        let above = question.above().len();
        if task > 2 || above > 2 {
            return false;
        }
        let digit = 12 * task + 4 * above;
        let before = self.each.fetch_add(1 << digit, Ordering::SeqCst);
        (before >> digit) % 16 == 0
    }
}

/// Holds each question until the other team made one commit more than those that the question shows.
#[derive(Drop)]
pub struct CountingGate {
    pub other: Name,
    /// One more than the most commits of the other team that a question showed.
    pub shown: AtomicU64,
    pub made: AtomicU64,
    pub past: AtomicBool,
}

impl CountingGate {
    /// The gate to which no question came yet, and the other team's task.
    pub fn new(other: Name) -> CountingGate {
        CountingGate {
            other,
            shown: AtomicU64::new(0),
            made: AtomicU64::new(0),
            past: AtomicBool::new(false),
        }
    }
}

// How many commits of the other team the question shows: its task costs 1000, then 1100, then 1200.
fn commits_of(question: &Question, other: Name) -> u64 {
    for sheet in question.set().sheets() {
        if sheet.name() == other {
            return match sheet.cost() {
                1000 => 1,
                1100 => 2,
                _ => 3,
            };
        }
    }
    0
}

impl Gate for CountingGate {
    ghost may_shut = { λ gate question. Unit {0} };

    ghost always_shuts = { λ gate question. ⊥ };

    ghost among = { λ gate question never. absurd never };

    fn pass(&self, question: &Question) -> bool {
        let commits = commits_of(question, self.other);
        if commits >= 3 {
            self.past.store(true, Ordering::SeqCst);
            return true;
        }
        self.shown.store(commits + 1, Ordering::SeqCst);
        wait_until(&self.made, commits + 1)
    }
}

/// Holds each question on the lowest level of a set until so many of them have come, and then until it is told to go on.
/// Those on a set of so many tasks, or fewer, are counted apart from those on larger sets.
#[derive(Drop)]
pub struct CrowdGate {
    pub wanted: u64,
    pub tasks: usize,
    pub first: AtomicU64,
    pub later: AtomicU64,
    /// 1 once the questions may go on.
    pub goes_on: AtomicU64,
}

impl CrowdGate {
    /// The gate to which no question came yet.
    pub fn new(wanted: u64, tasks: usize) -> CrowdGate {
        CrowdGate {
            wanted,
            tasks,
            first: AtomicU64::new(0),
            later: AtomicU64::new(0),
            goes_on: AtomicU64::new(0),
        }
    }
}

impl Gate for CrowdGate {
    ghost may_shut = { λ gate question. Unit {0} };

    ghost always_shuts = { λ gate question. ⊥ };

    ghost among = { λ gate question never. absurd never };

    fn pass(&self, question: &Question) -> bool {
        let tasks = question.set().len();
        if tasks > question.above().len().saturating_add(1) {
            return true;
        }
        let came = if tasks > self.tasks {
            &self.later
        } else {
            &self.first
        };
        came.fetch_add(1, Ordering::SeqCst);
        wait_until(came, self.wanted) && wait_until(&self.goes_on, 1)
    }
}
