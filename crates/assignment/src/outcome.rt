//! Whether a task may stand, with what shows it.
ghost use Rattle.std.specs.Prelude.{◌≡◌, ◌<◌, ℕ, List, length, IsFalse, IfSome, IfNone};
ghost use Rattle.task_sheet.specs.Sheet.{Task};
ghost use Rattle.task_sheet.specs.Indexes.{Indexes, indexes_of, IsPart};
ghost use Rattle.task_sheet.specs.Orders.{all_of, must_outrank_any};
ghost use Rattle.task_sheet.specs.Verdicts.{IsLeastOver};
ghost use Rattle.response_time.specs.Answers.{IsAnswer};
ghost use Rattle.assignment.specs.Outcomes.{IsOutcome};

use ceilings::Tabled;
use response_time::Answer;
use task_sheet::Members;

/// Why a task may not stand where it was asked.
#[derive(Drop)]
pub enum Reason {
    /// It doesn't pass: 1, then each demand of the number before it, up to the first that is past what its jitter leaves
    /// of the deadline, in microseconds.
    Chain(Vec<u64>),
    /// A task is above it above which it must stand: of these the one of least rank, by its index.
    Over(usize),
}

/// Whether a task may stand where it was asked.
#[derive(Drop)]
pub enum Outcome {
    /// It may: its response in microseconds from the arrival, the least positive time that is its own demand with its
    /// jitter.
    Pass { response: u64 },
    /// It may not.
    Fail { reason: Reason },
}

// The outcome on a task that need not stand above any of the others.
pub(crate) fn unbound_outcome(answer: Answer) -> Outcome
    ensures { (U : List Task) (i : ℕ) (H : Indexes) → IsFalse (must_outrank_any U i H)
        → IsAnswer U i H answer → IsOutcome U i H result }
{
    match answer {
        Answer::Pass { response } => Outcome::Pass { response },
        Answer::Fail { chain } => Outcome::Fail {
            reason: Reason::Chain(chain),
        },
    }
}

/// Whether a task must stand above one of these.
#[tactic(auto, using(crate::proofs::OutcomeLaws::meet_bound))]
pub(crate) fn must_outrank_any(set: &Tabled<'_>, task: usize, above: Members) -> bool
    requires task { task < length set.now }
    requires part { IsPart (indexes_of above) (all_of set.now) }
    ensures { result ≡ must_outrank_any set.now task (indexes_of above) }
{
    // The set is valid: the proof has it from its sheets.
    let _ = set.sheets();
    set.outranked(task).meets(above)
}

/// Of these that a task must stand above, the one of least rank.
pub fn least_over(set: &Tabled<'_>, task: usize, above: Members) -> Option<usize>
    requires { task < length set.now }
    ensures none { IfNone result (IsFalse (must_outrank_any set.now task (indexes_of above))) }
    ensures some { IfSome result (λ other. IsLeastOver set.now task (indexes_of above) other) }
{
    let outranked = set.outranked(task);
    for other in 0..set.len() {
        if outranked.has(other) && above.has(other) {
            return Some(other);
        }
    }
    None
}
