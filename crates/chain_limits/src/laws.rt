//! Laws of chains' limits. Each is the contract of a function that does nothing.
ghost use Rattle.std.specs.Prelude.{◌≡◌, ◌≤◌, ◌<◌, ◌↔◌, ℕ, List, length, Some, IsFalse};
ghost use Rattle.task_sheet.specs.Sheet.{Task, task_at};
ghost use Rattle.task_sheet.specs.TaskSet.{IsTaskSet};
ghost use Rattle.chains.specs.declared.bounds.Writes.{Writes};
ghost use Rattle.chains.specs.declared.bounds.Writes.TheVariants.{AtDeadline};
ghost use Rattle.other_numbers.specs.Easier.{AreEasier};
ghost use Rattle.limits.specs.declared.number.Number.{Number};
ghost use Rattle.limits.specs.Numbers.{HasNumber, MayHave, numbered, value_of};
ghost use Rattle.chain_limits.specs.Reaches.{AnswersReach, Grows, HasSameTimes, IsFurthestMet, IsMetIn, NoneMeets};
ghost use Rattle.chain_limits.specs.declared.reaches.Reach.{Reach};

/// To ask less at the same periods and offsets makes no chain's bound greater: no response is, and a handover to a task
/// above, the response less that task's cost, falls with a lesser cost no slower than the response. Where tasks write at
/// their deadlines, these are to be the same.
pub fn easier_keeps_chains()
    ensures { (writes : Writes) (V U : List Task) (offsets order tasks : List ℕ) (limit : ℕ) → IsTaskSet V
        → IsTaskSet U → AreEasier V U → ((k : ℕ) → HasSameTimes writes (task_at V k) (task_at U k))
        → IsMetIn writes offsets order tasks limit U → IsMetIn writes offsets order tasks limit V }
{}

/// The answer says all of a cost, a jitter or a length: with a value that its sheet may have the chain is met in the order
/// exactly where it is no greater than the furthest, and so with its own. There is one furthest at most, and none only
/// where the chain isn't met.
pub fn furthest_met_decides()
    ensures each { (writes : Writes) (U : List Task) (offsets order tasks : List ℕ) (limit i : ℕ) (number : Number)
        (most value : ℕ) → IsTaskSet U → i < length U → Grows number
        → IsFurthestMet writes offsets order tasks limit U i number most → MayHave U i number value
        → IsMetIn writes offsets order tasks limit (numbered U i number value) ↔ (value ≤ most) }
    ensures own { (writes : Writes) (U : List Task) (offsets order tasks : List ℕ) (limit i : ℕ) (number : Number)
        (most : ℕ) → IsTaskSet U → i < length U → Grows number
        → IsFurthestMet writes offsets order tasks limit U i number most
        → IsMetIn writes offsets order tasks limit U ↔ (value_of number (task_at U i) ≤ most) }
    ensures one { (writes : Writes) (U : List Task) (offsets order tasks : List ℕ) (limit i : ℕ) (number : Number)
        (first second : ℕ) → IsFurthestMet writes offsets order tasks limit U i number first
        → IsFurthestMet writes offsets order tasks limit U i number second → first ≡ second }
    ensures none { (writes : Writes) (U : List Task) (offsets order tasks : List ℕ) (limit i : ℕ) (number : Number)
        → IsTaskSet U → i < length U → NoneMeets writes offsets order tasks limit U i number
        → ¬ IsMetIn writes offsets order tasks limit U }
{}

/// Where a chain's tasks write at their deadlines, no cost, jitter or length moves its bound: met with one value, it is with
/// each with which the order passes, so that it holds none back.
pub fn no_number_moves()
    ensures { (U : List Task) (offsets order tasks : List ℕ) (limit i : ℕ) (number : Number) (reach : Reach)
        → IsTaskSet U → Grows number
        → AnswersReach AtDeadline offsets order tasks limit U i number (Some reach) → IsFalse reach.is_bound }
{}
