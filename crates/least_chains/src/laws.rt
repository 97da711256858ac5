//! Laws of least bounds. Each is the contract of a function that does nothing.
ghost use Rattle.std.specs.Prelude.{◌≡◌, ◌≤◌, ℕ, List, Option, Some, None};
ghost use Rattle.task_sheet.specs.Sheet.{Task};
ghost use Rattle.task_sheet.specs.Indexes.{Indexes};
ghost use Rattle.chains.specs.Parts.{bound_in};
ghost use Rattle.chains.specs.declared.bounds.Level.{Level};
ghost use Rattle.chains.specs.declared.bounds.Writes.{Writes};
ghost use Rattle.chains.specs.declared.bounds.Writes.TheVariants.{AtDeadline};
ghost use Rattle.least_chains.specs.LeastAbove.{IsLeastAbove};
ghost use Rattle.assignment.specs.Places.{PlaceData};
ghost use Rattle.assignment.specs.Placings.{IsBestPlacing};
ghost use Rattle.least_chains.specs.LeastBound.{ArePassing, IsLeastBound, levels_at};

/// A task has one least set of tasks above it at most.
pub fn least_above_is_one()
    ensures { (U : List Task) (i : ℕ) (first second : Indexes) → IsLeastAbove U i first
        → IsLeastAbove U i second → first ≡ second }
{}

/// The best order with its responses is one that passes.
pub fn best_is_passing()
    ensures { (U : List Task) (places : List PlaceData) → IsBestPlacing U places
        → ArePassing U (levels_at places) }
{}

/// No order that passes has a bound below the least one, of which there is one at most; where there is none, no order has a
/// bound. Where the tasks write at their deadlines, each order that has a bound has that one.
pub fn least_is_held()
    ensures held { (writes : Writes) (offsets : List ℕ) (U : List Task) (tasks : List ℕ) (least bound : ℕ)
        (levels : List Level) → IsLeastBound writes offsets U tasks (Some least) → ArePassing U levels
        → bound_in writes offsets U levels tasks ≡ Some bound → least ≤ bound }
    ensures none { (writes : Writes) (offsets : List ℕ) (U : List Task) (tasks : List ℕ) (levels : List Level)
        → IsLeastBound writes offsets U tasks None → bound_in writes offsets U levels tasks ≡ None }
    ensures one { (writes : Writes) (offsets : List ℕ) (U : List Task) (tasks : List ℕ) (first second : Option ℕ)
        → IsLeastBound writes offsets U tasks first → IsLeastBound writes offsets U tasks second
        → first ≡ second }
    ensures deadlines { (offsets : List ℕ) (U : List Task) (tasks : List ℕ) (least bound : ℕ)
        (levels : List Level) → IsLeastBound AtDeadline offsets U tasks (Some least)
        → bound_in AtDeadline offsets U levels tasks ≡ Some bound → least ≡ bound }
{}
