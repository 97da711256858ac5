//! Laws, which speak of no body: each is the contract of a function that does nothing.
ghost use Rattle.std.specs.Prelude.{◌≡◌, ◌<◌, ◌≤◌, [], ◌∷◌, ℕ, List, Some, is_some, length, true};
ghost use Rattle.std.specs.List.{AllByRecursion};
ghost use Rattle.task_sheet.specs.Sheet.{Task};
ghost use Rattle.task_sheet.specs.TaskSet.{IsTaskSet};
ghost use Rattle.assignment.specs.Places.{PlaceData};
ghost use Rattle.assignment.specs.Placings.{IsBestPlacing};
ghost use Rattle.ceiling_kernel.specs.Tick.{Node, node_in};
ghost use Rattle.chains.specs.Bounds.{bound_of};
ghost use Rattle.chains.specs.Parts.{bound_in, order_of, steps_of, time_in};
ghost use Rattle.chains.specs.Walks.{bound_by, starts_of, steps_with};
ghost use Rattle.chains.specs.declared.bounds.Level.{Level};
ghost use Rattle.chains.specs.declared.bounds.Writes.{Writes};
ghost use Rattle.least_chains.specs.LeastBound.{levels_at};
ghost use Rattle.chain_promises.specs.Promised.{AreResponses, HoldsInRuns, HoldsWhereSimulated};

/// A bound that is printed of a chain in an order whose responses are the analysis's holds in each run of the kernel in that
/// order, also where other tasks miss their deadlines, whether the chain's tasks write at their finishes or at their
/// deadlines; where their offsets are known, in each run in which they arrive there. It is no more than what the chain's
/// gaps, its handovers and how long its last task takes to write come to, and just that where no offset is known.
pub fn bounds_hold()
    ensures runs { (writes : Writes) (offsets : List ℕ) (U : List Task) (levels : List Level) (first : ℕ) (others : List ℕ) (bound : ℕ)
        → AreResponses U levels → bound_in writes offsets U levels (first ∷ others) ≡ Some bound
        → HoldsInRuns writes offsets (node_in U (order_of levels)) first others bound }
    ensures simulated { (writes : Writes) (offsets : List ℕ) (U : List Task) (levels : List Level) (first : ℕ) (others : List ℕ) (bound : ℕ)
        → AreResponses U levels → bound_in writes offsets U levels (first ∷ others) ≡ Some bound
        → HoldsWhereSimulated writes offsets (node_in U (order_of levels)) first others bound }
    ensures number { (writes : Writes) (U : List Task) (levels : List Level) (first : ℕ) (others : List ℕ) (bound : ℕ)
        → bound_in writes [] U levels (first ∷ others) ≡ Some bound
        → bound ≡ bound_of writes (node_in U (order_of levels)) (time_in levels) first others }
    ensures offsets { (writes : Writes) (offsets : List ℕ) (U : List Task) (levels : List Level) (first : ℕ) (others : List ℕ) (bound : ℕ)
        → bound_in writes offsets U levels (first ∷ others) ≡ Some bound
        → bound ≤ bound_of writes (node_in U (order_of levels)) (time_in levels) first others }
{}

/// The best order with its responses, of which `admit` and `explain` print, is such an order; and a chain of tasks of the set
/// has a bound in it, with offsets where walks along it begin.
pub fn best_bounds_hold()
    ensures responses { (U : List Task) (places : List PlaceData) → IsTaskSet U → IsBestPlacing U places
        → AreResponses U (levels_at places) }
    ensures number { (writes : Writes) (offsets : List ℕ) (U : List Task) (places : List PlaceData) (tasks : List ℕ)
        → IsBestPlacing U places → AllByRecursion (λ i. i < length U) tasks
        → bound_in writes offsets U (levels_at places) tasks
        ≡ bound_by (steps_of writes offsets (node_in U (order_of (levels_at places))) (time_in (levels_at places)) tasks) }
    ensures begins { (writes : Writes) (offsets : List ℕ) (node : Node) (response : ℕ → ℕ) (tasks : List ℕ)
        → is_some (starts_of (steps_with node.tasks offsets [] tasks)) ≡ true
        → is_some (bound_by (steps_of writes offsets node response tasks)) ≡ true }
{}
