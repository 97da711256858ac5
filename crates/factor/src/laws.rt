//! Laws of factors. Each is the clause of a function that does nothing, and its names are defined in `specs/`.

ghost use Rattle.std.specs.Prelude.{◌≡◌, ◌≤◌, ◌*◌, ◌↔◌, ℕ, List, Option, Some, None};
ghost use Rattle.task_sheet.specs.Sheet.{Task, AllTasks};
ghost use Rattle.task_sheet.specs.Indexes.{Indexes};
ghost use Rattle.task_sheet.specs.Demand.{demand_of, Passes};
ghost use Rattle.task_sheet.specs.Orders.{IsOrder};
ghost use Rattle.latest_first.specs.LatestFirst.{AllPrompt, IsLatestFirst};
ghost use Rattle.other_numbers.specs.InOrder.{PassesIn};
ghost use Rattle.factor.specs.Factors.{AnswersFactor, AreSlow, FailsFirst, IsFactor, PassesAt, PassesInAt};

/// A lesser factor takes no order away, and 1000 leaves the set as it is.
pub fn less_factor_keeps_feasible()
    ensures passes { (U : List Task) (low high i : ℕ) (H : Indexes) → low ≤ high
        → PassesAt high U i H → PassesAt low U i H }
    ensures order { (U : List Task) (low high : ℕ) (order : Option (List ℕ)) → low ≤ high
        → PassesInAt high order U → PassesInAt low order U }
    ensures same { (U : List Task) (order : Option (List ℕ)) → PassesInAt 1000 order U ↔ PassesIn order U }
{}

/// Where it says that a set passes with a factor, each set passes whose costs, section lengths, timers and interrupts are at
/// most so many thousandths of its, however they are rounded, and which asks no more otherwise: no demand of it is greater.
pub fn slower_sets_pass()
    ensures demand { (V U : List Task) (factor i : ℕ) (H : Indexes) (t : ℕ) → AreSlow factor V U
        → 1000 * demand_of V i H t ≤ factor * demand_of U i H t }
    ensures passes { (V U : List Task) (factor i : ℕ) (H : Indexes) → AreSlow factor V U
        → PassesAt factor U i H → Passes V i H }
    ensures order { (V U : List Task) (factor : ℕ) (order : Option (List ℕ)) → AreSlow factor V U
        → PassesInAt factor order U → PassesIn order V }
{}

/// One order decides at each factor: an order with the longest limits lowest passes exactly where some order does.
pub fn latest_first_decides_at()
    ensures { (U : List Task) (factor : ℕ) (order : List ℕ) → AllTasks U → AllPrompt U → IsOrder U order
        → IsLatestFirst U order → PassesInAt factor (Some order) U ↔ PassesInAt factor None U }
{}

/// The answer says all of an order, and of a set: with a factor it passes exactly where that is at most the greatest, and so
/// with 1000, which leaves the set as it is. There is one at most, in an order no more than with any, and none only of what
/// doesn't pass. The task that fails first is one alone.
pub fn factor_decides()
    ensures each { (U : List Task) (order : Option (List ℕ)) (most factor : ℕ) → IsFactor U order most
        → PassesInAt factor order U ↔ (factor ≤ most) }
    ensures own { (U : List Task) (order : Option (List ℕ)) (most : ℕ) → IsFactor U order most
        → PassesIn order U ↔ (1000 ≤ most) }
    ensures one { (U : List Task) (order : Option (List ℕ)) (first second : ℕ) → IsFactor U order first
        → IsFactor U order second → first ≡ second }
    ensures any { (U : List Task) (order : List ℕ) (own most : ℕ) → IsFactor U (Some order) own
        → IsFactor U None most → own ≤ most }
    ensures none { (U : List Task) (order : Option (List ℕ)) → AnswersFactor U order None → ¬ PassesIn order U }
    ensures fails { (U : List Task) (factor first second : ℕ) → FailsFirst U factor first
        → FailsFirst U factor second → first ≡ second }
{}
