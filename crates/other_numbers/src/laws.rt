//! Laws of sets that ask less. Each is the clause of a function that does nothing, and its names are defined in `specs/`.

ghost use Rattle.std.specs.Prelude.{◌≡◌, ◌≤◌, ◌<◌, ℕ, List, length};
ghost use Rattle.task_sheet.specs.Sheet.{Task, task_at};
ghost use Rattle.task_sheet.specs.Indexes.{Indexes};
ghost use Rattle.task_sheet.specs.Demand.{releases_within, limit_of, blocking_of, demand_of, Passes};
ghost use Rattle.task_sheet.specs.Orders.{Stands, IsPassingOrder, IsFeasible};
ghost use Rattle.other_numbers.specs.Costs.{costed, delayed};
ghost use Rattle.other_numbers.specs.Easier.{AreEasier};

/// To ask less takes no order away: with no cost, no jitter and no section longer, no timer or interrupt that takes more,
/// nothing that comes more often and no deadline earlier, no blocking and no demand is greater, no limit is less, and what
/// passes still passes. With a period that is no shorter a task comes no more often, and with the same sections the blocking
/// is the same.
pub fn easier_keeps_feasible()
    ensures rarer { (easy hard : Task) (time : ℕ) → 0 < hard.period → hard.period ≤ easy.period
        → easy.jitter ≤ hard.jitter → releases_within easy time ≤ releases_within hard time }
    ensures same { (V U : List Task) (i : ℕ) (H : Indexes) → length V ≡ length U
        → ((k : ℕ) → (task_at V k).sections ≡ (task_at U k).sections)
        → blocking_of V i H ≡ blocking_of U i H }
    ensures blocking { (V U : List Task) (i : ℕ) (H : Indexes) → AreEasier V U
        → blocking_of V i H ≤ blocking_of U i H }
    ensures demand { (V U : List Task) (i : ℕ) (H : Indexes) (t : ℕ) → AreEasier V U
        → demand_of V i H t ≤ demand_of U i H t }
    ensures limit { (V U : List Task) (i : ℕ) → AreEasier V U
        → limit_of (task_at U i) ≤ limit_of (task_at V i) }
    ensures passes { (V U : List Task) (i : ℕ) (H : Indexes) → AreEasier V U → Passes U i H
        → Passes V i H }
    ensures stands { (V U : List Task) (i : ℕ) (H : Indexes) → AreEasier V U → Stands U i H
        → Stands V i H }
    ensures order { (V U : List Task) (order : List ℕ) → AreEasier V U
        → IsPassingOrder U order → IsPassingOrder V order }
    ensures feasible { (V U : List Task) → AreEasier V U → IsFeasible U → IsFeasible V }
{}

/// The same of one task's cost.
pub fn less_cost_of_one()
    ensures easier { (U : List Task) (i low high : ℕ) → low ≤ high
        → AreEasier (costed U i low) (costed U i high) }
    ensures feasible { (U : List Task) (i low high : ℕ) → low ≤ high
        → IsFeasible (costed U i high) → IsFeasible (costed U i low) }
{}

/// The same of one task's jitter.
pub fn less_jitter_of_one()
    ensures easier { (U : List Task) (i low high : ℕ) → low ≤ high
        → AreEasier (delayed U i low) (delayed U i high) }
    ensures feasible { (U : List Task) (i low high : ℕ) → low ≤ high
        → IsFeasible (delayed U i high) → IsFeasible (delayed U i low) }
{}
