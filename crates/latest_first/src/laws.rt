//! Laws of orders with the longest limits lowest. Each is the clause of a function that does nothing, and its names are
//! defined in `specs/`.

ghost use Rattle.std.specs.Prelude.{◌≤◌, ◌↔◌, ℕ, List, IsTrue};
ghost use Rattle.task_sheet.specs.Sheet.{Task, AllTasks, task_at};
ghost use Rattle.task_sheet.specs.TaskSet.{IsTaskSet};
ghost use Rattle.task_sheet.specs.Indexes.{Indexes, IsPart, without_index};
ghost use Rattle.task_sheet.specs.Demand.{limit_of, Passes};
ghost use Rattle.task_sheet.specs.Orders.{all_of, IsOrder, IsPassingOrder, IsFeasible, IsBest};
ghost use Rattle.task_sheet.specs.Levels.{NoneStands};
ghost use Rattle.latest_first.specs.LatestFirst.{AllPrompt, IsFree, IsLatest, IsLatestFirst, AreAlike, FollowLimits};

/// Where a task passes below all others of some, each of these with no shorter limit passes below all others of them,
/// sections and jitter counted.
pub fn later_limit_passes()
    ensures { (U : List Task) (L : Indexes) (i j : ℕ) → AllPrompt U → IsPart L (all_of U)
        → IsTrue (L i)
        → IsTrue (L j) → limit_of (task_at U j) ≤ limit_of (task_at U i)
        → Passes U j (without_index L j) → Passes U i (without_index L i) }
{}

/// One task speaks for all: where of some tasks one with the longest limit of those that need not stand above another does
/// not pass below the others, or there is none such, none of them may stand below the others.
pub fn latest_speaks_for_all()
    ensures fails { (U : List Task) (L : Indexes) (i : ℕ) → AllPrompt U → IsPart L (all_of U)
        → IsLatest U L i
        → ¬ Passes U i (without_index L i) → NoneStands U L }
    ensures bound { (U : List Task) (L : Indexes) → ((j : ℕ) → ¬ IsFree U L j) → NoneStands U L }
{}

/// One order decides: an order with the longest limits lowest passes exactly where some order does. Whether an order is
/// such a one rests on limits and on who must outrank whom alone, so it passes with any costs, sections and periods with
/// which some order passes.
pub fn latest_first_decides()
    ensures one { (U : List Task) (order : List ℕ) → AllTasks U → AllPrompt U → IsOrder U order
        → IsLatestFirst U order
        → IsPassingOrder U order ↔ IsFeasible U }
    ensures bears { (U V : List Task) (order : List ℕ) → AreAlike U V → AllTasks V → AllPrompt V
        → IsOrder U order → IsLatestFirst U order
        → IsPassingOrder V order ↔ IsFeasible V }
    ensures valid { (U : List Task) → IsTaskSet U → AllTasks U × AllPrompt U }
{}

/// Where the ranks of a set follow the limits, its best order bears most: it passes with whatever costs, sections and
/// periods some order of the set passes.
pub fn best_bears_most()
    ensures first { (U : List Task) (order : List ℕ) → AllTasks U → AllPrompt U → FollowLimits U
        → IsBest U order → IsLatestFirst U order }
    ensures most { (U V : List Task) (order : List ℕ) → AllTasks U → AllPrompt U → FollowLimits U
        → IsBest U order → AreAlike U V → AllTasks V → AllPrompt V
        → IsPassingOrder V order ↔ IsFeasible V }
{}
