//! Laws of sets by deadlines. Each is the clause of a function that does nothing, and its names are defined in `specs/`.

ghost use Rattle.std.specs.Prelude.{◌≡◌, ◌<◌, ◌↔◌, ℕ, List, None, Some, length};
ghost use Rattle.task_sheet.specs.Sheet.{Task, AllTasks};
ghost use Rattle.task_sheet.specs.TaskSet.{IsTaskSet};
ghost use Rattle.task_sheet.specs.Orders.{IsOrder, IsPassingOrder, IsFeasible, IsBest};
ghost use Rattle.limits.specs.declared.number.Number.TheVariants.{Cost};
ghost use Rattle.limits.specs.Numbers.{numbered, MayHave, IsFurthest};
ghost use Rattle.limits.specs.InOrder.{IsFurthestIn};
ghost use Rattle.factor.specs.Factors.{IsFactor, PassesInAt};
ghost use Rattle.margins.specs.Bearing.{Bears};
ghost use Rattle.latest_first.specs.LatestFirst.{AllPrompt, IsLatestFirst};
ghost use Rattle.preferences.specs.Preferences.{IsByDeadlines};

/// Of a set by deadlines the best order bears as much as any: at each factor on all execution it passes exactly where some
/// order does, and so at that of the set; and no cost of one task may grow further with another order.
pub fn preferred_is_greatest()
    ensures slower { (U V : List Task) (order : List ℕ) (factor : ℕ) → IsByDeadlines U V
        → IsTaskSet V
        → IsBest V order → PassesInAt factor (Some order) V ↔ PassesInAt factor None V }
    ensures factor { (U V : List Task) (order : List ℕ) (most : ℕ) → IsByDeadlines U V
        → IsTaskSet V
        → IsBest V order → IsFactor V None most → PassesInAt most (Some order) V }
    ensures costed { (U V : List Task) (order : List ℕ) (i cost : ℕ) → IsByDeadlines U V
        → IsTaskSet V
        → IsBest V order → i < length V → MayHave V i Cost cost
        → IsPassingOrder (numbered V i Cost cost) order ↔ IsFeasible (numbered V i Cost cost) }
    ensures other_numbers { (U V : List Task) (order : List ℕ) (i inside any : ℕ)
        → IsByDeadlines U V → IsTaskSet V
        → IsBest V order → i < length V → IsFurthestIn V order i Cost inside
        → IsFurthest V i Cost any
        → inside ≡ any }
{}

/// An order with the longest limits lowest bears each further demand on every task that some order bears (Davis, Burns
/// 2007); of a set by deadlines the best order is such a one.
pub fn latest_first_is_robust()
    ensures most { (U : List Task) (extra : ℕ) (order other : List ℕ) → AllTasks U → AllPrompt U
        → IsOrder U order
        → IsLatestFirst U order → Bears U extra other → Bears U extra order }
    ensures preferred { (U V : List Task) (extra : ℕ) (order other : List ℕ) → IsByDeadlines U V
        → IsTaskSet V
        → IsBest V order → Bears V extra other → Bears V extra order }
{}
