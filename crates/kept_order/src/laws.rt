//! Laws of orders that keep another. Each is the clause of a function that does nothing, and its names are defined in
//! `specs/`.

ghost use Rattle.std.specs.Prelude.{◌≡◌, ◌++◌, ℕ, List, []};
ghost use Rattle.task_sheet.specs.Sheet.{Task};
ghost use Rattle.task_sheet.specs.Orders.{IsBest};
ghost use Rattle.kept_order.specs.Keeping.{IsBestKept, IsFirstParted, IsPassingKept, Keeps};

/// An order that keeps a list keeps its lowest part, and each order keeps a list of none or one. So of the three answers
/// one is right: where a pair has to change, no order that passes keeps the whole.
pub fn parts_are_kept()
    ensures part { (lowest rest order : List ℕ) → Keeps (lowest ++ rest) order
        → Keeps lowest order }
    ensures none { (order : List ℕ) → Keeps [] order }
    ensures parted { (U : List Task) (kept : List ℕ) (low high : ℕ) → IsFirstParted U kept low high
        → (order : List ℕ) → ¬ IsPassingKept U kept order }
{}

/// There is one best order at most that keeps a list, and where the list is empty it is the best of all.
pub fn best_kept_is_one()
    ensures one { (U : List Task) (kept first second : List ℕ) → IsBestKept U kept first
        → IsBestKept U kept second → first ≡ second }
    ensures best { (U : List Task) (order : List ℕ) → IsBestKept U [] order → IsBest U order }
{}
