//! Laws of numbers. Each is the clause of a function that does nothing, and its names are defined in `specs/`.

ghost use Rattle.std.specs.Prelude.{◌≡◌, ◌≤◌, ◌<◌, ◌↔◌, ℕ, List, ◌∷◌, length, Option, None, IsFalse};
ghost use Rattle.task_sheet.specs.Sheet.{Task, task_at};
ghost use Rattle.task_sheet.specs.TaskSet.{IsTaskSet};
ghost use Rattle.task_sheet.specs.Indexes.{Indexes};
ghost use Rattle.task_sheet.specs.Demand.{demand_of};
ghost use Rattle.task_sheet.specs.Orders.{IsPassingOrder, IsFeasible};
ghost use Rattle.task_sheet.specs.declared.node.Node.{Node};
ghost use Rattle.overheads.specs.Padding.{IsLighter, IsUnpadded, charged, padded, padding_fault};
ghost use Rattle.task_sheet.specs.declared.node.Interrupt.{Interrupt};
ghost use Rattle.limits.specs.declared.number.Number.{Number};
ghost use Rattle.limits.specs.Numbers.{HasNumber, value_of, numbered, MayHave, IsNoFurther, IsFurthest, NoneHelps};
ghost use Rattle.limits.specs.InOrder.{IsFurthestIn, NoneHelpsIn, PassesIn};
ghost use Rattle.limits.specs.declared.shared.Shared.{Shared};
ghost use Rattle.limits.specs.Shared.{IsFurthestShared, MayTake, with_shared};
ghost use Rattle.limits.specs.Written.{node_of, written};
ghost use Rattle.limits.specs.Cuts.{AnswersMostOn, Following, IsMostOn, cut, longest_on};

/// A node that takes less takes no order away: no demand of a task below others is greater, and what passes with what a
/// node takes passes with what one takes that takes no more, and so without a node.
pub fn lighter_node_keeps_feasible()
    ensures demand { (U : List Task) (light heavy : Node) (i : ℕ) (H : Indexes) (t : ℕ) → IsTaskSet U
        → IsLighter light heavy → i < length U → IsFalse (H i) → 1 ≤ t
        → demand_of (padded light U) i H t ≤ demand_of (padded heavy U) i H t }
    ensures feasible { (U : List Task) (light heavy : Node) → IsTaskSet U → IsLighter light heavy
        → padding_fault heavy U ≡ None → IsFeasible (padded heavy U)
        → IsFeasible (padded light U) }
    ensures order { (U : List Task) (light heavy : Node) (order : List ℕ) → IsTaskSet U
        → IsLighter light heavy → padding_fault heavy U ≡ None
        → IsPassingOrder (padded heavy U) order
        → IsPassingOrder (padded light U) order }
    ensures plain { (U : List Task) (node : Node) → IsTaskSet U → IsUnpadded U
        → padding_fault node U ≡ None → IsFeasible (padded node U) → IsFeasible U }
{}

/// The answer says all of a number: with a value that its sheet may have some order passes exactly where it is no further
/// than the furthest, and so with its own. There is one furthest at most, and none only of a set that no order passes.
pub fn furthest_decides()
    ensures each { (U : List Task) (i : ℕ) (number : Number) (most value : ℕ)
        → IsFurthest U i number most → MayHave U i number value
        → IsFeasible (numbered U i number value) ↔ IsNoFurther number value most }
    ensures own { (U : List Task) (i : ℕ) (number : Number) (most : ℕ) → IsTaskSet U → i < length U
        → HasNumber (task_at U i) number → IsFurthest U i number most
        → IsFeasible U ↔ IsNoFurther number (value_of number (task_at U i)) most }
    ensures one { (U : List Task) (i : ℕ) (number : Number) (first second : ℕ)
        → IsFurthest U i number first → IsFurthest U i number second → first ≡ second }
    ensures none { (U : List Task) (i : ℕ) (number : Number) → IsTaskSet U → i < length U
        → HasNumber (task_at U i) number → NoneHelps U i number → ¬ IsFeasible U }
{}

/// The same of a given order: with a value that its sheet may have it passes exactly where that is no further than the
/// furthest in it, and so with its own. There is one at most, and it is no further than that with any order.
pub fn furthest_in_order_decides()
    ensures each { (U : List Task) (order : List ℕ) (i : ℕ) (number : Number) (most value : ℕ)
        → IsFurthestIn U order i number most → MayHave U i number value
        → IsPassingOrder (numbered U i number value) order ↔ IsNoFurther number value most }
    ensures own { (U : List Task) (order : List ℕ) (i : ℕ) (number : Number) (most : ℕ) → IsTaskSet U
        → i < length U
        → HasNumber (task_at U i) number → IsFurthestIn U order i number most
        → IsPassingOrder U order ↔ IsNoFurther number (value_of number (task_at U i)) most }
    ensures one { (U : List Task) (order : List ℕ) (i : ℕ) (number : Number) (first second : ℕ)
        → IsFurthestIn U order i number first → IsFurthestIn U order i number second
        → first ≡ second }
    ensures within { (U : List Task) (order : List ℕ) (i : ℕ) (number : Number) (most any : ℕ)
        → IsFurthestIn U order i number most → IsFurthest U i number any
        → IsNoFurther number most any }
    ensures none { (U : List Task) (order : List ℕ) (i : ℕ) (number : Number) → IsTaskSet U → i < length U
        → HasNumber (task_at U i) number → NoneHelpsIn U order i number
        → ¬ IsPassingOrder U order }
{}

/// The same of a number of the node: the order passes exactly with the values that a document may say and there is room for,
/// up to the furthest.
pub fn furthest_shared_decides()
    ensures each { (W : List Task) (node : Node) (number : Shared) (order : Option (List ℕ)) (most value : ℕ)
        → IsTaskSet W → IsFurthestShared W node number order most
        → MayTake W (with_shared number node value)
        → PassesIn order (padded (with_shared number node value) W) ↔ (value ≤ most) }
    ensures one { (W : List Task) (node : Node) (number : Shared) (order : Option (List ℕ)) (first second : ℕ)
        → IsFurthestShared W node number order first
        → IsFurthestShared W node number order second
        → first ≡ second }
{}

/// The answer says all of the sections of a lock: with none of them longer of its own than a value, up to what the longest
/// takes, the order passes exactly where that is no more than the most, and so with all of them as they are. There is one
/// at most, whichever sections move along, and what is left is a set.
pub fn most_on_decides()
    ensures each { (follows : Following) (U : List Task) (lock : List ℕ) (order : Option (List ℕ)) (most value : ℕ)
        → IsMostOn follows U lock order most → value ≤ longest_on lock U
        → PassesIn order (cut follows lock value U) ↔ (value ≤ most) }
    ensures own { (follows : Following) (U : List Task) (lock : List ℕ) (order : Option (List ℕ)) (most : ℕ)
        → IsMostOn follows U lock order most → PassesIn order U ↔ (longest_on lock U ≤ most) }
    ensures one { (follows goes : Following) (U : List Task) (lock : List ℕ) (order : Option (List ℕ))
        (first second : ℕ) → IsMostOn follows U lock order first
        → IsMostOn goes U lock order second
        → first ≡ second }
    ensures none { (follows : Following) (U : List Task) (lock : List ℕ) (order : Option (List ℕ))
        → AnswersMostOn follows U lock order None
        → ¬ PassesIn order U }
    ensures set { (follows : Following) (U : List Task) (lock : List ℕ) (most : ℕ) → IsTaskSet U → 1 ≤ most
        → IsTaskSet (cut follows lock most U) }
{}

/// What documents say is what is left of it once it is padded: their tasks, with the interrupts, and their node; and with
/// another node they are padded alike.
pub fn written_is_said()
    ensures set { (U : List Task) (node : Node) (xs : List Interrupt) → IsUnpadded U
        → written (charged xs (padded node U)) ≡ charged xs U }
    ensures node { (t : Task) (ts : List Task) (node : Node) (xs : List Interrupt)
        → node_of (charged xs (padded node (t ∷ ts))) ≡ node }
    ensures again { (U : List Task) (node other : Node) (xs : List Interrupt) → IsUnpadded U
        → padded other (written (charged xs (padded node U))) ≡ charged xs (padded other U) }
{}
