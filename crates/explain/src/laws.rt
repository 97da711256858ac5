//! Laws of conflicts and of parts. Each is the clause of a function that does nothing, and its names are defined in `specs/`.

ghost use Rattle.std.specs.Prelude.{◌≡◌, ◌+◌, ℕ, min, List, length, IsTrue};
ghost use Rattle.task_sheet.specs.Sheet.{Task, AllTasks, task_at};
ghost use Rattle.task_sheet.specs.Overheads.{overhead_of, own_cost};
ghost use Rattle.task_sheet.specs.TaskSet.{IsTaskSet};
ghost use Rattle.task_sheet.specs.Indexes.{Indexes, IsPart, without_index};
ghost use Rattle.task_sheet.specs.Demand.{demand_of, past_jitter, IsResponseOf};
ghost use Rattle.task_sheet.specs.Orders.{all_of, IsOrderOf, IsFeasible};
ghost use Rattle.task_sheet.specs.Levels.{IsObstruction};
ghost use Rattle.assignment.specs.Placings.{IsPlacingOf};
ghost use Rattle.assignment.specs.declared.placing.Placing.{Placing};
ghost use Rattle.explain.specs.Conflict.{HoldsObstruction, IsLeastConflict, IsLeftOf};
ghost use Rattle.explain.specs.Parts.{PartsData, total_of, IsPartsOf};
ghost use Rattle.explain.specs.Explanations.{Explains, AddsUp};
ghost use Rattle.explain.specs.Needs.{IsNeedsAccount};
ghost use Rattle.explain.specs.declared.accounts.Account.{Account};
ghost use Rattle.explain.specs.declared.explanation.Explanation.{Explanation};

/// Each obstruction has a least conflict in it; what is left of it once all tasks are gone through is one, and there is
/// one such rest.
pub fn obstruction_has_least()
    ensures exists { (U : List Task) (S : Indexes) → AllTasks U → IsObstruction U S
        → (C : Indexes) × IsLeftOf U S (length U) C × IsLeastConflict U C × IsPart C S }
    ensures left { (U : List Task) (S C : Indexes) → IsObstruction U S → IsLeftOf U S (length U) C
        → IsLeastConflict U C × IsPart C S }
    ensures one { (U : List Task) (S C D : Indexes) → IsLeftOf U S (length U) C
        → IsLeftOf U S (length U) D → C ≡ D }
{}

/// Without any one of its tasks, a least conflict holds no obstruction.
pub fn none_is_spared()
    ensures { (U : List Task) (C : Indexes) (i : ℕ) → IsLeastConflict U C → IsTrue (C i)
        → ¬ HoldsObstruction U (without_index C i) }
{}

/// Where there is a least conflict, no order passes.
pub fn conflict_refutes()
    ensures { (U : List Task) (C : Indexes) → AllTasks U → IsLeastConflict U C → ¬ IsFeasible U }
{}

/// The parts add up: to the demand in the window and the jitter, and so, in the window that is its own demand, to the
/// response; and to what a task needs that doesn't pass with those above it. What is a task's own of its cost, and what its
/// node's, come to the cost.
pub fn parts_add_up()
    ensures demand { (U : List Task) (i : ℕ) (H : Indexes) (order : List ℕ) (time : ℕ)
        (parts : PartsData)
        → IsPartsOf U i H order time parts → IsOrderOf H order → IsPart H (all_of U)
        → total_of parts ≡ demand_of U i H time + (task_at U i).jitter }
    ensures response { (U : List Task) (i : ℕ) (H : Indexes) (order : List ℕ) (response : ℕ)
        (parts : PartsData)
        → IsResponseOf U i H response → IsPartsOf U i H order
        (past_jitter (task_at U i) response) parts
        → IsOrderOf H order → IsPart H (all_of U)
        → total_of parts ≡ response }
    ensures need { (U : List Task) (i : ℕ) (H : Indexes) (order : List ℕ) (account : Account)
        → IsNeedsAccount U i H order account → IsOrderOf H order → IsPart H (all_of U)
        → account.time ≡ total_of account.parts }
    ensures cost { (t : Task) → own_cost t + min (overhead_of t) t.cost ≡ t.cost }
{}

/// In what explains a placing each time is what its parts come to: each response, and what each task of a conflict needs.
pub fn explanation_adds_up()
    ensures { (U : List Task) (placing : Placing) (explanation : Explanation) → IsTaskSet U
        → IsPlacingOf U placing
        → Explains U placing explanation → AddsUp explanation }
{}
