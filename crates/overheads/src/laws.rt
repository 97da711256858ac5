//! Laws of sets with what the node takes. Each is the clause of a function that does nothing, and its names are defined in
//! `specs/`.

ghost use Rattle.std.specs.Prelude.{◌≡◌, ◌↔◌, ℕ, List, [], length, None, Some};
ghost use Rattle.task_sheet.specs.Sheet.{Task, AreInterrupts, AreOverheads, no_overhead};
ghost use Rattle.task_sheet.specs.Rank.{IsByRank};
ghost use Rattle.task_sheet.specs.TaskSet.{IsTaskSet};
ghost use Rattle.task_sheet.specs.declared.node.Node.{Node};
ghost use Rattle.task_sheet.specs.declared.node.Interrupt.{Interrupt};
ghost use Rattle.task_sheet.specs.Indexes.{Indexes};
ghost use Rattle.task_sheet.specs.Demand.{demand_of};
ghost use Rattle.overheads.specs.Rule.{demand_by_rule, IsRuled};
ghost use Rattle.overheads.specs.Padding.{charged, padded, padding_fault, IsPadded, IsUnpadded, IsLighter};

/// Without a node and interrupts nothing changes, nor with a node that takes nothing, for which there is always room.
pub fn no_node_is_plain()
    ensures none { (U V : List Task) → IsPadded None [] U V ↔ (V ≡ U) }
    ensures nothing { (U V : List Task) → IsTaskSet U → IsUnpadded U
        → IsPadded (Some no_overhead) [] U V ↔ (V ≡ U) }
{}

/// A set for which a node leaves room is still one, of as many tasks, by the same ranks.
pub fn padded_is_set()
    ensures set { (U : List Task) (node : Node) → IsTaskSet U → AreOverheads node
        → padding_fault node U ≡ None → IsTaskSet (padded node U) }
    ensures count { (U : List Task) (node : Node) → length (padded node U) ≡ length U }
    ensures ranks { (U V : List Task) (node : Node) → IsTaskSet U → IsByRank (padded node U) V
        → V ≡ padded node U }
{}

/// So is a set with interrupts.
pub fn charged_is_set()
    ensures set { (U : List Task) (xs : List Interrupt) → IsTaskSet U → AreInterrupts xs
        → IsTaskSet (charged xs U) }
    ensures count { (U : List Task) (xs : List Interrupt) → length (charged xs U) ≡ length U }
    ensures ranks { (U V : List Task) (xs : List Interrupt) → IsTaskSet U → IsByRank (charged xs U) V
        → V ≡ charged xs U }
{}

/// Where a node leaves room one that takes no more does.
pub fn lighter_node_has_room()
    ensures { (U : List Task) (light heavy : Node) → IsLighter light heavy
        → padding_fault heavy U ≡ None → padding_fault light U ≡ None }
{}

/// Within its limit a task's demand in the padded set is that of the rule: a job takes its whole cost, with its timer, of
/// those below its task, its timer alone of those above, and each interrupt takes of all (Burns, Wellings).
pub fn padded_demand_is_by_rule()
    ensures { (node : Node) (xs : List Interrupt) (U : List Task) (i : ℕ) (H : Indexes) (t : ℕ)
        → IsRuled node U i H t
        → demand_of (charged xs (padded node U)) i H t ≡ demand_by_rule node xs U i H t }
{}
