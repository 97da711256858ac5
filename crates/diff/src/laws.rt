//! Laws of changes. Each is the contract of a function that does nothing.

ghost use Rattle.std.specs.Prelude.{◌≡◌, ◌+◌, ℕ, [], List, Bool, false, Some};
ghost use Rattle.task_sheet.specs.declared.node.Node.{Node};
ghost use Rattle.task_sheet.specs.declared.prefer.Preference.{Preference};
ghost use Rattle.task_sheet.specs.Sheet.{Task, task_at};
ghost use Rattle.task_sheet.specs.TaskSet.{IsTaskSet};
ghost use Rattle.overheads.specs.Padding.{padded_task};
ghost use Rattle.task_lines.specs.declared.owner.Owner.{Owner};
ghost use Rattle.assignment.specs.declared.placing.Placing.{Placing};
ghost use Rattle.assignment.specs.Placings.{IsPlacingOf};
ghost use Rattle.chains.specs.declared.bounds.Level.{Level};
ghost use Rattle.chain_tables.specs.Chains.{ChainData};
ghost use Rattle.diff.specs.Chains.{chain_changes};
ghost use Rattle.diff.specs.ChainsKept.{AreChainsKept};
ghost use Rattle.diff.specs.Keys.{is_changed};
ghost use Rattle.diff.specs.ChangeLines.{change_lines};
ghost use Rattle.diff.specs.Seats.{seat_of};
ghost use Rattle.diff.specs.Unchanged.{IsUnchanged};
ghost use Rattle.diff.specs.Whole.{both_weigh, whole_lines};
ghost use Rattle.diff.specs.declared.seats.Seat.{Seat};

/// A set beside itself has no line.
pub fn unchanged_says_nothing()
    ensures whole { (by : Preference) (whose : List Owner) (U : List Task) → whole_lines by whose U by whose U ≡ [] }
    ensures tasks { (weighs : Bool) (whose : List Owner) (U : List Task) (P : Placing) → IsTaskSet U
        → change_lines weighs whose U P U P ≡ [] }
{}

/// A task whose sheet says the same but for what a node takes has no line of a change: such a sheet, padded by any two
/// nodes with room for it, says the same.
pub fn node_changes_no_task()
    ensures { (weighs : Bool) (t : Task) (node other : Node) → is_changed weighs
        (padded_task node t) (padded_task other t) ≡ false }
{}

/// Where there is no line, nothing has changed: the preference, the node and the interrupts are the same, no task is gone,
/// each of the new set was there before with a sheet that says the same, and where some order passes before and after each
/// has its level and its bound.
pub fn silent_changes_nothing()
    ensures { (old : Preference) (was : List Owner) (U : List Task) (P : Placing) (new : Preference)
        (is : List Owner) (V : List Task) (Q : Placing) (whose : List Owner)
        → whole_lines old was U new is V ≡ []
        → change_lines (both_weigh old new) whose U P V Q ≡ [] → IsUnchanged old was U P new is V Q }
{}

/// Slack is never cut off at 0: bound and slack of a placing's seat are together the deadline.
pub fn slack_is_never_negative()
    ensures { (U : List Task) (P : Placing) (task : ℕ) (s : Seat) → IsTaskSet U → IsPlacingOf U P
        → seat_of U P task ≡ Some s → s.bound + s.slack ≡ (task_at U task).deadline }
{}

/// Where there is no line of a chain, none has changed: none is gone, and each of the new set was there before with the same
/// tasks, which write as they did, and the same limit, and where there is a bound before and after, with the same.
pub fn silent_changes_no_chain()
    ensures { (U : List Task) (was : List Level) (olds : List ChainData) (V : List Task) (is : List Level)
        (news : List ChainData) → chain_changes U was olds V is news ≡ []
        → AreChainsKept U was olds V is news }
{}
