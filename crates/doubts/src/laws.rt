//! A law of doubts: the contract of a function that does nothing.
ghost use Rattle.std.specs.Prelude.{◌≡◌, ◌↔◌, Bool, List, []};
ghost use Rattle.task_sheet.specs.Sheet.{Task};
ghost use Rattle.doubts.specs.Doubts.{doubts_of};
ghost use Rattle.doubts.specs.Plain.{IsPlain};

/// A set has no doubt exactly where each lock has two users or more, each name to outrank is a task's, and names decide
/// nothing: where nobody prefers anything and no task has a weight, none stands by its name below one of a longer limit.
pub fn plain_sets_have_none()
    ensures { (is_unpreferred : Bool) (U : List Task)
        → (doubts_of is_unpreferred U ≡ []) ↔ IsPlain is_unpreferred U }
{}
