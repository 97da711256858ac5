//! A law of verdicts: the clauses of a function that does nothing.
ghost use Rattle.std.specs.Prelude.{List};
ghost use Rattle.task_sheet.specs.Sheet.{Task, AllTasks};
ghost use Rattle.task_sheet.specs.Verdicts.{VerdictData, IsVerdictOf};
ghost use Rattle.assignment.specs.Placings.{IsPlacingOf, SaysSame};
ghost use Rattle.assignment.specs.declared.placing.Placing.{Placing};

/// What `place_all` says of a set is what `assign` says of it: the same order with the same responses, or the same
/// members. And whatever `place_all` says, some verdict says the same.
pub fn placing_says_the_verdict()
    ensures same { (U : List Task) (verdict : VerdictData) (placing : Placing) → AllTasks U
        → IsVerdictOf U verdict → IsPlacingOf U placing → SaysSame U verdict placing }
    ensures some { (U : List Task) (placing : Placing) → AllTasks U → IsPlacingOf U placing
        → (verdict : VerdictData) × IsVerdictOf U verdict × SaysSame U verdict placing }
{}
