//! Laws of the worst case. Each is the contract of a function that does nothing.
ghost use Rattle.std.specs.Prelude.{List};
ghost use Rattle.task_sheet.specs.Sheet.{Task};
ghost use Rattle.task_sheet.specs.TaskSet.{IsTaskSet};
ghost use Rattle.ceiling_kernel.specs.Tick.{Node, Job};
ghost use Rattle.ceiling_kernel.specs.Waits.{IsNode, AreLegalJobs};
ghost use Rattle.ceiling_kernel.specs.Bounds.{TighterBoundHolds};
ghost use Rattle.miss.specs.Exact.{WorstComes, WorstMisses, WorstIsExact};
ghost use Rattle.miss.specs.Misses.{WorstCaseMisses, NoIsShown, MissesAreRefused, ConflictHasOrders};
ghost use Rattle.miss.specs.Reached.{WorstCaseReaches};
ghost use Rattle.miss.specs.Shown.{MissesAreShown};

/// In the worst case a job isn't done before a time covers what the analysis counts, but for the first tick of the
/// section that blocks; so where no time up to the limit does, it misses its deadline.
pub fn worst_comes()
    ensures comes { (node : Node) (jobs : List Job) → IsNode node → AreLegalJobs node jobs
        → WorstComes node jobs }
    ensures misses { (node : Node) (jobs : List Job) → IsNode node → AreLegalJobs node jobs
        → WorstMisses node jobs }
{}

/// A task that must miss its deadline misses it in its worst case, which a kernel runs to that deadline without a
/// refusal or an overrun.
pub fn worst_case_misses()
    ensures { (node : Node) → IsNode node → WorstCaseMisses node }
{}

/// The bound is reached but for a tick: below tasks that pass, a job whose last tick is executed at its task's own level
/// finishes, in its worst case, exactly at the least time that covers what the analysis counts, but for the first tick of
/// the section that blocks; a kernel runs that list to its end without a refusal or an overrun.
pub fn worst_case_reaches()
    ensures { (node : Node) → IsNode node → WorstCaseReaches node }
{}

/// In the worst case a job finishes exactly at the least time that covers what the analysis counts, but for the first
/// tick of the section that blocks; and no job of the task takes longer, whatever the jobs do within their sheets.
pub fn is_met_exactly()
    ensures exact { (node : Node) (jobs : List Job) → IsNode node → AreLegalJobs node jobs
        → WorstIsExact node jobs }
    ensures bound { (node : Node) (jobs : List Job) → IsNode node → AreLegalJobs node jobs
        → TighterBoundHolds node jobs }
{}

/// Without locks, timers and interrupts a no that rests on deadlines is shown by a run: where no task must miss its
/// deadline, each meets it. (Of which task must outrank which, no run says anything.)
pub fn no_is_shown()
    ensures { (node : Node) → IsNode node → NoIsShown node }
{}

/// What is shown of a task that must miss its deadline is a run in which it does, or that its worst case has more than
/// 10,000 releases.
pub fn misses_are_shown()
    ensures { (node : Node) → MissesAreShown node }
{}

/// A task that misses its deadline in some run doesn't pass.
pub fn misses_are_refused()
    ensures { (node : Node) → IsNode node → MissesAreRefused node }
{}

/// Each task of a minimal conflict has an order in which it stands just below the others of it, and these pass.
pub fn conflicts_have_orders()
    ensures { (U : List Task) → IsTaskSet U → ConflictHasOrders U }
{}
