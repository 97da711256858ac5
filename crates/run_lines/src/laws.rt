//! Laws of runs. Each is the contract of a function that does nothing.
ghost use Rattle.std.specs.Prelude.{ℕ, List, Ok};
ghost use Rattle.task_sheet.specs.Sheet.{Task};
ghost use Rattle.task_sheet.specs.TaskSet.{IsTaskSet};
ghost use Rattle.task_sheet.specs.Orders.{IsOrder};
ghost use Rattle.assignment.specs.Places.{PlaceData};
ghost use Rattle.assignment.specs.Placings.{IsBestPlacing, tasks_of_places};
ghost use Rattle.ceiling_kernel.specs.Tick.{node_in};
ghost use Rattle.ceiling_kernel.specs.Runs.{Runs};
ghost use Rattle.ceiling_kernel.specs.declared.trace.Release.{Release};
ghost use Rattle.ceiling_kernel.specs.declared.trace.Trace.{Trace};
ghost use Rattle.run_lines.specs.Responses.{AllDoneWithin, AllKeptWithin, AllReachWithin};
ghost use Rattle.run_lines.specs.TaskBounds.{AreBounds, tasks_of_bounds};
ghost use Rattle.run_lines.specs.declared.bounds.TaskBound.{TaskBound};

/// In a run of a set's best order each job whose bound lies in the run, its arrival and its task's response, is done by then;
/// and none is done later, so that the greatest response of a task is within its bound.
pub fn responses_hold()
    ensures done { (U : List Task) (places : List PlaceData) (rs : List Release) (until : ℕ) (trace : Trace)
        → IsTaskSet U → IsBestPlacing U places
        → Runs (node_in U (tasks_of_places places)) rs until (Ok trace)
        → AllDoneWithin U places rs until trace }
    ensures reached { (U : List Task) (places : List PlaceData) (rs : List Release) (until : ℕ) (trace : Trace)
        → IsTaskSet U → IsBestPlacing U places
        → Runs (node_in U (tasks_of_places places)) rs until (Ok trace)
        → AllReachWithin U trace.jobs.items places }
{}

/// In a run of any order of a set, whether it passes or not, both hold of each task that has a bound.
pub fn bounds_hold()
    ensures { (U : List Task) (bounds : List TaskBound) (rs : List Release) (until : ℕ) (trace : Trace)
        → IsTaskSet U → IsOrder U (tasks_of_bounds bounds) → AreBounds U bounds
        → Runs (node_in U (tasks_of_bounds bounds)) rs until (Ok trace)
        → AllKeptWithin U bounds rs until trace }
{}
