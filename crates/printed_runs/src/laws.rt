//! Laws of the text that a run is printed as. Each is the contract of a function that does nothing.
ghost use Rattle.std.specs.Prelude.{◌≡◌, ◌⊎◌, ℕ, List, None, Some, Ok};
ghost use Rattle.task_sheet.specs.Sheet.{Task};
ghost use Rattle.task_sheet.specs.TaskSet.{IsTaskSet};
ghost use Rattle.assignment.specs.Places.{PlaceData};
ghost use Rattle.assignment.specs.Placings.{IsBestPlacing, tasks_of_places};
ghost use Rattle.ceiling_kernel.specs.Tick.{node_in};
ghost use Rattle.ceiling_kernel.specs.Runs.{Runs};
ghost use Rattle.ceiling_kernel.specs.declared.trace.Release.{Release};
ghost use Rattle.ceiling_kernel.specs.declared.trace.Trace.{Trace};
ghost use Rattle.trace_text.specs.TraceFaults.{trace_fault};
ghost use Rattle.trace_text.specs.TraceLines.{rows_in};
ghost use Rattle.trace_text.specs.declared.fault.TraceFault.{TraceFault};
ghost use Rattle.trace_text.specs.declared.fault.TraceFault.TheVariants.{TooManyLines};
ghost use Rattle.observed.specs.Sights.{IsSight, IsSightFault};
ghost use Rattle.observed.specs.declared.sight.Sight.{Sight};
ghost use Rattle.printed_runs.specs.TraceLines.{trace_lines};
ghost use Rattle.printed_runs.specs.RunRows.{rows_of};
ghost use Rattle.printed_runs.specs.Clean.{IsClean, IsForRoom};

/// In whatever order, the lines of a run of a set are read back as its slices and its jobs. They are a trace, if there are no
/// more of them than are read.
pub fn lines_are_read_back()
    ensures rows { (U : List Task) (order : List ℕ) (rs : List Release) (until : ℕ) (trace : Trace)
        → IsTaskSet U → Runs (node_in U order) rs until (Ok trace)
        → rows_in (trace_lines trace) ≡ Ok (rows_of trace) }
    ensures sound { (U : List Task) (order : List ℕ) (rs : List Release) (until : ℕ) (trace : Trace)
        → IsTaskSet U → Runs (node_in U order) rs until (Ok trace)
        → (trace_fault (trace_lines trace) ≡ None) ⊎ (trace_fault (trace_lines trace) ≡ Some TooManyLines) }
{}

/// What a set shows of the lines of a run of it at the levels of its best order: that nothing is broken, whatever the
/// tolerance.
pub fn runs_are_clean()
    ensures seen { (tolerance : ℕ) (U : List Task) (places : List PlaceData) (rs : List Release) (until : ℕ) (trace : Trace)
        (sight : Sight) → IsTaskSet U → IsBestPlacing U places
        → Runs (node_in U (tasks_of_places places)) rs until (Ok trace)
        → IsSight U (trace_lines trace) sight → IsClean tolerance sight }
    ensures refused { (U : List Task) (places : List PlaceData) (rs : List Release) (until : ℕ) (trace : Trace)
        (fault : TraceFault) → IsTaskSet U → IsBestPlacing U places
        → Runs (node_in U (tasks_of_places places)) rs until (Ok trace)
        → IsSightFault U (trace_lines trace) fault → IsForRoom fault }
{}
