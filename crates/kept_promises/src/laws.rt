//! Laws of what the trace of a run shows. Each is the contract of a function that does nothing.
ghost use Rattle.std.specs.Prelude.{◌≡◌, ◌↔◌, ℕ, List, [], None, true, All};
ghost use Rattle.task_sheet.specs.Sheet.{Task};
ghost use Rattle.assignment.specs.Places.{PlaceData};
ghost use Rattle.trace_text.specs.declared.reading.TraceLines.{TraceLines};
ghost use Rattle.observed.specs.Observed.{observed_fault, observed_in};
ghost use Rattle.observed.specs.Promises.{promises_of};
ghost use Rattle.observed.specs.SeenJob.{SeenData};
ghost use Rattle.observed_lines.specs.Breaks.{is_kept};
ghost use Rattle.observed_lines.specs.Broken.{broken_lines};
ghost use Rattle.kept_promises.specs.KeptPromises.{Keeps, KeepsToDemand};
ghost use Rattle.kept_promises.specs.OfRuns.{AreOfRun};

/// In a run of a set at the levels of an order that passes each job keeps all that is promised of it, to the tick: of the
/// best order, and of another one that the node has, whatever the numbers of its threads.
pub fn promises_are_kept()
    ensures { (U : List Task) (numbers : List ℕ) (places : List PlaceData) (lines : TraceLines)
        → AreOfRun U places lines
        → All Keeps (observed_in U (promises_of U numbers places) lines) }
{}

/// What is seen of jobs breaks nothing, to the tick, if and only if each keeps to the demand, timers and interrupts with it.
pub fn kept_is_to_the_demand()
    ensures { (seen : List SeenData) → (is_kept 0 seen ≡ true) ↔ All KeepsToDemand seen }
{}

/// So a trace of such a run is one of the set, and whatever the tolerance, nothing is said to be broken.
pub fn nothing_is_broken()
    ensures housed { (U : List Task) (numbers : List ℕ) (places : List PlaceData) (lines : TraceLines)
        → AreOfRun U places lines
        → observed_fault (promises_of U numbers places) lines ≡ None }
    ensures kept { (tolerance : ℕ) (U : List Task) (numbers : List ℕ) (places : List PlaceData) (lines : TraceLines)
        → AreOfRun U places lines
        → is_kept tolerance (observed_in U (promises_of U numbers places) lines) ≡ true }
    ensures lines { (tolerance : ℕ) (U : List Task) (numbers : List ℕ) (places : List PlaceData) (lines : TraceLines)
        → AreOfRun U places lines
        → broken_lines tolerance (observed_in U (promises_of U numbers places) lines) ≡ [] }
{}
