//! Laws of what the trace of a run beside timers and interrupts shows. Each is the contract of a function that does nothing.
ghost use Rattle.std.specs.Prelude.{◌≡◌, ◌<◌, ◌≤◌, ℕ, List, [], length, None, Option, true, All};
ghost use Rattle.task_sheet.specs.Sheet.{Task};
ghost use Rattle.assignment.specs.Places.{PlaceData};
ghost use Rattle.assignment.specs.Placings.{IsBestPlacing};
ghost use Rattle.ceiling_kernel.specs.Tick.{Node, Job, job_at};
ghost use Rattle.ceiling_kernel.specs.Waits.{AreLegalJobs};
ghost use Rattle.trace_text.specs.TraceFaults.{IsTraceIn};
ghost use Rattle.trace_text.specs.declared.fault.TraceFault.{TraceFault};
ghost use Rattle.trace_text.specs.declared.fault.TraceFault.TheVariants.{OutOfMemory};
ghost use Rattle.trace_text.specs.declared.reading.TraceLines.{TraceLines};
ghost use Rattle.observed.specs.Observed.{observed_fault, observed_in};
ghost use Rattle.observed.specs.Promises.{levels_from, promises_of};
ghost use Rattle.observed.specs.Sights.{IsSight, IsSightFault};
ghost use Rattle.observed.specs.declared.sight.Sight.{Sight};
ghost use Rattle.observed_lines.specs.Breaks.{is_kept};
ghost use Rattle.observed_lines.specs.Broken.{broken_lines};
ghost use Rattle.kept_promises.specs.KeptPromises.{KeepsToDemand};
ghost use Rattle.kept_promises.specs.OfRuns.{AreOfRun};
ghost use Rattle.printed_runs.specs.Clean.{IsClean};
ghost use Rattle.kept_beside.specs.ShownSlices.{AreShown};
ghost use Rattle.kept_beside.specs.Beside.{AreBeside, Rise};
ghost use Rattle.kept_beside.specs.Traces.{HasTrace, shown_as_nobodys, shown_as_picked};

/// In a run of a set beside timers and interrupts, at the levels of an order that passes, each job keeps to the demand, to the
/// tick, in all that a trace shows: in its priority, its cost, its period, its jitter, its bound, in what tasks below it
/// execute while it waits, and in what other threads and nobody do then. However the time of timers and interrupts is counted:
/// as that of a job that they interrupt, as that of another thread, or as nobody's.
pub fn demand_is_kept_beside()
    ensures { (U : List Task) (numbers : List ℕ) (places : List PlaceData) (lines : TraceLines)
        → AreBeside U numbers places lines
        → All KeepsToDemand (observed_in U (promises_of U numbers places) lines) }
{}

/// So a trace of such a run is one of the set, and whatever the tolerance, nothing is said to be broken.
pub fn nothing_is_broken_beside()
    ensures housed { (U : List Task) (numbers : List ℕ) (places : List PlaceData) (lines : TraceLines)
        → AreBeside U numbers places lines
        → observed_fault (promises_of U numbers places) lines ≡ None }
    ensures kept { (tolerance : ℕ) (U : List Task) (numbers : List ℕ) (places : List PlaceData) (lines : TraceLines)
        → AreBeside U numbers places lines
        → is_kept tolerance (observed_in U (promises_of U numbers places) lines) ≡ true }
    ensures lines { (tolerance : ℕ) (U : List Task) (numbers : List ℕ) (places : List PlaceData) (lines : TraceLines)
        → AreBeside U numbers places lines
        → broken_lines tolerance (observed_in U (promises_of U numbers places) lines) ≡ [] }
{}

/// Whatever text is read as such a trace in the best order shows nothing broken, and only want of memory refuses it.
pub fn texts_are_clean_beside()
    ensures seen { (tolerance : ℕ) (U : List Task) (places : List PlaceData) (text : List ℕ) (lines : TraceLines)
        (sight : Sight) → IsBestPlacing U places → IsTraceIn text lines
        → AreBeside U (levels_from 1 places) places lines
        → IsSight U text sight → IsClean tolerance sight }
    ensures refused { (U : List Task) (places : List PlaceData) (text : List ℕ) (lines : TraceLines)
        (fault : TraceFault) → IsBestPlacing U places → IsTraceIn text lines
        → AreBeside U (levels_from 1 places) places lines
        → IsSightFault U text fault → fault ≡ OutOfMemory }
{}

/// Each run beside timers and interrupts has a trace, whoever is shown in the ticks that they take: the job that they
/// interrupt, or none of the set's.
pub fn runs_have_traces()
    ensures trace { (comes : ℕ → ℕ) (node : Node) (numbers : List ℕ) (jobs : List Job) (shown : ℕ → Option ℕ) (until : ℕ)
        → AreLegalJobs node jobs → ((j : ℕ) → j < length jobs → (job_at jobs j).arrival ≤ until)
        → HasTrace comes node numbers jobs shown until }
    ensures picked { (comes : ℕ → ℕ) (node : Node) (jobs : List Job)
        → AreShown comes node jobs (shown_as_picked comes node jobs) }
    ensures nobodys { (comes : ℕ → ℕ) (node : Node) (jobs : List Job)
        → AreShown comes node jobs (shown_as_nobodys comes node jobs) }
{}

/// A simulated run is one in which none comes.
pub fn simulated_runs_are_beside()
    ensures { (U : List Task) (numbers : List ℕ) (places : List PlaceData) (lines : TraceLines)
        → Rise numbers places → AreOfRun U places lines → AreBeside U numbers places lines }
{}
