//! Laws, which speak of no body: each is the contract of a function that does nothing.

ghost use Rattle.std.specs.Prelude.{◌≡◌, ℕ, List, Option};
ghost use Rattle.task_sheet.specs.Orders.{IsPassingOrder};
ghost use Rattle.ceiling_kernel.specs.Tick.{Node, Job, executed_before};
ghost use Rattle.ceiling_kernel.specs.Waits.{IsNode, AreLegalJobs};
ghost use Rattle.interrupted_runs.specs.Interrupted.{executed_beside, ComeWithin, BoundHoldsBeside, ResponsesHoldBeside, NoneOverruns};
ghost use Rattle.interrupted_runs.specs.Sources.{Coming, AreLegalComings, ComeFrom};
ghost use Rattle.interrupted_runs.specs.Seen.{IsSeen, TakenWithin, SeenKeepsToDemand};

/// Each job of a task that passes finishes within its bound, counted from its arrival, whatever the jobs do within their
/// tasks' sheets, and whenever timers and interrupts come, as long as no window has more of them than the analysis counts;
/// in a set with a passing order no job overruns the one before it (Burns, Wellings; Audsley et al. 1993).
pub fn bound_holds_beside_interrupts()
    ensures bound { (comes : ℕ → ℕ) (node : Node) (jobs : List Job) → IsNode node → AreLegalJobs node jobs
        → ComeWithin comes node → BoundHoldsBeside comes node jobs }
    ensures response { (comes : ℕ → ℕ) (node : Node) (jobs : List Job) → IsNode node → AreLegalJobs node jobs
        → ComeWithin comes node → ResponsesHoldBeside comes node jobs }
    ensures no_overrun { (comes : ℕ → ℕ) (node : Node) (jobs : List Job) → IsNode node → AreLegalJobs node jobs
        → ComeWithin comes node → IsPassingOrder node.tasks node.order
        → NoneOverruns comes node jobs }
{}

/// No window has more where an interrupt comes once in each of its periods at most and takes its cost, and a task's timer
/// comes with each job that becomes ready, and takes what the node's numbers say.
pub fn sources_are_counted()
    ensures { (comes : ℕ → ℕ) (node : Node) (jobs : List Job) (cs : List Coming) → IsNode node
        → AreLegalJobs node jobs → AreLegalComings node cs → ComeFrom comes node jobs cs
        → ComeWithin comes node }
{}

/// What is seen of such a run keeps to what the demand has for a job: of its own; while it is ready and lacks some, of those
/// below it, and of others than the set's. For in no window do timers and interrupts take more ticks than the demand has for its length, though
/// what came before it may still be left.
pub fn seen_keeps_to_the_demand()
    ensures taken { (comes : ℕ → ℕ) (node : Node) → ComeWithin comes node → TakenWithin comes node }
    ensures keeps { (comes : ℕ → ℕ) (node : Node) (jobs : List Job) (seen : ℕ → Option ℕ) → IsNode node
        → AreLegalJobs node jobs → ComeWithin comes node → IsSeen comes node jobs seen
        → SeenKeepsToDemand comes node jobs seen }
{}

/// Where none comes, the run is the kernel's.
pub fn without_interrupts_as_ruled()
    ensures { (node : Node) (jobs : List Job) (t j : ℕ)
        → executed_beside (λ s. 0) node jobs t j ≡ executed_before node jobs t j }
{}
