//! Laws of the tick rule, which speak of no body: each is the contract of a function that does nothing.

ghost use Rattle.std.specs.Prelude.{◌≡◌, ◌<◌, ℕ, List, length};
ghost use Rattle.task_sheet.specs.Sheet.{task_at};
ghost use Rattle.task_sheet.specs.Indexes.{among};
ghost use Rattle.task_sheet.specs.Orders.{IsPassingOrder};
ghost use Rattle.ceiling_kernel.specs.Tick.{Node, Job, picked};
ghost use Rattle.ceiling_kernel.specs.Trace.{slices_of};
ghost use Rattle.ceiling_kernel.specs.Readings.{PicksFirst, IdlesEmpty, AreLongestRuns, FinishesAreEnds, UnfinishedLack};
ghost use Rattle.ceiling_kernel.specs.Waits.{IsNode, AreLegalJobs, NobodyWaits, AskAnew, NobodyFindsItTaken, OneOwner, NoOverrun};
ghost use Rattle.ceiling_kernel.specs.Behaviours.{AreWithinSheets, TakeTurns, AreCut, AreKnown, cut_at};
ghost use Rattle.ceiling_kernel.specs.Jumps.{PickStays, IdleStays};
ghost use Rattle.ceiling_kernel.specs.Turns.{TasksKeepOrder};
ghost use Rattle.ceiling_kernel.specs.Bounds.{above_of, after_of, WindowsHold, ResponsesBound, BoundHolds, TighterBoundHolds};

/// The tick rule picks a pending job of greatest active priority, and among equals the one of lower own level; it picks
/// none only where none is pending.
pub fn picks_go_first()
    ensures picked { (node : Node) (jobs : List Job) → PicksFirst node jobs }
    ensures idle { (node : Node) (jobs : List Job) → IdlesEmpty node jobs }
{}

/// The slices of a trace are the longest runs of ticks of one job, by time, and leave out no tick that picks a job.
pub fn slices_are_longest_runs()
    ensures { (node : Node) (jobs : List Job) (until : ℕ)
        → AreLongestRuns (picked node jobs) 0 until (slices_of node jobs until) }
{}

/// A job's finish is the end of the last tick that it executes;
/// without one by a time, it lacks some.
pub fn finishes_are_ends()
    ensures finished { (node : Node) (jobs : List Job) → FinishesAreEnds node jobs }
    ensures unfinished { (node : Node) (jobs : List Job) → UnfinishedLack node jobs }
{}

/// Whenever a job asks for locks nobody holds any of them, and its own level is at most the ceiling of each: no job waits,
/// and EINVAL can't occur. Where jobs take their sections in turn, it then holds none, and has its own level. It holds for
/// every order, passing or not, as long as no job overruns the one before it.
pub fn nobody_waits()
    ensures turns { (node : Node) (jobs : List Job) → IsNode node → AreLegalJobs node jobs
        → TakeTurns jobs → NobodyWaits node jobs }
    ensures nested { (node : Node) (jobs : List Job) → IsNode node → AreLegalJobs node jobs
        → AskAnew jobs → NobodyFindsItTaken node jobs }
{}

/// No two jobs hold a lock: each lock has one owner at most, as long as no job overruns the one before it.
pub fn locks_have_one_owner()
    ensures { (node : Node) (jobs : List Job) → IsNode node → AreLegalJobs node jobs
        → AskAnew jobs → OneOwner node jobs }
{}

/// Jobs that do as their tasks' sheets say, and may end early, are within them, and take their sections in turn, so that
/// they ask for no lock that they hold; one that executes its cost takes all the sections of its sheet.
pub fn sheets_are_met()
    ensures early { (node : Node) (jobs : List Job) → IsNode node → AreKnown node jobs → AreCut node jobs
        → AreWithinSheets node jobs × TakeTurns jobs }
    ensures anew { (jobs : List Job) → TakeTurns jobs → AskAnew jobs }
    ensures whole { (node : Node) → IsNode node → (i : ℕ) → i < length node.tasks
        → cut_at (task_at node.tasks i).cost (task_at node.tasks i).sections
        ≡ (task_at node.tasks i).sections }
{}

/// Of two jobs of one task, the one that arrives first is ready first: a job is late by less than a period.
pub fn tasks_keep_order()
    ensures { (node : Node) (jobs : List Job) → IsNode node → AreLegalJobs node jobs
        → TasksKeepOrder jobs }
{}

/// From one event to the next the pick stays; events are that a job becomes ready, or that the job that runs reaches a
/// boundary of its sections or its end.
pub fn picks_stay()
    ensures picked { (node : Node) (jobs : List Job) → TakeTurns jobs → PickStays node jobs }
    ensures idle { (node : Node) (jobs : List Job) → IdleStays node jobs }
{}

/// The tasks at higher levels than a task are those that stand after it in the order: what the analysis has above it.
pub fn levels_follow_the_order()
    ensures { (node : Node) → IsNode node → (i h : ℕ) → i < length node.tasks
        → among (after_of node.order i) h ≡ above_of node i h }
{}

/// In a window of t ticks at most `ceil((t + jitter) / period)` jobs of a task become ready: the number that the analysis
/// counts (Audsley et al. 1993).
pub fn windows_hold()
    ensures { (node : Node) (jobs : List Job) → IsNode node → AreLegalJobs node jobs
        → WindowsHold node jobs }
{}

/// The response of the analysis is a bound: its time past the jitter shows that the task passes.
pub fn responses_bound()
    ensures { (node : Node) → ResponsesBound node }
{}

/// Each job of a task that passes finishes within its bound, counted from its arrival, whatever the jobs do within their
/// tasks' sheets (Burns, Baruah 2008: the bound is sustainable); and in a set with a passing order no job overruns the one
/// before it (Audsley et al. 1993). Where a section blocks, the bound is met a tick of it sooner: it has begun before. No
/// timer and no interrupt takes anything here: the bound, which counts them, holds all the more.
pub fn bound_holds()
    ensures bound { (node : Node) (jobs : List Job) → IsNode node → AreLegalJobs node jobs
        → BoundHolds node jobs }
    ensures tighter { (node : Node) (jobs : List Job) → IsNode node → AreLegalJobs node jobs
        → TighterBoundHolds node jobs }
    ensures no_overrun { (node : Node) (jobs : List Job) → IsNode node → AreLegalJobs node jobs
        → IsPassingOrder node.tasks node.order
        → NoOverrun node jobs }
{}
