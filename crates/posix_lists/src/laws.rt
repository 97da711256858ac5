//! Laws, which speak of no body: each is the contract of a function that does nothing.

ghost use Rattle.std.specs.Prelude.{ℕ, List};
ghost use Rattle.ceiling_kernel.specs.Tick.{Node, Job};
ghost use Rattle.ceiling_kernel.specs.Waits.{IsNode, AreLegalJobs, AskAnew, NoOverrun};
ghost use Rattle.ceiling_kernel.specs.Behaviours.{TakeTurns};
ghost use Rattle.posix_lists.specs.ThreadLists.{Threads, AnyWay, WhereRaised, IsRun, CanRun, EachTickIsRuled};

/// As long as no job overruns the one before it, each tick executes the job that the tick rule picks, and that one waits for
/// no mutex: where jobs take their sections in turn, to whichever end of its list a thread comes that locks or unlocks a
/// mutex; where they nest them, if it comes to the tail only where its priority was raised.
pub fn lists_pick_as_ruled()
    ensures turns { (node : Node) (jobs : List Job) (run : ℕ → Threads) → IsNode node → AreLegalJobs node jobs
        → TakeTurns jobs → IsRun AnyWay node jobs run → EachTickIsRuled node jobs run }
    ensures nested { (node : Node) (jobs : List Job) (run : ℕ → Threads) → IsNode node → AreLegalJobs node jobs
        → AskAnew jobs → IsRun WhereRaised node jobs run → EachTickIsRuled node jobs run }
{}

/// There are such runs: of jobs of which none overruns the one before it, as in a set with a passing order.
pub fn lists_can_run()
    ensures { (node : Node) (jobs : List Job) → IsNode node → AreLegalJobs node jobs → NoOverrun node jobs
        → CanRun node jobs }
{}
