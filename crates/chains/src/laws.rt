//! Laws of chains over any run. Each is the contract of a function that does nothing.
ghost use Rattle.std.specs.Prelude.{ℕ, List};
ghost use Rattle.ceiling_kernel.specs.Tick.{Node, Job};
ghost use Rattle.ceiling_kernel.specs.Waits.{IsNode, AreLegalJobs};
ghost use Rattle.chains.specs.Handovers.{HandoversHold, ResponsesCount};
ghost use Rattle.chains.specs.Orders.{SamplesKeepOrder};
ghost use Rattle.chains.specs.Bounds.{PartsAddUp, WritesAreDone};
ghost use Rattle.chains.specs.Ages.{AgesHold, OutputsAreFresh, SamplesNeverGoBack, AgesAreReactions, PathsGoOn};
ghost use Rattle.chains.specs.Reactions.{ReactionsHold, SamplesAreActedOn};
ghost use Rattle.chains.specs.Walks.{NoLongerSteps};
ghost use Rattle.chains.specs.Parts.{NoOrderMoves, OffsetsHelp, PartsComeTo, SteadyBound};
ghost use Rattle.chains.specs.declared.bounds.Writes.{Writes};

/// A job that arrives a handover or more after a job of another task starts only behind that one's finish, whatever the
/// jobs do within their tasks' sheets.
pub fn handovers_hold()
    ensures { (node : Node) (jobs : List Job) → IsNode node → AreLegalJobs node jobs
        → HandoversHold node jobs }
{}

/// Jobs of a task that passes start and finish in the order in which they arrive, each before the next one starts; so of two
/// outputs of a chain the later one has no older sample, and once an output has one, each later one has.
pub fn samples_keep_order()
    ensures jobs { (node : Node) (jobs : List Job) → IsNode node → AreLegalJobs node jobs
        → SamplesKeepOrder node jobs }
    ensures samples { (writes : Writes) (node : Node) (jobs : List Job) → IsNode node → AreLegalJobs node jobs
        → SamplesNeverGoBack writes node jobs }
    ensures paths { (writes : Writes) (node : Node) (jobs : List Job) → IsNode node → AreLegalJobs node jobs
        → PathsGoOn writes node jobs }
{}

/// The age of what a chain's last task wrote stays below the chain's bound, from its first path to the end of the run,
/// whatever the jobs do within their tasks' sheets: where each of its tasks passes, is steady and executes something in
/// each job. The other tasks may even miss. Where the offsets of the chain's tasks are known, their jobs arrive on one clock,
/// which may have begun before the run. When an output comes, its age is within the bound without offsets, less the last
/// gap, and the last task may be sporadic.
pub fn ages_hold()
    ensures bound { (writes : Writes) (node : Node) (jobs : List Job) → IsNode node → AreLegalJobs node jobs
        → AgesHold writes node jobs }
    ensures fresh { (writes : Writes) (node : Node) (jobs : List Job) → IsNode node → AreLegalJobs node jobs
        → OutputsAreFresh writes node jobs }
{}

/// Once all tasks of a chain have begun, each event is acted on within the chain's bound, until the end of the run: by then an
/// output comes whose sample is of that time or later. It assumes what the age does, the one clock too. What a job samples is
/// acted on within the bound without offsets, less the first gap, from its arrival, and the first task may be sporadic.
pub fn reactions_hold()
    ensures bound { (writes : Writes) (node : Node) (jobs : List Job) → IsNode node → AreLegalJobs node jobs
        → ReactionsHold writes node jobs }
    ensures samples { (writes : Writes) (node : Node) (jobs : List Job) → IsNode node → AreLegalJobs node jobs
        → SamplesAreActedOn writes node jobs }
{}

/// As long as an output stands, none has come of a later sample: from just after its sample to the next output that has one is
/// both an age and a reaction.
pub fn ages_are_reactions()
    ensures { (writes : Writes) (node : Node) (jobs : List Job) → IsNode node → AreLegalJobs node jobs
        → AgesAreReactions writes node jobs }
{}

/// A chain's bound is what its parts come to; without offsets the first gap and the delay of a sample; and the age of an output
/// that comes and the last gap. A response counts the cost of each task above, so that a handover takes it off whole.
pub fn parts_add_up()
    ensures parts { (writes : Writes) (offsets : List ℕ) (node : Node) (response : ℕ → ℕ) (tasks : List ℕ)
        → PartsComeTo writes offsets node response tasks }
    ensures bound { (writes : Writes) (node : Node) (response : ℕ → ℕ) (first : ℕ) (others : List ℕ)
        → PartsAddUp writes node response first others }
    ensures costs { (node : Node) → IsNode node → ResponsesCount node }
{}

/// Where a task passes, each of its jobs has executed all when it writes, be that at its deadline.
pub fn writes_are_done()
    ensures { (writes : Writes) (node : Node) (jobs : List Job) → IsNode node → AreLegalJobs node jobs
        → WritesAreDone writes node jobs }
{}

/// Where a chain's tasks write at their deadlines, its bound is the same in each order that has one.
pub fn no_order_moves()
    ensures { NoOrderMoves }
{}

/// Where the offsets of a chain's tasks aren't known, its bound is all gaps, handovers and how long the last task takes to
/// write; where they are, it is no longer.
pub fn offsets_help()
    ensures steady { (writes : Writes) (node : Node) (response : ℕ → ℕ) (first : ℕ) (others : List ℕ)
        → SteadyBound writes node response first others }
    ensures known { (writes : Writes) (offsets : List ℕ) (node : Node) (response : ℕ → ℕ) (first : ℕ)
        (others : List ℕ) → OffsetsHelp writes offsets node response first others }
{}

/// Where no part of a chain takes longer, its bound is no longer.
pub fn no_longer_steps()
    ensures { NoLongerSteps }
{}
