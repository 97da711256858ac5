//! The law of what is left of a list: it is the contract of a function that does nothing.
ghost use Rattle.std.specs.Prelude.{ℕ, List};
ghost use Rattle.ceiling_kernel.specs.Tick.{Node};
ghost use Rattle.ceiling_kernel.specs.declared.trace.Release.{Release};
ghost use Rattle.cut_runs.specs.Cut.{CutsAreRun};

/// What is left of a list that stops at an overrun is refused by no kernel, and no job of it overruns the one before it; up
/// to there the run is that of the whole list.
pub fn cuts_are_run()
    ensures { (node : Node) (rs : List Release) (until : ℕ) → CutsAreRun node rs until }
{}
