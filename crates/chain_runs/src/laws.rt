//! The laws of a chain's outputs. Each is the contract of a function that does nothing.
ghost use Rattle.chain_runs.specs.Strays.{StraysAreTold};
ghost use Rattle.chain_runs.specs.Runs.{AgesAreReached, NoneIsOlder, NoneIsSlower, OutputsAreTheRuns, ReactionsAreReached, RunsAreWithin};

/// The outputs that are found of a chain in a run are what the jobs of its last task write, one after the other, each
/// with the sample that its path begins with. Where they write at their deadlines, these and all below speak of valid sets.
pub fn outputs_are_the_runs()
    ensures { OutputsAreTheRuns }
{}

/// What stands of a chain is at no time of a run older than the greatest age that is found, and something gets as old.
pub fn ages_are_greatest()
    ensures older { NoneIsOlder }
    ensures reached { AgesAreReached }
{}

/// An event just after the sample of an output, where it is acted on in the run, waits for no longer than the greatest reaction
/// that is found, and one waits for so long.
pub fn reactions_are_greatest()
    ensures slower { NoneIsSlower }
    ensures reached { ReactionsAreReached }
{}

/// Where each of the chain's tasks passes, is steady, and arrives on the chain's clock, if its offset is known, both are within the
/// chain's bound.
pub fn runs_are_within()
    ensures { RunsAreWithin }
{}

/// Of a task whose offset is known no line is told exactly where its jobs arrive on the clock that begins with the run.
pub fn strays_are_told()
    ensures { StraysAreTold }
{}
