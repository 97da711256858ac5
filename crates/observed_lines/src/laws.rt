//! A law of what a trace shows: the contract of a function that does nothing.
ghost use Rattle.std.specs.Prelude.{◌≡◌, ℕ, ◌+◌, ◌≤◌, List, true, All};
ghost use Rattle.observed.specs.SeenJob.{SeenData};
ghost use Rattle.observed_lines.specs.Breaks.{is_kept};

/// Where no job breaks a promise by more than a tolerance, each that is done took at most its bound and the tolerance, and
/// each other isn't further past it at the end of the trace.
pub fn kept_jobs_meet_their_bounds()
    ensures { (tolerance : ℕ) (seen : List SeenData) → is_kept tolerance seen ≡ true
        → All (λ s. s.lasted ≤ s.promise.bound + tolerance) seen }
{}
