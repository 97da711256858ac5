//! Laws of the claims and of the demands. Each is the clause of a function that does nothing.
ghost use Rattle.std.specs.Prelude.{ℕ, ◌+◌, ◌<◌, ◌≤◌, List};
ghost use Rattle.task_sheet.specs.Sheet.{Task};
ghost use Rattle.task_sheet.specs.Indexes.{Indexes};
ghost use Rattle.task_sheet.specs.Demand.{evaluation_bound, limit_of};
ghost use Rattle.candidate_workers.specs.declared.gathering.Claimed.{Claimed};
ghost use Rattle.candidate_workers.specs.Candidates.{CandidatesData};
ghost use Rattle.candidate_workers.specs.Claims.{count_of, candidate_at};
ghost use Rattle.candidate_workers.specs.Counting.{times};
ghost use Rattle.candidate_workers.specs.Crews.{whole_view, AreClaims};
ghost use Rattle.candidate_workers.specs.Threads.{demands_on};

/// The workers answered for each candidate up to the least that passes, and for all where none passes, and handed on the
/// least that passes: these decide the level.
pub fn claims_find_all()
    ensures answered { (level : CandidatesData) (tasks : List ℕ) (claimed : Claimed) (k : ℕ) →
        AreClaims level tasks claimed → k < count_of level → k ≤ claimed.least →
        0 < times k (whole_view claimed).failed + times k (whole_view claimed).passed }
    ensures least { (level : CandidatesData) (tasks : List ℕ) (claimed : Claimed) →
        AreClaims level tasks claimed → claimed.least < count_of level →
        0 < times (candidate_at level claimed.least) tasks }
{}

/// The bound on a task's demands holds whatever tasks are above it.
pub fn demands_are_bounded()
    ensures { (set : List Task) (task : Task) (above : Indexes) →
        evaluation_bound set above (limit_of task) ≤ demands_on set task }
{}
