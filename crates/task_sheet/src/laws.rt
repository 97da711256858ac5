//! Laws of the analysis. Each is the clause of a function that does nothing, and its names are defined in `specs/`.

ghost use Rattle.std.specs.Prelude.{◌≡◌, ◌≤◌, ◌<◌, ◌+◌, ◌↔◌, ◌⊎◌, ℕ, List, length, Some, None, IsTrue, IsFalse};
ghost use Rattle.std.specs.Int.{div_ceil};
ghost use Rattle.task_sheet.specs.Sheet.{Task, CriticalSection, AllTasks, task_at};
ghost use Rattle.task_sheet.specs.declared.sheet.TheConstants.{PERIOD_TO};
ghost use Rattle.std.specs.List.Sorted.{IsPermutation};
ghost use Rattle.task_sheet.specs.Rank.{IsByRank};
ghost use Rattle.task_sheet.specs.TaskSet.{IsTaskSet};
ghost use Rattle.task_sheet.specs.Indexes.{Indexes, IsPart, with_index, either_of, listed_below};
ghost use Rattle.task_sheet.specs.Locks.{uses, ceiling_of, IsHighestUser};
ghost use Rattle.task_sheet.specs.Responses.{IsResponse, IsChain, IsFullChain};
ghost use Rattle.task_sheet.specs.Demand.{releases_within, limit_of, blocking_of, Blocks, interference_within, has_interrupts, IsUninterrupted, demand_of, IsResponseOf, Passes, does_pass};
ghost use Rattle.task_sheet.specs.Orders.{all_of, must_outrank_any, Stands, IsOrder, IsFeasible, IsBest};
ghost use Rattle.task_sheet.specs.Levels.{NoneStands, IsObstruction, IsGreatestObstruction, left_after, AllChosen};
ghost use Rattle.task_sheet.specs.Choices.{does_stand};
ghost use Rattle.task_sheet.specs.Verdicts.{ReasonData, IsReason, FailureData, LevelData, VerdictData, Admitted, Infeasible, tasks_of, order_of, AllFailures, AllLevels, IsVerdictOf};
ghost use Rattle.task_sheet.specs.Ready.{IsReadyOrder, IsReadySet};

/// A valid set meets the premise of the laws.
pub fn valid_set_qualifies()
    ensures { (U : List Task) → IsTaskSet U → AllTasks U }
{}

/// In whatever order sheets are given, they have one list by rank at most.
pub fn set_by_rank_is_one()
    ensures { (xs ys first second : List Task) → IsPermutation xs ys → IsByRank xs first
        → IsByRank ys second
        → first ≡ second }
{}

/// The blocking is the greatest length of the sections that block, and 0 where none does
/// (Sha, Rajkumar, Lehoczky 1990).
pub fn blocking_is_greatest()
    ensures above { (U : List Task) (i : ℕ) (H : Indexes) (s : CriticalSection) → Blocks U i H s
        → s.len ≤ blocking_of U i H }
    ensures some { (U : List Task) (i : ℕ) (H : Indexes)
        → (blocking_of U i H ≡ 0)
        ⊎ ((s : CriticalSection) × Blocks U i H s × (blocking_of U i H ≡ s.len)) }
{}

/// The ceiling of a lock is the level of its highest user. In an order of the set it has none exactly where no task
/// uses it.
pub fn ceiling_is_highest()
    ensures level { (U : List Task) (order lock : List ℕ) (level : ℕ)
        → (ceiling_of U order lock ≡ Some level)
        ↔ ((place : ℕ) × (level ≡ place + 1) × IsHighestUser U order lock place) }
    ensures none { (U : List Task) (order lock : List ℕ) → IsOrder U order
        → (ceiling_of U order lock ≡ None)
        ↔ ((k : ℕ) → k < length U → IsFalse (uses (task_at U k) lock)) }
{}

/// More tasks above take no demand away: what their sections no longer block, their jobs execute.
pub fn exchange()
    ensures one { (U : List Task) (i j : ℕ) (H : Indexes) (t : ℕ) → AllTasks U → 1 ≤ t
        → demand_of U i H t ≤ demand_of U i (with_index H j) t }
    ensures part { (U : List Task) (i : ℕ) (H G : Indexes) (t : ℕ) → AllTasks U → IsPart H G → 1 ≤ t
        → demand_of U i H t ≤ demand_of U i G t }
{}

/// Without timers and interrupts the demand is cost, blocking and interference (Audsley et al. 1993); the test says
/// whether there are any.
pub fn no_interrupts_is_plain()
    ensures demand { (U : List Task) (i : ℕ) (H : Indexes) (t : ℕ) → IsUninterrupted U
        → demand_of U i H t
        ≡ (task_at U i).cost + blocking_of U i H + interference_within U H t }
    ensures test { (U : List Task) → IsFalse (has_interrupts U) ↔ IsUninterrupted U }
{}

/// Within the longest period, the demand of a valid set has at most ten digits.
pub fn demand_fits()
    ensures { (U : List Task) (i : ℕ) (H : Indexes) (t : ℕ) → IsTaskSet U → i < length U
        → t ≤ PERIOD_TO
        → demand_of U i H t < 10000000000 }
{}

/// A task passes exactly where it has a response within its deadline: the least positive time that is its own demand,
/// plus its jitter (Audsley et al. 1993).
pub fn response_is_least()
    ensures passes { (U : List Task) (i : ℕ) (H : Indexes) → AllTasks U → i < length U
        → Passes U i H
        ↔ ((r : ℕ) × IsResponseOf U i H r × (r ≤ (task_at U i).deadline)) }
    ensures jitter { (U : List Task) (i : ℕ) (H : Indexes) (r : ℕ)
        → IsResponseOf U i H r
        ↔ ((t : ℕ) × IsResponse (demand_of U i H) t × (r ≡ t + (task_at U i).jitter)) }
{}

/// Without jitter the words of the analysis are the plain ones: a task is released once a period at most, its limit is
/// its deadline, and its response is the least positive time that is its own demand (Joseph, Pandya 1986).
pub fn no_jitter_is_plain()
    ensures releases { (t : Task) (time : ℕ) → t.jitter ≡ 0
        → releases_within t time ≡ div_ceil time t.period }
    ensures limit { (t : Task) → t.jitter ≡ 0 → limit_of t ≡ t.deadline }
    ensures response { (U : List Task) (i : ℕ) (H : Indexes) (r : ℕ) → (task_at U i).jitter ≡ 0
        → IsResponseOf U i H r ↔ IsResponse (demand_of U i H) r }
{}

/// The test says whether a task passes.
pub fn passes_is_decided()
    ensures { (U : List Task) (i : ℕ) (H : Indexes) → IsTrue (does_pass U i H) ↔ Passes U i H }
{}

/// Where there is a chain, the task does not pass.
pub fn chain_refutes()
    ensures { (U : List Task) (i : ℕ) (H : Indexes) (numbers : List ℕ) → AllTasks U
        → IsChain (demand_of U i H) (limit_of (task_at U i)) numbers
        → ¬ Passes U i H }
{}

/// A task fails exactly where it has a full chain.
pub fn full_chain_shows()
    ensures { (U : List Task) (i : ℕ) (H : Indexes) → AllTasks U
        → (¬ Passes U i H)
        ↔ ((numbers : List ℕ) × IsFullChain (demand_of U i H) (limit_of (task_at U i)) numbers) }
{}

/// A demand has one full chain at most for a limit.
pub fn full_chain_is_one()
    ensures { (W : ℕ → ℕ) (limit : ℕ) (first second : List ℕ) → IsFullChain W limit first
        → IsFullChain W limit second
        → first ≡ second }
{}

/// A task that is unbound in some tasks is unbound in each part of them; so it may stand below fewer.
pub fn fewer_bind_less()
    ensures unbound { (U : List Task) (i : ℕ) (H G : Indexes) → IsPart H G
        → IsFalse (must_outrank_any U i G)
        → IsFalse (must_outrank_any U i H) }
    ensures stands { (U : List Task) (i : ℕ) (H G : Indexes) → AllTasks U → IsPart H G
        → Stands U i G → Stands U i H }
{}

/// The test says whether a task may stand.
pub fn standing_is_decided()
    ensures { (U : List Task) (i : ℕ) (H : Indexes) → IsTrue (does_stand U i H) ↔ Stands U i H }
{}

/// A task may not stand exactly where it has a reason, and it has one reason at most.
pub fn reason_shows()
    ensures exactly { (U : List Task) (i : ℕ) (H : Indexes) → AllTasks U
        → (¬ Stands U i H) ↔ ((reason : ReasonData) × IsReason U i H reason) }
    ensures one { (U : List Task) (i : ℕ) (H : Indexes) (first second : ReasonData)
        → IsReason U i H first → IsReason U i H second → first ≡ second }
{}

/// Where there is an obstruction, no order passes.
pub fn obstruction_refutes()
    ensures { (U : List Task) (S : Indexes) → AllTasks U → IsObstruction U S → ¬ IsFeasible U }
{}

/// Two obstructions together are one.
pub fn obstructions_unite()
    ensures { (U : List Task) (S R : Indexes) → AllTasks U → IsObstruction U S → IsObstruction U R
        → IsObstruction U (either_of S R) }
{}

/// No order passes exactly where there is an obstruction, and where there is one, there is a greatest.
pub fn infeasible_is_obstructed()
    ensures exactly { (U : List Task) → AllTasks U → (¬ IsFeasible U)
        ↔ ((S : Indexes) × IsObstruction U S) }
    ensures greatest { (U : List Task) (S : Indexes) → AllTasks U → IsObstruction U S
        → (G : Indexes) × IsGreatestObstruction U G }
{}

/// The task of least rank that may stand there, level by level from the lowest up, gives the best order (Audsley 1991).
pub fn least_first_is_best()
    ensures { (U : List Task) (order : List ℕ) → AllChosen U (all_of U) order
        → ((k : ℕ) → IsFalse (left_after (all_of U) order k))
        → IsBest U order }
{}

/// Where some are left and none of them may stand below the others, they are the greatest obstruction.
pub fn rest_is_greatest()
    ensures { (U : List Task) (placed : List ℕ) (k : ℕ) → AllTasks U
        → AllChosen U (all_of U) placed
        → IsTrue (left_after (all_of U) placed k)
        → NoneStands U (left_after (all_of U) placed)
        → IsGreatestObstruction U (left_after (all_of U) placed) }
{}

/// A set has one best order at most.
pub fn best_is_one()
    ensures { (U : List Task) (first second : List ℕ) → IsBest U first → IsBest U second
        → first ≡ second }
{}

/// A set has a best order, or a greatest obstruction.
pub fn best_or_obstructed()
    ensures { (U : List Task) → AllTasks U
        → ((order : List ℕ) × IsBest U order)
        ⊎ ((S : Indexes) × IsGreatestObstruction U S) }
{}

/// Levels that are ready give the best order.
pub fn ready_is_best()
    ensures { (U : List Task) (levels : List LevelData) → AllTasks U → IsReadyOrder U levels
        → IsBest U (order_of levels) }
{}

/// Where the members of a set are ready, no order passes.
pub fn ready_refutes()
    ensures { (U : List Task) (members : List FailureData) → AllTasks U → IsReadySet U members
        → ¬ IsFeasible U }
{}

/// What the climb from the lowest level up leads to is the verdict.
pub fn climb_gives_verdict()
    ensures admitted { (U : List Task) (levels : List LevelData)
        → AllChosen U (all_of U) (order_of levels)
        → AllLevels U (all_of U) levels
        → ((k : ℕ) → IsFalse (left_after (all_of U) (order_of levels) k))
        → IsVerdictOf U (Admitted levels) }
    ensures infeasible { (U : List Task) (placed : List ℕ) (members : List FailureData) (k : ℕ)
        → AllTasks U
        → AllChosen U (all_of U) placed
        → IsTrue (left_after (all_of U) placed k)
        → (tasks_of members ≡ listed_below (length U) (left_after (all_of U) placed))
        → AllFailures U (left_after (all_of U) placed) members
        → IsVerdictOf U (Infeasible members) }
{}

/// A set has a verdict.
pub fn verdict_exists()
    ensures { (U : List Task) → AllTasks U → (verdict : VerdictData) × IsVerdictOf U verdict }
{}

/// A set has one verdict at most.
pub fn verdict_is_one()
    ensures { (U : List Task) (first second : VerdictData) → AllTasks U → IsVerdictOf U first
        → IsVerdictOf U second
        → first ≡ second }
{}

/// The verdict says whether some order passes.
pub fn verdict_decides()
    ensures admitted { (U : List Task) (levels : List LevelData) → IsVerdictOf U (Admitted levels)
        → IsFeasible U }
    ensures infeasible { (U : List Task) (members : List FailureData) → AllTasks U
        → IsVerdictOf U (Infeasible members)
        → ¬ IsFeasible U }
{}

/// A verdict is ready for a certificate.
pub fn verdict_is_ready()
    ensures admitted { (U : List Task) (levels : List LevelData) → AllTasks U
        → IsVerdictOf U (Admitted levels)
        → IsReadyOrder U levels }
    ensures infeasible { (U : List Task) (members : List FailureData)
        → IsVerdictOf U (Infeasible members)
        → IsReadySet U members }
{}
