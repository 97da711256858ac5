//! What random lists are. The law is the contract of a function that does nothing.
ghost use Rattle.std.specs.Prelude.{◌≡◌, ◌+◌, ◌*◌, ℕ, suc, List, Some, IsTrue};
ghost use Rattle.task_sheet.specs.Sheet.{Task, task_at};
ghost use Rattle.task_sheet.specs.TaskSet.{IsTaskSet};
ghost use Rattle.release_list.specs.Random.{arrival_at, pace_of, random_of, IsRandomList};
ghost use Rattle.release_list.specs.Steady.{is_steady, offset_in};
ghost use Rattle.release_list.specs.declared.steady.SteadyTask.{SteadyTask};

/// The list holds the jobs that are ready before the end and no others, by time, and those of one time by rank. Jobs of steady
/// tasks arrive exactly a period apart, from their offsets on, where these are known.
pub fn random_lists_hold()
    ensures list { (U : List Task) (steady : List SteadyTask) (until seed : ℕ) → IsTaskSet U
        → IsRandomList U steady until seed (random_of U steady until seed) }
    ensures steady { (U : List Task) (steady : List SteadyTask) (i x k : ℕ) → IsTrue (is_steady steady i)
        → arrival_at (task_at U i) (pace_of (task_at U i) steady i) x (suc k)
        ≡ arrival_at (task_at U i) (pace_of (task_at U i) steady i) x k + (task_at U i).period }
    ensures clock { (U : List Task) (steady : List SteadyTask) (i offset x k : ℕ) → offset_in steady i ≡ Some offset
        → arrival_at (task_at U i) (pace_of (task_at U i) steady i) x k ≡ offset + k * (task_at U i).period }
{}
