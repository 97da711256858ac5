//! Laws of the densest list, and of lists that are written and read. Each is the contract of a function that does nothing.
ghost use Rattle.std.specs.Prelude.{◌≡◌, ◌<◌, ◌^◌, ℕ, List, All, None};
ghost use Rattle.task_sheet.specs.Sheet.{Task};
ghost use Rattle.task_sheet.specs.TaskSet.{IsTaskSet};
ghost use Rattle.ceiling_kernel.specs.Releases.{refusal_of};
ghost use Rattle.ceiling_kernel.specs.declared.trace.Release.{Release};
ghost use Rattle.release_list.specs.Densest.{densest_of, list_refusal, IsDensest};
ghost use Rattle.release_list.specs.Random.{random_of, random_refusal};
ghost use Rattle.release_list.specs.declared.steady.SteadyTask.{SteadyTask};
ghost use Rattle.release_list.specs.Reading.{IsWritable, ReadsBack};

/// The list holds the jobs that are ready before the end and no others, by time, and those of one time by rank.
pub fn lists_are_densest()
    ensures { (U : List Task) (steady : List SteadyTask) (until : ℕ) → IsTaskSet U
        → IsDensest U steady until (densest_of U steady until) }
{}

/// A kernel of the set refuses no such list.
pub fn kernels_refuse_none()
    ensures { (U : List Task) (steady : List SteadyTask) (until : ℕ) → IsTaskSet U
        → list_refusal U steady until ≡ None → refusal_of U (densest_of U steady until) until ≡ None }
{}

/// The lines of a release list are read as that list: so are those of the densest list and of random ones.
pub fn lists_are_read_back()
    ensures any { (until : ℕ) (rs : List Release) → until < 10 ^ 10 → All IsWritable rs
        → ReadsBack until rs }
    ensures densest { (U : List Task) (steady : List SteadyTask) (until : ℕ) → IsTaskSet U
        → list_refusal U steady until ≡ None → ReadsBack until (densest_of U steady until) }
    ensures random { (U : List Task) (steady : List SteadyTask) (until seed : ℕ) → IsTaskSet U
        → random_refusal U steady until seed ≡ None → ReadsBack until (random_of U steady until seed) }
{}
