//! Laws of iterations. Each is the clause of a function that does nothing, and its names are defined in `specs/`.
ghost use Rattle.std.specs.Prelude.{◌≡◌, ◌≤◌, ◌<◌, ℕ, List, length};
ghost use Rattle.task_sheet.specs.Sheet.{Task, AllTasks};
ghost use Rattle.task_sheet.specs.Indexes.{Indexes};
ghost use Rattle.task_sheet.specs.Responses.{IsResponse};
ghost use Rattle.task_sheet.specs.Demand.{demand_of};
ghost use Rattle.response_time.specs.Starts.{iterate_from};

/// From whatever number that is at most a demand's least fixed point it is iterated, it comes to that point, and stays.
pub fn start_is_free()
    ensures { (U : List Task) (i : ℕ) (H : Indexes) (start response : ℕ) → AllTasks U → i < length U
        → IsResponse (demand_of U i H) response → start ≤ response
        → (n : ℕ) × ((k : ℕ) → n ≤ k → iterate_from (demand_of U i H) start k ≡ response) }
{}
