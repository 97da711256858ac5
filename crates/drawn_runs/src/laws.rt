//! Laws of the pictures of runs. Each is the contract of a function that does nothing.
ghost use Rattle.std.specs.Prelude.{◌≡◌, ℕ, List, All, Ok, length, true};
ghost use Rattle.task_sheet.specs.Sheet.{Task};
ghost use Rattle.task_sheet.specs.TaskSet.{IsTaskSet};
ghost use Rattle.assignment.specs.Places.{PlaceData};
ghost use Rattle.assignment.specs.Placings.{IsBestPlacing};
ghost use Rattle.ceiling_kernel.specs.Runs.{Runs};
ghost use Rattle.ceiling_kernel.specs.Tick.{Node};
ghost use Rattle.ceiling_kernel.specs.declared.trace.JobRecord.{JobRecord};
ghost use Rattle.ceiling_kernel.specs.declared.trace.Release.{Release};
ghost use Rattle.ceiling_kernel.specs.declared.trace.Trace.{Trace};
ghost use Rattle.run_lines.specs.TaskBounds.{bounds_of};
ghost use Rattle.run_lines.specs.declared.bounds.TaskBound.{TaskBound};
ghost use Rattle.frames.specs.declared.rows.TaskRow.{TaskRow};
ghost use Rattle.frames.specs.declared.view.View.{View};
ghost use Rattle.frames.specs.Frame.{Frame, frame_of};
ghost use Rattle.drawn_jobs.specs.Misses.{all_missed};
ghost use Rattle.drawn_jobs.specs.Bands.{jobs_text};
ghost use Rattle.frames.specs.PictureRows.{each};
ghost use Rattle.drawn_runs.specs.Late.{IsBestRun, IsRowOf, NoneIsLate};
ghost use Rattle.drawn_runs.specs.DrawnRows.{Looks, rows_of};
ghost use Rattle.drawn_runs.specs.Apart.{are_apart};
ghost use Rattle.drawn_runs.specs.Stand.{AreByArrival, IsSeenAt, StandsOnce, text_at};

/// Of an admitted set in its best order no job is drawn as missed, in whatever view: none is late in the row of its task,
/// and the number of missed deadlines is 0. The rows of the best order are rows of the set's tasks.
pub fn none_is_missed()
    ensures late { (U : List Task) (places : List PlaceData) (rs : List Release) (until : ℕ) (trace : Trace)
        (rows : List TaskRow) (v : View) → IsBestRun U places rs until trace rows
        → All (NoneIsLate (frame_of rows v until) trace.jobs.items) rows }
    ensures counted { (U : List Task) (places : List PlaceData) (rs : List Release) (until : ℕ) (trace : Trace)
        (rows : List TaskRow) (v : View) → IsBestRun U places rs until trace rows
        → all_missed (frame_of rows v until) rows trace.jobs.items ≡ 0 }
    ensures rows { (U : List Task) (places : List PlaceData) (looks : Looks) → IsTaskSet U
        → IsBestPlacing U places → All (IsRowOf U) (rows_of U looks (bounds_of places)) }
{}

/// Each job of the window whose task's row is shown stands in exactly one place, alone or in one band; the box of that place
/// is in the window too, and the document has it. What the document has of the jobs are the texts of all places, and the
/// jobs of a run stand by arrival.
pub fn each_job_stands_once()
    ensures stands { (f : Frame) (rows : List TaskRow) (shown : List ℕ) (jobs : List JobRecord)
        (j rank k : ℕ) → AreByArrival jobs → IsSeenAt f rows shown jobs j rank k
        → StandsOnce f rows shown jobs j rank k }
    ensures places { (f : Frame) (rows : List TaskRow) (shown : List ℕ) (jobs : List JobRecord)
        → jobs_text f rows shown jobs ≡ each (length jobs) (text_at f rows shown jobs) }
    ensures arrivals { (node : Node) (rs : List Release) (until : ℕ) (trace : Trace)
        → Runs node rs until (Ok trace) → AreByArrival trace.jobs.items }
{}

/// Of the rows that are shown none has the tone of the one above it, whatever the set and the order.
pub fn rows_are_apart()
    ensures { (U : List Task) (looks : Looks) (bounds : List TaskBound)
        → are_apart looks (rows_of U looks bounds) ≡ true }
{}
