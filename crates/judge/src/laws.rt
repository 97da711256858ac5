//! Laws of orders that a node has. Each is the contract of a function that does nothing.
ghost use Rattle.std.specs.Prelude.{◌≡◌, ◌↔◌, ◌+◌, ◌<◌, ◌≤◌, ℕ, All, Bool, List, drop, length, slice_index, IsTrue};
ghost use Rattle.task_sheet.specs.Sheet.{Task, AllTasks};
ghost use Rattle.task_sheet.specs.TaskSet.{IsTaskSet};
ghost use Rattle.task_sheet.specs.Indexes.{among};
ghost use Rattle.task_sheet.specs.Demand.{blocking_of};
ghost use Rattle.task_sheet.specs.Orders.{AllStand, IsOrder};
ghost use Rattle.assignment.specs.Places.{PlaceData};
ghost use Rattle.assignment.specs.Placings.{IsBestPlacing, tasks_of_places};
ghost use Rattle.settings.specs.Settings.{settings_anew, settings_from, settings_kept};
ghost use Rattle.judge.specs.Judgements.{AllJudged, all_meet, judged_of, order_judged};
ghost use Rattle.judge.specs.Ceilings.{AllJudgedBy, blocking_at, ceiling_in};
ghost use Rattle.judge.specs.SettingFaults.{setting_number, thread_number, top_number};
ghost use Rattle.judge.specs.Node.{IsNodeOrder, IsNodeOrderBy, IsOrderBy};
ghost use Rattle.judge.specs.Slack.{IsStableSort, by_slack, row_key};
ghost use Rattle.judge.specs.declared.judging.JudgedTask.{JudgedTask};
ghost use Rattle.judge.specs.declared.levels.LevelRow.{LevelRow};
ghost use Rattle.judge.specs.declared.rows.Setting.{Setting};
ghost use Rattle.judge.specs.declared.rows.TheConstants.{NUMBER_LIMIT};

/// An order is judged in one way at most.
pub fn judged_is_one()
    ensures { (U : List Task) (first second : List JudgedTask) → order_judged first ≡ order_judged second
        → AllJudged U first → AllJudged U second → first ≡ second }
{}

/// All tasks of an order are judged to meet their deadlines exactly where each may stand below those after it.
pub fn passing_is_judged()
    ensures { (U : List Task) (judged : List JudgedTask) → AllJudged U judged
        → IsTrue (all_meet judged) ↔ AllStand U (order_judged judged) }
{}

/// The best order is judged to meet all deadlines, with the responses that its placing has.
pub fn best_is_judged()
    ensures judged { (U : List Task) (places : List PlaceData) → AllTasks U → IsBestPlacing U places
        → AllJudged U (judged_of places) }
    ensures order { (places : List PlaceData)
        → order_judged (judged_of places) ≡ tasks_of_places places }
    ensures meets { (places : List PlaceData) → IsTrue (all_meet (judged_of places)) }
{}

/// A text gives a set one order at most, whichever way its numbers count.
pub fn node_order_is_one()
    ensures { (lower : Bool) (U : List Task) (text first second : List ℕ)
        → IsNodeOrderBy lower U text first → IsNodeOrderBy lower U text second → first ≡ second }
{}

/// What the settings of an order print gives the order back, for each order of a set, passing or not, and from each
/// base at which no priority is above the limit.
pub fn settings_are_read()
    ensures { (U : List Task) (base : ℕ) (order : List ℕ) → IsTaskSet U → IsOrder U order
        → 1 ≤ base → base + length order ≤ NUMBER_LIMIT + 1
        → IsNodeOrder U (settings_from U base order) order }
{}

/// So does what they print with numbers that threads had, or with room: the comments that name those that moved are skipped.
pub fn numbered_settings_are_read()
    ensures kept { (U : List Task) (base room : ℕ) (old order : List ℕ) → IsTaskSet U → IsOrder U order
        → length old ≡ length order → All (λ n. n ≤ NUMBER_LIMIT) old → 1 ≤ base
        → base + length order ≤ NUMBER_LIMIT + 1
        → IsNodeOrder U (settings_kept U base room old order) order }
    ensures anew { (U : List Task) (base room : ℕ) (order : List ℕ) → IsTaskSet U → IsOrder U order
        → 1 ≤ base → base + length order ≤ NUMBER_LIMIT + 1
        → IsNodeOrder U (settings_anew U base room order) order }
{}

/// What the settings of the best order print is judged to meet all deadlines, with the responses that its placing has;
/// and in no other way. So from each base at which no priority is above the limit.
pub fn best_settings_meet()
    ensures { (U : List Task) (base : ℕ) (places : List PlaceData) (judged : List JudgedTask) → IsTaskSet U
        → IsBestPlacing U places → 1 ≤ base → base + length places ≤ NUMBER_LIMIT + 1
        → IsNodeOrder U (settings_from U base (tasks_of_places places)) (order_judged judged)
        → AllJudged U judged → judged ≡ judged_of places }
{}

/// Given ceilings block no less than the least ones; and where no mutex is above the highest user of its lock, what they
/// block, and what becomes of each task, is the same as by the least.
pub fn given_ceilings_block_no_less()
    ensures more { (U : List Task) (threads mutexes : List Setting) (order : List ℕ) (place : ℕ)
        → IsOrderBy U threads order → place < length order
        → blocking_of U (slice_index order place) (among (drop (place + 1) order))
        ≤ blocking_at (ceiling_in U threads mutexes) (thread_number U threads (slice_index order place))
        U (slice_index order place) (among (drop (place + 1) order)) }
    ensures same { (U : List Task) (threads mutexes : List Setting) (order : List ℕ) (place : ℕ)
        → IsOrderBy U threads order → place < length order
        → ((lock : List ℕ) → setting_number mutexes lock ≤ top_number U threads lock)
        → blocking_at (ceiling_in U threads mutexes) (thread_number U threads (slice_index order place))
        U (slice_index order place) (among (drop (place + 1) order))
        ≡ blocking_of U (slice_index order place) (among (drop (place + 1) order)) }
    ensures judged { (U : List Task) (threads mutexes : List Setting) (judged : List JudgedTask)
        → IsOrderBy U threads (order_judged judged)
        → ((lock : List ℕ) → setting_number mutexes lock ≤ top_number U threads lock)
        → AllJudgedBy U threads mutexes judged ↔ AllJudged U judged }
{}

/// Sorting by slack gives the stable sort of the rows by their keys: it loses none and doubles none.
pub fn sorting_keeps_rows()
    ensures { (U : List Task) (rows : List LevelRow) → IsStableSort (row_key U) rows (by_slack U rows) }
{}
