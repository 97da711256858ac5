//! Laws of the core. Each is the clause of a function that does nothing, and its names are defined in `specs/`.

ghost use Rattle.std.specs.Prelude.{◌≡◌, ◌≤◌, ◌+◌, ◌*◌, ℕ, List, [], Some, None, Ok, length, map};
ghost use Rattle.task_sheet.specs.Sheet.{Task};
ghost use Rattle.task_sheet.specs.Indexes.{Indexes, IsPart, indexes_of};
ghost use Rattle.task_sheet.specs.Orders.{all_of};
ghost use Rattle.task_sheet.specs.Levels.{AllChosen, IsChosen, NoneStands, left_after};
ghost use Rattle.assignment.specs.Questions.{QuestionData};
ghost use Rattle.desk_core.specs.declared.told.Told.{Told};
ghost use Rattle.task_sheet.specs.Choices.{chosen_of, level_at};
ghost use Rattle.desk_core.specs.Findings.{Asked, AreNews, IsTold};
ghost use Rattle.desk_core.specs.Said.{said_of};
ghost use Rattle.drafts.specs.Applied.{OnNode, set_of};
ghost use Rattle.drafts.specs.Books.{IsLegalBook};
ghost use Rattle.drafts.specs.Edits.{on_base};
ghost use Rattle.desk_core.specs.Bases.{IsPast};
ghost use Rattle.desk_core.specs.World.{World, Live, live_at, start, IsRun};
ghost use Rattle.desk_core.specs.declared.events.Event.{Event};
ghost use Rattle.desk_core.specs.declared.events.Reply.{Reply};

/// A level's chosen one, as a function, is the task of least rank that may stand below the others, and none where none
/// may.
pub fn chosen_is_least()
    ensures some { (U : List Task) (L : Indexes) (i : ℕ) → IsPart L (all_of U) → IsChosen U L i
        → chosen_of U L ≡ Some i }
    ensures none { (U : List Task) (L : Indexes) → NoneStands U L → chosen_of U L ≡ None }
{}

/// The answer to a finding is determined.
pub fn answer_is_one()
    ensures { (U : List Task) (found : List Asked) (q : QuestionData) (first second : Told)
        → IsTold U found q first → IsTold U found q second → first ≡ second }
{}

/// A test of a set of n tasks takes at most n (n + 1) / 2 findings: after any events those that a live draft has, whose
/// changes apply, were each on a candidate of the level that was present then, and had no finding.
pub fn findings_are_few()
    ensures few { (U : List Task) (found : List Asked) → AreNews U [] found
        → 2 * length found ≤ length U * (length U + 1) }
    ensures taken { (events : List Event) (replies : List Reply) (v : World) (draft : ℕ) (l : Live) (node : OnNode)
        → IsRun start events replies v → live_at v.drafts draft ≡ Some l → on_base l.draft ≡ Ok node
        → AreNews (set_of node) [] l.found }
{}

/// The levels of a set are what is left of it after the tasks that were chosen, each among those left before it; at a
/// level where no task may stand below the others, it stays so.
pub fn levels_are_left()
    ensures chosen { (U : List Task) (placed : List ℕ) → AllChosen U (all_of U) placed
        → indexes_of (level_at U (length placed)) ≡ left_after (all_of U) placed }
    ensures stays { (U : List Task) (k : ℕ) → NoneStands U (indexes_of (level_at U k))
        → (j : ℕ) → k ≤ j → level_at U j ≡ level_at U k }
{}

/// The replies to a list of events are determined, by what they say, and so is the world that they lead to.
pub fn replies_are_one()
    ensures said { (w u v : World) (events : List Event) (first second : List Reply)
        → IsRun w events first u → IsRun w events second v
        → map said_of first ≡ map said_of second }
    ensures world { (w u v : World) (events : List Event) (first second : List Reply)
        → IsRun w events first u → IsRun w events second v → u ≡ v }
{}

/// The book is legal after any events, whatever replies they get that the world may give: each decision of its log is
/// the machine's, its state is the log's replay, and its version is the number of admitted entries.
pub fn runs_are_legal()
    ensures { (events : List Event) (replies : List Reply) (v : World)
        → IsRun start events replies v → IsLegalBook v.book }
{}

/// Each live draft is on a state that the log came to, after any events: the book's, or one of before.
pub fn bases_are_past()
    ensures { (events : List Event) (replies : List Reply) (v : World) (draft : ℕ) (l : Live)
        → IsRun start events replies v → live_at v.drafts draft ≡ Some l
        → IsPast v.book.log l.draft.base }
{}
