//! Laws of sets by a preference. Each is the clause of a function that does nothing, and its names are defined in
//! `specs/`.

ghost use Rattle.std.specs.Prelude.{◌≡◌, ◌<◌, ◌↔◌, ◌⊎◌, ℕ, true, List, [], Option, length, Some, None, Ok};
ghost use Rattle.std.specs.List.Sorted.{IsPermutation};
ghost use Rattle.teams.specs.ReadsText.{ReadsText};
ghost use Rattle.teams.specs.Strictness.{IsStrict};
ghost use Rattle.doubts.specs.declared.doubt.Doubt.{Doubt};
ghost use Rattle.preferences.specs.ReadsAsked.{IsDoubted, SaysAsked, asking_so};
ghost use Rattle.preferences.specs.declared.asking.Asking.{Asking};
ghost use Rattle.preferences.specs.declared.asking.Strictness.TheVariants.{AsSaid, Lenient, Strict};
ghost use Rattle.task_sheet.specs.declared.read.Document.{Document};
ghost use Rattle.preferences.specs.ReadsPreferred.{IsPreferredIn, SaysPreferred};
ghost use Rattle.task_sheet.specs.Sheet.{Task, AllTasks, task_at};
ghost use Rattle.task_sheet.specs.TaskSet.{IsTaskSet};
ghost use Rattle.task_sheet.specs.Demand.{limit_of};
ghost use Rattle.latest_first.specs.LatestFirst.{AllPrompt, AreAlike, FollowLimits};
ghost use Rattle.task_sheet.specs.Orders.{IsOrder, IsPassingOrder, IsFeasible, IsBetter, IsBest};
ghost use Rattle.preferences.specs.Preferences.{longer_limits, is_behind, unweighed, KeepsOrders, IsByDeadlines, IsByChains, IsPreferred};
ghost use Rattle.preferences.specs.LimitOrders.{IsLower, IsNearer, IsMonotonic};
ghost use Rattle.task_sheet.specs.declared.prefer.Preference.{Preference};
ghost use Rattle.task_sheet.specs.declared.prefer.Preference.TheVariants.{Weights};
ghost use Rattle.chain_tables.specs.Tables.{WrittenData};

/// In a set by deadlines each task's weight is how many tasks of that set have a longer limit: of two tasks the one of
/// the longer limit has less weight, and those of one limit have one weight. By deadlines once more, the set is as it is.
pub fn weights_follow_limits()
    ensures weight { (U V : List Task) (k : ℕ) → IsByDeadlines U V → k < length V
        → (task_at V k).weight ≡ longer_limits V (limit_of (task_at V k)) }
    ensures compare { (U V : List Task) (i j : ℕ) → IsByDeadlines U V → i < length V
        → j < length V
        → ((task_at V i).weight < (task_at V j).weight)
        ↔ (limit_of (task_at V j) < limit_of (task_at V i)) }
    ensures again { (U V : List Task) → IsByDeadlines U V → IsByDeadlines V V }
{}

/// The ranks of a set by deadlines: a task is before another exactly where its limit is longer, or the same and its name
/// less.
pub fn ranks_follow_limits()
    ensures { (U V : List Task) (i j : ℕ) → IsByDeadlines U V → i < length V → j < length V
        → (i < j) ↔ IsLower (task_at V i) (task_at V j) }
{}

/// Of two orders of a set by deadlines the better is the one nearer to limit-monotonic, so the best order is nearer than
/// each other one that passes (Leung, Whitehead 1982).
pub fn best_is_nearest()
    ensures nearer { (U V : List Task) (first second : List ℕ) → IsByDeadlines U V
        → IsOrder V first → IsOrder V second
        → IsBetter first second ↔ IsNearer V first second }
    ensures best { (U V : List Task) (order other : List ℕ) → IsByDeadlines U V
        → IsBest V order → IsPassingOrder V other
        → (order ≡ other) ⊎ IsNearer V order other }
{}

/// Where some limit-monotonic order of a set by deadlines passes, the best order is limit-monotonic.
pub fn best_is_monotonic()
    ensures { (U V : List Task) (order other : List ℕ) → AllTasks U → IsByDeadlines U V
        → IsBest V order → IsPassingOrder V other → IsMonotonic V other
        → IsMonotonic V order }
{}

/// In a set by chains a task has less weight than another exactly where it is wanted lower by them. Without chains it is the set
/// by deadlines.
pub fn weights_follow_chains()
    ensures compare { (chains : List WrittenData) (U V : List Task) (i j : ℕ) → IsByChains chains U V
        → i < length V → j < length V
        → ((task_at V i).weight < (task_at V j).weight)
        ↔ (is_behind chains (task_at V i) (task_at V j) ≡ true) }
    ensures without { (U V : List Task) → IsByChains [] U V ↔ IsByDeadlines U V }
{}

/// Of one set and its chains there is one by each preference at most.
pub fn preferred_is_one()
    ensures { (preference : Preference) (chains : List WrittenData) (U first second : List Task)
        → IsPreferred preference chains U first
        → IsPreferred preference chains U second → first ≡ second }
{}

/// A preference changes nothing but weights and ranks: the tasks are the same but for their weights, and the passing
/// orders of the one set are those of the other, by the names of the tasks; so some order passes of the one exactly where
/// some passes of the other.
pub fn preference_keeps_tasks()
    ensures tasks { (preference : Preference) (chains : List WrittenData) (U V : List Task)
        → IsPreferred preference chains U V
        → IsPermutation (unweighed U) (unweighed V) }
    ensures orders { (preference : Preference) (chains : List WrittenData) (U V : List Task)
        → IsPreferred preference chains U V
        → KeepsOrders U V × KeepsOrders V U }
    ensures feasible { (preference : Preference) (chains : List WrittenData) (U V : List Task)
        → IsPreferred preference chains U V
        → IsFeasible U ↔ IsFeasible V }
{}

/// What the call prefers holds, whatever the set prefers; where the call says nothing, what the set prefers; where neither
/// does, the set is as its text says it, and so it is by weights.
pub fn call_then_set()
    ensures call { (text : List ℕ) (preference : Preference) (U : List Task)
        → SaysPreferred (Some preference) text U
        ↔ ((d : Document) × ReadsText text (Ok d) × IsPreferredIn preference text d.set U) }
    ensures own { (text : List ℕ) (d : Document) (preference : Preference) (U : List Task)
        → ReadsText text (Ok d)
        → d.prefers ≡ Some preference → IsPreferredIn preference text d.set U
        → SaysPreferred None text U }
    ensures nobody { (text : List ℕ) (d : Document) → ReadsText text (Ok d) → d.prefers ≡ None
        → SaysPreferred None text d.set }
    ensures weights { (text : List ℕ) (U : List Task) → SaysPreferred (Some Weights) text U
        ↔ ((d : Document) × ReadsText text (Ok d) × (U ≡ d.set)) }
{}

/// Where a set's text asks that the set have no doubt, a call that lets it ask gets what a strict call gets; elsewhere what a
/// lenient one does.
pub fn texts_ask_as_calls()
    ensures set { (asking : Asking) (text : List ℕ) (U : List Task) → IsStrict text
        → SaysAsked (asking_so AsSaid asking) text U ↔ SaysAsked (asking_so Strict asking) text U }
    ensures doubt { (asking : Asking) (text : List ℕ) (doubt : Doubt) → IsStrict text
        → IsDoubted (asking_so AsSaid asking) text doubt
        ↔ IsDoubted (asking_so Strict asking) text doubt }
    ensures lenient { (asking : Asking) (text : List ℕ) (U : List Task) → (IsStrict text → ⊥)
        → SaysAsked (asking_so AsSaid asking) text U ↔ SaysAsked (asking_so Lenient asking) text U }
{}

/// Of a set by deadlines the best order bears most.
pub fn preferred_bears_most()
    ensures follow { (U V : List Task) → IsByDeadlines U V → FollowLimits V }
    ensures most { (U V W : List Task) (order : List ℕ) → IsByDeadlines U V → IsTaskSet V
        → IsBest V order → AreAlike V W → AllTasks W → AllPrompt W
        → IsPassingOrder W order ↔ IsFeasible W }
{}
