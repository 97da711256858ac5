//! Laws of drafts. Each is the clause of a function that does nothing, and its names are defined in `specs/`.

ghost use Rattle.std.specs.Prelude.{◌≡◌, ◌+◌, ◌<◌, ℕ, List, [], length, sum_by, Ok, Some, None};
ghost use Rattle.task_sheet.specs.Demand.{interrupt_within, interrupts_within};
ghost use Rattle.drafts.specs.declared.change.Change.{Change};
ghost use Rattle.drafts.specs.declared.roster.Owned.{Owned};
ghost use Rattle.drafts.specs.Applied.{OnNode, applied, held, of_others, said_of, set_of, with_task, without_name};
ghost use Rattle.drafts.specs.Interrupts.{SayNone, interrupts_along, timers_within};
ghost use Rattle.drafts.specs.Machine.{Entry, IsLegal, empty_desk, replay};
ghost use Rattle.drafts.specs.Rosters.{IsRoster};
ghost use Rattle.drafts.specs.Commits.{commits_of};

/// The tasks with their teams are a finite map: what is held under a name after a task is put or taken out; and rosters
/// that hold the same under each name are one list, whatever way they were reached.
pub fn tasks_are_a_map()
    ensures put { (n : List ℕ) (o : Owned) (tasks : List Owned)
        → o.sheet.name ≡ n → held n (with_task n o tasks) ≡ Some o }
    ensures put_other { (n m : List ℕ) (o : Owned) (tasks : List Owned)
        → o.sheet.name ≡ n → (n ≡ m → ⊥) → held m (with_task n o tasks) ≡ held m tasks }
    ensures removed { (n : List ℕ) (tasks : List Owned) → held n (without_name n tasks) ≡ None }
    ensures removed_other { (n m : List ℕ) (tasks : List Owned)
        → (n ≡ m → ⊥) → held m (without_name n tasks) ≡ held m tasks }
    ensures reached { (first second : List Owned) → IsRoster first → IsRoster second
        → ((n : List ℕ) → held n first ≡ held n second) → first ≡ second }
{}

/// What a log was asked determines what it says, and so its replay: of one list of commits, each a team and its
/// changes, there is one legal log at most.
pub fn log_is_one()
    ensures { (first second : List Entry) → commits_of first ≡ commits_of second
        → IsLegal empty_desk first → IsLegal empty_desk second → first ≡ second }
{}

/// A team's changes leave the interrupts of other teams as they are; and all of them, where no put says any: so no task
/// takes one along. After a legal log those stand that its admitted entries said, of each team the last ones.
pub fn interrupts_stay()
    ensures others { (team : ℕ) (before after : OnNode) (changes : List (List ℕ × Change))
        → applied team before changes ≡ Ok after
        → of_others team after.interrupts ≡ of_others team before.interrupts }
    ensures unsaid { (team : ℕ) (before after : OnNode) (changes : List (List ℕ × Change))
        → SayNone changes → applied team before changes ≡ Ok after
        → after.interrupts ≡ before.interrupts }
    ensures along { (log : List Entry) → IsLegal empty_desk log
        → (replay empty_desk log).node.interrupts ≡ interrupts_along [] log }
{}

/// Where tasks stand on the node after a log, a demand counts their timers and all interrupts that stand on it.
pub fn interrupts_counted()
    ensures { (log : List Entry) (time : ℕ) → 0 < length (replay empty_desk log).node.tasks
        → interrupts_within (set_of (replay empty_desk log).node) time
        ≡ timers_within (replay empty_desk log).node.tasks time
        + sum_by (interrupt_within time) (said_of (replay empty_desk log).node.interrupts) }
{}
