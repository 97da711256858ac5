//! Laws of passes. Each is the clause of a function that does nothing, and its names are defined in `specs/`.

ghost use Rattle.std.specs.Prelude.{◌≡◌, ℕ, List, Ok};
ghost use Rattle.drafts.specs.declared.change.Change.{Change};
ghost use Rattle.drafts.specs.Applied.{OnNode, all_changes, applied};
ghost use Rattle.drafts.specs.Books.{Book, IsLegalBook};
ghost use Rattle.drafts.specs.Edits.{Draft};
ghost use Rattle.drafts.specs.Proposals.{ProposalData};
ghost use Rattle.book_lock.specs.declared.answer.Settlement.TheVariants.{Decided};
ghost use Rattle.book_lock.specs.Own.{own_of};
ghost use Rattle.book_lock.specs.Opening.{IsOwn};
ghost use Rattle.book_lock.specs.TeamPass.{Known};
ghost use Rattle.book_lock.specs.Settles.{IsEntered, Settles};

/// Where a team's changes apply to a legal book, the team's own tasks after them are those that its pass works out.
/// So a pass that knows its team's tasks on the node knows them after each decision that it receives.
pub fn own_tasks_are_known()
    ensures changes { (b : Book) (team : ℕ) (changes : List (List ℕ × Change)) (node : OnNode)
        → IsLegalBook b
        → applied team b.desk.node changes ≡ Ok node
        → all_changes team (own_of team b.desk.node.tasks) changes ≡ Ok (own_of team node.tasks) }
    ensures entered { (b : Book) (d : Draft) (old new : Known) (place : ℕ) (next : Book)
        → IsLegalBook b
        → d.team ≡ old.team → IsOwn b.desk old → IsEntered b d old place next new
        → IsOwn next.desk new }
    ensures settled { (b : Book) (p : ProposalData) (old new : Known) (place : ℕ) (next : Book)
        → IsLegalBook b
        → p.draft.team ≡ old.team → IsOwn b.desk old → Settles b p old (Ok (Decided place)) next new
        → IsOwn next.desk new }
{}
