//! Proposals that another book takes or doesn't, verdicts that are brought to drafts, what a decision keeps of a set that is
//! stuck, and copies of a state.
use crate::findings::are_failures;
use assignment::{Verdict, assign};
use drafts::{
    Book, Decided, Decision, Draft, EditCause, HeldFault, NodeState, Proposal, ProposeFault,
    PutFault, SettleFault, Settled, StuckSet, Team, VerdictFault, propose, propose_with,
};
use example_sets::{BLOCKED_OUT, again, name, set_of};
use std::alloc::Global;
use std::sync::Arc;
use std::test::Fail;
use task_sheet::{Members, SetCause, Sheet, SheetsFault, TaskSet};

// A sheet (10000, 10000, cost) without sections.
fn sheet(alloc: Global, text: &str, cost: u64) -> Result<Sheet, Fail> {
    let sheet = Sheet::new(name(text)?, 0, 10000, 10000, cost, Vec::new(alloc));
    Ok(sheet.ok().ok_or("a sheet")?)
}

// A draft of a team on a book's state.
fn opened_on(alloc: Global, book: &Book, number: u64) -> Result<Draft, Fail> {
    let team = Team::new(number).ok_or("a team")?;
    Ok(Draft::new(alloc, team, again!(book.snapshot())?))
}

// Puts a sheet.
fn put(draft: &mut Draft, sheet: Sheet) -> Result<(), Fail> {
    let answer = again!(
        draft.put(sheet),
        PutFault {
            cause: EditCause::OutOfMemory,
            sheet
        }
    );
    answer.ok().ok_or("a put")?;
    Ok(())
}

// A draft of a team on a book's state that puts one task.
fn draft_on(alloc: Global, book: &Book, number: u64, text: &str, cost: u64) -> Result<Draft, Fail> {
    let mut draft = opened_on(alloc, book, number)?;
    put(&mut draft, sheet(alloc, text, cost)?)?;
    Ok(draft)
}

// The decision on a draft, which is settled at once.
fn decided_on(alloc: Global, book: &mut Book, draft: Draft) -> Result<Decided, Fail> {
    let decided = again!(book.settle_held(alloc, draft), HeldFault { draft });
    Ok(decided.ok().ok_or("a decision")?)
}

// A book whose version 1 is one put of a team; an empty one where there is no team.
fn book_with(alloc: Global, number: u64, text: &str, cost: u64) -> Result<Book, Fail> {
    let mut book = again!(Book::new(alloc))?;
    if number > 0 {
        let draft = draft_on(alloc, &book, number, text, cost)?;
        decided_on(alloc, &mut book, draft)?;
    }
    Ok(book)
}

// A proposal of team 1 that puts one task of cost 3000 on a book where this team has one of this cost.
fn proposal_from(alloc: Global, held: (&str, u64), text: &str) -> Result<Proposal, Fail> {
    let book = book_with(alloc, 1, held.0, held.1)?;
    let draft = draft_on(alloc, &book, 1, text, 3000)?;
    let proposal = again!(propose(alloc, draft), ProposeFault { draft });
    Ok(proposal.ok().ok_or("a proposal")?)
}

// What a book answers to a proposal, and how many changes are handed back.
fn settled_in(alloc: Global, book: &mut Book, proposal: Proposal) -> (&'static str, usize) {
    match again!(
        book.settle(alloc, proposal),
        SettleFault::OutOfMemory { proposal }
    ) {
        Ok(Settled::Decided { .. }) => ("decided", 0),
        Ok(Settled::Stale { proposal, .. }) => ("stale", proposal.draft().len()),
        Err(SettleFault::Stranger { proposal }) => ("stranger", proposal.draft().len()),
        Err(SettleFault::OutOfMemory { proposal }) => ("memory", proposal.draft().len()),
    }
}

// The team that holds a with cost 1000 in the book, or no team; the task of team 1 in the other book, and its cost; the
// task that the proposal on that book puts; and what the book answers, how many changes come back, its version and the
// number of its tasks then.
type Row = (
    u64,
    (&'static str, u64),
    &'static str,
    (&'static str, usize),
    (u64, usize),
);

// Other tasks, and no task; the same tasks; another task, which the proposal replaces; the same sheet, of another team.
const ROWS: [Row; 5] = [
    (1, ("b", 1000), "c", ("stranger", 1), (1, 1)),
    (0, ("b", 1000), "c", ("stranger", 1), (0, 0)),
    (1, ("a", 1000), "c", ("decided", 0), (2, 2)),
    (1, ("a", 2000), "a", ("decided", 0), (2, 1)),
    (2, ("a", 1000), "a", ("stranger", 1), (1, 1)),
];

#[test]
fn proposals_from_another_book(rt: HostRuntime) -> Result<(), Fail> {
    for (holder, held, text, answer, state) in &ROWS {
        let proposal = proposal_from(rt.alloc(), *held, *text)?;
        let mut book = book_with(rt.alloc(), *holder, "a", 1000)?;
        assert!(rt; settled_in(rt.alloc(), &mut book, proposal) == *answer);
        assert!(rt; (book.state().version(), book.state().set().len()) == *state);
    }
    Ok(())
}

// The set of tasks of these names, each (10000, 10000, 1000).
fn set_with(alloc: Global, names: &[&str]) -> Result<TaskSet, Fail> {
    let mut sheets = Vec::new(alloc);
    for text in names {
        sheets.push(sheet(alloc, *text, 1000)?)?;
    }
    let set = again!(
        TaskSet::new(alloc, sheets),
        SheetsFault {
            cause: SetCause::OutOfMemory,
            sheets
        }
    );
    Ok(set.ok().ok_or("a set")?)
}

// The verdict on it.
fn verdict_on(alloc: Global, names: &[&str]) -> Result<Verdict, Fail> {
    let set = Arc::new(alloc, set_with(alloc, names)?)?;
    Ok(again!(assign(alloc, set.clone()?))?)
}

// What becomes of a draft that puts a and the verdict on these names.
fn brought(alloc: Global, names: &[&str]) -> Result<&'static str, Fail> {
    let book = again!(Book::new(alloc))?;
    let draft = draft_on(alloc, &book, 1, "a", 1000)?;
    let verdict = verdict_on(alloc, names)?;
    match again!(
        propose_with(alloc, draft, verdict),
        VerdictFault::OutOfMemory { draft, verdict }
    ) {
        Ok(_) => Ok("proposal"),
        Err(VerdictFault::Stranger { .. }) => Ok("stranger"),
        Err(VerdictFault::OutOfMemory { .. }) => Err("memory")?,
    }
}

#[test]
fn a_verdict_for_another_set(rt: HostRuntime) -> Result<(), Fail> {
    assert!(rt; brought(rt.alloc(), &["a"])? == "proposal");
    assert!(rt; brought(rt.alloc(), &["a", "b", "c"])? == "stranger");
    Ok(())
}

// The decision on the tasks of a document, on an empty book.
fn decided_of(alloc: Global, document: &str) -> Result<Decided, Fail> {
    let mut book = again!(Book::new(alloc))?;
    let mut draft = opened_on(alloc, &book, 1)?;
    for sheet in set_of(alloc, document)?.into_sheets() {
        put(&mut draft, sheet)?;
    }
    decided_on(alloc, &mut book, draft)
}

// Whether hi alone is stuck, by 1, 4500.
fn is_hi_stuck(alloc: Global, stuck: &StuckSet) -> Result<bool, Fail> {
    let reasons = again!(stuck.reasons(alloc))?;
    Ok(
        stuck.members() == Members::empty().with(0)
            && are_failures(reasons.members(), &[(0, &[1, 4500])]),
    )
}

#[test]
fn reasons_of_a_decision(rt: HostRuntime) -> Result<(), Fail> {
    let decided = decided_of(rt.alloc(), BLOCKED_OUT)?;
    match decided.entry.decision() {
        Decision::Infeasible { stuck } => {
            assert!(rt; is_hi_stuck(rt.alloc(), stuck)?);
            Ok(())
        }
        _ => Err("a decision")?,
    }
}

// The version of a state, and the tasks of team 1.
fn told_by(state: &NodeState) -> Result<(u64, Members), Fail> {
    let team = Team::new(1).ok_or("a team")?;
    Ok((state.version(), state.tasks_of(team)))
}

// A copy of the state of a book with a, and of an empty one.
#[test]
fn copies_of_a_state(rt: HostRuntime) -> Result<(), Fail> {
    for (holder, want) in [
        (1u64, (1u64, Members::empty().with(0))),
        (0, (0, Members::empty())),
    ] {
        let book = book_with(rt.alloc(), holder, "a", 1000)?;
        let copy = again!(book.state().copy(rt.alloc()))?;
        assert!(rt; told_by(&copy)? == want);
    }
    Ok(())
}
