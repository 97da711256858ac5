//! Whether the book's tasks of a team are those that its pass knows.

ghost use Rattle.std.specs.Prelude.{◌≡◌, ◌↔◌, true, IsTrue, IfOk, IfSome, MatchOption};
ghost use Rattle.std.specs.Ordering.{nat_cmp, is_lt};
ghost use Rattle.std.specs.Cmp.Lexicographic.{slice_cmp};
ghost use Rattle.drafts.specs.Applied.{held};
ghost use Rattle.drafts.specs.Rosters.{IsRoster};
ghost use Rattle.book_lock.specs.Own.{own_of, IsForeignName};

use crate::own::OwnTasks;
use drafts::{NodeState, Owned, Team, find_task};
use std::alloc::{AllocError, Global};
use task_sheet::Name;

// Whether the two hold the same under a name.
fn agree(book: &[Owned], pass: &[Owned], name: Name) -> bool
    ensures { IsTrue result ↔ (held name book.now ≡ held name pass.now) }
{
    match (find_task(book, name), find_task(pass, name)) {
        (Some(theirs), Some(own)) => theirs.is_same(own),
        (None, None) => true,
        _ => false,
    }
}

// Whether a name is before the one that was found so far, if one was.
fn is_before(name: Name, first: &Option<Name>) -> bool
    ensures { IsTrue result ↔ IfSome first.now (λ f. is_lt (slice_cmp nat_cmp name f) ≡ true) }
{
    match first {
        Some(first) => name < *first,
        None => true,
    }
}

// The first name by bytes on which the two differ.
fn foreign_name<'a>(book: &'a [Owned], pass: &'a [Owned]) -> Option<Name>
    requires book { IsRoster book.now }
    requires pass { IsRoster pass.now }
    ensures { MatchOption result (book.now ≡ pass.now)
        (λ name. IsForeignName book.now pass.now name) }
{
    let mut first = None;
    for task in book.iter().chain(pass) {
        let name = task.sheet.name();
        if !is_before(name, &first) {
            continue;
        }
        if !agree(book, pass, name) {
            first = Some(name);
        }
    }
    first
}

/// The first name by bytes on which a state's tasks of a team and those that its pass knows differ.
pub(crate) fn foreign(
    alloc: Global,
    state: &NodeState,
    team: Team,
    own: &OwnTasks,
) -> Result<Option<Name>, AllocError>
    ensures { IfOk result (λ o. MatchOption o
        (own_of team state.now.node.tasks ≡ own.now)
        (λ name. IsForeignName (own_of team state.now.node.tasks) own.now name)) }
{
    let book = OwnTasks::of(alloc, state, team)?;
    Ok(foreign_name(book.tasks(), own.tasks()))
}
