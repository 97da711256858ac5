//! Whether two lines of the log say the same.

ghost use Rattle.std.specs.Prelude.{◌≡◌, ◌↔◌, IsTrue};
ghost use Rattle.drafts.specs.Rulings.{ruling_of};

use drafts::{Change, Decision, Entry, StuckSet};
use task_sheet::Name;

// Whether two changes are the same.
fn is_same_change(first: &Change, second: &Change) -> bool
    ensures { IsTrue result ↔ (first.now ≡ second.now) }
{
    match (first, second) {
        (Change::Put(sheet), Change::Put(other)) => sheet == other,
        (Change::Remove, Change::Remove) => true,
        _ => false,
    }
}

// Whether two changes are the same, of one name.
fn is_same_named(first: &(Name, Change), second: &(Name, Change)) -> bool
    ensures { IsTrue result ↔ (first.now ≡ second.now) }
{
    first.0 == second.0 && is_same_change(&first.1, &second.1)
}

// Whether two lists of changes are the same.
fn are_same_changes(first: &[(Name, Change)], second: &[(Name, Change)]) -> bool
    ensures { IsTrue result ↔ (first.now ≡ second.now) }
{
    if first.len() != second.len() {
        return false;
    }
    for i in 0..first.len() {
        if !is_same_named(&first[i], &second[i]) {
            return false;
        }
    }
    true
}

// Whether two stuck sets are the same: a set has one greatest obstruction.
fn is_same_stuck(first: &StuckSet, second: &StuckSet) -> bool
    ensures { IsTrue result ↔ (first.now ≡ second.now) }
{
    // Both obstructions are the greatest: the proof has it from their members.
    let _ = first.members();
    let _ = second.members();
    first.set().is_same(second.set())
}

// Whether two decisions say the same.
fn is_same_decision(first: &Decision, second: &Decision) -> bool
    ensures { IsTrue result ↔ (ruling_of first.now ≡ ruling_of second.now) }
{
    match (first, second) {
        (Decision::Admitted { version: a }, Decision::Admitted { version: b }) => a == b,
        (Decision::Refused { refusal: a }, Decision::Refused { refusal: b }) => a.is_same(b),
        (Decision::Infeasible { stuck: a }, Decision::Infeasible { stuck: b }) => {
            is_same_stuck(a, b)
        }
        _ => false,
    }
}

// Whether two lines of the log say the same.
pub(crate) fn is_same_entry(first: &Entry, second: &Entry) -> bool
    ensures { IsTrue result ↔ (first.now ≡ second.now) }
{
    first.team().number() == second.team().number()
        && are_same_changes(first.changes(), second.changes())
        && is_same_decision(first.decision(), second.decision())
}
