//! At which priorities a job may run: that of its task's thread, and the ceilings of the locks of its sections.
ghost use Rattle.std.specs.Prelude.{◌≡◌, ◌<◌, length, All, if◌then◌else◌};
ghost use Rattle.std.specs.List.{list_any};
ghost use Rattle.task_sheet.specs.Sheet.{task_at};
ghost use Rattle.task_sheet.specs.Locks.{uses};
ghost use Rattle.observed.specs.Ranks.{ceiling_in, is_ceiling_in, is_stray, is_wrong, may_run_at, stray_in};

use crate::pieces::Piece;
use crate::promises::Promise;
use crate::shares::{Whom, share_of};
use ceilings::Tabled;
use task_sheet::{Name, Section};

// The number of a thread whose task uses a lock; of any other 0.
fn number_with(set: &Tabled<'_>, promise: &Promise, lock: Name) -> u64
    requires { promise.now.task < length set.now }
    ensures { result ≡ (if uses (task_at set.now promise.now.task) lock then promise.now.number else 0) }
{
    // The set is valid: the proof has it from its sheets.
    let _ = set.sheets();
    if set.users(lock).has(promise.task) {
        promise.number
    } else {
        0
    }
}

// The ceiling of a lock: the greatest number of a thread whose task uses it.
fn ceiling_in(set: &Tabled<'_>, promises: &[Promise], lock: Name) -> u64
    requires { All (λ p. p.task < length set.now) promises.now }
    ensures { result ≡ ceiling_in set.now promises.now lock }
{
    let mut ceiling = 0;
    for promise in promises {
        ceiling = number_with(set, promise, lock).max(ceiling);
    }
    ceiling
}

// It is the ceiling of a lock of the section.
fn is_ceiling_in(set: &Tabled<'_>, promises: &[Promise], number: u64, section: &Section) -> bool
    requires { All (λ p. p.task < length set.now) promises.now }
    ensures { result ≡ is_ceiling_in set.now promises.now number section.now }
{
    section
        .locks
        .iter()
        .any(|lock| ceiling_in(set, promises, *lock) == number)
}

// It is that of a lock of one of these sections.
fn is_ceiling_of(set: &Tabled<'_>, promises: &[Promise], number: u64, sections: &[Section]) -> bool
    requires { All (λ p. p.task < length set.now) promises.now }
    ensures { result ≡ list_any (λ s. is_ceiling_in set.now promises.now number s) sections.now }
{
    sections
        .iter()
        .any(|section| is_ceiling_in(set, promises, number, section))
}

// It is that of a lock of one of the task's sections.
fn has_ceiling(set: &Tabled<'_>, promises: &[Promise], promise: &Promise, number: u64) -> bool
    requires task { promise.now.task < length set.now }
    requires tasks { All (λ p. p.task < length set.now) promises.now }
    ensures { result ≡ list_any (λ s. is_ceiling_in set.now promises.now number s)
        (task_at set.now promise.now.task).sections }
{
    let sheet = &set.sheets()[promise.task];
    is_ceiling_of(set, promises, number, sheet.sections())
}

// It is the number of the task's thread, or the ceiling of a lock of one of its sections.
fn may_run_at(set: &Tabled<'_>, promises: &[Promise], promise: &Promise, number: u64) -> bool
    requires task { promise.now.task < length set.now }
    requires tasks { All (λ p. p.task < length set.now) promises.now }
    ensures { result ≡ may_run_at set.now promises.now promise.now number }
{
    promise.number == number || has_ceiling(set, promises, promise, number)
}

// A priority, where it is said, is neither.
fn is_wrong(
    set: &Tabled<'_>,
    promises: &[Promise],
    promise: &Promise,
    priority: Option<u64>,
) -> bool
    requires task { promise.now.task < length set.now }
    requires tasks { All (λ p. p.task < length set.now) promises.now }
    ensures { result ≡ is_wrong set.now promises.now promise.now priority }
{
    match priority {
        Some(number) => !may_run_at(set, promises, promise, number),
        None => false,
    }
}

// The job at a place ran, in this piece between two times, at such a priority.
fn is_stray(
    set: &Tabled<'_>,
    promises: &[Promise],
    promise: &Promise,
    place: usize,
    from: u128,
    to: u128,
    piece: &Piece,
) -> bool
    requires task { promise.now.task < length set.now }
    requires tasks { All (λ p. p.task < length set.now) promises.now }
    ensures { result ≡ is_stray set.now promises.now promise.now place from to piece.now }
{
    let own = Whom::Job(place);
    0 < share_of(&own, from, to, piece) && is_wrong(set, promises, promise, piece.priority)
}

// The first such priority.
pub(crate) fn stray_in(
    set: &Tabled<'_>,
    promises: &[Promise],
    promise: &Promise,
    place: usize,
    from: u128,
    to: u128,
    pieces: &[Piece],
) -> Option<u64>
    requires task { promise.now.task < length set.now }
    requires tasks { All (λ p. p.task < length set.now) promises.now }
    ensures { result ≡ stray_in set.now promises.now promise.now place from to pieces.now }
{
    for piece in pieces {
        if is_stray(set, promises, promise, place, from, to, piece) {
            return piece.priority;
        }
    }
    None
}
