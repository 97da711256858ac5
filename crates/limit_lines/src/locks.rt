//! The lines of the locks.
ghost use Rattle.std.specs.Prelude.{◌≡◌, ◌≤◌, ◌++◌, length, codes, option_map, slice_get, IfOk, IfSome, OnOk, string_bytes};
ghost use Rattle.task_sheet.specs.Orders.{IsOrder};
ghost use Rattle.ceilings.specs.IsTableOf.{locks_of};
ghost use Rattle.owners.specs.Followers.{follows};
ghost use Rattle.limits.specs.Cuts.{AnswersMostOn, longest_on};
ghost use Rattle.limit_lines.specs.Locks.{AnswersMostIn, AreLockLines, IsCutLine, IsLineOf, IsLockLine, is_cut_told, lock_line};

use ceilings::Tabled;
use limits::{longest_on, most_on};
use lines::push_some;
use owners::Owner;
use std::alloc::{AllocError, Global};
use task_sheet::Name;

// The line of a lock, said to be of this; nothing where nothing helps.
fn push_lock(
    text: &mut String,
    lock: Name,
    longest: u64,
    own: Option<u64>,
    most: Option<u64>,
) -> Result<(), AllocError>
    ensures { OnOk result (string_bytes text.new ≡ string_bytes text.old
        ++ lock_line (codes "lock " ++ lock) longest own most) }
{
    let Some(most) = most else {
        return Ok(());
    };
    write!(text, "lock {lock} len {longest} ")?;
    push_some(text, own)?;
    write!(text, " {most}\n")
}

// The most that each section of a lock may take for an order to pass that is given; none where none is.
fn most_in(
    alloc: Global,
    owners: &[Owner],
    set: &Tabled<'_>,
    order: Option<&[usize]>,
    lock: Name,
    longest: u64,
) -> Result<Option<u64>, AllocError>
    requires order { IfSome (option_map (λ o. o.now) order) (IsOrder set.now) }
    requires longest { longest ≡ longest_on lock set.now }
    requires some { 1 ≤ longest }
    requires short { longest ≤ 10000000 }
    ensures { IfOk result (λ own. AnswersMostIn owners.now set.now (option_map (λ o. o.now) order.entry)
        lock own) }
{
    match order {
        Some(order) => most_on(alloc, set.tasks(), lock, longest, Some(order)),
        None => Ok(None),
    }
}

// Whether a lock has a line.
fn is_cut_told(order: Option<&[usize]>, longest: u64, own: Option<u64>) -> bool
    ensures { result ≡ is_cut_told (option_map (λ o. o.now) order.entry) longest own }
{
    match (order, own) {
        (None, _) => true,
        (Some(_), None) => false,
        (Some(_), Some(most)) => most < longest,
    }
}

// The line of a lock with a section that takes some time of its own; nothing where it has none.
fn cut_text(
    alloc: Global,
    owners: &[Owner],
    set: &Tabled<'_>,
    order: Option<&[usize]>,
    lock: Name,
    longest: u64,
) -> Result<String, AllocError>
    requires order { IfSome (option_map (λ o. o.now) order) (IsOrder set.now) }
    requires longest { longest ≡ longest_on lock set.now }
    requires some { 1 ≤ longest }
    requires short { longest ≤ 10000000 }
    ensures { IfOk result (λ text. IsCutLine owners.now set.now (option_map (λ o. o.now) order.entry)
        lock (string_bytes text)) }
{
    let own = most_in(alloc, owners, set, order, lock, longest)?;
    let mut text = String::new(alloc);
    if !is_cut_told(order, longest, own) {
        return Ok(text);
    }
    let most = most_on(alloc, set.tasks(), lock, longest, None)?;
    push_lock(&mut text, lock, longest, own, most)?;
    Ok(text)
}

// The same of any lock.
fn lock_text(
    alloc: Global,
    owners: &[Owner],
    set: &Tabled<'_>,
    order: Option<&[usize]>,
    lock: Name,
) -> Result<String, AllocError>
    requires order { IfSome (option_map (λ o. o.now) order) (IsOrder set.now) }
    ensures { IfOk result (λ text. IsLockLine owners.now set.now (option_map (λ o. o.now) order.entry)
        lock (string_bytes text)) }
{
    let longest = longest_on(set, lock);
    if 0 < longest {
        cut_text(alloc, owners, set, order, lock, longest)
    } else {
        Ok(String::new(alloc))
    }
}

// The line of the lock at a place in the order of first sight, from 0.
fn line_of(
    alloc: Global,
    owners: &[Owner],
    set: &Tabled<'_>,
    order: Option<&[usize]>,
    place: usize,
) -> Result<String, AllocError>
    requires order { IfSome (option_map (λ o. o.now) order) (IsOrder set.now) }
    ensures { IfOk result (λ text. IsLineOf owners.now set.now (option_map (λ o. o.now) order.entry)
        (slice_get (locks_of set.now) place) (string_bytes text)) }
{
    match set.lock_at(place) {
        Some(lock) => lock_text(alloc, owners, set, order, lock),
        None => Ok(String::new(alloc)),
    }
}

/// The lines of the locks, in the order of first sight: what the longest section of each takes, and the most that each may
/// take for the order to pass that is given, the lowest first, and for some order. None of a lock whose sections can't mend
/// that order, or any where none is given, or need not be shorter. The error is out of memory.
pub(crate) fn locks_text(
    alloc: Global,
    owners: &[Owner],
    set: &Tabled<'_>,
    order: Option<&[usize]>,
) -> Result<String, AllocError>
    requires order { IfSome (option_map (λ o. o.now) order) (IsOrder set.now) }
    ensures { IfOk result (λ text. AreLockLines owners.now set.now (option_map (λ o. o.now) order.entry)
        (string_bytes text)) }
{
    let mut text = String::new(alloc);
    for place in 0..set.lock_count() {
        let line = line_of(alloc, owners, set, order, place)?;
        text.push_str(line.as_str())?;
    }
    Ok(text)
}
