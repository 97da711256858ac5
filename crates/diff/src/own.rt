//! What of a sheet's numbers is its task's own.
ghost use Rattle.std.specs.Prelude.{◌≡◌, ◌-◌, ◌≤◌, ℕ, length, MatchOption, take};
ghost use Rattle.task_sheet.specs.Overheads.{calls, own_cost};
ghost use Rattle.diff.specs.Own.{own_at, own_jitter, own_len, shift_behind};

use task_sheet::{Node, Section, Sheet};

// What the calls on a section's locks take; none where that is no 64-bit number.
fn calls(node: Node, section: &Section) -> Option<u64>
    ensures { MatchOption result (18446744073709551616 ≤ calls node section.now)
        (λ time. time ≡ calls node section.now) }
{
    node.lock.checked_mul(section.locks.len() as u64)
}

// How much later a section begins behind these; none where that is no 64-bit number.
fn shift_behind(node: Node, before: &[Section]) -> Option<u64>
    ensures { MatchOption result (18446744073709551616 ≤ shift_behind node before.now)
        (λ time. time ≡ shift_behind node before.now) }
{
    let mut shift = node.job.saturating_sub(node.release);
    for section in before {
        shift = shift.checked_add(calls(node, section)?)?;
    }
    Some(shift)
}

// A number less another one, which is no 64-bit number where it is missing.
fn less(number: u64, other: Option<u64>) -> u64
    ensures { (n : ℕ) → MatchOption other (18446744073709551616 ≤ n) (λ m. m ≡ n)
        → result ≡ number - n }
{
    match other {
        Some(other) => number.saturating_sub(other),
        None => 0,
    }
}

/// Where the section at a place begins, in microseconds of the task's own execution.
pub(crate) fn own_at(sheet: &Sheet, place: usize, section: &Section) -> u64
    requires { place ≤ length sheet.now.sections }
    ensures { result ≡ own_at sheet.now place section.now }
{
    less(
        section.at,
        shift_behind(sheet.node(), &sheet.sections()[..place]),
    )
}

/// How long a section is, in microseconds of the task's own execution.
pub(crate) fn own_len(sheet: &Sheet, section: &Section) -> u64
    ensures { result ≡ own_len sheet.now section.now }
{
    less(section.len, calls(sheet.node(), section))
}

/// What a job executes at most of its own, in microseconds.
pub(crate) fn own_cost(sheet: &Sheet) -> u64
    ensures { result ≡ own_cost sheet.now }
{
    sheet.cost().saturating_sub(sheet.overhead())
}

/// How long after its arrival a job may become ready, in microseconds, by its task alone.
pub(crate) fn own_jitter(sheet: &Sheet) -> u64
    ensures { result ≡ own_jitter sheet.now }
{
    sheet.jitter().saturating_sub(sheet.node().late)
}
