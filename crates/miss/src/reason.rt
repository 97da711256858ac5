//! Why the worst case of a task that doesn't pass is no run in which it misses its deadline.
ghost use Rattle.std.specs.Prelude.{◌≡◌, ◌<◌, ◌&&◌, length, IfSome, IfNone};
ghost use Rattle.std.specs.List.{list_any};
ghost use Rattle.task_sheet.specs.Indexes.{indexes_of};
ghost use Rattle.task_sheet.specs.Locks.{reaches};
ghost use Rattle.task_sheet.specs.Orders.{IsOrder};
ghost use Rattle.ceiling_kernel.specs.Tick.{node_in, is_inside};
ghost use Rattle.ceiling_kernel.specs.Bounds.{above_of};
ghost use Rattle.miss.specs.Shown.{PassesThere, ends_inside, IsLowestFailing, AboveAllPass, ShowsNone, IsNoRun};

use crate::shown::NoRun;
use assignment::members_of;
use ceiling_kernel::above;
use ceilings::Tabled;
use response_time::{passes, passes_uninterrupted};
use task_sheet::{Members, Section};

// A job that has executed so long is inside the section, and one of these tasks reaches that.
fn is_raised(set: &Tabled<'_>, section: &Section, executed: u64, above: Members) -> bool
    ensures { result ≡ (is_inside section.now executed
        && reaches set.now (indexes_of above) section.now) }
{
    if executed <= section.at {
        return false;
    }
    if executed - section.at >= section.len {
        return false;
    }
    set.reaches(section, above)
}

// The same of one of some sections.
fn is_raised_in(set: &Tabled<'_>, sections: &[Section], executed: u64, above: Members) -> bool
    ensures { result ≡ list_any (λ s. is_inside s executed
        && reaches set.now (indexes_of above) s) sections.now }
{
    sections
        .iter()
        .any(|section| is_raised(set, section, executed, above))
}

// A job of a task that executes its cost executes the last tick inside a section that one of these reaches.
fn ends_inside(set: &Tabled<'_>, task: usize, above: Members) -> bool
    requires { task < length set.now }
    ensures { result ≡ ends_inside set.now task (indexes_of above) }
{
    let sheet = &set.sheets()[task];
    let last = sheet.cost().saturating_sub(1);
    is_raised_in(set, sheet.sections(), last, above)
}

/// The tasks above one in an order.
pub(crate) fn members_above(set: &Tabled<'_>, order: &[usize], task: usize) -> Members
    requires order { IsOrder set.now order.now }
    requires task { task < length set.now }
    ensures { indexes_of result ≡ above_of (node_in set.now order.now) task }
{
    // The set is valid: the proof has it from its sheets.
    let _ = set.sheets();
    members_of(above(order, task))
}

// The lowest of those above a task in an order that doesn't pass.
fn fails_above(set: &Tabled<'_>, order: &[usize], task: usize) -> Option<usize>
    requires order { IsOrder set.now order.now }
    requires task { task < length set.now }
    ensures some { IfSome result (IsLowestFailing (node_in set.now order.now) task) }
    ensures none { IfNone result (AboveAllPass (node_in set.now order.now) task) }
{
    // The set is valid: the proof has it from its sheets.
    let _ = set.sheets();
    for higher in above(order, task) {
        let holds = passes(set, *higher, members_above(set, order, *higher));
        if !holds {
            return Some(*higher);
        }
    }
    None
}

/// Why a task of an order that doesn't pass, and whose worst case shows no miss, need not miss its deadline.
pub(crate) fn why_not(set: &Tabled<'_>, order: &[usize], task: usize) -> NoRun
    requires order { IsOrder set.now order.now }
    requires task { task < length set.now }
    requires fails { ¬ PassesThere (node_in set.now order.now) task }
    requires none { ShowsNone (node_in set.now order.now) task }
    ensures { IsNoRun (node_in set.now order.now) task result }
{
    // The set is valid: the proof has it from its sheets.
    let _ = set.sheets();
    if let Some(higher) = fails_above(set, order, task) {
        return NoRun::Below { above: higher };
    }
    let members = members_above(set, order, task);
    if ends_inside(set, task, members) {
        return NoRun::EndsInside;
    }
    if passes_uninterrupted(set, task, members) {
        return NoRun::WithinInterrupts;
    }
    NoRun::WithinTick
}
