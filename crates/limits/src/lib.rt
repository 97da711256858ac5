//! How far each number of a task may go with some order of its set still passing, or has to come back for one to pass:
//! sensitivity analysis (Bini, Di Natale, Buttazzo 2008). Times are whole microseconds.
#![tactic(auto)]

ghost use Rattle.std.specs.Prelude.{◌↔◌, ◌+◌, ◌<◌, ◌≤◌, length, option_map, IfOk, IfSome, IsTrue};
ghost use Rattle.task_sheet.specs.Sheet.{task_at};
ghost use Rattle.task_sheet.specs.TaskSet.{IsTaskSet};
ghost use Rattle.task_sheet.specs.Orders.{IsFeasible, IsOrder};
ghost use Rattle.limits.specs.Numbers.{HasNumber, IsSpan, at_distance, numbered, MayHave, IsFurthest, IsFurthestFor, AnswersFurthest, AnswersFor};
ghost use Rattle.limits.specs.InOrder.{AnswersFurthestIn, PassesIn};

mod bisection;
mod cuts;
mod in_order;
pub mod laws;
mod number;
mod other_values;
mod shared;
mod spans;
mod unpadded;

pub use crate::bisection::edge_of;
pub use crate::cuts::{longest_on, most_on};
use crate::in_order::passes_in;
pub use crate::in_order::{order_passes, passes_in_at};
pub use crate::number::Number;
pub use crate::other_values::{keeps_sections, numbered};
pub use crate::shared::{Shared, furthest_shared, most_shared, room_fault, shared_of, with_shared};
use crate::spans::distance;
pub use crate::spans::{Span, at_distance, most_len, span_in, value_of};
pub use crate::unpadded::{node_of, written};
use ceilings::{LockTable, Tabled};
use std::alloc::{AllocError, Global};

// Whether an order passes with this number of a task, or some order where none is given. Only another length of a section
// needs another table.
fn passes_with(
    alloc: Global,
    set: &Tabled<'_>,
    order: Option<&[usize]>,
    task: usize,
    number: Number,
    value: u64,
) -> Result<bool, AllocError>
    requires order { IfSome (option_map (λ o. o.now) order) (IsOrder set.now) }
    requires task { task < length set.now }
    requires has { HasNumber (task_at set.now task) number }
    requires may { MayHave set.now task number value }
    ensures { IfOk result (λ passes. IsTrue passes
        ↔ PassesIn (option_map (λ o. o.now) order.entry) (numbered set.now task number value)) }
{
    let other = numbered(alloc, set, task, number, value)?;
    if keeps_sections(number) {
        let same = Tabled::of(&other, set.table());
        return Ok(passes_in(&same, order));
    }
    let table = LockTable::new(alloc, &other)?;
    Ok(passes_in(&Tabled::of(&other, &table), order))
}

// The furthest value of a number with which it passes, from one so far from the easiest on, with which it does.
fn furthest_beyond(
    alloc: Global,
    set: &Tabled<'_>,
    order: Option<&[usize]>,
    task: usize,
    number: Number,
    span: Span,
    known: u64,
    first_step: u64,
) -> Result<u64, AllocError>
    requires kept { IsTaskSet set.now }
    requires order { IfSome (option_map (λ o. o.now) order) (IsOrder set.now) }
    requires task { task < length set.now }
    requires has { HasNumber (task_at set.now task) number }
    requires span { IsSpan (task_at set.now task) number span.easiest span.length }
    requires short { span.easiest + span.length ≤ 20000000 }
    requires within { known ≤ span.length }
    requires passes { PassesIn (option_map (λ o. o.now) order)
        (numbered set.now task number (at_distance number span.easiest known)) }
    requires step { 1 ≤ first_step }
    ensures { IfOk result (IsFurthestFor (PassesIn (option_map (λ o. o.now) order.entry)) set.now task number) }
{
    let far = edge_of(known, span.length + 1, first_step, |far| {
        let value = at_distance(number, span.easiest, far);
        passes_with(alloc, set, order, task, number, value)
    })?;
    Ok(at_distance(number, span.easiest, far))
}

// The furthest value of a number with which it passes; none where none helps.
fn furthest_with(
    alloc: Global,
    set: &Tabled<'_>,
    order: Option<&[usize]>,
    task: usize,
    number: Number,
) -> Result<Option<u64>, AllocError>
    requires order { IfSome (option_map (λ o. o.now) order) (IsOrder set.now) }
    requires task { task < length set.now }
    requires has { HasNumber (task_at set.now task) number }
    ensures { IfOk result (AnswersFor (PassesIn (option_map (λ o. o.now) order.entry)) set.now task number) }
{
    let span = span_in(set, task, number);
    if !passes_with(alloc, set, order, task, number, span.easiest)? {
        return Ok(None);
    }
    let most = furthest_beyond(alloc, set, order, task, number, span, 0, span.length + 1)?;
    Ok(Some(most))
}

/// The furthest value that a number of a task may have with which some order of the set passes, all else equal; none where
/// none helps. Further is a greater cost, jitter or length of a section, a shorter period, an earlier deadline. A period
/// that is shorter than the deadline takes it along, a deadline that is later than the period takes that along. The error
/// is out of memory.
pub fn furthest(
    alloc: Global,
    set: &Tabled<'_>,
    task: usize,
    number: Number,
) -> Result<Option<u64>, AllocError>
    requires task { task < length set.now }
    requires has { HasNumber (task_at set.now task) number }
    ensures { IfOk result (λ answer. AnswersFurthest set.now task number answer) }
{
    furthest_with(alloc, set, None, task, number)
}

/// The same where some order passes with a value that is known: it is sought from that on.
pub fn furthest_from(
    alloc: Global,
    set: &Tabled<'_>,
    task: usize,
    number: Number,
    known: u64,
) -> Result<u64, AllocError>
    requires task { task < length set.now }
    requires has { HasNumber (task_at set.now task) number }
    requires may { MayHave set.now task number known }
    requires passes { IsFeasible (numbered set.now task number known) }
    ensures { IfOk result (IsFurthest set.now task number) }
{
    let span = span_in(set, task, number);
    let far = distance(number, span.easiest, known);
    // The next value is tried first, since it is often past the furthest.
    furthest_beyond(alloc, set, None, task, number, span, far, 1)
}

/// The furthest value that a number of a task may have with which an order of the set passes as it stands, all else equal,
/// whether it passes with the task's own or not; none where none helps. The error is out of memory.
pub fn furthest_in_order(
    alloc: Global,
    set: &Tabled<'_>,
    order: &[usize],
    task: usize,
    number: Number,
) -> Result<Option<u64>, AllocError>
    requires each { IsOrder set.now order.now }
    requires task { task < length set.now }
    requires has { HasNumber (task_at set.now task) number }
    ensures { IfOk result (λ answer. AnswersFurthestIn set.now order.now task number answer) }
{
    furthest_with(alloc, set, Some(order), task, number)
}
