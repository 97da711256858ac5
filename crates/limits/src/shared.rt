//! What the node takes of each job, with which an order of the set passes.
ghost use Rattle.std.specs.Prelude.{◌≡◌, ◌↔◌, ◌<◌, ◌≤◌, IsTrue, IfOk, IfSome, option_map};
ghost use Rattle.task_sheet.specs.Sheet.{AreOverheads};
ghost use Rattle.task_sheet.specs.Orders.{IsOrder};
ghost use Rattle.overheads.specs.Padding.{padded, padding_fault};
ghost use Rattle.limits.specs.InOrder.{PassesIn};
ghost use Rattle.limits.specs.Shared.{AnswersShared, IsNode, MayTake, least_shared, most_shared, shared_of, with_shared};

use crate::bisection::edge_of;
use crate::in_order::passes_in;
use ceilings::{LockTable, Tabled};
use overheads::{PadFault, pad};
use std::alloc::{AllocError, Global};
use task_sheet::{Node, PERIOD_FROM, PERIOD_TO, TaskSet};

/// A number of what the node takes.
#[derive(Clone, Copy, Debug, PartialEq, Eq)]
pub enum Shared {
    /// Of each job.
    Job,
    /// Of each lock of each section.
    Lock,
    /// Of whoever executes when a timer comes.
    Release,
    /// How long after a timer's time its thread begins at most.
    Late,
}

/// What a number of a node is.
pub fn shared_of(node: Node, number: Shared) -> u64
    ensures { result ≡ shared_of number node }
{
    match number {
        Shared::Job => node.job,
        Shared::Lock => node.lock,
        Shared::Release => node.release,
        Shared::Late => node.late,
    }
}

/// The node with another value of a number.
pub fn with_shared(node: Node, number: Shared, value: u64) -> Node
    ensures { result ≡ with_shared number node value }
{
    let mut other = node;
    match number {
        Shared::Job => other.job = value,
        Shared::Lock => other.lock = value,
        Shared::Release => other.release = value,
        Shared::Late => other.late = value,
    }
    other
}

// The least value that a number may have beside the others.
fn least_shared(node: Node, number: Shared) -> u64
    ensures { result ≡ least_shared number node }
{
    match number {
        Shared::Job => node.release,
        Shared::Lock | Shared::Release | Shared::Late => 0,
    }
}

/// And the greatest that any node may have.
pub fn most_shared(number: Shared) -> u64
    ensures same { result ≡ most_shared number }
    ensures short { result ≤ 10000000 }
{
    match number {
        Shared::Job | Shared::Lock | Shared::Late => PERIOD_TO,
        Shared::Release => PERIOD_FROM,
    }
}

// Whether a document may say the node.
fn is_node(node: Node) -> bool
    ensures { IsTrue result ↔ IsNode node }
{
    node.job <= PERIOD_TO
        && node.lock <= PERIOD_TO
        && node.late <= PERIOD_TO
        && node.release <= PERIOD_FROM
        && node.release <= node.job
}

// Whether there is room for what the node takes of the tasks as they are written, and the order passes with it.
fn takes(
    alloc: Global,
    written: &TaskSet,
    node: Node,
    order: Option<&[usize]>,
) -> Result<bool, AllocError>
    requires { IfSome (option_map (λ o. o.now) order) (IsOrder written.now) }
    ensures { IfOk result (λ takes. IsTrue takes ↔ (MayTake written.now node
        × PassesIn (option_map (λ o. o.now) order.entry) (padded node written.now))) }
{
    if !is_node(node) {
        return Ok(false);
    }
    match pad(alloc, written, Some(node), &[]) {
        Ok(set) => {
            let table = LockTable::new(alloc, &set)?;
            Ok(passes_in(&Tabled::of(&set, &table), order))
        }
        Err(PadFault::OutOfMemory) => Err(AllocError),
        Err(_) => Ok(false),
    }
}

/// Why there is no room for what a node takes of tasks as they are written, if so: of the first of them. The error is out of
/// memory.
pub fn room_fault(
    alloc: Global,
    written: &TaskSet,
    node: Node,
) -> Result<Option<PadFault>, AllocError>
    requires { AreOverheads node }
    ensures { IfOk result (λ fault. fault ≡ padding_fault node written.now) }
{
    match pad(alloc, written, Some(node), &[]) {
        Ok(_set) => Ok(None),
        Err(fault) => match fault {
            PadFault::OutOfMemory => Err(AllocError),
            _ => Ok(Some(fault)),
        },
    }
}

/// The greatest value that a number of the node may have with which this order of the set passes, or some order where none
/// is given, all else equal: the tasks as they are written take what such a node takes of them. None where no value helps.
/// The error is out of memory.
pub fn furthest_shared(
    alloc: Global,
    written: &TaskSet,
    node: Node,
    number: Shared,
    order: Option<&[usize]>,
) -> Result<Option<u64>, AllocError>
    requires { IfSome (option_map (λ o. o.now) order) (IsOrder written.now) }
    ensures { IfOk result (λ answer. AnswersShared written.now node number
        (option_map (λ o. o.now) order.entry) answer) }
{
    // (a set, as its sheets say)
    let _sheets = written.sheets();
    let least = least_shared(node, number);
    let easy = with_shared(node, number, least);
    let is_possible = takes(alloc, written, easy, order)?;
    if !is_possible {
        return Ok(None);
    }
    let end = most_shared(number) + 1;
    let most = edge_of(least, end, end, |value| {
        let other = with_shared(node, number, value);
        takes(alloc, written, other, order)
    })?;
    Ok(Some(most))
}
