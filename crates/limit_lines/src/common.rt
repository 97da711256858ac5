//! The lines that are of no one task: of the interrupts, of what the node takes, and of the locks.
ghost use Rattle.std.specs.Prelude.{◌≡◌, ◌++◌, ◌<◌, ◌≤◌, length, codes, option_map, IfOk, IfSome, OnOk, string_bytes};
ghost use Rattle.task_sheet.specs.declared.node.TheConstants.{INTERRUPT_LIMIT};
ghost use Rattle.task_sheet.specs.Sheet.{AreOverheads, no_overhead, same_node, task_at};
ghost use Rattle.task_sheet.specs.Orders.{IsOrder};
ghost use Rattle.limits.specs.Shared.{most_shared};
ghost use Rattle.limits.specs.Written.{node_of, written};
ghost use Rattle.limit_lines.specs.Common.{AnswersSharedIn, AreAccountLines, AreCommonLines, AreInterruptLines, AreInterruptsLines, AreNodeLines, AreNodeLinesIf, AreNodeLinesOf, IsSharedLine, fault_words, is_shared_told, is_whole, room_words, shared_held, shared_label, shared_line};

use crate::locks::locks_text;
use crate::text::number_text;
use ceilings::Tabled;
use limits::{
    Number, Shared, furthest_shared, most_shared, node_of, room_fault, shared_of, with_shared,
    written,
};
use lines::push_some;
use overheads::PadFault;
use owners::{Owner, push_interrupt};
use std::alloc::{AllocError, Global};
use task_sheet::{Name, Node, TaskSet};

// ---- interrupts

// The lines of the interrupt at a place on the account of a task.
fn interrupt_text(
    alloc: Global,
    owners: &[Owner],
    set: &Tabled<'_>,
    order: Option<&[usize]>,
    task: usize,
    place: usize,
) -> Result<String, AllocError>
    requires order { IfSome (option_map (λ o. o.now) order) (IsOrder set.now) }
    requires task { task < length set.now }
    requires place { place < length (task_at set.now task).interrupts }
    requires few { place < INTERRUPT_LIMIT }
    ensures { IfOk result (λ text. AreInterruptLines owners.now set.now (option_map (λ o. o.now) order.entry) task
        place (string_bytes text)) }
{
    let mut whose = String::new(alloc);
    push_interrupt(&mut whose, owners, place)?;
    let whose = whose.as_str();
    let cost = Number::InterruptCost(place);
    let mut text = number_text(alloc, whose, false, set, order, task, cost)?;
    let period = Number::InterruptPeriod(place);
    let line = number_text(alloc, whose, false, set, order, task, period)?;
    text.push_str(line.as_str())?;
    Ok(text)
}

// Those of all on its account.
fn account_text(
    alloc: Global,
    owners: &[Owner],
    set: &Tabled<'_>,
    order: Option<&[usize]>,
    task: usize,
) -> Result<String, AllocError>
    requires order { IfSome (option_map (λ o. o.now) order) (IsOrder set.now) }
    requires task { task < length set.now }
    ensures { IfOk result (λ text. AreAccountLines owners.now set.now (option_map (λ o. o.now) order.entry) task
        (length (task_at set.now task).interrupts) (string_bytes text)) }
{
    let count = set.sheets()[task].interrupts().len();
    let mut text = String::new(alloc);
    for place in 0..count {
        let lines = interrupt_text(alloc, owners, set, order, task, place)?;
        text.push_str(lines.as_str())?;
    }
    Ok(text)
}

// Those of all on the account of any task.
fn interrupts_text(
    alloc: Global,
    owners: &[Owner],
    set: &Tabled<'_>,
    order: Option<&[usize]>,
) -> Result<String, AllocError>
    requires order { IfSome (option_map (λ o. o.now) order) (IsOrder set.now) }
    ensures { IfOk result (λ text. AreInterruptsLines owners.now set.now (option_map (λ o. o.now) order.entry)
        (length set.now) (string_bytes text)) }
{
    let mut text = String::new(alloc);
    for task in 0..set.len() {
        let lines = account_text(alloc, owners, set, order, task)?;
        text.push_str(lines.as_str())?;
    }
    Ok(text)
}

// ---- the node

// What a line calls a number of the node.
fn shared_label(number: Shared) -> &'static str
    ensures { result.now ≡ shared_label number }
{
    match number {
        Shared::Job => " job ",
        Shared::Lock => " lock ",
        Shared::Release => " release ",
        Shared::Late => " late ",
    }
}

// What of this task holds a number.
fn push_by(text: &mut String, name: Name, what: &str) -> Result<(), AllocError>
    ensures { OnOk result (string_bytes text.new
        ≡ string_bytes text.old ++ codes " by " ++ name ++ what.now) }
{
    write!(text, " by {name}")?;
    text.push_str(what)
}

// What of which task leaves no room.
fn push_fault(text: &mut String, fault: PadFault) -> Result<(), AllocError>
    ensures { OnOk result (string_bytes text.new ≡ string_bytes text.old ++ fault_words fault) }
{
    match fault {
        PadFault::CostPastPeriod { task } => push_by(text, task, " period"),
        PadFault::JitterPastDeadline { task } => push_by(text, task, " deadline"),
        PadFault::OutOfMemory => Ok(()),
    }
}

// The same, where there is no room.
fn push_room(text: &mut String, fault: Option<PadFault>) -> Result<(), AllocError>
    ensures { OnOk result (string_bytes text.new ≡ string_bytes text.old ++ room_words fault) }
{
    match fault {
        Some(fault) => push_fault(text, fault),
        None => Ok(()),
    }
}

// Whether a timer at this value is all of a job.
fn is_whole(node: Node, number: Shared, most: u64) -> bool
    ensures { result ≡ is_whole number node most }
{
    match number {
        Shared::Release => most == node.job,
        Shared::Job | Shared::Lock | Shared::Late => false,
    }
}

// What holds a number of the node at this value, where there may be none further.
fn push_held(
    alloc: Global,
    text: &mut String,
    written: &TaskSet,
    node: Node,
    number: Shared,
    most: u64,
) -> Result<(), AllocError>
    requires limits { AreOverheads node }
    requires within { most ≤ most_shared number }
    ensures { OnOk result (string_bytes text.new ≡ string_bytes text.old
        ++ shared_held written.now node number most) }
{
    if is_whole(node, number, most) {
        return text.push_str(" by job");
    }
    if most == most_shared(number) {
        return write!(text, " by {most}");
    }
    let fault = room_fault(alloc, written, with_shared(node, number, most + 1))?;
    push_room(text, fault)
}

// The line of a number of the node; nothing where no value helps.
fn push_shared(
    alloc: Global,
    text: &mut String,
    written: &TaskSet,
    node: Node,
    number: Shared,
    own: Option<u64>,
    most: Option<u64>,
) -> Result<(), AllocError>
    requires limits { AreOverheads node }
    requires within { IfSome most (λ value. value ≤ most_shared number) }
    ensures { OnOk result (string_bytes text.new ≡ string_bytes text.old
        ++ shared_line written.now node number own most) }
{
    let Some(most) = most else {
        return Ok(());
    };
    let value = shared_of(node, number);
    text.push_str("node")?;
    text.push_str(shared_label(number))?;
    write!(text, "{value} ")?;
    push_some(text, own)?;
    write!(text, " {most}")?;
    push_held(alloc, text, written, node, number, most)?;
    text.push_str("\n")
}

// The furthest value of a number of the node with which an order passes that is given; none where none is.
fn shared_in(
    alloc: Global,
    written: &TaskSet,
    node: Node,
    order: Option<&[usize]>,
    number: Shared,
) -> Result<Option<u64>, AllocError>
    requires order { IfSome (option_map (λ o. o.now) order) (IsOrder written.now) }
    ensures { IfOk result (λ own. AnswersSharedIn written.now node (option_map (λ o. o.now) order.entry) number own) }
{
    match order {
        Some(order) => furthest_shared(alloc, written, node, number, Some(order)),
        None => Ok(None),
    }
}

// Whether a number of the node has a line.
fn is_shared_told(order: Option<&[usize]>, own: Option<u64>) -> bool
    ensures { result ≡ is_shared_told (option_map (λ o. o.now) order.entry) own }
{
    match order {
        Some(_) => own.is_some(),
        None => true,
    }
}

// The line of a number of the node; nothing where it has none.
fn shared_text(
    alloc: Global,
    written: &TaskSet,
    node: Node,
    order: Option<&[usize]>,
    number: Shared,
) -> Result<String, AllocError>
    requires limits { AreOverheads node }
    requires order { IfSome (option_map (λ o. o.now) order) (IsOrder written.now) }
    ensures { IfOk result (λ text. IsSharedLine written.now node (option_map (λ o. o.now) order.entry) number
        (string_bytes text)) }
{
    let own = shared_in(alloc, written, node, order, number)?;
    let mut text = String::new(alloc);
    if !is_shared_told(order, own) {
        return Ok(text);
    }
    let most = furthest_shared(alloc, written, node, number, None)?;
    push_shared(alloc, &mut text, written, node, number, own, most)?;
    Ok(text)
}

// The lines of what the node takes of tasks as they are written.
fn node_lines(
    alloc: Global,
    written: &TaskSet,
    node: Node,
    order: Option<&[usize]>,
) -> Result<String, AllocError>
    requires limits { AreOverheads node }
    requires order { IfSome (option_map (λ o. o.now) order) (IsOrder written.now) }
    ensures { IfOk result (λ text. AreNodeLines written.now node (option_map (λ o. o.now) order.entry)
        (string_bytes text)) }
{
    let mut text = shared_text(alloc, written, node, order, Shared::Job)?;
    let lock = shared_text(alloc, written, node, order, Shared::Lock)?;
    let release = shared_text(alloc, written, node, order, Shared::Release)?;
    let late = shared_text(alloc, written, node, order, Shared::Late)?;
    text.push_str(lock.as_str())?;
    text.push_str(release.as_str())?;
    text.push_str(late.as_str())?;
    Ok(text)
}

// The same; nothing where the node takes nothing.
fn lines_if(
    alloc: Global,
    written: &TaskSet,
    node: Node,
    order: Option<&[usize]>,
) -> Result<String, AllocError>
    requires limits { AreOverheads node }
    requires order { IfSome (option_map (λ o. o.now) order) (IsOrder written.now) }
    ensures { IfOk result (λ text. AreNodeLinesIf (same_node node no_overhead) written.now node
        (option_map (λ o. o.now) order.entry) (string_bytes text)) }
{
    if node == Node::none() {
        Ok(String::new(alloc))
    } else {
        node_lines(alloc, written, node, order)
    }
}

// Those of a set with what its node takes.
fn node_text(alloc: Global, set: &TaskSet, order: Option<&[usize]>) -> Result<String, AllocError>
    requires order { IfSome (option_map (λ o. o.now) order) (IsOrder set.now) }
    ensures { IfOk result (λ text. AreNodeLinesOf set.now (option_map (λ o. o.now) order.entry)
        (string_bytes text)) }
{
    // (a set, as its sheets say)
    let _own = set.sheets();
    let node = node_of(set);
    let said = written(alloc, set)?;
    match said {
        Some(tasks) => {
            let _sheets = tasks.sheets();
            lines_if(alloc, &tasks, node, order)
        }
        None => Ok(String::new(alloc)),
    }
}

/// The lines that are of no one task: of each interrupt its cost and its period, of a node that takes something each number,
/// and of each lock the most that its sections may take where they have to be shorter; in an order that is given, the
/// lowest first, only of what helps it. The error is out of memory.
pub(crate) fn common_text(
    alloc: Global,
    owners: &[Owner],
    set: &Tabled<'_>,
    order: Option<&[usize]>,
) -> Result<String, AllocError>
    requires order { IfSome (option_map (λ o. o.now) order) (IsOrder set.now) }
    ensures { IfOk result (λ text. AreCommonLines owners.now set.now (option_map (λ o. o.now) order.entry)
        (string_bytes text)) }
{
    let mut text = interrupts_text(alloc, owners, set, order)?;
    let node = node_text(alloc, set.tasks(), order)?;
    let locks = locks_text(alloc, owners, set, order)?;
    text.push_str(node.as_str())?;
    text.push_str(locks.as_str())?;
    Ok(text)
}
