//! Why a set has no room for what the node takes.

use crate::causes::{tell_padded_cost, tell_padded_jitter};
use crate::told::Told;
use crate::tree::{place_of_name, table_of, tell_place};
use crate::values::{locks_in, numbers_in};
use overheads::PadFault;
use std::alloc::Global;
use task_sheet::{Name, Node};
use toml::Table;

/// The task's place, and what it has no room for, from the bytes of its document.
pub(crate) fn tell_padding(
    told: &mut Told,
    alloc: Global,
    bytes: &[u8],
    node: &Node,
    fault: &PadFault,
) {
    match toml::table_from_slice(alloc, bytes) {
        Ok(root) => tell_tree(told, alloc, bytes, &root, node, fault),
        Err(_) => told.give_up(),
    }
}

/// The task that a fault names.
pub(crate) fn task_of(fault: &PadFault) -> Option<Name> {
    match fault {
        PadFault::CostPastPeriod { task } | PadFault::JitterPastDeadline { task } => Some(*task),
        PadFault::OutOfMemory => None,
    }
}

// What the tree of the document shows of it.
fn tell_tree(
    told: &mut Told,
    alloc: Global,
    bytes: &[u8],
    root: &Table,
    node: &Node,
    fault: &PadFault,
) {
    let Some(place) = place_of(root, fault) else {
        return told.give_up();
    };
    tell_place(told, alloc, bytes, root, place, 0);
    if let Some(table) = table_of(root, place, 0) {
        let numbers = numbers_in(table);
        match fault {
            PadFault::CostPastPeriod { .. } => {
                tell_padded_cost(told, numbers, node, locks_in(table));
            }
            PadFault::JitterPastDeadline { .. } => tell_padded_jitter(told, numbers, node.late),
            PadFault::OutOfMemory => {}
        }
    }
}

// The place, from 1, of the task that a fault names.
fn place_of(root: &Table, fault: &PadFault) -> Option<usize> {
    place_of_name(root, task_of(fault)?.as_str())
}
