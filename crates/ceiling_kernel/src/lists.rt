//! The lists of the tasks whose jobs are pending: SCHED_FIFO of POSIX.1-2017, with one list per priority,
//! the lowest first.
ghost use Rattle.std.specs.Prelude.{◌≡◌, ◌<◌, ◌≤◌, length, vec_len, slice_index_or, replicate, IfOk, None, []};
ghost use Rattle.task_sheet.specs.declared.set.TheConstants.{TASK_LIMIT};
ghost use Rattle.ceiling_kernel.specs.States.{best_slot};
ghost use Rattle.ceiling_kernel.specs.Lists.{listed, list_at, Queues, with_tail, without_head, moved_to, head_of_highest};

use crate::run::Pending;
use std::alloc::{AllocError, Global};
use std::collections::VecDeque;

// An empty list for each of `count` priorities.
pub(crate) fn empty_lists(alloc: Global, count: usize) -> Result<Vec<VecDeque<usize>>, AllocError>
    ensures { IfOk result (λ lists. listed lists.items ≡ replicate count []) }
{
    let mut lists = Vec::new(alloc);
    for _ in 0..count {
        lists.push(VecDeque::new(alloc))?;
    }
    Ok(lists)
}

// The task goes to the tail of the list of its job's priority.
pub(crate) fn enqueue(
    lists: &mut Vec<VecDeque<usize>>,
    priority: u32,
    task: usize,
) -> Result<(), AllocError>
    requires { priority < vec_len lists.old }
    ensures { IfOk result (λ _. listed lists.new.items
        ≡ with_tail (listed lists.old.items) priority task) }
{
    lists[priority as usize].push_back(task)?;
    Ok(())
}

// The head leaves its list.
pub(crate) fn drop_first(lists: &mut Vec<VecDeque<usize>>, priority: u32)
    requires { priority < vec_len lists.old }
    ensures { listed lists.new.items ≡ without_head (listed lists.old.items) priority }
{
    let _ = lists[priority as usize].pop_front();
}

// The head of a list goes to the list of its job's new priority: to the head of a lower one,
// to the tail of a higher one.
pub(crate) fn move_first(
    lists: &mut Vec<VecDeque<usize>>,
    old: u32,
    new: u32,
    task: usize,
) -> Result<(), AllocError>
    requires old { old < vec_len lists.old }
    requires new { new < vec_len lists.old }
    ensures { IfOk result (λ _. listed lists.new.items
        ≡ moved_to (listed lists.old.items) old new task) }
{
    if old == new {
        return Ok(());
    }
    drop_first(lists, old);
    if new < old {
        lists[new as usize].push_front(task)?;
        return Ok(());
    }
    enqueue(lists, new, task)
}

// The head of the highest list that isn't empty.
pub(crate) fn first(lists: &[VecDeque<usize>]) -> Option<usize>
    ensures { result ≡ head_of_highest (listed lists.now) None }
{
    let mut found = None;
    for list in lists {
        if let Some(task) = list.front() {
            found = Some(*task);
        }
    }
    found
}

// The pending job that goes first: that of the head of the highest list that isn't empty.
pub(crate) fn pick(slots: &[Option<Pending>], lists: &[VecDeque<usize>]) -> Option<Pending>
    requires few { length slots.now ≤ TASK_LIMIT }
    requires queues { Queues (λ i. slice_index_or slots.now i None) (list_at (listed lists.now)) }
    ensures { result ≡ best_slot slots.now None }
{
    let Some(task) = first(lists) else {
        return None;
    };
    slots[task]
}
