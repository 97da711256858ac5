//! Kernels: a set's tasks at the levels of an order.
ghost use Rattle.std.specs.Prelude.{◌≡◌, ◌≤◌, length, IfOk, IfErr};
ghost use Rattle.task_sheet.specs.declared.set.TheConstants.{TASK_LIMIT};
ghost use Rattle.task_sheet.specs.Orders.{IsOrder};
ghost use Rattle.ceiling_kernel.specs.Tick.{node_in};
ghost use Rattle.ceiling_kernel.specs.Waits.{IsNode};

use crate::build::tasks_of;
use crate::levels::is_order;
use crate::tasks::NodeTask;
use ceilings::{LockTable, Tabled};
use std::alloc::{AllocError, Global};
use std::marker::Model;
use task_sheet::TaskSet;

/// Why there is no kernel.
#[derive(Clone, Copy, Debug, PartialEq, Eq)]
pub enum KernelFault {
    /// The order doesn't name each index of the set once.
    WrongOrder,
    /// Out of memory.
    OutOfMemory,
}

/// A set's tasks, each at its level in an order.
#[derive(Drop)]
pub struct Kernel<'a> {
    set: &'a TaskSet,
    order: Vec<usize>,
    tasks: Vec<NodeTask>,
}

impl<'a> Model for Kernel<'a> {
    ghost use Rattle.ceiling_kernel.specs.Tick.{Node};

    ghost Value = { Node };

    ghost use Rattle.ceiling_kernel.specs.NodeFields.{node_of, IsNodeKept};

    ghost view = { node_of };

    ghost invariant = { IsNodeKept };
}

impl<'a> Kernel<'a> {
    ghost use Rattle.ceiling_kernel.specs.NodeTasks.{KeepsTasks};
    ghost use Rattle.ceiling_kernel.specs.declared.kernel.KernelFault.TheVariants.{WrongOrder};

    /// The kernel of a set in an order of its indexes, lowest first.
    pub fn new(alloc: Global, set: &'a TaskSet, order: &[usize]) -> Result<Kernel<'a>, KernelFault>
        ensures ok { IfOk result (λ kernel. (kernel ≡ node_in set.now order.now)
            × IsOrder set.now order.now) }
        ensures err { IfErr result (λ fault. fault ≡ WrongOrder → ¬ IsOrder set.now order.now) }
    {
        if !is_order(order, set.len()) {
            return Err(KernelFault::WrongOrder);
        }
        Kernel::in_order(alloc, set, order).map_err(|_| KernelFault::OutOfMemory)
    }

    // The kernel of a set in an order.
    fn in_order(alloc: Global, set: &'a TaskSet, order: &[usize]) -> Result<Kernel<'a>, AllocError>
        requires few { length set.now ≤ TASK_LIMIT }
        requires order { IsOrder set.now order.now }
        ensures { IfOk result (λ kernel. kernel ≡ node_in set.now order.now) }
    {
        let table = LockTable::new(alloc, set)?;
        let tasks = tasks_of(alloc, &Tabled::of(set, &table), order)?;
        let order = order.to_vec(alloc)?;
        Ok(Kernel { set, order, tasks })
    }

    // The set.
    pub(crate) fn set(&self) -> &TaskSet
        ensures tasks { result.now ≡ self.now.tasks }
        ensures node { IsNode self.now }
    {
        self.set
    }

    // What is kept of its tasks.
    pub(crate) fn tasks(&self) -> &[NodeTask]
        ensures { KeepsTasks self.now result.now }
    {
        &self.tasks
    }
}
