//! The kernel of an order that is given.
ghost use Rattle.std.specs.Prelude.{◌≡◌, IfOk};
ghost use Rattle.ceiling_kernel.specs.Tick.{node_in};
ghost use Rattle.task_sheet.specs.Orders.{IsOrder};

use ceiling_kernel::{Kernel, KernelFault};
use std::alloc::{AllocError, Global};
use task_sheet::TaskSet;

/// The kernel of a set in an order, lowest first. The error is out of memory.
pub(crate) fn kernel_of<'a>(
    alloc: Global,
    set: &'a TaskSet,
    order: &[usize],
) -> Result<Kernel<'a>, AllocError>
    requires { IsOrder set.now order.now }
    ensures { IfOk result (λ kernel. kernel ≡ node_in set.now order.now) }
{
    match Kernel::new(alloc, set, order) {
        Ok(kernel) => Ok(kernel),
        Err(KernelFault::WrongOrder) => unreachable!(),
        Err(KernelFault::OutOfMemory) => Err(AllocError),
    }
}
