//! A law of orders that decide: it is the clause of a function that does nothing.

ghost use Rattle.std.specs.Prelude.{◌↔◌, ℕ, List};
ghost use Rattle.task_sheet.specs.Sheet.{Task};
ghost use Rattle.task_sheet.specs.TaskSet.{IsTaskSet};
ghost use Rattle.task_sheet.specs.Orders.{IsPassingOrder, IsFeasible};
ghost use Rattle.worst_lines.specs.Deciding.{IsDeciding};

/// An order that decides passes exactly where some order does.
pub fn deciding_orders_decide()
    ensures { (U : List Task) (order : List ℕ) → IsTaskSet U → IsDeciding U order
        → IsPassingOrder U order ↔ IsFeasible U }
{}
