//! Orders, and the levels and ceilings that they give.
ghost use Rattle.std.specs.Prelude.{◌≡◌, ◌<◌, ◌≤◌, ℕ, length, count_by, ◌==◌, IsTrue, ◌↔◌, All};
ghost use Rattle.task_sheet.specs.declared.set.TheConstants.{TASK_LIMIT};
ghost use Rattle.task_sheet.specs.Orders.{IsOrderOf};
ghost use Rattle.task_sheet.specs.Indexes.{below};
ghost use Rattle.ceiling_kernel.specs.Tick.{level_from, node_in, top_ceiling};

use ceilings::Tabled;
use task_sheet::Name;

// The order names no index from `count` on.
fn are_below(order: &[usize], count: usize) -> bool
    ensures { IsTrue result ↔ All (λ index. index < count) order.now }
{
    order.iter().all(|index| *index < count)
}

// How often the order names the index.
fn times(order: &[usize], index: usize) -> usize
    ensures { result ≡ count_by (λ x. x == index) order.now }
{
    order.iter().filter(|other| **other == index).count()
}

// The order names each index below `count` once, and perhaps others.
fn are_once(order: &[usize], count: usize) -> bool
    ensures { IsTrue result ↔ ((index : ℕ) → index < count
        → count_by (λ x. x == index) order.now ≡ 1) }
{
    for index in 0..count {
        if times(order, index) != 1 {
            return false;
        }
    }
    true
}

// The order names each index below `count` once, and no other.
pub fn is_order(order: &[usize], count: usize) -> bool
    ensures { IsTrue result ↔ IsOrderOf (below count) order.now }
{
    are_below(order, count) && are_once(order, count)
}

// The level of the task at an index: its place in the order, from 1.
pub fn level_of(order: &[usize], index: usize) -> u32
    requires { length order.now ≤ TASK_LIMIT }
    ensures { result ≡ level_from 1 order.now index }
{
    for (place, other) in order.iter().enumerate() {
        if *other == index {
            return place as u32 + 1;
        }
    }
    0
}

// The highest ceiling of some locks.
pub fn top_of(set: &Tabled<'_>, order: &[usize], locks: &[Name]) -> u32
    requires within { All (λ index. index < TASK_LIMIT) order.now }
    requires few { length order.now ≤ TASK_LIMIT }
    ensures { result ≡ top_ceiling (node_in set.now order.now) locks.now }
{
    let mut top = 0;
    for lock in locks {
        top = top.max(set.ceiling(*lock, order).unwrap_or(0));
    }
    top
}
