//! Whether a given order of a set passes.
ghost use Rattle.std.specs.Prelude.{◌↔◌, IfSome, IsTrue, option_map};
ghost use Rattle.task_sheet.specs.Orders.{IsOrder, IsPassingOrder};
ghost use Rattle.response_time.specs.Slowed.{PassesAt};
ghost use Rattle.latest_first.specs.Tested.{IsPassingBy};
ghost use Rattle.other_numbers.specs.InOrder.{PassesInBy};
ghost use Rattle.limits.specs.InOrder.{PassesIn};

use assignment::{is_feasible_at, least_over, members_of};
use ceilings::Tabled;
use response_time::passes_at;

// Whether an order of the set passes where each execution takes `factor` thousandths of its time.
fn order_passes_at(set: &Tabled<'_>, order: &[usize], factor: u64) -> bool
    requires { IsOrder set.now order.now }
    ensures { IsTrue result ↔ IsPassingBy (PassesAt factor set.now) set.now order.now }
{
    // The set is valid: the proof has it from its sheets.
    let _ = set.sheets();
    for (place, low) in order.iter().enumerate() {
        let above = members_of(&order[place + 1..]);
        if least_over(set, *low, above).is_some() || !passes_at(set, *low, above, factor) {
            return false;
        }
    }
    true
}

/// Whether an order of the set passes as it stands.
pub fn order_passes(set: &Tabled<'_>, order: &[usize]) -> bool
    requires { IsOrder set.now order.now }
    ensures { IsTrue result ↔ IsPassingOrder set.now order.now }
{
    order_passes_at(set, order, 1000)
}

/// Whether this order of a set passes where each execution takes `factor` thousandths of its time, as on a slower
/// processor, or some order where none is given.
pub fn passes_in_at(set: &Tabled<'_>, order: Option<&[usize]>, factor: u64) -> bool
    requires { IfSome (option_map (λ o. o.now) order) (IsOrder set.now) }
    ensures { IsTrue result ↔ PassesInBy (PassesAt factor set.now) (option_map (λ o. o.now) order.entry) set.now }
{
    match order {
        Some(order) => order_passes_at(set, order, factor),
        None => is_feasible_at(set, factor),
    }
}

/// Whether this order of a set passes, or some order where none is given.
pub(crate) fn passes_in(set: &Tabled<'_>, order: Option<&[usize]>) -> bool
    requires { IfSome (option_map (λ o. o.now) order) (IsOrder set.now) }
    ensures { IsTrue result ↔ PassesIn (option_map (λ o. o.now) order.entry) set.now }
{
    passes_in_at(set, order, 1000)
}
