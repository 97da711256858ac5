//! The best order of a set that keeps another one as far as both have its tasks, so that who deploys a set with tasks
//! added or removed changes no more than he must; or the first pair that has to change (after Audsley 1991).
#![tactic(auto)]

ghost use Rattle.std.specs.Prelude.{◌≡◌, ◌-◌, ◌<◌, ◌≤◌, ℕ, List, length, slice_index, All, IfOk};
ghost use Rattle.task_sheet.specs.declared.set.TheConstants.{TASK_LIMIT};
ghost use Rattle.task_sheet.specs.Orders.{IsFeasible};
ghost use Rattle.kept_order.specs.Keeping.{IsKeepingOf, IsPassingKept};
ghost use Rattle.kept_order.specs.declared.Keeping.TheVariants.{Parted};

mod climbing;
pub mod laws;

use crate::climbing::climb;
use assignment::{Place, Placing, place_all};
use ceilings::Tabled;
use std::alloc::{AllocError, Global};
use task_sheet::Members;

/// What becomes of a set that is to keep an order.
#[derive(Drop)]
pub enum Keeping {
    /// The best of the orders that pass and keep it, the lowest first.
    Kept(Vec<Place>),
    /// None does. Some order that passes keeps it from its lowest task up to `low`, none up to `high`, the next above.
    Parted { low: usize, high: usize },
    /// No order passes at all: the members of the greatest obstruction.
    Stuck(Members),
}

// A task of a list, with the one below it.
fn parted_at(kept: &[usize], high: usize) -> Keeping
    requires some { 1 ≤ high }
    requires within { high < length kept.now }
    ensures { result ≡ Parted (slice_index kept.now (high - 1)) (slice_index kept.now high) }
{
    Keeping::Parted {
        low: kept[high - 1],
        high: kept[high],
    }
}

// The first pair that has to change, where some order passes and none keeps the other one.
fn first_parted(alloc: Global, set: &Tabled<'_>, kept: &[usize]) -> Result<Keeping, AllocError>
    requires within { All (λ index. index < TASK_LIMIT) kept.now }
    requires none { (order : List ℕ) → ¬ IsPassingKept set.now kept.now order }
    requires some { IsFeasible set.now }
    ensures { IfOk result (IsKeepingOf set.now kept.now) }
{
    for high in 1..kept.len() {
        match climb(alloc, set, &kept[..high + 1])? {
            Some(_) => {}
            None => return Ok(parted_at(kept, high)),
        }
    }
    unreachable!()
}

/// The best of the orders of a set that pass and keep another order, which need not have all tasks of the set: no two of
/// its tasks stand the other way round. Else the first pair that has to change, or what is in the way of all orders. The error is out of memory.
pub fn keep_order(alloc: Global, set: &Tabled<'_>, kept: &[usize]) -> Result<Keeping, AllocError>
    requires { All (λ index. index < TASK_LIMIT) kept.now }
    ensures { IfOk result (IsKeepingOf set.now kept.now) }
{
    if let Some(places) = climb(alloc, set, kept)? {
        return Ok(Keeping::Kept(places));
    }
    match place_all(alloc, set)? {
        Placing::Stuck(members) => Ok(Keeping::Stuck(members)),
        Placing::Best(_) => first_parted(alloc, set, kept),
    }
}
