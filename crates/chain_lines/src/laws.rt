//! Laws of what is printed of a chain. Each is the contract of a function that does nothing.
ghost use Rattle.chain_lines.specs.ChainLines.{BoundIsTheLaws, PartsAreTheBound};
ghost use Rattle.chain_lines.specs.Leasts.{LeastIsTheBound, NoOrderMeets};

/// The parts that are printed of a chain come to the bound that is printed. It is that of the laws of chains where no offset
/// is known, and no longer on one clock.
pub fn parts_are_the_bound()
    ensures parts { PartsAreTheBound }
    ensures bound { BoundIsTheLaws }
{}

/// Where a chain's least bound is past its limit, no order that passes meets it, by this bound; else another order may.
pub fn no_order_meets()
    ensures { NoOrderMeets }
{}

/// Where a chain's tasks write at their deadlines, the least bound that is printed is the bound in front of it.
pub fn least_is_the_bound()
    ensures { LeastIsTheBound }
{}
