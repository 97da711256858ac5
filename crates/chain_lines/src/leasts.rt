//! The least bounds of a set's chains.
ghost use Rattle.std.specs.Prelude.{IfOk};
ghost use Rattle.task_sheet.specs.Orders.{IsFeasible};
ghost use Rattle.chain_lines.specs.ChainLines.{chain_bound, is_met};
ghost use Rattle.chain_lines.specs.Leasts.{AreLeast, IsLeastTold};

use crate::text::meets;
use ceilings::Tabled;
use chain_tables::Chain;
use chains::Level;
use least_chains::least_bound;
use std::alloc::{AllocError, Global};

// The least bound of a chain whose bound isn't within its limit.
fn least_told(
    alloc: Global,
    set: &Tabled<'_>,
    levels: &[Level],
    chain: &Chain,
) -> Result<Option<u128>, AllocError>
    requires { IsFeasible set.now }
    ensures { IfOk result
        (IsLeastTold (is_met (chain_bound set.now levels.now chain.now) chain.now.limit) set.now chain.now) }
{
    if meets(alloc, set.tasks(), levels, chain)? {
        Ok(None)
    } else {
        least_bound(alloc, set, chain.writes, &chain.offsets, &chain.tasks)
    }
}

/// The least bound of each chain whose bound isn't within its limit in an order whose levels have these responses, of a
/// set that some order passes; none of the others. The error is out of memory.
pub fn least_bounds(
    alloc: Global,
    set: &Tabled<'_>,
    levels: &[Level],
    chains: &[Chain],
) -> Result<Vec<Option<u128>>, AllocError>
    requires { IsFeasible set.now }
    ensures { IfOk result (λ leasts. AreLeast set.now levels.now chains.now leasts.items) }
{
    let mut leasts = Vec::with_capacity(alloc, chains.len())?;
    for chain in chains {
        let least = least_told(alloc, set, levels, chain)?;
        leasts.push(least)?;
    }
    Ok(leasts)
}
