//! The chains of a set in its best order.
ghost use Rattle.std.specs.Prelude.{◌≡◌, IfOk, string_bytes};
ghost use Rattle.assignment.specs.Placings.{IsPlacingOf};
ghost use Rattle.set_commands.specs.Chained.{AreLeastOf, IsPlaced, chained_of, met_status, status_of};

use answering::Status;
use assignment::Placing;
use ceilings::Tabled;
use chain_lines::{Telling, chains_text, least_bounds};
use chain_tables::Chain;
use chains::Level;
use owners::Owner;
use std::alloc::{AllocError, Global};
use task_sheet::TaskSet;

/// A set, whose its tasks are, its chains, what becomes of them all, and the levels of its best order, with the least
/// bounds of the chains that it misses; none where no order passes.
#[derive(Drop)]
pub struct Placed {
    pub tasks: TaskSet,
    pub owners: Vec<Owner>,
    pub chains: Vec<Chain>,
    pub placing: Placing,
    pub levels: Vec<Level>,
    pub leasts: Vec<Option<u128>>,
    /// Whether the bound of each chain is within its limit there.
    pub are_met: bool,
}

/// The least bounds of the chains that the order of a placing misses; none where no order passes. The error is out of
/// memory.
pub(crate) fn leasts_of(
    alloc: Global,
    set: &Tabled<'_>,
    placing: &Placing,
    levels: &[Level],
    chains: &[Chain],
) -> Result<Vec<Option<u128>>, AllocError>
    requires { IsPlacingOf set.now placing.now }
    ensures { IfOk result (λ leasts. AreLeastOf set.now levels.now chains.now placing.now leasts.items) }
{
    match placing {
        Placing::Best(_) => least_bounds(alloc, set, levels, chains),
        Placing::Stuck(_) => Ok(Vec::new(alloc)),
    }
}

/// The lines of a set's chains in its best order; nothing where no order passes. The error is out of memory.
pub(crate) fn chained_text(
    alloc: Global,
    telling: Telling,
    placed: &Placed,
) -> Result<String, AllocError>
    requires { IsPlaced placed.now }
    ensures { IfOk result (λ text. string_bytes text ≡ chained_of telling placed.now) }
{
    match &placed.placing {
        Placing::Best(_) => chains_text(
            alloc,
            telling,
            &placed.tasks,
            &placed.levels,
            &placed.leasts,
            &placed.chains,
        ),
        Placing::Stuck(_) => Ok(String::new(alloc)),
    }
}

// Whether each chain is met, as a status.
fn met_status(are_met: bool) -> Status
    ensures { result ≡ met_status are_met }
{
    if are_met {
        Status::Done
    } else {
        Status::Infeasible
    }
}

/// The exit status of a placing and the chains in its order.
pub(crate) fn chained_status(placed: &Placed) -> Status
    requires { IsPlaced placed.now }
    ensures { result ≡ status_of placed.now }
{
    match &placed.placing {
        Placing::Best(_) => met_status(placed.are_met),
        Placing::Stuck(_) => Status::Infeasible,
    }
}
