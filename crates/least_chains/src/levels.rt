//! The levels of the places of an order.
ghost use Rattle.std.specs.Prelude.{◌≡◌, IfOk};
ghost use Rattle.least_chains.specs.LeastBound.{levels_at, levels_of};

use assignment::{Place, Placing};
use chains::Level;
use std::alloc::{AllocError, Global};

/// The levels of places, each a task with its response. The error is out of memory.
pub fn levels_at(alloc: Global, places: &[Place]) -> Result<Vec<Level>, AllocError>
    ensures { IfOk result (λ levels. levels.items ≡ levels_at places.now) }
{
    let mut levels = Vec::with_capacity(alloc, places.len())?;
    for place in places {
        levels.push(Level {
            task: place.task,
            response: Some(place.response),
        })?;
    }
    Ok(levels)
}

/// The levels of the order of a placing; none where no order passes. The error is out of memory.
pub fn levels_of(alloc: Global, placing: &Placing) -> Result<Vec<Level>, AllocError>
    ensures { IfOk result (λ levels. levels.items ≡ levels_of placing.now) }
{
    match placing {
        Placing::Best(places) => levels_at(alloc, places),
        Placing::Stuck(_) => Ok(Vec::new(alloc)),
    }
}
