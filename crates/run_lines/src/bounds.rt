//! The bounds of an order's tasks.
ghost use Rattle.std.specs.Prelude.{◌≡◌, IfOk};
ghost use Rattle.assignment.specs.Placings.{tasks_of_places};
ghost use Rattle.run_lines.specs.TaskBounds.{bounds_of, tasks_of_bounds};

use assignment::Place;
use std::alloc::{AllocError, Global};

/// A task of an order, by its index, and how long after its arrival each of its jobs is done, where that is known; in
/// microseconds.
#[derive(Clone, Copy)]
pub struct TaskBound {
    pub task: usize,
    pub bound: Option<u64>,
}

/// The tasks of places, whose responses are the bounds. The error is out of memory.
pub fn bounds_of(alloc: Global, places: &[Place]) -> Result<Vec<TaskBound>, AllocError>
    ensures bounds { IfOk result (λ bounds. bounds.items ≡ bounds_of places.now) }
    ensures tasks { IfOk result (λ bounds. tasks_of_bounds bounds.items
        ≡ tasks_of_places places.now) }
{
    let mut bounds = Vec::with_capacity(alloc, places.len())?;
    for place in places {
        bounds.push(TaskBound {
            task: place.task,
            bound: Some(place.response),
        })?;
    }
    Ok(bounds)
}
