//! Tasks of lists and of places, as members.
ghost use Rattle.std.specs.Prelude.{◌≡◌, ◌<◌, All};
ghost use Rattle.task_sheet.specs.declared.set.TheConstants.{TASK_LIMIT};
ghost use Rattle.task_sheet.specs.Indexes.{among, indexes_of};
ghost use Rattle.assignment.specs.Placings.{tasks_of_places};

use crate::placing::Place;
use task_sheet::Members;

/// The tasks of a list of indexes.
pub fn members_of(tasks: &[usize]) -> Members
    requires { All (λ task. task < TASK_LIMIT) tasks.now }
    ensures { indexes_of result ≡ among tasks.now }
{
    let mut members = Members::empty();
    for task in tasks {
        members = members.with(*task);
    }
    members
}

/// The tasks of some places.
pub fn members_at(places: &[Place]) -> Members
    requires { All (λ p. p.task < TASK_LIMIT) places.now }
    ensures { indexes_of result ≡ among (tasks_of_places places.now) }
{
    let mut members = Members::empty();
    for place in places {
        members = members.with(place.task);
    }
    members
}
