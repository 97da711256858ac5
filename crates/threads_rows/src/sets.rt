//! The lowest level of a set, and the best order of the three tasks.
ghost use Rattle.std.specs.Prelude.{◌≡◌, length, IfOk};
ghost use Rattle.task_sheet.specs.MembersWords.{all_below};

use assignment::{Place, Placing};
use candidate_workers::Candidates;
use std::sync::Arc;
use std::test::Fail;
use task_sheet::TaskSet;

/// The lowest level of a set, at which all tasks are left.
pub fn lowest_level(set: &Arc<TaskSet>) -> Result<Candidates, Fail>
    ensures { IfOk result (λ level. level
        ≡ record { set = set.now.value; left = all_below (length set.now.value) }) }
{
    Ok(Candidates::all(set.clone()?))
}

// Whether a place is of this task, with this response.
fn is_place(place: &Place, task: usize, response: u64) -> bool {
    place.task == task && place.response == response
}

/// Whether a placing of the three tasks has c lowest, then a, then b, with their responses.
pub fn is_best(placing: &Placing) -> bool {
    match placing {
        Placing::Best(places) => match places.as_slice() {
            [low, middle, high] => {
                is_place(low, 2, 20000) && is_place(middle, 0, 6000) && is_place(high, 1, 3000)
            }
            _ => false,
        },
        Placing::Stuck(_) => false,
    }
}
