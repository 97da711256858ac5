//! What a person is told beside an answer.

use preferences::Choice;
use task_sheet::{Members, Name, TaskSet};

/// What a person is told beside an answer. No contract speaks of it: no answer rests on it.
#[derive(Drop)]
pub struct Notes {
    /// The new set that was read beside the first, and who says by what it is preferred.
    pub new: Option<(TaskSet, Choice)>,
    /// A chain misses its limit in the best order of that.
    pub misses_in_new: bool,
    /// The answer is of the set's best order: what was read beside it gives none.
    pub in_best_order: bool,
    /// It is a run of the set's tasks.
    pub is_run: bool,
    /// The tasks at whose overruns the runs of the set and of the new one end.
    pub overruns: [Option<Name>; 2],
    /// The tasks of which a trace shows jobs, by their indexes.
    pub seen: Option<Members>,
    /// The set is to keep the order of settings.
    pub is_keeping: bool,
    /// The first pair of that order that has to change.
    pub parted: Option<(usize, usize)>,
    /// The answer is of an order that isn't the best one, and a chain misses its limit in it.
    pub misses_here: bool,
}

impl Notes {
    /// Nobody is told anything.
    pub fn none() -> Notes {
        Notes {
            new: None,
            misses_in_new: false,
            in_best_order: false,
            is_run: false,
            overruns: [None, None],
            seen: None,
            is_keeping: false,
            parted: None,
            misses_here: false,
        }
    }
}
