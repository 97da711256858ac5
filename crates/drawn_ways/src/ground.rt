//! What a way is drawn from.
ghost use Rattle.std.specs.Prelude.{◌≤◌, length};
ghost use Rattle.frames.specs.declared.places.TheConstants.{PLACES_LIMIT};

use crate::sources::Source;
use frames::{Frame, TaskRow};
use task_sheet::TaskSet;

// How time lies, the set, the rows and which of them are shown, and what the outputs come from.
#[derive(Drop)]
pub(crate) struct Ground<'a> {
    pub(crate) frame: Frame,
    pub(crate) set: &'a TaskSet,
    pub(crate) rows: &'a [TaskRow],
    pub(crate) shown: &'a [usize],
    pub(crate) source: &'a Source,
    ghost few: { length shown.now ≤ PLACES_LIMIT },
}
