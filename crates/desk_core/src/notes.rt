//! Which findings a trial has taken, for clauses alone.

ghost use Rattle.std.specs.Prelude.{◌≡◌, List, []};
ghost use Rattle.std.specs.Borrow.{ftrue};
ghost use Rattle.task_sheet.specs.SetCodes.{set_codes};
ghost use Rattle.desk_core.specs.Findings.{Asked, asked_of, found_after};

use crate::told::Told;
use assignment::Finding;
use std::marker::Model;
use std::snapshot::Snapshot;

/// The findings that were taken, in their order. It has no bytes: what a trial keeps of them is its climb and its level.
#[derive(Drop)]
pub struct Notes {
    pub ghost items: { List Asked } by { Prim.hlevel set_codes },
}

impl Model for Notes {
    ghost also_owns = { λ _. ftrue };
}

impl Notes {
    // No findings.
    pub(crate) fn none() -> Notes
        ensures { result.items ≡ [] }
    {
        Notes {}
    }

    // The findings with one more, where it was taken.
    pub(crate) fn with(&self, _brought: &Snapshot<Finding>, _told: &Told) -> Notes
        ensures { result.items
            ≡ found_after self.now.items (asked_of _brought.now.value.question) _told.now }
    {
        Notes {}
    }
}
