//! Above which other tasks of its set a task must stand.
ghost use Rattle.std.specs.Prelude.{◌≡◌, ◌↔◌, [], IsTrue, IfOk};
ghost use Rattle.task_sheet.specs.Sheet.{Named, is_all, same_outranks};
ghost use Rattle.task_sheet.specs.SheetFields.{outranks_of};

use crate::name::Name;
use std::alloc::{AllocError, Global};

/// Above which other tasks of its set a task must stand.
#[derive(Debug, Drop)]
pub enum Outranks {
    /// Those of these names: in a sheet at most 8, distinct, and none its own. A name that no task of the set has binds
    /// nothing there.
    Named(Vec<Name>),
    /// All but those that say this, too.
    AllOthers,
}

impl Outranks {
    /// Whether all others are said.
    pub fn is_all(&self) -> bool
        ensures { result ≡ is_all (outranks_of self.now) }
    {
        match self {
            Outranks::Named(_) => false,
            Outranks::AllOthers => true,
        }
    }

    /// Whether nothing is said: no name.
    pub fn is_empty(&self) -> bool
        ensures { IsTrue result ↔ (outranks_of self.now ≡ Named []) }
    {
        match self {
            Outranks::Named(names) => names.is_empty(),
            Outranks::AllOthers => false,
        }
    }

    /// Whether the two say the same: the same names in their order, or both all others.
    pub fn is_same(&self, other: &Outranks) -> bool
        ensures { result ≡ same_outranks (outranks_of self.now) (outranks_of other.now) }
    {
        match (self, other) {
            (Outranks::Named(names), Outranks::Named(others)) => {
                names.as_slice() == others.as_slice()
            }
            (Outranks::Named(_), Outranks::AllOthers) => false,
            (Outranks::AllOthers, Outranks::Named(_)) => false,
            (Outranks::AllOthers, Outranks::AllOthers) => true,
        }
    }

    /// What says the same. The error is out of memory.
    pub fn copy(&self, alloc: Global) -> Result<Outranks, AllocError>
        ensures { IfOk result (λ other. outranks_of other ≡ outranks_of self.now) }
    {
        match self {
            Outranks::Named(names) => Ok(Outranks::Named(Vec::from_slice(alloc, names)?)),
            Outranks::AllOthers => Ok(Outranks::AllOthers),
        }
    }
}
