//! A set with its best order, or with the members of its greatest obstruction: what is kept of what becomes of a set.
ghost use Rattle.std.specs.Prelude.{◌≡◌, IfOk, length};
ghost use Rattle.task_sheet.specs.Indexes.{indexes_of, listed_below};
ghost use Rattle.task_sheet.specs.Levels.{IsGreatestObstruction};
ghost use Rattle.task_sheet.specs.Verdicts.{tasks_of};
ghost use Rattle.assignment.specs.Placings.{IsBestPlacing};
ghost use Rattle.drafts.specs.Placed.{AreStuck};

use assignment::{Obstruction, Place, Verdict, assign};
use std::alloc::{AllocError, Global};
use std::marker::Model;
use std::sync::Arc;
use task_sheet::{Members, TaskSet};

/// A set and its best order, the lowest first, each task with its response in microseconds.
#[derive(Drop)]
pub struct BestOrder {
    set: Arc<TaskSet>,
    places: Vec<Place>,
}

impl Model for BestOrder {
    ghost use Rattle.assignment.specs.Placings.{IsBestPlacing};
    ghost use Rattle.drafts.specs.Placed.{BestOrderData};

    ghost Value = { BestOrderData };

    ghost view = { λ b. record { set = b.set.value; places = b.places.items } };

    ghost invariant = { λ b. IsBestPlacing b.set.value b.places.items };
}

/// A set of which no order passes, and the members of its greatest obstruction.
#[derive(Drop)]
pub struct StuckSet {
    set: Arc<TaskSet>,
    members: Members,
}

impl Model for StuckSet {
    ghost use Rattle.std.specs.Prelude.{length};
    ghost use Rattle.task_sheet.specs.Indexes.{indexes_of, listed_below};
    ghost use Rattle.task_sheet.specs.Levels.{IsGreatestObstruction};
    ghost use Rattle.drafts.specs.Placed.{StuckSetData};

    ghost Value = { StuckSetData };

    ghost view = { λ s. record {
      set = s.set.value;
      members = listed_below (length s.set.value) (indexes_of s.members);
    } };

    ghost invariant = { λ s. IsGreatestObstruction s.set.value (indexes_of s.members) };
}

impl BestOrder {
    // A set with its best order.
    pub(crate) fn new(set: Arc<TaskSet>, places: Vec<Place>) -> BestOrder
        requires { IsBestPlacing set.value places.items }
        ensures { result ≡ record { set = set.value; places = places.items } }
    {
        BestOrder { set, places }
    }

    /// The set.
    pub fn set(&self) -> &TaskSet
        ensures { result.now ≡ self.now.set }
    {
        &self.set
    }

    /// The places, the lowest first.
    pub fn places(&self) -> &[Place]
        ensures same { result.now ≡ self.now.places }
        ensures best { IsBestPlacing self.now.set self.now.places }
    {
        &self.places
    }

    /// The same again.
    pub fn copy(&self, alloc: Global) -> Result<BestOrder, AllocError>
        ensures { IfOk result (λ copy. copy ≡ self.now) }
    {
        let set = self.set.clone()?;
        let places = Vec::from_slice(alloc, &self.places)?;
        Ok(BestOrder { set, places })
    }
}

impl StuckSet {
    // A set with its greatest obstruction.
    pub(crate) fn new(set: Arc<TaskSet>, members: Members) -> StuckSet
        requires { IsGreatestObstruction set.value (indexes_of members) }
        ensures { result
            ≡ record { set = set.value; members = listed_below (length set.value) (indexes_of members) } }
    {
        StuckSet { set, members }
    }

    /// The set.
    pub fn set(&self) -> &TaskSet
        ensures { result.now ≡ self.now.set }
    {
        &self.set
    }

    /// The members.
    pub fn members(&self) -> Members
        ensures same { listed_below (length self.now.set) (indexes_of result) ≡ self.now.members }
        ensures stuck { AreStuck self.now.set self.now.members }
    {
        self.members
    }

    /// The members again, each with the reason why it may not stand below the others.
    pub fn reasons(&self, alloc: Global) -> Result<Obstruction, AllocError>
        ensures set { IfOk result (λ obstruction. obstruction.set ≡ self.now.set) }
        ensures members { IfOk result (λ obstruction. tasks_of obstruction.members ≡ self.now.members) }
    {
        // The set is valid: the proof has it from its sheets.
        let _ = self.set.sheets();
        match assign(alloc, self.set.clone()?)? {
            Verdict::Infeasible(obstruction) => Ok(obstruction),
            Verdict::Admitted(_) => unreachable!(),
        }
    }

    /// The same again.
    pub fn copy(&self) -> Result<StuckSet, AllocError>
        ensures { IfOk result (λ copy. copy ≡ self.now) }
    {
        let set = self.set.clone()?;
        Ok(StuckSet {
            set,
            members: self.members,
        })
    }
}
