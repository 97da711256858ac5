//! Drafts: a base and a list of changes.

ghost use Rattle.std.specs.Prelude.{◌≡◌, ◌+◌, ◌<◌, ◌≤◌, take, [], Ok, IfOk, IfErr, IsTrue, OnOk, OnErr, length, option_map, slice_get, false};
ghost use Rattle.drafts.specs.Edits.{IsNamed, HaveDistinctNames, AreNamed, HasTasks, has_put, is_full, is_put, recorded, view, after_put, after_remove, on_base, IsEditFault};
ghost use Rattle.drafts.specs.declared.draft.TheConstants.{CHANGE_LIMIT};
ghost use Rattle.drafts.specs.Outcomes.{IsApplied};

use crate::applying::{Applied, apply};
use crate::change::Change;
use crate::state::NodeState;
use crate::team::Team;
use indexmap::IndexMap;
use std::alloc::{AllocError, Global};
use std::marker::Model;
use std::sync::Arc;
use task_sheet::{Name, Sheet};

/// The most changes of a draft.
pub const CHANGE_LIMIT: usize = 64;

/// A team's changes to a state.
#[derive(Drop)]
pub struct Draft {
    team: Team,
    base: Arc<NodeState>,
    changes: IndexMap<Name, Change>,
}

impl Model for Draft {
    ghost use Rattle.drafts.specs.Edits.{Draft};

    ghost Value = { Draft };

    ghost use Rattle.drafts.specs.DraftFields.{IsDraftKept};

    ghost view = { λ d. record { team = d.team; base = d.base.value; changes = d.changes.entries } };

    ghost invariant = { IsDraftKept };
}

/// Why an edit is refused.
#[derive(Clone, Copy)]
pub enum EditRefusal {
    /// Another team holds the name.
    NotYours,
    /// No task has the name that is to be removed.
    NoSuchTask,
    /// There are `CHANGE_LIMIT` changes, none of them on the name.
    DraftFull,
}

/// Why an edit was not made.
#[derive(Clone, Copy)]
pub enum EditCause {
    Refused { refusal: EditRefusal },
    OutOfMemory,
}

/// A put that was not made; the sheet is handed back.
#[derive(Drop)]
pub struct PutFault {
    pub cause: EditCause,
    pub sheet: Sheet,
}

// Whether there is no room for a change on the name.
fn is_full(changes: &IndexMap<Name, Change>, name: Name) -> bool
    ensures { result ≡ is_full name changes.now.entries }
{
    changes.len() >= CHANGE_LIMIT && !changes.contains_key(&name)
}

// Whether a change puts a sheet.
fn is_put(change: &Change) -> bool
    ensures { result ≡ is_put change.now }
{
    match change {
        Change::Put(_) => true,
        Change::Remove => false,
    }
}

// Puts a change in the place of the one on its name, or last. Where memory runs out, the change is handed back.
fn record(changes: &mut IndexMap<Name, Change>, name: Name, change: Change) -> Result<(), Change>
    ensures ok { OnOk result (changes.new.entries ≡ recorded name change changes.old.entries) }
    ensures few { is_full name changes.old.entries ≡ false
        → length changes.old.entries ≤ CHANGE_LIMIT → length changes.new.entries ≤ CHANGE_LIMIT }
    ensures named { IsNamed name change → AreNamed changes.old.entries
        → AreNamed changes.new.entries }
    ensures err { OnErr result (changes.new.entries ≡ changes.old.entries) }
    ensures back { IfErr result (λ back. back ≡ change) }
{
    match changes.insert(name, change) {
        Ok(_) => Ok(()),
        Err(refused) => Err(refused.value.1),
    }
}

// Copies the change at a place behind those before it.
fn copy_at(
    alloc: Global,
    changes: &IndexMap<Name, Change>,
    place: usize,
    copies: &mut IndexMap<Name, Change>,
) -> Result<(), AllocError>
    requires there { place < length changes.now.entries }
    requires before { copies.old.entries ≡ take place changes.now.entries }
    ensures { OnOk result (copies.new.entries ≡ take (place + 1) changes.now.entries) }
{
    // The place is one of theirs: the proof has it from their number.
    let _ = changes.len();
    let Some((name, change)) = changes.get_index(place) else {
        unreachable!();
    };
    match record(copies, *name, change.copy(alloc)?) {
        Ok(()) => Ok(()),
        Err(_) => Err(AllocError),
    }
}

// The same changes again, in their order.
fn copy_changes(
    alloc: Global,
    changes: &IndexMap<Name, Change>,
) -> Result<IndexMap<Name, Change>, AllocError>
    ensures { IfOk result (λ copies. copies.entries ≡ changes.now.entries) }
{
    let mut copies = IndexMap::new(alloc);
    for place in 0..changes.len() {
        copy_at(alloc, changes, place, &mut copies)?;
    }
    Ok(copies)
}

impl Draft {
    /// A draft without changes.
    pub fn new(alloc: Global, team: Team, base: Arc<NodeState>) -> Draft
        ensures { result ≡ record { team = team; base = base.value; changes = [] } }
    {
        Draft {
            team,
            base,
            changes: IndexMap::new(alloc),
        }
    }

    /// The team.
    pub fn team(&self) -> Team
        ensures { result ≡ self.now.team }
    {
        self.team
    }

    /// The version that the draft was opened on.
    pub fn base_version(&self) -> u64
        ensures { result ≡ self.now.base.version }
    {
        self.base.version()
    }

    /// The state that the draft was opened on.
    pub fn base(&self) -> &NodeState
        ensures { result.now ≡ self.now.base }
    {
        &self.base
    }

    /// The changes by name, in their order.
    pub fn changes(&self) -> &IndexMap<Name, Change>
        ensures { result.now.entries ≡ self.now.changes }
    {
        &self.changes
    }

    /// The same draft again.
    pub fn copy(&self, alloc: Global) -> Result<Draft, AllocError>
        ensures { IfOk result (λ draft. draft ≡ self.now) }
    {
        let base = self.base.clone()?;
        let changes = copy_changes(alloc, &self.changes)?;
        Ok(Draft {
            team: self.team,
            base,
            changes,
        })
    }

    /// How many changes there are. No two are on one name, and a put is on its sheet's own.
    pub fn len(&self) -> usize
        ensures count { result ≡ length self.now.changes }
        ensures limit { result ≤ CHANGE_LIMIT }
        ensures distinct { HaveDistinctNames self.now.changes }
        ensures named { AreNamed self.now.changes }
    {
        self.changes.len()
    }

    /// The name and the change at a place, from 0; none past the last.
    pub fn change_at(&self, place: usize) -> Option<(&Name, &Change)>
        ensures { option_map (λ p. (p.0.now, p.1.now)) result ≡ slice_get self.now.changes place }
    {
        self.changes.get_index(place)
    }

    /// Whether one of the changes is a put. What they come to has a task then, where they apply.
    #[tactic(auto, using(crate::proofs::PutLaws::put_step, crate::proofs::PutLaws::put_tasks))]
    pub fn has_put(&self) -> bool
        ensures same { result ≡ has_put self.now.changes }
        ensures tasks { IsTrue result → HasTasks (on_base self.now) }
    {
        for place in 0..self.len() {
            let Some((_, change)) = self.change_at(place) else {
                unreachable!();
            };
            if is_put(change) {
                return true;
            }
        }
        false
    }

    /// The same changes on another state.
    pub fn rebase(self, fresh: Arc<NodeState>) -> Draft
        ensures { result ≡ record { team = self.team; base = fresh.value; changes = self.changes } }
    {
        Draft {
            team: self.team,
            base: fresh,
            changes: self.changes,
        }
    }

    /// Goes with its changes to another state.
    pub fn move_to(&mut self, fresh: Arc<NodeState>)
        ensures { self.new ≡ record {
          team = self.old.team;
          base = fresh.value;
          changes = self.old.changes;
        } }
    {
        self.base = fresh;
    }

    /// The same changes on another state, and the state that they were on.
    pub fn exchange(self, fresh: Arc<NodeState>) -> (Draft, Arc<NodeState>)
        ensures draft { result.0
            ≡ record { team = self.team; base = fresh.value; changes = self.changes } }
        ensures base { result.1.value ≡ self.base }
    {
        let Draft {
            team,
            base,
            changes,
        } = self;
        let draft = Draft {
            team,
            base: fresh,
            changes,
        };
        (draft, base)
    }

    /// What the changes come to on the base.
    pub fn applied(&self, alloc: Global) -> Result<Applied, AllocError>
        ensures { IfOk result (λ outcome. IsApplied (on_base self.now) outcome) }
    {
        apply(alloc, self, &self.base)
    }

    /// The sheet of a name, as the draft shows it.
    pub fn view(&self, name: Name) -> Option<&Sheet>
        ensures { option_map (λ s. s.now) result ≡ view self.now name }
    {
        match self.changes.get(&name) {
            Some(Change::Put(sheet)) => Some(sheet),
            Some(Change::Remove) => None,
            None => self.base.sheet_of(name),
        }
    }

    /// Puts a sheet. Refused in this order: `NotYours`, `DraftFull`.
    pub fn put(&mut self, sheet: Sheet) -> Result<(), PutFault>
        ensures ok { OnOk result (after_put self.old sheet ≡ Ok self.new.changes) }
        ensures team { self.new.team ≡ self.old.team }
        ensures base { self.new.base ≡ self.old.base }
        ensures refused { IfErr result (λ fault. IsEditFault
            (after_put self.old sheet) fault.cause) }
        ensures err { OnErr result (self.new ≡ self.old) }
        ensures back { IfErr result (λ fault. fault.sheet ≡ sheet) }
    {
        let name = sheet.name();
        if self.base.is_foreign(self.team, name) {
            let cause = EditCause::Refused {
                refusal: EditRefusal::NotYours,
            };
            return Err(PutFault { cause, sheet });
        }
        if is_full(&self.changes, name) {
            let cause = EditCause::Refused {
                refusal: EditRefusal::DraftFull,
            };
            return Err(PutFault { cause, sheet });
        }
        match record(&mut self.changes, name, Change::Put(sheet)) {
            Ok(()) => Ok(()),
            Err(Change::Put(sheet)) => {
                let cause = EditCause::OutOfMemory;
                Err(PutFault { cause, sheet })
            }
            Err(Change::Remove) => unreachable!(),
        }
    }

    /// Removes the task of a name. Refused in this order: `NoSuchTask`, `NotYours`, `DraftFull`.
    pub fn remove(&mut self, name: Name) -> Result<(), EditCause>
        ensures ok { OnOk result (after_remove self.old name ≡ Ok self.new.changes) }
        ensures team { self.new.team ≡ self.old.team }
        ensures base { self.new.base ≡ self.old.base }
        ensures refused { IfErr result (λ cause. IsEditFault (after_remove self.old name) cause) }
        ensures err { OnErr result (self.new ≡ self.old) }
    {
        if self.view(name).is_none() {
            return Err(EditCause::Refused {
                refusal: EditRefusal::NoSuchTask,
            });
        }
        if self.base.is_foreign(self.team, name) {
            return Err(EditCause::Refused {
                refusal: EditRefusal::NotYours,
            });
        }
        if !self.base.has(name) {
            let _ = self.changes.shift_remove(&name);
            return Ok(());
        }
        if is_full(&self.changes, name) {
            return Err(EditCause::Refused {
                refusal: EditRefusal::DraftFull,
            });
        }
        match record(&mut self.changes, name, Change::Remove) {
            Ok(()) => Ok(()),
            Err(_) => Err(EditCause::OutOfMemory),
        }
    }
}
