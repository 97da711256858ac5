//! A team's drafts and its pass, and its lines of a script.
ghost use Rattle.std.specs.Prelude.{◌≡◌, ◌++◌, IfOk, OnOk, Option, None, option_map};
ghost use Rattle.candidate_workers.specs.WorkerFaults.{IsBadCount};
ghost use Rattle.drafts.specs.Edits.{Draft, after_put, after_remove};
ghost use Rattle.drafts.specs.declared.draft.EditCause.TheVariants.{Refused};
ghost use Rattle.rushes.specs.Hands.{draft_at, edited, new_hand, noted, refusal_in, AreDone, IsCommitted, IsLineDone, IsOn, IsOpened, IsSet, IsStep};
ghost use Rattle.rushes.specs.HandFields.{AllOwn};

use crate::note::{Missed, Note};
use crate::site::Site;
use crate::split::{TeamLine, opens};
use book_lock::{CommitCause, OpenFault, Pass};
use candidate_workers::OpenGate;
use drafts::{Draft, EditCause, EditRefusal};
use scripts::{Row, RushFault};
use std::alloc::{AllocError, Global};
use std::collections::HashMap;
use std::marker::Model;
use std::sync::Wait;
use std::sync::ledger::Ledger;
use std::thread::Threads;
use task_sheet::{Name, Sheet};

/// The drafts that the team's lines opened and that haven't ended, by number; its pass; and what is reported of its lines
/// that did nothing.
#[derive(Drop)]
pub(crate) struct Hand<L: Ledger> {
    drafts: HashMap<usize, Draft>,
    pass: Pass<L>,
    notes: Vec<Note>,
}

impl<L: Ledger> Model for Hand<L> {
    ghost use Rattle.rushes.specs.Hands.{Hand};

    ghost Value = { Hand };

    ghost view = { λ h. record {
      drafts = h.drafts.entries;
      pass = h.pass;
      notes = h.notes.items;
    } };
}

// The refusal for which an edit was not made; the error is out of memory.
fn refusal_of(cause: EditCause) -> Result<EditRefusal, AllocError>
    ensures { IfOk result (λ refusal. cause ≡ Refused refusal) }
{
    match cause {
        EditCause::Refused { refusal } => Ok(refusal),
        EditCause::OutOfMemory => Err(AllocError),
    }
}

// Puts a sheet into a draft, and gives what is reported of that.
fn put(alloc: Global, draft: &mut Draft, sheet: &Sheet) -> Result<Option<Missed>, AllocError>
    ensures draft { OnOk result (draft.new ≡ edited draft.old (after_put draft.old sheet.now)) }
    ensures missed { IfOk result (λ missed. missed
        ≡ option_map (λ refusal. Missed.PutRefused sheet.now.name refusal)
        (refusal_in (after_put draft.old sheet.now))) }
{
    let name = sheet.name();
    match draft.put(sheet.copy(alloc)?) {
        Ok(()) => Ok(None),
        Err(fault) => {
            let refusal = refusal_of(fault.cause)?;
            Ok(Some(Missed::PutRefused { name, refusal }))
        }
    }
}

// Removes a task from a draft, and gives what is reported of that.
fn remove(draft: &mut Draft, name: Name) -> Result<Option<Missed>, AllocError>
    ensures draft { OnOk result (draft.new ≡ edited draft.old (after_remove draft.old name)) }
    ensures missed { IfOk result (λ missed. missed
        ≡ option_map (λ refusal. Missed.RemoveRefused name refusal)
        (refusal_in (after_remove draft.old name))) }
{
    match draft.remove(name) {
        Ok(()) => Ok(None),
        Err(cause) => {
            let refusal = refusal_of(cause)?;
            Ok(Some(Missed::RemoveRefused { name, refusal }))
        }
    }
}

// Commits a draft.
fn commit<L: Ledger, R: Threads + Wait>(
    site: &Site<'_, L, R>,
    pass: &mut Pass<L>,
    draft: Draft,
) -> Result<(), RushFault>
    requires team { draft.team ≡ pass.old.team }
    requires workers { IsBadCount site.now.workers → ⊥ }
    ensures { OnOk result (IsCommitted site.now.workers draft pass.old pass.new) }
{
    match site
        .desk
        .commit(site.rt, site.alloc, pass, draft, site.workers, &OpenGate)
    {
        Ok(_) => Ok(()),
        Err(fault) => match fault.cause {
            CommitCause::ThreadRefused => Err(RushFault::ThreadRefused),
            CommitCause::OutOfMemory => Err(RushFault::OutOfMemory),
            CommitCause::OtherTeam | CommitCause::BadWorkers | CommitCause::GateShut { name: _ } =>
                { unreachable!() }
        },
    }
}

// What a line makes of a draft, none where that ends it; and what is reported of the line.
fn step<L: Ledger, R: Threads + Wait>(
    site: &Site<'_, L, R>,
    pass: &mut Pass<L>,
    draft: Draft,
    row: &Row,
) -> Result<(Option<Draft>, Option<Missed>), RushFault>
    requires team { draft.team ≡ pass.old.team }
    requires workers { IsBadCount site.now.workers → ⊥ }
    ensures { IfOk result (λ step. IsStep site.now.workers row.now draft pass.old step.0 step.1
        pass.new) }
{
    let mut draft = draft;
    match row {
        Row::Open { .. } | Row::Found { .. } | Row::Test { .. } => Ok((Some(draft), None)),
        Row::Put { sheet, .. } => {
            let missed = put(site.alloc, &mut draft, sheet.sheet())?;
            Ok((Some(draft), missed))
        }
        Row::Remove { name, .. } => {
            let missed = remove(&mut draft, *name)?;
            Ok((Some(draft), missed))
        }
        Row::Commit { .. } => {
            commit(site, pass, draft)?;
            Ok((None, None))
        }
        Row::Abandon { .. } => Ok((None, None)),
    }
}

impl<L: Ledger> Hand<L> {
    fn new(alloc: Global, pass: Pass<L>) -> Hand<L>
        ensures { result ≡ new_hand pass }
    {
        Hand {
            drafts: HashMap::new(alloc),
            pass,
            notes: Vec::new(alloc),
        }
    }

    // A line that opens the draft of this number.
    fn open<R: Wait>(&mut self, site: &Site<'_, L, R>, number: usize) -> Result<(), RushFault>
        ensures { OnOk result (IsOpened self.old number self.new) }
    {
        match site.desk.open(site.rt, site.alloc, &self.pass) {
            Ok(draft) => {
                self.drafts.insert(number, draft)?;
                Ok(())
            }
            Err(OpenFault::Foreign { name: _ }) => Err(RushFault::Foreign),
            Err(OpenFault::Behind { version: _ }) => Err(RushFault::Behind),
            Err(OpenFault::OutOfMemory) => Err(RushFault::OutOfMemory),
        }
    }

    // Puts a draft back that goes on.
    fn put_back(&mut self, number: usize, next: Option<Draft>) -> Result<(), RushFault>
        requires { draft_at self.old number ≡ None }
        ensures drafts { OnOk result (IsSet self.old number next self.new) }
        ensures pass { self.new.pass ≡ self.old.pass }
        ensures notes { self.new.notes ≡ self.old.notes }
    {
        if let Some(draft) = next {
            self.drafts.insert(number, draft)?;
        }
        Ok(())
    }

    // A line on the draft of this number, and what is reported of it.
    fn run_on<R: Threads + Wait>(
        &mut self,
        site: &Site<'_, L, R>,
        number: usize,
        row: &Row,
    ) -> Result<Option<Missed>, RushFault>
        requires own { AllOwn self.old }
        requires workers { IsBadCount site.now.workers → ⊥ }
        ensures { IfOk result (λ missed. (next : Option Draft)
            × IsOn site.now.workers row.now number (draft_at self.old number) self.old.pass next
            missed self.new.pass
            × IsSet self.old number next self.new
            × (self.new.notes ≡ self.old.notes)) }
    {
        let Some(draft) = self.drafts.remove(&number) else {
            return Ok(Some(Missed::Ended { draft: number }));
        };
        let (next, missed) = step(site, &mut self.pass, draft, row)?;
        self.put_back(number, next)?;
        Ok(missed)
    }

    // Tells of a line why it did nothing, if so.
    fn note(&mut self, line: u64, missed: Option<Missed>) -> Result<(), AllocError>
        ensures { OnOk result (self.new ≡ record self.old { notes = self.old.notes ++ noted line missed }) }
    {
        if let Some(missed) = missed {
            self.notes.push(Note { line, missed })?;
        }
        Ok(())
    }

    // One line, and what is reported of it.
    fn run_line<R: Threads + Wait>(
        &mut self,
        site: &Site<'_, L, R>,
        line: &TeamLine<'_>,
    ) -> Result<(), RushFault>
        requires own { AllOwn self.old }
        requires workers { IsBadCount site.now.workers → ⊥ }
        ensures { OnOk result (IsLineDone site.now.workers self.old line.now self.new) }
    {
        if opens(&line.line.row).is_some() {
            return self.open(site, line.draft);
        }
        let missed = self.run_on(site, line.draft, &line.line.row)?;
        self.note(line.line.number, missed)?;
        Ok(())
    }

    /// What is reported of the team's lines that did nothing, by line.
    pub(crate) fn notes(&self) -> &[Note]
        ensures { result.now ≡ self.now.notes }
    {
        &self.notes
    }

    /// The team's pass.
    pub(crate) fn into_pass(self) -> Pass<L>
        ensures { result ≡ self.pass }
    {
        self.pass
    }
}

/// Runs a team's lines. The first fault that is no refusal ends them.
pub(crate) fn run_lines<L: Ledger, R: Threads + Wait>(
    site: &Site<'_, L, R>,
    pass: Pass<L>,
    lines: &[TeamLine<'_>],
) -> Result<Hand<L>, RushFault>
    requires { IsBadCount site.now.workers → ⊥ }
    ensures { IfOk result (λ last. AreDone site.now.workers (new_hand pass) lines.now last) }
{
    let mut hand = Hand::new(site.alloc, pass);
    for line in lines {
        hand.run_line(site, line)?;
    }
    Ok(hand)
}
