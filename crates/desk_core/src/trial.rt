//! The test of a set by findings that come in any order.

ghost use Rattle.std.specs.Prelude.{◌≡◌, ◌↔◌, ◌<◌, ◌≤◌, [], length, None, Some, ℕ, IsTrue, IsFalse, MatchOption, IfOk, IfErr, OnErr, vec_capacity};
ghost use Rattle.std.specs.FinSet.{contains, remove};
ghost use Rattle.desk_core.specs.Asking.{IsAsking, IsQuestionNamed};
ghost use Rattle.task_sheet.specs.declared.set.TheConstants.{TASK_LIMIT};
ghost use Rattle.ceilings.specs.IsTableOf.{IsTableOf};
ghost use Rattle.assignment.specs.Levels.{IsDecided};
ghost use Rattle.assignment.specs.Climbs.{IsNext, IsUnfinished};
ghost use Rattle.drafts.specs.Outcomes.{IsJudgedSet};
ghost use Rattle.desk_core.specs.Progress.{present_of};
ghost use Rattle.desk_core.specs.Findings.{asked_of, IsTold, found_after, IsTested};
ghost use Rattle.desk_core.specs.Trials.{names_of};
ghost use Rattle.desk_core.specs.World.{IsShown};
ghost use Rattle.desk_core.specs.Closing.{IsClosing, IsNew, IsTakenAt};
ghost use Rattle.desk_core.specs.Advances.{IsLeast, IsTried};

use crate::notes::Notes;
use crate::told::Told;
use assignment::{AnswerFault, Climb, Finding, Level, LevelRecord, Place, Question, TakeFault};
use ceilings::LockTable;
use drafts::{Judged, judged_by};
use std::alloc::{AllocError, Global};
use std::marker::Model;
use std::snapshot::Snapshot;
use std::sync::Arc;
use task_sheet::{Members, Name, TaskSet};

/// A climb over a set, which goes on as findings decide its levels, with the table of the set's locks. The present
/// level is kept from its first finding on; room for what the test comes to is there from the beginning.
#[derive(Drop)]
pub struct Trial {
    set: Arc<TaskSet>,
    table: LockTable,
    climb: Climb,
    level: Option<Level>,
    found: Notes,
    room: Vec<Place>,
}

impl Model for Trial {
    ghost use Rattle.desk_core.specs.Trials.{TrialData, set_codes};

    ghost Value = { TrialData };

    ghost coded = { Prim.hlevel set_codes };

    ghost use Rattle.desk_core.specs.TrialFields.{IsTrialKept};

    ghost view = { λ t. record { set = t.set.value; found = t.found.items } };

    ghost invariant = { IsTrialKept };
}

// The present level, which is started where it is not kept yet.
fn start_level(alloc: Global, climb: &Climb, kept: Option<Level>) -> Result<Level, AllocError>
    requires { IsUnfinished climb.now }
    ensures ok { IfOk result (λ level. level ≡ present_of climb.now kept) }
    ensures err { OnErr result (kept ≡ None) }
{
    match kept {
        Some(level) => Ok(level),
        None => climb.start_level(alloc),
    }
}

// The task of a closed level, and its response.
fn read_level(level: &LevelRecord) -> (usize, u64)
    ensures task { result.0 ≡ level.now.task }
    ensures response { result.1 ≡ level.now.response }
{
    (level.task, level.response)
}

// Closes a level that is decided.
fn close_level(climb: &mut Climb, level: Level) -> Told
    requires next { IsNext climb.old level }
    requires decided { IsDecided level }
    ensures { IsClosing climb.old climb.new result }
{
    climb.close_own(level);
    if !climb.is_unfinished() {
        return Told::Tested;
    }
    let levels = climb.levels();
    let (task, response) = read_level(&levels[levels.len() - 1]);
    Told::LevelDone {
        level: levels.len(),
        task,
        response,
    }
}

// Brings a finding to the present level.
fn take_at(climb: &mut Climb, mut level: Level, finding: Finding) -> (Told, Option<Level>)
    requires { IsNext climb.old level }
    ensures { IsTakenAt climb.old level finding.question climb.new result.1 result.0 }
{
    match level.take(finding) {
        Err(TakeFault::Stranger { finding: _ }) => (Told::Stranger, Some(level)),
        Err(TakeFault::Twice { finding: _ }) => (Told::Twice, Some(level)),
        Ok(()) if level.decided() => (close_level(climb, level), None),
        Ok(()) => (Told::Taken, Some(level)),
    }
}

// Brings a finding that is known to be on a candidate without one: no sets are compared.
fn accept_at(climb: &mut Climb, mut level: Level, finding: Finding) -> (Told, Option<Level>)
    requires next { IsNext climb.old level }
    requires new { IsNew level finding.question }
    ensures { IsTakenAt climb.old level finding.question climb.new result.1 result.0 }
{
    level.accept(finding);
    if level.decided() {
        (close_level(climb, level), None)
    } else {
        (Told::Taken, Some(level))
    }
}

// The candidates of the present level without a finding.
fn missing_of(climb: &Climb, level: &Option<Level>) -> Members
    ensures { result ≡ (present_of climb.now level.now).missing }
{
    match level {
        Some(level) => level.missing(),
        None => climb.left(),
    }
}

// The least member below a number.
fn least(members: Members, count: usize) -> Option<usize>
    requires { count ≤ TASK_LIMIT }
    ensures { MatchOption result ((j : ℕ) → j < count → IsFalse (contains members j))
        (λ i. (i < count) × IsTrue (contains members i)
        × ((j : ℕ) → j < i → IsFalse (contains members j))) }
{
    for i in 0..count {
        if members.has(i) {
            return Some(i);
        }
    }
    None
}

// The finding on the missing candidate of least rank of a level that is not decided.
fn find_least(alloc: Global, table: &LockTable, level: &Level) -> Result<Finding, AllocError>
    requires table { IsTableOf level.now.set table.now }
    requires undecided { ¬ IsDecided level.now }
    ensures { IfOk result (λ finding. IsLeast level.now finding.question) }
{
    // The candidates are tasks of the set: the proof has it from them.
    let _ = level.left();
    match least(level.missing(), level.set().len()) {
        Some(task) => match level.question(task)?.answer_by(alloc, table) {
            Ok(finding) => Ok(finding),
            Err(_) => Err(AllocError),
        },
        None => unreachable!(),
    }
}

// The question on a candidate of the present level.
fn question_on(set: &Arc<TaskSet>, climb: &Climb, task: usize) -> Result<Question, AllocError>
    requires same { climb.now.set ≡ set.now.value }
    requires task { task < length set.now.value }
    requires limit { task < TASK_LIMIT }
    ensures { IfOk result (λ question. question
        ≡ record { set = set.now.value; above = remove climb.now.left task; task = task }) }
{
    let left = climb.left();
    let own = set.clone()?;
    Ok(Question::new(own, left.without(task), task))
}

// The names of tasks, by rank, into a list with room for them.
pub(crate) fn list_names(set: &TaskSet, tasks: Members, mut names: Vec<Name>) -> Vec<Name>
    requires empty { names.items ≡ [] }
    requires room { length set.now ≤ vec_capacity names }
    ensures { result.items ≡ names_of set.now tasks }
{
    for task in 0..set.sheets().len() {
        if tasks.has(task) {
            names.push_reserved(set.sheets()[task].name());
        }
    }
    names
}

impl Trial {
    /// A trial without findings.
    pub fn begin(alloc: Global, set: Arc<TaskSet>) -> Result<Trial, AllocError>
        ensures { IfOk result (λ trial. trial ≡ record { set = set.value; found = [] }) }
    {
        let table = LockTable::new(alloc, &set)?;
        let room = Vec::with_capacity(alloc, set.len())?;
        let climb = Climb::start(alloc, set.clone()?)?;
        Ok(Trial {
            set,
            table,
            climb,
            level: None,
            found: Notes::none(),
            room,
        })
    }

    /// Whether the verdict is complete.
    pub fn is_tested(&self) -> bool
        ensures { IsTrue result ↔ IsTested self.now.set self.now.found }
    {
        !self.climb.is_unfinished()
    }

    /// The set that is tested.
    pub fn set(&self) -> &TaskSet
        ensures { result.now ≡ self.now.set }
    {
        &self.set
    }

    /// The question on the missing candidate of least rank at the present level; none where the verdict is complete.
    pub fn asking(&self) -> Result<Option<Question>, AllocError>
        ensures { IfOk result (λ question. IsAsking self.now.set self.now.found question) }
    {
        if !self.climb.is_unfinished() {
            return Ok(None);
        }
        let missing = missing_of(&self.climb, &self.level);
        match least(missing, self.set.len()) {
            Some(task) => {
                let question = question_on(&self.set, &self.climb, task)?;
                Ok(Some(question))
            }
            None => unreachable!(),
        }
    }

    /// The question on the candidate of a name at the present level; none where no candidate has the name, or the
    /// verdict is complete.
    pub fn question(&self, name: Name) -> Result<Option<Question>, AllocError>
        ensures { IfOk result (λ question. IsQuestionNamed self.now.set self.now.found name question) }
    {
        if !self.climb.is_unfinished() {
            return Ok(None);
        }
        // The set is valid: the proof has it from its sheets.
        let _ = self.set.sheets();
        let Some(task) = self.set.find(name) else {
            return Ok(None);
        };
        if !self.climb.left().has(task) {
            return Ok(None);
        }
        let question = question_on(&self.set, &self.climb, task)?;
        Ok(Some(question))
    }

    /// The answer to a question, by the table of the trial where the question is on its set. The fault is out of memory.
    pub fn answer(&self, alloc: Global, question: Question) -> Result<Finding, AnswerFault>
        ensures ok { IfOk result (λ finding. finding.question ≡ question) }
        ensures err { IfErr result (λ fault. fault.question ≡ question) }
    {
        if self.set.is_same(question.set()) {
            question.answer_by(alloc, &self.table)
        } else {
            question.answer(alloc)
        }
    }

    // The names that the complete verdict shows, into a list with room for them.
    pub(crate) fn infeasible(&self, names: Vec<Name>) -> Vec<Name>
        requires tested { IsTested self.now.set self.now.found }
        requires empty { names.items ≡ [] }
        requires room { length self.now.set ≤ vec_capacity names }
        ensures { IsShown self.now.set result.items }
    {
        list_names(&self.set, self.members(), names)
    }

    // The tasks whose names the complete verdict shows.
    fn members(&self) -> Members
        requires { IsTested self.now.set self.now.found }
        ensures { IsShown self.now.set (names_of self.now.set result) }
    {
        // The set is valid, and the levels place all its tasks: the proof has it from them.
        let _ = self.set.sheets();
        match self.climb.members() {
            Some(_) => self.climb.left(),
            None => {
                // The levels place all tasks: the proof has it from them.
                let _ = self.climb.levels();
                Members::empty()
            }
        }
    }

    // What a complete test comes to, and the findings. The table goes.
    pub(crate) fn finish(self) -> (Judged, Notes)
        requires { IsTested self.set self.found }
        ensures judged { IsJudgedSet self.set result.0 }
        ensures found { result.1.items ≡ self.found }
    {
        let Trial {
            set,
            table: _,
            climb,
            level: _,
            found,
            room,
        } = self;
        match climb.finish() {
            Ok(verdict) => (judged_by(set, &verdict, room), found),
            Err(_) => unreachable!(),
        }
    }

    /// Takes a finding. Out of memory leaves the trial as it was, and hands the finding back.
    pub fn take(&mut self, alloc: Global, finding: Finding) -> Result<Told, Finding>
        ensures told { IfOk result
            (λ told. IsTold self.old.set self.old.found finding.question told) }
        ensures same { self.new.set ≡ self.old.set }
        ensures found { IfOk result
            (λ told. self.new.found ≡ found_after self.old.found (asked_of finding.question) told) }
        ensures err { OnErr result (self.new ≡ self.old) }
        ensures back { IfErr result (λ back. back ≡ finding) }
    {
        if !self.climb.is_unfinished() {
            return Ok(Told::Stranger);
        }
        let Ok(level) = start_level(alloc, &self.climb, self.level.take()) else {
            return Err(finding);
        };
        let brought = Snapshot::of(&finding);
        let (told, kept) = take_at(&mut self.climb, level, finding);
        self.level = kept;
        self.found = self.found.with(&brought, &told);
        Ok(told)
    }

    /// Answers the question on the missing candidate of least rank at the present level by the table of the trial, and
    /// takes the finding: no sets are compared. None where the verdict is complete. Out of memory leaves the trial as
    /// it was.
    pub(crate) fn advance(&mut self, alloc: Global) -> Result<Option<Told>, AllocError>
        ensures ok { IfOk result (IsTried self.old self.new) }
        ensures err { OnErr result (self.new ≡ self.old) }
    {
        if !self.climb.is_unfinished() {
            return Ok(None);
        }
        let level = start_level(alloc, &self.climb, self.level.take())?;
        let Ok(finding) = find_least(alloc, &self.table, &level) else {
            self.level = Some(level);
            return Err(AllocError);
        };
        let brought = Snapshot::of(&finding);
        let (told, kept) = accept_at(&mut self.climb, level, finding);
        self.level = kept;
        self.found = self.found.with(&brought, &told);
        Ok(Some(told))
    }
}
