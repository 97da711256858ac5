//! What a task declares.
ghost use Rattle.std.specs.Prelude.{◌≡◌, ◌↔◌, ◌+◌, ◌<◌, ◌≤◌, length, All, IsTrue, Some, None, IfNone, IfOk, IfErr, OnOk, OnErr};
ghost use Rattle.std.specs.Bool.{OnFalse};
ghost use Rattle.task_sheet.specs.Name.{IsName};
ghost use Rattle.task_sheet.specs.Sheet.{CriticalSection, Task, IsSection, AreSections, AreOutranked, MayOutrank, AreOverheads, AreInterrupts, IsValidSheet, task_of, with_jitter, outranking, outranks_task, holding, weighing, with_node, interrupted, repeats, same_section, same_sheet};
ghost use Rattle.task_sheet.specs.Overheads.{overhead_of};
ghost use Rattle.task_sheet.specs.SheetFields.{outranks_of};
ghost use Rattle.task_sheet.specs.Demand.{interrupts_some, limit_of};
ghost use Rattle.task_sheet.specs.declared.sheet.TheConstants.{WEIGHT_LIMIT, SECTION_LIMIT};
ghost use Rattle.task_sheet.specs.SheetFault.{section_fault, list_fault, numbers_fault, sheet_fault, names_fault, outranks_fault};

use crate::name::Name;
use crate::node::{Interrupt, Node};
use crate::outranks::Outranks;
use std::alloc::{AllocError, Global};
use std::fmt;
use std::marker::Model;
use thiserror::Error;

/// The greatest weight.
pub const WEIGHT_LIMIT: u64 = 1000;

/// The shortest period, in microseconds.
pub const PERIOD_FROM: u64 = 1000;

/// The longest period, in microseconds.
pub const PERIOD_TO: u64 = 10_000_000;

/// The most sections of a task.
pub const SECTION_LIMIT: usize = 8;

/// The most locks of a section.
pub const LOCK_LIMIT: usize = 4;

/// The most names of tasks above which a task must stand.
pub const OUTRANKS_LIMIT: usize = 8;

/// Why values are no sheet. A section is named by its place, from 1.
#[derive(Clone, Copy, PartialEq, Eq, Error)]
pub enum SheetCause {
    /// The weight is above 1,000.
    BadWeight,
    /// The period isn't from 1,000 to 10,000,000 microseconds.
    BadPeriod,
    /// The deadline is 0.
    DeadlineZero,
    /// The deadline is above the period.
    DeadlinePastPeriod,
    /// The cost is 0.
    CostZero,
    /// The cost is above the period.
    CostPastPeriod,
    /// There are more than 8 sections.
    TooManySections,
    /// The section names no lock.
    NoLocks { section: usize },
    /// The section names more than 4 locks.
    TooManyLocks { section: usize },
    /// The section names a lock twice.
    LockTwice { section: usize },
    /// The section's length is 0.
    LenZero { section: usize },
    /// The section begins before the end of the one before it.
    Overlap { section: usize },
    /// The section ends past the cost.
    SectionPastCost { section: usize },
}

impl SheetCause {
    // What is wrong, of a section or of the sheet.
    pub(crate) fn words(self) -> &'static str {
        match self {
            SheetCause::BadWeight => "the weight is above 1000",
            SheetCause::BadPeriod => "the period is not from 1000 to 10000000",
            SheetCause::DeadlineZero => "the deadline is 0",
            SheetCause::DeadlinePastPeriod => "the deadline is above the period",
            SheetCause::CostZero => "the cost is 0",
            SheetCause::CostPastPeriod => "the cost is above the period",
            SheetCause::TooManySections => "more than 8 sections",
            SheetCause::NoLocks { .. } => "no locks",
            SheetCause::TooManyLocks { .. } => "more than 4 locks",
            SheetCause::LockTwice { .. } => "a lock twice",
            SheetCause::LenZero { .. } => "its length is 0",
            SheetCause::Overlap { .. } => "it begins before the end of the one before it",
            SheetCause::SectionPastCost { .. } => "it ends past the cost",
        }
    }
}

impl fmt::Display for SheetCause {
    fn fmt<W: fmt::Write>(&self, f: &mut fmt::Formatter<W>) -> fmt::Result {
        match self {
            SheetCause::NoLocks { section }
            | SheetCause::TooManyLocks { section }
            | SheetCause::LockTwice { section }
            | SheetCause::LenZero { section }
            | SheetCause::Overlap { section }
            | SheetCause::SectionPastCost { section } => {
                write!(f, "section {section}: {}", self.words())
            }
            _ => f.write_str(self.words()),
        }
    }
}

// Only a test that fails shows it.
impl fmt::Debug for SheetCause {
    fn fmt<W: fmt::Write>(&self, f: &mut fmt::Formatter<W>) -> fmt::Result {
        fmt::Display::fmt(self, f)
    }
}

/// The values are no sheet. The sections are handed back.
#[derive(Debug, Drop)]
pub struct SheetFault {
    /// The first reason, in the order that `Sheet::new` gives.
    pub cause: SheetCause,
    /// The sections as they were given.
    pub sections: Vec<Section>,
}

/// The jitter isn't below the deadline. The sheet is handed back.
#[derive(Debug, Drop)]
pub struct BadJitter {
    /// The sheet as it was given.
    pub sheet: Sheet,
}

/// Why a task can't be one that must stand above these.
#[derive(Clone, Copy, Debug, PartialEq, Eq, Error)]
pub enum OutranksCause {
    /// There are more than 8 names.
    TooManyOutranks,
    /// A name stands twice.
    OutranksTwice,
    /// A name is the task's own.
    OutranksSelf,
}

impl OutranksCause {
    // What is wrong.
    pub(crate) fn words(self) -> &'static str {
        match self {
            OutranksCause::TooManyOutranks => "it must stand above more than 8 tasks",
            OutranksCause::OutranksTwice => "it must stand above a task twice",
            OutranksCause::OutranksSelf => "it must stand above itself",
        }
    }
}

impl fmt::Display for OutranksCause {
    fn fmt<W: fmt::Write>(&self, f: &mut fmt::Formatter<W>) -> fmt::Result {
        f.write_str(self.words())
    }
}

/// The task can't be one that must stand above these. The sheet and they are handed back.
#[derive(Debug, Drop)]
pub struct OutranksFault {
    /// The first reason, in the order that `Sheet::outranking` gives.
    pub cause: OutranksCause,
    /// The sheet as it was.
    pub sheet: Sheet,
    /// The tasks above which it should stand, as they were given.
    pub outranks: Outranks,
}

/// A critical section: a job takes the locks when it has executed `at` microseconds and executes on, and gives them
/// back when it has executed `at + len`. A nested section is written as one section that holds all its locks for its
/// whole length (Sha, Rajkumar, Lehoczky 1990; `PTHREAD_PRIO_PROTECT` of POSIX.1-2017).
#[derive(Debug, Drop)]
pub struct Section {
    /// The names of its locks: in a sheet 1 to 4, distinct.
    pub locks: Vec<Name>,
    /// Where it begins, in microseconds of execution.
    pub at: u64,
    /// How long it is, in microseconds: in a sheet above 0.
    pub len: u64,
}

impl Model for Section {
    ghost use Rattle.task_sheet.specs.Sheet.{CriticalSection};

    ghost Value = { CriticalSection };

    ghost view = { λ s. record { locks = s.locks.items; at = s.at; len = s.len } };
}

impl Section {
    // A section that says the same.
    pub(crate) fn copy(&self, alloc: Global) -> Result<Section, AllocError>
        ensures { IfOk result (λ s. s ≡ self.now) }
    {
        let locks = Vec::from_slice(alloc, &self.locks)?;
        Ok(Section {
            locks,
            at: self.at,
            len: self.len,
        })
    }
}

/// What a task declares, within the limits: a task whose deadline is at most its period (Audsley et al.
/// 1993). Times are whole microseconds.
#[derive(Debug, Drop)]
pub struct Sheet {
    name: Name,
    weight: u64,
    period: u64,
    deadline: u64,
    cost: u64,
    sections: Vec<Section>,
    jitter: u64,
    outranks: Outranks,
    node: Node,
    interrupts: Vec<Interrupt>,
}

impl Model for Sheet {
    ghost use Rattle.task_sheet.specs.Sheet.{Task};

    ghost Value = { Task };

    ghost use Rattle.task_sheet.specs.SheetFields.{sheet_of, IsSheetKept};

    ghost view = { sheet_of };

    ghost invariant = { IsSheetKept };
}

// Sections that say the same.
fn copy_sections(alloc: Global, sections: &[Section]) -> Result<Vec<Section>, AllocError>
    ensures { IfOk result (λ v. v.items ≡ sections.now) }
{
    let mut copies = Vec::with_capacity(alloc, sections.len())?;
    for section in sections {
        copies.push(section.copy(alloc)?)?;
    }
    Ok(copies)
}

/// Whether some name stands twice.
pub fn has_repeat(names: &[Name]) -> bool
    ensures value { result ≡ repeats names.now }
    ensures named { OnFalse result (All IsName names.now) }
{
    for (i, name) in names.iter().enumerate() {
        if name.is_among(&names[i + 1..]) {
            return true;
        }
    }
    false
}

// The first fault of the section at a place, which may begin at `from`.
fn section_fault(section: &Section, place: usize, from: u64, cost: u64) -> Option<SheetCause>
    ensures fault { result ≡ section_fault place from cost section.now }
    ensures valid { IfNone result (IsSection from cost section.now) }
{
    if section.locks.is_empty() {
        return Some(SheetCause::NoLocks { section: place });
    }
    if section.locks.len() > LOCK_LIMIT {
        return Some(SheetCause::TooManyLocks { section: place });
    }
    if has_repeat(&section.locks) {
        return Some(SheetCause::LockTwice { section: place });
    }
    if section.len == 0 {
        return Some(SheetCause::LenZero { section: place });
    }
    if section.at < from {
        return Some(SheetCause::Overlap { section: place });
    }
    if section.at > cost || section.len > cost - section.at {
        return Some(SheetCause::SectionPastCost { section: place });
    }
    None
}

// The first fault of the list of sections.
fn list_fault(sections: &[Section], cost: u64) -> Option<SheetCause>
    ensures fault { result ≡ list_fault cost sections.now }
    ensures few { IfNone result (length sections.now ≤ SECTION_LIMIT) }
    ensures valid { IfNone result (AreSections 0 cost sections.now) }
{
    if sections.len() > SECTION_LIMIT {
        return Some(SheetCause::TooManySections);
    }
    let mut from = 0;
    for (i, section) in sections.iter().enumerate() {
        if let Some(cause) = section_fault(section, i + 1, from, cost) {
            return Some(cause);
        }
        from = section.at + section.len;
    }
    None
}

// The first reason why the task of a name can't be one that must stand above the tasks of these names.
fn names_fault(own: &Name, names: &[Name]) -> Option<OutranksCause>
    ensures fault { result ≡ names_fault own.now names.now }
    ensures valid { IfNone result (AreOutranked own.now names.now) }
{
    if names.len() > OUTRANKS_LIMIT {
        return Some(OutranksCause::TooManyOutranks);
    }
    if has_repeat(names) {
        return Some(OutranksCause::OutranksTwice);
    }
    if own.is_among(names) {
        return Some(OutranksCause::OutranksSelf);
    }
    None
}

// The first reason why the task of a name can't be one that must stand above these.
fn outranks_fault(own: &Name, outranks: &Outranks) -> Option<OutranksCause>
    ensures fault { result ≡ outranks_fault own.now (outranks_of outranks.now) }
    ensures valid { IfNone result (MayOutrank own.now (outranks_of outranks.now)) }
{
    match outranks {
        Outranks::Named(names) => names_fault(own, names),
        Outranks::AllOthers => None,
    }
}

// The first fault of the numbers.
fn numbers_fault(weight: u64, period: u64, deadline: u64, cost: u64) -> Option<SheetCause>
    ensures { result ≡ numbers_fault weight period deadline cost }
{
    if weight > WEIGHT_LIMIT {
        Some(SheetCause::BadWeight)
    } else if !(PERIOD_FROM..=PERIOD_TO).contains(&period) {
        Some(SheetCause::BadPeriod)
    } else if deadline == 0 {
        Some(SheetCause::DeadlineZero)
    } else if deadline > period {
        Some(SheetCause::DeadlinePastPeriod)
    } else if cost == 0 {
        Some(SheetCause::CostZero)
    } else if cost > period {
        Some(SheetCause::CostPastPeriod)
    } else {
        None
    }
}

impl Sheet {
    /// The sheet of the values, if they are within the limits. Refused in this order: `BadWeight`,
    /// `BadPeriod`, `DeadlineZero`, `DeadlinePastPeriod`, `CostZero`, `CostPastPeriod`, `TooManySections`;
    /// then for each section in its order `NoLocks`, `TooManyLocks`, `LockTwice`, `LenZero`, `Overlap`,
    /// `SectionPastCost`. Times are in microseconds.
    pub fn new(
        name: Name,
        weight: u64,
        period: u64,
        deadline: u64,
        cost: u64,
        sections: Vec<Section>,
    ) -> Result<Sheet, SheetFault>
        ensures ok { IfOk result (λ s. s
            ≡ task_of name weight period deadline cost sections.items) }
        ensures valid { IfOk result IsValidSheet }
        ensures none { OnOk result
            (sheet_fault (task_of name weight period deadline cost sections.items) ≡ None) }
        ensures err { IfErr result (λ e.
            sheet_fault (task_of name weight period deadline cost sections.items) ≡ Some e.cause) }
        ensures refused { OnErr result
            (¬ IsValidSheet (task_of name weight period deadline cost sections.items)) }
        ensures back { IfErr result (λ e. e.sections.items ≡ sections.items) }
    {
        if let Some(cause) = numbers_fault(weight, period, deadline, cost) {
            return Err(SheetFault { cause, sections });
        }
        if let Some(cause) = list_fault(&sections, cost) {
            return Err(SheetFault { cause, sections });
        }
        let alloc = *sections.allocator();
        Ok(Sheet {
            name,
            weight,
            period,
            deadline,
            cost,
            sections,
            jitter: 0,
            outranks: Outranks::Named(Vec::new(alloc)),
            node: Node::none(),
            interrupts: Vec::new(alloc),
        })
    }

    /// The same sheet with this release jitter, in microseconds: a job becomes ready up to that long after its
    /// arrival (Audsley et al. 1993). Refused where it isn't below the deadline.
    pub fn jittered(self, jitter: u64) -> Result<Sheet, BadJitter>
        ensures ok { IfOk result (λ s. (s ≡ with_jitter self jitter) × (jitter < self.deadline)) }
        ensures err { IfErr result (λ e. (e.sheet ≡ self) × (self.deadline ≤ jitter)) }
    {
        if jitter >= self.deadline {
            return Err(BadJitter { sheet: self });
        }
        let mut sheet = self;
        sheet.jitter = jitter;
        Ok(sheet)
    }

    /// The sheet of a task that must stand above these, which take the place of those that it had. Of names refused in
    /// this order: `TooManyOutranks`, `OutranksTwice`, `OutranksSelf`.
    pub fn outranking(mut self, outranks: Outranks) -> Result<Sheet, OutranksFault>
        ensures ok { IfOk result (λ s. s ≡ outranking self (outranks_of outranks)) }
        ensures none { OnOk result (outranks_fault self.name (outranks_of outranks) ≡ None) }
        ensures err { IfErr result (λ e.
            outranks_fault self.name (outranks_of outranks) ≡ Some e.cause) }
        ensures refused { OnErr result (¬ IsValidSheet (outranking self (outranks_of outranks))) }
        ensures back { IfErr result (λ e. (e.sheet ≡ self) × (e.outranks ≡ outranks)) }
    {
        if let Some(cause) = outranks_fault(&self.name, &outranks) {
            return Err(OutranksFault {
                cause,
                sheet: self,
                outranks,
            });
        }
        self.outranks = outranks;
        Ok(self)
    }

    /// The same sheet with these sections, in the place of those that it had. Refused as by `Sheet::new`.
    pub fn holding(mut self, sections: Vec<Section>) -> Result<Sheet, SheetCause>
        ensures ok { IfOk result (λ s. (list_fault self.cost sections.items ≡ None)
            × (s ≡ holding self sections.items)) }
        ensures err { IfErr result (λ e. list_fault self.cost sections.items ≡ Some e) }
    {
        if let Some(cause) = list_fault(&sections, self.cost) {
            return Err(cause);
        }
        self.sections = sections;
        Ok(self)
    }

    /// The same sheet with this weight.
    pub fn weighing(mut self, weight: u64) -> Sheet
        requires limit { weight ≤ WEIGHT_LIMIT }
        ensures { result ≡ weighing self weight }
    {
        self.weight = weight;
        self
    }

    /// The same sheet, of which this node takes what its numbers have in them.
    pub fn of_node(mut self, node: Node) -> Sheet
        requires limits { AreOverheads node }
        ensures { result ≡ with_node self node }
    {
        self.node = node;
        self
    }

    /// The same sheet with these interrupts on its account.
    pub fn interrupted(mut self, interrupts: Vec<Interrupt>) -> Sheet
        requires limits { AreInterrupts interrupts.items }
        ensures { result ≡ interrupted self interrupts.items }
    {
        self.interrupts = interrupts;
        self
    }

    /// The task's name.
    pub fn name(&self) -> Name
        ensures same { result ≡ self.now.name }
        ensures valid { IsValidSheet self.now }
    {
        self.name
    }

    /// The weight, from 0 to 1,000: of the tasks that may stand at a level, one of less weight is wanted there.
    pub fn weight(&self) -> u64
        ensures same { result ≡ self.now.weight }
        ensures limit { result ≤ WEIGHT_LIMIT }
    {
        self.weight
    }

    /// The least time between two arrivals, in microseconds: from 1,000 to 10,000,000.
    pub fn period(&self) -> u64
        ensures { result ≡ self.now.period }
    {
        self.period
    }

    /// How long after its arrival a job has to be done, in microseconds: at most the period.
    pub fn deadline(&self) -> u64
        ensures { result ≡ self.now.deadline }
    {
        self.deadline
    }

    /// How long a job executes at most, in microseconds: at most the period.
    pub fn cost(&self) -> u64
        ensures { result ≡ self.now.cost }
    {
        self.cost
    }

    /// The critical sections, by rising `at`: none begins before the end of the one before it, and each ends within
    /// the cost.
    pub fn sections(&self) -> &[Section]
        ensures { result.now ≡ self.now.sections }
    {
        &self.sections
    }

    /// How long after its arrival a job becomes ready at most, in microseconds: below the deadline.
    pub fn jitter(&self) -> u64
        ensures { result ≡ self.now.jitter }
    {
        self.jitter
    }

    /// What the jitter leaves of the deadline, in microseconds: the longest time from a release that serves a job.
    pub fn limit(&self) -> u64
        ensures same { result ≡ limit_of self.now }
        ensures some { 0 < result }
    {
        self.deadline - self.jitter
    }

    /// Above which other tasks of its set the task must stand.
    pub fn outranks(&self) -> &Outranks
        ensures { outranks_of result.now ≡ self.now.outranks }
    {
        &self.outranks
    }

    /// What the node takes of the task: its numbers have it in them, but for `release`, which its timer takes of whoever
    /// executes (Burns, Wellings).
    pub fn node(&self) -> Node
        ensures same { result ≡ self.now.node }
        ensures limits { AreOverheads result }
    {
        self.node
    }

    /// The interrupts on the task's account, which no task asks for.
    pub fn interrupts(&self) -> &[Interrupt]
        ensures same { result.now ≡ self.now.interrupts }
        ensures limits { AreInterrupts result.now }
    {
        &self.interrupts
    }

    /// Whether the task has a timer that takes time of whoever executes, or an interrupt on its account.
    pub fn interrupts_some(&self) -> bool
        ensures { result ≡ interrupts_some self.now }
    {
        self.node.release > 0 || !self.interrupts.is_empty()
    }

    /// What of the cost is the node's, in microseconds: what a job takes beside its own work, but for its timer, and the
    /// calls on its locks (Burns, Wellings).
    pub fn overhead(&self) -> u64
        ensures { result ≡ overhead_of self.now }
    {
        let mut overhead = self.node.job.saturating_sub(self.node.release);
        for section in &self.sections {
            overhead += self.node.lock * section.locks.len() as u64;
        }
        overhead
    }

    /// Whether in a set the task must stand above the other one.
    pub fn must_outrank(&self, other: &Sheet) -> bool
        ensures { result ≡ outranks_task self.now other.now }
    {
        match &self.outranks {
            Outranks::Named(names) => other.name.is_among(names),
            Outranks::AllOthers => !other.outranks.is_all(),
        }
    }

    /// A sheet that says the same.
    pub fn copy(&self, alloc: Global) -> Result<Sheet, AllocError>
        ensures { IfOk result (λ s. s ≡ self.now) }
    {
        let sections = copy_sections(alloc, &self.sections)?;
        let outranks = self.outranks.copy(alloc)?;
        let interrupts = Vec::from_slice(alloc, &self.interrupts)?;
        Ok(Sheet {
            name: self.name,
            weight: self.weight,
            period: self.period,
            deadline: self.deadline,
            cost: self.cost,
            sections,
            jitter: self.jitter,
            outranks,
            node: self.node,
            interrupts,
        })
    }
}

impl PartialEq for Section {
    ghost use Rattle.task_sheet.specs.Sheet.{same_section};
    ghost use Rattle.task_sheet.specs.SheetEquality.{same_section_laws};

    ghost eq = { same_section };

    ghost laws = { same_section_laws };

    fn eq(&self, other: &Section) -> bool
        ensures value { result ≡ same_section self.now other.now }
        ensures same { IsTrue result ↔ (self.now ≡ other.now) }
    {
        self.locks.as_slice() == other.locks.as_slice()
            && self.at == other.at
            && self.len == other.len
    }
}

impl PartialEq for Sheet {
    ghost use Rattle.task_sheet.specs.Sheet.{same_sheet};
    ghost use Rattle.task_sheet.specs.SheetEquality.{same_sheet_laws};

    ghost eq = { same_sheet };

    ghost laws = { same_sheet_laws };

    fn eq(&self, other: &Sheet) -> bool
        ensures value { result ≡ same_sheet self.now other.now }
        ensures same { IsTrue result ↔ (self.now ≡ other.now) }
    {
        self.name == other.name
            && self.weight == other.weight
            && self.period == other.period
            && self.deadline == other.deadline
            && self.cost == other.cost
            && self.jitter == other.jitter
            && self.sections.as_slice() == other.sections.as_slice()
            && self.outranks.is_same(&other.outranks)
            && self.node == other.node
            && self.interrupts.as_slice() == other.interrupts.as_slice()
    }
}
