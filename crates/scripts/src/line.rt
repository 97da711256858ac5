//! What a script says.
ghost use Rattle.std.specs.Prelude.{◌≡◌, IfOk};

use drafts::Team;
use std::alloc::{AllocError, AllocFailed, Global};
use std::marker::Model;
use task_sheet::{Name, OutranksCause, Sheet, SheetCause};

/// The sheet of a line `put`. It lies by itself, so that a row is small.
#[derive(Drop)]
pub struct PutSheet {
    sheet: Box<Sheet>,
}

impl Model for PutSheet {
    ghost use Rattle.task_sheet.specs.Sheet.{Task};

    ghost Value = { Task };

    ghost view = { λ s. s.sheet.value };
}

impl PutSheet {
    pub(crate) fn new(alloc: Global, sheet: Sheet) -> Result<PutSheet, AllocError>
        ensures { IfOk result (λ put. put ≡ sheet) }
    {
        let sheet = Box::new(alloc, sheet)?;
        Ok(PutSheet { sheet })
    }

    /// The sheet.
    pub fn sheet(&self) -> &Sheet
        ensures { result.now ≡ self.now }
    {
        &self.sheet
    }

    /// The sheet, out of the line.
    pub fn into_sheet(self) -> Sheet
        ensures { result ≡ self }
    {
        Box::into_inner(self.sheet)
    }
}

/// What a line of a script says. A draft is the number of the line that opened it, among all such lines, from 1.
#[derive(Drop)]
pub enum Row {
    /// `open TEAM`: a team opens a draft.
    Open {
        team: Team,
    },
    /// `put DRAFT NAME WEIGHT PERIOD DEADLINE COST SECTION..`, behind the cost with `j=JITTER` where the jitter isn't 0,
    /// then `over=NAME+NAME`, or `over=*` for all others, where the task must stand above others, then
    /// `node=JOB+LOCK+RELEASE+LATE` where the node takes something and `irq=PERIOD:COST+PERIOD:COST` where interrupts are
    /// on the task's account: a sheet is put into a draft.
    Put {
        draft: usize,
        sheet: PutSheet,
    },
    /// `remove DRAFT NAME`: a task is removed.
    Remove {
        draft: usize,
        name: Name,
    },
    /// `found DRAFT NAME`, `found DRAFT NAME OTHER`: a draft is brought the finding on a task at the present level of
    /// another draft, or of itself where no other is named.
    Found {
        draft: usize,
        name: Name,
        other: usize,
    },
    /// `test DRAFT`: a draft is brought all findings that it misses.
    Test {
        draft: usize,
    },
    /// `commit DRAFT`.
    Commit {
        draft: usize,
    },
    /// `abandon DRAFT`.
    Abandon {
        draft: usize,
    },
}

/// A line that says something.
#[derive(Drop)]
pub struct Line {
    /// Counted from 1, with the lines that say nothing.
    pub number: u64,
    /// What it says.
    pub row: Row,
}

/// Why a text is no script: its first faulty line, counted from 1.
#[derive(Clone, Copy, Debug, PartialEq, Eq)]
pub enum ScriptFault {
    /// The line is none that a script may have there.
    BadLine { line: u64 },
    /// The values of the line are no sheet.
    Sheet { line: u64, cause: SheetCause },
    /// The jitter of the line isn't below its deadline.
    BadJitter { line: u64 },
    /// The names of the line are none of tasks above which its task can have to stand.
    Outranks { line: u64, cause: OutranksCause },
    /// What the node takes, as the line says it, isn't within the limits.
    BadOverhead { line: u64 },
    /// The interrupts of the line are too many, or one of them isn't within the limits.
    BadInterrupt { line: u64 },
    /// An allocation was refused.
    OutOfMemory,
}

// Why words are no line of a script.
#[derive(Clone, Copy)]
pub(crate) enum RowFault {
    // They are none of its lines.
    Bad,
    // The values are no sheet.
    Sheet { cause: SheetCause },
    // The jitter isn't below the deadline.
    BadJitter,
    // The names are none of tasks above which the task can have to stand.
    Outranks { cause: OutranksCause },
    // What the node takes isn't within the limits.
    BadOverhead,
    // The interrupts are too many, or one of them isn't within the limits.
    BadInterrupt,
    // An allocation was refused.
    OutOfMemory,
}

impl<T: Drop> From<AllocFailed<T>> for RowFault {
    ghost use Rattle.scripts.specs.declared.line.RowFault.TheVariants.{OutOfMemory};

    ghost from_gives = { λ _ fault. fault ≡ OutOfMemory };

    fn from(_e: AllocFailed<T>) -> RowFault {
        RowFault::OutOfMemory
    }
}
