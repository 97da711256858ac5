//! What is reported of lines that did nothing.

use drafts::EditRefusal;
use task_sheet::Name;

/// Why a line did nothing.
#[derive(Clone, Copy)]
pub enum Missed {
    /// Its put of the task of this name was refused.
    PutRefused { name: Name, refusal: EditRefusal },
    /// Its removal of the task of this name was refused.
    RemoveRefused { name: Name, refusal: EditRefusal },
    /// The team's draft of this number has ended.
    Ended { draft: usize },
}

/// A line that did nothing.
#[derive(Clone, Copy)]
pub struct Note {
    /// Its number in the script.
    pub line: u64,
    pub missed: Missed,
}
