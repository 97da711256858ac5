//! The keys of a document, and which of them a table has.
ghost use Rattle.std.specs.Prelude.{◌≡◌, option_map};
ghost use Rattle.toml.specs.View.{view, table_view};
ghost use Rattle.task_sheet.specs.Tree.{word_of, is_word_of, only_keys, value_at, first_missing};

use toml::{Table, Value};

/// The keys of a document. A number is an integer that is not negative.
#[derive(Clone, Copy, Debug, PartialEq, Eq)]
pub enum Key {
    /// `task` of the root: an array of tables.
    Task,
    /// `prefer` of the root: a string, the word of a preference.
    Prefer,
    /// `node` of the root: a table.
    Node,
    /// `job` of the node: a number of microseconds, 0 where it is absent.
    Job,
    /// `lock` of the node: a number of microseconds, 0 where it is absent.
    Lock,
    /// `release` of the node: a number of microseconds, 0 where it is absent.
    Release,
    /// `late` of the node: a number of microseconds, 0 where it is absent.
    Late,
    /// `interrupt` of the root: an array of tables, none where it is absent.
    Interrupt,
    /// `chain` of the root: an array of tables, none where it is absent.
    Chain,
    /// `name` of a task or a chain: a string.
    Name,
    /// `weight` of a task: a number, 0 where it is absent.
    Weight,
    /// `period` of a task or an interrupt: a number of microseconds.
    Period,
    /// `deadline` of a task: a number of microseconds.
    Deadline,
    /// `cost` of a task or an interrupt: a number of microseconds.
    Cost,
    /// `section` of a task: an array of tables, none where it is absent.
    Section,
    /// `jitter` of a task: a number of microseconds, 0 where it is absent.
    Jitter,
    /// `outranks` of a task: an array of strings, none where it is absent, or the string `all`.
    Outranks,
    /// `locks` of a section: an array of strings.
    Locks,
    /// `at` of a section: a number of microseconds, the end of the section before it where it is absent.
    At,
    /// `len` of a section: a number of microseconds.
    Len,
    /// `tasks` of a chain: an array of strings.
    Tasks,
    /// `age` of a chain: a number of microseconds, no limit where it is absent.
    Age,
    /// `reaction` of a chain: a number of microseconds, no limit where it is absent.
    Reaction,
    /// `offsets` of a chain: an array of numbers of microseconds, one for each of its tasks; when these arrive isn't known where
    /// it is absent.
    Offsets,
    /// `writes` of a chain: a string, when its tasks write; as they finish where it is absent.
    Writes,
}

impl Key {
    /// The key as it is written in a document.
    pub fn word(self) -> &'static str
        ensures { result.now ≡ word_of self }
    {
        match self {
            Key::Task => "task",
            Key::Prefer => "prefer",
            Key::Node => "node",
            Key::Job => "job",
            Key::Lock => "lock",
            Key::Release => "release",
            Key::Late => "late",
            Key::Interrupt => "interrupt",
            Key::Chain => "chain",
            Key::Name => "name",
            Key::Weight => "weight",
            Key::Period => "period",
            Key::Deadline => "deadline",
            Key::Cost => "cost",
            Key::Section => "section",
            Key::Jitter => "jitter",
            Key::Outranks => "outranks",
            Key::Locks => "locks",
            Key::At => "at",
            Key::Len => "len",
            Key::Tasks => "tasks",
            Key::Age => "age",
            Key::Reaction => "reaction",
            Key::Offsets => "offsets",
            Key::Writes => "writes",
        }
    }
}

/// The keys of the root.
pub const ROOT_KEYS: [Key; 5] = [
    Key::Task,
    Key::Prefer,
    Key::Node,
    Key::Interrupt,
    Key::Chain,
];

/// The keys of the node.
pub const NODE_KEYS: [Key; 4] = [Key::Job, Key::Lock, Key::Release, Key::Late];

/// The keys of an interrupt.
pub const INTERRUPT_KEYS: [Key; 2] = [Key::Period, Key::Cost];

/// The keys of a chain.
pub const CHAIN_KEYS: [Key; 6] = [
    Key::Name,
    Key::Tasks,
    Key::Age,
    Key::Reaction,
    Key::Offsets,
    Key::Writes,
];

/// Those that it needs.
pub const NEEDED_CHAIN_KEYS: [Key; 2] = [Key::Name, Key::Tasks];

/// The keys of a task.
pub const TASK_KEYS: [Key; 8] = [
    Key::Name,
    Key::Weight,
    Key::Period,
    Key::Deadline,
    Key::Cost,
    Key::Section,
    Key::Jitter,
    Key::Outranks,
];

pub(crate) const NEEDED_KEYS: [Key; 4] = [Key::Name, Key::Period, Key::Deadline, Key::Cost];

/// The keys of a section.
pub const SECTION_KEYS: [Key; 3] = [Key::Locks, Key::At, Key::Len];

pub(crate) const NEEDED_SECTION_KEYS: [Key; 2] = [Key::Locks, Key::Len];

// The text is the word of one of the keys.
fn is_word_of(keys: &[Key], text: &str) -> bool
    ensures { result ≡ is_word_of keys.now text.now }
{
    keys.iter().any(|key| key.word() == text)
}

/// Whether the table has these keys alone.
pub fn only_keys(keys: &[Key], table: &Table) -> bool
    ensures { result ≡ only_keys keys.now (table_view table.now) }
{
    for (key, _) in table.iter() {
        if !is_word_of(keys, key.as_str()) {
            return false;
        }
    }
    true
}

/// The value at a key.
pub fn value_at<'a>(key: Key, table: &'a Table) -> Option<&'a Value>
    ensures { option_map (λ v. view v.now) result ≡ value_at key (table_view table.now) }
{
    table.get(key.word())
}

/// The first of the keys that the table lacks.
pub fn first_missing(keys: &[Key], table: &Table) -> Option<Key>
    ensures { result ≡ first_missing keys.now (table_view table.now) }
{
    for key in keys {
        if value_at(*key, table).is_none() {
            return Some(*key);
        }
    }
    None
}
