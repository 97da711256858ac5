//! The node's document: what holds for all teams, and what each of them may take and say.
ghost use Rattle.std.specs.Prelude.{◌≡◌, ◌≢◌, None, Some, IfOk, IfErr, codes, option_map};
ghost use Rattle.toml.specs.Data.{get_member};
ghost use Rattle.toml.specs.View.{view, table_view};
ghost use Rattle.task_sheet.specs.Tree.{number_of};
ghost use Rattle.teams.specs.NodeDocument.{budget_of, budgets_in, budgets_of, entries_fault, entry_budget, entry_fault, flag_of, is_true, is_word_of, key_word, limit_of, lock_at, lock_fault, lock_said, locks_fault, locks_in, names_fault, names_of, node_fault, node_of, node_word, only_keys, own_fault, own_of, ReadsNodeDocument, strict_fault, strict_in, table_fault, teams_fault, quantity_word};
ghost use Rattle.teams.specs.ReadsText.{ReadsNode};

use crate::fault::TeamsFault;
use crate::naming::Lock;
use crate::uniting::TeamSet;
use std::alloc::{AllocError, Global};
use std::marker::Model;
use task_sheet::{Key, Name, SetFault, check_chains, read_interrupts, read_node, read_preference};
use thiserror::Error;
use toml::{Table, Value};

/// What a budget bounds.
#[derive(Clone, Copy, Debug, PartialEq, Eq)]
pub enum Quantity {
    /// `load`: what the team's tasks take of the processor, in thousandths.
    Load,
    /// `section`: their longest section on a lock that another team's task uses, too, in microseconds.
    Section,
}

impl Quantity {
    /// The key as it is written in the node's document.
    pub fn word(self) -> &'static str
        ensures { result.now ≡ quantity_word self }
    {
        match self {
            Quantity::Load => "load",
            Quantity::Section => "section",
        }
    }
}

/// What a team may take, and whether it may say what is the node's.
#[derive(Clone, Copy, Debug)]
pub(crate) struct Budget {
    pub team: Name,
    /// In thousandths of the processor; none where it has no limit.
    pub load: Option<u64>,
    /// In microseconds; none where it has no limit.
    pub section: Option<u64>,
    /// It may say `prefer`, `node` and `interrupt`.
    pub right: bool,
}

/// What the node's document says: for all teams, as a document of its own without tasks; and what each may take and say.
#[derive(Drop)]
pub(crate) struct NodeDocument {
    pub own: TeamSet,
    /// The set is refused for its first doubt.
    pub is_strict: bool,
    /// Under which names sections may take locks; none where all may.
    pub locks: Option<Vec<Lock>>,
    pub budgets: Vec<Budget>,
}

impl Model for NodeDocument {
    ghost use Rattle.std.specs.Prelude.{option_map};
    ghost use Rattle.teams.specs.NodeDocument.{NodeData};

    ghost Value = { NodeData };

    ghost view = { λ n. record {
      own = n.own;
      is_strict = n.is_strict;
      locks = option_map (λ v. v.items) n.locks;
      budgets = n.budgets.items;
    } };
}

/// The most names of locks: as many as the sections of a set can say.
pub const LOCKS_LIMIT: usize = 1024;

/// Why bytes are no node's document.
#[derive(Clone, Copy, Debug, PartialEq, Eq, Error)]
pub enum NodeFault {
    /// The bytes are no TOML document; bytes that are not UTF-8 are none.
    #[error("the bytes are no document")]
    Syntax,
    /// The root has a key that is not known.
    #[error("a key that is not known")]
    UnknownRoot,
    /// `prefer`, `node` or `interrupt` of the root is none.
    #[error("{fault}")]
    Says { fault: SetFault },
    /// `strict` of the root is neither true nor false.
    #[error("neither true nor false at strict")]
    BadStrict,
    /// `locks` of the root is no table.
    #[error("locks is no table")]
    NoLocks,
    /// A key of that table is no name.
    #[error("no name of a lock")]
    BadLockName,
    /// What it has for a name is neither `true` nor, as a string, a name for which it has `true`.
    #[error("{name}: no lock")]
    BadLock { name: Name },
    /// It has more than 1,024 names.
    #[error("more than 1024 locks")]
    TooManyLocks,
    /// `team` of the root is no table.
    #[error("team is no table")]
    NoTeams,
    /// A key of that table is no name.
    #[error("no name")]
    BadName,
    /// What it has for a team is no table.
    #[error("{team}: no table")]
    NoBudget { team: Name },
    /// A team's table has a key that is not known.
    #[error("{team}: a key that is not known")]
    UnknownKey { team: Name },
    /// The value at a team's key is no number: an integer that isn't negative.
    #[error("{team}: no number at {quantity:?}")]
    NoNumber { team: Name, quantity: Quantity },
    /// The value at a team's key `node` is neither true nor false.
    #[error("{team}: neither true nor false at node")]
    NoRight { team: Name },
    /// An allocation was refused.
    #[error("out of memory")]
    OutOfMemory,
}

impl From<AllocError> for NodeFault {
    ghost use Rattle.teams.specs.declared.node.NodeFault.TheVariants.{OutOfMemory};

    ghost from_gives = { λ _ fault. fault ≡ OutOfMemory };

    fn from(_e: AllocError) -> NodeFault {
        NodeFault::OutOfMemory
    }
}

// ---- keys

// The keys of a node's document.
#[derive(Clone, Copy)]
pub(crate) enum NodeKey {
    Team,
    Strict,
    Locks,
    Limit(Quantity),
    // One that a set's document has, too.
    Said(Key),
}

impl NodeKey {
    // The key as it is written.
    fn word(self) -> &'static str
        ensures { result.now ≡ key_word self }
    {
        match self {
            NodeKey::Team => "team",
            NodeKey::Strict => "strict",
            NodeKey::Locks => "locks",
            NodeKey::Limit(quantity) => quantity.word(),
            NodeKey::Said(key) => key.word(),
        }
    }
}

// The text is the word of one of the keys.
fn is_word_of(keys: &[NodeKey], text: &str) -> bool
    ensures { result ≡ is_word_of keys.now text.now }
{
    keys.iter().any(|key| key.word() == text)
}

// The table has these keys alone.
fn only_keys(keys: &[NodeKey], table: &Table) -> bool
    ensures { result ≡ only_keys keys.now (table_view table.now) }
{
    for (key, _) in table.iter() {
        if !is_word_of(keys, key.as_str()) {
            return false;
        }
    }
    true
}

// The value at a key.
fn value_at<'a>(word: &str, table: &'a Table) -> Option<&'a Value>
    ensures { option_map (λ v. view v.now) result ≡ get_member word.now (table_view table.now) }
{
    table.get(word)
}

// An integer that is not negative.
fn number_of(value: &Value) -> Option<u64>
    ensures { result ≡ number_of (view value.now) }
{
    match value.as_integer() {
        Some(n) if n >= 0 => Some(n as u64),
        _ => None,
    }
}

// What is said at a key, false where nothing is; none where that is neither true nor false.
fn flag_at(word: &str, table: &Table) -> Option<bool>
    ensures { result ≡ flag_of (get_member word.now (table_view table.now)) }
{
    match value_at(word, table) {
        Some(value) => value.as_bool(),
        None => Some(false),
    }
}

// ---- locks

// The lock of which a name is, as it is said beside: its own, or another of the table.
fn lock_said(locks: &Table, name: Name, value: &Value) -> Option<Name>
    ensures { result ≡ lock_said (table_view locks.now) name (view value.now) }
{
    if is_true(value) {
        return Some(name);
    }
    let text = value.as_str()?;
    if !is_true(value_at(text, locks)?) {
        return None;
    }
    match Name::read(text.as_bytes()) {
        Ok(lock) => Some(lock),
        Err(_) => None,
    }
}

// Whether a value is true.
fn is_true(value: &Value) -> bool
    ensures { result ≡ is_true (view value.now) }
{
    value.as_bool() == Some(true)
}

// A name, and the lock that it is of.
fn read_lock(locks: &Table, name: &str, value: &Value) -> Result<Lock, NodeFault>
    ensures ok { IfOk result (λ l. (lock_fault (table_view locks.now) name.now (view value.now) ≡ None)
        × (l ≡ lock_at (table_view locks.now) name.now (view value.now))) }
    ensures err { IfErr result (λ e.
        lock_fault (table_view locks.now) name.now (view value.now) ≡ Some e) }
    ensures tree { IfErr result (λ e. e ≢ NodeFault.Syntax) }
{
    let Ok(name) = Name::read(name.as_bytes()) else {
        return Err(NodeFault::BadLockName);
    };
    match lock_said(locks, name, value) {
        Some(lock) => Ok(Lock { name, lock }),
        None => Err(NodeFault::BadLock { name }),
    }
}

// The names of a table of locks.
fn read_names(alloc: Global, locks: &Table) -> Result<Vec<Lock>, NodeFault>
    ensures ok { IfOk result (λ v.
        (names_fault (table_view locks.now) (table_view locks.now) ≡ None)
        × (v.items ≡ names_of (table_view locks.now) (table_view locks.now))) }
    ensures err { IfErr result (λ e. e ≢ NodeFault.OutOfMemory
        → names_fault (table_view locks.now) (table_view locks.now) ≡ Some e) }
    ensures tree { IfErr result (λ e. e ≢ NodeFault.Syntax) }
{
    let mut names = Vec::new(alloc);
    for (name, value) in locks.iter() {
        let lock = read_lock(locks, name.as_str(), value)?;
        names.push(lock).map_err(AllocError::from)?;
    }
    Ok(names)
}

// The locks that are listed, where some are: none where `locks` is absent.
fn read_locks(alloc: Global, root: &Table) -> Result<Option<Vec<Lock>>, NodeFault>
    ensures ok { IfOk result (λ o.
        (locks_fault (get_member (key_word NodeKey.Locks) (table_view root.now)) ≡ None)
        × (option_map (λ v. v.items) o ≡ locks_in (table_view root.now))) }
    ensures err { IfErr result (λ e. e ≢ NodeFault.OutOfMemory
        → locks_fault (get_member (key_word NodeKey.Locks) (table_view root.now)) ≡ Some e) }
    ensures tree { IfErr result (λ e. e ≢ NodeFault.Syntax) }
{
    let Some(value) = value_at(NodeKey::Locks.word(), root) else {
        return Ok(None);
    };
    let Some(table) = value.as_table() else {
        return Err(NodeFault::NoLocks);
    };
    let names = read_names(alloc, table)?;
    if names.len() > LOCKS_LIMIT {
        return Err(NodeFault::TooManyLocks);
    }
    Ok(Some(names))
}

// ---- a team's table

// The limit at a key, where one is; none where the value there is no number.
fn limit_at(quantity: Quantity, table: &Table) -> Option<Option<u64>>
    ensures { result ≡ limit_of (get_member (quantity_word quantity) (table_view table.now)) }
{
    match value_at(quantity.word(), table) {
        Some(value) => match number_of(value) {
            Some(number) => Some(Some(number)),
            None => None,
        },
        None => Some(None),
    }
}

// The budget that a team's table says.
fn read_table(team: Name, table: &Table) -> Result<Budget, NodeFault>
    ensures ok { IfOk result (λ b. (table_fault team (table_view table.now) ≡ None)
        × (b ≡ budget_of team (table_view table.now))) }
    ensures err { IfErr result (λ e. table_fault team (table_view table.now) ≡ Some e) }
    ensures tree { IfErr result (λ e. e ≢ NodeFault.Syntax) }
{
    let keys = [
        NodeKey::Limit(Quantity::Load),
        NodeKey::Limit(Quantity::Section),
        NodeKey::Said(Key::Node),
    ];
    if !only_keys(&keys, table) {
        return Err(NodeFault::UnknownKey { team });
    }
    let quantity = Quantity::Load;
    let Some(load) = limit_at(quantity, table) else {
        return Err(NodeFault::NoNumber { team, quantity });
    };
    let quantity = Quantity::Section;
    let Some(section) = limit_at(quantity, table) else {
        return Err(NodeFault::NoNumber { team, quantity });
    };
    let Some(right) = flag_at(Key::Node.word(), table) else {
        return Err(NodeFault::NoRight { team });
    };
    Ok(Budget {
        team,
        load,
        section,
        right,
    })
}

// The budget that stands at a team's name.
fn read_entry(name: &str, value: &Value) -> Result<Budget, NodeFault>
    ensures ok { IfOk result (λ b. (entry_fault name.now (view value.now) ≡ None)
        × (b ≡ entry_budget name.now (view value.now))) }
    ensures err { IfErr result (λ e. entry_fault name.now (view value.now) ≡ Some e) }
    ensures tree { IfErr result (λ e. e ≢ NodeFault.Syntax) }
{
    let Ok(team) = Name::read(name.as_bytes()) else {
        return Err(NodeFault::BadName);
    };
    match value.as_table() {
        Some(table) => read_table(team, table),
        None => Err(NodeFault::NoBudget { team }),
    }
}

// ---- the document

// The budgets of a table, by the names of the teams.
fn read_entries(alloc: Global, table: &Table) -> Result<Vec<Budget>, NodeFault>
    ensures ok { IfOk result (λ v. (entries_fault (table_view table.now) ≡ None)
        × (v.items ≡ budgets_of (table_view table.now))) }
    ensures err { IfErr result (λ e. e ≢ NodeFault.OutOfMemory
        → entries_fault (table_view table.now) ≡ Some e) }
    ensures tree { IfErr result (λ e. e ≢ NodeFault.Syntax) }
{
    let mut budgets = Vec::new(alloc);
    for (name, value) in table.iter() {
        let budget = read_entry(name.as_str(), value)?;
        budgets.push(budget).map_err(AllocError::from)?;
    }
    Ok(budgets)
}

// The budgets at `team`, which may be absent.
fn read_teams(alloc: Global, root: &Table) -> Result<Vec<Budget>, NodeFault>
    ensures ok { IfOk result (λ v.
        (teams_fault (get_member (key_word NodeKey.Team) (table_view root.now)) ≡ None)
        × (v.items ≡ budgets_in (table_view root.now))) }
    ensures err { IfErr result (λ e. e ≢ NodeFault.OutOfMemory
        → teams_fault (get_member (key_word NodeKey.Team) (table_view root.now)) ≡ Some e) }
    ensures tree { IfErr result (λ e. e ≢ NodeFault.Syntax) }
{
    let Some(value) = value_at(NodeKey::Team.word(), root) else {
        return Ok(Vec::new(alloc));
    };
    match value.as_table() {
        Some(table) => read_entries(alloc, table),
        None => Err(NodeFault::NoTeams),
    }
}

// The name of the node's document among those of teams.
fn node_name() -> Name
    ensures { result ≡ node_word }
{
    match Name::read(b"node") {
        Ok(name) => name,
        Err(_) => unreachable!(),
    }
}

// What is said for all teams, as a document without tasks.
fn read_own(alloc: Global, root: &Table) -> Result<TeamSet, SetFault>
    ensures ok { IfOk result (λ own. (own_fault (table_view root.now) ≡ None)
        × (own ≡ own_of (table_view root.now))) }
    ensures err { IfErr result (λ e. e ≢ SetFault.OutOfMemory
        → own_fault (table_view root.now) ≡ Some e) }
{
    let prefers = read_preference(root)?;
    let node = read_node(root)?;
    let interrupts = read_interrupts(alloc, root)?;
    check_chains(root)?;
    Ok(TeamSet {
        team: node_name(),
        set: Vec::new(alloc),
        prefers,
        node,
        interrupts,
    })
}

// Whether a set is refused for its first doubt.
fn read_strict(root: &Table) -> Result<bool, NodeFault>
    ensures ok { IfOk result (λ s. (strict_fault (table_view root.now) ≡ None)
        × (s ≡ strict_in (table_view root.now))) }
    ensures err { IfErr result (λ e. strict_fault (table_view root.now) ≡ Some e) }
    ensures tree { IfErr result (λ e. e ≢ NodeFault.Syntax) }
{
    match flag_at(NodeKey::Strict.word(), root) {
        Some(is_strict) => Ok(is_strict),
        None => Err(NodeFault::BadStrict),
    }
}

// What a document's tree says.
fn read_root(alloc: Global, root: &Table) -> Result<NodeDocument, NodeFault>
    ensures ok { IfOk result (λ n. (node_fault (table_view root.now) ≡ None)
        × (n ≡ node_of (table_view root.now))) }
    ensures err { IfErr result (λ e. e ≢ NodeFault.OutOfMemory
        → node_fault (table_view root.now) ≡ Some e) }
    ensures tree { IfErr result (λ e. e ≢ NodeFault.Syntax) }
{
    let keys = [
        NodeKey::Said(Key::Prefer),
        NodeKey::Said(Key::Node),
        NodeKey::Said(Key::Interrupt),
        NodeKey::Said(Key::Chain),
        NodeKey::Strict,
        NodeKey::Locks,
        NodeKey::Team,
    ];
    if !only_keys(&keys, root) {
        return Err(NodeFault::UnknownRoot);
    }
    let own = match read_own(alloc, root) {
        Ok(own) => own,
        Err(SetFault::OutOfMemory) => return Err(NodeFault::OutOfMemory),
        Err(fault) => return Err(NodeFault::Says { fault }),
    };
    let is_strict = read_strict(root)?;
    let locks = read_locks(alloc, root)?;
    let budgets = read_teams(alloc, root)?;
    Ok(NodeDocument {
        own,
        is_strict,
        locks,
        budgets,
    })
}

// What the node's document says, in TOML: `prefer`, `node`, `interrupt` and `chain` as a set's document has them; true or false at `strict`;
// a table `locks`; and for a team a table `team.NAME`, with a number at `load` and `section`, and true or false at
// `node`. Refused in this order: `Syntax`; `UnknownRoot`; `Says`; `BadStrict`; `NoLocks`; for each name of a lock `BadLockName`, `BadLock`; `TooManyLocks`; `NoTeams`; for each team by its name: `BadName`, `NoBudget`, `UnknownKey`, `NoNumber`, `NoRight`.
pub(crate) fn read_document(alloc: Global, text: &[u8]) -> Result<NodeDocument, NodeFault>
    ensures { ReadsNodeDocument text.now result }
{
    match toml::table_from_slice(alloc, text) {
        Ok(root) => read_root(alloc, &root),
        Err(error) if error.is_memory() => Err(NodeFault::OutOfMemory),
        Err(_) => Err(NodeFault::Syntax),
    }
}

// The same, a refusal as one of a set's text.
pub(crate) fn read_node_document(alloc: Global, text: &[u8]) -> Result<NodeDocument, TeamsFault>
    ensures { ReadsNode text.now result }
{
    match read_document(alloc, text) {
        Ok(document) => Ok(document),
        Err(NodeFault::OutOfMemory) => Err(TeamsFault::OutOfMemory),
        Err(fault) => Err(TeamsFault::Node { fault }),
    }
}
