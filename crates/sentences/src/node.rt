//! Why a node's document is none, or why a team doesn't do as it says.

use crate::nearest::nearest;
use crate::sets::{tell_fault as tell_said, tell_syntax, tell_value};
use crate::texts::is_line_end;
use crate::told::Told;
use crate::tree::{Known, head_in, unknown_key};
use std::alloc::Global;
use task_sheet::{Key, Name, Node, read_node};
use teams::{NodeFault, Quantity};
use toml::{Table, Value};

// ---- places

// The number of the line that heads a team's table.
fn line_of_team(bytes: &[u8], team: Name) -> Option<u64> {
    let mut number = 0u64;
    for line in bytes.split(is_line_end) {
        number = number.saturating_add(1);
        if head_in(line, "[team.", "]") == team.as_str() {
            return Some(number);
        }
    }
    None
}

// The document, with the line that heads a team's table where one does.
fn tell_place(told: &mut Told, bytes: &[u8], team: Name) {
    told.words("node.toml: ");
    if let Some(line) = line_of_team(bytes, team) {
        told.numbers("line {}: ", &[line]);
    }
}

// ---- the document

// The table at a key.
fn table_at<'a>(root: &'a Table, key: &str) -> Option<&'a Table> {
    match root.get(key) {
        Some(Value::Table(table)) => Some(table),
        _ => None,
    }
}

// The table of all budgets.
fn budgets_in<'a>(root: &'a Table) -> Option<&'a Table> {
    table_at(root, "team")
}

// What stands at a team's name.
fn value_of<'a>(root: &'a Table, team: Name) -> Option<&'a Value> {
    budgets_in(root)?.get(team.as_str())
}

// What stands in place of a value of another kind.
fn tell_found(told: &mut Told, value: Option<&Value>) {
    if let Some(value) = value {
        tell_value(told, "; it is ", value);
    }
}

// The keys of the document.
const ROOT_WORDS: [&str; 7] = [
    "prefer",
    "strict",
    "node",
    "interrupt",
    "chain",
    "locks",
    "team",
];

// The keys of a team's table.
const TEAM_WORDS: [&str; 3] = ["load", "section", "node"];

// A key of the document that is not known.
fn tell_unknown_root(told: &mut Told, root: &Table) {
    let key = unknown_key(Known::Words(&ROOT_WORDS), root).unwrap_or("");
    told.shown(
        "node.toml: unknown key ",
        key,
        "; it may have prefer and strict in front, [node], [[interrupt]], [[chain]], [locks], and for each team [team.NAME]",
    );
    if key == "task" {
        told.words("; a task stands in its team's document");
    }
}

// A key of a team's table that is not known.
fn tell_unknown(told: &mut Told, root: &Table, team: Name) {
    told.name("", team);
    let key = match value_of(root, team) {
        Some(Value::Table(table)) => unknown_key(Known::Words(&TEAM_WORDS), table),
        _ => None,
    };
    told.shown(
        ": unknown key ",
        key.unwrap_or(""),
        "; it may have load, section, node",
    );
}

// The value at a key of a team's table that is no number.
fn tell_number(told: &mut Told, root: &Table, team: Name, quantity: Quantity) {
    told.name("", team);
    told.words(": ");
    told.words(quantity.word());
    told.words(match quantity {
        Quantity::Load => " has to be a whole number of thousandths of the processor from 0",
        Quantity::Section => " has to be a whole number of microseconds from 0",
    });
    if let Some(value) = value_of(root, team) {
        tell_found(told, value.get(quantity.word()));
    }
}

// The value at a team's right that is neither true nor false.
fn tell_no_right(told: &mut Told, root: &Table, team: Name) {
    told.name("", team);
    told.words(
        ": node has to be true, where the team may say prefer, [node] and [[interrupt]], or false",
    );
    if let Some(value) = value_of(root, team) {
        tell_found(told, value.get("node"));
    }
}

// What stands at a name of a lock.
fn tell_lock(told: &mut Told, root: &Table, name: Name) {
    told.name("node.toml: ", name);
    told.name(
        " in [locks] has to be true, or in quotes the name of a lock that is true there: ",
        name,
    );
    told.words(" is a second name of that then");
    if let Some(table) = table_at(root, "locks") {
        tell_found(told, table.get(name.as_str()));
    }
}

// What is wrong in a document.
fn tell_fault(told: &mut Told, bytes: &[u8], root: &Table, fault: NodeFault) {
    match fault {
        NodeFault::UnknownRoot => tell_unknown_root(told, root),
        NodeFault::Says { fault } => {
            told.words("node.toml: ");
            tell_said(told, root, fault);
        }
        NodeFault::BadStrict => {
            told.words(
                "node.toml: strict has to be true, where a set is refused for what may be a mistake, or false",
            );
            tell_found(told, root.get("strict"));
        }
        NodeFault::NoLocks => {
            told.words("node.toml: locks has to be a table, headed by [locks]");
            tell_found(told, root.get("locks"));
        }
        NodeFault::BadLockName => {
            let name = match table_at(root, "locks") {
                Some(table) => unknown_key(Known::Names, table),
                None => None,
            };
            told.shown("node.toml: ", name.unwrap_or(""), " is no name of a lock");
        }
        NodeFault::BadLock { name } => tell_lock(told, root, name),
        NodeFault::TooManyLocks => told.words("node.toml: more than 1024 names in [locks]"),
        NodeFault::NoTeams => {
            told.words("node.toml: team has to be a table of teams, each headed by [team.NAME]");
            tell_found(told, root.get("team"));
        }
        NodeFault::BadName => {
            let name = match budgets_in(root) {
                Some(table) => unknown_key(Known::Names, table),
                None => None,
            };
            told.shown("node.toml: ", name.unwrap_or(""), " is no name of a team");
        }
        NodeFault::NoBudget { team } => {
            tell_place(told, bytes, team);
            told.name("team.", team);
            told.name(" has to be a table, headed by [team.", team);
            told.words("]");
            tell_found(told, value_of(root, team));
        }
        NodeFault::UnknownKey { team } => {
            tell_place(told, bytes, team);
            tell_unknown(told, root, team);
        }
        NodeFault::NoNumber { team, quantity } => {
            tell_place(told, bytes, team);
            tell_number(told, root, team, quantity);
        }
        NodeFault::NoRight { team } => {
            tell_place(told, bytes, team);
            tell_no_right(told, root, team);
        }
        NodeFault::Syntax | NodeFault::OutOfMemory => {}
    }
}

/// The fault of a node's document, from its bytes.
pub(crate) fn tell_node(told: &mut Told, alloc: Global, bytes: &[u8], fault: NodeFault) {
    match toml::table_from_slice(alloc, bytes) {
        Ok(root) => tell_fault(told, bytes, &root, fault),
        Err(error) => {
            told.words("node.toml: ");
            tell_syntax(told, bytes, &error);
        }
    }
}

// What a key of the node's is called.
fn called(key: Key) -> &'static str {
    match key {
        Key::Node => "[node]",
        Key::Interrupt => "[[interrupt]]",
        _ => key.word(),
    }
}

/// A team that says what is the node's, and how it may.
pub(crate) fn tell_nodes_own(told: &mut Told, team: Name, key: Key) {
    told.name("", team);
    told.words(".toml: ");
    told.words(called(key));
    told.words(
        " is for node.toml to say, for all teams: move it there, or let node.toml give the right, by node = true",
    );
    told.name(" in [team.", team);
    told.words("]");
}

/// A lock that the node's document doesn't list, with the nearest that it does.
pub(crate) fn tell_unknown_lock(told: &mut Told, alloc: Global, bytes: &[u8], lock: Name) {
    told.name("", lock);
    told.words(" is no lock in [locks] of node.toml");
    if let Ok(root) = toml::table_from_slice(alloc, bytes) {
        if let Some(table) = table_at(&root, "locks") {
            if let Some(near) = nearest(lock, table) {
                told.shown("; the nearest is ", near, "");
            }
        }
    }
    told.name(": write one that is, or have it added there, ", lock);
    told.words(" = true");
}

/// The node that a node's document says.
pub(crate) fn node_of(alloc: Global, bytes: &[u8]) -> Option<Node> {
    match toml::table_from_slice(alloc, bytes) {
        Ok(root) => read_node(&root).unwrap_or(None),
        Err(_) => None,
    }
}

/// A budget whose team has no document.
pub(crate) fn tell_stranger(told: &mut Told, bytes: &[u8], team: Name) {
    tell_place(told, bytes, team);
    if team.as_str() == "node" {
        return told.words("node is no team: what it takes has no budget");
    }
    told.name("there is no ", team);
    told.words(".toml");
}

/// A team that takes more than its budget has: what it takes, and what it may take.
pub(crate) fn tell_budget(
    told: &mut Told,
    bytes: &[u8],
    team: Name,
    quantity: Quantity,
    number: u64,
    limit: u64,
) {
    tell_place(told, bytes, team);
    told.name("", team);
    match quantity {
        Quantity::Load => told.numbers(
            " takes {} thousandths of the processor, and may take {}",
            &[number, limit],
        ),
        Quantity::Section => told.numbers(
            " holds a lock that another team uses, too, for {} microseconds, and may hold it for {}",
            &[number, limit],
        ),
    }
}
