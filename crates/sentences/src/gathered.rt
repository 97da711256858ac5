//! Why a set's text is no task set.

use crate::choices::NAMES_DECIDE;
use crate::node::{
    node_of, tell_budget, tell_node, tell_nodes_own, tell_stranger, tell_unknown_lock,
};
use crate::padding::{task_of, tell_padding};
use crate::sets::tell_set;
use crate::strangers::unbound;
use crate::texts::tell_unseen;
use crate::told::Told;
use crate::tree::{place_of_name, tell_place};
use doubts::Doubt;
use overheads::PadFault;
use std::alloc::Global;
use task_sheet::{Name, Node, SetFault, read_document};
use teams::{Part, TeamsFault, first_part, node_part};

/// What a person is told of the fault of a set's text, from its bytes; none where memory runs out. What is said of a
/// team's document names it as a file, `TEAM.toml`, and its own lines; what is said of the node's, `node.toml`.
pub fn of_set_text(alloc: Global, bytes: &[u8], fault: TeamsFault) -> Option<String> {
    let mut told = Told::new(alloc);
    tell_gathered(&mut told, alloc, bytes, fault);
    told.whole()
}

// Why it is no task set.
fn tell_gathered(told: &mut Told, alloc: Global, bytes: &[u8], fault: TeamsFault) {
    let nothing: &[u8] = b"";
    let (node, teams) = node_part(bytes).unwrap_or((nothing, bytes));
    match fault {
        TeamsFault::Alone { fault } => tell_set(told, alloc, bytes, fault),
        TeamsFault::Of { team, fault } => tell_document(told, alloc, teams, team, fault),
        TeamsFault::BadHead { part } => tell_head(told, teams, part),
        TeamsFault::Taken { team, task, other } => {
            told.name("", team);
            told.name(".toml: ", task);
            told.name(" is the name of a task of ", other);
        }
        TeamsFault::NodesOwn { team, key } => tell_nodes_own(told, team, key),
        TeamsFault::UnknownLock {
            team,
            task,
            section,
            lock,
        } => {
            tell_owned(told, alloc, teams, team, task, section);
            tell_unknown_lock(told, alloc, node, lock);
        }
        TeamsFault::Renamed { team, task, cause } => {
            tell_owned(told, alloc, teams, team, task, 0);
            told.words("by [locks] of node.toml, ");
            told.show(cause);
        }
        TeamsFault::OtherPreference { team, other } => {
            tell_two(told, team, ".toml: prefers otherwise than ", other);
        }
        TeamsFault::OtherNode { team, other } => {
            tell_two(told, team, ".toml: another [node] than ", other);
        }
        TeamsFault::TooManyInterrupts => {
            told.words("the documents have more than 8 interrupts together");
        }
        TeamsFault::Node { fault } => tell_node(told, alloc, node, fault),
        TeamsFault::NoSuchTeam { team } => tell_stranger(told, node, team),
        TeamsFault::PastBudget {
            team,
            quantity,
            number,
            limit,
        } => tell_budget(told, node, team, quantity, number, limit),
        TeamsFault::Padded { fault } => tell_padded(told, alloc, bytes, fault),
        TeamsFault::TooManyTasks => told.words("the teams have more than 32 tasks together"),
        TeamsFault::OutOfMemory => told.give_up(),
    }
}

// Two teams whose documents say something otherwise.
fn tell_two(told: &mut Told, team: Name, says: &str, other: Name) {
    told.name("", team);
    told.name(says, other);
    told.words(".toml; one team says it for all");
}

// A part, counted from 1, without its head, or with too few bytes behind it.
fn tell_head(told: &mut Told, bytes: &[u8], part: usize) {
    let mut rest = bytes;
    for _ in 1..part {
        if let Some((_, after)) = first_part(rest) {
            rest = after;
        }
    }
    told.numbers(
        "part {}: no line `#% TEAM COUNT` that so many bytes follow",
        &[part as u64],
    );
    tell_unseen(told, rest, 1);
}

/// What a person is told of what may be a mistake in a set, in the words of its note, from the set's bytes; none where
/// memory runs out.
pub fn of_doubt(alloc: Global, bytes: &[u8], doubt: Doubt) -> Option<String> {
    let mut told = Told::new(alloc);
    match doubt {
        Doubt::LoneLock { task, lock } => {
            tell_task(&mut told, alloc, bytes, task);
            told.name("lock ", lock);
            told.name(" has one user, ", task);
        }
        Doubt::NoSuchName { task, name } => {
            tell_task(&mut told, alloc, bytes, task);
            told.name("", task);
            told.name(" outranks ", name);
            told.words(unbound(name));
        }
        Doubt::NamesDecide { .. } => told.words(NAMES_DECIDE),
    }
    told.whole()
}

// The place of a task of a document.
fn tell_task_in(told: &mut Told, alloc: Global, bytes: &[u8], task: Name) {
    match toml::table_from_slice(alloc, bytes) {
        Ok(root) => match place_of_name(&root, task.as_str()) {
            Some(place) => tell_place(told, alloc, bytes, &root, place, 0),
            None => told.give_up(),
        },
        Err(_) => told.give_up(),
    }
}

// The place of a task of a set's text, behind its team's file.
fn tell_task(told: &mut Told, alloc: Global, bytes: &[u8], task: Name) {
    if !bytes.starts_with(b"#% ") {
        return tell_task_in(told, alloc, bytes, task);
    }
    let nothing: &[u8] = b"";
    let (_, teams) = node_part(bytes).unwrap_or((nothing, bytes));
    match first_sought(alloc, teams, &Sought::Task(task)) {
        Some(part) => {
            tell_file(told, part.team);
            tell_task_in(told, alloc, part.text, task);
        }
        None => told.give_up(),
    }
}

// What is looked for among the documents of teams.
#[derive(Clone, Copy)]
enum Sought {
    // A document of the team that is no set.
    Faulty(Name),
    // One that says a node.
    Node,
    // That of the task of a name.
    Task(Name),
    // That of a team with a task of a name.
    Own(Name, Name),
}

// Whether a team's document is sought.
fn is_sought(alloc: Global, team: Name, text: &[u8], sought: &Sought) -> bool {
    match read_document(alloc, text) {
        Ok(document) => match sought {
            Sought::Faulty(_) => false,
            Sought::Node => document.node.is_some(),
            Sought::Task(name) => document.set.find(*name).is_some(),
            Sought::Own(owner, name) => *owner == team && document.set.find(*name).is_some(),
        },
        Err(_) => match sought {
            Sought::Faulty(owner) => *owner == team,
            Sought::Node | Sought::Task(_) | Sought::Own(..) => false,
        },
    }
}

// The first document that is sought.
fn first_sought<'a>(alloc: Global, bytes: &'a [u8], sought: &Sought) -> Option<Part<'a>> {
    let mut rest = bytes;
    while !rest.is_empty() {
        let Some((part, after)) = first_part(rest) else {
            return None;
        };
        if is_sought(alloc, part.team, part.text, sought) {
            return Some(part);
        }
        rest = after;
    }
    None
}

// Whose document what follows is said of.
fn tell_file(told: &mut Told, team: Name) {
    told.name("", team);
    told.words(".toml: ");
}

// The fault of a team's document.
fn tell_document(told: &mut Told, alloc: Global, bytes: &[u8], team: Name, fault: SetFault) {
    match first_sought(alloc, bytes, &Sought::Faulty(team)) {
        Some(part) => {
            tell_file(told, team);
            tell_set(told, alloc, part.text, fault);
        }
        None => told.give_up(),
    }
}

// The place of a team's task, and of a section of it, unless that is 0.
fn tell_owned(
    told: &mut Told,
    alloc: Global,
    bytes: &[u8],
    team: Name,
    task: Name,
    section: usize,
) {
    let Some(part) = first_sought(alloc, bytes, &Sought::Own(team, task)) else {
        return told.give_up();
    };
    tell_file(told, team);
    if let Ok(root) = toml::table_from_slice(alloc, part.text) {
        if let Some(place) = place_of_name(&root, task.as_str()) {
            tell_place(told, alloc, part.text, &root, place, section);
        }
    }
}

// ---- what the node takes

// The node that a document says.
fn node_said(alloc: Global, document: &[u8]) -> Option<Node> {
    match read_document(alloc, document) {
        Ok(document) => document.node,
        Err(_) => None,
    }
}

// Documents of teams without room for what the node takes, of the one with the task; another one may say the node.
fn tell_padded_teams(told: &mut Told, alloc: Global, own: &[u8], bytes: &[u8], fault: PadFault) {
    let node = match node_of(alloc, own) {
        Some(node) => Some(node),
        None => match first_sought(alloc, bytes, &Sought::Node) {
            Some(part) => node_said(alloc, part.text),
            None => None,
        },
    };
    let (Some(node), Some(task)) = (node, task_of(&fault)) else {
        return told.give_up();
    };
    match first_sought(alloc, bytes, &Sought::Task(task)) {
        Some(part) => {
            tell_file(told, part.team);
            tell_padding(told, alloc, part.text, &node, &fault);
        }
        None => told.give_up(),
    }
}

// A set's text that has no room for what its node takes.
fn tell_padded(told: &mut Told, alloc: Global, bytes: &[u8], fault: PadFault) {
    if !bytes.starts_with(b"#% ") {
        match node_said(alloc, bytes) {
            Some(node) => tell_padding(told, alloc, bytes, &node, &fault),
            None => told.give_up(),
        }
    } else {
        let nothing: &[u8] = b"";
        let (own, teams) = node_part(bytes).unwrap_or((nothing, bytes));
        tell_padded_teams(told, alloc, own, teams, fault);
    }
}
