//! Sections that begin where the one before them ends, for their documents don't say where.
ghost use Rattle.std.specs.Prelude.{◌≡◌, ◌+◌, ◌≤◌, ◌++◌, IfOk, OnOk, option_map};
ghost use Rattle.std.specs.Option.{is_none};
ghost use Rattle.toml.specs.Data.{get_member};
ghost use Rattle.toml.specs.View.{view, table_view, items_view};
ghost use Rattle.task_sheet.specs.declared.sheet.TheConstants.{SECTION_LIMIT};
ghost use Rattle.teams.specs.ReadsText.{is_gathered};
ghost use Rattle.owners.specs.Followers.{AreFollowersBehind, AreFollowersIf, AreFollowersIn, AreFollowersOfText, along, follower_if, follows, followers_by, followers_from, followers_in, is_follower, items_at, items_in, says_no_begin, task_word, text_at, tree_followers};

use lines::name_of;
use std::alloc::{AllocError, Global};
use task_lines::Owner;
use task_sheet::Name;
use teams::{first_part, is_gathered, node_part};
use toml::{Table, Value};

// ---- reading

// The value at a key.
fn value_at<'a>(word: &str, table: &'a Table) -> Option<&'a Value>
    ensures { option_map (λ v. view v.now) result ≡ get_member word.now (table_view table.now) }
{
    table.get(word)
}

// The items of an array; none of another value.
fn items_in<'a>(value: &'a Value) -> &'a [Value]
    ensures { items_view result.now ≡ items_in (view value.now) }
{
    match value.as_array() {
        Some(items) => items,
        None => &[],
    }
}

// The items of the array at a key; none where there is no array.
fn items_at<'a>(word: &str, table: &'a Table) -> &'a [Value]
    ensures { items_view result.now ≡ items_at word.now (table_view table.now) }
{
    match value_at(word, table) {
        Some(value) => items_in(value),
        None => &[],
    }
}

// The text at a key.
fn text_at<'a>(word: &str, table: &'a Table) -> Option<&'a str>
    ensures { option_map (λ s. s.now) result ≡ text_at word.now (table_view table.now) }
{
    value_at(word, table)?.as_str()
}

// Whether a table lacks a key.
fn lacks(word: &str, table: &Table) -> bool
    ensures { result ≡ is_none (get_member word.now (table_view table.now)) }
{
    match value_at(word, table) {
        Some(_) => false,
        None => true,
    }
}

// Whether it is the table of a section that doesn't say where it begins.
fn says_no_begin(value: &Value) -> bool
    ensures { result ≡ says_no_begin (view value.now) }
{
    match value.as_table() {
        Some(table) => lacks("at", table),
        None => false,
    }
}

// Adds the section of a task at a place, where it is so.
fn push_follower(
    owners: &mut Vec<Owner>,
    task: Name,
    place: usize,
    value: &Value,
) -> Result<(), AllocError>
    ensures { OnOk result (owners.new.items
        ≡ owners.old.items ++ follower_if (says_no_begin (view value.now)) task place) }
{
    if says_no_begin(value) {
        owners.push(Owner::Follower { task, place })?;
    }
    Ok(())
}

// Adds those of a task's sections.
fn push_sections(owners: &mut Vec<Owner>, task: Name, items: &[Value]) -> Result<(), AllocError>
    ensures { OnOk result (owners.new.items
        ≡ owners.old.items ++ followers_from task 0 (items_view items.now)) }
{
    for (place, item) in items.iter().enumerate() {
        push_follower(owners, task, place, item)?;
    }
    Ok(())
}

// The name that a task's table says.
fn task_name(table: &Table) -> Option<Name>
    ensures { result ≡ task_word (table_view table.now) }
{
    match text_at("name", table) {
        Some(text) => name_of(text.as_bytes()),
        None => None,
    }
}

// Adds those of a task's table.
fn push_table(owners: &mut Vec<Owner>, table: &Table) -> Result<(), AllocError>
    ensures { OnOk result (owners.new.items
        ≡ owners.old.items ++ followers_in (table_view table.now)) }
{
    match task_name(table) {
        Some(task) => push_sections(owners, task, items_at("section", table)),
        None => Ok(()),
    }
}

// Adds those of a task.
fn push_task(owners: &mut Vec<Owner>, value: &Value) -> Result<(), AllocError>
    ensures { OnOk result (owners.new.items
        ≡ owners.old.items ++ followers_by (view value.now)) }
{
    match value.as_table() {
        Some(table) => push_table(owners, table),
        None => Ok(()),
    }
}

// Those of all tasks of a document.
fn tree_followers(alloc: Global, root: &Table) -> Result<Vec<Owner>, AllocError>
    ensures { IfOk result (λ owners. owners.items ≡ tree_followers (table_view root.now)) }
{
    let items = items_at("task", root);
    let mut owners = Vec::new(alloc);
    for item in items {
        push_task(&mut owners, item)?;
    }
    Ok(owners)
}

// The same of its bytes; none where they are no document.
fn document_followers(alloc: Global, text: &[u8]) -> Result<Vec<Owner>, AllocError>
    ensures { IfOk result (λ owners. AreFollowersIn text.now owners.items) }
{
    match toml::table_from_slice(alloc, text) {
        Ok(root) => tree_followers(alloc, &root),
        Err(error) if error.is_memory() => Err(AllocError),
        Err(_) => Ok(Vec::new(alloc)),
    }
}

// Those of the documents that a text begins with.
fn parts_followers(alloc: Global, text: &[u8]) -> Result<Vec<Owner>, AllocError>
    ensures { IfOk result (λ owners. AreFollowersOfText text.now owners.items) }
{
    let mut owners = Vec::new(alloc);
    let mut rest = text;
    while let Some((part, after)) = first_part(rest) {
        let own = document_followers(alloc, part.text)?;
        owners.extend_from_slice(&own)?;
        rest = after;
    }
    Ok(owners)
}

/// The sections that a set's text doesn't say where they begin. The error is out of memory.
pub(crate) fn read_followers(alloc: Global, text: &[u8]) -> Result<Vec<Owner>, AllocError>
    ensures { IfOk result (λ owners. AreFollowersIf (is_gathered text.now) text.now owners.items) }
{
    if !is_gathered(text) {
        return document_followers(alloc, text);
    }
    match node_part(text) {
        Some((_node, rest)) => parts_followers(alloc, rest),
        None => parts_followers(alloc, text),
    }
}

// ---- what moves along

// Whether it is the section at a place of the task of this name.
fn is_follower(owner: Owner, name: &[u8], place: usize) -> bool
    ensures { result ≡ is_follower owner name.now place }
{
    match owner {
        Owner::Follower { task, place: own } => task.bytes() == name && own == place,
        Owner::Task { .. } | Owner::Interrupt { .. } | Owner::Clocked { .. } => false,
    }
}

// Whether the section at a place of the task of this name begins where the one before it ends.
fn follows(owners: &[Owner], name: &[u8], place: usize) -> bool
    ensures { result ≡ follows owners.now name.now place }
{
    owners.iter().any(|owner| is_follower(*owner, name, place))
}

/// How many of the sections behind one of a task move along with its end: those that don't say where they begin, up to the
/// first that does. The section stands at a place, from 0, and so many stand behind it.
pub fn along(owners: &[Owner], name: &[u8], place: usize, behind: usize) -> usize
    requires { place + behind ≤ SECTION_LIMIT }
    ensures is { result ≡ along owners.now name.now place behind }
    ensures within { result ≤ behind }
{
    for next in 0..behind {
        if !follows(owners, name, place + next + 1) {
            return next;
        }
    }
    behind
}
