//! Rows of levels, and the lines that are printed of them.
ghost use Rattle.std.specs.Prelude.{◌≡◌, ◌++◌, IfOk, OnOk, slice_get, string_bytes};
ghost use Rattle.explain.specs.ExplanationLines.{level_account_lines};
ghost use Rattle.judge.specs.Levels.{account_rows, judged_line, judged_rows, level_team, placed_line, placed_rows, rows_lines, told_lines};

use crate::judging::{JudgedTask, Judgement};
use crate::missed::push_missed;
use crate::text::{push_at, push_judged};
use assignment::Place;
use explain::{Account, push_account};
use lines::push_name;
use std::alloc::{AllocError, Global};
use task_lines::{Owner, push_team};
use task_sheet::TaskSet;

/// What is told of a level.
#[derive(Drop)]
pub enum Told {
    /// The response of its task.
    Placed(Place),
    /// What becomes of its task, and the number of its thread, where one is given.
    Judged(JudgedTask, Option<u64>),
    /// The response of its task, with its parts.
    Response(Account),
    /// What its task needs that misses its deadline, with its parts.
    Needs(Account),
}

/// A level of an order, by its number from 1, the lowest first.
#[derive(Drop)]
pub struct LevelRow {
    pub number: usize,
    pub told: Told,
}

/// The levels of an order, the lowest first. The error is out of memory.
pub fn placed_rows(alloc: Global, places: &[Place]) -> Result<Vec<LevelRow>, AllocError>
    ensures { IfOk result (λ rows. rows.items ≡ placed_rows 1 places.now) }
{
    let mut rows = Vec::with_capacity(alloc, places.len())?;
    for (below, place) in places.iter().enumerate() {
        rows.push(LevelRow {
            number: below + 1,
            told: Told::Placed(*place),
        })?;
    }
    Ok(rows)
}

/// The same with the parts of their responses. The error is out of memory.
pub fn account_rows(alloc: Global, accounts: Vec<Account>) -> Result<Vec<LevelRow>, AllocError>
    ensures { IfOk result (λ rows. rows.items ≡ account_rows 1 accounts.items) }
{
    let mut rows = Vec::with_capacity(alloc, accounts.len())?;
    for account in accounts {
        let number = rows.len() + 1;
        let told = Told::Response(account);
        rows.push(LevelRow { number, told })?;
    }
    Ok(rows)
}

/// The levels of an order that was judged, the lowest first, with the numbers of their threads, where they are given. The error
/// is out of memory.
pub(crate) fn judged_rows(
    alloc: Global,
    judged: &[JudgedTask],
    numbers: &[u64],
) -> Result<Vec<LevelRow>, AllocError>
    ensures { IfOk result (λ rows. rows.items ≡ judged_rows numbers.now 0 judged.now) }
{
    let mut rows = Vec::with_capacity(alloc, judged.len())?;
    for (place, entry) in judged.iter().enumerate() {
        rows.push(LevelRow {
            number: place + 1,
            told: Told::Judged(*entry, number_at(numbers, place)),
        })?;
    }
    Ok(rows)
}

// The number at a place, where one is given.
fn number_at(numbers: &[u64], place: usize) -> Option<u64>
    ensures { result ≡ slice_get numbers.now place }
{
    numbers.get(place).copied()
}

// The line of a level, which has a number: its task and the task's response.
fn push_placed(
    text: &mut String,
    set: &TaskSet,
    number: usize,
    place: &Place,
) -> Result<(), AllocError>
    ensures { OnOk result (string_bytes text.new ≡ string_bytes text.old
        ++ placed_line set.now number place.now) }
{
    let response = place.response;
    write!(text, "{number} ")?;
    push_name(text, set, place.task)?;
    writeln!(text, " {response}")
}

// The words that name the team of a level's task; none where another task stands behind `below`.
fn push_level_team(
    text: &mut String,
    owners: &[Owner],
    set: &TaskSet,
    entry: &JudgedTask,
) -> Result<(), AllocError>
    ensures { OnOk result (string_bytes text.new ≡ string_bytes text.old
        ++ level_team owners.now set.now entry.now.task entry.now.judgement) }
{
    match entry.judgement {
        Judgement::Below { .. } => Ok(()),
        Judgement::Meets { .. } => push_team(text, owners, set, entry.task),
        Judgement::Misses { .. } => push_team(text, owners, set, entry.task),
    }
}

// The line of a level, which has a number: what becomes of its task, the number of its thread, and its team.
fn push_line(
    text: &mut String,
    owners: &[Owner],
    set: &TaskSet,
    number: usize,
    entry: &JudgedTask,
    thread: Option<u64>,
) -> Result<(), AllocError>
    ensures { OnOk result (string_bytes text.new ≡ string_bytes text.old
        ++ judged_line owners.now set.now number entry.now thread) }
{
    write!(text, "{number} ")?;
    push_judged(text, set, entry)?;
    push_at(text, thread)?;
    push_level_team(text, owners, set, entry)?;
    text.push_str("\n")
}

// The lines of a response at a level, which has a number.
fn push_response(
    text: &mut String,
    owners: &[Owner],
    set: &TaskSet,
    number: usize,
    account: &Account,
) -> Result<(), AllocError>
    ensures { OnOk result (string_bytes text.new ≡ string_bytes text.old
        ++ level_account_lines owners.now set.now number account.now) }
{
    write!(text, "{number} ")?;
    push_account(text, owners, set, account)
}

// The lines of what is told of a level, which has a number.
fn push_told(
    text: &mut String,
    owners: &[Owner],
    set: &TaskSet,
    number: usize,
    told: &Told,
) -> Result<(), AllocError>
    ensures { OnOk result (string_bytes text.new ≡ string_bytes text.old
        ++ told_lines owners.now set.now number told.now) }
{
    match told {
        Told::Placed(place) => push_placed(text, set, number, place),
        Told::Judged(entry, thread) => push_line(text, owners, set, number, entry, *thread),
        Told::Response(account) => push_response(text, owners, set, number, account),
        Told::Needs(account) => push_missed(text, owners, set, number, account),
    }
}

/// Adds the lines of levels. The error is out of memory.
pub fn push_rows(
    text: &mut String,
    owners: &[Owner],
    set: &TaskSet,
    rows: &[LevelRow],
) -> Result<(), AllocError>
    ensures { OnOk result (string_bytes text.new ≡ string_bytes text.old
        ++ rows_lines owners.now set.now rows.now) }
{
    for row in rows {
        push_told(text, owners, set, row.number, &row.told)?;
    }
    Ok(())
}
