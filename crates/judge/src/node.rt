//! What becomes of the tasks of a node.
ghost use Rattle.std.specs.Prelude.{◌<◌, All, MatchResult, Ok, IfOk};
ghost use Rattle.task_sheet.specs.declared.set.TheConstants.{TASK_LIMIT};
ghost use Rattle.judge.specs.Ceilings.{IsRowsJudgement, IsTextJudgement};
ghost use Rattle.judge.specs.SettingFaults.{IsSettingsFault, given_fault_by, given_rows_fault, rows_fault, settings_fault_by};
ghost use Rattle.judge.specs.Judgements.{AllJudged, order_judged};
ghost use Rattle.judge.specs.Node.{AreNumbersIn, AreNumbersOf, IsNodeOrderBy, IsOrderOfRows};

use crate::by_ceilings::judge_by;
use crate::fault::SettingsFault;
use crate::judging::{JudgedTask, judge_order};
use crate::numbers::numbers_of;
use crate::order::order_by;
use crate::reading::order_of_rows;
use crate::rows::{SettingRow, by_height, read_rows, sort_rows};
use crate::settings_fault::given_fault;
use ceilings::{LockTable, Tabled};
use std::alloc::Global;
use task_sheet::TaskSet;

/// What becomes of the tasks of a node.
#[derive(Drop)]
pub struct JudgedNode {
    /// Each task, the lowest first.
    pub judged: Vec<JudgedTask>,
    /// The number of each one's thread, as the settings have it.
    pub numbers: Vec<u64>,
}

/// What becomes of each task in the order that rows of settings give a node, the lowest first, and the numbers of their
/// threads; a smaller number may be the higher one. Refused in the order of `SettingsFault`, but for `BadLine`.
pub fn judge_rows(
    alloc: Global,
    set: &Tabled<'_>,
    lower_is_higher: bool,
    rows: &[SettingRow],
) -> Result<JudgedNode, SettingsFault>
    ensures judged { MatchResult result
        (λ node. IsOrderOfRows lower_is_higher set.now rows.now (order_judged node.judged.items)
        × AllJudged set.now node.judged.items)
        (λ fault. IsSettingsFault fault (rows_fault lower_is_higher set.now (Ok rows.now))) }
    ensures numbers { IfOk result (λ node. AreNumbersOf set.now rows.now
        (order_judged node.judged.items) node.numbers.items) }
    ensures within { IfOk result (λ node. All (λ j. j.task < TASK_LIMIT) node.judged.items) }
{
    // The set is valid: the proof has it from its sheets.
    let _ = set.sheets();
    let order = order_of_rows(alloc, set, lower_is_higher, rows)?;
    let judged = judge_order(alloc, set, &order)?;
    let numbers = numbers_of(alloc, set, rows, &order)?;
    Ok(JudgedNode { judged, numbers })
}

/// What becomes of each task in the order that a text's settings give a node, the lowest first, and the numbers of their
/// threads; a smaller number may be the higher one. Refused in the order of `SettingsFault`.
pub fn judge_settings(
    alloc: Global,
    set: &TaskSet,
    lower_is_higher: bool,
    text: &[u8],
) -> Result<JudgedNode, SettingsFault>
    ensures judged { MatchResult result
        (λ node. IsNodeOrderBy lower_is_higher set.now text.now (order_judged node.judged.items)
        × AllJudged set.now node.judged.items)
        (λ fault. IsSettingsFault fault
        (settings_fault_by lower_is_higher set.now text.now)) }
    ensures numbers { IfOk result (λ node. AreNumbersIn set.now text.now
        (order_judged node.judged.items) node.numbers.items) }
    ensures within { IfOk result (λ node. All (λ j. j.task < TASK_LIMIT) node.judged.items) }
{
    let table = LockTable::new(alloc, set)?;
    let rows = read_rows(alloc, text)?;
    judge_rows(alloc, &Tabled::of(set, &table), lower_is_higher, &rows)
}

// What becomes of each task in the order that rows of settings give a node, by the ceilings that they give its mutexes.
fn judge_given_rows(
    alloc: Global,
    set: &Tabled<'_>,
    lower_is_higher: bool,
    rows: &[SettingRow],
) -> Result<JudgedNode, SettingsFault>
    ensures judged { MatchResult result
        (λ node. IsRowsJudgement lower_is_higher set.now rows.now node.judged.items)
        (λ fault. IsSettingsFault fault (given_rows_fault lower_is_higher set.now (Ok rows.now))) }
    ensures numbers { IfOk result (λ node. AreNumbersOf set.now rows.now
        (order_judged node.judged.items) node.numbers.items) }
    ensures within { IfOk result (λ node. All (λ j. j.task < TASK_LIMIT) node.judged.items) }
{
    // The set is valid: the proof has it from its sheets.
    let _ = set.sheets();
    let sorted = sort_rows(alloc, rows)?;
    let settings = by_height(alloc, lower_is_higher, sorted)?;
    if let Some(fault) = given_fault(set, lower_is_higher, &settings) {
        return Err(fault);
    }
    let order = order_by(alloc, set.tasks(), &settings.threads)?;
    let judged = judge_by(alloc, set, &settings, &order)?;
    let numbers = numbers_of(alloc, set, rows, &order)?;
    Ok(JudgedNode { judged, numbers })
}

/// What becomes of each task in the order that a text's settings give a node, the lowest first, by the ceilings that they
/// give its mutexes, the least or higher ones; and the numbers of their threads. A smaller number may be the higher one.
/// Refused in the order of `SettingsFault`.
pub fn judge_given(
    alloc: Global,
    set: &TaskSet,
    lower_is_higher: bool,
    text: &[u8],
) -> Result<JudgedNode, SettingsFault>
    ensures judged { MatchResult result
        (λ node. IsTextJudgement lower_is_higher set.now text.now node.judged.items)
        (λ fault. IsSettingsFault fault (given_fault_by lower_is_higher set.now text.now)) }
    ensures numbers { IfOk result (λ node. AreNumbersIn set.now text.now
        (order_judged node.judged.items) node.numbers.items) }
    ensures within { IfOk result (λ node. All (λ j. j.task < TASK_LIMIT) node.judged.items) }
{
    let table = LockTable::new(alloc, set)?;
    let rows = read_rows(alloc, text)?;
    judge_given_rows(alloc, &Tabled::of(set, &table), lower_is_higher, &rows)
}
