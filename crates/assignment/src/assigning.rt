//! The verdict of a set, on the caller's thread (Audsley 1991).
ghost use Rattle.std.specs.Prelude.{◌≡◌, ◌<◌, IfOk, IsTrue};
ghost use Rattle.std.specs.FinSet.{contains, len};
ghost use Rattle.task_sheet.specs.Verdicts.{IsVerdictOf};
ghost use Rattle.ceilings.specs.IsTableOf.{IsTableOf};
ghost use Rattle.assignment.specs.Climbs.{IsUnfinished};
ghost use Rattle.assignment.specs.Levels.{IsDecided, with_finding};
ghost use Rattle.assignment.specs.Verdict.{verdict_set, verdict_of};

use crate::climb::Climb;
use crate::level::Level;
use crate::verdict::Verdict;
use ceilings::LockTable;
use std::alloc::{AllocError, Global};
use std::sync::Arc;
use task_sheet::TaskSet;

// Answers the question on a candidate, and takes the finding.
fn ask(alloc: Global, table: &LockTable, level: &mut Level, task: usize) -> Result<(), AllocError>
    requires table { IsTableOf level.old.set table.now }
    requires candidate { IsTrue (contains level.old.left task) }
    requires missing { IsTrue (contains level.old.missing task) }
    ensures { IfOk result (λ _. level.new ≡ with_finding level.old task) }
{
    let question = level.question(task)?;
    let Ok(finding) = question.answer_by(alloc, table) else {
        return Err(AllocError);
    };
    level.accept(finding);
    Ok(())
}

// The level, decided: its candidates are asked by rank, up to the first that passes.
fn decide(alloc: Global, table: &LockTable, mut level: Level) -> Result<Level, AllocError>
    requires table { IsTableOf level.set table.now }
    requires fresh { level.missing ≡ level.left }
    ensures same { IfOk result (λ decided. decided.set ≡ level.set) }
    ensures rest { IfOk result (λ decided. decided.left ≡ level.left) }
    ensures decided { IfOk result (λ decided. IsDecided decided) }
{
    let left = level.left();
    for task in 0..level.set().len() {
        if left.has(task) {
            ask(alloc, table, &mut level, task)?;
            if level.decided() {
                return Ok(level);
            }
        }
    }
    Ok(level)
}

// The climb at its end: level after level is decided and closed.
fn climb_up(alloc: Global, table: &LockTable, mut climb: Climb) -> Result<Climb, AllocError>
    requires { IsTableOf climb.set table.now }
    ensures same { IfOk result (λ end. end.set ≡ climb.set) }
    ensures finished { IfOk result (λ end. IsUnfinished end → ⊥) }
{
    while climb.is_unfinished() {
        let level = decide(alloc, table, climb.start_level(alloc)?)?;
        climb.close_own(level);
    }
    Ok(climb)
}

// The verdict at the end of a climb.
fn end_of(climb: Climb) -> Verdict
    requires { IsUnfinished climb → ⊥ }
    ensures of_set { verdict_set result ≡ climb.set }
    ensures verdict { IsVerdictOf climb.set (verdict_of result) }
{
    match climb.finish() {
        Ok(verdict) => verdict,
        Err(_) => unreachable!(),
    }
}

/// The verdict of a set: its best order with what shows it best, or its greatest obstruction with what shows it stuck.
/// The error is out of memory.
pub fn assign(alloc: Global, set: Arc<TaskSet>) -> Result<Verdict, AllocError>
    ensures of_set { IfOk result (λ verdict. verdict_set verdict ≡ set.value) }
    ensures verdict { IfOk result (λ verdict. IsVerdictOf set.value (verdict_of verdict)) }
{
    let table = LockTable::new(alloc, &set)?;
    let climb = climb_up(alloc, &table, Climb::start(alloc, set)?)?;
    Ok(end_of(climb))
}
