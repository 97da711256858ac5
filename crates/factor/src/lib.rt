//! How far all execution of a set may slow down at once with an order still passing, or has to become quicker for one to
//! pass. A factor is in thousandths.
#![tactic(auto)]

ghost use Rattle.std.specs.Prelude.{◌<◌, length, IfSome, option_map};
ghost use Rattle.task_sheet.specs.Orders.{IsOrder};
ghost use Rattle.factor.specs.declared.TheConstants.{FACTOR_END};
ghost use Rattle.factor.specs.Factors.{AnswersFactor, AnswersSlowdown};

pub mod laws;

use assignment::{latest, obstruction_at};
use ceilings::Tabled;
use limits::{edge_of, passes_in_at};

/// How far all execution may slow down, and who fails first.
#[derive(Clone, Copy)]
pub struct Slowdown {
    /// The greatest factor at which some order passes, in thousandths.
    pub most: u64,
    /// Past it, of the tasks that are in the way of every order and need not stand above another of them, the first with
    /// the longest limit.
    pub task: usize,
}

// The least factor at which a demand of 1 is past the longest limit.
const FACTOR_END: u64 = 10_000_000_001;

/// The greatest factor, in thousandths and at least 1, with which an order of the set passes that is given, whether it does
/// without or not, or some order where none is given, where each execution takes that many thousandths of its time, as on
/// a slower processor: each cost, each section, each timer and interrupt. None where no factor helps. The set has a task.
pub fn factor(set: &Tabled<'_>, order: Option<&[usize]>) -> Option<u64>
    requires some { 0 < length set.now }
    requires order { IfSome (option_map (λ o. o.now) order) (IsOrder set.now) }
    ensures { AnswersFactor set.now (option_map (λ o. o.now) order.entry) result }
{
    // The set is valid: the proof has it from its sheets.
    let _ = set.sheets();
    match edge_of(
        0,
        FACTOR_END,
        FACTOR_END,
        |factor| Ok(passes_in_at(set, order, factor)),
    ) {
        Ok(0) => None,
        Ok(most) => Some(most),
        Err(_) => unreachable!(),
    }
}

/// The greatest factor with which some order passes, and who fails first past it; none where no factor helps. The set has
/// a task.
pub fn greatest_slowdown(set: &Tabled<'_>) -> Option<Slowdown>
    requires { 0 < length set.now }
    ensures { AnswersSlowdown set.now result }
{
    // The set is valid: the proof has it from its sheets.
    let _ = set.sheets();
    let most = factor(set, None)?;
    let Some(left) = obstruction_at(set, most + 1) else {
        unreachable!()
    };
    let Some(task) = latest(set, left) else {
        unreachable!()
    };
    Some(Slowdown { most, task })
}
