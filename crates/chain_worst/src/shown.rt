//! What is shown of a chain.
ghost use Rattle.std.specs.Prelude.{◌≡◌, ◌≤◌, IfOk, IsTrue, None, Some};
ghost use Rattle.std.specs.List.{list_all};
ghost use Rattle.task_sheet.specs.Orders.{IsOrder};
ghost use Rattle.ceiling_kernel.specs.declared.accept.TheConstants.{HORIZON};
ghost use Rattle.ceiling_kernel.specs.Releases.{refusal_of};
ghost use Rattle.chains.specs.Parts.{bound_in, has_response, order_of};
ghost use Rattle.chain_worst.specs.Aims.{AreAims, end_of};
ghost use Rattle.chain_worst.specs.Shown.{IsCaseOf, IsRunOf};

use crate::aims::{Aim, aims_of, begin_of, early_of, end_of};
use crate::built::build;
use ceiling_kernel::{Kernel, Release, RunFault};
use ceilings::{LockTable, Tabled};
use chain_runs::{outcome_of, outputs_of};
use chains::{Level, Step, Writes, bound_of, steps_of};
use cut_runs::{CutRun, run_cut};
use std::alloc::{AllocError, Global};
use task_sheet::TaskSet;

/// The run that a chain's bound describes, as far as it goes without an overrun, with the chain's bound, and how old what the
/// chain writes gets in it, if it writes anything of a sample; in microseconds.
#[derive(Drop)]
pub struct ChainRun {
    pub bound: u128,
    pub seen: Option<u64>,
    pub run: CutRun,
}

/// What is shown of a chain.
#[derive(Drop)]
pub enum ChainCase {
    /// A task of it misses its deadline.
    NoBound,
    /// The run would last for longer than 60,000,000.
    PastHorizon,
    /// It has more than 10,000 releases.
    TooMany,
    Ran(ChainRun),
}

// The order of levels, the lowest first.
fn order_of(alloc: Global, levels: &[Level]) -> Result<Vec<usize>, AllocError>
    ensures { IfOk result (λ order. order.items ≡ order_of levels.now) }
{
    let mut order = Vec::with_capacity(alloc, levels.len())?;
    for level in levels {
        order.push(level.task)?;
    }
    Ok(order)
}

// The aims of a chain with these steps, to whose first task something comes at a time.
fn plan_of(
    alloc: Global,
    set: &TaskSet,
    levels: &[Level],
    steps: &[Step],
    begin: u64,
    tasks: &[usize],
) -> Result<Vec<Aim>, AllocError>
    requires order { IsOrder set.now (order_of levels.now) }
    requires horizon { end_of steps.now begin ≤ HORIZON }
    requires responses { IsTrue (list_all (has_response levels.now) tasks.now) }
    ensures { IfOk result (λ aims. AreAims set.now levels.now steps.now begin tasks.now aims.items) }
{
    let order = order_of(alloc, levels)?;
    let table = LockTable::new(alloc, set)?;
    let tabled = Tabled::of(set, &table);
    aims_of(alloc, &tabled, levels, &order, steps, begin, tasks)
}

// What the run of a chain comes to.
fn run_of(
    alloc: Global,
    set: &TaskSet,
    levels: &[Level],
    writes: Writes,
    tasks: &[usize],
    bound: u128,
    releases: Vec<Release>,
    until: u64,
) -> Result<ChainRun, AllocError>
    requires order { IsOrder set.now (order_of levels.now) }
    requires accepted { refusal_of set.now releases.items until ≡ None }
    ensures { IfOk result (IsRunOf writes set.now levels.now tasks.now bound releases.items until) }
{
    let order = order_of(alloc, levels)?;
    let kernel = match Kernel::new(alloc, set, &order) {
        Ok(kernel) => kernel,
        Err(_) => return Err(AllocError),
    };
    let run = match run_cut(alloc, &kernel, releases, until) {
        Ok(run) => run,
        // The list is never refused.
        Err(_) => return Err(AllocError),
    };
    let outputs = outputs_of(alloc, set, run.until, &run.trace, writes, tasks)?;
    let seen = outcome_of(run.until, &outputs).age;
    Ok(ChainRun { bound, seen, run })
}

// What is shown of a chain that has a bound.
fn case_within(
    alloc: Global,
    set: &TaskSet,
    levels: &[Level],
    writes: Writes,
    offsets: &[u64],
    tasks: &[usize],
    bound: u128,
) -> Result<ChainCase, AllocError>
    requires order { IsOrder set.now (order_of levels.now) }
    requires bound { bound_in writes offsets.now set.now levels.now tasks.now ≡ Some bound }
    ensures { IfOk result (IsCaseOf writes offsets.now set.now levels.now tasks.now) }
{
    let steps = steps_of(alloc, set, levels, writes, offsets, tasks)?;
    let begin = early_of(&steps, begin_of(set, tasks)) + 1;
    let Some(until) = end_of(&steps, begin) else {
        return Ok(ChainCase::PastHorizon);
    };
    let aims = plan_of(alloc, set, levels, &steps, begin as u64, tasks)?;
    match build(alloc, set, until, &aims) {
        Ok(releases) => {
            let run = run_of(alloc, set, levels, writes, tasks, bound, releases, until)?;
            Ok(ChainCase::Ran(run))
        }
        Err(RunFault::TooMany) => Ok(ChainCase::TooMany),
        Err(_) => Err(AllocError),
    }
}

/// What is shown of a chain of tasks, by their indexes, with these offsets, in an order whose levels have these responses. The
/// error is out of memory.
pub(crate) fn case_of(
    alloc: Global,
    set: &TaskSet,
    levels: &[Level],
    writes: Writes,
    offsets: &[u64],
    tasks: &[usize],
) -> Result<ChainCase, AllocError>
    requires { IsOrder set.now (order_of levels.now) }
    ensures { IfOk result (IsCaseOf writes offsets.now set.now levels.now tasks.now) }
{
    match bound_of(alloc, set, levels, writes, offsets, tasks)? {
        Some(bound) => case_within(alloc, set, levels, writes, offsets, tasks, bound),
        None => Ok(ChainCase::NoBound),
    }
}
