//! Demands, how many numbers lead to a response, and orders that a kernel refuses.
ghost use Rattle.std.specs.Prelude.{◌<◌, length};

use ceiling_kernel::{Kernel, KernelFault};
use ceilings::{LockTable, Tabled};
use example_sets::{again, padded_set_of, set_of};
use response_time::{Answer, demand, passes, respond};
use std::alloc::Global;
use std::process::Abort;
use std::test::Fail;
use task_sheet::{Members, TaskSet};

// The tasks with these indexes.
fn members_of(rt: &impl Abort, indexes: &[usize]) -> Members {
    let mut members = Members::empty();
    for index in indexes {
        assert!(rt; *index < 32);
        members = members.with(*index);
    }
    members
}

// Whether a task of a set passes with these above it, and its evaluations.
fn response_in(
    rt: &impl Abort,
    alloc: Global,
    set: &Tabled<'_>,
    task: usize,
    above: Members,
) -> Result<(bool, usize), Fail>
    requires task { task < length set.now }
{
    let response = again!(respond(alloc, set, task, above))?;
    let does_pass = matches!(&response.answer, Answer::Pass { .. });
    assert!(rt; passes(set, task, above) == does_pass);
    Ok((does_pass, response.evaluations))
}

// The same of a task of a document.
fn response_of(
    rt: &impl Abort,
    alloc: Global,
    document: &str,
    task: usize,
    above: &[usize],
) -> Result<(bool, usize), Fail> {
    let set = padded_set_of(alloc, document)?;
    let table = again!(LockTable::new(alloc, &set))?;
    assert!(rt; task < set.len());
    response_in(
        rt,
        alloc,
        &Tabled::of(&set, &table),
        task,
        members_of(rt, above),
    )
}

// An example, a task of it, the tasks above it, whether it passes, and its evaluations.
type Row = (&'static str, usize, &'static [usize], bool, usize);

// With timers, x takes 420 and the two timers and the interrupt 10 + 10 + 50: 490, which it is done within. y below x
// takes 920 + 420 + 70 = 1410 from 1 on, and 50 more past 1000: 1, 1410, 1460.
const ROWS: [Row; 20] = [
    (example_sets::FILLS_ITS_PERIOD, 0, &[], true, 2),
    (example_sets::DEMAND_OF_THE_DEADLINE, 0, &[1], true, 2),
    (example_sets::COST_PAST_THE_DEADLINE, 0, &[], false, 1),
    (example_sets::THREE_TASKS, 0, &[1, 2], false, 1),
    (example_sets::THREE_TASKS, 1, &[0, 2], false, 2),
    (example_sets::THREE_TASKS, 2, &[0, 1], true, 5),
    (example_sets::THREE_TASKS, 0, &[1], true, 2),
    (example_sets::THREE_TASKS_LATE, 0, &[1], true, 2),
    (example_sets::THREE_TASKS_LATE, 1, &[], true, 2),
    (example_sets::THREE_TASKS_LATE, 2, &[0, 1], true, 4),
    (example_sets::THREE_TASKS_TOO_LATE, 0, &[1, 2], false, 1),
    (example_sets::THREE_TASKS_TOO_LATE, 0, &[1], false, 1),
    (example_sets::THREE_TASKS_TOO_LATE, 1, &[0, 2], false, 2),
    (example_sets::THREE_TASKS_TOO_LATE, 2, &[0, 1], false, 4),
    (example_sets::THREE_TASKS_TOO_TIGHT, 2, &[0, 1], false, 4),
    (example_sets::SHARED_LOCK, 0, &[1, 2], true, 3),
    (example_sets::BLOCKED_OUT, 0, &[], false, 1),
    (example_sets::TIMERS, 0, &[], true, 2),
    (example_sets::TIMERS, 1, &[0], true, 3),
    (example_sets::TIMERS_OVERRUN, 0, &[1], false, 1),
];

#[test]
fn evaluations_of_the_examples(rt: HostRuntime) -> Result<(), Fail> {
    for (document, task, above, does_pass, evaluations) in &ROWS {
        let found = response_of(&rt, rt.alloc(), *document, *task, *above)?;
        assert_eq!(rt; found, (*does_pass, *evaluations));
    }
    Ok(())
}

// The demand of a task of a document in a window, with these above it.
fn demand_in(
    rt: &impl Abort,
    alloc: Global,
    document: &str,
    task: usize,
    above: &[usize],
    time: u64,
) -> Result<u64, Fail> {
    let set = padded_set_of(alloc, document)?;
    let table = again!(LockTable::new(alloc, &set))?;
    assert!(rt; task < set.len());
    assert!(rt; time <= 20001);
    Ok(demand(&Tabled::of(&set, &table), task, members_of(rt, above), time))
}

// A document, a task of it, the tasks above that one, a window and the task's demand in it: the exchange with equality,
// with y below x and above it; the demand of the deadline above the deadline; a's jitter, which brings a job more where
// a stands above, and none where it stands below.
// With timers x takes 420, and y 920; in a window up to 1000 two timers and one interrupt come, 10 + 10 + 50. Up to 2000
// the interrupt comes twice; past that, x is released twice, and with it its timer, up to 3000. Past 5000 so is y: with
// nobody above it x has 420 + 3 * 10 + 2 * 10 + 6 * 50.
const DEMANDS: [(&str, usize, &[usize], u64, u64); 19] = [
    (example_sets::EXCHANGE_WITH_EQUALITY, 0, &[], 1, 3000),
    (example_sets::EXCHANGE_WITH_EQUALITY, 0, &[], 20000, 3000),
    (example_sets::EXCHANGE_WITH_EQUALITY, 0, &[], 20001, 3000),
    (example_sets::EXCHANGE_WITH_EQUALITY, 0, &[1], 1, 3000),
    (example_sets::EXCHANGE_WITH_EQUALITY, 0, &[1], 20000, 3000),
    (example_sets::EXCHANGE_WITH_EQUALITY, 0, &[1], 20001, 5000),
    (example_sets::DEMAND_OF_THE_DEADLINE, 0, &[1], 11000, 14000),
    (example_sets::THREE_TASKS_LATE, 2, &[0, 1], 6000, 11000),
    (example_sets::THREE_TASKS_LATE, 2, &[0, 1], 6001, 14000),
    (example_sets::THREE_TASKS_LATE, 2, &[0, 1], 20000, 20000),
    (example_sets::THREE_TASKS_LATE, 2, &[0, 1], 20001, 23000),
    (example_sets::THREE_TASKS_LATE, 0, &[1], 12000, 6000),
    (example_sets::THREE_TASKS_LATE, 0, &[1], 12001, 9000),
    (example_sets::TIMERS, 0, &[], 1, 490),
    (example_sets::TIMERS, 0, &[], 2000, 540),
    (example_sets::TIMERS, 0, &[], 5001, 770),
    (example_sets::TIMERS, 1, &[0], 1000, 1410),
    (example_sets::TIMERS, 1, &[0], 1001, 1460),
    (example_sets::TIMERS, 1, &[0], 2001, 1940),
];

#[test]
fn demands_of_the_examples(rt: HostRuntime) -> Result<(), Fail> {
    for (document, task, above, time, want) in &DEMANDS {
        let found = demand_in(&rt, rt.alloc(), *document, *task, *above, *time)?;
        assert_eq!(rt; found, *want);
    }
    Ok(())
}

// Too few tasks of three, one of them twice, and one too many.
const WRONG_ORDERS: [&[usize]; 3] = [&[0, 1], &[0, 0, 1], &[0, 1, 2, 3]];

// The kernel of a set in an order, asked for again where memory ran out.
fn kernel_of<'a>(
    alloc: Global,
    set: &'a TaskSet,
    order: &[usize],
) -> Result<Kernel<'a>, KernelFault> {
    again!(Kernel::new(alloc, set, order), KernelFault::OutOfMemory)
}

#[test]
fn wrong_orders(rt: HostRuntime) -> Result<(), Fail> {
    let set = set_of(rt.alloc(), example_sets::THREE_TASKS)?;
    for order in &WRONG_ORDERS {
        let refused = kernel_of(rt.alloc(), &set, *order);
        assert!(rt; matches!(&refused, Err(KernelFault::WrongOrder)));
    }
    Ok(())
}
