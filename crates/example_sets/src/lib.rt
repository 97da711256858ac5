//! Sets of docs/EXAMPLES.md, as documents, and what tests make of a document.
#![tactic(auto)]

use overheads::{PadFault, pad};
use std::alloc::Global;
use std::sync::Arc;
use std::sync::atomic::{AtomicU64, Ordering};
use std::test::Fail;
use std::thread;
use task_sheet::{Name, SetFault, TaskSet, read_document, read_set};

// A document: each task by its name, its period, deadline and cost, and what follows the cost.
macro_rules! tasks {
    ($($name:literal $period:literal/$deadline:literal/$cost:literal $($more:literal)?);*) => {
        concat!(
            "task = [\n",
            $(
                "    { name = '", $name, "', period = ", $period, ", deadline = ", $deadline, ", cost = ", $cost,
                $($more,)?
                " },\n",
            )*
            "]\n"
        )
    };
}

// The three tasks a, b and c, of which a has this behind its cost.
macro_rules! three_tasks {
    ($a:literal) => {
        tasks!("a" 7000/7000/3000 $a; "b" 12000/12000/3000; "c" 20000/20000/5000)
    };
}

/// One task whose cost is its period.
pub const FILLS_ITS_PERIOD: &str = tasks!("x" 1000/1000/1000);

/// Two tasks; the demand of p at its deadline is above the deadline, and yet p passes.
pub const DEMAND_OF_THE_DEADLINE: &str = tasks!("p" 20000/11000/4000; "q" 10000/10000/5000);

/// One task that can't meet its deadline.
pub const COST_PAST_THE_DEADLINE: &str = tasks!("x" 10000/2000/3000);

/// The three tasks below, where a must stand above b.
pub const A_OVER_B: &str = three_tasks!(", outranks = ['b']");

/// Three tasks, of which c alone passes at the lowest level.
pub const THREE_TASKS: &str = three_tasks!("");

/// The same, where a may become ready late: a and c meet their bounds exactly.
pub const THREE_TASKS_LATE: &str = three_tasks!(", jitter = 1000");

/// The same, later by a tick: no order passes.
pub const THREE_TASKS_TOO_LATE: &str = three_tasks!(", jitter = 1001");

/// The same, where c passes nowhere below the others.
pub const THREE_TASKS_TOO_TIGHT: &str =
    tasks!("a" 7000/7000/3000; "b" 12000/12000/3000; "c" 20000/19000/5000);

/// hi and lo share a lock, for which mid is blocked.
pub const SHARED_LOCK: &str = tasks!(
    "hi" 10000/10000/1000 ", weight = 2, section = [{ locks = ['m'], at = 0, len = 200 }]";
    "mid" 20000/20000/2000 ", weight = 1";
    "lo" 100000/100000/20000 ", section = [{ locks = ['m'], at = 100, len = 4000 }]"
);

/// hi is blocked past its deadline.
pub const BLOCKED_OUT: &str = tasks!(
    "hi" 10000/4400/2000 ", section = [{ locks = ['m'], at = 0, len = 500 }]";
    "lo" 50000/50000/10000 ", section = [{ locks = ['m'], at = 1000, len = 2500 }]"
);

/// Two tasks that share a lock: above x, y blocks it no more.
pub const EXCHANGE_WITH_EQUALITY: &str = tasks!(
    "x" 10000/10000/1000 ", section = [{ locks = ['m'], at = 0, len = 100 }]";
    "y" 20000/20000/2000 ", section = [{ locks = ['m'], at = 0, len = 2000 }]"
);

/// Two tasks on a node of which each job takes 30, 10 of that as the timer of whoever executes, and an interrupt: with that
/// their costs are 420 and 920.
pub const TIMERS: &str = "
node = { job = 30, release = 10 }
interrupt = [{ period = 1000, cost = 50 }]
task = [
    { name = 'x', period = 2000, deadline = 2000, cost = 400 },
    { name = 'y', period = 5000, deadline = 5000, cost = 900 },
]
";

/// Two tasks that fill the processor, but each timer takes a tick.
pub const TIMERS_OVERRUN: &str = "
node = { job = 1, release = 1 }
task = [
    { name = 'x', period = 1000, deadline = 1000, cost = 600 },
    { name = 'y', period = 1000, deadline = 1000, cost = 400 },
]
";

/// What a call answers. Where this refusal comes, the call is made once more, with what the refusal hands back by the names
/// of its pattern; with no pattern it is `AllocError`.
#[macro_export]
macro_rules! again {
    ($call:expr) => {
        $crate::again!($call, std::alloc::AllocError)
    };
    ($call:expr, $refusal:pat) => {
        match $call {
            Err($refusal) => $call,
            answer => answer,
        }
    };
}

/// The set of a document, or why it is none, as a test's failure.
pub fn set_of(alloc: Global, text: &str) -> Result<TaskSet, Fail> {
    let set = again!(read_set(alloc, text.as_bytes()), SetFault::OutOfMemory)?;
    Ok(set)
}

/// The set of a document, with what its node takes, and its interrupts.
pub fn padded_set_of(alloc: Global, text: &str) -> Result<TaskSet, Fail> {
    let document = again!(read_document(alloc, text.as_bytes()), SetFault::OutOfMemory)?;
    let set = &document.set;
    let padded = again!(
        pad(alloc, set, document.node, &document.interrupts),
        PadFault::OutOfMemory
    )?;
    Ok(padded)
}

/// The set of a document, to be shared.
pub fn shared_set(alloc: Global, text: &str) -> Result<Arc<TaskSet>, Fail> {
    let set = set_of(alloc, text)?;
    Ok(Arc::new(alloc, set)?)
}

/// The name that a text is.
pub fn name(text: &str) -> Result<Name, Fail> {
    let name = Name::read(text.as_bytes())?;
    Ok(name)
}

/// Whether the number comes to be at least this within 1,000,000 turns, at each of which another thread may run.
pub fn wait_until(number: &AtomicU64, least: u64) -> bool {
    for _ in 0..1_000_000u32 {
        if number.load(Ordering::SeqCst) >= least {
            return true;
        }
        thread::yield_now();
    }
    false
}
