//! The lines of the tasks.
ghost use Rattle.std.specs.Prelude.{◌≡◌, ◌<◌, ◌++◌, length, IfOk, OnOk, string_bytes};
ghost use Rattle.task_sheet.specs.Orders.{IsOrder};
ghost use Rattle.lines.specs.Naming.{name_at};
ghost use Rattle.run_lines.specs.RunLines.{greatest_words, task_line, task_lines};
ghost use Rattle.run_lines.specs.TaskBounds.{tasks_of_bounds};

use crate::bounds::TaskBound;
use crate::outcome::{Outcome, outcome_of};
use ceiling_kernel::JobRecord;
use lines::push_some;
use std::alloc::{AllocError, Global};
use task_sheet::{Name, TaskSet};

// The greatest response of jobs that are done, or `-` for none.
fn push_greatest(text: &mut String, outcome: Outcome) -> Result<(), AllocError>
    ensures { OnOk result (string_bytes text.new ≡ string_bytes text.old
        ++ greatest_words outcome.done outcome.greatest) }
{
    if outcome.done == 0 {
        return text.push_str("-");
    }
    let greatest = outcome.greatest;
    write!(text, "{greatest}")
}

// The name of a task.
fn name_of(set: &TaskSet, task: usize) -> Name
    requires { task < length set.now }
    ensures { result ≡ name_at set.now task }
{
    set.sheets()[task].name()
}

// The line of a task, with its bound.
fn push_task(
    text: &mut String,
    set: &TaskSet,
    bound: TaskBound,
    jobs: &[JobRecord],
) -> Result<(), AllocError>
    requires { bound.task < length set.now }
    ensures { OnOk result (string_bytes text.new ≡ string_bytes text.old
        ++ task_line (name_at set.now bound.task) bound.bound jobs.now) }
{
    let name = name_of(set, bound.task);
    let outcome = outcome_of(jobs, name);
    let done = outcome.done;
    write!(text, "task {name} {done} ")?;
    push_greatest(text, outcome)?;
    text.push_str(" ")?;
    push_some(text, bound.bound)?;
    text.push_str("\n")
}

/// The lines that say what each task of an order came to in a run, the lowest level first: its name, how many of its jobs
/// are done, the greatest response among them, `-` where none is, and its bound, `-` where it has none; in microseconds.
/// The error is out of memory.
pub fn tasks_text(
    alloc: Global,
    set: &TaskSet,
    bounds: &[TaskBound],
    jobs: &[JobRecord],
) -> Result<String, AllocError>
    requires { IsOrder set.now (tasks_of_bounds bounds.now) }
    ensures { IfOk result (λ text. string_bytes text ≡ task_lines set.now jobs.now bounds.now) }
{
    let mut text = String::new(alloc);
    for bound in bounds {
        push_task(&mut text, set, *bound, jobs)?;
    }
    Ok(text)
}
