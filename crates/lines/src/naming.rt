//! The names of a set's tasks in a line.
ghost use Rattle.std.specs.Prelude.{◌≡◌, ◌++◌, length, OnOk, string_bytes};
ghost use Rattle.task_sheet.specs.Indexes.{indexes_of, listed_below};
ghost use Rattle.lines.specs.Naming.{name_at, named};

use std::alloc::AllocError;
use task_sheet::{Members, TaskSet};

/// The name of the task at an index; nothing past the end of the set.
pub fn push_name(text: &mut String, set: &TaskSet, task: usize) -> Result<(), AllocError>
    ensures { OnOk result (string_bytes text.new ≡ string_bytes text.old ++ name_at set.now task) }
{
    match set.get(task) {
        Some(sheet) => {
            let name = sheet.name();
            write!(text, "{name}")
        }
        None => Ok(()),
    }
}

/// The names of tasks by rank, each after one space.
pub fn push_names(text: &mut String, set: &TaskSet, tasks: Members) -> Result<(), AllocError>
    ensures { OnOk result (string_bytes text.new
        ≡ string_bytes text.old
        ++ named set.now (listed_below (length set.now) (indexes_of tasks))) }
{
    for task in 0..set.len() {
        if tasks.has(task) {
            text.push_str(" ")?;
            push_name(text, set, task)?;
        }
    }
    Ok(())
}
