//! How a kernel's tasks are kept.
ghost use Rattle.std.specs.Prelude.{◌<◌, ◌≤◌, ◌+◌, ◌^◌, length, All, IfOk};
ghost use Rattle.task_sheet.specs.declared.set.TheConstants.{TASK_LIMIT};
ghost use Rattle.task_sheet.specs.TaskSet.{IsTaskSet};
ghost use Rattle.ceiling_kernel.specs.Tick.{node_in};
ghost use Rattle.ceiling_kernel.specs.NodeTasks.{AreSectionsOf, KeepsTasks};

use crate::levels::{level_of, top_of};
use crate::tasks::{NodeSection, NodeTask};
use ceilings::Tabled;
use std::alloc::{AllocError, Global};
use task_sheet::Section;

// What a kernel keeps of sections.
fn sections_of(
    alloc: Global,
    set: &Tabled<'_>,
    order: &[usize],
    sections: &[Section],
) -> Result<Vec<NodeSection>, AllocError>
    requires within { All (λ index. index < TASK_LIMIT) order.now }
    requires few { length order.now ≤ TASK_LIMIT }
    requires fit { All (λ s. s.at + s.len < 2 ^ 64) sections.now }
    requires run { All (λ s. 0 < s.len) sections.now }
    ensures { IfOk result (λ kept. AreSectionsOf (node_in set.now order.now) sections.now kept.items) }
{
    let mut kept = Vec::new(alloc);
    for section in sections {
        kept.push(NodeSection {
            at: section.at,
            stop: section.at + section.len,
            top: top_of(set, order, &section.locks),
        })?;
    }
    Ok(kept)
}

// What a kernel keeps of tasks.
pub fn tasks_of(
    alloc: Global,
    set: &Tabled<'_>,
    order: &[usize],
) -> Result<Vec<NodeTask>, AllocError>
    requires within { All (λ index. index < TASK_LIMIT) order.now }
    requires few { length order.now ≤ TASK_LIMIT }
    ensures tasks { IfOk result (λ kept. KeepsTasks (node_in set.now order.now) kept.items) }
    ensures set { IsTaskSet set.now }
{
    let mut kept = Vec::new(alloc);
    for (index, sheet) in set.sheets().iter().enumerate() {
        kept.push(NodeTask {
            level: level_of(order, index),
            cost: sheet.cost(),
            sections: sections_of(alloc, set, order, sheet.sections())?,
        })?;
    }
    Ok(kept)
}
