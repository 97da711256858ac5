//! Whether a task passes on a processor that is slower, or quicker.
ghost use Rattle.std.specs.Prelude.{◌<◌, ◌↔◌, length, IsTrue};
ghost use Rattle.task_sheet.specs.Indexes.{indexes_of};
ghost use Rattle.response_time.specs.Slowed.{PassesAt};

use crate::{demand, limit_of, passes};
use ceilings::Tabled;
use task_sheet::Members;

// Whether some window covers so many thousandths of the demand.
fn is_covered(set: &Tabled<'_>, task: usize, above: Members, factor: u64) -> bool
    requires { task < length set.now }
    ensures { IsTrue result ↔ PassesAt factor set.now task (indexes_of above) }
{
    let limit = limit_of(set, task);
    let mut window = 1;
    while window <= limit {
        let need = demand(set, task, above, window);
        // Where this is past 64 bits, it is past each limit, too.
        let next = factor.saturating_mul(need).div_ceil(1000);
        if next <= window {
            return true;
        }
        window = next;
    }
    false
}

/// Whether a task passes with these above it where each execution takes `factor` thousandths of its time, as on a slower
/// processor: each cost, each section, each timer and interrupt.
pub fn passes_at(set: &Tabled<'_>, task: usize, above: Members, factor: u64) -> bool
    requires { task < length set.now }
    ensures { IsTrue result ↔ PassesAt factor set.now task (indexes_of above) }
{
    // As it stands: the quick way.
    if factor == 1000 {
        passes(set, task, above)
    } else {
        is_covered(set, task, above, factor)
    }
}
