//! Tasks that arrive on a clock, by the offsets of a chain.
ghost use Rattle.std.specs.Prelude.{◌≡◌};
ghost use Rattle.owners.specs.Clocks.{has_clock, is_clocked, is_on_clock, puts_on_clock};

use task_lines::Owner;

// It says that the task of this index does.
fn puts_on_clock(owner: Owner, task: usize) -> bool
    ensures { result ≡ puts_on_clock owner task }
{
    match owner {
        Owner::Clocked { task: own } => own == task,
        Owner::Task { .. } | Owner::Interrupt { .. } | Owner::Follower { .. } => false,
    }
}

// It says so of some task.
fn is_on_clock(owner: Owner) -> bool
    ensures { result ≡ is_on_clock owner }
{
    match owner {
        Owner::Clocked { .. } => true,
        Owner::Task { .. } | Owner::Interrupt { .. } | Owner::Follower { .. } => false,
    }
}

/// Whether the task of an index arrives on a clock.
pub fn is_clocked(owners: &[Owner], task: usize) -> bool
    ensures { result ≡ is_clocked owners.now task }
{
    owners.iter().any(|owner| puts_on_clock(*owner, task))
}

/// Whether any task does.
pub fn has_clock(owners: &[Owner]) -> bool
    ensures { result ≡ has_clock owners.now }
{
    owners.iter().any(|owner| is_on_clock(*owner))
}
