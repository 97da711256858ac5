//! What a kernel keeps of its tasks.
ghost use Rattle.std.specs.Prelude.{◌<◌};

/// A critical section: its locks are held once more than `at` ticks are executed and less than `stop`; `top` is the
/// highest of their ceilings.
#[derive(Drop)]
pub struct NodeSection {
    pub at: u64,
    pub stop: u64,
    pub top: u32,
    ghost runs: { at < stop },
}

impl NodeSection {
    ghost use Rattle.std.specs.Prelude.{◌≡◌};
    ghost use Rattle.ceiling_kernel.specs.NodeTasks.{is_within};

    // A job that has executed so many ticks is inside of the section, and holds its locks.
    pub(crate) fn is_within(&self, executed: u64) -> bool
        ensures { result ≡ is_within self.now executed }
    {
        self.at < executed && executed < self.stop
    }
}

/// A task at its level; times in microseconds.
#[derive(Drop)]
pub struct NodeTask {
    pub level: u32,
    pub cost: u64,
    pub sections: Vec<NodeSection>,
}
