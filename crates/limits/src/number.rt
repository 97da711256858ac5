//! The numbers of a task.

/// A number of a task's sheet on which its set passes or not.
#[derive(Clone, Copy, Debug, PartialEq, Eq)]
pub enum Number {
    /// The cost.
    Cost,
    /// The period.
    Period,
    /// The deadline.
    Deadline,
    /// The jitter.
    Jitter,
    /// The length of the section at a place, from 0, with which so many of those behind it move along: they begin where the
    /// one before them ends.
    Len { place: usize, along: usize },
    /// What the interrupt on its account at a place, from 0, takes each time.
    InterruptCost(usize),
    /// The least time between two of these interrupts.
    InterruptPeriod(usize),
}
