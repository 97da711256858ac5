//! What is let pass of a trace.

/// What is let pass of a trace.
#[derive(Clone, Copy)]
pub struct Leeway {
    /// By how many microseconds a time may be past what is promised.
    pub tolerance: u64,
    /// Whether a task may have no job.
    pub jobless: bool,
}
