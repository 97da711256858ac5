//! The simulated kernel: one processor, SCHED_FIFO lists and PTHREAD_PRIO_PROTECT mutexes, in ticks of one microsecond.
#![tactic(auto)]

mod accept;
mod build;
mod kernel;
pub mod laws;
mod levels;
mod lists;
mod orders;
mod run;
mod tasks;
mod trace;
mod turns;

pub use accept::{HORIZON, RELEASE_LIMIT};
pub use kernel::{Kernel, KernelFault};
pub use orders::above;
pub use trace::{JobRecord, Release, RunFault, Slice, Trace};
