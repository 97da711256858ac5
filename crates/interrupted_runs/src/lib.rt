//! The bound holds in runs in which timers and interrupts take of the processor.
#![tactic(auto)]

pub mod laws;
