//! The commands of `desk` for programs in C: bytes in, room for bytes out. include/desk.h says how to call them.
#![tactic(auto)]

mod asked;
mod exports;
mod hand_out;
mod tell;
