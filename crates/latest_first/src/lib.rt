//! One order decides: an order with the longest limits lowest passes exactly where some order does, and bears whatever some
//! order bears (Leung, Whitehead 1982; with blocking Bletsas, Audsley 2006; with jitter Zuhily, Burns 2007).
#![tactic(auto)]

pub mod laws;
