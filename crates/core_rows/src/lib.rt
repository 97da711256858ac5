//! What no command line shows of the analysis, of drafts and of the core: evaluations, findings in any order, the climb
//! by hand, verdicts and proposals from elsewhere, runs of events, and a kernel's wrong orders.
#![tactic(auto)]

#[cfg(test)]
mod climbs;
#[cfg(test)]
mod events;
#[cfg(test)]
mod findings;
#[cfg(test)]
mod proposals;
#[cfg(test)]
mod responses;
