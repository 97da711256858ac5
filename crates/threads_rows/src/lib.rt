//! What no command line shows of several threads: gates that hold or shut questions, claims by hand, crews, and a locked
//! book on which two teams commit.
#![tactic(auto)]

#[cfg(test)]
mod assays;
#[cfg(test)]
mod claims;
#[cfg(test)]
mod closing;
#[cfg(test)]
mod commits;
#[cfg(test)]
mod desks;
#[cfg(test)]
mod gates;
#[cfg(test)]
mod overtaking;
#[cfg(test)]
mod sets;
#[cfg(test)]
mod settling;
#[cfg(test)]
mod workers;
