//! Certificates: what they say, and their one spelling.
#![tactic(auto)]

mod body;
mod certificate;
mod fault;
pub mod laws;
mod levels;
mod naming;
mod reading;
mod value;
mod version;
mod words;
mod writing;

pub use body::CertBody;
pub use certificate::{Certificate, read};
pub use fault::CertFault;
pub use value::{CertChain, CertFail, CertLevel, CertReason};
pub use version::{CertVersion, version_for};
