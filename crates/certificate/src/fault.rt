//! Why a certificate could not be read.
ghost use Rattle.std.specs.Prelude.{◌≡◌};
ghost use Rattle.certificate.specs.declared.fault.CertFault.TheVariants.{OutOfMemory};

use std::alloc::{AllocError, AllocFailed};
use thiserror::Error;

/// The fault that the bytes show first, or out of memory. Lines are counted from 1.
#[derive(Clone, Copy, Debug, PartialEq, Eq, Error)]
pub enum CertFault {
    /// The first complete line is not `desk-certificate` and a version, 1, 2, 4 or 5.
    #[error("the first line is no certificate's")]
    BadHead,
    /// A later complete line is not one that may stand at its place.
    #[error("line {line} may not stand there")]
    BadLine { line: u64 },
    /// The complete lines end before the line `end`.
    #[error("the line `end` is missing")]
    Truncated,
    /// Something follows the line `end`.
    #[error("something follows the line `end`")]
    Trailing,
    /// An allocation was refused.
    #[error("out of memory")]
    OutOfMemory,
}

impl From<AllocError> for CertFault {
    ghost from_gives = { λ _ e. e ≡ OutOfMemory };

    fn from(_e: AllocError) -> CertFault {
        CertFault::OutOfMemory
    }
}

impl<T: Drop> From<AllocFailed<T>> for CertFault {
    ghost from_gives = { λ _ e. e ≡ OutOfMemory };

    fn from(_e: AllocFailed<T>) -> CertFault {
        CertFault::OutOfMemory
    }
}
