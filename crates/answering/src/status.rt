//! Exit statuses.
ghost use Rattle.std.specs.Prelude.{◌≡◌};
ghost use Rattle.answering.specs.Statuses.{code_of, placing_status};

use assignment::Placing;

/// How a command ended.
#[derive(Clone, Copy, Debug, PartialEq, Eq)]
pub enum Status {
    /// It did what was asked, or printed help.
    Done,
    /// The words of the command line were refused.
    BadArguments,
    /// No order of the set passes, or the one that was given doesn't, or a chain in it misses its limit.
    Infeasible,
    /// An input was refused.
    BadInput,
    /// A certificate was refused, by its reading or by its check.
    BadCertificate,
    /// Memory ran out; or, of a rush, the system refused a thread, or the desk was at fault.
    OutOfMemory,
    /// A file was not opened, or a read or a write failed.
    InputOrOutputFailed,
}

impl Status {
    /// The number that the process ends with.
    pub fn code(self) -> u8
        ensures { result ≡ code_of self }
    {
        match self {
            Status::Done => 0,
            Status::BadArguments => 2,
            Status::Infeasible => 3,
            Status::BadInput => 4,
            Status::BadCertificate => 5,
            Status::OutOfMemory => 6,
            Status::InputOrOutputFailed => 7,
        }
    }
}

/// The exit status of what becomes of a set.
pub fn placing_status(placing: &Placing) -> Status
    ensures { result ≡ placing_status placing.now }
{
    match placing {
        Placing::Best(_) => Status::Done,
        Placing::Stuck(_) => Status::Infeasible,
    }
}
