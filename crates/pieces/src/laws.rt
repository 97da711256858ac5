//! Laws of pieces and bands. Each is the contract of a function that does nothing.
ghost use Rattle.pieces.specs.Laws.{CoverOnce, CountOnce};

/// The pieces of a job cover each tick from when it is ready up to its finish, or to the end of the run, once, and no other.
pub fn pieces_cover()
    ensures { CoverOnce }
{}

/// Each job stands in exactly one band, alone or with others: with the numbers of all bands each job is counted once.
pub fn each_job_is_counted()
    ensures { CountOnce }
{}
