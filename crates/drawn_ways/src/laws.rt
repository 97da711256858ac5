//! The law of a way. It is the contract of a function that does nothing.
ghost use Rattle.drawn_ways.specs.WayLaws.{PathsAreRead};

/// The jobs that are found of the path of what stands at a time of a run are the chains': each is the newest of its task when
/// the next one starts, and begins and finishes when that job does.
pub fn paths_are_read()
    ensures { PathsAreRead }
{}
