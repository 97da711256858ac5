//! Laws of the run that a chain's bound describes. Each is the contract of a function that does nothing.
ghost use Rattle.chain_worst.specs.Laws.{AimsAreAtOffsets, AreOnClock, AreTasksSteady, ListsAreLegal};

/// A kernel of the set refuses no such list that isn't too long.
pub fn lists_are_legal()
    ensures { ListsAreLegal }
{}

/// Jobs of a chain's tasks arrive exactly a period apart, from the first period on; where their offsets are known, at these of a
/// clock that begins with the run.
pub fn tasks_are_steady()
    ensures steady { AreTasksSteady }
    ensures clock { AreOnClock }
    ensures offsets { AimsAreAtOffsets }
{}
