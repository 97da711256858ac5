//! A law of who executed while a job waited: the contract of a function that does nothing.
ghost use Rattle.std.specs.Prelude.{◌≡◌, ℕ, ◌<◌, List, All, Contains, true};
ghost use Rattle.observed.specs.Culprits.{IsCulprit, are_sorted, culprit_at, culprits_below};
ghost use Rattle.observed.specs.Shares.{time_in};
ghost use Rattle.observed.specs.declared.pieces.Piece.{Piece};
ghost use Rattle.observed.specs.declared.promises.Promise.{Promise};
ghost use Rattle.observed.specs.declared.shares.Whom.TheVariants.{Level};

/// Those who are named to have executed below a level between two times did so, each with its whole time; each that did is
/// among them; and they stand by their times, the longest first, of equals the lowest.
pub fn culprits_are_exact()
    ensures named { (promises : List Promise) (from to : ℕ) (pieces : List Piece) (level : ℕ)
        → All (IsCulprit promises from to pieces level) (culprits_below promises from to pieces level) }
    ensures all { (promises : List Promise) (from to : ℕ) (pieces : List Piece) (level k : ℕ)
        → k < level → 0 < time_in (Level k) from to pieces
        → Contains (culprits_below promises from to pieces level) (culprit_at promises from to pieces k) }
    ensures order { (promises : List Promise) (from to : ℕ) (pieces : List Piece) (level : ℕ)
        → are_sorted (culprits_below promises from to pieces level) ≡ true }
{}
