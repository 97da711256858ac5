//! Laws of playing. Each is the clause of a function that does nothing, and its names are defined in `specs/`.

ghost use Rattle.std.specs.Prelude.{ℕ, List};
ghost use Rattle.drafts.specs.Books.{IsLegalBook};
ghost use Rattle.desk_core.specs.World.{World, start};
ghost use Rattle.desk_core.specs.declared.events.Event.{Event};
ghost use Rattle.scripts.specs.declared.line.Line.{Line};
ghost use Rattle.plays.specs.Plays.{ArePlayed, AreEvents, IsLedBy};

/// Lines that are played are a run of their events, so from an empty desk on they lead to a legal book.
pub fn played_lines_are_runs()
    ensures run { (w v : World) (lines : List Line) (text : List ℕ) → ArePlayed w lines v text
        → (events : List Event) × AreEvents lines events × IsLedBy w events v }
    ensures legal { (v : World) (lines : List Line) (text : List ℕ) → ArePlayed start lines v text
        → IsLegalBook v.book }
{}
