//! Laws of the picture.
ghost use Rattle.picture.specs.Laws.{AreMissesShown, AreNamesPlain, AreRowsBeside, AreTicksDark, AreTonesFree, HasWidth, IsHeldBetween, IsTypeReadable};

/// The darker ticks of a slice are those that its job executes inside the section.
pub fn ticks_are_dark()
    ensures { AreTicksDark }
{}

/// After a tick the kernel lets a job hold a section's locks where that tick and the next are executed inside it; so a
/// tick is darker from the first one inside on, and the locks are held from the end of it.
pub fn held_between()
    ensures { IsHeldBetween }
{}

/// A deadline is shown as missed exactly where the job is done after it, or isn't done by an end that isn't before it.
pub fn misses_are_shown()
    ensures { AreMissesShown }
{}

/// A picture is as wide as its view says; where it says nothing, from 960 to 1,600 pixels, however long the run is.
pub fn widths_are_held()
    ensures { HasWidth }
{}

/// Names have no byte that a document would have to escape.
pub fn names_are_plain()
    ensures { AreNamesPlain }
{}

/// A name has the tone of one before it only where each tone is taken.
pub fn tones_are_free()
    ensures { AreTonesFree }
{}

/// On paper the least type is at least 6 points high, where no width is said.
pub fn type_is_readable()
    ensures { IsTypeReadable }
{}

/// Of two runs side by side the row of a task in the one stands right above its row in the other.
pub fn rows_are_beside()
    ensures { AreRowsBeside }
{}
