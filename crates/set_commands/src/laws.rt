//! The law of what explains a set: it is the contract of a function that does nothing.
ghost use Rattle.set_commands.specs.Explain.{AllIsWhole};

/// Where all is asked for, nothing is told in short.
pub fn all_is_whole()
    ensures { AllIsWhole }
{}
