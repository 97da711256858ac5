//! A law of the texts that are run: the contract of a function that does nothing.
ghost use Rattle.std.specs.Prelude.{◌≡◌, ℕ, List, [], Ok};
ghost use Rattle.ceiling_kernel.specs.declared.trace.Release.{Release};
ghost use Rattle.release_list.specs.Reading.{list_at};
ghost use Rattle.judge.specs.Front.{settings_in};
ghost use Rattle.two_input_commands.specs.Simulate.{list_in};

/// A text that is a release list has no settings in front: it is run as that list, in the set's best order.
pub fn lists_set_nothing()
    ensures settings { (text : List ℕ) (list : ℕ × List Release) → list_at 1 text ≡ Ok list
        → settings_in text ≡ Ok [] }
    ensures list { (text : List ℕ) (list : ℕ × List Release) → list_at 1 text ≡ Ok list
        → list_in text ≡ Ok list }
{}
