//! Who says by what a set is preferred.
ghost use Rattle.std.specs.Prelude.{◌≡◌};
ghost use Rattle.preferences.specs.ReadsPreferred.{chosen};

use task_sheet::Preference;

/// Who says by what a set is preferred: the call; where it says nothing, the set; else nobody.
#[derive(Clone, Copy, Debug, PartialEq, Eq)]
pub struct Choice {
    /// What the call prefers, where it says so.
    pub call: Option<Preference>,
    /// What the set itself prefers, where its text says so.
    pub own: Option<Preference>,
}

impl Choice {
    /// The preference: that of the call, else that of the set, else by weights.
    pub fn preference(self) -> Preference
        ensures { result ≡ chosen self.call self.own }
    {
        self.call.or(self.own).unwrap_or(Preference::Weights)
    }
}
