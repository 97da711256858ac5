//! By what the tasks of a set are preferred for the lower levels, as a word.
ghost use Rattle.std.specs.Prelude.{◌≡◌};
ghost use Rattle.task_sheet.specs.Prefer.{preference_word, preference_of};

/// By what the tasks of a set are preferred for the lower levels.
#[derive(Clone, Copy, Debug, PartialEq, Eq)]
pub enum Preference {
    /// `weight`: by their weights, then by their names: the set as it is.
    Weights,
    /// `deadline`: by their limits, which are their deadlines less their jitter, the longest first, then by their names.
    Deadline,
    /// `chains`: tasks of no chain first, then each by how near it stands to the end of a chain, then by their limits, the
    /// longest first, and then by their names.
    Chains,
}

impl Preference {
    /// The preference as it is written in a document.
    pub fn word(self) -> &'static str
        ensures { result.now ≡ preference_word self }
    {
        match self {
            Preference::Weights => "weight",
            Preference::Deadline => "deadline",
            Preference::Chains => "chains",
        }
    }
}

/// The preference that a word says; none where it says none.
pub fn preference_of(word: &str) -> Option<Preference>
    ensures { result ≡ preference_of word.now }
{
    if Preference::Weights.word() == word {
        Some(Preference::Weights)
    } else if Preference::Deadline.word() == word {
        Some(Preference::Deadline)
    } else if Preference::Chains.word() == word {
        Some(Preference::Chains)
    } else {
        None
    }
}
