//! Laws of lines and numbers. Each is the contract of a function that does nothing.
ghost use Rattle.std.specs.Prelude.{◌≡◌, ◌^◌, ◌<◌, ℕ, List, Some};
ghost use Rattle.std.specs.Fmt.{decimal};
ghost use Rattle.lines.specs.Words.{number_in};

/// A word is a number exactly where it is the number's decimal digits, and these are at most ten.
pub fn numbers_have_one_spelling()
    ensures taken { (word : List ℕ) (n : ℕ) → number_in word ≡ Some n
        → (word ≡ decimal n) × (n < 10 ^ 10) }
    ensures back { (n : ℕ) → n < 10 ^ 10 → number_in (decimal n) ≡ Some n }
{}
