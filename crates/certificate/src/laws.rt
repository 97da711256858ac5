//! Laws of the spelling. Each is the contract of a function that does nothing.
ghost use Rattle.std.specs.Prelude.{◌≡◌, ℕ, ◌++◌, ◌∷◌, [], List, Ok, Err};
ghost use Rattle.certificate.specs.Body.{Cert, HasSpelling};
ghost use Rattle.certificate.specs.Spelling.{spelling};
ghost use Rattle.certificate.specs.CertificateLines.{certificate_in};
ghost use Rattle.certificate.specs.declared.fault.CertFault.TheVariants.{Trailing};

/// No spelling is a proper prefix of another, and certificates with one spelling are equal.
pub fn no_spelling_is_a_prefix()
    ensures { (b c : Cert) (rest : List ℕ) → HasSpelling b → HasSpelling c
        → spelling c ≡ spelling b ++ rest
        → (rest ≡ []) × (b ≡ c) }
{}

/// A spelling reads back, and with anything behind it that is what trails.
pub fn spelling_is_read()
    ensures back { (b : Cert) → HasSpelling b → certificate_in (spelling b) ≡ Ok b }
    ensures trailing { (b : Cert) (x : ℕ) (rest : List ℕ) → HasSpelling b
        → certificate_in (spelling b ++ x ∷ rest) ≡ Err Trailing }
{}
