//! Cutting at a byte.
ghost use Rattle.std.specs.Prelude.{◌≡◌, ◌<◌, ◌==◌, ◌∷◌, [], length, MatchOption, IfSome};
ghost use Rattle.std.specs.List.{slice_split};

/// The bytes before the first such byte, and those after it; `None` where there is none.
pub fn cut(bytes: &[u8], byte: u8) -> Option<(&[u8], &[u8])>
    ensures parts { MatchOption result
        (slice_split (λ b. b == byte) bytes.now ≡ bytes.now ∷ [])
        (λ x. slice_split (λ b. b == byte) bytes.now
        ≡ x.0.now ∷ slice_split (λ b. b == byte) x.1.now) }
    ensures less { IfSome result (λ x. length x.1.now < length bytes.now) }
{
    for (i, b) in bytes.iter().enumerate() {
        if *b == byte {
            let (front, rest) = bytes.split_at(i);
            return Some((front, &rest[1..]));
        }
    }
    None
}
