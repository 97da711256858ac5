//! Reading line after line.
ghost use Rattle.std.specs.Prelude.{◌≡◌, ◌+◌, ◌<◌, ◌∷◌, [], length, MatchOption, IfSome};
ghost use Rattle.lines.specs.TextLines.{lines_of, parts};

use crate::cutting::cut;
use crate::place::TextPlace;

/// The next line that ends with LF, and the place behind it.
pub fn complete_line<'a>(at: TextPlace<'a>) -> Option<(&'a [u8], TextPlace<'a>)>
    ensures line { MatchOption result (parts at.entry.rest.now ≡ at.entry.rest.now ∷ [])
        (λ x. (parts at.entry.rest.now ≡ x.0.now ∷ parts x.1.rest.now)
        × (x.1.line ≡ at.entry.line + 1)) }
    ensures less { IfSome result (λ x. length x.1.rest.now < length at.entry.rest.now) }
{
    let (line, rest) = cut(at.rest, b'\n')?;
    Some((
        line,
        TextPlace {
            rest,
            line: at.line + 1,
        },
    ))
}

/// The next line, and the place behind it; the last line may lack its LF.
pub fn next_line<'a>(at: TextPlace<'a>) -> Option<(&'a [u8], TextPlace<'a>)>
    ensures line { MatchOption result (lines_of at.entry.rest.now ≡ [])
        (λ x. (lines_of at.entry.rest.now ≡ x.0.now ∷ lines_of x.1.rest.now)
        × (x.1.line ≡ at.entry.line + 1)) }
    ensures less { IfSome result (λ x. length x.1.rest.now < length at.entry.rest.now) }
{
    if at.rest.is_empty() {
        return None;
    }
    match complete_line(at) {
        Some((line, after)) => Some((line, after)),
        None => Some((
            at.rest,
            TextPlace {
                rest: &[],
                line: at.line + 1,
            },
        )),
    }
}
