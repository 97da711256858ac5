//! Reading the lines that are not skipped.
ghost use Rattle.std.specs.Prelude.{◌≡◌, ◌+◌, ◌<◌, ℕ, List, ◌∷◌, [], length, Option, Ok, Err, MatchResult, IfOk};
ghost use Rattle.lines.specs.TextLines.{is_skipped, kept_from, lines_of, rows_by};
ghost use Rattle.lines.specs.Words.{words};

use crate::next::next_line;
use crate::place::TextPlace;
use std::alloc::{AllocError, Global};

/// A line that is not skipped.
#[derive(Clone, Copy)]
pub struct KeptLine<'a> {
    /// Its place in the text, counted from 1, skipped lines too.
    pub number: u64,
    pub text: &'a [u8],
}

// An empty line, or one that begins with `#`.
fn is_skipped(line: &[u8]) -> bool
    ensures { result ≡ is_skipped line.now }
{
    match line.first() {
        None => true,
        Some(first) => *first == b'#',
    }
}

/// The next line that is neither empty nor begins with `#`, and the place behind it; where there is none, one more
/// than the number of the last line. The last line may lack its LF.
pub fn next_kept<'a>(at: TextPlace<'a>) -> Result<(KeptLine<'a>, TextPlace<'a>), u64>
    ensures line { MatchResult result
        (λ x. kept_from at.entry.line (lines_of at.entry.rest.now)
        ≡ (x.0.number, x.0.text.now) ∷ kept_from x.1.line (lines_of x.1.rest.now))
        (λ _. kept_from at.entry.line (lines_of at.entry.rest.now) ≡ []) }
    ensures end { MatchResult result
        (λ x. x.1.line + length (lines_of x.1.rest.now)
        ≡ at.entry.line + length (lines_of at.entry.rest.now))
        (λ past. past ≡ at.entry.line + length (lines_of at.entry.rest.now)) }
    ensures less { IfOk result (λ x. length x.1.rest.now < length at.entry.rest.now) }
{
    let mut at = at;
    while let Some((text, after)) = next_line(at) {
        if !is_skipped(text) {
            let number = at.line;
            return Ok((KeptLine { number, text }, after));
        }
        at = after;
    }
    Err(at.line)
}

/// A kind of line, which says something by itself.
pub trait LineRow {
    /// What a line says.
    type Row: Drop;

    ghost row_in: { ℕ → List (List ℕ) → Option Self.Row };

    /// What a line with this number says; `None` of a faulty line.
    fn read(number: u64, line: &[u8]) -> Option<Self::Row>
        ensures { result ≡ row_in number (words line.now) };
}

/// What each line says from a place on, or the number of the first faulty one. Empty lines and lines that begin with `#`
/// are skipped and counted; the last line may lack its LF. The error is out of memory.
pub fn read_lines<L: LineRow>(
    alloc: Global,
    at: TextPlace<'_>,
) -> Result<Result<Vec<L::Row>, u64>, AllocError>
    ensures { IfOk result (λ found.
        let read = rows_by L.row_in (kept_from at.entry.line (lines_of at.entry.rest.now)) in
        MatchResult found (λ rows. read ≡ Ok rows.items) (λ line. read ≡ Err line)) }
{
    let mut at = at;
    let mut rows = Vec::new(alloc);
    while let Ok((line, after)) = next_kept(at) {
        let Some(row) = L::read(line.number, line.text) else {
            return Ok(Err(line.number));
        };
        rows.push(row)?;
        at = after;
    }
    Ok(Ok(rows))
}
