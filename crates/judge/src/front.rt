//! Settings in front of another text.
ghost use Rattle.std.specs.Prelude.{◌≡◌, ◌+◌, Ok, length, MatchResult, IfOk};
ghost use Rattle.lines.specs.TextLines.{kept_from, lines_of};
ghost use Rattle.lines.specs.Words.{words};
ghost use Rattle.judge.specs.SettingFaults.{IsRowsFault};
ghost use Rattle.judge.specs.Front.{behind_front, front_of, is_setting};
ghost use Rattle.judge.specs.SettingLines.{rows_from};

use crate::fault::SettingsFault;
use crate::rows::SettingRow;
use lines::{LineRow, TextPlace, Words, next_kept};
use std::alloc::Global;

/// The settings in front of a text, and the place behind them.
#[derive(Drop)]
pub struct Front<'a> {
    pub rows: Vec<SettingRow>,
    pub behind: TextPlace<'a>,
}

// The first word of a line says that it sets a thread or a mutex.
fn is_setting(line: &[u8]) -> bool
    ensures { result ≡ is_setting (words line.now) }
{
    let mut words = Words::of(line);
    match words.next() {
        Some(word) => word == b"thread".as_slice() || word == b"mutex".as_slice(),
        None => false,
    }
}

/// Reads the lines that set threads and mutexes in front of the first kept line that sets neither; there may be none of them.
/// The lines count on behind them. Refused: `BadLine`.
pub fn read_front<'a>(alloc: Global, at: TextPlace<'a>) -> Result<Front<'a>, SettingsFault>
    ensures rows { MatchResult result
        (λ front. rows_from (front_of (kept_from at.entry.line (lines_of at.entry.rest.now)))
        ≡ Ok front.rows.items)
        (λ fault. IsRowsFault fault
        (rows_from (front_of (kept_from at.entry.line (lines_of at.entry.rest.now))))) }
    ensures behind { IfOk result (λ front.
        kept_from front.behind.line (lines_of front.behind.rest.now)
        ≡ behind_front (kept_from at.entry.line (lines_of at.entry.rest.now))) }
    ensures end { IfOk result (λ front.
        front.behind.line + length (lines_of front.behind.rest.now)
        ≡ at.entry.line + length (lines_of at.entry.rest.now)) }
{
    let mut at = at;
    let mut rows = Vec::new(alloc);
    while let Ok((line, after)) = next_kept(at) {
        if !is_setting(line.text) {
            break;
        }
        let Some(row) = SettingRow::read(line.number, line.text) else {
            return Err(SettingsFault::BadLine { line: line.number });
        };
        if rows.push(row).is_err() {
            return Err(SettingsFault::OutOfMemory);
        }
        at = after;
    }
    Ok(Front { rows, behind: at })
}
