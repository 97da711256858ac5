//! Reading a release list: the line `until N`, and then for each release a line `TIME NAME` or `TIME NAME LATE`, perhaps
//! with `runs N` behind it.
ghost use Rattle.std.specs.Prelude.{◌≡◌, Ok, MatchResult};
ghost use Rattle.lines.specs.Words.{words};
ghost use Rattle.release_list.specs.Reading.{IsTextFault, list_at, rest_in, runs_in, until_in};
ghost use Rattle.release_list.specs.declared.reading.TextFault.TheVariants.{OutOfMemory};

use ceiling_kernel::Release;
use lines::{LineRow, TextPlace, Words, name_of, next_kept, number_of, read_lines};
use std::alloc::{AllocError, Global};

/// Why a text is no release list, or out of memory. Lines are counted from 1.
#[derive(Clone, Copy, Debug)]
pub enum TextFault {
    /// The line is not one that may stand there; one past the last where the line `until N` is missing.
    BadLine { line: u64 },
    /// An allocation was refused.
    OutOfMemory,
}

impl From<AllocError> for TextFault {
    ghost from_gives = { λ _ fault. fault ≡ OutOfMemory };

    fn from(_e: AllocError) -> TextFault {
        TextFault::OutOfMemory
    }
}

// The number of a line `until N`.
fn until_of(line: &[u8]) -> Option<u64>
    ensures { result ≡ until_in (words line.now) }
{
    let mut words = Words::of(line);
    let word = words.next()?;
    let number = words.next()?;
    match words.next() {
        Some(_more) => None,
        None if word == b"until".as_slice() => number_of(number),
        None => None,
    }
}

// For how long a job executes, by the words `runs N`.
fn runs_of(word: &[u8], number: &[u8]) -> Option<u64>
    ensures { result ≡ runs_in word.now number.now }
{
    if word == b"runs".as_slice() {
        number_of(number)
    } else {
        None
    }
}

// How late a release is, and for how long its job executes, by the words behind its name: `LATE`, `runs N`, both or none.
fn rest_of(words: &mut Words<'_>) -> Option<(u64, Option<u64>)>
    ensures { result ≡ rest_in words.old }
{
    let Some(first) = words.next() else {
        return Some((0, None));
    };
    let Some(second) = words.next() else {
        return Some((number_of(first)?, None));
    };
    let Some(third) = words.next() else {
        return Some((0, Some(runs_of(first, second)?)));
    };
    match words.next() {
        Some(_more) => None,
        None => Some((number_of(first)?, Some(runs_of(second, third)?))),
    }
}

// A line of a release: `TIME NAME` or `TIME NAME LATE`, perhaps with `runs N` behind it.
struct ReleaseLine;

impl LineRow for ReleaseLine {
    type Row = Release;

    ghost use Rattle.release_list.specs.Reading.{release_in};

    ghost row_in = { λ line. release_in };

    fn read(_line: u64, text: &[u8]) -> Option<Release> {
        let mut words = Words::of(text);
        let time = number_of(words.next()?)?;
        let name = name_of(words.next()?)?;
        let (late, runs) = rest_of(&mut words)?;
        Some(Release {
            time,
            name,
            late,
            runs,
        })
    }
}

/// Reads a release list: the time at which the run ends, and the releases, in microseconds. Empty lines and lines that begin
/// with `#` are skipped and counted; the last line may lack its LF.
pub fn read_releases(alloc: Global, at: TextPlace<'_>) -> Result<(u64, Vec<Release>), TextFault>
    ensures { MatchResult result
        (λ list. list_at at.entry.line at.entry.rest.now ≡ Ok (list.0, list.1.items))
        (λ fault. IsTextFault fault (list_at at.entry.line at.entry.rest.now)) }
{
    let (line, after) = match next_kept(at) {
        Ok(found) => found,
        Err(past) => return Err(TextFault::BadLine { line: past }),
    };
    let Some(until) = until_of(line.text) else {
        return Err(TextFault::BadLine { line: line.number });
    };
    match read_lines::<ReleaseLine>(alloc, after)? {
        Ok(releases) => Ok((until, releases)),
        Err(line) => Err(TextFault::BadLine { line }),
    }
}
