//! Reading line after line.
ghost use Rattle.std.specs.Prelude.{◌≡◌, ◌<◌, ◌≤◌, IfOk, IfSome, length, bytes_eq};
ghost use Rattle.task_sheet.specs.declared.set.TheConstants.{TASK_LIMIT};
ghost use Rattle.lines.specs.Words.{words};
ghost use Rattle.certificate.specs.CertificateLines.{Gives, at_place, line_at, member_at, members_at, end_at, count_in, few};

use crate::fault::CertFault;
use crate::value::CertFail;
use crate::version::CertVersion;
use lines::{TextPlace, complete_line, cut, number_of};
use std::alloc::Global;
use task_sheet::TASK_LIMIT;

/// How lines are read: what allocates, and the version of the certificate whose lines they are.
#[derive(Clone, Copy)]
pub struct Reader {
    pub alloc: Global,
    pub version: CertVersion,
}

/// The next complete line, behind which the place is then; `Truncated` where there is none.
pub fn next_line<'a>(at: &mut TextPlace<'a>) -> Result<&'a [u8], CertFault>
    ensures line { Gives (λ line. (line.now, at_place at.new)) result (line_at (at_place at.old)) }
    ensures less { IfOk result (λ _. length at.new.rest.now < length at.old.rest.now) }
{
    let Some((line, after)) = complete_line(*at) else {
        return Err(CertFault::Truncated);
    };
    *at = after;
    Ok(line)
}

impl Reader {
    // The next line as a member.
    #[tactic(auto, unfolding(crate::specs::CertificateLines::member_at))]
    fn member(self, at: &mut TextPlace<'_>) -> Result<CertFail, CertFault>
        ensures { Gives (λ fail. (fail, at_place at.new)) result
            (member_at self.version (at_place at.old)) }
    {
        let number = at.line;
        let line = next_line(at)?;
        match self.fail_of(b"member", line)? {
            None => Err(CertFault::BadLine { line: number }),
            Some(fail) => Ok(fail),
        }
    }

    /// The next `count` lines as members.
    pub fn members(self, count: u64, at: &mut TextPlace<'_>) -> Result<Vec<CertFail>, CertFault>
        ensures { Gives (λ members. (members.items, at_place at.new)) result
            (members_at self.version count (at_place at.old)) }
    {
        let mut members = Vec::new(self.alloc);
        for _ in 0..count {
            let fail = self.member(at)?;
            members.push(fail)?;
        }
        Ok(members)
    }
}

/// The last line is next, and nothing follows it: else `Truncated`, `BadLine` or `Trailing`.
#[tactic(auto, using(crate::proofs::Loops::over_is), unfolding(crate::specs::CertificateLines::end_at))]
pub fn end(at: &mut TextPlace<'_>) -> Result<(), CertFault>
    ensures { Gives (λ x. x) result (end_at (at_place at.old)) }
{
    let number = at.line;
    let line = next_line(at)?;
    if line != b"end".as_slice() {
        return Err(CertFault::BadLine { line: number });
    }
    if !at.rest.is_empty() {
        return Err(CertFault::Trailing);
    }
    Ok(())
}

/// Whether the text is this word.
pub fn is_word(text: &[u8], word: &[u8]) -> bool
    ensures { result ≡ bytes_eq text.now word.now }
{
    text == word
}

// The number that a word is, where a set may have that many tasks.
fn few(text: &[u8]) -> Option<u64>
    ensures is { result ≡ few text.now }
    ensures small { IfSome result (λ n. n ≤ TASK_LIMIT) }
{
    match number_of(text) {
        Some(number) if number <= TASK_LIMIT as u64 => Some(number),
        _ => None,
    }
}

/// The number, at most `TASK_LIMIT`, of a line of this word and one number.
pub fn count_of(word: &[u8], line: &[u8]) -> Option<u64>
    ensures is { result ≡ count_in word.now (words line.now) }
    ensures small { IfSome result (λ n. n ≤ TASK_LIMIT) }
{
    let (first, rest) = cut(line, b' ')?;
    match cut(rest, b' ') {
        Some((_number, _more)) => None,
        None if is_word(first, word) => few(rest),
        None => None,
    }
}
