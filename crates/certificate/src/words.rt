//! The words of a line with a failure, or a chain.
ghost use Rattle.std.specs.Prelude.{◌≡◌, None, if◌then◌else◌, IfOk};
ghost use Rattle.task_sheet.specs.Name.{is_name};
ghost use Rattle.lines.specs.Words.{words};
ghost use Rattle.certificate.specs.Words.{numbers_in, over_in, later_in, reason_in, fail_in, chain_named, chain_in, chain_if, found, reason_told};

use crate::reading::{Reader, is_word};
use crate::value::{CertChain, CertFail, CertReason};
use crate::version::CertVersion;
use lines::{cut, number_of};
use std::alloc::{AllocError, Global};
use task_sheet::Name;

/// The numbers between spaces; `None` where a word is no number.
pub fn numbers_of(alloc: Global, text: &[u8]) -> Result<Option<Vec<u64>>, AllocError>
    ensures { IfOk result (λ o. found o ≡ numbers_in (words text.now)) }
{
    let mut numbers = Vec::new(alloc);
    let mut rest = text;
    while let Some((word, after)) = cut(rest, b' ') {
        match number_of(word) {
            None => return Ok(None),
            Some(number) => numbers.push(number)?,
        }
        rest = after;
    }
    match number_of(rest) {
        None => return Ok(None),
        Some(number) => numbers.push(number)?,
    }
    Ok(Some(numbers))
}

// The reason of the word `over` and a name.
fn over_of(text: &[u8]) -> Option<CertReason>
    ensures { reason_told result ≡ over_in (words text.now) }
{
    let (word, rest) = cut(text, b' ')?;
    match cut(rest, b' ') {
        Some((_name, _more)) => None,
        None if is_word(word, b"over") => match Name::read(rest) {
            Ok(other) => Some(CertReason::Over(other)),
            Err(_) => None,
        },
        None => None,
    }
}

// The reason that a later version than the first allows.
fn later_of(version: CertVersion, text: &[u8]) -> Option<CertReason>
    ensures { reason_told result ≡ later_in version (words text.now) }
{
    match version {
        CertVersion::First => None,
        CertVersion::Second | CertVersion::Fourth | CertVersion::Fifth => over_of(text),
    }
}

// The chain of a name and a number, where the one is a name and there is the other.
fn chain_named(name: &[u8], number: Option<u64>) -> Option<CertChain>
    ensures { result ≡ (if is_name name.now then chain_named name.now number else None) }
{
    match (Name::read(name), number) {
        (Ok(name), Some(number)) => Some(CertChain { name, number }),
        _ => None,
    }
}

// The chain of a line of the word `chain`, a name and a number.
fn chain_in(line: &[u8]) -> Option<CertChain>
    ensures { result ≡ chain_in (words line.now) }
{
    let (word, rest) = cut(line, b' ')?;
    let (name, rest) = cut(rest, b' ')?;
    match cut(rest, b' ') {
        Some((_number, _more)) => None,
        None if is_word(word, b"chain") => chain_named(name, number_of(rest)),
        None => None,
    }
}

/// The same, where chains may stand.
pub fn chain_if(may: bool, line: &[u8]) -> Option<CertChain>
    ensures { result ≡ chain_if may (words line.now) }
{
    if may { chain_in(line) } else { None }
}

impl Reader {
    // The reason that words are.
    #[tactic(auto, unfolding(crate::specs::Words::reason_in))]
    fn reason_of(self, text: &[u8]) -> Result<Option<CertReason>, AllocError>
        ensures { IfOk result (λ o. reason_told o ≡ reason_in self.version (words text.now)) }
    {
        match numbers_of(self.alloc, text)? {
            Some(numbers) => Ok(Some(CertReason::Chain(numbers))),
            None => Ok(later_of(self.version, text)),
        }
    }

    /// The failure of a line of this word, a name and a reason.
    pub fn fail_of(self, word: &[u8], line: &[u8]) -> Result<Option<CertFail>, AllocError>
        ensures { IfOk result (λ o. o ≡ fail_in self.version word.now (words line.now)) }
    {
        let Some((first, rest)) = cut(line, b' ') else {
            return Ok(None);
        };
        let Some((name, rest)) = cut(rest, b' ') else {
            return Ok(None);
        };
        if first != word {
            return Ok(None);
        }
        let Ok(name) = Name::read(name) else {
            return Ok(None);
        };
        match self.reason_of(rest)? {
            None => Ok(None),
            Some(reason) => Ok(Some(CertFail { name, reason })),
        }
    }
}
