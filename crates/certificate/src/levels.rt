//! Reading levels.
ghost use Rattle.std.specs.Prelude.{◌≡◌, ◌≤◌, IfOk};
ghost use Rattle.task_sheet.specs.declared.set.TheConstants.{TASK_LIMIT};
ghost use Rattle.lines.specs.Words.{words};
ghost use Rattle.certificate.specs.CertificateLines.{Gives, at_place, level_in, level_head, fails_from, level_read, levels_at};

use crate::fault::CertFault;
use crate::reading::{Reader, is_word, next_line};
use crate::value::{CertFail, CertLevel};
use lines::{TextPlace, complete_line, cut, number_of};
use std::alloc::AllocError;
use task_sheet::Name;

// The name and the time of level `k`, where the number is `k` and the name is one.
fn level_of(k: u64, name: &[u8], number: Option<u64>, time: Option<u64>) -> Option<(Name, u64)>
    ensures { result ≡ level_head k name.now number time }
{
    match (number, time) {
        (Some(number), Some(time)) if number == k => match Name::read(name) {
            Ok(name) => Some((name, time)),
            Err(_) => None,
        },
        _ => None,
    }
}

// The name and the time of a line of level `k`.
fn level_in(k: u64, line: &[u8]) -> Option<(Name, u64)>
    ensures { result ≡ level_in k (words line.now) }
{
    let (word, rest) = cut(line, b' ')?;
    let (number, rest) = cut(rest, b' ')?;
    let (name, rest) = cut(rest, b' ')?;
    match cut(rest, b' ') {
        Some((_time, _more)) => None,
        None if is_word(word, b"level") => level_of(k, name, number_of(number), number_of(rest)),
        None => None,
    }
}

impl Reader {
    // The failures of the lines `fails` that come next.
    fn fails(self, at: &mut TextPlace<'_>) -> Result<Vec<CertFail>, AllocError>
        ensures { IfOk result (λ fails. (fails.items, at_place at.new)
            ≡ fails_from self.version (at_place at.old).parts at.old.line) }
    {
        let mut fails = Vec::new(self.alloc);
        loop {
            let Some((line, after)) = complete_line(*at) else {
                return Ok(fails);
            };
            let Some(fail) = self.fail_of(b"fails", line)? else {
                return Ok(fails);
            };
            fails.push(fail)?;
            *at = after;
        }
    }

    // The next lines as level `k` with its failures.
    #[tactic(auto, unfolding(crate::specs::CertificateLines::level_read))]
    fn level(self, k: u64, at: &mut TextPlace<'_>) -> Result<CertLevel, CertFault>
        ensures { Gives (λ level. (level, at_place at.new)) result
            (level_read self.version k (at_place at.old)) }
    {
        let number = at.line;
        let line = next_line(at)?;
        let Some((name, t)) = level_in(k, line) else {
            return Err(CertFault::BadLine { line: number });
        };
        let fails = self.fails(at)?;
        Ok(CertLevel { name, t, fails })
    }

    /// The next lines as `count` levels.
    pub fn levels(self, count: u64, at: &mut TextPlace<'_>) -> Result<Vec<CertLevel>, CertFault>
        requires { count ≤ TASK_LIMIT }
        ensures { Gives (λ levels. (levels.items, at_place at.new)) result
            (levels_at self.version count (at_place at.old)) }
    {
        let mut levels = Vec::new(self.alloc);
        for i in 0..count {
            let level = self.level(i + 1, at)?;
            levels.push(level)?;
        }
        Ok(levels)
    }
}
