//! Tasks of which a trace shows no job.
ghost use Rattle.std.specs.Prelude.{◌≡◌, ◌++◌, OnOk, string_bytes};
ghost use Rattle.observed_lines.specs.Jobless.{is_clean, is_jobless, jobless_line, jobless_lines, some_jobless};

use crate::breaks::is_kept;
use crate::leeway::Leeway;
use observed::{Promise, Seen};
use std::alloc::AllocError;

// The level has no job.
fn is_jobless(level: usize, seen: &[Seen]) -> bool
    ensures { result ≡ is_jobless level seen.now }
{
    for job in seen {
        if job.level == level {
            return false;
        }
    }
    true
}

// Some level has none.
fn some_jobless(promises: &[Promise], seen: &[Seen]) -> bool
    ensures { result ≡ some_jobless 0 promises.now seen.now }
{
    for (level, _promise) in promises.iter().enumerate() {
        if is_jobless(level, seen) {
            return true;
        }
    }
    false
}

// A line where the level has none.
fn push_jobless(
    text: &mut String,
    level: usize,
    promise: &Promise,
    seen: &[Seen],
) -> Result<(), AllocError>
    ensures { OnOk result (string_bytes text.new
        ≡ string_bytes text.old ++ jobless_line level promise.now seen.now) }
{
    let name = promise.name;
    if is_jobless(level, seen) {
        writeln!(text, "jobless {name}")
    } else {
        Ok(())
    }
}

// Such lines.
pub(crate) fn push_all_jobless(
    text: &mut String,
    promises: &[Promise],
    seen: &[Seen],
) -> Result<(), AllocError>
    ensures { OnOk result (string_bytes text.new
        ≡ string_bytes text.old ++ jobless_lines 0 promises.now seen.now) }
{
    for (level, promise) in promises.iter().enumerate() {
        push_jobless(text, level, promise, seen)?;
    }
    Ok(())
}

/// Whether each task has a job, or need not have one, and no job breaks a promise.
pub fn is_clean(leeway: Leeway, promises: &[Promise], seen: &[Seen]) -> bool
    ensures { result ≡ is_clean leeway promises.now seen.now }
{
    (leeway.jobless || !some_jobless(promises, seen)) && is_kept(leeway.tolerance, seen)
}
