//! The lines of a release list.
ghost use Rattle.std.specs.Prelude.{◌≡◌, ◌++◌, OnOk, IfOk, codes, string_bytes};
ghost use Rattle.release_list.specs.Text.{late_words, runs_words, list_lines, release_line, release_lines};

use ceiling_kernel::Release;
use std::alloc::{AllocError, Global};

// How late a release is, where it is late.
fn push_late(text: &mut String, late: u64) -> Result<(), AllocError>
    ensures { OnOk result (string_bytes text.new ≡ string_bytes text.old ++ late_words late) }
{
    if late == 0 {
        return Ok(());
    }
    write!(text, " {late}")
}

// For how long its job executes, where it says so, and the end of the line.
fn push_runs(text: &mut String, runs: Option<u64>) -> Result<(), AllocError>
    ensures { OnOk result
        (string_bytes text.new ≡ string_bytes text.old ++ runs_words runs ++ codes "\n") }
{
    match runs {
        Some(runs) => writeln!(text, " runs {runs}"),
        None => text.push_str("\n"),
    }
}

// The line of a release.
fn push_release(text: &mut String, release: Release) -> Result<(), AllocError>
    ensures { OnOk result (string_bytes text.new ≡ string_bytes text.old ++ release_line release) }
{
    let time = release.time;
    let name = release.name;
    write!(text, "{time} {name}")?;
    push_late(text, release.late)?;
    push_runs(text, release.runs)
}

// A line for each release.
fn push_releases(text: &mut String, releases: &[Release]) -> Result<(), AllocError>
    ensures { OnOk result (string_bytes text.new ≡ string_bytes text.old
        ++ release_lines releases.now) }
{
    for release in releases {
        push_release(text, *release)?;
    }
    Ok(())
}

/// The lines that say a release list: when the run ends, and each release with how late it is where that isn't 0,
/// and for how long it executes where it says so; in microseconds. The error is out of memory.
pub fn list_text(alloc: Global, until: u64, releases: &[Release]) -> Result<String, AllocError>
    ensures { IfOk result (λ text. string_bytes text ≡ list_lines until releases.now) }
{
    let mut text = format!(in alloc; "until {until}\n")?;
    push_releases(&mut text, releases)?;
    Ok(text)
}
