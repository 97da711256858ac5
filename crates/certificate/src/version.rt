//! The versions of certificates.
ghost use Rattle.std.specs.Prelude.{◌≡◌};
ghost use Rattle.std.specs.List.{list_any};
ghost use Rattle.task_sheet.specs.Sheet.{outranks_task};
ghost use Rattle.task_sheet.specs.Demand.{has_interrupts};
ghost use Rattle.certificate.specs.Versions.{some_bound, has_jitter, version_for};

use task_sheet::{Sheet, TaskSet};

/// The version of a certificate.
#[derive(Clone, Copy, Debug, PartialEq, Eq)]
pub enum CertVersion {
    /// For sets without timers and interrupts, of which no task has jitter or must stand above another one: a task
    /// fails by numbers alone.
    First,
    /// For sets without timers and interrupts: a task may also fail since it must stand above another one.
    Second,
    /// For sets with timers or interrupts: what these take of a window is in its numbers.
    Fourth,
    /// For best orders of sets with chains, whatever else these have.
    Fifth,
}

// Whether a task must stand above one of these.
fn outranks_one(sheet: &Sheet, others: &[Sheet]) -> bool
    ensures { result ≡ list_any (outranks_task sheet.now) others.now }
{
    others.iter().any(|other| sheet.must_outrank(other))
}

// Whether some task of the set must stand above another one of it.
#[tactic(auto, unfolding(crate::specs::Versions::some_bound))]
fn some_bound(set: &TaskSet) -> bool
    ensures { result ≡ some_bound set.now }
{
    let sheets = set.sheets();
    sheets.iter().any(|sheet| outranks_one(sheet, sheets))
}

// Whether some task has jitter.
fn has_jitter(set: &TaskSet) -> bool
    ensures { result ≡ has_jitter set.now }
{
    set.sheets().iter().any(|sheet| sheet.jitter() > 0)
}

// Whether some task has a timer that takes time, or an interrupt on its account.
fn has_interrupts(set: &TaskSet) -> bool
    ensures { result ≡ has_interrupts set.now }
{
    set.sheets().iter().any(|sheet| sheet.interrupts_some())
}

/// The version that a set needs: the fifth where chains are shown; else the fourth where some task has a timer that takes
/// time, or an interrupt on its account; else the first where no task of it must stand above another one of it or has
/// jitter.
pub fn version_for(shows_chains: bool, set: &TaskSet) -> CertVersion
    ensures { result ≡ version_for shows_chains set.now }
{
    if shows_chains {
        CertVersion::Fifth
    } else if has_interrupts(set) {
        CertVersion::Fourth
    } else if some_bound(set) || has_jitter(set) {
        CertVersion::Second
    } else {
        CertVersion::First
    }
}
