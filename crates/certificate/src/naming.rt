//! The certificate of a verdict.
ghost use Rattle.std.specs.Prelude.{◌≡◌, length, All, IfOk};
ghost use Rattle.assignment.specs.Outcomes.{reason_of};
ghost use Rattle.certificate.specs.ReasonOf as cert;
ghost use Rattle.assignment.specs.Verdict.{verdict_set, verdict_of};
ghost use Rattle.certificate.specs.BodyOf.{body_of};
ghost use Rattle.certificate.specs.CertificateOf.{reason_named, fail_named, fails_named, level_named, levels_named, body_named, IsKnownReason, IsKnownFail, IsKnownLevel};

use crate::body::CertBody;
use crate::value::{CertFail, CertLevel, CertReason};
use assignment::{Assignment, Failure, LevelRecord, Obstruction, Reason, Verdict};
use std::alloc::{AllocError, Global};
use task_sheet::TaskSet;

// A reason, with the name of the other task.
fn reason_named(alloc: Global, set: &TaskSet, reason: &Reason) -> Result<CertReason, AllocError>
    requires { IsKnownReason (length set.now) (reason_of reason.now) }
    ensures { IfOk result (λ r. cert.reason_seen r ≡ reason_named set.now (reason_of reason.now)) }
{
    match reason {
        Reason::Chain(numbers) => Ok(CertReason::Chain(Vec::from_slice(alloc, numbers)?)),
        Reason::Over(other) => Ok(CertReason::Over(set.sheets()[*other].name())),
    }
}

// A failure, with the names of its tasks.
fn fail_named(alloc: Global, set: &TaskSet, failure: &Failure) -> Result<CertFail, AllocError>
    requires { IsKnownFail (length set.now) failure.now }
    ensures { IfOk result (λ f. f ≡ fail_named set.now failure.now) }
{
    let sheets = set.sheets();
    let name = sheets[failure.task].name();
    let reason = reason_named(alloc, set, &failure.reason)?;
    Ok(CertFail { name, reason })
}

// Failures, with the names of their tasks.
fn fails_named(
    alloc: Global,
    set: &TaskSet,
    failures: &[Failure],
) -> Result<Vec<CertFail>, AllocError>
    requires { All (IsKnownFail (length set.now)) failures.now }
    ensures { IfOk result (λ v. v.items ≡ fails_named set.now failures.now) }
{
    let mut fails = Vec::new(alloc);
    for failure in failures {
        let fail = fail_named(alloc, set, failure)?;
        fails.push(fail)?;
    }
    Ok(fails)
}

// A level's numbers, with the names of its tasks: its time is the response past the task's jitter.
fn level_named(alloc: Global, set: &TaskSet, level: &LevelRecord) -> Result<CertLevel, AllocError>
    requires { IsKnownLevel set.now level.now }
    ensures { IfOk result (λ l. l ≡ level_named set.now level.now) }
{
    let sheets = set.sheets();
    let sheet = &sheets[level.task];
    let name = sheet.name();
    let t = level.response - sheet.jitter();
    let fails = fails_named(alloc, set, &level.fails)?;
    Ok(CertLevel { name, t, fails })
}

// The levels of the best order, with the names of their tasks.
fn best_named(alloc: Global, best: &Assignment) -> Result<Vec<CertLevel>, AllocError>
    ensures { IfOk result (λ v. v.items ≡ levels_named best.now.set best.now.levels) }
{
    let set = best.set();
    // Its contract says that the set is one of at most 32 valid sheets.
    let _sheets = set.sheets();
    let mut named = Vec::new(alloc);
    for level in best.levels() {
        let level = level_named(alloc, set, level)?;
        named.push(level)?;
    }
    Ok(named)
}

// The members of the greatest obstruction, with the names of their tasks.
fn stuck_named(alloc: Global, stuck: &Obstruction) -> Result<Vec<CertFail>, AllocError>
    ensures { IfOk result (λ v. v.items ≡ fails_named stuck.now.set stuck.now.members) }
{
    let set = stuck.set();
    // Its contract says that the set is one of at most 32 valid sheets.
    let _sheets = set.sheets();
    fails_named(alloc, set, stuck.members())
}

/// What the certificate of a verdict says.
pub fn body_of(alloc: Global, verdict: &Verdict) -> Result<CertBody, AllocError>
    ensures { IfOk result (λ body. body_of body
        ≡ body_named (verdict_set verdict.now) (verdict_of verdict.now)) }
{
    match verdict {
        Verdict::Admitted(best) => Ok(CertBody::Best(best_named(alloc, best)?)),
        Verdict::Infeasible(stuck) => Ok(CertBody::NoOrder(stuck_named(alloc, stuck)?)),
    }
}
