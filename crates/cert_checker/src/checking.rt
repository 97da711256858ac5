//! The whole check.
ghost use Rattle.std.specs.Prelude.{◌≡◌, ◌↔◌, IfOk, IfErr, IsOk, MatchResult};
ghost use Rattle.task_sheet.specs.Orders.{IsBest, IsFeasible};
ghost use Rattle.cert_checker.specs.Ready.{may_serve, IsReady};
ghost use Rattle.cert_checker.specs.Answers.{kind_of, order_in};
ghost use Rattle.certificate.specs.CertificateOf.{shows_chains};
ghost use Rattle.cert_checker.specs.CertificateFaults.{order_fault, best_fault, set_fault, body_fault, check_fault};
ghost use Rattle.certificate.specs.BodyOf.{body_of};

use crate::ages::chains_fault;
use crate::fault::CheckFault;
use crate::levels::{LevelCheck, levels_fault};
use crate::naming::{is_order, tasks_of};
use crate::refuting::bad_fail;
use certificate::{
    CertBody, CertChain, CertFail, CertLevel, CertVersion, Certificate, version_for,
};
use chain_tables::Chain;
use task_sheet::TaskSet;

/// What a certificate shows.
#[derive(Clone, Copy, Debug, PartialEq, Eq)]
pub enum Checked {
    /// Its order is the best of all that pass.
    Best,
    /// No order passes.
    NoOrder,
}

// The first fault of a `best` certificate.
fn order_fault(set: &TaskSet, levels: &[CertLevel]) -> Option<CheckFault>
    ensures { result ≡ order_fault set.now levels.now }
{
    if !is_order(set, levels) {
        return Some(CheckFault::WrongTasks { level: 0 });
    }
    if let Some(fault) = levels_fault(set, LevelCheck::Tasks, levels) {
        return Some(fault);
    }
    if let Some(fault) = levels_fault(set, LevelCheck::Pass, levels) {
        return Some(fault);
    }
    if let Some(fault) = levels_fault(set, LevelCheck::Chains, levels) {
        return Some(fault);
    }
    levels_fault(set, LevelCheck::Missing, levels)
}

// The first fault of a `none` certificate.
fn set_fault(set: &TaskSet, members: &[CertFail]) -> Option<CheckFault>
    ensures { result ≡ set_fault set.now members.now }
{
    let Some(tasks) = tasks_of(set, members) else {
        return Some(CheckFault::WrongTasks { level: 0 });
    };
    if let Some(fault) = bad_fail(set, 0, tasks, members) {
        return Some(fault);
    }
    if members.is_empty() {
        return Some(CheckFault::EmptySet);
    }
    None
}

// Whether a certificate of a version may speak of a set that needs one.
fn may_serve(version: CertVersion, needed: CertVersion) -> bool
    ensures { result ≡ may_serve version needed }
{
    match (version, needed) {
        (CertVersion::First, CertVersion::First) => true,
        (CertVersion::Second, CertVersion::First | CertVersion::Second) => true,
        (CertVersion::Fourth, CertVersion::Fourth) => true,
        (CertVersion::Fifth, CertVersion::Fifth) => true,
        _ => false,
    }
}

// The first fault of a `best` certificate, with what it says of chains.
fn best_fault(
    set: &TaskSet,
    chains: &[Chain],
    levels: &[CertLevel],
    said: &[CertChain],
) -> Option<CheckFault>
    ensures { result ≡ best_fault set.now chains.now levels.now said.now }
{
    if let Some(fault) = order_fault(set, levels) {
        return Some(fault);
    }
    chains_fault(set, levels, chains, said)
}

// Whether a certificate shows the chains of a set: that of a best order does, if there are some.
fn shows_chains(body: &CertBody, chains: &[Chain]) -> bool
    ensures { result ≡ shows_chains (body_of body.now) chains.now }
{
    match body {
        CertBody::Best(_) => !chains.is_empty(),
        CertBody::NoOrder(_) => false,
    }
}

// What a body shows with what is said of chains, or its first fault.
fn shown(
    set: &TaskSet,
    chains: &[Chain],
    body: &CertBody,
    said: &[CertChain],
) -> Result<Checked, CheckFault>
    ensures { MatchResult result
        (λ kind. (body_fault set.now chains.now (body_of body.now) said.now ≡ None)
        × (kind ≡ kind_of (body_of body.now)))
        (λ fault. body_fault set.now chains.now (body_of body.now) said.now ≡ Some fault) }
{
    match body {
        CertBody::Best(levels) => match best_fault(set, chains, levels, said) {
            None => Ok(Checked::Best),
            Some(fault) => Err(fault),
        },
        CertBody::NoOrder(members) => match set_fault(set, members) {
            None => Ok(Checked::NoOrder),
            Some(fault) => Err(fault),
        },
    }
}

// What the certificate shows, or its first fault.
fn judged(set: &TaskSet, chains: &[Chain], certificate: &Certificate) -> Result<Checked, CheckFault>
    ensures { MatchResult result
        (λ kind. (check_fault set.now chains.now certificate.now ≡ None)
        × (kind ≡ kind_of certificate.now.body))
        (λ fault. check_fault set.now chains.now certificate.now ≡ Some fault) }
{
    let body = certificate.body();
    let needed = version_for(shows_chains(body, chains), set);
    if !may_serve(certificate.version(), needed) {
        return Err(CheckFault::WrongVersion);
    }
    shown(set, chains, body, certificate.chains())
}

/// Checks a certificate against a set and its chains, whoever wrote it: by the numbers alone, in the
/// order of the faults, each over the whole certificate before the next. It takes no memory.
pub fn check(
    set: &TaskSet,
    chains: &[Chain],
    certificate: &Certificate,
) -> Result<Checked, CheckFault>
    ensures ready { IsOk result ↔ IsReady set.now chains.now certificate.now }
    ensures kind { IfOk result (λ kind. kind ≡ kind_of certificate.now.body) }
    ensures fault { IfErr result (λ fault. check_fault set.now chains.now certificate.now ≡ Some fault) }
    ensures best { result ≡ Ok Checked.Best
        → IsBest set.now (order_in set.now certificate.now.body) }
    ensures no_order { result ≡ Ok Checked.NoOrder → ¬ IsFeasible set.now }
{
    // Its contract says that the set is one of at most 32 valid sheets.
    let _sheets = set.sheets();
    judged(set, chains, certificate)
}
