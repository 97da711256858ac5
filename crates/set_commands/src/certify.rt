//! `desk certify`.
ghost use Rattle.std.specs.Prelude.{◌≡◌, All, IfOk, unwrap_or};
ghost use Rattle.task_sheet.specs.Verdicts.{Admitted};
ghost use Rattle.assignment.specs.Verdict.{verdict_of, verdict_set};
ghost use Rattle.certificate.specs.Body.{IsChainText, IsShort};
ghost use Rattle.certificate.specs.CertificateOf.{certificate_of};
ghost use Rattle.certificate.specs.Spelling.{spelling};
ghost use Rattle.cert_checker.specs.Numbers.{IsChainOf, level_at, numbered, numbers_of};
ghost use Rattle.chains.specs.Parts.{bound_in};
ghost use Rattle.set_commands.specs.Certify.{Certifies, certified_status, levels_in};
ghost use Rattle.std.specs.Io.KnownBytes.{Appends};
ghost use Rattle.answering.specs.Outcomes.{IsPrintedOn, IsRead, IsSaidOn, failed_read};

use answering::{Audience, CommandRefusal, Status, read_owned};
use assignment::{Assignment, LevelRecord, Verdict, assign};
use certificate::{CertBody, CertChain, Certificate};
use chain_tables::Chain;
use chains::{Level, bound_of};
use preferences::Asking;
use std::alloc::{AllocError, Global};
use std::io::{Read, Write};
use std::sync::Arc;
use streams::Watched;
use task_sheet::TaskSet;

// A level's task with its response.
fn level_at(level: &LevelRecord) -> Level
    ensures { result ≡ level_at level.now }
{
    Level {
        task: level.task,
        response: Some(level.response),
    }
}

// The same of all levels.
fn levels_in(alloc: Global, levels: &[LevelRecord]) -> Result<Vec<Level>, AllocError>
    ensures { IfOk result (λ all. all.items ≡ levels_in levels.now) }
{
    let mut all = Vec::with_capacity(alloc, levels.len())?;
    for level in levels {
        all.push(level_at(level))?;
    }
    Ok(all)
}

// A chain with its bound in an order whose levels have these responses.
fn numbered(
    alloc: Global,
    set: &TaskSet,
    levels: &[Level],
    chain: &Chain,
) -> Result<CertChain, AllocError>
    requires { IsShort (unwrap_or (bound_in chain.now.writes chain.now.offsets set.now levels.now chain.now.tasks) 0) }
    ensures { IfOk result (λ c. c ≡ numbered set.now levels.now chain.now) }
{
    let bound = bound_of(
        alloc,
        set,
        levels,
        chain.writes,
        &chain.offsets,
        &chain.tasks,
    )?;
    Ok(CertChain {
        name: chain.name,
        number: bound.unwrap_or(0) as u64,
    })
}

// Each chain with its bound in the best order.
fn best_numbers(
    alloc: Global,
    best: &Assignment,
    chains: &[Chain],
) -> Result<Vec<CertChain>, AllocError>
    requires { All (IsChainOf best.now.set) chains.now }
    ensures is { IfOk result (λ all. all.items ≡ numbers_of best.now.set chains.now (Admitted best.now.levels)) }
    ensures plain { IfOk result (λ all. All IsChainText all.items) }
{
    let set = best.set();
    // Its contract says that the set is one of at most 32 valid sheets.
    let _sheets = set.sheets();
    let levels = levels_in(alloc, best.levels())?;
    let mut all = Vec::with_capacity(alloc, chains.len())?;
    for chain in chains {
        all.push(numbered(alloc, set, &levels, chain)?)?;
    }
    Ok(all)
}

// Each chain with its bound in the order of a verdict; none where no order passes.
fn numbers_of(
    alloc: Global,
    verdict: &Verdict,
    chains: &[Chain],
) -> Result<Vec<CertChain>, AllocError>
    requires { All (IsChainOf (verdict_set verdict.now)) chains.now }
    ensures is { IfOk result (λ all. all.items
        ≡ numbers_of (verdict_set verdict.now) chains.now (verdict_of verdict.now)) }
    ensures plain { IfOk result (λ all. All IsChainText all.items) }
{
    match verdict {
        Verdict::Admitted(best) => best_numbers(alloc, best, chains),
        Verdict::Infeasible(_) => Ok(Vec::new(alloc)),
    }
}

// The certificate of a verdict on a set with these chains.
fn certificate_of(
    alloc: Global,
    verdict: &Verdict,
    chains: &[Chain],
) -> Result<Certificate, AllocError>
    requires { All (IsChainOf (verdict_set verdict.now)) chains.now }
    ensures { IfOk result (λ c. c ≡ certificate_of (verdict_set verdict.now) (verdict_of verdict.now)
        (numbers_of (verdict_set verdict.now) chains.now (verdict_of verdict.now))) }
{
    let numbers = numbers_of(alloc, verdict, chains)?;
    Certificate::of(alloc, verdict, &numbers)
}

/// The certificate of the verdict of the set that the reader has, with its chains, or why there is none.
pub fn certified<R: Read + Drop, P: Audience>(
    alloc: Global,
    asking: Asking,
    set: &mut Watched<R>,
    people: &mut P,
) -> Result<Certificate, CommandRefusal>
    ensures answer { Certifies asking (R.remaining set.old.inner) result }
    ensures read { IsRead failed_read set.old set.new result }
{
    let (tasks, _owners, chains) = read_owned(alloc, asking, set, people)?;
    let shared = Arc::new(alloc, tasks).map_err(AllocError::from)?;
    let verdict = assign(alloc, shared)?;
    people.read(verdict.set());
    let certificate = certificate_of(alloc, &verdict, &chains)?;
    Ok(certificate)
}

// The exit status of a certificate that was made.
fn status_of(certificate: &Certificate) -> Status
    ensures { result ≡ certified_status certificate.now }
{
    match certificate.body() {
        CertBody::Best(_) => Status::Done,
        CertBody::NoOrder(_) => Status::Infeasible,
    }
}

// Prints a certificate, and gives the status that belongs to it; where the writer fails, the status of that.
fn put_certificate<W: Write + Drop>(
    certificate: &Certificate,
    status: Status,
    output: &mut Watched<W>,
) -> Status
    ensures { IsPrintedOn W.contents output.old output.new (spelling certificate.now) status result }
{
    match certificate.write(output) {
        Ok(()) => status,
        Err(_) => Status::InputOrOutputFailed,
    }
}

/// Prints a certificate that was made, and gives its exit status.
pub fn print_certificate<W: Write + Drop>(
    certificate: &Certificate,
    output: &mut Watched<W>,
) -> Status
    ensures { IsSaidOn (λ before after s. Appends before after (spelling certificate.now)
        × (s ≡ certified_status certificate.now)) W.contents output.old output.new result }
{
    let status = status_of(certificate);
    put_certificate(certificate, status, output)
}
