//! `desk check`.
ghost use Rattle.std.specs.Prelude.{◌≡◌, ◌++◌, IfOk, OnOk, string_bytes};
ghost use Rattle.two_input_commands.specs.Check.{ChecksBoth, ChecksText, checked_lines, kind_line, said_lines};

use answering::{Answer, Both, CommandRefusal, Status};
use cert_checker::{Checked, check};
use certificate::{CertChain, Certificate, read};
use chain_lines::push_line;
use chain_tables::Chain;
use std::alloc::{AllocError, Global};
use task_sheet::TaskSet;

// What is printed of a certificate that shows what it says.
#[derive(Drop)]
pub(crate) struct Shown {
    text: String,
}

// The line that says what a certificate shows.
fn kind_line(checked: Checked) -> &'static str
    ensures { result.now ≡ kind_line checked }
{
    match checked {
        Checked::Best => "best\n",
        Checked::NoOrder => "no order\n",
    }
}

// A line for each chain, of what a certificate says of it.
fn push_said(text: &mut String, chains: &[Chain], said: &[CertChain]) -> Result<(), AllocError>
    ensures { OnOk result (string_bytes text.new ≡ string_bytes text.old ++ said_lines chains.now said.now) }
{
    let mut rest = said;
    for chain in chains {
        let Some((first, others)) = rest.split_first() else {
            return Ok(());
        };
        push_line(text, chain, Some(first.number as u128), None)?;
        rest = others;
    }
    Ok(())
}

// What is printed of an accepted certificate.
fn checked_text(
    alloc: Global,
    chains: &[Chain],
    certificate: &Certificate,
    checked: Checked,
) -> Result<String, AllocError>
    ensures { IfOk result (λ text. string_bytes text ≡ checked_lines chains.now certificate.now checked) }
{
    let mut text = String::new(alloc);
    text.push_str(kind_line(checked))?;
    push_said(&mut text, chains, certificate.chains())?;
    Ok(text)
}

// What is printed of what a certificate's text shows of a set with these chains.
fn check_text(
    alloc: Global,
    chains: &[Chain],
    tasks: &TaskSet,
    text: &[u8],
) -> Result<Shown, CommandRefusal>
    ensures { ChecksText chains.now tasks.now text.now result }
{
    let certificate = read(alloc, text).map_err(CommandRefusal::Certificate)?;
    let checked = check(tasks, chains, &certificate).map_err(CommandRefusal::Check)?;
    let text = checked_text(alloc, chains, &certificate, checked)?;
    Ok(Shown { text })
}

/// The answer of `desk check` on a set and a certificate.
pub fn check_both(alloc: Global, both: &Both) -> Result<Answer, CommandRefusal>
    ensures { ChecksBoth both.now result }
{
    let shown = check_text(alloc, &both.chains, &both.tasks, &both.text)?;
    Ok(Answer::new(shown.text, Status::Done))
}
