//! The sentence of each refusal.

use crate::causes::{LastError, push_last};
use ceiling_kernel::RunFault;
use chain_tables::Chain;
use command_line::Options;
use desk_cli::{CommandRefusal, TextFault};
use sentences::{
    of_certificate, of_chains, of_check, of_density, of_doubt, of_release_line, of_run, of_script,
    of_set_text, of_settings, of_trace, of_window,
};
use std::alloc::{AllocError, Global};
use streams::InputFault;
use task_sheet::TaskSet;

/// What is known beside the bytes of an input.
#[derive(Clone, Copy)]
pub(crate) struct Known<'a> {
    /// The error of the last call on the inputs.
    pub(crate) last: &'a LastError,
    /// What the call's words choose.
    pub(crate) options: Options<'a>,
    /// Up to when the densest list of the set is short enough, where the call asks for that list.
    pub(crate) greatest_until: Option<u64>,
    /// The set of a call that runs a list or checks a certificate.
    pub(crate) set: Option<&'a TaskSet>,
    /// The chains of a set whose certificate a call checks.
    pub(crate) chains: &'a [Chain],
    /// What is wrong with an input that is too long.
    pub(crate) too_long: &'a str,
}

// That an input could not be opened or read, and why.
fn unread(alloc: Global, last: &LastError) -> Result<String, AllocError> {
    let mut text = String::from_str(alloc, "can't be opened or read")?;
    push_last(&mut text, alloc, last)?;
    Ok(text)
}

// What is wrong with an input that was not read; none where memory ran out.
fn of_input(alloc: Global, known: Known<'_>, fault: InputFault) -> Option<String> {
    match fault {
        InputFault::TooLong => String::from_str(alloc, known.too_long).ok(),
        InputFault::ReadFailed => unread(alloc, known.last).ok(),
        InputFault::OutOfMemory => None,
    }
}

// Why a list of releases was not made or run.
fn of_list(alloc: Global, known: Known<'_>, bytes: &[u8], fault: RunFault) -> Option<String> {
    match (fault, known.greatest_until) {
        (RunFault::TooMany, Some(until)) => of_density(alloc, until),
        _ => of_run(alloc, bytes, known.set, fault),
    }
}

// What is wrong with a list on a new set.
fn on_new(alloc: Global, sentence: Option<String>) -> Option<String> {
    let sentence = sentence?;
    let mut text = String::from_str(alloc, "on the new set, ").ok()?;
    text.push_str(sentence.as_str()).ok()?;
    Some(text)
}

// That nothing of a list's run lies in the window that words choose.
fn of_view(alloc: Global, bytes: &[u8], options: Options<'_>) -> Option<String> {
    of_window(alloc, bytes, options.from.unwrap_or(0), options.to)
}

/// What is wrong with an input, from its bytes. None where memory ran out, here or before, and for what is no fault of an
/// input.
pub(crate) fn sentence_of(
    alloc: Global,
    known: Known<'_>,
    bytes: &[u8],
    refusal: CommandRefusal,
) -> Option<String> {
    match refusal {
        CommandRefusal::Input(fault) => of_input(alloc, known, fault),
        CommandRefusal::Set(fault) | CommandRefusal::New(fault) => of_set_text(alloc, bytes, fault),
        CommandRefusal::Doubtful(doubt) | CommandRefusal::NewDoubtful(doubt) => {
            of_doubt(alloc, bytes, doubt)
        }
        CommandRefusal::Chain(fault) | CommandRefusal::NewChain(fault) => {
            of_chains(alloc, bytes, fault)
        }
        CommandRefusal::Certificate(fault) => of_certificate(alloc, bytes, fault),
        CommandRefusal::Check(fault) => of_check(
            alloc,
            bytes,
            known.set,
            known.chains,
            known.options.prefer.is_some(),
            fault,
        ),
        CommandRefusal::Text(TextFault::BadLine { line }) => of_release_line(alloc, bytes, line),
        CommandRefusal::Run(fault) => of_list(alloc, known, bytes, fault),
        CommandRefusal::NewRun(fault) => on_new(alloc, of_run(alloc, bytes, None, fault)),
        CommandRefusal::Settings(fault) => of_settings(alloc, bytes, fault),
        CommandRefusal::NewSettings(fault) => on_new(alloc, of_settings(alloc, bytes, fault)),
        CommandRefusal::Trace(fault) => of_trace(alloc, bytes, fault),
        CommandRefusal::Script(fault) => of_script(alloc, bytes, fault),
        CommandRefusal::EmptyWindow => of_view(alloc, bytes, known.options),
        CommandRefusal::ChainBeside => {
            String::from_str(alloc, "a picture of two runs shows no way along a chain").ok()
        }
        CommandRefusal::TooManyTeams => {
            String::from_str(alloc, "more than 8 teams have tasks, and a script has 8").ok()
        }
        CommandRefusal::Text(TextFault::OutOfMemory)
        | CommandRefusal::Rush(_)
        | CommandRefusal::NoSuchTask { .. }
        | CommandRefusal::NoSuchChain { .. }
        | CommandRefusal::OutOfMemory => None,
    }
}
