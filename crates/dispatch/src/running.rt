//! Running a call on the inputs that it names.
ghost use Rattle.std.specs.Prelude.{◌≡◌, ◌≢◌, ◌⊎◌, ◌≤◌, ℕ, List, Option, None, Some, true, false, IfOk, OnErr, IfSome};
ghost use Rattle.std.specs.Io.KnownBytes.{Appends};
ghost use Rattle.command_line.specs.declared.calls.Input.{Input};
ghost use Rattle.command_line.specs.Calls.{HasNumber};
ghost use Rattle.command_line.specs.Commands.{least_of, most_of};
ghost use Rattle.dispatch.specs.Running.{CallSays, MayTell, NumberSays, NumberTells};
ghost use Rattle.streams.specs.Inputs.{IsDisturbed};
ghost use Rattle.answering.specs.Refusals.{refusal_line};
ghost use Rattle.dispatch.specs.Opened.{AreOpened, AreUnread, HasFailed};

use command_line::{Call, Input, OfNumber, OfOne, OfTwo, Options};
use desk_cli::{
    Audience, CommandRefusal, Status, Which, carry_out, carry_out_on_both, refuse, run_releases,
    run_rush,
};
use std::alloc::Global;
use std::io::{Read, Write};
use std::sync::Wait;
use std::thread::Threads;
use streams::{InputFault, Watched};

// What an input that was not opened is refused as.
const NOT_OPENED: CommandRefusal = CommandRefusal::Input(InputFault::ReadFailed);

/// An input was not opened.
#[derive(Clone, Copy, Debug, PartialEq, Eq)]
pub struct NotOpened {
    /// Of a list and a set it is the set that was not.
    pub is_new: bool,
}

/// What opens the inputs that words name.
pub trait Opens {
    /// An input, opened.
    type Source: Read + Drop;

    // The bytes that an input has, where they are known.
    ghost bytes: { Self → Input → Option (List ℕ) };

    // The inputs that it may not open.
    ghost may_refuse: { Self → Input → Type 0 };

    fn open(&self, input: Input<'_>) -> Result<Self::Source, NotOpened>
        ensures source { IfOk result (λ source. Self.Source.remaining source
            ≡ bytes self.now input.entry) }
        ensures refused { OnErr result (may_refuse self.now input.entry) };
}

/// What a call came to, and its inputs as its command left them.
#[derive(Drop)]
pub struct CallEnd<S: Read + Drop> {
    pub status: Status,
    /// The input that the call names first. None where one of its inputs was not opened.
    pub first: Option<Watched<S>>,
    /// The input that it names second. None also where it names one alone.
    pub second: Option<Watched<S>>,
}

// An input, where it is opened.
fn open_one<O: Opens>(inputs: &O, input: Input<'_>) -> Option<Watched<O::Source>>
    ensures bytes { IfSome result (λ reader. O.Source.remaining reader.inner
        ≡ O.bytes inputs.now input.entry) }
    ensures fresh { IfSome result (λ reader. reader.has_failed ≡ false) }
    ensures refused { result ≡ None → O.may_refuse inputs.now input.entry }
{
    match inputs.open(input) {
        Ok(source) => Some(Watched::new(source)),
        Err(_) => None,
    }
}

// A second input, where it is opened; or which it is that was not.
fn open_second<O: Opens>(inputs: &O, input: Input<'_>) -> Result<Watched<O::Source>, Which>
    ensures bytes { IfOk result (λ reader. O.Source.remaining reader.inner
        ≡ O.bytes inputs.now input.entry) }
    ensures fresh { IfOk result (λ reader. reader.has_failed ≡ false) }
    ensures refused { OnErr result (O.may_refuse inputs.now input.entry) }
{
    match inputs.open(input) {
        Ok(source) => Ok(Watched::new(source)),
        Err(NotOpened { is_new: true }) => Err(Which::Third),
        Err(NotOpened { is_new: false }) => Err(Which::Second),
    }
}

// Two inputs; or the one that was not opened. The second is opened only where the first was.
fn open_both<O: Opens>(
    inputs: &O,
    first: Input<'_>,
    second: Input<'_>,
) -> Result<(Watched<O::Source>, Watched<O::Source>), Which>
    ensures first { IfOk result (λ both. (O.Source.remaining both.0.inner
        ≡ O.bytes inputs.now first.entry)
        × (both.0.has_failed ≡ false)) }
    ensures second { IfOk result (λ both. (O.Source.remaining both.1.inner
        ≡ O.bytes inputs.now second.entry)
        × (both.1.has_failed ≡ false)) }
    ensures refused { OnErr result (O.may_refuse inputs.now first.entry
        ⊎ O.may_refuse inputs.now second.entry) }
{
    let first = open_one(inputs, first).ok_or(Which::First)?;
    let second = open_second(inputs, second)?;
    Ok((first, second))
}

// A call of which an input was not opened, which the audience is told.
fn not_opened<S: Read + Drop, W: Write + Drop, P: Audience>(
    which: Which,
    output: &mut Watched<W>,
    people: &mut P,
) -> CallEnd<S>
    ensures printed { output.new.has_failed ≡ false
        → Appends (W.contents output.old.inner) (W.contents output.new.inner)
        (refusal_line (CommandRefusal.Input InputFault.ReadFailed)) }
    ensures status { output.new.has_failed ≡ false → result.status ≡ Status.InputOrOutputFailed }
    ensures unwritten { output.old.has_failed ≡ false → output.new.has_failed ≡ true
        → result.status ≡ Status.InputOrOutputFailed }
    ensures none { (result.first ≡ None) × (result.second ≡ None) }
{
    people.refused(which, b"", NOT_OPENED);
    CallEnd {
        status: refuse(NOT_OPENED, output),
        first: None,
        second: None,
    }
}

// A call of one input.
fn ran_one<S: Read + Drop>(status: Status, input: Watched<S>) -> CallEnd<S>
    ensures { (result.status ≡ status) × (result.first ≡ Some input) × (result.second ≡ None) }
{
    CallEnd {
        status,
        first: Some(input),
        second: None,
    }
}

// A call of two inputs.
fn ran_both<S: Read + Drop>(status: Status, first: Watched<S>, second: Watched<S>) -> CallEnd<S>
    ensures { (result.status ≡ status) × (result.first ≡ Some first)
        × (result.second ≡ Some second) }
{
    CallEnd {
        status,
        first: Some(first),
        second: Some(second),
    }
}

// Runs a command on its input and its number.
fn run_number<
    S: Read + Drop,
    W: Write + Drop,
    E: Write + Drop,
    P: Audience,
    R: Threads + Wait + Sync,
>(
    rt: &R,
    alloc: Global,
    command: OfNumber,
    options: Options<'_>,
    input: &mut Watched<S>,
    number: usize,
    output: &mut Watched<W>,
    errors: &mut Watched<E>,
    people: &mut P,
) -> Status
    requires { (least_of command ≤ number) × (number ≤ most_of command) }
    ensures printed { output.new.has_failed ≡ false
        → NumberSays command options.entry number (S.remaining input.old.inner)
        (W.contents output.old.inner)
        (W.contents output.new.inner) (λ e. E.contents e) errors.old errors.new result }
    ensures quiet { (NumberTells command → ⊥) ⊎ (output.new.has_failed ≡ true)
        → errors.new ≡ errors.old }
    ensures failed { result ≡ Status.InputOrOutputFailed → IsDisturbed input.new
        ⊎ (output.new.has_failed ≡ true) ⊎ (NumberTells command × (errors.new.has_failed ≡ true)) }
    ensures unread { input.old.has_failed ≡ false → input.new.has_failed ≡ true
        → output.old.has_failed ≡ false → result ≡ Status.InputOrOutputFailed }
    ensures unwritten { output.old.has_failed ≡ false → output.new.has_failed ≡ true
        → result ≡ Status.InputOrOutputFailed }
    ensures untold { errors.old.has_failed ≡ false → errors.new.has_failed ≡ true
        → result ≡ Status.InputOrOutputFailed }
{
    match command {
        OfNumber::Releases => run_releases(alloc, options, input, number as u64, output, people),
        OfNumber::Rush => run_rush(rt, alloc, input, number, output, errors, people),
    }
}

/// Opens the inputs of a call, in the order in which they are named, and runs its command. What is
/// for people alone goes to the errors; and the audience is told what became of the inputs.
pub fn run_call<O: Opens, W: Write + Drop, E: Write + Drop, P: Audience, R: Threads + Wait + Sync>(
    rt: &R,
    alloc: Global,
    call: Call<'_>,
    inputs: &O,
    output: &mut Watched<W>,
    errors: &mut Watched<E>,
    people: &mut P,
) -> CallEnd<O::Source>
    requires { HasNumber call }
    ensures printed { output.new.has_failed ≡ false
        → CallSays (O.bytes inputs.now) call.entry (W.contents output.old.inner)
        (W.contents output.new.inner) (λ e. E.contents e) errors.old errors.new result.status }
    ensures quiet { (MayTell call.entry → ⊥) ⊎ (output.new.has_failed ≡ true)
        → errors.new ≡ errors.old }
    ensures failed { result.status ≡ Status.InputOrOutputFailed
        → AreUnread (O.may_refuse inputs.now) call.entry result.first result.second
        ⊎ (output.new.has_failed ≡ true) ⊎ (MayTell call.entry × (errors.new.has_failed ≡ true)) }
    ensures opened { output.old.has_failed ≡ false → result.status ≢ Status.InputOrOutputFailed
        → AreOpened call.entry result.first result.second }
    ensures unread { HasFailed result.first ⊎ HasFailed result.second
        → output.old.has_failed ≡ false → result.status ≡ Status.InputOrOutputFailed }
    ensures unwritten { output.old.has_failed ≡ false → output.new.has_failed ≡ true
        → result.status ≡ Status.InputOrOutputFailed }
    ensures untold { errors.old.has_failed ≡ false → errors.new.has_failed ≡ true
        → result.status ≡ Status.InputOrOutputFailed }
{
    match call {
        Call::One {
            command,
            input,
            options,
        } => match open_one(inputs, input) {
            Some(mut input) => {
                let status = carry_out(alloc, command, options, &mut input, output, people);
                ran_one(status, input)
            }
            None => not_opened(Which::First, output, people),
        },
        Call::Two {
            command,
            first,
            second,
            options,
        } => match open_both(inputs, first, second) {
            Ok((mut first, mut second)) => {
                let status = carry_out_on_both(
                    alloc,
                    command,
                    options,
                    &mut first,
                    &mut second,
                    output,
                    people,
                );
                ran_both(status, first, second)
            }
            Err(which) => not_opened(which, output, people),
        },
        Call::Number {
            command,
            input,
            number,
            options,
        } => match open_one(inputs, input) {
            Some(mut input) => {
                let status = run_number(
                    rt, alloc, command, options, &mut input, number, output, errors, people,
                );
                ran_one(status, input)
            }
            None => not_opened(Which::First, output, people),
        },
    }
}
