//! A command with what it is given, and what it answers.
ghost use Rattle.std.specs.Prelude.{◌≡◌, length, option_map, Some, true, false};
ghost use Rattle.libdesk.specs.Answers.{AnswersCall};
ghost use Rattle.libdesk.specs.Asked.{AskedSays, AsksAbout, ChoosesChain, SaysWayAsked, all_options};

use crate::hand_out::hand_out;
use command_line::{OfOne, OfTwo, Options};
use desk_cli::{Audience, Nobody, Status, carry_out, carry_out_on_both, run_releases};
use std::alloc::Global;
use streams::Watched;
use two_input_commands::parts_of;

/// A command with its inputs, where nothing is chosen beside them but that all is told.
#[derive(Clone, Copy)]
pub enum Asked<'a> {
    One(OfOne, &'a [u8]),
    Two(OfTwo, &'a [u8], &'a [u8]),
    /// The list of a set up to a time in microseconds.
    Releases(&'a [u8], u64),
    /// The worst case of the task of a set that has this name; without one that of the task that its verdict is about.
    Worst(&'a [u8], &'a [u8]),
    /// The run that the bound of the chain of a set describes that has this name; without one the same as `Worst`.
    WorstChain(&'a [u8], &'a [u8]),
    /// The picture of a run of a set, of the text of a release list, a byte 0 and a name, with the way of a datum along the
    /// chain of the set that has this name; without one the same as of a set and the list.
    DrawChain(&'a [u8], &'a [u8]),
}

// Nothing is chosen but that all is told.
fn all_options<'a>() -> Options<'a>
    ensures { result ≡ all_options }
{
    Options {
        all: true,
        ..Options::none()
    }
}

// The word that asks about the task or the chain with a name; bytes that are no text are nobody's.
pub(crate) fn name_word(name: &[u8]) -> Option<&str>
    ensures { AsksAbout name.now (option_map (λ word. word.now) result) }
{
    if name.is_empty() {
        return None;
    }
    match str::from_utf8(name) {
        Ok(word) => Some(word),
        Err(_) => Some(""),
    }
}

// Nothing is chosen but the chain with a name.
pub(crate) fn chain_options<'a>(name: &'a [u8]) -> Options<'a>
    ensures { ChoosesChain name.now result }
{
    Options {
        chain: name_word(name),
        ..Options::none()
    }
}

// Draws the run of a set and a list with the way along the chain that a text names.
fn draw_chain<'a, P: Audience>(
    alloc: Global,
    set: &'a [u8],
    both: &'a [u8],
    output: &mut Watched<Vec<u8>>,
    people: &mut P,
) -> Status
    ensures printed { output.new.has_failed ≡ false
        → SaysWayAsked set.now both.now (Some output.old.inner.items) (Some output.new.inner.items) result }
    ensures unwritten { output.old.has_failed ≡ false → output.new.has_failed ≡ true
        → result ≡ Status.InputOrOutputFailed }
{
    let (list, name) = parts_of(both);
    let mut set = Watched::new(set);
    let mut list = Watched::new(list);
    let options = chain_options(name);
    carry_out_on_both(
        alloc,
        OfTwo::Draw,
        options,
        &mut set,
        &mut list,
        output,
        people,
    )
}

// Runs a command on what it is given, and tells the audience what becomes of that.
pub(crate) fn run<'a, P: Audience>(
    alloc: Global,
    asked: Asked<'a>,
    output: &mut Watched<Vec<u8>>,
    people: &mut P,
) -> Status
    ensures printed { output.new.has_failed ≡ false
        → AskedSays asked.entry (Some output.old.inner.items) (Some output.new.inner.items) result }
    ensures unwritten { output.old.has_failed ≡ false → output.new.has_failed ≡ true
        → result ≡ Status.InputOrOutputFailed }
{
    let options = Options::none();
    match asked {
        Asked::One(command, input) => {
            let mut input = Watched::new(input);
            let options = all_options();
            carry_out(alloc, command, options, &mut input, output, people)
        }
        Asked::Two(command, first, second) => {
            let mut first = Watched::new(first);
            let mut second = Watched::new(second);
            carry_out_on_both(
                alloc,
                command,
                options,
                &mut first,
                &mut second,
                output,
                people,
            )
        }
        Asked::Releases(set, until) => {
            let mut set = Watched::new(set);
            run_releases(alloc, options, &mut set, until, output, people)
        }
        Asked::Worst(set, task) => {
            let mut set = Watched::new(set);
            let options = Options {
                task: name_word(task),
                ..options
            };
            carry_out(alloc, OfOne::Worst, options, &mut set, output, people)
        }
        Asked::WorstChain(set, chain) => {
            let mut set = Watched::new(set);
            let options = Options {
                chain: name_word(chain),
                ..options
            };
            carry_out(alloc, OfOne::Worst, options, &mut set, output, people)
        }
        Asked::DrawChain(set, both) => draw_chain(alloc, set, both, output, people),
    }
}

// What a command prints of what it is given.
pub(crate) fn answer<'a>(alloc: Global, asked: Asked<'a>, room: &mut [u8], status: &mut u8) -> usize
    ensures room { length room.new ≡ length room.old }
    ensures answer { AnswersCall (AskedSays asked.entry) room.old room.new result status.new }
{
    let mut output = Watched::new(Vec::new(alloc));
    let ended = run(alloc, asked, &mut output, &mut Nobody);
    hand_out(ended, output, room, status)
}
