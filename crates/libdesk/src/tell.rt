//! What a person is told of a command's inputs, by the code that tells it on the program's standard error.
ghost use Rattle.std.specs.Prelude.{◌≡◌, length};
ghost use Rattle.libdesk.specs.Answers.{TellsCall};
ghost use Rattle.libdesk.specs.Asked.{AskedSays};
ghost use Rattle.libdesk.specs.Numbers.{command_of};

use crate::asked::{Asked, chain_options, name_word, run};
use crate::hand_out::hand_out;
use advice::Advice;
use command_line::{Call, Input, Named, OfNumber, OfOne, OfTwo, Options};
use std::alloc::Global;
use std::cell::Cell;
use streams::Watched;
use two_input_commands::parts_of;

// What the first input of a command of one is called in include/desk.h.
fn name_of_one(command: OfOne) -> &'static str {
    match command {
        OfOne::Play => "script",
        _ => "set",
    }
}

// What the second input of a command is called there.
fn name_of_second(command: OfTwo) -> &'static str {
    match command {
        OfTwo::Check => "certificate",
        OfTwo::Judge | OfTwo::Keep => "settings",
        OfTwo::WorstAt | OfTwo::ExplainAt | OfTwo::LimitsAt => "settings",
        OfTwo::Diff => "changed",
        OfTwo::Simulate | OfTwo::Draw | OfTwo::DrawBeside => "releases",
        OfTwo::Observe => "trace",
    }
}

// The file of a name.
fn file<'a>(name: &'a str) -> Input<'a> {
    Input::One(Named::File(name))
}

// The second input of a command there.
fn second_of<'a>(command: OfTwo) -> Input<'a> {
    match command {
        OfTwo::DrawBeside => Input::Both {
            list: Named::File("releases"),
            new: Named::File("changed"),
        },
        _ => file(name_of_second(command)),
    }
}

// The call of the program that asks the same of files with these names.
fn call_of<'a>(asked: Asked<'a>) -> Call<'a> {
    let options = Options::none();
    match asked {
        Asked::One(command, _) => Call::One {
            command,
            input: file(name_of_one(command)),
            options,
        },
        Asked::Two(command, _, _) => Call::Two {
            command,
            first: file("set"),
            second: second_of(command),
            options,
        },
        Asked::Worst(_, task) => Call::One {
            command: OfOne::Worst,
            input: file("set"),
            options: Options {
                task: name_word(task),
                ..options
            },
        },
        Asked::WorstChain(_, chain) => Call::One {
            command: OfOne::Worst,
            input: file("set"),
            options: Options {
                chain: name_word(chain),
                ..options
            },
        },
        Asked::DrawChain(_, both) => Call::Two {
            command: OfTwo::Draw,
            first: file("set"),
            second: file("releases"),
            options: chain_options(parts_of(both).1),
        },
        Asked::Releases(_, until) => Call::Number {
            command: OfNumber::Releases,
            input: file("set"),
            number: until as usize,
            options,
        },
    }
}

// The command of a number in include/desk.h, with what it takes of the inputs.
pub(crate) fn command_of<'a>(
    number: u8,
    first: &'a [u8],
    second: &'a [u8],
    until: u64,
) -> Option<Asked<'a>>
    ensures { result ≡ command_of number first.entry second.entry until }
{
    Some(match number {
        1 => Asked::One(OfOne::Admit, first),
        2 => Asked::One(OfOne::Certify, first),
        3 => Asked::Two(OfTwo::Check, first, second),
        4 => Asked::One(OfOne::Limits, first),
        5 => Asked::One(OfOne::Settings, first),
        6 => Asked::One(OfOne::Explain, first),
        7 => Asked::Two(OfTwo::Judge, first, second),
        8 => Asked::Two(OfTwo::Diff, first, second),
        9 => Asked::Releases(first, until),
        10 => Asked::Two(OfTwo::Simulate, first, second),
        11 => Asked::Two(OfTwo::Draw, first, second),
        12 => Asked::One(OfOne::Play, first),
        13 => Asked::Two(OfTwo::Observe, first, second),
        14 => Asked::Worst(first, second),
        15 => Asked::Two(OfTwo::DrawBeside, first, second),
        16 => Asked::WorstChain(first, second),
        17 => Asked::DrawChain(first, second),
        _ => return None,
    })
}

// What a person is told of what a command is given.
pub(crate) fn tell<'a>(alloc: Global, asked: Asked<'a>, room: &mut [u8], status: &mut u8) -> usize
    ensures room { length room.new ≡ length room.old }
    ensures told { TellsCall (AskedSays asked.entry) room.old room.new result status.new }
{
    let mut output = Watched::new(Vec::new(alloc));
    let errors = Watched::new(Vec::new(alloc));
    let last = Cell::new(None);
    let mut people = Advice::new(alloc, call_of(asked), &last, errors);
    let ended = run(alloc, asked, &mut output, &mut people);
    people.ended(ended);
    hand_out(ended, people.into_errors(), room, status)
}
