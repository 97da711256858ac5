//! The commands of one input.
ghost use Rattle.desk_cli.specs.Commands.{OneAnswer, OneSays};
ghost use Rattle.desk_cli.specs.Saying.{IsOfPlacing, SaysOfSet};
ghost use Rattle.set_commands.specs.Chained.{IsPlaced};
ghost use Rattle.answering.specs.Outcomes.{IsCarriedOut, IsSaidOn};

use answering::{
    Answer, Audience, CommandRefusal, Status, asking_of, base_of, is_sorted, print_answer, refuse,
    room_of,
};
use command_line::{OfOne, Options};
use script_commands::{lines_of, play};
use set_commands::{
    Placed, admit_set, certified, explain_set, limit_set, place, print_certificate, run_script,
    settle_set, worst_set,
};
use std::alloc::Global;
use std::io::{Read, Write};
use streams::Watched;

// The answer of a command on a set that was placed.
fn answer_set(
    alloc: Global,
    command: OfOne,
    options: Options<'_>,
    placed: &Placed,
) -> Result<Answer, CommandRefusal>
    requires command { IsOfPlacing command }
    requires placed { IsPlaced placed.now }
    ensures { OneAnswer command options.entry placed.now result }
{
    let (task, sorted) = (options.task, is_sorted(options));
    match command {
        OfOne::Admit => admit_set(alloc, sorted, placed),
        OfOne::Limits => limit_set(alloc, task, placed),
        OfOne::Settings => settle_set(alloc, base_of(options), room_of(options), placed),
        OfOne::Explain => explain_set(alloc, options.all, sorted, task, placed),
        OfOne::Worst => worst_set(alloc, options.chain, task, placed),
        OfOne::Certify => unreachable!(),
        OfOne::Script => unreachable!(),
        OfOne::Play => unreachable!(),
    }
}

// Prints it.
fn say_placing<W: Write + Drop>(
    alloc: Global,
    command: OfOne,
    options: Options<'_>,
    placed: &Placed,
    output: &mut Watched<W>,
) -> Status
    requires command { IsOfPlacing command }
    requires placed { IsPlaced placed.now }
    ensures { IsSaidOn (SaysOfSet command options.entry placed.now)
        W.contents output.old output.new result }
{
    let answer = answer_set(alloc, command, options, placed);
    print_answer(&answer, output)
}

/// A command of one input: reads a task set or a script, and prints what docs/FORMATS.md says of the command and of
/// what the words choose, or why the input was refused. Of a script that was refused nothing is played.
pub fn carry_out<R: Read + Drop, W: Write + Drop, P: Audience>(
    alloc: Global,
    command: OfOne,
    options: Options<'_>,
    input: &mut Watched<R>,
    output: &mut Watched<W>,
    people: &mut P,
) -> Status
    ensures { IsCarriedOut (OneSays command options.entry) R.remaining W.contents
        input.old input.new output.old output.new result }
{
    let asking = asking_of(options);
    match command {
        OfOne::Certify => match certified(alloc, asking, input, people) {
            Ok(certificate) => print_certificate(&certificate, output),
            Err(refusal) => refuse(refusal, output),
        },
        OfOne::Script => run_script(alloc, options, input, output, people),
        OfOne::Play => match lines_of(alloc, input, people) {
            Ok(lines) => play(alloc, lines, output),
            Err(refusal) => refuse(refusal, output),
        },
        _ => match place(alloc, asking, input, people) {
            Ok(placed) => say_placing(alloc, command, options, &placed, output),
            Err(refusal) => refuse(refusal, output),
        },
    }
}
