//! The commands of a task set and a second input.
ghost use Rattle.std.specs.Prelude.{◌≡◌, ◌≤◌};
ghost use Rattle.desk_cli.specs.Commands.{TwoAnswer, TwoSay, first_asking, most_of};
ghost use Rattle.streams.specs.declared.input.TheConstants.{TRACE_LIMIT};
ghost use Rattle.desk_cli.specs.Saying.{SaysOfBoth};
ghost use Rattle.answering.specs.Outcomes.{IsCarriedOutOnBoth, IsSaidOn};

use answering::{
    Answer, Audience, Both, CommandRefusal, Notes, Status, Which, asking_of, base_of, is_sorted,
    print_answer, read_two, refuse, room_of, tell,
};
use command_line::{OfTwo, Options};
use preferences::Asking;
use std::alloc::Global;
use std::io::{Read, Write};
use streams::{INPUT_LIMIT, TRACE_LIMIT, Watched};
use two_input_commands::{
    check_both, compare_both, draw_beside_both, draw_both, explain_both, judge_both, keep_both,
    leeway_of, limit_both, observe_both, parts_of, simulate_both, worst_both,
};

// The answer of a command on a set that was read and a text.
fn answer_both(
    alloc: Global,
    command: OfTwo,
    options: Options<'_>,
    both: &Both,
) -> Result<Answer, CommandRefusal>
    ensures { TwoAnswer command options.entry both.now result }
{
    let (task, sorted) = (options.task, is_sorted(options));
    match command {
        OfTwo::Check => check_both(alloc, both),
        OfTwo::Diff => compare_both(alloc, asking_of(options), both),
        OfTwo::Judge => judge_both(alloc, options.lower_is_higher, sorted, both),
        OfTwo::Simulate => simulate_both(alloc, options.by_task, both),
        OfTwo::Draw => draw_both(alloc, options, both),
        OfTwo::Observe => observe_both(alloc, leeway_of(options), both),
        OfTwo::Keep => keep_both(alloc, base_of(options), room_of(options), both),
        OfTwo::WorstAt => worst_both(alloc, options.chain, task, both),
        OfTwo::LimitsAt => limit_both(alloc, task, both),
        OfTwo::ExplainAt => explain_both(alloc, task, sorted, both),
        OfTwo::DrawBeside => draw_beside_both(alloc, asking_of(options), options, both),
    }
}

// Which input a refusal is of, and its text: of the text of a list and a new set the one or the other.
fn refused_part<'a>(
    command: OfTwo,
    answer: &Result<Answer, CommandRefusal>,
    text: &'a [u8],
) -> (Which, &'a [u8]) {
    match (command, answer) {
        (OfTwo::DrawBeside, Err(refusal)) if refusal.is_of_new() => (
            Which::Third,
            parts_of(text).1,
        ),
        (OfTwo::DrawBeside, _) => (Which::Second, parts_of(text).0),
        _ => (Which::Second, text),
    }
}

// Tells the audience what is told beside an answer.
fn tell_notes<P: Audience>(notes: &Notes, both: &Both, people: &mut P) {
    let tasks = &both.tasks;
    if let Some((new, choice)) = &notes.new {
        people.compared(new, *choice);
    }
    if notes.misses_in_new {
        people.missed_in_new();
    }
    if notes.in_best_order {
        people.in_best_order(tasks);
    }
    if notes.is_run {
        people.ran(tasks);
    }
    for overrun in &notes.overruns {
        if let Some(name) = overrun {
            people.overran(*name);
        }
    }
    if let Some(seen) = notes.seen {
        people.seen(tasks, seen);
    }
    if notes.is_keeping {
        people.keeping(tasks, &both.text);
    }
    if let Some((low, high)) = notes.parted {
        people.parted(tasks, low, high);
    }
    if notes.misses_here {
        people.missed_here();
    }
}

// Says what a command says of a set and a text, and tells the audience what became of them.
fn say_both<W: Write + Drop, P: Audience>(
    alloc: Global,
    command: OfTwo,
    options: Options<'_>,
    both: &Both,
    output: &mut Watched<W>,
    people: &mut P,
) -> Status
    ensures { IsSaidOn (SaysOfBoth command options.entry both.now) W.contents output.old output.new result }
{
    let answer = answer_both(alloc, command, options, both);
    let (which, text) = refused_part(command, &answer, &both.text);
    tell(&answer, &both.tasks, which, text, people);
    if let Ok(answer) = &answer {
        tell_notes(&answer.notes, both, people);
    }
    print_answer(&answer, output)
}

// What a call asks of its set: of the old one of `diff` no doubt is told.
fn first_asking(command: OfTwo, options: Options<'_>) -> Asking
    ensures { result ≡ first_asking command options.entry }
{
    match command {
        OfTwo::Diff => asking_of(options).lenient(),
        _ => asking_of(options),
    }
}

// The most bytes that the second input of a command may have.
fn most_of(command: OfTwo) -> usize
    ensures most { result ≡ most_of command }
    ensures fits { result ≤ TRACE_LIMIT }
{
    match command {
        OfTwo::Observe => TRACE_LIMIT,
        _ => INPUT_LIMIT,
    }
}

/// A command of two inputs: reads a task set and a text, and prints what docs/FORMATS.md says of the command and of
/// what the words choose, or why one of them was refused. Both are read before either is parsed, the set first.
pub fn carry_out_on_both<R: Read + Drop, S: Read + Drop, W: Write + Drop, P: Audience>(
    alloc: Global,
    command: OfTwo,
    options: Options<'_>,
    set: &mut Watched<R>,
    other: &mut Watched<S>,
    output: &mut Watched<W>,
    people: &mut P,
) -> Status
    ensures { IsCarriedOutOnBoth (TwoSay command options.entry) R.remaining S.remaining W.contents
        set.old set.new other.old other.new output.old output.new result }
{
    let asking = first_asking(command, options);
    let most = most_of(command);
    match read_two(alloc, asking, set, other, most, people) {
        Ok(both) => say_both(alloc, command, options, &both, output, people),
        Err(refusal) => refuse(refusal, output),
    }
}
