//! The commands as `clap` takes them.
ghost use Rattle.std.specs.Prelude.{◌≡◌, IfOk, false, map, option_map};
ghost use Rattle.std.specs.List.{find};
ghost use Rattle.std.specs.Str.{bytes_eq};
ghost use Rattle.clap.specs.Words.{app_of, rule_of, with_rule, with_subcommand};
ghost use Rattle.clap.specs.declared.builder.command.Command.TheViews.{out-Command as fields_of};
ghost use Rattle.command_line.specs.App.{bare_app, choice_rule, command_app, desk_app, input_rule, number_rule, verb_app, with_choices};
ghost use Rattle.command_line.specs.Commands.{commands, least_of, most_of, number_name, verb_of};

use crate::calls::{Choice, OfNumber, OfOne, OfTwo, Takes, Verb};
use clap::{Arg, ArgAction, Command, value_parser};
use std::alloc::{AllocError, Global};

// The program's version.
const VERSION: &str = "0.5.0";

// A command as help lists it: its word, the options that it takes, what it does, and how it is called, with what its
// statuses say.
#[derive(Clone, Copy)]
struct Listed {
    verb: Verb,
    word: &'static str,
    options: &'static [Choice],
    about: &'static str,
    example: &'static str,
}

// How a command is called, and what its statuses say. Those from 6 on are the same for all, but for what one adds to 6.
macro_rules! example {
    ($call:literal, $statuses:literal $(, $also:literal)?) => {
        concat!(
            "Example: desk ",
            $call,
            "\nStatus: ",
            $statuses,
            ", 6 memory ran out",
            $($also,)?
            ", 7 an input or the output failed"
        )
    };
}

// The commands, as help lists them: those that answer on a task set, those for certificates and runs, those for scripts.
const COMMANDS: [Listed; 16] = [
    Listed {
        verb: Verb::One(OfOne::Admit),
        word: "admit",
        options: &[Choice::Prefer, Choice::Strict, Choice::Sort],
        about: "Prints the best order with its responses, or the tasks that stand in the way of all",
        example: example!(
            "admit examples/shared-lock.toml",
            "0 admitted, 3 infeasible, or a chain misses its limit, 4 the set is refused"
        ),
    },
    Listed {
        verb: Verb::One(OfOne::Explain),
        word: "explain",
        options: &[
            Choice::Prefer,
            Choice::Strict,
            Choice::Task,
            Choice::At,
            Choice::All,
            Choice::Sort,
        ],
        about: "Prints what each response is made of, or a minimal set of tasks that collide and how one order fails",
        example: example!(
            "explain examples/shared-lock.toml",
            "0 admitted, or with --at all meet, 3 infeasible, or some miss, or without --task a chain misses its limit, 4 an input or NAME is refused"
        ),
    },
    Listed {
        verb: Verb::One(OfOne::Limits),
        word: "limits",
        options: &[Choice::Prefer, Choice::Strict, Choice::Task, Choice::At],
        about: "Prints how far each number of a set may go with some order passing, all else equal",
        example: example!(
            "limits examples/robot.toml",
            "0 admitted, or with --at all meet, 3 infeasible, or some miss, 4 an input or NAME is refused"
        ),
    },
    Listed {
        verb: Verb::One(OfOne::Settings),
        word: "settings",
        options: &[
            Choice::Prefer,
            Choice::Strict,
            Choice::Base,
            Choice::Room,
            Choice::Keep,
        ],
        about: "Prints the level of each thread and the ceiling of each mutex in the best order",
        example: example!(
            "settings examples/shared-lock.toml",
            "0 an order is printed, 3 infeasible, or a chain misses its limit, or with --keep a pair has to change, 4 an input is refused"
        ),
    },
    Listed {
        verb: Verb::Two(OfTwo::Judge),
        word: "judge",
        options: &[
            Choice::Prefer,
            Choice::Strict,
            Choice::LowerIsHigher,
            Choice::Sort,
        ],
        about: "Prints which tasks meet their deadlines at priorities that are given",
        example: example!(
            "settings examples/shared-lock.toml | desk judge examples/shared-lock.toml -",
            "0 all meet, 3 some miss, or a chain misses its limit, 4 the set or the settings are refused"
        ),
    },
    Listed {
        verb: Verb::Two(OfTwo::Diff),
        word: "diff",
        options: &[Choice::Prefer, Choice::Strict],
        about: "Prints what a change of a task set does to each task",
        example: example!(
            "diff examples/robot.toml examples/robot-mended.toml",
            "0 the new set is admitted, 3 it is infeasible, 4 a set is refused"
        ),
    },
    Listed {
        verb: Verb::One(OfOne::Certify),
        word: "certify",
        options: &[Choice::Prefer, Choice::Strict],
        about: "Prints a certificate of what admit answers",
        example: example!(
            "certify examples/shared-lock.toml",
            "0 admitted, 3 infeasible, 4 the set is refused"
        ),
    },
    Listed {
        verb: Verb::Two(OfTwo::Check),
        word: "check",
        options: &[Choice::Prefer, Choice::Strict],
        about: "Checks a certificate against a task set, whoever wrote it",
        example: example!(
            "check examples/three-tasks.toml examples/three-tasks.cert",
            "0 best or no order, 4 the set is refused, 5 the certificate is refused"
        ),
    },
    Listed {
        verb: Verb::Number(OfNumber::Releases),
        word: "releases",
        options: &[Choice::Prefer, Choice::Strict, Choice::Seed],
        about: "Prints the densest release list that a set allows, or a random one, for simulate and draw",
        example: example!(
            "releases examples/shared-lock.toml 100000",
            "0 printed, 4 the set is refused or the list too long"
        ),
    },
    Listed {
        verb: Verb::One(OfOne::Worst),
        word: "worst",
        options: &[
            Choice::Prefer,
            Choice::Strict,
            Choice::Task,
            Choice::Chain,
            Choice::At,
        ],
        about: "Prints the release list of a task's worst case: its latest response, or a missed deadline",
        example: example!(
            "worst examples/shared-lock.toml --task lo",
            "0 admitted, or with --at all meet, 3 infeasible, or some miss, 4 an input or NAME is refused"
        ),
    },
    Listed {
        verb: Verb::Two(OfTwo::Simulate),
        word: "simulate",
        options: &[Choice::Prefer, Choice::Strict, Choice::Tasks],
        about: "Runs a release list in a simulated kernel, at the levels of the best order",
        example: example!(
            "simulate examples/shared-lock.toml examples/shared-lock.releases",
            "0 run, 3 infeasible, 4 the set or the list is refused"
        ),
    },
    Listed {
        verb: Verb::Two(OfTwo::Draw),
        word: "draw",
        options: &[
            Choice::Prefer,
            Choice::Strict,
            Choice::Beside,
            Choice::From,
            Choice::To,
            Choice::Width,
            Choice::Print,
            Choice::Title,
            Choice::Rows,
            Choice::Chain,
        ],
        about: "Draws the run that simulate prints, as an SVG document",
        example: example!(
            "draw examples/shared-lock.toml examples/shared-lock.releases > run.svg",
            "0 drawn, 3 infeasible, 4 an input or a word is refused"
        ),
    },
    Listed {
        verb: Verb::Two(OfTwo::Observe),
        word: "observe",
        options: &[
            Choice::Prefer,
            Choice::Strict,
            Choice::Tolerance,
            Choice::Jobless,
        ],
        about: "Prints what a trace of a node shows of each task, and each promise that it breaks",
        example: example!(
            "observe examples/shared-lock.toml examples/shared-lock.trace",
            "0 each promise is kept, 3 one is broken, a task has no job, or nothing is promised, 4 the set or the trace is refused"
        ),
    },
    Listed {
        verb: Verb::One(OfOne::Script),
        word: "script",
        options: &[Choice::Prefer, Choice::Strict, Choice::Team],
        about: "Prints a task set as the script of a team, or of its teams, for play and rush",
        example: example!(
            "script examples/shared-lock.toml 1",
            "0 printed, 4 the set is refused"
        ),
    },
    Listed {
        verb: Verb::One(OfOne::Play),
        word: "play",
        options: &[],
        about: "Plays a script of drafts, findings and commits, and prints what each line comes to",
        example: example!(
            "play examples/two-teams-fit.script",
            "0 played, 4 the script is refused"
        ),
    },
    Listed {
        verb: Verb::Number(OfNumber::Rush),
        word: "rush",
        options: &[],
        about: "Runs the lines of each team of a script on a thread of its own, and prints the log and the book",
        example: example!(
            "rush examples/two-teams-fit.script 4",
            "0 run, 4 the script is refused",
            " or the desk found a fault of its own"
        ),
    },
];

// The list of the commands.
fn listed_commands<'a>() -> &'a [Listed]
    ensures { map (λ l. (l.word.now, l.verb, l.options.now)) result.now ≡ commands }
{
    &COMMANDS
}

// The command of the first row that has the word.
fn first_named(rows: &[Listed], word: &str) -> Option<Verb>
    ensures { result ≡ option_map (λ l. l.verb) (find (λ l. bytes_eq l.word.now word.now)
        rows.now) }
{
    rows.iter()
        .find(|listed| listed.word == word)
        .map(|listed| listed.verb)
}

// The command that has the word.
pub(crate) fn verb_named(word: &str) -> Option<Verb>
    ensures { result ≡ verb_of word.now }
{
    first_named(listed_commands(), word)
}

// What an input is.
fn input_help<'a>(name: &str) -> &'a str {
    match name {
        "CERT" => "A certificate: a path, or - for standard input",
        "NEW" => "The task set that it becomes: a path, or - for standard input",
        "RELEASES" => "A release list: a path, or - for standard input",
        "SCRIPT" => "A script: a path, or - for standard input",
        "TRACE" => "A trace as simulate prints it: a path, or - for standard input",
        "SETTINGS" => "Lines as settings prints them: a path, or - for standard input",
        _ => "A task set in TOML: a path, or - for standard input",
    }
}

// An input that has to be named.
fn input_arg<'a>(alloc: Global, name: &'a str) -> Arg<'a>
    ensures rule { rule_of result ≡ input_rule name.entry.now }
    ensures local { result.global ≡ false }
{
    Arg::new(alloc, name)
        .required(true)
        .action(ArgAction::Set)
        .help(input_help(name))
}

// An option.
fn choice_arg<'a>(alloc: Global, choice: Choice) -> Arg<'a>
    ensures rule { rule_of result ≡ choice_rule choice }
    ensures local { result.global ≡ false }
{
    let arg = Arg::new(alloc, choice.id()).help(choice.help());
    let named = match choice.long() {
        Some(word) => arg.long(word),
        None => arg,
    };
    match choice.takes() {
        Takes::Word => named.action(ArgAction::Set).value_name(choice.value_name()),
        Takes::Number { least, most } => named
            .action(ArgAction::Set)
            .value_name(choice.value_name())
            .value_parser(value_parser!(usize).range(i64::from(least)..=i64::from(most))),
        Takes::Flag => named.action(ArgAction::SetTrue),
    }
}

// The number that a command takes.
fn number_arg<'a>(alloc: Global, command: OfNumber) -> Arg<'a>
    ensures rule { rule_of result ≡ number_rule (number_name command) (least_of command)
        (most_of command) }
    ensures local { result.global ≡ false }
{
    let number = command.number();
    Arg::new(alloc, number.name)
        .required(true)
        .action(ArgAction::Set)
        .help(number.help)
        .value_parser(value_parser!(usize).range(number.least..=number.most))
}

// A command with one more argument.
fn with_arg<'a>(command: Command<'a>, arg: Arg<'a>) -> Result<Command<'a>, AllocError>
    requires command { (fields_of command).has_globals ≡ false }
    requires arg { arg.global ≡ false }
    ensures app { IfOk result (λ c. app_of c ≡ with_rule (app_of command.entry)
        (rule_of arg.entry)) }
    ensures local { IfOk result (λ c. (fields_of c).has_globals ≡ false) }
{
    command.arg(arg)
}

// A command with its inputs and its number.
fn verb_command<'a>(alloc: Global, listed: &Listed) -> Result<Command<'a>, AllocError>
    ensures app { IfOk result (λ c. app_of c ≡ verb_app listed.now.word.now listed.now.verb) }
    ensures local { IfOk result (λ c. (fields_of c).has_globals ≡ false) }
{
    let bare = Command::new(alloc, listed.word)
        .about(listed.about)
        .after_help(listed.example);
    let first = with_arg(bare, input_arg(alloc, listed.verb.input()))?;
    match listed.verb {
        Verb::One(_) => Ok(first),
        Verb::Two(command) => with_arg(first, input_arg(alloc, command.second())),
        Verb::Number(command) => with_arg(first, number_arg(alloc, command)),
    }
}

// A command with further options.
fn with_options<'a>(
    alloc: Global,
    command: Command<'a>,
    options: &[Choice],
) -> Result<Command<'a>, AllocError>
    requires { (fields_of command).has_globals ≡ false }
    ensures app { IfOk result (λ c. app_of c ≡ with_choices (app_of command.entry) options.now) }
    ensures local { IfOk result (λ c. (fields_of c).has_globals ≡ false) }
{
    let mut made = command;
    for choice in options {
        made = with_arg(made, choice_arg(alloc, *choice))?;
    }
    Ok(made)
}

// A command with all that it takes.
fn command_of<'a>(alloc: Global, listed: &Listed) -> Result<Command<'a>, AllocError>
    ensures app { IfOk result (λ c. app_of c ≡ command_app listed.now.word.now listed.now.verb
        listed.now.options.now) }
    ensures local { IfOk result (λ c. (fields_of c).has_globals ≡ false) }
{
    let command = verb_command(alloc, listed)?;
    with_options(alloc, command, listed.options)
}

// The program with no command yet.
fn bare_command<'a>(alloc: Global) -> Result<Command<'a>, AllocError>
    ensures app { IfOk result (λ c. app_of c ≡ bare_app) }
    ensures local { IfOk result (λ c. (fields_of c).has_globals ≡ false) }
{
    let about =
        "An admission desk for the periodic tasks of one processor; without a command: admit -";
    let bare = Command::new(alloc, "desk")
        .about(about)
        .version(VERSION)
        .no_binary_name(true)
        .subcommand_required(true);
    let desk = bare.bin_name("desk")?;
    Ok(desk)
}

// The program with one more command.
fn with_command<'a>(above: Command<'a>, command: Command<'a>) -> Result<Command<'a>, AllocError>
    requires above { (fields_of above).has_globals ≡ false }
    requires command { (fields_of command).has_globals ≡ false }
    ensures app { IfOk result (λ c. app_of c ≡ with_subcommand (app_of above.entry)
        (app_of command.entry).top) }
    ensures local { IfOk result (λ c. (fields_of c).has_globals ≡ false) }
{
    above.subcommand(command)
}

// The program with the command of one more row.
fn with_listed<'a>(
    alloc: Global,
    above: Command<'a>,
    listed: &Listed,
) -> Result<Command<'a>, AllocError>
    requires { (fields_of above).has_globals ≡ false }
    ensures app { IfOk result (λ c. app_of c ≡ with_subcommand (app_of above.entry)
        (command_app listed.now.word.now listed.now.verb listed.now.options.now).top) }
    ensures local { IfOk result (λ c. (fields_of c).has_globals ≡ false) }
{
    let command = command_of(alloc, listed)?;
    with_command(above, command)
}

// The program with all its commands.
pub(crate) fn desk_command<'a>(alloc: Global) -> Result<Command<'a>, AllocError>
    ensures app { IfOk result (λ c. app_of c ≡ desk_app) }
    ensures local { IfOk result (λ c. (fields_of c).has_globals ≡ false) }
{
    let mut desk = bare_command(alloc)?;
    for listed in listed_commands() {
        desk = with_listed(alloc, desk, listed)?;
    }
    Ok(desk)
}
