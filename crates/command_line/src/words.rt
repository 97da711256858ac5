//! The words of a command line.
ghost use Rattle.std.specs.Prelude.{◌≡◌, ℕ, List, map, Ok, Some, None, Err, IfOk, IfErr, IfSome, true, false};
ghost use Rattle.clap.specs.Words.{FailsBy, fault_of, first_of, found_of, rows_of, subcommand_of, subcommand_rows_of};
ghost use Rattle.command_line.specs.App.{desk_app};
ghost use Rattle.command_line.specs.Commands.{beside, by_file, input_of, number_name, second_of, verb_of};
ghost use Rattle.command_line.specs.declared.calls.Verb.TheVariants.{One, Two};
ghost use Rattle.command_line.specs.Calls.{AreOptions, Calls, Counts, Flags, HasNumber, IsCall, IsCommand, AreTakenWords, IsWordsFault, MayNumber, file_of, IsNumberOf, Names, NamesFile, Prefers, PrefersOther, SayChoices, TakesNumber, is_twice, sorts_other};

use crate::calls::{Call, Choice, Input, Named, OfNumber, OfOne, OfTwo, Options, Preferred, Verb};
use crate::commands::{desk_command, verb_named};
use clap::{ArgMatches, Error};
use std::alloc::Global;

/// Why words are no call.
#[derive(Drop)]
pub enum WordsFault {
    /// `clap`'s error, which help is too, or out of memory.
    Clap(Error),
    /// `--prefer` is given a word other than `weight`, `deadline` and `chains`.
    NoSuchPreference,
    /// `--sort` is given a word other than `slack`.
    NoSuchSort,
    /// Standard input is named twice.
    InputTwice,
}

// What `clap` makes of the words.
fn desk_matches<'a>(alloc: Global, words: &'a [&'a str]) -> Result<ArgMatches<'a>, Error>
    ensures ok { IfOk result (λ m. subcommand_rows_of m
        ≡ subcommand_of desk_app (map (λ s. s.now) words.entry.now)) }
    ensures command { IfOk result (λ m. IsCommand (subcommand_rows_of m)) }
    ensures kinds { FailsBy (fault_of desk_app (map (λ s. s.now) words.entry.now)) result }
{
    let desk = desk_command(alloc)?;
    desk.try_get_matches_from(words)
}

// What an argument names.
fn named_at<'a>(matches: &ArgMatches<'a>, id: &str) -> Named<'a>
    ensures { Names (first_of id.now (rows_of (found_of matches.now))) result }
{
    match matches.get_str(id) {
        None => Named::Standard,
        Some("-") => Named::Standard,
        Some(path) => Named::File(path),
    }
}

// What the words of the command prefer, where they say it. None where that is something else.
fn preference_at(matches: &ArgMatches<'_>) -> Option<Option<Preferred>>
    ensures known { IfSome result (Prefers (rows_of (found_of matches.now))) }
    ensures none { result ≡ None → PrefersOther (rows_of (found_of matches.now)) }
{
    match matches.get_str("prefer") {
        None => Some(None),
        Some("weight") => Some(Some(Preferred::Weight)),
        Some("deadline") => Some(Some(Preferred::Deadline)),
        Some("chains") => Some(Some(Preferred::Chains)),
        Some(_) => None,
    }
}

// The number that an option is given.
fn number_chosen(matches: &ArgMatches<'_>, choice: Choice) -> Option<usize>
    requires { MayNumber choice (rows_of (found_of matches.now)) }
    ensures { IsNumberOf choice (rows_of (found_of matches.now)) result }
{
    matches.get_one::<usize>(choice.id())
}

// Whether a flag is given.
fn flag_chosen(matches: &ArgMatches<'_>, choice: Choice) -> bool
    ensures { Flags choice (rows_of (found_of matches.now)) result }
{
    match matches.get_str(choice.id()) {
        None => false,
        Some("true") => true,
        Some(_) => false,
    }
}

// What the words of the command choose. None where they prefer something else than weights, deadlines or chains.
fn options_at<'a>(matches: &ArgMatches<'a>) -> Option<Options<'a>>
    requires { SayChoices (rows_of (found_of matches.now)) }
    ensures known { IfSome result (AreOptions (rows_of (found_of matches.now))) }
    ensures none { result ≡ None → PrefersOther (rows_of (found_of matches.now)) }
{
    let prefer = preference_at(matches)?;
    Some(Options {
        prefer,
        is_strict: flag_chosen(matches, Choice::Strict),
        task: matches.get_str("task"),
        chain: matches.get_str("chain"),
        base: number_chosen(matches, Choice::Base),
        all: flag_chosen(matches, Choice::All),
        sort: matches.get_str("sort"),
        lower_is_higher: flag_chosen(matches, Choice::LowerIsHigher),
        seed: number_chosen(matches, Choice::Seed),
        by_task: flag_chosen(matches, Choice::Tasks),
        tolerance: number_chosen(matches, Choice::Tolerance),
        jobless: flag_chosen(matches, Choice::Jobless),
        from: number_chosen(matches, Choice::From),
        to: number_chosen(matches, Choice::To),
        width: number_chosen(matches, Choice::Width),
        print: number_chosen(matches, Choice::Print),
        title: matches.get_str("title"),
        rows: matches.get_str("rows"),
        room: number_chosen(matches, Choice::Room),
        team: number_chosen(matches, Choice::Team),
    })
}

// The number that the words of the command say.
fn number_at(matches: &ArgMatches<'_>, command: OfNumber) -> usize
    requires { TakesNumber command (rows_of (found_of matches.now)) }
    ensures { Counts command (first_of (number_name command)
        (rows_of (found_of matches.now))) result }
{
    match matches.get_one::<usize>(command.number().name) {
        Some(number) => number,
        None => unreachable!(),
    }
}

// The command of two inputs that an option makes, with what it names; none where it is not given.
fn file_named<'a>(by: Option<(Choice, OfTwo)>, found: &ArgMatches<'a>) -> Option<(OfTwo, Named<'a>)>
    ensures some { IfSome result (λ named.
        NamesFile by (rows_of (found_of found.now)) named.0 named.1) }
    ensures none { result ≡ None → file_of by (rows_of (found_of found.now)) ≡ None }
{
    let Some((choice, of_two)) = by else {
        return None;
    };
    match found.get_str(choice.id()) {
        None => None,
        Some("-") => Some((of_two, Named::Standard)),
        Some(path) => Some((of_two, Named::File(path))),
    }
}

// The call of a command of one input.
fn call_of_one<'a>(
    command: OfOne,
    input: Named<'a>,
    found: &ArgMatches<'a>,
    options: Options<'a>,
) -> Call<'a>
    ensures { (name : List ℕ) → verb_of name ≡ Some (One command)
        → Names (first_of (input_of (One command)) (rows_of (found_of found.now))) input.entry
        → AreOptions (rows_of (found_of found.now)) options.entry
        → IsCall (Some (name, rows_of (found_of found.now))) result }
{
    match file_named(command.by_file(), found) {
        Some((of_two, second)) => Call::Two {
            command: of_two,
            first: Input::One(input),
            second: Input::One(second),
            options,
        },
        None => Call::One {
            command,
            input: Input::One(input),
            options,
        },
    }
}

// The call of a command of two.
fn call_of_two<'a>(
    command: OfTwo,
    first: Named<'a>,
    found: &ArgMatches<'a>,
    options: Options<'a>,
) -> Call<'a>
    ensures { (name : List ℕ) → verb_of name ≡ Some (Two command)
        → Names (first_of (input_of (Two command)) (rows_of (found_of found.now))) first.entry
        → AreOptions (rows_of (found_of found.now)) options.entry
        → IsCall (Some (name, rows_of (found_of found.now))) result }
{
    let second = named_at(found, command.second());
    match file_named(command.beside(), found) {
        Some((of_two, new)) => Call::Two {
            command: of_two,
            first: Input::One(first),
            second: Input::Both { list: second, new },
            options,
        },
        None => Call::Two {
            command,
            first: Input::One(first),
            second: Input::One(second),
            options,
        },
    }
}

// The call that a command names.
fn call_named<'a>(name: &str, found: &ArgMatches<'a>, options: Options<'a>) -> Call<'a>
    requires command { IsCommand (Some (name.now, rows_of (found_of found.now))) }
    requires options { AreOptions (rows_of (found_of found.now)) options }
    ensures { IsCall (Some (name.now, rows_of (found_of found.now))) result }
{
    let verb = match verb_named(name) {
        Some(verb) => verb,
        None => unreachable!(),
    };
    let input = named_at(found, verb.input());
    match verb {
        Verb::One(command) => call_of_one(command, input, found, options),
        Verb::Two(command) => call_of_two(command, input, found, options),
        Verb::Number(command) => Call::Number {
            command,
            input: Input::One(input),
            number: number_at(found, command),
            options,
        },
    }
}

// The call that the matches name. None where it prefers an order that isn't there.
fn call_of<'a>(matches: &ArgMatches<'a>) -> Option<Call<'a>>
    requires { IsCommand (subcommand_rows_of matches.now) }
    ensures call { IfSome result (IsCall (subcommand_rows_of matches.now)) }
    ensures none { result ≡ None → IfSome (subcommand_rows_of matches.now)
        (λ found. PrefersOther found.1) }
{
    match matches.subcommand() {
        None => unreachable!(),
        Some((name, found)) => {
            let options = options_at(found)?;
            Some(call_named(name, found, options))
        }
    }
}

/// Reads the words of a command line, the program's name left out. No words call `admit` of standard input.
pub fn read_words<'a>(alloc: Global, words: &'a [&'a str]) -> Result<Call<'a>, WordsFault>
    ensures call { IfOk result (Calls (map (λ s. s.now) words.entry.now)) }
    ensures taken { IfOk result (λ _. AreTakenWords (map (λ s. s.now) words.entry.now)) }
    ensures once { IfOk result (λ call. is_twice call ≡ false) }
    ensures sorted { IfOk result (λ call. sorts_other call ≡ false) }
    ensures number { IfOk result HasNumber }
    ensures fault { IfErr result (IsWordsFault (map (λ s. s.now) words.entry.now)) }
{
    if words.is_empty() {
        return Ok(Call::One {
            command: OfOne::Admit,
            input: Input::One(Named::Standard),
            options: Options::none(),
        });
    }
    let matches = match desk_matches(alloc, words) {
        Ok(matches) => matches,
        Err(error) => return Err(WordsFault::Clap(error)),
    };
    let call = match call_of(&matches) {
        Some(call) => call,
        None => return Err(WordsFault::NoSuchPreference),
    };
    if call.sorts_other() {
        return Err(WordsFault::NoSuchSort);
    }
    if call.is_twice() {
        return Err(WordsFault::InputTwice);
    }
    Ok(call)
}
