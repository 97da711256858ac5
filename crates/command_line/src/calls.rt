//! The calls of `desk`.
ghost use Rattle.std.specs.Prelude.{◌≡◌, option_map, pos};
ghost use Rattle.command_line.specs.Calls.{has_standard, has_twice, is_other_sort, is_standard, is_twice, sorts_other};
ghost use Rattle.command_line.specs.Calls.{no_options};
ghost use Rattle.command_line.specs.Commands.{beside, by_file, choice_id, choice_name, input_of, least_of, long_of, most_of, number_name, second_of, takes_of};

/// The most threads that test the set of a commit.
pub const MOST_WORKERS: usize = 8;

/// The greatest number of a team.
pub const MOST_TEAM: usize = 8;

/// The latest end of a run, in microseconds.
pub const LATEST_END: usize = 60_000_000;

/// The greatest priority of level 1: that of the 32nd level is 1,000,000, the greatest that a reader of settings takes.
pub const MOST_PRIORITY: usize = 999_969;

/// The greatest room beside a number.
pub const MOST_ROOM: usize = 1_000_000;

/// The greatest tolerance of a trace, in microseconds.
pub const MOST_TOLERANCE: usize = 60_000_000;

/// The least width of a picture, in pixels.
pub const LEAST_WIDTH: usize = 960;

/// The greatest width of a picture, in pixels.
pub const MOST_WIDTH: usize = 16_000;

/// The least number of an A size of paper.
pub const LEAST_PAPER: usize = 3;

/// The greatest number of one.
pub const MOST_PAPER: usize = 4;

/// The greatest seed of a random release list.
pub const MOST_SEED: usize = 4_294_967_295;

/// What a word names.
#[derive(Clone, Copy)]
pub enum Named<'a> {
    /// The word `-`.
    Standard,
    /// A path.
    File(&'a str),
}

/// An input of a call.
#[derive(Clone, Copy)]
pub enum Input<'a> {
    /// What one word names.
    One(Named<'a>),
    /// A release list and a task set in one text: the list, a byte 0, and the set. A byte 0 of the list is a byte 1 there,
    /// which is as wrong in its line.
    Both { list: Named<'a>, new: Named<'a> },
}

/// A command of one input.
#[derive(Clone, Copy)]
pub enum OfOne {
    /// `admit SET`
    Admit,
    /// `certify SET`
    Certify,
    /// `limits SET`
    Limits,
    /// `settings SET`
    Settings,
    /// `explain SET`
    Explain,
    /// `worst SET`
    Worst,
    /// `script SET`
    Script,
    /// `play SCRIPT`
    Play,
}

/// A command of a task set and a second input.
#[derive(Clone, Copy)]
pub enum OfTwo {
    /// `check SET CERT`
    Check,
    /// `judge SET SETTINGS`
    Judge,
    /// `diff SET NEW`
    Diff,
    /// `simulate SET RELEASES`
    Simulate,
    /// `draw SET RELEASES`
    Draw,
    /// `observe SET TRACE`
    Observe,
    /// `settings SET --keep SETTINGS`
    Keep,
    /// `worst SET --at SETTINGS`
    WorstAt,
    /// `explain SET --at SETTINGS`
    ExplainAt,
    /// `limits SET --at SETTINGS`
    LimitsAt,
    /// `draw SET RELEASES --beside NEW`
    DrawBeside,
}

/// A command of an input and a number.
#[derive(Clone, Copy)]
pub enum OfNumber {
    /// `releases SET UNTIL`
    Releases,
    /// `rush SCRIPT WORKERS`
    Rush,
}

// A number that a command takes, from the least to the most.
#[derive(Clone, Copy)]
pub(crate) struct Number<'a> {
    pub name: &'a str,
    pub help: &'a str,
    pub least: i64,
    pub most: i64,
}

// A command of the program, by what it takes.
#[derive(Clone, Copy)]
pub(crate) enum Verb {
    One(OfOne),
    Two(OfTwo),
    Number(OfNumber),
}

// An option that commands take.
#[derive(Clone, Copy)]
pub(crate) enum Choice {
    // `--prefer weight|deadline|chains`
    Prefer,
    // `--strict`
    Strict,
    // `--task NAME`
    Task,
    // `--chain NAME`
    Chain,
    // `--base N`
    Base,
    // `--room N`
    Room,
    // `--lower-is-higher`
    LowerIsHigher,
    // `--seed N`
    Seed,
    // `--tasks`
    Tasks,
    // `--tolerance N`
    Tolerance,
    // `--jobless`
    Jobless,
    // `--keep SETTINGS`
    Keep,
    // `--at SETTINGS`
    At,
    // `--beside NEW`
    Beside,
    // `--all`
    All,
    // `--sort slack`
    Sort,
    // `--from T`
    From,
    // `--to T`
    To,
    // `--width N`
    Width,
    // `--print N`
    Print,
    // `--title TEXT`
    Title,
    // `--tasks NAMES`
    Rows,
    // TEAM, behind the input
    Team,
}

// What an option takes: a word, a number from the least to the most, or nothing.
#[derive(Clone, Copy)]
pub(crate) enum Takes {
    Word,
    Number { least: u32, most: u32 },
    Flag,
}

/// What decides among the orders that pass.
#[derive(Clone, Copy)]
pub enum Preferred {
    /// The weights of the tasks.
    Weight,
    /// Their deadlines, in place of the weights.
    Deadline,
    /// Their places in chains, and then their deadlines.
    Chains,
}

/// What a call's words choose beside its inputs, of which an option may name the second. Where a command does not take
/// an option, no words choose it.
#[derive(Clone, Copy)]
pub struct Options<'a> {
    /// `--prefer weight|deadline|chains`
    pub prefer: Option<Preferred>,
    /// `--strict`: a set is refused for what may be a mistake.
    pub is_strict: bool,
    /// `--task NAME`: the task that is asked about.
    pub task: Option<&'a str>,
    /// `--chain NAME`: the chain that is asked about, or whose way a picture shows.
    pub chain: Option<&'a str>,
    /// `--all`: what each task of a conflict needs, however many there are.
    pub all: bool,
    /// `--sort slack`: by what the lines of levels stand; no other word where words were read.
    pub sort: Option<&'a str>,
    /// `--base N`: the priority of level 1.
    pub base: Option<usize>,
    /// `--room N`: how many numbers are to stay free beside one that is given anew.
    pub room: Option<usize>,
    /// `--lower-is-higher`: the smaller number is the higher priority.
    pub lower_is_higher: bool,
    /// `--seed N`: the seed of a random release list.
    pub seed: Option<usize>,
    /// `--tasks`: what each task came to in a run, in place of its trace.
    pub by_task: bool,
    /// `--tolerance N`: by so many microseconds the times of a trace may be past what is promised.
    pub tolerance: Option<usize>,
    /// `--jobless`: it is meant that a task may have no job in a trace.
    pub jobless: bool,
    /// `--from T`: where a picture begins, in microseconds.
    pub from: Option<usize>,
    /// `--to T`: where it ends.
    pub to: Option<usize>,
    /// `--width N`: how wide it is, in pixels.
    pub width: Option<usize>,
    /// `--print N`: the number of the A size of the paper that it is printed on.
    pub print: Option<usize>,
    /// `--title TEXT`: what stands behind its verdict.
    pub title: Option<&'a str>,
    /// `--tasks NAMES`: the tasks that have rows in it, a comma between two, or all.
    pub rows: Option<&'a str>,
    /// The number of the team whose script it is.
    pub team: Option<usize>,
}

/// A command with its inputs, and what its words choose.
#[derive(Clone, Copy)]
pub enum Call<'a> {
    One {
        command: OfOne,
        input: Input<'a>,
        options: Options<'a>,
    },
    Two {
        command: OfTwo,
        first: Input<'a>,
        second: Input<'a>,
        options: Options<'a>,
    },
    Number {
        command: OfNumber,
        input: Input<'a>,
        number: usize,
        options: Options<'a>,
    },
}

impl Named<'_> {
    fn is_standard(&self) -> bool
        ensures { result ≡ is_standard self.now }
    {
        matches!(self, Named::Standard)
    }
}

impl Input<'_> {
    // It has standard input in it.
    fn has_standard(&self) -> bool
        ensures { result ≡ has_standard self.now }
    {
        match self {
            Input::One(named) => named.is_standard(),
            Input::Both { list, new } => list.is_standard() || new.is_standard(),
        }
    }

    // It has it twice.
    fn has_twice(&self) -> bool
        ensures { result ≡ has_twice self.now }
    {
        match self {
            Input::One(_) => false,
            Input::Both { list, new } => list.is_standard() && new.is_standard(),
        }
    }
}

impl OfOne {
    // The option that names it a second input, and the command of two that it then is.
    pub(crate) fn by_file(self) -> Option<(Choice, OfTwo)>
        ensures { result ≡ by_file self }
    {
        match self {
            OfOne::Settings => Some((Choice::Keep, OfTwo::Keep)),
            OfOne::Worst => Some((Choice::At, OfTwo::WorstAt)),
            OfOne::Explain => Some((Choice::At, OfTwo::ExplainAt)),
            OfOne::Limits => Some((Choice::At, OfTwo::LimitsAt)),
            _ => None,
        }
    }
}

impl OfTwo {
    // The name of its second input.
    pub(crate) fn second<'a>(self) -> &'a str
        ensures { result.now ≡ second_of self }
    {
        match self {
            OfTwo::Check => "CERT",
            OfTwo::Judge | OfTwo::Keep => "SETTINGS",
            OfTwo::WorstAt | OfTwo::ExplainAt | OfTwo::LimitsAt => "SETTINGS",
            OfTwo::Diff => "NEW",
            OfTwo::Simulate | OfTwo::Draw | OfTwo::DrawBeside => "RELEASES",
            OfTwo::Observe => "TRACE",
        }
    }

    // The option that names a set beside its inputs, and the command of two that it then is.
    pub(crate) fn beside(self) -> Option<(Choice, OfTwo)>
        ensures { result ≡ beside self }
    {
        match self {
            OfTwo::Draw => Some((Choice::Beside, OfTwo::DrawBeside)),
            _ => None,
        }
    }
}

impl OfNumber {
    // The number that it takes.
    pub(crate) fn number<'a>(self) -> Number<'a>
        ensures name { result.name.now ≡ number_name self }
        ensures least { result.least ≡ pos (least_of self) }
        ensures most { result.most ≡ pos (most_of self) }
    {
        match self {
            OfNumber::Releases => Number {
                name: "UNTIL",
                help: "Where the list ends, in microseconds, up to 60000000",
                least: 0,
                most: LATEST_END as i64,
            },
            OfNumber::Rush => Number {
                name: "WORKERS",
                help: "How many threads may test the set of a commit, from 1 to 8",
                least: 1,
                most: MOST_WORKERS as i64,
            },
        }
    }
}

impl Choice {
    // Its word.
    pub(crate) fn name<'a>(self) -> &'a str
        ensures { result.now ≡ choice_name self }
    {
        match self {
            Choice::Prefer => "prefer",
            Choice::Strict => "strict",
            Choice::Task => "task",
            Choice::Chain => "chain",
            Choice::Base => "base",
            Choice::Room => "room",
            Choice::LowerIsHigher => "lower-is-higher",
            Choice::Seed => "seed",
            Choice::Tasks => "tasks",
            Choice::Tolerance => "tolerance",
            Choice::Jobless => "jobless",
            Choice::Keep => "keep",
            Choice::At => "at",
            Choice::Beside => "beside",
            Choice::All => "all",
            Choice::Sort => "sort",
            Choice::From => "from",
            Choice::To => "to",
            Choice::Width => "width",
            Choice::Print => "print",
            Choice::Title => "title",
            Choice::Rows => "tasks",
            Choice::Team => "TEAM",
        }
    }

    // Its word behind two dashes; none where it stands behind the inputs without one.
    pub(crate) fn long<'a>(self) -> Option<&'a str>
        ensures { option_map (λ s. s.now) result ≡ long_of self }
    {
        match self {
            Choice::Team => None,
            _ => Some(self.name()),
        }
    }

    // What `clap` keeps it under.
    pub(crate) fn id<'a>(self) -> &'a str
        ensures { result.now ≡ choice_id self }
    {
        match self {
            Choice::Rows => "rows",
            _ => self.name(),
        }
    }

    // What it takes.
    pub(crate) fn takes(self) -> Takes
        ensures { result ≡ takes_of self }
    {
        match self {
            Choice::Prefer
            | Choice::Task
            | Choice::Chain
            | Choice::Keep
            | Choice::At
            | Choice::Beside
            | Choice::Title
            | Choice::Sort
            | Choice::Rows => Takes::Word,
            Choice::Base => Takes::Number {
                least: 1,
                most: MOST_PRIORITY as u32,
            },
            Choice::Room => Takes::Number {
                least: 0,
                most: MOST_ROOM as u32,
            },
            Choice::Seed => Takes::Number {
                least: 0,
                most: MOST_SEED as u32,
            },
            Choice::Tolerance => Takes::Number {
                least: 0,
                most: MOST_TOLERANCE as u32,
            },
            Choice::From | Choice::To => Takes::Number {
                least: 0,
                most: LATEST_END as u32,
            },
            Choice::Width => Takes::Number {
                least: LEAST_WIDTH as u32,
                most: MOST_WIDTH as u32,
            },
            Choice::Print => Takes::Number {
                least: LEAST_PAPER as u32,
                most: MOST_PAPER as u32,
            },
            Choice::Team => Takes::Number {
                least: 1,
                most: MOST_TEAM as u32,
            },
            Choice::Strict
            | Choice::LowerIsHigher
            | Choice::Tasks
            | Choice::All
            | Choice::Jobless => Takes::Flag,
        }
    }

    // What help calls the word or the number that it takes.
    pub(crate) fn value_name<'a>(self) -> &'a str {
        match self {
            Choice::Prefer | Choice::Sort => "ORDER",
            Choice::Task | Choice::Chain => "NAME",
            Choice::Keep | Choice::At => "SETTINGS",
            Choice::Beside => "NEW",
            Choice::From | Choice::To => "T",
            Choice::Title => "TEXT",
            Choice::Rows => "NAMES",
            Choice::Team => "TEAM",
            Choice::Base
            | Choice::Room
            | Choice::Seed
            | Choice::Strict
            | Choice::LowerIsHigher
            | Choice::Tasks
            | Choice::All
            | Choice::Tolerance
            | Choice::Jobless
            | Choice::Print
            | Choice::Width => "N",
        }
    }

    // What it chooses.
    pub(crate) fn help<'a>(self) -> &'a str {
        match self {
            Choice::Prefer => "What decides among the orders that pass: weight, deadline or chains",
            Choice::Strict => "Refuses a set for what may be a mistake",
            Choice::Task => "The task that is asked about, alone",
            Choice::Chain => "The chain whose bound is laid out as a run, or whose way is drawn",
            Choice::Base => "The least priority, from 1 to 999969",
            Choice::Room => "How many numbers stay free beside each given anew, if they fit",
            Choice::LowerIsHigher => "The smaller number is the higher priority",
            Choice::Seed => "A random list in place of the densest, the same for the same seed",
            Choice::Tasks => "What each task and each chain came to, in place of who executes when",
            Choice::Tolerance => {
                "By how many microseconds a time may be past what is promised, up to 60000000"
            }
            Choice::Jobless => "It is meant that some task has no job",
            Choice::Keep => "Settings of a node whose order stays, and numbers as far as can be",
            Choice::At => "Settings that give the order, in place of the best one",
            Choice::Beside =>
                "A task set that runs the list, too: each task's row below that in SET",
            Choice::All => "What each task of a conflict needs, also of more than three",
            Choice::Sort =>
                "How levels stand: slack, the least first, in place of the lowest first",
            Choice::From => "Where the picture begins, in microseconds",
            Choice::To => "Where the picture ends, in microseconds, if not with the run",
            Choice::Width => "How wide the picture is, in pixels, from 960 to 16000",
            Choice::Print => "For paper of size A3 or A4, across: 3 or 4",
            Choice::Title => "What stands behind its verdict",
            Choice::Rows =>
                "The tasks that have rows, a comma between two, or all; else the list's",
            Choice::Team => {
                "The number of the team whose script it is, from 1 to 8, if not each team has a draft"
            }
        }
    }
}

impl<'a> Options<'a> {
    /// Where nothing is chosen.
    pub fn none() -> Options<'a>
        ensures { result ≡ no_options }
    {
        Options {
            prefer: None,
            is_strict: false,
            task: None,
            chain: None,
            all: false,
            sort: None,
            base: None,
            room: None,
            lower_is_higher: false,
            seed: None,
            by_task: false,
            tolerance: None,
            jobless: false,
            from: None,
            to: None,
            width: None,
            print: None,
            title: None,
            rows: None,
            team: None,
        }
    }
}

impl Options<'_> {
    // It is asked for another order of lines than that by slack.
    fn sorts_other(&self) -> bool
        ensures { result ≡ is_other_sort (option_map (λ s. s.now) self.now.sort) }
    {
        match self.sort {
            Some(word) => word != "slack",
            None => false,
        }
    }
}

impl Verb {
    // The name of its first input.
    pub(crate) fn input<'a>(self) -> &'a str
        ensures { result.now ≡ input_of self }
    {
        match self {
            Verb::One(OfOne::Play) | Verb::Number(OfNumber::Rush) => "SCRIPT",
            _ => "SET",
        }
    }
}

impl Call<'_> {
    // The call asks for another order of lines than that by slack.
    pub(crate) fn sorts_other(&self) -> bool
        ensures { result ≡ sorts_other self.now }
    {
        match self {
            Call::One { options, .. } => options.sorts_other(),
            Call::Two { options, .. } => options.sorts_other(),
            Call::Number { options, .. } => options.sorts_other(),
        }
    }

    // The words of the call name standard input twice.
    pub(crate) fn is_twice(&self) -> bool
        ensures { result ≡ is_twice self.now }
    {
        match self {
            Call::Two { first, second, .. } => {
                first.has_standard() && second.has_standard() || second.has_twice()
            }
            _ => false,
        }
    }
}
