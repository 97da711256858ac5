//! Why a command was refused, and the line that says so.
ghost use Rattle.std.specs.Prelude.{◌≡◌, ◌++◌, ℕ, List, Some};
ghost use Rattle.answering.specs.declared.refusal.CommandRefusal.TheVariants.{OutOfMemory};
ghost use Rattle.answering.specs.Refusals.{cause_words, certificate_words, chain_cause_words, chain_words, check_words, doubt_words, fault_words, lone_cause_words, node_words, outranks_words, padding_words, refusal_line, run_words, rush_words, script_words, settings_words, status_of, teams_words, text_words, trace_words, whose_words, words_of};
ghost use Rattle.answering.specs.Phrases.{AreParts, first_words, part_words, phrase_words, unknown_words};

use crate::phrase::Field::{Named, Number, Place, Word};
use crate::phrase::Phrase::{Alone, Four, One, Three, Two};
use crate::phrase::{Front, Phrase, write_part};
use crate::status::Status;
use ceiling_kernel::RunFault;
use cert_checker::CheckFault;
use certificate::CertFault;
use chain_tables::{ChainCause, ChainFault, Whose};
use judge::SettingsFault;
use overheads::PadFault;
use preferences::Doubt;
use release_list::TextFault;
use scripts::{RushFault, ScriptFault};
use std::alloc::AllocError;
use std::fmt;
use streams::InputFault;
use task_sheet::{Name, OutranksCause, SetFault, SheetCause};
use teams::{NodeFault, TeamsFault};
use trace_text::TraceFault;

/// Why a command was refused. Its `Display` is the line that the command prints.
#[derive(Clone, Copy)]
pub enum CommandRefusal {
    /// An input was not read.
    Input(InputFault),
    /// The set's input is no set.
    Set(TeamsFault),
    /// The new set's input is no set.
    New(TeamsFault),
    /// The set may have a mistake, and the call is strict.
    Doubtful(Doubt),
    /// The same of the new set.
    NewDoubtful(Doubt),
    /// The set's chains are none.
    Chain(ChainFault),
    /// The same of the new set.
    NewChain(ChainFault),
    /// The certificate's input is no certificate.
    Certificate(CertFault),
    /// The certificate does not show what it says.
    Check(CheckFault),
    /// The release list's input is no release list.
    Text(TextFault),
    /// The release list was not run, or a job overran.
    Run(RunFault),
    /// The same of the new set's run.
    NewRun(RunFault),
    /// The settings' input is no settings of the set.
    Settings(SettingsFault),
    /// The same of the new set.
    NewSettings(SettingsFault),
    /// The trace's input is no trace of the set.
    Trace(TraceFault),
    /// The script's input is no script.
    Script(ScriptFault),
    /// The lines of a script were not run to the end of all teams.
    Rush(RushFault),
    /// No task of the set has the name that was asked about; none where the word is no name.
    NoSuchTask { name: Option<Name> },
    /// No chain of the set has the name that was asked about; none where the word is no name.
    NoSuchChain { name: Option<Name> },
    /// The way along a chain was asked for in a picture of two runs, which shows none.
    ChainBeside,
    /// Nothing of the run lies in the window that was asked for.
    EmptyWindow,
    /// More teams have tasks than a script has.
    TooManyTeams,
    /// Memory ran out after the inputs were read.
    OutOfMemory,
}

impl From<AllocError> for CommandRefusal {
    ghost from_gives = { λ _ refusal. refusal ≡ OutOfMemory };

    fn from(_e: AllocError) -> CommandRefusal {
        CommandRefusal::OutOfMemory
    }
}

impl CommandRefusal {
    /// It is of what the new set's input says.
    pub fn is_of_new(self) -> bool {
        matches!(
            self,
            CommandRefusal::New(_) | CommandRefusal::NewDoubtful(_) | CommandRefusal::NewChain(_)
        )
    }

    /// The exit status.
    pub fn status(self) -> Status
        ensures { result ≡ status_of self }
    {
        match self {
            CommandRefusal::Input(InputFault::TooLong) => Status::BadInput,
            CommandRefusal::Input(InputFault::OutOfMemory) => Status::OutOfMemory,
            CommandRefusal::Input(InputFault::ReadFailed) => Status::InputOrOutputFailed,
            CommandRefusal::Set(TeamsFault::OutOfMemory) => Status::OutOfMemory,
            CommandRefusal::Set(_) => Status::BadInput,
            CommandRefusal::New(TeamsFault::OutOfMemory) => Status::OutOfMemory,
            CommandRefusal::New(_) => Status::BadInput,
            CommandRefusal::Doubtful(_) | CommandRefusal::NewDoubtful(_) => Status::BadInput,
            CommandRefusal::Chain(ChainFault::OutOfMemory) => Status::OutOfMemory,
            CommandRefusal::Chain(_) => Status::BadInput,
            CommandRefusal::NewChain(ChainFault::OutOfMemory) => Status::OutOfMemory,
            CommandRefusal::NewChain(_) => Status::BadInput,
            CommandRefusal::Certificate(CertFault::OutOfMemory) => Status::OutOfMemory,
            CommandRefusal::Certificate(_) => Status::BadCertificate,
            CommandRefusal::Check(_) => Status::BadCertificate,
            CommandRefusal::Text(TextFault::OutOfMemory) => Status::OutOfMemory,
            CommandRefusal::Text(_) => Status::BadInput,
            CommandRefusal::Run(RunFault::OutOfMemory) => Status::OutOfMemory,
            CommandRefusal::Run(_) => Status::BadInput,
            CommandRefusal::NewRun(RunFault::OutOfMemory) => Status::OutOfMemory,
            CommandRefusal::NewRun(_) => Status::BadInput,
            CommandRefusal::Settings(SettingsFault::OutOfMemory) => Status::OutOfMemory,
            CommandRefusal::Settings(_) => Status::BadInput,
            CommandRefusal::NewSettings(SettingsFault::OutOfMemory) => Status::OutOfMemory,
            CommandRefusal::NewSettings(_) => Status::BadInput,
            CommandRefusal::Trace(TraceFault::OutOfMemory) => Status::OutOfMemory,
            CommandRefusal::Trace(_) => Status::BadInput,
            CommandRefusal::Script(ScriptFault::OutOfMemory) => Status::OutOfMemory,
            CommandRefusal::Script(_) => Status::BadInput,
            CommandRefusal::Rush(_) => Status::OutOfMemory,
            CommandRefusal::NoSuchTask { .. } => Status::BadInput,
            CommandRefusal::NoSuchChain { .. } => Status::BadInput,
            CommandRefusal::ChainBeside => Status::BadInput,
            CommandRefusal::EmptyWindow => Status::BadInput,
            CommandRefusal::TooManyTeams => Status::BadInput,
            CommandRefusal::OutOfMemory => Status::OutOfMemory,
        }
    }
}

// The name of a sheet's fault, and the place of the section where it is of one.
fn cause_parts(cause: SheetCause) -> (&'static str, Option<usize>)
    ensures { AreParts cause result.0.now result.1 }
{
    match cause {
        SheetCause::BadWeight => ("BadWeight", None),
        SheetCause::BadPeriod => ("BadPeriod", None),
        SheetCause::DeadlineZero => ("DeadlineZero", None),
        SheetCause::DeadlinePastPeriod => ("DeadlinePastPeriod", None),
        SheetCause::CostZero => ("CostZero", None),
        SheetCause::CostPastPeriod => ("CostPastPeriod", None),
        SheetCause::TooManySections => ("TooManySections", None),
        SheetCause::NoLocks { section } => ("NoLocks", Some(section)),
        SheetCause::TooManyLocks { section } => ("TooManyLocks", Some(section)),
        SheetCause::LockTwice { section } => ("LockTwice", Some(section)),
        SheetCause::LenZero { section } => ("LenZero", Some(section)),
        SheetCause::Overlap { section } => ("Overlap", Some(section)),
        SheetCause::SectionPastCost { section } => ("SectionPastCost", Some(section)),
    }
}

// The fault of a task's sheet, with the places of the task and of the section.
fn cause_phrase(task: usize, cause: SheetCause) -> Phrase
    ensures { phrase_words result ≡ cause_words task cause }
{
    match cause_parts(cause) {
        (name, None) => One(name, Place(task)),
        (name, Some(section)) => Two(name, Place(task), Place(section)),
    }
}

// The fault of a sheet that stands alone, with the place of the section.
fn lone_cause_phrase(cause: SheetCause) -> Phrase
    ensures { phrase_words result ≡ lone_cause_words cause }
{
    match cause_parts(cause) {
        (name, None) => Alone(name),
        (name, Some(section)) => One(name, Place(section)),
    }
}

// The name of the fault of names of tasks above which a task must stand.
fn outranks_name(cause: OutranksCause) -> &'static str
    ensures { result.now ≡ outranks_words cause }
{
    match cause {
        OutranksCause::TooManyOutranks => "TooManyOutranks",
        OutranksCause::OutranksTwice => "OutranksTwice",
        OutranksCause::OutranksSelf => "OutranksSelf",
    }
}

// A script's fault, with its line.
fn script_part(fault: ScriptFault) -> (Front, Phrase)
    ensures { part_words result.0 (phrase_words result.1) ≡ script_words fault }
{
    match fault {
        ScriptFault::BadLine { line } => (Front::Nothing, One("BadLine", Number(line))),
        ScriptFault::Sheet { line, cause } => (Front::Line(line), lone_cause_phrase(cause)),
        ScriptFault::BadJitter { line } => (
            Front::Nothing,
            Two("line", Number(line), Word("BadJitter")),
        ),
        ScriptFault::Outranks { line, cause } => (Front::Line(line), Alone(outranks_name(cause))),
        ScriptFault::BadOverhead { line } => (
            Front::Nothing,
            Two("line", Number(line), Word("BadOverhead")),
        ),
        ScriptFault::BadInterrupt { line } => (
            Front::Nothing,
            Two("line", Number(line), Word("BadInterrupt")),
        ),
        ScriptFault::OutOfMemory => (Front::Nothing, Alone("OutOfMemory")),
    }
}

// A set's fault, with its fields.
fn fault_phrase(fault: SetFault) -> Phrase
    ensures { phrase_words result ≡ fault_words fault }
{
    match fault {
        SetFault::Syntax => Alone("Syntax"),
        SetFault::UnknownKey { task, section } => Two("UnknownKey", Place(task), Place(section)),
        SetFault::MissingKey { task, section, key } => Three(
            "MissingKey",
            Place(task),
            Place(section),
            Word(key.word()),
        ),
        SetFault::WrongKind { task, section, key } => Three(
            "WrongKind",
            Place(task),
            Place(section),
            Word(key.word()),
        ),
        SetFault::BadPreference => Alone("BadPreference"),
        SetFault::UnknownOverhead => Alone("UnknownOverhead"),
        SetFault::BadOverhead { key } => One("BadOverhead", Word(key.word())),
        SetFault::BadInterrupt { interrupt } => One("BadInterrupt", Place(interrupt)),
        SetFault::TooManyInterrupts => Alone("TooManyInterrupts"),
        SetFault::BadName { task, section } => Two("BadName", Place(task), Place(section)),
        SetFault::Sheet { task, cause } => cause_phrase(task, cause),
        SetFault::BadJitter { task } => One("BadJitter", Place(task)),
        SetFault::Outranks { task, cause } => One(outranks_name(cause), Place(task)),
        SetFault::SameName { task } => One("SameName", Place(task)),
        SetFault::TooManyTasks => Alone("TooManyTasks"),
        SetFault::OutOfMemory => Alone("OutOfMemory"),
    }
}

// The fault of a node's document, with the team and the key.
fn node_phrase(fault: NodeFault) -> Phrase
    ensures { phrase_words result ≡ node_words fault }
{
    match fault {
        NodeFault::Syntax => Alone("Syntax"),
        NodeFault::UnknownRoot => Alone("UnknownKey"),
        NodeFault::Says { fault } => fault_phrase(fault),
        NodeFault::BadStrict => Alone("WrongKind 0 0 strict"),
        NodeFault::NoLocks => Alone("WrongKind 0 0 locks"),
        NodeFault::BadLockName => Alone("BadLock"),
        NodeFault::BadLock { name } => One("BadLock", Named(name)),
        NodeFault::TooManyLocks => Alone("TooManyLocks"),
        NodeFault::NoTeams => Alone("WrongKind"),
        NodeFault::BadName => Alone("BadName"),
        NodeFault::NoBudget { team } => One("WrongKind", Named(team)),
        NodeFault::UnknownKey { team } => One("UnknownKey", Named(team)),
        NodeFault::NoNumber { team, quantity } => {
            Two("WrongKind", Named(team), Word(quantity.word()))
        }
        NodeFault::NoRight { team } => Two("WrongKind", Named(team), Word("node")),
        NodeFault::OutOfMemory => Alone("OutOfMemory"),
    }
}

// What a node doesn't leave room for, with the task.
fn padding_phrase(fault: PadFault) -> Phrase
    ensures { phrase_words result ≡ padding_words fault }
{
    match fault {
        PadFault::CostPastPeriod { task } => One("PaddedCost", Named(task)),
        PadFault::JitterPastDeadline { task } => One("PaddedJitter", Named(task)),
        PadFault::OutOfMemory => Alone("OutOfMemory"),
    }
}

// The fault of a set's text, with its fields: that of a team's document stands behind the team.
fn teams_part(fault: TeamsFault) -> (Front, Phrase)
    ensures { part_words result.0 (phrase_words result.1) ≡ teams_words fault }
{
    match fault {
        TeamsFault::Alone { fault } => (Front::Nothing, fault_phrase(fault)),
        TeamsFault::BadHead { part } => (Front::Nothing, One("BadHead", Place(part))),
        TeamsFault::Of { team, fault } => (Front::Team(team), fault_phrase(fault)),
        TeamsFault::Taken { team, task, other } => (
            Front::Nothing,
            Three("TakenName", Named(team), Named(task), Named(other)),
        ),
        TeamsFault::NodesOwn { team, key } => (
            Front::Nothing,
            Two("NodesOwn", Named(team), Word(key.word())),
        ),
        TeamsFault::UnknownLock {
            team,
            task,
            section,
            lock,
        } => (
            Front::Nothing,
            Four(
                "UnknownLock",
                Named(team),
                Named(task),
                Place(section),
                Named(lock),
            ),
        ),
        TeamsFault::Renamed { team, task, cause } => (
            Front::Task(team, task),
            lone_cause_phrase(cause),
        ),
        TeamsFault::OtherPreference { team, other } => (
            Front::Nothing,
            Two("OtherPreference", Named(team), Named(other)),
        ),
        TeamsFault::OtherNode { team, other } => (
            Front::Nothing,
            Two("OtherNode", Named(team), Named(other)),
        ),
        TeamsFault::TooManyInterrupts => (Front::Nothing, Alone("TooManyInterrupts")),
        TeamsFault::Node { fault } => (Front::Node, node_phrase(fault)),
        TeamsFault::NoSuchTeam { team } => (Front::Nothing, One("NoSuchTeam", Named(team))),
        TeamsFault::PastBudget {
            team,
            quantity,
            number,
            limit,
        } => (
            Front::Nothing,
            Four(
                "PastBudget",
                Named(team),
                Word(quantity.word()),
                Number(number),
                Number(limit),
            ),
        ),
        TeamsFault::Padded { fault } => (Front::Nothing, padding_phrase(fault)),
        TeamsFault::TooManyTasks => (Front::Nothing, Alone("TooManyTasks")),
        TeamsFault::OutOfMemory => (Front::Nothing, Alone("OutOfMemory")),
    }
}

// What may be a mistake in a set, with two names.
fn doubt_phrase(doubt: Doubt) -> Phrase
    ensures { phrase_words result ≡ doubt_words doubt }
{
    match doubt {
        Doubt::LoneLock { task, lock } => Two("LoneLock", Named(task), Named(lock)),
        Doubt::NoSuchName { task, name } => Two("NoSuchName", Named(task), Named(name)),
        Doubt::NamesDecide { lower, higher } => Two("NamesDecide", Named(lower), Named(higher)),
    }
}

// The fault of a document's chains, with the chain's place and the key.
fn chain_cause_phrase(cause: ChainCause) -> Phrase
    ensures { phrase_words result ≡ chain_cause_words cause }
{
    match cause {
        ChainCause::UnknownKey { chain } => One("ChainUnknownKey", Place(chain)),
        ChainCause::MissingKey { chain, key } => Two(
            "ChainMissingKey",
            Place(chain),
            Word(key.word()),
        ),
        ChainCause::WrongKind { chain, key } => {
            Two("ChainWrongKind", Place(chain), Word(key.word()))
        }
        ChainCause::BadName { chain } => One("BadChainName", Place(chain)),
        ChainCause::Length { chain } => One("ChainLength", Place(chain)),
        ChainCause::TaskTwice { chain } => One("ChainTaskTwice", Place(chain)),
        ChainCause::BadLimit { chain, key } => Two("BadLimit", Place(chain), Word(key.word())),
        ChainCause::BadOffsets { chain } => One("BadOffsets", Place(chain)),
        ChainCause::BadWrites { chain } => One("BadWrites", Place(chain)),
        ChainCause::TooManyChains => Alone("TooManyChains"),
        ChainCause::SameName { chain } => One("SameChain", Place(chain)),
    }
}

// Whose document has the chains, where there are several.
fn front_of(whose: Whose) -> Front
    ensures { (words : List ℕ) → part_words result words ≡ whose_words whose ++ words }
{
    match whose {
        Whose::Alone => Front::Nothing,
        Whose::Node => Front::Node,
        Whose::Team { team } => Front::Team(team),
    }
}

// The fault of a set's chains, with its fields.
fn chain_part(fault: ChainFault) -> (Front, Phrase)
    ensures { part_words result.0 (phrase_words result.1) ≡ chain_words fault }
{
    match fault {
        ChainFault::Document { whose, cause } => (front_of(whose), chain_cause_phrase(cause)),
        ChainFault::Taken { team, chain, other } => (
            Front::Nothing,
            Three("TakenChain", Named(team), Named(chain), Named(other)),
        ),
        ChainFault::TooManyChains => (Front::Nothing, Alone("TooManyChains")),
        ChainFault::NoSuchTask { chain, task } => (
            Front::Nothing,
            Two("ChainTask", Named(chain), Named(task)),
        ),
        ChainFault::BadOffset { chain, task } => (
            Front::Nothing,
            Two("BadOffset", Named(chain), Named(task)),
        ),
        ChainFault::TooManyArrivals { chain } => {
            (Front::Nothing, One("TooManyArrivals", Named(chain)))
        }
        ChainFault::OutOfMemory => (Front::Nothing, Alone("OutOfMemory")),
    }
}

// A fault of a certificate's text, with its line.
fn certificate_phrase(fault: CertFault) -> Phrase
    ensures { phrase_words result ≡ certificate_words fault }
{
    match fault {
        CertFault::BadHead => Alone("BadHead"),
        CertFault::BadLine { line } => One("BadLine", Number(line)),
        CertFault::Truncated => Alone("Truncated"),
        CertFault::Trailing => Alone("Trailing"),
        CertFault::OutOfMemory => Alone("OutOfMemory"),
    }
}

// What a certificate fails to show, with its fields.
fn check_phrase(fault: CheckFault) -> Phrase
    ensures { phrase_words result ≡ check_words fault }
{
    match fault {
        CheckFault::WrongVersion => Alone("WrongVersion"),
        CheckFault::WrongTasks { level } => One("WrongTasks", Place(level)),
        CheckFault::BadPass { level } => One("BadPass", Place(level)),
        CheckFault::BadChain { level, name } => Two("BadChain", Place(level), Named(name)),
        CheckFault::MissingFail { level, name } => Two("MissingFail", Place(level), Named(name)),
        CheckFault::EmptySet => Alone("EmptySet"),
        CheckFault::WrongChains => Alone("WrongChains"),
        CheckFault::BadAge { name } => One("BadAge", Named(name)),
    }
}

// A fault of a text, with its line.
fn text_phrase(fault: TextFault) -> Phrase
    ensures { phrase_words result ≡ text_words fault }
{
    match fault {
        TextFault::BadLine { line } => One("BadLine", Number(line)),
        TextFault::OutOfMemory => Alone("OutOfMemory"),
    }
}

// What stopped a simulation, with its fields.
fn run_phrase(fault: RunFault) -> Phrase
    ensures { phrase_words result ≡ run_words fault }
{
    match fault {
        RunFault::Unsorted { place } => One("Unsorted", Place(place)),
        RunFault::UnknownTask { place } => One("UnknownTask", Place(place)),
        RunFault::TooSoon { place } => One("TooSoon", Place(place)),
        RunFault::TooLate { place } => One("TooLate", Place(place)),
        RunFault::OutsideCost { place } => One("OutsideCost", Place(place)),
        RunFault::PastHorizon => Alone("PastHorizon"),
        RunFault::TooMany => Alone("TooMany"),
        RunFault::Overrun { name, time } => Two("Overrun", Named(name), Number(time)),
        RunFault::OutOfMemory => Alone("OutOfMemory"),
    }
}

// A fault of settings, with its line or its name.
fn settings_phrase(fault: SettingsFault) -> Phrase
    ensures { phrase_words result ≡ settings_words fault }
{
    match fault {
        SettingsFault::BadLine { line } => One("BadLine", Number(line)),
        SettingsFault::UnknownTask { line } => One("UnknownTask", Number(line)),
        SettingsFault::UnknownLock { line } => One("UnknownLock", Number(line)),
        SettingsFault::SameTask { line } => One("SameTask", Number(line)),
        SettingsFault::SameLock { line } => One("SameLock", Number(line)),
        SettingsFault::SameNumber { line } => One("SameNumber", Number(line)),
        SettingsFault::MissingTask { name } => One("MissingTask", Named(name)),
        SettingsFault::MissingLock { name } => One("MissingLock", Named(name)),
        SettingsFault::WrongCeiling { name, .. } => One("WrongCeiling", Named(name)),
        SettingsFault::OutOfMemory => Alone("OutOfMemory"),
    }
}

// A fault of a trace, with its line.
fn trace_phrase(fault: TraceFault) -> Phrase
    ensures { phrase_words result ≡ trace_words fault }
{
    match fault {
        TraceFault::BadLine { line } => One("BadLine", Number(line)),
        TraceFault::SliceOverlap { line } => One("SliceOverlap", Number(line)),
        TraceFault::JobUnsorted { line } => One("JobUnsorted", Number(line)),
        TraceFault::TooManyLines => Alone("TooManyLines"),
        TraceFault::NoJob { line } => One("NoJob", Number(line)),
        TraceFault::OutOfMemory => Alone("OutOfMemory"),
    }
}

// Why lines were not run to the end.
fn rush_phrase(fault: RushFault) -> Phrase
    ensures { phrase_words result ≡ rush_words fault }
{
    Alone(match fault {
        RushFault::OutOfMemory => "OutOfMemory",
        RushFault::ThreadRefused => "ThreadRefused",
        RushFault::Foreign => "Foreign",
        RushFault::Behind => "Behind",
        RushFault::ReceiptMismatch => "ReceiptMismatch",
    })
}

// That no task or no chain has a name; none where the word is no name.
fn unknown_phrase(what: &'static str, name: Option<Name>) -> Phrase
    ensures { phrase_words result ≡ unknown_words what.now name }
{
    match name {
        Some(name) => One(what, Named(name)),
        None => Alone(what),
    }
}

// What a refusal says: of which part, and what, as of the first set.
fn part_of(refusal: CommandRefusal) -> (Front, Phrase)
    ensures { part_words result.0 (phrase_words result.1) ≡ first_words refusal }
{
    match refusal {
        CommandRefusal::Input(InputFault::TooLong) => (Front::Nothing, Alone("InputTooLong")),
        CommandRefusal::Input(InputFault::ReadFailed) => (Front::Nothing, Alone("ReadFailed")),
        CommandRefusal::Set(fault) | CommandRefusal::New(fault) => teams_part(fault),
        CommandRefusal::Doubtful(doubt) | CommandRefusal::NewDoubtful(doubt) => {
            (Front::Nothing, doubt_phrase(doubt))
        }
        CommandRefusal::Chain(fault) | CommandRefusal::NewChain(fault) => chain_part(fault),
        CommandRefusal::Certificate(fault) => (Front::Nothing, certificate_phrase(fault)),
        CommandRefusal::Check(fault) => (Front::Nothing, check_phrase(fault)),
        CommandRefusal::Text(fault) => (Front::Nothing, text_phrase(fault)),
        CommandRefusal::Run(fault) | CommandRefusal::NewRun(fault) => {
            (Front::Nothing, run_phrase(fault))
        }
        CommandRefusal::Settings(fault) | CommandRefusal::NewSettings(fault) => {
            (Front::Nothing, settings_phrase(fault))
        }
        CommandRefusal::Trace(fault) => (Front::Nothing, trace_phrase(fault)),
        CommandRefusal::Script(fault) => script_part(fault),
        CommandRefusal::Rush(fault) => (Front::Nothing, rush_phrase(fault)),
        CommandRefusal::NoSuchTask { name } => (Front::Nothing, unknown_phrase("NoSuchTask", name)),
        CommandRefusal::NoSuchChain { name } => {
            (Front::Nothing, unknown_phrase("NoSuchChain", name))
        }
        CommandRefusal::ChainBeside => (Front::Nothing, Alone("ChainBeside")),
        CommandRefusal::EmptyWindow => (Front::Nothing, Alone("EmptyWindow")),
        CommandRefusal::TooManyTeams => (Front::Nothing, Alone("TooManyTeams")),
        CommandRefusal::Input(InputFault::OutOfMemory) | CommandRefusal::OutOfMemory => {
            (Front::Nothing, Alone("OutOfMemory"))
        }
    }
}

// What stands in front of that where it is of the new set; out of memory stands alone.
fn new_word(refusal: CommandRefusal) -> &'static str
    ensures { result.now ++ first_words refusal ≡ words_of refusal }
{
    match refusal {
        CommandRefusal::New(TeamsFault::OutOfMemory)
        | CommandRefusal::NewChain(ChainFault::OutOfMemory)
        | CommandRefusal::NewRun(RunFault::OutOfMemory)
        | CommandRefusal::NewSettings(SettingsFault::OutOfMemory) => "",
        CommandRefusal::New(_)
        | CommandRefusal::NewDoubtful(_)
        | CommandRefusal::NewChain(_)
        | CommandRefusal::NewRun(_)
        | CommandRefusal::NewSettings(_) => "new ",
        CommandRefusal::Input(_)
        | CommandRefusal::Set(_)
        | CommandRefusal::Doubtful(_)
        | CommandRefusal::Chain(_)
        | CommandRefusal::Certificate(_)
        | CommandRefusal::Check(_)
        | CommandRefusal::Text(_)
        | CommandRefusal::Run(_)
        | CommandRefusal::Settings(_)
        | CommandRefusal::Trace(_)
        | CommandRefusal::Script(_)
        | CommandRefusal::Rush(_)
        | CommandRefusal::NoSuchTask { .. }
        | CommandRefusal::NoSuchChain { .. }
        | CommandRefusal::ChainBeside
        | CommandRefusal::EmptyWindow
        | CommandRefusal::TooManyTeams
        | CommandRefusal::OutOfMemory => "",
    }
}

impl fmt::Display for CommandRefusal {
    ghost output = { λ refusal. Some (refusal_line refusal) };

    fn fmt<W: fmt::Write>(&self, f: &mut fmt::Formatter<W>) -> fmt::Result {
        let new = new_word(*self);
        let (front, phrase) = part_of(*self);
        write!(f, "refused: {new}")?;
        write_part(front, &phrase, f)?;
        f.write_str("\n")
    }
}
