//! What a call asks of the sets that it reads.
ghost use Rattle.std.specs.Prelude.{◌≡◌, IfOk};
ghost use Rattle.preferences.specs.ReadsAsked.{IsTold, ReadsAsked, ReadsChained, doubt_told, lenient};

use crate::choice::Choice;
use crate::preferred::{Preferred, read_preferred};
use chain_tables::{Chain, ChainFault, read_chains};
use doubts::{Doubt, first_doubt};
use std::alloc::{AllocError, Global};
use task_sheet::{Preference, TaskSet};
use teams::{TeamsFault, is_strict};

/// Which sets are refused for a doubt.
#[derive(Clone, Copy, Debug, PartialEq, Eq)]
pub enum Strictness {
    /// None.
    Lenient,
    /// A set whose text asks for it: the node's document does.
    AsSaid,
    /// Each.
    Strict,
}

/// What a call asks of the sets that it reads.
#[derive(Clone, Copy, Debug, PartialEq, Eq)]
pub struct Asking {
    /// By what they are preferred, where the call says so.
    pub prefer: Option<Preference>,
    /// Which are refused for a doubt.
    pub strictness: Strictness,
}

impl Asking {
    /// The same, though a set may have doubts, whatever its text asks.
    pub fn lenient(self) -> Asking
        ensures { result ≡ lenient self }
    {
        let strictness = Strictness::Lenient;
        Asking { strictness, ..self }
    }
}

/// Why a text is no set as it is asked for.
#[derive(Clone, Copy, Debug, PartialEq, Eq)]
pub enum AskedFault {
    /// It is no set.
    Text(TeamsFault),
    /// The set has a doubt, this first.
    Doubt(Doubt),
    /// The chains that the text says of it are none.
    Chain(ChainFault),
}

/// A set as it is asked for, who says by what it is preferred, and the chains of its tasks.
#[derive(Drop)]
pub struct Asked {
    pub set: TaskSet,
    pub choice: Choice,
    pub chains: Vec<Chain>,
}

// Whether the set that a text says is refused for a doubt.
fn is_told(alloc: Global, strictness: Strictness, text: &[u8]) -> Result<bool, AllocError>
    ensures { IfOk result (λ told. IsTold strictness text.now told) }
{
    match strictness {
        Strictness::Lenient => Ok(false),
        Strictness::AsSaid => is_strict(alloc, text),
        Strictness::Strict => Ok(true),
    }
}

// The first doubt of a set, where it is told.
fn doubt_told(is_told: bool, read: &Preferred) -> Option<Doubt>
    ensures { result ≡ doubt_told is_told read.now.choice.call read.now.choice.own read.now.set }
{
    if is_told {
        let choice = read.choice;
        first_doubt(&read.set, choice.call.or(choice.own).is_none())
    } else {
        None
    }
}

// A set with the chains that its text says.
fn chained(alloc: Global, text: &[u8], read: Preferred) -> Result<Asked, AskedFault>
    ensures { ReadsChained text.now read.set read.choice result }
{
    match read_chains(alloc, text, &read.set) {
        Ok(chains) => Ok(Asked {
            set: read.set,
            choice: read.choice,
            chains,
        }),
        Err(ChainFault::OutOfMemory) => Err(AskedFault::Text(TeamsFault::OutOfMemory)),
        Err(fault) => Err(AskedFault::Chain(fault)),
    }
}

/// Reads a task set from a text as `read_preferred` does, with the chains that the text says. Refused behind all that
/// `read_preferred` refuses: where the call is strict, or as it lets the text say the text is, the set's first doubt; and
/// then as `read_chains` refuses.
pub fn read_asked(alloc: Global, text: &[u8], asking: Asking) -> Result<Asked, AskedFault>
    ensures { ReadsAsked asking text.now result }
{
    let read = match read_preferred(alloc, text, asking.prefer) {
        Ok(read) => read,
        Err(fault) => return Err(AskedFault::Text(fault)),
    };
    let is_told = match is_told(alloc, asking.strictness, text) {
        Ok(is_told) => is_told,
        Err(_) => return Err(AskedFault::Text(TeamsFault::OutOfMemory)),
    };
    match doubt_told(is_told, &read) {
        None => chained(alloc, text, read),
        Some(doubt) => Err(AskedFault::Doubt(doubt)),
    }
}
