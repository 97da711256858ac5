//! The documents of teams in one text.
ghost use Rattle.std.specs.Prelude.{◌<◌, ℕ, List, [], length, IfOk, IfErr, IfSome, MatchOption};
ghost use Rattle.teams.specs.Gathering.{AreGathered, HasNoHead, HasNoNode, IsFirstPart, IsHead, IsNodeHead, IsNodePart, IsNoDocuments, ReadsGathered};

use crate::fault::TeamsFault;
use crate::reading::{Part, read_part};
use crate::uniting::{TeamSet, united};
use lines::{Words, cut, name_of, number_of};
use std::alloc::{AllocError, Global};
use task_sheet::{Document, Name};

// The team and the count that a line `#% TEAM COUNT` has.
fn head_of(line: &[u8]) -> Option<(Name, u64)>
    ensures { MatchOption result
        ((team : List ℕ) (count : ℕ) → IsHead line.now team count → ⊥)
        (λ x. IsHead line.now x.0 x.1) }
{
    let mut words = Words::of(line);
    let mark = words.next()?;
    let team = name_of(words.next()?)?;
    let count = number_of(words.next()?)?;
    if mark == b"#%".as_slice() && words.next().is_none() {
        Some((team, count))
    } else {
        None
    }
}

// The count that a line `#% COUNT` has.
fn count_of(line: &[u8]) -> Option<u64>
    ensures { MatchOption result ((count : ℕ) → IsNodeHead line.now count → ⊥)
        (λ count. IsNodeHead line.now count) }
{
    let mut words = Words::of(line);
    let mark = words.next()?;
    let count = number_of(words.next()?)?;
    if mark == b"#%".as_slice() && words.next().is_none() {
        Some(count)
    } else {
        None
    }
}

/// The node's document at the head of a text, and what stands behind it; none where the text begins with no line
/// `#% COUNT` that so many bytes follow.
pub fn node_part<'a>(text: &'a [u8]) -> Option<(&'a [u8], &'a [u8])>
    ensures { MatchOption result (HasNoNode text.entry.now)
        (λ x. IsNodePart text.entry.now x.0.now x.1.now) }
{
    let (line, rest) = cut(text, b'\n')?;
    let count = count_of(line)?;
    if count > rest.len() as u64 {
        return None;
    }
    Some(rest.split_at(count as usize))
}

/// The first document of a text, with its team, and what stands behind it; none where the text begins with no line
/// `#% TEAM COUNT` that so many bytes follow.
pub fn first_part<'a>(text: &'a [u8]) -> Option<(Part<'a>, &'a [u8])>
    ensures part { MatchOption result (HasNoHead text.entry.now)
        (λ x. IsFirstPart text.entry.now x.0.team x.0.text.now x.1.now) }
    ensures less { IfSome result (λ x. length x.1.now < length text.entry.now) }
{
    let (line, rest) = cut(text, b'\n')?;
    let (team, count) = head_of(line)?;
    if count > rest.len() as u64 {
        return None;
    }
    let (text, after) = rest.split_at(count as usize);
    Some((Part { team, text }, after))
}

// The set of each document that a text has, in their order.
pub(crate) fn read_documents(alloc: Global, text: &[u8]) -> Result<Vec<TeamSet>, TeamsFault>
    ensures ok { IfOk result (λ sets. AreGathered text.now [] sets.items) }
    ensures err { IfErr result (IsNoDocuments text.now) }
{
    let mut sets = Vec::new(alloc);
    let mut rest = text;
    while !rest.is_empty() {
        match first_part(rest) {
            Some((part, after)) => {
                let set = read_part(alloc, &part)?;
                sets.push(set).map_err(AllocError::from)?;
                rest = after;
            }
            None => {
                let part = sets.len() + 1;
                return Err(TeamsFault::BadHead { part });
            }
        }
    }
    Ok(sets)
}

/// The documents of teams in one text as one, each behind a line `#% TEAM COUNT` with the count of its bytes: their
/// tasks, put together, what they prefer, and the node, where what one of them says holds for all; and the interrupts of
/// all. Refused in this order: part by part `BadHead`, or as its document is by itself; the first document that prefers
/// otherwise than one before it; the first that says another node; `TooManyInterrupts`; the first task, team by team and
/// by rank, that has the name of one before it; `TooManyTasks`.
pub fn read_gathered(alloc: Global, text: &[u8]) -> Result<Document, TeamsFault>
    ensures { ReadsGathered text.now result }
{
    let sets = read_documents(alloc, text)?;
    united(alloc, &sets)
}
