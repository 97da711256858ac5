//! Sections in a line, as `LOCK+LOCK@AT:LEN`, and names, as `NAME+NAME`, or `*` for all others.
ghost use Rattle.std.specs.Prelude.{◌≡◌, ◌==◌, ◌≤◌, ◌++◌, ◌∷◌, [], length, take, bytes_eq, option_map, OnOk, IfErr};
ghost use Rattle.std.specs.List.{slice_split};
ghost use Rattle.scripts.specs.Gives.{GivesRow, GivesFirst};
ghost use Rattle.scripts.specs.ScriptWords.{word_names, all_sign, over_in, over_or_none, section_in, sections_in};
ghost use Rattle.task_sheet.specs.SheetFields.{outranks_of};

use crate::fields::round;
use crate::line::RowFault;
use lines::{Words, cut, name_of, number_of};
use std::alloc::Global;
use task_sheet::{Name, Outranks, Section};

// How many sections of a line are kept: one more than a sheet may have. So they show whether there are too many.
const KEPT: usize = 9;

// The names between the signs `+` of a text.
#[tactic(auto, using(crate::proofs::Ahead::words_read))]
fn names_of(alloc: Global, text: &[u8]) -> Result<Vec<Name>, RowFault>
    ensures { GivesRow (λ x. x.items) result (word_names (slice_split (λ b. b == 43) text.now)) }
{
    let mut names = Vec::new(alloc);
    let mut rest = text;
    while let Some((word, after)) = cut(rest, b'+') {
        let Some(name) = name_of(word) else {
            return Err(RowFault::Bad);
        };
        names.push(name)?;
        rest = after;
    }
    let Some(name) = name_of(rest) else {
        return Err(RowFault::Bad);
    };
    names.push(name)?;
    Ok(names)
}

// Whether a text is the sign of all others.
fn is_all(text: &[u8]) -> bool
    ensures { result ≡ bytes_eq text.now all_sign }
{
    text == b"*".as_slice()
}

// Above which tasks one must stand, as a text says.
#[tactic(auto, unfolding(crate::specs::ScriptWords::over_in))]
fn over_of(alloc: Global, text: &[u8]) -> Result<Outranks, RowFault>
    ensures { GivesRow outranks_of result (over_in text.now) }
{
    if is_all(text) {
        return Ok(Outranks::AllOthers);
    }
    let names = names_of(alloc, text)?;
    Ok(Outranks::Named(names))
}

/// Above which tasks one must stand, as a value says; of no value none.
pub(crate) fn over_or_none(alloc: Global, value: Option<&[u8]>) -> Result<Outranks, RowFault>
    ensures { GivesRow outranks_of result (over_or_none (option_map (λ v. v.now) value.entry)) }
{
    match value {
        Some(text) => over_of(alloc, text),
        None => Ok(Outranks::Named(Vec::new(alloc))),
    }
}

// The section that a word is.
#[tactic(auto, unfolding(crate::specs::ScriptWords::section_in))]
fn section_of(alloc: Global, word: &[u8]) -> Result<Section, RowFault>
    ensures { GivesRow (λ x. x) result (section_in word.now) }
{
    let Some((locks, span)) = round(word, b'@') else {
        return Err(RowFault::Bad);
    };
    let Some((at, len)) = round(span, b':') else {
        return Err(RowFault::Bad);
    };
    let (Some(at), Some(len)) = (number_of(at), number_of(len)) else {
        return Err(RowFault::Bad);
    };
    let locks = names_of(alloc, locks)?;
    Ok(Section { locks, at, len })
}

// Puts a section behind those that are kept, unless these are `KEPT`.
fn keep(sections: &mut Vec<Section>, section: Section) -> Result<(), RowFault>
    requires { length sections.old.items ≤ KEPT }
    ensures ok { OnOk result
        (sections.new.items ≡ take KEPT (sections.old.items ++ section ∷ [])) }
    ensures err { IfErr result (λ fault. fault ≡ RowFault.OutOfMemory) }
{
    if sections.len() < KEPT {
        sections.push(section)?;
    }
    Ok(())
}

/// Reads the words that are left as sections, and gives the first `KEPT` of them.
#[tactic(auto, using(crate::proofs::Ahead::each_fails, crate::proofs::Ahead::each_end))]
pub(crate) fn sections_of(alloc: Global, words: &mut Words<'_>) -> Result<Vec<Section>, RowFault>
    ensures { GivesFirst KEPT (λ x. x.items) result (sections_in words.old) }
{
    let mut sections = Vec::new(alloc);
    while let Some(word) = words.next() {
        keep(&mut sections, section_of(alloc, word)?)?;
    }
    Ok(sections)
}
