//! The rows of a script.
ghost use Rattle.std.specs.Prelude.{◌≡◌, IfOk, List, bytes_eq, take};
ghost use Rattle.task_sheet.specs.Sheet.{CriticalSection, outranking, task_of};
ghost use Rattle.task_sheet.specs.SheetFault.{outranks_fault, sheet_fault};
ghost use Rattle.task_sheet.specs.SheetFields.{outranks_of};
ghost use Rattle.scripts.specs.Gives.{GivesRow};
ghost use Rattle.scripts.specs.ScriptWords.{found_in, sheet_with_jitter, made_in, open_in, put_in, remove_in, row_in, row_of, sheet_in, valid, valid_over};
ghost use Rattle.scripts.specs.declared.sections.TheConstants.{KEPT};
ghost use Rattle.lines.specs.Words.{words};

use crate::fields::{
    is_over, next, next_draft, next_field, next_name, next_number, number_or_zero, only_draft,
    other_of, team_of,
};
use crate::line::{PutSheet, Row, RowFault};
use crate::node::{interrupts_or_none, node_or_none, of_node, with_interrupts};
use crate::sections::{over_or_none, sections_of};
use lines::Words;
use std::alloc::Global;
use task_sheet::{Name, Outranks, OutranksFault, Section, Sheet, SheetFault};

// The sheet with a jitter.
fn late(sheet: Sheet, jitter: u64) -> Result<Sheet, RowFault>
    ensures { GivesRow (λ x. x) result (sheet_with_jitter jitter sheet) }
{
    match sheet.jittered(jitter) {
        Ok(sheet) => Ok(sheet),
        Err(_) => Err(RowFault::BadJitter),
    }
}

// The sheet of a task that must stand above others.
fn above(sheet: Sheet, outranks: Outranks) -> Result<Sheet, RowFault>
    ensures { GivesRow (λ x. x) result (valid_over (outranks_fault sheet.name (outranks_of outranks))
        (outranking sheet (outranks_of outranks))) }
{
    match sheet.outranking(outranks) {
        Ok(sheet) => Ok(sheet),
        Err(OutranksFault { cause, .. }) => Err(RowFault::Outranks { cause }),
    }
}

// The values that every sheet has.
#[derive(Clone, Copy)]
struct Values {
    name: Name,
    weight: u64,
    period: u64,
    deadline: u64,
    cost: u64,
}

// The sheet of these values and sections, of which the first `KEPT` are given.
fn valid(values: Values, sections: Vec<Section>) -> Result<Sheet, RowFault>
    ensures gives { (all : List CriticalSection) → sections.items ≡ take KEPT all
        → let task = task_of values.name values.weight values.period values.deadline values.cost all in
        GivesRow (λ x. x) result (valid (sheet_fault task) task) }
    ensures named { IfOk result (λ sheet. sheet.name ≡ values.name) }
{
    match Sheet::new(
        values.name,
        values.weight,
        values.period,
        values.deadline,
        values.cost,
        sections,
    ) {
        Ok(sheet) => Ok(sheet),
        Err(SheetFault { cause, sections: _ }) => Err(RowFault::Sheet { cause }),
    }
}

// The sheet of these values and of the sections that are left.
#[tactic(auto, unfolding(crate::specs::ScriptWords::made_in))]
fn made_of(alloc: Global, words: &mut Words<'_>, values: Values) -> Result<Sheet, RowFault>
    ensures gives { GivesRow (λ x. x) result (made_in values.name values.weight values.period
        values.deadline values.cost words.old) }
    ensures named { IfOk result (λ sheet. sheet.name ≡ values.name) }
{
    let sections = sections_of(alloc, words)?;
    valid(values, sections)
}

// The sheet of the values that are left.
#[tactic(auto, unfolding(crate::specs::ScriptWords::sheet_in))]
fn sheet_of(alloc: Global, words: &mut Words<'_>) -> Result<Sheet, RowFault>
    ensures { GivesRow (λ x. x) result (sheet_in words.old) }
{
    let values = Values {
        name: next_name(words)?,
        weight: next_number(words)?,
        period: next_number(words)?,
        deadline: next_number(words)?,
        cost: next_number(words)?,
    };
    let jitter = number_or_zero(next_field(b"j", words))?;
    let outranks = over_or_none(alloc, next_field(b"over", words))?;
    let node = node_or_none(next_field(b"node", words))?;
    let interrupts = interrupts_or_none(alloc, next_field(b"irq", words))?;
    let sheet = made_of(alloc, words, values)?;
    let sheet = above(late(sheet, jitter)?, outranks)?;
    with_interrupts(of_node(sheet, node)?, interrupts)
}

#[tactic(auto, unfolding(crate::specs::ScriptWords::open_in))]
fn open_of(words: &mut Words<'_>) -> Result<Row, RowFault>
    ensures { GivesRow (λ x. x) result (open_in words.old) }
{
    match team_of(next(words)?) {
        Some(team) if is_over(words) => Ok(Row::Open { team }),
        _ => Err(RowFault::Bad),
    }
}

#[tactic(auto, unfolding(crate::specs::ScriptWords::put_in))]
fn put_of(alloc: Global, opened: usize, words: &mut Words<'_>) -> Result<Row, RowFault>
    ensures { GivesRow (λ x. x) result (put_in opened words.old) }
{
    let draft = next_draft(opened, words)?;
    let sheet = sheet_of(alloc, words)?;
    match PutSheet::new(alloc, sheet) {
        Ok(sheet) => Ok(Row::Put { draft, sheet }),
        Err(_) => Err(RowFault::OutOfMemory),
    }
}

#[tactic(auto, unfolding(crate::specs::ScriptWords::remove_in))]
fn remove_of(opened: usize, words: &mut Words<'_>) -> Result<Row, RowFault>
    ensures { GivesRow (λ x. x) result (remove_in opened words.old) }
{
    let draft = next_draft(opened, words)?;
    let name = next_name(words)?;
    if is_over(words) {
        Ok(Row::Remove { draft, name })
    } else {
        Err(RowFault::Bad)
    }
}

#[tactic(auto, unfolding(crate::specs::ScriptWords::found_in))]
fn found_of(opened: usize, words: &mut Words<'_>) -> Result<Row, RowFault>
    ensures { GivesRow (λ x. x) result (found_in opened words.old) }
{
    let draft = next_draft(opened, words)?;
    let name = next_name(words)?;
    let other = other_of(opened, draft, words)?;
    Ok(Row::Found { draft, name, other })
}

// Whether the text is this word.
fn is_word(text: &[u8], word: &[u8]) -> bool
    ensures { result ≡ bytes_eq text.now word.now }
{
    text == word
}

// What a line of this first word says.
fn row_of(alloc: Global, opened: usize, word: &[u8], words: &mut Words<'_>) -> Result<Row, RowFault>
    ensures { GivesRow (λ x. x) result (row_of opened word.now words.old) }
{
    if is_word(word, b"open") {
        open_of(words)
    } else if is_word(word, b"put") {
        put_of(alloc, opened, words)
    } else if is_word(word, b"remove") {
        remove_of(opened, words)
    } else if is_word(word, b"found") {
        found_of(opened, words)
    } else if is_word(word, b"test") {
        let draft = only_draft(opened, words)?;
        Ok(Row::Test { draft })
    } else if is_word(word, b"commit") {
        let draft = only_draft(opened, words)?;
        Ok(Row::Commit { draft })
    } else if is_word(word, b"abandon") {
        let draft = only_draft(opened, words)?;
        Ok(Row::Abandon { draft })
    } else {
        Err(RowFault::Bad)
    }
}

/// What a line says, where so many drafts were opened above it.
#[tactic(auto, unfolding(crate::specs::ScriptWords::row_in))]
pub(crate) fn read_row(alloc: Global, opened: usize, line: &[u8]) -> Result<Row, RowFault>
    ensures { GivesRow (λ x. x) result (row_in opened (words line.now)) }
{
    let mut words = Words::of(line);
    let word = next(&mut words)?;
    row_of(alloc, opened, word, &mut words)
}
