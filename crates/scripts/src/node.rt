//! What the node takes, as `JOB+LOCK+RELEASE+LATE`, and interrupts, as `PERIOD:COST+PERIOD:COST`.
ghost use Rattle.std.specs.Prelude.{◌≡◌, ◌==◌, ◌∷◌, [], option_map};
ghost use Rattle.std.specs.List.{list_all, slice_split};
ghost use Rattle.lines.specs.Steps.{each_in};
ghost use Rattle.lines.specs.Words.{number_in};
ghost use Rattle.scripts.specs.Gives.{GivesRow};
ghost use Rattle.task_sheet.specs.TreeFault.{is_interrupt};
ghost use Rattle.scripts.specs.ScriptWords.{are_interrupts, are_overheads, interrupt_in, interrupts_or_none, node_of, node_or_none, or_bad, sheet_interrupted, sheet_of_node};

use crate::fields::round;
use crate::line::RowFault;
use lines::{cut, number_of};
use std::alloc::Global;
use task_sheet::{INTERRUPT_FROM, INTERRUPT_LIMIT, Interrupt, Node, PERIOD_FROM, PERIOD_TO, Sheet};

// The number that a text is.
fn number_in(text: &[u8]) -> Result<u64, RowFault>
    ensures { GivesRow (λ x. x) result (or_bad (number_in text.now)) }
{
    number_of(text).ok_or(RowFault::Bad)
}

// The node whose four numbers these are.
#[tactic(auto, unfolding(crate::specs::ScriptWords::node_of))]
fn node_from(job: &[u8], lock: &[u8], release: &[u8], late: &[u8]) -> Result<Node, RowFault>
    ensures { GivesRow (λ x. x) result
        (node_of (job.now ∷ lock.now ∷ release.now ∷ late.now ∷ [])) }
{
    Ok(Node {
        job: number_in(job)?,
        lock: number_in(lock)?,
        release: number_in(release)?,
        late: number_in(late)?,
    })
}

// What the node takes, as a text says.
#[tactic(auto, using(crate::proofs::Nodes::four_words))]
fn node_of(text: &[u8]) -> Result<Node, RowFault>
    ensures { GivesRow (λ x. x) result (node_of (slice_split (λ b. b == 43) text.now)) }
{
    let Some((job, rest)) = cut(text, b'+') else {
        return Err(RowFault::Bad);
    };
    let Some((lock, rest)) = cut(rest, b'+') else {
        return Err(RowFault::Bad);
    };
    let Some((release, late)) = round(rest, b'+') else {
        return Err(RowFault::Bad);
    };
    node_from(job, lock, release, late)
}

/// What the node takes, as a value says; of no value nothing.
pub(crate) fn node_or_none(value: Option<&[u8]>) -> Result<Node, RowFault>
    ensures { GivesRow (λ x. x) result (node_or_none (option_map (λ v. v.now) value.entry)) }
{
    match value {
        Some(text) => node_of(text),
        None => Ok(Node::none()),
    }
}

// Whether what a node takes is within the limits.
fn are_overheads(node: Node) -> bool
    ensures { result ≡ are_overheads node }
{
    node.job <= PERIOD_TO
        && node.lock <= PERIOD_TO
        && node.late <= PERIOD_TO
        && node.release <= PERIOD_FROM
}

/// The sheet, of which the node takes so much.
pub(crate) fn of_node(sheet: Sheet, node: Node) -> Result<Sheet, RowFault>
    ensures { GivesRow (λ x. x) result (sheet_of_node node sheet) }
{
    if are_overheads(node) {
        Ok(sheet.of_node(node))
    } else {
        Err(RowFault::BadOverhead)
    }
}

// The interrupt that a word is.
#[tactic(auto, unfolding(crate::specs::ScriptWords::interrupt_in))]
fn interrupt_of(word: &[u8]) -> Result<Interrupt, RowFault>
    ensures { GivesRow (λ x. x) result (interrupt_in word.now) }
{
    let Some((period, cost)) = round(word, b':') else {
        return Err(RowFault::Bad);
    };
    let (Some(period), Some(cost)) = (number_of(period), number_of(cost)) else {
        return Err(RowFault::Bad);
    };
    Ok(Interrupt { period, cost })
}

// The interrupts between the signs `+` of a text.
#[tactic(auto, using(crate::proofs::Ahead::words_read))]
fn interrupts_of(alloc: Global, text: &[u8]) -> Result<Vec<Interrupt>, RowFault>
    ensures { GivesRow (λ x. x.items) result
        (each_in interrupt_in (slice_split (λ b. b == 43) text.now)) }
{
    let mut interrupts = Vec::new(alloc);
    let mut rest = text;
    while let Some((word, after)) = cut(rest, b'+') {
        let interrupt = interrupt_of(word)?;
        interrupts.push(interrupt)?;
        rest = after;
    }
    let interrupt = interrupt_of(rest)?;
    interrupts.push(interrupt)?;
    Ok(interrupts)
}

/// The interrupts that a value says; of no value none.
pub(crate) fn interrupts_or_none(
    alloc: Global,
    value: Option<&[u8]>,
) -> Result<Vec<Interrupt>, RowFault>
    ensures { GivesRow (λ x. x.items) result
        (interrupts_or_none (option_map (λ v. v.now) value.entry)) }
{
    match value {
        Some(text) => interrupts_of(alloc, text),
        None => Ok(Vec::new(alloc)),
    }
}

// Whether an interrupt is within the limits.
fn is_interrupt(interrupt: Interrupt) -> bool
    ensures { result ≡ is_interrupt interrupt }
{
    (INTERRUPT_FROM..=PERIOD_TO).contains(&interrupt.period) && interrupt.cost <= interrupt.period
}

// Whether each interrupt is within the limits.
fn are_within(interrupts: &[Interrupt]) -> bool
    ensures { result ≡ list_all is_interrupt interrupts.now }
{
    interrupts.iter().all(|x| is_interrupt(*x))
}

// Whether there aren't too many interrupts, and each is within the limits.
fn are_interrupts(interrupts: &[Interrupt]) -> bool
    ensures { result ≡ are_interrupts interrupts.now }
{
    interrupts.len() <= INTERRUPT_LIMIT && are_within(interrupts)
}

/// The sheet with interrupts.
#[tactic(auto, using(crate::proofs::Nodes::interrupts_valid))]
pub(crate) fn with_interrupts(sheet: Sheet, interrupts: Vec<Interrupt>) -> Result<Sheet, RowFault>
    ensures { GivesRow (λ x. x) result (sheet_interrupted interrupts.items sheet) }
{
    if are_interrupts(&interrupts) {
        Ok(sheet.interrupted(interrupts))
    } else {
        Err(RowFault::BadInterrupt)
    }
}
