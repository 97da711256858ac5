//! What is printed of chains.
ghost use Rattle.std.specs.Prelude.{◌≡◌, ◌++◌, IfOk, OnOk, drop, string_bytes};
ghost use Rattle.lines.specs.Naming.{name_at};
ghost use Rattle.chain_lines.specs.ChainLines.{all_met, chain_bound, chain_line, chain_said, chains_said, first_least, is_met, is_told, kind_words, least_words, limit_words, met_word, part_line, part_lines};

use chain_tables::Chain;
use chains::{BoundPart, Level, PartKind, bound_of, parts_of};
use lines::{push_name, push_some_wide};
use std::alloc::{AllocError, Global};
use task_sheet::TaskSet;

/// How much is said of a chain.
#[derive(Clone, Copy)]
pub enum Telling {
    /// Its bound, beside its limit.
    Bound,
    /// That, and the parts that it is the sum of.
    Parts,
}

// A word, and the name of a task.
fn push_task(text: &mut String, word: &str, set: &TaskSet, task: usize) -> Result<(), AllocError>
    ensures { OnOk result (string_bytes text.new ≡ string_bytes text.old ++ word.now ++ name_at set.now task) }
{
    text.push_str(word)?;
    push_name(text, set, task)
}

// What a part is, and of which task.
fn push_kind(text: &mut String, set: &TaskSet, part: BoundPart) -> Result<(), AllocError>
    ensures { OnOk result (string_bytes text.new ≡ string_bytes text.old ++ kind_words set.now part.task part.kind) }
{
    match part.kind {
        PartKind::Wait => push_task(text, "  wait ", set, part.task),
        PartKind::Jitter => push_task(text, "  jitter ", set, part.task),
        PartKind::Handover { next } => {
            push_task(text, "  response ", set, part.task)?;
            push_task(text, " less cost ", set, next)
        }
        PartKind::Response => push_task(text, "  response ", set, part.task),
        PartKind::Deadline => push_task(text, "  deadline ", set, part.task),
    }
}

// The line of a part, unless it is 0.
fn push_part(text: &mut String, set: &TaskSet, part: BoundPart) -> Result<(), AllocError>
    ensures { OnOk result (string_bytes text.new ≡ string_bytes text.old ++ part_line set.now part) }
{
    let time = part.time;
    if time == 0 {
        return Ok(());
    }
    push_kind(text, set, part)?;
    writeln!(text, " {time}")
}

// The lines of parts.
fn push_parts(text: &mut String, set: &TaskSet, parts: &[BoundPart]) -> Result<(), AllocError>
    ensures { OnOk result (string_bytes text.new ≡ string_bytes text.old ++ part_lines set.now parts.now) }
{
    for part in parts {
        push_part(text, set, *part)?;
    }
    Ok(())
}

// Whether a bound is within a limit, where there is one.
fn is_met(bound: Option<u128>, limit: Option<u64>) -> bool
    ensures { result ≡ is_met bound limit }
{
    let Some(limit) = limit else {
        return true;
    };
    match bound {
        Some(bound) => bound <= limit as u128,
        None => false,
    }
}

// The word in front of a limit.
fn met_word(is_met: bool) -> &'static str
    ensures { result.now ≡ met_word is_met }
{
    if is_met { " of " } else { " misses " }
}

// The limit of a bound, and whether it is within it.
fn push_limit(text: &mut String, bound: Option<u128>, limit: Option<u64>) -> Result<(), AllocError>
    ensures { OnOk result (string_bytes text.new ≡ string_bytes text.old ++ limit_words bound limit) }
{
    let Some(most) = limit else {
        return Ok(());
    };
    text.push_str(met_word(is_met(bound, limit)))?;
    write!(text, "{most}")
}

// A chain's least bound, where it is told.
fn push_least(text: &mut String, least: Option<u128>) -> Result<(), AllocError>
    ensures { OnOk result (string_bytes text.new ≡ string_bytes text.old ++ least_words least) }
{
    let Some(least) = least else {
        return Ok(());
    };
    write!(text, " least {least}")
}

/// The line of a chain of this bound, and this least one, where it is told. The error is out of memory.
pub fn push_line(
    text: &mut String,
    chain: &Chain,
    bound: Option<u128>,
    least: Option<u128>,
) -> Result<(), AllocError>
    ensures { OnOk result (string_bytes text.new ≡ string_bytes text.old ++ chain_line chain.now bound least) }
{
    let name = chain.name;
    write!(text, "chain {name} ")?;
    push_some_wide(text, bound)?;
    push_limit(text, bound, chain.limit)?;
    push_least(text, least)?;
    text.push_str("\n")
}

// Whether the parts of a bound are told.
fn is_told(telling: Telling, bound: Option<u128>) -> bool
    ensures { result ≡ is_told telling bound }
{
    match telling {
        Telling::Bound => false,
        Telling::Parts => bound.is_some(),
    }
}

// The bound of a chain.
fn chain_bound(
    alloc: Global,
    set: &TaskSet,
    levels: &[Level],
    chain: &Chain,
) -> Result<Option<u128>, AllocError>
    ensures { IfOk result (λ bound. bound ≡ chain_bound set.now levels.now chain.now) }
{
    bound_of(
        alloc,
        set,
        levels,
        chain.writes,
        &chain.offsets,
        &chain.tasks,
    )
}

// The lines of a chain.
fn push_chain(
    text: &mut String,
    alloc: Global,
    telling: Telling,
    set: &TaskSet,
    levels: &[Level],
    least: Option<u128>,
    chain: &Chain,
) -> Result<(), AllocError>
    ensures { OnOk result (string_bytes text.new ≡ string_bytes text.old
        ++ chain_said telling set.now levels.now least chain.now) }
{
    let bound = chain_bound(alloc, set, levels, chain)?;
    push_line(text, chain, bound, least)?;
    if is_told(telling, bound) {
        let (offsets, tasks) = (chain.offsets.as_slice(), chain.tasks.as_slice());
        let parts = parts_of(alloc, set, levels, chain.writes, offsets, tasks)?;
        push_parts(text, set, &parts)
    } else {
        Ok(())
    }
}

// The least bound that is told of the first of some chains, where one is.
fn first_least(leasts: &[Option<u128>]) -> Option<u128>
    ensures { result ≡ first_least leasts.now }
{
    match leasts.first() {
        Some(least) => *least,
        None => None,
    }
}

// Those of the others.
fn other_leasts(leasts: &[Option<u128>]) -> &[Option<u128>]
    ensures { result.now ≡ drop 1 leasts.now }
{
    match leasts.split_first() {
        Some((_, others)) => others,
        None => leasts,
    }
}

/// The lines of chains in an order whose levels have these responses: of each its bound, beside its limit, and the least
/// one, where the list says one, chain by chain; past its end it says none. Where that is told, the parts above 0 that the
/// bound is the sum of. The error is out of memory.
pub fn chains_text(
    alloc: Global,
    telling: Telling,
    set: &TaskSet,
    levels: &[Level],
    leasts: &[Option<u128>],
    chains: &[Chain],
) -> Result<String, AllocError>
    ensures { IfOk result (λ text. string_bytes text
        ≡ chains_said telling set.now levels.now leasts.now chains.now) }
{
    let mut text = String::new(alloc);
    let mut rest = leasts;
    for chain in chains {
        let least = first_least(rest);
        push_chain(&mut text, alloc, telling, set, levels, least, chain)?;
        rest = other_leasts(rest);
    }
    Ok(text)
}

/// Whether a chain's bound is within its limit. The error is out of memory.
pub(crate) fn meets(
    alloc: Global,
    set: &TaskSet,
    levels: &[Level],
    chain: &Chain,
) -> Result<bool, AllocError>
    ensures { IfOk result (λ met. met ≡ is_met (chain_bound set.now levels.now chain.now) chain.now.limit) }
{
    let bound = chain_bound(alloc, set, levels, chain)?;
    Ok(is_met(bound, chain.limit))
}

/// Whether the bound of each chain is within its limit, where it has one. The error is out of memory.
pub fn all_met(
    alloc: Global,
    set: &TaskSet,
    levels: &[Level],
    chains: &[Chain],
) -> Result<bool, AllocError>
    ensures { IfOk result (λ met. met ≡ all_met set.now levels.now chains.now) }
{
    for chain in chains {
        if !meets(alloc, set, levels, chain)? {
            return Ok(false);
        }
    }
    Ok(true)
}
