//! What a change does to a set's chains.
ghost use Rattle.std.specs.Prelude.{◌≡◌, ◌++◌, IfOk, OnOk, option_map, slice_get, string_bytes};
ghost use Rattle.chains.specs.Parts.{bound_in};
ghost use Rattle.diff.specs.Chains.{bound_effect, bounds_words, chain_changes, chain_edit, chain_effect, chain_gone, chain_keys, chain_kept, chain_moved, chain_named, chain_other, chain_rest, chain_words, each_chain, limit_words, offsets_word, offsets_words, plus_offsets, plus_tasks, same_chain, same_name, same_offsets, same_tasks, same_writes, slack_words, slacks_words, tasks_word, tasks_words, writes_word, writes_words};

use crate::pairs::push_pair;
use crate::text::Kind;
use crate::whole::same_number;
use chain_tables::Chain;
use chains::{Level, Writes, bound_of};
use lines::{push_name, push_some_wide};
use std::alloc::{AllocError, Global};
use task_sheet::{Name, TaskSet};

/// A set's chains, with the levels of its best order; none where no order passes.
#[derive(Clone, Copy)]
pub struct ChainSide<'a> {
    pub set: &'a TaskSet,
    pub levels: &'a [Level],
    pub chains: &'a [Chain],
}

// A chain's bound, where it has one, and its limit.
#[derive(Clone, Copy)]
struct Held {
    bound: Option<u128>,
    limit: Option<u64>,
}

// ---- what a chain says

// A task of a set and one of another have the same name.
fn same_name(old: &TaskSet, task: usize, new: &TaskSet, other: usize) -> bool
    ensures { result ≡ same_name (slice_get old.now task) (slice_get new.now other) }
{
    match (old.get(task), new.get(other)) {
        (Some(was), Some(is)) => was.name() == is.name(),
        (None, None) => true,
        _ => false,
    }
}

// Two lists of tasks, each of its set, have the same names.
fn same_tasks(old: &TaskSet, olds: &[usize], new: &TaskSet, news: &[usize]) -> bool
    ensures { result ≡ same_tasks old.now olds.now new.now news.now }
{
    let mut rest = olds;
    let mut others = news;
    while let Some((task, behind)) = rest.split_first() {
        let Some((other, after)) = others.split_first() else {
            return false;
        };
        if !same_name(old, *task, new, *other) {
            return false;
        }
        rest = behind;
        others = after;
    }
    others.is_empty()
}

// The tasks write as they did.
fn same_writes(old: Writes, new: Writes) -> bool
    ensures { result ≡ same_writes old new }
{
    match (old, new) {
        (Writes::AtFinish, Writes::AtFinish) => true,
        (Writes::AtDeadline, Writes::AtDeadline) => true,
        _ => false,
    }
}

// Two lists have the same offsets.
fn same_offsets(olds: &[u64], news: &[u64]) -> bool
    ensures { result ≡ same_offsets olds.now news.now }
{
    let mut rest = olds;
    let mut others = news;
    while let Some((old, behind)) = rest.split_first() {
        let Some((new, after)) = others.split_first() else {
            return false;
        };
        if *old != *new {
            return false;
        }
        rest = behind;
        others = after;
    }
    others.is_empty()
}

// Two chains say the same, beside their names.
fn same_chain(old: &TaskSet, was: &Chain, new: &TaskSet, is: &Chain) -> bool
    ensures { result ≡ same_chain old.now was.now new.now is.now }
{
    same_tasks(old, &was.tasks, new, &is.tasks)
        && same_number(was.limit, is.limit)
        && same_offsets(&was.offsets, &is.offsets)
        && same_writes(was.writes, is.writes)
}

// The chain of a name.
fn chain_named<'a>(chains: &'a [Chain], name: Name) -> Option<&'a Chain>
    ensures { option_map (λ c. c.now) result ≡ chain_named chains.now name }
{
    chains.iter().find(|chain| chain.name == name)
}

// ---- words

// What a limit leaves of a bound.
fn push_slack(text: &mut String, held: Held) -> Result<(), AllocError>
    ensures { OnOk result (string_bytes text.new ≡ string_bytes text.old ++ slack_words held.bound held.limit) }
{
    let (Some(bound), Some(limit)) = (held.bound, held.limit) else {
        return text.push_str("-");
    };
    let most = limit as u128;
    if bound <= most {
        let left = most - bound;
        write!(text, "{left}")
    } else {
        let past = bound - most;
        write!(text, "-{past}")
    }
}

// The bounds before and after.
fn push_bounds(text: &mut String, old: Held, new: Held) -> Result<(), AllocError>
    ensures { OnOk result (string_bytes text.new ≡ string_bytes text.old ++ bounds_words old.bound new.bound) }
{
    text.push_str(" bound ")?;
    push_some_wide(text, old.bound)?;
    text.push_str(" ")?;
    push_some_wide(text, new.bound)
}

// What the limits leave of them.
fn push_slacks(text: &mut String, old: Held, new: Held) -> Result<(), AllocError>
    ensures { OnOk result (string_bytes text.new ≡ string_bytes text.old
        ++ slacks_words old.bound old.limit new.bound new.limit) }
{
    text.push_str(" slack ")?;
    push_slack(text, old)?;
    text.push_str(" ")?;
    push_slack(text, new)
}

// What becomes of a chain, its name, and its bound and that before and after.
#[tactic(auto, unfolding(crate::specs::Chains::chain_words))]
fn push_start(
    text: &mut String,
    kind: Kind,
    name: Name,
    old: Held,
    new: Held,
) -> Result<(), AllocError>
    ensures { OnOk result (string_bytes text.new ≡ string_bytes text.old
        ++ chain_words kind name old.bound old.limit new.bound new.limit) }
{
    text.push_str(kind.word())?;
    text.push_str(" chain ")?;
    write!(text, "{name}")?;
    push_bounds(text, old, new)?;
    push_slacks(text, old, new)
}

// The names of tasks, each behind a sign `+`.
fn push_plus_tasks(text: &mut String, set: &TaskSet, tasks: &[usize]) -> Result<(), AllocError>
    ensures { OnOk result (string_bytes text.new ≡ string_bytes text.old ++ plus_tasks set.now tasks.now) }
{
    for task in tasks {
        text.push_str("+")?;
        push_name(text, set, *task)?;
    }
    Ok(())
}

// The same with a sign between each two.
fn push_tasks(text: &mut String, set: &TaskSet, tasks: &[usize]) -> Result<(), AllocError>
    ensures { OnOk result (string_bytes text.new ≡ string_bytes text.old ++ tasks_word set.now tasks.now) }
{
    let Some((task, others)) = tasks.split_first() else {
        return Ok(());
    };
    push_name(text, set, *task)?;
    push_plus_tasks(text, set, others)
}

// The tasks before and after, where they are others.
fn push_both_tasks(
    text: &mut String,
    old: &TaskSet,
    was: &[usize],
    new: &TaskSet,
    is: &[usize],
) -> Result<(), AllocError>
    ensures { OnOk result (string_bytes text.new ≡ string_bytes text.old
        ++ tasks_words old.now was.now new.now is.now) }
{
    if same_tasks(old, was, new, is) {
        return Ok(());
    }
    text.push_str(" tasks ")?;
    push_tasks(text, old, was)?;
    text.push_str(" ")?;
    push_tasks(text, new, is)
}

// The limit before and after, where it is another.
fn push_limits(text: &mut String, old: Option<u64>, new: Option<u64>) -> Result<(), AllocError>
    ensures { OnOk result (string_bytes text.new ≡ string_bytes text.old ++ limit_words old new) }
{
    if same_number(old, new) {
        return Ok(());
    }
    push_pair(text, " limit ", old, new)
}

// Offsets, each behind a sign `+`.
fn push_plus_offsets(text: &mut String, offsets: &[u64]) -> Result<(), AllocError>
    ensures { OnOk result (string_bytes text.new ≡ string_bytes text.old ++ plus_offsets offsets.now) }
{
    for offset in offsets {
        write!(text, "+{offset}")?;
    }
    Ok(())
}

// The same with a sign between each two; `-` of none.
fn push_offsets(text: &mut String, offsets: &[u64]) -> Result<(), AllocError>
    ensures { OnOk result (string_bytes text.new ≡ string_bytes text.old ++ offsets_word offsets.now) }
{
    let Some((offset, others)) = offsets.split_first() else {
        return text.push_str("-");
    };
    write!(text, "{offset}")?;
    push_plus_offsets(text, others)
}

// The offsets before and after, where they are others.
fn push_both_offsets(text: &mut String, old: &[u64], new: &[u64]) -> Result<(), AllocError>
    ensures { OnOk result (string_bytes text.new ≡ string_bytes text.old ++ offsets_words old.now new.now) }
{
    if same_offsets(old, new) {
        return Ok(());
    }
    text.push_str(" offsets ")?;
    push_offsets(text, old)?;
    text.push_str(" ")?;
    push_offsets(text, new)
}

// What a document calls it.
fn writes_word(writes: Writes) -> &'static str
    ensures { result.now ≡ writes_word writes }
{
    match writes {
        Writes::AtFinish => "finish",
        Writes::AtDeadline => "deadline",
    }
}

// When the tasks write before and after, where that is another.
fn push_writes(text: &mut String, old: Writes, new: Writes) -> Result<(), AllocError>
    ensures { OnOk result (string_bytes text.new ≡ string_bytes text.old ++ writes_words old new) }
{
    if same_writes(old, new) {
        return Ok(());
    }
    text.push_str(" writes ")?;
    text.push_str(writes_word(old))?;
    text.push_str(" ")?;
    text.push_str(writes_word(new))
}

// ---- each chain

// A chain's bound in a set, and its limit.
fn bounded(alloc: Global, side: &ChainSide<'_>, chain: &Chain) -> Result<Held, AllocError>
    ensures bound { IfOk result (λ held. held.bound
        ≡ bound_in chain.now.writes chain.now.offsets side.now.set.now side.now.levels.now chain.now.tasks) }
    ensures limit { IfOk result (λ held. held.limit ≡ chain.now.limit) }
{
    let bound = bound_of(
        alloc,
        side.set,
        side.levels,
        chain.writes,
        &chain.offsets,
        &chain.tasks,
    )?;
    Ok(Held {
        bound,
        limit: chain.limit,
    })
}

// Where there is no chain.
fn nothing() -> Held
    ensures bound { result.bound ≡ None }
    ensures limit { result.limit ≡ None }
{
    Held {
        bound: None,
        limit: None,
    }
}

// The line of a chain that is gone, where no new chain has its name.
fn push_gone(
    alloc: Global,
    text: &mut String,
    old: &ChainSide<'_>,
    news: &[Chain],
    chain: &Chain,
) -> Result<(), AllocError>
    ensures { OnOk result (string_bytes text.new ≡ string_bytes text.old
        ++ chain_gone old.now.set.now old.now.levels.now news.now chain.now) }
{
    match chain_named(news, chain.name) {
        Some(_) => Ok(()),
        None => {
            push_start(
                text,
                Kind::Removed,
                chain.name,
                bounded(alloc, old, chain)?,
                nothing(),
            )?;
            text.push_str("\n")
        }
    }
}

// The keys in which a chain says something else.
#[tactic(auto, unfolding(crate::specs::Chains::chain_keys))]
fn push_chain_keys(
    text: &mut String,
    old: &TaskSet,
    was: &Chain,
    new: &TaskSet,
    is: &Chain,
) -> Result<(), AllocError>
    ensures { OnOk result (string_bytes text.new ≡ string_bytes text.old ++ chain_keys old.now was.now new.now is.now) }
{
    text.push_str(" keys")?;
    push_both_tasks(text, old, &was.tasks, new, &is.tasks)?;
    push_limits(text, was.limit, is.limit)?;
    push_both_offsets(text, &was.offsets, &is.offsets)?;
    push_writes(text, was.writes, is.writes)
}

// The line of a chain that was there before, and says something else.
fn push_other(
    alloc: Global,
    text: &mut String,
    old: &ChainSide<'_>,
    was: &Chain,
    new: &ChainSide<'_>,
    is: &Chain,
) -> Result<(), AllocError>
    ensures { OnOk result (string_bytes text.new ≡ string_bytes text.old
        ++ chain_other old.now.set.now old.now.levels.now was.now new.now.set.now new.now.levels.now is.now) }
{
    if same_chain(old.set, was, new.set, is) {
        return Ok(());
    }
    push_start(
        text,
        Kind::Changed,
        is.name,
        bounded(alloc, old, was)?,
        bounded(alloc, new, is)?,
    )?;
    push_chain_keys(text, old.set, was, new.set, is)?;
    text.push_str("\n")
}

// The line of what was done to a chain, where anything was.
fn push_edit(
    alloc: Global,
    text: &mut String,
    old: &ChainSide<'_>,
    new: &ChainSide<'_>,
    chain: &Chain,
) -> Result<(), AllocError>
    ensures { OnOk result (string_bytes text.new ≡ string_bytes text.old
        ++ chain_edit old.now.set.now old.now.levels.now old.now.chains.now
        new.now.set.now new.now.levels.now chain.now) }
{
    match chain_named(old.chains, chain.name) {
        Some(was) => push_other(alloc, text, old, was, new, chain),
        None => {
            push_start(
                text,
                Kind::Added,
                chain.name,
                nothing(),
                bounded(alloc, new, chain)?,
            )?;
            text.push_str("\n")
        }
    }
}

// What becomes of a bound, where anything does.
fn bound_effect(was: u128, is: u128) -> Option<Kind>
    ensures { result ≡ bound_effect was is }
{
    if was < is {
        Some(Kind::Slower)
    } else if is < was {
        Some(Kind::Faster)
    } else {
        None
    }
}

// The line of a chain that says the same, where its bound is another one.
fn push_effect(text: &mut String, chain: &Chain, was: u128, is: u128) -> Result<(), AllocError>
    ensures { OnOk result (string_bytes text.new ≡ string_bytes text.old
        ++ chain_effect chain.now was is (bound_effect was is)) }
{
    let limit = chain.limit;
    match bound_effect(was, is) {
        Some(kind) => {
            let old = Held {
                bound: Some(was),
                limit,
            };
            let new = Held {
                bound: Some(is),
                limit,
            };
            push_start(text, kind, chain.name, old, new)?;
            text.push_str("\n")
        }
        None => Ok(()),
    }
}

// The line of what comes of the change to a chain that says the same.
fn push_kept(
    alloc: Global,
    text: &mut String,
    old: &ChainSide<'_>,
    was: &Chain,
    new: &ChainSide<'_>,
    is: &Chain,
) -> Result<(), AllocError>
    ensures { OnOk result (string_bytes text.new ≡ string_bytes text.old
        ++ chain_kept old.now.set.now old.now.levels.now was.now new.now.set.now new.now.levels.now is.now) }
{
    if !same_chain(old.set, was, new.set, is) {
        return Ok(());
    }
    let before = bounded(alloc, old, was)?;
    let after = bounded(alloc, new, is)?;
    match (before.bound, after.bound) {
        (Some(from), Some(to)) => push_effect(text, is, from, to),
        _ => Ok(()),
    }
}

// The same of a new chain that was there before.
fn push_rest(
    alloc: Global,
    text: &mut String,
    old: &ChainSide<'_>,
    new: &ChainSide<'_>,
    chain: &Chain,
) -> Result<(), AllocError>
    ensures { OnOk result (string_bytes text.new ≡ string_bytes text.old
        ++ chain_rest old.now.set.now old.now.levels.now old.now.chains.now
        new.now.set.now new.now.levels.now chain.now) }
{
    match chain_named(old.chains, chain.name) {
        Some(was) => push_kept(alloc, text, old, was, new, chain),
        None => Ok(()),
    }
}

// ---- all

// The lines of the chains that are gone.
fn push_all_gone(
    alloc: Global,
    text: &mut String,
    old: &ChainSide<'_>,
    new: &ChainSide<'_>,
) -> Result<(), AllocError>
    ensures { OnOk result (string_bytes text.new ≡ string_bytes text.old
        ++ each_chain (chain_gone old.now.set.now old.now.levels.now new.now.chains.now) old.now.chains.now) }
{
    for chain in old.chains {
        push_gone(alloc, text, old, new.chains, chain)?;
    }
    Ok(())
}

// The lines of what was done to the new chains.
fn push_edits(
    alloc: Global,
    text: &mut String,
    old: &ChainSide<'_>,
    new: &ChainSide<'_>,
) -> Result<(), AllocError>
    ensures { OnOk result (string_bytes text.new ≡ string_bytes text.old
        ++ each_chain (chain_edit old.now.set.now old.now.levels.now old.now.chains.now
        new.now.set.now new.now.levels.now) new.now.chains.now) }
{
    for chain in new.chains {
        push_edit(alloc, text, old, new, chain)?;
    }
    Ok(())
}

// The lines of what comes of the change to the others.
fn push_rests(
    alloc: Global,
    text: &mut String,
    old: &ChainSide<'_>,
    new: &ChainSide<'_>,
) -> Result<(), AllocError>
    ensures { OnOk result (string_bytes text.new ≡ string_bytes text.old
        ++ each_chain (chain_rest old.now.set.now old.now.levels.now old.now.chains.now
        new.now.set.now new.now.levels.now) new.now.chains.now) }
{
    for chain in new.chains {
        push_rest(alloc, text, old, new, chain)?;
    }
    Ok(())
}

/// The lines of a change from one set's chains to another's: of the chains that are gone, then of those that came and those
/// that say something else, then of the others whose bounds are other ones. Each as written. The error is out of memory.
pub fn chain_text(
    alloc: Global,
    old: &ChainSide<'_>,
    new: &ChainSide<'_>,
) -> Result<String, AllocError>
    ensures { IfOk result (λ text. string_bytes text
        ≡ chain_changes old.now.set.now old.now.levels.now old.now.chains.now
        new.now.set.now new.now.levels.now new.now.chains.now) }
{
    let mut text = String::new(alloc);
    push_all_gone(alloc, &mut text, old, new)?;
    push_edits(alloc, &mut text, old, new)?;
    push_rests(alloc, &mut text, old, new)?;
    Ok(text)
}
