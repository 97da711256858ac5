//! The lines of what is shown of a chain.
ghost use Rattle.std.specs.Prelude.{◌≡◌, ◌++◌, codes, IfOk, OnOk, string_bytes};
ghost use Rattle.std.specs.Fmt.{decimal};
ghost use Rattle.lines.specs.Known.{some_words};
ghost use Rattle.task_sheet.specs.Orders.{IsOrder};
ghost use Rattle.chains.specs.Parts.{order_of};
ghost use Rattle.release_list.specs.Text.{list_lines};
ghost use Rattle.chain_worst.specs.Shown.{AreChainLines, case_lines, comment, no_bound_lines, none_lines};

use crate::shown::{ChainCase, ChainRun, case_of};
use ceiling_kernel::Release;
use chain_tables::Chain;
use chains::Level;
use lines::push_some;
use release_list::list_text;
use std::alloc::{AllocError, Global};
use task_sheet::TaskSet;

// A line of comment, and a list behind what stands in front of it.
fn commented_list(
    alloc: Global,
    chain: &Chain,
    words: &str,
    front: &str,
    until: u64,
    releases: &[Release],
) -> Result<String, AllocError>
    ensures { IfOk result (λ text. string_bytes text
        ≡ comment chain.now.name words.now ++ front.now ++ list_lines until releases.now) }
{
    let name = chain.name;
    let mut text = format!(in alloc; "# {name} {words}\n")?;
    text.push_str(front)?;
    let list = list_text(alloc, until, releases)?;
    text.push_str(list.as_str())?;
    Ok(text)
}

// A reason why there is no run, and behind what stands in front of a list that of no releases.
fn none_text(alloc: Global, chain: &Chain, words: &str, front: &str) -> Result<String, AllocError>
    ensures { IfOk result (λ text. string_bytes text ≡ none_lines chain.now words.now front.now) }
{
    commented_list(alloc, chain, words, front, 0, &[])
}

/// That a chain has no bound. The error is out of memory.
pub fn no_bound_text(alloc: Global, chain: &Chain, front: &str) -> Result<String, AllocError>
    ensures { IfOk result (λ text. string_bytes text ≡ no_bound_lines chain.now front.now) }
{
    none_text(alloc, chain, "no-bound", front)
}

// How old what a chain writes gets in a run, beside its bound.
fn seen_text(alloc: Global, run: &ChainRun) -> Result<String, AllocError>
    ensures { IfOk result (λ text. string_bytes text
        ≡ some_words run.now.seen ++ codes " of " ++ decimal run.now.bound) }
{
    let mut text = String::new(alloc);
    push_some(&mut text, run.seen)?;
    let bound = run.bound;
    write!(text, " of {bound}")?;
    Ok(text)
}

// What is printed of a chain, with this in front of the list.
fn case_text(
    alloc: Global,
    chain: &Chain,
    front: &str,
    case: &ChainCase,
) -> Result<String, AllocError>
    ensures { IfOk result (λ text. string_bytes text ≡ case_lines chain.now front.now case.now) }
{
    match case {
        ChainCase::NoBound => no_bound_text(alloc, chain, front),
        ChainCase::PastHorizon => none_text(alloc, chain, "past-horizon", front),
        ChainCase::TooMany => none_text(alloc, chain, "too-many-releases", front),
        ChainCase::Ran(run) => {
            let words = seen_text(alloc, run)?;
            let (until, releases) = (run.run.until, &run.run.releases);
            commented_list(alloc, chain, words.as_str(), front, until, releases)
        }
    }
}

/// What is printed of a chain in an order whose levels have these responses, with this in front of the list. The error is out
/// of memory.
pub fn chain_worst_text(
    alloc: Global,
    set: &TaskSet,
    levels: &[Level],
    front: &str,
    chain: &Chain,
) -> Result<String, AllocError>
    requires { IsOrder set.now (order_of levels.now) }
    ensures { IfOk result (λ text. AreChainLines set.now levels.now front.now chain.now (string_bytes text)) }
{
    let (offsets, tasks) = (chain.offsets.as_slice(), chain.tasks.as_slice());
    let case = case_of(alloc, set, levels, chain.writes, offsets, tasks)?;
    case_text(alloc, chain, front, &case)
}
