//! `desk worst SET --at SETTINGS`.
ghost use Rattle.std.specs.Prelude.{IfOk, option_map, string_bytes};
ghost use Rattle.task_sheet.specs.Orders.{IsOrder};
ghost use Rattle.judge.specs.Judgements.{order_judged};
ghost use Rattle.two_input_commands.specs.WorstAt.{AreChainLinesIn, WorstsBoth, WorstsChain, WorstsTask, WorstsText};

use crate::chained::levels_judged;
use crate::in_order::{InOrder, answer_in, judge_asked, judge_order};
use answering::{Answer, Both, CommandRefusal, find_chain, no_such_chain};
use chain_tables::Chain;
use chain_worst::chain_worst_text;
use judge::JudgedNode;
use std::alloc::{AllocError, Global};
use task_sheet::TaskSet;
use worst_lines::{settings_judged, worst_text_in};

// The worst case of the task that is asked about, or of another one, in the order that the text of settings gives.
fn task_at(
    alloc: Global,
    word: Option<&str>,
    tasks: &TaskSet,
    text: &[u8],
) -> Result<InOrder, CommandRefusal>
    ensures { WorstsTask (option_map (λ w. w.now) word.entry) tasks.now text.now result }
{
    let (node, asked) = judge_asked(alloc, word, tasks, text)?;
    let front = settings_judged(alloc, tasks, &node.judged)?;
    let text = worst_text_in(alloc, tasks, front.as_str(), &node.judged, asked)?;
    Ok(InOrder { node, text })
}

// The lines of a chain in an order that was judged.
fn chain_text(
    alloc: Global,
    tasks: &TaskSet,
    node: &JudgedNode,
    chain: &Chain,
) -> Result<String, AllocError>
    requires { IsOrder tasks.now (order_judged node.now.judged.items) }
    ensures { IfOk result (λ text. AreChainLinesIn tasks.now node.now chain.now (string_bytes text)) }
{
    let levels = levels_judged(alloc, &node.judged)?;
    let front = settings_judged(alloc, tasks, &node.judged)?;
    chain_worst_text(alloc, tasks, &levels, front.as_str(), chain)
}

// The run of the chain that a word names in the order that the text of settings gives.
fn chain_at(
    alloc: Global,
    word: &str,
    chains: &[Chain],
    tasks: &TaskSet,
    text: &[u8],
) -> Result<InOrder, CommandRefusal>
    ensures { WorstsChain word.now chains.now tasks.now text.now result }
{
    let node = judge_order(alloc, tasks, text)?;
    match find_chain(chains, word) {
        Some(chain) => {
            let text = chain_text(alloc, tasks, &node, chain)?;
            Ok(InOrder { node, text })
        }
        None => Err(no_such_chain(word)),
    }
}

// What is shown in the order that the text of settings gives of the chain that is asked about, else of the task, or of another
// one.
fn worst_at(
    alloc: Global,
    chain: Option<&str>,
    task: Option<&str>,
    chains: &[Chain],
    tasks: &TaskSet,
    text: &[u8],
) -> Result<InOrder, CommandRefusal>
    ensures { WorstsText (option_map (λ w. w.now) chain.entry) (option_map (λ w. w.now) task.entry)
        chains.now tasks.now text.now result }
{
    match chain {
        Some(word) => chain_at(alloc, word, chains, tasks, text),
        None => task_at(alloc, task, tasks, text),
    }
}

/// The answer of `desk worst --at` on a set and the text of settings.
pub fn worst_both(
    alloc: Global,
    chain: Option<&str>,
    task: Option<&str>,
    both: &Both,
) -> Result<Answer, CommandRefusal>
    ensures { WorstsBoth (option_map (λ w. w.now) chain.entry) (option_map (λ w. w.now) task.entry)
        both.now result }
{
    let found = worst_at(alloc, chain, task, &both.chains, &both.tasks, &both.text)?;
    let answer = answer_in(alloc, both, found)?;
    Ok(answer)
}
