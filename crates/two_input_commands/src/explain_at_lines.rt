//! `desk explain SET --at SETTINGS`.
ghost use Rattle.std.specs.Prelude.{◌≡◌, ◌<◌, All, IfOk, option_map, string_bytes};
ghost use Rattle.task_sheet.specs.declared.set.TheConstants.{TASK_LIMIT};
ghost use Rattle.two_input_commands.specs.ExplainAt.{AreToldOf, ExplainsBoth, ExplainsText, explained_at_lines};

use crate::chained::{ChainsTold, chained_status, notes_judged, tell_chains};
use crate::in_order::judge_asked;
use answering::{Answer, Both, CommandRefusal, Notes};
use ceilings::{LockTable, Tabled};
use chain_lines::Telling;
use chain_tables::Chain;
use judge::{
    JudgedNode, JudgedTask, LevelRow, Parted, explained_text, first_text, levels_of, sorted_if,
};
use owners::Owner;
use std::alloc::{AllocError, Global};
use task_sheet::TaskSet;

// An order that settings give, explained.
#[derive(Drop)]
struct ExplainedOrder {
    // What becomes of each task in it.
    node: JudgedNode,
    // The task that is asked about, where one is.
    asked: Option<usize>,
    // What is told of each level, the lowest first, or by slack where it was asked for; or of that task's.
    levels: Vec<LevelRow>,
}

// What is told of chains in an order; nothing where it is asked about one task.
fn told_of(
    alloc: Global,
    asked: Option<usize>,
    tasks: &TaskSet,
    chains: &[Chain],
    judged: &[JudgedTask],
) -> Result<ChainsTold, AllocError>
    ensures { IfOk result (AreToldOf asked tasks.now chains.now judged.now) }
{
    match asked {
        Some(_) => Ok(ChainsTold {
            text: String::new(alloc),
            are_met: true,
        }),
        None => tell_chains(alloc, Telling::Parts, tasks, chains, judged),
    }
}

// What explains the order that the text of settings gives, with these chains, or the task that is asked about; its levels by
// slack where it is asked for.
fn explain_at(
    alloc: Global,
    word: Option<&str>,
    sorted: bool,
    chains: &[Chain],
    tasks: &TaskSet,
    text: &[u8],
) -> Result<(ExplainedOrder, ChainsTold), CommandRefusal>
    ensures answer { ExplainsText (option_map (λ w. w.now) word.entry) sorted chains.now tasks.now text.now result }
    ensures within { IfOk result (λ found. All (λ j. j.task < TASK_LIMIT) found.0.node.judged.items) }
{
    let (node, asked) = judge_asked(alloc, word, tasks, text)?;
    let table = LockTable::new(alloc, tasks)?;
    let set = Tabled::of(tasks, &table);
    let rows = levels_of(alloc, &set, Parted::Each, asked, &node.judged)?;
    let levels = sorted_if(alloc, sorted, tasks, rows)?;
    let told = told_of(alloc, asked, tasks, chains, &node.judged)?;
    let found = ExplainedOrder {
        node,
        asked,
        levels,
    };
    Ok((found, told))
}

// What is printed of an explained order and of the chains in it: whether all tasks meet their deadlines, then the lines,
// each task with its team, and the chains.
fn explained_at_text(
    alloc: Global,
    owners: &[Owner],
    tasks: &TaskSet,
    found: &ExplainedOrder,
    told: &ChainsTold,
) -> Result<String, AllocError>
    requires { All (λ j. j.task < TASK_LIMIT) found.now.node.judged.items }
    ensures { IfOk result (λ text. string_bytes text
        ≡ explained_at_lines owners.now tasks.now found.now told.now) }
{
    let mut text = first_text(alloc, tasks, &found.node.judged)?;
    let levels = explained_text(alloc, owners, tasks, found.asked, &found.levels)?;
    text.push_str(levels.as_str())?;
    text.push_str(told.text.as_str())?;
    Ok(text)
}

// What a person is told of it: of all tasks the lines say which chain misses its limit.
fn notes_of(alloc: Global, both: &Both, found: &ExplainedOrder) -> Result<Notes, AllocError> {
    match found.asked {
        Some(_) => notes_judged(alloc, both, &found.node.judged),
        None => Ok(Notes::none()),
    }
}

/// The answer of `desk explain --at` on a set and the text of settings, by slack where it is asked for.
pub fn explain_both(
    alloc: Global,
    word: Option<&str>,
    sorted: bool,
    both: &Both,
) -> Result<Answer, CommandRefusal>
    ensures { ExplainsBoth (option_map (λ w. w.now) word.entry) sorted both.now result }
{
    let (chains, tasks) = (&both.chains, &both.tasks);
    let (found, told) = explain_at(alloc, word, sorted, chains, tasks, &both.text)?;
    let text = explained_at_text(alloc, &both.owners, tasks, &found, &told)?;
    let notes = notes_of(alloc, both, &found)?;
    Ok(Answer {
        text: text.into_bytes(),
        status: chained_status(&found.node.judged, told.are_met),
        notes,
    })
}
