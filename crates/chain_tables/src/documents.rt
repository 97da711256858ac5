//! The chains of documents.
ghost use Rattle.std.specs.Prelude.{◌≡◌, ◌≢◌, true, List, [], ◌++◌, map, None, Some, Ok, Err, IfOk, IfErr, OnOk, option_map};
ghost use Rattle.toml.specs.View.{items_view, table_view};
ghost use Rattle.task_sheet.specs.Tree.{all_tables, tables_in};
ghost use Rattle.teams.specs.ReadsText.{is_gathered};
ghost use Rattle.chain_tables.specs.Tables.{WrittenData, chain_at, chains_in, document_fault, first_repeat, holder_of, names_fault, tables_fault};
ghost use Rattle.chain_tables.specs.Documents.{IsFaulty, ReadsIf, ReadsTeams, ReadsThen, ReadsWritten, Says};

use crate::fault::{ChainCause, ChainFault, Whose};
use crate::judging::CHAIN_LIMIT;
use crate::table::{Written, read_table};
use std::alloc::Global;
use task_sheet::{Key, Name, tables_at};
use teams::{Part, first_part, is_gathered, node_part};
use toml::{Table, Value};

// ---- names that stand twice

// A chain with the name of one before it: its place, from 1, whose they are, and the name.
#[derive(Clone, Copy)]
pub(crate) struct Repeat {
    pub place: usize,
    pub whose: Whose,
    pub name: Name,
    pub other: Whose,
}

// Whose the first chain with a name is.
fn holder_of(chains: &[Written], name: Name) -> Option<Whose>
    ensures { result ≡ holder_of chains.now name }
{
    let chain = chains.iter().find(|chain| chain.name == name)?;
    Some(chain.whose)
}

// The first chain with the name of one before it.
pub(crate) fn first_repeat(chains: &[Written]) -> Option<Repeat>
    ensures { result ≡ first_repeat [] 1 chains.now }
{
    for (i, chain) in chains.iter().enumerate() {
        if let Some(other) = holder_of(&chains[..i], chain.name) {
            return Some(Repeat {
                place: i + 1,
                whose: chain.whose,
                name: chain.name,
                other,
            });
        }
    }
    None
}

// ---- documents

// The chains of tables.
fn read_tables(alloc: Global, whose: &Whose, items: &[Value]) -> Result<Vec<Written>, ChainFault>
    requires { all_tables (items_view items.now) ≡ true }
    ensures ok { IfOk result (λ ws. (tables_fault 1 (tables_in (items_view items.now)) ≡ None)
        × (ws.items ≡ map (chain_at whose.now) (tables_in (items_view items.now)))) }
    ensures err { IfErr result (λ e. e ≢ ChainFault.OutOfMemory
        → option_map (ChainFault.Document whose.now)
        (tables_fault 1 (tables_in (items_view items.now))) ≡ Some e) }
{
    let mut chains = Vec::new(alloc);
    for (i, item) in items.iter().enumerate() {
        if let Some(table) = item.as_table() {
            let chain = read_table(alloc, whose, i + 1, table)?;
            chains.push(chain)?;
        }
    }
    Ok(chains)
}

// Why a document's chains are none by their number and their names.
fn names_fault(chains: &[Written]) -> Option<ChainCause>
    ensures { result ≡ names_fault chains.now }
{
    if chains.len() > CHAIN_LIMIT {
        return Some(ChainCause::TooManyChains);
    }
    match first_repeat(chains) {
        Some(repeat) => Some(ChainCause::SameName {
            chain: repeat.place,
        }),
        None => None,
    }
}

// The chains of a document's tree.
fn read_tree(alloc: Global, whose: &Whose, root: &Table) -> Result<Vec<Written>, ChainFault>
    ensures ok { IfOk result (λ ws. (document_fault whose.now (table_view root.now) ≡ None)
        × (ws.items ≡ chains_in whose.now (table_view root.now))) }
    ensures err { IfErr result (λ e. e ≢ ChainFault.OutOfMemory
        → option_map (ChainFault.Document whose.now) (document_fault whose.now (table_view root.now))
        ≡ Some e) }
{
    let Some(items) = tables_at(Key::Chain, root) else {
        return Ok(Vec::new(alloc));
    };
    let chains = read_tables(alloc, whose, items)?;
    match names_fault(&chains) {
        None => Ok(chains),
        Some(cause) => {
            let whose = *whose;
            Err(ChainFault::Document { whose, cause })
        }
    }
}

// The chains of a document; none where it is no document.
fn read_document(alloc: Global, whose: &Whose, text: &[u8]) -> Result<Vec<Written>, ChainFault>
    ensures ok { IfOk result (λ ws. Says whose.now text.now ws.items) }
    ensures err { IfErr result (λ e. e ≢ ChainFault.OutOfMemory → IsFaulty whose.now text.now e) }
{
    match toml::table_from_slice(alloc, text) {
        Ok(root) => read_tree(alloc, whose, &root),
        Err(error) if error.is_memory() => Err(ChainFault::OutOfMemory),
        Err(_) => Ok(Vec::new(alloc)),
    }
}

// Adds those of a team's document.
fn push_part(alloc: Global, chains: &mut Vec<Written>, part: &Part<'_>) -> Result<(), ChainFault>
    ensures ok { IfOk result (λ _. (own : List WrittenData) × Says (Whose.Team part.now.team) part.now.text.now own
        × (chains.new.items ≡ chains.old.items ++ own)) }
    ensures err { IfErr result (λ e. e ≢ ChainFault.OutOfMemory
        → IsFaulty (Whose.Team part.now.team) part.now.text.now e) }
{
    let team = part.team;
    let mut own = read_document(alloc, &Whose::Team { team }, part.text)?;
    chains.append(&mut own)?;
    Ok(())
}

// Those of the documents of teams that a text begins with, behind these.
fn read_teams(alloc: Global, chains: Vec<Written>, text: &[u8]) -> Result<Vec<Written>, ChainFault>
    ensures ok { IfOk result (λ ws. ReadsTeams text.now chains.items (Ok ws.items)) }
    ensures err { IfErr result (λ e. e ≢ ChainFault.OutOfMemory
        → ReadsTeams text.now chains.items (Err e)) }
{
    let mut chains = chains;
    let mut rest = text;
    while let Some((part, after)) = first_part(rest) {
        push_part(alloc, &mut chains, &part)?;
        rest = after;
    }
    Ok(chains)
}

/// The chains that a set's text says, in the order of its documents, whether the set has their tasks or not; or the first fault
/// of a document.
pub fn read_written(alloc: Global, text: &[u8]) -> Result<Vec<Written>, ChainFault>
    ensures ok { IfOk result (λ ws. ReadsWritten text.now (Ok ws.items)) }
    ensures err { IfErr result (λ e. e ≢ ChainFault.OutOfMemory → ReadsWritten text.now (Err e)) }
{
    if !is_gathered(text) {
        return read_document(alloc, &Whose::Alone, text);
    }
    match node_part(text) {
        Some((node, rest)) => {
            let own = read_document(alloc, &Whose::Node, node)?;
            read_teams(alloc, own, rest)
        }
        None => read_teams(alloc, Vec::new(alloc), text),
    }
}
