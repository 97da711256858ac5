//! The text of a set as a script.
ghost use Rattle.std.specs.Prelude.{◌≡◌, ◌≤◌, ◌++◌, OnOk, IfOk, length, map, string_bytes, codes};
ghost use Rattle.task_sheet.specs.SheetFields.{outranks_of};
ghost use Rattle.drafts.specs.declared.team.TheConstants.{TEAM_LIMIT};
ghost use Rattle.scripted.specs.Scripted.{delay_words, draft_of, fields_of, interrupt_word, interrupt_words, node_words, over_words, plus_names, plus_rest, put_line, put_lines, script_of, script_of_teams, section_word, section_words, spaced};

use drafts::Team;
use std::alloc::{AllocError, Global};
use task_sheet::{Interrupt, Name, Node, Outranks, Section, Sheet, TaskSet};

// Names, each behind a sign `+`.
fn push_rest(text: &mut String, names: &[Name]) -> Result<(), AllocError>
    ensures { OnOk result (string_bytes text.new ≡ string_bytes text.old ++ plus_rest names.now) }
{
    for name in names {
        write!(text, "+{name}")?;
    }
    Ok(())
}

// Names with a sign `+` between each two.
fn push_names(text: &mut String, names: &[Name]) -> Result<(), AllocError>
    ensures { OnOk result (string_bytes text.new ≡ string_bytes text.old ++ plus_names names.now) }
{
    let Some((first, rest)) = names.split_first() else {
        return Ok(());
    };
    write!(text, "{first}")?;
    push_rest(text, rest)
}

// A section, behind a space.
fn push_section(text: &mut String, section: &Section) -> Result<(), AllocError>
    ensures { OnOk result (string_bytes text.new
        ≡ string_bytes text.old ++ codes " " ++ section_word section.now) }
{
    text.push_str(" ")?;
    push_names(text, &section.locks)?;
    let at = section.at;
    let len = section.len;
    write!(text, "@{at}:{len}")
}

// Sections, each behind a space.
fn push_sections(text: &mut String, sections: &[Section]) -> Result<(), AllocError>
    ensures { OnOk result (string_bytes text.new
        ≡ string_bytes text.old ++ spaced (section_words sections.now)) }
{
    for section in sections {
        push_section(text, section)?;
    }
    Ok(())
}

// `j=JITTER`, where the jitter isn't 0, behind a space.
fn push_delay(text: &mut String, jitter: u64) -> Result<(), AllocError>
    ensures { OnOk result (string_bytes text.new
        ≡ string_bytes text.old ++ spaced (delay_words jitter)) }
{
    if jitter == 0 {
        return Ok(());
    }
    write!(text, " j={jitter}")
}

// `over=NAME+NAME`, where there are names, or `over=*` for all others, behind a space.
fn push_over(text: &mut String, outranks: &Outranks) -> Result<(), AllocError>
    ensures { OnOk result (string_bytes text.new
        ≡ string_bytes text.old ++ spaced (over_words (outranks_of outranks.now))) }
{
    match outranks {
        Outranks::Named(names) => {
            if names.is_empty() {
                return Ok(());
            }
            text.push_str(" over=")?;
            push_names(text, names)
        }
        Outranks::AllOthers => text.push_str(" over=*"),
    }
}

// `node=JOB+LOCK+RELEASE+LATE`, where the node takes something, behind a space.
fn push_node(text: &mut String, node: Node) -> Result<(), AllocError>
    ensures { OnOk result (string_bytes text.new
        ≡ string_bytes text.old ++ spaced (node_words node)) }
{
    if node == Node::none() {
        return Ok(());
    }
    let Node {
        job,
        lock,
        release,
        late,
    } = node;
    write!(text, " node={job}+{lock}+{release}+{late}")
}

// Interrupts, each behind a sign `+`.
fn push_more(text: &mut String, interrupts: &[Interrupt]) -> Result<(), AllocError>
    ensures { OnOk result (string_bytes text.new
        ≡ string_bytes text.old ++ plus_rest (map interrupt_word interrupts.now)) }
{
    for interrupt in interrupts {
        let Interrupt { period, cost } = *interrupt;
        write!(text, "+{period}:{cost}")?;
    }
    Ok(())
}

// `irq=PERIOD:COST+PERIOD:COST`, where there are interrupts, behind a space.
fn push_interrupts(text: &mut String, interrupts: &[Interrupt]) -> Result<(), AllocError>
    ensures { OnOk result (string_bytes text.new
        ≡ string_bytes text.old ++ spaced (interrupt_words interrupts.now)) }
{
    let Some((first, rest)) = interrupts.split_first() else {
        return Ok(());
    };
    let Interrupt { period, cost } = *first;
    write!(text, " irq={period}:{cost}")?;
    push_more(text, rest)
}

// What of a sheet may be left out, each behind a space.
fn push_fields(text: &mut String, sheet: &Sheet) -> Result<(), AllocError>
    ensures { OnOk result (string_bytes text.new
        ≡ string_bytes text.old ++ fields_of sheet.now) }
{
    push_delay(text, sheet.jitter())?;
    push_over(text, sheet.outranks())?;
    push_node(text, sheet.node())?;
    push_interrupts(text, sheet.interrupts())
}

// The line that puts a task into a draft.
fn push_task(text: &mut String, draft: u64, sheet: &Sheet) -> Result<(), AllocError>
    ensures { OnOk result (string_bytes text.new
        ≡ string_bytes text.old ++ put_line draft sheet.now ++ codes "\n") }
{
    let name = sheet.name();
    let weight = sheet.weight();
    let period = sheet.period();
    let deadline = sheet.deadline();
    let cost = sheet.cost();
    write!(
        text,
        "put {draft} {name} {weight} {period} {deadline} {cost}"
    )?;
    push_fields(text, sheet)?;
    push_sections(text, sheet.sections())?;
    text.push_str("\n")
}

// Those of tasks, by rank.
fn push_tasks(text: &mut String, draft: u64, sheets: &[Sheet]) -> Result<(), AllocError>
    ensures { OnOk result (string_bytes text.new
        ≡ string_bytes text.old ++ put_lines draft sheets.now) }
{
    for sheet in sheets {
        push_task(text, draft, sheet)?;
    }
    Ok(())
}

// The draft of a team: it is opened, each task is put, and it is committed.
fn push_draft(text: &mut String, draft: u64, team: Team, sheets: &[Sheet]) -> Result<(), AllocError>
    ensures { OnOk result (string_bytes text.new
        ≡ string_bytes text.old ++ draft_of draft team sheets.now) }
{
    let number = team.number();
    write!(text, "open {number}\n")?;
    push_tasks(text, draft, sheets)?;
    write!(text, "commit {draft}\n")
}

/// The set as a script: a team opens a draft, puts each task by rank, and commits. The error is out of memory.
pub fn script_text(alloc: Global, team: Team, set: &TaskSet) -> Result<String, AllocError>
    ensures { IfOk result (λ text. string_bytes text ≡ script_of team set.now) }
{
    let mut text = String::new(alloc);
    push_draft(&mut text, 1, team, set.sheets())?;
    Ok(text)
}

// The draft of the team with a number, which is the draft's, too.
fn push_team(text: &mut String, number: usize, sheets: &[Sheet]) -> Result<(), AllocError>
    requires from { 1 ≤ number }
    requires to { number ≤ TEAM_LIMIT }
    ensures { OnOk result (string_bytes text.new
        ≡ string_bytes text.old ++ draft_of number number sheets.now) }
{
    let number = number as u64;
    match Team::new(number) {
        Some(team) => push_draft(text, number, team, sheets),
        None => unreachable!(),
    }
}

/// The parts of a set as a script: one team after the other, from 1, opens a draft, puts each task of its part, and
/// commits. The error is out of memory.
pub fn teams_text(alloc: Global, parts: &[Vec<Sheet>]) -> Result<String, AllocError>
    requires { length parts.now ≤ TEAM_LIMIT }
    ensures { IfOk result (λ text. string_bytes text
        ≡ script_of_teams (map (λ part. part.items) parts.now)) }
{
    let mut text = String::new(alloc);
    let mut number = 1;
    for part in parts {
        push_team(&mut text, number, part)?;
        number += 1;
    }
    Ok(text)
}
