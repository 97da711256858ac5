//! `desk script`.
ghost use Rattle.std.specs.Prelude.{◌≡◌, ◌≤◌, MatchResult, string_bytes, Some, None};
ghost use Rattle.drafts.specs.declared.team.TheConstants.{TEAM_LIMIT};
ghost use Rattle.answering.specs.Chosen.{asking_of, team_chosen};
ghost use Rattle.set_commands.specs.Script.{AreTooMany, HasNoParts, IsAllScript, IsAllScripted, IsScript, SaysScript};
ghost use Rattle.answering.specs.Sets.{HasNoSet};
ghost use Rattle.scripted.specs.Scripted.{script_of};
ghost use Rattle.answering.specs.Outcomes.{IsCarriedOut, IsRead, failed_read};

use answering::{
    Audience, CommandRefusal, Status, Which, asking_of, print, read_one, read_owned, refuse,
    team_chosen, tell,
};
use command_line::Options;
use drafts::{TEAM_LIMIT, Team};
use owners::{Owner, parts_of};
use preferences::Asking;
use scripted::{script_text, teams_text};
use std::alloc::Global;
use std::io::{Read, Write};
use streams::Watched;
use task_sheet::TaskSet;

// The script of a team that is a set, or that memory ran out.
fn script_of(alloc: Global, team: Team, tasks: &TaskSet) -> Result<String, CommandRefusal>
    ensures { MatchResult result (λ text. string_bytes text ≡ script_of team tasks.now)
        (λ r. r ≡ CommandRefusal.OutOfMemory) }
{
    match script_text(alloc, team, tasks) {
        Ok(text) => Ok(text),
        Err(_) => Err(CommandRefusal::OutOfMemory),
    }
}

// The script of a team that is the set that the reader has, or why there is none.
fn script<R: Read + Drop, P: Audience>(
    alloc: Global,
    asking: Asking,
    set: &mut Watched<R>,
    team: Team,
    people: &mut P,
) -> Result<String, CommandRefusal>
    ensures answer { MatchResult result
        (λ text. IsScript asking team (R.remaining set.old.inner) (string_bytes text))
        (λ r. HasNoSet asking (R.remaining set.old.inner) r) }
    ensures read { IsRead failed_read set.old set.new result }
{
    let tasks = read_one(alloc, asking, set, people)?;
    let text = script_of(alloc, team, &tasks);
    tell(&text, &tasks, Which::First, b"", people);
    text
}

// `desk script` of a team's number.
fn run_of_team<R: Read + Drop, W: Write + Drop, P: Audience>(
    alloc: Global,
    asking: Asking,
    set: &mut Watched<R>,
    team: u64,
    output: &mut Watched<W>,
    people: &mut P,
) -> Status
    requires from { 1 ≤ team }
    requires to { team ≤ TEAM_LIMIT }
    ensures { IsCarriedOut (SaysScript asking (Some team)) R.remaining W.contents
        set.old set.new output.old output.new result }
{
    let Some(team) = Team::new(team) else {
        unreachable!();
    };
    match script(alloc, asking, set, team, people) {
        Ok(text) => print(text.as_bytes(), Status::Done, output),
        Err(refusal) => refuse(refusal, output),
    }
}

// The script of all teams that have tasks of a set, or that they are too many.
fn script_of_all(alloc: Global, owners: &[Owner], tasks: &TaskSet) -> Result<String, CommandRefusal>
    ensures { MatchResult result (λ text. IsAllScripted owners.now tasks.now (string_bytes text))
        (λ r. AreTooMany owners.now tasks.now r) }
{
    let parts = parts_of(alloc, owners, tasks.sheets())?;
    if parts.len() as u64 > TEAM_LIMIT {
        return Err(CommandRefusal::TooManyTeams);
    }
    let text = teams_text(alloc, &parts)?;
    Ok(text)
}

// The script of all teams that is the set that the reader has, or why there is none.
#[tactic(auto, using(crate::proofs::ScriptLaws::no_parts))]
fn all_script<R: Read + Drop, P: Audience>(
    alloc: Global,
    asking: Asking,
    set: &mut Watched<R>,
    people: &mut P,
) -> Result<String, CommandRefusal>
    ensures answer { MatchResult result
        (λ text. IsAllScript asking (R.remaining set.old.inner) (string_bytes text))
        (λ r. HasNoParts asking (R.remaining set.old.inner) r) }
    ensures read { IsRead failed_read set.old set.new result }
{
    let (tasks, owners, _chains) = read_owned(alloc, asking, set, people)?;
    let text = script_of_all(alloc, &owners, &tasks);
    tell(&text, &tasks, Which::First, b"", people);
    text
}

// `desk script` of all teams.
fn run_of_all<R: Read + Drop, W: Write + Drop, P: Audience>(
    alloc: Global,
    asking: Asking,
    set: &mut Watched<R>,
    output: &mut Watched<W>,
    people: &mut P,
) -> Status
    ensures { IsCarriedOut (SaysScript asking None) R.remaining W.contents
        set.old set.new output.old output.new result }
{
    match all_script(alloc, asking, set, people) {
        Ok(text) => print(text.as_bytes(), Status::Done, output),
        Err(refusal) => refuse(refusal, output),
    }
}

/// `desk script`: reads a task set, feasible or not, and prints it as the script of a team, from 1 to 8: a draft in which
/// each task is put by rank, and its commit; where the words choose no team, as the script of all teams that have tasks,
/// one after the other; or why the input was refused, or that more than 8 teams have tasks. Read back, the script is this
/// set.
pub fn run_script<R: Read + Drop, W: Write + Drop, P: Audience>(
    alloc: Global,
    options: Options<'_>,
    set: &mut Watched<R>,
    output: &mut Watched<W>,
    people: &mut P,
) -> Status
    ensures { IsCarriedOut (SaysScript (asking_of options.entry) (team_chosen options.entry))
        R.remaining W.contents set.old set.new output.old output.new result }
{
    let asking = asking_of(options);
    match team_chosen(options) {
        Some(team) => run_of_team(alloc, asking, set, team, output, people),
        None => run_of_all(alloc, asking, set, output, people),
    }
}
