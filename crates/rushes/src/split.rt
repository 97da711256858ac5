//! A script's lines by team.
ghost use Rattle.std.specs.Prelude.{◌≡◌, ◌<◌, ◌+◌, ◌∷◌, List, [], IfOk, OnOk, length, map};
ghost use Rattle.std.specs.List.{All};
ghost use Rattle.drafts.specs.declared.team.TheConstants.{TEAM_LIMIT};
ghost use Rattle.scripts.specs.declared.line.Line.{Line};
ghost use Rattle.rushes.specs.TeamLines.{draft_of, line_draft, lines_of, opener_of, openers_after, opens, IsSplit};

use drafts::{TEAM_LIMIT, Team};
use scripts::{Line, Row};
use std::alloc::{AllocError, Global};
use std::marker::Model;

/// A line of a team, and the number of the draft that it opens or is on.
#[derive(Drop)]
pub(crate) struct TeamLine<'a> {
    pub(crate) line: &'a Line,
    pub(crate) draft: usize,
}

impl<'a> Model for TeamLine<'a> {
    ghost use Rattle.rushes.specs.TeamLines.{TeamLine};

    ghost Value = { TeamLine };

    ghost view = { λ l. record { line = l.line.now; draft = l.draft } };
}

// A team's place among all, from 0.
fn index_of(team: Team) -> usize
    ensures is { result + 1 ≡ team }
    ensures within { result < TEAM_LIMIT }
{
    (team.number() - 1) as usize
}

/// The team for which a line opens a draft, if it opens one.
pub(crate) fn opens(row: &Row) -> Option<Team>
    ensures { result ≡ opens row.now }
{
    match row {
        Row::Open { team } => Some(*team),
        _ => None,
    }
}

// The number of the draft that a line is on; 0 where it opens one.
fn line_draft(row: &Row) -> usize
    ensures { result ≡ line_draft row.now }
{
    match row {
        Row::Open { .. } => 0,
        Row::Put { draft, .. }
        | Row::Remove { draft, .. }
        | Row::Found { draft, .. }
        | Row::Test { draft }
        | Row::Commit { draft }
        | Row::Abandon { draft } => *draft,
    }
}

// The team of the draft of a number.
fn opener_of(openers: &[Team], number: usize) -> Option<Team>
    ensures { result ≡ opener_of openers.now number }
{
    if number == 0 {
        return None;
    }
    match openers.get(number - 1) {
        Some(team) => Some(*team),
        None => None,
    }
}

// The team and the number of the draft that a line opens or is on.
fn draft_of(openers: &mut Vec<Team>, row: &Row) -> Result<Option<(Team, usize)>, AllocError>
    ensures draft { IfOk result (λ draft. draft ≡ draft_of openers.old.items row.now) }
    ensures openers { OnOk result (openers.new.items ≡ openers_after openers.old.items row.now) }
{
    if let Some(team) = opens(row) {
        openers.push(team)?;
        return Ok(Some((team, openers.len())));
    }
    let draft = line_draft(row);
    match opener_of(openers, draft) {
        Some(team) => Ok(Some((team, draft))),
        None => Ok(None),
    }
}

// Gives a line to the team whose draft it opens or is on.
fn deal<'a>(
    openers: &mut Vec<Team>,
    parts: &mut Vec<Vec<TeamLine<'a>>>,
    line: &'a Line,
) -> Result<(), AllocError>
    requires { length parts.old.items ≡ TEAM_LIMIT }
    ensures count { length parts.new.items ≡ TEAM_LIMIT }
    ensures given { OnOk result ((script left : List Line)
        → IsSplit script (line.now ∷ left) openers.old.items (map (λ p. p.items) parts.old.items)
        → IsSplit script left openers.new.items (map (λ p. p.items) parts.new.items)) }
{
    let Some((team, draft)) = draft_of(openers, &line.row)? else {
        return Ok(());
    };
    parts[index_of(team)].push(TeamLine { line, draft })?;
    Ok(())
}

// No lines for each team.
fn no_parts<'a>(alloc: Global) -> Result<Vec<Vec<TeamLine<'a>>>, AllocError>
    ensures count { IfOk result (λ parts. length parts.items ≡ TEAM_LIMIT) }
    ensures empty { IfOk result (λ parts. All (λ p. p.items ≡ []) parts.items) }
{
    let mut parts = Vec::new(alloc);
    for _team in 0..TEAM_LIMIT {
        parts.push(Vec::new(alloc))?;
    }
    Ok(parts)
}

/// A script and, by team, its lines.
#[derive(Drop)]
pub(crate) struct Split<'a> {
    script: &'a [Line],
    parts: Vec<Vec<TeamLine<'a>>>,
}

impl<'a> Model for Split<'a> {
    ghost use Rattle.std.specs.Prelude.{◌≡◌, ◌≤◌, ◌-◌, ℕ, List, [], length, map, slice_index_or};
    ghost use Rattle.drafts.specs.declared.team.TheConstants.{TEAM_LIMIT};
    ghost use Rattle.scripts.specs.declared.line.Line.{Line};
    ghost use Rattle.rushes.specs.TeamLines.{lines_of};

    ghost Value = { List Line };

    ghost view = { λ s. s.script.now };

    ghost invariant = { λ s. (length s.parts.items ≡ TEAM_LIMIT)
        × ((team : ℕ) → 1 ≤ team → team ≤ TEAM_LIMIT
        → slice_index_or (map (λ p. p.items) s.parts.items) (team - 1) []
        ≡ lines_of team [] s.script.now) };
}

impl<'a> Split<'a> {
    /// Splits a script by team.
    pub(crate) fn new(alloc: Global, script: &'a [Line]) -> Result<Split<'a>, AllocError>
        ensures { IfOk result (λ split. split ≡ script.now) }
    {
        let mut openers = Vec::new(alloc);
        let mut parts = no_parts(alloc)?;
        for line in script {
            deal(&mut openers, &mut parts, line)?;
        }
        Ok(Split { script, parts })
    }

    /// The lines of a team.
    pub(crate) fn lines_of(&self, team: Team) -> &[TeamLine<'a>]
        ensures { result.now ≡ lines_of team [] self.now }
    {
        &self.parts[index_of(team)]
    }
}
