//! Laws of scripts that sets are. Each is the contract of a function that does nothing.
ghost use Rattle.std.specs.Prelude.{◌≡◌, ◌≤◌, ℕ, List, length, All, Ok};
ghost use Rattle.std.specs.List.{AllByRecursion};
ghost use Rattle.task_sheet.specs.Sheet.{IsValidSheet, Task};
ghost use Rattle.task_sheet.specs.TaskSet.{IsTaskSet};
ghost use Rattle.drafts.specs.declared.team.TheConstants.{TEAM_LIMIT};
ghost use Rattle.scripts.specs.Script.{script_in};
ghost use Rattle.scripted.specs.Scripted.{lines_of_set, lines_of_teams, script_of, script_of_teams};

/// Read back, the script of a set opens a draft of the team, puts each of its tasks by rank, with all that its sheet says, and
/// commits.
pub fn scripts_are_read_back()
    ensures { (team : ℕ) (U : List Task) → 1 ≤ team → team ≤ TEAM_LIMIT → IsTaskSet U
        → script_in (script_of team U) ≡ Ok (lines_of_set team U) }
{}

/// Read back, the script of the parts of a set opens for each part a draft of a team of its own, puts each of its tasks, with
/// all that its sheet says, and commits, one part after the other.
pub fn team_scripts_are_read_back()
    ensures { (parts : List (List Task)) → length parts ≤ TEAM_LIMIT
        → AllByRecursion (λ U. All IsValidSheet U) parts
        → script_in (script_of_teams parts) ≡ Ok (lines_of_teams parts) }
{}
