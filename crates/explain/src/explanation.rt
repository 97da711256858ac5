//! What explains a placing of a set.
ghost use Rattle.std.specs.Prelude.{IfOk};
ghost use Rattle.assignment.specs.Placings.{IsPlacingOf};
ghost use Rattle.explain.specs.Explanations.{Explains};

use crate::accounts::{Account, response_accounts};
use crate::conflict::least_conflict;
use crate::needs::{Need, needs_of};
use assignment::Placing;
use ceilings::Tabled;
use std::alloc::{AllocError, Global};
use task_sheet::Members;

/// What explains a placing.
#[derive(Drop)]
pub enum Explanation {
    /// Some order passes: each response with its parts, the lowest level first.
    Responses(Vec<Account>),
    /// No order passes: a least conflict, and why each of its tasks may not stand below the others, by rank.
    Conflict { left: Members, needs: Vec<Need> },
}

/// What explains a placing of a set: the parts of its responses, or a least conflict with what its tasks need
/// (Audsley et al. 1993; Audsley 1991). The error is out of memory.
pub fn explain(
    alloc: Global,
    set: &Tabled<'_>,
    placing: &Placing,
) -> Result<Explanation, AllocError>
    requires { IsPlacingOf set.now placing.now }
    ensures { IfOk result (λ explanation. Explains set.now placing.now explanation) }
{
    // The set is valid: the proof has it from its sheets.
    let _sheets = set.sheets();
    match placing {
        Placing::Best(places) => {
            let accounts = response_accounts(alloc, set, places)?;
            Ok(Explanation::Responses(accounts))
        }
        Placing::Stuck(greatest) => {
            let left = least_conflict(set, *greatest);
            let needs = needs_of(alloc, set, left)?;
            Ok(Explanation::Conflict { left, needs })
        }
    }
}
