//! Findings on the questions of drafts.
ghost use Rattle.std.specs.Prelude.{◌≡◌, IfOk, Option, option_map};
ghost use Rattle.desk_core.specs.World.{live_at, Live};
ghost use Rattle.desk_core.specs.Standings.{IsQuestionOf, IsStanding};
ghost use Rattle.plays.specs.Plays.{first_cause, no_levels};
ghost use Rattle.plays.specs.Testing.{IsTestedBy};

use assignment::Finding;
use desk_core::{Cause, Core, Standing};
use std::alloc::{AllocError, Global};
use task_sheet::Name;

// Why a draft has no levels, by where it stands.
fn cause_of(standing: &Standing) -> Option<Cause>
    ensures { (slot : Option Live) → IsStanding slot standing.now → result ≡ no_levels slot }
{
    match standing {
        Standing::NoSuchDraft => Some(Cause::NoSuchDraft),
        Standing::Untestable => Some(Cause::Untestable),
        Standing::Asking { .. } => None,
        Standing::Tested { .. } => None,
    }
}

/// The cause that is reported of two drafts.
pub(crate) fn first_cause(first: Option<Cause>, second: Option<Cause>) -> Option<Cause>
    ensures { result ≡ first_cause first second }
{
    match first {
        None => second,
        Some(Cause::NoSuchDraft) => Some(Cause::NoSuchDraft),
        Some(cause) => match second {
            None => Some(cause),
            Some(other) => Some(other),
        },
    }
}

/// Why a draft has no levels.
pub(crate) fn why_none(
    alloc: Global,
    core: &mut Core,
    draft: usize,
) -> Result<Option<Cause>, AllocError>
    ensures same { core.new ≡ core.old }
    ensures ok { IfOk result (λ why. why ≡ no_levels (live_at core.old.drafts draft)) }
{
    let standing = core.standing(alloc, draft)?;
    Ok(cause_of(&standing))
}

/// The finding on the task of a name at a draft's present level.
pub(crate) fn find(
    alloc: Global,
    core: &mut Core,
    draft: usize,
    name: Name,
) -> Result<Option<Finding>, AllocError>
    ensures same { core.new ≡ core.old }
    ensures ok { IfOk result
        (λ finding. IsQuestionOf (live_at core.old.drafts draft) name
        (option_map (λ f. f.question) finding)) }
{
    let Some(question) = core.question(alloc, draft, name)? else {
        return Ok(None);
    };
    match core.answer(alloc, draft, question) {
        Ok(finding) => Ok(Some(finding)),
        Err(_) => Err(AllocError),
    }
}

/// Brings a draft the finding that it asks for, until it asks for none, and says where it stands then.
pub(crate) fn bring_all(
    alloc: Global,
    core: &mut Core,
    draft: usize,
) -> Result<Standing, AllocError>
    ensures { IfOk result (IsTestedBy core.old draft core.new) }
{
    loop {
        match core.advance(alloc, draft)? {
            Some(_reply) => {}
            None => return core.standing(alloc, draft),
        }
    }
}
