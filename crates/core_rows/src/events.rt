//! Runs of the core, and what it asks of a draft.
use assignment::{AnswerFault, Finding};
use desk_core::{Core, Event, Reply, Standing, StepFault, run};
use drafts::Team;
use example_sets::{again, name};
use std::alloc::Global;
use std::process::Abort;
use std::test::Fail;
use task_sheet::Sheet;

// Opens a draft of a team.
fn open(number: u64) -> Result<Event, Fail> {
    let team = Team::new(number).ok_or("team")?;
    Ok(Event::Open { team })
}

// Puts a task (10000, 10000, cost) without sections into a draft.
fn put(alloc: Global, draft: usize, text: &str, cost: u64) -> Result<Event, Fail> {
    let sheet = Sheet::new(name(text)?, 0, 10_000, 10_000, cost, Vec::new(alloc));
    let sheet = sheet.ok().ok_or("sheet")?;
    Ok(Event::Put { draft, sheet })
}

// Two drafts with a task of this cost each.
fn collision(alloc: Global, cost: u64) -> Result<Vec<Event>, Fail> {
    let mut events = Vec::new(alloc);
    for (draft, team, text) in [(1, 1, "a"), (2, 2, "b")] {
        events.push(open(team)?)?;
        events.push(put(alloc, draft, text, cost)?)?;
    }
    for draft in [1, 2, 2] {
        events.push(Event::Commit { draft })?;
    }
    Ok(events)
}

fn word_of(reply: &Reply) -> &'static str {
    match reply {
        Reply::Opened { .. } => "opened",
        Reply::Done => "done",
        Reply::Decided { .. } => "decided",
        Reply::Refused { .. } => "refused",
        _ => "another",
    }
}

const WORDS: [&str; 7] = [
    "opened", "done", "opened", "done", "decided", "decided", "refused",
];

// Whether they are answered with these words.
fn are_said(rt: &impl Abort, replies: &[Reply]) {
    assert!(rt; replies.len() == WORDS.len());
    for (reply, word) in replies.iter().zip(&WORDS) {
        assert!(rt; word_of(reply) == *word);
    }
}

#[test]
fn a_run_answers_each_event(rt: HostRuntime) -> Result<(), Fail> {
    for (cost, version) in [(4_000, 2), (6_000, 1)] {
        let events = collision(rt.alloc(), cost)?;
        let (core, replies) = run(rt.alloc(), events)?;
        are_said(&rt, &replies);
        assert!(rt; core.book().state().version() == version);
    }
    Ok(())
}

// One step.
fn step(alloc: Global, core: &mut Core, event: Event) -> Result<(), Fail> {
    let reply = again!(core.step(alloc, event), StepFault { event });
    reply.ok().ok_or("a step")?;
    Ok(())
}

// The finding on the question that draft 1 has on a.
fn found(alloc: Global, core: &mut Core) -> Result<Finding, Fail> {
    let question = again!(core.question(alloc, 1, name("a")?))?.ok_or("a question")?;
    let finding = again!(core.answer(alloc, 1, question), AnswerFault { question });
    Ok(finding.ok().ok_or("a finding")?)
}

// Whether draft 1 is tested and has no question on a.
fn is_tested(alloc: Global, core: &mut Core) -> Result<bool, Fail> {
    let standing = again!(core.standing(alloc, 1))?;
    let question = again!(core.question(alloc, 1, name("a")?))?;
    Ok(matches!(standing, Standing::Tested { .. }) && question.is_none())
}

// A core whose draft 1 puts a.
fn with_a(alloc: Global) -> Result<Core, Fail> {
    let mut core = again!(Core::new(alloc))?;
    step(alloc, &mut core, open(1)?)?;
    step(alloc, &mut core, put(alloc, 1, "a", 1_000)?)?;
    Ok(core)
}

#[test]
fn a_draft_is_asked_for_its_task(rt: HostRuntime) -> Result<(), Fail> {
    let mut core = with_a(rt.alloc())?;
    assert!(rt; !is_tested(rt.alloc(), &mut core)?);
    let finding = found(rt.alloc(), &mut core)?;
    step(rt.alloc(), &mut core, Event::Found { draft: 1, finding })?;
    assert!(rt; is_tested(rt.alloc(), &mut core)?);
    Ok(())
}
