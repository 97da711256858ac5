//! The climb.
use crate::findings::{A, B, C, FAILURES, are_failures, is_record, level_of};
use assignment::{Climb, ClimbFault, Level, Verdict};
use example_sets::{BLOCKED_OUT, THREE_TASKS, again, shared_set};
use std::alloc::Global;
use std::process::Abort;
use std::test::Fail;

// Closes a level in a climb, and says what came of it.
fn close(climb: &mut Climb, level: Level) -> &'static str {
    match climb.close(level) {
        Ok(()) => "closed",
        Err(ClimbFault::Stranger { .. }) => "stranger",
        Err(ClimbFault::NotAll { .. }) => "not all",
    }
}

// The tasks that are gone at a level, the findings that it has, and what comes of closing it.
type Row = (&'static [usize], &'static [usize], &'static str);

// The climb on a document's set.
fn climb_at(alloc: Global, document: &str) -> Result<Climb, Fail> {
    let set = shared_set(alloc, document)?;
    Ok(again!(Climb::start(alloc, set.clone()?))?)
}

// The climb on a document's set, after closing these levels in turn.
fn climbed(rt: &impl Abort, alloc: Global, document: &str, levels: &[Row]) -> Result<Climb, Fail> {
    let mut climb = climb_at(alloc, document)?;
    for (gone, found, want) in levels {
        let level = level_of(rt, alloc, document, *gone, *found)?;
        assert!(rt; close(&mut climb, level) == *want);
    }
    Ok(climb)
}

const LEVELS: [Row; 6] = [
    (&[C], &[], "stranger"),
    (&[], &[C], "not all"),
    (&[], &[A, B, C], "closed"),
    (&[C], &[A], "closed"),
    (&[C], &[A], "stranger"),
    (&[C, A], &[B], "closed"),
];

// Whether a verdict has c lowest, which a and b can't be, then a, then b.
fn is_best_of_three(verdict: &Verdict) -> bool {
    match verdict {
        Verdict::Admitted(best) => match best.levels() {
            [low, middle, high] => {
                is_record(low, C, 20000, &FAILURES)
                    && is_record(middle, A, 6000, &[])
                    && is_record(high, B, 3000, &[])
            }
            _ => false,
        },
        Verdict::Infeasible(_) => false,
    }
}

#[test]
fn climb_on_three_tasks(rt: HostRuntime) -> Result<(), Fail> {
    let climb = climbed(&rt, rt.alloc(), THREE_TASKS, &LEVELS)?;
    let verdict = climb.finish().ok().ok_or("unfinished")?;
    assert!(rt; is_best_of_three(&verdict));
    Ok(())
}

const HI: usize = 0;

const LO: usize = 1;

const STUCK: [Row; 3] = [
    (&[], &[HI, LO], "closed"),
    (&[LO], &[HI], "closed"),
    (&[LO], &[HI], "stranger"),
];

// Whether hi alone is in the way, by 1, 4500.
fn is_hi_stuck(verdict: &Verdict) -> bool {
    match verdict {
        Verdict::Admitted(_) => false,
        Verdict::Infeasible(stuck) => are_failures(stuck.members(), &[(HI, &[1, 4500])]),
    }
}

#[test]
fn climb_that_is_stuck(rt: HostRuntime) -> Result<(), Fail> {
    let climb = climbed(&rt, rt.alloc(), BLOCKED_OUT, &STUCK)?;
    let verdict = climb.finish().ok().ok_or("unfinished")?;
    assert!(rt; is_hi_stuck(&verdict));
    Ok(())
}

// How many tasks are left, how many levels stand, and whether one is stuck, of a climb that comes back where it is
// finished at once.
#[test]
fn finished_at_once(rt: HostRuntime) -> Result<(), Fail> {
    let refused = climb_at(rt.alloc(), THREE_TASKS)?.finish().err();
    let climb = refused.ok_or("finished")?.climb;
    assert!(rt; climb.left().len() == 3 && climb.levels().is_empty());
    assert!(rt; climb.members().is_none());
    Ok(())
}
