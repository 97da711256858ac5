//! Claims at a table by hand.
ghost use Rattle.std.specs.Prelude.{◌≡◌, ◌<◌, ◌≤◌, true, false, None, Some, IfNone, IfOk, IfSome, OnOk};
ghost use Rattle.candidate_workers.specs.Claims.{count_of, passes_at, late, begun, IsDone};
ghost use Rattle.candidate_workers.specs.Seats.{seat_view, table_level, SitsAt};

use crate::sets::lowest_level;
use candidate_workers::{Candidates, ClaimSeat, ClaimTable};
use ceilings::LockTable;
use example_sets::{THREE_TASKS, THREE_TASKS_TOO_TIGHT, again, shared_set};
use std::alloc::Global;
use std::process::Abort;
use std::test::Fail;

// The response of the candidate at a place, where it may stand there.
fn response_at(
    rt: &impl Abort,
    alloc: Global,
    level: &Candidates,
    place: u64,
) -> Result<Option<u64>, Fail>
    ensures passes { IfOk result (λ r. IfSome r (λ _. passes_at level.now place ≡ true)) }
    ensures fails { IfOk result (λ r. IfNone r (passes_at level.now place ≡ false)) }
{
    assert!(rt; place < level.left().len() as u64);
    let task = level.at(place as usize);
    let table = again!(LockTable::new(alloc, level.set()))?;
    Ok(level.response(&table, task))
}

// Whether the candidate at a place fails.
fn fails_at(rt: &impl Abort, alloc: Global, level: &Candidates, place: u64) -> Result<(), Fail>
    ensures { OnOk result (passes_at level.now place ≡ false) }
{
    match response_at(rt, alloc, level, place)? {
        Some(_) => Err("a candidate that fails")?,
        None => Ok(()),
    }
}

// Draws this number with a seat whose open candidate, if it has one, fails.
fn draw(
    rt: &impl Abort,
    alloc: Global,
    level: &Candidates,
    claims: &ClaimTable,
    seat: &mut ClaimSeat,
    held: Option<u64>,
    want: u64,
) -> Result<(), Fail>
    requires level { table_level claims.now ≡ level.now }
    requires seat { SitsAt claims.now seat.old × (seat.old.held ≡ held) }
    requires room { late (seat_view seat.old) < (seat_view seat.old).spare }
    ensures seat { OnOk result (SitsAt claims.now seat.new) }
    ensures spare { OnOk result ((seat_view seat.new).spare ≡ (seat_view seat.old).spare) }
    ensures open { OnOk result (want < count_of level.now →
        (seat.new.held ≡ Some want) × (late (seat_view seat.new) ≡ late (seat_view seat.old))) }
    ensures past { OnOk result
        (count_of level.now ≤ want → (seat.new.held ≡ None) × IsDone (seat_view seat.new)) }
{
    if let Some(place) = held {
        fails_at(rt, alloc, level, place)?;
    }
    let number = claims.claim(seat);
    if number != want {
        return Err("this number")?;
    }
    Ok(())
}

// Lowers the least word to the open candidate, which passes.
fn lower_to(
    rt: &impl Abort,
    alloc: Global,
    level: &Candidates,
    claims: &ClaimTable,
    seat: &mut ClaimSeat,
    place: u64,
) -> Result<(), Fail>
    requires level { table_level claims.now ≡ level.now }
    requires seat { SitsAt claims.now seat.old × (seat.old.held ≡ Some place) }
    ensures seat { OnOk result (SitsAt claims.now seat.new
        × (seat.new.held ≡ None) × IsDone (seat_view seat.new)
        × ((seat_view seat.new).spare ≡ (seat_view seat.old).spare)) }
{
    match response_at(rt, alloc, level, place)? {
        Some(_) => claims.lower(seat),
        None => return Err("a candidate that passes")?,
    }
    Ok(())
}

// The lowest level of a set of three tasks.
fn three_candidates(rt: &impl Abort, alloc: Global, text: &str) -> Result<Candidates, Fail>
    ensures { IfOk result (λ level. count_of level ≡ 3) }
{
    let level = lowest_level(&shared_set(alloc, text)?)?;
    assert!(rt; level.left().len() == 3);
    Ok(level)
}

// The level of a and b, with c below them.
fn two_candidates(rt: &impl Abort, alloc: Global) -> Result<Candidates, Fail>
    ensures { IfOk result (λ level. count_of level ≡ 2) }
{
    let mut level = lowest_level(&shared_set(alloc, THREE_TASKS)?)?;
    assert!(rt; level.left().has(2));
    level.place(2);
    assert!(rt; level.left().len() == 2);
    Ok(level)
}

// The table of a level, and its first seat.
fn claims_of(alloc: Global, level: &Candidates) -> Result<(ClaimTable, ClaimSeat), Fail>
    ensures { IfOk result (λ t. (table_level t.0 ≡ level.now)
        × SitsAt t.0 t.1 × (seat_view t.1 ≡ begun level.now) × (t.1.held ≡ None)) }
{
    Ok(again!(ClaimTable::new(alloc, level))?)
}

// s draws 0, t draws 1, s draws 2 and lowers the least word to it, t draws 3.
fn two_seats(rt: &impl Abort, alloc: Global) -> Result<(u64, u64), Fail> {
    let level = three_candidates(rt, alloc, THREE_TASKS)?;
    let (claims, mut s) = claims_of(alloc, &level)?;
    let mut t = claims.split(&mut s);
    draw(rt, alloc, &level, &claims, &mut s, None, 0)?;
    draw(rt, alloc, &level, &claims, &mut t, None, 1)?;
    draw(rt, alloc, &level, &claims, &mut s, Some(0), 2)?;
    lower_to(rt, alloc, &level, &claims, &mut s, 2)?;
    draw(rt, alloc, &level, &claims, &mut t, Some(1), 3)?;
    claims.join(&mut s, t);
    Ok(claims.finish(s))
}

// s draws 0 and lowers the least word to it, t draws 1 and sees that.
fn cut(rt: &impl Abort, alloc: Global) -> Result<(u64, u64), Fail> {
    let level = two_candidates(rt, alloc)?;
    let (claims, mut s) = claims_of(alloc, &level)?;
    let mut t = claims.split(&mut s);
    draw(rt, alloc, &level, &claims, &mut s, None, 0)?;
    lower_to(rt, alloc, &level, &claims, &mut s, 0)?;
    draw(rt, alloc, &level, &claims, &mut t, None, 1)?;
    let least = claims.look(&mut t);
    assert!(rt; least == 0);
    claims.join(&mut s, t);
    Ok(claims.finish(s))
}

// One seat draws 0, 1, 2 and 3, where no candidate passes.
fn nobody(rt: &impl Abort, alloc: Global) -> Result<(u64, u64), Fail> {
    let level = three_candidates(rt, alloc, THREE_TASKS_TOO_TIGHT)?;
    let (claims, mut seat) = claims_of(alloc, &level)?;
    draw(rt, alloc, &level, &claims, &mut seat, None, 0)?;
    draw(rt, alloc, &level, &claims, &mut seat, Some(0), 1)?;
    draw(rt, alloc, &level, &claims, &mut seat, Some(1), 2)?;
    draw(rt, alloc, &level, &claims, &mut seat, Some(2), 3)?;
    Ok(claims.finish(seat))
}

#[test]
fn two_seats_draw(rt: HostRuntime) -> Result<(), Fail> {
    let found = two_seats(&rt, rt.alloc())?;
    assert!(rt; found == (4, 2));
    Ok(())
}

#[test]
fn cut_short(rt: HostRuntime) -> Result<(), Fail> {
    let found = cut(&rt, rt.alloc())?;
    assert!(rt; found == (2, 0));
    Ok(())
}

#[test]
fn nobody_passes(rt: HostRuntime) -> Result<(), Fail> {
    let found = nobody(&rt, rt.alloc())?;
    assert!(rt; found == (4, 3));
    Ok(())
}
