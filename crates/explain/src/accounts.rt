//! Times of tasks, each with what it is made of.
ghost use Rattle.std.specs.Prelude.{IfOk};
ghost use Rattle.assignment.specs.Placings.{tasks_of_places};
ghost use Rattle.explain.specs.Accounts.{AreInTime, AreResponseAccounts, IsInTime, IsResponseAccount};

use crate::parts::{Parts, parts_of};
use assignment::{Place, members_of, tasks_of_places};
use ceilings::Tabled;
use std::alloc::{AllocError, Global};

/// A time of a task, by its index, in microseconds from its arrival, the task's deadline, and the parts of the time.
#[derive(Drop)]
pub struct Account {
    pub task: usize,
    pub time: u64,
    pub deadline: u64,
    pub parts: Parts,
}

/// The account of a response of a task below these, the lowest first. The error is out of memory.
pub fn response_account(
    alloc: Global,
    set: &Tabled<'_>,
    task: usize,
    response: u64,
    mut above: Vec<usize>,
) -> Result<Account, AllocError>
    requires { IsInTime set.now above.items (record { task = task; response = response }) }
    ensures { IfOk result (IsResponseAccount set.now above.items
        (record { task = task; response = response })) }
{
    let sheet = &set.sheets()[task];
    let members = members_of(&above);
    above.reverse();
    let window = response - sheet.jitter();
    let parts = parts_of(alloc, set, task, members, &above, window)?;
    Ok(Account {
        task,
        time: response,
        deadline: sheet.deadline(),
        parts,
    })
}

// That of a place, below these.
fn place_account(
    alloc: Global,
    set: &Tabled<'_>,
    place: &Place,
    above: &[Place],
) -> Result<Account, AllocError>
    requires { IsInTime set.now (tasks_of_places above.now) place.now }
    ensures { IfOk result (λ account. IsResponseAccount set.now
        (tasks_of_places above.now) place.now account) }
{
    let order = tasks_of_places(alloc, above)?;
    response_account(alloc, set, place.task, place.response, order)
}

/// The account of each response of an order of a set, the lowest level first. The error is out of memory.
pub(crate) fn response_accounts(
    alloc: Global,
    set: &Tabled<'_>,
    places: &[Place],
) -> Result<Vec<Account>, AllocError>
    requires { AreInTime set.now places.now }
    ensures { IfOk result (λ accounts.
        AreResponseAccounts set.now places.now accounts.items) }
{
    let mut accounts = Vec::with_capacity(alloc, places.len())?;
    let mut rest = places;
    while let Some((place, above)) = rest.split_first() {
        accounts.push(place_account(alloc, set, place, above)?)?;
        rest = above;
    }
    Ok(accounts)
}
