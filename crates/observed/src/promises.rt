//! What a set promises of its tasks in an order.
ghost use Rattle.std.specs.Prelude.{◌≡◌, ◌<◌, length, map, slice_index_or, All, IfOk};
ghost use Rattle.observed.specs.Promises.{levels_from, no_promise, number_at, promise_of, promised, promises_of};

use assignment::{Place, members_at};
use blocking::blocking;
use ceilings::Tabled;
use std::alloc::{AllocError, Global};
use std::rc::Rc;
use task_sheet::{Name, Sheet};

/// What a set promises of a task at a level of an order: the numbers of its sheet, its blocking there, and the bound of its
/// response from the arrival; in microseconds.
#[derive(Clone, Copy)]
pub struct Promise {
    pub name: Name,
    /// Its index in the set.
    pub task: usize,
    /// The priority of its thread.
    pub number: u64,
    pub cost: u64,
    pub period: u64,
    pub jitter: u64,
    pub blocking: u64,
    pub bound: u64,
}

// What is promised of the task of a sheet, with its index, the number of its thread, its blocking and its bound.
fn promised(sheet: &Sheet, task: usize, number: u64, blocking: u64, bound: u64) -> Promise
    ensures { result ≡ promised sheet.now task number blocking bound }
{
    Promise {
        name: sheet.name(),
        task,
        number,
        cost: sheet.cost(),
        period: sheet.period(),
        jitter: sheet.jitter(),
        blocking,
        bound,
    }
}

// What is promised of the task of a place, below these places.
fn promise_of(set: &Tabled<'_>, number: u64, place: &Place, above: &[Place]) -> Promise
    requires task { place.now.task < length set.now }
    requires others { All (λ p. p.task < length set.now) above.now }
    ensures { result ≡ promise_of set.now number place.now above.now }
{
    let sheet = &set.sheets()[place.task];
    let time = blocking(set, place.task, members_at(above));
    promised(sheet, place.task, number, time, place.response)
}

// The number of the thread at a level; past their end 0.
fn number_at(numbers: &[u64], level: usize) -> u64
    ensures { result ≡ number_at numbers.now level }
{
    match numbers.get(level) {
        Some(number) => *number,
        None => 0,
    }
}

/// The numbers that `desk settings` gives the threads of an order, the lowest level first: those of their levels, from 1.
/// The error is out of memory.
pub fn levels_of(alloc: Global, places: &[Place]) -> Result<Vec<u64>, AllocError>
    ensures { IfOk result (λ numbers. numbers.items ≡ levels_from 1 places.now) }
{
    let mut numbers = Vec::with_capacity(alloc, places.len())?;
    for (below, _place) in places.iter().enumerate() {
        numbers.push(below as u64 + 1)?;
    }
    Ok(numbers)
}

/// What a set promises of the tasks of an order, the lowest level first, whose threads have these numbers. The error is out
/// of memory.
pub fn promises_of(
    alloc: Global,
    set: &Tabled<'_>,
    numbers: &[u64],
    places: &[Place],
) -> Result<Vec<Promise>, AllocError>
    requires { All (λ p. p.task < length set.now) places.now }
    ensures { IfOk result (λ promises. promises.items ≡ promises_of set.now numbers.now places.now) }
{
    let mut promises = Vec::with_capacity(alloc, places.len())?;
    let mut rest = places;
    let mut level = 0;
    while let Some((place, above)) = rest.split_first() {
        promises.push(promise_of(set, number_at(numbers, level), place, above))?;
        rest = above;
        level += 1;
    }
    Ok(promises)
}

// Each promise, for the jobs of its task to share.
pub(crate) fn shared(alloc: Global, promises: &[Promise]) -> Result<Vec<Rc<Promise>>, AllocError>
    ensures { IfOk result (λ shared. map (λ s. s.value) shared.items ≡ promises.now) }
{
    let mut shared = Vec::with_capacity(alloc, promises.len())?;
    for promise in promises {
        shared.push(Rc::new(alloc, *promise)?)?;
    }
    Ok(shared)
}

// That of a level.
#[tactic(auto, using(crate::proofs::SharedLaws::shared_at, crate::proofs::SharedLaws::as_many))]
pub(crate) fn shared_at<'a>(
    shared: &'a [Rc<Promise>],
    _promises: &[Promise],
    level: usize,
) -> &'a Rc<Promise>
    requires same { map (λ s. s.value) shared.now ≡ _promises.now }
    requires level { level < length _promises.now }
    ensures { result.now.value ≡ slice_index_or _promises.now level no_promise }
{
    &shared[level]
}
